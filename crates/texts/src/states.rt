// What is kept of a text between two lines, but for the bytes of cells, records and names.
ghost use Rattle.std.specs.Prelude.{◌≡◌, ◌+◌, ◌≤◌, Some};
ghost use Rattle.rules.specs.Limits.{text_most};
ghost use Rattle.texts.specs.Changes.{awaits_field, begun_with, changed, made_wrong, made_wrong_row, expected};
ghost use Rattle.texts.specs.declared.notes.Note.TheVariants.{TooMany};

use crate::notes::Note;

// The line that must come next; none where a line was wrong.
#[derive(Clone, Copy, Default)]
pub(crate) enum Stage {
    #[default]
    Opening,
    Blank,
    TensRuler,
    UnitsRuler,
    TopBorder,
    FirstRow,
    InRow,
    RowOrBlank,
    WhereLine,
    LastBlank,
    FirstField,
    FieldLine,
    Lost,
}

// Whole lines, the line that must come next, W and the length of NAME; the lines of the row that is not ended; the
// number of cells, where they end, and where the cell of the next field stands; field lines, fields that are kept of
// them, where their records end, whether the rest field is one of them; the lowest refusal.
// Numbers and places, and no slices: between two pieces of a text they stand in the bytes of a state.
#[derive(Clone, Copy, Default)]
pub(crate) struct Reading {
    pub lines: usize,
    pub stage: Stage,
    pub width: usize,
    pub name: usize,
    pub row: usize,
    pub cells: usize,
    pub slots: usize,
    pub cell: usize,
    pub count: usize,
    pub fields: usize,
    pub end: usize,
    pub rested: bool,
    pub note: Option<Note>,
}

// A field line must come next.
pub(crate) fn awaits_field(s: Stage) -> bool
    ensures { result ≡ awaits_field s }
{
    matches!(s, Stage::FirstField | Stage::FieldLine)
}

// Before the first line.
pub(crate) fn begin() -> Reading
    ensures { result ≡ begun_with }
{
    Reading::default()
}

// What must come next, and the lowest refusal.
pub(crate) fn staged(r: Reading, s: Stage, n: Option<Note>) -> Reading
    ensures { result ≡ changed r r.lines s n }
{
    Reading {
        stage: s,
        note: n,
        ..r
    }
}

// A right line, what must come next, and the lowest refusal.
pub(crate) fn onward(r: Reading, s: Stage, n: Option<Note>) -> Reading
    requires { r.lines ≤ text_most }
    ensures { result ≡ changed r (r.lines + 1) s n }
{
    Reading {
        lines: r.lines + 1,
        stage: s,
        note: n,
        ..r
    }
}

// 4: too many cells or field lines.
pub(crate) fn too_many(r: Reading, s: Stage) -> Reading
    requires { r.lines ≤ text_most }
    ensures { result ≡ changed r (r.lines + 1) s (Some TooMany) }
{
    onward(r, s, Some(Note::TooMany))
}

// 3 at this line.
pub(crate) fn wrong(r: Reading) -> Reading
    requires { r.lines ≤ text_most }
    ensures { result ≡ made_wrong r }
{
    staged(r, Stage::Lost, Some(Note::BadLine(r.lines + 1)))
}

// 3 at the last line, which is one of a row with a cell whose text is no label.
pub(crate) fn wrong_row(r: Reading) -> Reading
    ensures { result ≡ made_wrong_row r }
{
    staged(r, Stage::Lost, Some(Note::BadLine(r.lines)))
}

// The line is the one that must come, or it is not.
pub(crate) fn expect(r: Reading, right: bool, s: Stage) -> Reading
    requires { r.lines ≤ text_most }
    ensures { result ≡ expected right r s }
{
    if right {
        return onward(r, s, r.note);
    }
    wrong(r)
}
