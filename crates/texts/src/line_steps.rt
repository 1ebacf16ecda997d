// One line of a text.
ghost use Rattle.std.specs.Prelude.{true, false, List, ◌≡◌, ℕ};
ghost use Rattle.rules.specs.Frames.{is_line};
ghost use Rattle.texts.specs.Changes.{awaits_field};
ghost use Rattle.texts.specs.States.{LineRoom, Taken, LineStep};

use crate::cell_texts::ROW_ROOM;
use crate::head_lines::{take_more, take_opening, take_row, take_row_or_blank, take_ruler};
use crate::held_areas::{HELD_ROOM, NAMES_AT, TABLE_AT};
use crate::kept_fields::take_field;
use crate::rulers::{is_border, is_units};
use crate::states::{Reading, Stage, awaits_field, expect};
use crate::text_ends::cut_line;
use names::words::same_words;
use rules::{FIELDS_MOST, LINE_MOST};

// What is kept behind a line that is no field line: the arms of those are never taken.
// A match and no closure that is kept: the stage may come from a byte of a state.
fn take_head(
    r: Reading,
    line: &[u8],
    held: &mut [u8; HELD_ROOM],
    row: &mut [u8; ROW_ROOM],
) -> Reading
    requires { LineRoom r line.now × (is_line line.now ≡ true)
        × (awaits_field r.stage ≡ false) }
    ensures room { Taken r result }
    ensures step { (counts : List ℕ) → LineStep line.now r result held.old
        held.new row.old row.new counts counts }
{
    let w = r.width;
    let stage = r.stage;
    match stage {
        Stage::Opening => { take_opening(r, line, &mut held[TABLE_AT..]) }
        Stage::Blank => { expect(r, line.is_empty(), Stage::TensRuler) }
        Stage::TensRuler => { take_ruler(r, line) }
        Stage::UnitsRuler => { expect(r, is_units(line, w), Stage::TopBorder) }
        Stage::TopBorder => { expect(r, is_border(line, w), Stage::FirstRow) }
        Stage::FirstRow => { take_row(r, line, row) }
        Stage::InRow => { take_more(r, line, &mut held[0..NAMES_AT], row) }
        Stage::RowOrBlank => { take_row_or_blank(r, line, row) }
        Stage::WhereLine => { expect(r, same_words(line, b"where:"), Stage::LastBlank) }
        Stage::LastBlank => { expect(r, line.is_empty(), Stage::FirstField) }
        Stage::FirstField => { r }
        Stage::FieldLine => { r }
        Stage::Lost => { r }
    }
}

// What is kept behind one more line.
pub(crate) fn take_line(
    r: Reading,
    line: &[u8],
    held: &mut [u8; HELD_ROOM],
    row: &mut [u8; ROW_ROOM],
    counts: &mut [u16; FIELDS_MOST],
) -> Reading
    requires { LineRoom r line.now × (is_line line.now ≡ true) }
    ensures room { Taken r result }
    ensures step { LineStep line.now r result held.old held.new
        row.old row.new counts.old counts.new }
{
    if LINE_MOST < line.len() {
        return cut_line(r, row);
    }
    let stage = r.stage;
    if awaits_field(stage) {
        return take_field(r, line, held, counts);
    }
    take_head(r, line, held, row)
}
