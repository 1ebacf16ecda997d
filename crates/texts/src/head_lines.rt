// The lines of a text's head of which something is kept: NAME, W, the lines of rows and their cells.
ghost use Rattle.std.specs.Prelude.{true, List, ◌≡◌, ℕ, ◌≤◌, length};
ghost use Rattle.rules.specs.Limits.{text_most, label_most};
ghost use Rattle.rules.specs.Frames.{is_line};
ghost use Rattle.text_laws.specs.FrameReader.{read_tens, read_row};
ghost use Rattle.text_laws.specs.Fold.{row_or_blank, opening_name, with_name, with_width, with_row, lined_at};
ghost use Rattle.texts.specs.HeldAreas.{slots_most};
ghost use Rattle.texts.specs.States.{Room, Taken, Area, area, HeadStep, HeadRow, RowStep};
ghost use Rattle.texts.specs.Changes.{row_ended};

use crate::cell_texts::{LINE_ROOM, ROW_ROOM};
use crate::openings::opening_name;
use crate::rows::is_row;
use crate::rulers::{is_border, ruler_width};
use crate::slots::put_row;
use crate::states::{Reading, Stage, expect, onward, too_many, wrong, wrong_row};
use bars::further_lines::goes_on;
use names::classes::Classes;
use rules::FIELDS_MOST;
use writing::puts::put;

// The opening line: NAME is put at the start of the table.
pub(crate) fn take_opening(mut r: Reading, line: &[u8], table: &mut [u8]) -> Reading
    requires { Room r × (r.lines ≤ text_most) × (label_most ≤ length table.old) }
    ensures room { Taken r result }
    ensures step { (cells counts : List ℕ) → HeadStep (λ f. with_name f (opening_name line.now))
        r result cells cells (area table.old counts) (area table.new counts) }
{
    let Some(name) = opening_name(line) else {
        return wrong(r);
    };
    let n = put(table, 0, name);
    r.name = n;
    r.end = n;
    onward(r, Stage::Blank, r.note)
}

// The ruler of tens.
pub(crate) fn take_ruler(mut r: Reading, line: &[u8]) -> Reading
    requires { Room r × (r.lines ≤ text_most) }
    ensures room { Taken r result }
    ensures step { (cells : List ℕ) (table : Area) → HeadStep (λ f. with_width f (read_tens
        line.now)) r result cells cells table table }
{
    let Some(w) = ruler_width(line) else {
        return wrong(r);
    };
    r.width = w;
    onward(r, Stage::UnitsRuler, r.note)
}

// The first line of a row.
pub(crate) fn take_row(mut r: Reading, line: &[u8], row: &mut [u8; ROW_ROOM]) -> Reading
    requires { Room r × (r.lines ≤ text_most) × (is_line line.now ≡ true) }
    ensures room { Taken r result }
    ensures step { (cells : List ℕ) (table : Area) → HeadStep (λ f. with_row f (read_row f.width
        line.now)) r result cells cells table table }
    ensures row { HeadRow (λ f. with_row f (read_row f.width line.now)) r result row.new }
{
    if is_row(line, r.width) {
        put(row, 0, line);
        r.row = 1;
        return onward(r, Stage::InRow, r.note);
    }
    wrong(r)
}

// The row ends: its cells are kept behind those before it, or 4 is noted.
fn end_row(mut r: Reading, next: usize, n: usize) -> Reading
    requires { Room r × (r.lines ≤ text_most) }
    ensures { result ≡ row_ended r next n }
{
    r.row = 0;
    let most = FIELDS_MOST - r.cells;
    if most < n {
        return too_many(r, Stage::RowOrBlank);
    }
    r.cells += n;
    r.slots = next;
    onward(r, Stage::RowOrBlank, r.note)
}

// A further line of a row, or its border if the text of each cell is a label.
pub(crate) fn take_more(
    mut r: Reading,
    line: &[u8],
    cells: &mut [u8],
    row: &mut [u8; ROW_ROOM],
) -> Reading
    requires { Room r × (r.lines ≤ text_most) × (slots_most ≤ length cells.old) × (is_line line.now ≡ true) }
    ensures room { Taken r result }
    ensures step { RowStep line.now r result cells.old cells.new row.old
        row.new }
{
    let n = r.row;
    let w = r.width;
    let size = 2 * w + 1;
    if goes_on(n, &row[0..size], line) {
        put(row, LINE_ROOM * n, line);
        r.row = n + 1;
        return onward(r, Stage::InRow, r.note);
    }
    let from = r.slots;
    let classes = Classes::new();
    let Some((next, count)) = put_row(&classes, cells, from, row, n, size) else {
        return wrong_row(r);
    };
    if is_border(line, w) {
        return end_row(r, next, count);
    }
    wrong(r)
}

// The first line of a row, or the blank line behind the last border.
pub(crate) fn take_row_or_blank(r: Reading, line: &[u8], row: &mut [u8; ROW_ROOM]) -> Reading
    requires { Room r × (r.lines ≤ text_most) × (is_line line.now ≡ true) }
    ensures room { Taken r result }
    ensures step { (cells : List ℕ) (table : Area) → HeadStep (λ f. lined_at row_or_blank f line.now)
        r result cells cells table table }
    ensures row { HeadRow (λ f. lined_at row_or_blank f line.now) r result row.new }
{
    if line.is_empty() {
        return expect(r, true, Stage::WhereLine);
    }
    take_row(r, line, row)
}
