// The text of a cell, made of its part of each line of a row. The lines of a row are kept in a buffer, each with room
// for the longest.
ghost use Rattle.std.specs.Prelude.{◌≡◌, ◌+◌, ◌*◌, ◌-◌, ◌≤◌, length};
ghost use Rattle.writing.specs.Writes.{Writes};
ghost use Rattle.rules.specs.Rows.{cell_text};
ghost use Rattle.texts.specs.RowPlaces.{added_line, cell_at};

use crate::rows::{spaces_end, trimmed};
use names::classes::Classes;
use rules::ROW_LINES_MOST;
use writing::puts::put;

// No line of a row is longer.
pub(crate) const LINE_ROOM: usize = 65;

// Room for the lines of a row.
pub(crate) const ROW_ROOM: usize = ROW_LINES_MOST * LINE_ROOM;

// One more line of a text, behind a space unless it is bare.
fn add_line(classes: &Classes, cells: &mut [u8], at: usize, chars: &[u8], bare: bool) -> usize
    requires { at + (1 + length chars.now) ≤ length cells.old }
    ensures { Writes cells.old at (added_line bare chars.now) cells.new result }
{
    let from = spaces_end(classes, chars);
    let len = trimmed(classes, &chars[from..]);
    if len == 0 {
        return at;
    }
    if bare {
        return put(cells, at, &chars[from..from + len]);
    }
    let next = put(cells, at, b" ");
    put(cells, next, &chars[from..from + len])
}

// The text of the cell from column `a` to column `b` of `n` kept lines, put at a place.
// By the line's number: an invariant of the loop speaks of the lines before it.
pub(crate) fn put_text(
    classes: &Classes,
    cells: &mut [u8],
    at: usize,
    row: &[u8; ROW_ROOM],
    n: usize,
    a: usize,
    b: usize,
) -> usize
    requires { (n ≤ 4) × (a ≤ b) × (b ≤ 65) × (at + 4 * (1 + (b - a)) ≤ length cells.old) }
    ensures { Writes cells.old at (cell_text (cell_at row.now n a (b - a)))
        cells.new result }
{
    let down = (b - a + 1) / 2 == 1;
    let mut end = at;
    for j in 0..n {
        let from = LINE_ROOM * j;
        let bare = down || end == at;
        end = add_line(classes, cells, end, &row[from + a..from + b], bare);
    }
    end
}
