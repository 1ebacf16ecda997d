// The cells of rows, kept one behind the other in a buffer: whether it is a long row's, its bits, the length of its
// text, its text. Bytes and not an array of structs: they are part of a state that the caller lends.
ghost use Rattle.std.specs.Prelude.{◌≡◌, ◌+◌, ◌*◌, ◌-◌, ◌≤◌, ◌<◌, length};
ghost use Rattle.writing.specs.Writes.{Writes};
ghost use Rattle.texts.specs.RowPlaces.{slot_at};
ghost use Rattle.texts.specs.Slots.{row_most, stored_slot, RowedAs};

use crate::cell_texts::{LINE_ROOM, ROW_ROOM, put_text};
use crate::text_bytes::part_end;
use names::classes::Classes;
use writing::puts::put;

// Room for the cells of a row, 7 bytes for each column.
pub(crate) const ROW_MOST: usize = 7 * LINE_ROOM;

// The cell from column `a` to column `b` of `n` kept lines.
fn put_slot(
    classes: &Classes,
    cells: &mut [u8],
    at: usize,
    row: &[u8; ROW_ROOM],
    n: usize,
    a: usize,
    b: usize,
    long: bool,
) -> usize
    requires { (n ≤ 4) × (0 < a) × (a ≤ b) × (b < 65) × (at + (3 + 4 * (1 + (b - a))) ≤ length cells.old) }
    ensures place { (at + 3 ≤ result) × (result ≤ length cells.new) }
    ensures writes { Writes cells.old at (stored_slot (slot_at long row.now n a (b - a)))
        cells.new result }
{
    let from = at + 3;
    let end = put_text(classes, cells, from, row, n, a, b);
    let head = [u8::from(long), ((b - a + 1) / 2) as u8, (end - from) as u8];
    put(cells, at, &head);
    end
}

// The cells of a row of `n` kept lines of `size` bytes: the place behind them and their number, or none where the text
// of a cell is no label.
// By columns and not by `split`: a cell is put by the columns between which it stands on each line.
pub(crate) fn put_row(
    classes: &Classes,
    cells: &mut [u8],
    at: usize,
    row: &[u8; ROW_ROOM],
    n: usize,
    size: usize,
) -> Option<(usize, usize)>
    requires { (n ≤ 4) × (0 < size) × (size ≤ 65) × (at + row_most ≤ length cells.old) }
    ensures { RowedAs row.now n size cells.old at cells.new result }
{
    let first = &row[0..size];
    let bar = first[0];
    let mut next = at;
    let mut from = 1;
    let mut count = 0;
    while from < size {
        let to = part_end(first, from, bar);
        if to >= size {
            return None;
        }
        let end = put_slot(classes, cells, next, row, n, from, to, bar == b':');
        if !classes.is_label(&cells[next + 3..end]) {
            return None;
        }
        next = end;
        count += 1;
        from = to + 1;
    }
    Some((next, count))
}
