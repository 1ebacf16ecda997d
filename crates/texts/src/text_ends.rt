// The end of a text: the lowest refusal of all, or the table.
ghost use Rattle.std.specs.Prelude.{cond, ◌++◌, ◌≡◌, ◌+◌, ◌≤◌, ◌<◌, length, drop};
ghost use Rattle.rules.specs.Answers.{of_text};
ghost use Rattle.writing.specs.Writes.{Writes};
ghost use Rattle.rules.specs.Limits.{text_most};
ghost use Rattle.rules.specs.Trees.{le2};
ghost use Rattle.rules.specs.Stored.{counted, record_of};
ghost use Rattle.references.specs.Numbers.{numbered};
ghost use Rattle.text_laws.specs.Lowest.{lower};
ghost use Rattle.texts.specs.Noted.{place_of, note_of};
ghost use Rattle.texts.specs.Slots.{are_labels};
ghost use Rattle.texts.specs.HeldAreas.{records_most, table_bytes};
ghost use Rattle.texts.specs.States.{Room, Taken, CutStep, early_note, row_note, remain_note, last_note};
ghost use Rattle.texts.specs.States.{TableStep, area, EndStep};

use crate::cell_texts::ROW_ROOM;
use crate::held_areas::{HELD_ROOM, TABLE_AT};
use crate::notes::{Note, lower};
use crate::slots::{ROW_MOST, put_row};
use crate::states::{Reading, Stage, staged};
use names::classes::Classes;
use references::numbers::put_numbers;
use rules::{FIELDS_MOST, TextAnswer, TextRefusal};
use writing::puts::{put, put_counted, put_two};

// 3 behind the last line.
fn early(r: Reading) -> Option<Note>
    requires { r.lines ≤ text_most }
    ensures { result ≡ early_note r }
{
    Some(Note::BadLine(r.lines + 1))
}

// The text of each cell of `n` kept lines of `size` bytes is a label.
fn is_labelled(row: &[u8; ROW_ROOM], n: usize, size: usize) -> bool
    requires { (n ≤ 4) × (0 < size) × (size ≤ 65) }
    ensures { result ≡ are_labels row.now n size }
{
    let mut cells = [0u8; ROW_MOST];
    let classes = Classes::new();
    put_row(&classes, &mut cells, 0, row, n, size).is_some()
}

// 3 where a text ends in a row.
fn row_note(r: Reading, row: &[u8; ROW_ROOM]) -> Option<Note>
    requires { Room r × (r.lines ≤ text_most) }
    ensures { result ≡ row_note r row.now }
{
    if is_labelled(row, r.row, 2 * r.width + 1) {
        return early(r);
    }
    Some(Note::BadLine(r.lines))
}

// 7 where cells remain.
fn remaining(r: Reading) -> Option<Note>
    requires { r.lines ≤ text_most }
    ensures { result ≡ remain_note r }
{
    (r.fields < r.cells).then_some(Note::Mismatch(r.lines + 1))
}

// The lowest refusal of a text that ends behind field lines.
fn fields_note(r: Reading, whole: bool) -> Option<Note>
    requires { (r.lines ≤ text_most) × (place_of r.note ≤ r.lines + 1) }
    ensures lowest { note_of result ≡ cond whole (lower (note_of r.note) (note_of (remain_note r)))
        (note_of (early_note r)) }
    ensures place { place_of result ≤ r.lines + 1 }
{
    if whole {
        return lower(r.note, remaining(r));
    }
    early(r)
}

// The lowest refusal of a text; `whole` says that its last line is.
fn last_note(r: Reading, whole: bool, row: &[u8; ROW_ROOM]) -> Option<Note>
    requires { Room r × (r.lines ≤ text_most) }
    ensures lowest { note_of result ≡ last_note r.stage r whole row.now }
    ensures place { place_of result ≤ r.lines + 1 }
{
    match r.stage {
        Stage::InRow => row_note(r, row),
        Stage::FieldLine => fields_note(r, whole),
        Stage::Lost => r.note,
        _ => early(r),
    }
}

// A line that is too long: 3, unless 2 or 3 was found before.
pub(crate) fn cut_line(r: Reading, row: &[u8; ROW_ROOM]) -> Reading
    requires { Room r × (r.lines ≤ text_most) }
    ensures room { Taken r result }
    ensures step { CutStep r result row.now }
    ensures lines { result.lines ≡ r.lines }
{
    let n = last_note(r, false, row);
    staged(r, Stage::Lost, n)
}

// The first record.
// Its kind is a number of the stored form; packets reads them for itself.
fn put_head(out: &mut [u8], w: usize, n: usize, name: &[u8]) -> usize
    requires { (10 + length name.now ≤ length out.old) × (length name.now ≤ text_most) }
    ensures { Writes out.old 0 (record_of 1 (le2 w ++ (le2 n ++ counted name.now)))
        out.new result }
{
    let size = put_two(out, 0, 10 + name.len());
    let kind = put_two(out, size, 1);
    let width = put_two(out, kind, w);
    let count = put_two(out, width, n);
    put_counted(out, count, name)
}

// The records of fields, each with its number.
fn put_records(
    out: &mut [u8],
    at: usize,
    records: &[u8],
    n: usize,
    counts: &[u16; FIELDS_MOST],
) -> usize
    requires { at + length records.now ≤ length out.old }
    ensures end { result ≡ at + length records.now }
    ensures bytes { Writes out.old at (numbered n counts.now records.now)
        out.new result }
{
    let end = put(out, at, records);
    put_numbers(&mut out[at..end], n, counts);
    end
}

// The table into an output that has room for it.
// The kind of its last record, 5, is a number of the stored form; packets reads them for itself.
fn put_table(r: Reading, table: &[u8], counts: &[u16; FIELDS_MOST], out: &mut [u8]) -> usize
    requires { Room r × (records_most ≤ length table.now) × (14 + r.end ≤ length out.old) }
    ensures bytes { TableStep r (area table.now counts.now) out.old
        out.new result }
    ensures end { result ≡ 14 + r.end }
{
    let name = r.name;
    let end = r.end;
    let head = put_head(out, r.width, r.fields, &table[0..name]);
    let body = put_records(out, head, &table[name..end], r.fields, counts);
    let size = put_two(out, body, 4);
    put_two(out, size, 5)
}

// The answer to a text, and its table in the output where it has one.
pub(crate) fn end_text(
    r: Reading,
    whole: bool,
    row: &[u8; ROW_ROOM],
    held: &[u8; HELD_ROOM],
    counts: &[u16; FIELDS_MOST],
    out: &mut [u8],
) -> TextAnswer
    requires { Room r × (r.lines ≤ text_most) }
    ensures step { EndStep r whole row.now (area (table_bytes held.now) counts.now)
        out.old out.new result }
    ensures refusal { ((of_text result).number ≡ 0 → ⊥) → out.new ≡ out.old }
    ensures place { (of_text result).place ≤ r.lines + 1 }
    ensures within { (of_text result).amount ≤ length out.old }
    ensures beyond { drop (of_text result).amount out.new ≡ drop (of_text result).amount out.old }
{
    if let Some(last) = last_note(r, whole, row) {
        return Err(last.into());
    }
    let size = 14 + r.end;
    if out.len() < size {
        return Err(TextRefusal::NoRoom);
    }
    put_table(r, &held[TABLE_AT..], counts, out);
    Ok(size)
}
