// Fields cut out of a table, and put in.
ghost use Rattle.std.specs.Prelude.{◌≡◌, ◌≤◌, length};
ghost use Rattle.rules.specs.Answers.{of_edit};
ghost use Rattle.rules.specs.Promises.{leaves, CutsFields, PutsFields};
ghost use Rattle.writing.specs.Writes.{Writes};
ghost use Rattle.packets.specs.Parts.{table_most};
ghost use Rattle.packets.specs.EditSteps.{start_with, Judged, MayCut, CountsTo, MayPut};

use crate::expressions::first_having;
use crate::lookups::place_behind;
use crate::records::two_at;
use crate::shifts::renumber_from;
use crate::tables::{check_table, number_table};
use references::renumbering::Shift;
use references::scans::Wanted;
use rules::{EditAnswer, EditRefusal, FIELDS_MOST, TABLE_MOST};
use writing::delivery::deliver;
use writing::puts::{put, put_two};

// The start of a table, up to a place behind its first record, with another number of fields.
fn put_start(out: &mut [u8], table: &[u8], end: usize, count: usize) -> usize
    requires { (8 ≤ end) × (end ≤ length table.now) × (end ≤ length out.old) }
    ensures { Writes out.old 0 (start_with table.now end count) out.new result }
{
    let row = put(out, 0, &table[0..6]);
    let name = put_two(out, row, count);
    put(out, name, &table[8..end])
}

// What was built: it gets the true numbers and is delivered, if it is a table but for its numbers.
fn deliver_new(new: &mut [u8], out: &mut [u8]) -> EditAnswer
    ensures { Judged new.old out.old (leaves (of_edit result) out.new) }
{
    if !number_table(new) {
        return Err(EditRefusal::BeyondLimits);
    }
    if deliver(out, new) {
        return Ok(new.len());
    }
    Err(EditRefusal::NoRoom)
}

// The table without a run that may be cut.
fn cut_by(table: &[u8], first: usize, last: usize, scratch: &mut [u8], out: &mut [u8]) -> EditAnswer
    requires { MayCut table.now first last × (length scratch.old ≡ table_most) }
    ensures { CutsFields table.now first last out.old (leaves (of_edit result)
        out.new) }
{
    let n = two_at(table, 6);
    let head = two_at(table, 0);
    let by = last + 1 - first;
    let start = place_behind(table, first);
    let next = place_behind(table, last + 1);
    let to = put_start(scratch, table, start, n - by);
    let size = put(scratch, to, &table[next..]);
    let shift = Shift::Down { from: first, by };
    renumber_from(scratch, head, n - by, shift);
    deliver_new(&mut scratch[0..size], out)
}

// The table without a run of its fields, at the output's start.
pub fn cut_fields(table: &[u8], first: usize, last: usize, out: &mut [u8]) -> EditAnswer
    ensures { CutsFields table.now first last out.old (leaves (of_edit result)
        out.new) }
{
    check_table(table)?;
    let n = two_at(table, 6);
    if last < first || n <= last {
        return Err(EditRefusal::NoFields);
    }
    if let Some(reader) = first_having(table, Wanted::Run(first, last)) {
        return Err(EditRefusal::StillRead(reader + 1));
    }
    let mut scratch = [0u8; TABLE_MOST];
    cut_by(table, first, last, &mut scratch, out)
}

// The number of records in bytes, by their lengths, if they are whole and there are at most so many. By `while`: a
// record that is not whole ends it with none.
fn count_records(records: &[u8], most: usize) -> Option<usize>
    requires { length records.now ≤ table_most }
    ensures { CountsTo records.now most result }
{
    let mut at = 0;
    let mut k = 0;
    while at < records.len() {
        let size = two_at(records, at);
        if most <= k || size < 6 || records.len() - at < size {
            return None;
        }
        at += size;
        k += 1;
    }
    Some(k)
}

// The table with k records before the field of an index, or at the end.
fn put_by(
    table: &[u8],
    index: usize,
    k: usize,
    records: &[u8],
    scratch: &mut [u8],
    out: &mut [u8],
) -> EditAnswer
    requires { MayPut table.now index k records.now × (length scratch.old ≡ table_most) }
    ensures { PutsFields table.now index records.now out.old (leaves (of_edit result)
        out.new) }
{
    let n = two_at(table, 6);
    let head = two_at(table, 0);
    let place = place_behind(table, index);
    let to = put_start(scratch, table, place, n + k);
    let next = put(scratch, to, records);
    let size = put(scratch, next, &table[place..]);
    let shift = Shift::Up { from: index, by: k };
    renumber_from(scratch, head, index, shift);
    renumber_from(scratch, next, n - index, shift);
    deliver_new(&mut scratch[0..size], out)
}

// The table with the fields of records before the field of an index, or at the end, at the output's start.
pub fn put_fields(table: &[u8], index: usize, records: &[u8], out: &mut [u8]) -> EditAnswer
    ensures { PutsFields table.now index records.now out.old (leaves (of_edit result)
        out.new) }
{
    check_table(table)?;
    let n = two_at(table, 6);
    if records.is_empty() || n < index {
        return Err(EditRefusal::NoFields);
    }
    if TABLE_MOST - table.len() < records.len() {
        return Err(EditRefusal::BeyondLimits);
    }
    let Some(k) = count_records(records, FIELDS_MOST - n) else {
        return Err(EditRefusal::BeyondLimits);
    };
    let mut scratch = [0u8; TABLE_MOST];
    put_by(table, index, k, records, &mut scratch, out)
}
