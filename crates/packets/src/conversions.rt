// Old tables, whose records keep no number, converted.
ghost use Rattle.std.specs.Prelude.{◌≡◌, true, ◌+◌, ◌≤◌, length, take, is_some, IfSome};
ghost use Rattle.std.proofs.Math.Option.{some};
ghost use Rattle.laws.specs.Places.{two_at};
ghost use Rattle.rules.specs.Answers.{of_conversion};
ghost use Rattle.rules.specs.Promises.{leaves, ConvertsTable};
ghost use Rattle.writing.specs.Writes.{Writes};
ghost use Rattle.packets.specs.TableTest.{head_test};
ghost use Rattle.packets.specs.Conversions.{
  old_most,
  widened_most,
  widened,
  is_old,
  widen_table,
  WidensTo,
  adds_any,
};

use crate::expressions::first_having;
use crate::records::two_at;
use crate::tables::{is_head, number_table};
use references::scans::Wanted;
use rules::{ConversionAnswer, ConversionRefusal, LABEL_MOST, RECORD_MOST};
use writing::delivery::deliver;
use writing::puts::{put, put_two};

// The fields that an old table may have; no old good table is longer than OLD_MOST, nor what it becomes than the room.
const OLD_FIELDS: usize = 64;

const OLD_MOST: usize = 14 + LABEL_MOST + (RECORD_MOST - 2) * OLD_FIELDS;

const WIDENED_MOST: usize = OLD_MOST + 2 * OLD_FIELDS;

// The old record that stands in front.
fn old_record(s: &[u8]) -> Option<&[u8]>
    ensures variant { is_some result ≡ is_old s.now }
    ensures record { IfSome result (λ r. r.now ≡ take (two_at s.now 0) s.now) }
{
    let size = two_at(s, 0);
    let kind = two_at(s, 2);
    if 4 <= size && size <= s.len() && 2 <= kind && kind <= 4 {
        Some(&s[..size])
    } else {
        None
    }
}

// An old record with the number 0.
fn put_record(out: &mut [u8], to: usize, old: &[u8]) -> usize
    requires { (4 ≤ length old.now) × (length old.now ≤ old_most)
        × (to + (length old.now + 2) ≤ length out.old) }
    ensures end { result ≡ to + (length old.now + 2) }
    ensures bytes { Writes out.old to (widened old.now) out.new result }
{
    let size = put_two(out, to, old.len() + 2);
    let kind = put_two(out, size, two_at(old, 2) + 10);
    let number = put_two(out, kind, 0);
    put(out, number, &old[4..])
}

// How many bytes there are of an old table with the number 0 in each record, where its records stand as they should.
fn widen(table: &[u8], out: &mut [u8]) -> Option<usize>
    requires { (head_test table.now ≡ true) × (two_at table.now 6 ≤ 64) × (length table.now ≤ old_most)
        × (widened_most ≤ length out.old) }
    ensures { WidensTo (widen_table table.now) result out.new }
{
    let n = two_at(table, 6);
    let head = two_at(table, 0);
    let mut to = put(out, 0, &table[..head]);
    let mut at = head;
    // Two places move on at once, and the first record that does not stand ends it all.
    for _ in 0..n {
        let record = old_record(&table[at..])?;
        to = put_record(out, to, record);
        at += record.len();
    }
    Some(put(out, to, &table[at..]))
}

// Some expression of the fields has an operator that the old rules do not know.
#[tactic(auto, using(crate::proofs::HavingLaws::some_is))]
fn adds_operators(table: &[u8]) -> bool
    ensures { result ≡ adds_any table.now }
{
    first_having(table, Wanted::Added).is_some()
}

// What a table was widened to: it gets the true numbers and is delivered.
fn finish(table: &[u8], new: &mut [u8], out: &mut [u8]) -> ConversionAnswer
    requires { (head_test table.now ≡ true) × (two_at table.now 6 ≤ 64) × (length table.now ≤ old_most)
        × (widen_table table.now ≡ some new.old) }
    ensures { ConvertsTable table.now out.old (leaves (of_conversion result)
        out.new) }
{
    if !number_table(new) {
        return Err(ConversionRefusal::NotGood);
    }
    if adds_operators(new) {
        return Err(ConversionRefusal::NotGood);
    }
    if deliver(out, new) {
        return Ok(new.len());
    }
    Err(ConversionRefusal::NoRoom)
}

// A table with a right head and at most 64 fields, with room for what it becomes.
fn convert_by(table: &[u8], scratch: &mut [u8], out: &mut [u8]) -> ConversionAnswer
    requires { (head_test table.now ≡ true) × (two_at table.now 6 ≤ 64) × (length table.now ≤ old_most)
        × (widened_most ≤ length scratch.old) }
    ensures { ConvertsTable table.now out.old (leaves (of_conversion result)
        out.new) }
{
    let Some(size) = widen(table, scratch) else {
        return Err(ConversionRefusal::NotGood);
    };
    finish(table, &mut scratch[..size], out)
}

// An old good table becomes the table of the same description, at the output's start.
pub fn convert_table(table: &[u8], out: &mut [u8]) -> ConversionAnswer
    ensures { ConvertsTable table.now out.old (leaves (of_conversion result)
        out.new) }
{
    if OLD_MOST < table.len() {
        return Err(ConversionRefusal::NotGood);
    }
    if !is_head(table) {
        return Err(ConversionRefusal::NotGood);
    }
    if OLD_FIELDS < two_at(table, 6) {
        return Err(ConversionRefusal::NotGood);
    }
    let mut scratch = [0u8; WIDENED_MOST];
    convert_by(table, &mut scratch, out)
}
