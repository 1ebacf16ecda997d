// Tables are checked.
ghost use Rattle.std.specs.Prelude.{◌≡◌, true, false, [], ◌<◌, ◌≤◌, length};
ghost use Rattle.rules.specs.Within.{is_row_width};
ghost use Rattle.rules.specs.Promises.{ChecksTable};
ghost use Rattle.rules.specs.Limits.{fields_most};
ghost use Rattle.packets.specs.Parts.{table_most};
ghost use Rattle.packets.specs.CountsTest.{Zeros};
ghost use Rattle.packets.specs.Conversions.{NumbersTable};
ghost use Rattle.packets.specs.TableTest.{
  GatheredBy,
  TalliedBy,
  GatheredAll,
  walk_at,
  head_test,
  last_test,
  fields_test,
  right_test,
  table_test,
};
ghost use Rattle.laws.specs.Places.{two_at};
ghost use Rattle.rules.specs.Answers.{of_table};

use crate::columns::Columns;
use crate::counts::{count_record, keeps_numbers};
use crate::fields::{bits_of, ends_with, has_trees, is_field, is_word, mark_of};
use crate::records::{FEW_FIELDS, parts_at, two_at};
use crate::unique::{gather, has_unique_names};
use names::classes::Classes;
use names::labels::is_label;
use references::numbers::put_numbers;
use rules::{FIELDS_MOST, TABLE_MOST, TableAnswer, TableRefusal};

// The kinds of the first and the last record. Numbers: the kind is read where a table may not be good, so any number
// may stand there.
const HEAD: usize = 1;

const LAST: usize = 5;

fn is_row_width(w: usize) -> bool
    ensures { result ≡ is_row_width w }
{
    matches!(w, 8 | 16 | 32)
}

// The first record.
#[tactic(auto, unfolding(crate::specs::TableTest::head_test))]
pub(crate) fn is_head(s: &[u8]) -> bool
    ensures { result ≡ head_test s.now }
{
    let end = 10 + two_at(s, 8);
    let count = two_at(s, 6);
    end <= s.len()
        && two_at(s, 0) == end
        && two_at(s, 2) == HEAD
        && is_row_width(two_at(s, 4))
        && 1 <= count
        && count <= FIELDS_MOST
        && is_label(&s[10..end])
}

// The last record, which ends the table.
#[tactic(auto, unfolding(crate::specs::TableTest::last_test))]
fn is_last(s: &[u8], at: usize) -> bool
    requires { at ≤ table_most }
    ensures { result ≡ last_test s.now at }
{
    s.len() == at + 4 && two_at(s, at) == 4 && two_at(s, at + 2) == LAST
}

// The place past all fields, which are tested one after the other: what is told of each is put into the columns.
// By the place, which is_field tests and which is the answer.
fn walk<const N: usize>(
    classes: &Classes,
    s: &[u8],
    w: usize,
    count: usize,
    from: usize,
    columns: &mut Columns<N>,
) -> Option<usize>
    requires bounds { (0 < w) × (length s.now ≤ table_most) × (from ≤ length s.now) }
    requires room { (count ≤ fields_most) × (count ≤ N) × Zeros columns.old.counts }
    ensures is { result ≡ walk_at w count [] 0 false s.now from }
    ensures gathered { GatheredBy result s.now count from columns.new.places columns.new.keys
        columns.new.shorts columns.new.words }
    ensures counted { TalliedBy result s.now count from columns.new.counts }
{
    let mut at = from;
    let mut place: usize = 0;
    let mut ended = false;
    // By the index, which the columns share.
    for i in 0..count {
        let parts = parts_at(s, at);
        if !is_field(classes, s, at, parts, w, place, ended) {
            return None;
        }
        let word = is_word(classes, s, parts.label);
        columns.marks[i] = mark_of(parts, word);
        if !has_trees(s, parts, &columns.marks, i) {
            return None;
        }
        gather(s, at, parts, word, i, columns);
        count_record(s, parts, i, &mut columns.counts);
        place += bits_of(parts);
        ended = ends_with(ended, parts);
        at = parts.next;
    }
    if place % w == 0 { Some(at) } else { None }
}

// What comes behind a right head: the records of the fields, and the last, but for the numbers that they keep. Where
// all is right, the columns are those of the fields.
fn has_fields<const N: usize>(table: &[u8], columns: &mut Columns<N>) -> bool
    requires head { (length table.now ≤ table_most) × (head_test table.now ≡ true) }
    requires room { (two_at table.now 6 ≤ N) × Zeros columns.old.counts }
    ensures is { result ≡ fields_test table.now }
    ensures gathered { GatheredAll result table.now columns.new.places columns.new.counts }
{
    let w = two_at(table, 4);
    let count = two_at(table, 6);
    let from = 10 + two_at(table, 8);
    let classes = Classes::new();
    let Some(at) = walk(&classes, table, w, count, from, columns) else {
        return false;
    };
    is_last(table, at) && has_unique_names(table, columns, count)
}

// What comes behind a right head with at most N fields, with the numbers that the records keep.
fn is_right<const N: usize>(table: &[u8]) -> bool
    requires head { (length table.now ≤ table_most) × (head_test table.now ≡ true) }
    requires room { (two_at table.now 6 ≤ N) × (N ≤ fields_most) }
    ensures { result ≡ right_test table.now }
{
    let mut columns = Columns::<N>::empty();
    has_fields(table, &mut columns)
        && keeps_numbers(table, &columns.places, &columns.counts, two_at(table, 6))
}

#[tactic(auto, unfolding(crate::specs::TableTest::table_test))]
fn is_table(table: &[u8]) -> bool
    ensures { result ≡ table_test table.now }
{
    if TABLE_MOST < table.len() || !is_head(table) {
        return false;
    }
    if two_at(table, 6) <= FEW_FIELDS {
        is_right::<FEW_FIELDS>(table)
    } else {
        is_right::<FIELDS_MOST>(table)
    }
}

// A table that is right but for its numbers gets the true ones.
pub(crate) fn number_table(table: &mut [u8]) -> bool
    ensures { NumbersTable result table.old table.new }
{
    if TABLE_MOST < table.len() || !is_head(table) {
        return false;
    }
    let n = two_at(table, 6);
    let from = 10 + two_at(table, 8);
    let mut columns = Columns::<FIELDS_MOST>::empty();
    if !has_fields(table, &mut columns) {
        return false;
    }
    put_numbers(&mut table[from..], n, &columns.counts);
    true
}

// Good, with its length, exactly where the bytes are the stored form of a description within the limits.
#[tactic(auto, using(crate::proofs::TableLaws::accepts, crate::proofs::TableLaws::refuses))]
pub fn check_table(table: &[u8]) -> TableAnswer
    ensures { ChecksTable table.now (of_table result) }
{
    if is_table(table) {
        return Ok(table.len());
    }
    Err(TableRefusal::NotGood)
}
