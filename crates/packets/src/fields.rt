// The tests of one field's record.
ghost use Rattle.std.specs.Prelude.{◌≡◌, ◌||◌, ◌+◌, ◌<◌, ◌≤◌, eqb, length, take};
ghost use Rattle.rules.specs.Names.{is_short};
ghost use Rattle.packets.specs.Parts.{place_most, table_most, ending, parts_at};
ghost use Rattle.packets.specs.FieldTest.{
  bytes_in,
  Inside,
  tree_test,
  maybe_test,
  width_test,
  trees_test,
  bounds_test,
  number_test,
  form_test,
  order_test,
  field_test,
  mark_by,
  bits_of,
};

use crate::records::{FIXED, MEASURED, Parts, REST, byte_at, bytes_of, two_at};
use crate::trees::{Checked, Cursor};
use names::classes::Classes;
use operators::codes::NUMBER_CODE;
use rules::{DEPTH_MOST, FIXED_MOST, STORED_MOST, ValueType};
use writing::spans::Span;

// A tree of the type is stored in just this part.
#[tactic(auto, unfolding(crate::specs::FieldTest::tree_test))]
fn is_tree(s: &[u8], marks: &[u8], wanted: ValueType, p: Span) -> bool
    requires { ending p ≤ place_most }
    ensures { result ≡ tree_test s.now marks.now wanted p }
{
    if STORED_MOST < p.len {
        return false;
    }
    let start = Cursor { at: p.at };
    let Checked::Typed(found, next) = start.check(s, DEPTH_MOST, marks) else {
        return false;
    };
    found == wanted && next.at == p.at + p.len
}

// None, or a tree that is yes or no.
#[tactic(auto, unfolding(crate::specs::FieldTest::maybe_test))]
fn is_maybe(s: &[u8], marks: &[u8], p: Span) -> bool
    requires { ending p ≤ place_most }
    ensures { result ≡ maybe_test s.now marks.now p }
{
    p.len == 0 || is_tree(s, marks, ValueType::YesNo, p)
}

// A measured width's tree is a number, but no single number.
#[tactic(auto, unfolding(crate::specs::FieldTest::width_test))]
fn is_measure(s: &[u8], marks: &[u8], parts: Parts) -> bool
    requires { ending parts.tree ≤ place_most }
    ensures { result ≡ width_test s.now marks.now parts }
{
    let tree = parts.tree;
    parts.kind != MEASURED
        || byte_at(s, tree.at) != usize::from(NUMBER_CODE)
            && is_tree(s, marks, ValueType::Number, tree)
}

// The trees of the field of index i: its mark is set, for its constraint.
// Inlined like `is_field`.
#[inline(always)]
#[tactic(auto, unfolding(crate::specs::FieldTest::trees_test))]
pub(crate) fn has_trees(s: &[u8], parts: Parts, marks: &[u8], i: usize) -> bool
    requires { (i < length marks.now) × (length s.now ≤ table_most) × Inside s.now parts }
    ensures { result ≡ trees_test s.now (take i marks.now) (take (i + 1)
        marks.now) parts }
{
    is_measure(s, &marks[..i], parts)
        && is_maybe(s, &marks[..i + 1], parts.constraint)
        && is_maybe(s, &marks[..i], parts.condition)
}

// The record lies in the table, ends where its length says, and is a field's.
#[tactic(auto, unfolding(crate::specs::FieldTest::bounds_test))]
fn is_bounded(s: &[u8], at: usize, parts: Parts) -> bool
    requires { at ≤ table_most }
    ensures { result ≡ bounds_test s.now at parts }
{
    parts.next <= s.len()
        && at + two_at(s, at) == parts.next
        && FIXED <= parts.kind
        && parts.kind <= REST
}

// A fixed width's bits, or a measured one's unit.
#[tactic(auto, unfolding(crate::specs::FieldTest::number_test))]
fn is_number(kind: usize, number: usize) -> bool
    ensures { result ≡ number_test kind number }
{
    match kind {
        FIXED => 1 <= number && number <= FIXED_MOST,
        MEASURED => matches!(number, 1 | 8),
        _ => true,
    }
}

// The part has the form of a short name.
pub(crate) fn is_word(classes: &Classes, s: &[u8], p: Span) -> bool
    requires { (ending p ≤ length s.now) × (length s.now ≤ table_most) }
    ensures { result ≡ is_short (bytes_in s.now p) }
{
    classes.is_short(bytes_of(s, p))
}

#[inline(always)]
#[tactic(auto, using(crate::proofs::FieldSteps::short_is), unfolding(crate::specs::FieldTest::form_test))]
fn is_formed(classes: &Classes, s: &[u8], parts: Parts) -> bool
    requires { (length s.now ≤ table_most) × Inside s.now parts }
    ensures { result ≡ form_test s.now parts }
{
    classes.is_label(bytes_of(s, parts.label))
        && (parts.short.len == 0 || is_word(classes, s, parts.short))
        && is_number(parts.kind, parts.number)
}

// The field may stand behind `place` bits of fixed fields, and behind the rest field if that came. Of a stored record,
// by its kind; texts asks the same of a line.
#[tactic(auto, unfolding(crate::specs::FieldTest::order_test))]
fn is_ordered(w: usize, place: usize, ended: bool, parts: Parts) -> bool
    requires { 0 < w }
    ensures { result ≡ order_test w place ended parts }
{
    let used = place % w;
    if parts.kind == FIXED {
        let condition = parts.condition;
        return parts.number <= w - used && (!ended || condition.len == 0);
    }
    used == 0 && !ended
}

// All but the trees of a field. Inlined into both sizes of the walk.
#[inline(always)]
#[tactic(auto, unfolding(crate::specs::FieldTest::field_test))]
pub(crate) fn is_field(
    classes: &Classes,
    s: &[u8],
    at: usize,
    parts: Parts,
    w: usize,
    place: usize,
    ended: bool,
) -> bool
    requires { (0 < w) × (at ≤ table_most) × (length s.now ≤ table_most) × (parts ≡ parts_at s.now at) }
    ensures { result ≡ field_test w place ended s.now at parts }
{
    is_bounded(s, at, parts) && is_formed(classes, s, parts) && is_ordered(w, place, ended, parts)
}

// 1 where the field may be read: it is fixed, and has a short name or a label that is such a word.
#[tactic(auto, unfolding(crate::specs::FieldTest::mark_by))]
pub(crate) fn mark_of(parts: Parts, word: bool) -> u8
    ensures { result ≡ mark_by word parts }
{
    let short = parts.short;
    u8::from(parts.kind == FIXED && (word || short.len != 0))
}

// The bits of a fixed field, 0 for another. 0 and no None: it is a term of a sum.
#[tactic(auto, unfolding(crate::specs::FieldTest::bits_of))]
pub(crate) fn bits_of(parts: Parts) -> usize
    ensures { result ≡ bits_of parts }
{
    if parts.kind == FIXED { parts.number } else { 0 }
}

// The rest field came before, or is this one. Of a stored record, by its kind; texts asks the same of a line.
pub(crate) fn ends_with(ended: bool, parts: Parts) -> bool
    ensures { result ≡ (ended || eqb parts.kind 14) }
{
    ended || parts.kind == REST
}
