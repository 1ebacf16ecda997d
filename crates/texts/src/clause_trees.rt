// The constraint and the condition of a field line, in their stored form.
ghost use Rattle.std.specs.Prelude.{◌≡◌, ◌+◌, ◌≤◌, ◌<◌, length, drop};
ghost use Rattle.rules.specs.Limits.{text_most, fields_most};
ghost use Rattle.text_laws.specs.LineReader.{read_constraint, read_condition};
ghost use Rattle.texts.specs.HeldNames.{names_in, names_room};
ghost use Rattle.texts.specs.FieldPlaces.{tree_clause};
ghost use Rattle.texts.specs.HeldParts.{ClauseWithin, ClauseFor, EndsFor};

use crate::phrases::{remark_ok, starts_at};
use crate::stored_trees::{StoredTree, stored_tree};
use names::classes::Classes;

// Constraint and condition.
#[derive(Clone, Copy)]
pub(crate) struct Ends {
    pub constraint: Option<StoredTree>,
    pub condition: Option<StoredTree>,
}

// An expression and the place behind it.
fn tree_at(
    classes: &Classes,
    s: &[u8],
    at: usize,
    names: &[u8],
    n: usize,
    out: &mut [u8],
) -> Option<(Option<StoredTree>, usize)>
    requires { (at ≤ length s.now) × (length s.now ≤ text_most) × (n ≤ fields_most)
        × (names_room ≤ length names.now) }
    ensures place { ClauseWithin s.now at result }
    ensures same { ClauseFor (names_in names.now)
        n s.now (tree_clause (drop at s.now)) out.new result }
{
    let t = stored_tree(classes, s, at, names, n, out)?;
    Some((Some(t), t.next))
}

// A constraint, if there is one, and the place behind it.
// Not one function with the next: each promises the reader of its own clause.
fn constraint_at(
    classes: &Classes,
    s: &[u8],
    at: usize,
    names: &[u8],
    n: usize,
    out: &mut [u8],
) -> Option<(Option<StoredTree>, usize)>
    requires { (at ≤ length s.now) × (length s.now ≤ text_most) × (n ≤ fields_most)
        × (names_room ≤ length names.now) }
    ensures place { ClauseWithin s.now at result }
    ensures same { ClauseFor (names_in names.now)
        n s.now (read_constraint (drop at s.now)) out.new result }
{
    if starts_at(s, at, b"; ") && !starts_at(s, at, b"; present only when ") {
        return tree_at(classes, s, at + 2, names, n, out);
    }
    Some((None, at))
}

// The same of a condition.
fn condition_at(
    classes: &Classes,
    s: &[u8],
    at: usize,
    names: &[u8],
    n: usize,
    out: &mut [u8],
) -> Option<(Option<StoredTree>, usize)>
    requires { (at ≤ length s.now) × (length s.now ≤ text_most) × (n ≤ fields_most)
        × (names_room ≤ length names.now) }
    ensures place { ClauseWithin s.now at result }
    ensures same { ClauseFor (names_in names.now)
        n s.now (read_condition (drop at s.now)) out.new result }
{
    if starts_at(s, at, b"; present only when ") {
        return tree_at(classes, s, at + 20, names, n, out);
    }
    Some((None, at))
}

// Up to the end of the line; the constraint may read its own field, whose names are held at index n.
pub(crate) fn ends_at(
    classes: &Classes,
    s: &[u8],
    at: usize,
    names: &[u8],
    n: usize,
    first: &mut [u8],
    second: &mut [u8],
) -> Option<Ends>
    requires { (at ≤ length s.now) × (length s.now ≤ text_most) × (n < fields_most)
        × (names_room ≤ length names.now) }
    ensures { EndsFor (names_in names.now)
        n s.now at first.new second.new result }
{
    let (constraint, next) = constraint_at(classes, s, at, names, n + 1, first)?;
    let (condition, end) = condition_at(classes, s, next, names, n, second)?;
    if starts_at(s, end, b".") && remark_ok(s, end + 1) {
        return Some(Ends {
            constraint,
            condition,
        });
    }
    None
}
