// Expressions in their stored form, operator first, with their types.
ghost use Rattle.std.specs.Prelude.{◌≡◌, ◌+◌, ◌*◌, ◌≤◌, length, drop};
ghost use Rattle.rules.specs.Limits.{text_most, fields_most};
ghost use Rattle.text_laws.specs.LineReader.{read_tree};
ghost use Rattle.texts.specs.HeldNames.{names_in, names_room};
ghost use Rattle.texts.specs.Chains.{RestMade};
ghost use Rattle.texts.specs.StoredTrees.{StoredFor, held, maybe_held};
ghost use Rattle.texts.specs.StoredPlaces.{
  WithinStored,
  LeafStored,
  ExprStored,
  AtomStored,
  ClosedStored,
};

use crate::atoms::{Atom, atom_at};
use crate::chains::{Chain, Link, next_link, no_chain};
use crate::held_names::look_up;
use crate::leaves::{is_short_word, word_end};
use crate::numbers::number_of;
use crate::signs::taken_at;
use crate::stored_nodes::{field_node, not_node, number_node, two_node};
use names::classes::Classes;
use operators::rows::{ATOM_LEVEL, TIGHTEST_LEVEL};
use rules::{OPEN_MOST, ValueType};

// The place behind an expression, its type (none where it is wrong), its depth and the length of its stored
// form, which stands in an output where that has room for it.
#[derive(Clone, Copy)]
pub(crate) struct StoredTree {
    pub next: usize,
    pub gives: Option<ValueType>,
    pub depth: usize,
    pub len: usize,
}

// The name or number at `at`.
fn tree_leaf(
    classes: &Classes,
    s: &[u8],
    at: usize,
    names: &[u8],
    n: usize,
    out: &mut [u8],
) -> Option<StoredTree>
    requires { (at ≤ length s.now) × (n ≤ fields_most)
        × (names_room ≤ length names.now) }
    ensures place { WithinStored s.now (at + 1) at 0 result }
    ensures same { LeafStored (names_in names.now)
        n s.now at (maybe_held result out.new) }
{
    let end = word_end(classes, s, at);
    if is_short_word(classes, &s[at..end]) {
        let i = look_up(names, n, &s[at..end]);
        return Some(field_node(i, n, end, out));
    }
    let v = number_of(classes, &s[at..end])?;
    Some(number_node(v, end, out))
}

// The closing parenthesis behind an expression; the whole is the expression, or its negation.
fn tree_closed(s: &[u8], p: StoredTree, neg: bool, out: &mut [u8]) -> Option<StoredTree>
    requires { (p.next ≤ length s.now) × (length s.now ≤ text_most) × (p.len ≤ 5 * p.next)
        × (p.depth ≤ p.len) }
    ensures place { WithinStored s.now (p.next + 1) p.next p.len result }
    ensures same { ClosedStored s.now neg (held p out.old) (maybe_held result out.new) }
{
    let at = p.next;
    if at == s.len() {
        return None;
    }
    if s[at] == b')' {
        if neg {
            return Some(not_node(p, at + 1, out));
        }
        return Some(StoredTree { next: at + 1, ..p });
    }
    None
}

// `!(`, `(` or a word.
#[cycle(tree_atom_tree_expr_tree_rest)]
fn tree_atom(
    classes: &Classes,
    s: &[u8],
    at: usize,
    b: u8,
    names: &[u8],
    n: usize,
    out: &mut [u8],
) -> Option<StoredTree>
    requires { (at ≤ length s.now) × (length s.now ≤ text_most) × (n ≤ fields_most)
        × (names_room ≤ length names.now) }
    ensures place { WithinStored s.now (at + 1) at 0 result }
    ensures same { AtomStored (names_in names.now)
        n s.now at b (maybe_held result out.new) }
{
    let start = atom_at(s, at, b)?;
    match start {
        Atom::Word => tree_leaf(classes, s, at, names, n, out),
        Atom::Open(from, neg) => {
            let e = tree_expr(classes, s, from, 0, b - 1, names, n, out)?;
            tree_closed(s, e, neg, out)
        }
    }
}

// At level `k` and tighter, with `b` parentheses that may be opened: an atom, and what goes on behind it. At the
// tightest level, where operators group to the right, they wait until the last operand is read.
#[cycle(tree_atom_tree_expr_tree_rest)]
fn tree_expr(
    classes: &Classes,
    s: &[u8],
    at: usize,
    k: u8,
    b: u8,
    names: &[u8],
    n: usize,
    out: &mut [u8],
) -> Option<StoredTree>
    requires { (at ≤ length s.now) × (length s.now ≤ text_most) × (n ≤ fields_most)
        × (names_room ≤ length names.now) }
    ensures place { WithinStored s.now (at + 1) at 0 result }
    ensures same { ExprStored (names_in names.now)
        n s.now at k b (maybe_held result out.new) }
{
    let mut c = no_chain(at);
    // A plain loop: each operand begins where the one before it ended, and the whole ends it.
    loop {
        let from = c.len.min(out.len());
        let a = tree_atom(classes, s, c.next, b, names, n, &mut out[from..])?;
        let q = tree_rest(classes, s, a.next, k, b, c, a, names, n, out)?;
        match q {
            Link::Whole(t) => return Some(t),
            Link::Waits(d) => c = d,
        }
    }
}

// All that goes on behind the atom `left`, which ends at `at`: one operator after the other with its right operand. At
// the tightest level the first operator, which waits with those of the chain.
#[cycle(tree_atom_tree_expr_tree_rest)]
fn tree_rest(
    classes: &Classes,
    s: &[u8],
    at: usize,
    k: u8,
    b: u8,
    c: Chain,
    left: StoredTree,
    names: &[u8],
    n: usize,
    out: &mut [u8],
) -> Option<Link>
    requires { (at ≤ length s.now) × (length s.now ≤ text_most) × (n ≤ fields_most) × (left.next ≡ at)
        × (left.len ≤ 5 * at) × (left.depth ≤ left.len) × (c.len ≤ 5 * text_most) × (c.ops ≤ c.len)
        × (names_room ≤ length names.now) }
    ensures { RestMade (names_in names.now)
        n s.now at k b c left out.old out.new result }
{
    let mut p = left;
    let mut level = ATOM_LEVEL;
    // A plain loop: each operator stands where the operand before it ended, and the loop ends in two ways.
    loop {
        let g = taken_at(classes, s, p.next, k, level);
        if TIGHTEST_LEVEL <= k {
            return Some(next_link(g, c, p, out));
        }
        let Some(t) = g else {
            return Some(Link::Whole(p));
        };
        let from = p.len.min(out.len());
        let y = tree_expr(classes, s, t.end, t.right, b, names, n, &mut out[from..])?;
        p = two_node(t.op, p, y, out);
        level = t.level;
    }
}

// The expression at a place, whose names are those of the first n fields.
pub(crate) fn stored_tree(
    classes: &Classes,
    s: &[u8],
    at: usize,
    names: &[u8],
    n: usize,
    out: &mut [u8],
) -> Option<StoredTree>
    requires { (at ≤ length s.now) × (length s.now ≤ text_most) × (n ≤ fields_most)
        × (names_room ≤ length names.now) }
    ensures place { WithinStored s.now (at + 1) at 0 result }
    ensures same { StoredFor (names_in names.now)
        n s.now (read_tree (drop at s.now)) (maybe_held result out.new) }
{
    tree_expr(classes, s, at, 0, OPEN_MOST, names, n, out)
}
