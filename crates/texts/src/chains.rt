// Operators that group to the right and wait for their right operand, each with its left one.
ghost use Rattle.std.specs.Prelude.{None, ◌≡◌, cond, ◌+◌, ◌*◌, ◌≤◌, eqb};
ghost use Rattle.rules.specs.Limits.{text_most};
ghost use Rattle.texts.specs.StoredTrees.{is_type};
ghost use Rattle.texts.specs.Chains.{no_chain, chain_type, chained, pushed, LinkMade};

use crate::signs::Taken;
use crate::stored_nodes::{is_type, put_first};
use crate::stored_trees::StoredTree;
use operators::rows::operator;
use rules::{Op, ValueType};

// The place of the next operand; the length of the stored form so far, of the operators and their left operands; how
// many operators wait; the depth that they make with their left operands; the type that the last of them takes, and
// the type of the whole if the operand has that type.
// Where ops is 0, want and gives mean nothing: an Option would be taken apart at each operand.
#[derive(Clone, Copy)]
pub(crate) struct Chain {
    pub next: usize,
    pub len: usize,
    pub ops: usize,
    pub deep: usize,
    pub want: ValueType,
    pub gives: Option<ValueType>,
}

// One operator more waits; or the whole, where none comes.
#[derive(Clone, Copy)]
pub(crate) enum Link {
    Waits(Chain),
    Whole(StoredTree),
}

pub(crate) fn no_chain(at: usize) -> Chain
    ensures { result ≡ no_chain at }
{
    Chain {
        next: at,
        len: 0,
        ops: 0,
        deep: 0,
        want: ValueType::Number,
        gives: None,
    }
}

// The type of a whole, if the type of an operand is the one that is wanted.
fn given_type(t: Option<ValueType>, want: ValueType, whole: Option<ValueType>) -> Option<ValueType>
    ensures { result ≡ cond (is_type want t) whole None }
{
    if is_type(t, want) { whole } else { None }
}

// The type of the whole, with an operand of the type `t`.
#[tactic(auto, unfolding(crate::specs::Chains::chain_type))]
fn chain_type(c: Chain, t: Option<ValueType>) -> Option<ValueType>
    ensures { result ≡ chain_type c t }
{
    if c.ops == 0 {
        return t;
    }
    given_type(t, c.want, c.gives)
}

// The whole, with the last operand.
fn chained(c: Chain, y: StoredTree) -> StoredTree
    requires { (c.len ≤ 5 * text_most) × (y.len ≤ 5 * text_most) × (c.ops ≤ c.len) × (y.depth ≤ y.len) }
    ensures { result ≡ chained c y }
{
    let gives = chain_type(c, y.gives);
    let depth = c.deep.max(c.ops + y.depth);
    StoredTree {
        next: y.next,
        gives,
        depth,
        len: c.len + y.len,
    }
}

// One operator more, with its left operand, before the place `next`.
#[tactic(auto, unfolding(operators::specs::Rows::row_of))]
fn pushed(c: Chain, o: Op, a: StoredTree, next: usize) -> Chain
    requires { (c.len ≤ 5 * text_most) × (a.len ≤ 5 * text_most) × (c.ops ≤ c.len) × (a.depth ≤ a.len) }
    ensures { result ≡ pushed c o a next }
{
    let row = operator(o);
    let whole = chain_type(c, Some(row.gives));
    let given = given_type(a.gives, row.takes, whole);
    let deep = c.deep.max(c.ops + 1 + a.depth);
    Chain {
        next,
        len: c.len + (1 + a.len),
        ops: c.ops + 1,
        deep,
        want: row.takes,
        gives: given,
    }
}

// The operator behind an operand, whose stored form stands behind that of the chain: its code is put before it. The
// right operand is read at the level of the chain, as all operators of the tightest level ask.
pub(crate) fn next_link(g: Option<Taken>, c: Chain, a: StoredTree, out: &mut [u8]) -> Link
    requires { (c.len ≤ 5 * text_most) × (a.len ≤ 5 * text_most) × (c.ops ≤ c.len) × (a.depth ≤ a.len) }
    ensures { LinkMade g c a out.old out.new result }
{
    match g {
        None => Link::Whole(chained(c, a)),
        Some(t) => {
            let d = pushed(c, t.op, a, t.end);
            let row = operator(t.op);
            let from = c.len.min(out.len());
            put_first(&mut out[from..], a.len, row.code);
            Link::Waits(d)
        }
    }
}
