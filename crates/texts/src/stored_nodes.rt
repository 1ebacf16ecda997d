// Stored expressions made of numbers, of names and of smaller ones.
ghost use Rattle.std.specs.Prelude.{None, Some, ◌≡◌, cond, [], ◌∷◌, ◌+◌, ◌*◌, ◌≤◌, ◌<◌, ltb, length, take};
ghost use Rattle.rules.specs.declared.ValueType.TheVariants.{Number};
ghost use Rattle.rules.specs.Limits.{text_most, fields_most};
ghost use Rattle.rules.specs.Operators.{number_code, field_code};
ghost use Rattle.rules.specs.Trees.{le4};
ghost use Rattle.texts.specs.StoredTrees.{is_type, form_length, held};
ghost use Rattle.texts.specs.StoredPlaces.{Made, two_type, not_type, NotMade, TwoMade};

use crate::stored_trees::StoredTree;
use operators::codes::{FIELD_CODE, NUMBER_CODE};
use operators::rows::operator;
use rules::{Op, ValueType};

// The length of the stored form of an expression, 0 where there is none.
// 0 and no None: the record stores it so.
pub(crate) fn form_length(t: Option<StoredTree>) -> usize
    ensures { result ≡ form_length t }
{
    t.map_or(0, |t| t.len)
}

// Puts a byte before the first n, if there is room.
pub(crate) fn put_first(out: &mut [u8], n: usize, c: u8)
    ensures { n < length out.old → take (n + 1) out.new
        ≡ c ∷ take n out.old }
{
    if out.len() <= n {
        return;
    }
    // Each byte is carried to the next place: `copy_within` would move them by memmove, as `put` says.
    let mut held = c;
    for i in 0..n + 1 {
        let b = out[i];
        out[i] = held;
        held = b;
    }
}

// The type of an expression, if it has one, is the one that is wanted.
pub(crate) fn is_type(given: Option<ValueType>, wanted: ValueType) -> bool
    ensures { result ≡ is_type wanted given }
{
    given == Some(wanted)
}

// The type of the whole; none where an operand has not the type that the operator takes.
#[tactic(auto, unfolding(operators::specs::Rows::row_of))]
fn two_type(o: Op, a: Option<ValueType>, b: Option<ValueType>) -> Option<ValueType>
    ensures { result ≡ two_type o a b }
{
    let row = operator(o);
    (is_type(a, row.takes) && is_type(b, row.takes)).then_some(row.gives)
}

fn not_type(a: Option<ValueType>) -> Option<ValueType>
    ensures { result ≡ not_type a }
{
    is_type(a, ValueType::YesNo).then_some(ValueType::YesNo)
}

// The number before the place `next`, if there is room.
pub(crate) fn number_node(value: usize, next: usize, out: &mut [u8]) -> StoredTree
    ensures { Made next (Some Number) 1 5 (number_code ∷ le4 value) (held result out.new) }
{
    if 5 <= out.len() {
        out[0] = NUMBER_CODE;
        // By the remainders of le4, not by to_le_bytes: no bound says here that a number fits into four bytes.
        out[1] = (value % 256) as u8;
        out[2] = (value / 256 % 256) as u8;
        out[3] = (value / 256 / 256 % 256) as u8;
        out[4] = (value / 256 / 256 / 256 % 256) as u8;
    }
    StoredTree {
        next,
        gives: Some(ValueType::Number),
        depth: 1,
        len: 5,
    }
}

// The field of an index among n, before the place `next`.
pub(crate) fn field_node(index: usize, n: usize, next: usize, out: &mut [u8]) -> StoredTree
    requires { index ≤ fields_most }
    ensures { Made next (cond (ltb index n) (Some Number) None) 1 2 (field_code ∷ index ∷ []) (held result out.new) }
{
    let gives = (index < n).then_some(ValueType::Number);
    if 2 <= out.len() {
        out[0] = FIELD_CODE;
        out[1] = index as u8;
    }
    StoredTree {
        next,
        gives,
        depth: 1,
        len: 2,
    }
}

// The negation of an expression.
pub(crate) fn not_node(p: StoredTree, next: usize, out: &mut [u8]) -> StoredTree
    requires { (p.len ≤ 5 * text_most) × (p.depth ≤ p.len) }
    ensures { NotMade p out.old next (held result out.new) }
{
    let gives = not_type(p.gives);
    let depth = 1 + p.depth;
    let n = p.len;
    put_first(out, n, 0x32);
    StoredTree {
        next,
        gives,
        depth,
        len: 1 + n,
    }
}

// An operator with its operands, whose stored forms stand one behind the other.
pub(crate) fn two_node(o: Op, a: StoredTree, b: StoredTree, out: &mut [u8]) -> StoredTree
    requires { (a.len ≤ 5 * text_most) × (b.len ≤ 5 * text_most) × (a.depth ≤ a.len) × (b.depth ≤ b.len) }
    ensures { TwoMade o a b out.old (held result out.new) }
{
    let gives = two_type(o, a.gives, b.gives);
    let depth = 1 + a.depth.max(b.depth);
    let n = a.len + b.len;
    let row = operator(o);
    put_first(out, n, row.code);
    StoredTree {
        next: b.next,
        gives,
        depth,
        len: 1 + n,
    }
}
