// The two-sided operator at a place of a text.
ghost use Rattle.std.specs.Prelude.{◌≡◌, ◌+◌, ◌≤◌, length, drop};
ghost use Rattle.text_laws.specs.Reader.{first_of, order, skip, operator_at};
ghost use Rattle.texts.specs.ExprPlaces.{SameSign, WithinSign, taken_in, SameTaken, WithinTaken};

use names::classes::Classes;
use names::words::byte_of;
use operators::rows::operator;
use operators::symbols::symbol_of;
use rules::Op;

// An operator, the place behind it, its level and the loosest level that stands bare on its right.
#[derive(Clone, Copy)]
pub(crate) struct Taken {
    pub op: Op,
    pub end: usize,
    pub level: u8,
    pub right: u8,
}

// Past one space, if there is one.
#[tactic(auto, using(crate::proofs::ExprSigns::skip_rules))]
fn skipped(classes: &Classes, s: &[u8], at: usize) -> usize
    requires { at ≤ length s.now }
    ensures place { (at ≤ result) × (result ≤ length s.now) }
    ensures rest { drop result s.now ≡ skip (drop at s.now) }
{
    if at == s.len() {
        return at;
    }
    if classes.is_space(s[at]) { at + 1 } else { at }
}

// The operator at `at`, with no space before it, and the place behind it.
fn sign_at(classes: &Classes, s: &[u8], at: usize) -> Option<(Op, usize)>
    requires { at ≤ length s.now }
    ensures place { WithinSign s.now at result }
    ensures same { SameSign s.now (first_of order (drop at s.now)) result }
{
    if at == s.len() {
        return None;
    }
    let first = s[at];
    if !classes.is_operator(first) {
        return None;
    }
    let (o, n) = symbol_of(first, byte_of(s, at + 1))?;
    Some((o, at + n))
}

// The operator at `at`, with one space or none on each side, if it may stand at level `k` behind an expression of level
// `h`.
pub(crate) fn taken_at(classes: &Classes, s: &[u8], at: usize, k: u8, h: u8) -> Option<Taken>
    requires { at ≤ length s.now }
    ensures place { WithinTaken s.now at result }
    ensures same { SameTaken s.now (taken_in k h (operator_at (drop at s.now))) result }
{
    let from = skipped(classes, s, at);
    let (o, n) = sign_at(classes, s, from)?;
    let row = operator(o);
    if row.level < k || h < row.left {
        return None;
    }
    let end = skipped(classes, s, n);
    Some(Taken {
        op: o,
        end,
        level: row.level,
        right: row.right,
    })
}
