// Stored trees, checked and evaluated by functions that call themselves on operands.
ghost use Rattle.std.specs.Prelude.{◌≡◌, ◌+◌, ◌<◌, length};
ghost use Rattle.laws.specs.Places.{four_at};
ghost use Rattle.rules.specs.Values.{in_range, apply, decides};
ghost use Rattle.packets.specs.StoredTrees.{check_number, check_field, check_two, check_at};
ghost use Rattle.packets.specs.StoredTrees.{cursor, skip_over, skip_at, placed, read_number, read_field, value_at};

use crate::powers::power_of;
use operators::codes::{Code, code_of};
use operators::rows::operator;
use rules::{Decider, Fault, NUMBER_MOST, Op, ValueType};

// A place in the bytes of a table. Document 01 names a cursor by value, and calls of oneself on operands.
#[derive(Clone, Copy)]
pub(crate) struct Cursor {
    pub at: usize,
}

// The type of a tree with the place past it. Of an Option of the pair a check takes a sixth longer.
#[derive(Clone, Copy)]
pub(crate) enum Checked {
    Typed(ValueType, Cursor),
    Bad,
}

// Four bytes, the least first.
fn four_at(s: &[u8], at: usize) -> u32
    requires { at + 3 < length s.now }
    ensures { result ≡ four_at s.now at }
{
    u32::from_le_bytes([s[at], s[at + 1], s[at + 2], s[at + 3]])
}

// The type of an operator's tree, if its operands' types are the operator's.
#[tactic(auto, using(crate::proofs::TreeTypes::types_of, crate::proofs::TreeTypes::type_test))]
fn check_two(op: Op, a: ValueType, b: ValueType, next: Cursor) -> Checked
    ensures { result ≡ check_two op a b next }
{
    let row = operator(op);
    if a == row.takes && b == row.takes {
        return Checked::Typed(row.gives, next);
    }
    Checked::Bad
}

// The left operand's value settles the whole.
#[tactic(auto, unfolding(rules::specs::Values::decides, operators::specs::Rows::row_of))]
fn settles(op: Op, x: u32) -> bool
    ensures { result ≡ decides op x }
{
    let row = operator(op);
    let decider = row.decider;
    match decider {
        Decider::ByYes => x != 0,
        Decider::ByNo => x == 0,
        Decider::Neither => false,
    }
}

// By the limit and no `try_from`: the limit is the rules', not the type's.
fn in_range(n: u64, next: Cursor) -> Result<(u32, Cursor), Fault>
    ensures { result ≡ placed (in_range n) next.at }
{
    if n <= NUMBER_MOST as u64 {
        Ok((n as u32, next))
    } else {
        Err(Fault::OutOfRange)
    }
}

// Both operands' values under an operator. By tests and no checked sums: they are those of the definition `apply`.
#[tactic(auto, unfolding(rules::specs::Values::apply))]
fn combine(op: Op, x: u32, y: u32, next: Cursor) -> Result<(u32, Cursor), Fault>
    ensures { result ≡ placed (apply op x y) next.at }
{
    match op {
        Op::Or => Ok((y, next)),
        Op::And => Ok((y, next)),
        Op::Eq => Ok((u32::from(x == y), next)),
        Op::Ne => Ok((u32::from(x != y), next)),
        Op::Lt => Ok((u32::from(x < y), next)),
        Op::Le => Ok((u32::from(x <= y), next)),
        Op::Gt => Ok((u32::from(y < x), next)),
        Op::Ge => Ok((u32::from(y <= x), next)),
        Op::Add => in_range(u64::from(x) + u64::from(y), next),
        Op::Sub => {
            if y <= x {
                Ok((x - y, next))
            } else {
                Err(Fault::OutOfRange)
            }
        }
        Op::Mul => in_range(u64::from(x) * u64::from(y), next),
        Op::Div => {
            if y == 0 {
                Err(Fault::ZeroDivisor)
            } else {
                Ok((x / y, next))
            }
        }
        Op::Rem => {
            if y == 0 {
                Err(Fault::ZeroDivisor)
            } else {
                Ok((x % y, next))
            }
        }
        Op::Pow => in_range(power_of(x, y), next),
    }
}

impl Cursor {
    // The cursor n places on, if as many bytes are there.
    fn over(self, s: &[u8], n: usize) -> Self
        requires { self.at < length s.now }
        ensures { result ≡ cursor (skip_over s.now n self.at) }
    {
        let at = self.at;
        if s.len() - at < n {
            return self;
        }
        Cursor { at: at + n }
    }

    fn check_number(self, s: &[u8]) -> Checked
        requires { self.at < length s.now }
        ensures { result ≡ check_number s.now self.at }
    {
        let at = self.at;
        if s.len() - at < 5 {
            return Checked::Bad;
        }
        Checked::Typed(ValueType::Number, Cursor { at: at + 5 })
    }

    fn check_field(self, s: &[u8], marks: &[u8]) -> Checked
        requires { self.at < length s.now }
        ensures { result ≡ check_field s.now marks.now self.at }
    {
        let at = self.at;
        if s.len() - at < 2 {
            return Checked::Bad;
        }
        if marks.get(usize::from(s[at + 1])).copied().unwrap_or(0) == 1 {
            Checked::Typed(ValueType::Number, Cursor { at: at + 2 })
        } else {
            Checked::Bad
        }
    }

    // The type of the stored tree here, of at most the given depth; a field is read where its mark is 1.
    #[tactic(auto, using(crate::proofs::TreeSteps::check_steps))]
    pub(crate) fn check(self, s: &[u8], depth: usize, marks: &[u8]) -> Checked
        ensures { result ≡ check_at depth s.now marks.now self.at }
    {
        if depth == 0 {
            return Checked::Bad;
        }
        let at = self.at;
        if s.len() <= at {
            return Checked::Bad;
        }
        let c = code_of(s[at]);
        let past = Cursor { at: at + 1 };
        match c {
            Code::Number => self.check_number(s),
            Code::Field => self.check_field(s, marks),
            Code::Not => {
                let Checked::Typed(found, next) = past.check(s, depth - 1, marks) else {
                    return Checked::Bad;
                };
                if found == ValueType::YesNo {
                    Checked::Typed(ValueType::YesNo, next)
                } else {
                    Checked::Bad
                }
            }
            Code::Two(op) => {
                let Checked::Typed(a, right) = past.check(s, depth - 1, marks) else {
                    return Checked::Bad;
                };
                let Checked::Typed(b, next) = right.check(s, depth - 1, marks) else {
                    return Checked::Bad;
                };
                check_two(op, a, b, next)
            }
            Code::Other => Checked::Bad,
        }
    }

    // The place past the stored tree here.
    #[tactic(auto, using(crate::proofs::TreeSteps::skip_steps))]
    pub(crate) fn skip(self, s: &[u8], depth: usize) -> Self
        ensures { result ≡ cursor (skip_at depth s.now self.at) }
    {
        if depth == 0 {
            return self;
        }
        let at = self.at;
        if s.len() <= at {
            return self;
        }
        let c = code_of(s[at]);
        let past = Cursor { at: at + 1 };
        match c {
            Code::Number => self.over(s, 5),
            Code::Field => self.over(s, 2),
            Code::Not => past.skip(s, depth - 1),
            Code::Two(_) => {
                let right = past.skip(s, depth - 1);
                right.skip(s, depth - 1)
            }
            Code::Other => self,
        }
    }

    fn number(self, s: &[u8]) -> Result<(u32, Cursor), Fault>
        requires { self.at < length s.now }
        ensures { result ≡ read_number s.now self.at }
    {
        let at = self.at;
        if s.len() - at < 5 {
            return Err(Fault::OutOfRange);
        }
        Ok((four_at(s, at + 1), Cursor { at: at + 5 }))
    }

    fn field(self, s: &[u8], run: &[u32]) -> Result<(u32, Cursor), Fault>
        requires { self.at < length s.now }
        ensures { result ≡ read_field s.now run.now self.at }
    {
        let at = self.at;
        if s.len() - at < 2 {
            return Err(Fault::OutOfRange);
        }
        let i = 4 * usize::from(s[at + 1]);
        if run.get(i).copied().unwrap_or(0) == 1 {
            Ok((run.get(i + 3).copied().unwrap_or(0), Cursor { at: at + 2 }))
        } else {
            Err(Fault::AbsentRead)
        }
    }

    // The value of the stored tree here; field i is present if run[4 * i] is 1, and its value is run[4 * i + 3].
    #[tactic(auto, using(crate::proofs::TreeSteps::value_steps))]
    pub(crate) fn value(self, s: &[u8], depth: usize, run: &[u32]) -> Result<(u32, Cursor), Fault>
        ensures { result ≡ value_at depth s.now run.now self.at }
    {
        if depth == 0 {
            return Err(Fault::OutOfRange);
        }
        let at = self.at;
        if s.len() <= at {
            return Err(Fault::OutOfRange);
        }
        let c = code_of(s[at]);
        let past = Cursor { at: at + 1 };
        match c {
            Code::Number => self.number(s),
            Code::Field => self.field(s, run),
            Code::Not => {
                let (x, next) = past.value(s, depth - 1, run)?;
                Ok((u32::from(x == 0), next))
            }
            Code::Two(op) => {
                let (x, right) = past.value(s, depth - 1, run)?;
                if settles(op, x) {
                    return Ok((x, right.skip(s, depth - 1)));
                }
                let (y, next) = right.value(s, depth - 1, run)?;
                combine(op, x, y, next)
            }
            Code::Other => Err(Fault::OutOfRange),
        }
    }
}
