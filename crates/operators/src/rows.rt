// The table of the two-sided operators, a row for each.
ghost use Rattle.std.specs.Prelude.{◌≡◌};
ghost use Rattle.operators.specs.Rows.{columns, row_of};

use rules::Decider::{ByNo, ByYes, Neither};
use rules::ValueType::{Number, YesNo};
use rules::{Decider, Op, ValueType};

// first, second: the bytes of the symbol.
// level: how tightly it binds, 0 the loosest; left, right: the loosest level that stands bare on that side.
// code: its byte in a stored expression.
// takes, gives: the type of both operands, and that of the whole.
// decider: the value of the left operand that settles the whole.
#[derive(Clone, Copy)]
pub struct Row {
    pub first: u8,
    pub second: Option<u8>,
    pub level: u8,
    pub left: u8,
    pub right: u8,
    pub code: u8,
    pub takes: ValueType,
    pub gives: ValueType,
    pub decider: Decider,
}

// The level of an atom, tighter than every operator: `atom_level` of rules/specs/Operators.antt.
pub const ATOM_LEVEL: u8 = 6;

// The tightest level of operators, which group to the right: `tightest_level` of texts/specs/Chains.antt.
pub const TIGHTEST_LEVEL: u8 = 5;

// A call and no literal for each row, so that the table has a line for each.
fn columns(
    first: u8,
    second: Option<u8>,
    level: u8,
    left: u8,
    right: u8,
    code: u8,
    takes: ValueType,
    gives: ValueType,
    decider: Decider,
) -> Row
    ensures { result ≡ columns first second level left right code takes gives decider }
{
    Row {
        first,
        second,
        level,
        left,
        right,
        code,
        takes,
        gives,
        decider,
    }
}

// The row of an operator.
#[tactic(auto, unfolding(crate::specs::Rows::row_of, rules::specs::Operators::operator))]
pub fn operator(op: Op) -> Row
    ensures { result ≡ row_of op }
{
    match op {
        Op::Or => columns(b'|', Some(b'|'), 0, 0, 1, 0x31, YesNo, YesNo, ByYes),
        Op::And => columns(b'&', Some(b'&'), 1, 1, 2, 0x30, YesNo, YesNo, ByNo),
        Op::Eq => columns(b'=', Some(b'='), 2, 3, 3, 0x20, Number, YesNo, Neither),
        Op::Ne => columns(b'!', Some(b'='), 2, 3, 3, 0x21, Number, YesNo, Neither),
        Op::Lt => columns(b'<', None, 2, 3, 3, 0x22, Number, YesNo, Neither),
        Op::Le => columns(b'<', Some(b'='), 2, 3, 3, 0x23, Number, YesNo, Neither),
        Op::Gt => columns(b'>', None, 2, 3, 3, 0x24, Number, YesNo, Neither),
        Op::Ge => columns(b'>', Some(b'='), 2, 3, 3, 0x25, Number, YesNo, Neither),
        Op::Add => columns(b'+', None, 3, 3, 4, 0x10, Number, Number, Neither),
        Op::Sub => columns(b'-', None, 3, 3, 4, 0x11, Number, Number, Neither),
        Op::Mul => columns(b'*', None, 4, 4, 5, 0x12, Number, Number, Neither),
        Op::Div => columns(b'/', None, 4, 4, 5, 0x13, Number, Number, Neither),
        Op::Rem => columns(b'%', None, 4, 4, 5, 0x14, Number, Number, Neither),
        Op::Pow => columns(b'^', None, 5, 6, 5, 0x15, Number, Number, Neither),
    }
}
