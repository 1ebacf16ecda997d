// What the first byte of a stored expression says.
ghost use Rattle.std.specs.Prelude.{◌≡◌};
ghost use Rattle.operators.specs.Codes.{code_of};

use rules::Op;

// The first bytes of a stored number and of a stored field. Bytes and no enum: stored expressions begin with them.
pub const NUMBER_CODE: u8 = 0x01;

pub const FIELD_CODE: u8 = 0x02;

// `Other` and no `None`: readers tell all five apart by one `match`.
#[derive(Clone, Copy, PartialEq, Eq, Debug)]
pub enum Code {
    Number,
    Field,
    Two(Op),
    Not,
    Other,
}

#[tactic(auto, unfolding(crate::specs::Codes::code_of, crate::specs::Codes::code_in,
// the table of the rules
rules::specs::Operators::operators, rules::specs::Operators::operator))]
pub fn code_of(c: u8) -> Code
    ensures { result ≡ code_of c }
{
    match c {
        NUMBER_CODE => Code::Number,
        FIELD_CODE => Code::Field,
        0x10 => Code::Two(Op::Add),
        0x11 => Code::Two(Op::Sub),
        0x12 => Code::Two(Op::Mul),
        0x13 => Code::Two(Op::Div),
        0x14 => Code::Two(Op::Rem),
        0x15 => Code::Two(Op::Pow),
        0x20 => Code::Two(Op::Eq),
        0x21 => Code::Two(Op::Ne),
        0x22 => Code::Two(Op::Lt),
        0x23 => Code::Two(Op::Le),
        0x24 => Code::Two(Op::Gt),
        0x25 => Code::Two(Op::Ge),
        0x30 => Code::Two(Op::And),
        0x31 => Code::Two(Op::Or),
        0x32 => Code::Not,
        _ => Code::Other,
    }
}
