// The operator with whose symbol a text begins, and the length of that symbol.
ghost use Rattle.std.specs.Prelude.{◌≡◌, [], ◌∷◌, None};
ghost use Rattle.rules.specs.Operators.{operators};
ghost use Rattle.operators.specs.Symbols.{symbol_in, symbol_of};

use rules::Op;

// The operator whose symbol is one byte.
#[tactic(auto, unfolding(crate::specs::Symbols::symbol_in, base::specs::Lists::same,
// the table of the rules
rules::specs::Operators::operators, rules::specs::Operators::operator))]
fn short_symbol(first: u8) -> Option<(Op, usize)>
    ensures { result ≡ symbol_in operators (first ∷ []) None }
{
    match first {
        b'<' => Some((Op::Lt, 1)),
        b'>' => Some((Op::Gt, 1)),
        b'+' => Some((Op::Add, 1)),
        b'-' => Some((Op::Sub, 1)),
        b'*' => Some((Op::Mul, 1)),
        b'/' => Some((Op::Div, 1)),
        b'%' => Some((Op::Rem, 1)),
        b'^' => Some((Op::Pow, 1)),
        _ => None,
    }
}

// The operator of the longest symbol with which two bytes begin. A second byte of 0, as names::words::byte_of has it
// behind a text's end, stands for none.
#[tactic(auto, unfolding(crate::specs::Symbols::symbol_of, crate::specs::Symbols::symbol_in, base::specs::Lists::same,
// the table of the rules
rules::specs::Operators::operators, rules::specs::Operators::operator))]
pub fn symbol_of(first: u8, second: u8) -> Option<(Op, usize)>
    ensures { result ≡ symbol_of first second }
{
    match (first, second) {
        (b'|', b'|') => Some((Op::Or, 2)),
        (b'&', b'&') => Some((Op::And, 2)),
        (b'=', b'=') => Some((Op::Eq, 2)),
        (b'!', b'=') => Some((Op::Ne, 2)),
        (b'<', b'=') => Some((Op::Le, 2)),
        (b'>', b'=') => Some((Op::Ge, 2)),
        _ => short_symbol(first),
    }
}
