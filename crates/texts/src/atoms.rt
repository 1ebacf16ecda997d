// What an atom of an expression begins with.
ghost use Rattle.std.specs.Prelude.{◌≤◌, length};
ghost use Rattle.texts.specs.ExprPlaces.{SameOpen, SameAtom};

// A word, or an opening parenthesis: the place behind it, and whether `!` stands before.
#[derive(Clone, Copy)]
pub(crate) enum Atom {
    Word,
    Open(usize, bool),
}

// The place behind the opening parenthesis at `at`, where `b` may be opened.
fn open_at(s: &[u8], at: usize, b: u8) -> Option<usize>
    requires { at ≤ length s.now }
    ensures { SameOpen s.now at b result }
{
    if at < s.len() && b != 0 && s[at] == b'(' {
        return Some(at + 1);
    }
    None
}

// `!(`, `(` or a word.
pub(crate) fn atom_at(s: &[u8], at: usize, b: u8) -> Option<Atom>
    requires { at ≤ length s.now }
    ensures { SameAtom s.now at b result }
{
    if at == s.len() {
        return None;
    }
    let c = s[at];
    if c == b'!' {
        let from = open_at(s, at + 1, b)?;
        return Some(Atom::Open(from, true));
    }
    if c == b'(' {
        let from = open_at(s, at, b)?;
        return Some(Atom::Open(from, false));
    }
    Some(Atom::Word)
}
