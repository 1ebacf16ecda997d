// Words of letters and digits at a place of a text, and short names. The classes of bytes are lent.
ghost use Rattle.std.specs.Prelude.{true, ◌≡◌, ◌≤◌, length, drop};
ghost use Rattle.base.specs.Lists.{all};
ghost use Rattle.rules.specs.Names.{is_word_byte, is_short};
ghost use Rattle.text_laws.specs.Reader.{behind};

use names::classes::Classes;
use names::words::is_reserved;
use rules::SHORT_MOST;

// Where the word of letters and digits at `at` ends.
pub(crate) fn word_end(classes: &Classes, s: &[u8], at: usize) -> usize
    requires { at ≤ length s.now }
    ensures place { (at ≤ result) × (result ≤ length s.now) }
    ensures rest { drop result s.now ≡ behind (drop at s.now) }
{
    let left = &s[at..];
    at + left
        .iter()
        .position(|b| !classes.is_word(*b))
        .unwrap_or(left.len())
}

// A word of letters and digits is a short name.
#[tactic(auto, using(crate::proofs::ShortWords::short_rules))]
pub(crate) fn is_short_word(classes: &Classes, w: &[u8]) -> bool
    requires { all is_word_byte w.now ≡ true }
    ensures { result ≡ is_short w.now }
{
    let Some(first) = w.first() else {
        return false;
    };
    !classes.is_digit(*first) && w.len() <= SHORT_MOST && !is_reserved(w)
}
