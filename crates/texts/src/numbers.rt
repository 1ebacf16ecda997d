// The number that a word is.
ghost use Rattle.std.specs.Prelude.{◌≡◌, ◌≤◌, cond, None, Some, IfSome};
ghost use Rattle.rules.specs.Limits.{number_most};
ghost use Rattle.text_laws.specs.Reader.{is_number_word, word_value};

use names::classes::Classes;
use rules::NUMBER_MOST;

// Digits without a leading 0, at most NUMBER_MOST.
pub(crate) fn number_of(classes: &Classes, w: &[u8]) -> Option<usize>
    ensures most { IfSome result (λ v. v ≤ number_most) }
    ensures same { result ≡ cond (is_number_word w.now) (Some (word_value w.now)) None }
{
    if w.is_empty() {
        return None;
    }
    if w[0] == b'0' && w.len() != 1 {
        return None;
    }
    let mut v: usize = 0;
    for &c in w {
        if !classes.is_digit(c) {
            return None;
        }
        v = v * 10 + usize::from(c - b'0');
        if v > NUMBER_MOST {
            return None;
        }
    }
    Some(v)
}
