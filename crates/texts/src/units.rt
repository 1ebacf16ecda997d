// Unit words at a place of a text.
ghost use Rattle.std.specs.Prelude.{◌≡◌, ◌≤◌, length, drop};
ghost use Rattle.text_laws.specs.LineReader.{unit_of, read_unit};
ghost use Rattle.texts.specs.FieldPlaces.{SameBits, WithinBits};
ghost use Rattle.texts.specs.FramePlaces.{answered};

use crate::leaves::word_end;
use names::classes::Classes;
use names::words::same_words;

// The bits of a unit word.
fn unit_of(w: &[u8]) -> Option<u8>
    ensures { unit_of w.now ≡ answered result }
{
    if same_words(w, b"bit") || same_words(w, b"bits") {
        return Some(1);
    }
    if same_words(w, b"byte") || same_words(w, b"bytes") {
        return Some(8);
    }
    None
}

// The bits of a unit, and the place behind its word.
pub(crate) fn unit_at(classes: &Classes, s: &[u8], at: usize) -> Option<(u8, usize)>
    requires { at ≤ length s.now }
    ensures place { WithinBits s.now at result }
    ensures same { SameBits s.now (read_unit (drop at s.now)) result }
{
    let end = word_end(classes, s, at);
    let u = unit_of(&s[at..end])?;
    Some((u, end))
}
