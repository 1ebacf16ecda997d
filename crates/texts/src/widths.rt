// What a width is made of, at a place of a text.
ghost use Rattle.std.specs.Prelude.{true, ◌&&◌, List, ◌≡◌, ℕ, ◌*◌, ◌≤◌, eqb, length, drop};
ghost use Rattle.rules.specs.Limits.{number_most};
ghost use Rattle.rules.specs.Trees.{num};
ghost use Rattle.text_laws.specs.LineReader.{hit, read_tree};
ghost use Rattle.texts.specs.FieldPlaces.{SameBits, WithinBits};
ghost use Rattle.texts.specs.PartPlaces.{past_open, spaced_unit, is_unit};

use crate::leaves::word_end;
use crate::numbers::number_of;
use crate::phrases::starts_at;
use crate::units::unit_at;
use names::classes::Classes;

// Past each `(` from `at` on.
fn past_open(s: &[u8], at: usize) -> usize
    requires { at ≤ length s.now }
    ensures place { (at ≤ result) × (result ≤ length s.now) }
    ensures rest { drop result s.now ≡ past_open (drop at s.now) }
{
    let left = &s[at..];
    at + left.iter().position(|b| *b != b'(').unwrap_or(left.len())
}

// The value of the expression at `at`, if that is a single number.
pub(crate) fn number_in(classes: &Classes, s: &[u8], at: usize) -> usize
    requires { at ≤ length s.now }
    ensures most { result ≤ number_most }
    ensures same { (m : ℕ) (q : List ℕ) → read_tree (drop at s.now) ≡ hit (num m) q → result ≡ m }
{
    let from = past_open(s, at);
    let end = word_end(classes, s, from);
    number_of(classes, &s[from..end]).unwrap_or(0)
}

// A space and a unit.
pub(crate) fn unit_behind(classes: &Classes, s: &[u8], at: usize) -> Option<(u8, usize)>
    requires { at ≤ length s.now }
    ensures place { WithinBits s.now at result }
    ensures same { SameBits s.now (spaced_unit (drop at s.now)) result }
{
    if starts_at(s, at, b" ") {
        return unit_at(classes, s, at + 1);
    }
    None
}

pub(crate) fn times(u: u8, m: usize) -> usize
    requires { (is_unit u ≡ true) × (m ≤ number_most) }
    ensures { result ≡ u * m }
{
    usize::from(u) * m
}

// A tree of depth `d` and stored length `z` is a single number.
pub(crate) fn is_single(d: usize, z: usize) -> bool
    ensures { result ≡ (eqb d 1 && eqb z 5) }
{
    d == 1 && z == 5
}
