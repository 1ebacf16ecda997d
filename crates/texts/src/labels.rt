// The label and the short name of a field line, at a place of a text.
ghost use Rattle.std.specs.Prelude.{◌≡◌, ◌≤◌, length, drop};
ghost use Rattle.text_laws.specs.LineReader.{label_ends, label_behind, read_label, read_closed_name, read_short};
ghost use Rattle.texts.specs.FieldPlaces.{SameLabel, WithinLabel, SameShort, WithinShort};

use crate::leaves::word_end;
use crate::phrases::starts_at;
use names::classes::Classes;
use writing::spans::Span;

// ` (` or `:` stands at `at`.
fn label_ends(s: &[u8], at: usize) -> bool
    requires { at ≤ length s.now }
    ensures { result ≡ label_ends (drop at s.now) }
{
    starts_at(s, at, b" (") || starts_at(s, at, b":")
}

// The first such place.
pub(crate) fn label_end(s: &[u8], at: usize) -> usize
    requires { at ≤ length s.now }
    ensures place { (at ≤ result) × (result ≤ length s.now) }
    ensures rest { drop result s.now ≡ label_behind (drop at s.now) }
{
    (at..s.len()).find(|&i| label_ends(s, i)).unwrap_or(s.len())
}

// The place behind a label.
#[tactic(auto, unfolding(crate::specs::FieldPlaces::WithinLabel))]
pub(crate) fn label_at(classes: &Classes, s: &[u8], at: usize) -> Option<usize>
    requires { at ≤ length s.now }
    ensures place { WithinLabel s.now at result }
    ensures same { SameLabel s.now at (read_label (drop at s.now)) result }
{
    let end = label_end(s, at);
    if classes.is_label(&s[at..end]) {
        return Some(end);
    }
    None
}

// A short name and `)`, and the place behind them.
#[tactic(auto, unfolding(crate::specs::FieldPlaces::WithinShort))]
fn name_at(classes: &Classes, s: &[u8], at: usize) -> Option<(Span, usize)>
    requires { at ≤ length s.now }
    ensures place { WithinShort s.now at result }
    ensures same { SameShort s.now (read_closed_name (drop at s.now)) result }
{
    let end = word_end(classes, s, at);
    if classes.is_short(&s[at..end]) && starts_at(s, end, b")") {
        let name = Span { at, len: end - at };
        return Some((name, end + 1));
    }
    None
}

// The short name, of the length 0 where there is none, and the place behind it and its parentheses.
// The length 0 and no None: the record stores it so.
pub(crate) fn short_at(classes: &Classes, s: &[u8], at: usize) -> Option<(Span, usize)>
    requires { at ≤ length s.now }
    ensures place { WithinShort s.now at result }
    ensures same { SameShort s.now (read_short (drop at s.now)) result }
{
    if starts_at(s, at, b" (") {
        return name_at(classes, s, at + 2);
    }
    Some((Span { at, len: 0 }, at))
}
