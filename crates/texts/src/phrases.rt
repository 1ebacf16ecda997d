// Phrases of a field line at a place of a text, and the remark behind its full stop.
ghost use Rattle.std.specs.Prelude.{◌≡◌, ◌≤◌, length, drop};
ghost use Rattle.text_laws.specs.LineReader.{begins, is_remark};

use crate::text_bytes::line_end;

// The word stands at `at`.
// A function, and not `starts_with` where it is used: its clause has the words of the reader.
pub(crate) fn starts_at(s: &[u8], at: usize, word: &[u8]) -> bool
    requires { at ≤ length s.now }
    ensures { result ≡ begins word.now (drop at s.now) }
{
    s[at..].starts_with(word)
}

// From `at` on stands nothing, or a space and printable bytes.
pub(crate) fn remark_ok(s: &[u8], at: usize) -> bool
    requires { at ≤ length s.now }
    ensures { result ≡ is_remark (drop at s.now) }
{
    at == s.len() || (s[at] == b' ' && line_end(s, at + 1) == s.len())
}
