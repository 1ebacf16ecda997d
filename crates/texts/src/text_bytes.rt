// Where a part of a text ends, and where a line does.
ghost use Rattle.std.specs.Prelude.{◌≡◌, ◌+◌, ◌≤◌, length, take, drop};
ghost use Rattle.base.specs.Lists.{all};
ghost use Rattle.rules.specs.Names.{is_printable};
ghost use Rattle.texts.specs.FramePlaces.{up_to};
ghost use Rattle.texts.specs.LineEnds.{printable_length};

// So many bytes are tested at once.
const STRIDE: usize = 16;

// The place of the first byte `e` from a place on, or the end.
// This and its like are one line each, and no function over a test: each has the words of its reader in its clause.
pub(crate) fn part_end(s: &[u8], at: usize, e: u8) -> usize
    requires { at ≤ length s.now }
    ensures place { (at ≤ result) × (result ≤ length s.now) }
    ensures first { result ≡ at + up_to e (drop at s.now) }
{
    let left = &s[at..];
    at + left.iter().position(|b| *b == e).unwrap_or(left.len())
}

// By `&`, which makes no jump, so that several bytes are tested at once.
fn is_printable(b: u8) -> bool
    ensures { result ≡ is_printable b }
{
    (b' ' <= b) & (b <= b'~')
}

// All are printable; no test ends the loop early, so that all are made at once.
fn are_printable(part: &[u8; STRIDE]) -> bool
    ensures { result ≡ all is_printable part.now }
{
    let mut each = true;
    for b in part {
        each &= is_printable(*b);
    }
    each
}

// The place of the first byte from a place on that is not printable, or the end: byte by byte.
fn byte_end(text: &[u8], at: usize) -> usize
    requires { at ≤ length text.now }
    ensures place { (at ≤ result) × (result ≤ length text.now) }
    ensures first { result ≡ at + printable_length (drop at text.now) }
{
    let left = &text[at..];
    at + left
        .iter()
        .position(|b| !is_printable(*b))
        .unwrap_or(left.len())
}

// The place of the first byte from a place on that is not printable, or the end.
// By strides and not by one `position`: that tests byte by byte, which is slower.
pub(crate) fn line_end(text: &[u8], at: usize) -> usize
    requires { at ≤ length text.now }
    ensures place { (at ≤ result) × (result ≤ length text.now) }
    ensures first { result ≡ at + printable_length (drop at text.now) }
{
    let mut i = at;
    while let Some(part) = text[i..].first_chunk() {
        if !are_printable(part) {
            break;
        }
        i += STRIDE;
    }
    byte_end(text, i)
}
