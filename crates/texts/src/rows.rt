// The first line of a row, and the blanks around a text. The classes of bytes are lent.
ghost use Rattle.std.specs.Prelude.{true, ◌≡◌, ◌≤◌, length, take, drop};
ghost use Rattle.rules.specs.Rows.{left_trim, right_trim};
ghost use Rattle.rules.specs.Frames.{is_line};
ghost use Rattle.text_laws.specs.FrameReader.{pieces, rest, long_of, read_row};
ghost use Rattle.texts.specs.FramePlaces.{is_some, is_bits};

use crate::text_bytes::part_end;
use names::classes::Classes;

// The place behind the spaces in front.
pub(crate) fn spaces_end(classes: &Classes, s: &[u8]) -> usize
    ensures { (result ≤ length s.now) × (drop result s.now ≡ left_trim s.now) }
{
    s.iter()
        .position(|b| !classes.is_space(*b))
        .unwrap_or(s.len())
}

// The length without the spaces at the end.
pub(crate) fn trimmed(classes: &Classes, s: &[u8]) -> usize
    ensures { (result ≤ length s.now) × (take result s.now ≡ right_trim s.now) }
{
    let spaces = s
        .iter()
        .rev()
        .position(|b| !classes.is_space(*b))
        .unwrap_or(s.len());
    s.len() - spaces
}

// What stands behind the first colon of a long row: `w` bits, and a colon.
fn is_long(l: &[u8], w: usize) -> bool
    requires { (w ≤ 32) × (is_line l.now ≡ true) }
    ensures { result ≡ is_some (long_of w (rest 58 l.now) (pieces 58 l.now)) }
{
    let e = part_end(l, 0, b':');
    l.len() - e == 1 && l.len() == 2 * w
}

// What stands behind the first bar of a row: cells of `w` bits together, each with a bar behind it.
// By places and not by `split`: one walk adds up the bits, and ends at the first part that is no cell.
fn is_bits(l: &[u8], w: usize) -> bool
    requires { is_line l.now ≡ true }
    ensures { result ≡ is_bits w l.now }
{
    let mut at = 0;
    let mut bits = 0;
    while at < l.len() {
        let e = part_end(l, at, b'|');
        if e >= l.len() {
            return false;
        }
        if (e - at) % 2 == 0 {
            return false;
        }
        bits += (e - at + 1) / 2;
        at = e + 1;
    }
    bits == w
}

// The line is the first one of a row of `w` bits.
pub(crate) fn is_row(line: &[u8], w: usize) -> bool
    requires { (w ≤ 32) × (is_line line.now ≡ true) }
    ensures { result ≡ is_some (read_row w line.now) }
{
    let Some((first, behind)) = line.split_first() else {
        return false;
    };
    if *first == b'|' {
        return is_bits(behind, w);
    }
    *first == b':' && is_long(behind, w)
}
