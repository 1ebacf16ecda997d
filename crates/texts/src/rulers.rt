// The rulers and borders of a frame, by columns.
ghost use Rattle.std.specs.Prelude.{◌≡◌, ℕ, ◌≤◌, ◌<◌};
ghost use Rattle.base.specs.Lists.{same, tabulate};
ghost use Rattle.rules.specs.Frames.{tens_at, units_at, border_at, units, border};
ghost use Rattle.text_laws.specs.FrameReader.{read_tens};
ghost use Rattle.texts.specs.FramePlaces.{answered};

// The character of the ruler of tens at a column.
fn tens_at(c: usize) -> u8
    requires { c ≤ 100 }
    ensures { result ≡ tens_at c }
{
    if c % 20 == 1 {
        b'0' + (c / 20) as u8
    } else {
        b' '
    }
}

// That of the ruler of units.
fn units_at(c: usize) -> u8
    requires { c ≤ 100 }
    ensures { result ≡ units_at c }
{
    if c % 2 == 0 {
        b' '
    } else {
        b'0' + (c / 2 % 10) as u8
    }
}

// That of a border.
fn border_at(c: usize) -> u8
    ensures { result ≡ border_at c }
{
    if c % 2 == 0 { b'+' } else { b'-' }
}

// The line has `n` columns, each with its character; no test ends the loop early, so that several are made at once.
fn is_ruler<F: Fn(usize) -> u8>(line: &[u8], n: usize, column: F) -> bool
    requires { (c : ℕ) → c < n → F.pre column c }
    ensures { (at : ℕ → ℕ) → ((c r : ℕ) → c < n → F.post column c r → r ≡ at c)
        → result ≡ same line.now (tabulate at 0 n) }
{
    if line.len() != n {
        return false;
    }
    let mut each = true;
    for (i, b) in line.iter().enumerate() {
        each &= *b == column(i);
    }
    each
}

pub(crate) fn is_units(line: &[u8], w: usize) -> bool
    requires { w ≤ 32 }
    ensures { result ≡ same line.now (units w) }
{
    is_ruler(line, 2 * w, units_at)
}

pub(crate) fn is_border(line: &[u8], w: usize) -> bool
    requires { w ≤ 32 }
    ensures { result ≡ same line.now (border w) }
{
    is_ruler(line, 2 * w + 1, border_at)
}

// The row width by the tens ruler.
pub(crate) fn ruler_width(line: &[u8]) -> Option<usize>
    ensures { answered result ≡ read_tens line.now }
{
    if is_ruler(line, 2, tens_at) {
        return Some(8);
    }
    if is_ruler(line, 22, tens_at) {
        return Some(16);
    }
    if is_ruler(line, 62, tens_at) {
        return Some(32);
    }
    None
}
