// Bytes set to one value.
ghost use Rattle.std.specs.Prelude.{◌≡◌, ◌≤◌, length};
ghost use Rattle.texts.specs.Fills.{filled};

// Those from a place to another.
// A function, and not `fill` where it is used: its clause says what stays of the whole buffer.
pub(crate) fn fill(s: &mut [u8], from: usize, to: usize, b: u8)
    requires { (from ≤ to) × (to ≤ length s.old) }
    ensures { s.new ≡ filled from to b s.old }
{
    s[from..to].fill(b);
}
