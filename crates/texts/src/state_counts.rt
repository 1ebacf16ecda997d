// How often each field is read, as bytes of a state: two for each field, the least first.
ghost use Rattle.std.specs.Prelude.{◌≡◌, ◌*◌, ◌≤◌, length, take, drop};
ghost use Rattle.rules.specs.Limits.{fields_most};
ghost use Rattle.texts.specs.StateNumbers.{twos_in};

use crate::state_numbers::two_at;
use rules::FIELDS_MOST;

// The counts of a state's bytes.
// By index: under `zip` no invariant of a loop can name the counts that are written.
pub(crate) fn load_counts(s: &[u8], counts: &mut [u16; FIELDS_MOST])
    requires { 2 * fields_most ≤ length s.now }
    ensures { counts.new ≡ twos_in fields_most s.now }
{
    for (i, count) in counts.iter_mut().enumerate() {
        *count = two_at(s, 2 * i) as u16;
    }
}

// Counts into a state's bytes.
// By index: under `zip` no invariant of a loop can name the bytes that are written.
pub(crate) fn save_counts(counts: &[u16; FIELDS_MOST], s: &mut [u8])
    requires { 2 * fields_most ≤ length s.old }
    ensures twos { twos_in fields_most s.new ≡ take fields_most counts.now }
    ensures beyond { drop (2 * fields_most) s.new ≡ drop (2 * fields_most) s.old }
{
    for (i, &n) in counts.iter().enumerate() {
        let [low, high] = n.to_le_bytes();
        s[2 * i] = low;
        s[2 * i + 1] = high;
    }
}
