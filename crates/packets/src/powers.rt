// Powers by products.
ghost use Rattle.std.specs.Prelude.{◌≡◌};
ghost use Rattle.rules.specs.Values.{in_range, power};

use rules::NUMBER_MOST;

// From as many products on, further ones change no answer.
const PRODUCTS_MOST: u32 = 32;

// x to the power y, or an earlier power of x that is out of range already. Not by a library power: a product
// that got out of range ends it.
pub(crate) fn power_of(x: u32, y: u32) -> u64
    ensures { in_range result ≡ power x y }
{
    let mut v = 1;
    for _ in 0..y.min(PRODUCTS_MOST) {
        if v > NUMBER_MOST as u64 {
            break;
        }
        v *= u64::from(x);
    }
    v
}
