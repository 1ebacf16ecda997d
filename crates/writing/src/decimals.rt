// Numbers in decimal, put into a lent buffer.
ghost use Rattle.std.specs.Prelude.{◌≡◌, ◌≤◌, length, drop};
ghost use Rattle.base.specs.Bytes.{decimal};
ghost use Rattle.writing.specs.Puts.{placed, put};

use crate::puts::put;

// As many digits as `decimal` of base/specs/Bytes.antt writes.
const DIGITS_MOST: usize = 10;

// The digits of a number stand from `start` to the end: fixed memory, as there is no heap.
#[derive(Clone, Copy)]
struct Digits {
    text: [u8; DIGITS_MOST],
    start: usize,
}

fn digits_of(number: usize) -> Digits
    ensures { (drop result.start result.text ≡ decimal number) × (result.start ≤ 10) × (length result.text ≡ 10) }
{
    let mut text = [0u8; DIGITS_MOST];
    let mut left = number;
    for start in (0..DIGITS_MOST).rev() {
        text[start] = b'0' + (left % 10) as u8;
        if left < 10 {
            return Digits { text, start };
        }
        left /= 10;
    }
    Digits { text, start: 0 }
}

// A number of at most ten digits in decimal, without leading zeros; of a larger one its last ten digits.
pub fn put_decimal(out: &mut [u8], at: usize, number: usize) -> usize
    ensures { placed result out.new ≡ put out.old at (decimal number) }
{
    let digits = digits_of(number);
    let text = digits.text;
    let start = digits.start;
    put(out, at, &text[start..])
}
