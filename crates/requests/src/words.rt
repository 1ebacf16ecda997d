// The words of a request line: places, numbers and bytes in hex.
ghost use Rattle.std.specs.Prelude.{◌≡◌, ◌≤◌, length};
ghost use Rattle.std.specs.Option.{MatchOption};
ghost use Rattle.io.specs.Counts.{IsPrefixLen};
ghost use Rattle.requests.specs.Words.{before, next_word, digit_of, number_from, Holds};

// How many bytes stand before the first such byte; all if there is none.
pub fn find(s: &[u8], byte: u8) -> usize
    ensures prefix_len { IsPrefixLen result s.now }
    ensures value { result ≡ before byte s.now }
{
    s.iter().position(|&b| b == byte).unwrap_or(s.len())
}

// The place of the next word.
#[tactic(auto, unfolding(crate::specs::Words::next_word))]
pub fn next_word(line: &[u8]) -> usize
    ensures upper_bound { result ≤ length line.now }
    ensures value { result ≡ next_word line.now }
{
    let end = find(line, b' ');
    if end < line.len() { end + 1 } else { end }
}

// A hex digit's value.
#[tactic(auto, unfolding(crate::specs::Words::digit_of))]
fn digit(byte: u8) -> Option<usize>
    ensures { MatchOption result (digit_of byte ≡ 16) (λ d. (d ≡ digit_of byte) × (d ≤ 15)) }
{
    match byte {
        b'0'..=b'9' => Some(usize::from(byte - b'0')),
        b'a'..=b'f' => Some(usize::from(byte - b'a') + 10),
        _ => None,
    }
}

// The decimal number that a line begins with, of at most seven digits.
pub fn number_in(line: &[u8]) -> usize
    ensures upper_bound { result ≤ 9999999 }
    ensures value { result ≡ number_from 0 line.now }
{
    let mut number = 0;
    for &byte in line {
        let Some(d) = digit(byte) else {
            return number;
        };
        if 9 < d || 999999 < number {
            return number;
        }
        number = 10 * number + d;
    }
    number
}

// The bytes that a line begins with in hex, as many as fit; answers how many.
pub fn bytes_in(line: &[u8], out: &mut [u8]) -> usize
    ensures prefix_len { IsPrefixLen result out.new }
    ensures holds { Holds line.now out.old result out.new }
{
    // An index and no zip: it is the answer too.
    let mut rest = line;
    for n in 0..out.len() {
        let [high, low, others @ ..] = rest else {
            return n;
        };
        let (Some(high), Some(low)) = (digit(*high), digit(*low)) else {
            return n;
        };
        out[n] = (16 * high + low) as u8;
        rest = others;
    }
    out.len()
}
