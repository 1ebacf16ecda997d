// Bytes and numbers put into a lent buffer, one behind the other. Each function answers the place behind what it put.
// What does not fit is not put, and the answer is NOWHERE, at which nothing fits either.
ghost use Rattle.std.specs.Prelude.{◌≡◌};
ghost use Rattle.rules.specs.Trees.{le2};
ghost use Rattle.rules.specs.Stored.{counted};
ghost use Rattle.writing.specs.Puts.{placed, put};

// Beyond the end of every buffer; a number and no `None`, so that words follow one another without a test between.
pub const NOWHERE: usize = 18446744073709551615;

#[tactic(auto, unfolding(crate::specs::Puts::put))]
pub fn put(out: &mut [u8], at: usize, word: &[u8]) -> usize
    ensures { placed result out.new ≡ put out.old at word.now }
{
    if out.len() < at || out.len() - at < word.len() {
        return NOWHERE;
    }
    // By index: `copy_from_slice` would move the bytes by memmove here, which a C program would have to bring.
    for i in 0..word.len() {
        out[at + i] = word[i];
    }
    at + word.len()
}

// A number below 65,536 in two bytes, the least first; of a larger one its remainder.
#[tactic(auto, unfolding(rules::specs::Trees::le2))]
pub fn put_two(out: &mut [u8], at: usize, number: usize) -> usize
    ensures { placed result out.new ≡ put out.old at (le2 number) }
{
    let word = ((number % 65536) as u16).to_le_bytes();
    put(out, at, &word)
}

// The length of a word, as `put_two` has it, and the word.
#[tactic(auto, unfolding(crate::specs::Puts::put, rules::specs::Trees::le2))]
pub fn put_counted(out: &mut [u8], at: usize, word: &[u8]) -> usize
    ensures { placed result out.new ≡ put out.old at (counted word.now) }
{
    if out.len() < at {
        return NOWHERE;
    }
    let room = out.len() - at;
    if room < 2 {
        return NOWHERE;
    }
    if room - 2 < word.len() {
        return NOWHERE;
    }
    let next = put_two(out, at, word.len());
    put(out, next, word)
}
