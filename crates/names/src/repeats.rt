// Short names and labels held by value, and the first field whose short name is a name of an earlier field, or whose
// label is an earlier short name.
ghost use Rattle.std.specs.Prelude.{◌≡◌, ◌≤◌};
ghost use Rattle.rules.specs.Limits.{fields_most, short_most};
ghost use Rattle.names.specs.Keys.{word_key, IsHeld, is_new, start_of_both};
ghost use Rattle.names.specs.Repeats.{
  pad_to,
  name_number,
  same_name,
  names_meet,
  names_alike,
  first_repeat,
  start_of,
  at_most,
};

use rules::{FIELDS_MOST, SHORT_MOST};

// How many remainders of keys are told apart.
pub const REMAINDERS: usize = 241;

// The first N bytes of a word, with zeros behind its end.
pub fn padded<const N: usize>(w: &[u8]) -> [u8; N]
    ensures { result ≡ pad_to N w.now }
{
    let mut name = [0; N];
    let n = w.len().min(N);
    name[..n].copy_from_slice(&w[..n]);
    name
}

// A name of at most SHORT_MOST bytes, with zeros behind its end; of a longer one its first bytes. Zeros and no
// None: document 01 names arrays of 8-byte arrays.
pub fn held_name(w: &[u8]) -> [u8; SHORT_MOST]
    ensures { result ≡ pad_to short_most w.now }
{
    padded(w)
}

// The number that the bytes of a held name make: no other name has it.
#[tactic(auto, using(crate::proofs::KeyNumbers::be_number, crate::proofs::KeyNumbers::key_number))]
fn name_key(name: &[u8; SHORT_MOST]) -> usize
    ensures key { result ≡ name_number name.now }
    ensures word { result ≡ word_key name.now }
    ensures held { IsHeld name.now }
{
    usize::from_be_bytes(*name)
}

// The same of a name by value, as texts takes names out of what it keeps.
pub fn key_of(name: [u8; SHORT_MOST]) -> usize
    ensures { result ≡ name_number name }
{
    name_key(&name)
}

// Where the earlier ones begin that can be like the one of index j: at j itself if none of them has such a key. What
// keys were seen is told by their remainders. Bytes and no bools: callers lend them so.
#[tactic(auto, unfolding(crate::specs::Repeats::start_of))]
pub fn start_of(seen: &[u8; REMAINDERS], key: usize, j: usize) -> usize
    ensures { result ≡ start_of seen.now key j }
{
    if seen[key % REMAINDERS] == 0 { j } else { 0 }
}

// Both are the same name, and not none.
#[tactic(auto, using(crate::proofs::KeyNumbers::key_same), unfolding(crate::specs::Repeats::same_name))]
fn same_name(a: &[u8; SHORT_MOST], b: &[u8; SHORT_MOST]) -> bool
    ensures { result ≡ same_name a.now b.now }
{
    a[0] != 0 && name_key(a) == name_key(b)
}

// Of two fields with the held short names s and t and the held labels v and w: the short name of one is a name of the
// other.
#[tactic(auto, unfolding(crate::specs::Repeats::names_meet))]
pub fn names_meet(
    s: [u8; SHORT_MOST],
    v: [u8; SHORT_MOST],
    t: [u8; SHORT_MOST],
    w: [u8; SHORT_MOST],
) -> bool
    ensures { result ≡ names_meet s v t w }
{
    same_name(&s, &t) || same_name(&s, &w) || same_name(&t, &v)
}

// None, or no name with such a key was seen.
#[tactic(auto, unfolding(crate::specs::Keys::is_new))]
fn is_new(seen: &[u8; REMAINDERS], name: [u8; SHORT_MOST]) -> bool
    ensures { result ≡ is_new seen.now name }
{
    name[0] == 0 || seen[name_key(&name) % REMAINDERS] == 0
}

// Where the earlier ones begin that can share a name with the one of index j: at j itself if both names are new.
#[tactic(auto, unfolding(crate::specs::Keys::start_of_both))]
fn start_of_both(
    seen: &[u8; REMAINDERS],
    short: [u8; SHORT_MOST],
    word: [u8; SHORT_MOST],
    j: usize,
) -> usize
    ensures { result ≡ start_of_both seen.now short word j }
{
    if is_new(seen, short) && is_new(seen, word) {
        j
    } else {
        0
    }
}

// The first of n fields whose names meet those of an earlier one, else n. n for none, as first_repeat promises.
// Document 01 gives the form: labelled loops that end with the answer.
fn repeat_below(
    shorts: &[[u8; SHORT_MOST]; FIELDS_MOST],
    words: &[[u8; SHORT_MOST]; FIELDS_MOST],
    n: usize,
) -> usize
    requires { n ≤ fields_most }
    ensures { result ≡ first_repeat (names_alike shorts.now words.now) n }
{
    let mut seen = [0u8; REMAINDERS];
    let mut j = 0;
    'later: loop {
        if j >= n {
            break 'later n;
        }
        let start = start_of_both(&seen, shorts[j], words[j], j);
        for i in start..j {
            if names_meet(shorts[i], words[i], shorts[j], words[j]) {
                break 'later j;
            }
        }
        seen[name_key(&shorts[j]) % REMAINDERS] = 1;
        seen[name_key(&words[j]) % REMAINDERS] = 1;
        j += 1;
    }
}

// The first of the first n fields whose names meet those of an earlier one; else n, or FIELDS_MOST where n is more.
pub fn first_repeat(
    shorts: &[[u8; SHORT_MOST]; FIELDS_MOST],
    words: &[[u8; SHORT_MOST]; FIELDS_MOST],
    n: usize,
) -> usize
    ensures { result
        ≡ first_repeat (names_alike shorts.now words.now) (at_most fields_most n) }
{
    repeat_below(shorts, words, n.min(FIELDS_MOST))
}
