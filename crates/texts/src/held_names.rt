// Names of fields, held by value, and the first field that may be read by a name. They stand in one buffer: the starts
// of names, short names, labels that may be read, and marks, 1 where a field is fixed. Bytes and not an array of
// structs: they are part of a state that the caller lends.
ghost use Rattle.std.specs.Prelude.{cond, true, ◌≡◌, ◌+◌, ◌≤◌, ◌<◌, eqb, length, take, drop};
ghost use Rattle.rules.specs.Limits.{fields_most, short_most};
ghost use Rattle.rules.specs.Names.{is_short};
ghost use Rattle.names.specs.Repeats.{held_word, same_name};
ghost use Rattle.texts.specs.HeldNames.{has_length, HeldLength, names_room, names_in, OwnPut};
ghost use Rattle.texts.specs.PartPlaces.{NamesFit};
ghost use Rattle.texts.specs.StoredTrees.{reads_as, look_up};

use crate::name_starts::{put_start, walk_start};
use names::classes::Classes;
use names::repeats::held_name;
use names::words::same_words;
use rules::{FIELDS_MOST, SHORT_MOST};
use writing::puts::put;
use writing::spans::Span;

pub(crate) const SHORTS_AT: usize = 1024;

pub(crate) const WORDS_AT: usize = SHORTS_AT + SHORT_MOST * FIELDS_MOST;

const MARKS_AT: usize = WORDS_AT + SHORT_MOST * FIELDS_MOST;

// Room for all of them.
pub(crate) const NAMES_ROOM: usize = MARKS_AT + FIELDS_MOST;

// A label that may be read; zeros where it has not the form of a short name.
// Zeros and no None: document 01 names arrays of 8-byte arrays.
#[tactic(auto, unfolding(names::specs::Repeats::held_word))]
fn held_word(classes: &Classes, w: &[u8]) -> [u8; SHORT_MOST]
    ensures { result ≡ held_word w.now }
{
    if classes.is_short(w) {
        return held_name(w);
    }
    held_name(b"")
}

// The names of a line and whether its field is fixed, held as those of index n.
pub(crate) fn hold_own(
    classes: &Classes,
    s: &[u8],
    label: usize,
    short: Span,
    fixed: bool,
    n: usize,
    names: &mut [u8],
)
    requires { NamesFit (length s.now) label short × (n < fields_most)
        × (names_room ≤ length names.old) }
    ensures { OwnPut (names_in names.old) n s.now label short fixed
        (names_in names.new) }
{
    let from = short.at;
    let to = from + short.len;
    let own = held_name(&s[from..to]);
    let word = held_word(classes, &s[0..label]);
    put(names, SHORTS_AT + SHORT_MOST * n, &own);
    put(names, WORDS_AT + SHORT_MOST * n, &word);
    names[MARKS_AT + n] = u8::from(fixed);
    put_start(names, own, n);
    put_start(names, word, n);
}

// The held name at a place.
pub(crate) fn name_at(names: &[u8], at: usize) -> [u8; SHORT_MOST]
    requires { at + short_most ≤ length names.now }
    ensures { result ≡ take short_most (drop at names.now) }
{
    let end = at + SHORT_MOST;
    held_name(&names[at..end])
}

// It has so many bytes: a byte in the last place, and none behind it.
fn has_length(names: &[u8], at: usize, len: usize) -> bool
    requires { (at + short_most ≤ length names.now) × (0 < len) × (len ≤ short_most) }
    ensures { result ≡ has_length (take short_most (drop at names.now)) len }
{
    let end = at + len;
    names[end - 1] != 0 && (len == SHORT_MOST || names[end] == 0)
}

// It is the held one of so many bytes. Lengths are compared first, then bytes up to the first that differs.
fn is_name(held: [u8; SHORT_MOST], len: usize, names: &[u8], at: usize) -> bool
    requires { (at + short_most ≤ length names.now) × HeldLength held len }
    ensures { result ≡ same_name held (take short_most (drop at names.now)) }
{
    has_length(names, at, len) && same_words(&held, &names[at..at + SHORT_MOST])
}

// The field of an index is fixed, and its short name or its label is the held name of so many bytes.
fn is_held(held: [u8; SHORT_MOST], len: usize, names: &[u8], i: usize) -> bool
    requires { (i < fields_most) × (names_room ≤ length names.now) × HeldLength held len }
    ensures { result ≡ reads_as (names_in names.now) held i }
{
    names[MARKS_AT + i] == 1
        && (is_name(held, len, names, SHORTS_AT + SHORT_MOST * i)
            || is_name(held, len, names, WORDS_AT + SHORT_MOST * i))
}

// The index of the first of n fields that may be read by the name, else n.
// n and no None: the stored form holds n for an unknown name.
pub(crate) fn look_up(names: &[u8], n: usize, w: &[u8]) -> usize
    requires { (n ≤ fields_most) × (names_room ≤ length names.now) × (is_short w.now ≡ true) }
    ensures place { result ≤ n }
    ensures found { result ≡ look_up (names_in names.now) n w.now }
{
    let held = held_name(w);
    let len = w.len();
    let start = walk_start(names, held);
    (start..n)
        .find(|&i| is_held(held, len, names, i))
        .unwrap_or(n)
}
