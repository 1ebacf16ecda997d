// No two fields share a name.
ghost use Rattle.std.specs.Prelude.{◌≡◌, ◌≤◌, ◌<◌, length, set};
ghost use Rattle.base.specs.Lists.{same};
ghost use Rattle.rules.specs.Names.{is_short};
ghost use Rattle.names.specs.Repeats.{held_word, first_repeat};
ghost use Rattle.rules.specs.Limits.{fields_most};
ghost use Rattle.packets.specs.Parts.{table_most, ending, parts_at};
ghost use Rattle.packets.specs.FieldTest.{bytes_in, Inside};
ghost use Rattle.packets.specs.NamesTest.{
  FieldPlace,
  FieldPlaces,
  label_at,
  sample_key,
  label_key,
  LabelKeys,
  held_in,
  short_at,
  word_at,
  labels_alike,
  unique_in,
};

use crate::columns::Columns;
use crate::records::{Parts, bytes_of, label_span, two_at};
use names::repeats::{REMAINDERS, first_repeat, held_name, start_of};
use names::words::same_words;
use rules::SHORT_MOST;
use writing::spans::Span;

// A part as it is held for a name. Zeros and no None: document 01 names arrays of 8-byte arrays.
#[tactic(auto, using(crate::proofs::NameSteps::short_none), unfolding(crate::specs::NamesTest::held_in))]
fn held_part(s: &[u8], p: Span) -> [u8; SHORT_MOST]
    requires { (ending p ≤ length s.now) × (length s.now ≤ table_most) }
    ensures { result ≡ held_in s.now p }
{
    if p.len == 0 {
        return [0u8; SHORT_MOST];
    }
    held_name(bytes_of(s, p))
}

// A label as it is held for reading: zeros where it has not the form of a short name. Zeros and no None, as in
// held_part.
#[tactic(auto, using(crate::proofs::NameSteps::label_none), unfolding(crate::specs::NamesTest::held_in))]
fn held_label(s: &[u8], label: Span, word: bool) -> [u8; SHORT_MOST]
    requires { (ending label ≤ length s.now) × (length s.now ≤ table_most)
        × (word ≡ is_short (bytes_in s.now label)) }
    ensures { result ≡ held_word (bytes_in s.now label) }
{
    if word {
        return held_part(s, label);
    }
    [0u8; SHORT_MOST]
}

// The length, the middle byte and the last two bytes of a label, in one number.
#[tactic(auto, unfolding(crate::specs::NamesTest::sample_key))]
fn sample_key(w: &[u8]) -> usize
    requires { length w.now ≤ table_most }
    ensures { result ≡ sample_key w.now }
{
    let n = w.len();
    if n < 2 {
        return 0;
    }
    (256 * n + usize::from(w[n / 2])) * 65536 + two_at(w, n - 2)
}

// The key of a label.
fn label_key(s: &[u8], label: Span) -> usize
    requires { (ending label ≤ length s.now) × (length s.now ≤ table_most) }
    ensures { result ≡ sample_key (bytes_in s.now label) }
{
    sample_key(bytes_of(s, label))
}

// The place of a record, the key of its label and its names are put into the columns; word says whether its label may
// be read.
pub(crate) fn gather<const N: usize>(
    s: &[u8],
    at: usize,
    parts: Parts,
    word: bool,
    i: usize,
    columns: &mut Columns<N>,
)
    requires record { (length s.now ≤ table_most) × (parts ≡ parts_at s.now at) × Inside s.now parts
        × (word ≡ is_short (bytes_in s.now parts.label)) }
    requires index { (i < N) × (i < fields_most) }
    ensures marks { columns.new.marks ≡ columns.old.marks }
    ensures places { columns.new.places ≡ set columns.old.places i at }
    ensures keys { columns.new.keys ≡ set columns.old.keys i (label_key s.now at) }
    ensures counts { columns.new.counts ≡ columns.old.counts }
    ensures shorts { columns.new.shorts ≡ set columns.old.shorts i (short_at s.now at) }
    ensures words { columns.new.words ≡ set columns.old.words i (word_at s.now at) }
{
    columns.places[i] = at;
    columns.keys[i] = label_key(s, parts.label);
    columns.shorts[i] = held_part(s, parts.short);
    columns.words[i] = held_label(s, parts.label, word);
}

// The records at two places, whose labels have these keys, have one label.
#[tactic(auto, using(crate::proofs::NameSteps::keys_other), unfolding(crate::specs::NamesTest::label_at))]
fn same_labels(s: &[u8], a: usize, b: usize, key: usize, other: usize) -> bool
    requires { (length s.now ≤ table_most) × FieldPlace s.now a × FieldPlace s.now b
        × (key ≡ label_key s.now a) × (other ≡ label_key s.now b) }
    ensures { result ≡ same (label_at s.now a) (label_at s.now b) }
{
    if key != other {
        return false;
    }
    same_words(bytes_of(s, label_span(s, a)), bytes_of(s, label_span(s, b)))
}

// The first of the records whose label repeats an earlier one, else their number. A repeat ends both loops at once, by
// the outer one's label and with its value, which a `for` there would not give. n for none, as first_repeat promises.
fn first_label(s: &[u8], places: &[usize], keys: &[usize], n: usize) -> usize
    requires { (n ≤ fields_most) × (length s.now ≤ table_most) × FieldPlaces s.now n places.now
        × LabelKeys s.now places.now n keys.now × (n ≤ length places.now) × (n ≤ length keys.now) }
    ensures { result ≡ first_repeat (labels_alike s.now places.now) n }
{
    let mut seen = [0u8; REMAINDERS];
    let mut j = 0;
    'later: loop {
        if j >= n {
            break 'later n;
        }
        let key = keys[j];
        for i in start_of(&seen, key, j)..j {
            if same_labels(s, places[i], places[j], keys[i], key) {
                break 'later j;
            }
        }
        seen[key % REMAINDERS] = 1;
        j += 1;
    }
}

// No label and no short name of the n records is a name of an earlier one.
#[tactic(auto, unfolding(crate::specs::NamesTest::unique_in))]
pub(crate) fn has_unique_names<const N: usize>(s: &[u8], columns: &Columns<N>, n: usize) -> bool
    requires { (n ≤ fields_most) × (n ≤ N) × (length s.now ≤ table_most) × FieldPlaces s.now n columns.now.places
        × LabelKeys s.now columns.now.places n columns.now.keys }
    ensures { result ≡ unique_in s.now columns.now.places columns.now.shorts columns.now.words n }
{
    first_label(s, &columns.places, &columns.keys, n) == n
        && first_repeat(&columns.shorts, &columns.words, n) == n
}
