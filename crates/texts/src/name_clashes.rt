// A field's names held against those of earlier fields. Labels stand in a buffer of their own, one behind the other:
// bytes of a state that the caller lends, as the names.
ghost use Rattle.std.specs.Prelude.{[], ◌≡◌, ◌+◌, ◌*◌, ◌≤◌, ◌<◌, length, take, drop, get_or};
ghost use Rattle.base.specs.Lists.{same};
ghost use Rattle.rules.specs.Limits.{fields_most, label_most, short_most};
ghost use Rattle.names.specs.Repeats.{pad_to};
ghost use Rattle.texts.specs.HeldNames.{shorts_at, words_at, names_room, names_in, labels_room, labels_in, clash_held};
ghost use Rattle.texts.specs.HeldNames.{any_clash};

use crate::held_names::{SHORTS_AT, WORDS_AT, name_at};
use names::repeats::{names_meet, padded};
use names::words::same_words;
use rules::{FIELDS_MOST, LABEL_MOST, SHORT_MOST};

// Room for all of them.
pub(crate) const LABELS_ROOM: usize = LABEL_MOST * FIELDS_MOST;

// A label of at most LABEL_MOST bytes, with zeros behind its end; of a longer one its first bytes.
pub(crate) fn held_label(w: &[u8]) -> [u8; LABEL_MOST]
    ensures { result ≡ pad_to label_most w.now }
{
    padded(w)
}

// The labels of two indexes are the same, byte by byte, where they stand.
fn same_label(labels: &[u8], i: usize, n: usize) -> bool
    requires { (i < fields_most) × (n < fields_most) × (labels_room ≤ length labels.now) }
    ensures { result ≡ same (get_or (labels_in labels.now) n [])
        (get_or (labels_in labels.now) i []) }
{
    let own = LABEL_MOST * n;
    let own_end = own + LABEL_MOST;
    let at = LABEL_MOST * i;
    let end = at + LABEL_MOST;
    same_words(&labels[own..own_end], &labels[at..end])
}

// The field of index n, whose short name and label for reading are given, shares a name with that of index i.
#[tactic(auto, using(crate::proofs::NameAreas::meet_in), unfolding(crate::specs::HeldNames::clash_held))]
fn clash(
    labels: &[u8],
    names: &[u8],
    short: [u8; SHORT_MOST],
    word: [u8; SHORT_MOST],
    n: usize,
    i: usize,
) -> bool
    requires { (i < fields_most) × (n < fields_most) × (labels_room ≤ length labels.now)
        × (names_room ≤ length names.now) × (short ≡ take short_most (drop (shorts_at + short_most * n) names.now))
        × (word ≡ take short_most (drop (words_at + short_most * n) names.now)) }
    ensures { result ≡ clash_held (labels_in labels.now) (names_in names.now).shorts
        (names_in names.now).words n i }
{
    same_label(labels, i, n)
        || names_meet(
            short,
            word,
            name_at(names, SHORTS_AT + SHORT_MOST * i),
            name_at(names, WORDS_AT + SHORT_MOST * i),
        )
}

// One of the first n fields shares a name with the field of index n.
pub(crate) fn clashes(labels: &[u8], names: &[u8], n: usize) -> bool
    requires { (n < fields_most) × (labels_room ≤ length labels.now) × (names_room ≤ length names.now) }
    ensures { result ≡ any_clash (labels_in labels.now) (names_in names.now).shorts
        (names_in names.now).words n }
{
    let short = name_at(names, SHORTS_AT + SHORT_MOST * n);
    let word = name_at(names, WORDS_AT + SHORT_MOST * n);
    let mut i = 0;
    // Document 01 gives the form: labelled loops that end with the answer.
    'earlier: loop {
        if i >= n {
            break 'earlier false;
        }
        if clash(labels, names, short, word, n, i) {
            break 'earlier true;
        }
        i += 1;
    }
}
