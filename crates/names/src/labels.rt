// Labels and short names, by the classes that a lent table has of their bytes.
ghost use Rattle.std.specs.Prelude.{◌≡◌};
ghost use Rattle.base.specs.Lists.{all};
ghost use Rattle.rules.specs.Names.{is_label, is_short};
ghost use Rattle.names.specs.Classes.{space_class, has_class, is_word_in};
ghost use Rattle.names.specs.LentNames.{is_label_byte_in, has_ends_in, no_two, is_label_in, is_short_in};

use crate::classes::{Classes, is_label_byte_in, is_letter_in, is_space_in, is_word_in};
use crate::words::is_reserved;
use rules::{LABEL_MOST, SHORT_MOST};

// Out of line: inlined where the fields of a table are checked, its loop takes more time for each byte.
#[inline(never)]
fn label_bytes(classes: &[u8; 256], w: &[u8]) -> bool
    ensures { result ≡ all (is_label_byte_in classes.now) w.now }
{
    w.iter().all(|b| is_label_byte_in(classes, *b))
}

fn word_bytes(classes: &[u8; 256], w: &[u8]) -> bool
    ensures { result ≡ all (is_word_in classes.now) w.now }
{
    w.iter().all(|b| is_word_in(classes, *b))
}

#[tactic(auto, using(crate::proofs::Spaces::two_window, crate::proofs::Spaces::two_end))]
fn no_two_spaces(classes: &[u8; 256], w: &[u8]) -> bool
    ensures { result ≡ no_two (has_class space_class classes.now) w.now }
{
    // By a loop: its invariant is no_two of what is left, which recurses as the loop does.
    for pair in w.windows(2) {
        if is_space_in(classes, pair[0]) && is_space_in(classes, pair[1]) {
            return false;
        }
    }
    true
}

// A letter or digit at each end.
#[tactic(auto, using(base::proofs::Library::head_of, base::proofs::Library::last_of))]
fn has_word_ends(classes: &[u8; 256], w: &[u8]) -> bool
    ensures { result ≡ has_ends_in classes.now w.now }
{
    let (Some(first), Some(last)) = (w.first(), w.last()) else {
        return false;
    };
    is_word_in(classes, *first) && is_word_in(classes, *last)
}

#[tactic(auto, unfolding(crate::specs::LentNames::is_label_in))]
pub fn is_label_in(classes: &[u8; 256], w: &[u8]) -> bool
    ensures { result ≡ is_label_in classes.now w.now }
{
    w.len() <= LABEL_MOST
        && label_bytes(classes, w)
        && has_word_ends(classes, w)
        && no_two_spaces(classes, w)
}

#[tactic(auto, using(base::proofs::Library::head_of), unfolding(crate::specs::LentNames::is_short_in))]
pub fn is_short_in(classes: &[u8; 256], w: &[u8]) -> bool
    ensures { result ≡ is_short_in classes.now w.now }
{
    let Some(first) = w.first() else {
        return false;
    };
    is_letter_in(classes, *first)
        && w.len() <= SHORT_MOST
        && word_bytes(classes, w)
        && !is_reserved(w)
}

pub fn is_label(w: &[u8]) -> bool
    ensures { result ≡ is_label w.now }
{
    let classes = Classes::new();
    classes.is_label(w)
}

impl Classes {
    #[tactic(auto, using(crate::proofs::LentLaws::label_in_lem))]
    pub fn is_label(&self, w: &[u8]) -> bool
        ensures { result ≡ is_label w.now }
    {
        is_label_in(&self.table, w)
    }

    #[tactic(auto, using(crate::proofs::LentLaws::short_in_lem))]
    pub fn is_short(&self, w: &[u8]) -> bool
        ensures { result ≡ is_short w.now }
    {
        is_short_in(&self.table, w)
    }
}
