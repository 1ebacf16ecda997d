// What is gathered of the fields of a table, as they are walked over.
ghost use Rattle.std.specs.Prelude.{◌≤◌};
ghost use Rattle.rules.specs.Limits.{fields_most};
ghost use Rattle.packets.specs.CountsTest.{Zeros};

use rules::{FIELDS_MOST, SHORT_MOST};

// Of each of at most N fields: the mark, 1 where it may be read; the place of its record, the key of its label, how
// often it is read, and its short name and its label as they are held. Marks are numbers and no bools: the definition
// marked of specs/StoredTrees.antt takes numbers, as it has 0 behind the end.
#[derive(Drop)]
pub(crate) struct Columns<const N: usize> {
    pub marks: [u8; N],
    pub places: [usize; N],
    pub keys: [usize; N],
    pub counts: [u16; N],
    pub shorts: [[u8; SHORT_MOST]; FIELDS_MOST],
    pub words: [[u8; SHORT_MOST]; FIELDS_MOST],
}

impl<const N: usize> Columns<N> {
    pub(crate) fn empty() -> Columns<N>
        requires { N ≤ fields_most }
        ensures { Zeros result.counts }
    {
        Columns {
            marks: [0; N],
            places: [0; N],
            keys: [0; N],
            counts: [0; N],
            shorts: [[0; SHORT_MOST]; FIELDS_MOST],
            words: [[0; SHORT_MOST]; FIELDS_MOST],
        }
    }
}
