// The width of a field line, by the kinds of the records of fields in a table.
ghost use Rattle.std.specs.Prelude.{◌≡◌};
ghost use Rattle.texts.specs.Kinds.{kind_code, is_fixed, is_rest, tree_of};

use crate::stored_trees::StoredTree;

// A fixed width by its bits, one that is measured by the bits of its unit and its expression, or the rest.
#[derive(Clone, Copy)]
pub(crate) enum Width {
    Fixed(usize),
    Measured(usize, StoredTree),
    Rest,
}

impl Width {
    // The kind as in a table.
    // The numbers of the stored form; packets reads them for itself.
    pub(crate) fn code(self) -> usize
        ensures { result ≡ kind_code self }
    {
        match self {
            Width::Fixed(_) => 12,
            Width::Measured(_, _) => 13,
            Width::Rest => 14,
        }
    }

    pub(crate) fn is_fixed(self) -> bool
        ensures { result ≡ is_fixed self }
    {
        matches!(self, Width::Fixed(_))
    }

    pub(crate) fn is_rest(self) -> bool
        ensures { result ≡ is_rest self }
    {
        matches!(self, Width::Rest)
    }

    // Its expression, where it has one.
    pub(crate) fn tree(self) -> Option<StoredTree>
        ensures { result ≡ tree_of self }
    {
        match self {
            Width::Measured(_, t) => Some(t),
            _ => None,
        }
    }
}
