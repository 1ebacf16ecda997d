// Where what is kept of a text stands in the array that holds it: cells, names, labels, then NAME and the records.
// They are ranges of one array: each function that took a struct of four lent areas would have to say that it keeps
// them.
use crate::held_names::NAMES_ROOM;
use crate::name_clashes::LABELS_ROOM;
use crate::slots::ROW_MOST;
use rules::{FIELDS_MOST, LABEL_MOST, RECORD_MOST};

// The most bytes of a stored cell.
pub(crate) const SLOT_MOST: usize = 43;

// Behind the cells of all fields and of one row more.
pub(crate) const NAMES_AT: usize = SLOT_MOST * FIELDS_MOST + ROW_MOST;

pub(crate) const LABELS_AT: usize = NAMES_AT + NAMES_ROOM;

pub(crate) const TABLE_AT: usize = LABELS_AT + LABELS_ROOM;

// Behind NAME and the records of all fields.
pub(crate) const HELD_ROOM: usize = TABLE_AT + LABEL_MOST + RECORD_MOST * FIELDS_MOST;
