// Where the parts of a state stand: numbers, the unfinished line, the lines of the open row, how often each field is
// read, and what else is held. A state is bytes that the caller lends, so its parts stand at places and in no struct.
use crate::cell_texts::ROW_ROOM;
use crate::held_areas::HELD_ROOM;
use rules::{FIELDS_MOST, LINE_MOST};

// The bytes of the unfinished line.
pub(crate) const USED_AT: usize = 2;

pub(crate) const LINE_AT: usize = 24;

pub(crate) const ROW_AT: usize = LINE_AT + LINE_MOST;

pub(crate) const COUNTS_AT: usize = ROW_AT + ROW_ROOM;

pub(crate) const HELD_AT: usize = COUNTS_AT + 2 * FIELDS_MOST;

// So many bytes has a state.
pub(crate) const STATE_BYTES: usize = HELD_AT + HELD_ROOM;
