// A description text is read in one pass, line by line, and its table is written.
ghost use Rattle.std.specs.Prelude.{◌≤◌, length};
ghost use Rattle.rules.specs.Answers.{of_text};
ghost use Rattle.rules.specs.Limits.{text_most};
ghost use Rattle.rules.specs.Promises.{ReadsText, leaves};
ghost use Rattle.texts.specs.States.{NoneCounted};

use crate::cell_texts::ROW_ROOM;
use crate::held_areas::{HELD_ROOM, LABELS_AT, NAMES_AT};
use crate::name_starts::clear_starts;
use crate::states::begin;
use crate::text_ends::end_text;
use crate::walks::walk_lines;
use rules::{FIELDS_MOST, TEXT_MOST, TextAnswer, TextRefusal};

// The lines of a text, and its end, with room for what is kept of it.
fn read_held(
    text: &[u8],
    out: &mut [u8],
    held: &mut [u8; HELD_ROOM],
    row: &mut [u8; ROW_ROOM],
    counts: &mut [u16; FIELDS_MOST],
) -> TextAnswer
    requires { (length text.now ≤ text_most) × NoneCounted counts.old }
    ensures { ReadsText text.now out.old (leaves (of_text result) out.new) }
{
    clear_starts(&mut held[NAMES_AT..LABELS_AT]);
    let w = walk_lines(begin(), text, 0, held, row, counts);
    let r = w.reading;
    end_text(r, w.at == text.len(), row, held, counts, out)
}

// A text that is not too long. Out of line: its room on the stack costs a text that is too long nothing.
#[inline(never)]
fn read_short(text: &[u8], out: &mut [u8]) -> TextAnswer
    requires { length text.now ≤ text_most }
    ensures { ReadsText text.now out.old (leaves (of_text result) out.new) }
{
    let mut held = [0u8; HELD_ROOM];
    let mut row = [0u8; ROW_ROOM];
    let mut counts = [0u16; FIELDS_MOST];
    read_held(text, out, &mut held, &mut row, &mut counts)
}

// A text read into an output: its table at the output's start, or the refusal.
pub fn read_text(text: &[u8], out: &mut [u8]) -> TextAnswer
    ensures { ReadsText text.now out.old (leaves (of_text result) out.new) }
{
    if TEXT_MOST < text.len() {
        return Err(TextRefusal::TooLong);
    }
    read_short(text, out)
}
