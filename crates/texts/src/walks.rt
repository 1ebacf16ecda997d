// The whole lines of a text, one by one.
ghost use Rattle.std.specs.Prelude.{◌≡◌, ◌-◌, ◌≤◌, Some, length};
ghost use Rattle.rules.specs.Limits.{text_most};
ghost use Rattle.texts.specs.Changes.{changed};
ghost use Rattle.texts.specs.WalkSteps.{LinesFit, LinesLeft, WalkStep};
ghost use Rattle.texts.specs.declared.notes.Note.TheVariants.{BadByte};
ghost use Rattle.texts.specs.declared.states.Stage.TheVariants as at;

use crate::cell_texts::ROW_ROOM;
use crate::held_areas::HELD_ROOM;
use crate::line_steps::take_line;
use crate::notes::Note;
use crate::states::{Reading, Stage, staged};
use crate::text_bytes::line_end;
use rules::FIELDS_MOST;

// What was read of whole lines, and where the line that is not ended begins.
#[derive(Clone, Copy)]
pub(crate) struct Walked {
    pub reading: Reading,
    pub at: usize,
}

// 2: no line matters any more.
pub(crate) fn bad_byte(r: Reading) -> Reading
    ensures { result ≡ changed r r.lines at.Lost (Some BadByte) }
{
    staged(r, Stage::Lost, Some(Note::BadByte))
}

// The lines of a text from a place on, at which one begins. Behind a byte that is not allowed nothing is left.
// A plain loop: it ends in two ways, each with its own answer.
pub(crate) fn walk_lines(
    first: Reading,
    text: &[u8],
    from: usize,
    held: &mut [u8; HELD_ROOM],
    row: &mut [u8; ROW_ROOM],
    counts: &mut [u16; FIELDS_MOST],
) -> Walked
    requires { (from ≤ length text.now) × (length text.now ≤ text_most)
        × LinesFit (length text.now - from) first }
    ensures place { result.at ≤ length text.now }
    ensures room { LinesLeft (length text.now - from) first
        (length text.now - result.at) result.reading }
    ensures step { WalkStep text.now from first result held.old held.new
        row.old row.new counts.old counts.new }
{
    let mut r = first;
    let mut at = from;
    loop {
        let e = line_end(text, at);
        if e == text.len() {
            return Walked { reading: r, at };
        }
        if text[e] != b'\n' {
            return Walked {
                reading: bad_byte(r),
                at: text.len(),
            };
        }
        r = take_line(r, &text[at..e], held, row, counts);
        at = e + 1;
    }
}
