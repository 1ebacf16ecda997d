// A line of which the first bytes are held in a state: the others are put behind them.
ghost use Rattle.std.specs.Prelude.{◌≡◌, true, cond, ◌+◌, ◌≤◌, eqb, length};
ghost use Rattle.rules.specs.Limits.{text_most, line_most};
ghost use Rattle.rules.specs.Names.{line_feed};
ghost use Rattle.rules.specs.Frames.{is_line};
ghost use Rattle.texts.specs.StateNumbers.{state_room};
ghost use Rattle.texts.specs.PieceStates.{SameAround, JoinedLine, EndedStep};
ghost use Rattle.texts.specs.HeldAreas.{held_room};
ghost use Rattle.texts.specs.States.{Room, Taken, LineRoom, LineStep};

use crate::cell_texts::ROW_ROOM;
use crate::line_steps::take_line;
use crate::state_areas::{HELD_AT, LINE_AT, STATE_BYTES};
use crate::states::Reading;
use crate::text_ends::cut_line;
use rules::{FIELDS_MOST, LINE_MOST};
use writing::puts::put;

// A byte of a held line: no line feed is one.
fn plain(b: u8) -> u8
    ensures { result ≡ cond (eqb b line_feed) 32 b }
{
    if b == b'\n' { b' ' } else { b }
}

// The held bytes and the part, one behind the other.
// By index: under `zip` no invariant of a loop can name the bytes that are written.
fn join_line(s: &[u8], used: usize, part: &[u8], line: &mut [u8]) -> usize
    requires { (state_room ≤ length s.now) × (used + length part.now ≤ line_most)
        × (line_most ≤ length line.old) × (is_line part.now ≡ true) }
    ensures { JoinedLine s.now used part.now line.new result }
{
    for (i, &b) in s[LINE_AT..LINE_AT + used].iter().enumerate() {
        line[i] = plain(b);
    }
    put(line, used, part)
}

// The joined line is ended, with what is held in a part of a state. The part is made an array only here: in the caller
// no clause would tell what the state ends as.
fn end_joined(
    r: Reading,
    line: &[u8],
    area: &mut [u8],
    row: &mut [u8; ROW_ROOM],
    counts: &mut [u16; FIELDS_MOST],
) -> Reading
    requires { LineRoom r line.now × (is_line line.now ≡ true) × (length area.old ≡ held_room) }
    ensures room { Taken r result }
    ensures step { LineStep line.now r result area.old area.new
        row.old row.new counts.old counts.new }
{
    let Some(held) = area.as_mut_array() else {
        unreachable!();
    };
    take_line(r, line, held, row, counts)
}

// The held line with the part behind it, ended; 3 where it is too long.
pub(crate) fn end_held(
    r: Reading,
    s: &mut [u8],
    used: usize,
    part: &[u8],
    row: &mut [u8; ROW_ROOM],
    counts: &mut [u16; FIELDS_MOST],
) -> Reading
    requires { Room r × (r.lines ≤ text_most) × (state_room ≤ length s.old) × (used ≤ line_most)
        × (is_line part.now ≡ true) }
    ensures room { Taken r result }
    ensures around { SameAround s.old s.new }
    ensures step { EndedStep s.old used part.now r result s.new
        row.old row.new counts.old counts.new }
{
    if LINE_MOST - used < part.len() {
        return cut_line(r, row);
    }
    let mut line = [0u8; LINE_MOST];
    let n = join_line(s, used, part, &mut line);
    end_joined(r, &line[0..n], &mut s[HELD_AT..STATE_BYTES], row, counts)
}
