// A text that comes in pieces. What is kept between them stands in the bytes of a state that the caller lends.
ghost use Rattle.std.specs.Prelude.{◌≡◌, true, ◌+◌, ◌-◌, ◌≤◌, ◌<◌, length, drop};
ghost use mathlib.Core.List.{foldl};
ghost use Rattle.base.specs.Lists.{all};
ghost use Rattle.rules.specs.Answers.{of_text};
ghost use Rattle.rules.specs.Limits.{text_most, line_most, fields_most, row_lines_most};
ghost use Rattle.rules.specs.Names.{is_printable};
ghost use Rattle.rules.specs.Promises.{leaves};
ghost use Rattle.rules.specs.Pieces.{StartsText, TakesPiece, EndsText};
ghost use Rattle.text_laws.specs.Fold as fold;
ghost use Rattle.laws.specs.Places.{two_at};
ghost use Rattle.texts.specs.HeldAreas.{held_room};
ghost use Rattle.texts.specs.LineEnds.{printable_length};
ghost use Rattle.texts.specs.StateNumbers.{state_room};
ghost use Rattle.texts.specs.WalkSteps.{LinesFit, LinesLeft, WalkStep};
ghost use Rattle.texts.specs.PieceStates.{
  fresh_state,
  Left,
  StateHolds,
  SameAround,
  Cleared,
  CutState,
  StoredState,
  PieceWalk,
};

use crate::cell_texts::{LINE_ROOM, ROW_ROOM};
use crate::fills::fill;
use crate::held_areas::{LABELS_AT, NAMES_AT};
use crate::line_joins::end_held;
use crate::name_starts::clear_starts;
use crate::state_areas::{COUNTS_AT, HELD_AT, LINE_AT, ROW_AT, STATE_BYTES, USED_AT};
use crate::state_counts::{load_counts, save_counts};
use crate::state_numbers::{load, place_beside, save, two_at};
use crate::states::Reading;
use crate::text_bytes::line_end;
use crate::text_ends::{cut_line, end_text};
use crate::walks::{Walked, bad_byte, walk_lines};
use rules::{FIELDS_MOST, LINE_MOST, TEXT_MOST, TextAnswer, TextRefusal};
use writing::puts::{put, put_two};

// No line is held, and nothing stands in the row's part behind n lines.
fn clear_parts(s: &mut [u8], n: usize)
    requires { (state_room ≤ length s.old) × (n ≤ row_lines_most) }
    ensures { Cleared n s.old s.new }
{
    put_two(s, USED_AT, 0);
    fill(s, LINE_AT, ROW_AT, 0);
    fill(s, ROW_AT + LINE_ROOM * n, COUNTS_AT, 0);
}

// The unfinished line got too long.
fn cut_state(s: &mut [u8], size: usize)
    requires { (state_room ≤ length s.old) × (size ≤ text_most) }
    ensures around { SameAround s.old s.new }
    ensures cut { CutState size s.old s.new }
{
    let r = load(s, size);
    let place = place_beside(s, r.lines);
    let q = cut_line(r, s[ROW_AT..COUNTS_AT].as_array().unwrap());
    save(s, q, place);
    clear_parts(s, q.row);
}

// A part without a line feed goes behind the unfinished line. With it the text has at most so many bytes.
fn add_part(s: &mut [u8], size: usize, part: &[u8])
    requires { (state_room ≤ length s.old) × (size ≤ text_most) }
    ensures around { SameAround s.old s.new }
    ensures step { all is_printable part.now ≡ true → (k : fold.Kept)
        → k.size + length part.now ≤ size → StateHolds k s.old
        → StateHolds (foldl fold.fed k part.now) s.new }
{
    let used = two_at(s, USED_AT).min(LINE_MOST);
    if LINE_MOST - used < part.len() {
        cut_state(s, size);
        return;
    }
    put(s, LINE_AT + used, part);
    put_two(s, USED_AT, used + part.len());
}

// The lines of a piece from a place on, with what is held in a part of a state. The part is made an array only here: in
// the caller no clause would tell what the state ends as.
fn walk_rest(
    r: Reading,
    piece: &[u8],
    from: usize,
    area: &mut [u8],
    row: &mut [u8; ROW_ROOM],
    counts: &mut [u16; FIELDS_MOST],
) -> Walked
    requires { (from ≤ length piece.now) × (length piece.now ≤ text_most)
        × LinesFit (length piece.now - from) r × (length area.old ≡ held_room) }
    ensures place { result.at ≤ length piece.now }
    ensures room { LinesLeft (length piece.now - from) r
        (length piece.now - result.at) result.reading }
    ensures step { WalkStep piece.now from r result area.old area.new
        row.old row.new counts.old counts.new }
{
    let Some(held) = area.as_mut_array() else {
        unreachable!();
    };
    walk_lines(r, piece, from, held, row, counts)
}

// The lines of a piece behind the held line; its first byte that is not printable has the place `e`.
fn walk_piece(
    r: Reading,
    s: &mut [u8],
    used: usize,
    piece: &[u8],
    e: usize,
    row: &mut [u8; ROW_ROOM],
    counts: &mut [u16; FIELDS_MOST],
) -> Walked
    requires { LinesFit (length piece.now) r × (length piece.now ≤ text_most) × (e < length piece.now)
        × (e ≡ 0 + printable_length (drop 0 piece.now)) × (used ≤ line_most) × (state_room ≤ length s.old) }
    ensures place { result.at ≤ length piece.now }
    ensures room { LinesLeft (length piece.now) r
        (length piece.now - result.at) result.reading }
    ensures around { SameAround s.old s.new }
    ensures step { PieceWalk s.old used piece.now r result s.new
        row.old row.new counts.old counts.new }
{
    if piece[e] != b'\n' {
        return Walked {
            reading: bad_byte(r),
            at: piece.len(),
        };
    }
    let q = end_held(r, s, used, &piece[0..e], row, counts);
    walk_rest(q, piece, e + 1, &mut s[HELD_AT..STATE_BYTES], row, counts)
}

// What is kept of whole lines into a state, with a place beside no refusal.
fn store(s: &mut [u8], r: Reading, row: &[u8; ROW_ROOM], counts: &[u16; FIELDS_MOST], place: usize)
    requires { (state_room ≤ length s.old) × (r.row ≤ row_lines_most) }
    ensures around { SameAround s.old s.new }
    ensures stored { StoredState s.old r row.now counts.now
        s.new }
{
    save(s, r, place);
    put(s, ROW_AT, row);
    save_counts(counts, &mut s[COUNTS_AT..HELD_AT]);
    clear_parts(s, r.row);
}

// A piece with a line feed, or with a byte that is not allowed, at `e`; before it the text had so many bytes.
fn take_lines(
    s: &mut [u8],
    size: usize,
    piece: &[u8],
    e: usize,
    row: &mut [u8; ROW_ROOM],
    counts: &mut [u16; FIELDS_MOST],
)
    requires { (state_room ≤ length s.old) × (size + length piece.now ≤ text_most) × (e < length piece.now)
        × (e ≡ 0 + printable_length (drop 0 piece.now)) }
    ensures around { SameAround s.old s.new }
    ensures step { (k : fold.Kept) → k.size ≡ size → StateHolds k s.old
        → StateHolds (foldl fold.fed k piece.now) s.new }
{
    put(row, 0, &s[ROW_AT..COUNTS_AT]);
    load_counts(&s[COUNTS_AT..HELD_AT], counts);
    let used = two_at(s, USED_AT).min(LINE_MOST);
    let r = load(s, size);
    let place = place_beside(s, r.lines);
    let w = walk_piece(r, s, used, piece, e, row, counts);
    let q = w.reading;
    let at = w.at;
    store(
        s,
        q,
        row,
        counts,
        if q.count == r.count { place } else { 0 },
    );
    add_part(s, size + piece.len(), &piece[at..]);
}

// A piece of a text that does not get too long by it.
fn take_short(s: &mut [u8], size: usize, piece: &[u8])
    requires { (state_room ≤ length s.old) × (size + length piece.now ≤ text_most) }
    ensures around { SameAround s.old s.new }
    ensures step { (k : fold.Kept) → k.size ≡ size → StateHolds k s.old
        → StateHolds (foldl fold.fed k piece.now) s.new }
{
    let e = line_end(piece, 0);
    if e == piece.len() {
        add_part(s, size + piece.len(), piece);
        return;
    }
    let mut row = [0u8; ROW_ROOM];
    let mut counts = [0u16; FIELDS_MOST];
    take_lines(s, size, piece, e, &mut row, &mut counts);
}

// A state that is long enough, and a piece of some bytes.
// A text that got too long is told by its length, TEXT_MOST + 1: two bytes of the state.
fn take_piece(s: &mut [u8], piece: &[u8])
    requires { (state_room ≤ length s.old) × (0 < length piece.now) }
    ensures { TakesPiece Left s.old piece.now s.new }
{
    let size = two_at(s, 0);
    if TEXT_MOST < size {
        return;
    }
    if TEXT_MOST - size < piece.len() {
        put_two(s, 0, TEXT_MOST + 1);
        return;
    }
    take_short(s, size, piece);
    put_two(s, 0, size + piece.len());
}

// The state of the empty text: zeros, and no start of a name.
fn start_state(s: &mut [u8])
    requires { state_room ≤ length s.old }
    ensures { StartsText Left fresh_state s.old s.new }
{
    fill(s, 0, STATE_BYTES, 0);
    clear_starts(&mut s[HELD_AT + NAMES_AT..HELD_AT + LABELS_AT]);
}

// The text begins: a state of STATE_BYTES or more is that of the empty text, whatever it held; a shorter one stays.
pub fn text_start(state: &mut [u8])
    ensures { StartsText Left fresh_state state.old state.new }
{
    if state.len() < STATE_BYTES {
        return;
    }
    start_state(state);
}

// A piece of the text. One of no bytes leaves the state as it is.
pub fn text_piece(state: &mut [u8], piece: &[u8])
    ensures { TakesPiece Left state.old piece.now state.new }
{
    if state.len() < STATE_BYTES {
        return;
    }
    if piece.is_empty() {
        return;
    }
    take_piece(state, piece);
}

// The end of a text that is not too long, with room for counts.
fn end_state(s: &[u8], size: usize, counts: &mut [u16; FIELDS_MOST], out: &mut [u8]) -> TextAnswer
    requires { (state_room ≤ length s.now) × (size ≤ text_most) × (size ≡ two_at s.now 0) }
    ensures end { EndsText Left s.now out.old (leaves (of_text result) out.new) }
    ensures place { (of_text result).place ≤ text_most + 1 }
{
    load_counts(&s[COUNTS_AT..HELD_AT], counts);
    let r = load(s, size);
    let whole = two_at(s, USED_AT) == 0;
    end_text(
        r,
        whole,
        s[ROW_AT..COUNTS_AT].as_array().unwrap(),
        s[HELD_AT..STATE_BYTES].as_array().unwrap(),
        counts,
        out,
    )
}

// The end: the answer to the text, and its table in the output where it has one. The state stays, and more pieces may
// come.
pub fn text_end(state: &[u8], out: &mut [u8]) -> TextAnswer
    ensures end { EndsText Left state.now out.old
        (leaves (of_text result) out.new) }
    ensures place { (of_text result).place ≤ text_most + 1 }
{
    if state.len() < STATE_BYTES {
        return Err(TextRefusal::NoRoom);
    }
    let size = two_at(state, 0);
    if TEXT_MOST < size {
        return Err(TextRefusal::TooLong);
    }
    let mut counts = [0u16; FIELDS_MOST];
    end_state(state, size, &mut counts, out)
}
