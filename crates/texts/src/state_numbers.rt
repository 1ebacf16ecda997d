// The numbers of what is kept of a text, as bytes of a state. A state may hold any bytes, so what is loaded is cut down
// to what can be.
ghost use Rattle.std.specs.Prelude.{◌≡◌, ◌+◌, ◌≤◌, length};
ghost use Rattle.rules.specs.Limits.{text_most};
ghost use Rattle.rules.specs.Trees.{le2};
ghost use Rattle.laws.specs.Places.{two_at};
ghost use Rattle.texts.specs.StateNumbers.{
  line_at,
  stage_code,
  stage_at,
  note_code,
  place_or,
  note_at,
  place_beside,
  number_bytes,
  Fits,
  Loaded,
  Saved,
};

use crate::held_areas::SLOT_MOST;
use crate::notes::{Note, number_of, place_of};
use crate::states::{Reading, Stage};
use rules::{FIELDS_MOST, LABEL_MOST, RECORD_MOST, ROW_LINES_MOST};
use writing::puts::put;

// Where the numbers of the reading stand.
const NUMBERS_AT: usize = 4;

// The longest row.
const WIDTH_MOST: usize = 32;

// A number in two bytes, the least first. Not the one of packets, which has another promise behind the end.
pub(crate) fn two_at(s: &[u8], at: usize) -> usize
    requires { at + 2 ≤ length s.now }
    ensures { (result ≡ two_at s.now at) × (result ≤ 65535) }
{
    usize::from(u16::from_le_bytes([s[at], s[at + 1]]))
}

// The stage of a code; one that is none stands for the last.
// A match, as no cast goes from a number to a variant.
impl From<u8> for Stage {
    ghost from_gives = { λ code stage. stage ≡ stage_at code };

    #[tactic(auto, unfolding(crate::specs::StateNumbers::stage_at))]
    fn from(code: u8) -> Stage {
        match code {
            0 => Stage::Opening,
            1 => Stage::Blank,
            2 => Stage::TensRuler,
            3 => Stage::UnitsRuler,
            4 => Stage::TopBorder,
            5 => Stage::FirstRow,
            6 => Stage::InRow,
            7 => Stage::RowOrBlank,
            8 => Stage::WhereLine,
            9 => Stage::LastBlank,
            10 => Stage::FirstField,
            11 => Stage::FieldLine,
            _ => Stage::Lost,
        }
    }
}

impl From<Stage> for u8 {
    ghost from_gives = { λ stage code. code ≡ stage_code stage };

    #[tactic(auto, unfolding(crate::specs::StateNumbers::stage_code))]
    fn from(stage: Stage) -> u8 {
        stage as u8
    }
}

// The refusal of a number and a place; none where the number is that of none.
// Numbers, as a state keeps a refusal as bytes; a function, as Option and pair are no types of this crate.
#[tactic(auto, unfolding(crate::specs::StateNumbers::note_at))]
fn load_note(number: u8, place: usize) -> Option<Note>
    ensures { result ≡ note_at number place }
{
    match number {
        2 => Some(Note::BadByte),
        3 => Some(Note::BadLine(place)),
        4 => Some(Note::TooMany),
        5 => Some(Note::BadForm(place)),
        6 => Some(Note::OverLimit(place)),
        7 => Some(Note::Mismatch(place)),
        8 => Some(Note::Repeated(place)),
        9 => Some(Note::BadName(place)),
        10 => Some(Note::BadRest(place)),
        _ => None,
    }
}

// The number and the place of a refusal; 0 and another place where there is none.
// Numbers, as a state keeps a refusal as bytes.
#[tactic(auto, unfolding(crate::specs::StateNumbers::note_code, crate::specs::StateNumbers::place_or))]
fn note_numbers(a: Option<Note>, place: usize) -> (u8, usize)
    ensures { (result.0 ≡ note_code a) × (result.1 ≡ place_or place a) }
{
    a.map_or((0, place), |n| (number_of(n), place_of(n)))
}

// What stands as a place beside no refusal, as far as it can be one behind so many lines.
#[tactic(auto, unfolding(crate::specs::StateNumbers::place_beside))]
pub(crate) fn place_beside(s: &[u8], lines: usize) -> usize
    requires { (line_at ≤ length s.now) × (lines ≤ text_most) }
    ensures { result ≡ place_beside s.now lines }
{
    if s[20] == 0 {
        two_at(s, 22).min(lines + 1)
    } else {
        0
    }
}

// The reading of a state of a text of so many bytes.
pub(crate) fn load(s: &[u8], size: usize) -> Reading
    requires { (line_at ≤ length s.now) × (size ≤ text_most) }
    ensures { Loaded size s.now result }
{
    let lines = two_at(s, 4).min(size);
    let name = usize::from(s[8]).min(LABEL_MOST);
    let cells = usize::from(s[10]).min(FIELDS_MOST);
    let slots = two_at(s, 14).min(SLOT_MOST * cells);
    let count = usize::from(s[11]).min(FIELDS_MOST);
    let fields = usize::from(s[12]).min(count);
    let end = two_at(s, 18).min(LABEL_MOST + RECORD_MOST * fields);
    Reading {
        lines,
        stage: Stage::from(s[6]),
        width: usize::from(s[7]).min(WIDTH_MOST),
        name,
        row: usize::from(s[9]).min(ROW_LINES_MOST),
        cells,
        slots,
        cell: two_at(s, 16).min(slots),
        count,
        fields,
        end: end.max(name),
        rested: s[13] == 1,
        note: load_note(s[20], two_at(s, 22).min(lines + 1)),
    }
}

// A number below 65,536 in two bytes, the least first; of a larger one its remainder.
#[tactic(auto, unfolding(rules::specs::Trees::le2))]
fn two_of(n: usize) -> [u8; 2]
    ensures { result ≡ le2 n }
{
    ((n % 65536) as u16).to_le_bytes()
}

// The bytes of a reading's numbers, with a place where nothing is refused.
// By remainders: no bound on a reading is asked for here.
fn number_bytes(r: Reading, place: usize) -> [u8; 20]
    ensures { result ≡ number_bytes r place }
{
    let (number, refused_at) = note_numbers(r.note, place);
    let lines = two_of(r.lines);
    let slots = two_of(r.slots);
    let cell = two_of(r.cell);
    let end = two_of(r.end);
    let place = two_of(refused_at);
    [
        lines[0],
        lines[1],
        u8::from(r.stage),
        (r.width % 256) as u8,
        (r.name % 256) as u8,
        (r.row % 256) as u8,
        (r.cells % 256) as u8,
        (r.count % 256) as u8,
        (r.fields % 256) as u8,
        u8::from(r.rested),
        slots[0],
        slots[1],
        cell[0],
        cell[1],
        end[0],
        end[1],
        number,
        0,
        place[0],
        place[1],
    ]
}

// A reading into a state; where nothing is refused, with a place beside that, as far as it can be one.
pub(crate) fn save(s: &mut [u8], r: Reading, place: usize)
    requires { line_at ≤ length s.old }
    ensures { Saved s.old r s.new }
{
    let bytes = number_bytes(r, place.min(r.lines.saturating_add(1)));
    put(s, NUMBERS_AT, &bytes);
}
