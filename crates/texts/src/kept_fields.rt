// Field lines: their names are held, their rules tested, their records written.
ghost use Rattle.std.specs.Prelude.{◌≡◌, ◌+◌, ◌≤◌, ◌<◌, Some, length, take, set};
ghost use Rattle.rules.specs.Limits.{text_most, fields_most, label_most};
ghost use Rattle.names.specs.Repeats.{pad_to};
ghost use Rattle.text_laws.specs.Lowest.{lower};
ghost use Rattle.text_laws.specs.Judging.{is_open};
ghost use Rattle.texts.specs.HeldNames.{labels_room, LabelPut};
ghost use Rattle.texts.specs.Noted.{place_of, note_of};
ghost use Rattle.texts.specs.HeldAreas.{slots_most};
ghost use Rattle.texts.specs.States.{Room, Taken, is_full_as, line_refused, NextCell, LineRoom};
ghost use Rattle.texts.specs.States.{PartsRoom, FieldStep, FormStep};

use crate::form_rules::later_rule;
use crate::held_areas::{HELD_ROOM, LABELS_AT, NAMES_AT, TABLE_AT};
use crate::line_counts::keep_field;
use crate::line_parts::{Parts, Trees, parts_of};
use crate::line_rules::rests;
use crate::name_clashes::held_label;
use crate::notes::{Note, lower, number_of};
use crate::part_tests::sizes_kept;
use crate::shown_slots::slot_end;
use crate::states::{Reading, Stage, onward, too_many};
use names::classes::Classes;
use rules::{FIELDS_MOST, LABEL_MOST, STORED_MOST};
use writing::puts::put;

// Nothing but a 3 can matter any more, or a field line too many has come.
fn is_full(r: Reading) -> bool
    ensures { result ≡ is_full_as r }
{
    matches!(r.note, Some(Note::TooMany)) || FIELDS_MOST <= r.count
}

// Behind this refusal the fields of lines are kept.
fn is_open(a: Option<Note>) -> bool
    ensures { result ≡ is_open (note_of a) }
{
    a.is_none_or(|n| 6 < number_of(n))
}

// A line that is refused by 5 or 6: no field is kept of it.
fn refuse_line(mut r: Reading, b: Note) -> Reading
    requires { Room r × (r.lines ≤ text_most) × (r.count < fields_most) × (place_of (Some b) ≤ r.lines + 1) }
    ensures room { Taken r result }
    ensures same { result ≡ line_refused r result.note }
    ensures note { note_of result.note ≡ lower (note_of r.note) (note_of (Some b)) }
{
    let a = lower(r.note, Some(b));
    r.count += 1;
    onward(r, Stage::FieldLine, a)
}

// The label of a line, held as that of index n.
fn hold_label(line: &[u8], label: usize, n: usize, labels: &mut [u8])
    requires { (label ≤ length line.now) × (n < fields_most) × (labels_room ≤ length labels.old) }
    ensures { LabelPut labels.old n (take label line.now) labels.new }
{
    let own = held_label(&line[0..label]);
    put(labels, LABEL_MOST * n, &own);
}

// Where the cell of the field behind the next one stands.
fn next_cell(r: Reading, cells: &[u8]) -> usize
    requires { Room r × (slots_most ≤ length cells.now) }
    ensures { NextCell r cells.now result }
{
    let at = r.cell;
    if r.cells <= r.fields {
        return at;
    }
    let end = slot_end(cells, at);
    if r.slots < end {
        return at;
    }
    end
}

// A line that has a form and keeps 6.
fn take_form(
    mut r: Reading,
    line: &[u8],
    p: Parts,
    trees: &Trees,
    held: &mut [u8; HELD_ROOM],
    counts: &mut [u16; FIELDS_MOST],
) -> Reading
    requires { LineRoom r line.now × (r.count < fields_most)
        × PartsRoom line.now p }
    ensures room { Taken r result }
    ensures step { FormStep line.now
        trees.now p r result
        held.old held.new counts.old counts.new }
{
    let n = r.fields;
    hold_label(line, p.label, n, &mut held[LABELS_AT..TABLE_AT]);
    let b = later_rule(r, line, p, held);
    let a = lower(r.note, b);
    if is_open(a) {
        let at = r.end;
        let end = keep_field(&mut held[TABLE_AT..], at, line, p, trees, n, counts);
        let cell = next_cell(r, &held[0..NAMES_AT]);
        let rested = rests(p, r.rested);
        r.end = end;
        r.cell = cell;
        r.rested = rested;
        r.fields += 1;
        r.count += 1;
        return onward(r, Stage::FieldLine, a);
    }
    r.count += 1;
    onward(r, Stage::FieldLine, a)
}

// A field line. Out of line: its rooms and copies cost other lines nothing.
#[inline(never)]
pub(crate) fn take_field(
    r: Reading,
    line: &[u8],
    held: &mut [u8; HELD_ROOM],
    counts: &mut [u16; FIELDS_MOST],
) -> Reading
    requires { LineRoom r line.now }
    ensures room { Taken r result }
    ensures step { FieldStep line.now r result held.old held.new
        counts.old counts.new }
{
    if is_full(r) {
        return too_many(r, Stage::FieldLine);
    }
    let classes = Classes::new();
    let mut trees = Trees {
        width: [0; STORED_MOST],
        constraint: [0; STORED_MOST],
        condition: [0; STORED_MOST],
    };
    let Some(p) = parts_of(
        &classes,
        line,
        &mut held[NAMES_AT..LABELS_AT],
        r.fields,
        &mut trees,
    ) else {
        return refuse_line(r, Note::BadForm(r.lines + 1));
    };
    if sizes_kept(p) {
        return take_form(r, line, p, &trees, held, counts);
    }
    refuse_line(r, Note::OverLimit(r.lines + 1))
}
