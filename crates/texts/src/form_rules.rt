// The rules 7 to 10 of a field line that has a form.
ghost use Rattle.std.specs.Prelude.{List, ◌≡◌, ℕ, ◌+◌, ◌≤◌, ◌<◌, length};
ghost use Rattle.std.proofs.Math.Option.{some};
ghost use Rattle.rules.specs.Limits.{text_most, fields_most};
ghost use Rattle.rules.specs.Fields.{Form};
ghost use Rattle.text_laws.specs.LineReader.{read_form};
ghost use Rattle.text_laws.specs.Judging.{faces, shows_cell};
ghost use Rattle.text_laws.specs.Fold.{Found};
ghost use Rattle.text_laws.specs.Steady.{Steady};
ghost use Rattle.texts.specs.HeldNames.{Names, names_in, labels_in};
ghost use Rattle.texts.specs.HeldParts.{LineBytes, PartsHeld};
ghost use Rattle.texts.specs.Noted.{place_of, note_of};
ghost use Rattle.texts.specs.PartPlaces.{NamesFit};
ghost use Rattle.texts.specs.HeldAreas.{slots_most, cell_bytes, name_bytes, label_bytes};
ghost use Rattle.texts.specs.States.{Room, Counts, Slots, later_note, NamedWith};

use crate::held_areas::{HELD_ROOM, LABELS_AT, NAMES_AT, TABLE_AT};
use crate::line_parts::Parts;
use crate::line_rules::misplaced;
use crate::name_clashes::clashes;
use crate::notes::Note;
use crate::part_slots::part_shows;
use crate::part_tests::types_kept;
use crate::states::Reading;

// There is a cell for the field, and it is one for the line.
fn shows_cell(r: Reading, line: &[u8], p: Parts, cells: &[u8]) -> bool
    requires { Room r × NamesFit (length line.now) p.label p.short × (slots_most ≤ length cells.now) }
    ensures { (f : Found) (x : Form) (names : Names) (v : LineBytes) → Steady f → Counts f r
        → Slots f r cells.now → PartsHeld names r.fields line.now x v p
        → result ≡ shows_cell f.cells (faces f.judged.fields) x }
{
    r.fields < r.cells && part_shows(cells, r.cell, line, p)
}

// The first of the rules 7 to 10 that the line breaks. Its names are held behind those of the fields.
pub(crate) fn later_rule(r: Reading, line: &[u8], p: Parts, held: &[u8; HELD_ROOM]) -> Option<Note>
    requires { Room r × (r.lines ≤ text_most) × (r.fields < fields_most)
        × NamesFit (length line.now) p.label p.short }
    ensures rule { (f : Found) (x : Form) (v : LineBytes) → Steady f → Counts f r
        → Slots f r (cell_bytes held.now)
        → NamedWith f x (labels_in (label_bytes held.now)) (names_in (name_bytes held.now))
        → read_form line.now ≡ some x
        → PartsHeld (names_in (name_bytes held.now)) r.fields line.now x v p
        → note_of result ≡ later_note f x }
    ensures place { place_of result ≤ r.lines + 1 }
{
    let n = r.fields;
    let place = r.lines + 1;
    if !shows_cell(r, line, p, &held[0..NAMES_AT]) {
        return Some(Note::Mismatch(place));
    }
    if clashes(&held[LABELS_AT..TABLE_AT], &held[NAMES_AT..LABELS_AT], n) {
        return Some(Note::Repeated(place));
    }
    if !types_kept(p) {
        return Some(Note::BadName(place));
    }
    if misplaced(p, r.rested) {
        return Some(Note::BadRest(place));
    }
    None
}
