// A kept cell held against the parts of a field line.
ghost use Rattle.std.specs.Prelude.{◌≡◌, ◌+◌, ◌≤◌, length};
ghost use Rattle.texts.specs.PartPlaces.{NamesFit};
ghost use Rattle.texts.specs.HeldRecords.{is_named_by, is_placed_by, PartShows};

use crate::kinds::Width;
use crate::line_parts::Parts;
use crate::shown_slots::slot_end;
use names::words::same_words;

// The name is the label or the short name of a line.
fn is_name_in(name: &[u8], line: &[u8], p: Parts) -> bool
    requires { NamesFit (length line.now) p.label p.short }
    ensures { result ≡ is_named_by name.now line.now p }
{
    let at = p.short.at;
    let end = at + p.short.len;
    same_words(name, &line[0..p.label]) || same_words(name, &line[at..end])
}

// A fixed field has a bit cell of its width, any other a long row.
fn is_place_in(long: bool, bits: usize, w: Width) -> bool
    ensures { result ≡ is_placed_by long bits w }
{
    match w {
        Width::Fixed(m) => !long && bits == m,
        _ => long,
    }
}

// The cell that is kept at a place is one for the field of a line.
pub(crate) fn part_shows(cells: &[u8], at: usize, line: &[u8], p: Parts) -> bool
    requires { (at + 3 ≤ length cells.now) × NamesFit (length line.now) p.label p.short }
    ensures { PartShows cells.now at line.now p result }
{
    let end = slot_end(cells, at);
    is_name_in(&cells[at + 3..end], line, p)
        && is_place_in(cells[at] == 1, usize::from(cells[at + 1]), p.width)
}
