// The width of a field line, its expression in its stored form.
ghost use Rattle.std.specs.Prelude.{true, ◌≡◌, ◌+◌, ◌≤◌, length, drop};
ghost use Rattle.rules.specs.Limits.{text_most, fields_most};
ghost use Rattle.text_laws.specs.LineReader.{read_measure, read_width};
ghost use Rattle.texts.specs.HeldNames.{names_in, names_room};
ghost use Rattle.texts.specs.PartPlaces.{is_unit};
ghost use Rattle.texts.specs.HeldParts.{FixedFor, MeasureWithin, MeasureFor, SizedFor};

use crate::kinds::Width;
use crate::phrases::starts_at;
use crate::stored_trees::{StoredTree, stored_tree};
use crate::widths::{is_single, number_in, times, unit_behind};
use names::classes::Classes;
use rules::FIXED_MOST;

// A width and the place behind it.
#[derive(Clone, Copy)]
pub(crate) struct Measure {
    pub width: Width,
    pub next: usize,
}

// A fixed width, if it has so many bits.
fn fixed_width(bits: usize, next: usize) -> Option<Measure>
    ensures { FixedFor bits next result }
{
    if bits == 0 || bits > FIXED_MOST {
        return None;
    }
    Some(Measure {
        width: Width::Fixed(bits),
        next,
    })
}

// The width of the expression at `at` with its unit, before the place `next`.
fn sized(
    classes: &Classes,
    s: &[u8],
    at: usize,
    t: StoredTree,
    u: u8,
    next: usize,
) -> Option<Measure>
    requires { (at ≤ next) × (next ≤ length s.now) × (is_unit u ≡ true) }
    ensures place { MeasureWithin s.now at result }
    ensures same { SizedFor s.now at t u next result }
{
    if is_single(t.depth, t.len) {
        let m = number_in(classes, s, at);
        return fixed_width(times(u, m), next);
    }
    Some(Measure {
        width: Width::Measured(usize::from(u), t),
        next,
    })
}

fn measure_at(
    classes: &Classes,
    s: &[u8],
    at: usize,
    names: &[u8],
    n: usize,
    out: &mut [u8],
) -> Option<Measure>
    requires { (at ≤ length s.now) × (length s.now ≤ text_most) × (n ≤ fields_most)
        × (names_room ≤ length names.now) }
    ensures place { MeasureWithin s.now at result }
    ensures same { MeasureFor (names_in names.now)
        n s.now (read_measure (drop at s.now)) out.new result }
{
    let t = stored_tree(classes, s, at, names, n, out)?;
    let (u, next) = unit_behind(classes, s, t.next)?;
    sized(classes, s, at, t, u, next)
}

pub(crate) fn width_at(
    classes: &Classes,
    s: &[u8],
    at: usize,
    names: &[u8],
    n: usize,
    out: &mut [u8],
) -> Option<Measure>
    requires { (at ≤ length s.now) × (length s.now ≤ text_most) × (n ≤ fields_most)
        × (names_room ≤ length names.now) }
    ensures place { MeasureWithin s.now at result }
    ensures same { MeasureFor (names_in names.now)
        n s.now (read_width (drop at s.now)) out.new result }
{
    if starts_at(s, at, b"variable") {
        return Some(Measure {
            width: Width::Rest,
            next: at + 8,
        });
    }
    measure_at(classes, s, at, names, n, out)
}
