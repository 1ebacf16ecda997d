// The parts of a field line, and its expressions in their stored form.
ghost use Rattle.std.specs.Prelude.{◌≡◌, ◌+◌, ◌≤◌, ◌<◌, length};
ghost use Rattle.rules.specs.Limits.{text_most, fields_most};
ghost use Rattle.text_laws.specs.LineReader.{read_form};
ghost use Rattle.texts.specs.HeldNames.{names_in, names_room, Kept};
ghost use Rattle.texts.specs.PartPlaces.{NamesFit};
ghost use Rattle.texts.specs.HeldParts.{whole_parts, PartsFor, BehindFor};

use crate::clause_trees::{Ends, ends_at};
use crate::held_names::hold_own;
use crate::kinds::Width;
use crate::labels::{label_at, short_at};
use crate::phrases::starts_at;
use crate::stored_trees::StoredTree;
use crate::width_trees::{Measure, width_at};
use names::classes::Classes;
use rules::STORED_MOST;
use writing::spans::Span;

// The length of the label, the short name in the line, the width, and what is known of the other expressions.
// The short name has the length 0 and is no None where there is none: the record stores it so.
#[derive(Clone, Copy)]
pub(crate) struct Parts {
    pub label: usize,
    pub short: Span,
    pub width: Width,
    pub constraint: Option<StoredTree>,
    pub condition: Option<StoredTree>,
}

// The bytes of its expressions in their stored form.
#[derive(Drop)]
pub(crate) struct Trees {
    pub width: [u8; STORED_MOST],
    pub constraint: [u8; STORED_MOST],
    pub condition: [u8; STORED_MOST],
}

// Those of a line whose parts all are right.
fn whole_parts(label: usize, short: Span, w: Measure, e: Ends) -> Parts
    ensures { result ≡ whole_parts label short w e }
{
    Parts {
        label,
        short,
        width: w.width,
        constraint: e.constraint,
        condition: e.condition,
    }
}

// Behind a label and a short name.
fn behind_names(
    classes: &Classes,
    s: &[u8],
    label: usize,
    short: Span,
    at: usize,
    names: &mut [u8],
    n: usize,
    trees: &mut Trees,
) -> Option<Parts>
    requires { (at ≤ length s.now) × (length s.now ≤ text_most) × (n < fields_most)
        × NamesFit (length s.now) label short × (names_room ≤ length names.old) }
    ensures kept { Kept (names_in names.old)
        n (names_in names.new) }
    ensures same { BehindFor (names_in names.new)
        n s.now label short at
        trees.new result }
{
    let w = width_at(classes, s, at, names, n, &mut trees.width)?;
    hold_own(classes, s, label, short, w.width.is_fixed(), n, names);
    let e = ends_at(
        classes,
        s,
        w.next,
        names,
        n,
        &mut trees.constraint,
        &mut trees.condition,
    )?;
    Some(whole_parts(label, short, w, e))
}

// The parts of a line. The names in it are those of the first n fields, in its constraint also its own, which are put
// behind them. The stored forms of its expressions are put into `trees`.
pub(crate) fn parts_of(
    classes: &Classes,
    s: &[u8],
    names: &mut [u8],
    n: usize,
    trees: &mut Trees,
) -> Option<Parts>
    requires { (length s.now ≤ text_most) × (n < fields_most)
        × (names_room ≤ length names.old) }
    ensures kept { Kept (names_in names.old)
        n (names_in names.new) }
    ensures same { PartsFor (names_in names.new)
        n s.now (read_form s.now)
        trees.new result }
{
    let label = label_at(classes, s, 0)?;
    let (short, next) = short_at(classes, s, label)?;
    if starts_at(s, next, b": ") {
        return behind_names(classes, s, label, short, next + 2, names, n, trees);
    }
    None
}
