// The lines of a listing, written into a lent buffer.
ghost use Rattle.std.specs.Prelude.{◌++◌, ◌+◌, ◌*◌, ◌≤◌, ◌<◌, length};
ghost use Rattle.base.specs.Bytes.{bytes, decimal};
ghost use Rattle.rules.specs.Listing.{entry_text};
ghost use Rattle.writing.specs.Puts.{nowhere};
ghost use Rattle.writing.specs.Fits.{Fits};
ghost use Rattle.packets.specs.LineTexts.{entry_in, state_text, line_text};

use crate::records::{FIXED, Parts};
use rules::LABEL_MOST;
use writing::decimals::put_decimal;
use writing::puts::put;

// A space and a number in decimal.
fn put_number(out: &mut [u8], at: usize, number: u32) -> usize
    requires { length out.old < nowhere }
    ensures { Fits out.old at (bytes " " ++ decimal number) out.new result }
{
    let next = put(out, at, b" ");
    put_decimal(out, next, number as usize)
}

// Offset, width and, for a fixed field, value.
fn put_entry(out: &mut [u8], at: usize, run: &[u32], i: usize, fixed: bool) -> usize
    requires { (length out.old < nowhere) × (4 * i + 4 ≤ length run.now) }
    ensures { Fits out.old at (entry_text fixed (entry_in run.now i))
        out.new result }
{
    let offset = put_number(out, at, run[4 * i + 1]);
    let width = put_number(out, offset, run[4 * i + 2]);
    if fixed {
        return put_number(out, width, run[4 * i + 3]);
    }
    width
}

// The entry, or that the field is absent.
fn put_state(out: &mut [u8], at: usize, run: &[u32], i: usize, fixed: bool) -> usize
    requires { (length out.old < nowhere) × (4 * i + 4 ≤ length run.now) }
    ensures { Fits out.old at (state_text fixed (entry_in run.now i))
        out.new result }
{
    if run[4 * i] == 1 {
        return put_entry(out, at, run, i, fixed);
    }
    put(out, at, b" absent")
}

// A field's line; nothing where its label is too long or not inside the table.
pub(crate) fn put_line(
    out: &mut [u8],
    at: usize,
    table: &[u8],
    parts: Parts,
    run: &[u32],
    i: usize,
) -> usize
    requires { (length out.old < nowhere) × (4 * i + 4 ≤ length run.now) }
    ensures { Fits out.old at (line_text table.now parts run.now i)
        out.new result }
{
    if LABEL_MOST < parts.label.len {
        return at;
    }
    let Some(label) = parts.label.of(table) else {
        return at;
    };
    let named = put(out, at, label);
    let colon = put(out, named, b":");
    let state = put_state(out, colon, run, i, parts.kind == FIXED);
    put(out, state, b"\n")
}
