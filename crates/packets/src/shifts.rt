// Other indexes put into the expressions of records.
ghost use Rattle.std.specs.Prelude.{◌≡◌};
ghost use Rattle.references.specs.Renumbered.{new_index};
ghost use Rattle.packets.specs.Shifts.{part_shifted, record_shifted, shifted_from};

use crate::records::{Parts, parts_at};
use references::renumbering::{Shift, renumber};
use rules::TABLE_MOST;
use writing::spans::Span;

// Into an expression, if that is there.
#[tactic(auto, using(crate::proofs::ShiftSteps::shift_past, crate::proofs::ShiftSteps::shift_there))]
fn renumber_part(table: &mut [u8], p: Span, shift: Shift)
    ensures { table.new ≡ part_shifted (new_index shift) p table.old }
{
    if p.of(table).is_some() {
        renumber(&mut table[p.at..p.at + p.len], shift);
    }
}

// Into all three of a record.
fn renumber_record(table: &mut [u8], parts: Parts, shift: Shift)
    ensures { table.new ≡ record_shifted (new_index shift) parts table.old }
{
    renumber_part(table, parts.tree, shift);
    renumber_part(table, parts.constraint, shift);
    renumber_part(table, parts.condition, shift);
}

// Into those of the n records from a place on. Not by Records, which would lend the table that is written here.
#[tactic(auto, using(crate::proofs::ShiftSteps::shifts_rules))]
pub(crate) fn renumber_from(table: &mut [u8], place: usize, n: usize, shift: Shift)
    ensures { table.new ≡ shifted_from (new_index shift) n place table.old }
{
    let mut at = place;
    for _ in 0..n {
        if TABLE_MOST < at {
            return;
        }
        let parts = parts_at(table, at);
        renumber_record(table, parts, shift);
        at = parts.next;
    }
}
