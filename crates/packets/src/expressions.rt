// What stands in the expressions of a record, and the first record of a table that has it.
ghost use Rattle.std.specs.Prelude.{◌≡◌};
ghost use Rattle.packets.specs.Expressions.{part_has, record_has, is_passed, has_it, FirstHaving};

use crate::records::{Parts, Records, two_at};
use references::scans::{Wanted, has_code};
use writing::spans::Span;

// What is looked for stands in an expression, if that is there.
#[tactic(auto, using(crate::proofs::HavingLaws::has_past, crate::proofs::HavingLaws::has_there))]
fn part_has(table: &[u8], p: Span, wanted: Wanted) -> bool
    ensures { result ≡ part_has wanted table.now p }
{
    p.of(table).is_some_and(|part| has_code(part, wanted))
}

// It stands in one of the three.
fn record_has(table: &[u8], parts: Parts, wanted: Wanted) -> bool
    ensures { result ≡ record_has wanted table.now parts }
{
    part_has(table, parts.tree, wanted)
        || part_has(table, parts.constraint, wanted)
        || part_has(table, parts.condition, wanted)
}

// A record of the run that is looked for is passed over.
fn is_passed(wanted: Wanted, k: usize) -> bool
    ensures { result ≡ is_passed wanted k }
{
    match wanted {
        Wanted::Added => false,
        Wanted::Run(first, last) => first <= k && k <= last,
    }
}

// The record of the index k has it.
#[tactic(auto, unfolding(crate::specs::Expressions::has_it))]
fn has_it(table: &[u8], parts: Parts, wanted: Wanted, k: usize) -> bool
    ensures { result ≡ has_it wanted table.now parts k }
{
    !is_passed(wanted, k) && record_has(table, parts, wanted)
}

// The index of the first record that has it.
pub(crate) fn first_having(table: &[u8], wanted: Wanted) -> Option<usize>
    ensures { FirstHaving wanted table.now result }
{
    let n = two_at(table, 6);
    Records::of(table, n)
        .enumerate()
        .position(|(k, parts)| has_it(table, parts, wanted, k))
}
