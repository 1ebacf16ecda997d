// The references in the records of a table, counted, and the numbers that the records keep of them.
ghost use Rattle.std.specs.Prelude.{◌≡◌, ℕ, ◌+◌, ◌≤◌, ◌<◌, length, get_or};
ghost use Rattle.references.specs.Scans.{references};
ghost use Rattle.references.specs.Tallies.{tallied};
ghost use Rattle.packets.specs.Parts.{table_most, ending};
ghost use Rattle.packets.specs.FieldTest.{bytes_in, Inside};
ghost use Rattle.packets.specs.CountsTest.{record_tallied, kept_from};

use crate::records::{Parts, bytes_of, two_at};
use references::scans::tally;
use writing::spans::Span;

// The references of an expression, none where it is not there.
#[tactic(auto, using(crate::proofs::CountSteps::part_none))]
fn count_part(s: &[u8], p: Span, own: usize, counts: &mut [u16])
    requires { (ending p ≤ length s.now) × (length s.now ≤ table_most) }
    ensures { counts.new
        ≡ tallied own counts.old (references (bytes_in s.now p)) }
{
    if p.len == 0 {
        return;
    }
    tally(bytes_of(s, p), own, counts);
}

// The references of a record's expressions; those to its own field, of index i, are left out.
// Inlined into both sizes of the walk of fields.
#[inline(always)]
#[tactic(auto, unfolding(crate::specs::CountsTest::record_tallied))]
pub(crate) fn count_record(s: &[u8], parts: Parts, i: usize, counts: &mut [u16])
    requires { (length s.now ≤ table_most) × Inside s.now parts }
    ensures { counts.new ≡ record_tallied s.now parts i counts.old }
{
    count_part(s, parts.tree, i, counts);
    count_part(s, parts.constraint, i, counts);
    count_part(s, parts.condition, i, counts);
}

// The n records at the places keep the counts.
pub(crate) fn keeps_numbers(s: &[u8], places: &[usize], counts: &[u16], n: usize) -> bool
    requires { (n ≤ length places.now) × (n ≤ length counts.now)
        × ((i : ℕ) → i < n → get_or places.now i 0 ≤ table_most) }
    ensures { result ≡ kept_from s.now places.now (λ i. get_or counts.now i 0) 0 n }
{
    places[..n]
        .iter()
        .zip(&counts[..n])
        .all(|(&at, &count)| two_at(s, at + 4) == usize::from(count))
}
