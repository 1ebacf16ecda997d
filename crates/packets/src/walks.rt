// The fields of a packet in order: each one's numbers are put into the run, and then its constraint is tested.
ghost use Rattle.std.specs.Prelude.{◌≡◌, ◌+◌, ◌*◌, ◌≤◌, ◌<◌, length};
ghost use Rattle.rules.specs.Reading.{bit_total};
ghost use Rattle.rules.specs.Limits.{fields_most, packet_most};
ghost use Rattle.laws.specs.Places.{two_at};
ghost use Rattle.packets.specs.Steps.{entry_in, found_of};
ghost use Rattle.packets.specs.Walks.{put_at, kept_at, refused_of, Steps, Walks};

use crate::records::{Parts, two_at};
use crate::steps::{Numbers, Reader, holds_at, record_at};
use rules::{Fault, PacketAnswer, PacketRefusal};
use writing::spans::Span;

#[tactic(auto, unfolding(crate::specs::Walks::put_at))]
fn put(run: &mut [u32], i: usize, e: Numbers)
    requires { (i < fields_most) × (4 * i + 4 ≤ length run.old) }
    ensures { run.new ≡ put_at run.old i e }
{
    run[4 * i..4 * i + 4].copy_from_slice(&[e.present, e.offset, e.width, e.value]);
}

// A present field's constraint.
#[tactic(auto, unfolding(crate::specs::Walks::kept_at))]
fn kept_at(
    table: &[u8],
    run: &[u32],
    tree: Span,
    e: Numbers,
    next: usize,
) -> Result<(Numbers, usize), Fault>
    ensures { result ≡ found_of (kept_at table.now run.now tree (entry_in e) next) }
{
    if holds_at(table, run, tree)? == 0 {
        return Err(Fault::ConstraintFalse);
    }
    Ok((e, next))
}

// Field i by its record.
#[tactic(auto, unfolding(crate::specs::Walks::step_after))]
fn one_field(
    reader: Reader<'_>,
    run: &mut [u32],
    i: usize,
    p: Parts,
) -> Result<(Numbers, usize), Fault>
    requires { (i < fields_most) × (4 * i + 4 ≤ length run.old) }
    ensures { Steps reader.entry.table.now reader.entry.packet.now run.old i reader.entry.later reader.entry.bit p
        result run.new }
{
    let (e, next) = reader.field_step(run, p)?;
    put(run, i, e);
    if e.present == 0 {
        return Ok((e, next));
    }
    kept_at(reader.table, run, p.constraint, e, next)
}

// The refusal that a fault is, at field k from 1.
fn refused(found: Result<(Numbers, usize), Fault>, k: usize) -> PacketAnswer
    ensures { result ≡ refused_of found k }
{
    match found {
        Err(fault) => Err(PacketRefusal::Field(fault, k)),
        Ok(_) => Err(PacketRefusal::LeftOver),
    }
}

// All fields of a table, into the front of the run.
pub(crate) fn walk_fields(table: &[u8], packet: &[u8], run: &mut [u32]) -> PacketAnswer
    requires { (4 * two_at table.now 6 ≤ length run.old) × (length packet.now ≤ packet_most)
        × (two_at table.now 6 ≤ fields_most) }
    ensures { Walks table.now packet.now run.old result run.new }
{
    let n = two_at(table, 6);
    let total = 8 * packet.len();
    let mut at = two_at(table, 0);
    let mut place = 0;
    // Not by Records, which end behind the last place of a table where record_at goes on.
    for i in 0..n {
        let p = record_at(table, at);
        let reader = Reader {
            table,
            packet,
            later: n - i - 1,
            bit: place,
        };
        // Let-else on each step's answer, as document 01 names it.
        let found = one_field(reader, run, i, p);
        let Ok((_, next)) = found else {
            return refused(found, i + 1);
        };
        place = next;
        at = p.next;
    }
    if place == total {
        return Ok(place);
    }
    Err(PacketRefusal::LeftOver)
}
