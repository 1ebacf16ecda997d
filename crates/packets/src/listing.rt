// A packet's listing, written into a lent buffer.
ghost use Rattle.std.specs.Prelude.{◌≡◌, ◌+◌, ◌*◌, ◌≤◌, ◌<◌, ◌++◌, length, take};
ghost use Rattle.base.specs.Bytes.{bytes};
ghost use Rattle.rules.specs.Listing.{refused_line, bits_line};
ghost use Rattle.writing.specs.Puts.{nowhere};
ghost use Rattle.writing.specs.Fits.{Fits};
ghost use Rattle.laws.specs.Places.{two_at};
ghost use Rattle.rules.specs.Limits.{fields_most};
ghost use Rattle.rules.specs.Answers.{of_listing};
ghost use Rattle.rules.specs.Promises.{leaves, delivered, ListsPacket};
ghost use Rattle.packets.specs.LineTexts.{listing_most, lines_from};
ghost use Rattle.packets.specs.Listings.{ListsStored, ListsInto};

use crate::lines::put_line;
use crate::readings::read_run;
use crate::records::{Records, two_at};
use crate::tables::check_table;
use rules::refusals::Refusal;
use rules::{LISTING_MOST, ListingAnswer, ListingRefusal, RUN_MOST};
use writing::decimals::put_decimal;
use writing::delivery::deliver;
use writing::puts::put;

// The lines of the fields of a table.
fn put_lines(out: &mut [u8], table: &[u8], run: &[u32]) -> usize
    requires { (length out.old < nowhere) × (4 * two_at table.now 6 ≤ length run.now) }
    ensures { Fits out.old 0 (lines_from table.now run.now 0 (two_at table.now 6) (two_at table.now 0)) out.new result }
{
    let mut next = 0;
    for (i, parts) in Records::of(table, two_at(table, 6)).enumerate() {
        next = put_line(out, next, table, parts, run, i);
    }
    next
}

// `refused`, a number, `at` and a place.
fn put_refusal(out: &mut [u8], refusal: Refusal) -> usize
    requires { length out.old < nowhere }
    ensures { Fits out.old 0 (refused_line refusal.number refusal.place ++ bytes "\n") out.new result }
{
    let word = put(out, 0, b"refused ");
    let first = put_decimal(out, word, usize::from(refusal.number));
    let between = put(out, first, b" at ");
    let second = put_decimal(out, between, refusal.place);
    put(out, second, b"\n")
}

// The bit total.
fn put_bits(out: &mut [u8], at: usize, total: usize) -> usize
    requires { length out.old < nowhere }
    ensures { Fits out.old at (bits_line total ++ bytes "\n") out.new result }
{
    let word = put(out, at, b"bits ");
    let number = put_decimal(out, word, total);
    put(out, number, b"\n")
}

// A packet's listing by a table that was checked before.
fn put_listing(out: &mut [u8], table: &[u8], packet: &[u8]) -> usize
    requires { (listing_most ≤ length out.old) × (length out.old < nowhere)
        × (two_at table.now 6 ≤ fields_most) }
    ensures { ListsStored table.now packet.now out.old out.new result }
{
    let mut run = [0u32; RUN_MOST];
    match read_run(table, packet, &mut run) {
        Ok(total) => {
            let lines = put_lines(out, table, &run);
            put_bits(out, lines, total)
        }
        Err(refusal) => put_refusal(out, Refusal::from(refusal)),
    }
}

// A packet's listing by any table.
fn list_into(out: &mut [u8], table: &[u8], packet: &[u8]) -> usize
    requires { (listing_most ≤ length out.old) × (length out.old < nowhere) }
    ensures { ListsInto table.now packet.now out.old out.new result }
{
    match check_table(table) {
        Ok(_) => put_listing(out, table, packet),
        Err(refusal) => put_refusal(out, Refusal::from(refusal)),
    }
}

// The first n bytes of a buffer into the output, where there is room.
fn deliver_first(out: &mut [u8], from: &[u8], n: usize) -> ListingAnswer
    requires { n ≤ length from.now }
    ensures { leaves (of_listing result) out.new ≡ delivered (take n from.now)
        out.old }
{
    if deliver(out, &from[..n]) {
        return Ok(n);
    }
    Err(ListingRefusal::NoRoom)
}

// The listing of a packet by a table, into an output.
pub fn list_packet(table: &[u8], packet: &[u8], out: &mut [u8]) -> ListingAnswer
    ensures { ListsPacket table.now packet.now out.old (leaves (of_listing result)
        out.new) }
{
    let mut buffer = [0u8; LISTING_MOST];
    let n = list_into(&mut buffer, table, packet);
    deliver_first(out, &buffer, n)
}
