// One field of a packet: its condition, width, bits and value, by the parts of its record and the run so far.
ghost use Rattle.std.specs.Prelude.{◌≡◌, ◌+◌, ◌*◌, ◌≤◌, length};
ghost use Rattle.rules.specs.Reading.{bit_total};
ghost use Rattle.rules.specs.Limits.{fields_most, packet_most, fixed_most};
ghost use Rattle.packets.specs.Steps.{
  tree_value,
  holds_at,
  got_of,
  record_at,
  fixed_of,
  unit_of,
  later_bits,
  measured_at,
  rest_at,
  extent_at,
  number_of,
  found_of,
  bounded_at,
  present_at,
  field_step,
};

use crate::bits::bits_at;
use crate::records::{FIXED, MEASURED, Parts, REST, parts_at};
use crate::trees::Cursor;
use rules::{DEPTH_MOST, FIXED_MOST, Fault, TABLE_MOST};
use writing::spans::Span;

// The four numbers of a field. The run's layout is the caller's: four numbers, the first 1 where the field is present.
#[derive(Clone, Copy)]
pub(crate) struct Numbers {
    pub present: u32,
    pub offset: u32,
    pub width: u32,
    pub value: u32,
}

impl Numbers {
    const ABSENT: Numbers = Numbers {
        present: 0,
        offset: 0,
        width: 0,
        value: 0,
    };
}

// The parts of the record at a place; behind the last place of a table, those of the first record.
#[tactic(auto, unfolding(crate::specs::Steps::record_at))]
pub(crate) fn record_at(table: &[u8], at: usize) -> Parts
    ensures { result ≡ record_at table.now at }
{
    if TABLE_MOST < at {
        return parts_at(table, 0);
    }
    parts_at(table, at)
}

#[tactic(auto, unfolding(crate::specs::Steps::tree_value))]
fn tree_value(table: &[u8], run: &[u32], at: usize) -> Result<u64, Fault>
    ensures { result ≡ got_of (tree_value table.now run.now at) }
{
    let tree = Cursor { at };
    let (n, _) = tree.value(table, DEPTH_MOST, run)?;
    Ok(u64::from(n))
}

// A condition or constraint; what is missing is yes. A number and no bool: it is the tree's value.
#[tactic(auto, unfolding(crate::specs::Steps::holds_at))]
pub(crate) fn holds_at(table: &[u8], run: &[u32], tree: Span) -> Result<u64, Fault>
    ensures { result ≡ got_of (holds_at table.now run.now tree) }
{
    if tree.len == 0 {
        return Ok(1);
    }
    tree_value(table, run, tree.at)
}

// The bits of a fixed field, 0 for another. 0 and no None: it is a term of a sum.
#[tactic(auto, unfolding(crate::specs::Steps::fixed_of))]
fn fixed_bits(p: Parts) -> usize
    ensures { (result ≡ fixed_of p) × (result ≤ fixed_most) }
{
    if p.kind == FIXED && p.number <= FIXED_MOST {
        p.number
    } else {
        0
    }
}

// A number of units: 8 bits, or 1; any unit but 8 counts as 1, as in the definition `unit_of`.
#[tactic(auto, unfolding(crate::specs::Steps::unit_of))]
fn scale(unit: usize, n: u32) -> u64
    ensures { result ≡ unit_of unit * n }
{
    let bits = if unit == 8 { 8 } else { 1 };
    bits * u64::from(n)
}

// The sum of the fixed widths of n records from a place on. Not by Records, which end behind the last place of a table
// where `record_at` goes on.
fn later_bits(table: &[u8], start: usize, n: usize) -> usize
    requires { n ≤ fields_most }
    ensures { (result ≡ later_bits n table.now start) × (result ≤ fixed_most * fields_most) }
{
    let mut sum = 0;
    let mut at = start;
    for _ in 0..n {
        let p = record_at(table, at);
        sum += fixed_bits(p);
        at = p.next;
    }
    sum
}

#[tactic(auto, unfolding(crate::specs::Steps::tree_value, crate::specs::Steps::measured_at))]
fn measured_at(table: &[u8], run: &[u32], p: Parts) -> Result<u64, Fault>
    ensures { result ≡ got_of (measured_at table.now run.now p) }
{
    let tree = Cursor { at: p.tree.at };
    let (n, _) = tree.value(table, DEPTH_MOST, run)?;
    Ok(scale(p.number, n))
}

// A field's value, 0 for long fields.
#[tactic(auto, unfolding(crate::specs::Steps::number_of))]
fn number_of(packet: &[u8], kind: usize, place: usize, width: usize) -> u32
    requires { (place + width ≤ bit_total packet.now) × (length packet.now ≤ packet_most) }
    ensures { result ≡ number_of packet.now kind place width }
{
    if kind == FIXED && width <= FIXED_MOST {
        bits_at(packet, place, width)
    } else {
        0
    }
}

// A table, and a packet that is read by it, as far as a field that starts at a bit and has so many behind it.
#[derive(Clone, Copy)]
pub(crate) struct Reader<'a> {
    pub table: &'a [u8],
    pub packet: &'a [u8],
    pub later: usize,
    pub bit: usize,
    ghost short: { (length packet.now ≤ packet_most) × (later ≤ fields_most) × (bit ≤ bit_total packet.now) },
}

impl Reader<'_> {
    #[tactic(auto, unfolding(crate::specs::Steps::rest_at))]
    fn rest_at(self, p: Parts) -> Result<u64, Fault>
        ensures { result
            ≡ got_of (rest_at self.entry.table.now self.entry.packet.now p self.entry.later self.entry.bit) }
    {
        let taken = self.bit + later_bits(self.table, p.next, self.later);
        let total = 8 * self.packet.len();
        if taken <= total {
            return Ok((total - taken) as u64);
        }
        Err(Fault::BitsMissing)
    }

    // A field's width.
    #[tactic(auto, unfolding(crate::specs::Steps::extent_at))]
    fn extent_at(self, run: &[u32], p: Parts) -> Result<u64, Fault>
        ensures { result ≡ got_of (extent_at self.entry.table.now self.entry.packet.now run.now p
            self.entry.later self.entry.bit) }
    {
        match p.kind {
            MEASURED => measured_at(self.table, run, p),
            REST => self.rest_at(p),
            _ => Ok(fixed_bits(p) as u64),
        }
    }

    // A field of a width, if its bits are there.
    #[tactic(auto, unfolding(crate::specs::Steps::bounded_at))]
    fn bounded_at(self, kind: usize, width: u64) -> Result<(Numbers, usize), Fault>
        ensures { result ≡ found_of (bounded_at self.entry.packet.now kind self.entry.bit width) }
    {
        let left = (8 * self.packet.len() - self.bit) as u64;
        if left < width {
            return Err(Fault::BitsMissing);
        }
        let n = width as usize;
        let numbers = Numbers {
            present: 1,
            offset: self.bit as u32,
            width: width as u32,
            value: number_of(self.packet, kind, self.bit, n),
        };
        Ok((numbers, self.bit + n))
    }

    // A field whose condition is yes.
    #[tactic(auto, unfolding(crate::specs::Steps::present_at))]
    fn present_at(self, run: &[u32], p: Parts) -> Result<(Numbers, usize), Fault>
        ensures { result ≡ found_of (present_at self.entry.table.now self.entry.packet.now run.now p
            self.entry.later self.entry.bit) }
    {
        let width = self.extent_at(run, p)?;
        self.bounded_at(p.kind, width)
    }

    // A field up to its constraint.
    #[tactic(auto, unfolding(crate::specs::Steps::field_step))]
    pub(crate) fn field_step(self, run: &[u32], p: Parts) -> Result<(Numbers, usize), Fault>
        ensures { result ≡ found_of (field_step self.entry.table.now self.entry.packet.now run.now p
            self.entry.later self.entry.bit) }
    {
        if holds_at(self.table, run, p.condition)? == 0 {
            return Ok((Numbers::ABSENT, self.bit));
        }
        self.present_at(run, p)
    }
}
