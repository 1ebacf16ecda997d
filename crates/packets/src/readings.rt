// Packets are read by a table: into a run of four numbers a field, whole or as far as it goes, and a field's bytes as a
// part of the packet.
ghost use Rattle.std.specs.Prelude.{◌≡◌, ◌++◌, ◌*◌, ◌-◌, ◌≤◌, ◌<◌, length, take, drop};
ghost use Rattle.rules.specs.Reading.{part_from};
ghost use Rattle.rules.specs.Promises.{ReadsPacket, ReadsPartly, PlacesPart, LendsPart, leaves, leaves_partly};
ghost use Rattle.laws.specs.Places.{two_at};
ghost use Rattle.rules.specs.Limits.{fields_most, packet_most};
ghost use Rattle.rules.specs.Stored.{Good};
ghost use Rattle.packets.specs.Parts.{run_most};
ghost use Rattle.packets.specs.RunRead.{ReadsRun, count_in};
ghost use Rattle.packets.specs.FieldParts.{part_at, OnPacket};
ghost use Rattle.rules.specs.Answers.{of_packet};

use crate::records::{FEW_FIELDS, bytes_of, two_at};
use crate::tables::check_table;
use crate::walks::walk_fields;
use rules::{PACKET_MOST, PacketAnswer, PacketRefusal, RUN_MOST};
use writing::spans::Span;

// Where a part lies: its start, and its size. A Span by the names that callers read.
#[derive(Clone, Copy)]
pub struct Bytes {
    pub start: usize,
    pub size: usize,
}

impl From<Span> for Bytes {
    ghost from_gives = { λ p r. (r.start ≡ p.at) × (r.size ≡ p.len) };

    fn from(p: Span) -> Bytes {
        Bytes {
            start: p.at,
            size: p.len,
        }
    }
}

// A packet read into a run by a table that was checked before.
pub(crate) fn read_run(table: &[u8], packet: &[u8], run: &mut [u32]) -> PacketAnswer
    requires { (run_most ≤ length run.old) × (two_at table.now 6 ≤ fields_most) }
    ensures { ReadsRun table.now packet.now result run.new }
{
    if PACKET_MOST < packet.len() {
        return Err(PacketRefusal::TooLong);
    }
    walk_fields(table, packet, run)
}

// The first n numbers of src into dst. A function: its clause says what stays of the run.
fn copy_numbers(dst: &mut [u32], src: &[u32], n: usize)
    requires { (n ≤ length dst.old) × (n ≤ length src.now) }
    ensures { dst.new ≡ take n src.now ++ drop n dst.old }
{
    dst[..n].copy_from_slice(&src[..n]);
}

// Four numbers a field.
const FEW_NUMBERS: usize = 4 * FEW_FIELDS;

// A packet read by a table that was checked before: into numbers of our own, and from there into the run.
fn read_by(table: &[u8], packet: &[u8], run: &mut [u32], numbers: &mut [u32]) -> PacketAnswer
    requires { (4 * two_at table.now 6 ≤ length run.old) × (4 * two_at table.now 6 ≤ length numbers.old)
        × (length packet.now ≤ packet_most) × (two_at table.now 6 ≤ fields_most) }
    ensures { Good table.now → ReadsPacket table.now packet.now
        run.old (leaves (of_packet result) run.new) }
{
    let total = walk_fields(table, packet, numbers)?;
    copy_numbers(run, numbers, 4 * two_at(table, 6));
    Ok(total)
}

// A packet read by a table: four numbers a field into the run.
pub fn read_packet(table: &[u8], packet: &[u8], run: &mut [u32]) -> PacketAnswer
    ensures { ReadsPacket table.now packet.now run.old (leaves (of_packet result)
        run.new) }
{
    check_table(table)?;
    if PACKET_MOST < packet.len() {
        return Err(PacketRefusal::TooLong);
    }
    let n = 4 * two_at(table, 6);
    if run.len() < n {
        return Err(PacketRefusal::ShortRun);
    }
    if n <= FEW_NUMBERS {
        let mut few = [0u32; FEW_NUMBERS];
        return read_by(table, packet, run, &mut few);
    }
    let mut numbers = [0u32; RUN_MOST];
    read_by(table, packet, run, &mut numbers)
}

// What was read of a packet: the answer, and the number of fields whose numbers the run has.
#[derive(Clone, Copy)]
pub struct Partial {
    pub answer: PacketAnswer,
    pub count: usize,
}

// The number of fields before the first refused one, of n.
#[tactic(auto, unfolding(crate::specs::RunRead::count_in))]
fn count_of(answer: PacketAnswer, n: usize) -> usize
    ensures { result ≡ count_in answer n }
{
    match answer {
        Ok(_) | Err(PacketRefusal::LeftOver) => n,
        Err(PacketRefusal::Field(_, k)) => k.saturating_sub(1),
        Err(PacketRefusal::NotGood | PacketRefusal::TooLong | PacketRefusal::ShortRun) => 0,
    }
}

// A packet read by a table as far as it goes: four numbers into the run for each field before the first refused one.
pub fn read_partly(table: &[u8], packet: &[u8], run: &mut [u32]) -> Partial
    ensures { ReadsPartly table.now packet.now run.old
        (leaves_partly (of_packet result.answer) run.new result.count) }
{
    if let Err(refusal) = check_table(table) {
        return Partial {
            answer: Err(refusal.into()),
            count: 0,
        };
    }
    if PACKET_MOST < packet.len() {
        return Partial {
            answer: Err(PacketRefusal::TooLong),
            count: 0,
        };
    }
    let n = two_at(table, 6);
    if run.len() < 4 * n {
        return Partial {
            answer: Err(PacketRefusal::ShortRun),
            count: 0,
        };
    }
    let mut numbers = [0u32; RUN_MOST];
    let answer = walk_fields(table, packet, &mut numbers);
    let count = count_of(answer, n);
    copy_numbers(run, &numbers, 4 * count);
    Partial { answer, count }
}

// The part of the field of an index by its numbers: whole bytes that start on a byte, else the empty part at 0.
#[tactic(auto, unfolding(crate::specs::FieldParts::part_at))]
fn part_at(run: &[u32], index: usize) -> Span
    requires { (index < fields_most) × (run_most ≤ length run.now) }
    ensures { result ≡ part_at run.now index }
{
    let at = 4 * index;
    let offset = run[at + 1] as usize;
    let width = run[at + 2] as usize;
    if run[at] == 1 && offset % 8 == 0 && width % 8 == 0 {
        return Span {
            at: offset / 8,
            len: width / 8,
        };
    }
    Span::EMPTY
}

// The part of a packet that is the field of an index. The empty part and no None: what callers are promised has it
// for none.
fn find_part(table: &[u8], packet: &[u8], index: usize) -> Span
    ensures { OnPacket table.now packet.now index result }
{
    if check_table(table).is_err() || two_at(table, 6) <= index {
        return Span::EMPTY;
    }
    let mut numbers = [0u32; RUN_MOST];
    if read_run(table, packet, &mut numbers).is_ok() {
        return part_at(&numbers, index);
    }
    Span::EMPTY
}

// Where the bytes of the field of an index lie in the packet.
pub fn field_place(table: &[u8], packet: &[u8], index: usize) -> Bytes
    ensures { PlacesPart table.now packet.now index (part_from result.start result.size) }
{
    find_part(table, packet, index).into()
}

// The bytes of the field of an index, as that part of the packet.
pub fn field_bytes<'a>(table: &[u8], packet: &'a [u8], index: usize) -> &'a [u8]
    ensures { LendsPart table.now packet.now index
        packet.entry.ref_ptr result.now result.ref_ptr }
{
    bytes_of(packet, find_part(table, packet, index))
}
