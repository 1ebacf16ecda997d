// The library's entries for programs in C and other languages.
#![tactic(auto)]

mod replies;

ghost use Rattle.rules.specs.Promises.{
  leaves,
  ChecksTable,
  ReadsPacket,
  PlacesPart,
  FindsField,
  PlacesLabel,
  ListsPacket,
  ReadsText,
  leaves_partly,
  ReadsPartly,
  PlacesShort,
  CountsFields,
  TellsKind,
  CountsReaders,
  ConvertsTable,
  CutsFields,
  PutsFields,
};
ghost use Rattle.rules.specs.Pieces.{StartsText, TakesPiece, EndsText};
ghost use Rattle.texts.specs.PieceStates.{fresh_state, Left};
ghost use Rattle.umarekoza.specs.Exports.{reply_answer, span_part, partial_answer};

use crate::replies::reply;
use packets::answers::{amount_of, number_of, place_of};
use packets::conversions::convert_table;
use packets::edits::{cut_fields, put_fields};
use packets::listing::list_packet;
use packets::lookups::{
    count_fields, count_readers, field_index, field_kind, label_place, short_place,
};
use packets::readings::{field_place, read_packet, read_partly};
use packets::tables::check_table;
use texts::pieces::{text_end, text_piece, text_start};
use texts::reading::read_text;

// Number 0 is acceptance, with place 0 and the length that is answered; else the number and place of the refusal, with
// length 0. They are document 01's; 29, for a zero divisor, 30, for a name, index or run that no field has or records
// of no bytes, 31, for a field that is still read, and 34, for fields that do not go together, are 02's.
// The layout is C's: a number stands for what a Result tells.
#[repr(C)]
#[derive(Clone, Copy)]
pub struct Reply {
    pub number: u32,
    pub place: u32,
    pub length: u64,
}

// A reply, and the number of fields that were read before a refusal. The layout is C's: no part is a Reply.
#[repr(C)]
#[derive(Clone, Copy)]
pub struct Partial {
    pub number: u32,
    pub place: u32,
    pub length: u64,
    pub count: u64,
}

// Where a part of a lent buffer lies. The layout is C's: an empty part stands for none.
#[repr(C)]
#[derive(Clone, Copy)]
pub struct Span {
    pub offset: u64,
    pub length: u64,
}

// A text is read, and its table written into an output: the length is the table's.
#[unsafe(no_mangle)]
pub extern "C" fn umarekoza_write_table(text: &[u8], out: &mut [u8]) -> Reply
    ensures { ReadsText text.now out.old (leaves (reply_answer result) out.new) }
{
    reply(read_text(text, out))
}

// A text in pieces begins: a state that is long enough is that of the empty text, whatever it held.
#[unsafe(no_mangle)]
pub extern "C" fn umarekoza_text_start(state: &mut [u8])
    ensures { StartsText Left fresh_state state.old state.new }
{
    text_start(state);
}

// The next piece of a text, into its state.
#[unsafe(no_mangle)]
pub extern "C" fn umarekoza_text_piece(state: &mut [u8], piece: &[u8])
    ensures { TakesPiece Left state.old piece.now state.new }
{
    text_piece(state, piece);
}

// A text in pieces ends, and its table is written into an output: the length is the table's.
#[unsafe(no_mangle)]
pub extern "C" fn umarekoza_text_end(state: &[u8], out: &mut [u8]) -> Reply
    ensures { EndsText Left state.now out.old
        (leaves (reply_answer result) out.new) }
{
    reply(text_end(state, out))
}

// A table is checked: the length is the table's.
#[unsafe(no_mangle)]
pub extern "C" fn umarekoza_check_table(table: &[u8]) -> Reply
    ensures { ChecksTable table.now (reply_answer result) }
{
    reply(check_table(table))
}

// A packet is read by a table, into a run of four numbers a field: the length is the bit total.
#[unsafe(no_mangle)]
pub extern "C" fn umarekoza_read_packet(table: &[u8], packet: &[u8], run: &mut [u32]) -> Reply
    ensures { ReadsPacket table.now packet.now run.old
        (leaves (reply_answer result) run.new) }
{
    reply(read_packet(table, packet, run))
}

// Where the bytes of the field of an index lie in the packet.
#[unsafe(no_mangle)]
pub extern "C" fn umarekoza_field_bytes(table: &[u8], packet: &[u8], index: usize) -> Span
    ensures { PlacesPart table.now packet.now index (span_part result) }
{
    Span::from(field_place(table, packet, index))
}

// A packet's listing by a table, into an output: the length is the listing's.
#[unsafe(no_mangle)]
pub extern "C" fn umarekoza_list_packet(table: &[u8], packet: &[u8], out: &mut [u8]) -> Reply
    ensures { ListsPacket table.now packet.now out.old
        (leaves (reply_answer result) out.new) }
{
    reply(list_packet(table, packet, out))
}

// The field that has the name as its label or short name: the length is its index.
#[unsafe(no_mangle)]
pub extern "C" fn umarekoza_find_field(table: &[u8], name: &[u8]) -> Reply
    ensures { FindsField table.now name.now (reply_answer result) }
{
    reply(field_index(table, name))
}

// Where the label of the field of an index lies in the table.
#[unsafe(no_mangle)]
pub extern "C" fn umarekoza_field_label(table: &[u8], index: usize) -> Span
    ensures { PlacesLabel table.now index (span_part result) }
{
    Span::from(label_place(table, index))
}

// Where the short name of the field of an index lies in the table.
#[unsafe(no_mangle)]
pub extern "C" fn umarekoza_field_short(table: &[u8], index: usize) -> Span
    ensures { PlacesShort table.now index (span_part result) }
{
    Span::from(short_place(table, index))
}

// The fields of a table: the length is their number.
#[unsafe(no_mangle)]
pub extern "C" fn umarekoza_count_fields(table: &[u8]) -> Reply
    ensures { CountsFields table.now (reply_answer result) }
{
    reply(count_fields(table))
}

// The field of an index: the length is its record's kind.
#[unsafe(no_mangle)]
pub extern "C" fn umarekoza_field_kind(table: &[u8], index: usize) -> Reply
    ensures { TellsKind table.now index (reply_answer result) }
{
    reply(field_kind(table, index))
}

// The field of an index: the length is the number of references to it in other fields' expressions.
#[unsafe(no_mangle)]
pub extern "C" fn umarekoza_count_readers(table: &[u8], index: usize) -> Reply
    ensures { CountsReaders table.now index (reply_answer result) }
{
    reply(count_readers(table, index))
}

// An old table, whose records keep no number, becomes the table of the same description at the output's start: the
// length is the new table's.
#[unsafe(no_mangle)]
pub extern "C" fn umarekoza_convert_table(table: &[u8], out: &mut [u8]) -> Reply
    ensures { ConvertsTable table.now out.old (leaves (reply_answer result)
        out.new) }
{
    reply(convert_table(table, out))
}

// A run of a table's fields is cut out, by the indexes of its first and its last field: the table without it at the
// output's start, and the length is its.
#[unsafe(no_mangle)]
pub extern "C" fn umarekoza_cut_fields(
    table: &[u8],
    first: usize,
    last: usize,
    out: &mut [u8],
) -> Reply
    ensures { CutsFields table.now first last out.old (leaves (reply_answer result)
        out.new) }
{
    reply(cut_fields(table, first, last, out))
}

// The fields of records are put in before the field of an index, or at the end: the table with them at the output's
// start, and the length is its.
#[unsafe(no_mangle)]
pub extern "C" fn umarekoza_put_fields(
    table: &[u8],
    index: usize,
    records: &[u8],
    out: &mut [u8],
) -> Reply
    ensures { PutsFields table.now index records.now out.old
        (leaves (reply_answer result) out.new) }
{
    reply(put_fields(table, index, records, out))
}

// A packet is read by a table as far as it goes: four numbers for each field before the first refused one.
#[tactic(auto, using(crate::proofs::PacketPlaces::told_partly, crate::proofs::PacketPlaces::number_low))]
#[unsafe(no_mangle)]
pub extern "C" fn umarekoza_read_partly(table: &[u8], packet: &[u8], run: &mut [u32]) -> Partial
    ensures { ReadsPartly table.now packet.now run.old
        (leaves_partly (partial_answer result) run.new result.count) }
{
    let read = read_partly(table, packet, run);
    let answer = read.answer;
    Partial {
        number: number_of(answer) as u32,
        place: place_of(answer) as u32,
        length: amount_of(answer) as u64,
        count: read.count as u64,
    }
}
