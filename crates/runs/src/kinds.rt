// The nine kinds of request: `text`, `table`, `read`, `part`, `list`, `readers`, `convert`, `cut` and `put`.
ghost use Rattle.std.specs.Prelude.{◌≡◌, length};

use crate::answers::{show_listing, show_readers, show_reading, show_table, show_written};
use crate::edits::{answer_cut, answer_put};
use crate::lent::{OUTPUT, RUN, fresh, room_for};
use crate::printing::{show_bytes, show_end};
use crate::words::Words;
use loading::large_buffer;
use packets::conversions::convert_table;
use packets::listing::list_packet;
use packets::lookups::count_readers;
use packets::readings::{field_bytes, read_packet};
use packets::tables::check_table;
use std::io;
use std::io::Write;
use texts::reading::read_text;

// `Unknown` and no `None`: one match answers all lines.
#[derive(Clone, Copy)]
enum Kind {
    Text,
    Table,
    Read,
    Part,
    List,
    Readers,
    Convert,
    Cut,
    Put,
    Unknown,
}

// The kind by a line's first letter; of `text`, `cut` and `put` by the second too, of `readers` by the fifth. An `e` in
// front stands for `text` and a `d` for `readers`.
impl From<&[u8]> for Kind {
    fn from(line: &[u8]) -> Kind {
        match line {
            [b'r', _, _, _, b'e', ..] => Kind::Readers,
            [b't', b'e', ..] => Kind::Text,
            [b'c', b'u', ..] => Kind::Cut,
            [_, b'u', ..] => Kind::Put,
            [b'e', ..] => Kind::Text,
            [b't', ..] => Kind::Table,
            [b'd', ..] => Kind::Readers,
            [b'c', ..] => Kind::Convert,
            [b'l', ..] => Kind::List,
            [b'r', ..] => Kind::Read,
            [b'p', ..] => Kind::Part,
            _ => Kind::Unknown,
        }
    }
}

// Room for a text, more than a text may have.
fn text_room() -> [u8; 20480]
    ensures { 20480 ≡ length result }
{
    [0; 20480]
}

// `text SIZE TEXT`, into the first size bytes of an output, or into all if there are fewer.
// Not one function with `convert`: a text and a table have buffers of other sizes.
fn answer_text<W: Write>(w: &mut W, mut words: Words<'_>) -> io::Result<()> {
    let size = words.number();
    let mut buffer = text_room();
    let text = words.bytes(&mut buffer);
    let mut out = fresh::<u8, OUTPUT>();
    let n = room_for(size, &out);
    let answer = read_text(text, &mut out[..n]);
    show_written(w, answer, &out)
}

// `table TABLE`.
fn answer_table<W: Write>(w: &mut W, mut words: Words<'_>) -> io::Result<()> {
    let mut buffer = large_buffer();
    show_table(w, check_table(words.bytes(&mut buffer)))
}

// `readers INDEX TABLE`.
fn answer_readers<W: Write>(w: &mut W, mut words: Words<'_>) -> io::Result<()> {
    let index = words.number();
    let mut buffer = large_buffer();
    show_readers(w, count_readers(words.bytes(&mut buffer), index))
}

// `convert SIZE TABLE`, into the first size bytes of an output, or into all if there are fewer.
fn answer_conversion<W: Write>(w: &mut W, mut words: Words<'_>) -> io::Result<()> {
    let size = words.number();
    let mut buffer = large_buffer();
    let table = words.bytes(&mut buffer);
    let mut out = fresh::<u8, OUTPUT>();
    let n = room_for(size, &out);
    let answer = convert_table(table, &mut out[..n]);
    show_written(w, answer, &out)
}

// `read SIZE TABLE PACKET`, into the first size numbers of a run, or into all if there are fewer.
fn answer_reading<W: Write>(w: &mut W, mut words: Words<'_>) -> io::Result<()> {
    let size = words.number();
    let mut buffer = large_buffer();
    let table = words.bytes(&mut buffer);
    let mut second = large_buffer();
    let packet = words.bytes(&mut second);
    let mut numbers = fresh::<u32, RUN>();
    let n = room_for(size, &numbers);
    let answer = read_packet(table, packet, &mut numbers[..n]);
    show_reading(w, answer, &numbers, table)
}

// `part INDEX TABLE PACKET`, answered by the part's length and its bytes.
fn answer_part<W: Write>(w: &mut W, mut words: Words<'_>) -> io::Result<()> {
    let index = words.number();
    let mut buffer = large_buffer();
    let table = words.bytes(&mut buffer);
    let mut second = large_buffer();
    let packet = words.bytes(&mut second);
    let part = field_bytes(table, packet, index);
    write!(w, "part {} ", part.len())?;
    show_bytes(w, part, part.len())?;
    show_end(w, true)
}

// `list TABLE PACKET`.
fn answer_listing<W: Write>(w: &mut W, mut words: Words<'_>) -> io::Result<()> {
    let mut buffer = large_buffer();
    let table = words.bytes(&mut buffer);
    let mut second = large_buffer();
    let packet = words.bytes(&mut second);
    let mut out = fresh::<u8, OUTPUT>();
    let answer = list_packet(table, packet, &mut out);
    show_listing(w, answer, &out)
}

// A line of fewer than five bytes is no request, and gets no answer.
// A match and no table of functions: none is handed out as a value.
pub(crate) fn answer_line<W: Write>(w: &mut W, line: &[u8]) -> io::Result<()> {
    if line.len() < 5 {
        return Ok(());
    }
    let words = Words::of(line).others();
    match Kind::from(line) {
        Kind::Text => answer_text(w, words),
        Kind::Table => answer_table(w, words),
        Kind::Read => answer_reading(w, words),
        Kind::Part => answer_part(w, words),
        Kind::List => answer_listing(w, words),
        Kind::Readers => answer_readers(w, words),
        Kind::Convert => answer_conversion(w, words),
        Kind::Cut => answer_cut(w, words),
        Kind::Put => answer_put(w, words),
        Kind::Unknown => w.write_all(b"unknown request\n"),
    }
}
