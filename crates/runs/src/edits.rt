// The requests `cut` and `put`.
use crate::answers::show_written;
use crate::lent::{OUTPUT, fresh, room_for};
use crate::words::Words;
use loading::large_buffer;
use packets::edits::{cut_fields, put_fields};
use std::io;
use std::io::Write;

// `cut FIRST LAST SIZE TABLE`, into the first size bytes of an output, or into all if there are fewer.
pub(crate) fn answer_cut<W: Write>(w: &mut W, mut words: Words<'_>) -> io::Result<()> {
    let first = words.number();
    let last = words.number();
    let size = words.number();
    let mut buffer = large_buffer();
    let table = words.bytes(&mut buffer);
    let mut out = fresh::<u8, OUTPUT>();
    let n = room_for(size, &out);
    let answer = cut_fields(table, first, last, &mut out[..n]);
    show_written(w, answer, &out)
}

// `put INDEX SIZE TABLE RECORDS`, likewise.
pub(crate) fn answer_put<W: Write>(w: &mut W, mut words: Words<'_>) -> io::Result<()> {
    let index = words.number();
    let size = words.number();
    let mut buffer = large_buffer();
    let table = words.bytes(&mut buffer);
    let mut second = large_buffer();
    let records = words.bytes(&mut second);
    let mut out = fresh::<u8, OUTPUT>();
    let n = room_for(size, &out);
    let answer = put_fields(table, index, records, &mut out[..n]);
    show_written(w, answer, &out)
}
