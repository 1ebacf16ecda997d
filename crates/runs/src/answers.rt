// Answers as lines: `ok ..` or `refused N P`, with `changed` behind it where a number of a run or a byte of an output
// changed that should not.
use crate::lent::unchanged;
use crate::printing::{show_bytes, show_end, show_refusal};
use rules::refusals::Refusal;
use rules::{FieldAnswer, ListingAnswer, PacketAnswer, TableAnswer};
use std::io;
use std::io::Write;

pub(crate) fn show_table<W: Write>(w: &mut W, answer: TableAnswer) -> io::Result<()> {
    match answer {
        Ok(_) => w.write_all(b"ok\n"),
        Err(refusal) => show_refusal(w, refusal, true),
    }
}

// How often a field is read.
fn show_count<W: Write>(w: &mut W, n: usize) -> io::Result<()> {
    writeln!(w, "ok {n}")
}

pub(crate) fn show_readers<W: Write>(w: &mut W, answer: FieldAnswer) -> io::Result<()> {
    match answer {
        Ok(n) => show_count(w, n),
        Err(refusal) => show_refusal(w, refusal, true),
    }
}

// The first n bytes of an output, beyond which nothing is to change.
fn show_output<W: Write>(w: &mut W, out: &[u8], n: usize) -> io::Result<()> {
    show_bytes(w, out, n)?;
    show_end(w, unchanged(out, n))
}

// The new table at the start of an output.
fn show_new<W: Write>(w: &mut W, out: &[u8], n: usize) -> io::Result<()> {
    w.write_all(b"ok ")?;
    show_output(w, out, n)
}

// The answer to what is written as a table at the start of an output.
pub(crate) fn show_written<W: Write, E: Into<Refusal>>(
    w: &mut W,
    answer: Result<usize, E>,
    out: &[u8],
) -> io::Result<()> {
    match answer {
        Ok(n) => show_new(w, out, n),
        Err(refusal) => show_refusal(w, refusal, unchanged(out, 0)),
    }
}

// The number of fields that a stored table states, as far as one byte holds it.
fn fields_of(table: &[u8]) -> u8 {
    table.get(6).copied().unwrap_or(0)
}

// Four numbers a field.
fn show_run<W: Write>(w: &mut W, run: &[u32]) -> io::Result<()> {
    for numbers in run.chunks_exact(4) {
        write!(
            w,
            " {},{},{},{}",
            numbers[0], numbers[1], numbers[2], numbers[3]
        )?;
    }
    Ok(())
}

// The bits and the fields, beyond which nothing is to change.
fn show_fields<W: Write>(w: &mut W, total: usize, run: &[u32], table: &[u8]) -> io::Result<()> {
    let n = run.len().min(4 * usize::from(fields_of(table)));
    let (shown, rest) = run.split_at(n);
    write!(w, "ok {total}")?;
    show_run(w, shown)?;
    show_end(w, unchanged(rest, 0))
}

pub(crate) fn show_reading<W: Write>(
    w: &mut W,
    answer: PacketAnswer,
    run: &[u32],
    table: &[u8],
) -> io::Result<()> {
    match answer {
        Ok(total) => show_fields(w, total, run, table),
        Err(refusal) => show_refusal(w, refusal, unchanged(run, 0)),
    }
}

pub(crate) fn show_listing<W: Write>(
    w: &mut W,
    answer: ListingAnswer,
    out: &[u8],
) -> io::Result<()> {
    match answer {
        Ok(n) => show_output(w, out, n),
        Err(refusal) => show_refusal(w, refusal, unchanged(out, 0)),
    }
}
