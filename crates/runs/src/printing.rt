// Words, numbers and bytes printed to a writer.
use rules::refusals::Refusal;
use std::io;
use std::io::Write;

// The end of a line; `changed` before it where something lent is not as it should be.
pub(crate) fn show_end<W: Write>(w: &mut W, as_due: bool) -> io::Result<()> {
    if !as_due {
        w.write_all(b" changed")?;
    }
    w.write_all(b"\n")
}

// `refused N P`.
pub(crate) fn show_refusal<W: Write>(
    w: &mut W,
    refusal: impl Into<Refusal>,
    as_due: bool,
) -> io::Result<()> {
    let Refusal { number, place } = refusal.into();
    write!(w, "refused {number} {place}")?;
    show_end(w, as_due)
}

// The first n bytes in hex, `-` for none.
pub(crate) fn show_bytes<W: Write>(w: &mut W, s: &[u8], n: usize) -> io::Result<()> {
    if n == 0 {
        w.write_all(b"-")?;
    }
    for byte in &s[..n.min(s.len())] {
        write!(w, "{byte:02x}")?;
    }
    Ok(())
}
