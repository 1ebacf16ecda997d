// Runs the library on the requests of its data folder, one to a line, and prints an answer line for each.
#![tactic(auto)]

mod answers;
mod edits;
mod kinds;
mod lent;
mod printing;
mod words;

use kinds::answer_line;
use loading::{large_buffer, load};
use std::io;
use std::io::Write;
use std::rt::Files;

// The files of requests, in order.
const FILES: [&str; 41] = [
    "marked_texts",
    "texts1",
    "texts2",
    "texts3",
    "texts4",
    "texts5",
    "texts6",
    "texts7",
    "texts8",
    "texts9",
    "texts10",
    "texts11",
    "texts12",
    "texts13",
    "texts14",
    "texts15",
    "texts16",
    "marked_packets",
    "limits1",
    "limits2",
    "limits3",
    "limits4",
    "tables1",
    "tables2",
    "readers1",
    "readers2",
    "packets1",
    "packets2",
    "packets3",
    "packets4",
    "packets5",
    "packets6",
    "packets7",
    "packets8",
    "packets9",
    "packets10",
    "marked_edits",
    "edits1",
    "edits2",
    "edits3",
    "edits4",
];

// The requests in order, each before an LF.
fn answer_all<W: Write>(w: &mut W, requests: &[u8]) -> io::Result<()> {
    for line in requests.split(|&byte| byte == b'\n') {
        answer_line(w, line)?;
    }
    Ok(())
}

// A file of at most 65,536 bytes.
fn run_file<R: Files, W: Write>(rt: &R, w: &mut W, path: &str) -> io::Result<()> {
    let mut requests = large_buffer();
    let n = load(rt, path, &mut requests)?;
    answer_all(w, &requests[..n])
}

fn main(rt: HostRuntime) -> io::Result<()> {
    let mut w = io::writer(&rt);
    for path in FILES {
        run_file(&rt, &mut w, path)?;
    }
    Ok(())
}
