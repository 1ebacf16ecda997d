// Files of a program's data folder, loaded into buffers.
#![tactic(auto)]

ghost use Rattle.std.specs.Prelude.{◌≡◌, ◌<◌, IfOk, OnErr, length, replicate, take};
ghost use Rattle.std.specs.Io.KnownBytes.{Consumes, IsAtEnd};
ghost use Rattle.io.specs.Counts.{IsPrefixLen};

use std::io::Read;
use std::rt::Files;
use std::{fs, io};

// Zeros, room for any page, table, packet and listing, and for any file of requests.
pub fn large_buffer() -> [u8; 65536]
    ensures zeros { result ≡ replicate 65536 0 }
    ensures len { 65536 ≡ length result }
{
    [0; 65536]
}

// A reader's bytes, as many as fit, in front of the buffer; answers how many. Fewer than fit are all that were left,
// and where a read fails the buffer's bytes are any.
pub fn fill<R: Read>(reader: &mut R, out: &mut [u8]) -> io::Result<usize>
    ensures ok { IfOk result (λ n. IsPrefixLen n out.new) }
    ensures err { OnErr result (length out.new ≡ length out.old) }
    ensures bytes { IfOk result (λ n. Consumes (R.remaining reader.old) (R.remaining reader.new) (take n out.new)) }
    ensures end { IfOk result (λ n. n < length out.new → IsAtEnd (R.remaining reader.new)) }
{
    // A count and no iterator: a read puts in as many bytes as it likes.
    let mut n = 0;
    while n < out.len() {
        let more = reader.read(&mut out[n..])?;
        if more == 0 {
            return Ok(n);
        }
        n += more;
    }
    Ok(n)
}

// A file's bytes, as many as fit; answers how many. Fails where the file cannot be opened or read.
pub fn load<R: Files>(rt: &R, path: &str, out: &mut [u8]) -> io::Result<usize>
    ensures ok { IfOk result (λ n. IsPrefixLen n out.new) }
    ensures err { OnErr result (length out.new ≡ length out.old) }
{
    let mut file = fs::open(rt, path)?;
    fill(&mut file, out)
}
