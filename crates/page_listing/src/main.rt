// Reads a page and a packet from its data folder, and prints the packet's listing by the page. A buffer of 65,536 bytes
// has room for any page, table, packet and listing.
#![tactic(auto)]

use loading::{large_buffer, load};
use packets::listing::list_packet;
use std::io;
use std::io::Write;
use texts::reading::read_text;

// The listing of a packet by a page, by way of its table.
fn list<W: Write>(w: &mut W, page: &[u8], packet: &[u8]) -> io::Result<()> {
    let mut table = large_buffer();
    let Ok(n) = read_text(page, &mut table) else {
        return w.write_all(b"the page is refused\n");
    };
    let mut out = large_buffer();
    match list_packet(table.get(..n).unwrap_or(&[]), packet, &mut out) {
        Ok(n) => w.write_all(out.get(..n).unwrap_or(&[])),
        Err(_) => w.write_all(b"no room\n"),
    }
}

fn main(rt: HostRuntime) -> io::Result<()> {
    let mut page = large_buffer();
    let n = load(&rt, "page", &mut page)?;
    let mut packet = large_buffer();
    let m = load(&rt, "packet", &mut packet)?;
    list(&mut io::writer(&rt), &page[..n], &packet[..m])
}
