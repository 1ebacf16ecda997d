// The number that some bits of a packet make, byte by byte; bits count from the most significant of byte 0.
ghost use Rattle.std.specs.Prelude.{◌≡◌, ◌+◌, ◌*◌, ◌≤◌, length};
ghost use Rattle.rules.specs.Reading.{bits_at, bit_total};
ghost use Rattle.rules.specs.Limits.{fixed_most, packet_most};

// The number that m whole bytes make.
fn bytes_at(packet: &[u8], first: usize, m: usize) -> u64
    requires { (m ≤ 5) × (first + m ≤ length packet.now) }
    ensures { result ≡ bits_at packet.now (8 * first) (8 * m) }
{
    let mut v = 0;
    for &b in &packet[first..first + m] {
        v = 256 * v + u64::from(b);
    }
    v
}

// The number that the n bits from a place on make: that of the bytes where they lie, less what is before and behind.
pub(crate) fn bits_at(packet: &[u8], place: usize, n: usize) -> u32
    requires { (n ≤ fixed_most) × (place + n ≤ bit_total packet.now) × (length packet.now ≤ packet_most) }
    ensures { result ≡ bits_at packet.now place n }
{
    let first = place / 8;
    let end = place + n;
    let m = (end + 7) / 8 - first;
    let v = bytes_at(packet, first, m);
    let spare = 8 * (first + m) - end;
    ((v >> spare) % (1u64 << n)) as u32
}
