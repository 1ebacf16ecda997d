// Numbers put into the records of a stored table.
ghost use Rattle.std.specs.Prelude.{◌≡◌, ◌+◌, ◌*◌, get_or};
ghost use Rattle.references.specs.Numbers.{numbered};

// Each of `n` records gets the number of its index, up to bytes that are no record.
pub fn put_numbers(records: &mut [u8], n: usize, counts: &[u16])
    ensures { records.new ≡ numbered n counts.now records.old }
{
    // A place and no iterator: records differ in length, and their numbers are written in place.
    let mut at = 0;
    for k in 0..n {
        let left = records.len() - at;
        if left < 6 {
            return;
        }
        let size = usize::from(u16::from_le_bytes([records[at], records[at + 1]]));
        if size < 6 || left < size {
            return;
        }
        let [low, high] = counts.get(k).copied().unwrap_or(0).to_le_bytes();
        records[at + 4] = low;
        records[at + 5] = high;
        at += size;
    }
}
