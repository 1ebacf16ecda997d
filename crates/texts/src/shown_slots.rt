// Where a kept cell ends.
ghost use Rattle.std.specs.Prelude.{List, ◌++◌, ◌≡◌, ℕ, ◌+◌, ◌≤◌, length, drop};
ghost use Rattle.rules.specs.Frames.{Slot};
ghost use Rattle.texts.specs.Slots.{stored_slot};

// The place behind the cell that is kept at a place.
pub(crate) fn slot_end(cells: &[u8], at: usize) -> usize
    requires { at + 3 ≤ length cells.now }
    ensures place { (at + 3 ≤ result) × (result ≤ length cells.now) }
    ensures end { (c : Slot) (behind : List ℕ) → drop at cells.now ≡ stored_slot c ++ behind
        → result ≡ at + length (stored_slot c) }
{
    let from = at + 3;
    let len = usize::from(cells[at + 2]);
    if cells.len() - from < len {
        return from;
    }
    from + len
}
