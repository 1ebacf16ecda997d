// Parts of some bytes, by place and length.
ghost use Rattle.std.specs.Prelude.{◌≡◌, ◌<◌, ◌≤◌, ◌+◌, length, take, drop};
ghost use Rattle.std.specs.Option.{MatchOption};

// A part of some bytes: its place and its length.
#[derive(Clone, Copy)]
pub struct Span {
    pub at: usize,
    pub len: usize,
}

impl Span {
    // The empty part at the start.
    pub const EMPTY: Span = Span { at: 0, len: 0 };

    // The part of some bytes, where they reach that far.
    pub fn of<'a>(self, s: &'a [u8]) -> Option<&'a [u8]>
        ensures { MatchOption result (length s.now < self.at + self.len)
            (λ part. (self.at + self.len ≤ length s.now) × (part.now ≡ take self.len (drop self.at s.now))) }
    {
        s.get(self.at..)?.get(..self.len)
    }
}
