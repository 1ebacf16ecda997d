// Outputs and runs to lend, and what a call left in them.
ghost use Rattle.std.specs.Prelude.{◌≡◌, ◌≤◌, min, length, take, drop};
ghost use Rattle.std.specs.List.{list_all};

// What is lent: bytes of an output or numbers of a run, and what each is before a call.
pub(crate) trait Lent: Copy + PartialEq {
    ghost BEFORE: { Self };

    const BEFORE: Self;
}

impl Lent for u8 {
    ghost BEFORE = { 165 };

    const BEFORE: u8 = 165;
}

impl Lent for u32 {
    ghost BEFORE = { 2779096485 };

    const BEFORE: u32 = 2779096485;
}

// How long a lent output is: longer than any table.
pub(crate) const OUTPUT: usize = 57344;

// How long a lent run is: longer than any table needs.
pub(crate) const RUN: usize = 640;

// An output or a run before a call.
pub(crate) fn fresh<T: Lent, const N: usize>() -> [T; N]
    ensures { N ≡ length result }
{
    [T::BEFORE; N]
}

// How many elements are lent: size, or all if there are fewer.
pub(crate) fn room_for<T>(size: usize, lent: &[T]) -> usize
    ensures value { result ≡ min size (length lent.now) }
    ensures prefix { (result ≤ length lent.now) × (result ≡ length (take result lent.now)) }
{
    size.min(lent.len())
}

// Each element from a place on is as before.
pub(crate) fn unchanged<T: Lent>(lent: &[T], at: usize) -> bool
    ensures { result ≡ list_all (λ x. T.eq x T.BEFORE) (drop at lent.now) }
{
    lent.iter().skip(at).all(|x| *x == T::BEFORE)
}
