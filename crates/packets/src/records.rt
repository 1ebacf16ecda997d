// The parts of a field's record, found by its lengths.
ghost use Rattle.std.specs.Prelude.{◌≡◌, ◌+◌, ◌≤◌, length, get_or};
ghost use Rattle.laws.specs.Places.{two_at};
ghost use Rattle.std.specs.Iterator.{YieldsFirst, item_count};
ghost use Rattle.packets.specs.Lookups.{records_from};
ghost use Rattle.packets.specs.Parts.{place_most, table_most, ending, Spans, Widths, parts_at};
ghost use Rattle.packets.specs.FieldTest.{bytes_in};
ghost use Rattle.rules.specs.Promises.{moved_by};

use names::words::byte_of;
use rules::TABLE_MOST;
use writing::spans::Span;

// So many fields are few: for them small arrays are cleared.
pub(crate) const FEW_FIELDS: usize = 16;

// The record kinds of fields. Numbers: the kind is read where a table may not be good, so any number may stand there.
pub(crate) const FIXED: usize = 12;

pub(crate) const MEASURED: usize = 13;

pub(crate) const REST: usize = 14;

// What a width stores: its number (bits, or the unit), a measured width's expression, and the place behind them.
#[derive(Clone, Copy)]
pub(crate) struct WidthParts {
    pub number: usize,
    pub tree: Span,
    pub next: usize,
}

#[derive(Clone, Copy)]
pub(crate) struct Parts {
    pub kind: usize,
    pub readers: usize,
    pub label: Span,
    pub short: Span,
    pub number: usize,
    pub tree: Span,
    pub constraint: Span,
    pub condition: Span,
    pub next: usize,
}

// A byte, 0 behind the end.
pub(crate) fn byte_at(s: &[u8], at: usize) -> usize
    ensures { (result ≡ get_or s.now at 0) × (result ≤ 255) }
{
    usize::from(byte_of(s, at))
}

// A number in two bytes, the least first.
pub(crate) fn two_at(s: &[u8], at: usize) -> usize
    requires { at ≤ place_most }
    ensures { (result ≡ two_at s.now at) × (result ≤ 65535) }
{
    if at + 1 < s.len() {
        return usize::from(u16::from_le_bytes([s[at], s[at + 1]]));
    }
    byte_at(s, at)
}

// A length, and the part of that length behind it.
fn span_at(s: &[u8], at: usize) -> Span
    requires { at ≤ place_most }
    ensures { Spans s.now at result }
{
    let len = two_at(s, at);
    Span { at: at + 2, len }
}

#[tactic(auto, unfolding(crate::specs::Parts::width_at))]
fn width_parts(s: &[u8], kind: usize, at: usize) -> WidthParts
    requires { at + 2 ≤ place_most }
    ensures { Widths s.now kind at result }
{
    match kind {
        FIXED => WidthParts {
            number: two_at(s, at),
            tree: Span { at, len: 0 },
            next: at + 2,
        },
        MEASURED => {
            let tree = span_at(s, at + 2);
            WidthParts {
                number: two_at(s, at),
                tree,
                next: tree.at + tree.len,
            }
        }
        _ => WidthParts {
            number: 0,
            tree: Span { at, len: 0 },
            next: at,
        },
    }
}

// The label of the record at a place.
#[tactic(auto, unfolding(crate::specs::Parts::parts_at))]
pub(crate) fn label_span(s: &[u8], at: usize) -> Span
    requires { at ≤ table_most }
    ensures { result ≡ (parts_at s.now at).label }
{
    span_at(s, at + 6)
}

// The bytes of a part that lies inside, as that part of all. Inlined into the tests of a field.
#[inline(always)]
pub(crate) fn bytes_of<'a>(s: &'a [u8], p: Span) -> &'a [u8]
    requires { ending p ≤ length s.now }
    ensures is { result.now ≡ bytes_in s.now p }
    ensures place { result.ref_ptr ≡ moved_by p.at s.entry.ref_ptr }
{
    &s[p.at..p.at + p.len]
}

// The parts of the record at a place.
#[tactic(auto, unfolding(crate::specs::Parts::parts_at))]
pub(crate) fn parts_at(s: &[u8], at: usize) -> Parts
    requires { at ≤ table_most }
    ensures { result ≡ parts_at s.now at }
{
    let kind = two_at(s, at + 2);
    let readers = two_at(s, at + 4);
    let label = span_at(s, at + 6);
    let short = span_at(s, label.at + label.len);
    let width = width_parts(s, kind, short.at + short.len);
    let number = width.number;
    let tree = width.tree;
    let constraint = span_at(s, width.next);
    let condition = span_at(s, constraint.at + constraint.len);
    let next = condition.at + condition.len;
    Parts {
        kind,
        readers,
        label,
        short,
        number,
        tree,
        constraint,
        condition,
        next,
    }
}

// At most so many records of a table from a place on, one after the other: the parts of each.
#[derive(Drop)]
pub(crate) struct Records<'a> {
    pub table: &'a [u8],
    pub place: usize,
    pub left: usize,
}

impl<'a> Records<'a> {
    // The first n of a table.
    pub(crate) fn of(table: &'a [u8], n: usize) -> Self
        ensures { (result.table.now ≡ table.now) × (result.place ≡ two_at table.now 0) × (result.left ≡ n) }
    {
        Records {
            table,
            place: two_at(table, 0),
            left: n,
        }
    }
}

impl<'a> Iterator for Records<'a> {
    type Item = Parts;

    ghost next_gives = { YieldsFirst (λ r. records_from r.table.now r.left r.place) };

    ghost remaining = { item_count (λ r. records_from r.table.now r.left r.place) };

    #[tactic(auto, using(crate::proofs::LookupSteps::records_rules))]
    fn next(&mut self) -> Option<Parts> {
        if self.left == 0 || TABLE_MOST < self.place {
            return None;
        }
        let parts = parts_at(self.table, self.place);
        self.left -= 1;
        self.place = parts.next;
        Some(parts)
    }
}
