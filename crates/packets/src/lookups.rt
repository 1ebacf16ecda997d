// Fields of a table: how many, by name, and by index with kind, readers, label and short name.
ghost use Rattle.std.specs.Prelude.{◌≡◌};
ghost use Rattle.laws.specs.Places.{two_at};
ghost use Rattle.rules.specs.Reading.{part_from};
ghost use Rattle.rules.specs.Promises.{
  FindsField,
  CountsFields,
  TellsKind,
  CountsReaders,
  PlacesLabel,
  LendsLabel,
  PlacesShort,
  LendsShort,
};
ghost use Rattle.packets.specs.Lookups.{place_from, is_named_in, has_name, find_from};
ghost use Rattle.packets.specs.Found.{Finds, filled_span, OnLabel, OnShort};
ghost use Rattle.rules.specs.Answers.{of_table, of_field};

use crate::readings::Bytes;
use crate::records::{Parts, Records, bytes_of, parts_at, two_at};
use crate::tables::check_table;
use names::words::same_words;
use rules::{FieldAnswer, FieldRefusal, TABLE_MOST, TableAnswer};
use writing::spans::Span;

// The place behind n records.
pub(crate) fn place_behind(table: &[u8], n: usize) -> usize
    ensures { result ≡ place_from table.now n (two_at table.now 0) }
{
    Records::of(table, n).fold(two_at(table, 0), |_, parts| parts.next)
}

// A part of the table is there, is not empty and is the name. Lengths are compared first, then bytes up to the first
// that differs.
#[tactic(auto, using(crate::proofs::LookupSteps::named_other), unfolding(crate::specs::Lookups::is_named_in))]
fn is_named(table: &[u8], span: Span, name: &[u8]) -> bool
    ensures { result ≡ is_named_in table.now span name.now }
{
    name.len() == span.len
        && !name.is_empty()
        && span.of(table).is_some_and(|part| same_words(name, part))
}

// The record's label or short name is the name.
#[tactic(auto, unfolding(crate::specs::Lookups::has_name))]
fn has_name(table: &[u8], parts: Parts, name: &[u8]) -> bool
    ensures { result ≡ has_name table.now parts name.now }
{
    is_named(table, parts.label, name) || is_named(table, parts.short, name)
}

// The first field of a table that has the name.
fn first_named(table: &[u8], name: &[u8]) -> FieldAnswer
    ensures { result ≡ find_from table.now name.now 0 (two_at table.now 6) (two_at table.now 0) }
{
    Records::of(table, two_at(table, 6))
        .position(|parts| has_name(table, parts, name))
        .ok_or(FieldRefusal::Unknown)
}

// The index of the field that has the name as its label or short name.
pub fn field_index(table: &[u8], name: &[u8]) -> FieldAnswer
    ensures { FindsField table.now name.now (of_field result) }
{
    check_table(table)?;
    first_named(table, name)
}

// The number of a table's fields.
pub fn count_fields(table: &[u8]) -> TableAnswer
    ensures { CountsFields table.now (of_table result) }
{
    check_table(table)?;
    Ok(two_at(table, 6))
}

// The record of the field of an index.
fn find_record(table: &[u8], index: usize) -> Result<Parts, FieldRefusal>
    ensures { Finds table.now index result }
{
    check_table(table)?;
    if two_at(table, 6) <= index {
        return Err(FieldRefusal::Unknown);
    }
    let place = place_behind(table, index);
    if TABLE_MOST < place {
        return Err(FieldRefusal::Unknown);
    }
    Ok(parts_at(table, place))
}

// An empty part stands at the start.
#[tactic(auto, unfolding(crate::specs::Found::filled_span))]
fn filled(span: Span) -> Span
    ensures { result ≡ filled_span span }
{
    if span.len == 0 { Span::EMPTY } else { span }
}

// The kind of the record of the field of an index.
pub fn field_kind(table: &[u8], index: usize) -> FieldAnswer
    ensures { TellsKind table.now index (of_field result) }
{
    Ok(find_record(table, index)?.kind)
}

// How many references to the field of an index there are in other fields' expressions.
pub fn count_readers(table: &[u8], index: usize) -> FieldAnswer
    ensures { CountsReaders table.now index (of_field result) }
{
    Ok(find_record(table, index)?.readers)
}

// The label's part of the field of an index. With `find_short` not one function: the part that is taken would be a
// closure, with its contract in place of these two lines.
// The empty part and no None: what callers are promised has it for none.
fn find_label(table: &[u8], index: usize) -> Span
    ensures { OnLabel table.now index result }
{
    find_record(table, index).map_or(Span::EMPTY, |parts| parts.label)
}

// Its short name's part.
fn find_short(table: &[u8], index: usize) -> Span
    ensures { OnShort table.now index result }
{
    find_record(table, index).map_or(Span::EMPTY, |parts| filled(parts.short))
}

// Where the label of the field of an index lies in the table. With the three below not fewer functions: each is
// promised by name.
pub fn label_place(table: &[u8], index: usize) -> Bytes
    ensures { PlacesLabel table.now index (part_from result.start result.size) }
{
    find_label(table, index).into()
}

// Where its short name lies, the empty part at the start where it has none.
pub fn short_place(table: &[u8], index: usize) -> Bytes
    ensures { PlacesShort table.now index (part_from result.start result.size) }
{
    find_short(table, index).into()
}

// The label of the field of an index, as that part of the table.
pub fn field_label<'a>(table: &'a [u8], index: usize) -> &'a [u8]
    ensures { LendsLabel table.now index table.entry.ref_ptr result.now result.ref_ptr }
{
    bytes_of(table, find_label(table, index))
}

// Its short name, as that part of the table.
pub fn field_short<'a>(table: &'a [u8], index: usize) -> &'a [u8]
    ensures { LendsShort table.now index table.entry.ref_ptr result.now result.ref_ptr }
{
    bytes_of(table, find_short(table, index))
}
