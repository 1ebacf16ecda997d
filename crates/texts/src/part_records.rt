// The record of a field line, written from its parts.
ghost use Rattle.std.specs.Prelude.{◌≡◌, ◌+◌, ◌≤◌, length};
ghost use Rattle.writing.specs.Writes.{Writes};
ghost use Rattle.rules.specs.Limits.{text_most, stored_most};
ghost use Rattle.texts.specs.Kinds.{tree_length};
ghost use Rattle.texts.specs.HeldRecords.{
  tree_bytes,
  width_bytes,
  width_size,
  name_bytes,
  body_bytes,
  field_size,
  field_bytes,
  Writable,
};

use crate::kinds::Width;
use crate::line_parts::{Parts, Trees};
use crate::stored_nodes::form_length;
use writing::puts::{put_counted, put_two};

// The stored form of an expression, counted; where there is none, the length 0.
fn put_tree(out: &mut [u8], at: usize, len: usize, tree: &[u8]) -> usize
    requires { (len ≤ length tree.now) × (at + (2 + len) ≤ length out.old) }
    ensures end { result ≡ at + (2 + len) }
    ensures bytes { Writes out.old at (tree_bytes len tree.now) out.new result }
{
    put_counted(out, at, &tree[0..len])
}

fn put_width(out: &mut [u8], at: usize, w: Width, wide: &[u8]) -> usize
    requires { (tree_length w ≤ length wide.now) × (at + width_size w ≤ length out.old) }
    ensures end { result ≡ at + width_size w }
    ensures bytes { Writes out.old at (width_bytes wide.now w) out.new result }
{
    match w {
        Width::Fixed(bits) => put_two(out, at, bits),
        Width::Measured(bits, t) => {
            let next = put_two(out, at, bits);
            put_tree(out, next, t.len, wide)
        }
        Width::Rest => at,
    }
}

// Label and short name.
fn put_names(out: &mut [u8], at: usize, line: &[u8], p: Parts) -> usize
    requires { Writable (length line.now) p × (at + (4 + p.label + p.short.len) ≤ length out.old) }
    ensures end { result ≡ at + (4 + p.label + p.short.len) }
    ensures bytes { Writes out.old at (name_bytes line.now p) out.new result }
{
    let from = p.short.at;
    let to = from + p.short.len;
    let next = put_counted(out, at, &line[0..p.label]);
    put_counted(out, next, &line[from..to])
}

// All that stands behind the record's length, kind and number.
fn put_body(out: &mut [u8], at: usize, line: &[u8], p: Parts, trees: &Trees) -> usize
    requires { Writable (length line.now) p × (at + field_size p ≤ length out.old + 6) }
    ensures end { result + 6 ≡ at + field_size p }
    ensures bytes { Writes out.old at (body_bytes line.now
        trees.now p) out.new result }
{
    let named = put_names(out, at, line, p);
    let measured = put_width(out, named, p.width, &trees.width);
    let next = put_tree(out, measured, form_length(p.constraint), &trees.constraint);
    put_tree(out, next, form_length(p.condition), &trees.condition)
}

// The length of a width's bytes.
fn width_size(w: Width) -> usize
    requires { tree_length w ≤ stored_most }
    ensures { (result ≡ width_size w) × (result ≤ 4 + stored_most) }
{
    match w {
        Width::Fixed(_) => 2,
        Width::Measured(_, t) => 4 + t.len,
        Width::Rest => 0,
    }
}

// The length of a field's record.
fn field_size(p: Parts) -> usize
    requires { Writable text_most p }
    ensures { result ≡ field_size p }
{
    let names = 14 + p.label + p.short.len;
    names + width_size(p.width) + form_length(p.constraint) + form_length(p.condition)
}

// The whole record, with the number 0.
pub(crate) fn put_field(out: &mut [u8], at: usize, line: &[u8], p: Parts, trees: &Trees) -> usize
    requires { Writable (length line.now) p × (length line.now ≤ text_most)
        × (at + field_size p ≤ length out.old) }
    ensures end { result ≡ at + field_size p }
    ensures bytes { Writes out.old at (field_bytes line.now
        trees.now p) out.new result }
{
    let size = put_two(out, at, field_size(p));
    let kind = put_two(out, size, p.width.code());
    let number = put_two(out, kind, 0);
    put_body(out, number, line, p, trees)
}
