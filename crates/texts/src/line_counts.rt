// The record of a field line, and what its expressions read.
ghost use Rattle.std.specs.Prelude.{◌≡◌, ◌+◌, ◌≤◌, length};
ghost use Rattle.writing.specs.Writes.{Writes};
ghost use Rattle.rules.specs.Limits.{text_most, stored_most};
ghost use Rattle.texts.specs.StoredTrees.{form_length};
ghost use Rattle.texts.specs.Kinds.{tree_length};
ghost use Rattle.texts.specs.HeldRecords.{
  tree_tallied,
  line_tallied,
  field_size,
  field_bytes,
  Writable,
};

use crate::line_parts::{Parts, Trees};
use crate::part_records::put_field;
use crate::stored_nodes::form_length;
use references::scans::tally;
use rules::FIELDS_MOST;

// One more for each field that an expression of the field `own` reads, but that one.
fn count_tree(len: usize, tree: &[u8], own: usize, counts: &mut [u16; FIELDS_MOST])
    requires { len ≤ length tree.now }
    ensures { counts.new ≡ tree_tallied own len tree.now counts.old }
{
    tally(&tree[0..len], own, counts);
}

// The same for all expressions of a line.
fn count_line(p: Parts, trees: &Trees, own: usize, counts: &mut [u16; FIELDS_MOST])
    requires { (tree_length p.width ≤ stored_most) × (form_length p.constraint ≤ stored_most)
        × (form_length p.condition ≤ stored_most) }
    ensures { counts.new ≡ line_tallied own
        trees.now p counts.old }
{
    count_tree(form_length(p.width.tree()), &trees.width, own, counts);
    count_tree(form_length(p.constraint), &trees.constraint, own, counts);
    count_tree(form_length(p.condition), &trees.condition, own, counts);
}

// The record of the field `own` is written, and what it reads is counted.
pub(crate) fn keep_field(
    out: &mut [u8],
    at: usize,
    line: &[u8],
    p: Parts,
    trees: &Trees,
    own: usize,
    counts: &mut [u16; FIELDS_MOST],
) -> usize
    requires { Writable (length line.now) p × (length line.now ≤ text_most)
        × (at + field_size p ≤ length out.old) }
    ensures end { result ≡ at + field_size p }
    ensures bytes { Writes out.old at (field_bytes line.now
        trees.now p) out.new result }
    ensures counts { counts.new ≡ line_tallied own
        trees.now p counts.old }
{
    count_line(p, trees, own, counts);
    put_field(out, at, line, p, trees)
}
