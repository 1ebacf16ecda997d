// What the rules ask of the expressions of a field line.
ghost use Rattle.std.specs.Prelude.{◌≡◌};
ghost use Rattle.base.specs.Lists.{all};
ghost use Rattle.rules.specs.Trees.{is_small};
ghost use Rattle.rules.specs.Fields.{trees};
ghost use Rattle.texts.specs.Resolved.{types_kept};
ghost use Rattle.texts.specs.HeldRecords.{is_small_as, is_small_maybe};
ghost use Rattle.texts.specs.HeldRecords.{is_type_maybe, TestsForm};

use crate::line_parts::Parts;
use crate::stored_nodes::is_type;
use crate::stored_trees::StoredTree;
use rules::{DEPTH_MOST, STORED_MOST, ValueType};

fn is_small(t: StoredTree) -> bool
    ensures { result ≡ is_small_as t }
{
    t.depth <= DEPTH_MOST && t.len <= STORED_MOST
}

fn is_small_maybe(t: Option<StoredTree>) -> bool
    ensures { result ≡ is_small_maybe t }
{
    t.is_none_or(is_small)
}

// Each expression is small enough.
pub(crate) fn sizes_kept(p: Parts) -> bool
    ensures { TestsForm p (λ names n x. all is_small (trees x)) result }
{
    is_small_maybe(p.width.tree()) && is_small_maybe(p.constraint) && is_small_maybe(p.condition)
}

fn is_type_maybe(t: Option<StoredTree>, wanted: ValueType) -> bool
    ensures { result ≡ is_type_maybe t wanted }
{
    t.is_none_or(|t| is_type(t.gives, wanted))
}

// Each expression has its type and reads what it may.
pub(crate) fn types_kept(p: Parts) -> bool
    ensures { TestsForm p types_kept result }
{
    is_type_maybe(p.width.tree(), ValueType::Number)
        && is_type_maybe(p.constraint, ValueType::YesNo)
        && is_type_maybe(p.condition, ValueType::YesNo)
}
