// Fields behind the rest field.
ghost use Rattle.std.specs.Prelude.{◌&&◌, ◌||◌, not, ◌≡◌, is_none};
ghost use Rattle.texts.specs.Kinds.{is_fixed, is_rest};

use crate::line_parts::Parts;

// Behind the rest field stands one that is not fixed or has a condition.
pub(crate) fn misplaced(p: Parts, rested: bool) -> bool
    ensures { result ≡ (rested && not (is_fixed p.width && is_none p.condition)) }
{
    rested && !(p.width.is_fixed() && p.condition.is_none())
}

// The line is the rest field's, or the rest field was listed before it. By a line's width; packets goes by a number.
pub(crate) fn rests(p: Parts, rested: bool) -> bool
    ensures { result ≡ (rested || is_rest p.width) }
{
    rested || p.width.is_rest()
}
