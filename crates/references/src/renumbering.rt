// Stored expressions with other indexes.
ghost use Rattle.std.specs.Prelude.{◌≡◌};
ghost use Rattle.references.specs.Renumbered.{new_index, renumbered_bytes};

use crate::scans::next_code;
use operators::codes::FIELD_CODE;

// How the indexes from one on change: up where fields are put in before it, down where fields are cut out.
#[derive(Clone, Copy)]
pub enum Shift {
    Up { from: usize, by: usize },
    Down { from: usize, by: usize },
}

// The new index; of one over 255 its remainder, and 0 for one below 0. By remainders, as in the definition.
#[tactic(auto, unfolding(crate::specs::Renumbered::new_index,
// indexes behind fields put in and cut out
rules::specs::Edits::opened, rules::specs::Edits::closed))]
fn new_index(index: u8, shift: Shift) -> u8
    ensures { result ≡ new_index shift index }
{
    let i = usize::from(index);
    match shift {
        Shift::Up { from, by } if from <= i => ((i + by % 256) % 256) as u8,
        Shift::Down { from, by } if from <= i => i.saturating_sub(by) as u8,
        _ => index,
    }
}

// Each index that a stored expression reads becomes the new one.
pub fn renumber(expression: &mut [u8], shift: Shift)
    ensures { expression.new ≡ renumbered_bytes (new_index shift) expression.old }
{
    // A place and no iterator: codes differ in length, and an index is written in place.
    let mut at = 0;
    while at < expression.len() {
        let next = next_code(expression, at);
        if expression[at] == FIELD_CODE {
            if expression.len() - at < 2 {
                return;
            }
            expression[at + 1] = new_index(expression[at + 1], shift);
        }
        at = next;
    }
}
