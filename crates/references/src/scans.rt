// Stored expressions, scanned from one code to the next: what they have is found, and the fields that they read are
// counted.
ghost use Rattle.std.specs.Prelude.{◌≡◌, [], ◌∷◌, ◌≤◌, ◌<◌, ◌+◌, length, drop};
ghost use Rattle.std.specs.Iterator.{YieldsFirstBy, item_count};
ghost use Rattle.std.specs.Option.{MatchOption};
ghost use Rattle.base.specs.Lists.{between};
ghost use Rattle.references.specs.Scans.{codes_from, index_in, references, is_added_code, is_wanted, has_code};
ghost use Rattle.references.specs.Tallies.{tallied};

use operators::codes::{FIELD_CODE, NUMBER_CODE};

// What is looked for: `/`, `%` or `^`, or a field of a run that is read, by the run's first and last index.
// An enum and no closure: the records of the run are passed over by it too.
#[derive(Clone, Copy)]
pub enum Wanted {
    Added,
    Run(usize, usize),
}

// The place of the code behind the one at a place, or the end. By branches: a size that is looked up makes the check
// of a table up to a quarter slower.
pub(crate) fn next_code(expression: &[u8], at: usize) -> usize
    requires { at < length expression.now }
    ensures { (codes_from 0 (drop at expression.now)
        ≡ drop at expression.now ∷ codes_from 0 (drop result expression.now))
        × (at < result) × (result ≤ length expression.now) }
{
    let code = expression[at];
    let left = expression.len() - at;
    if code == NUMBER_CODE {
        if left < 5 {
            return expression.len();
        }
        return at + 5;
    }
    if code == FIELD_CODE {
        if left < 2 {
            return expression.len();
        }
        return at + 2;
    }
    at + 1
}

fn is_added(code: u8) -> bool
    ensures { result ≡ is_added_code code }
{
    matches!(code, 0x13..=0x15)
}

fn is_between(index: u8, first: usize, last: usize) -> bool
    ensures { result ≡ between first index last }
{
    (first..=last).contains(&usize::from(index))
}

// The codes of a stored expression, each with all bytes from it on.
#[derive(Drop)]
struct Codes<'a> {
    rest: &'a [u8],
}

impl<'a> Iterator for Codes<'a> {
    type Item = &'a [u8];

    ghost next_gives = { YieldsFirstBy (λ code. code.now) (λ s. codes_from 0 s.rest.now) };

    ghost remaining = { item_count (λ s. codes_from 0 s.rest.now) };

    #[tactic(auto, using(crate::proofs::ScanLaws::codes_none))]
    fn next(&mut self) -> Option<&'a [u8]> {
        let code = self.rest;
        if code.is_empty() {
            return None;
        }
        self.rest = &code[next_code(code, 0)..];
        Some(code)
    }
}

// The index of a field's code.
#[tactic(auto, using(crate::proofs::ScanLaws::index_field, crate::proofs::ScanLaws::index_other))]
fn index_in(code: &[u8]) -> Option<u8>
    ensures { MatchOption result (index_in code.now ≡ []) (λ i. index_in code.now ≡ i ∷ []) }
{
    match code {
        [FIELD_CODE, index, ..] => Some(*index),
        _ => None,
    }
}

#[tactic(auto, using(crate::proofs::ScanLaws::run_field, crate::proofs::ScanLaws::run_other))]
fn is_wanted(code: &[u8], wanted: Wanted) -> bool
    ensures { result ≡ is_wanted wanted code.now }
{
    match wanted {
        Wanted::Added => code.first().is_some_and(|code| is_added(*code)),
        Wanted::Run(first, last) => {
            index_in(code).is_some_and(|index| is_between(index, first, last))
        }
    }
}

// Whether what is looked for stands in a stored expression.
pub fn has_code(expression: &[u8], wanted: Wanted) -> bool
    ensures { result ≡ has_code wanted expression.now }
{
    Codes { rest: expression }.any(|code| is_wanted(code, wanted))
}

// One more for an index, in two bytes, unless it is the own one.
#[tactic(auto, using(crate::proofs::TallyLaws::tallied_out), unfolding(crate::specs::Tallies::tallied))]
fn count(index: u8, own: usize, counts: &mut [u16])
    ensures { counts.new ≡ tallied own counts.old (index ∷ []) }
{
    let i = usize::from(index);
    if i != own && i < counts.len() {
        counts[i] = counts[i].wrapping_add(1);
    }
}

// One more for each index that a stored expression reads, but the own one.
pub fn tally(expression: &[u8], own: usize, counts: &mut [u16])
    ensures { counts.new
        ≡ tallied own counts.old (references expression.now) }
{
    for code in (Codes { rest: expression }) {
        if let Some(index) = index_in(code) {
            count(index, own, counts);
        }
    }
}
