// The two-sided operators: their table, and what is found in it by a stored code and by the bytes of a text.
#![tactic(auto)]

pub mod codes;
pub mod rows;
pub mod symbols;
