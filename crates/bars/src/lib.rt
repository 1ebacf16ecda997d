// The bars of a row's lines.
#![tactic(auto)]

pub mod further_lines;
