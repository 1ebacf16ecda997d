// The words of a request line.
#![tactic(auto)]

pub mod words;
