// Byte classes, words, labels and short names.
#![tactic(auto)]

pub mod classes;
pub mod labels;
pub mod repeats;
pub mod words;
