// Tables are checked, and packets read by them.
#![tactic(auto)]

pub mod answers;
mod bits;
mod columns;
pub mod conversions;
mod counts;
pub mod edits;
mod expressions;
mod fields;
mod lines;
pub mod listing;
pub mod lookups;
mod powers;
pub mod readings;
mod records;
mod shifts;
mod steps;
pub mod tables;
mod trees;
mod unique;
mod walks;
