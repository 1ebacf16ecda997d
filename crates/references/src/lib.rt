// What the expressions of a stored table read, found, counted and renumbered, and the counts put into its records.
#![tactic(auto)]

pub mod numbers;
pub mod renumbering;
pub mod scans;
