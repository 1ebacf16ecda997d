// Bytes, numbers and whole texts written into lent buffers.
#![tactic(auto)]

pub mod decimals;
pub mod delivery;
pub mod puts;
pub mod spans;
