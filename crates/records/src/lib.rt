// Shelves in memory: records, and the bytes that hold their bits.
#![tactic(auto)]

pub mod bits;
pub mod lookup;
pub mod shelf;
