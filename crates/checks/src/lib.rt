// What the register's calls test before they change anything, one group of faults after another.
#![tactic(auto)]

pub mod bytes;
pub mod closed;
pub mod fault;
pub mod room;
pub mod same;
