// Lists of values that are to be positions of a task.
#![tactic(auto)]

pub mod check;
pub mod fault;
