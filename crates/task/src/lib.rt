// Task sources, what their operators do, and plans.
#![tactic(auto)]

pub mod fault;
pub mod mask;
pub mod moves;
pub mod plan;
pub mod refusal;
pub mod source;
pub mod words;
