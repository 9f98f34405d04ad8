// The words of a card: where each stands, what can be wrong with them, and the walk along a chain.
#![tactic(auto)]

pub mod check;
pub mod fault;
pub mod words;
