// The commands of a script, and how a line says one.
#![tactic(auto)]

pub mod kinds;
pub mod parse;
mod take;
mod words;
