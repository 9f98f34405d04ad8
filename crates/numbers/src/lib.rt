// The numbers of frames.
#![tactic(auto)]

pub mod number;
mod walk;
