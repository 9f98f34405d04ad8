// Frames: sets of variables that positions are coded by.
#![tactic(auto)]

mod build;
mod coding;
pub mod fault;
pub mod frame;
mod goal;
pub mod measure;
mod steps;
