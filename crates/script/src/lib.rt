// Scripts: what each command does, and what it prints.
#![tactic(auto)]

mod frames;
mod pile;
mod report;
pub mod run;
pub mod session;
mod trouble;
