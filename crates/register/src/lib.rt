// The register: shelves of hopeless positions, and the verdict on the start.
#![tactic(auto)]

pub mod calls;
pub mod register;
