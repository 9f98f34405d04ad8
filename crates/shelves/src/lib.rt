// What shelves mean: sets of positions that are kept by frame, closed sets, surveys, filing, and the verdict.
#![tactic(auto)]

pub mod laws;
pub mod verdict;
