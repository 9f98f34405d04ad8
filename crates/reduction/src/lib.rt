// Reductions: coarser tasks over a source, and the law that what they call hopeless is hopeless below.
#![tactic(auto)]

pub mod coarsening;
pub mod fault;
pub mod ground;
pub mod interface;
pub mod over;
