// Tests on worked cards, rings, plans, piles and frames; there is no other code here.
#![tactic(auto)]

#[cfg(test)]
mod cards;
#[cfg(test)]
mod frames;
#[cfg(test)]
mod numbering;
#[cfg(test)]
mod piles;
#[cfg(test)]
mod plans;
#[cfg(test)]
mod rings;
#[cfg(test)]
mod told;
