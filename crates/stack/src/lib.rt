// A pile of any height at run time: a source under a list of layers of both kinds, the lowest first.
#![tactic(auto)]

pub mod layer;

use crate::layer::Layer;
use reduction::ground::Ground;
use reduction::over::Over;

pub type Stack<S> = Over<Ground<S>, Vec<Layer>>;
