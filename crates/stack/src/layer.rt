// A layer of a pile, of either kind.
ghost use Rattle.std.specs.Prelude.{[], ◌∷◌, refl};
ghost use Rattle.stack.specs.Layers.{layering, LayerWrong};

pub use join::Pair;
pub use leave_out::Keep;
use reduction::coarsening::{Coarsening, Single};
use reduction::fault::ReductionFault;
use task::source::TaskSource;

#[derive(Clone, Copy, PartialEq, Eq, Debug)]
pub enum Layer {
    // keeps the variables of a mask
    Keep(Keep),
    // joins two values of a variable
    Join(Pair),
}

// A match for each question: an enum of two kinds, so that a list of layers needs no box for each.
impl Coarsening for Layer {
    ghost layers = { λ layer. layering layer ∷ [] };

    fn size(&self, v: usize, k: u16) -> u16 {
        match self {
            Layer::Keep(keep) => keep.size(v, k),
            Layer::Join(pair) => pair.size(v, k),
        }
    }

    fn value(&self, v: usize, x: u16) -> u16 {
        match self {
            Layer::Keep(keep) => keep.value(v, x),
            Layer::Join(pair) => pair.value(v, x),
        }
    }

    fn wanted(&self, v: usize, x: Option<u16>) -> Option<u16> {
        match self {
            Layer::Keep(keep) => keep.wanted(v, x),
            Layer::Join(pair) => pair.wanted(v, x),
        }
    }
}

impl Single for Layer {
    ghost layering = { layering };

    ghost wrong = { LayerWrong };

    ghost alone = { λ layer. refl };

    fn check<S: TaskSource>(&self, source: &S) -> Result<(), ReductionFault> {
        match self {
            Layer::Keep(keep) => keep.check(source),
            Layer::Join(pair) => pair.check(source),
        }
    }
}
