// Join: a layer that makes two values of a variable one.
#![tactic(auto)]

ghost use Rattle.std.specs.Prelude.{◌≤◌, [], ◌∷◌, refl};
ghost use Rattle.model.specs.Stack.{joining};
ghost use Rattle.model.proofs.Joining.{join_nothing};
ghost use Rattle.reduction.specs.Settings.{JoinWrong};

use reduction::coarsening::{Coarsening, Neutral, Single};
use reduction::fault::ReductionFault;
use reduction::over::Over;
use task::source::TaskSource;

// Two values of a variable as one: `high` reads as `low`, and each value above as one less. Nothing is joined unless `low` is below `high`.
#[derive(Clone, Copy, PartialEq, Eq, Debug)]
pub struct Pair {
    pub variable: usize,
    pub low: u16,
    pub high: u16,
}

// The source in which two values of a variable are one.
pub type Join<S> = Over<S, Pair>;

impl Coarsening for Pair {
    ghost layers = { λ pair. joining pair.variable pair.low pair.high ∷ [] };

    fn size(&self, v: usize, k: u16) -> u16 {
        if v == self.variable && self.low < self.high && self.high < k {
            k - 1
        } else {
            k
        }
    }

    fn value(&self, v: usize, x: u16) -> u16 {
        if v != self.variable || self.low >= self.high || x < self.high {
            x
        } else if x == self.high {
            self.low
        } else {
            x - 1
        }
    }

    fn wanted(&self, v: usize, x: Option<u16>) -> Option<u16> {
        x.map(|x| self.value(v, x))
    }
}

impl Single for Pair {
    ghost layering = { λ pair. joining pair.variable pair.low pair.high };

    ghost wrong = { λ t pair. JoinWrong t pair.variable pair.low pair.high };

    ghost alone = { λ pair. refl };

    fn check<S: TaskSource>(&self, source: &S) -> Result<(), ReductionFault> {
        match source.size(self.variable) {
            Some(size) if self.low < self.high && self.high < size => Ok(()),
            _ => Err(ReductionFault::BadJoin(self.variable)),
        }
    }
}

impl Neutral for Pair {
    // no value is below itself
    ghost idle = { λ pair. pair.high ≤ pair.low };

    ghost changes_nothing = { λ pair t none law. join_nothing pair.variable pair.low pair.high t none };

    fn neutral() -> Self {
        Pair {
            variable: 0,
            low: 0,
            high: 0,
        }
    }
}
