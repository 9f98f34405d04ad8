// Leave-out: a layer that keeps a set of variables.
#![tactic(auto)]

ghost use Rattle.std.specs.Prelude.{◌≡◌, [], ◌∷◌, refl};
ghost use Rattle.std.proofs.Common.{ap, ◌∙◌};
ghost use Rattle.model.specs.LeaveOut.{leave_out};
ghost use Rattle.model.specs.Stack.{keeping};
ghost use Rattle.model.proofs.LeavingOut.{leave_out_nothing};
ghost use Rattle.reduction.specs.Settings.{MaskWrong};

use reduction::coarsening::{Coarsening, Neutral, Single};
use reduction::fault::ReductionFault;
use reduction::over::Over;
use task::mask::{contains, kept, stray_variable};
use task::source::TaskSource;

// Keeps the variables of the mask: every other one has size 1, value 0, and no needed, made or goal value.
#[derive(Clone, Copy, PartialEq, Eq, Debug)]
pub struct Keep {
    pub mask: u32,
}

// The source with only the variables of a mask.
pub type LeaveOut<S> = Over<S, Keep>;

// A size and a value of a variable that is left out differ, and so have a line each.
impl Coarsening for Keep {
    ghost layers = { λ keep. keeping keep.mask ∷ [] };

    fn size(&self, v: usize, k: u16) -> u16 {
        if contains(self.mask, v) { k } else { 1 }
    }

    fn value(&self, v: usize, x: u16) -> u16 {
        if contains(self.mask, v) { x } else { 0 }
    }

    fn wanted(&self, v: usize, x: Option<u16>) -> Option<u16> {
        kept(self.mask, v, x)
    }
}

impl Single for Keep {
    ghost layering = { λ keep. keeping keep.mask };

    ghost wrong = { λ t keep. MaskWrong t keep.mask };

    ghost alone = { λ keep. refl };

    fn check<S: TaskSource>(&self, source: &S) -> Result<(), ReductionFault> {
        if self.mask == 0 {
            return Err(ReductionFault::EmptyMask);
        }
        match stray_variable(self.mask, source.variables()) {
            Some(v) => Err(ReductionFault::NoSuchVariable(v)),
            None => Ok(()),
        }
    }
}

impl Neutral for Keep {
    // a mask of all variables leaves nothing out
    ghost idle = { λ keep. keep.mask ≡ 4294967295 };

    ghost changes_nothing = { λ keep t all law. ap (λ mask. leave_out mask t) all ∙ leave_out_nothing t law };

    fn neutral() -> Self {
        Keep { mask: u32::MAX }
    }
}
