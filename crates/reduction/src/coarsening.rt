// What layers over a task make of its answers.
ghost use Rattle.std.specs.Prelude.{◌≡◌, List, [], ◌∷◌, map};
ghost use Rattle.model.specs.Tasks.{Task, Lawful};
ghost use Rattle.model.specs.Reductions.{Reduces};
ghost use Rattle.model.specs.Stack.{Layering, stack_size, stack_image, stack_wanted, stacked};
ghost use Rattle.model.proofs.Stacking.{stacked_reduces};
ghost use Rattle.reduction.specs.declared.fault.ReductionFault.{ReductionFault};
ghost use Rattle.reduction.specs.Settings.{Tests};

use crate::fault::ReductionFault;
use task::source::TaskSource;

// A layer, or a list of layers, the lowest first. It makes a coarser task of the one below by what it makes of a size, of a value, and of
// a value that may be none.
pub trait Coarsening {
    ghost layers: { Self → List Layering };

    // The size of the variable v, of k values below.
    fn size(&self, v: usize, k: u16) -> u16
        ensures { result ≡ stack_size (layers self.now) v k };

    // Where the value x of v goes.
    fn value(&self, v: usize, x: u16) -> u16
        ensures { result ≡ stack_image (layers self.now) v x };

    // The value of v that is needed, made or wanted, where the task below has this one.
    fn wanted(&self, v: usize, x: Option<u16>) -> Option<u16>
        ensures { result ≡ stack_wanted (layers self.now) v x };

    // The task that they make is a reduction of the one below.
    ghost reduces: { (l : Self) (t : Task) → Reduces t (stacked (layers l) t) (stack_image (layers l)) } = { λ l t. stacked_reduces (layers l) t };
}

// One layer, which can be tested before it is set over a task.
pub trait Single: Coarsening {
    // the layer that it is
    ghost layering: { Self → Layering };

    // what is wrong with it over a task
    ghost wrong: { Task → Self → ReductionFault → Type 0 };

    // Tests it over the source.
    fn check<S: TaskSource>(&self, source: &S) -> Result<(), ReductionFault>
        ensures { Tests (wrong (S.TaskSource.task source.now) self.now) result };

    // There is no other layer.
    ghost alone: { (l : Self) → Self.layers l ≡ layering l ∷ [] };
}

// A kind of layer of which one changes no task.
pub trait Neutral: Coarsening {
    // which ones change nothing
    ghost idle: { Self → Type 0 };

    // One that changes nothing.
    fn neutral() -> Self
        ensures { idle result };

    ghost changes_nothing: { (l : Self) (t : Task) → idle l → Lawful t → stacked (Self.layers l) t ≡ t };
}

// Layers one over the other. A fold for each question: each has a type and a clause of its own.
impl<L: Single> Coarsening for Vec<L> {
    ghost layers = { λ ls. map L.layering ls.items };

    fn size(&self, v: usize, k: u16) -> u16 {
        self.iter().fold(
            k,
            |k, layer| -> u16
                ensures { result ≡ stack_size (L.layers layer.now) v k }
            { layer.size(v, k) },
        )
    }

    fn value(&self, v: usize, x: u16) -> u16 {
        self.iter().fold(
            x,
            |x, layer| -> u16
                ensures { result ≡ stack_image (L.layers layer.now) v x }
            { layer.value(v, x) },
        )
    }

    fn wanted(&self, v: usize, x: Option<u16>) -> Option<u16> {
        self.iter().fold(
            x,
            |x, layer| -> Option<u16>
                ensures { result ≡ stack_wanted (L.layers layer.now) v x }
            { layer.wanted(v, x) },
        )
    }
}
