// What can be wrong with a leave-out or a join that is asked for.
ghost use Rattle.std.specs.Prelude.{◌≡◌};
ghost use Rattle.reduction.specs.Faults.{reduction_refusal};
ghost use Rattle.reduction.specs.declared.fault.PutError.TheVariants.{Declined, OutOfMemory};

use std::alloc::{AllocError, AllocFailed};
use task::refusal::{Fault, Layer, Refusal};

#[derive(Clone, Copy, PartialEq, Eq, Debug)]
pub enum ReductionFault {
    // no variable is to be kept
    EmptyMask,
    // this variable is to be kept, and the task has none of this number
    NoSuchVariable(usize),
    // the task has no variable of this number, or not two such values of it
    BadJoin(usize),
}

// A table of its own: number, layer and place of each fault stand beside its meaning.
impl Fault for ReductionFault {
    ghost told = { reduction_refusal };

    fn refusal(&self) -> Refusal {
        let (number, at) = match *self {
            ReductionFault::EmptyMask => (10, 32),
            ReductionFault::NoSuchVariable(v) => (10, v),
            ReductionFault::BadJoin(v) => (20, v),
        };
        Refusal {
            number,
            layer: Layer::Reduction,
            place: (at, 0),
        }
    }
}

// Why a layer does not go on top of others.
#[derive(Clone, Copy, PartialEq, Eq, Debug)]
pub enum PutError {
    Declined(ReductionFault),
    OutOfMemory(AllocError),
}

impl From<ReductionFault> for PutError {
    ghost from_gives = { λ fault e. e ≡ Declined fault };

    fn from(fault: ReductionFault) -> PutError {
        PutError::Declined(fault)
    }
}

impl<T: Drop> From<AllocFailed<T>> for PutError {
    ghost from_gives = { λ _ e. e ≡ OutOfMemory (record {}) };

    fn from(_refused: AllocFailed<T>) -> PutError {
        PutError::OutOfMemory(AllocError)
    }
}
