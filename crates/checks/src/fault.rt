// What a call of the register is declined for.
ghost use Rattle.std.specs.Prelude.{◌≡◌};
ghost use Rattle.checks.specs.declared.fault.RegisterFault.TheVariants.{Frame, Plan};
ghost use Rattle.checks.specs.Faults.{register_refusal};

use frame::fault::FrameFault;
use task::fault::PlanFault;
use task::refusal::{Fault, Layer, Refusal};

#[derive(Clone, Copy, PartialEq, Eq, Debug)]
pub enum RegisterFault {
    // the mask is no frame of the task
    Frame(FrameFault),
    // a claim has this many bytes, and its frame asks for another number
    WrongLength(usize),
    // a claim has this bit set, which stands for no code
    SpareBit(usize),
    // the operators are no plan
    Plan(PlanFault),
    // there are this many records, or bytes of pool: none, or more than the limit
    BadMemory(usize),
    // the task has another number of variables than that of the opening
    OtherCount,
    // this variable has another size than in the task of the opening
    OtherSize(usize),
    // this claimed code is not covered, and meets the goal
    MeetsGoal(usize),
    // from this claimed code, which is not covered, this operator leads to one that is neither claimed nor covered
    LeadsOut(usize, usize),
    // all of this many records are taken
    NoRecord(usize),
    // the shelves with the new one take this many bytes, and the pool has fewer
    PoolTooShort(usize),
}

// By hand, not derived: `from_gives` tells callers which fault a `?` makes.
impl From<FrameFault> for RegisterFault {
    ghost from_gives = { λ x y. y ≡ Frame x };

    fn from(e: FrameFault) -> RegisterFault {
        RegisterFault::Frame(e)
    }
}

impl From<PlanFault> for RegisterFault {
    ghost from_gives = { λ x y. y ≡ Plan x };

    fn from(e: PlanFault) -> RegisterFault {
        RegisterFault::Plan(e)
    }
}

impl Fault for RegisterFault {
    ghost told = { register_refusal };

    fn refusal(&self) -> Refusal {
        let (number, place) = match *self {
            RegisterFault::Frame(e) => return e.refusal(),
            RegisterFault::Plan(e) => return e.refusal(),
            RegisterFault::WrongLength(bytes) => (12, (bytes, 0)),
            RegisterFault::SpareBit(bit) => (13, (bit, 0)),
            RegisterFault::BadMemory(length) => (19, (length, 0)),
            RegisterFault::OtherCount => (22, (32, 0)),
            RegisterFault::OtherSize(v) => (22, (v, 0)),
            RegisterFault::MeetsGoal(code) => (23, (code, 0)),
            RegisterFault::LeadsOut(code, operator) => (24, (code, operator)),
            RegisterFault::NoRecord(records) => (25, (records, 0)),
            RegisterFault::PoolTooShort(needed) => (26, (needed, 0)),
        };
        Refusal {
            number,
            layer: Layer::Register,
            place,
        }
    }
}
