// What can be wrong with a list of operators that is to be a plan.
ghost use Rattle.task.specs.Faults.{plan_refusal};

use crate::refusal::{Fault, Layer, Refusal};

pub const MAX_PLAN: usize = 16_383;

#[derive(Clone, Copy, PartialEq, Eq, Debug)]
pub enum PlanFault {
    // there are more operators than the longest plan has
    TooLong,
    // at this index there is a number that no operator has
    NoSuchOperator(usize),
    // the operator at this index does not apply where those before it lead
    DoesNotApply(usize),
    // this variable misses its goal value at the end
    MissesGoal(usize),
}

impl Fault for PlanFault {
    ghost told = { plan_refusal };

    fn refusal(&self) -> Refusal {
        let (number, at) = match *self {
            PlanFault::TooLong => (16, MAX_PLAN),
            PlanFault::NoSuchOperator(i) => (16, i),
            PlanFault::DoesNotApply(i) => (17, i),
            PlanFault::MissesGoal(v) => (18, v),
        };
        Refusal {
            number,
            layer: Layer::Register,
            place: (at, 0),
        }
    }
}
