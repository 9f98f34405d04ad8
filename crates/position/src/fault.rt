// What can be wrong with a list of values that is to be a position.
ghost use Rattle.position.specs.Faults.{position_refusal};

use task::refusal::{Fault, Layer, Refusal};

#[derive(Clone, Copy, PartialEq, Eq, Debug)]
pub enum PositionFault {
    // the task has this many variables, and the list another number of values
    WrongCount(usize),
    // the value at this index is not below its variable's size
    NoSuchValue(usize),
}

impl Fault for PositionFault {
    ghost told = { position_refusal };

    fn refusal(&self) -> Refusal {
        let at = match *self {
            PositionFault::WrongCount(n) => n,
            PositionFault::NoSuchValue(i) => i,
        };
        Refusal {
            number: 15,
            layer: Layer::Register,
            place: (at, 0),
        }
    }
}
