// What can be wrong with a ring that is asked for.
ghost use Rattle.ring.specs.Faults.{ring_refusal};

use task::refusal::{Fault, Layer, Refusal};

#[derive(Clone, Copy, PartialEq, Eq, Debug)]
pub enum RingFault {
    // a ring has 1 to 32 places, and not this many
    Places(usize),
}

impl Fault for RingFault {
    ghost told = { ring_refusal };

    fn refusal(&self) -> Refusal {
        let RingFault::Places(n) = *self;
        Refusal {
            number: 20,
            layer: Layer::Reduction,
            place: (n, 0),
        }
    }
}
