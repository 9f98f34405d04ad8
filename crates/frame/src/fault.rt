// What can be wrong with a mask that is to be a frame.
ghost use Rattle.frame.specs.Faults.{frame_refusal};

use task::refusal::{Fault, Layer, Refusal};

#[derive(Clone, Copy, PartialEq, Eq, Debug)]
pub enum FrameFault {
    // the mask has no variable
    EmptyMask,
    // it has this variable, and the task has none of this number
    NoSuchVariable(usize),
    // the product of the sizes passes 16,384 at this variable
    TooLarge(usize),
}

// A table of its own: number, layer and place of each fault stand beside its meaning.
impl Fault for FrameFault {
    ghost told = { frame_refusal };

    fn refusal(&self) -> Refusal {
        let (number, at) = match *self {
            FrameFault::EmptyMask => (10, 32),
            FrameFault::NoSuchVariable(v) => (10, v),
            FrameFault::TooLarge(v) => (11, v),
        };
        Refusal {
            number,
            layer: Layer::Frame,
            place: (at, 0),
        }
    }
}
