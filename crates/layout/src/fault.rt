// What can be wrong with the words of a card.
ghost use Rattle.layout.specs.Faults.{card_refusal};

use task::refusal::{Fault, Layer, Refusal};

#[derive(Clone, Copy, PartialEq, Eq, Debug)]
pub enum CardFault {
    // there are only this many words, fewer than four
    TooShort(usize),
    // the version is not 1
    OtherVersion,
    // the count at this word is out of its limits
    BadCount(usize),
    // there are this many words, and the counts ask for another number
    WrongLength(usize),
    // the size at this word is not 1 to 64
    BadSize(usize),
    // the start value at this word is not below its variable's size
    BadStart(usize),
    // the head or next at this word is above the number of records
    BadLink(usize),
    // the variable at this word is none of the task's, or the value at it none of its variable's
    BadRecord(usize),
    // the next at this word leads to a record whose variable is not above
    BadOrder(usize),
}

impl Fault for CardFault {
    ghost told = { card_refusal };

    fn refusal(&self) -> Refusal {
        let (number, at) = match *self {
            CardFault::TooShort(words) => (1, words),
            CardFault::OtherVersion => (2, 0),
            CardFault::BadCount(i) => (3, i),
            CardFault::WrongLength(words) => (4, words),
            CardFault::BadSize(i) => (5, i),
            CardFault::BadStart(i) => (6, i),
            CardFault::BadLink(i) => (7, i),
            CardFault::BadRecord(i) => (8, i),
            CardFault::BadOrder(i) => (9, i),
        };
        Refusal {
            number,
            layer: Layer::Card,
            place: (at, 0),
        }
    }
}
