// The task of a session.
use card::OwnedCard;
use ring::Ring;
use stack::Stack;

// Leave-outs and joins, in a pile over a card or a ring.
#[derive(Drop)]
pub enum Pile {
    Card(Stack<OwnedCard>),
    Ring(Stack<Ring>),
}
