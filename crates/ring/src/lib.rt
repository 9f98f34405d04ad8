// The ring of n as a task source.
#![tactic(auto)]

ghost use Rattle.std.specs.Prelude.{◌≡◌, ◌≤◌, MatchResult};
ghost use Rattle.model.specs.Ring.{ring};
ghost use Rattle.model.proofs.RingFacts.{ring_lawful};
ghost use Rattle.ring.specs.declared.fault.RingFault.TheVariants.{Places};

use fault::RingFault;
use task::moves::MAX_VARIABLES;
use task::source::TaskSource;

pub mod fault;

// A ring of 1 to 32 variables: operator i passes the value 1 on from variable i to the next one around, and nothing starts at 1.
// Ghost fields, and no `impl Model`: the law of its task needs the bounds of each value, which a number alone does not carry.
#[derive(Clone, Copy)]
pub struct Ring {
    n: usize,
    ghost low: { 1 ≤ n },
    ghost high: { n ≤ 32 },
}

impl Ring {
    // The ring of 1.
    pub fn new() -> Self
        ensures { result.n ≡ 1 }
    {
        Ring { n: 1 }
    }

    // Makes it the ring of n. Declined, it stays as it was.
    pub fn set(&mut self, n: usize) -> Result<(), RingFault>
        ensures { MatchResult result (λ _. self.new.n ≡ n) (λ e. (e ≡ Places n) × ((1 ≤ n) × (n ≤ 32) → ⊥) × (self.new ≡ self.old)) }
    {
        *self = Ring::try_from(n)?;
        Ok(())
    }
}

// The ring of n, if it is one.
impl TryFrom<usize> for Ring {
    type Error = RingFault;

    ghost try_from_gives = { λ n r. MatchResult r (λ s. s.n ≡ n) (λ e. (e ≡ Places n) × ((1 ≤ n) × (n ≤ 32) → ⊥)) };

    fn try_from(n: usize) -> Result<Self, RingFault> {
        if (1..=MAX_VARIABLES).contains(&n) {
            Ok(Ring { n })
        } else {
            Err(RingFault::Places(n))
        }
    }
}

// Each question is answered by itself, as the interface asks it, also where two answers are alike.
impl TaskSource for Ring {
    ghost task = { λ s. ring s.n };

    ghost lawful = { λ s. ring_lawful s.n s.low s.high };

    fn variables(&self) -> usize {
        self.n
    }

    fn size(&self, v: usize) -> Option<u16> {
        (v < self.variables()).then_some(2)
    }

    fn operators(&self) -> usize {
        self.variables()
    }

    fn needed(&self, o: usize, v: usize) -> Option<u16> {
        (o < self.operators() && v == o).then_some(1)
    }

    fn made(&self, o: usize, v: usize) -> Option<u16> {
        (o < self.operators() && v == (o + 1) % self.variables()).then_some(1)
    }

    fn start(&self, v: usize) -> Option<u16> {
        (v < self.variables()).then_some(0)
    }

    fn goal(&self, v: usize) -> Option<u16> {
        (v == 0).then_some(1)
    }
}
