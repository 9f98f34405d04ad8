// A register over memory that the caller lends.
ghost use Rattle.std.specs.Prelude.{◌≡◌, ℕ, ◌≤◌, true, length, take};
ghost use Rattle.frame.specs.Held.{size_in};
ghost use Rattle.records.specs.Layout.{laid, Placed, Distinct, Counted, Sized, NoSpare};
ghost use Rattle.register.specs.Told.{told};

use checks::same::Variables;
use records::shelf::Shelf;
use shelves::verdict::Verdict;

// The first `count` records are the shelves, by their numbers, and their bytes are the first `top` bytes of the pool: the memory is lent
// and fixed, so what is taken of it is counted beside it. The variables are those of the task that was opened; before the opening there
// are none. It has no model: its contracts speak of its state and of the memory behind it.
#[derive(Drop)]
pub struct Register<'r, 'p> {
    pub(crate) records: &'r mut [Shelf],
    pub(crate) pool: &'p mut [u8],
    pub(crate) count: usize,
    pub(crate) top: usize,
    pub(crate) variables: Variables,
    pub(crate) verdict: Verdict,
    ghost room: { count ≤ length records.now },
    ghost topped: { top ≡ laid (take count records.now) },
    ghost within: { top ≤ length pool.now },
    ghost placed: { Placed records.now count },
    ghost distinct: { Distinct records.now count },
    ghost counted: { Counted variables.n records.now count },
    ghost sized: { Sized variables.sizes records.now count },
    ghost spare: { NoSpare pool.now records.now count },
    ghost beyond: { ((v : ℕ) → variables.n ≤ v → size_in variables.sizes v ≡ 1) },
    ghost told: { told verdict count ≡ true },
}
