// Whether a task is of the variables and sizes that were opened.
ghost use Rattle.std.specs.Prelude.{◌≡◌, ◌<◌, ◌≢◌, Decides};
ghost use Rattle.model.specs.Orders.{Least};
ghost use Rattle.frame.specs.Held.{size_in};
ghost use Rattle.checks.specs.Wrong.{Checks, TaskWrong};

use crate::fault::RegisterFault;
use frame::measure::sizes_of;
use task::moves::{MAX_VARIABLES, size_or_one};
use task::source::TaskSource;

// Whether the variable v has another size than this.
fn is_other<S: TaskSource>(source: &S, v: usize, size: u16) -> bool
    ensures { Decides result (size ≢ (S.TaskSource.task source.now).size v) }
{
    size != size_or_one(source, v)
}

// How many variables a task has, and their sizes: a list in fixed memory, as that of a frame.
#[derive(Clone, Copy, PartialEq, Eq, Debug)]
pub struct Variables {
    pub n: usize,
    pub sizes: [u16; MAX_VARIABLES],
}

impl Variables {
    // Those of the task; past them each size is 1.
    pub fn of<S: TaskSource>(source: &S) -> Variables
        ensures n { result.n ≡ (S.TaskSource.task source.now).n }
        ensures sizes { size_in result.sizes ≡ (S.TaskSource.task source.now).size }
    {
        Variables {
            n: source.variables(),
            sizes: sizes_of(source),
        }
    }

    // The lowest variable whose size differs. The place and not the fault: that it is the least one is all that the chain has to prove.
    fn other_size<S: TaskSource>(&self, source: &S) -> Option<usize>
        ensures { Least (λ v. (v < (S.TaskSource.task source.now).n) × (size_in self.now.sizes v ≢ (S.TaskSource.task source.now).size v)) result }
    {
        self.sizes[..source.variables()]
            .iter()
            .enumerate()
            .position(|(v, size)| is_other(source, v, *size))
    }

    // Accepts a task with this many variables of these sizes.
    pub fn check<S: TaskSource>(&self, source: &S) -> Result<(), RegisterFault>
        ensures { Checks (TaskWrong (S.TaskSource.task source.now) self.now.n (size_in self.now.sizes)) result }
    {
        if source.variables() != self.n {
            return Err(RegisterFault::OtherCount);
        }
        match self.other_size(source) {
            Some(v) => Err(RegisterFault::OtherSize(v)),
            None => Ok(()),
        }
    }
}
