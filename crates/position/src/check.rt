// Whether a list of values is a position.
ghost use Rattle.std.specs.Prelude.{◌≤◌, Decides};
ghost use Rattle.model.specs.Orders.{Least};
ghost use Rattle.position.specs.Wrong.{Stray, Checked};

use crate::fault::PositionFault;
use task::moves::size_or_one;
use task::source::TaskSource;

// Accepts one value for each variable of the task, each below its variable's size.
pub fn check_position<S: TaskSource>(source: &S, values: &[u16]) -> Result<(), PositionFault>
    ensures { Checked (S.TaskSource.task source.now) values.now result }
{
    let n = source.variables();
    if values.len() != n {
        return Err(PositionFault::WrongCount(n));
    }
    match stray_value(source, values) {
        Some(i) => Err(PositionFault::NoSuchValue(i)),
        None => Ok(()),
    }
}

// The lowest index of a value that is not below its variable's size. The place and not the fault: that it is the least one is all that the chain has to prove.
fn stray_value<S: TaskSource>(source: &S, values: &[u16]) -> Option<usize>
    ensures { Least (Stray (S.TaskSource.task source.now) values.now) result }
{
    values
        .iter()
        .enumerate()
        .position(|(v, value)| is_stray(source, v, *value))
}

// Whether the variable v has no such value.
fn is_stray<S: TaskSource>(source: &S, v: usize, value: u16) -> bool
    ensures { Decides result ((S.TaskSource.task source.now).size v ≤ value) }
{
    value >= size_or_one(source, v)
}
