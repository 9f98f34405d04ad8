// What operators do to a position, which is a slice of values: one for each variable, and 0 past its end. A slice, and no type of its own,
// so that no call asks anything of the list that it is given.
ghost use Rattle.std.specs.Prelude.{◌≡◌, Decides};
ghost use Rattle.model.specs.Tasks.{Applies, Holds, position, advanced};
ghost use Rattle.model.specs.Orders.{Least};

use crate::source::TaskSource;
use crate::words::word;
use std::array;

// The most variables that a task has.
pub const MAX_VARIABLES: usize = 32;

// Whether each value that the operator o needs is present.
pub fn applies<S: TaskSource>(source: &S, o: usize, values: &[u16]) -> bool
    ensures { Decides result (Applies (S.TaskSource.task source.now) o (position values.now)) }
{
    (0..source.variables()).all(|v| has_needed(source, o, values, v))
}

// Whether the value of v that the operator o needs is present, if it needs one.
fn has_needed<S: TaskSource>(source: &S, o: usize, values: &[u16], v: usize) -> bool
    ensures { Decides result (Holds ((S.TaskSource.task source.now).needed o v) (position values.now v)) }
{
    source.needed(o, v).is_none_or(|x| word(values, v) == x)
}

// Sets the values that the operator o makes.
pub fn advance<S: TaskSource>(source: &S, o: usize, values: &mut [u16])
    ensures { values.new ≡ advanced (S.TaskSource.task source.now) o values.old }
{
    for (v, value) in values.iter_mut().enumerate() {
        if let Some(x) = source.made(o, v) {
            *value = x;
        }
    }
}

// The size of the variable v, and 1 where the task has no such variable.
pub fn size_or_one<S: TaskSource>(source: &S, v: usize) -> u16
    ensures { result ≡ (S.TaskSource.task source.now).size v }
{
    source.size(v).unwrap_or(1)
}

// The start position.
pub fn start_position<S: TaskSource>(source: &S) -> [u16; MAX_VARIABLES]
    ensures { position result ≡ (S.TaskSource.task source.now).start }
{
    array::from_fn(|v| start_or_zero(source, v))
}

// The value of the variable v in the start position, and 0 where the task has no such variable.
fn start_or_zero<S: TaskSource>(source: &S, v: usize) -> u16
    ensures { result ≡ (S.TaskSource.task source.now).start v }
{
    source.start(v).unwrap_or(0)
}

// The lowest variable that misses its goal value, and none at a goal position. A variable and not a fault: a position may miss the goal.
pub fn missed_goal<S: TaskSource>(source: &S, values: &[u16]) -> Option<usize>
    ensures { Least (λ v. Holds ((S.TaskSource.task source.now).goal v) (position values.now v) → ⊥) result }
{
    (0..source.variables()).find(|v| misses_goal(source, values, *v))
}

// Whether the goal wants another value of v than the one that is there.
fn misses_goal<S: TaskSource>(source: &S, values: &[u16], v: usize) -> bool
    ensures { Decides result (Holds ((S.TaskSource.task source.now).goal v) (position values.now v) → ⊥) }
{
    source.goal(v).is_some_and(|x| word(values, v) != x)
}
