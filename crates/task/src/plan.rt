// Following a list of operators from the start, and whether it is a plan.
ghost use Rattle.std.specs.Prelude.{◌<◌, ◌≤◌, length, is_ok, Decides, slice_index};
ghost use Rattle.model.specs.Orders.{Least};
ghost use Rattle.task.specs.Plans.{Follows, Followed, Judges, Accepted};

use crate::fault::{MAX_PLAN, PlanFault};
use crate::moves::{MAX_VARIABLES, advance, applies, missed_goal, start_position};
use crate::source::TaskSource;

// The index of the first number that no operator has. The place and not the fault: that it is the least one is all that the chain has to prove.
fn unknown_operator<S: TaskSource>(source: &S, operators: &[u16]) -> Option<usize>
    ensures { Least (λ i. (i < length operators.now) × ((S.TaskSource.task source.now).m ≤ slice_index operators.now i)) result }
{
    let m = source.operators();
    operators.iter().position(|o| *o as usize >= m)
}

// The position that the operators lead to from the start, each applied in its turn.
pub fn follow<S: TaskSource>(
    source: &S,
    operators: &[u16],
) -> Result<[u16; MAX_VARIABLES], PlanFault>
    ensures reaches { Follows (S.TaskSource.task source.now) operators.now result }
    ensures exact { Decides (is_ok result) (Followed (S.TaskSource.task source.now) operators.now) }
{
    if operators.len() > MAX_PLAN {
        return Err(PlanFault::TooLong);
    }
    if let Some(i) = unknown_operator(source, operators) {
        return Err(PlanFault::NoSuchOperator(i));
    }
    let mut values = start_position(source);
    for (i, operator) in operators.iter().enumerate() {
        let o = *operator as usize;
        if !applies(source, o, &values) {
            return Err(PlanFault::DoesNotApply(i));
        }
        advance(source, o, &mut values);
    }
    Ok(values)
}

// Accepts exactly the plans of at most 16,383 operators, and answers the plan's length.
pub fn check_plan<S: TaskSource>(source: &S, operators: &[u16]) -> Result<usize, PlanFault>
    ensures judges { Judges (S.TaskSource.task source.now) operators.now result }
    ensures exact { Decides (is_ok result) (Accepted (S.TaskSource.task source.now) operators.now) }
{
    let values = follow(source, operators)?;
    match missed_goal(source, &values) {
        Some(v) => Err(PlanFault::MissesGoal(v)),
        None => Ok(operators.len()),
    }
}
