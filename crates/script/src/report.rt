// What the commands print that ask something of the task.
use crate::frames;
use crate::trouble::{Trouble, declined};
use command::kinds::Query;
use reduction::interface::{Reduction, image_of};
use std::io;
use task::moves::{advance, missed_goal, size_or_one, start_position};
use task::plan::follow;
use task::source::TaskSource;

// A match, not a call that is handed on: what a line asks is data until it is known over which pile.
pub fn answer<R: Print, P: Reduction>(rt: &R, pile: &P, query: &Query) -> Result<(), Trouble> {
    match query {
        Query::Task => show(rt, pile)?,
        Query::Follow(operators) => follow_list(rt, pile, operators.as_slice())?,
        Query::Image { variable, value } => match image_of(pile, *variable as usize, *value) {
            Some(y) => println!(rt; "image: {y}")?,
            None => println!(rt; "image: none")?,
        },
        Query::Frame(mask) => frames::show(rt, pile, *mask)?,
        Query::Code { mask, values } => frames::code(rt, pile, *mask, values.as_slice())?,
        Query::Step {
            mask,
            code,
            operator,
        } => frames::step(rt, pile, *mask, *code as usize, *operator as usize)?,
    }
    Ok(())
}

// A line for each variable and each operator.
fn show<R: Print, S: TaskSource>(rt: &R, source: &S) -> io::Result<()> {
    let n = source.variables();
    let m = source.operators();
    println!(rt; "task: {n} variables, {m} operators")?;
    // Loops, not chains: each turn prints, and an error ends them.
    for v in 0..n {
        variable(rt, source, v)?;
    }
    for o in 0..m {
        print!(rt; "operator {o}: needs")?;
        wanted(rt, n, |v| source.needed(o, v), ", makes")?;
        wanted(rt, n, |v| source.made(o, v), "\n")?;
    }
    Ok(())
}

fn variable<R: Print, S: TaskSource>(rt: &R, source: &S, v: usize) -> io::Result<()> {
    let size = size_or_one(source, v);
    let start = source.start(v).unwrap_or(0);
    // The line whole, since each print is a write.
    match source.goal(v) {
        Some(x) => println!(rt; "variable {v}: size {size}, start {start}, goal {x}"),
        None => println!(rt; "variable {v}: size {size}, start {start}"),
    }
}

// The values that there are of n variables, and what ends their list.
fn wanted<R: Print, F: Fn(usize) -> Option<u16>>(
    rt: &R,
    n: usize,
    value: F,
    end: &str,
) -> io::Result<()>
    requires { F.IsAlwaysCallable value }
{
    let mut values = (0..n).filter_map(|v| Some((v, value(v)?))).peekable();
    if values.peek().is_none() {
        return print!(rt; " nothing{end}");
    }
    for (v, x) in values {
        print!(rt; " v{v}={x}")?;
    }
    print!(rt; "{end}")
}

// How the operators go, and the position that each of them leads to.
fn follow_list<R: Print, S: TaskSource>(
    rt: &R,
    source: &S,
    operators: &[u16],
) -> Result<(), Trouble> {
    let reached = follow(source, operators).map_err(declined)?;
    let steps = operators.len();
    let goal = match missed_goal(source, &reached) {
        None => "reached",
        Some(_) => "missed",
    };
    println!(rt; "follow: {steps} steps, goal {goal}")?;
    let mut values = start_position(source);
    for (i, o) in operators.iter().enumerate() {
        advance(source, *o as usize, &mut values);
        print!(rt; "step {i}: operator {o}:")?;
        for x in values.iter().take(source.variables()) {
            print!(rt; " {x}")?;
        }
        println!(rt; "")?;
    }
    Ok(())
}
