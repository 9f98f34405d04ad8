// The program: carries out a script from standard input, or from the file that its argument names.
#![tactic(auto)]

use script::run;
use std::env;

const HELP: &str = "usage: jilmourn [FILE]

Carries out the commands of FILE, or of standard input, one a line, and prints what each did.
Blank lines are skipped, and so is what follows a '#'. Numbers are decimal.

  card W W ..     read these 16-bit words as a card; its task is the task from then on
  ring N          the task is the ring of N places, 1 to 32
  leave-out MASK  keep just the variables of this 32-bit mask, bit V for variable V
  join V A B      make the values A < B of variable V one
  task            show the task: a line for each variable and for each operator
  follow O O ..   follow these operators from the start, and show the position that each leads to;
                  step I is the operator at index I, counted from 0
  image V X       where value X of variable V of the card or ring goes in the task
  frame MASK      the size and the variables of the frame of this mask
  code MASK X ..  the code, in that frame, of the position with these values, one for each variable
  step MASK C O   the code that operator O leads to from code C of that frame

Leave-outs and joins go on top of each other. A card or a ring starts anew.
A refusal prints 'declined: NUMBER LAYER at (P, Q)' and changes nothing.
A line that is no command prints 'error: line I: ..', and the run goes on.
docs/SPECIFICATION.md has the rules, the layout of a card and all refusals.";

fn main(rt: HostRuntime) -> anyhow::Result<()> {
    run_script(&rt)
}

fn run_script(rt: &HostRuntime) -> anyhow::Result<()> {
    let mut args = env::args(rt)?;
    let _ = args.next();
    match args.next() {
        None => run::input(rt)?,
        Some(name) => match name.as_str() {
            "--help" => println!(rt; "{HELP}")?,
            file => run::file(rt, file)?,
        },
    }
    Ok(())
}
