// Runs examples/refusals.txt: a program for each, since the gate runs a crate on one input.
#![tactic(auto)]

use script::run;
use std::io;

fn main(rt: HostRuntime) -> io::Result<()> {
    run::input(&rt)
}
