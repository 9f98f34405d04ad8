// The commands of a script, and why a line is none.
ghost use Rattle.std.specs.Prelude.{◌≡◌, Some};
ghost use Rattle.std.specs.Option.{ok_or};
ghost use Rattle.command.specs.declared.kinds.LineFault.TheVariants.{NoCommand};
ghost use Rattle.command.specs.declared.kinds.ParseError.TheVariants.{Line, OutOfMemory};
ghost use Rattle.command.specs.Commands.{verb_of};
ghost use Rattle.command.specs.Faults.{fault_text};

use std::alloc::AllocError;
use std::fmt;
use std::str::FromStr;

// What a line begins with.
#[derive(Clone, Copy, PartialEq, Eq, Debug)]
pub enum Verb {
    Card,
    Ring,
    LeaveOut,
    Join,
    Task,
    Follow,
    Image,
    Frame,
    Code,
    Step,
}

impl FromStr for Verb {
    type Err = LineFault;

    ghost from_str_gives = { λ name verb. verb ≡ ok_or (verb_of name) NoCommand };

    fn from_str(name: &str) -> Result<Self, LineFault> {
        match name {
            "card" => Ok(Verb::Card),
            "ring" => Ok(Verb::Ring),
            "leave-out" => Ok(Verb::LeaveOut),
            "join" => Ok(Verb::Join),
            "task" => Ok(Verb::Task),
            "follow" => Ok(Verb::Follow),
            "image" => Ok(Verb::Image),
            "frame" => Ok(Verb::Frame),
            "code" => Ok(Verb::Code),
            "step" => Ok(Verb::Step),
            _ => Err(LineFault::NoCommand),
        }
    }
}

#[derive(PartialEq, Eq, Debug, Drop)]
pub enum Command {
    // these words are the task
    Card(Vec<u16>),
    // the ring of this many places is the task
    Ring(u32),
    // a leave-out that keeps the variables of this mask goes on top
    LeaveOut(u32),
    // a join of two values of a variable goes on top
    Join { variable: u32, low: u16, high: u16 },
    // the task is asked this, and stays as it is
    Ask(Query),
}

// What a command asks of the task.
#[derive(PartialEq, Eq, Debug, Drop)]
pub enum Query {
    // its variables and operators
    Task,
    // where these operators lead from the start
    Follow(Vec<u16>),
    // where a value of a variable of the lowest task goes
    Image { variable: u32, value: u16 },
    // the frame of this mask
    Frame(u32),
    // the code of a position in the frame of a mask
    Code { mask: u32, values: Vec<u16> },
    // where an operator leads from a code of the frame of a mask
    Step { mask: u32, code: u32, operator: u32 },
}

#[derive(Clone, Copy, PartialEq, Eq, Debug)]
pub enum LineFault {
    // the first word is no command
    NoCommand,
    // a word is no number, or one that does not fit
    NoNumber,
    // the command takes another number of numbers
    WrongCount,
}

impl fmt::Display for LineFault {
    ghost output = { λ fault. Some (fault_text fault) };

    fn fmt<W: fmt::Write>(&self, f: &mut fmt::Formatter<W>) -> fmt::Result {
        f.write_str(match *self {
            LineFault::NoCommand => "no such command",
            LineFault::NoNumber => "not a number, or one that does not fit",
            LineFault::WrongCount => "the command takes another number of numbers",
        })
    }
}

// Why no command was read from a line.
#[derive(Clone, Copy, PartialEq, Eq, Debug)]
pub enum ParseError {
    // the line is none
    Line(LineFault),
    // its numbers found no room
    OutOfMemory(AllocError),
}

impl From<LineFault> for ParseError {
    ghost from_gives = { λ fault error. error ≡ Line fault };

    fn from(fault: LineFault) -> Self {
        ParseError::Line(fault)
    }
}

impl From<AllocError> for ParseError {
    ghost from_gives = { λ full error. error ≡ OutOfMemory full };

    fn from(full: AllocError) -> Self {
        ParseError::OutOfMemory(full)
    }
}
