// Why a line was not carried out.
ghost use Rattle.std.specs.Prelude.{◌≡◌};
ghost use Rattle.task.specs.declared.refusal.Refusal.{Refusal};
ghost use Rattle.script.specs.declared.trouble.Trouble.TheVariants.{Declined, Machine};

use command::kinds::{LineFault, ParseError};
use reduction::fault::PutError;
use std::alloc::AllocError;
use std::io;
use task::refusal::{Fault, Refusal};

#[derive(Drop)]
pub enum Trouble {
    // the line is no command
    Line(LineFault),
    // the command is about a task, and there is none yet
    NoTask,
    // the call was declined
    Declined(Refusal),
    // input, output or memory failed
    Machine(io::Error),
}

// A call that was declined, whatever its faults are.
pub fn declined<F: Fault + Drop>(fault: F) -> Trouble
    ensures { result ≡ Declined (F.told fault) }
{
    Trouble::Declined(fault.refusal())
}

impl From<ParseError> for Trouble {
    ghost use Rattle.script.specs.Troubles.{unread};

    ghost from_gives = { λ e t. unread e t };

    fn from(e: ParseError) -> Trouble {
        match e {
            ParseError::Line(fault) => Trouble::Line(fault),
            ParseError::OutOfMemory(full) => full.into(),
        }
    }
}

impl From<PutError> for Trouble {
    ghost use Rattle.script.specs.Troubles.{not_put};

    ghost from_gives = { λ e t. not_put e t };

    fn from(e: PutError) -> Trouble {
        match e {
            PutError::Declined(fault) => declined(fault),
            PutError::OutOfMemory(full) => full.into(),
        }
    }
}

impl From<io::Error> for Trouble {
    ghost from_gives = { λ x y. y ≡ Machine x };

    fn from(e: io::Error) -> Trouble {
        Trouble::Machine(e)
    }
}

impl From<AllocError> for Trouble {
    ghost use Rattle.script.specs.Troubles.{full};

    ghost from_gives = { λ _ t. full t };

    fn from(e: AllocError) -> Trouble {
        Trouble::Machine(e.into())
    }
}
