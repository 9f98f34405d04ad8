// From a line of text to a command.
ghost use Rattle.std.specs.Prelude.{◌≡◌, ℕ, List};
ghost use Rattle.std.specs.Option.{option_map};
ghost use Rattle.std.specs.Result.{result_transpose};
ghost use Rattle.command.specs.Words.{Words, BeforeComment};
ghost use Rattle.command.specs.Commands.{says, meant};
ghost use Rattle.command.specs.Faults.{IfMemorySuffices};

use crate::kinds::{Command, ParseError, Verb};
use crate::take::command;
use crate::words::numbers;
use std::alloc::Global;

// What the line has before its comment.
fn before_comment(line: &str) -> &str
    ensures { BeforeComment line.now result.now }
{
    line.split_once('#').map_or(line, |(text, _)| text)
}

// The command of a line, and none where the line is blank or only a comment.
pub fn parse(heap: Global, line: &str) -> Result<Option<Command>, ParseError>
    ensures { IfMemorySuffices result (λ answer. (text : List ℕ) × (ws : List (List ℕ))
        × BeforeComment line.now text × Words text ws × (option_map meant (result_transpose answer) ≡ says ws)) }
{
    let mut words = before_comment(line).split_whitespace();
    let Some(name) = words.next() else {
        return Ok(None);
    };
    let verb = name.parse::<Verb>()?;
    let numbers = numbers(heap, words)?;
    Ok(Some(command(heap, verb, &numbers)?))
}
