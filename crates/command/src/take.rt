// The command that a verb and its numbers make.
ghost use Rattle.std.specs.Prelude.{◌≡◌, if◌then◌else◌, Ok, Err, vec_items};
ghost use Rattle.std.specs.Result.{result_map_both};
ghost use Rattle.command.specs.declared.kinds.LineFault.TheVariants.{NoNumber};
ghost use Rattle.command.specs.declared.kinds.ParseError.TheVariants.{Line};
ghost use Rattle.command.specs.Commands.{narrow, all_narrow, taking, meant};
ghost use Rattle.command.specs.Faults.{IfMemorySuffices};

use crate::kinds::{Command, LineFault, ParseError, Query, Verb};
use std::alloc::Global;

// The number in 16 bits, if it fits.
fn narrow_number(number: u32) -> Result<u16, ParseError>
    ensures { result ≡ (if narrow number then Ok number else Err (Line NoNumber)) }
{
    u16::try_from(number).map_err(|_| LineFault::NoNumber.into())
}

// The numbers in 16 bits, if each of them fits.
fn narrowed(heap: Global, numbers: &[u32]) -> Result<Vec<u16>, ParseError>
    ensures { IfMemorySuffices result (λ found. result_map_both vec_items (λ fault. fault) found
        ≡ (if all_narrow numbers.now then Ok numbers.now else Err NoNumber)) }
{
    numbers.iter().map(|x| narrow_number(*x)).try_collect(heap)
}

// The command of this verb with these numbers.
pub(crate) fn command(heap: Global, verb: Verb, numbers: &[u32]) -> Result<Command, ParseError>
    ensures { IfMemorySuffices result (λ answer. meant answer ≡ taking verb numbers.now) }
{
    Ok(match (verb, numbers) {
        (Verb::Card, words) => Command::Card(narrowed(heap, words)?),
        (Verb::Ring, &[n]) => Command::Ring(n),
        (Verb::LeaveOut, &[mask]) => Command::LeaveOut(mask),
        (Verb::Join, &[variable, low, high]) => Command::Join {
            variable,
            low: narrow_number(low)?,
            high: narrow_number(high)?,
        },
        (Verb::Task, []) => Command::Ask(Query::Task),
        (Verb::Follow, operators) => Command::Ask(Query::Follow(narrowed(heap, operators)?)),
        (Verb::Image, &[variable, value]) => Command::Ask(Query::Image {
            variable,
            value: narrow_number(value)?,
        }),
        (Verb::Frame, &[mask]) => Command::Ask(Query::Frame(mask)),
        (Verb::Code, &[mask, ref values @ ..]) => Command::Ask(Query::Code {
            mask,
            values: narrowed(heap, values)?,
        }),
        (Verb::Step, &[mask, code, operator]) => Command::Ask(Query::Step {
            mask,
            code,
            operator,
        }),
        _ => return Err(LineFault::WrongCount.into()),
    })
}
