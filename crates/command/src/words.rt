// The words of a line as numbers.
ghost use Rattle.std.specs.Prelude.{◌≡◌, ℕ, List, vec_items};
ghost use Rattle.std.specs.Option.{ok_or};
ghost use Rattle.std.specs.Result.{result_map_both};
ghost use Rattle.std.specs.Str.{IsUtf8};
ghost use Rattle.std.specs.Str.Iter.{split_whitespace_rest};
ghost use Rattle.command.specs.declared.kinds.LineFault.TheVariants.{NoNumber};
ghost use Rattle.command.specs.declared.kinds.ParseError.TheVariants.{Line};
ghost use Rattle.command.specs.Words.{Words, numeral, numerals};
ghost use Rattle.command.specs.Faults.{IfMemorySuffices};

use crate::kinds::{LineFault, ParseError};
use std::alloc::Global;
use std::str::SplitWhitespace;

// The number of 32 bits that a word writes.
fn number(word: &str) -> Result<u32, ParseError>
    ensures { result ≡ ok_or (numeral 32 word.now) (Line NoNumber) }
{
    word.parse::<u32>().map_err(|_| LineFault::NoNumber.into())
}

// The words that are left, as numbers.
pub(crate) fn numbers(heap: Global, words: SplitWhitespace<'_>) -> Result<Vec<u32>, ParseError>
    requires { IsUtf8 (split_whitespace_rest words) }
    ensures { IfMemorySuffices result (λ found. (ws : List (List ℕ)) × Words (split_whitespace_rest words.entry) ws
        × (result_map_both vec_items (λ fault. fault) found ≡ ok_or (numerals 32 ws) NoNumber)) }
{
    words.map(number).try_collect(heap)
}
