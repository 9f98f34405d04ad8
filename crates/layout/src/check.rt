// The tests of a card's words, each of which names the lowest word at fault.
ghost use Rattle.std.specs.Prelude.{◌≡◌, ◌≤◌, ◌+◌, min, Decides, MatchResult};
ghost use Rattle.model.specs.Card.{variable_of, next_of};
ghost use Rattle.model.specs.Orders.{First};
ghost use Rattle.layout.specs.declared.fault.CardFault.TheVariants.{BadCount, BadSize, BadStart, BadLink, BadRecord, BadOrder};
ghost use Rattle.layout.specs.Wrong.{CardWrong, WrongHead, WrongNext, NoneBelow, Tries, TriesOf, Reads};
ghost use Rattle.layout.specs.Faults.{card_turn};

use crate::fault::CardFault;
use crate::words::{
    card_length, goal_at, next_of, operators, record_at, records, value_of, variable_of, variables,
};
use task::moves::MAX_VARIABLES;
use task::words::word;

const MAX_OPERATORS: usize = 1024;

const MAX_RECORDS: u16 = 8192;

const MAX_SIZE: u16 = 64;

fn check_limits(words: &[u16]) -> Result<(), CardFault>
    ensures { Tries words.now BadCount result }
{
    if !(1..=MAX_VARIABLES).contains(&variables(words)) {
        Err(CardFault::BadCount(1))
    } else if operators(words) > MAX_OPERATORS {
        Err(CardFault::BadCount(2))
    } else if records(words) > MAX_RECORDS {
        Err(CardFault::BadCount(3))
    } else {
        Ok(())
    }
}

// The version, the counts and the length.
fn check_counts(words: &[u16]) -> Result<(), CardFault>
    ensures { MatchResult result (λ _. NoneBelow words.now 5) (λ e. First card_turn (CardWrong words.now) e) }
{
    if words.len() < 4 {
        return Err(CardFault::TooShort(words.len()));
    }
    if word(words, 0) != 1 {
        return Err(CardFault::OtherVersion);
    }
    check_limits(words)?;
    if words.len() != card_length(words) {
        return Err(CardFault::WrongLength(words.len()));
    }
    Ok(())
}

// Whether a variable may have so many values.
fn is_size(size: u16) -> bool
    ensures { Decides result ((1 ≤ size) × (size ≤ 64)) }
{
    (1..=MAX_SIZE).contains(&size)
}

fn check_sizes(words: &[u16]) -> Result<(), CardFault>
    ensures { Tries words.now BadSize result }
{
    match (4..4 + variables(words)).find(|&i| !is_size(word(words, i))) {
        Some(i) => Err(CardFault::BadSize(i)),
        None => Ok(()),
    }
}

fn check_starts(words: &[u16]) -> Result<(), CardFault>
    ensures { Tries words.now BadStart result }
{
    let n = variables(words);
    match (0..n).find(|&v| word(words, 4 + n + v) >= word(words, 4 + v)) {
        Some(v) => Err(CardFault::BadStart(4 + n + v)),
        None => Ok(()),
    }
}

// The number of the record that i others come before: they are numbered from 1. The tests of records go over these i, since a walk over
// `1..=r` takes twice the time.
fn record_after(i: u16) -> u16
    ensures { result ≡ min (i + 1) 65535 }
{
    i.saturating_add(1)
}

// The heads stand side by side, the goal's first.
fn check_heads(words: &[u16]) -> Result<(), CardFault>
    ensures { TriesOf (WrongHead words.now) BadLink result }
{
    let goal = goal_at(words);
    match (goal..goal + 2 * operators(words) + 1).find(|&i| word(words, i) > records(words)) {
        Some(i) => Err(CardFault::BadLink(i)),
        None => Ok(()),
    }
}

fn check_nexts(words: &[u16]) -> Result<(), CardFault>
    ensures { TriesOf (WrongNext words.now) BadLink result }
{
    match (0..records(words)).find(|&i| next_of(words, record_after(i)) > records(words)) {
        Some(i) => Err(CardFault::BadLink(record_at(words, record_after(i)) + 2)),
        None => Ok(()),
    }
}

fn check_links(words: &[u16]) -> Result<(), CardFault>
    ensures { Tries words.now BadLink result }
{
    check_heads(words)?;
    check_nexts(words)
}

fn check_records(words: &[u16]) -> Result<(), CardFault>
    ensures { Tries words.now BadRecord result }
{
    let n = variables(words);
    let wrong = |&i: &u16| {
        let k = record_after(i);
        let v = variable_of(words, k);
        v >= n || value_of(words, k) >= word(words, 4 + v)
    };
    match (0..records(words)).find(wrong) {
        Some(i) if variable_of(words, record_after(i)) >= n => {
            Err(CardFault::BadRecord(record_at(words, record_after(i))))
        }
        Some(i) => Err(CardFault::BadRecord(record_at(words, record_after(i)) + 1)),
        None => Ok(()),
    }
}

// Whether the record k leads to one whose variable is not above its own.
fn descends(words: &[u16], k: u16) -> bool
    ensures { Decides result ((1 ≤ next_of words.now k) × (variable_of words.now (next_of words.now k) ≤ variable_of words.now k)) }
{
    let next = next_of(words, k);
    next > 0 && variable_of(words, next) <= variable_of(words, k)
}

fn check_order(words: &[u16]) -> Result<(), CardFault>
    ensures { Tries words.now BadOrder result }
{
    match (0..records(words)).find(|&i| descends(words, record_after(i))) {
        Some(i) => Err(CardFault::BadOrder(record_at(words, record_after(i)) + 2)),
        None => Ok(()),
    }
}

// All tests, in the order of their numbers.
pub fn check_words(words: &[u16]) -> Result<(), CardFault>
    ensures { Reads words.now result }
{
    check_counts(words)?;
    check_sizes(words)?;
    check_starts(words)?;
    check_links(words)?;
    check_records(words)?;
    check_order(words)
}
