// Where the words of a card stand, and the walk along a chain. A word past the end reads as 0.
// Records are told by their numbers, as the card's format has it: a card is read where it lies, and takes no heap.
// Functions of the slice, not methods of a view: the view would hold the slice alone, and what they answer is a function of the list.
ghost use Rattle.std.specs.Prelude.{◌≡◌};
ghost use Rattle.model.specs.Card.{variables, operators, records, goal_at, record_at, card_length};
ghost use Rattle.model.specs.Card.{variable_of, value_of, next_of, chain, value_in, chained};

use task::words::word;

pub fn variables(words: &[u16]) -> usize
    ensures { result ≡ variables words.now }
{
    word(words, 1) as usize
}

pub fn operators(words: &[u16]) -> usize
    ensures { result ≡ operators words.now }
{
    word(words, 2) as usize
}

pub(crate) fn records(words: &[u16]) -> u16
    ensures { result ≡ records words.now }
{
    word(words, 3)
}

// The goal's head.
pub fn goal_at(words: &[u16]) -> usize
    ensures { result ≡ goal_at words.now }
{
    4 + 2 * variables(words)
}

// The first word of the record k.
pub(crate) fn record_at(words: &[u16], k: u16) -> usize
    ensures { result ≡ record_at words.now k }
{
    goal_at(words) + 1 + 2 * operators(words) + 3 * (k.saturating_sub(1) as usize)
}

// How many words the counts ask for.
pub(crate) fn card_length(words: &[u16]) -> usize
    ensures { result ≡ card_length words.now }
{
    goal_at(words) + 1 + 2 * operators(words) + 3 * (records(words) as usize)
}

// A function for each word of a record, by the word's name. A variable is an index, the others are words.
pub(crate) fn variable_of(words: &[u16], k: u16) -> usize
    ensures { result ≡ variable_of words.now k }
{
    word(words, record_at(words, k)) as usize
}

pub(crate) fn value_of(words: &[u16], k: u16) -> u16
    ensures { result ≡ value_of words.now k }
{
    word(words, record_at(words, k) + 1)
}

pub(crate) fn next_of(words: &[u16], k: u16) -> u16
    ensures { result ≡ next_of words.now k }
{
    word(words, record_at(words, k) + 2)
}

// The value of v among the first `most` records of the chain at `first`.
fn walk(words: &[u16], first: u16, most: usize, v: usize) -> Option<u16>
    ensures { result ≡ value_in words.now (chain most words.now first) v }
{
    // A loop, not a chain of iterators: it takes less time.
    let mut k = first;
    for _step in 0..most {
        if k == 0 {
            return None;
        }
        if variable_of(words, k) == v {
            return Some(value_of(words, k));
        }
        k = next_of(words, k);
    }
    None
}

// The value of v in the chain whose head stands at `head`. A chain has at most as many records as there are variables.
pub fn chained(words: &[u16], head: usize, v: usize) -> Option<u16>
    ensures { result ≡ chained words.now head v }
{
    walk(words, word(words, head), variables(words), v)
}
