// A card as a task source.
#![tactic(auto)]

ghost use Rattle.std.specs.Prelude.{◌≡◌, [], ◌∷◌, IfOk, MatchResult};
ghost use Rattle.model.specs.Card.{card, operators, needed_at, IsCard};
ghost use Rattle.model.specs.Tasks.{below};
ghost use Rattle.model.proofs.CardFacts.{card_lawful};
ghost use Rattle.layout.specs.Wrong.{Reads};

use layout::check::check_words;
use layout::fault::CardFault;
use layout::words::{chained, goal_at, operators, variables};
use std::convert::AsSlice;
use task::source::TaskSource;
use task::words::word;

// Words that are a card, held by someone else or by the card itself.
#[derive(Drop)]
pub struct Card<W: AsSlice<u16>> {
    words: W,
    ghost is_card: { IsCard (W.items words) },
}

// A card that holds its own words.
pub type OwnedCard = Card<Vec<u16>>;

impl<'a> Card<&'a [u16]> {
    // The card of one variable with one value, and no operator.
    pub fn new() -> Self
        ensures { result.words.now ≡ (1 ∷ 1 ∷ 0 ∷ 0 ∷ 1 ∷ 0 ∷ 0 ∷ []) }
    {
        Card {
            words: &[1, 1, 0, 0, 1, 0, 0],
        }
    }
}

// The words as a card, if nothing is wrong with them.
impl<W: AsSlice<u16> + Drop> TryFrom<W> for Card<W> {
    type Error = CardFault;

    ghost try_from_gives = { λ words answer. Reads (W.items words) answer × IfOk answer (λ card. card.words ≡ words) };

    fn try_from(words: W) -> Result<Self, CardFault> {
        check_words(words.as_slice())?;
        Ok(Card { words })
    }
}

impl<W: AsSlice<u16> + Drop> Card<W> {
    // Takes the words as this card, if nothing is wrong with them. Declined, it stays as it was. As short as `Ring::set`, and over a field of
    // its own: a trait for the two would be longer than both.
    pub fn read(&mut self, words: W) -> Result<(), CardFault>
        ensures reads { Reads (W.items words) result }
        ensures held { MatchResult result (λ _. self.new.words ≡ words) (λ _. self.new ≡ self.old) }
    {
        *self = Card::try_from(words)?;
        Ok(())
    }
}

impl<W: AsSlice<u16>> Card<W> {
    // The same card, over words that are lent.
    pub fn view(&self) -> Card<&[u16]>
        ensures { result.words.now ≡ W.items self.now.words }
    {
        Card {
            words: self.words.as_slice(),
        }
    }

    // Where the two heads of the operator o stand, that of its needed values first.
    fn heads_at(&self, o: usize) -> Option<usize>
        ensures { result ≡ below o (operators (W.items self.now.words)) (needed_at (W.items self.now.words) o) }
    {
        let words = self.words.as_slice();
        (o < operators(words)).then(|| goal_at(words) + 1 + 2 * o)
    }
}

impl<W: AsSlice<u16>> TaskSource for Card<W> {
    ghost task = { λ s. card (W.items s.words) };

    ghost lawful = { λ s. let c = s.is_card in card_lawful (W.items s.words) c.counts c.sizes c.starts c.heads c.nexts c.records };

    fn variables(&self) -> usize {
        variables(self.words.as_slice())
    }

    fn size(&self, v: usize) -> Option<u16> {
        let words = self.words.as_slice();
        (v < variables(words)).then(|| word(words, 4 + v))
    }

    fn operators(&self) -> usize {
        operators(self.words.as_slice())
    }

    fn needed(&self, o: usize, v: usize) -> Option<u16> {
        chained(self.words.as_slice(), self.heads_at(o)?, v)
    }

    fn made(&self, o: usize, v: usize) -> Option<u16> {
        chained(self.words.as_slice(), self.heads_at(o)? + 1, v)
    }

    fn start(&self, v: usize) -> Option<u16> {
        let words = self.words.as_slice();
        let n = variables(words);
        (v < n).then(|| word(words, 4 + n + v))
    }

    fn goal(&self, v: usize) -> Option<u16> {
        let words = self.words.as_slice();
        chained(words, goal_at(words), v)
    }
}
