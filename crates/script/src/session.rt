// A session: the task that the commands are about, and what each line does.
ghost use Rattle.std.specs.Prelude.{◌≡◌, ◌⊎◌, IfOk, OnOk, OnErr};
ghost use Rattle.model.specs.Card.{variables, operators};
ghost use Rattle.command.specs.Commands.{saying_of, card, ring};

use crate::pile::Pile;
use crate::report;
use crate::trouble::{Trouble, declined};
use card::OwnedCard;
use command::kinds::{Command, Query};
use command::parse::parse;
use layout::fault::CardFault;
use ring::Ring;
use ring::fault::RingFault;
use stack::Stack;
use stack::layer::{Keep, Layer, Pair};
use std::alloc::Global;
use std::io;
use std::marker::Model;
use task::source::TaskSource;

#[derive(Drop)]
pub struct Session {
    heap: Global,
    pile: Option<Pile>,
}

// The contracts see what the session holds: nothing, or layers over a card or a ring.
impl Model for Session {
    ghost use Rattle.script.specs.Held.{Held, held};

    ghost Value = { Held };

    ghost view = { λ s. held s.pile };
}

impl Session {
    ghost use Rattle.script.specs.Held.{nothing};
    ghost use Rattle.script.specs.Sessions.{Tops, Becomes, Does, CarriedOut};

    pub fn new(heap: Global) -> Self
        ensures { result ≡ nothing }
    {
        Session { heap, pile: None }
    }

    // Carries out the line with this number, and prints what it did or why it did nothing.
    pub fn line<R: Print>(&mut self, rt: &R, number: usize, text: &str) -> io::Result<()>
        ensures carried_out { OnOk result (Does text.now self.old self.new) }
        ensures failed { OnErr result (Does text.now self.old self.new ⊎ (self.new ≡ self.old)) }
    {
        match self.carry_out(rt, text) {
            Ok(()) => Ok(()),
            Err(Trouble::Line(fault)) => { println!(rt; "error: line {number}: {fault}") }
            Err(Trouble::NoTask) => {
                println!(rt; "error: line {number}: no task yet: give a card or a ring first")
            }
            Err(Trouble::Declined(refusal)) => println!(rt; "declined: {refusal}"),
            Err(Trouble::Machine(e)) => Err(e),
        }
    }

    fn carry_out<R: Print>(&mut self, rt: &R, text: &str) -> Result<(), Trouble>
        ensures { CarriedOut result (Does text.now self.old self.new) (self.new ≡ self.old) }
    {
        match parse(self.heap, text)? {
            None => Ok(()),
            Some(command) => self.perform(rt, command),
        }
    }

    fn perform<R: Print>(&mut self, rt: &R, command: Command) -> Result<(), Trouble>
        ensures { CarriedOut result (Becomes self.old (saying_of command) self.new) (self.new ≡ self.old) }
    {
        match command {
            Command::Card(words) => {
                let (n, m) = self.take_card(words).map_err(declined)?;
                println!(rt; "card: {n} variables, {m} operators")?;
            }
            Command::Ring(n) => {
                self.take_ring(n as usize).map_err(declined)?;
                println!(rt; "ring: {n} variables, {n} operators")?;
            }
            Command::LeaveOut(mask) => {
                self.put(Layer::Keep(Keep { mask }))?;
                println!(rt; "leave-out: kept")?;
            }
            Command::Join {
                variable,
                low,
                high,
            } => {
                self.put(Layer::Join(Pair {
                    variable: variable as usize,
                    low,
                    high,
                }))?;
                println!(rt; "join: joined")?;
            }
            Command::Ask(query) => self.ask(rt, &query)?,
        }
        Ok(())
    }

    // Takes the words as the task, if they are a card, and answers how many variables and operators it has.
    fn take_card(&mut self, words: Vec<u16>) -> Result<(usize, usize), CardFault>
        ensures becomes { Becomes self.old (card words.items) self.new }
        ensures counts { IfOk result (λ c. c ≡ (variables words.items, operators words.items)) }
    {
        let card = OwnedCard::try_from(words)?;
        let counts = (card.variables(), card.operators());
        self.pile = Some(Pile::Card(Stack::with_layers(card, Vec::new(self.heap))));
        Ok(counts)
    }

    fn take_ring(&mut self, n: usize) -> Result<(), RingFault>
        ensures { Becomes self.old (ring n) self.new }
    {
        let ring = Ring::try_from(n)?;
        self.pile = Some(Pile::Ring(Stack::with_layers(ring, Vec::new(self.heap))));
        Ok(())
    }

    // Puts a layer on top of the task, if there is one. A match on the source here and in `ask`: a closure would have one type of pile.
    fn put(&mut self, layer: Layer) -> Result<(), Trouble>
        ensures { CarriedOut result (Tops self.old layer self.new) (self.new ≡ self.old) }
    {
        match &mut self.pile {
            None => return Err(Trouble::NoTask),
            Some(Pile::Card(pile)) => pile.put(layer)?,
            Some(Pile::Ring(pile)) => pile.put(layer)?,
        }
        Ok(())
    }

    // Asks the task.
    fn ask<R: Print>(&self, rt: &R, query: &Query) -> Result<(), Trouble> {
        match &self.pile {
            None => Err(Trouble::NoTask),
            Some(Pile::Card(pile)) => report::answer(rt, pile, query),
            Some(Pile::Ring(pile)) => report::answer(rt, pile, query),
        }
    }
}
