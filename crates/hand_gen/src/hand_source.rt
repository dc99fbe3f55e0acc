//! What a hand is made from: drawn numbers, and a deck from which cards are taken.
ghost use Rattle.std.specs.Prelude.{◌≡◌, ◌<◌, ◌≤◌, ◌++◌, ◌∷◌, [], cond, OnOk, IfOk};
ghost use Rattle.card_set.specs.Row.{cards_of};
ghost use Rattle.hand_gen.specs.HandSource as stocks;

use crate::draws::{advance_number, drawn};
use card_places::DealTable;
use card_set::{Card, CardRow, Memory, TryPush, card_from_index};
use play_event::Code;
use std::alloc::Global;
use std::marker::Model;

/// The generator's number, and the cards that are left in the deck.
#[derive(Debug, Drop)]
pub struct HandSource {
    number: u64,
    deck: Vec<Card>,
}

impl Model for HandSource {
    ghost use Rattle.hand_gen.specs.HandSource.{HandSource};

    ghost Value = { HandSource };

    ghost view = { λ s. record { number = s.number; deck = s.deck.items } };
}

impl HandSource {
    /// The whole deck of a game, with the generator at this number.
    pub fn full(alloc: Global, number: u64, code: Code) -> Result<Self, Memory>
        ensures number { IfOk result (λ stock. stock.number ≡ number) }
        ensures deck { IfOk result (λ stock. stock.deck ≡ stocks.full_deck code) }
    {
        let deck = new_deck(alloc, code)?;
        Ok(HandSource { number, deck })
    }

    /// The generator's number.
    pub fn number(&self) -> u64
        ensures { result ≡ self.now.number }
    {
        self.number
    }

    /// Draws a choice among `count`, from 0 upward.
    pub fn draw(&mut self, count: u64) -> u64
        requires { 0 < count }
        ensures drawn { result ≡ stocks.draw_of count self.old }
        ensures within { result < count }
        ensures stock { self.new ≡ stocks.after_draw self.old }
    {
        self.number = advance_number(self.number);
        drawn(count, self.number)
    }

    /// Takes `count` cards.
    pub fn take_cards(&mut self, count: u8) -> CardRow
        requires { count ≤ 7 }
        ensures cards { cards_of result ≡ stocks.next_cards count self.old }
        ensures stock { self.new ≡ stocks.after_cards count self.old }
    {
        let mut cards = CardRow::new();
        for _ in 0..count {
            cards.push(self.take_card());
        }
        cards
    }

    /// Takes the next card.
    pub fn take_card(&mut self) -> Card
        ensures card { result ≡ stocks.next_card self.old }
        ensures stock { self.new ≡ stocks.after_card self.old }
    {
        self.number = advance_number(self.number);
        if self.deck.is_empty() {
            return card_from_index(0);
        }
        let place = drawn(self.deck.len() as u64, self.number) as usize;
        self.deck.remove(place)
    }
}

// The whole deck of a game.
fn new_deck(alloc: Global, code: Code) -> Result<Vec<Card>, Memory>
    ensures { IfOk result (λ deck. deck.items ≡ stocks.full_deck code) }
{
    let table = DealTable::of(code);
    let mut deck = Vec::new(alloc);
    for place in 0..52 {
        let card = card_from_index(place);
        push_if(&mut deck, table.in_deck(card), card)?;
    }
    Ok(deck)
}

// Appends a card, if the game's deck has it.
fn push_if(deck: &mut Vec<Card>, has: bool, card: Card) -> Result<(), Memory>
    ensures { OnOk result (deck.new.items ≡ deck.old.items ++ cond has (card ∷ []) []) }
{
    if has { deck.try_push(card) } else { Ok(()) }
}
