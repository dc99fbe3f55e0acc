//! Starts without cards, appends dealt cards and counts them.
ghost use Rattle.std.specs.Prelude.{◌≡◌, ◌≤◌, ◌<◌, ◌+◌, ◌++◌, ◌∷◌, [], length, count_by, map, take};
ghost use Rattle.play_event.specs.Places.{is_in_group, places_dealt};
ghost use Rattle.play_event.specs.Held.{is_held};
ghost use Rattle.card_places.specs.Placed.{placed};
ghost use Rattle.card_places.specs.Plain.{place_of};
ghost use Rattle.chip_ledger.specs.SeatsSaid.{seat_said};

use crate::dealt_card::DealtCard;
use crate::dealt_cards::{DealtCards, MOST_CARDS};
use card_set::{Card, Rank, Slot, Suit};
use chip_ledger::Seat;

impl DealtCards {
    /// No cards yet. Unused rows consist of zero bytes, so that all of them are cleared at once.
    pub fn new() -> Self
        ensures { placed result ≡ [] }
    {
        let none = DealtCard {
            owner: None,
            street: 0,
            index: 0,
            number: 0,
            slot: Slot::Known(Card {
                rank: Rank::Two,
                suit: Suit::C,
            }),
            past_deck: false,
            gone_after: None,
            discarded: 0,
        };
        DealtCards {
            count: 0,
            rows: [none; 120],
        }
    }

    /// The cards.
    pub fn as_slice(&self) -> &[DealtCard]
        ensures cards { result.now ≡ take self.now.count self.now.rows }
        ensures placed { map place_of result.now ≡ placed self.now }
        ensures length { length result.now ≡ self.now.count }
    {
        &self.rows[..self.count as usize]
    }

    /// The number of cards of the owner that are not gone.
    pub fn held(&self, owner: Option<Seat>) -> u8
        ensures { result ≡ count_by (is_held (seat_said owner)) (placed self.now) }
    {
        let mut count: u8 = 0;
        for card in &self.rows[..self.count as usize] {
            if card.held_by(owner) {
                count += 1;
            }
        }
        count
    }

    /// Deals cards to an owner.
    pub fn put(&mut self, owner: Option<Seat>, street: u8, past_deck: bool, cards: &[Slot])
        requires { self.old.count + length cards.now ≤ 120 }
        ensures { placed self.new ≡ placed self.old
            ++ places_dealt (seat_said owner) street past_deck
            (count_by (is_in_group (seat_said owner) street) (placed self.old))
            (length (placed self.old)) cards.now }
    {
        let mut index = self.in_group(owner, street);
        for slot in cards {
            let number = self.count;
            self.push(DealtCard {
                owner,
                street,
                index,
                number,
                slot: *slot,
                past_deck,
                gone_after: None,
                discarded: 0,
            });
            index += 1;
        }
    }

    /// The number of cards of the street that the owner was dealt.
    pub fn in_group(&self, owner: Option<Seat>, street: u8) -> u8
        ensures value { result ≡ count_by (is_in_group (seat_said owner) street) (placed self.now) }
        ensures bounded { result ≤ self.now.count }
    {
        let mut count: u8 = 0;
        for card in &self.rows[..self.count as usize] {
            if card.in_group(owner, street) {
                count += 1;
            }
        }
        count
    }

    /// Appends a card.
    pub fn push(&mut self, card: DealtCard)
        requires { self.old.count < MOST_CARDS }
        ensures places { placed self.new ≡ placed self.old ++ place_of card ∷ [] }
        ensures count { self.new.count ≡ self.old.count + 1 }
    {
        self.rows[self.count as usize] = card;
        self.count += 1;
    }
}
