//! Deals hands in the order of the deck, so that the cards of a hand are all different.
ghost use Rattle.std.specs.Prelude.{◌<◌, ◌≤◌, IfSome};
ghost use Rattle.card_set.specs.Row.{cards_of};
ghost use Rattle.hand_counts.specs.Dealt.{AreDealt};

use crate::tally::Tally;
use card_set::{CardRow, Slot, card_at, index_in_deck, read_slots};
use hand_order::HandOrder;
use std::alloc::AllocError;

/// How many cards the deck has.
const DECK: u8 = 52;

/// Counts all hands of the order that begin with these cards and go on with cards from a place of
/// the deck.
pub fn count_hands<O: HandOrder>(
    from: u8,
    hand: CardRow,
    tally: &mut Tally,
) -> Result<(), AllocError>
    requires held { O.HELD ≤ 7 }
    requires room { hand.len ≤ O.HELD }
    requires dealt { AreDealt from (cards_of hand) }
{
    if hand.len == O::HELD {
        return tally.count(O::score(&hand));
    }
    for place in from..DECK {
        let mut next = hand;
        next.push(card_at(place));
        count_hands::<O>(place + 1, next, tally)?;
    }
    Ok(())
}

/// The hand that the text spells, with its cards in the order of the deck.
pub fn hand_of(text: &str) -> Option<CardRow>
    ensures { IfSome result (λ hand. AreDealt 52 (cards_of hand)) }
{
    let Ok(slots) = read_slots(text.as_bytes()) else {
        return None
    };
    let mut hand = CardRow::new();
    let mut from = 0;
    for slot in slots.as_slice() {
        let Slot::Known(card) = *slot else {
            return None
        };
        if index_in_deck(card) < from || hand.len >= 7 {
            return None;
        }
        hand.push(card);
        from = index_in_deck(card) + 1;
    }
    Some(hand)
}
