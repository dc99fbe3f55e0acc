//! Tells unknown cards from known ones, and collects the known cards of a row of slots.
ghost use Rattle.std.specs.Prelude.{◌≡◌, ◌≤◌, ◌<◌, ◌+◌, [], ◌∷◌, ◌++◌};
ghost use Rattle.std.specs.List.{list_any};
ghost use Rattle.card_set.specs.declared.row.TheConstants.{ROW_ENTRIES};
ghost use Rattle.card_set.specs.Row.{cards_of, slots_of};
ghost use Rattle.card_set.specs.Known.{hides_card, known_among};

use crate::card::Slot;
use crate::row::{CardRow, SlotRow};

impl Slot {
    /// Whether the card is unknown.
    pub fn is_unknown(self) -> bool
        ensures { result ≡ hides_card self }
    {
        match self {
            Slot::Known(_) => false,
            Slot::Unknown => true,
        }
    }
}

impl SlotRow {
    /// Whether one of the cards is unknown.
    pub fn has_unknown(&self) -> bool
        ensures { result ≡ list_any hides_card (slots_of self.now) }
    {
        for slot in self.as_slice() {
            if slot.is_unknown() {
                return true;
            }
        }
        false
    }

    /// The known cards, in order.
    #[tactic(auto, using(crate::proofs::KnownCards::one_known_more))]
    pub fn known_cards(&self) -> CardRow
        ensures { cards_of result ≡ known_among (slots_of self.now) }
    {
        let mut cards = CardRow::new();
        for slot in self.as_slice() {
            cards = with_known(cards, *slot);
        }
        cards
    }
}

// The cards, and one more if it is known.
fn with_known(cards: CardRow, slot: Slot) -> CardRow
    requires { cards.len < ROW_ENTRIES }
    ensures cards { cards_of result ≡ cards_of cards ++ known_among (slot ∷ []) }
    ensures longer { result.len ≤ cards.len + 1 }
{
    match slot {
        Slot::Known(card) => {
            let mut more = cards;
            more.push(card);
            more
        }
        Slot::Unknown => cards,
    }
}
