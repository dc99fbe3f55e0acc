//! Rows of up to seven entries. After them a row has only fillers, so two rows with the same
//! entries are equal.
ghost use Rattle.std.specs.Prelude.{◌≡◌, ℕ, ◌+◌, ◌<◌, ◌≤◌, [], ◌∷◌, ◌++◌, length, slice_get, Some};
ghost use Rattle.card_set.specs.Filler.{filler_card, filler_slot};

use crate::card::{Card, Rank, Slot, Suit};

/// The number of entries that a row has room for: the most cards that a seat ever holds.
pub const ROW_ENTRIES: u8 = 7;

/// Slots in order: the first `len` of `slots`. The other entries are unknown slots.
#[derive(Clone, Copy, Debug, PartialEq, Eq)]
pub struct SlotRow {
    pub len: u8,
    pub slots: [Slot; 7],
    ghost fits: { len ≤ 7 },
    ghost entries: { length slots ≡ 7 },
    ghost filled: { (k : ℕ) → len ≤ k → k < 7 → slice_get slots k ≡ Some filler_slot },
}

/// Known cards in order: the first `len` of `cards`. The other entries are the two of clubs.
#[derive(Clone, Copy, Debug, PartialEq, Eq)]
pub struct CardRow {
    pub len: u8,
    pub cards: [Card; 7],
    ghost fits: { len ≤ 7 },
    ghost entries: { length cards ≡ 7 },
    ghost filled: { (k : ℕ) → len ≤ k → k < 7 → slice_get cards k ≡ Some filler_card },
}

impl SlotRow {
    ghost use Rattle.card_set.specs.Row.{slots_of};

    /// A row without slots.
    pub fn new() -> Self
        ensures { slots_of result ≡ [] }
    {
        SlotRow {
            len: 0,
            slots: [Slot::Unknown; 7],
        }
    }

    /// Appends a slot. Check first that `len` is below `ROW_ENTRIES`.
    pub fn push(&mut self, slot: Slot)
        requires { self.old.len < ROW_ENTRIES }
        ensures entries { slots_of self.new ≡ slots_of self.old ++ slot ∷ [] }
        ensures longer { self.new.len ≡ self.old.len + 1 }
    {
        self.slots[self.len as usize] = slot;
        self.len += 1;
    }

    /// The slots, in order.
    pub fn as_slice(&self) -> &[Slot]
        ensures { result.now ≡ slots_of self.now }
    {
        &self.slots[..self.len as usize]
    }
}

impl Default for SlotRow {
    ghost use Rattle.card_set.specs.Row.{slots_of};

    ghost is_default = { λ row. slots_of row ≡ [] };

    fn default() -> Self {
        SlotRow::new()
    }
}

impl CardRow {
    ghost use Rattle.card_set.specs.Row.{cards_of};

    /// A row without cards.
    pub fn new() -> Self
        ensures { cards_of result ≡ [] }
    {
        CardRow {
            len: 0,
            cards: [Card {
                rank: Rank::Two,
                suit: Suit::C,
            }; 7],
        }
    }

    /// Appends a card. Check first that `len` is below `ROW_ENTRIES`.
    pub fn push(&mut self, card: Card)
        requires { self.old.len < ROW_ENTRIES }
        ensures entries { cards_of self.new ≡ cards_of self.old ++ card ∷ [] }
        ensures longer { self.new.len ≡ self.old.len + 1 }
    {
        self.cards[self.len as usize] = card;
        self.len += 1;
    }

    /// The cards, in order.
    pub fn as_slice(&self) -> &[Card]
        ensures { result.now ≡ cards_of self.now }
    {
        &self.cards[..self.len as usize]
    }
}

impl Default for CardRow {
    ghost use Rattle.card_set.specs.Row.{cards_of};

    ghost is_default = { λ row. cards_of row ≡ [] };

    fn default() -> Self {
        CardRow::new()
    }
}
