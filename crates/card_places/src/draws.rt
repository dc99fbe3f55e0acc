//! Who drew on which street and how many cards it discarded, kept for the whole hand.
ghost use Rattle.std.specs.Prelude.{◌≡◌, ◌≢◌, ◌≤◌, ◌⊎◌, ℕ, length, slice_index, true, false};

use chip_ledger::Seat;

/// For each street up to the fifth and each seat: the number of cards that it discarded in the
/// draw, and whether it drew.
#[derive(Clone, Copy, Debug, PartialEq, Eq)]
pub struct Draws {
    pub named: [u8; 60],
    pub drew: [bool; 60],
    pub ghost named_full: { length named ≡ 60 },
    pub ghost drew_full: { length drew ≡ 60 },
    pub ghost most: { (k : ℕ) → slice_index named k ≤ 7 },
}

impl Draws {
    ghost use Rattle.card_places.specs.Drawn.{has_drawn_at, named_at};

    /// No seat drew.
    pub fn new() -> Self
        ensures drew { (street seat : ℕ) → has_drawn_at result street seat ≡ false }
        ensures named { (street seat : ℕ) → named_at result street seat ≡ 0 }
    {
        Draws {
            named: [0; 60],
            drew: [false; 60],
        }
    }

    /// Whether the seat drew on the street. After the fifth street nobody did.
    pub fn drew(&self, street: u8, seat: Seat) -> bool
        ensures { result ≡ has_drawn_at self.now street seat.number }
    {
        match self
            .drew
            .get(10 * street as usize + seat.number as usize - 1)
        {
            Some(drew) => *drew,
            None => false,
        }
    }

    /// The number of cards that the seat discarded in the draw of the street; 0 after the fifth
    /// street.
    pub fn named(&self, street: u8, seat: Seat) -> u8
        ensures value { result ≡ named_at self.now street seat.number }
        ensures most { result ≤ 7 }
    {
        match self
            .named
            .get(10 * street as usize + seat.number as usize - 1)
        {
            Some(count) => *count,
            None => 0,
        }
    }

    /// Notes that the seat draws on the street and discards `count` cards.
    pub fn set(&mut self, street: u8, seat: Seat, count: u8)
        requires street { street ≤ 5 }
        requires most { count ≤ 7 }
        ensures drew { has_drawn_at self.new street seat.number ≡ true }
        ensures named { named_at self.new street seat.number ≡ count }
        ensures others { (on number : ℕ) → 1 ≤ number → number ≤ 10
            → (on ≢ street) ⊎ (number ≢ seat.number) → has_drawn_at self.new on number
            ≡ has_drawn_at self.old on number }
        ensures others_named { (on number : ℕ) → 1 ≤ number → number ≤ 10
            → (on ≢ street) ⊎ (number ≢ seat.number) → named_at self.new on number
            ≡ named_at self.old on number }
    {
        let index = 10 * street as usize + seat.number as usize - 1;
        self.named[index] = count;
        self.drew[index] = true;
    }
}
