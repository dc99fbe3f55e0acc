//! A row of up to eleven pots, with fillers after the last one.
ghost use Rattle.std.specs.Prelude.{◌≡◌, ◌+◌, ◌<◌, ◌≤◌, ◌∷◌, [], ◌++◌, ℕ, Some, length, slice_get};
ghost use Rattle.chip_ledger.specs.Fillers.{no_pot};

use crate::live_row::LiveRow;
use crate::seat_row::SeatRow;

/// A pot: its chips, and the seats that may win them.
#[derive(Clone, Copy, Debug, PartialEq, Eq, Hash)]
pub struct Pot {
    pub chips: u64,
    pub eligible: LiveRow,
}

fn empty_pot() -> Pot
    ensures { result ≡ no_pot }
{
    Pot {
        chips: 0,
        eligible: LiveRow::new(2),
    }
}

/// The pots of a hand, lowest first, and what is returned to each seat before they are made.
#[derive(Clone, Copy, Debug, PartialEq, Eq, Hash)]
pub struct PotRow {
    pub count: u8,
    pub pots: [Pot; 11],
    pub returned: SeatRow,
    pub ghost most: { count ≤ 11 },
    pub ghost full: { length pots ≡ 11 },
    pub ghost filler: { (k : ℕ) → count ≤ k → k < 11 → slice_get pots k ≡ Some no_pot },
}

impl PotRow {
    ghost use Rattle.chip_ledger.specs.PotRow.{pots_in};

    /// A row without pots, with what is returned.
    pub fn new(returned: SeatRow) -> Self
        ensures pots { pots_in result ≡ [] }
        ensures count { result.count ≡ 0 }
        ensures returned { result.returned ≡ returned }
    {
        let pot = empty_pot();
        PotRow {
            count: 0,
            pots: [pot; 11],
            returned,
        }
    }

    /// Appends a pot, above the others.
    pub fn push(&mut self, pot: Pot)
        requires { self.old.count < 11 }
        ensures pots { pots_in self.new ≡ pots_in self.old ++ pot ∷ [] }
        ensures count { self.new.count ≡ self.old.count + 1 }
        ensures returned { self.new.returned ≡ self.old.returned }
    {
        self.pots[self.count as usize] = pot;
        self.count += 1;
    }
}
