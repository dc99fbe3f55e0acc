//! A row of shares: what each seat gets of each of up to eleven pots, with fillers after the last
//! one.
ghost use Rattle.std.specs.Prelude.{◌≡◌, ◌+◌, ◌<◌, ◌≤◌, ◌∷◌, [], ◌++◌, ℕ, Some, length, slice_get};
ghost use Rattle.chip_ledger.specs.Fillers.{no_amounts};

use crate::seat_row::SeatRow;

fn empty_amounts() -> SeatRow
    ensures { result ≡ no_amounts }
{
    SeatRow::new(2)
}

/// What each seat gets of each pot of a hand, lowest pot first.
#[derive(Clone, Copy, Debug, PartialEq, Eq, Hash)]
pub struct ShareRow {
    pub count: u8,
    pub shares: [SeatRow; 11],
    pub ghost most: { count ≤ 11 },
    pub ghost full: { length shares ≡ 11 },
    pub ghost filler: { (k : ℕ) → count ≤ k → k < 11 → slice_get shares k ≡ Some no_amounts },
}

impl ShareRow {
    ghost use Rattle.chip_ledger.specs.PotRow.{shares_in};

    /// A row without shares.
    pub fn new() -> Self
        ensures shares { shares_in result ≡ [] }
        ensures count { result.count ≡ 0 }
    {
        let amounts = empty_amounts();
        ShareRow {
            count: 0,
            shares: [amounts; 11],
        }
    }

    /// Appends the shares of a pot, above the others.
    pub fn push(&mut self, shares: SeatRow)
        requires { self.old.count < 11 }
        ensures shares { shares_in self.new ≡ shares_in self.old ++ shares ∷ [] }
        ensures count { self.new.count ≡ self.old.count + 1 }
    {
        self.shares[self.count as usize] = shares;
        self.count += 1;
    }
}

impl Default for ShareRow {
    ghost use Rattle.chip_ledger.specs.PotRow.{shares_in};

    ghost is_default = { λ row. shares_in row ≡ [] };

    fn default() -> Self {
        ShareRow::new()
    }
}
