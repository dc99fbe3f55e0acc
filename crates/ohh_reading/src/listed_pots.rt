//! The pots as they are listed, their total, and what they state of a hand.
ghost use Rattle.std.specs.Prelude.{◌≡◌, ◌≤◌, map};
ghost use Rattle.chip_ledger.specs.declared.seat_row.TheConstants.{MOST_AMOUNT};
ghost use Rattle.ohh_reading.specs.PotSums.{all_of, plain_listed_pot};

use crate::listed_pot::ListedPot;
use crate::won::Won;
use chip_ledger::{RakeRow, SeatRow};

/// Pots in the order in which they are listed, their total, and what is won of them.
#[derive(Drop)]
pub struct ListedPots {
    pub pots: Vec<ListedPot>,
    pub total: u64,
    pub won: Won,
    pub ghost is_total: { total ≡ all_of (map plain_listed_pot pots.items) },
    pub ghost most_total: { total ≤ MOST_AMOUNT },
}

/// What a hand states of its pots, in chips.
#[derive(Clone, Copy, Debug, PartialEq, Eq)]
pub struct Paid {
    /// What each seat wins.
    pub wins: Option<SeatRow>,
    /// All pots together, including their rakes.
    pub total: Option<u64>,
    pub rakes: RakeRow,
}
