//! A list of what is won of pots, with what each seat wins.
ghost use Rattle.std.specs.Prelude.{◌≡◌, ◌≤◌, ◌+◌, ◌++◌, ◌∷◌, [], ℕ, map, IfOk};
ghost use Rattle.chip_ledger.specs.SeatRow.{amount_of};
ghost use Rattle.chip_ledger.specs.declared.seat_row.TheConstants.{MOST_AMOUNT};
ghost use Rattle.ohh_reading.specs.Won.{plain_win, won_by};

use card_set::{Memory, TryPush};
use chip_ledger::{PlayerCount, Seat, SeatRow};
use std::alloc::Global;

/// What the player in a seat wins of a pot, in chips.
#[derive(Clone, Copy, Debug, PartialEq, Eq)]
pub struct Win {
    pub seat: Seat,
    pub chips: u64,
}

/// What is won of pots, in the order in which it is listed, and what each seat wins of it.
#[derive(Drop)]
pub struct Won {
    pub list: Vec<Win>,
    pub sums: SeatRow,
    pub ghost are_sums: { (seat : ℕ) → 1 ≤ seat
        → amount_of sums seat ≡ won_by seat (map plain_win list.items) },
}

impl Won {
    /// No wins yet, for this number of players.
    pub fn new(alloc: Global, players: PlayerCount) -> Self
        ensures none { map plain_win result.list.items ≡ [] }
        ensures seats { result.sums.seats ≡ players.number }
    {
        Won {
            list: Vec::new(alloc),
            sums: SeatRow::new(players.number),
        }
    }

    /// Adds one more win.
    pub fn with(self, win: Win) -> Result<Self, Memory>
        requires seated { win.seat.number ≤ self.sums.seats }
        requires within { amount_of self.sums win.seat.number + win.chips ≤ MOST_AMOUNT }
        ensures wins { IfOk result (λ after. map plain_win after.list.items
            ≡ map plain_win self.list.items ++ plain_win win ∷ []) }
        ensures seats { IfOk result (λ after. after.sums.seats ≡ self.sums.seats) }
    {
        let Won { mut list, mut sums } = self;
        list.try_push(win)?;
        sums.set(win.seat, sums.get(win.seat) + win.chips);
        Ok(Won { list, sums })
    }
}
