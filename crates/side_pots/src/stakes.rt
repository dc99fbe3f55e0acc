//! The stakes of a hand are the chips of its seats, and which of the seats are live.
ghost use Rattle.std.specs.Prelude.{◌≡◌};

use chip_ledger::{LiveRow, SeatRow};

/// The chips of each seat, and which seats are live.
#[derive(Clone, Copy)]
pub struct Stakes<'a> {
    pub chips: &'a SeatRow,
    pub live: &'a LiveRow,
    pub ghost seats: { live.now.seats ≡ chips.now.seats },
}
