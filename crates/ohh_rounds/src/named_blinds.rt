//! What the posts of a hand are checked against: the starting stacks, and the named blinds.
ghost use Rattle.std.specs.Prelude.{◌≤◌};
ghost use Rattle.chip_ledger.specs.declared.numbers.TheConstants.{MOST_CHIPS};

use chip_ledger::{Seat, SeatRow};

/// The starting stacks, the first seat's first, and the blinds, in chips.
#[derive(Clone, Copy, Debug, PartialEq, Eq)]
pub struct NamedBlinds {
    pub stacks: SeatRow,
    pub small_blind: u64,
    pub big_blind: u64,
    pub ghost smaller: { small_blind ≤ big_blind },
    pub ghost most: { big_blind ≤ MOST_CHIPS },
}

impl NamedBlinds {
    ghost use Rattle.std.specs.Prelude.{◌≡◌};
    ghost use Rattle.ohh_rounds.specs.NamedBlinds.{plain_named_blinds, seat_of_big_blind, seat_of_small_blind, stack_of};

    /// The stack of a seat, or 0 if the hand has no such seat.
    #[tactic(auto, using(card_set::proofs::Entries::at_taken))]
    pub fn stack(&self, seat: Seat) -> u64
        ensures { result ≡ stack_of (plain_named_blinds self.now) seat.number }
    {
        self.stacks.amounts[seat.number as usize - 1]
    }

    /// The seat of the small blind.
    #[tactic(auto, using(crate::proofs::Stacks::seats_in))]
    pub fn small_blind_seat(&self) -> u8
        ensures { result ≡ seat_of_small_blind (plain_named_blinds self.now) }
    {
        if self.stacks.seats == 2 { 2 } else { 1 }
    }

    /// The seat of the big blind.
    #[tactic(auto, using(crate::proofs::Stacks::seats_in))]
    pub fn big_blind_seat(&self) -> u8
        ensures { result ≡ seat_of_big_blind (plain_named_blinds self.now) }
    {
        if self.stacks.seats == 2 { 1 } else { 2 }
    }
}
