//! Who opens a street in a game with blinds, and the current bet at the start of a street.
ghost use Rattle.std.specs.Prelude.{◌≡◌, ◌≤◌};
ghost use Rattle.chip_ledger.specs.declared.seat_row.TheConstants.{MOST_AMOUNT};
ghost use Rattle.play_event.specs.Openers as openers;
ghost use Rattle.play_event.specs.CurrentBet.{starting_bet};

use crate::betting_state::BettingState;
use chip_ledger::Seat;
use play_event::Setup;

/// Who opens the first street in a game with blinds; `last` is the last seat with the greatest
/// blind.
pub fn first_opener(setup: &Setup, last: u8) -> Seat
    requires last { last ≡ openers.last_big_blind setup.now }
    requires within { last ≤ setup.now.stacks.seats }
    ensures value { result.number ≡ openers.blinds_opener setup.now 1 }
    ensures in_hand { result.number ≤ setup.now.stacks.seats }
{
    if setup.stacks.seats == 2 {
        Seat { number: 2 }
    } else if last == setup.stacks.seats {
        Seat { number: 1 }
    } else {
        Seat { number: last + 1 }
    }
}

impl BettingState {
    /// Who opens the street in a game with blinds.
    pub fn blinds_opener(&self) -> Seat
        ensures value { result.number ≡ openers.blinds_opener self.now.setup self.now.street }
        ensures in_hand { result.number ≤ self.now.setup.stacks.seats }
    {
        if self.street == 1 {
            self.first_opener
        } else {
            Seat { number: 1 }
        }
    }

    /// The current bet at the start of the street.
    #[tactic(auto, using(crate::proofs::NextStreet::starts_at_zero))]
    pub fn start_bet(&self) -> u64
        ensures value { result ≡ starting_bet self.now.setup self.now.street }
        ensures bounded { result ≤ MOST_AMOUNT }
    {
        if self.street == 1 { self.blind_bet } else { 0 }
    }
}
