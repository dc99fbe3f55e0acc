//! Where the player to act may raise to.
ghost use Rattle.std.specs.Prelude.{◌≡◌, ◌≤◌, ℕ, IfSome, is_some};
ghost use Rattle.play_event.specs.Openers.{TheSeat};
ghost use Rattle.play_event.specs.Past.{Past, moves_of};
ghost use Rattle.chip_ledger.specs.Greatest.{greatest};
ghost use Rattle.play_event.specs.Streets.{limit_of, unit};
ghost use Rattle.betting_numbers.specs.TurnSaid.{turn_of};
ghost use Rattle.betting_numbers.specs.Standing.{StandsFor};
ghost use Rattle.betting_numbers.specs.Targeted.{least_seen, AreEndsFor};
ghost use Rattle.play_event.specs.TurnTargets.{may_raise_now};
ghost use Rattle.play_event.specs.Targets.{smallest};
ghost use Rattle.betting_numbers.specs.Why.{full_raise_target_list, greatest_seen, floor_seen};
ghost use Rattle.chip_ledger.specs.SeatsSaid.{seat_said};

use crate::betting_state::BettingState;
use crate::raising::Raiser;
use chip_ledger::Seat;
use play_event::Limit;

/// Where a seat may raise to, in chips of the street: its least and its greatest legal target, and
/// its all-in. Not every amount between the two is legal.
#[derive(Clone, Copy, Debug, PartialEq, Eq)]
pub struct Targets {
    pub least: u64,
    pub greatest: u64,
    pub all_in: u64,
}

impl BettingState {
    /// Where the player to act, if known, may raise to; `None` if it may not.
    pub fn targets_of(&self, turn: Option<Seat>, limit: Limit, size: u64) -> Option<Targets>
        requires in_hand { IfSome turn (λ seat. seat.number ≤ self.now.setup.stacks.seats) }
        requires limit { limit_of self.now.setup.code ≡ limit }
        requires size { size ≡ unit self.now.setup self.now.street }
        ensures some { (past : Past) → StandsFor self.now past
            → is_some result
            ≡ may_raise_now self.now.setup self.now.rules (moves_of past) self.now.street
            (turn_of (seat_said turn)) }
        ensures ends { (past : Past) → StandsFor self.now past
            → IfSome result (λ targets. (seat : ℕ) → turn_of (seat_said turn) ≡ TheSeat seat
            → AreEndsFor self.now (moves_of past) seat targets) }
    {
        match turn {
            None => None,
            Some(seat) => {
                let raiser = Raiser {
                    numbers: self,
                    seat,
                    limit,
                    size,
                };
                if raiser.may_raise() {
                    Some(Targets {
                        least: raiser.least_to(),
                        greatest: raiser.greatest_to(),
                        all_in: self.all_in(seat),
                    })
                } else {
                    None
                }
            }
        }
    }
}

impl Raiser<'_> {
    // The least legal target.
    fn least_to(&self) -> u64
        ensures { result
            ≡ least_seen self.now.limit self.now.numbers.now (floor_seen self.now.numbers.now)
            self.now.seat.number }
    {
        let numbers = self.numbers;
        let all_in = numbers.all_in(self.seat);
        match self.limit {
            Limit::No => all_in.min(numbers.floor(numbers.start_bet())),
            Limit::Pot => all_in.min(numbers.current_bet() + numbers.full_raise),
            Limit::Fixed => u128::from(all_in).min(smaller(self.full_raise_targets())) as u64,
        }
    }

    // The greatest legal target.
    fn greatest_to(&self) -> u64
        ensures { result ≡ greatest_seen self.now.limit self.now.numbers.now self.now.seat.number }
    {
        let all_in = self.numbers.all_in(self.seat);
        match self.limit {
            Limit::No => all_in,
            Limit::Pot => all_in.min(self.ceiling()),
            Limit::Fixed => u128::from(all_in).min(larger(self.full_raise_targets())) as u64,
        }
    }
}

// The smaller of the full targets.
fn smaller(full_raise_targets: (u128, Option<u128>)) -> u128
    ensures { result ≡ smallest (full_raise_target_list full_raise_targets) }
{
    match full_raise_targets.1 {
        None => full_raise_targets.0,
        Some(other) => full_raise_targets.0.min(other),
    }
}

// The larger of the full targets.
fn larger(full_raise_targets: (u128, Option<u128>)) -> u128
    ensures { result ≡ greatest (full_raise_target_list full_raise_targets) }
{
    match full_raise_targets.1 {
        None => full_raise_targets.0,
        Some(other) => full_raise_targets.0.max(other),
    }
}
