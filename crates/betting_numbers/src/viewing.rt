//! What can be seen of the betting from outside: the chips left, and whether more betting is
//! possible.
ghost use Rattle.std.specs.Prelude.{◌≡◌, ◌≤◌, ℕ};
ghost use Rattle.chip_ledger.specs.SeatRow.{amount_of};
ghost use Rattle.betting_numbers.specs.Seen.{has_able_seat_to_call_seen, left_seen, is_settled_seen};
ghost use Rattle.play_event.specs.Due.{is_after_betting};

use crate::betting_state::BettingState;
use chip_ledger::{Seat, SeatRow};
use play_event::Due;

impl BettingState {
    /// The chips that each seat has left.
    pub fn stacks_left(&self) -> SeatRow
        ensures seats { result.seats ≡ self.now.setup.stacks.seats }
        ensures amounts { (n : ℕ) → 1 ≤ n → n ≤ self.now.setup.stacks.seats
            → amount_of result n ≡ left_seen self.now n }
    {
        let mut row = SeatRow::new(self.setup.stacks.seats);
        for index in 0..self.setup.stacks.seats {
            let seat = Seat { number: index + 1 };
            row.set(seat, self.left(seat));
        }
        row
    }

    /// No more betting is possible, and two or more seats are live.
    pub fn settled(&self) -> bool
        ensures { result ≡ is_settled_seen self.now }
    {
        2 <= self.live_count()
            && (after_betting(self.due) || (self.able_count() <= 1 && !self.able_owes()))
    }

    // A seat that can act owes chips.
    #[tactic(auto, using(chip_ledger::proofs::SeatLists::any_more))]
    fn able_owes(&self) -> bool
        ensures { result ≡ has_able_seat_to_call_seen self.now }
    {
        for index in 0..self.setup.stacks.seats {
            let seat = Seat { number: index + 1 };
            if self.can_act(seat) && 0 < self.to_call(seat) {
                return true;
            }
        }
        false
    }
}

// The betting of the last street is over.
fn after_betting(due: Due) -> bool
    ensures { result ≡ is_after_betting due }
{
    match due {
        Due::Show | Due::Over => true,
        Due::Deal(_) | Due::Draw(_) | Due::BringIn | Due::Move => false,
    }
}
