//! Whose turn it is, by the running numbers.
ghost use Rattle.std.specs.Prelude.{◌≡◌, ◌≤◌, ◌+◌, find, IfSome, is_some};
ghost use Rattle.std.specs.List.{range_with_len};
ghost use Rattle.play_event.specs.Openers as openers;
ghost use Rattle.play_event.specs.Openers.{TheSeat, in_turn};
ghost use Rattle.betting_numbers.specs.Seen.{after_last, last_seen, player_to_act_seen, has_to_move_seen, is_move_due_seen};
ghost use Rattle.chip_ledger.specs.SeatsSaid.{seat_said};

use crate::betting_state::BettingState;
use chip_ledger::Seat;

impl BettingState {
    /// Whose turn it is in a game with blinds: nobody's if no move is due.
    pub fn player_to_act(&self) -> Option<Seat>
        ensures turn { in_turn (seat_said result)
            ≡ player_to_act_seen self.now
            (TheSeat (openers.blinds_opener self.now.setup self.now.street)) }
        ensures due { is_some result ≡ is_move_due_seen self.now }
        ensures in_hand { IfSome result (λ seat. seat.number ≤ self.now.setup.stacks.seats) }
    {
        let start = self.passed_to();
        let to_last = self.setup.stacks.seats + 1 - start.number;
        match self.first_to_move(start.number, to_last) {
            Some(seat) => Some(seat),
            None => self.first_to_move(1, start.number - 1),
        }
    }

    // The next seat to look at in a game with blinds: the one after the seat that moved last, going
    // round, or the opener.
    fn passed_to(&self) -> Seat
        ensures value { TheSeat result.number
            ≡ after_last (last_seen self.now) (openers.seat_after self.now.setup)
            (TheSeat (openers.blinds_opener self.now.setup self.now.street)) }
        ensures in_hand { result.number ≤ self.now.setup.stacks.seats }
    {
        match self.last {
            None => self.blinds_opener(),
            Some(seat) => {
                if seat.number == self.setup.stacks.seats {
                    Seat { number: 1 }
                } else {
                    Seat {
                        number: seat.number + 1,
                    }
                }
            }
        }
    }

    // The first of `count` seats, from seat `first` on, with a move to make.
    #[tactic(auto, using(card_set::proofs::Finding::find_step))]
    fn first_to_move(&self, first: u8, count: u8) -> Option<Seat>
        requires from_one { 1 ≤ first }
        requires within { first + count ≤ self.now.setup.stacks.seats + 1 }
        ensures found { seat_said result
            ≡ find (has_to_move_seen self.now) (range_with_len first count) }
        ensures in_hand { IfSome result (λ seat. seat.number ≤ self.now.setup.stacks.seats) }
    {
        if count == 0 {
            return None;
        }
        let seat = Seat { number: first };
        if self.to_move(seat) {
            Some(seat)
        } else {
            self.first_to_move(first + 1, count - 1)
        }
    }
}
