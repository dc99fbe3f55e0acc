//! A move as the trace keeps it, by the running numbers before it.
ghost use Rattle.std.specs.Prelude.{◌≡◌, ◌≤◌, List};
ghost use Rattle.play_event.specs.Past as plays;
ghost use Rattle.play_event.specs.Played.{act_said, move_said};
ghost use Rattle.play_event.specs.Streets.{limit_of, unit};
ghost use Rattle.play_event.specs.Trace.{traced_move};
ghost use Rattle.betting_numbers.specs.Standing.{Standing};
ghost use Rattle.betting_numbers.specs.LegalMoves.{move_of};
ghost use Rattle.betting_numbers.specs.Traced.{is_closed_seen, traced_seen, unit_seen};

use crate::betting_state::BettingState;
use crate::raising::Raiser;
use chip_ledger::Seat;
use play_event::{Act, Limit, Move, Spelled};

impl BettingState {
    /// The move as the trace keeps it.
    pub fn traced(&self, limit: Limit, size: u64, seat: Seat, act: Act, target: u64) -> Move
        requires in_hand { seat.number ≤ self.now.setup.stacks.seats }
        requires size { size ≡ unit self.now.setup self.now.street }
        requires limit { limit_of self.now.setup.code ≡ limit }
        ensures { (moves : List plays.Move) → Standing self.now.setup self.now.street self.now moves
            → move_said result
            ≡ traced_move self.now.setup
            (move_of self.now moves seat.number (act_said act) target) moves }
    {
        let raiser = Raiser {
            numbers: self,
            seat,
            limit,
            size,
        };
        raiser.traced(act, target)
    }
}

impl Raiser<'_> {
    // The move by the numbers before it.
    fn traced(&self, act: Act, target: u64) -> Move
        ensures { move_said result
            ≡ traced_seen self.now.limit self.now.numbers.now self.now.seat.number (act_said act)
            target }
    {
        Move {
            street: self.numbers.street,
            seat: self.seat,
            act,
            from: self.numbers.bets.get(self.seat),
            to: target,
            price: self.numbers.current_bet(),
            closed: act.is_raise() && self.closed(target),
            unit_to: self.unit_to(),
        }
    }

    // The raise is legal only under rules by which a raise always reopens the betting.
    fn closed(&self, target: u64) -> bool
        ensures { result
            ≡ is_closed_seen self.now.limit self.now.numbers.now self.now.seat.number target }
    {
        let numbers = self.numbers;
        let (legal, _) = self.check_target(
            numbers.current_bet() + numbers.full_raise,
            u128::from(target),
        );
        let open = !numbers.moved.get(self.seat) || self.owes_enough();
        !open || !legal
    }

    // The target of a raise by the bet size in fixed limit, else 0.
    fn unit_to(&self) -> u64
        ensures { result ≡ unit_seen self.now.limit self.now.numbers.now self.now.seat.number }
    {
        match self.limit {
            Limit::Fixed => self.target(Spelled::Unit) as u64,
            Limit::Pot | Limit::No => 0,
        }
    }
}
