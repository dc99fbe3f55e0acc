//! What a seat owes, whether it may fold, and what a call or a bring-in comes to.
ghost use Rattle.std.specs.Prelude.{◌≡◌, ◌-◌, is_none, Some};
ghost use Rattle.betting_core.specs.Seen.{WhereInHand};
ghost use Rattle.betting_numbers.specs.LegalMoves.{IsTurn};
ghost use Rattle.betting_numbers.specs.Seen.{to_call_seen};
ghost use Rattle.betting_numbers.specs.Why.{bring_in_seen, call_seen, fold_reason};
ghost use Rattle.chip_ledger.specs.SeatRow.{amount_of};
ghost use Rattle.play_event.specs.Amounts as amounts;
ghost use Rattle.play_event.specs.MoveReasons as reasons;
ghost use Rattle.play_event.specs.Openers.{TheSeat};
ghost use Rattle.play_event.specs.Past.{moves_of};
ghost use Rattle.play_event.specs.CurrentBet as prices;
ghost use Rattle.play_event.specs.Reasons.{why};
ghost use Rattle.play_event.specs.Said.{Fold};
ghost use Rattle.play_event.specs.declared.reason.Due.TheVariants as dues;

use crate::betting::Betting;
use chip_ledger::Seat;
use variant_table::Variant;

impl<V: Variant> Betting<V> {
    /// The chips that the seat owes: what is to call, as far as it has not put it yet.
    #[tactic(auto, using(crate::proofs::ToCall::owed_after))]
    pub fn to_call(&self, seat: Seat) -> u64
        ensures value { result ≡ to_call_seen self.now seat.number }
        ensures past { WhereInHand self.now seat.number (λ past. result
            ≡ prices.to_call self.now.setup (moves_of past) self.now.street seat.number) }
    {
        self.numbers.to_call(seat)
    }

    /// Whether the seat may fold, where it is in turn and a move is due.
    #[tactic(auto, using(crate::proofs::ToCall::fold_after))]
    pub fn may_fold(&self, seat: Seat) -> bool
        ensures value { result ≡ is_none (fold_reason self.now (Some seat.number) seat.number) }
        ensures past { self.now.due ≡ dues.Move → WhereInHand self.now seat.number (λ past.
            IsTurn self.now past (TheSeat seat.number) → result
            ≡ is_none (why self.now.setup self.now.rules past (Fold (Some seat.number)))) }
    {
        self.numbers.illegal_fold(Some(seat), seat).is_none()
    }

    /// The chips that a call adds: what the seat owes, as far as its chips reach.
    #[tactic(auto, using(crate::proofs::ToCall::call_after))]
    pub fn chips_to_call(&self, seat: Seat) -> u64
        ensures value { result
            ≡ call_seen self.now seat.number - amount_of self.now.bets seat.number }
        ensures past { WhereInHand self.now seat.number (λ past. result
            ≡ reasons.chips_to_call self.now.setup (moves_of past) self.now.street seat.number) }
    {
        self.numbers
            .call_target(seat)
            .saturating_sub(self.numbers.bets.get(seat))
    }

    /// The chips of the street that the seat has put after its bring-in.
    #[tactic(auto, using(crate::proofs::ToCall::bring_in_after))]
    pub fn bring_in_target(&self, seat: Seat) -> u64
        ensures value { result ≡ bring_in_seen self.now seat.number }
        ensures past { WhereInHand self.now seat.number (λ past. result
            ≡ amounts.bring_in_target self.now.setup (moves_of past) self.now.street
            seat.number) }
    {
        self.numbers.bring_in_target(seat)
    }
}
