//! Makes a move if it is legal, and passes the turn on.
ghost use Rattle.std.specs.Prelude.{◌≡◌, ◌≤◌, ◌∷◌, true, false, IfOk, IfSome, OnOk, OnErr};
ghost use Rattle.play_event.specs.Past.{Past, moves_of};
ghost use Rattle.play_event.specs.TurnTargets.{is_bet_due};
ghost use Rattle.play_event.specs.Past as plays;
ghost use Rattle.play_event.specs.Played.{act_said, move_said};
ghost use Rattle.play_event.specs.Trace.{traced_move};
ghost use Rattle.betting_numbers.specs.Seen.{all_in_seen};
ghost use Rattle.betting_core.specs.HandNumbers.{IsOfTable, IsSameHand};
ghost use Rattle.betting_numbers.specs.Standing.{StandsFor};
ghost use Rattle.betting_numbers.specs.LegalMoves.{IsLegalMove, IsInTurn, IsRefused, IsAllowed, IsOfHand, IsInReach, IsFit, WhereBets, WhereUps, reason_after, past_with};
ghost use Rattle.play_laws.specs.CardEvents.{is_card_said};
ghost use Rattle.betting_numbers.specs.Turn.{IsFirstBehind, may_come_at};
ghost use Rattle.play_event.specs.Said.{Said, said_of};

use crate::betting::Betting;
use crate::dealt::pass;
use betting_numbers::{LegalMove, Turn};
use chip_ledger::Seat;
use play_event::{Event, Illegal, Kind, Move as Moved, UpRow};
use variant_table::Variant;

impl<V: Variant> Betting<V> {
    /// Makes the fold, call, raise or bring-in if it is legal, and returns it as the trace keeps
    /// it. Otherwise returns the first reason against the event, and nothing changes.
    ///
    /// `up` has the up-cards of each seat. They are read only in stud, before the first move of a
    /// street: they decide who opens it.
    pub fn step(&mut self, up: &UpRow, event: &Event) -> Result<Moved, Illegal>
        requires { is_card_said (said_of event.now) ≡ false }
        ensures refused { WhereUps self.old up.now
            (IsRefused self.old (said_of event.now) result) }
        ensures legal { WhereUps self.old up.now
            (λ past. OnOk result (reason_after self.old past (said_of event.now) ≡ None)) }
        ensures stands { WhereUps self.old up.now
            (λ past. OnOk result (StandsFor self.new
            (past_with self.old past (said_of event.now)))) }
        ensures moved { WhereUps self.old up.now
            (λ past. IfOk result (λ moved. (move : plays.Move)
            → past_with self.old past (said_of event.now) ≡ plays.Moved move ∷ past
            → move_said moved ≡ traced_move self.old.setup move (moves_of past))) }
        ensures unchanged { OnErr result (self.new ≡ self.old) }
        ensures same { IsSameHand self.old self.new }
    {
        let turn = self.turn_found(up);
        let legal = self.legal_move(turn.seat, event)?;
        Ok(self.play(legal, turn.behind))
    }

    // The move that an event says, if it is legal.
    fn legal_move(&self, turn: Option<Seat>, event: &Event) -> Result<LegalMove, Illegal>
        requires turn_in { IsOfTable self.now turn }
        requires kind { is_card_said (said_of event.now) ≡ false }
        ensures refused { WhereBets self.now turn
            (IsRefused self.now (said_of event.now) result) }
        ensures legal { WhereBets self.now turn
            (IsAllowed self.now (said_of event.now) result) }
        ensures due { OnOk result (is_bet_due self.now.due ≡ true) }
        ensures fits { IfOk result (IsFit self.now) }
        ensures in_hand { IfOk result (IsOfHand self.now) }
        ensures seat { IfOk result (IsInTurn turn) }
        ensures reach { IfOk result (IsInReach self.now) }
    {
        let turn = Turn {
            numbers: &self.numbers,
            seat: turn,
        };
        match event.kind {
            Kind::Fold { actor } => turn.fold(actor),
            Kind::Call { actor, stated } => turn.call(actor, stated),
            Kind::Raise { actor, amount } => turn.raise(V::LIMIT, self.unit(), actor, amount),
            Kind::BringIn { actor } => turn.bring_in(actor),
            _ => Err(Illegal::WrongKind),
        }
    }

    // Makes a legal move and passes the turn on. `behind`, if it was looked for, is the first seat
    // after it that can act.
    fn play(&mut self, legal: LegalMove, behind: Option<Seat>) -> Moved
        requires in_hand { legal.seat.number ≤ self.old.setup.stacks.seats }
        requires behind { IfSome behind (IsFirstBehind self.old legal.seat.number) }
        requires reach { legal.target ≤ all_in_seen self.old legal.seat.number }
        requires due { is_bet_due self.old.due ≡ true }
        requires fits { may_come_at (act_said legal.act) self.old.due ≡ true }
        ensures stands { (past : Past) (event : Said) → StandsFor self.old past
            → IsLegalMove self.old past event legal.seat.number (act_said legal.act)
            legal.target
            → StandsFor self.new (past_with self.old past event) }
        ensures moved { (past : Past) (event : Said) → StandsFor self.old past
            → IsLegalMove self.old past event legal.seat.number (act_said legal.act)
            legal.target
            → (move : plays.Move) → past_with self.old past event ≡ plays.Moved move ∷ past
            → move_said result ≡ traced_move self.old.setup move (moves_of past) }
        ensures same { IsSameHand self.old self.new }
    {
        let size = self.unit();
        let moved = self
            .numbers
            .traced(V::LIMIT, size, legal.seat, legal.act, legal.target);
        self.numbers
            .apply_move(legal.seat, legal.act, legal.target, size);
        let over = self.numbers.live_count() <= 1;
        pass::<V>(&mut self.numbers, over, behind);
        moved
    }
}
