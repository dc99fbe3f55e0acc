//! Checks whether an event is a legal move: which seat's, and to which target. The move is made
//! elsewhere.
ghost use Rattle.std.specs.Prelude.{◌≡◌, ◌≤◌, Some};
ghost use Rattle.chip_ledger.specs.declared.numbers.Seat.{Seat};
ghost use Rattle.play_event.specs.Said as said;
ghost use Rattle.play_event.specs.Streets.{limit_of, unit};
ghost use Rattle.betting_numbers.specs.LegalMoves.{IsAnswered};
ghost use Rattle.betting_numbers.specs.Why.{cannot_act_seen, player_or_reason, now_reason, unknown_reason};
ghost use Rattle.chip_ledger.specs.SeatsSaid.{seat_said};

use crate::betting_state::BettingState;
use crate::raising::Raiser;
use chip_ledger::Seat;
use play_event::{Act, Due, Illegal, Limit, Spelled};

/// A legal move before it is made: the seat, what it does, and the seat's chips of the street after
/// it.
#[derive(Clone, Copy, Debug, PartialEq, Eq)]
pub struct LegalMove {
    pub seat: Seat,
    pub act: Act,
    pub target: u64,
}

/// The betting and the player to act, if known: what events are answered by.
#[derive(Clone, Copy)]
pub struct Turn<'a> {
    pub numbers: &'a BettingState,
    pub seat: Option<Seat>,
    pub ghost in_hand: { (s : Seat) → seat ≡ Some s → s.number ≤ numbers.now.setup.stacks.seats },
}

impl Turn<'_> {
    /// The fold that an event says, if it is legal.
    pub fn fold(&self, actor: Option<Seat>) -> Result<LegalMove, Illegal>
        ensures { IsAnswered self.now.numbers.now self.now.seat (said.Fold (seat_said actor))
            result }
    {
        let seat = self.seat_to_move(true, false, actor)?;
        if let Some(reason) = self.numbers.illegal_fold(actor, seat) {
            return Err(reason);
        }
        Ok(LegalMove {
            seat,
            act: Act::Fold,
            target: self.numbers.bets.get(seat),
        })
    }

    /// The call or check that an event says, if it is legal.
    pub fn call(&self, actor: Option<Seat>, stated: Option<u64>) -> Result<LegalMove, Illegal>
        ensures { IsAnswered self.now.numbers.now self.now.seat
            (said.Call (seat_said actor) stated) result }
    {
        let seat = self.seat_to_move(true, false, actor)?;
        if let Some(reason) = self.numbers.illegal_call(actor, stated, seat) {
            return Err(reason);
        }
        Ok(LegalMove {
            seat,
            act: Act::Call,
            target: self.numbers.call_target(seat),
        })
    }

    /// The bet or raise that an event says, if it is legal; `size` is the bet size.
    pub fn raise(
        &self,
        limit: Limit,
        size: u64,
        actor: Option<Seat>,
        amount: Spelled,
    ) -> Result<LegalMove, Illegal>
        requires limit { limit_of self.now.numbers.now.setup.code ≡ limit }
        requires size { size ≡ unit self.now.numbers.now.setup self.now.numbers.now.street }
        ensures { IsAnswered self.now.numbers.now self.now.seat
            (said.Raise (seat_said actor) amount) result }
    {
        let numbers = self.numbers;
        let seat = self.seat_to_move(true, true, actor)?;
        let raiser = Raiser {
            numbers,
            seat,
            limit,
            size,
        };
        let floor = numbers.floor(numbers.start_bet());
        if let Some(reason) = raiser.against(floor, actor, amount) {
            return Err(reason);
        }
        Ok(LegalMove {
            seat,
            act: Act::Raise,
            target: raiser.target(amount) as u64,
        })
    }

    /// The bring-in that an event says, if it is legal.
    pub fn bring_in(&self, actor: Option<Seat>) -> Result<LegalMove, Illegal>
        ensures { IsAnswered self.now.numbers.now self.now.seat (said.BringIn (seat_said actor))
            result }
    {
        let seat = self.seat_to_move(false, true, actor)?;
        if let Some(reason) = self.numbers.illegal_bring_in(actor, seat) {
            return Err(reason);
        }
        Ok(LegalMove {
            seat,
            act: Act::BringIn,
            target: self.numbers.bring_in_target(seat),
        })
    }

    // The seat that moves. The event is possible at a move or not, and at a bring-in or not.
    fn seat_to_move(
        &self,
        at_move: bool,
        at_bring_in: bool,
        named: Option<Seat>,
    ) -> Result<Seat, Illegal>
        ensures { result ≡ player_or_reason self.now.numbers.now (seat_said named) self.now.seat
            (now_reason at_move at_bring_in self.now.numbers.now.due) }
    {
        let numbers = self.numbers;
        if let Some(reason) = not_now(numbers.due, at_move, at_bring_in) {
            return Err(reason);
        }
        match self.seat {
            None => Err(numbers.unknown(named)),
            Some(seat) => Ok(seat),
        }
    }
}

impl BettingState {
    // Why a move is refused if it is not known whose turn it is.
    fn unknown(&self, named: Option<Seat>) -> Illegal
        ensures { result ≡ unknown_reason self.now (seat_said named) }
    {
        if self.cannot_act(named) {
            Illegal::WrongSeat
        } else {
            Illegal::UpCardUnknown
        }
    }

    // The seat that the event names cannot act.
    fn cannot_act(&self, named: Option<Seat>) -> bool
        ensures { result ≡ cannot_act_seen self.now (seat_said named) }
    {
        match named {
            None => false,
            Some(seat) => !self.can_act(seat),
        }
    }
}

// Why an event may not come now. It is possible at a move or not, and at a bring-in or not.
fn not_now(due: Due, at_move: bool, at_bring_in: bool) -> Option<Illegal>
    ensures { result ≡ now_reason at_move at_bring_in due }
{
    match due {
        Due::Move if at_move => None,
        Due::BringIn if at_bring_in => None,
        Due::Over => Some(Illegal::HandOver),
        Due::Deal(_) | Due::Draw(_) | Due::BringIn | Due::Move | Due::Show => {
            Some(Illegal::WrongKind)
        }
    }
}
