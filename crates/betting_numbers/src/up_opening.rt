//! Who opens a street by up-cards, and which seat acts after the opener.
ghost use Rattle.std.specs.Prelude.{◌≡◌, ◌≤◌, ◌&&◌, not, IfSome};
ghost use Rattle.chip_ledger.specs.SeatsSaid.{seat_said};
ghost use Rattle.play_event.specs.Openers.{in_turn};
ghost use Rattle.betting_numbers.specs.UpSeen.{LeadsAsWell, is_before_seen, has_unknown_seen, known_opener_seen};
ghost use Rattle.betting_numbers.specs.Seen.{first_behind_seen, can_act_seen};

use crate::betting_state::BettingState;
use crate::comparing::{is_opener_before, opens_as_early};
use chip_ledger::Seat;
use play_event::{Opener, UpRow};

/// Whose turn it is, if known, and the seat after it.
#[derive(Clone, Copy, Debug, PartialEq, Eq)]
pub struct ToAct {
    pub seat: Option<Seat>,
    /// The first seat after that one that can act, going round, if it was looked for: the same seat
    /// if no other can act.
    pub behind: Option<Seat>,
}

impl BettingState {
    /// Who opens, if each up-card of a seat that can act is known: the first seat that can act and
    /// before which no other opens. The walk goes from the last seat to the first and keeps two of
    /// the seats so far: the leader, which opens before all that any of them opens before, and the
    /// first before which none of them opens. In this direction a new seat either replaces the
    /// latter or leaves it.
    ///
    /// The same walk finds the seat after the opener: the seat that can act and was walked last
    /// before the opener or, if there was none, the one that was walked last of all.
    pub fn up_opener(&self, opener: Opener, up: &UpRow) -> ToAct
        ensures found { seat_said result.seat ≡ known_opener_seen opener self.now up.now }
        ensures behind { IfSome result.seat
            (λ seat. in_turn (seat_said result.behind) ≡ first_behind_seen self.now seat.number) }
        ensures in_hand { IfSome result.seat (λ seat. seat.number ≤ self.now.setup.stacks.seats) }
        ensures behind_in { IfSome result.behind
            (λ seat. seat.number ≤ self.now.setup.stacks.seats) }
    {
        let seats = self.setup.stacks.seats;
        let ups = Ups {
            numbers: self,
            up,
            opener,
        };
        let mut lead: u8 = seats;
        let mut first: Option<Seat> = None;
        let mut behind: Option<Seat> = None;
        let mut nearest: Option<Seat> = None;
        for index in 0..seats {
            let seat = Seat {
                number: seats - index,
            };
            if ups.unknown(seat) {
                return ToAct {
                    seat: None,
                    behind: None,
                };
            }
            let next = ups.earlier(Seat { number: lead }, seat);
            if ups.opens(next, seat) {
                first = Some(seat);
                behind = nearest;
            }
            if self.can_act(seat) {
                nearest = Some(seat);
            }
            lead = next.number;
        }
        ToAct {
            seat: first,
            behind: behind.or(nearest),
        }
    }
}

// The up-cards of the seats, among which the opener is looked for.
#[derive(Clone, Copy)]
struct Ups<'a> {
    numbers: &'a BettingState,
    up: &'a UpRow,
    // Whether the lowest or the highest up-card opens.
    opener: Opener,
}

impl Ups<'_> {
    // The seat can act and has an unknown up-card.
    fn unknown(&self, seat: Seat) -> bool
        ensures { result ≡ has_unknown_seen self.now.numbers.now self.now.up.now seat.number }
    {
        self.numbers.can_act(seat) && self.up.get(seat).has_unknown()
    }

    // The one of two seats that can act or, if both can, the one that opens before all that the
    // other opens before.
    fn earlier(&self, lead: Seat, other: Seat) -> Seat
        requires { other.number ≤ lead.number }
        ensures within { result.number ≤ lead.number }
        ensures from { other.number ≤ result.number }
        ensures lead { LeadsAsWell self.now.opener self.now.numbers.now self.now.up.now
            lead.number result.number }
        ensures other { LeadsAsWell self.now.opener self.now.numbers.now self.now.up.now
            other.number result.number }
    {
        if lead.number == other.number {
            return lead;
        }
        if !self.numbers.can_act(lead) {
            return other;
        }
        if !self.numbers.can_act(other) {
            return lead;
        }
        let early = opens_as_early(
            self.opener,
            self.numbers.street == 1,
            &self.up.get(other).known_cards(),
            &self.up.get(lead).known_cards(),
        );
        if early { other } else { lead }
    }

    // The seat can act, and the leader does not open before it.
    fn opens(&self, lead: Seat, seat: Seat) -> bool
        ensures { result
            ≡ (can_act_seen self.now.numbers.now seat.number
            && not (is_before_seen self.now.opener self.now.numbers.now self.now.up.now seat.number
            lead.number)) }
    {
        let numbers = self.numbers;
        if !numbers.can_act(seat) {
            return false;
        }
        // No seat opens before itself.
        if lead.number == seat.number {
            return true;
        }
        !(numbers.can_act(lead)
            && is_opener_before(
                self.opener,
                numbers.street == 1,
                &self.up.get(lead).known_cards(),
                &self.up.get(seat).known_cards(),
            ))
    }
}
