//! Why a deal is refused.
ghost use Rattle.std.specs.Prelude.{◌≡◌, ◌||◌, ◌==◌, Some};
ghost use Rattle.play_event.specs.CardReasons as reasons;
ghost use Rattle.card_places.specs.Refusals as why;
ghost use Rattle.card_places.specs.DueStreet.{due_street};

use crate::card_state::CardState;
use crate::taken::has_taken_card;
use card_set::Slot;
use chip_ledger::{LiveRow, Seat};
use play_event::{Due, Illegal};

impl CardState {
    /// Why the seat may not be dealt these cards now.
    pub fn illegal_hole_deal(
        &self,
        live: &LiveRow,
        due: Due,
        seat: Seat,
        cards: &[Slot],
    ) -> Option<Illegal>
        ensures { result ≡ why.hole_deal_reason self.now live.now due seat.number cards.now }
    {
        match due {
            Due::Over => Some(Illegal::HandOver),
            Due::Deal(on) => {
                let street = self.table.street(on);
                if street.down + street.up > 0 {
                    self.illegal_hole_deal_on(live, on, seat, cards)
                } else {
                    Some(Illegal::WrongKind)
                }
            }
            Due::Draw(on) => self.illegal_hole_deal_on(live, on, seat, cards),
            Due::BringIn | Due::Move | Due::Show => Some(Illegal::WrongKind),
        }
    }

    // Why the seat may not be dealt these cards on the street.
    fn illegal_hole_deal_on(
        &self,
        live: &LiveRow,
        on: u8,
        seat: Seat,
        cards: &[Slot],
    ) -> Option<Illegal>
        ensures { result ≡ why.hole_deal_reason_on self.now live.now on seat.number cards.now }
    {
        if seat.number > self.seats {
            return Some(Illegal::WrongSeat);
        }
        let owed = self.owed(live, on, seat);
        if owed == 0 {
            Some(Illegal::WrongSeat)
        } else if is_wrong_deal(owed, cards.len()) {
            Some(Illegal::WrongCount)
        } else if has_taken_card(&self.table, self.places.as_slice(), on, cards) {
            Some(Illegal::CardTaken)
        } else {
            None
        }
    }

    /// Why the board may not be dealt these cards now.
    pub fn illegal_board_deal(&self, due: Due, cards: &[Slot]) -> Option<Illegal>
        ensures { result ≡ why.board_deal_reason self.now due cards.now }
    {
        match due {
            Due::Over => Some(Illegal::HandOver),
            Due::Deal(on) => {
                if self.table.street(on).board > 0 {
                    self.illegal_board_deal_on(on, cards)
                } else {
                    Some(Illegal::WrongKind)
                }
            }
            Due::Draw(_) | Due::BringIn | Due::Move | Due::Show => Some(Illegal::WrongKind),
        }
    }

    // Why the board may not be dealt these cards on the street.
    fn illegal_board_deal_on(&self, on: u8, cards: &[Slot]) -> Option<Illegal>
        ensures { result ≡ why.board_deal_reason_on self.now on cards.now }
    {
        let owed = self.board_owed(on);
        if is_wrong_deal(owed, cards.len()) {
            Some(Illegal::WrongCount)
        } else if has_taken_card(&self.table, self.places.as_slice(), on, cards) {
            Some(Illegal::CardTaken)
        } else {
            None
        }
    }
}

// Whether a deal has no card, or more than are owed.
fn is_wrong_deal(owed: u8, count: usize) -> bool
    ensures { result ≡ reasons.is_wrong_deal owed count }
{
    count == 0 || (owed as usize) < count
}

/// The street whose cards are due.
pub fn street_due(due: Due) -> Option<u8>
    ensures { result ≡ due_street due }
{
    match due {
        Due::Deal(on) => Some(on),
        Due::Draw(on) => Some(on),
        Due::BringIn | Due::Move | Due::Show | Due::Over => None,
    }
}
