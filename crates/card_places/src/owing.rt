//! What a street deals next: to the first seat that is owed cards or, if there is none, to the
//! board. What is owed may be dealt: there is room for it.
ghost use Rattle.std.specs.Prelude.{◌≡◌, ◌≤◌, IfSome, length};
ghost use Rattle.card_places.specs.Dealt.{IsDealt};
ghost use Rattle.card_places.specs.Placed.{placed};
ghost use Rattle.card_places.specs.Refusals as why;
ghost use Rattle.card_places.specs.Room.{IsOwed};
ghost use Rattle.chip_ledger.specs.SeatsSaid.{seat_said};

use crate::card_state::CardState;
use crate::taken::is_past_deck;
use card_set::Slot;
use chip_ledger::{LiveRow, Seat};

/// What a street deals next: to a seat or (`None`) to the board, and the number of cards.
#[derive(Clone, Copy, Debug, PartialEq, Eq)]
pub struct NextDeal {
    pub owner: Option<Seat>,
    pub count: u8,
}

impl CardState {
    /// What the street deals next: to the first seat that is owed cards, all that it is owed; if no
    /// seat is owed any, to the board.
    #[tactic(auto, using(chip_ledger::proofs::SeatLists::any_more))]
    pub fn next_deal(&self, live: &LiveRow, on: u8) -> NextDeal
        ensures owner { seat_said result.owner ≡ why.first_owed_in self.now live.now on }
        ensures count { result.count
            ≡ why.owed_to_in self.now live.now on (seat_said result.owner) }
        ensures most { result.count ≤ 7 }
    {
        for index in 0..self.seats {
            let seat = Seat { number: index + 1 };
            let count = self.owed(live, on, seat);
            if 0 < count {
                return NextDeal {
                    owner: Some(seat),
                    count,
                };
            }
        }
        NextDeal {
            owner: None,
            count: self.board_owed(on),
        }
    }

    /// Deals an owner cards of a street that it is owed.
    pub fn deal(&mut self, owner: Option<Seat>, on: u8, cards: &[Slot])
        requires { IsOwed self.old.table.code self.old.seats self.old.draws
            (placed self.old.places) (seat_said owner) on (length cards.now) }
        ensures { IsDealt self.old self.new (seat_said owner) on cards.now }
    {
        let past_deck = is_past_deck(&self.table, self.places.as_slice(), on);
        self.places.put(owner, on, past_deck, cards);
    }

    /// The number of cards of the street that the seat is still owed: in place of its discards, or
    /// by the deal while it is live.
    pub(crate) fn owed(&self, live: &LiveRow, on: u8, seat: Seat) -> u8
        ensures value { result ≡ why.owed_in self.now live.now on seat.number }
        ensures most { result ≤ 7 }
    {
        let street = self.table.street(on);
        let dealt = self.places.in_group(Some(seat), on);
        if street.draws {
            self.draws.named(on, seat).saturating_sub(dealt)
        } else if live.get(seat) {
            (street.down + street.up).saturating_sub(dealt)
        } else {
            0
        }
    }

    /// The number of cards of the street that the board is still owed.
    pub(crate) fn board_owed(&self, on: u8) -> u8
        ensures value { result ≡ why.board_owed_in self.now on }
        ensures most { result ≤ 7 }
    {
        let dealt = self.places.in_group(None, on);
        self.table.street(on).board.saturating_sub(dealt)
    }

    /// The seat that draws next on the street: the first live one that has not drawn there.
    #[tactic(auto, using(chip_ledger::proofs::SeatLists::any_more))]
    pub fn next_to_draw(&self, live: &LiveRow, on: u8) -> Option<Seat>
        ensures found { seat_said result ≡ why.next_to_draw_in self.now live.now on }
        ensures in_hand { IfSome result (λ seat. seat.number ≤ self.now.seats) }
    {
        for index in 0..self.seats {
            let seat = Seat { number: index + 1 };
            if live.get(seat) && !self.draws.drew(on, seat) {
                return Some(seat);
            }
        }
        None
    }
}
