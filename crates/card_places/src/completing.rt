//! Whether a deal, a draw or a show is complete: no owner is owed cards, or no seat still has to
//! show.
ghost use Rattle.std.specs.Prelude.{◌≡◌, count_by, Some, None};
ghost use Rattle.std.specs.List.{list_any};
ghost use Rattle.chip_ledger.specs.Seat.{seats_of};
ghost use Rattle.play_event.specs.Places.{is_in_group};
ghost use Rattle.card_places.specs.Counted.{AreCounts};
ghost use Rattle.card_places.specs.Placed.{placed};
ghost use Rattle.card_places.specs.Refusals as why;

use crate::card_state::CardState;
use crate::counting::OwnerCounts;
use chip_ledger::{LiveRow, Seat};
use play_event::Due;

impl CardState {
    /// Whether what is due is complete: no seat is owed a card of the deal or draw, nor is the
    /// board, or at a showdown all have shown or mucked. What does not concern cards is never
    /// complete here.
    pub fn done(&self, live: &LiveRow, due: Due) -> bool
        ensures { result ≡ why.is_done_in self.now live.now due }
    {
        match due {
            Due::Deal(on) => {
                let dealt = OwnerCounts::on(&self.places, on);
                !(self.some_lacks(live, on, &dealt) || self.board_lacks(on, dealt.of(None)))
            }
            Due::Draw(on) => {
                !(self.table.street(on).draws
                    && (self.next_to_draw(live, on).is_some() || self.some_owed(on)))
            }
            Due::Show => !self.some_to_show(live),
            Due::BringIn | Due::Move | Due::Over => false,
        }
    }

    // Some seat is owed cards of the street's deal.
    fn some_lacks(&self, live: &LiveRow, on: u8, dealt: &OwnerCounts) -> bool
        requires { AreCounts dealt.now.numbers on (placed self.now.places) }
        ensures { result
            ≡ list_any (why.is_owed_deal_in self.now live.now on) (seats_of self.now.seats) }
    {
        let street = self.table.street(on);
        let mut any = false;
        for index in 0..self.seats {
            let seat = Seat { number: index + 1 };
            let this = live.get(seat) && dealt.of(Some(seat)) < street.down + street.up;
            any = any || this;
        }
        any
    }

    // The board is owed cards of the street; it was dealt `dealt` of them.
    fn board_lacks(&self, on: u8, dealt: u8) -> bool
        requires { dealt ≡ count_by (is_in_group None on) (placed self.now.places) }
        ensures { result ≡ why.is_board_owed_in self.now on }
    {
        dealt < self.table.street(on).board
    }

    // Some seat is owed cards for its discards.
    fn some_owed(&self, on: u8) -> bool
        ensures { result ≡ list_any (why.is_owed_draw_in self.now on) (seats_of self.now.seats) }
    {
        let dealt = OwnerCounts::on(&self.places, on);
        let mut any = false;
        for index in 0..self.seats {
            let seat = Seat { number: index + 1 };
            let this = dealt.of(Some(seat)) < self.draws.named(on, seat);
            any = any || this;
        }
        any
    }

    // Some seat still has to show or muck.
    #[tactic(auto, using(chip_ledger::proofs::SeatLists::any_more))]
    fn some_to_show(&self, live: &LiveRow) -> bool
        ensures { result
            ≡ list_any (why.has_to_show_in self.now live.now) (seats_of self.now.seats) }
    {
        let mut any = false;
        for index in 0..self.seats {
            let seat = Seat { number: index + 1 };
            let this = live.get(seat) && !(self.shown.get(seat) || self.mucked.get(seat));
            any = any || this;
        }
        any
    }
}
