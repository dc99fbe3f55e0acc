//! Refuses a show or a muck by the rules; a show makes its cards known.
ghost use Rattle.std.specs.Prelude.{◌≡◌, ◌≤◌, ◌&&◌, map, length, count_by, Some, IfErr, OnErr, OnOk, IsTrue, List, IfNone, IfSome, None};
ghost use Rattle.card_set.specs.declared.card.Card.{Card};
ghost use Rattle.std.specs.List.{list_any};
ghost use Rattle.card_set.specs.Row.{cards_of};
ghost use Rattle.play_event.specs.NameMatching as naming;
ghost use Rattle.card_set.specs.Known as known;
ghost use Rattle.play_event.specs.Places as plain;
ghost use Rattle.card_places.specs.Placed.{placed};
ghost use Rattle.card_places.specs.Plain.{place_of};
ghost use Rattle.card_places.specs.Shown.{IsMucked, IsShowSearch, IsShown};
ghost use Rattle.card_places.specs.Refusals as why;

use crate::card_state::CardState;
use crate::deal_table::DealTable;
use crate::dealt_card::DealtCard;
use crate::dealt_cards::DealtCards;
use crate::misplacing::is_misplacing;
use crate::naming::{lacks_unknown_places, omits_known_card};
use crate::search::{NamedCards, apply_names, named_cards};
use card_set::CardRow;
use chip_ledger::{LiveRow, Seat};
use play_event::{Due, Illegal};

impl CardState {
    /// Shows the cards if that is legal; otherwise changes nothing.
    pub fn show(&mut self, live: &LiveRow, seat: Seat, cards: &CardRow) -> Result<(), Illegal>
        ensures right { OnOk result (why.show_reason_on self.old live.now seat.number
            (cards_of cards.now) ≡ None) }
        ensures wrong { IfErr result (λ reason. why.show_reason_on self.old live.now seat.number
            (cards_of cards.now) ≡ Some reason) }
        ensures shown { OnOk result (IsShown self.old self.new seat.number (cards_of cards.now)) }
        ensures unchanged { OnErr result (self.new ≡ self.old) }
        ensures table { self.new.table ≡ self.old.table }
        ensures seats { self.new.seats ≡ self.old.seats }
    {
        let search = show_search(&self.table, &self.places, seat, cards);
        match self.illegal_show_on(live, seat, cards, &search) {
            Some(reason) => Err(reason),
            None => {
                apply_names(&self.table, &mut self.places, &search);
                self.shown.set(seat, true);
                Ok(())
            }
        }
    }

    // Why the seat may not show the cards.
    fn illegal_show_on(
        &self,
        live: &LiveRow,
        seat: Seat,
        cards: &CardRow,
        search: &NamedCards,
    ) -> Option<Illegal>
        requires { IsShowSearch self.now.table.code search.now (placed self.now.places)
            seat.number (cards_of cards.now) }
        ensures value { result ≡ why.show_reason_on self.now live.now seat.number
            (cards_of cards.now) }
        ensures in_hand { IfNone result (seat.number ≤ self.now.seats) }
    {
        let rows = self.places.as_slice();
        if !self.may_show(live, seat) {
            Some(Illegal::WrongSeat)
        } else if !self.may_show_many(seat, cards.len) {
            Some(Illegal::WrongCount)
        } else if is_misplacing(&self.table, rows, search) {
            Some(Illegal::CardTaken)
        } else if lacks_unknown_places(&self.table, rows, search)
            || omits_known_card(&self.table, rows, search)
        {
            Some(Illegal::NotHeld)
        } else {
            None
        }
    }

    // Whether a show may have `count` cards.
    fn may_show_many(&self, seat: Seat, count: u8) -> bool
        ensures { result ≡ why.is_legal_show_count self.now.table.code
            (placed self.now.places) seat.number count }
    {
        let rows = self.places.as_slice();
        count == self.places.held(Some(seat))
            || count as usize == held_down(&self.table, rows, seat)
                && !hides_up(&self.table, rows, seat)
    }

    /// Why a show is not due, if it is not.
    pub fn show_not_due(
        &self,
        live: &LiveRow,
        due: Due,
        settled: bool,
        seat: Seat,
    ) -> Option<Illegal>
        ensures show_is_due { IfNone result ((cards : List Card)
            → why.show_reason self.now live.now due settled seat.number cards
            ≡ why.show_reason_on self.now live.now seat.number cards) }
        ensures show_is_not_due { IfSome result (λ reason. (cards : List Card)
            → why.show_reason self.now live.now due settled seat.number cards ≡ Some reason) }
    {
        match due {
            Due::Show => None,
            Due::Over => {
                if self.may_show(live, seat) {
                    None
                } else {
                    Some(Illegal::HandOver)
                }
            }
            Due::Deal(_) | Due::Draw(_) | Due::BringIn | Due::Move => {
                if settled {
                    None
                } else {
                    Some(Illegal::WrongKind)
                }
            }
        }
    }

    /// Why the seat may not muck now.
    pub fn illegal_muck(&self, live: &LiveRow, due: Due, seat: Seat) -> Option<Illegal>
        ensures wrong { result ≡ why.muck_reason self.now live.now due seat.number }
        ensures in_hand { IfNone result (seat.number ≤ self.now.seats) }
    {
        match due {
            Due::Show => {
                if self.may_show(live, seat) {
                    None
                } else {
                    Some(Illegal::WrongSeat)
                }
            }
            Due::Over => {
                if self.may_show(live, seat) {
                    None
                } else {
                    Some(Illegal::HandOver)
                }
            }
            Due::Deal(_) | Due::Draw(_) | Due::BringIn | Due::Move => Some(Illegal::WrongKind),
        }
    }

    // The seat may show or muck.
    fn may_show(&self, live: &LiveRow, seat: Seat) -> bool
        ensures may { result ≡ why.may_show_in self.now live.now seat.number }
        ensures in_hand { IsTrue result → seat.number ≤ self.now.seats }
    {
        seat.number <= self.seats
            && live.get(seat)
            && !(self.shown.get(seat) || self.mucked.get(seat))
    }

    /// The seat mucked.
    pub fn muck(&mut self, seat: Seat)
        requires { seat.number ≤ self.old.seats }
        ensures { IsMucked self.old self.new seat.number }
    {
        self.mucked.set(seat, true);
    }
}

// The number of cards that the seat holds face down.
fn held_down(table: &DealTable, rows: &[DealtCard], seat: Seat) -> usize
    ensures value { result ≡ count_by (naming.is_held_down table.now.code seat.number)
        (map place_of rows.now) }
    ensures most { result ≤ length rows.now }
{
    let mut count = 0;
    for row in rows {
        if is_held_down(table, row, seat) {
            count += 1;
        }
    }
    count
}

// The card is held, and face down.
fn is_held_down(table: &DealTable, card: &DealtCard, seat: Seat) -> bool
    ensures { result ≡ naming.is_held_down table.now.code seat.number (place_of card.now) }
{
    card.held_by(Some(seat)) && !table.is_up(card)
}

// An up-card of the seat is unknown.
fn hides_up(table: &DealTable, rows: &[DealtCard], seat: Seat) -> bool
    ensures { result ≡ list_any known.hides_card
        (plain.up_slots table.now.code (map place_of rows.now) seat.number) }
{
    for row in rows {
        if row.held_by(Some(seat)) && table.is_up(row) && row.slot.is_unknown() {
            return true;
        }
    }
    false
}

// What a show looks for: all cards of the seat, or those face down.
fn show_search(table: &DealTable, places: &DealtCards, seat: Seat, cards: &CardRow) -> NamedCards
    ensures { IsShowSearch table.now.code result (placed places.now) seat.number
        (cards_of cards.now) }
{
    let all = is_show_of_all(places, seat, cards);
    named_cards(table, places, seat, all, None, cards, 0)
}

// The show names all cards that the seat holds.
fn is_show_of_all(places: &DealtCards, seat: Seat, cards: &CardRow) -> bool
    ensures { result ≡ naming.is_show_of_all (placed places.now) seat.number (cards_of cards.now) }
{
    cards.len == places.held(Some(seat))
}
