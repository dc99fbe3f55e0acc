//! Each call on the cards of a hand answers as the rules do, for every past that the state stands
//! for.
ghost use Rattle.std.specs.Prelude.{◌≡◌, ◌≤◌, ◌<◌, ◌∷◌, [], ℕ, length, map, slice_get, true, IfSome, IsSomeAnd, None, Some};
ghost use Rattle.card_set.specs.Row.{cards_of};
ghost use Rattle.chip_ledger.specs.LiveRow.{flag_of};
ghost use Rattle.chip_ledger.specs.SeatsSaid.{seat_said};
ghost use Rattle.play_event.specs.Dealing.{next_to_draw};
ghost use Rattle.play_event.specs.Past.{Past, Move, Moved, is_folding};
ghost use Rattle.play_event.specs.Played.{IsPlace};
ghost use Rattle.play_event.specs.Said.{said_of};
ghost use Rattle.play_event.specs.SeatSlots.{slots_of_hand, ups_of};
ghost use Rattle.play_event.specs.Showing.{has_mucked};
ghost use Rattle.play_event.specs.Table.{places_of, up_cards};
ghost use Rattle.play_event.specs.Trace.{has_unknown_card, traced_places};
ghost use Rattle.play_event.specs.declared.setup.Setup.{Setup};
ghost use Rattle.play_laws.specs.CardEvents.{is_showing};
ghost use Rattle.play_laws.specs.Done.{is_done};
ghost use Rattle.play_laws.specs.Dues.{IsDueWithin, is_cards_due};
ghost use Rattle.card_places.specs.CardEvents.{is_deal, is_discard};
ghost use Rattle.card_places.specs.Dealt.{IsDealt};
ghost use Rattle.card_places.specs.DueStreet.{due_street};
ghost use Rattle.card_places.specs.Placed.{placed};
ghost use Rattle.card_places.specs.Plain.{place_of};
ghost use Rattle.card_places.specs.Room.{IsOwed};
ghost use Rattle.play_event.specs.Held.{held_slots};
ghost use Rattle.deal_core.specs.Answered.{AreOfOneHand, AsksNothing, IsAnswered, IsSettledAs, TellsSeats, WhereLive};
ghost use Rattle.deal_core.specs.Board.{board_cards};
ghost use Rattle.deal_core.specs.NextDeal.{IsNextDeal};
ghost use Rattle.deal_core.specs.Standing.{StandsFor};

use card_places::{CardState, DealtCard, NextDeal, slots, street_due};
use card_set::{CardRow, Slot};
use chip_ledger::{LiveRow, Seat};
use play_event::{Due, Event, HandRow, Illegal, Kind, Place, UpRow};
use std::marker::{Model, PhantomData};
use variant_table::Variant;

/// The cards of a hand of the game `V`; contracts see them as their state. What the calls say of
/// the past holds for every past that the state stands for.
#[derive(Drop)]
pub struct Cards<V: Variant> {
    state: CardState,
    game: PhantomData<V>,
}

impl<V: Variant> Model for Cards<V> {
    ghost use Rattle.std.specs.Prelude.{◌≡◌};
    ghost use Rattle.card_places.specs.declared.card_state.CardState.{CardState};

    ghost Value = { CardState };

    ghost view = { λ c. c.state };

    ghost invariant = { λ c. c.state.table.code ≡ V.CODE };
}

impl<V: Variant> Cards<V> {
    /// No cards yet, for `seats` seats.
    pub fn start(seats: u8) -> Self
        requires least { 2 ≤ seats }
        requires most { seats ≤ V.SEATS }
        ensures stands { StandsFor result [] }
        ensures code { result.table.code ≡ V.CODE }
        ensures seats { result.seats ≡ seats }
    {
        Cards {
            state: CardState::new(V::CODE, seats),
            game: PhantomData,
        }
    }

    /// Deals hole cards or board cards if the rules of play allow it; otherwise changes nothing.
    pub fn deal(&mut self, due: Due, live: &LiveRow, event: &Event) -> Result<(), Illegal>
        requires kind { is_deal (said_of event.now) ≡ true }
        requires due { IsDueWithin V.STREETS due }
        ensures { IsAnswered self.old self.new due live.now AsksNothing (said_of event.now) result }
    {
        match event.kind {
            Kind::Hole { seat, cards } => {
                let known = cards.as_slice();
                match self.state.illegal_hole_deal(live, due, seat, known) {
                    Some(reason) => Err(reason),
                    None => {
                        self.put(due, Some(seat), known);
                        Ok(())
                    }
                }
            }
            Kind::Board { cards } => {
                let known = slots(&cards);
                match self.state.illegal_board_deal(due, known.as_slice()) {
                    Some(reason) => Err(reason),
                    None => {
                        self.put(due, None, known.as_slice());
                        Ok(())
                    }
                }
            }
            // The precondition excludes other kinds.
            _ => Err(Illegal::WrongKind),
        }
    }

    // Deals cards that are owed on the street that is due.
    fn put(&mut self, due: Due, owner: Option<Seat>, cards: &[Slot])
        requires { (on : ℕ) → due_street due ≡ Some on
            → IsOwed self.old.table.code self.old.seats self.old.draws (placed self.old.places)
            (seat_said owner) on (length cards.now) }
        ensures dealt { (on : ℕ) → due_street due ≡ Some on
            → IsDealt self.old self.new (seat_said owner) on cards.now }
        ensures hand { AreOfOneHand self.old self.new }
    {
        if let Some(on) = street_due(due) {
            self.state.deal(owner, on, cards);
        }
    }

    /// Discards cards of a seat that draws if the rules of play allow it; otherwise changes
    /// nothing.
    pub fn discard(&mut self, due: Due, live: &LiveRow, event: &Event) -> Result<(), Illegal>
        requires kind { is_discard (said_of event.now) ≡ true }
        requires due { IsDueWithin V.STREETS due }
        ensures { IsAnswered self.old self.new due live.now AsksNothing (said_of event.now) result }
    {
        match event.kind {
            Kind::Discard { seat, cards } => match due {
                Due::Over => Err(Illegal::HandOver),
                Due::Draw(on) => self.state.discard(live, on, seat, &cards),
                Due::Deal(_) | Due::BringIn | Due::Move | Due::Show => Err(Illegal::WrongKind),
            },
            // The precondition excludes other kinds.
            _ => Err(Illegal::WrongKind),
        }
    }

    /// Shows or mucks the cards of a seat if the rules of play allow it; otherwise changes nothing.
    pub fn show(
        &mut self,
        due: Due,
        live: &LiveRow,
        settled: bool,
        event: &Event,
    ) -> Result<(), Illegal>
        requires { is_showing (said_of event.now) ≡ true }
        ensures { IsAnswered self.old self.new due live.now (IsSettledAs settled)
            (said_of event.now) result }
    {
        match event.kind {
            Kind::Show { seat, cards } => match self.state.show_not_due(live, due, settled, seat) {
                Some(reason) => Err(reason),
                None => self.state.show(live, seat, &cards),
            },
            Kind::Muck { seat } => match self.state.illegal_muck(live, due, seat) {
                Some(reason) => Err(reason),
                None => {
                    self.state.muck(seat);
                    Ok(())
                }
            },
            // The precondition excludes other kinds.
            _ => Err(Illegal::WrongKind),
        }
    }

    /// The seat folded: its cards are gone.
    pub fn folded(&mut self, seat: Seat)
        ensures stands { (past : Past) (move : Move) → StandsFor self.old past
            → is_folding move.act ≡ true → move.seat ≡ seat.number
            → StandsFor self.new (Moved move ∷ past) }
        ensures hand { AreOfOneHand self.old self.new }
    {
        self.state.fold(seat);
    }

    /// Whether the deal, the draw or the show named by `due` is complete. It need not be what is
    /// due now: the next street's deal may be complete before it is looked at.
    pub fn done(&self, due: Due, live: &LiveRow) -> bool
        ensures done { WhereLive self.now live.now
            (λ setup past. result ≡ is_done setup past due) }
        ensures ended { result ≡ true → is_cards_due due ≡ true }
    {
        self.state.done(live, due)
    }

    /// What the street deals next: to the first seat that is owed cards, all that it is owed; if no
    /// seat is owed any, to the board.
    pub fn next_deal(&self, live: &LiveRow, on: u8) -> NextDeal
        ensures next { WhereLive self.now live.now
            (λ setup past. IsNextDeal setup past on result) }
        ensures most { result.count ≤ 7 }
    {
        self.state.next_deal(live, on)
    }

    /// The seat that draws next on the street, if one has to.
    pub fn next_to_draw(&self, live: &LiveRow, on: u8) -> Option<Seat>
        ensures next { WhereLive self.now live.now
            (λ setup past. seat_said result ≡ next_to_draw setup past on) }
        ensures in_hand { IfSome result (λ seat. seat.number ≤ self.now.seats) }
    {
        self.state.next_to_draw(live, on)
    }

    /// The up-cards of each seat, in the order of dealing. Folded seats have none.
    pub fn up(&self) -> UpRow
        ensures { TellsSeats result.seats self.now
            (λ past seat. ups_of result seat ≡ up_cards V.CODE past seat) }
    {
        self.state.up()
    }

    /// The cards that each seat has, in the order of dealing. Discarded cards and those of folded
    /// seats are gone.
    pub fn hands(&self) -> HandRow
        ensures { TellsSeats result.seats self.now
            (λ past seat. slots_of_hand result seat
            ≡ held_slots (Some seat) (places_of V.CODE past)) }
    {
        self.state.hands()
    }

    /// The cards of the board, in the order of dealing.
    pub fn board(&self) -> CardRow
        ensures { (past : Past) → StandsFor self.now past
            → cards_of result ≡ board_cards past }
    {
        self.state.board()
    }

    /// Which seats mucked.
    pub fn mucked(&self) -> LiveRow
        ensures { TellsSeats result.seats self.now
            (λ past seat. flag_of result seat ≡ has_mucked past seat) }
    {
        self.state.mucked
    }

    /// Which seats have an unknown card.
    pub fn unknown(&self) -> LiveRow
        ensures { TellsSeats result.seats self.now
            (λ past seat. (setup : Setup) → setup.code ≡ V.CODE
            → flag_of result seat ≡ has_unknown_card setup past seat) }
    {
        self.state.unknown()
    }

    /// The number of seats.
    pub fn seats(&self) -> u8
        ensures seats { result ≡ self.now.seats }
        ensures code { self.now.table.code ≡ V.CODE }
    {
        self.state.seats
    }

    /// All cards dealt so far, in the order of dealing, including those that are gone.
    pub fn dealt(&self) -> &[DealtCard]
        ensures dealt { map place_of result.now ≡ placed self.now.places }
        ensures places { (past : Past) → StandsFor self.now past
            → map place_of result.now ≡ places_of V.CODE past }
    {
        self.state.places.as_slice()
    }

    /// The number of cards dealt so far, including those that are gone.
    pub fn place_count(&self) -> u8
        ensures count { result ≡ self.now.places.count }
        ensures places { (past : Past) → StandsFor self.now past
            → result ≡ length (places_of V.CODE past) }
    {
        self.state.places.count
    }

    /// The place at this index (from 0) in the order of the trace: by street, then by owner, seat 1
    /// first and the board last, then in the order of dealing. The index must be below
    /// `place_count`.
    pub fn place(&self, index: u8) -> Place
        requires { index < self.now.places.count }
        ensures { (setup : Setup) (past : Past) → setup.code ≡ V.CODE
            → setup.stacks.seats ≡ self.now.seats → StandsFor self.now past
            → IsSomeAnd (slice_get (traced_places setup past) index) (IsPlace result) }
    {
        self.state.place(index)
    }
}
