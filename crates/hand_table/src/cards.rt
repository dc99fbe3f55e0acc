//! Tests the cards: `cards GAME SEATS: EVENT; EVENT..`. An event is `hole 1 2c??`, `board 2c3d4h`,
//! `discard 1 2c??`, `show 1 2c3d`, `muck 1` or `fold 1`; what is due from then on, such as `due
//! Deal 1`, `due Draw 2`, `due Show` or `due Over`; `settled`, after which the hand is settled; or
//! a question: `done`, `up`, `hands`, `table`, `mucked`, `unknown`, `places`.
ghost use Rattle.std.specs.Prelude.{◌≡◌, ◌≤◌, true, IsTrue};
ghost use Rattle.card_places.specs.CardEvents.{is_deal, is_discard};
ghost use Rattle.play_event.specs.Said.{kind_said};
ghost use Rattle.play_laws.specs.CardEvents.{is_showing};
ghost use Rattle.play_laws.specs.Dues.{IsDueWithin};

use crate::traces::seats_text;
use crate::words::{first_and_rest, seat_of};
use card_set::{CardRow, Slot, SlotRow, read_slots, slot_text};
use chip_ledger::{LiveRow, Seat};
use deal_core::Cards;
use play_event::{Code, Due, Event, Illegal, Kind};
use std::alloc::{AllocError, Global};
use variant_table::{F2L3D, F7S, F7S8, FB, FO8, FR, FT, N2L1D, NS, NT, PO, Variant};

/// The answers to the events of a row.
pub fn answer_to(alloc: Global, row: &str) -> Result<Option<String>, AllocError> {
    let Some((game, events)) = row.split_once(": ") else {
        return Ok(None);
    };
    let (code, seats) = first_and_rest(game);
    let (Some(code), Ok(seats)) = (Code::read(code), seats.parse::<u8>()) else {
        return Ok(None);
    };
    let answer = match code {
        Code::FT => played::<FT>(alloc, seats, events)?,
        Code::NT => played::<NT>(alloc, seats, events)?,
        Code::NS => played::<NS>(alloc, seats, events)?,
        Code::PO => played::<PO>(alloc, seats, events)?,
        Code::FO8 => played::<FO8>(alloc, seats, events)?,
        Code::F7S => played::<F7S>(alloc, seats, events)?,
        Code::F7S8 => played::<F7S8>(alloc, seats, events)?,
        Code::FR => played::<FR>(alloc, seats, events)?,
        Code::N2L1D => played::<N2L1D>(alloc, seats, events)?,
        Code::F2L3D => played::<F2L3D>(alloc, seats, events)?,
        Code::FB => played::<FB>(alloc, seats, events)?,
    };
    Ok(Some(answer))
}

// What the row says besides the cards: who is live, what is due, and whether the hand is settled.
#[derive(Clone, Copy)]
struct GivenState {
    live: LiveRow,
    due: Due,
    settled: bool,
}

// The answers for one game, one after another.
fn played<V: Variant>(alloc: Global, seats: u8, events: &str) -> Result<String, AllocError> {
    if seats < 2 || V::SEATS < seats || 10 < seats {
        return String::from_str(alloc, "no such seats");
    }
    let mut cards = Cards::<V>::start(seats);
    let mut given = GivenState {
        live: all_live(seats),
        due: Due::Deal(1),
        settled: false,
    };
    let mut text = String::new(alloc);
    for event in events.split("; ") {
        if !text.is_empty() {
            text.push_str("; ")?;
        }
        let answer = answered(alloc, &mut cards, &mut given, event)?;
        text.push_str(answer.as_str())?;
    }
    Ok(text)
}

fn all_live(seats: u8) -> LiveRow
    requires least { 2 ≤ seats }
    requires most { seats ≤ 10 }
{
    let mut live = LiveRow::new(seats);
    for index in 0..seats {
        live.set(Seat { number: index + 1 }, true);
    }
    live
}

// The answer to one event.
fn answered<V: Variant>(
    alloc: Global,
    cards: &mut Cards<V>,
    given: &mut GivenState,
    event: &str,
) -> Result<String, AllocError> {
    let (word, rest) = first_and_rest(event);
    match word.as_bytes() {
        b"due" => {
            let Some(due) = due_of(rest) else {
                return String::from_str(alloc, "no such due");
            };
            given.due = due;
            String::from_str(alloc, "due")
        }
        b"settled" => {
            given.settled = true;
            String::from_str(alloc, "settled")
        }
        b"fold" => folded(alloc, cards, given, rest),
        b"done" => done(alloc, cards, given),
        b"up" => up(alloc, cards),
        b"hands" => hands(alloc, cards),
        b"table" => cards_text(alloc, &cards.board()),
        b"mucked" => seats_text(alloc, &cards.mucked()),
        b"unknown" => seats_text(alloc, &cards.unknown()),
        b"places" => places(alloc, cards),
        _ => event_answer(alloc, cards, given, word, rest),
    }
}

// What is due, from its words.
fn due_of(text: &str) -> Option<Due> {
    let (word, street) = first_and_rest(text);
    match word.as_bytes() {
        b"Deal" => Some(Due::Deal(street.parse::<u8>().ok()?)),
        b"Draw" => Some(Due::Draw(street.parse::<u8>().ok()?)),
        b"Move" => Some(Due::Move),
        b"Show" => Some(Due::Show),
        b"Over" => Some(Due::Over),
        _ => None,
    }
}

fn folded<V: Variant>(
    alloc: Global,
    cards: &mut Cards<V>,
    given: &mut GivenState,
    seat: &str,
) -> Result<String, AllocError> {
    match seat_of(seat) {
        Some(seat) if seat.number <= given.live.seats => {
            given.live.set(seat, false);
            cards.folded(seat);
            String::from_str(alloc, "ok")
        }
        _ => no_event(alloc),
    }
}

fn done<V: Variant>(
    alloc: Global,
    cards: &Cards<V>,
    given: &GivenState,
) -> Result<String, AllocError> {
    if given.live.seats != cards.seats() || !is_within::<V>(given.due) {
        return String::from_str(alloc, "no such street");
    }
    let done = cards.done(given.due, &given.live);
    format!(in alloc; "{done}")
}

fn up<V: Variant>(alloc: Global, cards: &Cards<V>) -> Result<String, AllocError> {
    let row = cards.up();
    let mut text = String::new(alloc);
    for index in 0..row.seats {
        if index > 0 {
            text.push_str(" ")?;
        }
        push_slots(&mut text, row.get(Seat { number: index + 1 }).as_slice())?;
    }
    Ok(text)
}

fn hands<V: Variant>(alloc: Global, cards: &Cards<V>) -> Result<String, AllocError> {
    let row = cards.hands();
    let mut text = String::new(alloc);
    for index in 0..row.seats {
        if index > 0 {
            text.push_str(" ")?;
        }
        push_slots(&mut text, row.get(Seat { number: index + 1 }).as_slice())?;
    }
    Ok(text)
}

fn cards_text(alloc: Global, row: &CardRow) -> Result<String, AllocError> {
    let mut text = String::new(alloc);
    for card in row.as_slice() {
        push_slots(&mut text, &[Slot::Known(*card)])?;
    }
    Ok(text)
}

// All dealt cards in the order of the trace: owner, street, card, and the street of the draw that
// discarded it.
fn places<V: Variant>(alloc: Global, cards: &Cards<V>) -> Result<String, AllocError> {
    let mut text = String::new(alloc);
    for index in 0..cards.place_count() {
        if index > 0 {
            text.push_str(" ")?;
        }
        let place = cards.place(index);
        match place.owner {
            Some(seat) => {
                let number = seat.number;
                write!(text, "{number}")?;
            }
            None => text.push_str("board")?,
        }
        let (street, gone) = (place.street, place.gone);
        write!(text, "/{street}/")?;
        push_slots(&mut text, &[place.slot])?;
        if gone > 0 {
            write!(text, "/{gone}")?;
        }
    }
    Ok(text)
}

// The slots of a row, such as `2c??`, or `-` for none.
fn push_slots(text: &mut String, slots: &[Slot]) -> Result<(), AllocError> {
    if slots.is_empty() {
        text.push_str("-")?;
    }
    for slot in slots {
        let [rank, suit] = slot_text(*slot);
        text.push(char::from(rank))?;
        text.push(char::from(suit))?;
    }
    Ok(())
}

// An event of cards.
fn event_answer<V: Variant>(
    alloc: Global,
    cards: &mut Cards<V>,
    given: &GivenState,
    word: &str,
    rest: &str,
) -> Result<String, AllocError> {
    match word.as_bytes() {
        b"hole" => {
            let Some((seat, slots)) = seat_and_slots(rest) else {
                return no_event(alloc);
            };
            dealt(alloc, cards, given, Kind::Hole { seat, cards: slots })
        }
        b"board" => {
            let Ok(slots) = read_slots(rest.as_bytes()) else {
                return no_event(alloc);
            };
            let cards_dealt = known(&slots);
            dealt(alloc, cards, given, Kind::Board { cards: cards_dealt })
        }
        b"discard" => {
            let Some((seat, slots)) = seat_and_slots(rest) else {
                return no_event(alloc);
            };
            discarded(alloc, cards, given, Kind::Discard { seat, cards: slots })
        }
        b"show" => {
            let Some((seat, slots)) = seat_and_slots(rest) else {
                return no_event(alloc);
            };
            let cards_shown = known(&slots);
            shown(
                alloc,
                cards,
                given,
                Kind::Show {
                    seat,
                    cards: cards_shown,
                },
            )
        }
        b"muck" => {
            let Some(seat) = seat_of(rest) else {
                return no_event(alloc);
            };
            shown(alloc, cards, given, Kind::Muck { seat })
        }
        _ => no_event(alloc),
    }
}

fn seat_and_slots(text: &str) -> Option<(Seat, SlotRow)> {
    let (seat, slots) = first_and_rest(text);
    Some((seat_of(seat)?, read_slots(slots.as_bytes()).ok()?))
}

fn dealt<V: Variant>(
    alloc: Global,
    cards: &mut Cards<V>,
    given: &GivenState,
    kind: Kind,
) -> Result<String, AllocError>
    requires { is_deal (kind_said kind) ≡ true }
{
    if given.live.seats != cards.seats() || !is_within::<V>(given.due) {
        return String::from_str(alloc, "no such street");
    }
    outcome(
        alloc,
        cards.deal(given.due, &given.live, &Event { at: 0, kind }),
    )
}

fn no_event(alloc: Global) -> Result<String, AllocError> {
    String::from_str(alloc, "no event")
}

// The known cards of a row.
fn known(slots: &SlotRow) -> CardRow {
    let mut cards = CardRow::new();
    for slot in slots.as_slice() {
        if let Slot::Known(card) = slot {
            if cards.len < 7 {
                cards.push(*card);
            }
        }
    }
    cards
}

fn discarded<V: Variant>(
    alloc: Global,
    cards: &mut Cards<V>,
    given: &GivenState,
    kind: Kind,
) -> Result<String, AllocError>
    requires { is_discard (kind_said kind) ≡ true }
{
    if given.live.seats != cards.seats() || !is_within::<V>(given.due) {
        return String::from_str(alloc, "no such street");
    }
    outcome(
        alloc,
        cards.discard(given.due, &given.live, &Event { at: 0, kind }),
    )
}

// The street of a deal or a draw is one of the game's.
fn is_within<V: Variant>(due: Due) -> bool
    ensures { IsTrue result → IsDueWithin V.STREETS due }
{
    match due {
        Due::Deal(on) => 1 <= on && on <= V::STREETS,
        Due::Draw(on) => 1 <= on && on <= V::STREETS,
        Due::BringIn | Due::Move | Due::Show | Due::Over => true,
    }
}

fn shown<V: Variant>(
    alloc: Global,
    cards: &mut Cards<V>,
    given: &GivenState,
    kind: Kind,
) -> Result<String, AllocError>
    requires { is_showing (kind_said kind) ≡ true }
{
    if given.live.seats != cards.seats() {
        return String::from_str(alloc, "no such seats");
    }
    outcome(
        alloc,
        cards.show(
            given.due,
            &given.live,
            given.settled,
            &Event { at: 0, kind },
        ),
    )
}

fn outcome(alloc: Global, taken: Result<(), Illegal>) -> Result<String, AllocError> {
    match taken {
        Ok(()) => String::from_str(alloc, "ok"),
        Err(reason) => format!(in alloc; "{reason:?}"),
    }
}
