//! What a list or a text holds after one item is put into it.
use crate::card_words::slots_text;
use crate::event_words::{event_text, kind_of};
use crate::setup_words::setup_of;
use chip_ledger::Seat;
use first_fault::Text;
use hand_canon::{Moves, Notes, Places, Record, Records, Stated};
use play_event::{Act, Event, Kind, Move, Place, Rules, Script, Setup};
use std::alloc::{AllocError, Global};

/// What the lists hold: a script with the row's event, places with the first card that it deals,
/// moves with a fold, and records with the row's setup and such a script.
pub fn pushed(alloc: Global, row: &str) -> Result<Option<String>, AllocError> {
    let Some((start, event)) = row.split_once(": ") else {
        return Ok(None);
    };
    let (Some((setup, rules)), Some(kind)) = (setup_of(start), kind_of(event)) else {
        return Ok(None);
    };
    let script = script_with(alloc, kind)?;
    let places = places_with(alloc, kind)?;
    let moves = moves_with(alloc)?;
    let records = records_with(alloc, setup, rules, kind)?;
    Ok(Some(format!(in alloc; "{script}; {places}; {moves}; {records}")?))
}

fn script_with(alloc: Global, kind: Kind) -> Result<String, AllocError> {
    let mut script = Script::new(alloc);
    match script.push(Event { at: 1, kind }) {
        Ok(()) => {
            let count = script.len();
            let event = event_text(alloc, &script.get(0).kind)?;
            format!(in alloc; "{count} event, {event}")
        }
        Err(_) => Err(AllocError),
    }
}

// The first card of a deal, as a card of the first street.
fn places_with(alloc: Global, kind: Kind) -> Result<String, AllocError> {
    let Kind::Hole { seat, cards } = kind else {
        return String::from_str(alloc, "no place");
    };
    let mut places = Places::new(alloc);
    let place = Place {
        owner: Some(seat),
        street: 1,
        slot: cards.slots[0],
        gone: 0,
    };
    match places.push(place) {
        Ok(()) => {
            let count = places.len();
            let slot = slots_text(alloc, &[places.get(0).slot])?;
            format!(in alloc; "{count} place, {slot}")
        }
        Err(_) => Err(AllocError),
    }
}

fn moves_with(alloc: Global) -> Result<String, AllocError> {
    let mut moves = Moves::new(alloc);
    let fold = Move {
        street: 1,
        seat: Seat { number: 3 },
        act: Act::Fold,
        from: 0,
        to: 0,
        price: 2,
        closed: false,
        unit_to: 0,
    };
    match moves.push(fold) {
        Ok(()) => {
            let count = moves.len();
            let moved = moves.get(0);
            let (act, seat) = (moved.act, moved.seat.number);
            format!(in alloc; "{count} move, {act:?} {seat}")
        }
        Err(_) => Err(AllocError),
    }
}

fn records_with(
    alloc: Global,
    setup: Setup,
    rules: Rules,
    kind: Kind,
) -> Result<String, AllocError> {
    let mut script = Script::new(alloc);
    match script.push(Event { at: 1, kind }) {
        Ok(()) => {}
        Err(_) => return Err(AllocError),
    }
    let record = Record {
        setup,
        rules,
        script,
        stated: Stated::nothing(),
        notes: Notes::none(),
    };
    let mut records = Records::new(alloc);
    match records.push(record) {
        Ok(()) => {
            let count = records.len();
            let record = records.get(0);
            let code = record.setup.code.text();
            let events = record.script.len();
            format!(in alloc; "{count} record, {code} with {events} event")
        }
        Err(_) => Err(AllocError),
    }
}

/// A copy of the row's text.
pub fn copied(alloc: Global, row: &str) -> Result<Option<String>, AllocError> {
    match Text::new(alloc, row) {
        Ok(text) => Ok(Some(String::from_str(alloc, text.as_str())?)),
        Err(_) => Err(AllocError),
    }
}
