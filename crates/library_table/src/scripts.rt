//! Tests scripts: `scripts packed EVENT; EVENT..` gives their bytes, and `scripts read EVENT;
//! EVENT..` how many of the events a cursor and `get` give back. An event is the number of its
//! action, its kind, and what it says: `4 raise 3 to 6`.
use crate::words;
use card_set::{CardRow, ROW_ENTRIES, Slot, SlotRow, read_slots};
use chip_ledger::Seat;
use play_event::{Event, Kind, Script, Spelled};
use std::alloc::{AllocError, Global};

/// The answer to a row about a script.
pub fn answer_to(alloc: Global, row: &str) -> Result<Option<String>, AllocError> {
    let (question, events) = words::first_and_rest(row);
    let Some(script) = script_of(alloc, events) else {
        return Ok(None);
    };
    match question.as_bytes() {
        b"packed" => Ok(Some(packed_text(alloc, &script)?)),
        b"read" => Ok(Some(read_text(alloc, &script, events)?)),
        _ => Ok(None),
    }
}

fn script_of(alloc: Global, events: &str) -> Option<Script> {
    let mut script = Script::new(alloc);
    for text in events.split("; ") {
        script.push(event_of(text)?).ok()?;
    }
    Some(script)
}

// The bytes in hexadecimal, two digits each, with a space between them, and how many they are.
fn packed_text(alloc: Global, script: &Script) -> Result<String, AllocError> {
    let bytes = script.packed();
    let count = bytes.len();
    let mut text = format!(in alloc; "{count}:")?;
    for byte in bytes {
        write!(text, " {byte:02x}")?;
    }
    Ok(text)
}

// How many events there are, and how many of them are read back at their place.
fn read_text(alloc: Global, script: &Script, events: &str) -> Result<String, AllocError> {
    let count = script.len();
    let mut cursor = script.cursor();
    let mut by_cursor: usize = 0;
    let mut by_index: usize = 0;
    for (index, text) in events.split("; ").enumerate() {
        let event = event_of(text);
        if cursor.next() == event {
            by_cursor = by_cursor.saturating_add(1);
        }
        if index < script.len() && Some(script.get(index)) == event {
            by_index = by_index.saturating_add(1);
        }
    }
    let end = if cursor.next().is_none() {
        "then none"
    } else {
        "then more"
    };
    format!(in alloc; "{count} events, {by_cursor} by cursor, {by_index} by index, {end}")
}

fn event_of(text: &str) -> Option<Event> {
    let (number, rest) = words::first_and_rest(text);
    let (word, rest) = words::first_and_rest(rest);
    let at = number.parse::<u32>().ok()?;
    let kind = kind_of(word, rest)?;
    Some(Event { at, kind })
}

fn kind_of(word: &str, rest: &str) -> Option<Kind> {
    let (first, second) = words::first_and_rest(rest);
    match word.as_bytes() {
        b"hole" => Some(Kind::Hole {
            seat: seat_of(first)?,
            cards: slots_of(second)?,
        }),
        b"board" => Some(Kind::Board {
            cards: cards_of(first)?,
        }),
        b"fold" => Some(Kind::Fold {
            actor: actor_of(first)?,
        }),
        b"call" => Some(Kind::Call {
            actor: actor_of(first)?,
            stated: stated_of(second)?,
        }),
        b"raise" => Some(Kind::Raise {
            actor: actor_of(first)?,
            amount: amount_of(second)?,
        }),
        b"bring_in" => Some(Kind::BringIn {
            actor: actor_of(first)?,
        }),
        b"discard" => Some(Kind::Discard {
            seat: seat_of(first)?,
            cards: slots_of(second)?,
        }),
        b"show" => Some(Kind::Show {
            seat: seat_of(first)?,
            cards: cards_of(second)?,
        }),
        b"muck" => Some(Kind::Muck {
            seat: seat_of(first)?,
        }),
        _ => None,
    }
}

fn cards_of(word: &str) -> Option<CardRow> {
    let slots = slots_of(word)?;
    let mut row = CardRow::new();
    for slot in slots.as_slice() {
        match slot {
            Slot::Known(card) if row.len < ROW_ENTRIES => row.push(*card),
            _ => return None,
        }
    }
    Some(row)
}

fn slots_of(word: &str) -> Option<SlotRow> {
    read_slots(word.as_bytes()).ok()
}

// The named seat, or `-` for an actor that is left out.
fn actor_of(word: &str) -> Option<Option<Seat>> {
    match word.as_bytes() {
        b"-" => Some(None),
        _ => Some(Some(seat_of(word)?)),
    }
}

fn seat_of(word: &str) -> Option<Seat> {
    Seat::new(word.parse::<u8>().ok()?)
}

// The chips, or `-` if they are not stated.
fn stated_of(word: &str) -> Option<Option<u64>> {
    match word.as_bytes() {
        b"-" => Some(None),
        _ => Some(Some(word.parse::<u64>().ok()?)),
    }
}

fn amount_of(words: &str) -> Option<Spelled> {
    let (spelling, chips) = words::first_and_rest(words);
    match spelling.as_bytes() {
        b"to" => Some(Spelled::To(chips.parse::<u64>().ok()?)),
        b"added" => Some(Spelled::Added(chips.parse::<u64>().ok()?)),
        b"total" => Some(Spelled::HandTotal(chips.parse::<u64>().ok()?)),
        b"unit" => Some(Spelled::Unit),
        _ => None,
    }
}
