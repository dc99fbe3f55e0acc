//! Events as words: `hole 1 2c??`, `board 2c3d4h`, `fold 1`, `call 1 6`, `raise 1 to 40`, `bring_in
//! 1`, `discard 1 2c`, `show 1 2c3d` and `muck 1`. A move by the player to act has `-` as its seat,
//! and a call that states no chips, or a discard of no card, ends with `-`.
ghost use Rattle.std.specs.Prelude.{◌≡◌, false, IfSome};
ghost use Rattle.play_event.specs.Said.{kind_said};
ghost use Rattle.play_laws.specs.CardEvents.{is_card_said};

use crate::card_words::{cards_text, slots_text};
use crate::words::{first_and_rest, seat_of};
use card_set::{CardRow, Slot, SlotRow, read_slots};
use chip_ledger::Seat;
use play_event::{Kind, Spelled};
use std::alloc::{AllocError, Global};

/// The event that the words say.
pub fn kind_of(words: &str) -> Option<Kind> {
    let (word, rest) = first_and_rest(words);
    match word.as_bytes() {
        b"hole" => {
            let (seat, cards) = seat_and_slots(rest)?;
            Some(Kind::Hole { seat, cards })
        }
        b"board" => Some(Kind::Board {
            cards: known(&slots_of(rest)?)?,
        }),
        b"discard" => {
            let (seat, cards) = seat_and_slots(rest)?;
            Some(Kind::Discard { seat, cards })
        }
        b"show" => {
            let (seat, slots) = seat_and_slots(rest)?;
            Some(Kind::Show {
                seat,
                cards: known(&slots)?,
            })
        }
        b"muck" => Some(Kind::Muck {
            seat: seat_of(rest)?,
        }),
        _ => move_of(word, rest),
    }
}

fn seat_and_slots(text: &str) -> Option<(Seat, SlotRow)> {
    let (seat, slots) = first_and_rest(text);
    Some((seat_of(seat)?, slots_of(slots)?))
}

fn slots_of(text: &str) -> Option<SlotRow> {
    match text.as_bytes() {
        b"-" => Some(SlotRow::new()),
        _ => read_slots(text.as_bytes()).ok(),
    }
}

// The cards of a row, if all are known.
fn known(slots: &SlotRow) -> Option<CardRow> {
    let mut cards = CardRow::new();
    for slot in slots.as_slice() {
        match slot {
            Slot::Known(card) if cards.len < 7 => cards.push(*card),
            _ => return None,
        }
    }
    Some(cards)
}

/// The move that a first word and the words after it say: an event without cards.
pub fn move_of(word: &str, rest: &str) -> Option<Kind>
    ensures { IfSome result (λ kind. is_card_said (kind_said kind) ≡ false) }
{
    let (actor, rest) = first_and_rest(rest);
    let actor = actor_of(actor)?;
    match word.as_bytes() {
        b"fold" => Some(Kind::Fold { actor }),
        b"call" => Some(Kind::Call {
            actor,
            stated: stated_of(rest)?,
        }),
        b"raise" => Some(Kind::Raise {
            actor,
            amount: amount_of(rest)?,
        }),
        b"bring_in" => Some(Kind::BringIn { actor }),
        _ => None,
    }
}

// The seat that is named; `-` names none.
fn actor_of(word: &str) -> Option<Option<Seat>> {
    match word.as_bytes() {
        b"-" => Some(None),
        _ => Some(Some(seat_of(word)?)),
    }
}

// The chips that are stated; `-` states none.
fn stated_of(word: &str) -> Option<Option<u64>> {
    match word.as_bytes() {
        b"-" => Some(None),
        _ => Some(Some(word.parse::<u64>().ok()?)),
    }
}

fn amount_of(words: &str) -> Option<Spelled> {
    let (spelling, chips) = first_and_rest(words);
    match spelling.as_bytes() {
        b"to" => Some(Spelled::To(chips.parse::<u64>().ok()?)),
        b"added" => Some(Spelled::Added(chips.parse::<u64>().ok()?)),
        b"total" => Some(Spelled::HandTotal(chips.parse::<u64>().ok()?)),
        b"unit" => Some(Spelled::Unit),
        _ => None,
    }
}

/// The words of an event.
pub fn event_text(alloc: Global, kind: &Kind) -> Result<String, AllocError> {
    match kind {
        Kind::Hole { seat, cards } => with_slots(alloc, "hole", *seat, cards),
        Kind::Discard { seat, cards } => with_slots(alloc, "discard", *seat, cards),
        Kind::Board { cards } => {
            let cards = cards_text(alloc, cards.as_slice())?;
            format!(in alloc; "board {cards}")
        }
        Kind::Show { seat, cards } => {
            let seat = seat.number;
            let cards = cards_text(alloc, cards.as_slice())?;
            format!(in alloc; "show {seat} {cards}")
        }
        Kind::Muck { seat } => {
            let seat = seat.number;
            format!(in alloc; "muck {seat}")
        }
        Kind::Fold { actor } => with_actor(alloc, "fold", *actor),
        Kind::BringIn { actor } => with_actor(alloc, "bring_in", *actor),
        Kind::Call { actor, stated } => {
            let call = with_actor(alloc, "call", *actor)?;
            match stated {
                Some(chips) => format!(in alloc; "{call} {chips}"),
                None => format!(in alloc; "{call} -"),
            }
        }
        Kind::Raise { actor, amount } => {
            let raise = with_actor(alloc, "raise", *actor)?;
            match amount {
                Spelled::To(chips) => format!(in alloc; "{raise} to {chips}"),
                Spelled::Added(chips) => format!(in alloc; "{raise} added {chips}"),
                Spelled::HandTotal(chips) => format!(in alloc; "{raise} total {chips}"),
                Spelled::Unit => format!(in alloc; "{raise} unit"),
            }
        }
    }
}

fn with_slots(
    alloc: Global,
    word: &str,
    seat: Seat,
    slots: &SlotRow,
) -> Result<String, AllocError> {
    let seat = seat.number;
    let cards = slots_text(alloc, slots.as_slice())?;
    format!(in alloc; "{word} {seat} {cards}")
}

fn with_actor(alloc: Global, word: &str, actor: Option<Seat>) -> Result<String, AllocError> {
    match actor {
        Some(seat) => {
            let number = seat.number;
            format!(in alloc; "{word} {number}")
        }
        None => format!(in alloc; "{word} -"),
    }
}
