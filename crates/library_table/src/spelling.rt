//! Tests how cards are written: `spelling TEXT` writes each slot of the text again and names its
//! card, or names the fault of the text.
use card_set::{Slot, read_slots, slot_text};
use std::alloc::{AllocError, Global};

/// The answer to a row about a text.
pub fn answer_to(alloc: Global, row: &str) -> Result<Option<String>, AllocError> {
    match read_slots(row.as_bytes()) {
        Ok(slots) => Ok(Some(slots_text(alloc, slots.as_slice())?)),
        Err(fault) => Ok(Some(format!(in alloc; "{fault:?}")?)),
    }
}

// The slots, separated by commas.
fn slots_text(alloc: Global, slots: &[Slot]) -> Result<String, AllocError> {
    if slots.is_empty() {
        return String::from_str(alloc, "no slot");
    }
    let mut text = String::new(alloc);
    for (index, slot) in slots.iter().enumerate() {
        if index > 0 {
            text.push_str(", ")?;
        }
        push_slot(&mut text, *slot)?;
    }
    Ok(text)
}

// A slot as it is written, and its card.
fn push_slot(text: &mut String, slot: Slot) -> Result<(), AllocError> {
    let [first, second] = slot_text(slot);
    let (first, second) = (char::from(first), char::from(second));
    match slot {
        Slot::Known(card) => {
            let (rank, suit) = (card.rank, card.suit);
            write!(text, "{first}{second} {rank:?} {suit:?}")
        }
        Slot::Unknown => write!(text, "{first}{second} unknown"),
    }
}
