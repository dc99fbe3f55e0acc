//! Cards and unknown cards as text, such as `2c??`; `-` means none.
use card_set::{Card, Slot, slot_text};
use std::alloc::{AllocError, Global};

/// The cards of a row whose cards may be unknown.
pub fn slots_text(alloc: Global, slots: &[Slot]) -> Result<String, AllocError> {
    let mut text = String::new(alloc);
    if slots.is_empty() {
        text.push_str("-")?;
    }
    for slot in slots {
        push_slot(&mut text, *slot)?;
    }
    Ok(text)
}

/// The cards of a row.
pub fn cards_text(alloc: Global, cards: &[Card]) -> Result<String, AllocError> {
    let mut text = String::new(alloc);
    if cards.is_empty() {
        text.push_str("-")?;
    }
    for card in cards {
        push_slot(&mut text, Slot::Known(*card))?;
    }
    Ok(text)
}

fn push_slot(text: &mut String, slot: Slot) -> Result<(), AllocError> {
    let [rank, suit] = slot_text(slot);
    text.push(char::from(rank))?;
    text.push(char::from(suit))
}
