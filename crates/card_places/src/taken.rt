//! Whether a card is taken: it is not in the deck, or it clashes with another place.
ghost use Rattle.std.specs.Prelude.{◌≡◌, ◌+◌, ◌&&◌, ◌==◌, map, not, count_by, nat_lt, is_some};
ghost use Rattle.std.specs.List.{list_any};
ghost use Rattle.play_event.specs.Places as places;
ghost use Rattle.play_event.specs.Taken as taken;
ghost use Rattle.card_places.specs.Plain.{place_of};

use crate::deal_table::DealTable;
use crate::dealt_card::DealtCard;
use crate::names::{has_repeat, is_one_card, slot_is_card};
use card_set::{Card, Slot};

/// Whether one of the slots may not be dealt on this street: its card is not in the deck, a place
/// has it, or two of the slots have it.
pub fn has_taken_card(table: &DealTable, rows: &[DealtCard], street: u8, slots: &[Slot]) -> bool
    ensures { result ≡ taken.has_taken_card table.now.code
        (map place_of rows.now) street slots.now }
{
    some_taken(table, rows, is_past_deck(table, rows, street), slots) || has_repeat(slots)
}

// One of the slots may not be dealt after these places.
fn some_taken(table: &DealTable, rows: &[DealtCard], past_deck: bool, slots: &[Slot]) -> bool
    ensures { result ≡ list_any (taken.is_taken table.now.code
        (map place_of rows.now) past_deck) slots.now }
{
    match slots {
        [] => false,
        [slot, rest @ ..] => is_taken(table, rows, past_deck, *slot)
            || some_taken(table, rows, past_deck, rest),
    }
}

// The slot may not be dealt after these places.
fn is_taken(table: &DealTable, rows: &[DealtCard], past_deck: bool, slot: Slot) -> bool
    ensures { result ≡ taken.is_taken table.now.code (map place_of rows.now) past_deck slot }
{
    match slot {
        Slot::Known(card) => !table.in_deck(card) || lies(rows, past_deck, card),
        Slot::Unknown => false,
    }
}

// A place has the card; if the deck has run out, gone places do not count.
fn lies(rows: &[DealtCard], past_deck: bool, card: Card) -> bool
    ensures { result ≡ list_any (λ place. not (past_deck && is_some place.gone_after)
        && taken.slot_is_card card place.slot) (map place_of rows.now) }
{
    match rows {
        [] => false,
        [row, rest @ ..] => {
            !(past_deck && row.gone_after.is_some()) && slot_is_card(card, row.slot)
                || lies(rest, past_deck, card)
        }
    }
}

/// Whether a card that is dealt now on this street is dealt after the deck ran out: only then may
/// cards that are gone come back.
pub fn is_past_deck(table: &DealTable, rows: &[DealtCard], street: u8) -> bool
    ensures { result ≡ places.is_past_deck table.now.code (map place_of rows.now) street }
{
    table.street(street).draws && (table.deck() as usize) < count_drawn(rows, street)
}

// The number of cards dealt before the street plus the number discarded on it.
fn count_drawn(rows: &[DealtCard], street: u8) -> usize
    ensures { result ≡ count_by (λ place. nat_lt place.street street) (map place_of rows.now)
        + count_by (λ place. place.discarded == street) (map place_of rows.now) }
{
    let mut count = 0;
    for row in rows {
        if row.street < street {
            count += 1;
        }
        if row.discarded == street {
            count += 1;
        }
    }
    count
}

/// Whether the card of a slot is not in the deck.
pub fn is_not_in_deck(table: &DealTable, slot: Slot) -> bool
    ensures { result ≡ taken.is_not_in_deck table.now.code slot }
{
    match slot {
        Slot::Known(card) => !table.in_deck(card),
        Slot::Unknown => false,
    }
}

/// Whether two places clash: both have the same card, and neither may repeat the other.
pub fn is_clash(a: &DealtCard, b: &DealtCard) -> bool
    ensures { result ≡ taken.is_clash (place_of a.now) (place_of b.now) }
{
    !(may_repeat(a, b) || may_repeat(b, a)) && is_one_card(a.slot, b.slot)
}

// A place may repeat the card of another.
fn may_repeat(card: &DealtCard, other: &DealtCard) -> bool
    ensures { result ≡ taken.may_repeat (place_of card.now) (place_of other.now) }
{
    card.past_deck && is_gone_before(other.gone_after, card.number)
}

// The card was gone before `number` cards were dealt.
fn is_gone_before(gone_after: Option<u8>, number: u8) -> bool
    ensures { result ≡ taken.is_gone_before gone_after number }
{
    match gone_after {
        Some(count) => count <= number,
        None => false,
    }
}
