//! Checks the names of an event against the places without changing them: what the names would make
//! of the places is looked at one by one.
ghost use Rattle.std.specs.Prelude.{◌≡◌, ◌&&◌, ◌==◌, not, map};
ghost use Rattle.std.specs.List.{list_any};
ghost use Rattle.card_set.specs.Known as known;
ghost use Rattle.play_event.specs.Taken as taken;
ghost use Rattle.card_places.specs.Plain.{place_of};
ghost use Rattle.card_places.specs.Searches.{searched};

use crate::deal_table::DealTable;
use crate::dealt_card::DealtCard;
use crate::search::{NamedCards, peek};
use crate::taken::{is_clash, is_not_in_deck};

/// Whether the names make a card known that cannot be where it then is.
pub fn is_misplacing(table: &DealTable, rows: &[DealtCard], search: &NamedCards) -> bool
    ensures { result ≡ taken.has_misplaced_card table.now.code (map place_of rows.now)
        (searched table.now.code search.now (map place_of rows.now)) }
{
    let mut taken = 0;
    let mut blanks = search.blanks;
    for row in rows {
        let found = peek(table, search, *row, taken, blanks);
        if is_newly_misplaced(table, rows, search, row, &found.card) {
            return true;
        }
        taken = found.taken;
        blanks = found.blanks;
    }
    false
}

// The names turn the old place into this new one, and make a card known that cannot be there.
fn is_newly_misplaced(
    table: &DealTable,
    rows: &[DealtCard],
    search: &NamedCards,
    old: &DealtCard,
    new: &DealtCard,
) -> bool
    ensures { result ≡ ((known.hides_card old.now.slot && not (known.hides_card new.now.slot))
        && taken.is_misplaced table.now.code
        (searched table.now.code search.now (map place_of rows.now)) (place_of new.now)) }
{
    old.slot.is_unknown() && !new.slot.is_unknown() && is_misplaced(table, rows, search, new)
}

// The card of a place cannot be there, among the places after the names.
fn is_misplaced(
    table: &DealTable,
    rows: &[DealtCard],
    search: &NamedCards,
    card: &DealtCard,
) -> bool
    ensures { result ≡ taken.is_misplaced table.now.code
        (searched table.now.code search.now (map place_of rows.now)) (place_of card.now) }
{
    is_not_in_deck(table, card.slot) || clashes(table, rows, search, card)
}

// The place clashes with another one after the names.
fn clashes(table: &DealTable, rows: &[DealtCard], search: &NamedCards, card: &DealtCard) -> bool
    ensures { result ≡ list_any (λ other. not (other.number == card.now.number)
        && taken.is_clash (place_of card.now) other)
        (searched table.now.code search.now (map place_of rows.now)) }
{
    let mut taken = 0;
    let mut blanks = search.blanks;
    for row in rows {
        let found = peek(table, search, *row, taken, blanks);
        if found.card.number != card.number && is_clash(card, &found.card) {
            return true;
        }
        taken = found.taken;
        blanks = found.blanks;
    }
    false
}
