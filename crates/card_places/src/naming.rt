//! Finds names without a place, and known cards that a show leaves out.
ghost use Rattle.std.specs.Prelude.{◌≡◌, ◌≤◌, map, length, count_by, ◌&&◌};
ghost use Rattle.play_event.specs.NameMatching as naming;
ghost use Rattle.card_set.specs.Known as known;
ghost use Rattle.card_places.specs.Covered.{covered};
ghost use Rattle.card_places.specs.Plain.{place_of};
ghost use Rattle.card_places.specs.Searches as searches;

use crate::deal_table::DealTable;
use crate::dealt_card::DealtCard;
use crate::names::left_out;
use crate::search::{NamedCards, covers};

/// Whether a known card that the event applies to is not named.
pub fn omits_known_card(table: &DealTable, rows: &[DealtCard], search: &NamedCards) -> bool
    ensures { result
        ≡ searches.has_left_out_card table.now.code search.now (map place_of rows.now) }
{
    for row in rows {
        if covers(table, row, search.seat, search.all)
            && left_out(row.slot, search.names.as_slice())
        {
            return true;
        }
    }
    false
}

/// Whether more names and blanks need an unknown place than there are.
pub fn lacks_unknown_places(table: &DealTable, rows: &[DealtCard], search: &NamedCards) -> bool
    ensures { result
        ≡ searches.has_unplaced_name table.now.code search.now (map place_of rows.now) }
{
    free_count(table, rows, search) < search.others.len as usize + search.blanks as usize
}

// The number of unknown places that the event applies to.
#[tactic(auto, using(crate::proofs::Covered::free_more))]
fn free_count(table: &DealTable, rows: &[DealtCard], search: &NamedCards) -> usize
    ensures value { result ≡ count_by (λ place. known.hides_card place.slot)
        (covered table.now.code search.now.seat.number search.now.all (map place_of rows.now)) }
    ensures most { result ≤ length rows.now }
{
    let mut count = 0;
    for row in rows {
        if is_free(table, row, search) {
            count += 1;
        }
    }
    count
}

// The event applies to the place, and its card is unknown.
fn is_free(table: &DealTable, card: &DealtCard, search: &NamedCards) -> bool
    ensures { result ≡ (naming.can_be_named table.now.code search.now.seat.number search.now.all
        (place_of card.now) && known.hides_card card.now.slot) }
{
    covers(table, card, search.seat, search.all) && card.slot.is_unknown()
}
