//! Matches the names of a discard or a show with places, in the order of dealing.
ghost use Rattle.std.specs.Prelude.{◌≡◌, ◌∷◌, List, length, map};
ghost use Rattle.std.specs.List.{list_any};
ghost use Rattle.card_set.specs.Row.{cards_of};
ghost use Rattle.play_event.specs.CardReasons as reasons;
ghost use Rattle.play_event.specs.Places.{Place};
ghost use Rattle.play_event.specs.NameMatching as naming;
ghost use Rattle.card_places.specs.Covered.{after_named, covered};
ghost use Rattle.card_places.specs.Marks.{mark_by};
ghost use Rattle.card_places.specs.Placed.{placed};
ghost use Rattle.card_places.specs.Plain.{place_of};
ghost use Rattle.card_places.specs.Searches as searches;
ghost use Rattle.card_places.specs.Searches.{search_from};

use crate::deal_table::DealTable;
use crate::dealt_card::DealtCard;
use crate::dealt_cards::DealtCards;
use crate::finding::{FoundPlace, match_name};
use crate::names::without;
use card_set::CardRow;
use chip_ledger::Seat;

/// What is looked for: cards of a seat, all of them or those face down; the street on which they
/// are discarded, if they are, and after how many dealt cards; the names, which of them no known
/// card has, and the number of blanks that come with them.
#[derive(Clone, Copy)]
pub struct NamedCards {
    pub seat: Seat,
    pub all: bool,
    pub street: Option<u8>,
    pub count: u8,
    pub names: CardRow,
    pub others: CardRow,
    pub blanks: u8,
}

/// Looks for the names and `blanks` blanks among the places that the event applies to. With a
/// street, the cards found are discarded on it; without one they stay.
pub fn named_cards(
    table: &DealTable,
    places: &DealtCards,
    seat: Seat,
    all: bool,
    street: Option<u8>,
    names: &CardRow,
    blanks: u8,
) -> NamedCards
    ensures after { searches.searched table.now.code result (placed places.now)
        ≡ after_named table.now.code seat.number all
        (mark_by street (length (placed places.now))) (cards_of names.now) blanks
        (placed places.now) }
    ensures lacking { searches.has_unplaced_name table.now.code result (placed places.now)
        ≡ reasons.has_no_place (covered table.now.code seat.number all (placed places.now))
        (cards_of names.now) blanks }
    ensures left_out { searches.has_left_out_card table.now.code result (placed places.now)
        ≡ list_any (λ place. reasons.is_left_out (cards_of names.now) place.slot)
        (covered table.now.code seat.number all (placed places.now)) }
{
    NamedCards {
        seat,
        all,
        street,
        count: places.count,
        names: *names,
        others: other_names(table, places.as_slice(), seat, all, names),
        blanks,
    }
}

// The names that no known card has among the places that the event applies to: unknown places may
// take them.
fn other_names(
    table: &DealTable,
    rows: &[DealtCard],
    seat: Seat,
    all: bool,
    names: &CardRow,
) -> CardRow
    ensures { cards_of result ≡ naming.unmatched_names
        (covered table.now.code seat.number all (map place_of rows.now)) (cards_of names.now) }
{
    let mut others = *names;
    for card in rows {
        if covers(table, card, seat, all) {
            others = without(card.slot, &others);
        }
    }
    others
}

/// Matches the names with places, in the order of dealing.
pub fn apply_names(table: &DealTable, places: &mut DealtCards, search: &NamedCards)
    ensures { placed places.new
        ≡ searches.searched table.now.code search.now (placed places.old) }
{
    let mut taken = 0;
    let mut blanks = search.blanks;
    for index in 0..places.count as usize {
        let found = peek(table, search, places.rows[index], taken, blanks);
        places.rows[index] = found.card;
        taken = found.taken;
        blanks = found.blanks;
    }
}

/// Matches the next place with the names; `taken` and `blanks` say how far earlier places got.
pub fn peek(
    table: &DealTable,
    search: &NamedCards,
    card: DealtCard,
    taken: u8,
    blanks: u8,
) -> FoundPlace
    ensures { (rest : List Place) → search_from table.now.code search.now taken blanks
        (place_of card ∷ rest)
        ≡ place_of result.card
        ∷ search_from table.now.code search.now result.taken result.blanks rest }
{
    if covers(table, &card, search.seat, search.all) {
        match_name(
            card,
            search.street,
            search.count,
            &search.names,
            &search.others,
            taken,
            blanks,
        )
    } else {
        FoundPlace {
            card,
            taken,
            blanks,
        }
    }
}

/// Whether a discard or a show of the seat applies to the card: to all its cards, or those face
/// down.
pub fn covers(table: &DealTable, card: &DealtCard, seat: Seat, all: bool) -> bool
    ensures { result ≡ naming.can_be_named table.now.code seat.number all (place_of card.now) }
{
    card.held_by(Some(seat)) && (all || !table.is_up(card))
}
