//! The cards that were dealt to one owner on a street, and those that a seat holds at the end.
ghost use Rattle.std.specs.Prelude.{◌≡◌, ◌≤◌, ◌+◌, ◌&&◌, [], ◌∷◌, ◌++◌, length, map, option_map, if◌then◌else◌};
ghost use Rattle.card_set.specs.Row.{slots_of};
ghost use Rattle.play_event.specs.Places.{is_same_owner};
ghost use Rattle.play_event.specs.CanonScript.{dealt_slots, held_slots};
ghost use Rattle.hand_canon.specs.TraceRows.{place_said};
ghost use Rattle.ohh_writing.specs.Actions as actions;

use card_set::{Slot, SlotRow};
use chip_ledger::Seat;
use play_event::Place;

/// The cards that an owner was dealt on a street; the owner `None` is the board.
pub fn dealt_cards(places: &[Place], owner: Option<Seat>, street: u8) -> SlotRow
    requires { length (dealt_slots (map place_said places.now)
        (option_map (λ seat. seat.number) owner) street) ≤ 7 }
    ensures { slots_of result ≡ dealt_slots (map place_said places.now)
        (option_map (λ seat. seat.number) owner) street }
{
    let mut cards = SlotRow::new();
    let mut rest = places;
    while let [place, behind @ ..] = rest {
        add(&mut cards, *place, owner, place.street == street);
        rest = behind;
    }
    cards
}

/// The cards that a seat holds at the end.
pub fn held_cards(places: &[Place], seat: Seat) -> SlotRow
    requires { length (held_slots (map place_said places.now) seat.number) ≤ 7 }
    ensures { slots_of result ≡ held_slots (map place_said places.now) seat.number }
{
    let mut cards = SlotRow::new();
    let mut rest = places;
    while let [place, behind @ ..] = rest {
        add(&mut cards, *place, Some(seat), place.gone == 0);
        rest = behind;
    }
    cards
}

// Appends the card of a place, if the place counts and belongs to this owner.
fn add(cards: &mut SlotRow, place: Place, owner: Option<Seat>, counts: bool)
    requires { length (slots_of cards.old) + length (if is_same_owner (place_said place).owner
        (option_map (λ seat. seat.number) owner) && counts then place.slot ∷ [] else []) ≤ 7 }
    ensures { slots_of cards.new ≡ slots_of cards.old ++ (if is_same_owner (place_said place).owner
        (option_map (λ seat. seat.number) owner) && counts then place.slot ∷ [] else []) }
{
    if counts && is_owner(place.owner, owner) {
        cards.push(place.slot);
    }
}

// Whether two owners are the same.
fn is_owner(one: Option<Seat>, other: Option<Seat>) -> bool
    ensures { result ≡ is_same_owner (option_map (λ seat. seat.number) one)
        (option_map (λ seat. seat.number) other) }
{
    match (one, other) {
        (Some(seat), Some(owner)) => seat.number == owner.number,
        (None, None) => true,
        _ => false,
    }
}

/// Whether one of the cards is known.
pub fn has_known(cards: &[Slot]) -> bool
    ensures { result ≡ actions.has_known_card cards.now }
{
    for card in cards {
        if !card.is_unknown() {
            return true;
        }
    }
    false
}
