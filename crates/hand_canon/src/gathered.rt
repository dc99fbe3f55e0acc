//! The cards of a trace that were dealt on one street, discarded in one draw, or held at the end,
//! sorted by owner.
ghost use Rattle.std.specs.Prelude.{◌≡◌, ◌≤◌, ℕ, ◌+◌, ◌++◌, Some, None, length, map};
ghost use Rattle.card_set.specs.Row.{slots_of};
ghost use Rattle.play_event.specs.SeatSlots.{slots_of_hand};
ghost use Rattle.play_event.specs.CanonScript.{dealt_slots, discarded_slots, held_slots};
ghost use Rattle.hand_canon.specs.RowTests.{slot_for};
ghost use Rattle.hand_canon.specs.TraceRows.{place_said};

use card_set::SlotRow;
use play_event::{HandRow, Place};

/// The cards that each seat, of ten, was dealt on a street.
pub(crate) fn dealt_to_seats(places: &[Place], street: u8) -> HandRow
    requires { (n : ℕ) → length (dealt_slots (map place_said places.now) (Some n) street) ≤ 7 }
    ensures { (n : ℕ) → 1 ≤ n
        → slots_of_hand result n ≡ dealt_slots (map place_said places.now) (Some n) street }
{
    let mut dealt = HandRow::new(10);
    let mut rest = places;
    while let [place, behind @ ..] = rest {
        add(&mut dealt, *place, place.street == street);
        rest = behind;
    }
    dealt
}

/// The cards that each seat, of ten, holds at the end and did not discard; for a seat that folded,
/// the cards that it held then.
pub fn held_by_seats(places: &[Place]) -> HandRow
    requires { (n : ℕ) → length (held_slots (map place_said places.now) n) ≤ 7 }
    ensures seats { result.seats ≡ 10 }
    ensures held { (n : ℕ) → 1 ≤ n
        → slots_of_hand result n ≡ held_slots (map place_said places.now) n }
{
    discarded_by_seats(places, 0)
}

/// The cards that each seat, of ten, discarded in the draw of a street; for street 0, the cards
/// that it holds at the end.
pub(crate) fn discarded_by_seats(places: &[Place], street: u8) -> HandRow
    requires { (n : ℕ) → length (discarded_slots (map place_said places.now) n street) ≤ 7 }
    ensures seats { result.seats ≡ 10 }
    ensures discarded { (n : ℕ) → 1 ≤ n
        → slots_of_hand result n ≡ discarded_slots (map place_said places.now) n street }
{
    let mut discarded = HandRow::new(10);
    let mut rest = places;
    while let [place, behind @ ..] = rest {
        add(&mut discarded, *place, place.gone == street);
        rest = behind;
    }
    discarded
}

// Gives a dealt card to its owner, if it counts and its owner is a seat.
fn add(hands: &mut HandRow, place: Place, counts: bool)
    requires seats { hands.old.seats ≡ 10 }
    requires room { (n : ℕ) → 1 ≤ n
        → length (slots_of_hand hands.old n) + length (slot_for (Some n) counts place) ≤ 7 }
    ensures seats { hands.new.seats ≡ 10 }
    ensures added { (n : ℕ) → 1 ≤ n
        → slots_of_hand hands.new n ≡ slots_of_hand hands.old n ++ slot_for (Some n) counts place }
{
    if !counts {
        return;
    }
    if let Some(seat) = place.owner {
        let mut cards = hands.get(seat);
        cards.push(place.slot);
        hands.set(seat, cards);
    }
}

/// The cards that were dealt to the board on a street.
pub(crate) fn dealt_to_board(places: &[Place], street: u8) -> SlotRow
    requires { length (dealt_slots (map place_said places.now) None street) ≤ 7 }
    ensures { slots_of result ≡ dealt_slots (map place_said places.now) None street }
{
    board_with_street(SlotRow::new(), places, street)
}

/// The cards of a board, followed by those that were dealt to it on a street.
pub fn board_with_street(board: SlotRow, places: &[Place], street: u8) -> SlotRow
    requires { length (slots_of board)
        + length (dealt_slots (map place_said places.now) None street) ≤ 7 }
    ensures { slots_of result
        ≡ slots_of board ++ dealt_slots (map place_said places.now) None street }
{
    let mut longer = board;
    let mut rest = places;
    while let [place, behind @ ..] = rest {
        add_to_board(&mut longer, *place, place.street == street);
        rest = behind;
    }
    longer
}

// Puts a dealt card on the board, if it counts and is a board card.
fn add_to_board(board: &mut SlotRow, place: Place, counts: bool)
    requires { length (slots_of board.old) + length (slot_for None counts place) ≤ 7 }
    ensures { slots_of board.new ≡ slots_of board.old ++ slot_for None counts place }
{
    if counts && place.owner.is_none() {
        board.push(place.slot);
    }
}
