//! Writes the cards of a line: those of each seat, and those of the board for each further round.
ghost use Rattle.std.specs.Prelude.{◌≡◌, ◌&&◌, ◌++◌, [], Some, None, if◌then◌else◌, map, not, OnOk};
ghost use Rattle.std.specs.List.{list_any};
ghost use Rattle.card_set.specs.Known.{hides_card};
ghost use Rattle.card_set.specs.Spelling.{slot_spelling, spelling};
ghost use Rattle.play_event.specs.CanonScript.{dealt_slots, is_dealt_to};
ghost use Rattle.play_event.specs.Places as dealt;
ghost use Rattle.play_event.specs.Said.{seat_named};
ghost use Rattle.hand_canon.specs.TraceRows.{place_said};
ghost use Rattle.acpc_format.specs.Cards.{board_text, boards_text, cards_text, hole_text};
ghost use Rattle.acpc_format.specs.Rounds as rounds;
ghost use Rattle.acpc_format.specs.Seats.{bar_before};

use card_set::{Memory, TryExtend, slot_text};
use chip_ledger::{PlayerCount, Seat};
use play_event::Place;

/// Whether a card that an owner was dealt on a street is known.
pub fn has_known(places: &[Place], owner: Option<Seat>, street: u8) -> bool
    ensures { result ≡ list_any (λ slot. not (hides_card slot))
        (dealt_slots (map place_said places.now) (seat_named owner) street) }
{
    for place in places {
        if is_dealt(*place, owner, street) && !place.slot.is_unknown() {
            return true;
        }
    }
    false
}

/// The cards of a hand with this number of players.
#[tactic(auto, unfolding(crate::specs::Cards::cards_text, crate::specs::Cards::holes_text))]
pub fn push_cards(out: &mut Vec<u8>, places: &[Place], players: PlayerCount) -> Result<(), Memory>
    ensures { OnOk result (out.new.items
        ≡ out.old.items ++ cards_text (map place_said places.now) players.number) }
{
    for index in 0..players.number {
        let seat = Seat { number: index + 1 };
        push_bar(out, seat)?;
        push_hole(out, places, seat)?;
    }
    push_boards(out, places)
}

/// A bar, before the text of each seat except the first.
pub fn push_bar(out: &mut Vec<u8>, seat: Seat) -> Result<(), Memory>
    ensures { OnOk result (out.new.items ≡ out.old.items ++ bar_before seat.number) }
{
    if seat.number > 1 {
        return Ok(out.try_extend_from_slice(b"|")?);
    }
    Ok(())
}

// The hole cards of a seat, if they are known.
fn push_hole(out: &mut Vec<u8>, places: &[Place], seat: Seat) -> Result<(), Memory>
    ensures { OnOk result (out.new.items
        ≡ out.old.items ++ hole_text (map place_said places.now) seat.number) }
{
    if has_unknown(places, Some(seat), 1) {
        return Ok(());
    }
    push_dealt(out, places, Some(seat), 1)
}

/// Whether a card that an owner was dealt on a street is unknown.
pub fn has_unknown(places: &[Place], owner: Option<Seat>, street: u8) -> bool
    ensures { result ≡ list_any hides_card
        (dealt_slots (map place_said places.now) (seat_named owner) street) }
{
    for place in places {
        if is_dealt(*place, owner, street) && place.slot.is_unknown() {
            return true;
        }
    }
    false
}

// The cards of the board.
#[tactic(auto, unfolding(crate::specs::Cards::boards_text))]
fn push_boards(out: &mut Vec<u8>, places: &[Place]) -> Result<(), Memory>
    ensures { OnOk result (out.new.items
        ≡ out.old.items ++ boards_text (map place_said places.now)) }
{
    push_board(out, places, 2)?;
    push_board(out, places, 3)?;
    push_board(out, places, 4)
}

// The cards of the board of a further round, if it was dealt.
#[tactic(auto, unfolding(crate::specs::Cards::board_text))]
fn push_board(out: &mut Vec<u8>, places: &[Place], street: u8) -> Result<(), Memory>
    ensures { OnOk result (out.new.items
        ≡ out.old.items ++ board_text (map place_said places.now) street) }
{
    if !is_board_dealt(places, street) {
        return Ok(());
    }
    out.try_extend_from_slice(b"/")?;
    push_dealt(out, places, None, street)
}

/// Whether cards of the board were dealt on a street.
pub fn is_board_dealt(places: &[Place], street: u8) -> bool
    ensures { result ≡ rounds.has_board (map place_said places.now) street }
{
    for place in places {
        if is_dealt(*place, None, street) {
            return true;
        }
    }
    false
}

// The cards that an owner was dealt on a street.
fn push_dealt(
    out: &mut Vec<u8>,
    places: &[Place],
    owner: Option<Seat>,
    street: u8,
) -> Result<(), Memory>
    ensures { OnOk result (out.new.items ≡ out.old.items
        ++ spelling (dealt_slots (map place_said places.now) (seat_named owner) street)) }
{
    let mut rest = places;
    while let [place, behind @ ..] = rest {
        push_card(out, *place, is_dealt(*place, owner, street))?;
        rest = behind;
    }
    Ok(())
}

// The card of a place, if `counts`.
fn push_card(out: &mut Vec<u8>, place: Place, counts: bool) -> Result<(), Memory>
    ensures { OnOk result (out.new.items
        ≡ out.old.items ++ (if counts then slot_spelling place.slot else [])) }
{
    if !counts {
        return Ok(());
    }
    Ok(out.try_extend_from_slice(&slot_text(place.slot))?)
}

/// Whether a card was dealt to an owner on a street.
pub fn is_dealt(place: Place, owner: Option<Seat>, street: u8) -> bool
    ensures { result ≡ is_dealt_to (seat_named owner) street (place_said place) }
{
    is_same_owner(place.owner, owner) && place.street == street
}

// Whether two owners are the same.
fn is_same_owner(owner: Option<Seat>, other: Option<Seat>) -> bool
    ensures { result ≡ dealt.is_same_owner (seat_named owner) (seat_named other) }
{
    match (owner, other) {
        (Some(seat), Some(other)) => seat.number == other.number,
        (None, None) => true,
        _ => false,
    }
}
