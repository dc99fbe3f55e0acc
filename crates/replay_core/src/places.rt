//! The cards of the trace, with who was dealt them and when.
ghost use Rattle.std.specs.Prelude.{◌≡◌, ◌+◌, ◌++◌, ◌≤◌, [], ◌∷◌, IfOk, OnOk, map};
ghost use Rattle.card_places.specs.Ordered.{on_seats, on_street, on_streets};
ghost use Rattle.card_places.specs.Plain.{place_of};
ghost use Rattle.deal_core.specs.Standing.{StandsFor};
ghost use Rattle.hand_canon.specs.TraceRows.{place_said};
ghost use Rattle.play_event.specs.Past.{Past};
ghost use Rattle.play_event.specs.Trace.{traced_place, traced_places};
ghost use Rattle.play_event.specs.declared.setup.Setup.{Setup};
ghost use Rattle.chip_ledger.specs.SeatsSaid.{seat_said};
ghost use Rattle.play_event.specs.Places.{group_of};

use card_places::DealtCard;
use card_set::Memory;
use chip_ledger::{PlayerCount, Seat};
use deal_core::Cards;
use hand_canon::Places;
use play_event::Place;
use std::alloc::Global;
use variant_table::Variant;

/// All cards that were dealt, in the order of the trace: by street, then by owner, p1 first and the
/// board last, then in the order of dealing.
pub fn places_of<V: Variant>(alloc: Global, cards: &Cards<V>) -> Result<Places, Memory>
    ensures { (setup : Setup) (past : Past) → setup.code ≡ V.CODE
        → setup.stacks.seats ≡ cards.now.seats → StandsFor cards.now past
        → IfOk result (λ places. map place_said places ≡ traced_places setup past) }
{
    let mut places = Places::new(alloc);
    let players = PlayerCount {
        number: cards.seats(),
    };
    push_streets(&mut places, cards.dealt(), players, 0, V::STREETS)?;
    Ok(places)
}

// Appends the cards of these streets after those of earlier streets.
fn push_streets(
    places: &mut Places,
    dealt: &[DealtCard],
    players: PlayerCount,
    before: u8,
    count: u8,
) -> Result<(), Memory>
    requires { before + count ≤ 255 }
    ensures { OnOk result (map place_said places.new ≡ map place_said places.old
        ++ map traced_place
        (on_streets players.number (map place_of dealt.now) (before + 1) count)) }
{
    if count == 0 {
        return Ok(());
    }
    push_street(places, dealt, players, before + 1)?;
    push_streets(places, dealt, players, before + 1, count - 1)
}

// Appends the cards of a street: first those of the seats, and then the board's.
fn push_street(
    places: &mut Places,
    dealt: &[DealtCard],
    players: PlayerCount,
    street: u8,
) -> Result<(), Memory>
    ensures { OnOk result (map place_said places.new ≡ map place_said places.old
        ++ map traced_place (on_street players.number (map place_of dealt.now) street)) }
{
    push_seats(places, dealt, street, 1, players.number)?;
    push_group(places, dealt, None, street)
}

// Appends the cards that the seats from this one on were dealt on a street.
fn push_seats(
    places: &mut Places,
    dealt: &[DealtCard],
    street: u8,
    first: u8,
    count: u8,
) -> Result<(), Memory>
    requires from_one { 1 ≤ first }
    requires within { first + count ≤ 11 }
    ensures { OnOk result (map place_said places.new ≡ map place_said places.old
        ++ map traced_place (on_seats (map place_of dealt.now) street first count)) }
{
    if count == 0 {
        return Ok(());
    }
    push_group(places, dealt, Some(Seat { number: first }), street)?;
    push_seats(places, dealt, street, first + 1, count - 1)
}

// Appends the cards of an owner on a street, in the order of dealing.
fn push_group(
    places: &mut Places,
    dealt: &[DealtCard],
    owner: Option<Seat>,
    street: u8,
) -> Result<(), Memory>
    ensures { OnOk result (map place_said places.new ≡ map place_said places.old
        ++ map traced_place (group_of (map place_of dealt.now) street (seat_said owner))) }
{
    match dealt {
        [] => Ok(()),
        [card, rest @ ..] => {
            push_if(places, card, owner, street)?;
            push_group(places, rest, owner, street)
        }
    }
}

// Appends a card, if it belongs to the owner and the street.
fn push_if(
    places: &mut Places,
    card: &DealtCard,
    owner: Option<Seat>,
    street: u8,
) -> Result<(), Memory>
    ensures { OnOk result (map place_said places.new ≡ map place_said places.old
        ++ map traced_place (group_of (place_of card.now ∷ []) street (seat_said owner))) }
{
    if card.in_group(owner, street) {
        places.push(traced(card))
    } else {
        Ok(())
    }
}

// A card as the trace keeps it.
fn traced(card: &DealtCard) -> Place
    ensures { place_said result ≡ traced_place (place_of card.now) }
{
    Place {
        owner: card.owner,
        street: card.street,
        slot: card.slot,
        gone: card.discarded,
    }
}
