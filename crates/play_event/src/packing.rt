//! Packs an event into at most fifteen bytes, before any of them is appended to a script.
ghost use Rattle.std.specs.Prelude.{◌≡◌, ◌+◌, ◌<◌, ◌≤◌, List, ◌∷◌, ◌++◌, length, map, OnErr, OnOk};
ghost use Rattle.std.specs.Int.{w64, to_be_bytes};
ghost use Rattle.play_event.specs.declared.event.Event.{Event};
ghost use Rattle.play_event.specs.EventNumbers.{ChipsFit, IsEvent, AreEvents};
ghost use Rattle.play_event.specs.PackedForm.{actor_byte, card_byte, slot_byte, counted, kind_byte, kind_bytes, packed_event, packed_events};

use crate::event::{Event, Kind, Spelled};
use crate::packed_event::PackedEvent;
use card_set::{Card, Memory, Slot, index_in_deck, reserve};
use chip_ledger::Seat;

// Enough bytes for the events of most hands.
const USUAL_BYTES: usize = 72;

/// No two lists of events have the same packed form, so packing loses nothing. The function does
/// nothing: its contract is a law. It requires that the numbers of events fit their types.
pub fn law_of_packing()
    ensures { (a b : List Event)
        → AreEvents a → AreEvents b → packed_events a ≡ packed_events b → a ≡ b }
{}

/// Appends the packed form of the event to a script. If memory runs out, nothing changes. Before
/// the first event it reserves room for the events of most hands.
#[tactic(auto, unfolding(crate::specs::PackedForm::packed_event))]
pub(crate) fn append(script: &mut Vec<u8>, event: Event) -> Result<(), Memory>
    ensures appended { OnOk result (script.new.items ≡ script.old.items ++ packed_event event) }
    ensures unchanged { OnErr result (script.new.items ≡ script.old.items) }
    ensures event { IsEvent event }
{
    if script.is_empty() {
        reserve(script, USUAL_BYTES)?;
    }
    let mut packed = PackedEvent::new();
    packed.push(number_of_kind(event.kind));
    packed.extend(&event.at.to_be_bytes());
    pack_kind(&mut packed, event.kind);
    packed.append_to(script)
}

fn number_of_kind(kind: Kind) -> u8
    ensures { result ≡ kind_byte kind }
{
    match kind {
        Kind::Hole { .. } => 1,
        Kind::Board { .. } => 2,
        Kind::Fold { .. } => 3,
        Kind::Call { .. } => 4,
        Kind::Raise { .. } => 5,
        Kind::BringIn { .. } => 6,
        Kind::Discard { .. } => 7,
        Kind::Show { .. } => 8,
        Kind::Muck { .. } => 9,
    }
}

// Appends what an event of this kind says, after the number of its action.
fn pack_kind(packed: &mut PackedEvent, kind: Kind)
    requires { length packed.old ≤ 5 }
    ensures packed { packed.new ≡ packed.old ++ kind_bytes kind }
    ensures chips { ChipsFit kind }
{
    match kind {
        Kind::Hole { seat, cards } => {
            packed.push(seat.number());
            pack_slots(packed, cards.as_slice());
        }
        Kind::Board { cards } => pack_cards(packed, cards.as_slice()),
        Kind::Fold { actor } => packed.push(number_of_actor(actor)),
        Kind::Call { actor, stated } => {
            packed.push(number_of_actor(actor));
            match stated {
                None => packed.push(0),
                Some(chips) => packed.extend(&with_chips(1, chips)),
            }
        }
        Kind::Raise { actor, amount } => {
            packed.push(number_of_actor(actor));
            match amount {
                Spelled::To(chips) => packed.extend(&with_chips(1, chips)),
                Spelled::Added(chips) => packed.extend(&with_chips(2, chips)),
                Spelled::HandTotal(chips) => packed.extend(&with_chips(3, chips)),
                Spelled::Unit => packed.push(4),
            }
        }
        Kind::BringIn { actor } => packed.push(number_of_actor(actor)),
        Kind::Discard { seat, cards } => {
            packed.push(seat.number());
            pack_slots(packed, cards.as_slice());
        }
        Kind::Show { seat, cards } => {
            packed.push(seat.number());
            pack_cards(packed, cards.as_slice());
        }
        Kind::Muck { seat } => packed.push(seat.number()),
    }
}

fn number_of_actor(actor: Option<Seat>) -> u8
    ensures { result ≡ actor_byte actor }
{
    match actor {
        None => 0,
        Some(seat) => seat.number(),
    }
}

// A byte, followed by chips.
fn with_chips(first: u8, chips: u64) -> [u8; 9]
    ensures { result ≡ first ∷ to_be_bytes w64 chips }
{
    let [a, b, c, d, e, f, g, h] = chips.to_be_bytes();
    [first, a, b, c, d, e, f, g, h]
}

// Appends how many slots there are, and then their numbers.
fn pack_slots(packed: &mut PackedEvent, slots: &[Slot])
    requires room { length packed.old ≤ 6 }
    requires few { length slots.now ≤ 7 }
    ensures { packed.new ≡ packed.old ++ counted (map slot_byte slots.now) }
{
    packed.push(slots.len() as u8);
    for slot in slots {
        packed.push(number_of_slot(*slot));
    }
}

fn number_of_slot(slot: Slot) -> u8
    ensures { result ≡ slot_byte slot }
{
    match slot {
        Slot::Known(card) => number_of_card(card),
        Slot::Unknown => 0,
    }
}

// Appends how many cards there are, and then their numbers.
fn pack_cards(packed: &mut PackedEvent, cards: &[Card])
    requires room { length packed.old ≤ 6 }
    requires few { length cards.now ≤ 7 }
    ensures { packed.new ≡ packed.old ++ counted (map card_byte cards.now) }
{
    packed.push(cards.len() as u8);
    for card in cards {
        packed.push(number_of_card(*card));
    }
}

fn number_of_card(card: Card) -> u8
    ensures { result ≡ card_byte card }
{
    index_in_deck(card) + 1
}
