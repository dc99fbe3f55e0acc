//! Reads packed bytes from left to right: the event at their front, and the bytes after it.
ghost use Rattle.std.specs.Prelude.{◌≡◌, ◌≤◌, ◌&&◌, length, Option, Some, None, IfSome};
ghost use Rattle.std.specs.Option.{option_map};
ghost use Rattle.std.specs.Int.{w32, w64};
ghost use Rattle.card_set.specs.Row.{slots_of, cards_of};
ghost use Rattle.play_event.specs.Said.{kind_said, seat_named, numbered};
ghost use Rattle.play_event.specs.PackedReading.{byte_at, number_at, counted_at, seat_numbered, seat_at, actor_at, card_of, slot_of, slots_at, cards_at, stated_at, amount_at, move_at, hand_at, kind_at, event_at};

use crate::event::{Event, Kind, Spelled};
use card_set::{Card, CardRow, Slot, SlotRow, card_from_index};
use chip_ledger::Seat;

/// The event at the front of the bytes and the bytes after it, or `None` if the bytes do not begin
/// with an event.
#[tactic(auto, unfolding(crate::specs::PackedReading::event_at))]
pub(crate) fn read_event(bytes: &[u8]) -> Option<(Event, &[u8])>
    ensures { option_map (λ read. (numbered read.0, read.1.now)) result ≡ event_at bytes.now }
{
    let (number, rest) = read_byte(bytes)?;
    let (at, rest) = read_at(rest)?;
    let (kind, rest) = read_kind(number, rest)?;
    Some((Event { at, kind }, rest))
}

// The number of an action.
#[tactic(auto, unfolding(crate::specs::PackedReading::number_at))]
fn read_at(bytes: &[u8]) -> Option<(u32, &[u8])>
    ensures { option_map (λ read. (read.0, read.1.now)) result ≡ number_at w32 bytes.now }
{
    if bytes.len() < 4 {
        return None;
    }
    let (front, rest) = bytes.split_at(4);
    let number = u32::from_be_bytes([front[0], front[1], front[2], front[3]]);
    Some((number, rest))
}

// What an event of the kind with this number says.
#[tactic(auto, unfolding(crate::specs::PackedReading::kind_at))]
fn read_kind(number: u8, bytes: &[u8]) -> Option<(Kind, &[u8])>
    ensures { option_map (λ read. (kind_said read.0, read.1.now)) result
        ≡ kind_at number bytes.now }
{
    match number {
        2 => {
            let (cards, rest) = read_cards(bytes)?;
            Some((Kind::Board { cards }, rest))
        }
        3..=6 => {
            let (actor, rest) = read_actor(bytes)?;
            read_move(number, actor, rest)
        }
        _ => {
            let (seat, rest) = read_seat(bytes)?;
            read_hand(number, seat, rest)
        }
    }
}

// An actor, who may be left out.
#[tactic(auto, unfolding(crate::specs::PackedReading::actor_at))]
fn read_actor(bytes: &[u8]) -> Option<(Option<Seat>, &[u8])>
    ensures { option_map (λ read. (seat_named read.0, read.1.now)) result ≡ actor_at bytes.now }
{
    let (number, rest) = read_byte(bytes)?;
    if number == 0 {
        return Some((None, rest));
    }
    let seat = seat_of(number)?;
    Some((Some(seat), rest))
}

// What an event of the kind with this number says of a player who may be left out.
#[tactic(auto, unfolding(crate::specs::PackedReading::move_at))]
fn read_move(number: u8, actor: Option<Seat>, bytes: &[u8]) -> Option<(Kind, &[u8])>
    ensures { option_map (λ read. (kind_said read.0, read.1.now)) result
        ≡ move_at number (seat_named actor) bytes.now }
{
    match number {
        3 => Some((Kind::Fold { actor }, bytes)),
        4 => {
            let (stated, rest) = read_stated(bytes)?;
            Some((Kind::Call { actor, stated }, rest))
        }
        5 => {
            let (amount, rest) = read_amount(bytes)?;
            Some((Kind::Raise { actor, amount }, rest))
        }
        6 => Some((Kind::BringIn { actor }, bytes)),
        _ => None,
    }
}

// The chips of a call, which may be left out.
#[tactic(auto, unfolding(crate::specs::PackedReading::stated_at))]
fn read_stated(bytes: &[u8]) -> Option<(Option<u64>, &[u8])>
    ensures { option_map (λ read. (read.0, read.1.now)) result ≡ stated_at bytes.now }
{
    let (flag, rest) = read_byte(bytes)?;
    if flag == 0 {
        return Some((None, rest));
    }
    let (chips, rest) = read_chips(rest)?;
    Some((Some(chips), rest))
}

// The amount of a raise.
#[tactic(auto, unfolding(crate::specs::PackedReading::amount_at))]
fn read_amount(bytes: &[u8]) -> Option<(Spelled, &[u8])>
    ensures { option_map (λ read. (read.0, read.1.now)) result ≡ amount_at bytes.now }
{
    let (spelling, rest) = read_byte(bytes)?;
    if spelling == 4 {
        return Some((Spelled::Unit, rest));
    }
    let (chips, rest) = read_chips(rest)?;
    Some(match spelling {
        1 => (Spelled::To(chips), rest),
        2 => (Spelled::Added(chips), rest),
        _ => (Spelled::HandTotal(chips), rest),
    })
}

#[tactic(auto, unfolding(crate::specs::PackedReading::number_at))]
fn read_chips(bytes: &[u8]) -> Option<(u64, &[u8])>
    ensures { option_map (λ read. (read.0, read.1.now)) result ≡ number_at w64 bytes.now }
{
    if bytes.len() < 8 {
        return None;
    }
    let (front, rest) = bytes.split_at(8);
    let chips = u64::from_be_bytes([
        front[0], front[1], front[2], front[3], front[4], front[5], front[6], front[7],
    ]);
    Some((chips, rest))
}

#[tactic(auto, unfolding(crate::specs::PackedReading::seat_at))]
fn read_seat(bytes: &[u8]) -> Option<(Seat, &[u8])>
    ensures { option_map (λ read. (read.0.number, read.1.now)) result ≡ seat_at bytes.now }
{
    let (number, rest) = read_byte(bytes)?;
    let seat = seat_of(number)?;
    Some((seat, rest))
}

fn seat_of(number: u8) -> Option<Seat>
    ensures { option_map (λ seat. seat.number) result ≡ seat_numbered number }
{
    Seat::new(number)
}

// What an event of the kind with this number says of the cards of a seat.
#[tactic(auto, unfolding(crate::specs::PackedReading::hand_at))]
fn read_hand(number: u8, seat: Seat, bytes: &[u8]) -> Option<(Kind, &[u8])>
    ensures { option_map (λ read. (kind_said read.0, read.1.now)) result
        ≡ hand_at number seat.number bytes.now }
{
    match number {
        1 => {
            let (cards, rest) = read_slots(bytes)?;
            Some((Kind::Hole { seat, cards }, rest))
        }
        7 => {
            let (cards, rest) = read_slots(bytes)?;
            Some((Kind::Discard { seat, cards }, rest))
        }
        8 => {
            let (cards, rest) = read_cards(bytes)?;
            Some((Kind::Show { seat, cards }, rest))
        }
        9 => Some((Kind::Muck { seat }, bytes)),
        _ => None,
    }
}

#[tactic(auto, unfolding(crate::specs::PackedReading::slots_at))]
fn read_slots(bytes: &[u8]) -> Option<(SlotRow, &[u8])>
    ensures { option_map (λ read. (slots_of read.0, read.1.now)) result ≡ slots_at bytes.now }
{
    let (numbers, rest) = read_counted(bytes)?;
    let mut row = SlotRow::new();
    for number in numbers {
        row.push(slot_named(*number));
    }
    Some((row, rest))
}

fn slot_named(byte: u8) -> Slot
    ensures { result ≡ slot_of byte }
{
    if byte == 0 {
        Slot::Unknown
    } else {
        Slot::Known(card_named(byte))
    }
}

#[tactic(auto, unfolding(crate::specs::PackedReading::cards_at))]
fn read_cards(bytes: &[u8]) -> Option<(CardRow, &[u8])>
    ensures { option_map (λ read. (cards_of read.0, read.1.now)) result ≡ cards_at bytes.now }
{
    let (numbers, rest) = read_counted(bytes)?;
    let mut row = CardRow::new();
    for number in numbers {
        row.push(card_named(*number));
    }
    Some((row, rest))
}

// Up to seven bytes, after their count.
#[tactic(auto, unfolding(crate::specs::PackedReading::counted_at))]
fn read_counted(bytes: &[u8]) -> Option<(&[u8], &[u8])>
    ensures row { option_map (λ read. (read.0.now, read.1.now)) result ≡ counted_at bytes.now }
    ensures few { IfSome result (λ read. length read.0.now ≤ 7) }
{
    let (count, rest) = read_byte(bytes)?;
    let count = usize::from(count);
    if count <= 7 && count <= rest.len() {
        Some(rest.split_at(count))
    } else {
        None
    }
}

fn read_byte(bytes: &[u8]) -> Option<(u8, &[u8])>
    ensures { option_map (λ read. (read.0, read.1.now)) result ≡ byte_at bytes.now }
{
    match bytes {
        [] => None,
        [byte, rest @ ..] => Some((*byte, rest)),
    }
}

// The card with this number, from 1 to 52.
fn card_named(byte: u8) -> Card
    ensures { result ≡ card_of byte }
{
    card_from_index(byte.saturating_sub(1))
}
