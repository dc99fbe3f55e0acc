//! Reads the values of members, each in its form.
ghost use Rattle.std.specs.Prelude.{◌≡◌, ◌≤◌, map, length, IfOk, IfSome, option_map};
ghost use Rattle.serde_json.specs.Find.{get};
ghost use Rattle.serde_json.specs.View.{items_view, view};
ghost use Rattle.card_set.specs.Row.{cards_of, slots_of};
ghost use Rattle.first_fault.specs.Reading.{Gives};
ghost use Rattle.ohh_members.specs.Values.{cards_said, card_said, few_said, integer_said, listed, list_said, number_said, object_said, one_slot, player_said, slot_said, slots_said, text_said};
ghost use Rattle.ohh_members.specs.Values as member_values;

use crate::fault::{MemberFault, MemberFaultKind, Path};
use crate::player_ids::PlayerIds;
use card_set::{Card, CardRow, Slot, SlotRow};
use chip_ledger::Seat;
use first_fault::{ReadError, in_range};
use serde_json::Value;

/// The value of a required member.
#[tactic(auto, unfolding(crate::specs::Values::required_value))]
pub fn required<'a>(value: &'a Value, path: Path) -> Result<&'a Value, ReadError<MemberFault>>
    ensures { Gives (λ found. view found.now) result
        (member_values.required_value path (view value.now)) }
{
    match field(value, path) {
        Some(found) => Ok(found),
        None => Err(fault_at(MemberFaultKind::MissingMember, path)),
    }
}

/// The value of the member that the path ends with, if the object has one.
pub fn field<'a>(value: &'a Value, path: Path) -> Option<&'a Value>
    ensures { option_map (λ found. view found.now) result
        ≡ member_values.member_at path (view value.now) }
{
    find_member(value, path.name())
}

// The member of an object with this name.
fn find_member<'a>(value: &'a Value, name: &str) -> Option<&'a Value>
    ensures { option_map (λ found. view found.now) result ≡ get name.now (view value.now) }
{
    value.get(name)
}

/// An object.
#[tactic(auto, unfolding(crate::specs::Values::object_said))]
pub fn read_object(value: &Value, path: Path) -> Result<&Value, ReadError<MemberFault>>
    ensures { Gives (λ found. view found.now) result (object_said path (view value.now)) }
{
    match value {
        Value::Object(_) => Ok(value),
        _ => Err(fault_at(MemberFaultKind::WrongType, path)),
    }
}

/// A whole number from `least` to `most`.
#[tactic(auto, unfolding(crate::specs::Values::number_said))]
pub fn read_number(
    value: &Value,
    least: u64,
    most: u64,
    path: Path,
) -> Result<u64, ReadError<MemberFault>>
    ensures within { IfOk result (λ number. (least ≤ number) × (number ≤ most)) }
    ensures said { Gives (λ number. number) result
        (number_said least most path (view value.now)) }
{
    match value {
        Value::Number(number) => {
            if let Some(number) = number.as_u64() {
                let what = MemberFaultKind::AmountLimit;
                return in_range(number, least, most, MemberFault { what, path });
            }
            if number.is_f64() {
                return Err(fault_at(MemberFaultKind::AmountNotWhole, path));
            }
            Err(fault_at(MemberFaultKind::AmountLimit, path))
        }
        _ => Err(fault_at(MemberFaultKind::WrongType, path)),
    }
}

/// The seat of the player with this id.
#[tactic(auto, unfolding(crate::specs::Values::player_said))]
pub fn read_player(
    value: &Value,
    players: &PlayerIds,
    path: Path,
) -> Result<Seat, ReadError<MemberFault>>
    ensures said { Gives (λ seat. seat.number) result
        (player_said players.now.ids.now path (view value.now)) }
    ensures seated { IfOk result (λ seat. seat.number ≤ length players.now.ids.now) }
{
    let id = read_integer(value, path)?;
    if let Some(number) = find_seat(players.ids, id) {
        if let Some(seat) = Seat::new(number as u8) {
            return Ok(seat);
        }
    }
    Err(fault_at(MemberFaultKind::BadPlayer, path))
}

// The index of the seat of the player with this id; `ids` are those of the players in the order of
// their seats.
fn find_seat(ids: &[i128], id: i128) -> Option<usize>
    ensures said { result ≡ member_values.seat_of ids.now id }
    ensures seated { IfSome result (λ seat. (1 ≤ seat) × (seat ≤ length ids.now)) }
{
    for (index, other) in ids.iter().enumerate() {
        if id == *other {
            return Some(index + 1);
        }
    }
    None
}

/// Any whole number that fits a JSON tree.
#[tactic(auto, unfolding(crate::specs::Values::integer_said))]
pub fn read_integer(value: &Value, path: Path) -> Result<i128, ReadError<MemberFault>>
    ensures { Gives (λ number. number) result (integer_said path (view value.now)) }
{
    match value {
        Value::Number(number) => {
            if let Some(number) = number.as_u64() {
                return Ok(number as i128);
            }
            if let Some(number) = number.as_i64() {
                return Ok(number as i128);
            }
            Err(fault_at(MemberFaultKind::AmountNotWhole, path))
        }
        _ => Err(fault_at(MemberFaultKind::WrongType, path)),
    }
}

/// At most seven known cards.
#[tactic(auto, unfolding(crate::specs::Values::cards_said))]
pub fn read_cards(value: &Value, path: Path) -> Result<CardRow, ReadError<MemberFault>>
    ensures { Gives cards_of result (cards_said path (view value.now)) }
{
    let values = read_few(value, path)?;
    let mut row = CardRow::new();
    for (index, value) in values.iter().enumerate() {
        let card = read_card(value, path.card(index as u64))?;
        row.push(card);
    }
    Ok(row)
}

/// A known card.
#[tactic(auto, unfolding(crate::specs::Values::card_said))]
pub fn read_card(value: &Value, path: Path) -> Result<Card, ReadError<MemberFault>>
    ensures { Gives (λ card. card) result (card_said path (view value.now)) }
{
    match to_known_card(read_slot(value, path)?) {
        Some(card) => Ok(card),
        None => Err(fault_at(MemberFaultKind::WrongType, path)),
    }
}

// The card, if it is known.
fn to_known_card(slot: Slot) -> Option<Card>
    ensures { result ≡ member_values.known_in slot }
{
    match slot {
        Slot::Known(card) => Some(card),
        Slot::Unknown => None,
    }
}

/// At most seven cards, each known or unknown.
#[tactic(auto, unfolding(crate::specs::Values::slots_said))]
pub fn read_slots(value: &Value, path: Path) -> Result<SlotRow, ReadError<MemberFault>>
    ensures { Gives slots_of result (slots_said path (view value.now)) }
{
    let values = read_few(value, path)?;
    let mut row = SlotRow::new();
    for (index, value) in values.iter().enumerate() {
        let slot = read_slot(value, path.card(index as u64))?;
        row.push(slot);
    }
    Ok(row)
}

/// A card, or two question marks for an unknown one.
#[tactic(auto, unfolding(crate::specs::Values::slot_said))]
pub fn read_slot(value: &Value, path: Path) -> Result<Slot, ReadError<MemberFault>>
    ensures { Gives (λ slot. slot) result (slot_said path (view value.now)) }
{
    match parse_slot(read_text(value, path)?) {
        Some(slot) => Ok(slot),
        None => Err(fault_at(MemberFaultKind::WrongType, path)),
    }
}

// The card, known or unknown, that a text of two letters means.
fn parse_slot(text: &str) -> Option<Slot>
    ensures { result ≡ member_values.slot_in text.now }
{
    match card_set::read_slots(text.as_bytes()) {
        Ok(row) => only(row.as_slice()),
        Err(_) => None,
    }
}

// The card of a list of one card.
fn only(slots: &[Slot]) -> Option<Slot>
    ensures { result ≡ one_slot slots.now }
{
    match slots {
        [slot] => Some(*slot),
        _ => None,
    }
}

/// The values of a list of at most seven cards.
#[tactic(auto, unfolding(crate::specs::Values::few_said))]
pub fn read_few(value: &Value, path: Path) -> Result<&[Value], ReadError<MemberFault>>
    ensures said { Gives (λ values. map view values.now) result (few_said path (view value.now)) }
    ensures few { IfOk result (λ values. length values.now ≤ 7) }
{
    let values = read_list(value, path)?;
    if values.len() > 7 {
        return Err(fault_at(MemberFaultKind::WrongType, path));
    }
    Ok(values)
}

/// The values of a list.
#[tactic(auto, using(crate::proofs::Lists::listed_view))]
pub fn read_list(value: &Value, path: Path) -> Result<&[Value], ReadError<MemberFault>>
    ensures { Gives (λ values. map view values.now) result (list_said path (view value.now)) }
{
    let values = read_array(value, path)?;
    Ok(values)
}

// A list.
#[tactic(auto, unfolding(crate::specs::Values::list_said))]
fn read_array(value: &Value, path: Path) -> Result<&[Value], ReadError<MemberFault>>
    ensures { Gives (λ values. listed (items_view values.now)) result
        (list_said path (view value.now)) }
{
    match value {
        Value::Array(values) => Ok(values.as_slice()),
        _ => Err(fault_at(MemberFaultKind::WrongType, path)),
    }
}

/// A text.
#[tactic(auto, unfolding(crate::specs::Values::text_said))]
pub fn read_text(value: &Value, path: Path) -> Result<&str, ReadError<MemberFault>>
    ensures { Gives (λ text. text.now) result (text_said path (view value.now)) }
{
    match value {
        Value::String(text) => Ok(text.as_str()),
        _ => Err(fault_at(MemberFaultKind::WrongType, path)),
    }
}

/// A fault at the path.
pub fn fault_at(what: MemberFaultKind, path: Path) -> ReadError<MemberFault>
    ensures { result ≡ ReadError.Fault (record { what = what; path = path }) }
{
    ReadError::Fault(MemberFault { what, path })
}
