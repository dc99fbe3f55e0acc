//! Reads a value of a document in one form, or refuses it with its place.
ghost use Rattle.std.specs.Prelude.{◌≡◌, ◌≤◌, length, map, option_map, IfOk};
ghost use Rattle.toml.specs.View.{array_view, table_view, view};
ghost use Rattle.first_fault.specs.Reading.{Gives};
ghost use Rattle.phh_reading.specs.Fields.{amount_said, flag_said, items_said, list_said, listed, number_said, text_said};
ghost use Rattle.phh_reading.specs.Fields as fields;

use crate::field_fault::{FieldFault, FieldFaultKind, FieldKey, FieldLocation};
use crate::player_values::PlayerValues;
use chip_ledger::PlayerCount;
use first_fault::{ReadError, in_range};
use toml::{Table, Value};

/// The value at a required key.
#[tactic(auto, unfolding(crate::specs::Fields::required_value))]
pub fn required<'a>(table: &'a Table, key: FieldKey) -> Result<&'a Value, ReadError<FieldFault>>
    ensures { Gives (λ value. view value.now) result
        (fields.required_value key (table_view table.now)) }
{
    match field(table, key) {
        Some(value) => Ok(value),
        None => Err(field_fault_at(FieldFaultKind::MissingField, FieldLocation::at_key(key))),
    }
}

/// The value at a key, if there is one.
pub fn field<'a>(table: &'a Table, key: FieldKey) -> Option<&'a Value>
    ensures { option_map (λ value. view value.now) result
        ≡ fields.field_value key (table_view table.now) }
{
    table.get(key.text())
}

/// A text.
#[tactic(auto, unfolding(crate::specs::Fields::text_said))]
pub fn read_text(value: &Value, place: FieldLocation) -> Result<&str, ReadError<FieldFault>>
    ensures { Gives (λ text. text.now) result (text_said place (view value.now)) }
{
    match value {
        Value::String(text) => Ok(text.as_str()),
        _ => Err(field_fault_at(FieldFaultKind::WrongType, place)),
    }
}

/// A truth value.
#[tactic(auto, unfolding(crate::specs::Fields::flag_said))]
pub fn read_flag(value: &Value, place: FieldLocation) -> Result<bool, ReadError<FieldFault>>
    ensures { Gives (λ flag. flag) result (flag_said place (view value.now)) }
{
    match value {
        Value::Boolean(flag) => Ok(*flag),
        _ => Err(field_fault_at(FieldFaultKind::WrongType, place)),
    }
}

/// The values of a list with one item for each player.
#[tactic(auto, unfolding(crate::specs::Fields::items_said))]
pub fn read_items(
    value: &Value,
    players: PlayerCount,
    key: FieldKey,
) -> Result<PlayerValues<'_>, ReadError<FieldFault>>
    ensures said { Gives (λ found. map view found.values.now) result
        (items_said players.number key (view value.now)) }
    ensures count { IfOk result (λ found. length found.values.now ≡ players.number) }
{
    let place = FieldLocation::at_key(key);
    let values = read_list(value, place)?;
    if values.len() != players.number as usize {
        return Err(field_fault_at(FieldFaultKind::ListLength, place));
    }
    Ok(PlayerValues {
        values: values.as_slice(),
    })
}

/// The values of a list.
#[tactic(auto, using(crate::proofs::Lists::listed_view))]
pub fn read_list(value: &Value, place: FieldLocation) -> Result<&Vec<Value>, ReadError<FieldFault>>
    ensures { Gives (λ values. map view values.now.items) result
        (list_said place (view value.now)) }
{
    let values = read_array(value, place)?;
    Ok(values)
}

// A list.
#[tactic(auto, unfolding(crate::specs::Fields::list_said))]
fn read_array(value: &Value, place: FieldLocation) -> Result<&Vec<Value>, ReadError<FieldFault>>
    ensures { Gives (λ values. listed (array_view values.now)) result
        (list_said place (view value.now)) }
{
    match value {
        Value::Array(values) => Ok(values),
        _ => Err(field_fault_at(FieldFaultKind::WrongType, place)),
    }
}

/// An amount from `least` to `most`, in chips.
#[tactic(auto, unfolding(crate::specs::Fields::amount_said, crate::specs::Fields::number_said))]
pub fn read_amount(
    value: &Value,
    least: u64,
    most: u64,
    place: FieldLocation,
) -> Result<u64, ReadError<FieldFault>>
    ensures within { IfOk result (λ amount. (least ≤ amount) × (amount ≤ most)) }
    ensures said { Gives (λ amount. amount) result
        (amount_said least most place (view value.now)) }
{
    match value {
        Value::Float(_) => Err(field_fault_at(FieldFaultKind::AmountNotWhole, place)),
        _ => read_number(value, least, most, place),
    }
}

/// A whole number from `least` to `most` that is not an amount of chips.
#[tactic(auto, unfolding(crate::specs::Fields::number_said))]
pub fn read_number(
    value: &Value,
    least: u64,
    most: u64,
    place: FieldLocation,
) -> Result<u64, ReadError<FieldFault>>
    ensures within { IfOk result (λ number. (least ≤ number) × (number ≤ most)) }
    ensures said { Gives (λ number. number) result
        (number_said least most place (view value.now)) }
{
    let Value::Integer(number) = value else {
        return Err(field_fault_at(FieldFaultKind::WrongType, place));
    };
    if *number < 0 {
        return Err(field_fault_at(FieldFaultKind::AmountLimit, place));
    }
    let what = FieldFaultKind::AmountLimit;
    in_range(*number as u64, least, most, FieldFault { what, place })
}

/// A fault at a place.
pub fn field_fault_at(what: FieldFaultKind, place: FieldLocation) -> ReadError<FieldFault>
    ensures { result ≡ ReadError.Fault (record { what = what; place = place }) }
{
    ReadError::Fault(FieldFault { what, place })
}
