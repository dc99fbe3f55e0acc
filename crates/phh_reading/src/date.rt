//! Reads when a hand was played from its fields: a date and a time of day.
ghost use Rattle.std.specs.Prelude.{◌≡◌, Option, Some, None, true, IfOk, IfSome};
ghost use Rattle.toml.specs.View.{table_view, view};
ghost use Rattle.hand_canon.specs.AllowedNotes.{IsTime, IsWithin};
ghost use Rattle.first_fault.specs.Reading.{Gives, read_if};
ghost use Rattle.phh_reading.specs.declared.field_fault.FieldKey.TheVariants as keys;
ghost use Rattle.phh_reading.specs.Fields.{key_place, number_said};
ghost use Rattle.phh_reading.specs.Fields as fields;
ghost use Rattle.phh_reading.specs.NoteFields.{day_said, time_said};
ghost use Rattle.phh_reading.specs.NoteFields as note_fields;

use crate::field_fault::{FieldFault, FieldFaultKind, FieldKey, FieldLocation};
use crate::values::{field, field_fault_at, read_number};
use first_fault::ReadError;
use hand_canon::{Clock, has_day};
use toml::value::{Datetime, Time};
use toml::{Table, Value};

/// The date of a hand; each part may be missing.
#[derive(Clone, Copy, Debug, PartialEq, Eq)]
pub struct PartialDate {
    pub year: Option<u16>,
    pub month: Option<u8>,
    pub day: Option<u8>,
}

/// The date on which the hand was played.
#[tactic(auto, unfolding(crate::specs::NoteFields::day_said))]
pub fn read_day(table: &Table) -> Result<PartialDate, ReadError<FieldFault>>
    ensures said { Gives (λ day. day) result (day_said (table_view table.now)) }
    ensures year { IfOk result (λ date. IfSome date.year (IsWithin 1 9999)) }
    ensures month { IfOk result (λ date. IfSome date.month (IsWithin 1 12)) }
    ensures day { IfOk result (λ date. IfSome date.day (IsWithin 1 31)) }
    ensures civil { IfOk result (λ date.
        note_fields.is_in_calendar date.year date.month date.day ≡ true) }
{
    let year = read_year(table)?;
    let month = read_part(table, FieldKey::Month, 12)?;
    let day = read_part(table, FieldKey::Day, 31)?;
    let date = PartialDate { year, month, day };
    if is_calendar_date(date) {
        Ok(date)
    } else {
        Err(field_fault_at(
            FieldFaultKind::WrongType,
            FieldLocation::at_key(FieldKey::Day),
        ))
    }
}

// The year at its key, if there is one.
fn read_year(table: &Table) -> Result<Option<u16>, ReadError<FieldFault>>
    ensures said { Gives (λ year. year) result
        (read_if (number_said 1 9999 (key_place keys.Year))
        (fields.field_value keys.Year (table_view table.now))) }
    ensures within { IfOk result (λ year. IfSome year (IsWithin 1 9999)) }
{
    match field(table, FieldKey::Year) {
        Some(value) => {
            let year = read_number(value, 1, 9999, FieldLocation::at_key(FieldKey::Year))?;
            Ok(Some(year as u16))
        }
        None => Ok(None),
    }
}

// The number from 1 to `most` at a key, if there is one.
fn read_part(table: &Table, key: FieldKey, most: u8) -> Result<Option<u8>, ReadError<FieldFault>>
    ensures said { Gives (λ part. part) result
        (read_if (number_said 1 most (key_place key))
        (fields.field_value key (table_view table.now))) }
    ensures within { IfOk result (λ part. IfSome part (IsWithin 1 most)) }
{
    match field(table, key) {
        Some(value) => {
            let part = read_number(value, 1, u64::from(most), FieldLocation::at_key(key))?;
            Ok(Some(part as u8))
        }
        None => Ok(None),
    }
}

// Whether year, month and day are a date of the calendar, if all three are given.
fn is_calendar_date(date: PartialDate) -> bool
    requires year { IfSome date.year (IsWithin 1 9999) }
    requires month { IfSome date.month (IsWithin 1 12) }
    requires day { IfSome date.day (IsWithin 1 31) }
    ensures { result ≡ note_fields.is_in_calendar date.year date.month date.day }
{
    match (date.year, date.month, date.day) {
        (Some(year), Some(month), Some(day)) => has_day(year, month, day),
        _ => true,
    }
}

/// The time of day, if it is given.
pub fn read_time_at(table: &Table) -> Result<Option<Clock>, ReadError<FieldFault>>
    ensures said { Gives (λ clock. clock) result
        (read_if time_said (fields.field_value keys.Time (table_view table.now))) }
    ensures allowed { IfOk result (λ clock. IfSome clock IsTime) }
{
    match field(table, FieldKey::Time) {
        Some(value) => Ok(Some(read_time(value)?)),
        None => Ok(None),
    }
}

// The time of day.
#[tactic(auto, unfolding(crate::specs::NoteFields::time_said, crate::specs::NoteFields::clock_said))]
fn read_time(value: &Value) -> Result<Clock, ReadError<FieldFault>>
    ensures said { Gives (λ clock. clock) result (time_said (view value.now)) }
    ensures allowed { IfOk result IsTime }
{
    if let Value::Datetime(said) = value {
        if let Some(time) = to_local_time(said) {
            let clock = to_clock(time);
            if is_valid_time(clock) {
                return Ok(clock);
            }
        }
    }
    Err(field_fault_at(
        FieldFaultKind::WrongType,
        FieldLocation::at_key(FieldKey::Time),
    ))
}

// A time of day; a missing second or fraction is 0.
fn to_clock(time: Time) -> Clock
    ensures { result ≡ note_fields.clock_of time }
{
    Clock {
        hour: time.hour,
        minute: time.minute,
        second: match time.second {
            Some(second) => second,
            None => 0,
        },
        nano: match time.nanosecond {
            Some(nano) => nano,
            None => 0,
        },
    }
}

// Whether it is a valid time of day.
fn is_valid_time(clock: Clock) -> bool
    ensures { result ≡ note_fields.is_clock clock }
{
    (clock.hour <= 23 && clock.minute <= 59) && (clock.second <= 59 && clock.nano <= 999_999_999)
}

// The local time of a date-time, if it has no date and no zone.
fn to_local_time(said: &Datetime) -> Option<Time>
    ensures { result ≡ note_fields.time_alone said.now.date said.now.time said.now.offset }
{
    match (said.date, said.time, said.offset) {
        (None, Some(time), None) => Some(time),
        _ => None,
    }
}
