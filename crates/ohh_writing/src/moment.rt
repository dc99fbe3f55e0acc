//! A hand gets a date if its notes have a complete moment in the zone UTC.
ghost use Rattle.std.specs.Prelude.{◌≡◌, ◌++◌, string_bytes, IfOk, OnOk};
ghost use Rattle.ohh_writing.specs.Moment.{by_digits, fraction_text, time_text};
ghost use Rattle.ohh_writing.specs.Moment as moments;

use card_set::{Memory, TryPush, TryWrite};
use hand_canon::{CivilDate, Clock, Moment, Notes};
use std::alloc::Global;

/// The moment of the notes, if it is complete and its zone is UTC.
pub fn find_moment(notes: &Notes) -> Option<Moment>
    ensures { result ≡ moments.moment_of notes.now }
{
    let year = notes.year?;
    let month = notes.month?;
    let day = notes.day?;
    let time = notes.time?;
    match &notes.zone {
        Some(zone) => make_moment(year, month, day, time, zone.as_str()),
        None => None,
    }
}

// The moment, if the zone is UTC.
fn make_moment(year: u16, month: u8, day: u8, time: Clock, zone: &str) -> Option<Moment>
    ensures { result ≡ moments.moment_in year month day time zone.now }
{
    if zone == "UTC" {
        let day = CivilDate { year, month, day };
        Some(Moment { day, time })
    } else {
        None
    }
}

/// A moment as the format writes it.
pub fn write_moment(alloc: Global, moment: Moment) -> Result<String, Memory>
    ensures { IfOk result (λ text. string_bytes text ≡ moments.moment_text moment) }
{
    let mut text = String::new(alloc);
    push_digits(&mut text, 4, u32::from(moment.day.year))?;
    text.try_push_str("-")?;
    push_digits(&mut text, 2, u32::from(moment.day.month))?;
    text.try_push_str("-")?;
    push_digits(&mut text, 2, u32::from(moment.day.day))?;
    text.try_push_str("T")?;
    push_time(&mut text, moment.time)?;
    text.try_push_str("Z")?;
    Ok(text)
}

// Appends a time.
fn push_time(text: &mut String, time: Clock) -> Result<(), Memory>
    ensures { OnOk result (string_bytes text.new ≡ string_bytes text.old ++ time_text time) }
{
    push_digits(text, 2, u32::from(time.hour))?;
    text.try_push_str(":")?;
    push_digits(text, 2, u32::from(time.minute))?;
    text.try_push_str(":")?;
    push_digits(text, 2, u32::from(time.second))?;
    push_fraction(text, time.nano)
}

// Appends a fraction of a second, if there is one.
fn push_fraction(text: &mut String, nano: u32) -> Result<(), Memory>
    ensures { OnOk result (string_bytes text.new ≡ string_bytes text.old ++ fraction_text nano) }
{
    if nano == 0 {
        return Ok(());
    }
    text.try_push_str(".")?;
    push_digits(text, 9, nano)
}

// Appends the last `count` digits of a number.
fn push_digits(text: &mut String, count: u8, number: u32) -> Result<(), Memory>
    ensures { OnOk result (string_bytes text.new
        ≡ string_bytes text.old ++ by_digits count number) }
{
    if count == 0 {
        return Ok(());
    }
    push_digits(text, count - 1, number / 10)?;
    let digit = b'0' + (number % 10) as u8;
    text.try_push(char::from(digit))?;
    Ok(())
}
