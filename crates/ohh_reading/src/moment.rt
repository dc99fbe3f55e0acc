//! Reads when a hand was played from a text: a date and a time of day, in universal time.
ghost use Rattle.std.specs.Prelude.{◌≡◌, ◌≤◌, length, IfOk};
ghost use Rattle.serde_json.specs.View.{view};
ghost use Rattle.hand_canon.specs.AllowedNotes.{IsTime, IsWithin};
ghost use Rattle.first_fault.specs.Reading.{Gives};
ghost use Rattle.ohh_reading.specs.MomentRanges.{IsDay, IsMoment};
ghost use Rattle.ohh_reading.specs.Moments.{clock_said, day_said, digits_said, fraction_said, moment_said, nine_of, zoned};
ghost use Rattle.ohh_reading.specs.Moments as moments;

use first_fault::{ReadError, is_all_digits, read_digits};
use hand_canon::{CivilDate, Clock, Moment, has_day};
use ohh_members::fault::{MemberFault, MemberFaultKind, Path};
use ohh_members::values::{fault_at, read_text};
use serde_json::Value;

/// The moment at which a hand began.
#[tactic(auto, unfolding(crate::specs::Moments::moment_in, crate::specs::Moments::parts_said))]
pub fn read_moment(value: &Value) -> Result<Moment, ReadError<MemberFault>>
    ensures said { Gives (λ moment. moment) result (moment_said (view value.now)) }
    ensures moment { IfOk result IsMoment }
{
    let text = read_text(value, Path::StartDate)?.as_bytes();
    if !has_separators(text) {
        return Err(new_moment_fault());
    }
    let day = read_day(text)?;
    let (_front, behind) = text.split_at(19);
    let nano = read_fraction(behind)?;
    let time = read_clock(text, nano)?;
    Ok(Moment { day, time })
}

// Whether the characters between the numbers are those of a moment.
fn has_separators(text: &[u8]) -> bool
    ensures { result ≡ moments.has_signs text.now }
{
    text.len() >= 19
        && ((text[4] == b'-' && text[7] == b'-')
            && ((text[10] == b'T' || text[10] == b' ') && (text[13] == b':' && text[16] == b':')))
}

// The date in a text with these separators.
#[tactic(auto, unfolding(crate::specs::Moments::day_said))]
fn read_day(text: &[u8]) -> Result<CivilDate, ReadError<MemberFault>>
    ensures said { Gives (λ day. day) result (day_said text.now) }
    ensures day { IfOk result IsDay }
{
    let year = number_in(part(text, 0, 4), 1, 9999)? as u16;
    let month = number_in(part(text, 5, 2), 1, 12)? as u8;
    let day = number_in(part(text, 8, 2), 1, 31)? as u8;
    if has_day(year, month, day) {
        Ok(CivilDate { year, month, day })
    } else {
        Err(new_moment_fault())
    }
}

// What comes after the seconds: optionally a point and one to nine digits of a fraction, and then
// the zone. The fraction is returned in nanoseconds.
#[tactic(auto, unfolding(crate::specs::Moments::fraction_said, crate::specs::Moments::fraction_of))]
fn read_fraction(text: &[u8]) -> Result<u32, ReadError<MemberFault>>
    ensures said { Gives (λ nano. nano) result (fraction_said text.now) }
    ensures most { IfOk result (λ nano. nano ≤ 999999999) }
{
    if !starts_with_point(text) {
        return read_zone(0, text);
    }
    let (_point, behind) = text.split_at(1);
    let count = count_leading_digits(behind);
    if count < 1 || count > 9 {
        return Err(new_moment_fault());
    }
    let (digits, zone) = behind.split_at(count);
    let nine = nine(digits);
    let nano = number_in(&nine, 0, 999_999_999)? as u32;
    read_zone(nano, zone)
}

// Whether the text begins with a point.
fn starts_with_point(text: &[u8]) -> bool
    ensures { result ≡ moments.has_point text.now }
{
    !text.is_empty() && text[0] == b'.'
}

// Up to nine digits, padded with zeros on the right.
fn nine(digits: &[u8]) -> [u8; 9]
    requires { length digits.now ≤ 9 }
    ensures { result ≡ nine_of digits.now }
{
    let mut nine = [b'0'; 9];
    for (index, digit) in digits.iter().enumerate() {
        nine[index] = *digit;
    }
    nine
}

// These nanoseconds, if the zone after them is universal time.
#[tactic(auto, unfolding(crate::specs::Moments::zoned))]
fn read_zone(nano: u32, zone: &[u8]) -> Result<u32, ReadError<MemberFault>>
    ensures said { Gives (λ nano. nano) result (zoned nano zone.now) }
    ensures same { IfOk result (λ found. found ≡ nano) }
{
    if is_utc(zone) {
        Ok(nano)
    } else {
        Err(new_moment_fault())
    }
}

// Whether the zone is universal time.
fn is_utc(zone: &[u8]) -> bool
    ensures { result ≡ moments.is_universal zone.now }
{
    zone.is_empty() || (zone == b"Z".as_slice() || zone == b"+00:00".as_slice())
}

// How many digits the text begins with.
fn count_leading_digits(text: &[u8]) -> usize
    ensures { result ≡ moments.digits_in_front text.now }
{
    for (index, sign) in text.iter().enumerate() {
        if !sign.is_ascii_digit() {
            return index;
        }
    }
    text.len()
}

// The time of day in a text with these separators, with these nanoseconds.
#[tactic(auto, unfolding(crate::specs::Moments::clock_said))]
fn read_clock(text: &[u8], nano: u32) -> Result<Clock, ReadError<MemberFault>>
    requires { nano ≤ 999999999 }
    ensures said { Gives (λ clock. clock) result (clock_said nano text.now) }
    ensures time { IfOk result IsTime }
{
    let hour = number_in(part(text, 11, 2), 0, 23)? as u8;
    let minute = number_in(part(text, 14, 2), 0, 59)? as u8;
    let second = number_in(part(text, 17, 2), 0, 59)? as u8;
    Ok(Clock {
        hour,
        minute,
        second,
        nano,
    })
}

// A number from `least` to `most`, in decimal digits.
#[tactic(auto, unfolding(crate::specs::Moments::digits_said, first_fault::specs::Digits::number_of))]
fn number_in(digits: &[u8], least: u64, most: u64) -> Result<u64, ReadError<MemberFault>>
    requires { most ≤ 1000000000000000000 }
    ensures said { Gives (λ number. number) result (digits_said least most digits.now) }
    ensures within { IfOk result (IsWithin least most) }
{
    if !is_all_digits(digits) {
        return Err(new_moment_fault());
    }
    match read_digits(digits, most) {
        Some(number) => {
            if least <= number {
                Ok(number)
            } else {
                Err(new_moment_fault())
            }
        }
        None => Err(new_moment_fault()),
    }
}

// The text is not a moment.
fn new_moment_fault() -> ReadError<MemberFault>
    ensures { result
        ≡ ReadError.Fault (record { what = MemberFaultKind.WrongType; path = Path.StartDate }) }
{
    fault_at(MemberFaultKind::WrongType, Path::StartDate)
}

// `count` bytes of a text from this place on, or fewer if the text ends.
fn part(text: &[u8], from: usize, count: usize) -> &[u8]
    ensures { result.now ≡ moments.characters_from from count text.now }
{
    let (_before, rest) = text.split_at(from.min(text.len()));
    let (part, _behind) = rest.split_at(count.min(rest.len()));
    part
}
