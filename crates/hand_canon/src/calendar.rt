//! The days of the calendar.
ghost use Rattle.std.specs.Prelude.{◌≡◌, ◌≤◌, ◌↔◌, nat_le, IsTrue, pos};
ghost use Rattle.jiff.specs.Words.{IsDate};
ghost use Rattle.hand_canon.specs.AllowedNotes.{IsWithin, days_in_month};

use jiff::civil::Date;

/// Whether the calendar has the day.
pub fn has_day(year: u16, month: u8, day: u8) -> bool
    requires year { IsWithin 1 9999 year }
    requires month { IsWithin 1 12 month }
    requires day { IsWithin 1 31 day }
    ensures { result ≡ nat_le day (days_in_month year month) }
{
    is_date(year, month, day)
}

// Whether the numbers are a date.
fn is_date(year: u16, month: u8, day: u8) -> bool
    requires year { year ≤ 9999 }
    requires month { month ≤ 12 }
    requires day { day ≤ 31 }
    ensures { IsTrue result ↔ IsDate (pos year) (pos month) (pos day) }
{
    Date::new(year as i16, month as i8, day as i8).is_ok()
}
