//! Reads the number of an option: a few decimal digits, in the option's range.
ghost use Rattle.std.specs.Prelude.{◌≡◌, ◌≤◌, IfSome, option_map};
ghost use Rattle.command_words.specs.Numbers.{events_said, hand_said, hands_said, no_less, number_said, seat_said, seed_said, street_said};

use crate::hand_count::HandCount;
use chip_ledger::Seat;
use first_fault::{MOST_HANDS, is_all_digits, read_digits};

/// The seed that a text says.
pub fn read_seed(text: &str) -> Option<u64>
    ensures { result ≡ seed_said text.now }
{
    read_number(text, 9, 0, 999_999_999)
}

/// The number of hands that a text says.
pub fn read_count(text: &str) -> Option<HandCount>
    ensures { option_map (λ count. count.number) result ≡ hands_said text.now }
{
    let number = read_number(text, 5, 0, MOST_HANDS as u64)?;
    Some(HandCount {
        number: number as u32,
    })
}

/// The seat that a text says.
pub fn read_seat(text: &str) -> Option<Seat>
    ensures { result ≡ seat_said text.now }
{
    let number = read_number(text, 2, 1, 10)?;
    Seat::new(number as u8)
}

/// The place of a hand that a text says, from 1.
pub fn read_hand(text: &str) -> Option<u32>
    ensures { result ≡ hand_said text.now }
{
    let number = read_number(text, 5, 1, MOST_HANDS as u64)?;
    Some(number as u32)
}

/// The number of events that a text says.
pub fn read_events(text: &str) -> Option<u32>
    ensures { result ≡ events_said text.now }
{
    let number = read_number(text, 4, 0, 9999)?;
    Some(number as u32)
}

/// The street that a text says, from 2 to 4.
pub fn read_street(text: &str) -> Option<u8>
    ensures { result ≡ street_said text.now }
{
    let number = read_number(text, 1, 2, 4)?;
    Some(number as u8)
}

// The number that a text of 1 to `digits` digits says, if it is in this range.
#[tactic(auto, unfolding(first_fault::specs::Digits::number_of))]
fn read_number(text: &str, digits: usize, least: u64, most: u64) -> Option<u64>
    requires small { most ≤ 1000000000000000000 }
    ensures said { result ≡ number_said digits least most text.now }
    ensures bound { IfSome result (λ number. number ≤ most) }
{
    let text = text.as_bytes();
    if !is_all_digits(text) || text.len() > digits {
        return None;
    }
    check_least(least, read_digits(text, most)?)
}

// The number, if it is at least `least`.
fn check_least(least: u64, number: u64) -> Option<u64>
    ensures { result ≡ no_less least number }
{
    if least <= number { Some(number) } else { None }
}
