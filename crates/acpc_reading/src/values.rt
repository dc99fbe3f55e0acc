//! Reads what each seat won or lost, as the line states it.
ghost use Rattle.std.specs.Prelude.{◌≡◌, ◌≤◌, ◌<◌, ◌+◌, ◌-◌, ◌^◌, ◌∷◌, length, slice_set, IfOk};
ghost use Rattle.chip_ledger.specs.declared.seat_row.TheConstants.{MOST_AMOUNT};
ghost use Rattle.first_fault.specs.Reading.{Gives};
ghost use Rattle.acpc_game.specs.Parts.{parts_of};
ghost use Rattle.acpc_reading.specs.Values.{unsigned_said, value_said, values_said, whole_said};
ghost use Rattle.acpc_reading.specs.Values as values;
ghost use Rattle.acpc_reading.specs.Views.{nets_in};

use crate::letters::fault_at;
use crate::parts::next_part;
use acpc_game::{LineFault, LineFaultKind, count_parts, cut_at, cut_first};
use chip_ledger::{MOST_AMOUNT, PlayerCount};
use first_fault::{ReadError, is_all_digits, read_digits};
use hand_canon::NetRow;

/// The values field, which begins at this byte, of a hand with this number of players.
#[tactic(auto, unfolding(crate::specs::Values::values_said))]
pub fn read_values(
    players: PlayerCount,
    at: u64,
    text: &[u8],
) -> Result<NetRow, ReadError<LineFault>>
    requires { at + length text.now < 2 ^ 64 - 1 }
    ensures said { Gives nets_in result (values_said players.number at text.now) }
    ensures seats { IfOk result (λ row. row.seats ≡ players.number) }
{
    if count_parts(text, b'|') != players.number as usize {
        return Err(fault_at(LineFaultKind::SeatCount, at));
    }
    let mut nets = [0; 10];
    let mut index = 0;
    let mut place = at;
    let mut rest = Some(text);
    while let Some((part, more)) = next_part(rest, b'|') {
        let value = read_value(place, part)?;
        put(&mut nets, index, value);
        index += 1;
        place += part.len() as u64 + 1;
        rest = more;
    }
    Ok(NetRow {
        seats: players.number,
        nets,
    })
}

// A value, which begins at this byte.
fn read_value(at: u64, text: &[u8]) -> Result<i64, ReadError<LineFault>>
    ensures { Gives (λ value. value) result (value_said at text.now) }
{
    let Some((first, rest)) = cut_first(text) else {
        return Err(fault_at(LineFaultKind::BadValue, at));
    };
    if first == b'-' {
        read_unsigned(true, at, rest)
    } else {
        read_unsigned(false, at, text)
    }
}

// Digits, optionally followed by a point and zeros.
fn read_unsigned(is_negative: bool, at: u64, text: &[u8]) -> Result<i64, ReadError<LineFault>>
    ensures { Gives (λ value. value) result (unsigned_said is_negative at (parts_of 46 text.now)) }
{
    let (digits, rest) = cut_at(text, b'.');
    match rest {
        Some(rest) => read_fraction(is_negative, at, digits, rest),
        None => read_whole(is_negative, at, digits),
    }
}

// The zeros after a point, without a second point, and these digits.
#[tactic(auto, using(crate::proofs::NumberLaws::no_third_part))]
fn read_fraction(
    is_negative: bool,
    at: u64,
    digits: &[u8],
    rest: &[u8],
) -> Result<i64, ReadError<LineFault>>
    ensures { Gives (λ value. value) result
        (unsigned_said is_negative at (digits.now ∷ parts_of 46 rest.now)) }
{
    let (zeros, more) = cut_at(rest, b'.');
    match more {
        Some(_) => Err(fault_at(LineFaultKind::BadValue, at)),
        None => {
            if !is_all_zeros(zeros) {
                return Err(fault_at(LineFaultKind::BadValue, at));
            }
            read_whole(is_negative, at, digits)
        }
    }
}

// Whether these are one or more zeros.
fn is_all_zeros(text: &[u8]) -> bool
    ensures { result ≡ values.are_zeros text.now }
{
    if text.is_empty() {
        return false;
    }
    for b in text {
        if *b != b'0' {
            return false;
        }
    }
    true
}

// The number that digits say.
#[tactic(auto, unfolding(crate::specs::Values::whole_said), using(acpc_game::proofs::Steps::at_most))]
fn read_whole(is_negative: bool, at: u64, digits: &[u8]) -> Result<i64, ReadError<LineFault>>
    ensures { Gives (λ value. value) result (whole_said is_negative at digits.now) }
{
    if !is_all_digits(digits) {
        return Err(fault_at(LineFaultKind::BadValue, at));
    }
    match read_digits(digits, MOST_AMOUNT) {
        Some(number) => Ok(apply_sign(is_negative, number)),
        None => Err(fault_at(LineFaultKind::AmountLimit, at)),
    }
}

// A number with its sign.
fn apply_sign(is_negative: bool, number: u64) -> i64
    requires { number ≤ MOST_AMOUNT }
    ensures { result ≡ values.signed is_negative number }
{
    if is_negative {
        0 - number as i64
    } else {
        number as i64
    }
}

// Sets the number at an index.
fn put(nets: &mut [i64; 10], index: usize, net: i64)
    requires { index < 10 }
    ensures { nets.new ≡ slice_set nets.old index net }
{
    nets[index] = net;
}
