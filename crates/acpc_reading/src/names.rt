//! Reads the names of the players and the number of the hand as notes.
ghost use Rattle.std.specs.Prelude.{◌≡◌, ℕ, ◌≤◌, ◌<◌, ◌+◌, ◌-◌, ◌^◌, ◌==◌, ◌||◌, length, take, bytes_eq, slice_index_or, is_some, None, IfOk, IfSome};
ghost use Rattle.std.specs.Str.{is_utf8};
ghost use Rattle.first_fault.specs.Reading.{Gives};
ghost use Rattle.hand_canon.specs.AllowedNotes.{IsName, IsNoteText};
ghost use Rattle.acpc_reading.specs.Names.{hand_said, name_said, names_said};
ghost use Rattle.chip_ledger.specs.SeatsSaid.{default_name};

use crate::letters::fault_at;
use crate::parts::next_part;
use acpc_game::{LineFault, LineFaultKind, count_parts};
use card_set::text_from;
use chip_ledger::{PlayerCount, Seat};
use first_fault::{MOST_TEXT_BYTES, Quantity, ReadError, Text, is_all_digits, read_digits};
use std::alloc::Global;

// The most digits of a hand's number, and the greatest such number.
const MOST_HAND_DIGITS: usize = 18;

const MOST_HAND: u64 = 999_999_999_999_999_999;

/// The number of the hand at this place of its file (from 0); the field begins at this byte.
#[tactic(auto, unfolding(crate::specs::Names::hand_said))]
pub fn read_hand(
    alloc: Global,
    place: usize,
    at: u64,
    text: &[u8],
) -> Result<Option<Text>, ReadError<LineFault>>
    ensures said { Gives (λ note. note) result (hand_said place at text.now) }
    ensures allowed { IfOk result (λ note. IfSome note IsNoteText) }
{
    if !is_all_digits(text) || text.len() > MOST_HAND_DIGITS {
        return Err(fault_at(LineFaultKind::LineShape, at));
    }
    match read_digits(text, MOST_HAND) {
        Some(number) => {
            if number == place as u64 {
                return Ok(None);
            }
            let digits = text_from(alloc, number)?;
            let note = Text::new(alloc, digits.as_str())?;
            Ok(Some(note))
        }
        None => Err(fault_at(LineFaultKind::LineShape, at)),
    }
}

/// The names field, which begins at this byte, of a hand with this number of players. Seats above
/// the last have no name.
#[tactic(auto, unfolding(crate::specs::Names::names_said))]
pub fn read_names(
    alloc: Global,
    players: PlayerCount,
    at: u64,
    text: &[u8],
) -> Result<[Option<Text>; 10], ReadError<LineFault>>
    requires { at + length text.now < 2 ^ 64 - 1 }
    ensures said { Gives (take players.number) result (names_said players.number at text.now) }
    ensures each { IfOk result (λ names. (seat : ℕ) → 1 ≤ seat → seat ≤ players.number
        → IfSome (slice_index_or names (seat - 1) None) (IsName seat)) }
    ensures no_more { IfOk result (λ names. (index : ℕ) → players.number ≤ index
        → slice_index_or names index None ≡ None) }
{
    if count_parts(text, b'|') != players.number as usize {
        return Err(fault_at(LineFaultKind::SeatCount, at));
    }
    let mut names = [None, None, None, None, None, None, None, None, None, None];
    let mut index = 0;
    let mut place = at;
    let mut rest = Some(text);
    while let Some((part, more)) = next_part(rest, b'|') {
        let seat = Seat {
            number: index as u8 + 1,
        };
        let name = read_name(alloc, seat, place, part)?;
        names[index] = name;
        index += 1;
        place += part.len() as u64 + 1;
        rest = more;
    }
    Ok(names)
}

// The name of a seat, which begins at this byte.
#[tactic(auto, using(crate::proofs::UsualNames::usual_again), unfolding(crate::specs::Names::name_said))]
fn read_name(
    alloc: Global,
    seat: Seat,
    at: u64,
    name: &[u8],
) -> Result<Option<Text>, ReadError<LineFault>>
    ensures said { Gives (λ name. name) result (name_said seat.number at name.now) }
    ensures allowed { IfOk result (λ name. IfSome name (IsName seat.number)) }
{
    if says_nothing(seat, name) {
        return Ok(None);
    }
    let Some(text) = text_of(name) else {
        return Err(fault_at(LineFaultKind::LineShape, at));
    };
    if name.len() > MOST_TEXT_BYTES {
        return Err(fault_at(LineFaultKind::TooMany(Quantity::TextBytes), at));
    }
    let text = Text::new(alloc, text)?;
    Ok(Some(text))
}

// The bytes as a text, if they are one.
#[tactic(auto, using(card_set::proofs::Bytes::is_text, card_set::proofs::Bytes::is_no_text))]
fn text_of(bytes: &[u8]) -> Option<&str>
    ensures text { IfSome result (λ text. text.now ≡ bytes.now) }
    ensures is { is_some result ≡ is_utf8 bytes.now }
{
    match str::from_utf8(bytes) {
        Ok(text) => Some(text),
        Err(_) => None,
    }
}

// Whether the name is empty, or the default name of the seat.
fn says_nothing(seat: Seat, name: &[u8]) -> bool
    ensures { result ≡ (length name.now == 0 || bytes_eq name.now (default_name seat.number)) }
{
    name.is_empty() || is_default(seat, name)
}

// Whether the text is the default name of the seat.
fn is_default(seat: Seat, name: &[u8]) -> bool
    ensures { result ≡ bytes_eq name.now (default_name seat.number) }
{
    if seat.number < 10 {
        name == [b'p', b'0' + seat.number].as_slice()
    } else {
        name == b"p10".as_slice()
    }
}
