//! The words of a row, separated by spaces, and the numbers of a word, separated by commas.
ghost use Rattle.std.specs.Prelude.{◌≤◌, IfSome};

use chip_ledger::{MOST_AMOUNT, Seat, SeatRow};
use std::alloc::{AllocError, Global};

/// The first word, and what follows the space after it.
pub fn first_and_rest(text: &str) -> (&str, &str) {
    match text.split_once(' ') {
        Some(parts) => parts,
        None => (text, ""),
    }
}

/// The seat with this number.
pub fn seat_of(word: &str) -> Option<Seat> {
    Seat::new(word.parse::<u8>().ok()?)
}

/// Two to ten amounts, one for each seat: `14,100,100`.
pub fn row_of(word: &str) -> Option<SeatRow> {
    let mut row = SeatRow::new(seats_in(word)?);
    for (index, amount) in word.split(',').enumerate() {
        let chips = amount.parse::<u64>().ok()?;
        if index >= usize::from(row.seats) || MOST_AMOUNT < chips {
            return None;
        }
        let seat = Seat::new(index as u8 + 1)?;
        row.set(seat, chips);
    }
    Some(row)
}

// How many amounts there are, if they can be those of a row.
fn seats_in(word: &str) -> Option<u8>
    ensures { IfSome result (λ seats. (2 ≤ seats) × (seats ≤ 10)) }
{
    let mut seats: u8 = 0;
    for _ in word.split(',') {
        seats = seats.saturating_add(1);
    }
    if 2 <= seats && seats <= 10 {
        Some(seats)
    } else {
        None
    }
}

/// The amounts of a row, one for each seat: `14,100,100`.
pub fn row_text(alloc: Global, row: &SeatRow) -> Result<String, AllocError> {
    let mut text = String::new(alloc);
    for index in 0..row.seats {
        if index > 0 {
            text.push_str(",")?;
        }
        let chips = row.get(Seat { number: index + 1 });
        write!(text, "{chips}")?;
    }
    Ok(text)
}
