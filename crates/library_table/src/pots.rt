//! Tests pots: `pots cut LIVE PUTS DEAD` cuts what the seats put in, `pots split CODE HANDS BOARD
//! RAKES POT..` shares pots, each of them CHIPS:SEATS, and `pots seat NUMBER` and `pots chips
//! NUMBER` ask for a seat and an amount.
use crate::{rows, shares, words};
use chip_ledger::{Chips, LiveRow, MOST_AMOUNT, PotRow, Seat, SeatRow, total};
use side_pots::pots;
use std::alloc::{AllocError, Global};

/// The answer to a row about pots, seats or chips.
pub fn answer_to(alloc: Global, row: &str) -> Result<Option<String>, AllocError> {
    let (question, rest) = words::first_and_rest(row);
    match question.as_bytes() {
        b"seat" => is_there(alloc, rest.parse::<u8>().ok().and_then(Seat::new).is_some()),
        b"chips" => is_there(
            alloc,
            rest.parse::<u64>().ok().and_then(Chips::new).is_some(),
        ),
        b"cut" => cut(alloc, rest),
        b"split" => shares::answer_to(alloc, rest),
        _ => Ok(None),
    }
}

fn is_there(alloc: Global, found: bool) -> Result<Option<String>, AllocError> {
    let word = if found { "one" } else { "none" };
    Ok(Some(String::from_str(alloc, word)?))
}

// The pots that come from what the seats put in, and what is returned to each.
fn cut(alloc: Global, row: &str) -> Result<Option<String>, AllocError> {
    let (numbers, rest) = words::first_and_rest(row);
    let (amounts, dead) = words::first_and_rest(rest);
    let Some(puts) = rows::amounts(amounts) else {
        return Ok(None);
    };
    let Some(live) = rows::flags(puts.seats, numbers) else {
        return Ok(None);
    };
    let Ok(dead) = dead.parse::<u64>() else {
        return Ok(None);
    };
    if live.seats != puts.seats || !live.any() || MOST_AMOUNT < dead {
        return Ok(None);
    }
    if MOST_AMOUNT < total(&puts) + dead {
        return Ok(None);
    }
    Ok(Some(pots_text(alloc, &pots(&puts, dead, &live))?))
}

// The pots, the lowest first, and then the returned chips.
fn pots_text(alloc: Global, row: &PotRow) -> Result<String, AllocError> {
    let mut text = String::new(alloc);
    for pot in &row.pots[..row.count as usize] {
        let chips = pot.chips;
        write!(text, "{chips} for ")?;
        push_seats(&mut text, &pot.eligible)?;
        text.push_str("; ")?;
    }
    text.push_str("back ")?;
    push_amounts(&mut text, &row.returned)?;
    Ok(text)
}

fn push_seats(text: &mut String, row: &LiveRow) -> Result<(), AllocError> {
    let mut between = "";
    for index in 0..row.seats {
        let seat = Seat { number: index + 1 };
        if row.get(seat) {
            let number = seat.number;
            write!(text, "{between}{number}")?;
            between = ",";
        }
    }
    Ok(())
}

/// Writes the amounts of a row with commas between them.
pub fn push_amounts(text: &mut String, row: &SeatRow) -> Result<(), AllocError> {
    let mut between = "";
    for index in 0..row.seats {
        let amount = row.get(Seat { number: index + 1 });
        write!(text, "{between}{amount}")?;
        between = ",";
    }
    Ok(())
}
