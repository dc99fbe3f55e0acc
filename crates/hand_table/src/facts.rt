//! Stated facts of the end of a hand: `finish=99,98,103 wins=0,0,5 pots=5 values=-1,-2,3`.
ghost use Rattle.std.specs.Prelude.{◌≡◌, ◌≤◌, IsTrue};
ghost use Rattle.std.specs.Option.{ForSome};
ghost use Rattle.chip_ledger.specs.declared.seat_row.TheConstants.{MOST_AMOUNT};
ghost use Rattle.hand_canon.specs.SoundRecord.{IsStatedFor};

use crate::words::row_of;
use chip_ledger::{MOST_AMOUNT, Seat, SeatRow};
use hand_canon::{FactDiffers, NetRow, Stated, Which};
use std::alloc::{AllocError, Global};

/// The facts that the words state.
pub fn stated_of(text: &str) -> Option<Stated> {
    let mut stated = Stated {
        finish: None,
        wins: None,
        pot_total: None,
        values: None,
    };
    for word in text.split(' ') {
        let (name, value) = word.split_once('=')?;
        match name.as_bytes() {
            b"finish" => stated.finish = Some(row_of(value)?),
            b"wins" => stated.wins = Some(row_of(value)?),
            b"pots" => stated.pot_total = Some(value.parse::<u64>().ok()?),
            b"values" => stated.values = Some(nets_of(value)?),
            _ => return None,
        }
    }
    Some(stated)
}

// What each of up to ten seats won or lost.
fn nets_of(text: &str) -> Option<NetRow> {
    let mut seats: u8 = 0;
    for _ in text.split(',') {
        seats = seats.saturating_add(1);
    }
    if 10 < seats {
        return None;
    }
    let mut row = NetRow::new(seats);
    for (index, net) in text.split(',').enumerate() {
        let net = net.parse::<i64>().ok()?;
        if index >= usize::from(row.seats) {
            return None;
        }
        row.set(Seat::new(index as u8 + 1)?, net);
    }
    Some(row)
}

/// The facts can be stated of a hand of `seats` seats.
pub fn fits(stated: &Stated, seats: u8) -> bool
    ensures { IsTrue result → IsStatedFor seats stated.now }
{
    row_fits(&stated.finish, seats)
        && row_fits(&stated.wins, seats)
        && total_fits(&stated.pot_total)
        && nets_fit(&stated.values, seats)
}

fn row_fits(row: &Option<SeatRow>, seats: u8) -> bool
    ensures { IsTrue result → ForSome row.now (λ row. row.seats ≡ seats) }
{
    match row {
        Some(row) => row.seats == seats,
        None => true,
    }
}

fn total_fits(total: &Option<u64>) -> bool
    ensures { IsTrue result → ForSome total.now (λ total. total ≤ MOST_AMOUNT) }
{
    match total {
        Some(total) => *total <= MOST_AMOUNT,
        None => true,
    }
}

fn nets_fit(row: &Option<NetRow>, seats: u8) -> bool
    ensures { IsTrue result → ForSome row.now (λ row. row.seats ≡ seats) }
{
    match row {
        Some(row) => row.seats == seats,
        None => true,
    }
}

/// A fact that differs, with both numbers.
pub fn difference_text(alloc: Global, differs: FactDiffers) -> Result<String, AllocError> {
    let (stated, replayed) = (differs.stated, differs.replayed);
    match differs.which {
        Which::Finish(seat) => {
            let seat = seat.number;
            format!(in alloc; "finish p{seat} stated {stated}, replayed {replayed}")
        }
        Which::Win(seat) => {
            let seat = seat.number;
            format!(in alloc; "win p{seat} stated {stated}, replayed {replayed}")
        }
        Which::Pots => format!(in alloc; "pots stated {stated}, replayed {replayed}"),
        Which::Value(seat) => {
            let seat = seat.number;
            format!(in alloc; "value p{seat} stated {stated}, replayed {replayed}")
        }
    }
}
