//! Numbers of seats are written if they go round the table once.
ghost use Rattle.std.specs.Prelude.{◌≡◌, ◌==◌, ◌≤◌, length};
ghost use Rattle.std.specs.List.{list_any};
ghost use Rattle.ohh_writing.specs.Seating as seating;

use chip_ledger::{PlayerCount, Seat};

/// The numbers of the players' seats, if they are noted and go round.
pub fn numbers_to_write(players: PlayerCount, said: Option<[u8; 10]>) -> Option<[u8; 10]>
    ensures { result ≡ seating.numbers_spelled players.number said }
{
    match said {
        Some(numbers) => {
            if go_round_once(&numbers.as_slice()[..players.number as usize]) {
                Some(numbers)
            } else {
                None
            }
        }
        None => None,
    }
}

// Whether the numbers differ and go round once: they fall at one step only.
fn go_round_once(numbers: &[u8]) -> bool
    requires { 1 ≤ length numbers.now }
    ensures { result ≡ seating.is_circular numbers.now }
{
    if !are_distinct(numbers) {
        return false;
    }
    count_falls(numbers[0], numbers) == 1
}

// Whether no number is repeated.
fn are_distinct(numbers: &[u8]) -> bool
    ensures { result ≡ seating.has_no_repeat numbers.now }
{
    match numbers {
        [] => true,
        [number, rest @ ..] => {
            if has_number(rest, *number) {
                return false;
            }
            are_distinct(rest)
        }
    }
}

// Whether a number is among others.
fn has_number(numbers: &[u8], number: u8) -> bool
    ensures { result ≡ list_any (λ other. other == number) numbers.now }
{
    for other in numbers {
        if *other == number {
            return true;
        }
    }
    false
}

// How many steps fall, from each number to the next, and from the last one to `back`.
fn count_falls(back: u8, numbers: &[u8]) -> usize
    ensures said { result ≡ seating.falls back numbers.now }
    ensures few { result ≤ length numbers.now }
{
    match numbers {
        [] => 0,
        [number, rest @ ..] => one_if_falling(*number, first_or_back(back, rest))
            + count_falls(back, rest),
    }
}

// 1 if a step falls, else 0.
fn one_if_falling(number: u8, next: u8) -> usize
    ensures said { result ≡ seating.fall number next }
    ensures few { result ≤ 1 }
{
    usize::from(next < number)
}

// The first of some numbers, or `back` after the last.
fn first_or_back(back: u8, numbers: &[u8]) -> u8
    ensures { result ≡ seating.first_or back numbers.now }
{
    match numbers {
        [] => back,
        [next, ..] => *next,
    }
}

/// The number of a seat among these, or by default its place.
pub fn find_seat_number(numbers: Option<[u8; 10]>, seat: Seat) -> u8
    ensures { result ≡ seating.number_among numbers seat.number }
{
    match numbers {
        Some(numbers) => numbers[seat.number as usize - 1],
        None => seat.number,
    }
}
