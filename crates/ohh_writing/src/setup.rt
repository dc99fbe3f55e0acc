//! Which setups the format can write.
ghost use Rattle.std.specs.Prelude.{◌≡◌};
ghost use Rattle.std.specs.List.{list_all, list_any};
ghost use Rattle.play_event.specs.Seats.{all_seats};
ghost use Rattle.ohh_writing.specs.Spelled as spelled;

use crate::posts::big_blind_seat;
use chip_ledger::Seat;
use play_event::Setup;

/// Whether the bet sizes are those that follow from the big blind.
pub fn can_write_sizes(setup: &Setup) -> bool
    ensures { result ≡ spelled.has_spelled_sizes setup.now }
{
    let blind = find_big_blind(setup);
    if setup.code.is_fixed() {
        setup.small_bet == blind && setup.big_bet == 2 * blind
    } else {
        setup.min_bet == blind
    }
}

/// The big blind, as it is named.
pub fn find_big_blind(setup: &Setup) -> u64
    ensures { result ≡ spelled.big_blind setup.now }
{
    setup.blinds.get(big_blind_seat(setup))
}

/// Whether the antes can be written: those of all seats if they are not dead, else those of some.
pub fn can_write_antes(setup: &Setup) -> bool
    ensures { result ≡ spelled.has_spelled_antes setup.now }
{
    if setup.dead_antes {
        has_seat_without_ante(setup)
    } else {
        has_whole_antes(setup)
    }
}

// Whether some seat posts no ante.
fn has_seat_without_ante(setup: &Setup) -> bool
    ensures { result ≡ list_any (spelled.has_no_ante setup.now) (all_seats setup.now) }
{
    for index in 0..setup.stacks.seats {
        if posts_no_ante(setup, Seat { number: index + 1 }) {
            return true;
        }
    }
    false
}

// Whether a seat posts no ante.
fn posts_no_ante(setup: &Setup, seat: Seat) -> bool
    ensures { result ≡ spelled.has_no_ante setup.now seat.number }
{
    setup.antes.get(seat) == 0
}

// Whether each seat posts the greatest ante, or all of a smaller stack.
fn has_whole_antes(setup: &Setup) -> bool
    ensures { result ≡ list_all (spelled.is_whole_ante setup.now) (all_seats setup.now) }
{
    let greatest = find_greatest_ante(setup);
    for index in 0..setup.stacks.seats {
        if !posts_whole_ante(setup, greatest, Seat { number: index + 1 }) {
            return false;
        }
    }
    true
}

/// The greatest ante.
pub fn find_greatest_ante(setup: &Setup) -> u64
    ensures { result ≡ spelled.greatest_ante setup.now }
{
    let mut greatest = 0;
    let mut left = setup.stacks.seats;
    while left > 0 {
        greatest = setup.antes.get(Seat { number: left }).max(greatest);
        left -= 1;
    }
    greatest
}

// Whether a seat posts the greatest ante, or all of a smaller stack.
fn posts_whole_ante(setup: &Setup, greatest: u64, seat: Seat) -> bool
    requires { greatest ≡ spelled.greatest_ante setup.now }
    ensures { result ≡ spelled.is_whole_ante setup.now seat.number }
{
    setup.antes.get(seat) == setup.stacks.get(seat).min(greatest)
}

/// Whether the first two seats have the blinds, and the other seats have no more than straddles
/// that their stacks cover.
pub fn can_write_blinds(setup: &Setup) -> bool
    ensures { result ≡ spelled.has_spelled_blinds setup.now }
{
    if !first_seats_have_blinds(setup) {
        return false;
    }
    setup.stacks.seats == 2 || can_write_straddles(setup)
}

// Whether the first two seats have blinds.
fn first_seats_have_blinds(setup: &Setup) -> bool
    ensures { result ≡ spelled.has_two_blinds setup.now }
{
    0 < setup.blinds.get(Seat { number: 1 }) && 0 < setup.blinds.get(Seat { number: 2 })
}

// Whether, with three or more seats, the first has the small blind and each straddle is covered.
fn can_write_straddles(setup: &Setup) -> bool
    ensures { result ≡ spelled.has_spelled_straddles setup.now }
{
    if setup.blinds.get(Seat { number: 1 }) > setup.blinds.get(Seat { number: 2 }) {
        return false;
    }
    has_covered_straddles(setup)
}

// Whether each straddle is no more than its stack without the ante.
fn has_covered_straddles(setup: &Setup) -> bool
    ensures { result ≡ list_all (spelled.is_covered_straddle setup.now) (all_seats setup.now) }
{
    for index in 0..setup.stacks.seats {
        if !covers_straddle(setup, Seat { number: index + 1 }) {
            return false;
        }
    }
    true
}

// Whether a straddle of the seat is no more than its stack without the ante.
fn covers_straddle(setup: &Setup, seat: Seat) -> bool
    ensures { result ≡ spelled.is_covered_straddle setup.now seat.number }
{
    let ante = setup.antes.get(seat);
    let left = setup.stacks.get(seat).saturating_sub(ante);
    seat.number <= 2 || setup.blinds.get(seat) <= left
}
