//! Finds the first number at which two lists of a trace differ, and the first seat that only one of
//! two hands shows.
ghost use Rattle.std.specs.Prelude.{◌≡◌, max, not, option_map};
ghost use Rattle.chip_ledger.specs.LiveRow.{flag_of};
ghost use Rattle.hand_differences.specs.FirstDifference.{difference_said};
ghost use Rattle.hand_differences.specs.FirstDifference as differences;
ghost use Rattle.hand_differences.specs.FirstNumbers.{entry_at, first_other_number, is_same_at};
ghost use Rattle.hand_differences.specs.SameParts as same_parts;

use crate::difference::Difference;
use crate::rows::{are_equal_bools, are_equal_moves, are_equal_places};
use chip_ledger::{LiveRow, Seat};
use play_event::{Move, Place};

// The first move that differs.
pub(crate) fn find_move_difference(played: &[Move], others: &[Move]) -> Option<Difference>
    ensures { option_map difference_said result
        ≡ differences.move_difference played.now others.now }
{
    let Some(number) = first_other_move(played, others) else {
        return None;
    };
    let Some(found) = move_at(played, others, number) else {
        return None;
    };
    Some(Difference::Move {
        number,
        street: found.street,
        seat: found.seat,
    })
}

// The number of the first move that differs.
fn first_other_move(played: &[Move], others: &[Move]) -> Option<usize>
    ensures { result ≡ first_other_number same_parts.is_same_move played.now others.now }
{
    for index in 0..greater(played.len(), others.len()) {
        if !are_equal_moves_at(played, others, index + 1) {
            return Some(index + 1);
        }
    }
    None
}

// Both lists have the same move at this number, or neither has one.
fn are_equal_moves_at(played: &[Move], others: &[Move], number: usize) -> bool
    ensures { result ≡ is_same_at same_parts.is_same_move played.now others.now number }
{
    let index = number.saturating_sub(1);
    match (played.get(index), others.get(index)) {
        (Some(a), Some(b)) => are_equal_moves(a, b),
        (None, None) => true,
        (Some(_), None) | (None, Some(_)) => false,
    }
}

// The move at a number.
fn move_at(played: &[Move], others: &[Move], number: usize) -> Option<Move>
    ensures { result ≡ entry_at played.now others.now number }
{
    let index = number.saturating_sub(1);
    match played.get(index) {
        Some(found) => Some(*found),
        None => others.get(index).copied(),
    }
}

// The first dealt card that differs.
pub(crate) fn find_card_difference(dealt: &[Place], others: &[Place]) -> Option<Difference>
    ensures { option_map difference_said result ≡ differences.card_difference dealt.now others.now }
{
    let Some(number) = first_other_place(dealt, others) else {
        return None;
    };
    let Some(found) = place_at(dealt, others, number) else {
        return None;
    };
    Some(Difference::Card {
        number,
        street: found.street,
        owner: found.owner,
    })
}

// The number of the first dealt card that differs.
fn first_other_place(dealt: &[Place], others: &[Place]) -> Option<usize>
    ensures { result ≡ first_other_number same_parts.is_same_place dealt.now others.now }
{
    for index in 0..greater(dealt.len(), others.len()) {
        if !are_equal_places_at(dealt, others, index + 1) {
            return Some(index + 1);
        }
    }
    None
}

// Both lists have the same dealt card at this number, or neither has one.
fn are_equal_places_at(dealt: &[Place], others: &[Place], number: usize) -> bool
    ensures { result ≡ is_same_at same_parts.is_same_place dealt.now others.now number }
{
    let index = number.saturating_sub(1);
    match (dealt.get(index), others.get(index)) {
        (Some(a), Some(b)) => are_equal_places(a, b),
        (None, None) => true,
        (Some(_), None) | (None, Some(_)) => false,
    }
}

// The dealt card at a number.
fn place_at(dealt: &[Place], others: &[Place], number: usize) -> Option<Place>
    ensures { result ≡ entry_at dealt.now others.now number }
{
    let index = number.saturating_sub(1);
    match dealt.get(index) {
        Some(found) => Some(*found),
        None => others.get(index).copied(),
    }
}

// The greater of two lengths.
fn greater(a: usize, b: usize) -> usize
    ensures { result ≡ max a b }
{
    if a < b { b } else { a }
}

// The lowest seat that is shown in only one of two hands.
pub(crate) fn find_shown_difference(shown: &LiveRow, others: &LiveRow) -> Option<Difference>
    ensures { option_map difference_said result
        ≡ differences.shown_difference shown.now others.now }
{
    for index in 0..shown.seats {
        let seat = Seat { number: index + 1 };
        if is_shown_in_one(shown, others, seat) {
            return Some(Difference::Shown(seat));
        }
    }
    None
}

// The seat is shown in only one of two hands.
fn is_shown_in_one(shown: &LiveRow, others: &LiveRow, seat: Seat) -> bool
    ensures { result ≡ not (same_parts.is_same_test (flag_of shown.now seat.number)
        (flag_of others.now seat.number)) }
{
    let index = seat.number as usize - 1;
    !are_equal_bools(shown.flags[index], others.flags[index])
}
