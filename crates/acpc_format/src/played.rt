//! Looks through the moves and the cards of a hand for a fact that the logs of a game cannot write.
ghost use Rattle.std.specs.Prelude.{◌≡◌, ◌≤◌, ◌-◌, ◌&&◌, Some, count_by, map};
ghost use Rattle.std.specs.List.{list_any};
ghost use Rattle.chip_ledger.specs.Seat.{seats_of};
ghost use Rattle.hand_canon.specs.TraceRows.{core_said, place_said};
ghost use Rattle.acpc_format.specs.PlayFacts.{play_conditions};
ghost use Rattle.acpc_format.specs.PlayFacts as play_facts;
ghost use Rattle.first_fault.specs.Conditions.{first_where};

use crate::cards::{has_known, has_unknown};
use crate::odd::has_odd_chip;
use acpc_game::Game;
use chip_ledger::{LiveRow, Seat};
use hand_canon::{Trace, Unspelled};
use play_event::{Move, Place};

/// The first fact of the play of a hand that the logs of a game cannot write.
pub fn find_other_play(game: &Game, trace: &Trace) -> Option<Unspelled>
    ensures { result ≡ first_where (play_conditions game.now trace.now) }
{
    let moves = trace.moves.as_slice();
    if has_free_fold(moves) {
        return Some(Unspelled::FreeFold);
    }
    if exceeds_any_cap(game.caps, moves) {
        return Some(Unspelled::TooManyRaises);
    }
    if !game.no_limit && has_off_unit(moves) {
        return Some(Unspelled::RaiseTarget);
    }
    if has_part_known(trace) {
        return Some(Unspelled::PartCards);
    }
    if has_open_muck(trace) {
        return Some(Unspelled::Muck);
    }
    if has_odd_chip(&trace.shares) {
        return Some(Unspelled::OddChip);
    }
    None
}

// Whether a seat folds when it owes nothing.
fn has_free_fold(moves: &[Move]) -> bool
    ensures { result ≡ list_any play_facts.is_free_fold moves.now }
{
    for played in moves {
        if is_fold_owing_nothing(*played) {
            return true;
        }
    }
    false
}

// Whether the move is a fold of a seat that owes nothing.
fn is_fold_owing_nothing(played: Move) -> bool
    ensures { result ≡ play_facts.is_free_fold played }
{
    played.act.is_fold() && played.price <= played.from
}

// Whether one of the four streets has more raises than its cap, if there are caps.
fn exceeds_any_cap(caps: Option<[u32; 4]>, moves: &[Move]) -> bool
    ensures { result ≡ play_facts.is_above_caps caps moves.now }
{
    let Some(caps) = caps else {
        return false;
    };
    exceeds_cap(caps, moves, 1)
        || exceeds_cap(caps, moves, 2)
        || exceeds_cap(caps, moves, 3)
        || exceeds_cap(caps, moves, 4)
}

// Whether a street has more raises than its cap allows.
fn exceeds_cap(caps: [u32; 4], moves: &[Move], street: u8) -> bool
    requires low { 1 ≤ street }
    requires high { street ≤ 4 }
    ensures { result ≡ play_facts.is_above_cap caps moves.now street }
{
    let cap = u64::from(caps[street as usize - 1]);
    cap < count_raises(moves, street) as u64
}

// The number of raises of a street.
fn count_raises(moves: &[Move], street: u8) -> usize
    ensures count { result ≡ count_by (play_facts.is_raise_on street) moves.now }
{
    let mut count = 0;
    for played in moves {
        if raises_on_street(*played, street) {
            count += 1;
        }
    }
    count
}

// Whether the move is a raise on a street.
fn raises_on_street(played: Move, street: u8) -> bool
    ensures { result ≡ play_facts.is_raise_on street played }
{
    played.act.is_raise() && played.street == street
}

// Whether a raise is not by the unit of the limit game.
fn has_off_unit(moves: &[Move]) -> bool
    ensures { result ≡ list_any play_facts.is_off_unit moves.now }
{
    for played in moves {
        if has_other_raise_size(*played) {
            return true;
        }
    }
    false
}

// Whether the move is a raise that is not by the unit of the limit game.
fn has_other_raise_size(played: Move) -> bool
    ensures { result ≡ play_facts.is_off_unit played }
{
    played.act.is_raise() && played.to != played.unit_to
}

// Whether a seat has one hole card that is known and another that is not.
fn has_part_known(trace: &Trace) -> bool
    ensures { result ≡ list_any (play_facts.is_part_known (core_said trace.now).places)
        (seats_of trace.now.setup.stacks.seats) }
{
    for index in 0..trace.setup.stacks.seats {
        if has_known_and_unknown(trace.places.as_slice(), Seat { number: index + 1 }) {
            return true;
        }
    }
    false
}

// Whether one hole card of the seat is known and another is not.
fn has_known_and_unknown(places: &[Place], seat: Seat) -> bool
    ensures { result ≡ play_facts.is_part_known (map place_said places.now) seat.number }
{
    has_unknown(places, Some(seat), 1) && has_known(places, Some(seat), 1)
}

// Whether a seat mucked although its hole cards are known.
fn has_open_muck(trace: &Trace) -> bool
    ensures { result
        ≡ list_any (play_facts.is_open_muck (core_said trace.now).places trace.now.mucked)
        (seats_of trace.now.setup.stacks.seats) }
{
    for index in 0..trace.setup.stacks.seats {
        let seat = Seat { number: index + 1 };
        if has_mucked_known_cards(trace.places.as_slice(), &trace.mucked, seat) {
            return true;
        }
    }
    false
}

// Whether the seat mucked although its hole cards are known.
fn has_mucked_known_cards(places: &[Place], mucked: &LiveRow, seat: Seat) -> bool
    ensures { result ≡ play_facts.is_open_muck (map place_said places.now) mucked.now seat.number }
{
    mucked.flags[seat.number as usize - 1] && !has_unknown(places, Some(seat), 1)
}
