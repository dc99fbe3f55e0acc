//! The posts of a hand: antes, blinds and straddles.
ghost use Rattle.std.specs.Prelude.{◌≡◌, ◌-◌, ◌++◌, map, OnOk};
ghost use Rattle.std.specs.List.{flat_map};
ghost use Rattle.chip_ledger.specs.SeatRow.{amount_of};
ghost use Rattle.play_event.specs.Chips.{blind_posted, posted};
ghost use Rattle.play_event.specs.Seats.{all_seats};
ghost use Rattle.ohh_writing.specs.Actions.{action_said, ante_post, blind_post, posts, straddle_post, with_chips};
ghost use Rattle.ohh_writing.specs.Actions as ohh;

use crate::action::{Action, Detail};
use card_set::{Memory, TryPush};
use chip_ledger::Seat;
use ohh_members::words::Word;
use play_event::Setup;

/// Appends the posts of a hand to the actions.
pub fn push_posts(actions: &mut Vec<Action>, setup: &Setup) -> Result<(), Memory>
    ensures { OnOk result (map action_said actions.new.items
        ≡ map action_said actions.old.items ++ posts setup.now) }
{
    push_antes(actions, setup)?;
    actions.try_push(blind_action(setup, Word::PostSmallBlind, small_blind_seat(setup)))?;
    actions.try_push(blind_action(setup, Word::PostBigBlind, big_blind_seat(setup)))?;
    push_straddles(actions, setup)
}

// Appends the antes, from the first seat upward.
fn push_antes(actions: &mut Vec<Action>, setup: &Setup) -> Result<(), Memory>
    ensures { OnOk result (map action_said actions.new.items
        ≡ map action_said actions.old.items
        ++ flat_map (ante_post setup.now) (all_seats setup.now)) }
{
    for index in 0..setup.stacks.seats {
        push_ante(actions, setup, Seat { number: index + 1 })?;
    }
    Ok(())
}

// Appends the ante of a seat, if it posts one.
fn push_ante(actions: &mut Vec<Action>, setup: &Setup, seat: Seat) -> Result<(), Memory>
    ensures { OnOk result (map action_said actions.new.items
        ≡ map action_said actions.old.items ++ ante_post setup.now seat.number) }
{
    let ante = setup.antes.get(seat);
    if ante == 0 {
        return Ok(());
    }
    let left = setup.stacks.get(seat).saturating_sub(ante);
    actions.try_push(chips_action(Word::PostAnte, seat.number, ante, left))?;
    Ok(())
}

/// The seat of the small blind.
pub fn small_blind_seat(setup: &Setup) -> Seat
    ensures { result.number ≡ ohh.seat_of_small_blind setup.now }
{
    let number = if setup.stacks.seats == 2 { 2 } else { 1 };
    Seat { number }
}

/// The seat of the big blind.
pub fn big_blind_seat(setup: &Setup) -> Seat
    ensures { result.number ≡ ohh.seat_of_big_blind setup.now }
{
    let number = if setup.stacks.seats == 2 { 1 } else { 2 };
    Seat { number }
}

// Appends the straddles, from the third seat upward.
fn push_straddles(actions: &mut Vec<Action>, setup: &Setup) -> Result<(), Memory>
    ensures { OnOk result (map action_said actions.new.items
        ≡ map action_said actions.old.items
        ++ flat_map (straddle_post setup.now) (all_seats setup.now)) }
{
    for index in 0..setup.stacks.seats {
        push_straddle(actions, setup, Seat { number: index + 1 })?;
    }
    Ok(())
}

// Appends the straddle of a seat, if it posts one.
fn push_straddle(actions: &mut Vec<Action>, setup: &Setup, seat: Seat) -> Result<(), Memory>
    ensures { OnOk result (map action_said actions.new.items
        ≡ map action_said actions.old.items ++ straddle_post setup.now seat.number) }
{
    if seat.number <= 2 || setup.blinds.get(seat) == 0 {
        return Ok(());
    }
    actions.try_push(blind_action(setup, Word::Straddle, seat))?;
    Ok(())
}

// A blind or straddle.
fn blind_action(setup: &Setup, word: Word, seat: Seat) -> Action
    ensures { action_said result ≡ blind_post setup.now word seat.number }
{
    let amount = posted_blind(setup, seat);
    chips_action(word, seat.number, amount, left_after_posts(setup, seat))
}

/// An action that puts in chips; `left` is the player's remaining stack.
pub fn chips_action(word: Word, player: u8, amount: u64, left: u64) -> Action
    ensures { action_said result ≡ with_chips word player amount left }
{
    let all_in = left == 0;
    Action {
        word,
        player,
        detail: Detail::Chips { amount, all_in },
    }
}

/// The chips that a seat has left after its ante and its blind.
pub fn left_after_posts(setup: &Setup, seat: Seat) -> u64
    ensures { result ≡ amount_of setup.now.stacks seat.number
        - posted setup.now seat.number }
{
    let left = setup.stacks.get(seat).saturating_sub(setup.antes.get(seat));
    left.saturating_sub(posted_blind(setup, seat))
}

// The blind that a seat posts: as much of it as the stack has after the ante.
fn posted_blind(setup: &Setup, seat: Seat) -> u64
    ensures { result ≡ blind_posted setup.now seat.number }
{
    let left = setup.stacks.get(seat).saturating_sub(setup.antes.get(seat));
    setup.blinds.get(seat).min(left)
}
