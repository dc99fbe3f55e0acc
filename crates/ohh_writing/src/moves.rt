//! The moves of a street, each with the chips that it adds and whether its seat is all-in.
ghost use Rattle.std.specs.Prelude.{◌≡◌, ◌==◌, ◌≤◌, ℕ, ◌+◌, ◌-◌, [], ◌∷◌, ◌++◌, if◌then◌else◌, map, slice_index, IfNone, IfSome, OnOk};
ghost use Rattle.play_event.specs.Chips.{chips_left};
ghost use Rattle.play_event.specs.Played.{move_said};
ghost use Rattle.ohh_writing.specs.Actions.{act_written, action_said, alone, call_written, moves_written, raise_written};
ghost use Rattle.ohh_writing.specs.Actions as ohh;

use crate::action::{Action, Detail};
use crate::posts::{chips_action, left_after_posts};
use card_set::{Memory, TryPush};
use chip_ledger::Seat;
use ohh_members::Dialect;
use ohh_members::words::Word;
use play_event::{Act, Move, Setup};

/// Appends the moves of a street to the actions.
pub fn push_moves(
    actions: &mut Vec<Action>,
    dialect: Dialect,
    setup: &Setup,
    moves: &[Move],
    street: u8,
) -> Result<(), Memory>
    ensures { OnOk result (map action_said actions.new.items ≡ map action_said actions.old.items
        ++ moves_written dialect setup.now street [] (map move_said moves.now)) }
{
    let mut left = stacks_after_posts(setup);
    let mut rest = moves;
    while let Some((played, behind)) = first_move(rest) {
        let index = played.seat.number as usize - 1;
        let chips = left[index].saturating_sub(added(played));
        left[index] = chips;
        push_move(actions, dialect, played, chips, street)?;
        rest = behind;
    }
    Ok(())
}

// The chips that each of ten seats has left after its posts.
fn stacks_after_posts(setup: &Setup) -> [u64; 10]
    ensures { (k : ℕ) → k ≤ 9 → slice_index result k ≡ chips_left setup.now [] (k + 1) }
{
    let mut left = [0; 10];
    for index in 0..10_u8 {
        left[index as usize] = left_after_posts(setup, Seat { number: index + 1 });
    }
    left
}

// The first of some moves, and the others.
fn first_move(moves: &[Move]) -> Option<(Move, &[Move])>
    ensures first { IfSome result (λ found. moves.now ≡ found.0 ∷ found.1.now) }
    ensures none { IfNone result (moves.now ≡ []) }
{
    match moves {
        [] => None,
        [played, behind @ ..] => Some((*played, behind)),
    }
}

// Appends the move if it belongs to the street; `left` is the player's remaining stack.
fn push_move(
    actions: &mut Vec<Action>,
    dialect: Dialect,
    played: Move,
    left: u64,
    street: u8,
) -> Result<(), Memory>
    ensures { OnOk result (map action_said actions.new.items ≡ map action_said actions.old.items
        ++ (if played.street == street
        then act_written dialect (move_said played).act (move_said played) left else [])) }
{
    if played.street != street {
        return Ok(());
    }
    let action = match played.act {
        Act::Fold => alone_action(Word::Fold, played),
        Act::Call => call_action(played, left),
        Act::Raise => raise_action(dialect, played, left),
        Act::BringIn => return Ok(()),
    };
    actions.try_push(action)?;
    Ok(())
}

// A check or a call.
fn call_action(played: Move, left: u64) -> Action
    ensures { action_said result ≡ call_written (move_said played) left }
{
    if played.price == played.from {
        return alone_action(Word::Check, played);
    }
    chips_action(Word::Call, played.seat.number, added(played), left)
}

// An action with nothing but its player.
fn alone_action(word: Word, played: Move) -> Action
    ensures { action_said result ≡ alone word played.seat.number }
{
    Action {
        word,
        player: played.seat.number,
        detail: Detail::Nothing,
    }
}

// A bet or a raise.
fn raise_action(dialect: Dialect, played: Move, left: u64) -> Action
    ensures { action_said result ≡ raise_written dialect (move_said played) left }
{
    if played.price == 0 {
        return chips_action(Word::Bet, played.seat.number, added(played), left);
    }
    let amount = find_raise_amount(dialect, played);
    chips_action(Word::Raise, played.seat.number, amount, left)
}

// The amount of a raise in a dialect.
fn find_raise_amount(dialect: Dialect, played: Move) -> u64
    ensures { result ≡ ohh.raise_amount dialect (move_said played) }
{
    match dialect {
        Dialect::Added => added(played),
        Dialect::To => played.to,
    }
}

// The chips that a move adds.
fn added(played: Move) -> u64
    ensures { result ≡ played.to - played.from }
{
    played.to.saturating_sub(played.from)
}
