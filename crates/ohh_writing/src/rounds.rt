//! A hand is written as a list of rounds: those of its streets, and the showdown.
ghost use Rattle.std.specs.Prelude.{◌≡◌, None, [], ◌++◌, map, IfOk, OnOk};
ghost use Rattle.ohh_writing.specs.Actions.{action_said, showings};
ghost use Rattle.ohh_writing.specs.Rounds.{board_round_on, first_actions, round, round_said, showdown_round};
ghost use Rattle.ohh_writing.specs.Rounds as ohh;
ghost use Rattle.ohh_members.specs.declared.street.StreetName.TheVariants as streets;

use crate::action::{Action, Round};
use crate::cards::dealt_cards;
use crate::moves::push_moves;
use crate::posts::push_posts;
use crate::shows::{push_deals, push_showings};
use crate::tidy_trace::TidyTrace;
use card_set::{Memory, SlotRow, TryPush};
use hand_canon::Trace;
use ohh_members::Dialect;
use ohh_members::street::StreetName;
use std::alloc::Global;

/// The rounds of a hand.
#[tactic(auto, unfolding(crate::specs::Rounds::hand_rounds))]
pub fn make_rounds(alloc: Global, dialect: Dialect, tidy: &TidyTrace) -> Result<Vec<Round>, Memory>
    ensures { IfOk result (λ rounds. map round_said rounds.items
        ≡ ohh.hand_rounds dialect tidy.now.trace.now) }
{
    let mut rounds = Vec::new(alloc);
    rounds.try_push(first_round(alloc, dialect, tidy)?)?;
    push_board_round(alloc, &mut rounds, dialect, tidy, StreetName::Flop, 2)?;
    push_board_round(alloc, &mut rounds, dialect, tidy, StreetName::Turn, 3)?;
    push_board_round(alloc, &mut rounds, dialect, tidy, StreetName::River, 4)?;
    push_showdown(alloc, &mut rounds, tidy)?;
    Ok(rounds)
}

// The round of the first street.
fn first_round(alloc: Global, dialect: Dialect, tidy: &TidyTrace) -> Result<Round, Memory>
    ensures { IfOk result (λ made. round_said made
        ≡ round streets.Preflop [] (first_actions dialect tidy.now.trace.now)) }
{
    let trace = tidy.trace;
    let mut actions = Vec::new(alloc);
    push_posts(&mut actions, &trace.setup)?;
    push_deals(&mut actions, tidy)?;
    push_moves(
        &mut actions,
        dialect,
        &trace.setup,
        trace.moves.as_slice(),
        1,
    )?;
    Ok(Round {
        street: StreetName::Preflop,
        cards: SlotRow::new(),
        actions,
    })
}

// Appends the round of a board street, if its cards were dealt.
fn push_board_round(
    alloc: Global,
    rounds: &mut Vec<Round>,
    dialect: Dialect,
    tidy: &TidyTrace,
    street: StreetName,
    number: u8,
) -> Result<(), Memory>
    ensures { OnOk result (map round_said rounds.new.items
        ≡ map round_said rounds.old.items
        ++ board_round_on dialect tidy.now.trace.now street number) }
{
    let cards = dealt_cards(tidy.trace.places.as_slice(), None, number);
    if cards.as_slice().is_empty() {
        return Ok(());
    }
    let actions = make_street_moves(alloc, dialect, tidy.trace, number)?;
    rounds.try_push(Round {
        street,
        cards,
        actions,
    })?;
    Ok(())
}

// The moves of a street.
fn make_street_moves(
    alloc: Global,
    dialect: Dialect,
    trace: &Trace,
    number: u8,
) -> Result<Vec<Action>, Memory>
    ensures { IfOk result (λ actions.
        map action_said actions.items ≡ ohh.moves_on dialect trace.now number) }
{
    let mut actions = Vec::new(alloc);
    push_moves(
        &mut actions,
        dialect,
        &trace.setup,
        trace.moves.as_slice(),
        number,
    )?;
    Ok(actions)
}

// Appends the showdown, if there is one.
fn push_showdown(alloc: Global, rounds: &mut Vec<Round>, tidy: &TidyTrace) -> Result<(), Memory>
    ensures { OnOk result (map round_said rounds.new.items
        ≡ map round_said rounds.old.items ++ showdown_round (showings tidy.now.trace.now)) }
{
    let mut actions = Vec::new(alloc);
    push_showings(&mut actions, tidy)?;
    if actions.is_empty() {
        return Ok(());
    }
    rounds.try_push(Round {
        street: StreetName::Showdown,
        cards: SlotRow::new(),
        actions,
    })?;
    Ok(())
}
