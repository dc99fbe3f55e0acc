//! The cards of a hand in its actions: what each seat was dealt, and what it shows or mucks at the
//! end.
ghost use Rattle.std.specs.Prelude.{◌≡◌, ◌++◌, Some, map, OnOk};
ghost use Rattle.card_set.specs.Row.{slots_of};
ghost use Rattle.hand_canon.specs.TraceRows.{core_said};
ghost use Rattle.ohh_writing.specs.Actions.{action_said, alone, deal_written, deals, showing, showings, with_cards};
ghost use Rattle.ohh_members.specs.declared.words.Word.TheVariants as words;

use crate::action::{Action, Detail};
use crate::cards::{dealt_cards, has_known, held_cards};
use crate::tidy_trace::TidyTrace;
use card_set::{Memory, SlotRow, TryPush};
use chip_ledger::Seat;
use ohh_members::words::Word;

/// Appends the deals to the seats, from p1 upward.
pub fn push_deals(actions: &mut Vec<Action>, tidy: &TidyTrace) -> Result<(), Memory>
    ensures { OnOk result (map action_said actions.new.items ≡ map action_said actions.old.items
        ++ deals tidy.now.trace.now.setup (core_said tidy.now.trace.now).places) }
{
    for index in 0..tidy.trace.setup.stacks.seats {
        let seat = Seat { number: index + 1 };
        let cards = dealt_cards(tidy.trace.places.as_slice(), Some(seat), 1);
        push_deal(actions, seat, cards)?;
    }
    Ok(())
}

// Appends the deal of cards to a seat, if one of them is known.
fn push_deal(actions: &mut Vec<Action>, seat: Seat, cards: SlotRow) -> Result<(), Memory>
    ensures { OnOk result (map action_said actions.new.items
        ≡ map action_said actions.old.items ++ deal_written seat.number (slots_of cards)) }
{
    if !has_known(cards.as_slice()) {
        return Ok(());
    }
    actions.try_push(cards_action(Word::DealtCards, seat, cards))?;
    Ok(())
}

/// Appends the actions of the showdown, from p1 upward.
pub fn push_showings(actions: &mut Vec<Action>, tidy: &TidyTrace) -> Result<(), Memory>
    ensures { OnOk result (map action_said actions.new.items
        ≡ map action_said actions.old.items ++ showings tidy.now.trace.now) }
{
    for index in 0..tidy.trace.setup.stacks.seats {
        push_showing(actions, tidy, Seat { number: index + 1 })?;
    }
    Ok(())
}

// Appends what a seat does at the showdown, if it takes part.
fn push_showing(actions: &mut Vec<Action>, tidy: &TidyTrace, seat: Seat) -> Result<(), Memory>
    ensures { OnOk result (map action_said actions.new.items
        ≡ map action_said actions.old.items ++ showing tidy.now.trace.now seat.number) }
{
    let trace = tidy.trace;
    if trace.shown.flags[seat.number as usize - 1] {
        let cards = held_cards(trace.places.as_slice(), seat);
        actions.try_push(cards_action(Word::ShowsCards, seat, cards))?;
    } else if trace.mucked.flags[seat.number as usize - 1] {
        actions.try_push(muck_action(seat))?;
    }
    Ok(())
}

// An action with cards.
fn cards_action(word: Word, seat: Seat, cards: SlotRow) -> Action
    ensures { action_said result ≡ with_cards word seat.number (slots_of cards) }
{
    Action {
        word,
        player: seat.number,
        detail: Detail::Cards(cards),
    }
}

fn muck_action(seat: Seat) -> Action
    ensures { action_said result ≡ alone words.MucksCards seat.number }
{
    Action {
        word: Word::MucksCards,
        player: seat.number,
        detail: Detail::Nothing,
    }
}
