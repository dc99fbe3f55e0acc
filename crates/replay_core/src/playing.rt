//! Plays the events of a script, one after the other.
ghost use Rattle.std.specs.Prelude.{◌≡◌, ◌<◌, ◌^◌, ◌++◌, [], length, map, reverse, None, IfErr, IfOk, OnErr, OnOk};
ghost use Rattle.betting_numbers.specs.LegalMoves.{past_with, reason_after};
ghost use Rattle.betting_core.specs.HandNumbers.{IsSameHand};
ghost use Rattle.replay_core.specs.Together.{StandTogether};
ghost use Rattle.replay_core.specs.AddedMoves.{WhereTogether, moves_added};
ghost use Rattle.play_event.specs.PlayedScript.{IsPlayed, IsWithinLimits};
ghost use Rattle.play_event.specs.Due as dues;
ghost use Rattle.play_event.specs.Laws.{AreLegal};
ghost use Rattle.play_event.specs.Played.{move_said};
ghost use Rattle.play_event.specs.Said.{said_of};
ghost use Rattle.play_event.specs.Scripts.{past_at_end};
ghost use Rattle.play_event.specs.ValidSetup.{IsValid};
ghost use Rattle.replay_core.specs.AtEnd.{IsAtEnd};
ghost use Rattle.replay_core.specs.Events.{AreMovesOf, AreRefused, IsRefusedEvent, said_by};
ghost use Rattle.replay_core.specs.Faults.{IsFaultOf};
ghost use Rattle.replay_core.specs.LegalPart.{ArePlayedBefore};

use crate::ending::{HandAtEnd, at_end};
use crate::fault::ReplayFault;
use crate::hand_in_play::HandInPlay;
use card_set::Memory;
use hand_canon::Moves;
use play_event::{Due, Event, Move, Rules, Script, Setup};
use std::alloc::Global;
use variant_table::Variant;

/// Plays a script to its end, or reports what prevents it.
pub fn play_out<V: Variant>(
    alloc: Global,
    setup: &Setup,
    rules: &Rules,
    script: &Script,
) -> Result<HandAtEnd, ReplayFault>
    requires valid { IsValid setup.now }
    requires code { setup.now.code ≡ V.CODE }
    requires within { IsWithinLimits (said_by script.now) }
    ensures fault { IfErr result (IsFaultOf setup.now rules.now script.now) }
    ensures played { OnOk result (IsPlayed setup.now rules.now (said_by script.now)) }
    ensures ended { IfOk result (IsAtEnd setup.now (past_at_end setup.now (said_by script.now))) }
{
    let mut hand = HandInPlay::<V>::start(setup, rules);
    let mut moves = Moves::new(alloc);
    let events = play_events(&mut hand, &mut moves, script)?;
    if is_unfinished(hand.due()) {
        return Err(ReplayFault::EndsEarly { events });
    }
    Ok(at_end(alloc, &hand, moves)?)
}

/// Plays the events of a script from the first to the last, and counts them.
pub fn play_events<V: Variant>(
    hand: &mut HandInPlay<V>,
    moves: &mut Moves,
    script: &Script,
) -> Result<u32, ReplayFault>
    requires start { StandTogether hand.old.betting hand.old.cards [] }
    requires none { moves.old ≡ [] }
    requires few { length script.now < 2 ^ 32 }
    ensures fault { IfErr result
        (AreRefused hand.old.betting.setup hand.old.betting.rules script.now) }
    ensures part { IfErr result (ArePlayedBefore hand.old.betting.setup
        hand.old.betting.rules (said_by script.now) moves.new) }
    ensures legal { OnOk result (AreLegal hand.old.betting.setup
        hand.old.betting.rules (reverse (said_by script.now))) }
    ensures count { IfOk result (λ count. count ≡ length script.now) }
    ensures stands { OnOk result (StandTogether hand.new.betting hand.new.cards
        (past_at_end hand.old.betting.setup (said_by script.now))) }
    ensures moves { OnOk result (AreMovesOf hand.old.betting.setup
        (past_at_end hand.old.betting.setup (said_by script.now)) moves.new) }
    ensures setup { hand.new.betting.setup ≡ hand.old.betting.setup }
{
    let mut cursor = script.cursor();
    let mut count: u32 = 0;
    while let Some(event) = cursor.next() {
        play_event(hand, moves, &event, count + 1)?;
        count += 1;
    }
    Ok(count)
}

// Plays one more event, with this number.
fn play_event<V: Variant>(
    hand: &mut HandInPlay<V>,
    moves: &mut Moves,
    event: &Event,
    number: u32,
) -> Result<(), ReplayFault>
    ensures fault { WhereTogether hand.old.betting hand.old.cards
        (λ past. IfErr result (IsRefusedEvent hand.old.betting event.now number past)) }
    ensures legal { WhereTogether hand.old.betting hand.old.cards
        (λ past. OnOk result
        (reason_after hand.old.betting past (said_of event.now) ≡ None)) }
    ensures stands { WhereTogether hand.old.betting hand.old.cards
        (λ past. OnOk result (StandTogether hand.new.betting hand.new.cards
        (past_with hand.old.betting past (said_of event.now)))) }
    ensures moves { WhereTogether hand.old.betting hand.old.cards
        (λ past. AreMovesOf hand.old.betting.setup past moves.old
        → OnOk result (AreMovesOf hand.old.betting.setup
        (past_with hand.old.betting past (said_of event.now)) moves.new)) }
    ensures same { IsSameHand hand.old.betting hand.new.betting }
    ensures kept { OnErr result (moves.new ≡ moves.old) }
{
    match hand.advance(event) {
        Ok(added) => Ok(push_move(moves, added)?),
        Err(why) => Err(ReplayFault::Illegal {
            event: number,
            at: event.at,
            why,
        }),
    }
}

// Appends a move, if there is one.
fn push_move(moves: &mut Moves, added: Option<Move>) -> Result<(), Memory>
    ensures added { OnOk result
        (map move_said moves.new ≡ map move_said moves.old ++ moves_added added) }
    ensures kept { OnErr result (moves.new ≡ moves.old) }
{
    match added {
        Some(moved) => moves.push(moved),
        None => Ok(()),
    }
}

// Whether a script may not end while this is due.
fn is_unfinished(due: Due) -> bool
    ensures { result ≡ dues.is_unfinished due }
{
    match due {
        Due::Deal(_) | Due::Draw(_) | Due::BringIn | Due::Move => true,
        Due::Show | Due::Over => false,
    }
}
