//! Plays the first events of a hand, and gives the options after them.
ghost use Rattle.std.specs.Prelude.{◌≡◌, ◌≤◌, true, length, is_some, IfNone};
ghost use Rattle.hand_options.specs.Legal.{AreOptions, IsUndecided};
ghost use Rattle.hand_options.specs.Printed.{HasTargets};
ghost use Rattle.hand_canon.specs.SoundRecord.{script_said};
ghost use Rattle.play_event.specs.Scripts.{past_after};
ghost use Rattle.play_event.specs.TurnTargets.{is_bet_due};
ghost use Rattle.play_event.specs.ValidSetup.{IsValid};
ghost use Rattle.replay_core.specs.LegalPart.{AreLegalBefore};

use crate::choices::Options;
use crate::now::options_now;
use crate::playing::play_first;
use hand_canon::{Record, SoundPlay};
use replay_core::HandInPlay;
use variant_table::{Variant, by_code};

/// What is due after the first `events` events of a play, and which moves of the player to act are
/// legal there.
///
/// Ask for at most as many events as its script has. The hand is played once, up to there, and
/// nothing is allocated. With one live seat the hand is over, though that seat may still show.
pub fn options(play: &SoundPlay<'_>, events: u32) -> Options
    requires { events ≤ length play.now.hand.script }
    ensures legal { AreOptions play.now.hand.setup play.now.hand.rules
        (past_after play.now.hand.setup (script_said play.now.hand) events) result }
    ensures known { is_some result.seat ≡ is_bet_due result.due }
    ensures listed { HasTargets result.raise }
{
    options_at(&play.play().hand, events)
}

/// What is due after the first `events` events of a hand, and which moves of the player to act are
/// legal there. These events must be legal; whether those after them are does not matter.
///
/// If an up-card that decides the player to act is unknown, there is no player to act.
pub fn options_at(hand: &Record, events: u32) -> Options
    requires valid { IsValid hand.now.setup }
    requires there { events ≤ length hand.now.script }
    requires legal_before { AreLegalBefore hand.now.setup hand.now.rules (script_said hand.now)
        events }
    ensures legal { AreOptions hand.now.setup hand.now.rules
        (past_after hand.now.setup (script_said hand.now) events) result }
    ensures undecided { IfNone result.seat (is_bet_due result.due ≡ true
        → IsUndecided hand.now.setup
        (past_after hand.now.setup (script_said hand.now) events)) }
    ensures listed { HasTargets result.raise }
{
    by_code!(hand.setup.code, options_in(hand, events))
}

// The options in a hand of the game `V`.
fn options_in<V: Variant>(hand: &Record, events: u32) -> Options
    requires valid { IsValid hand.now.setup }
    requires code { hand.now.setup.code ≡ V.CODE }
    requires there { events ≤ length hand.now.script }
    requires legal_before { AreLegalBefore hand.now.setup hand.now.rules (script_said hand.now)
        events }
    ensures legal { AreOptions hand.now.setup hand.now.rules
        (past_after hand.now.setup (script_said hand.now) events) result }
    ensures undecided { IfNone result.seat (is_bet_due result.due ≡ true
        → IsUndecided hand.now.setup
        (past_after hand.now.setup (script_said hand.now) events)) }
    ensures listed { HasTargets result.raise }
{
    let mut play = HandInPlay::<V>::start(&hand.setup, &hand.rules);
    play_first(&mut play, &hand.script, events);
    options_now(&play)
}
