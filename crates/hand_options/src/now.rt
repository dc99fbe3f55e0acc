//! Reads from the state of betting and cards what is due now, and which moves are legal.
ghost use Rattle.std.specs.Prelude.{◌≡◌, true, IfNone};
ghost use Rattle.hand_options.specs.Legal.{AreOptions, IsUndecided};
ghost use Rattle.play_event.specs.TurnTargets.{is_bet_due};
ghost use Rattle.replay_core.specs.AddedMoves.{WhereTogether};

use crate::choices::Options;
use crate::seat_choices::{empty_options, options_of};
use replay_core::HandInPlay;
use variant_table::Variant;

/// What is due now, and which moves of the player to act are legal. There is no player to act if an
/// up-card that decides it is unknown.
pub fn options_now<V: Variant>(hand: &HandInPlay<V>) -> Options
    ensures legal { WhereTogether hand.now.betting hand.now.cards
        (λ past. AreOptions hand.now.betting.setup hand.now.betting.rules past result) }
    ensures undecided { WhereTogether hand.now.betting hand.now.cards
        (λ past. IfNone result.seat (is_bet_due result.due ≡ true
        → IsUndecided hand.now.betting.setup past)) }
{
    let due = hand.betting.due();
    if !due.is_bet() {
        return empty_options(due);
    }
    let up = hand.opening_up_cards();
    match hand.betting.to_act(&up) {
        Some(seat) => options_of(&hand.betting, &up, seat),
        None => empty_options(due),
    }
}
