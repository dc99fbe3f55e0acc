//! One step of a hand: what an action did, or a deal to the board, and how it counts.
ghost use Rattle.std.specs.Prelude.{◌≡◌, ◌+◌, cond, min};
ghost use Rattle.ohh_rounds.specs.Steps.{is_action, is_move_effect, is_other_effect, plain_effect, plain_step};

use crate::post::Post;
use card_set::SlotRow;
use chip_ledger::Seat;
use play_event::Kind;

/// What was done.
#[derive(Clone, Copy, Debug, PartialEq, Eq)]
pub enum ActionEffect {
    /// Chips were put in before play began.
    Posted(Post),
    /// Hole cards were dealt to a seat.
    Dealt { seat: Seat, cards: SlotRow },
    /// An event of the script.
    Happened(Kind),
    /// Nothing that counts.
    Passed,
}

/// What was done, and the number of its action through all rounds from 1, or 0 if it comes from no
/// action.
#[derive(Clone, Copy, Debug, PartialEq, Eq)]
pub struct RoundStep {
    pub number: u32,
    pub effect: ActionEffect,
}

/// 1 for a move, else 0.
pub fn moves_of(effect: ActionEffect) -> usize
    ensures { result ≡ cond (is_move_effect (plain_effect effect)) 1 0 }
{
    match effect {
        ActionEffect::Happened(kind) => if kind.is_move() { 1 } else { 0 },
        ActionEffect::Posted(_) | ActionEffect::Dealt { .. } | ActionEffect::Passed => 0,
    }
}

/// 1 for an event of the script that is not a move, else 0.
pub fn others_of(effect: ActionEffect) -> usize
    ensures { result ≡ cond (is_other_effect (plain_effect effect)) 1 0 }
{
    match effect {
        ActionEffect::Happened(kind) => if kind.is_move() { 0 } else { 1 },
        ActionEffect::Posted(_) | ActionEffect::Dealt { .. } | ActionEffect::Passed => 0,
    }
}

/// The number of the next action after a step; `next` was it before.
pub fn next_after(next: u32, step: RoundStep) -> u32
    ensures { result ≡ min (next + cond (is_action (plain_step step)) 1 0) 4294967295 }
{
    if step.number > 0 {
        next.saturating_add(1)
    } else {
        next
    }
}
