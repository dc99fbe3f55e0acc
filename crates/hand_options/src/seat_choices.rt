//! Which of fold, call, bring-in and raise the betting allows the player to act.
ghost use Rattle.std.specs.Prelude.{◌≡◌, ◌≤◌, true, Some};
ghost use Rattle.betting_numbers.specs.LegalMoves.{IsTurn, WhereUps};
ghost use Rattle.hand_options.specs.Legal.{AreOptions};
ghost use Rattle.hand_options.specs.Sets as sets;
ghost use Rattle.play_event.specs.Openers.{TheSeat};
ghost use Rattle.play_event.specs.TurnTargets.{is_bet_due};
ghost use Rattle.play_laws.specs.Dues as dues;

use crate::choices::{Options, RaiseSet};
use crate::targets::raise_set;
use betting_core::Betting;
use chip_ledger::Seat;
use play_event::{Due, UpRow};
use variant_table::Variant;

/// The options of the player to act, when a move or a bring-in is due.
pub fn options_of<V: Variant>(betting: &Betting<V>, up: &UpRow, seat: Seat) -> Options
    requires row { up.now.seats ≡ betting.now.setup.stacks.seats }
    requires bets { is_bet_due betting.now.due ≡ true }
    requires in_hand { seat.number ≤ betting.now.setup.stacks.seats }
    ensures legal { WhereUps betting.now up.now
        (λ past. IsTurn betting.now past (TheSeat seat.number)
        → AreOptions betting.now.setup betting.now.rules past result) }
    ensures seat { result.seat ≡ Some seat }
{
    let due = betting.due();
    let raise = raise_set(V::LIMIT, betting.targets(up));
    if is_move(due) {
        Options {
            due,
            seat: Some(seat),
            fold: betting.may_fold(seat),
            call: Some(betting.chips_to_call(seat)),
            bring_in: None,
            raise,
        }
    } else {
        Options {
            due,
            seat: Some(seat),
            fold: false,
            call: None,
            bring_in: Some(betting.bring_in_target(seat)),
            raise,
        }
    }
}

/// The options when no player is to act: there are none.
pub fn empty_options(due: Due) -> Options
    ensures { result ≡ sets.no_options due }
{
    Options {
        due,
        seat: None,
        fold: false,
        call: None,
        bring_in: None,
        raise: RaiseSet::None,
    }
}

// A move is due.
fn is_move(due: Due) -> bool
    ensures { result ≡ dues.is_move due }
{
    match due {
        Due::Move => true,
        Due::Deal(_) | Due::Draw(_) | Due::BringIn | Due::Show | Due::Over => false,
    }
}
