//! What the player to act does in a made hand.
ghost use Rattle.std.specs.Prelude.{◌≡◌, ◌≤◌, ℕ, true, None};
ghost use Rattle.std.specs.Option.{option_map};
ghost use Rattle.betting_numbers.specs.LegalMoves.{IsTurn, WhereUps};
ghost use Rattle.play_event.specs.Openers.{TheSeat};
ghost use Rattle.play_event.specs.Past.{moves_of};
ghost use Rattle.play_event.specs.Said.{kind_said};
ghost use Rattle.play_event.specs.TurnTargets.{is_bet_due};
ghost use Rattle.hand_gen.specs.Coming.{move_by, move_of, raise_of};
ghost use Rattle.hand_gen.specs.Seen.{ends_said};
ghost use Rattle.hand_gen.specs.HandSource.{after_draw, draw_of};

use crate::hand_source::HandSource;
use betting_core::{Betting, Targets};
use chip_ledger::Seat;
use play_event::{Kind, Spelled, UpRow};
use variant_table::Variant;

/// The move of the player to act.
pub fn make_move<V: Variant>(
    betting: &Betting<V>,
    up: &UpRow,
    seat: Seat,
    stock: &mut HandSource,
) -> Kind
    requires row { up.now.seats ≡ betting.now.setup.stacks.seats }
    requires bets { is_bet_due betting.now.due ≡ true }
    requires in_hand { seat.number ≤ betting.now.setup.stacks.seats }
    ensures event { WhereUps betting.now up.now
        (λ past. IsTurn betting.now past (TheSeat seat.number)
        → kind_said result ≡ move_by betting.now.setup betting.now.rules
        (moves_of past) betting.now.street seat.number (draw_of 8 stock.old)) }
    ensures left { stock.new ≡ after_draw stock.old }
{
    let number = stock.draw(8);
    let owes = 0 < betting.to_call(seat);
    let ends = betting.targets(up);
    chosen(owes, ends, seat, number)
}

// The move that a drawn number chooses.
fn chosen(owes: bool, ends: Option<Targets>, seat: Seat, number: u64) -> Kind
    ensures { kind_said result ≡ move_of owes (ends_said ends) seat.number number }
{
    if number == 0 {
        if owes {
            Kind::Fold { actor: Some(seat) }
        } else {
            call(seat)
        }
    } else if number <= 2 {
        raise(seat, least(ends))
    } else if number == 3 {
        raise(seat, greatest(ends))
    } else {
        call(seat)
    }
}

// A raise to a target, or a call if there is none.
fn raise(seat: Seat, target: Option<u64>) -> Kind
    ensures { kind_said result ≡ raise_of seat.number target }
{
    match target {
        Some(target) => Kind::Raise {
            actor: Some(seat),
            amount: Spelled::To(target),
        },
        None => call(seat),
    }
}

// A call that states no chips.
fn call(seat: Seat) -> Kind
    ensures { kind_said result ≡ raise_of seat.number None }
{
    Kind::Call {
        actor: Some(seat),
        stated: None,
    }
}

// The lowest target, if there is one.
fn least(ends: Option<Targets>) -> Option<u64>
    ensures { result ≡ option_map (λ (t : ℕ × ℕ). t.0) (ends_said ends) }
{
    match ends {
        Some(ends) => Some(ends.least),
        None => None,
    }
}

// The highest target, if there is one.
fn greatest(ends: Option<Targets>) -> Option<u64>
    ensures { result ≡ option_map (λ (t : ℕ × ℕ). t.1) (ends_said ends) }
{
    match ends {
        Some(ends) => Some(ends.greatest),
        None => None,
    }
}
