//! The chips that each seat has put, while the moves of a hand are walked through.
ghost use Rattle.std.specs.Prelude.{◌≡◌, ◌≤◌, ◌+◌, ◌-◌, [], ◌∷◌, List, slice_index};
ghost use Rattle.chip_ledger.specs.declared.seat_row.TheConstants.{MOST_AMOUNT};
ghost use Rattle.play_event.specs.CanonScript.{plain_move};
ghost use Rattle.play_event.specs.Chips as chips;
ghost use Rattle.play_event.specs.Past.{Move as PlainMove};
ghost use Rattle.play_event.specs.Played.{move_said};
ghost use Rattle.play_event.specs.declared.setup.Setup.{Setup as AnySetup};
ghost use Rattle.acpc_format.specs.Puts.{HavePut};

use chip_ledger::Seat;
use play_event::{Move, Setup};

/// The chips that each seat has put before the first move. Seat 1 is at index 0.
pub fn posted_chips(setup: &Setup) -> [u64; 10]
    ensures { HavePut setup.now [] result }
{
    let mut put = [0; 10];
    for index in 0..10 {
        put[index as usize] = posted(setup, Seat { number: index + 1 });
    }
    put
}

// The chips that a seat posts: its ante, and its blind as far as the rest of its stack goes.
fn posted(setup: &Setup, seat: Seat) -> u64
    ensures { result ≡ chips.posted setup.now seat.number }
{
    let ante = setup.antes.get(seat);
    let rest = setup.stacks.get(seat).saturating_sub(ante);
    ante + setup.blinds.get(seat).min(rest)
}

/// Adds the chips of a move to those of its seat.
pub fn add(put: &mut [u64; 10], played: Move)
    requires { slice_index put.old (played.seat.number - 1) + (played.to - played.from)
        ≤ MOST_AMOUNT }
    ensures { (setup : AnySetup) (moves : List PlainMove) → HavePut setup moves put.old
        → HavePut setup (plain_move (move_said played) ∷ moves) put.new }
{
    let index = played.seat.number as usize - 1;
    put[index] += played.to.saturating_sub(played.from);
}
