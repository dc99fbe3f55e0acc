//! The chips of the seats during a hand: what each has put in, and what it has left.
ghost use Rattle.std.specs.Prelude.{◌≡◌, ◌++◌, [], ◌∷◌, List, OnOk, string_bytes};
ghost use Rattle.play_event.specs.CanonScript.{plain_move};
ghost use Rattle.play_event.specs.Past.{Move as PlainMove};
ghost use Rattle.play_event.specs.Played.{move_said};
ghost use Rattle.play_event.specs.ValidSetup.{IsValid};
ghost use Rattle.play_event.specs.declared.setup.Setup.{Setup as AnySetup};
ghost use Rattle.printed_hands.specs.Steps.{HasPut, MayAdd, chips_text};

use crate::amounts::push_row;
use card_set::{Memory, TryWrite};
use chip_ledger::{Seat, SeatRow};
use play_event::{Move, Setup};

/// What each seat has put in before the first event: its ante, and its blind as far as the rest of
/// its stack goes.
pub fn posted_row(setup: &Setup) -> SeatRow
    requires { IsValid setup.now }
    ensures { HasPut setup.now [] result }
{
    let mut row = SeatRow::new(setup.stacks.seats);
    for index in 0..setup.stacks.seats {
        let seat = Seat { number: index + 1 };
        let ante = setup.antes.get(seat);
        let blind = setup.blinds.get(seat);
        row.set(
            seat,
            ante + blind.min(setup.stacks.get(seat).saturating_sub(ante)),
        );
    }
    row
}

/// Adds the chips of a move to what its seat has put in.
pub fn add(put: &mut SeatRow, moved: &Move)
    requires { MayAdd moved.now put.old }
    ensures seats { put.new.seats ≡ put.old.seats }
    ensures put { (setup : AnySetup) (moves : List PlainMove) → HasPut setup moves put.old
        → HasPut setup (plain_move (move_said moved.now) ∷ moves) put.new }
{
    if moved.seat.number <= put.seats {
        let before = put.get(moved.seat);
        put.set(moved.seat, before + moved.to.saturating_sub(moved.from));
    }
}

/// Appends the chips of the seats: what each has left, and what each has put in.
pub fn push_chips(text: &mut String, setup: &Setup, put: &SeatRow) -> Result<(), Memory>
    requires { put.now.seats ≡ setup.now.stacks.seats }
    ensures { (moves : List PlainMove) → HasPut setup.now moves put.now
        → OnOk result (string_bytes text.new
        ≡ string_bytes text.old ++ chips_text setup.now moves) }
{
    let mut left = SeatRow::new(setup.stacks.seats);
    for index in 0..setup.stacks.seats {
        let seat = Seat { number: index + 1 };
        left.set(seat, setup.stacks.get(seat).saturating_sub(put.get(seat)));
    }
    text.try_push_str(" | stacks")?;
    push_row(text, &left)?;
    text.try_push_str(" | in")?;
    push_row(text, put)?;
    text.try_push_str("\n")?;
    Ok(())
}
