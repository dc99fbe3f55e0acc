//! Writes the values of a line: what each seat won or lost.
ghost use Rattle.std.specs.Prelude.{◌≡◌, ◌≤◌, ◌++◌, OnOk};
ghost use Rattle.acpc_format.specs.Values.{value_text, values_text};

use crate::cards::push_bar;
use card_set::{Memory, TryExtend, text_from};
use chip_ledger::{Seat, SeatRow};
use std::alloc::Global;

/// The value of each seat, separated by bars.
#[tactic(auto, unfolding(crate::specs::Values::values_text))]
pub fn push_values(
    alloc: Global,
    out: &mut Vec<u8>,
    stacks: &SeatRow,
    finish: &SeatRow,
) -> Result<(), Memory>
    requires { finish.now.seats ≡ stacks.now.seats }
    ensures { OnOk result (out.new.items ≡ out.old.items ++ values_text stacks.now finish.now) }
{
    for index in 0..stacks.seats {
        let seat = Seat { number: index + 1 };
        push_bar(out, seat)?;
        push_value(alloc, out, stacks, finish, seat)?;
    }
    Ok(())
}

// What a seat ends with minus what it began with, in chips.
fn push_value(
    alloc: Global,
    out: &mut Vec<u8>,
    stacks: &SeatRow,
    finish: &SeatRow,
    seat: Seat,
) -> Result<(), Memory>
    requires stack { seat.number ≤ stacks.now.seats }
    requires finish { seat.number ≤ finish.now.seats }
    ensures { OnOk result (out.new.items
        ≡ out.old.items ++ value_text stacks.now finish.now seat.number) }
{
    let before = stacks.get(seat);
    let after = finish.get(seat);
    if after < before {
        let digits = text_from(alloc, before - after)?;
        out.try_extend_from_slice(b"-")?;
        return Ok(out.try_extend_from_slice(digits.as_bytes())?);
    }
    let digits = text_from(alloc, after - before)?;
    Ok(out.try_extend_from_slice(digits.as_bytes())?)
}
