//! Compares two setups, part by part.
ghost use Rattle.std.specs.Prelude.{◌≡◌, IfNone, bytes_eq, not, option_map};
ghost use Rattle.chip_ledger.specs.SeatRow.{amounts_in};
ghost use Rattle.play_event.specs.Code.{code_text};
ghost use Rattle.hand_differences.specs.FirstDifference.{difference_said, first_holding, setup_rows};
ghost use Rattle.hand_differences.specs.FirstDifference as differences;

use crate::difference::Difference;
use crate::rows::are_equal_bools;
use chip_ledger::{RakeRow, SeatRow};
use play_event::{Code, Setup};

// The first part in which two setups differ.
pub(crate) fn find_setup_difference(a: &Setup, b: &Setup) -> Option<Difference>
    ensures named { option_map difference_said result ≡ first_holding (setup_rows a.now b.now) }
    ensures seats { IfNone result (a.now.stacks.seats ≡ b.now.stacks.seats) }
{
    if is_other_code(a.code, b.code) {
        return Some(Difference::Variant);
    }
    if a.stacks.seats != b.stacks.seats {
        return Some(Difference::SeatCount);
    }
    if are_other_amounts(&a.stacks, &b.stacks) {
        return Some(Difference::Stacks);
    }
    if differ_in_sizes(a, b) {
        return Some(Difference::BetSizes);
    }
    if differ_in_antes(a, b) {
        return Some(Difference::Antes);
    }
    if are_other_amounts(&a.blinds, &b.blinds) {
        return Some(Difference::Blinds);
    }
    if are_other_rakes(&a.rakes, &b.rakes) {
        return Some(Difference::Rake);
    }
    None
}

// The games differ.
fn is_other_code(a: Code, b: Code) -> bool
    ensures { result ≡ not (bytes_eq (code_text a) (code_text b)) }
{
    a.text() != b.text()
}

// The amounts of two rows differ.
fn are_other_amounts(a: &SeatRow, b: &SeatRow) -> bool
    ensures { result ≡ not (bytes_eq (amounts_in a.now) (amounts_in b.now)) }
{
    a.amounts[..a.seats as usize] != b.amounts[..b.seats as usize]
}

// One of the bet sizes differs.
fn differ_in_sizes(a: &Setup, b: &Setup) -> bool
    ensures { result ≡ differences.has_other_sizes a.now b.now }
{
    !(a.bring_in == b.bring_in
        && a.small_bet == b.small_bet
        && a.big_bet == b.big_bet
        && a.min_bet == b.min_bet)
}

// The antes differ, or whether they are dead.
fn differ_in_antes(a: &Setup, b: &Setup) -> bool
    ensures { result ≡ differences.has_other_antes a.now b.now }
{
    are_other_amounts(&a.antes, &b.antes) || !are_equal_bools(a.dead_antes, b.dead_antes)
}

// The rake of some pot differs.
fn are_other_rakes(a: &RakeRow, b: &RakeRow) -> bool
    ensures { result ≡ not (bytes_eq a.now.rakes b.now.rakes) }
{
    a.rakes.as_slice() != b.rakes.as_slice()
}
