//! Whether a setup is valid for a hand.
ghost use Rattle.std.specs.Prelude.{◌≡◌, ◌≤◌, ℕ, true, nat_lt, IsTrue, slice_index};
ghost use Rattle.std.specs.List.{list_any};
ghost use Rattle.chip_ledger.specs.Seat.{seats_of};
ghost use Rattle.chip_ledger.specs.SeatRow.{amount_of};
ghost use Rattle.play_event.specs.ValidSetup.{IsSize, IsSizeWhere, IsValid};

use crate::table::table_of;
use chip_ledger::{MOST_AMOUNT, MOST_CHIPS, Seat, SeatRow};
use play_event::Setup;

/// Whether the setup is valid for a hand of its game.
pub fn is_valid(setup: &Setup) -> bool
    ensures { IsTrue result → IsValid setup.now }
{
    let seats = setup.stacks.seats;
    if setup.antes.seats != seats
        || setup.blinds.seats != seats
        || table_of(setup.code).seats < seats
    {
        return false;
    }
    let fixed = setup.code.is_fixed();
    let stud = setup.code.is_stud();
    if !are_sizes(&setup.stacks) || !are_within(&setup.antes, &setup.stacks) {
        return false;
    }
    if !are_few(&setup.blinds.amounts, MOST_CHIPS) || !are_few(&setup.rakes.rakes, MOST_AMOUNT) {
        return false;
    }
    if !is_size_where(stud, setup.bring_in) || !is_size_where(!fixed, setup.min_bet) {
        return false;
    }
    if !is_size_where(fixed, setup.small_bet) || !is_size_where(fixed, setup.big_bet) {
        return false;
    }
    have_some_if(setup.dead_antes, &setup.antes)
        && fall_if(seats == 2, &setup.blinds)
        && are_none_if(stud, &setup.blinds)
}

// Whether each amount is within the limits of a stack or a bet size.
fn are_sizes(row: &SeatRow) -> bool
    ensures { IsTrue result
        → (seat : ℕ) → 1 ≤ seat → seat ≤ row.now.seats → IsSize (amount_of row.now seat) }
{
    let mut sizes = true;
    for index in 0..row.seats {
        sizes = sizes && is_size(row.get(Seat { number: index + 1 }));
    }
    sizes
}

// Whether no amount is more than the other row's at the same seat.
fn are_within(row: &SeatRow, other: &SeatRow) -> bool
    ensures { IsTrue result → (seat : ℕ) → amount_of row.now seat ≤ amount_of other.now seat }
{
    let mut within = true;
    for (index, amount) in row.amounts.iter().enumerate() {
        within = within && *amount <= other.amounts[index];
    }
    within
}

// Whether it is a bet size if the game uses it, and 0 if not.
fn is_size_where(used: bool, chips: u64) -> bool
    ensures { IsTrue result → IsSizeWhere used chips }
{
    if used { is_size(chips) } else { chips == 0 }
}

// Whether it is within the limits of a stack or a bet size.
fn is_size(chips: u64) -> bool
    ensures { IsTrue result → IsSize chips }
{
    1 <= chips && chips <= MOST_CHIPS
}

// Whether some seat has an amount, if that is required.
fn have_some_if(asked: bool, row: &SeatRow) -> bool
    ensures { IsTrue result → asked ≡ true
        → list_any (λ seat. nat_lt 0 (amount_of row.now seat)) (seats_of row.now.seats) ≡ true }
{
    !asked || has_some(row)
}

// Whether some seat has an amount.
#[tactic(auto, using(chip_ledger::proofs::SeatLists::any_more))]
fn has_some(row: &SeatRow) -> bool
    ensures { result
        ≡ list_any (λ seat. nat_lt 0 (amount_of row.now seat)) (seats_of row.now.seats) }
{
    let mut found = false;
    for index in 0..row.seats {
        found = found || 0 < row.get(Seat { number: index + 1 });
    }
    found
}

// Whether the second seat has no more than the first, if that is required.
fn fall_if(asked: bool, row: &SeatRow) -> bool
    ensures { IsTrue result → asked ≡ true → amount_of row.now 2 ≤ amount_of row.now 1 }
{
    !asked || row.amounts[1] <= row.amounts[0]
}

// Whether no seat has an amount, if that is required.
fn are_none_if(asked: bool, row: &SeatRow) -> bool
    ensures { IsTrue result → asked ≡ true → (seat : ℕ) → amount_of row.now seat ≡ 0 }
{
    !asked || are_few(&row.amounts, 0)
}

// Whether no amount is more than `most`.
fn are_few(amounts: &[u64], most: u64) -> bool
    ensures { IsTrue result → (k : ℕ) → slice_index amounts.now k ≤ most }
{
    let mut few = true;
    for amount in amounts {
        few = few && *amount <= most;
    }
    few
}
