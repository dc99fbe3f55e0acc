//! Returns the uncalled chips of a hand and cuts the rest into pots, as the rule says.
#![tactic(auto)]

ghost use Rattle.std.specs.Prelude.{◌≡◌, ◌≢◌, ◌+◌, ◌<◌, ◌≤◌, ℕ, true, [], map, sum_by, All, AllPairs};
ghost use Rattle.chip_ledger.specs.declared.seat_row.TheConstants.{MOST_AMOUNT};
ghost use Rattle.chip_ledger.specs.LiveRow.{flag_of, flagged};
ghost use Rattle.chip_ledger.specs.SeatRow.{amount_of, total_of};
ghost use Rattle.chip_ledger.specs.PotRow.{plain, pots_in, stake_of, stakes_of};
ghost use Rattle.chip_ledger.specs.Pots.{pots_of, returned};

mod cut;
mod laws;
mod layers;
mod levels;
mod returns;
mod stakes;

use chip_ledger::{LiveRow, PotRow, SeatRow};
pub use laws::levels_are_the_chips_of_live_seats;
use stakes::Stakes;

/// The pots of a hand, the lowest first, and what is returned to each seat.
///
/// `puts` are the chips of each seat that count for the pots: all that it put in, without its ante
/// if antes are dead. `dead` is the sum of the dead antes of all seats.
pub fn pots(puts: &SeatRow, dead: u64, live: &LiveRow) -> PotRow
    requires seats { live.now.seats ≡ puts.now.seats }
    requires live { flagged live.now ≢ [] }
    requires bounded { total_of puts.now + dead ≤ MOST_AMOUNT }

    // The exact rule.
    ensures pots { map plain (pots_in result) ≡ pots_of (stakes_of puts.now live.now) dead }
    ensures seats { All (λ pot. pot.eligible.seats ≡ puts.now.seats) (pots_in result) }
    ensures returned_seats { result.returned.seats ≡ puts.now.seats }
    ensures returned { (n : ℕ) → 1 ≤ n → n ≤ puts.now.seats → amount_of result.returned n
        ≡ returned (stakes_of puts.now live.now) (stake_of puts.now live.now n) }

    // What follows from the rule.
    ensures conserved { sum_by (λ pot. pot.chips) (pots_in result) + total_of result.returned
        ≡ total_of puts.now + dead }
    ensures each_has_chips { All (λ pot. 0 < pot.chips) (pots_in result) }
    ensures each_is_bounded { All (λ pot. pot.chips ≤ MOST_AMOUNT) (pots_in result) }
    ensures each_has_a_seat { All (λ pot. flagged pot.eligible ≢ []) (pots_in result) }
    ensures nested { AllPairs
        (λ lower higher. (n : ℕ) → 1 ≤ n
        → flag_of higher.eligible n ≡ true → flag_of lower.eligible n ≡ true)
        (pots_in result) }
{
    let returned = returns::returned_row(&Stakes { chips: puts, live });
    let left = returns::left_row(puts, &returned);
    cut::cut(&Stakes { chips: &left, live }, dead, returned)
}
