//! The pots of a hand, from what its seats put in.
ghost use Rattle.std.specs.Prelude.{◌≡◌, ◌≢◌, ◌+◌, ◌≤◌, ℕ, [], All, sum_by};
ghost use Rattle.chip_ledger.specs.LiveRow.{flagged};
ghost use Rattle.chip_ledger.specs.PotRow.{pots_in};
ghost use Rattle.chip_ledger.specs.Pots.{counted};
ghost use Rattle.chip_ledger.specs.SeatRow.{amount_of, total_of};
ghost use Rattle.chip_ledger.specs.declared.seat_row.TheConstants.{MOST_AMOUNT};
ghost use Rattle.play_event.specs.Past.{Past, moves_of};
ghost use Rattle.play_event.specs.Stakes.{dead_antes_of};
ghost use Rattle.play_event.specs.ValidSetup.{IsValid};
ghost use Rattle.replay_core.specs.EndRows.{ArePotsOf, AreRowsOf};

use chip_ledger::{LiveRow, PotRow, Seat, SeatRow, total};
use play_event::Setup;
use side_pots::pots;

/// The pots of a hand in which each seat has put in these chips and these seats are live, and what
/// is returned.
pub fn pots_of(setup: &Setup, puts: &SeatRow, live: &LiveRow) -> PotRow
    requires valid { IsValid setup.now }
    requires puts { puts.now.seats ≡ setup.now.stacks.seats }
    requires live { live.now.seats ≡ setup.now.stacks.seats }
    requires someone { flagged live.now ≢ [] }
    requires within { (n : ℕ) → 1 ≤ n → n ≤ setup.now.stacks.seats
        → amount_of puts.now n ≤ amount_of setup.now.stacks n }
    requires posted { (n : ℕ) → 1 ≤ n → n ≤ setup.now.stacks.seats
        → amount_of setup.now.antes n ≤ amount_of puts.now n }

    // The exact rule.
    ensures pots { (past : Past) → AreRowsOf setup.now (moves_of past) puts.now live.now
        → ArePotsOf setup.now past result }

    // What follows from the rule.
    ensures conserved { sum_by (λ pot. pot.chips) (pots_in result) + total_of result.returned
        ≡ total_of puts.now }
    ensures eligible { All (λ pot. pot.eligible.seats ≡ setup.now.stacks.seats) (pots_in result) }
    ensures returned_seats { result.returned.seats ≡ setup.now.stacks.seats }
    ensures each_is_bounded { All (λ pot. pot.chips ≤ MOST_AMOUNT) (pots_in result) }
    ensures each_has_a_seat { All (λ pot. flagged pot.eligible ≢ []) (pots_in result) }
{
    let counted = counted_row(setup, puts);
    let dead = dead_antes(setup);
    pots(&counted, dead, live)
}

// The chips of each seat that count for the pots: all that it put in, without its ante if antes are
// dead.
fn counted_row(setup: &Setup, puts: &SeatRow) -> SeatRow
    requires { setup.now.antes.seats ≡ puts.now.seats }
    ensures seats { result.seats ≡ puts.now.seats }
    ensures amounts { (n : ℕ) → 1 ≤ n → n ≤ puts.now.seats → amount_of result n
        ≡ counted setup.now.dead_antes (amount_of puts.now n) (amount_of setup.now.antes n) }
{
    let mut row = SeatRow::new(puts.seats);
    for index in 0..puts.seats {
        let seat = Seat { number: index + 1 };
        row.set(
            seat,
            counted(setup.dead_antes, puts.get(seat), setup.antes.get(seat)),
        );
    }
    row
}

// The chips of a seat that count for the pots.
fn counted(dead_antes: bool, put: u64, ante: u64) -> u64
    ensures counted { result ≡ counted dead_antes put ante }
    ensures within { result ≤ put }
{
    if dead_antes {
        put.saturating_sub(ante)
    } else {
        put
    }
}

// The dead antes of all seats together.
fn dead_antes(setup: &Setup) -> u64
    requires { setup.now.antes.seats ≡ setup.now.stacks.seats }
    ensures { result ≡ dead_antes_of setup.now }
{
    if setup.dead_antes {
        total(&setup.antes)
    } else {
        0
    }
}
