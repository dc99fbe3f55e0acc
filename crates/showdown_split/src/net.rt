//! The part of a pot that is shared is what its rake leaves.
ghost use Rattle.std.specs.Prelude.{◌≡◌, ◌≤◌};
ghost use Rattle.chip_ledger.specs.PotRow.{plain};
ghost use Rattle.chip_ledger.specs.Rakes.{less_rake};

use chip_ledger::Pot;

/// The pot without its rake, for the same seats.
pub fn net_of(pot: &Pot, rake: u64) -> Pot
    requires { rake ≤ pot.now.chips }
    ensures net { plain result ≡ less_rake rake (plain pot.now) }
    ensures eligible { result.eligible ≡ pot.now.eligible }
    ensures bounded { result.chips ≤ pot.now.chips }
{
    Pot {
        chips: pot.chips - rake,
        eligible: pot.eligible,
    }
}
