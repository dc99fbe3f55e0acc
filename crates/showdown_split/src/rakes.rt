//! Whether each pot has the chips for its rake.
ghost use Rattle.std.specs.Prelude.{◌≡◌, ◌+◌, ◌<◌, IfNone};
ghost use Rattle.chip_ledger.specs.PotRow.{plain_pots};
ghost use Rattle.chip_ledger.specs.Rakes.{HaveRakes, chips_in, first_rake_above};

use chip_ledger::{PotRow, RakeRow};

/// The number of the first pot whose rake is more than its chips; `None` if [`split`](crate::split)
/// takes these rakes.
pub fn first_rake_above(pots: &PotRow, rakes: &RakeRow) -> Option<u8>
    ensures first { result ≡ first_rake_above rakes.now (plain_pots pots.now) }
    ensures none { IfNone result (HaveRakes (plain_pots pots.now) rakes.now) }
{
    for index in 0..11 {
        if chips_at(pots, index) < rakes.rakes[index as usize] {
            return Some(index + 1);
        }
    }
    None
}

// The chips of the pot at this index, 0 past the last pot.
fn chips_at(pots: &PotRow, index: u8) -> u64
    requires { index < 11 }
    ensures { result ≡ chips_in (plain_pots pots.now) (index + 1) }
{
    if index < pots.count {
        pots.pots[index as usize].chips
    } else {
        0
    }
}
