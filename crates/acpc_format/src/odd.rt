//! Looks for an odd chip: a pot in which one winner gets less than another.
ghost use Rattle.std.specs.Prelude.{◌≡◌, ◌&&◌, nat_lt};
ghost use Rattle.std.specs.List.{list_any};
ghost use Rattle.chip_ledger.specs.PotRow.{shares_in};
ghost use Rattle.acpc_format.specs.PlayFacts as play_facts;

use acpc_game::greatest;
use chip_ledger::{SeatRow, ShareRow};

/// Whether one of the pots has an odd chip.
pub fn has_odd_chip(shares: &ShareRow) -> bool
    ensures { result ≡ list_any play_facts.is_uneven (shares_in shares.now) }
{
    for share in &shares.shares[..shares.count as usize] {
        if has_unequal_shares(share) {
            return true;
        }
    }
    false
}

// Whether one winner of a pot gets less than another.
fn has_unequal_shares(share: &SeatRow) -> bool
    ensures { result ≡ play_facts.is_uneven share.now }
{
    let amounts = share.as_slice();
    has_between(amounts, greatest(amounts))
}

// Whether one of the amounts is above 0 and below another.
fn has_between(amounts: &[u64], most: u64) -> bool
    ensures { result ≡ list_any (λ chips. nat_lt 0 chips && nat_lt chips most) amounts.now }
{
    for chips in amounts {
        if 0 < *chips && *chips < most {
            return true;
        }
    }
    false
}
