//! Each pot of a hand, less its rake, goes to the shown seats that no other one beats, or in halves
//! if a low hand is shown.
#![tactic(auto)]

ghost use Rattle.std.specs.Prelude.{◌≡◌, ◌+◌, ℕ, None, Some, All, IfOk, IfErr, OnOk};
ghost use Rattle.chip_ledger.specs.PotRow.{plain_pots, plain_shares, pots_in, shared_in, shares_in};
ghost use Rattle.chip_ledger.specs.RakeRow.{rake_of};
ghost use Rattle.chip_ledger.specs.Rakes.{HaveRakes, chips_in, nets_of};
ghost use Rattle.variant_table.specs.Shares.{AllShared, first_unshown};
ghost use Rattle.showdown_split.specs.Hands.{showdown_of};
ghost use Rattle.showdown_split.specs.Playable.{ArePlayable, AreWinnable};

mod division;
mod laws;
mod net;
mod pot;
mod rakes;
mod scores;
mod scoring;
mod winners;

use card_set::CardRow;
use chip_ledger::{LiveRow, PotRow, RakeRow, ShareRow};
pub use laws::{no_winner_is_left_out, only_the_best_shown_hands_win, the_last_live_seat_wins};
use net::net_of;
use play_event::HandRow;
use pot::shares_of;
pub use rakes::first_rake_above;
use scoring::seat_scores;
use variant_table::Variant;

/// In a pot that two or more seats may win, none of these seats is shown.
#[derive(Clone, Copy, Debug, PartialEq, Eq)]
pub struct NoShownHand {
    /// The number of the first such pot, from 1.
    pub pot: u8,
}

/// What each seat gets of each pot of a hand, less its rake, the lowest pot first.
///
/// `hands` are the hole cards of the seats; only known cards count. `shown` says which seats are
/// shown: the cards of other seats are not looked at. A shown seat and the board have as many cards
/// as the game's pick can use. If a pot that two or more seats may win has no shown hand, nothing
/// is paid.
pub fn split<V: Variant>(
    pots: &PotRow,
    rakes: &RakeRow,
    hands: &HandRow,
    board: &CardRow,
    shown: &LiveRow,
) -> Result<ShareRow, NoShownHand>
    requires seats { hands.now.seats ≡ shown.now.seats }
    requires winnable { AreWinnable shown.now.seats (pots_in pots.now) }
    requires rakes { HaveRakes (plain_pots pots.now) rakes.now }
    requires playable { ArePlayable V.Award.HELD V.PICK hands.now board.now shown.now }

    // The exact rule.
    ensures shares { IfOk result (λ shares.
        AllShared V.CODE (showdown_of hands.now board.now shown.now)
        (nets_of rakes.now (plain_pots pots.now)) (plain_shares shares)) }
    ensures no_unshown { OnOk result (first_unshown
        (showdown_of hands.now board.now shown.now) (plain_pots pots.now) ≡ None) }
    ensures first_unshown { IfErr result (λ fault. first_unshown
        (showdown_of hands.now board.now shown.now) (plain_pots pots.now) ≡ Some fault.pot) }

    // What follows from the rule.
    ensures conserved { IfOk result (λ shares. (number : ℕ) → shared_in shares number
        + rake_of rakes.now number ≡ chips_in (plain_pots pots.now) number) }
    ensures seats { IfOk result (λ shares.
        All (λ row. row.seats ≡ shown.now.seats) (shares_in shares)) }
{
    let (high, low) = seat_scores::<V>(hands, board, shown);
    let mut shares = ShareRow::new();
    for pot in &pots.pots[..pots.count as usize] {
        let net = net_of(pot, rakes.rakes[shares.count as usize]);
        match shares_of(&net, shown, &high, &low) {
            Some(row) => shares.push(row),
            None => {
                return Err(NoShownHand {
                    pot: shares.count + 1,
                });
            }
        }
    }
    Ok(shares)
}
