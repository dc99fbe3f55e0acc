//! Collects pots one after the other, with what each seat wins, the total, and the rake of each
//! pot.
ghost use Rattle.std.specs.Prelude.{◌≡◌, ◌≤◌, ◌+◌, ◌++◌, ◌∷◌, [], ℕ, map, IfOk};
ghost use Rattle.chip_ledger.specs.RakeRow.{rake_of};
ghost use Rattle.chip_ledger.specs.declared.seat_row.TheConstants.{MOST_AMOUNT};
ghost use Rattle.ohh_reading.specs.PotSums.{plain_listed_pot, rakes_said};
ghost use Rattle.ohh_reading.specs.PotSums as pot_sums;
ghost use Rattle.ohh_reading.specs.Pots.{IsPaid, no_pots, none_paid, paid_of, plain_found, plain_paid};

use crate::listed_pot::ListedPot;
use crate::listed_pots::{ListedPots, Paid};
use crate::won::Won;
use card_set::{Memory, TryPush};
use chip_ledger::{PlayerCount, RakeRow};
use std::alloc::Global;

impl ListedPots {
    /// No pots yet, for a hand with this number of players.
    pub fn new(alloc: Global, players: PlayerCount) -> Self
        ensures none { plain_found result ≡ no_pots }
        ensures seats { result.won.sums.seats ≡ players.number }
    {
        ListedPots {
            pots: Vec::new(alloc),
            total: 0,
            won: Won::new(alloc, players),
        }
    }

    /// Adds one more pot.
    pub fn with_pot(self, pot: ListedPot) -> Result<Self, Memory>
        requires { self.total + pot.amount ≤ MOST_AMOUNT }
        ensures pots { IfOk result (λ after. map plain_listed_pot after.pots.items
            ≡ map plain_listed_pot self.pots.items ++ plain_listed_pot pot ∷ []) }
        ensures won { IfOk result (λ after. after.won ≡ self.won) }
    {
        let ListedPots {
            mut pots,
            total,
            won,
        } = self;
        pots.try_push(pot)?;
        Ok(ListedPots {
            pots,
            total: total + pot.amount,
            won,
        })
    }

    /// What the pots state.
    pub fn paid(&self) -> Paid
        ensures said { plain_paid result ≡ paid_of self.now.won.sums.seats (plain_found self.now) }
        ensures fits { IsPaid self.now.won.sums.seats result }
    {
        Paid {
            wins: Some(self.won.sums),
            total: Some(self.total),
            rakes: rakes_of(&self.pots),
        }
    }
}

impl Paid {
    /// Nothing is stated, and nothing is taken.
    pub fn none() -> Self
        ensures said { plain_paid result ≡ none_paid }
        ensures fits { (seats : ℕ) → IsPaid seats result }
    {
        Paid {
            wins: None,
            total: None,
            rakes: rakes_of(&[]),
        }
    }
}

// The rakes of the first eleven pots.
fn rakes_of(pots: &[ListedPot]) -> RakeRow
    ensures said { result.rakes ≡ rakes_said (map plain_listed_pot pots.now) }
    ensures most { (pot : ℕ) → rake_of result pot ≤ MOST_AMOUNT }
{
    let rakes = [
        rake_or_zero(pots, 0),
        rake_or_zero(pots, 1),
        rake_or_zero(pots, 2),
        rake_or_zero(pots, 3),
        rake_or_zero(pots, 4),
        rake_or_zero(pots, 5),
        rake_or_zero(pots, 6),
        rake_or_zero(pots, 7),
        rake_or_zero(pots, 8),
        rake_or_zero(pots, 9),
        rake_or_zero(pots, 10),
    ];
    RakeRow { rakes }
}

// The rake of the pot with this index, or 0 if there is no such pot.
fn rake_or_zero(pots: &[ListedPot], index: usize) -> u64
    ensures said { result ≡ pot_sums.rake_at (map plain_listed_pot pots.now) index }
    ensures most { result ≤ MOST_AMOUNT }
{
    match pots.get(index) {
        Some(pot) => pot.rake,
        None => 0,
    }
}
