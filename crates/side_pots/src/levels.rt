//! The next level is the smallest amount of a live seat above the last level.
ghost use Rattle.std.specs.Prelude.{◌≡◌, min, slice_get};
ghost use Rattle.std.specs.Option.{option_map_or};
ghost use Rattle.chip_ledger.specs.Pots.{is_reached_by_all};
ghost use Rattle.side_pots.specs.Levels.{levels_above};
ghost use Rattle.side_pots.specs.Stakes.{stakes_in};

use crate::stakes::Stakes;
use chip_ledger::Seat;

/// The next level above `below` chips, if there is one.
#[tactic(auto, using(chip_ledger::proofs::Stakes::first_level_more))]
pub fn next_level(stakes: &Stakes<'_>, below: u64) -> Option<u64>
    ensures { result ≡ slice_get (levels_above (stakes_in stakes.now) below) 0 }
{
    let mut next = None;
    for index in 0..stakes.chips.seats {
        let seat = Seat { number: index + 1 };
        let chips = stakes.chips.get(seat);
        if stakes.live.get(seat) && below < chips {
            next = Some(lesser(chips, next));
        }
    }
    next
}

fn lesser(chips: u64, next: Option<u64>) -> u64
    ensures { result ≡ option_map_or (λ level. min chips level) next chips }
{
    match next {
        Some(level) => chips.min(level),
        None => chips,
    }
}

/// Whether every live seat has at least `level` chips.
#[tactic(auto, using(chip_ledger::proofs::Stakes::all_reach_more, chip_ledger::proofs::Stakes::all_reach_fails))]
pub fn every_live_seat_reaches(stakes: &Stakes<'_>, level: u64) -> bool
    ensures { result ≡ is_reached_by_all (stakes_in stakes.now) level }
{
    for index in 0..stakes.chips.seats {
        let seat = Seat { number: index + 1 };
        if stakes.live.get(seat) && stakes.chips.get(seat) < level {
            return false;
        }
    }
    true
}
