//! Cuts the chips that are left into pots, the lowest first; dead chips join the lowest pot or make
//! a pot of their own.
ghost use Rattle.std.specs.Prelude.{◌≡◌, ◌+◌, ◌<◌, ◌≤◌, ◌∷◌, [], ◌++◌, if◌then◌else◌, map, nat_lt, All};
ghost use Rattle.chip_ledger.specs.declared.seat_row.TheConstants.{MOST_AMOUNT};
ghost use Rattle.chip_ledger.specs.PotRow.{plain, pots_in};
ghost use Rattle.side_pots.specs.Stakes.{stakes_in};
ghost use Rattle.chip_ledger.specs.Pots.{layers, levels, pots_at, with_chips, with_dead};

use crate::layers::{layer_chips, reaching_row};
use crate::levels::{every_live_seat_reaches, next_level};
use crate::stakes::Stakes;
use chip_ledger::{Pot, PotRow, SeatRow, total};

/// The pots made of what is left of each seat's chips, and of the dead chips.
pub fn cut(stakes: &Stakes<'_>, dead: u64, returned: SeatRow) -> PotRow
    requires bounded { dead ≤ MOST_AMOUNT }
    ensures pots { map plain (pots_in result)
        ≡ with_chips (pots_at (stakes_in stakes.now) dead (levels (stakes_in stakes.now))) }
    ensures seats { All (λ pot. pot.eligible.seats ≡ stakes.now.chips.now.seats) (pots_in result) }
    ensures returned { result.returned ≡ returned }
{
    let mut row = PotRow::new(returned);
    let Some(first) = next_level(stakes, 0) else {
        let chips = total(stakes.chips) + dead;
        add_pot(
            &mut row,
            Pot {
                chips,
                eligible: *stakes.live,
            },
        );
        return row;
    };
    if every_live_seat_reaches(stakes, first) {
        add_layers(&mut row, stakes, dead);
    } else {
        add_pot(
            &mut row,
            Pot {
                chips: dead,
                eligible: *stakes.live,
            },
        );
        add_layers(&mut row, stakes, 0);
    }
    row
}

/// Adds a pot for each level, with the dead chips in the first of them.
fn add_layers(row: &mut PotRow, stakes: &Stakes<'_>, dead: u64)
    requires room { row.old.count ≤ 1 }
    requires bounded { dead ≤ MOST_AMOUNT }
    ensures pots { map plain (pots_in row.new) ≡ map plain (pots_in row.old)
        ++ with_chips (with_dead dead
        (layers (stakes_in stakes.now) 0 (levels (stakes_in stakes.now)))) }
    ensures seats { All (λ pot. pot.eligible.seats ≡ stakes.now.chips.now.seats) (pots_in row.old)
        → All (λ pot. pot.eligible.seats ≡ stakes.now.chips.now.seats) (pots_in row.new) }
    ensures returned { row.new.returned ≡ row.old.returned }
{
    let mut below = 0;
    let mut unplaced = dead;
    while let Some(level) = next_level(stakes, below) {
        let chips = layer_chips(stakes, below, level) + unplaced;
        let eligible = reaching_row(stakes, level);
        add_pot(row, Pot { chips, eligible });
        below = level;
        unplaced = 0;
    }
}

/// Adds a pot, unless it has no chips.
fn add_pot(row: &mut PotRow, pot: Pot)
    requires { row.old.count < 11 }
    ensures pots { pots_in row.new
        ≡ (if nat_lt 0 pot.chips then pots_in row.old ++ pot ∷ [] else pots_in row.old) }
    ensures count { row.new.count ≤ row.old.count + 1 }
    ensures returned { row.new.returned ≡ row.old.returned }
{
    if pot.chips > 0 {
        row.push(pot);
    }
}
