//! What the definition of pots means in general, beyond the pots of one hand.
ghost use Rattle.std.specs.Prelude.{List};
ghost use Rattle.chip_ledger.specs.Pots.{Stake, levels};
ghost use Rattle.side_pots.specs.Levels.{AreLevels};

/// The levels of any stakes are the different amounts above 0 of live seats, from the lowest up.
pub fn levels_are_the_chips_of_live_seats()
    ensures { (stakes : List Stake) → AreLevels stakes (levels stakes) }
{}
