//! The game that a game file says.
ghost use Rattle.std.specs.Prelude.{◌≡◌, true, false};
ghost use Rattle.chip_ledger.specs.Greatest.{greatest};
ghost use Rattle.acpc_game.specs.GameFile.{has_short_stack, is_reversed};
ghost use Rattle.acpc_game.specs.Games.{are_chips, has_fitting_sizes};
ghost use Rattle.chip_ledger.specs.SeatRow.{amounts_in};

use chip_ledger::SeatRow;

/// Two-card hold'em of four rounds with these stacks, blinds and raise sizes. Amounts are in chips.
/// Seat 1 is the first after the button; heads-up, it has the greater blind.
#[derive(Clone, Copy, Debug, PartialEq, Eq)]
pub struct Game {
    /// Whether the game is no-limit.
    pub no_limit: bool,
    pub stacks: SeatRow,
    pub blinds: SeatRow,
    /// The raise size of the first two rounds in a limit game, in chips; 0 in no-limit.
    pub small_raise: u64,
    /// The raise size of the last two rounds in a limit game, in chips; 0 in no-limit.
    pub big_raise: u64,
    /// The most raises of each round, if they are capped.
    pub caps: Option<[u32; 4]>,
    pub ghost one_row: { blinds.seats ≡ stacks.seats },
    pub ghost few: { are_chips (amounts_in stacks) ≡ true },
    pub ghost few_blinds: { are_chips (amounts_in blinds) ≡ true },
    pub ghost stacked: { has_short_stack (amounts_in stacks) (amounts_in blinds) ≡ false },
    pub ghost in_order: { is_reversed (amounts_in blinds) ≡ false },
    pub ghost sizes: { has_fitting_sizes no_limit (greatest (amounts_in blinds))
        small_raise big_raise ≡ true },
}
