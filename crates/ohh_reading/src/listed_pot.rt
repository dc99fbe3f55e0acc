//! A pot of a hand, as it is listed.
ghost use Rattle.std.specs.Prelude.{◌≤◌};
ghost use Rattle.chip_ledger.specs.declared.seat_row.TheConstants.{MOST_AMOUNT};

/// A pot, in chips.
#[derive(Clone, Copy, Debug, PartialEq, Eq)]
pub struct ListedPot {
    /// All its chips, including the rake.
    pub amount: u64,
    pub rake: u64,
    pub ghost most_rake: { rake ≤ MOST_AMOUNT },
}
