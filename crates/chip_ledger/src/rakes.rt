//! A row of rakes: what the house takes from each pot of a hand.
ghost use Rattle.std.specs.Prelude.{◌≡◌, length};

/// What the house takes from each pot before it is shared, in chips. The lowest pot is at index 0;
/// 0 means that nothing is taken.
#[derive(Clone, Copy, Debug, PartialEq, Eq, Hash)]
pub struct RakeRow {
    pub rakes: [u64; 11],
    pub ghost full: { length rakes ≡ 11 },
}

impl RakeRow {
    ghost use Rattle.chip_ledger.specs.RakeRow.{no_rakes};

    /// No rake.
    pub fn none() -> Self
        ensures { result ≡ no_rakes }
    {
        RakeRow { rakes: [0; 11] }
    }
}

impl Default for RakeRow {
    ghost use Rattle.chip_ledger.specs.RakeRow.{no_rakes};

    ghost is_default = { λ row. row ≡ no_rakes };

    fn default() -> Self {
        RakeRow::none()
    }
}
