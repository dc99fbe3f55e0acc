//! The limits on raises, and who acts first.

/// The limit on bets and raises.
#[derive(Clone, Copy, Debug, PartialEq, Eq, Hash)]
pub enum Limit {
    /// Fixed limit: bets are of the street's size.
    Fixed,
    /// Pot limit: a raise of at most the chips that the pot would hold after a call.
    Pot,
    /// No limit: at most the chips of the seat.
    No,
}

/// Who acts first on the first street.
#[derive(Clone, Copy, Debug, PartialEq, Eq, Hash)]
pub enum Opener {
    /// The seat after the largest blind.
    Blinds,
    /// The seat with the lowest up-card, which posts the bring-in.
    LowUp,
    /// The seat with the highest up-card, which posts the bring-in.
    HighUp,
}
