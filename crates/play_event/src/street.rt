//! What a street deals, whether it draws, and how large its bets are.

/// The bet size of a street.
#[derive(Clone, Copy, Debug, PartialEq, Eq, Hash)]
pub enum Size {
    /// The small bet of fixed limit.
    Small,
    /// The big bet of fixed limit.
    Big,
    /// The minimum bet of no limit and pot limit.
    Least,
}

/// What a street deals to each live seat and to the board, whether it draws, and the size of its
/// bets.
#[derive(Clone, Copy, Debug, PartialEq, Eq, Hash)]
pub struct Street {
    /// Cards face down for each live seat.
    pub down: u8,
    /// Cards face up for each live seat.
    pub up: u8,
    /// Cards for the board.
    pub board: u8,
    /// Whether each live seat draws.
    pub draws: bool,
    pub size: Size,
}
