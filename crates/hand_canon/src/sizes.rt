//! The bet sizes of a hand, as a notation states them: four amounts of its setup.

/// The sizes of bets, in chips. A size that the game does not use is 0.
#[derive(Clone, Copy, Debug, PartialEq, Eq)]
pub struct Sizes {
    pub bring_in: u64,
    pub small_bet: u64,
    pub big_bet: u64,
    pub min_bet: u64,
}
