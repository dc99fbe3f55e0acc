//! A step of a hand's betting.

/// What a letter of the betting says, or a stroke.
#[derive(Clone, Copy, Debug, PartialEq, Eq)]
pub enum BettingStep {
    Fold,
    Call,
    /// A raise by the raise size of the round.
    Raise,
    /// A raise that makes the chips of the seat in the whole hand this amount.
    RaiseTo(u64),
    /// A stroke (`/`), which begins the next round.
    NextRound,
}
