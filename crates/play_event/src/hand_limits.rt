//! The limits of a hand. Each is a decision of this project.

/// The most moves of a hand: folds, calls, raises and bring-ins.
pub const MOST_MOVES: usize = 4_096;

/// The most other events of a hand. A legal hand has at most 144.
pub const MOST_OTHER_EVENTS: usize = 256;
