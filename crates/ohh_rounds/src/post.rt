//! A post is chips that a player puts in before play begins: an ante, one of the two blinds, or a
//! straddle.
use chip_ledger::{Chips, Seat};

/// The kinds of posts.
#[derive(Clone, Copy, Debug, PartialEq, Eq)]
pub enum PostKind {
    Ante,
    SmallBlind,
    BigBlind,
    Straddle,
}

/// Where an action is: the index of its round, and its index in that round, both from 0.
#[derive(Clone, Copy, Debug, PartialEq, Eq)]
pub struct ActionLocation {
    pub round: u64,
    pub action: u64,
}

/// A post of a seat, in chips.
#[derive(Clone, Copy, Debug, PartialEq, Eq)]
pub struct Post {
    pub kind: PostKind,
    pub seat: Seat,
    pub amount: Chips,
    /// Whether it is on the first street, and no move comes before it.
    pub early: bool,
    pub place: ActionLocation,
}

/// What is wrong with the posts of a hand.
#[derive(Clone, Copy, Debug, PartialEq, Eq)]
pub enum PostFault {
    /// The small blind or the big blind is missing.
    MissingBlind,
    /// The post at this action is wrong.
    At(ActionLocation),
}
