//! What is known before the first card: the game, the stacks, antes and blinds, the bet sizes, and
//! the rakes.
use crate::code::Code;
use chip_ledger::{RakeRow, SeatRow};

/// What a hand begins with. Amounts are chips. A row's first seat is p1, the first seat after the
/// button in games with blinds, and its last seat is the button.
#[derive(Clone, Copy, Debug, PartialEq, Eq)]
pub struct Setup {
    pub code: Code,
    /// The starting stacks.
    pub stacks: SeatRow,
    /// The antes as posted, each at most its seat's stack.
    pub antes: SeatRow,
    /// Whether antes are dead: not part of a seat's bets, and so not counted when chips are
    /// returned.
    pub dead_antes: bool,
    /// The blinds and straddles in full, even if a stack is too short for them.
    pub blinds: SeatRow,
    /// The size of the bring-in, in stud; else 0.
    pub bring_in: u64,
    /// The small bet, in fixed limit; else 0.
    pub small_bet: u64,
    /// The big bet, in fixed limit; else 0.
    pub big_bet: u64,
    /// The minimum bet, in no limit and pot limit; else 0.
    pub min_bet: u64,
    /// What the house takes from each pot.
    pub rakes: RakeRow,
}

/// When a seat that has already acted may raise again.
#[derive(Clone, Copy, Debug, PartialEq, Eq)]
pub enum Reopen {
    /// Only if it has at least a full raise to call.
    Full,
    /// Always.
    Always,
}

/// Rules of a notation beyond those of the game.
#[derive(Clone, Copy, Debug, PartialEq, Eq)]
pub struct Rules {
    pub reopen: Reopen,
    /// Whether a seat may fold when it has nothing to call.
    pub free_fold: bool,
    /// The most raises on each of the first four streets, if raises are capped.
    pub caps: Option<[u32; 4]>,
}
