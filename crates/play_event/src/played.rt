//! What was played, as the trace of a hand keeps it: a move with its amounts, and a dealt card.
ghost use Rattle.std.specs.Prelude.{◌≡◌};
ghost use Rattle.play_event.specs.Past.{is_bringing_in, is_folding, is_raising};
ghost use Rattle.play_event.specs.Played.{act_said};

use card_set::Slot;
use chip_ledger::Seat;

/// What a player did when it was his turn.
#[derive(Clone, Copy, Debug, PartialEq, Eq)]
pub enum Act {
    Fold,
    /// A check or call.
    Call,
    /// A bet or raise.
    Raise,
    BringIn,
}

impl Act {
    /// Whether it is a fold.
    pub fn is_fold(self) -> bool
        ensures { result ≡ is_folding (act_said self) }
    {
        match self {
            Act::Fold => true,
            Act::Call | Act::Raise | Act::BringIn => false,
        }
    }

    /// Whether it is a bet or a raise.
    pub fn is_raise(self) -> bool
        ensures { result ≡ is_raising (act_said self) }
    {
        match self {
            Act::Raise => true,
            Act::Fold | Act::Call | Act::BringIn => false,
        }
    }

    /// Whether it is a bring-in.
    pub fn is_bring_in(self) -> bool
        ensures { result ≡ is_bringing_in (act_said self) }
    {
        match self {
            Act::BringIn => true,
            Act::Fold | Act::Call | Act::Raise => false,
        }
    }
}

/// A move. Its amounts are chips put in on its street, not counting antes.
#[derive(Clone, Copy, Debug, PartialEq, Eq)]
pub struct Move {
    /// The street, from 1.
    pub street: u8,
    pub seat: Seat,
    pub act: Act,
    /// The seat's chips on the street before the move.
    pub from: u64,
    /// The seat's chips on the street after the move.
    pub to: u64,
    /// The current bet before the move: the most that any seat had put in on the street.
    pub price: u64,
    /// Whether it is a raise that is legal only if betting always reopens.
    pub closed: bool,
    /// The target of a raise by the street's bet size, in fixed limit; else 0.
    pub unit_to: u64,
}

/// A dealt card.
#[derive(Clone, Copy, Debug, PartialEq, Eq)]
pub struct Place {
    /// The seat that it was dealt to, or `None` for the board.
    pub owner: Option<Seat>,
    /// The street on which it was dealt, from 1.
    pub street: u8,
    pub slot: Slot,
    /// The street on which it was discarded, or 0.
    pub gone: u8,
}
