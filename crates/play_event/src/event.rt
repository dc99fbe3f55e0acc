//! An event is one thing that happened in a hand, as its notation reports it.
ghost use Rattle.std.specs.Prelude.{◌≡◌};
ghost use Rattle.play_event.specs.PlayedScript.{is_move_event};
ghost use Rattle.play_event.specs.Said.{kind_said};

use card_set::{CardRow, SlotRow};
use chip_ledger::Seat;

/// How the amount of a bet or raise is written, in chips.
#[derive(Clone, Copy, Debug, PartialEq, Eq)]
pub enum Spelled {
    /// To this number of chips on this street.
    To(u64),
    /// This number of chips more.
    Added(u64),
    /// To this number of chips over the whole hand.
    HandTotal(u64),
    /// By the one bet size of the street.
    Unit,
}

/// What happened. An event without an actor is by the player to act.
#[derive(Clone, Copy, Debug, PartialEq, Eq)]
pub enum Kind {
    /// Hole cards for a seat.
    Hole {
        seat: Seat,
        cards: SlotRow,
    },
    /// Cards for the board.
    Board {
        cards: CardRow,
    },
    Fold {
        actor: Option<Seat>,
    },
    /// A check or call, and the chips that it is stated to add.
    Call {
        actor: Option<Seat>,
        stated: Option<u64>,
    },
    /// A bet or raise.
    Raise {
        actor: Option<Seat>,
        amount: Spelled,
    },
    BringIn {
        actor: Option<Seat>,
    },
    /// A discard; without cards the seat stands pat.
    Discard {
        seat: Seat,
        cards: SlotRow,
    },
    Show {
        seat: Seat,
        cards: CardRow,
    },
    Muck {
        seat: Seat,
    },
}

impl Kind {
    /// Whether it is a move: a fold, a call, a raise or a bring-in.
    pub fn is_move(self) -> bool
        ensures { result ≡ is_move_event (kind_said self) }
    {
        match self {
            Kind::Fold { .. } | Kind::Call { .. } => true,
            Kind::Raise { .. } | Kind::BringIn { .. } => true,
            Kind::Hole { .. } | Kind::Board { .. } | Kind::Discard { .. } => false,
            Kind::Show { .. } | Kind::Muck { .. } => false,
        }
    }
}

/// An event, and the number of its action in the notation from 1, or 0 if no action states it.
#[derive(Clone, Copy, Debug, PartialEq, Eq)]
pub struct Event {
    pub at: u32,
    pub kind: Kind,
}
