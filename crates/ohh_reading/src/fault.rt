//! Why bytes cannot be read as hands in Open Hand History: their first fault, with its hand and the
//! path of its member.
ghost use Rattle.std.specs.Prelude.{◌≡◌, Some, IfSome};
ghost use Rattle.ohh_reading.specs.FaultText.{fault_text, name_of};
ghost use Rattle.ohh_reading.specs.Reading.{InHand, wrong_in, wrong_of};
ghost use Rattle.ohh_reading.specs.declared.fault.OhhFault.TheVariants as faults;

use card_set::Memory;
use first_fault::{Quantity, Text};
use ohh_members::fault::{MemberFault, MemberFaultKind};
use std::alloc::Global;
use std::fmt;

/// The first fault of bytes, in the order in which members are examined. `hand` counts from 1 in
/// the order of reading. `path` is the path of the member, as `ohh.rounds[0].actions[4].amount`.
#[derive(Debug, Drop)]
pub enum OhhFault {
    /// A block is not JSON.
    Text {
        hand: u32,
    },
    /// A required member is missing.
    MissingMember {
        hand: u32,
        path: Text,
    },
    /// A member has the wrong kind, or a text is no card or no date.
    WrongType {
        hand: u32,
        path: Text,
    },
    /// A number is not whole.
    AmountNotWhole {
        hand: u32,
        path: Text,
    },
    /// A number is out of its range.
    AmountLimit {
        hand: u32,
        path: Text,
    },
    /// The game and its limit are not a supported pair.
    UnsupportedGame {
        hand: u32,
        path: Text,
    },
    /// A player is not in the hand, or is listed twice, or there are too few or too many players.
    BadPlayer {
        hand: u32,
        path: Text,
    },
    /// An action has an unsupported word.
    UnsupportedAction {
        hand: u32,
        path: Text,
    },
    /// A round or its cards are out of order.
    BadStreet {
        hand: u32,
        path: Text,
    },
    /// A blind, a straddle or an ante breaks a condition of posts.
    BadPost {
        hand: u32,
        path: Text,
    },
    /// A rake is taken from a pot past the last that a hand can have.
    RakePlace {
        hand: u32,
        path: Text,
    },
    /// There is more than the limit of the quantity allows.
    TooMany {
        hand: u32,
        path: Text,
        quantity: Quantity,
    },
    /// There was not enough memory.
    Memory(Memory),
}

impl OhhFault {
    /// The name of the fault.
    pub fn name(&self) -> &'static str
        ensures { result.now ≡ name_of (wrong_of self.now) }
    {
        match self {
            OhhFault::Text { .. } => "Text",
            OhhFault::MissingMember { .. } => "MissingMember",
            OhhFault::WrongType { .. } => "WrongType",
            OhhFault::AmountNotWhole { .. } => "AmountNotWhole",
            OhhFault::AmountLimit { .. } => "AmountLimit",
            OhhFault::UnsupportedGame { .. } => "UnsupportedGame",
            OhhFault::BadPlayer { .. } => "BadPlayer",
            OhhFault::UnsupportedAction { .. } => "UnsupportedAction",
            OhhFault::BadStreet { .. } => "BadStreet",
            OhhFault::BadPost { .. } => "BadPost",
            OhhFault::RakePlace { .. } => "RakePlace",
            OhhFault::TooMany { .. } => "TooMany",
            OhhFault::Memory(_) => "Memory",
        }
    }

    /// A fault of the hand with this number, its path as text.
    pub fn in_hand(alloc: Global, hand: u32, fault: MemberFault) -> Self
        ensures { IfSome (wrong_of result) (λ wrong. wrong ≡ wrong_in hand fault) }
    {
        match fault.path.text(alloc) {
            Ok(path) => OhhFault::at_path(hand, path, fault.what),
            Err(memory) => OhhFault::Memory(memory),
        }
    }

    // What is wrong at a path of a hand.
    fn at_path(hand: u32, path: Text, what: MemberFaultKind) -> Self
        ensures { wrong_of result ≡ Some (InHand hand path what) }
    {
        match what {
            MemberFaultKind::MissingMember => OhhFault::MissingMember { hand, path },
            MemberFaultKind::WrongType => OhhFault::WrongType { hand, path },
            MemberFaultKind::AmountNotWhole => OhhFault::AmountNotWhole { hand, path },
            MemberFaultKind::AmountLimit => OhhFault::AmountLimit { hand, path },
            MemberFaultKind::UnsupportedGame => OhhFault::UnsupportedGame { hand, path },
            MemberFaultKind::BadPlayer => OhhFault::BadPlayer { hand, path },
            MemberFaultKind::UnsupportedAction => OhhFault::UnsupportedAction { hand, path },
            MemberFaultKind::BadStreet => OhhFault::BadStreet { hand, path },
            MemberFaultKind::BadPost => OhhFault::BadPost { hand, path },
            MemberFaultKind::RakePlace => OhhFault::RakePlace { hand, path },
            MemberFaultKind::TooMany { quantity } => OhhFault::TooMany {
                hand,
                path,
                quantity,
            },
        }
    }
}

impl fmt::Display for OhhFault {
    ghost output = { λ fault. Some (fault_text fault) };

    fn fmt<W: fmt::Write>(&self, f: &mut fmt::Formatter<W>) -> fmt::Result {
        match self {
            OhhFault::Text { hand } => write!(f, "hand {hand}: Text"),
            OhhFault::MissingMember { hand, path }
            | OhhFault::WrongType { hand, path }
            | OhhFault::AmountNotWhole { hand, path }
            | OhhFault::AmountLimit { hand, path }
            | OhhFault::UnsupportedGame { hand, path }
            | OhhFault::BadPlayer { hand, path }
            | OhhFault::UnsupportedAction { hand, path }
            | OhhFault::BadStreet { hand, path }
            | OhhFault::BadPost { hand, path }
            | OhhFault::RakePlace { hand, path }
            | OhhFault::TooMany { hand, path, .. } => {
                let path = path.as_str();
                let name = self.name();
                write!(f, "hand {hand}, {path}: {name}")
            }
            OhhFault::Memory(_) => f.write_str("out of memory"),
        }
    }
}

impl From<Memory> for OhhFault {
    ghost from_gives = { λ memory fault. fault ≡ faults.Memory memory };

    fn from(memory: Memory) -> Self {
        OhhFault::Memory(memory)
    }
}
