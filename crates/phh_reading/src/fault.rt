//! Why bytes cannot be read as hands in the Poker Hand History format: their first fault, with its
//! hand and its key.
ghost use Rattle.std.specs.Prelude.{◌≡◌, Some, IfSome};
ghost use Rattle.phh_reading.specs.FaultText.{fault_text, name_of};
ghost use Rattle.phh_reading.specs.Reading.{InHand, wrong_in, wrong_of};
ghost use Rattle.phh_reading.specs.declared.fault.PhhFault.TheVariants as faults;

use crate::field_fault::{FieldFault, FieldFaultKind};
use card_set::Memory;
use first_fault::{Quantity, Text};
use std::alloc::Global;
use std::fmt;

/// The first fault of bytes, in the order in which fields are examined. `hand` counts from 1 in the
/// order of reading. `key` is the key of the field, and for an item of a list the key, a space and
/// the number of the item from 1.
#[derive(Debug, Drop)]
pub enum PhhFault {
    /// The bytes are not a TOML document.
    Text,
    /// A required field is missing.
    MissingField {
        hand: u32,
        key: Text,
    },
    /// A field has the wrong type, or the date does not exist.
    WrongType {
        hand: u32,
        key: Text,
    },
    /// An amount has a fraction.
    AmountNotWhole {
        hand: u32,
        key: Text,
    },
    /// A number is out of its range.
    AmountLimit {
        hand: u32,
        key: Text,
    },
    /// Unknown variant code.
    UnknownVariant {
        hand: u32,
        key: Text,
    },
    /// The game is not played with this number of seats.
    SeatCount {
        hand: u32,
        key: Text,
    },
    /// A list does not have one item per seat, or has more rakes than a hand can have pots.
    ListLength {
        hand: u32,
        key: Text,
    },
    /// An action has none of the known forms.
    BadAction {
        hand: u32,
        key: Text,
    },
    /// There is more than the limit of the quantity allows.
    TooMany {
        hand: u32,
        key: Text,
        quantity: Quantity,
    },
    /// There was not enough memory.
    Memory(Memory),
}

impl PhhFault {
    /// The name of the fault.
    pub fn name(&self) -> &'static str
        ensures { result.now ≡ name_of (wrong_of self.now) }
    {
        match self {
            PhhFault::Text => "Text",
            PhhFault::MissingField { .. } => "MissingField",
            PhhFault::WrongType { .. } => "WrongType",
            PhhFault::AmountNotWhole { .. } => "AmountNotWhole",
            PhhFault::AmountLimit { .. } => "AmountLimit",
            PhhFault::UnknownVariant { .. } => "UnknownVariant",
            PhhFault::SeatCount { .. } => "SeatCount",
            PhhFault::ListLength { .. } => "ListLength",
            PhhFault::BadAction { .. } => "BadAction",
            PhhFault::TooMany { .. } => "TooMany",
            PhhFault::Memory(_) => "Memory",
        }
    }

    /// A fault of the hand with this number, its key as text.
    pub fn in_hand(alloc: Global, hand: u32, fault: FieldFault) -> Self
        ensures { IfSome (wrong_of result) (λ wrong. wrong ≡ wrong_in hand fault) }
    {
        match fault.place.text(alloc) {
            Ok(key) => PhhFault::at_key(hand, key, fault.what),
            Err(memory) => PhhFault::Memory(memory),
        }
    }

    // What is wrong at a key of a hand.
    fn at_key(hand: u32, key: Text, what: FieldFaultKind) -> Self
        ensures { wrong_of result ≡ Some (InHand hand key what) }
    {
        match what {
            FieldFaultKind::MissingField => PhhFault::MissingField { hand, key },
            FieldFaultKind::WrongType => PhhFault::WrongType { hand, key },
            FieldFaultKind::AmountNotWhole => PhhFault::AmountNotWhole { hand, key },
            FieldFaultKind::AmountLimit => PhhFault::AmountLimit { hand, key },
            FieldFaultKind::UnknownVariant => PhhFault::UnknownVariant { hand, key },
            FieldFaultKind::SeatCount => PhhFault::SeatCount { hand, key },
            FieldFaultKind::ListLength => PhhFault::ListLength { hand, key },
            FieldFaultKind::BadAction => PhhFault::BadAction { hand, key },
            FieldFaultKind::TooMany { quantity } => PhhFault::TooMany {
                hand,
                key,
                quantity,
            },
        }
    }
}

impl fmt::Display for PhhFault {
    ghost output = { λ fault. Some (fault_text fault) };

    fn fmt<W: fmt::Write>(&self, f: &mut fmt::Formatter<W>) -> fmt::Result {
        match self {
            PhhFault::Text => f.write_str("Text"),
            PhhFault::MissingField { hand, key }
            | PhhFault::WrongType { hand, key }
            | PhhFault::AmountNotWhole { hand, key }
            | PhhFault::AmountLimit { hand, key }
            | PhhFault::UnknownVariant { hand, key }
            | PhhFault::SeatCount { hand, key }
            | PhhFault::ListLength { hand, key }
            | PhhFault::BadAction { hand, key }
            | PhhFault::TooMany { hand, key, .. } => {
                let key = key.as_str();
                let name = self.name();
                write!(f, "hand {hand}, {key}: {name}")
            }
            PhhFault::Memory(_) => f.write_str("out of memory"),
        }
    }
}

impl From<Memory> for PhhFault {
    ghost from_gives = { λ memory fault. fault ≡ faults.Memory memory };

    fn from(memory: Memory) -> Self {
        PhhFault::Memory(memory)
    }
}
