//! A play is written completely or not at all: the facts of it that a notation may be unable to
//! express.
ghost use Rattle.std.specs.Prelude.{◌≡◌};
ghost use Rattle.hand_canon.specs.declared.writing.WriteRefusal.TheVariants as refusals;

use crate::notes::NoteName;
use card_set::Memory;

/// A fact of a play that a notation cannot express, in the order in which facts are checked.
#[derive(Clone, Copy, Debug, PartialEq, Eq)]
pub enum Unspelled {
    Variant,
    SeatCount,
    Stacks,
    BetSizes,
    Antes,
    Blinds,
    Rake,
    ReopenedShort,
    FreeFold,
    TooManyRaises,
    RaiseTarget,
    PartCards,
    Muck,
    OddChip,
    Note(NoteName),
}

/// Which notes are to be written: all of them, or those that the notation can express.
#[derive(Clone, Copy, Debug, PartialEq, Eq)]
pub enum Keep {
    All,
    Spelled,
}

/// Why plays are not written. Hands are counted from 1.
#[derive(Clone, Copy, Debug, PartialEq, Eq)]
pub enum WriteRefusal {
    Unspelled { hand: u32, fact: Unspelled },
    Memory(Memory),
}

impl From<Memory> for WriteRefusal {
    ghost from_gives = { λ memory refusal. refusal ≡ refusals.Memory memory };

    fn from(memory: Memory) -> Self {
        WriteRefusal::Memory(memory)
    }
}
