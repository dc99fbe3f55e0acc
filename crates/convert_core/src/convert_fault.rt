//! Why nothing is converted.
ghost use Rattle.std.specs.Prelude.{◌≡◌};
ghost use Rattle.convert_core.specs.Conversion.{of_plays};

use crate::format_fault::FormatFault;
use crate::refusal::{PlaysFault, Refusal};
use card_set::Memory;
use hand_canon::Unspelled;

/// Why bytes are not converted. Hands are counted from 1, in the order of reading.
#[derive(Debug, Drop)]
pub enum ConvertFault {
    /// The bytes cannot be read: their first fault, which is never that memory ran out.
    Format(FormatFault),
    /// The first refused hand: its script cannot be replayed, or a stated fact differs from its
    /// trace.
    Refused { hand: u32, why: Refusal },
    /// All hands are legal; this is the first with a fact to be kept that the target cannot
    /// express, and its first such fact.
    Unspelled { hand: u32, fact: Unspelled },
    Memory(Memory),
}

impl From<PlaysFault> for ConvertFault {
    ghost from_gives = { λ why fault. fault ≡ of_plays why };

    fn from(why: PlaysFault) -> Self {
        match why {
            PlaysFault::Refused { hand, why } => ConvertFault::Refused { hand, why },
            PlaysFault::Memory(memory) => ConvertFault::Memory(memory),
        }
    }
}
