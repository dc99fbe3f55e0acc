//! A shelf has bytes under names, and reading it changes none of them.
ghost use Rattle.std.specs.Prelude.{◌≡◌, ◌≤◌, List, ℕ, Option, IfOk, IfSome, IsErrOf};
ghost use Rattle.host_io.specs.Faults.{Rose};
ghost use Rattle.host_io.specs.Shelf.{IsAnswer, IsWithin};
ghost use Rattle.host_io.specs.declared.shelf.ShelfFault.TheVariants.{Failed as ShelfFailed, Memory as OutOfMemory};

use crate::fault::Failed;
use card_set::Memory;
use std::alloc::Global;
use thiserror::Error;

/// The answer of a shelf for a name.
#[derive(Debug, PartialEq, Eq, Drop)]
pub enum Fetched {
    /// The bytes under the name.
    Bytes(Vec<u8>),
    /// Nothing has this name.
    Absent,
    /// There are more bytes under the name than `max`.
    TooLong,
}

/// Why a shelf gave no answer.
#[derive(Clone, Copy, Debug, PartialEq, Eq, Error)]
pub enum ShelfFault {
    /// The shelf failed.
    #[error("the shelf could not be read")]
    Failed,
    /// Out of memory for the bytes.
    #[error("out of memory")]
    Memory(Memory),
}

impl From<Failed> for ShelfFault {
    ghost from_gives = { λ _ fault. fault ≡ ShelfFailed };

    fn from(_: Failed) -> Self {
        ShelfFault::Failed
    }
}

impl From<Memory> for ShelfFault {
    ghost from_gives = { λ memory fault. fault ≡ OutOfMemory memory };

    fn from(memory: Memory) -> Self {
        ShelfFault::Memory(memory)
    }
}

/// Named bytes that can be read.
pub trait Shelf {
    /// The bytes under each name, if the shelf's contract says them; `None` for a name that is not
    /// there.
    ghost files: { Self → Option (List ℕ → Option (List ℕ)) };

    /// How often the shelf has failed. The count never falls.
    ghost faults: { Self → ℕ };

    /// The second is the first after it was asked for this name once. A caller knows no more about
    /// it, so this only says what was asked for.
    ghost Asked: { Self → Self → List ℕ → Type 0 };

    /// The bytes under a name, if there are at most `max`. No call changes what is on the shelf.
    fn fetch(&mut self, alloc: Global, name: &str, max: usize) -> Result<Fetched, ShelfFault>
        ensures answer { IfOk result (λ fetched.
            IfSome (files self.old) (λ files. IsAnswer (files name.now) max fetched)) }
        ensures within { IfOk result (IsWithin max) }
        ensures unchanged { files self.new ≡ files self.old }
        ensures asked { Asked self.old self.new name.now }
        ensures later { faults self.old ≤ faults self.new }
        ensures failed { IsErrOf result ShelfFault.Failed →
            Rose (faults self.old) (faults self.new) };
}
