//! Why a reader stops: at the first fault, or because memory was refused.
ghost use Rattle.std.specs.Prelude.{◌≡◌};
ghost use Rattle.first_fault.specs.declared.stop.ReadError.TheVariants.{Memory as OutOfMemory};

use card_set::Memory;

/// Why a reader stopped.
#[derive(Clone, Copy, Debug, PartialEq, Eq)]
pub enum ReadError<F> {
    /// A request for memory was refused.
    Memory(Memory),
    /// The first fault of what was read.
    Fault(F),
}

impl<F> From<Memory> for ReadError<F> {
    ghost from_gives = { λ memory stop. stop ≡ OutOfMemory memory };

    fn from(memory: Memory) -> Self {
        ReadError::Memory(memory)
    }
}
