//! Why a request has no answer.
ghost use Rattle.std.specs.Prelude.{◌≡◌};
ghost use Rattle.poker_cli.specs.declared.no_answer.NoAnswerError.TheVariants.{Memory as OutOfMemory};

use card_set::Memory;

/// Why there is no answer.
#[derive(Clone, Copy, Debug, PartialEq, Eq)]
pub enum NoAnswerError {
    /// The input could not be read.
    ReadFault,
    /// The game file is not there.
    GameMissing,
    /// The file to compare with is not there.
    FileMissing,
    /// A file could not be read.
    ShelfFault,
    Memory(Memory),
}

impl From<Memory> for NoAnswerError {
    ghost from_gives = { λ memory why. why ≡ OutOfMemory memory };

    fn from(memory: Memory) -> NoAnswerError {
        NoAnswerError::Memory(memory)
    }
}
