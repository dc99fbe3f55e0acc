//! Fetches the other file of a command from the shelf, or reports why there is none.
ghost use Rattle.std.specs.Prelude.{◌≡◌, ◌≤◌, Some, length, IfErr, IfOk, IsErrOf};
ghost use Rattle.host_io.specs.Faults.{Rose};
ghost use Rattle.poker_cli.specs.AnswerParts.{most_input};
ghost use Rattle.poker_cli.specs.Compare.{to_file_excess};
ghost use Rattle.poker_cli.specs.FaultAnswers.{answer_said};
ghost use Rattle.poker_cli.specs.OtherFile.{HasNoFile, no_file_from};
ghost use Rattle.poker_cli.specs.Run.{OfFile};

use crate::answer::{Answer, MOST_INPUT, answer_with_line};
use crate::limits::write_excess_line;
use crate::status::Status;
use card_set::Memory;
use host_io::{Fetched, Shelf, ShelfFault};
use std::alloc::Global;

/// Why there is no other file.
#[derive(Clone, Copy, Debug, PartialEq, Eq)]
pub enum NoFileError {
    /// The file is not there.
    Missing,
    /// The file is too long.
    TooLong,
    ShelfFault,
    Memory(Memory),
}

impl From<ShelfFault> for NoFileError {
    ghost from_gives = { λ fault reason. reason ≡ no_file_from fault };

    fn from(fault: ShelfFault) -> Self {
        match fault {
            ShelfFault::Failed => NoFileError::ShelfFault,
            ShelfFault::Memory(memory) => NoFileError::Memory(memory),
        }
    }
}

/// The bytes of the file of this name.
pub fn fetch_file<H: Shelf>(
    alloc: Global,
    shelf: &mut H,
    name: &str,
) -> Result<Vec<u8>, NoFileError>
    ensures file { IfOk result (λ file. OfFile (H.files shelf.old) name.now (λ there.
        (there ≡ Some file.items) × (length file.items ≤ most_input))) }
    ensures none { IfErr result (λ reason. OfFile (H.files shelf.old) name.now (λ file.
        HasNoFile file reason)) }
    ensures failed { IsErrOf result NoFileError.ShelfFault
        → Rose (H.faults shelf.old) (H.faults shelf.new) }
    ensures asked { H.Asked shelf.old shelf.new name.now }
{
    match shelf.fetch(alloc, name, MOST_INPUT)? {
        Fetched::Bytes(file) => Ok(file),
        Fetched::Absent => Err(NoFileError::Missing),
        Fetched::TooLong => Err(NoFileError::TooLong),
    }
}

/// The answer if the other file is too long.
pub fn answer_to_long_file(alloc: Global) -> Result<Answer, Memory>
    ensures { IfOk result (λ answer. answer_said answer ≡ to_file_excess) }
{
    let line = write_excess_line(alloc, "file bytes", MOST_INPUT)?;
    Ok(answer_with_line(alloc, Status::Limit, line))
}
