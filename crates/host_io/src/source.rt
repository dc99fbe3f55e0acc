//! What a source gives is taken from the front of the bytes that it has left.
ghost use Rattle.std.specs.Prelude.{◌≡◌, ◌+◌, ◌<◌, ◌≤◌, List, ℕ, length, Option, IfOk, IfSome, OnOk, OnErr, IsErrOf};
ghost use Rattle.std.specs.Io.{ReadsAtMost};
ghost use Rattle.std.specs.Io.KnownBytes.{ReadConsumes, IsAtEnd};
ghost use Rattle.host_io.specs.Faults.{Rose};
ghost use Rattle.host_io.specs.Bytes.{LosesAtMost, Loses};
ghost use Rattle.host_io.specs.declared.source.InFault.TheVariants.{Memory as OutOfMemory};

use crate::fault::Failed;
use card_set::{Memory, TryExtend};
use std::alloc::Global;
use thiserror::Error;

// How many bytes `read_all` asks for at once.
const PIECE: usize = 8192;

/// Why an input was not read to its end.
#[derive(Clone, Copy, Debug, PartialEq, Eq, Error)]
pub enum InFault {
    /// The source failed.
    #[error("the input could not be read")]
    ReadFault,
    /// The source has more than `max` bytes.
    #[error("the input is too long")]
    TooLong,
    /// Out of memory for the bytes.
    #[error("out of memory")]
    Memory(Memory),
}

impl From<Memory> for InFault {
    ghost from_gives = { λ memory fault. fault ≡ OutOfMemory memory };

    fn from(memory: Memory) -> Self {
        InFault::Memory(memory)
    }
}

/// Where bytes are read from.
pub trait Source {
    /// The bytes left, if the source's contract says them.
    ghost left: { Self → Option (List ℕ) };

    /// How often the source has failed. The count never falls.
    ghost faults: { Self → ℕ };

    /// Takes bytes from the front of those that are left, and puts them at the start of the buffer.
    /// `Ok` has their number. Zero for a buffer that is not empty is the end: no byte is left.
    /// After `Failed` the bytes left are as before.
    fn read(&mut self, buf: &mut [u8]) -> Result<usize, Failed>
        ensures bound { ReadsAtMost result buf.new }
        ensures bytes { ReadConsumes (left self.old) (left self.new) result buf.new }
        ensures later { faults self.old ≤ faults self.new }
        ensures failed { OnErr result (Rose (faults self.old) (faults self.new)) };
}

/// Reads all bytes that the source has left, if there are at most `max`. A call that fails has
/// taken some bytes from the front of them, and these are lost; `TooLong` has taken `max + 1`.
pub fn read_all<S: Source>(alloc: Global, source: &mut S, max: usize) -> Result<Vec<u8>, InFault>
    ensures bytes { IfOk result (λ all. IfSome (S.left source.old) (λ left. all.items ≡ left)) }
    ensures end { OnOk result (IsAtEnd (S.left source.new)) }
    ensures within { IfOk result (λ all. length all.items ≤ max) }

    ensures too_long { IsErrOf result InFault.TooLong →
        IfSome (S.left source.old) (λ left. max < length left) }
    ensures taken_too_long { IsErrOf result InFault.TooLong →
        Loses (max + 1) (S.left source.old) (S.left source.new) }
    ensures taken { LosesAtMost (max + 1) (S.left source.old) (S.left source.new) }

    ensures later { S.faults source.old ≤ S.faults source.new }
    ensures read_fault { IsErrOf result InFault.ReadFault →
        Rose (S.faults source.old) (S.faults source.new) }
{
    let mut all = Vec::new(alloc);
    let mut piece = [0u8; PIECE];
    loop {
        let room = max - all.len();
        // One byte more than there is room for, to notice a longer input.
        let asked = room.min(PIECE - 1) + 1;
        match source.read(&mut piece[..asked]) {
            Ok(0) => return Ok(all),
            Ok(count) if count <= room => all.try_extend_from_slice(&piece[..count])?,
            Ok(_) => return Err(InFault::TooLong),
            Err(Failed) => return Err(InFault::ReadFault),
        }
    }
}
