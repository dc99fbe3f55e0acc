//! A source in memory, which gives its bytes in order, and fails at the listed calls.
ghost use Rattle.std.specs.Prelude.{◌≡◌, ◌+◌, ◌-◌, ◌^◌, ◌≤◌, ◌↔◌, ◌++◌, min, length, take, drop, vec_len, Some, IfOk, OnErr, IsErr, is_err};
ghost use Rattle.std.specs.Io.{ReadsAtMost};
ghost use Rattle.std.specs.Io.KnownBytes.{ReadConsumes};
ghost use Rattle.host_io.specs.Faults.{Rose};
ghost use Rattle.host_io.specs.FaultPlan.{FailsNext, CountsCall};

use crate::fault::Failed;
use crate::fault_plan::FaultPlan;
use crate::source::Source;

/// Bytes in memory as a source. Each call gives as many as are left and fit the buffer, up to one
/// piece.
#[derive(Debug, Drop)]
pub struct MemSource {
    bytes: Vec<u8>,
    given: usize,
    piece: usize,
    plan: FaultPlan,
    ghost within: { given ≤ vec_len bytes },
    ghost some: { 1 ≤ piece },
}

impl MemSource {
    ghost use Rattle.host_io.specs.MemSource.{IsFullSource};

    /// A source that has these bytes left. It fails at the calls with these numbers (the first call
    /// is number 0). A piece may have any number of bytes.
    pub fn new(bytes: Vec<u8>, fail_at: Vec<u64>) -> MemSource
        ensures { IsFullSource result bytes.items (2 ^ 64 - 1) fail_at.items }
    {
        MemSource::in_pieces(bytes, usize::MAX, fail_at)
    }

    /// As `new`, but a call gives at most `piece` bytes.
    pub fn in_pieces(bytes: Vec<u8>, piece: usize, fail_at: Vec<u64>) -> MemSource
        requires { 1 ≤ piece }
        ensures { IsFullSource result bytes.items piece fail_at.items }
    {
        MemSource {
            bytes,
            given: 0,
            piece,
            plan: FaultPlan::new(fail_at),
        }
    }
}

impl Source for MemSource {
    ghost use Rattle.host_io.specs.MemSource.{bytes_left, source_piece, source_plan};

    ghost left = { λ source. Some (bytes_left source) };

    ghost faults = { λ source. (source_plan source).faults };

    fn read(&mut self, buf: &mut [u8]) -> Result<usize, Failed>
        ensures bound { ReadsAtMost result buf.new }
        ensures bytes { ReadConsumes (Some (bytes_left self.old)) (Some (bytes_left self.new))
            result buf.new }
        ensures later { (source_plan self.old).faults ≤ (source_plan self.new).faults }
        ensures failed { OnErr result
            (Rose (source_plan self.old).faults (source_plan self.new).faults) }

        ensures fails { IsErr result ↔ FailsNext (source_plan self.old) }
        ensures gives { IfOk result (λ count. count
            ≡ min (min (length buf.old) (source_piece self.old)) (length (bytes_left self.old))) }
        ensures piece { source_piece self.new ≡ source_piece self.old }
        ensures counts { CountsCall (source_plan self.old) (source_plan self.new) (is_err result) }
    {
        self.plan.begin_call()?;
        let count = copy_from(&self.bytes, self.given, self.piece, buf);
        self.given += count;
        Ok(count)
    }
}

// Copies bytes from that place on to the start of the buffer: as many as there are and fit, at most
// `most`. Returns how many.
fn copy_from(bytes: &[u8], start: usize, most: usize, buf: &mut [u8]) -> usize
    requires { start ≤ length bytes.now }
    ensures count { result ≡ min (min (length buf.old) most) (length bytes.now - start) }
    ensures copied { drop start bytes.now ≡ take result buf.new ++ drop (start + result) bytes.now }
{
    let left = &bytes[start..];
    let count = buf.len().min(most).min(left.len());
    buf[..count].copy_from_slice(&left[..count]);
    count
}
