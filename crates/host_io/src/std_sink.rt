//! A writer of std as a sink: it counts the writer's errors, and its contract says nothing of the
//! bytes.
ghost use Rattle.std.specs.Prelude.{◌≡◌, ◌<◌, ◌≤◌, length, None, IfOk, OnErr, is_err};
ghost use Rattle.std.specs.Io.{WritesAtMost};
ghost use Rattle.std.specs.Io.KnownBytes.{WriteAppends};
ghost use Rattle.host_io.specs.Faults.{count_after, Rose};

use crate::fault::{Failed, count_fault};
use crate::sink::Sink;
use std::io::Write;

/// A writer of std as a sink. Its contract says nothing of what the writer holds. A writer that
/// takes no byte of a piece that is not empty has failed.
#[derive(Debug, Drop)]
pub struct StdSink<W: Write> {
    inner: W,
    faults: u64,
}

impl<W: Write> StdSink<W> {
    ghost use Rattle.host_io.specs.StdSink.{inner_writer, fault_count};

    /// Wraps a writer.
    pub fn new(inner: W) -> StdSink<W>
        ensures inner { inner_writer result ≡ inner }
        ensures faults { fault_count result ≡ 0 }
    {
        StdSink { inner, faults: 0 }
    }
}

impl<W: Write> Sink for StdSink<W> {
    ghost use Rattle.host_io.specs.StdSink.{inner_writer, fault_count};

    ghost held = { λ _. None };

    ghost faults = { λ sink. fault_count sink };

    fn write(&mut self, bytes: &[u8]) -> Result<usize, Failed>
        ensures bound { WritesAtMost result bytes.now }
        ensures some { IfOk result (λ count. 0 < length bytes.now → 0 < count) }
        ensures bytes { WriteAppends None None result bytes.now }
        ensures later { fault_count self.old ≤ fault_count self.new }
        ensures failed { OnErr result (Rose (fault_count self.old) (fault_count self.new)) }

        // What is taken goes to the writer, if the writer's contract says what it holds.
        ensures passed_on { WriteAppends (W.contents (inner_writer self.old))
            (W.contents (inner_writer self.new)) result bytes.now }
        ensures counts { fault_count self.new ≡ count_after (is_err result) (fault_count self.old) }
    {
        match self.inner.write(bytes) {
            Ok(count) if count > 0 || bytes.is_empty() => Ok(count),
            _ => Err(count_fault(&mut self.faults)),
        }
    }
}
