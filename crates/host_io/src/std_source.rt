//! A reader of std as a source: it counts the reader's errors, and its contract says nothing of the
//! bytes.
ghost use Rattle.std.specs.Prelude.{◌≡◌, ◌≤◌, None, OnErr, is_err};
ghost use Rattle.std.specs.Io.{ReadsAtMost};
ghost use Rattle.std.specs.Io.KnownBytes.{ReadConsumes};
ghost use Rattle.host_io.specs.Faults.{count_after, Rose};

use crate::fault::{Failed, count_fault};
use crate::source::Source;
use std::io::Read;

/// A reader of std as a source. Its contract says nothing of what the reader has left.
#[derive(Debug, Drop)]
pub struct StdSource<R: Read> {
    inner: R,
    faults: u64,
}

impl<R: Read> StdSource<R> {
    ghost use Rattle.host_io.specs.StdSource.{inner_reader, fault_count};

    /// Wraps a reader.
    pub fn new(inner: R) -> StdSource<R>
        ensures inner { inner_reader result ≡ inner }
        ensures faults { fault_count result ≡ 0 }
    {
        StdSource { inner, faults: 0 }
    }
}

impl<R: Read> Source for StdSource<R> {
    ghost use Rattle.host_io.specs.StdSource.{inner_reader, fault_count};

    ghost left = { λ _. None };

    ghost faults = { λ source. fault_count source };

    fn read(&mut self, buf: &mut [u8]) -> Result<usize, Failed>
        ensures bound { ReadsAtMost result buf.new }
        ensures bytes { ReadConsumes None None result buf.new }
        ensures later { fault_count self.old ≤ fault_count self.new }
        ensures failed { OnErr result (Rose (fault_count self.old) (fault_count self.new)) }

        // What is given is what the reader gives, if the reader's contract says it.
        ensures passed_on { ReadConsumes (R.remaining (inner_reader self.old))
            (R.remaining (inner_reader self.new)) result buf.new }
        ensures counts { fault_count self.new ≡ count_after (is_err result) (fault_count self.old) }
    {
        match self.inner.read(buf) {
            Ok(count) => Ok(count),
            Err(_) => Err(count_fault(&mut self.faults)),
        }
    }
}
