//! Numbers the calls of an object in memory from 0; the n-th call fails if n is in the list.
ghost use Rattle.std.specs.Prelude.{◌≤◌, ◌↔◌, IsErr, is_err};
ghost use Rattle.host_io.specs.FaultPlan.{IsFresh, FailsNext, CountsCall};

use crate::fault::{Failed, count_fault};

/// Which calls fail, how many there were, and how many of them failed. Both counts stop at their
/// greatest value.
#[derive(Debug, Drop)]
pub(crate) struct FaultPlan {
    fail_at: Vec<u64>,
    calls: u64,
    pub(crate) faults: u64,
}

impl FaultPlan {
    /// A plan before the first call: the calls with these numbers fail.
    pub(crate) fn new(fail_at: Vec<u64>) -> Self
        ensures { IsFresh result fail_at.items }
    {
        FaultPlan {
            fail_at,
            calls: 0,
            faults: 0,
        }
    }

    /// Gives the call that begins its number, and fails it if the number is in the list.
    pub(crate) fn begin_call(&mut self) -> Result<(), Failed>
        ensures fails { IsErr result ↔ FailsNext self.old }
        ensures counts { CountsCall self.old self.new (is_err result) }
        ensures later { self.old.faults ≤ self.new.faults }
    {
        let number = self.calls;
        self.calls = number.saturating_add(1);
        if self.fail_at.contains(&number) {
            return Err(count_fault(&mut self.faults));
        }
        Ok(())
    }
}
