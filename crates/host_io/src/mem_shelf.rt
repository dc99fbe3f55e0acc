//! A shelf in memory, which answers with the first file of a name, and fails at the listed calls.
ghost use Rattle.std.specs.Prelude.{◌≡◌, ◌≤◌, ◌↔◌, Some, IfOk, IsErrOf};
ghost use Rattle.std.specs.Option.{option_copied};
ghost use Rattle.host_io.specs.Faults.{Rose};
ghost use Rattle.host_io.specs.FaultPlan.{IsFresh, FailsNext, CountsCall, CountsOneCall};
ghost use Rattle.host_io.specs.Shelf.{IsAnswer, IsWithin, has_failed};
ghost use Rattle.host_io.specs.MemShelf.{file_named};

use crate::fault_plan::FaultPlan;
use crate::shelf::{Fetched, Shelf, ShelfFault};
use card_set::vec_from;
use std::alloc::Global;

/// Files in memory as a shelf.
#[derive(Debug, Drop)]
pub struct MemShelf {
    files: Vec<(String, Vec<u8>)>,
    plan: FaultPlan,
}

impl MemShelf {
    ghost use Rattle.host_io.specs.MemShelf.{shelf_files, shelf_plan};

    /// A shelf of these files by name that fails at the calls with these numbers, counted from 0.
    /// Of files with the same name the first counts.
    pub fn new(files: Vec<(String, Vec<u8>)>, fail_at: Vec<u64>) -> MemShelf
        ensures files { shelf_files result ≡ file_named files.items }
        ensures plan { IsFresh (shelf_plan result) fail_at.items }
    {
        MemShelf {
            files,
            plan: FaultPlan::new(fail_at),
        }
    }
}

impl Shelf for MemShelf {
    ghost use Rattle.host_io.specs.MemShelf.{shelf_files, shelf_plan};

    ghost files = { λ shelf. Some (shelf_files shelf) };

    ghost faults = { λ shelf. (shelf_plan shelf).faults };

    ghost Asked = { λ old new name. CountsOneCall (shelf_plan old) (shelf_plan new) };

    fn fetch(&mut self, alloc: Global, name: &str, max: usize) -> Result<Fetched, ShelfFault>
        ensures answer { IfOk result (IsAnswer (shelf_files self.old name.now) max) }
        ensures within { IfOk result (IsWithin max) }
        ensures unchanged { shelf_files self.new ≡ shelf_files self.old }
        ensures asked { CountsOneCall (shelf_plan self.old) (shelf_plan self.new) }
        ensures later { (shelf_plan self.old).faults ≤ (shelf_plan self.new).faults }
        ensures failed { IsErrOf result ShelfFault.Failed →
            Rose (shelf_plan self.old).faults (shelf_plan self.new).faults }

        ensures fails { IsErrOf result ShelfFault.Failed ↔ FailsNext (shelf_plan self.old) }
        ensures counts { CountsCall (shelf_plan self.old) (shelf_plan self.new)
            (has_failed result) }
    {
        self.plan.begin_call()?;
        match find_file(&self.files, name) {
            None => Ok(Fetched::Absent),
            Some(bytes) if max < bytes.len() => Ok(Fetched::TooLong),
            Some(bytes) => Ok(Fetched::Bytes(vec_from(alloc, bytes)?)),
        }
    }
}

// The bytes of the first file with this name.
fn find_file<'a>(files: &'a [(String, Vec<u8>)], name: &str) -> Option<&'a [u8]>
    ensures { option_copied result ≡ file_named files.now name.now }
{
    files
        .iter()
        .find(|file| file.0.as_str() == name)
        .map(|file| file.1.as_slice())
}
