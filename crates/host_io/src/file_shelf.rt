//! The files of a system as a shelf: it counts the errors of the system, and its contract says
//! nothing of what the files hold.
ghost use Rattle.std.specs.Prelude.{◌≡◌, ◌≤◌, ◌≢◌, ◌↔◌, ◌⊎◌, None, Some, Ok, Err, IfOk, IfErr, IfSome, IsErrAnd, IsErrOf, IsTrue};
ghost use Rattle.host_io.specs.Faults.{count_after, Rose};
ghost use Rattle.host_io.specs.OpenError.{IsMissing};
ghost use Rattle.host_io.specs.Shelf.{IsAnswer, IsWithin, has_failed};

use crate::fault::count_fault;
use crate::shelf::{Fetched, Shelf, ShelfFault};
use crate::source::{InFault, Source, read_all};
use crate::std_source::StdSource;
use std::alloc::Global;
use std::io::{ErrorKind, Read};
use std::rt::Files;
use std::{fs, io};

/// The files of a system as a shelf, each under its path. Its contract says nothing of what they
/// hold. Only a path that leads nowhere is absent. A folder is a fault, and so is a file that may
/// not be opened, or that cannot be read to its end. At most `max + 1` bytes of a file are read.
#[derive(Drop)]
pub struct FileShelf<R: Files> {
    files: R,
    faults: u64,
}

impl<R: Files> Shelf for FileShelf<R> {
    ghost use Rattle.host_io.specs.FileShelf.{fault_count};

    ghost files = { λ _. None };

    ghost faults = { λ shelf. fault_count shelf };

    ghost Asked = { λ _ _ _. Unit {0} };

    fn fetch(&mut self, alloc: Global, name: &str, max: usize) -> Result<Fetched, ShelfFault>
        ensures within { IfOk result (IsWithin max) }
        ensures later { fault_count self.old ≤ fault_count self.new }
        ensures failed { IsErrOf result ShelfFault.Failed →
            Rose (fault_count self.old) (fault_count self.new) }

        ensures counts { fault_count self.new
            ≡ count_after (has_failed result) (fault_count self.old) }
    {
        let opened = fs::open(&self.files, name);
        match fetch_opened(alloc, opened, max) {
            Err(ShelfFault::Failed) => Err(count_fault(&mut self.faults).into()),
            answer => answer,
        }
    }
}

// The answer for a name, from the result of opening it.
fn fetch_opened<F: Read + Drop>(
    alloc: Global,
    opened: io::Result<F>,
    max: usize,
) -> Result<Fetched, ShelfFault>
    ensures within { IfOk result (IsWithin max) }
    ensures absent { (result ≡ Ok Fetched.Absent) ↔ IsErrAnd opened IsMissing }
    ensures unopened { IfErr opened (λ error. IsMissing error ⊎ (result ≡ Err ShelfFault.Failed)) }
{
    match opened {
        Ok(file) => fetch_from(alloc, &mut StdSource::new(file), max),
        Err(error) if is_missing(&error) => Ok(Fetched::Absent),
        Err(_) => Err(ShelfFault::Failed),
    }
}

impl<R: Files> FileShelf<R> {
    ghost use Rattle.host_io.specs.FileShelf.{fault_count};

    /// A shelf over the files that this runtime opens.
    pub fn new(files: R) -> FileShelf<R>
        ensures faults { fault_count result ≡ 0 }
    {
        FileShelf { files, faults: 0 }
    }
}

// The answer for a name that is there, from the bytes that the source has left.
fn fetch_from<S: Source>(alloc: Global, source: &mut S, max: usize) -> Result<Fetched, ShelfFault>
    ensures answer { IfOk result (λ fetched.
        IfSome (S.left source.old) (λ bytes. IsAnswer (Some bytes) max fetched)) }
    ensures within { IfOk result (IsWithin max) }
    ensures there { result ≢ Ok Fetched.Absent }
    ensures failed { IsErrOf result ShelfFault.Failed →
        Rose (S.faults source.old) (S.faults source.new) }
{
    match read_all(alloc, source, max) {
        Ok(bytes) => Ok(Fetched::Bytes(bytes)),
        Err(InFault::TooLong) => Ok(Fetched::TooLong),
        Err(InFault::ReadFault) => Err(ShelfFault::Failed),
        Err(InFault::Memory(memory)) => Err(ShelfFault::Memory(memory)),
    }
}

// Whether a path could not be opened because it leads nowhere.
fn is_missing(error: &io::Error) -> bool
    ensures { IsTrue result ↔ IsMissing error.now }
{
    matches!(error.kind(), ErrorKind::NotFound | ErrorKind::NotADirectory)
}
