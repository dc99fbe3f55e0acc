//! Reads bytes as records, or refuses them with their first fault.
ghost use Rattle.std.specs.Prelude.{◌≤◌, sum_by, length, IfOk};
ghost use Rattle.std.specs.List.{AllByRecursion};
ghost use Rattle.first_fault.specs.declared.limits.TheConstants.{MOST_FILE_MOVES, MOST_HANDS};
ghost use Rattle.ohh_reading.specs.Reading.{Reads, reading};
ghost use Rattle.hand_canon.specs.Histories.{IsHistory};
ghost use Rattle.hand_canon.specs.Moves.{moves_of};

use crate::fault::OhhFault;
use crate::file::read_file;
use hand_canon::Records;
use ohh_members::Dialect;
use std::alloc::Global;

/// The records in bytes in Open Hand History, read in a dialect, one for each hand in the order of
/// reading; or the first fault. Each record is sound, and under the rules of hand histories.
#[tactic(auto, unfolding(crate::specs::Reading::reading))]
pub fn read(alloc: Global, dialect: Dialect, bytes: &[u8]) -> Result<Records, OhhFault>
    ensures reads { Reads result (reading dialect bytes.now) }
    ensures sound { IfOk result (AllByRecursion IsHistory) }
    ensures few { IfOk result (λ records. length records ≤ MOST_HANDS) }
    ensures moves { IfOk result (λ records. sum_by moves_of records ≤ MOST_FILE_MOVES) }
{
    let (records, _moves) = read_file(alloc, dialect, bytes)?;
    Ok(records)
}
