//! Reads bytes as records, or refuses them with their first fault.
ghost use Rattle.std.specs.Prelude.{◌≤◌, sum_by, length, IfOk};
ghost use Rattle.std.specs.List.{AllByRecursion};
ghost use Rattle.toml.specs.Parse.{parse_document};
ghost use Rattle.first_fault.specs.declared.limits.TheConstants.{MOST_FILE_MOVES, MOST_HANDS};
ghost use Rattle.phh_reading.specs.Reading.{Reads, document_said, reading};
ghost use Rattle.hand_canon.specs.Histories.{AreHistories, IsHistory};
ghost use Rattle.hand_canon.specs.Moves.{moves_of};

use crate::by_table::read_by_table;
use crate::fault::PhhFault;
use crate::file::read_hands;
use crate::parsing::document;
use hand_canon::Records;
use std::alloc::Global;
use std::str;

/// The records in bytes in the Poker Hand History format, one for each hand in the order of
/// reading; or the first fault. Each record is sound, and under the rules of hand histories.
#[tactic(auto, unfolding(crate::specs::Reading::reading))]
pub fn read(alloc: Global, bytes: &[u8]) -> Result<Records, PhhFault>
    ensures reads { Reads result (reading bytes.now) }
    ensures sound { IfOk result (AllByRecursion IsHistory) }
    ensures few { IfOk result (λ records. length records ≤ MOST_HANDS) }
    ensures moves { IfOk result (λ records. sum_by moves_of records ≤ MOST_FILE_MOVES) }
{
    match str::from_utf8(bytes) {
        Ok(text) => read_text(alloc, text),
        Err(_) => Err(PhhFault::Text),
    }
}

// The records in a text: one table at a time if it has a form that allows it.
fn read_text(alloc: Global, text: &str) -> Result<Records, PhhFault>
    ensures reads { Reads result (document_said (parse_document text.now)) }
    ensures hands { IfOk result AreHistories }
{
    match read_by_table(alloc, text)? {
        Some(records) => Ok(records),
        None => read_whole(alloc, text),
    }
}

// The records in a text that is parsed as a whole.
fn read_whole(alloc: Global, text: &str) -> Result<Records, PhhFault>
    ensures reads { Reads result (document_said (parse_document text.now)) }
    ensures hands { IfOk result AreHistories }
{
    match document(alloc, text)? {
        Some(table) => read_hands(alloc, &table),
        None => Err(PhhFault::Text),
    }
}
