//! Reads a text of tables under numbers that ascend, one table at a time.
ghost use Rattle.std.specs.Prelude.{◌≡◌, ℕ, ◌+◌, ◌<◌, ◌≤◌, map, [], ◌∷◌, Ok, IfOk, IfSome, IsTrue};
ghost use Rattle.std.specs.Str.Parse.{digits_value};
ghost use Rattle.toml.specs.Parse.{parse_document};
ghost use Rattle.toml.specs.View.{table_view};
ghost use Rattle.first_fault.specs.declared.limits.TheConstants.{MOST_FILE_MOVES, MOST_HANDS};
ghost use Rattle.first_fault.specs.Digits.{are_digits};
ghost use Rattle.phh_reading.specs.declared.by_table.TheConstants.{MOST_NUMBER};
ghost use Rattle.phh_reading.specs.NextTable.{IsNextHand as IsNextTable};
ghost use Rattle.phh_reading.specs.Reading.{document_said, numbered_hand};
ghost use Rattle.hand_canon.specs.Histories.{AreHistories, IsNextHand};
ghost use Rattle.hand_canon.specs.PlainHands.{plain};

use crate::fault::PhhFault;
use crate::file::read_numbered;
use crate::table::{first_line, first_table};
use card_set::Memory;
use first_fault::read_digits;
use hand_canon::{Record, Records};
use std::alloc::Global;
use toml::Table;

// The greatest number of a table that is read here.
const MOST_NUMBER: u64 = 1_000_000_000_000_000_000;

/// The records in a text whose tables have numbers that ascend, or nothing if the text has another
/// form or a fault. One table is kept at a time.
pub fn read_by_table(alloc: Global, text: &str) -> Result<Option<Records>, Memory>
    ensures said { IfOk result (λ found. IfSome found (λ records.
        document_said (parse_document text.now) ≡ Ok (map plain records))) }
    ensures hands { IfOk result (λ found. IfSome found AreHistories) }
{
    let mut records = Records::new(alloc);
    let mut least = 0;
    let mut file_moves = 0;
    let mut rest = first_line(text);
    while !rest.is_empty() {
        let place = records.len() as u32 + 1;
        let Some((found, number, behind)) = next_hand(alloc, rest, least, place, file_moves)? else {
            return Ok(None);
        };
        let (record, moves) = found;
        records.push(record)?;
        least = number + 1;
        file_moves = moves;
        rest = behind;
    }
    Ok(Some(records))
}

// The hand of the table at the front with this place in the file, the number of the table, and what
// follows it. Nothing if there is no such table, its number is below `least`, or it has a fault.
fn next_hand(
    alloc: Global,
    text: &str,
    least: u64,
    place: u32,
    file_moves: usize,
) -> Result<Option<((Record, usize), u64, &str)>, Memory>
    requires first { 1 ≤ place }
    requires few { file_moves ≤ MOST_FILE_MOVES }
    ensures said { IfOk result (λ found. IfSome found (λ next.
        IsNextTable file_moves place least text.now next.1 next.2.now
        (plain next.0.0, next.0.1))) }
    ensures next { IfOk result (λ found. IfSome found (λ next. IsNextHand file_moves next.0)) }
    ensures place { IfOk result (λ found. IfSome found (λ next. place ≤ MOST_HANDS)) }
    ensures number { IfOk result (λ found. IfSome found (λ next. next.1 ≤ MOST_NUMBER)) }
{
    let Some((key, table, behind)) = first_table(alloc, text)? else {
        return Ok(None);
    };
    let Some(number) = number_from(key, least) else {
        return Ok(None);
    };
    let Some(found) = hand_of(alloc, &table, place, file_moves)? else {
        return Ok(None);
    };
    Ok(Some((found, number, behind)))
}

// The number that the digits say, if it is from `least` to the greatest that is read.
#[tactic(auto, unfolding(first_fault::specs::Digits::number_of))]
fn number_from(digits: &str, least: u64) -> Option<u64>
    requires { IsTrue (are_digits digits.now) }
    ensures number { IfSome result (λ number. number ≡ digits_value 10 digits.now) }
    ensures least { IfSome result (λ number. least ≤ number) }
    ensures most { IfSome result (λ number. number ≤ MOST_NUMBER) }
{
    let number = read_digits(digits.as_bytes(), MOST_NUMBER)?;
    if number < least { None } else { Some(number) }
}

// The hand of a table, or nothing if it has a fault.
fn hand_of(
    alloc: Global,
    table: &Table,
    place: u32,
    file_moves: usize,
) -> Result<Option<(Record, usize)>, Memory>
    requires first { 1 ≤ place }
    requires few { file_moves ≤ MOST_FILE_MOVES }
    ensures said { IfOk result (λ found. IfSome found (λ hand.
        numbered_hand file_moves place (table_view table.now)
        ≡ Ok (plain hand.0 ∷ [], hand.1))) }
    ensures next { IfOk result (λ found. IfSome found (IsNextHand file_moves)) }
    ensures place { IfOk result (λ found. IfSome found (λ hand. place ≤ MOST_HANDS)) }
{
    match read_numbered(alloc, table, place, file_moves) {
        Ok(found) => Ok(Some(found)),
        Err(PhhFault::Memory(memory)) => Err(memory),
        Err(_) => Ok(None),
    }
}
