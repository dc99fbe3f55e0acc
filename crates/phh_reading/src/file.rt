//! Reads the hands of a document in order: one hand if the document has a variant, else those under
//! its numbers.
ghost use Rattle.std.specs.Prelude.{◌≡◌, ◌≤◌, map, [], ◌∷◌, IfOk, IfSome};
ghost use Rattle.toml.specs.View.{table_view};
ghost use Rattle.first_fault.specs.declared.limits.TheConstants.{MOST_FILE_MOVES, MOST_HANDS};
ghost use Rattle.phh_reading.specs.declared.field_fault.FieldKey.TheVariants as keys;
ghost use Rattle.phh_reading.specs.Fields.{fault_at, key_place};
ghost use Rattle.phh_reading.specs.Reading.{ReadsAs, hands_of, hands_said, numbered_hand, records_said, those_said, wrong_in, wrong_of};
ghost use Rattle.hand_canon.specs.Histories.{AreHistories, IsNextHand};
ghost use Rattle.hand_canon.specs.PlainHands.{plain};

use crate::fault::PhhFault;
use crate::field_fault::{FieldFault, FieldFaultKind, FieldKey, FieldLocation};
use crate::hand::read_hand;
use crate::order::{has_numbered_tables, tables_in_order};
use crate::values::field;
use first_fault::{MOST_HANDS, Quantity, ReadError};
use hand_canon::{Record, Records};
use std::alloc::Global;
use toml::Table;

/// The hands of a document.
#[tactic(auto, unfolding(crate::specs::Reading::hands_of))]
pub fn read_hands(alloc: Global, table: &Table) -> Result<Records, PhhFault>
    ensures said { ReadsAs (map plain) result (those_said (hands_of (table_view table.now))) }
    ensures hands { IfOk result AreHistories }
{
    if field(table, FieldKey::Variant).is_some() {
        return read_records(alloc, &[table]);
    }
    if !has_numbered_tables(table) {
        return Err(new_variant_fault(alloc, 1, FieldFaultKind::MissingField));
    }
    let tables = tables_in_order(alloc, table)?;
    read_records(alloc, tables.as_slice())
}

// The hands of tables, in order.
fn read_records(alloc: Global, tables: &[&Table]) -> Result<Records, PhhFault>
    ensures said { ReadsAs (map plain) result
        (records_said (map (λ hand. table_view hand.now) tables.now)) }
    ensures hands { IfOk result AreHistories }
{
    let (records, _moves) = read_tables(alloc, tables)?;
    Ok(records)
}

// The hands of tables, in order, and the number of moves in the file.
fn read_tables(alloc: Global, tables: &[&Table]) -> Result<(Records, usize), PhhFault>
    ensures said { ReadsAs (λ found. (map plain found.0, found.1)) result
        (hands_said (map (λ hand. table_view hand.now) tables.now)) }
    ensures hands { IfOk result (λ found. AreHistories found.0) }
{
    let mut records = Records::new(alloc);
    records.reserve(tables.len());
    let mut file_moves = 0;
    for (index, hand) in tables.iter().enumerate() {
        let (record, moves) = read_numbered(alloc, hand, index as u32 + 1, file_moves)?;
        records.push(record)?;
        file_moves = moves;
    }
    Ok((records, file_moves))
}

/// The hand with this number, from 1, after `file_moves` moves of the file.
#[tactic(auto, unfolding(crate::specs::Reading::numbered_hand))]
pub fn read_numbered(
    alloc: Global,
    table: &Table,
    number: u32,
    file_moves: usize,
) -> Result<(Record, usize), PhhFault>
    requires first { 1 ≤ number }
    requires few { file_moves ≤ MOST_FILE_MOVES }
    ensures said { ReadsAs (λ found. (plain found.0 ∷ [], found.1)) result
        (numbered_hand file_moves number (table_view table.now)) }
    ensures next { IfOk result (IsNextHand file_moves) }
    ensures number { IfOk result (λ found. number ≤ MOST_HANDS) }
{
    if number as usize > MOST_HANDS {
        let quantity = Quantity::Hands;
        let what = FieldFaultKind::TooMany { quantity };
        return Err(new_variant_fault(alloc, number, what));
    }
    match read_hand(alloc, table, number - 1, file_moves) {
        Ok(found) => Ok(found),
        Err(ReadError::Memory(memory)) => Err(PhhFault::Memory(memory)),
        Err(ReadError::Fault(fault)) => Err(PhhFault::in_hand(alloc, number, fault)),
    }
}

// What is wrong at a hand's variant.
fn new_variant_fault(alloc: Global, hand: u32, what: FieldFaultKind) -> PhhFault
    ensures { IfSome (wrong_of result) (λ wrong.
        wrong ≡ wrong_in hand (fault_at what (key_place keys.Variant))) }
{
    let place = FieldLocation::at_key(FieldKey::Variant);
    PhhFault::in_hand(alloc, hand, FieldFault { what, place })
}
