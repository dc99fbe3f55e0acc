//! Reads a list of amounts as a row: one amount per seat, or one per pot.
ghost use Rattle.std.specs.Prelude.{◌≡◌, ℕ, ◌<◌, ◌≤◌, length, map, slice_index, take, IfOk};
ghost use Rattle.toml.specs.View.{view};
ghost use Rattle.chip_ledger.specs.declared.seat_row.TheConstants.{MOST_AMOUNT};
ghost use Rattle.chip_ledger.specs.RakeRow.{rake_of};
ghost use Rattle.play_event.specs.ValidSetup.{IsSize};
ghost use Rattle.first_fault.specs.Reading.{Gives};
ghost use Rattle.phh_reading.specs.declared.field_fault.FieldKey.TheVariants as keys;
ghost use Rattle.phh_reading.specs.Rows.{AreHeld, amounts_said, antes_from, ante_said, antes_said, rakes_said, row_said, stacks_said};
ghost use Rattle.phh_reading.specs.Rows as rows;
ghost use Rattle.chip_ledger.specs.SeatRow.{amounts_in};

use crate::field_fault::{FieldFault, FieldFaultKind, FieldKey, FieldLocation};
use crate::player_values::PlayerValues;
use crate::values::{field_fault_at, read_amount, read_items, read_list};
use chip_ledger::{MOST_AMOUNT, MOST_CHIPS, PlayerCount, RakeRow, SeatRow};
use first_fault::{ReadError, has_count};
use toml::Value;

/// One amount per player, each of at most `most` chips.
#[tactic(auto, unfolding(crate::specs::Rows::row_said))]
pub fn read_row(
    value: &Value,
    players: PlayerCount,
    most: u64,
    key: FieldKey,
) -> Result<SeatRow, ReadError<FieldFault>>
    requires bounded { most ≤ MOST_AMOUNT }
    ensures amounts { Gives amounts_in result (row_said players.number most key (view value.now)) }
    ensures seats { IfOk result (λ row. row.seats ≡ players.number) }
    ensures most { IfOk result (λ row. (k : ℕ) → slice_index row.amounts k ≤ most) }
{
    let values = read_items(value, players, key)?;
    read_amounts(&values, 0, most, key)
}

/// The starting stacks of at most this number of players, each of at least one chip.
#[tactic(auto, unfolding(crate::specs::Rows::stacks_said))]
pub fn read_stacks(value: &Value, most: PlayerCount) -> Result<SeatRow, ReadError<FieldFault>>
    ensures amounts { Gives amounts_in result (stacks_said most.number (view value.now)) }
    ensures seats { IfOk result (λ row. row.seats ≤ most.number) }
    ensures sizes { IfOk result (λ row. (k : ℕ)
        → k < row.seats → IsSize (slice_index row.amounts k)) }
{
    let place = FieldLocation::at_key(FieldKey::StartingStacks);
    let values = read_list(value, place)?;
    if !has_count(values, 2, most.number as usize) {
        return Err(field_fault_at(FieldFaultKind::SeatCount, place));
    }
    let values = PlayerValues {
        values: values.as_slice(),
    };
    read_amounts(&values, 1, MOST_CHIPS, FieldKey::StartingStacks)
}

// An amount for each player.
fn read_amounts(
    players: &PlayerValues,
    least: u64,
    most: u64,
    key: FieldKey,
) -> Result<SeatRow, ReadError<FieldFault>>
    requires { most ≤ MOST_AMOUNT }
    ensures amounts { Gives amounts_in result
        (amounts_said least most key (map view players.now.values.now)) }
    ensures seats { IfOk result (λ row. row.seats ≡ length players.now.values.now) }
    ensures least { IfOk result (λ row. (k : ℕ)
        → k < length players.now.values.now → least ≤ slice_index row.amounts k) }
    ensures most { IfOk result (λ row. (k : ℕ) → slice_index row.amounts k ≤ most) }
{
    let values = players.values;
    let mut amounts = [0; 10];
    for (index, value) in values.iter().enumerate() {
        let place = FieldLocation {
            key,
            item: index as u64 + 1,
        };
        amounts[index] = read_amount(value, least, most, place)?;
    }
    Ok(SeatRow {
        seats: values.len() as u8,
        amounts,
    })
}

/// The antes of seats with these stacks.
#[tactic(auto, unfolding(crate::specs::Rows::antes_said))]
pub fn read_antes(value: &Value, stacks: &SeatRow) -> Result<SeatRow, ReadError<FieldFault>>
    ensures amounts { Gives amounts_in result
        (antes_said (amounts_in stacks.now) (view value.now)) }
    ensures held { IfOk result (AreHeld stacks.now) }
{
    let values = read_items(value, stacks.players(), FieldKey::Antes)?;
    fill_antes(values.values, stacks)
}

// The antes of seats with these stacks.
fn fill_antes(values: &[Value], stacks: &SeatRow) -> Result<SeatRow, ReadError<FieldFault>>
    requires { length values.now ≡ stacks.now.seats }
    ensures amounts { Gives amounts_in result
        (antes_from stacks.now.amounts (map view values.now)) }
    ensures held { IfOk result (AreHeld stacks.now) }
{
    let mut amounts = [0; 10];
    for (index, value) in values.iter().enumerate() {
        let place = FieldLocation {
            key: FieldKey::Antes,
            item: index as u64 + 1,
        };
        amounts[index] = read_ante(value, stacks.amounts[index], place)?;
    }
    Ok(SeatRow {
        seats: stacks.seats,
        amounts,
    })
}

// An ante: the smaller of the stated one and the stack.
#[tactic(auto, unfolding(crate::specs::Rows::ante_said))]
fn read_ante(value: &Value, stack: u64, place: FieldLocation) -> Result<u64, ReadError<FieldFault>>
    ensures within { IfOk result (λ ante. ante ≤ stack) }
    ensures said { Gives (λ ante. ante) result (ante_said stack place (view value.now)) }
{
    let ante = read_amount(value, 0, MOST_CHIPS, place)?;
    Ok(if ante < stack { ante } else { stack })
}

/// The blinds in the order of seats: with two seats, the first seat has the greater one.
pub fn swap_heads_up(mut blinds: SeatRow) -> SeatRow
    ensures amounts { amounts_in result ≡ rows.heads_up_swapped (amounts_in blinds) }
    ensures seats { result.seats ≡ blinds.seats }
    ensures most { (most : ℕ) → ((k : ℕ) → slice_index blinds.amounts k ≤ most)
        → (k : ℕ) → slice_index result.amounts k ≤ most }
    ensures heads_up { blinds.seats ≡ 2
        → slice_index result.amounts 1 ≤ slice_index result.amounts 0 }
{
    if blinds.seats == 2 && blinds.amounts[0] < blinds.amounts[1] {
        blinds.amounts.swap(0, 1);
    }
    blinds
}

/// The rakes of at most eleven pots.
#[tactic(auto, unfolding(crate::specs::Rows::rakes_said, crate::specs::Rows::rakes_from))]
pub fn read_rakes(value: &Value) -> Result<RakeRow, ReadError<FieldFault>>
    ensures said { Gives (λ row. row.rakes) result (rakes_said (view value.now)) }
    ensures most { IfOk result (λ row. (pot : ℕ) → rake_of row pot ≤ MOST_AMOUNT) }
{
    let place = FieldLocation::at_key(FieldKey::Rakes);
    let values = read_list(value, place)?;
    if !has_count(values, 0, 11) {
        return Err(field_fault_at(FieldFaultKind::ListLength, place));
    }
    let rakes = read_each_rake(values)?;
    Ok(RakeRow { rakes })
}

// The rakes of at most eleven pots, each within the limit of stated amounts; the other entries are
// 0.
fn read_each_rake(values: &[Value]) -> Result<[u64; 11], ReadError<FieldFault>>
    requires { length values.now ≤ 11 }
    ensures amounts { Gives (λ rakes. take (length values.now) rakes) result
        (amounts_said 0 MOST_AMOUNT keys.Rakes (map view values.now)) }
    ensures eleven { IfOk result (λ rakes. length rakes ≡ 11) }
    ensures most { IfOk result (λ rakes. (k : ℕ) → slice_index rakes k ≤ MOST_AMOUNT) }
    ensures zeros { IfOk result (λ rakes. (k : ℕ)
        → length values.now ≤ k → slice_index rakes k ≡ 0) }
{
    let mut rakes = [0; 11];
    for (index, value) in values.iter().enumerate() {
        let place = FieldLocation {
            key: FieldKey::Rakes,
            item: index as u64 + 1,
        };
        rakes[index] = read_amount(value, 0, MOST_AMOUNT, place)?;
    }
    Ok(rakes)
}
