//! Reads the fields of a table as the record of one hand.
ghost use Rattle.std.specs.Prelude.{◌≡◌, ◌≤◌, ◌+◌, ℕ, IfOk, option_map};
ghost use Rattle.std.specs.Option.{ForSome};
ghost use Rattle.toml.specs.View.{table_view};
ghost use Rattle.chip_ledger.specs.declared.seat_row.TheConstants.{MOST_AMOUNT};
ghost use Rattle.chip_ledger.specs.RakeRow.{rake_of};
ghost use Rattle.first_fault.specs.declared.limits.TheConstants.{MOST_FILE_MOVES};
ghost use Rattle.first_fault.specs.Reading.{Gives, read_if};
ghost use Rattle.phh_reading.specs.declared.field_fault.FieldKey.TheVariants as keys;
ghost use Rattle.phh_reading.specs.Fields as fields;
ghost use Rattle.phh_reading.specs.Rows.{row_said};
ghost use Rattle.chip_ledger.specs.SeatRow.{amounts_in};
ghost use Rattle.phh_reading.specs.Hand.{hand_said, rakes_at};
ghost use Rattle.hand_canon.specs.Histories.{IsHistory};
ghost use Rattle.hand_canon.specs.Moves.{moves_of};
ghost use Rattle.hand_canon.specs.PlainHands.{plain};

use crate::events::read_events;
use crate::field_fault::{FieldFault, FieldKey, FieldLocation};
use crate::notes::read_notes;
use crate::rows::{read_rakes, read_row};
use crate::setup::read_setup;
use crate::values::{field, read_list, required};
use chip_ledger::{MOST_AMOUNT, PlayerCount, RakeRow, SeatRow};
use first_fault::ReadError;
use hand_canon::{Record, Stated};
use play_event::{Reopen, Rules, Setup};
use std::alloc::Global;
use toml::Table;

/// The hand of a table at this place of its file, from 0, after `file_moves` moves of the file; and
/// the moves of the file after it.
#[tactic(auto, unfolding(crate::specs::Hand::hand_said))]
pub fn read_hand(
    alloc: Global,
    table: &Table,
    place: u32,
    file_moves: usize,
) -> Result<(Record, usize), ReadError<FieldFault>>
    requires { file_moves ≤ MOST_FILE_MOVES }
    ensures said { Gives (λ found. (plain found.0, found.1)) result
        (hand_said file_moves place (table_view table.now)) }
    ensures sound { IfOk result (λ found. IsHistory found.0) }
    ensures moves { IfOk result (λ found. found.1 ≡ file_moves + moves_of found.0) }
    ensures few { IfOk result (λ found. found.1 ≤ MOST_FILE_MOVES) }
{
    let setup = read_setup(table)?;
    let players = setup.stacks.players();
    let actions = read_list(
        required(table, FieldKey::Actions)?,
        FieldLocation::at_key(FieldKey::Actions),
    )?;
    let (script, counts) = read_events(alloc, players, file_moves, actions)?;
    let finish = read_finish(table, players)?;
    let rakes = read_rakes_at(table)?;
    let notes = read_notes(alloc, table, place, players)?;
    let hand = Record {
        setup: Setup { rakes, ..setup },
        rules: Rules {
            reopen: Reopen::Full,
            free_fold: true,
            caps: None,
        },
        script,
        stated: Stated {
            finish,
            wins: None,
            pot_total: None,
            values: None,
        },
        notes,
    };
    Ok((hand, counts.file_moves))
}

// The finishing stacks of the players, if they are stated.
fn read_finish(
    table: &Table,
    players: PlayerCount,
) -> Result<Option<SeatRow>, ReadError<FieldFault>>
    ensures said { Gives (option_map amounts_in) result
        (read_if (row_said players.number MOST_AMOUNT keys.FinishingStacks)
        (fields.field_value keys.FinishingStacks (table_view table.now))) }
    ensures seats { IfOk result (λ finish. ForSome finish (λ row. row.seats ≡ players.number)) }
{
    match field(table, FieldKey::FinishingStacks) {
        Some(value) => {
            let finish = read_row(value, players, MOST_AMOUNT, FieldKey::FinishingStacks)?;
            Ok(Some(finish))
        }
        None => Ok(None),
    }
}

// The rakes; 0 if the field is missing.
#[tactic(auto, unfolding(crate::specs::Hand::rakes_at))]
fn read_rakes_at(table: &Table) -> Result<RakeRow, ReadError<FieldFault>>
    ensures said { Gives (λ row. row.rakes) result (rakes_at (table_view table.now)) }
    ensures most { IfOk result (λ row. (pot : ℕ) → rake_of row pot ≤ MOST_AMOUNT) }
{
    match field(table, FieldKey::Rakes) {
        Some(value) => read_rakes(value),
        None => Ok(RakeRow::none()),
    }
}
