//! Reads the notes of a hand from its fields, and checks that they are allowed.
ghost use Rattle.std.specs.Prelude.{IfOk};
ghost use Rattle.toml.specs.View.{table_view};
ghost use Rattle.hand_canon.specs.AllowedNotes.{AreAllowed};
ghost use Rattle.first_fault.specs.Reading.{Gives};
ghost use Rattle.hand_canon.specs.SaidNotes.{plain_notes};
ghost use Rattle.phh_reading.specs.NoteFields.{notes_said};

use crate::date::{PartialDate, read_day, read_time_at};
use crate::field_fault::{FieldFault, FieldKey};
use crate::labels::{Labels, read_labels, text_at};
use crate::seating::{Seating, read_seating};
use chip_ledger::PlayerCount;
use first_fault::ReadError;
use hand_canon::Notes;
use std::alloc::Global;
use toml::Table;

/// The notes of a hand with this number of players, at this place of its file, from 0.
#[tactic(auto, unfolding(crate::specs::NoteFields::notes_said))]
pub fn read_notes(
    alloc: Global,
    table: &Table,
    place: u32,
    players: PlayerCount,
) -> Result<Notes, ReadError<FieldFault>>
    ensures said { Gives (plain_notes players.number) result
        (notes_said place players.number (table_view table.now)) }
    ensures allowed { IfOk result (AreAllowed players.number) }
{
    let seating = read_seating(alloc, table, players)?;
    let labels = read_labels(alloc, table, place)?;
    let date = read_day(table)?;
    let time = read_time_at(table)?;
    let zone = text_at(alloc, table, FieldKey::TimeZone)?;
    let Seating {
        names,
        seats: numbers,
        seat_count,
    } = seating;
    let Labels { hand, texts } = labels;
    let PartialDate { year, month, day } = date;
    Ok(Notes {
        names,
        seats: numbers,
        seat_count,
        hand,
        year,
        month,
        day,
        time,
        zone,
        ..Notes::with_texts(texts)
    })
}
