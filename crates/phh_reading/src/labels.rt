//! Reads where a hand was played from its fields.
ghost use Rattle.std.specs.Prelude.{[], IfOk, IfSome};
ghost use Rattle.std.specs.Fmt.{decimal};
ghost use Rattle.toml.specs.View.{table_view};
ghost use Rattle.hand_canon.specs.AllowedNotes.{AreNoteTexts, IsNoteText};
ghost use Rattle.first_fault.specs.Reading.{Gives, or_none};
ghost use Rattle.phh_reading.specs.declared.field_fault.FieldKey.TheVariants as keys;
ghost use Rattle.phh_reading.specs.Fields.{key_place};
ghost use Rattle.phh_reading.specs.Fields as fields;
ghost use Rattle.phh_reading.specs.NoteFields.{label_said, labels_said, text_note_said};

use crate::field_fault::{FieldFault, FieldKey, FieldLocation};
use crate::texts::{read_label, read_text_note};
use crate::values::field;
use card_set::text_from;
use first_fault::{ReadError, Text};
use hand_canon::TextNotes;
use std::alloc::Global;
use toml::Table;

/// Where a hand was played: its name, its table, and the rest.
#[derive(Debug, Drop)]
pub struct Labels {
    pub hand: Option<Text>,
    pub texts: TextNotes,
}

/// The labels of the hand at this place of its file, from 0.
#[tactic(auto, unfolding(crate::specs::NoteFields::labels_said))]
pub fn read_labels(
    alloc: Global,
    table: &Table,
    place: u32,
) -> Result<Labels, ReadError<FieldFault>>
    ensures said { Gives (λ labels. labels) result (labels_said place (table_view table.now)) }
    ensures hand { IfOk result (λ labels. IfSome labels.hand IsNoteText) }
    ensures texts { IfOk result (λ labels. AreNoteTexts labels.texts) }
{
    let hand = hand_at(alloc, table, place)?;
    let label = label_at(alloc, table, FieldKey::Table)?;
    let venue = text_at(alloc, table, FieldKey::Venue)?;
    let currency = text_at(alloc, table, FieldKey::Currency)?;
    Ok(Labels {
        hand,
        texts: TextNotes {
            table: label,
            venue,
            currency,
        },
    })
}

// The name of the hand at this place of its file, from 0, if there is one. Most files have none, so
// the number of the place is made into text only if there is a name to compare it with.
fn hand_at(alloc: Global, table: &Table, place: u32) -> Result<Option<Text>, ReadError<FieldFault>>
    ensures said { Gives (λ note. note) result
        (or_none (label_said (decimal place) (key_place keys.Hand))
        (fields.field_value keys.Hand (table_view table.now))) }
    ensures allowed { IfOk result (λ note. IfSome note IsNoteText) }
{
    match field(table, FieldKey::Hand) {
        Some(value) => {
            let usual = text_from(alloc, place)?;
            read_label(
                alloc,
                value,
                usual.as_str(),
                FieldLocation::at_key(FieldKey::Hand),
            )
        }
        None => Ok(None),
    }
}

// The label at a key, if there is one that is not empty.
fn label_at(
    alloc: Global,
    table: &Table,
    key: FieldKey,
) -> Result<Option<Text>, ReadError<FieldFault>>
    ensures said { Gives (λ note. note) result
        (or_none (label_said [] (key_place key)) (fields.field_value key (table_view table.now))) }
    ensures allowed { IfOk result (λ note. IfSome note IsNoteText) }
{
    match field(table, key) {
        Some(value) => read_label(alloc, value, "", FieldLocation::at_key(key)),
        None => Ok(None),
    }
}

/// The text at a key, if there is one that is not empty.
pub fn text_at(
    alloc: Global,
    table: &Table,
    key: FieldKey,
) -> Result<Option<Text>, ReadError<FieldFault>>
    ensures said { Gives (λ note. note) result
        (or_none (text_note_said [] (key_place key))
        (fields.field_value key (table_view table.now))) }
    ensures allowed { IfOk result (λ note. IfSome note IsNoteText) }
{
    match field(table, key) {
        Some(value) => read_text_note(alloc, value, "", FieldLocation::at_key(key)),
        None => Ok(None),
    }
}
