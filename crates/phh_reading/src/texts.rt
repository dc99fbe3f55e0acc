//! Keeps the text of a note if it is neither empty nor the default of the note.
ghost use Rattle.std.specs.Prelude.{◌≡◌, IfOk, IfSome};
ghost use Rattle.toml.specs.View.{view};
ghost use Rattle.hand_canon.specs.AllowedNotes.{IsUnusualNote};
ghost use Rattle.first_fault.specs.Reading.{Gives};
ghost use Rattle.phh_reading.specs.Fields.{fault_at};
ghost use Rattle.phh_reading.specs.NoteFields.{label_said, text_note_said};

use crate::field_fault::{FieldFault, FieldFaultKind, FieldLocation};
use crate::values::{field_fault_at, read_text};
use card_set::text_from;
use first_fault::{Quantity, ReadError, Text};
use hand_canon::keep_text;
use std::alloc::Global;
use toml::Value;

/// The text of a note with this default.
#[tactic(auto, unfolding(crate::specs::NoteFields::text_note_said, crate::specs::NoteFields::note_said))]
pub fn read_text_note(
    alloc: Global,
    value: &Value,
    default: &str,
    place: FieldLocation,
) -> Result<Option<Text>, ReadError<FieldFault>>
    ensures said { Gives (λ note. note) result
        (text_note_said default.now place (view value.now)) }
    ensures allowed { IfOk result (λ note. IfSome note (IsUnusualNote default.now)) }
{
    keep_text(alloc, read_text(value, place)?, default, too_long(place))
}

/// The text of a note with this default; a whole number counts as its decimal text.
#[tactic(auto, unfolding(crate::specs::NoteFields::label_said, crate::specs::NoteFields::note_said))]
pub fn read_label(
    alloc: Global,
    value: &Value,
    default: &str,
    place: FieldLocation,
) -> Result<Option<Text>, ReadError<FieldFault>>
    ensures said { Gives (λ note. note) result (label_said default.now place (view value.now)) }
    ensures allowed { IfOk result (λ note. IfSome note (IsUnusualNote default.now)) }
{
    match value {
        Value::String(text) => keep_text(alloc, text.as_str(), default, too_long(place)),
        Value::Integer(number) => {
            let text = text_from(alloc, number)?;
            keep_text(alloc, text.as_str(), default, too_long(place))
        }
        _ => Err(field_fault_at(FieldFaultKind::WrongType, place)),
    }
}

// The fault of a text that is too long for a note.
fn too_long(place: FieldLocation) -> FieldFault
    ensures { result ≡ fault_at (FieldFaultKind.TooMany Quantity.TextBytes) place }
{
    let quantity = Quantity::TextBytes;
    let what = FieldFaultKind::TooMany { quantity };
    FieldFault { what, place }
}
