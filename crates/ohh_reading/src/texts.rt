//! Keeps the text of a note if it is neither empty nor the default of the note.
ghost use Rattle.std.specs.Prelude.{◌≡◌, [], IfOk, IfSome};
ghost use Rattle.serde_json.specs.View.{view};
ghost use Rattle.hand_canon.specs.AllowedNotes.{IsNoteText};
ghost use Rattle.first_fault.specs.Reading.{Gives, or_none};
ghost use Rattle.ohh_reading.specs.Notes.{label_said, text_note_said};
ghost use Rattle.ohh_members.specs.Values as values;

use card_set::text_from;
use first_fault::{Quantity, ReadError, Text};
use hand_canon::keep_text;
use ohh_members::fault::{MemberFault, MemberFaultKind, Path};
use ohh_members::values::{field, read_integer, read_text};
use serde_json::Value;
use std::alloc::Global;

/// The text of a member, if there is one that is not empty.
#[tactic(auto, using(crate::proofs::UnusualNotes::unusual_text), unfolding(crate::specs::Notes::text_note_said, crate::specs::Notes::note_said))]
pub fn text_at(
    alloc: Global,
    ohh: &Value,
    path: Path,
) -> Result<Option<Text>, ReadError<MemberFault>>
    ensures said { Gives (λ note. note) result
        (or_none (text_note_said [] path) (values.member_at path (view ohh.now))) }
    ensures allowed { IfOk result (λ note. IfSome note IsNoteText) }
{
    match field(ohh, path) {
        Some(value) => {
            let text = read_text(value, path)?;
            keep_text(alloc, text, "", too_long(path))
        }
        None => Ok(None),
    }
}

/// The label of a member with this default, if there is one. A whole number counts as its decimal
/// text.
#[tactic(auto, using(crate::proofs::UnusualNotes::unusual_text), unfolding(crate::specs::Notes::label_said, crate::specs::Notes::note_said))]
pub fn label_at(
    alloc: Global,
    ohh: &Value,
    path: Path,
    default: &str,
) -> Result<Option<Text>, ReadError<MemberFault>>
    ensures said { Gives (λ note. note) result
        (or_none (label_said default.now path) (values.member_at path (view ohh.now))) }
    ensures allowed { IfOk result (λ note. IfSome note IsNoteText) }
{
    let Some(value) = field(ohh, path) else {
        return Ok(None);
    };
    match value {
        Value::String(text) => keep_text(alloc, text.as_str(), default, too_long(path)),
        _ => {
            let number = read_integer(value, path)?;
            let text = text_from(alloc, number)?;
            keep_text(alloc, text.as_str(), default, too_long(path))
        }
    }
}

// The text of a member is too long for a note.
fn too_long(path: Path) -> MemberFault
    ensures { result
        ≡ record { what = MemberFaultKind.TooMany Quantity.TextBytes; path = path } }
{
    let quantity = Quantity::TextBytes;
    let what = MemberFaultKind::TooMany { quantity };
    MemberFault { what, path }
}
