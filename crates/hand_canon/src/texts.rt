//! Keeps the text of a note unless it is empty or the note's default.
ghost use Rattle.std.specs.Prelude.{◌≡◌, ◌≤◌, length, IfOk, IfSome};
ghost use Rattle.first_fault.specs.declared.limits.TheConstants.{MOST_TEXT_BYTES};
ghost use Rattle.first_fault.specs.Reading.{Gives};
ghost use Rattle.hand_canon.specs.AllowedNotes.{IsUnusualNote, noted, noted_or};

use card_set::Memory;
use first_fault::{MOST_TEXT_BYTES, ReadError, Text};
use std::alloc::Global;

/// A copy of a text of at most 255 bytes, or `None` if it is empty or the default.
pub fn keep_short(alloc: Global, text: &str, default: &str) -> Result<Option<Text>, Memory>
    requires { length text.now ≤ MOST_TEXT_BYTES }
    ensures said { IfOk result (λ note. note ≡ noted default.now text.now) }
    ensures allowed { IfOk result (λ note. IfSome note (IsUnusualNote default.now)) }
{
    if text.is_empty() || text == default {
        return Ok(None);
    }
    Ok(Some(Text::new(alloc, text)?))
}

/// The same for a text of any length; more than 255 bytes are this fault.
pub fn keep_text<F: Drop>(
    alloc: Global,
    text: &str,
    default: &str,
    fault: F,
) -> Result<Option<Text>, ReadError<F>>
    ensures said { Gives (λ note. note) result (noted_or fault default.now text.now) }
    ensures allowed { IfOk result (λ note. IfSome note (IsUnusualNote default.now)) }
{
    if text.len() > MOST_TEXT_BYTES {
        return Err(ReadError::Fault(fault));
    }
    Ok(keep_short(alloc, text, default)?)
}
