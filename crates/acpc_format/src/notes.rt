//! Looks through the notes of a hand for one that a line cannot write.
ghost use Rattle.std.specs.Prelude.{◌≡◌, map};
ghost use Rattle.std.specs.List.{list_any};
ghost use Rattle.hand_canon.specs.NoteTable.{texts_of};
ghost use Rattle.hand_canon.specs.declared.writing.Keep.TheVariants as keeps;
ghost use Rattle.acpc_format.specs.NoteFacts.{plain_condition, text_conditions, time_conditions};
ghost use Rattle.acpc_format.specs.NoteFacts as note_facts;
ghost use Rattle.acpc_format.specs.Spelled.{unspelled_note};
ghost use Rattle.first_fault.specs.Conditions.{first_where};

use crate::names::{can_write_hand_number, can_write_name};
use first_fault::Text;
use hand_canon::{Keep, NoteName, Notes, Unspelled};

/// The first note that is to be kept and that a line cannot write.
#[tactic(auto, unfolding(crate::specs::Spelled::unspelled_note))]
pub fn find_other_note(notes: &Notes, keep: Keep) -> Option<Unspelled>
    ensures { result ≡ unspelled_note keep notes.now }
{
    match keep {
        Keep::All => find_any(notes),
        Keep::Spelled => None,
    }
}

// The first of all notes that a line cannot write.
#[tactic(auto, unfolding(crate::specs::Spelled::unspelled_note))]
fn find_any(notes: &Notes) -> Option<Unspelled>
    ensures { result ≡ unspelled_note keeps.All notes.now }
{
    match find_text(notes) {
        Some(fact) => Some(fact),
        None => find_time(notes),
    }
}

// The first note of seats and texts that a line cannot write.
fn find_text(notes: &Notes) -> Option<Unspelled>
    ensures { result ≡ first_where (text_conditions notes.now) }
{
    if has_unspelled_name(&notes.names) {
        return Some(Unspelled::Note(NoteName::Players));
    }
    if notes.seats.is_some() {
        return Some(Unspelled::Note(NoteName::Seats));
    }
    if notes.seat_count.is_some() {
        return Some(Unspelled::Note(NoteName::SeatCount));
    }
    if is_unwritable_hand_number(&notes.hand) {
        return Some(Unspelled::Note(NoteName::Hand));
    }
    find_plain(notes, NoteName::texts().as_slice())
}

// The first of some plain texts that is noted: a line can write none of them.
fn find_plain(notes: &Notes, names: &[NoteName]) -> Option<Unspelled>
    ensures { result ≡ first_where (map (plain_condition (texts_of notes.now)) names.now) }
{
    match names {
        [] => None,
        [name, rest @ ..] => match notes.text(*name) {
            Some(_) => Some(Unspelled::Note(*name)),
            None => find_plain(notes, rest),
        },
    }
}

// Whether a line cannot write one of the names.
fn has_unspelled_name(names: &[Option<Text>]) -> bool
    ensures { result ≡ list_any note_facts.is_unspelled_name names.now }
{
    for name in names {
        if is_unwritable_name(name) {
            return true;
        }
    }
    false
}

// Whether there is a name that a line cannot write.
fn is_unwritable_name(name: &Option<Text>) -> bool
    ensures { result ≡ note_facts.is_unspelled_name name.now }
{
    match name {
        Some(name) => !can_write_name(name.as_str().as_bytes()),
        None => false,
    }
}

// Whether there is a hand number that a line cannot write.
fn is_unwritable_hand_number(text: &Option<Text>) -> bool
    ensures { result ≡ note_facts.is_unspelled_hand text.now }
{
    match text {
        Some(text) => !can_write_hand_number(text.as_str().as_bytes()),
        None => false,
    }
}

// The first note of the day and its time that is present: a line can write none of them.
fn find_time(notes: &Notes) -> Option<Unspelled>
    ensures { result ≡ first_where (time_conditions notes.now) }
{
    if notes.zone.is_some() {
        return Some(Unspelled::Note(NoteName::TimeZone));
    }
    if notes.year.is_some() {
        return Some(Unspelled::Note(NoteName::Year));
    }
    if notes.month.is_some() {
        return Some(Unspelled::Note(NoteName::Month));
    }
    if notes.day.is_some() {
        return Some(Unspelled::Note(NoteName::Day));
    }
    if notes.time.is_some() {
        return Some(Unspelled::Note(NoteName::Time));
    }
    None
}
