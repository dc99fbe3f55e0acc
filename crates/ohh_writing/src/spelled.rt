//! The first fact of a play that the format cannot write, and the first play that has one.
ghost use Rattle.std.specs.Prelude.{◌≡◌};
ghost use Rattle.ohh_writing.specs.Spelled.{first_unspelled, kept_facts, note_facts, trace_facts, unspelled};
ghost use Rattle.ohh_writing.specs.Spelled as spelled;
ghost use Rattle.hand_canon.specs.WriteRefusals.{first_refusal};

use crate::games::can_write_game;
use crate::moment::find_moment;
use crate::seating::numbers_to_write;
use crate::setup::{can_write_antes, can_write_blinds, can_write_sizes};
use chip_ledger::SeatRow;
use hand_canon::{Keep, NoteName, Notes, Play, SoundPlays, Trace, Unspelled, WriteRefusal};

/// The refusal of the first play that the format cannot write. The first hand has the number 1.
pub fn find_refusal(plays: &SoundPlays<'_>, keep: Keep) -> Option<WriteRefusal>
    ensures { result ≡ first_refusal (unspelled keep) plays.now }
{
    let plays = plays.as_slice();
    for (index, play) in plays.iter().enumerate() {
        if let Some(fact) = spells(play, keep) {
            return Some(WriteRefusal::Unspelled {
                hand: index as u32 + 1,
                fact,
            });
        }
    }
    None
}

/// The first fact of the play that the format cannot write, in either dialect. Notes count if all
/// are kept.
#[tactic(auto, unfolding(crate::specs::Spelled::unspelled))]
pub fn spells(play: &Play, keep: Keep) -> Option<Unspelled>
    ensures { result ≡ unspelled keep play.now }
{
    match first_of_trace(&play.trace) {
        Some(fact) => Some(fact),
        None => first_of_kept(play, keep),
    }
}

// The first fact of a trace that cannot be written.
fn first_of_trace(trace: &Trace) -> Option<Unspelled>
    ensures { result ≡ first_unspelled (trace_facts trace.now) }
{
    if !can_write_game(trace.setup.code) {
        return Some(Unspelled::Variant);
    }
    if !can_write_sizes(&trace.setup) {
        return Some(Unspelled::BetSizes);
    }
    if !can_write_antes(&trace.setup) {
        return Some(Unspelled::Antes);
    }
    if !can_write_blinds(&trace.setup) {
        return Some(Unspelled::Blinds);
    }
    if trace.moves.has_closed_raise() {
        return Some(Unspelled::ReopenedShort);
    }
    None
}

// The first of the notes to be kept that cannot be written.
fn first_of_kept(play: &Play, keep: Keep) -> Option<Unspelled>
    ensures { result ≡ first_unspelled (kept_facts keep play.now) }
{
    match keep {
        Keep::All => first_of_notes(&play.trace.setup.stacks, &play.hand.notes),
        Keep::Spelled => None,
    }
}

// The first note that cannot be written; there are as many seats as stacks.
fn first_of_notes(stacks: &SeatRow, notes: &Notes) -> Option<Unspelled>
    ensures { result ≡ first_unspelled (note_facts stacks.now.seats notes.now) }
{
    if !can_write_numbers(stacks, notes) {
        return Some(Unspelled::Note(NoteName::Seats));
    }
    if find_moment(notes).is_some() {
        return None;
    }
    if notes.zone.is_some() {
        return Some(Unspelled::Note(NoteName::TimeZone));
    }
    if notes.year.is_some() {
        return Some(Unspelled::Note(NoteName::Year));
    }
    if notes.month.is_some() {
        return Some(Unspelled::Note(NoteName::Month));
    }
    if notes.day.is_some() {
        return Some(Unspelled::Note(NoteName::Day));
    }
    if notes.time.is_some() {
        return Some(Unspelled::Note(NoteName::Time));
    }
    None
}

// Whether the numbers of the seats are not noted, or go round the table.
fn can_write_numbers(stacks: &SeatRow, notes: &Notes) -> bool
    ensures { result ≡ spelled.has_spelled_numbers stacks.now.seats notes.now }
{
    if notes.seats.is_none() {
        return true;
    }
    numbers_to_write(stacks.players(), notes.seats).is_some()
}
