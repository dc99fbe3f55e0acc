//! Reads actions as events, counts them, and numbers them by their actions.
ghost use Rattle.std.specs.Prelude.{◌≡◌, ◌≤◌, ◌+◌, ◌++◌, map, IfOk, OnOk, option_map};
ghost use Rattle.toml.specs.View.{view};
ghost use Rattle.first_fault.specs.declared.limits.TheConstants.{MOST_FILE_MOVES};
ghost use Rattle.play_event.specs.Said.{kind_said, numbered};
ghost use Rattle.first_fault.specs.Reading.{Gives};
ghost use Rattle.phh_actions.specs.Action.{action_said};
ghost use Rattle.phh_reading.specs.Events.{AreCounted, AreFew, IsAfter, IsOneMore, at_location, counted, counts_after, event_said, events_said, listed_event, one_event};

use crate::field_fault::{FieldFault, FieldFaultKind, FieldKey, FieldLocation};
use crate::values::{field_fault_at, read_text};
use card_set::Memory;
use chip_ledger::PlayerCount;
use first_fault::{MOST_FILE_MOVES, Quantity, ReadError, saturating_u32};
use phh_actions::read_action;
use play_event::{Event, Kind, MOST_MOVES, MOST_OTHER_EVENTS, Script};
use std::alloc::Global;
use toml::Value;

/// How many moves and other events were read of a hand, and how many moves of the whole file.
#[derive(Clone, Copy, Debug, PartialEq, Eq)]
pub struct EventCounts {
    pub moves: usize,
    pub other_events: usize,
    pub file_moves: usize,
}

/// The events of the actions of a hand with this number of players, after `file_moves` moves of the
/// file; and the counts after them.
pub fn read_events(
    alloc: Global,
    players: PlayerCount,
    file_moves: usize,
    actions: &[Value],
) -> Result<(Script, EventCounts), ReadError<FieldFault>>
    requires few { file_moves ≤ MOST_FILE_MOVES }
    ensures said { Gives (λ found. (map numbered found.0, found.1)) result
        (events_said players.number (counts_after file_moves) (map view actions.now)) }
    ensures few { IfOk result (λ found. AreFew found.1) }
    ensures counted { IfOk result (λ found. AreCounted file_moves found.0 found.1) }
{
    let mut script = Script::new(alloc);
    let mut counts = EventCounts {
        moves: 0,
        other_events: 0,
        file_moves,
    };
    for (index, value) in actions.iter().enumerate() {
        let (event, next) = read_event(players, counts, index as u64 + 1, value)?;
        push_if(&mut script, event)?;
        counts = next;
    }
    Ok((script, counts))
}

// An action.
#[tactic(auto, unfolding(crate::specs::Events::event_said, crate::specs::Events::added))]
fn read_event(
    players: PlayerCount,
    counts: EventCounts,
    number: u64,
    value: &Value,
) -> Result<(Option<Event>, EventCounts), ReadError<FieldFault>>
    ensures said { Gives (λ found. (listed_event found.0, found.1)) result
        (event_said players.number counts number (view value.now)) }
    ensures few { AreFew counts → IfOk result (λ found. AreFew found.1) }
    ensures after { IfOk result (λ found. IsAfter counts found.0 found.1) }
{
    let place = FieldLocation {
        key: FieldKey::Actions,
        item: number,
    };
    let text = read_text(value, place)?;
    match read_kind(text, players, place)? {
        None => Ok((None, counts)),
        Some(kind) => {
            let next = count(counts, place, kind.is_move())?;
            let at = saturating_u32(number);
            Ok((Some(Event { at, kind }), next))
        }
    }
}

// The event of an action's text.
fn read_kind(
    text: &str,
    players: PlayerCount,
    place: FieldLocation,
) -> Result<Option<Kind>, ReadError<FieldFault>>
    ensures { Gives (option_map kind_said) result
        (at_location place (action_said players.number text.now)) }
{
    read_action(text, players).map_err(|fault| field_fault_at(FieldFaultKind::from(fault), place))
}

// The counts after one more event, each within its limit.
#[tactic(auto, unfolding(crate::specs::Events::counted))]
fn count(
    counts: EventCounts,
    place: FieldLocation,
    moves: bool,
) -> Result<EventCounts, ReadError<FieldFault>>
    ensures said { Gives (λ next. next) result (counted counts place moves) }
    ensures few { AreFew counts → IfOk result AreFew }
    ensures one_more { IfOk result (IsOneMore counts moves) }
{
    if moves {
        if counts.moves >= MOST_MOVES {
            return Err(too_many(Quantity::Moves, place));
        }
        if counts.file_moves >= MOST_FILE_MOVES {
            return Err(too_many(Quantity::FileMoves, place));
        }
        Ok(EventCounts {
            moves: counts.moves + 1,
            other_events: counts.other_events,
            file_moves: counts.file_moves + 1,
        })
    } else {
        if counts.other_events >= MOST_OTHER_EVENTS {
            return Err(too_many(Quantity::OtherEvents, place));
        }
        Ok(EventCounts {
            moves: counts.moves,
            other_events: counts.other_events + 1,
            file_moves: counts.file_moves,
        })
    }
}

// The fault of a quantity that exceeds its limit.
fn too_many(quantity: Quantity, place: FieldLocation) -> ReadError<FieldFault>
    ensures { result ≡ ReadError.Fault
        (record { what = FieldFaultKind.TooMany quantity; place = place }) }
{
    field_fault_at(FieldFaultKind::TooMany { quantity }, place)
}

// Appends the event to the script, if there is one.
fn push_if(script: &mut Script, event: Option<Event>) -> Result<(), Memory>
    ensures events { OnOk result (script.new ≡ script.old ++ one_event event) }
    ensures numbered { OnOk result (map numbered script.new
        ≡ map numbered script.old ++ listed_event event) }
{
    match event {
        Some(event) => script.push(event),
        None => Ok(()),
    }
}
