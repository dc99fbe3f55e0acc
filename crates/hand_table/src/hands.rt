//! The hand of a row: its setup and rules, and after a colon its events, each numbered as an
//! action.
ghost use Rattle.std.specs.Prelude.{◌≤◌, IsTrue};
ghost use Rattle.play_event.specs.PlayedScript.{IsWithinLimits};
ghost use Rattle.replay_core.specs.Events.{said_by};

use crate::event_words::kind_of;
use crate::setup_words::setup_of;
use play_event::{Event, Rules, Script, Setup};
use std::alloc::{AllocError, Global};

/// A hand as a row says it.
#[derive(Drop)]
pub struct Hand {
    pub setup: Setup,
    pub rules: Rules,
    pub script: Script,
}

/// The hand that the row says, or `None` if it says no hand.
pub fn hand_of(alloc: Global, row: &str) -> Result<Option<Hand>, AllocError> {
    let Some((start, events)) = row.split_once(": ") else {
        return Ok(None);
    };
    let Some((setup, rules)) = setup_of(start) else {
        return Ok(None);
    };
    let Some(script) = script_of(alloc, events)? else {
        return Ok(None);
    };
    Ok(Some(Hand {
        setup,
        rules,
        script,
    }))
}

// The events, or `None` if one of them cannot be read.
fn script_of(alloc: Global, events: &str) -> Result<Option<Script>, AllocError> {
    let mut script = Script::new(alloc);
    let mut at: u32 = 0;
    for event in events.split("; ") {
        let Some(kind) = kind_of(event) else {
            return Ok(None);
        };
        at = at.saturating_add(1);
        match script.push(Event { at, kind }) {
            Ok(()) => {}
            Err(_) => return Err(AllocError),
        }
    }
    Ok(Some(script))
}

/// The script is so short that it is within the limits of a hand.
pub fn is_short(script: &Script) -> bool
    ensures { IsTrue result → IsWithinLimits (said_by script.now) }
{
    is_few(script.len())
}

// Two kinds of events, at most this many together, are within both limits.
fn is_few(count: usize) -> bool
    ensures { IsTrue result → count ≤ 256 }
{
    count <= 256
}
