//! Runs `replay` on the hand of a row, and `canon` and `check_stated` on its trace.
use crate::facts::{difference_text, fits, stated_of};
use crate::hands::{hand_of, is_short};
use crate::traces::{fault_text, script_text, trace_text};
use crate::words::first_and_rest;
use hand_canon::{canon, check_stated};
use replay_core::replay;
use std::alloc::{AllocError, Global};
use variant_table::is_valid;

/// The trace of the row's hand, or its fault.
pub fn replayed(alloc: Global, row: &str) -> Result<Option<String>, AllocError> {
    let Some(hand) = hand_of(alloc, row)? else {
        return Ok(None);
    };
    if !is_valid(&hand.setup) || !is_short(&hand.script) {
        return no_valid_hand(alloc);
    }
    match replay(alloc, &hand.setup, &hand.rules, &hand.script) {
        Ok(trace) => Ok(Some(trace_text(alloc, &trace)?)),
        Err(fault) => Ok(Some(fault_text(alloc, fault)?)),
    }
}

/// The canonical script of the row's hand.
pub fn canonical(alloc: Global, row: &str) -> Result<Option<String>, AllocError> {
    let Some(hand) = hand_of(alloc, row)? else {
        return Ok(None);
    };
    if !is_valid(&hand.setup) || !is_short(&hand.script) {
        return no_valid_hand(alloc);
    }
    match replay(alloc, &hand.setup, &hand.rules, &hand.script) {
        Ok(trace) => match canon(alloc, &trace) {
            Ok(script) => Ok(Some(script_text(alloc, &script)?)),
            Err(_) => Err(AllocError),
        },
        Err(fault) => Ok(Some(fault_text(alloc, fault)?)),
    }
}

/// The first of the row's stated facts that differs from its hand. The facts come before the hand,
/// with a slash between them.
pub fn compared(alloc: Global, row: &str) -> Result<Option<String>, AllocError> {
    let Some((facts, row)) = row.split_once(" / ") else {
        return Ok(None);
    };
    let (Some(stated), Some(hand)) = (stated_of(facts), hand_of(alloc, row)?) else {
        return Ok(None);
    };
    if !fits(&stated, hand.setup.stacks.seats) {
        return Ok(None);
    }
    if !is_valid(&hand.setup) || !is_short(&hand.script) {
        return no_valid_hand(alloc);
    }
    match replay(alloc, &hand.setup, &hand.rules, &hand.script) {
        Ok(trace) => match check_stated(&trace, &stated) {
            Ok(()) => Ok(Some(String::from_str(alloc, "agrees")?)),
            Err(differs) => Ok(Some(difference_text(alloc, differs)?)),
        },
        Err(fault) => Ok(Some(fault_text(alloc, fault)?)),
    }
}

/// Replays the row's hand as many times as its first word says, and reports how many events were
/// played without a fault.
pub fn repeated(alloc: Global, row: &str) -> Result<Option<String>, AllocError> {
    let (times, row) = first_and_rest(row);
    let (Ok(times), Some(hand)) = (times.parse::<u32>(), hand_of(alloc, row)?) else {
        return Ok(None);
    };
    if !is_valid(&hand.setup) || !is_short(&hand.script) {
        return no_valid_hand(alloc);
    }
    let mut events: u64 = 0;
    for _ in 0..times {
        match replay(alloc, &hand.setup, &hand.rules, &hand.script) {
            Ok(_) => events = events.saturating_add(hand.script.len() as u64),
            Err(fault) => return Ok(Some(fault_text(alloc, fault)?)),
        }
    }
    Ok(Some(format!(in alloc; "{events} events")?))
}

fn no_valid_hand(alloc: Global) -> Result<Option<String>, AllocError> {
    Ok(Some(String::from_str(alloc, "no valid hand")?))
}
