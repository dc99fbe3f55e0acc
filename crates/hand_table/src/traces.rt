//! Traces, scripts and faults as text.
use crate::event_words::event_text;
use crate::words::row_text;
use chip_ledger::{LiveRow, Seat};
use hand_canon::Trace;
use play_event::{Illegal, Script};
use replay_core::ReplayFault;
use std::alloc::{AllocError, Global};

/// The end of a trace: finishing stacks; each pot with its rake, the seats that may win it and
/// their shares; what is returned; and who is shown or mucks.
pub fn trace_text(alloc: Global, trace: &Trace) -> Result<String, AllocError> {
    let finish = row_text(alloc, &trace.finish)?;
    let mut text = format!(in alloc; "finish {finish}")?;
    for index in 0..usize::from(trace.pots.count) {
        let pot = &trace.pots.pots[index];
        let chips = pot.chips;
        let rake = trace.setup.rakes.rakes[index];
        let eligible = seats_text(alloc, &pot.eligible)?;
        let shares = row_text(alloc, &trace.shares.shares[index])?;
        write!(text, "; pot {chips} less {rake} for {eligible}: {shares}")?;
    }
    let returned = row_text(alloc, &trace.pots.returned)?;
    let shown = seats_text(alloc, &trace.shown)?;
    let mucked = seats_text(alloc, &trace.mucked)?;
    write!(
        text,
        "; returned {returned}; shown {shown}; mucked {mucked}"
    )?;
    Ok(text)
}

/// The seats of a row that are flagged, such as `13`, or `-` for none.
pub fn seats_text(alloc: Global, row: &LiveRow) -> Result<String, AllocError> {
    let mut text = String::new(alloc);
    for index in 0..row.seats {
        let seat = Seat { number: index + 1 };
        if row.get(seat) {
            let number = seat.number;
            write!(text, "{number}")?;
        }
    }
    if text.is_empty() {
        text.push_str("-")?;
    }
    Ok(text)
}

/// The fault of a script.
pub fn fault_text(alloc: Global, fault: ReplayFault) -> Result<String, AllocError> {
    match fault {
        ReplayFault::Illegal { event, at, why } => {
            let reason = reason_text(alloc, why)?;
            format!(in alloc; "event {event}, action {at}: {reason}")
        }
        ReplayFault::EndsEarly { events } => format!(in alloc; "ends early after {events} events"),
        ReplayFault::RakeTooBig { pot } => format!(in alloc; "pot {pot}: rake too big"),
        ReplayFault::NoShownHand { pot } => format!(in alloc; "pot {pot}: no shown hand"),
        ReplayFault::Memory(_) => String::from_str(alloc, "out of memory"),
    }
}

fn reason_text(alloc: Global, reason: Illegal) -> Result<String, AllocError> {
    match reason {
        Illegal::AmountDiffers { stated, due } => {
            format!(in alloc; "AmountDiffers stated {stated} due {due}")
        }
        _ => format!(in alloc; "{reason:?}"),
    }
}

/// The events of a script, each in words that can be read back.
pub fn script_text(alloc: Global, script: &Script) -> Result<String, AllocError> {
    let mut text = String::new(alloc);
    let mut cursor = script.cursor();
    for _ in 0..script.len() {
        let Some(event) = cursor.next() else {
            return Ok(text);
        };
        if !text.is_empty() {
            text.push_str("; ")?;
        }
        text.push_str(event_text(alloc, &event.kind)?.as_str())?;
    }
    Ok(text)
}
