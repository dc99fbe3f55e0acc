//! A trace is tidy if at most seven cards are dealt to one owner on a street, and at most seven are
//! held by one seat.
ghost use Rattle.play_event.specs.Tidy.{HasTidyCards};
ghost use Rattle.hand_canon.specs.TraceRows.{core_said};

use hand_canon::Trace;

/// A trace whose cards are tidy.
#[derive(Clone, Copy)]
pub struct TidyTrace<'a> {
    pub trace: &'a Trace,
    pub ghost cards: { HasTidyCards (core_said trace.now) },
}
