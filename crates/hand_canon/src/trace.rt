//! A trace is what was played in a hand, whatever the order and the words of its script.
use crate::moves::Moves;
use crate::places::Places;
use crate::record::Record;
use chip_ledger::{LiveRow, PotRow, SeatRow, ShareRow};
use play_event::Setup;

/// What was played in a hand. The order of showing, and how deals were cut into events and ordered,
/// are not part of it.
#[derive(Debug, Drop)]
pub struct Trace {
    pub setup: Setup,
    pub places: Places,
    pub moves: Moves,
    /// The live seats of a contested hand whose cards were shown; in `mucked`, those that mucked.
    pub shown: LiveRow,
    pub mucked: LiveRow,
    /// The pots before rakes are taken, and what is returned to each seat.
    pub pots: PotRow,
    /// What each seat gets of each pot, after its rake.
    pub shares: ShareRow,
    /// The finishing stacks.
    pub finish: SeatRow,
}

/// A record, and the trace that its script replays to.
#[derive(Debug, Drop)]
pub struct Play {
    pub hand: Record,
    pub trace: Trace,
}
