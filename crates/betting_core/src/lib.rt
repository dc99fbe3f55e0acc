//! The betting of a hand of any game, move by move.
#![tactic(auto)]

mod betting;
mod choices;
mod dealt;
mod step;

pub use betting::Betting;
pub use betting_numbers::Targets;
pub use play_event::Move as Moved;
