//! Replays a script event by event, to its trace or to what is wrong with it.
#![tactic(auto)]

mod beginning;
mod ending;
mod fault;
mod fault_laws;
mod finish;
mod hand_in_play;
pub mod laws;
mod places;
mod playing;
mod replaying;
mod rows;
mod stakes;

pub use beginning::{LegalPart, legal_part};
pub use fault::ReplayFault;
pub use hand_in_play::HandInPlay;
pub use replaying::replay;
