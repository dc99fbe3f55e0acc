//! Reads a log as the hands that it says under a game, or names its first fault.
#![tactic(auto)]

mod begins;
mod betting;
mod cards;
mod cutting;
mod fields;
mod letters;
mod log;
mod names;
mod parts;
mod pending;
mod record;
mod script;
mod setup;
mod step;
mod values;

pub use begins::find_hand_lines;
pub use log::read;
