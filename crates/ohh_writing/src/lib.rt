//! Writes plays as Open Hand History, one line of JSON per play, or names the first play that the
//! format cannot write.
#![tactic(auto)]

mod action;
mod cards;
mod games;
mod hand;
mod laws;
mod lines;
mod members;
mod moment;
mod moves;
mod players;
mod posts;
mod pots;
mod rounds;
mod seating;
mod setup;
mod shows;
mod spelled;
mod tidy_trace;
mod trees;

pub use laws::law_of_lines;
pub use lines::{push_line, write};
pub use spelled::spells;
