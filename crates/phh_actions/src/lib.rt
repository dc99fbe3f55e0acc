//! Reads an action of the Poker Hand History format as its event, and writes an event in words that
//! read back as that event.
#![tactic(auto)]

mod fault;
mod parts;
mod reading;
mod words;
mod writing;

pub use fault::ActionFault;
pub use reading::read_action;
pub use writing::{law_of_words, write_event};
