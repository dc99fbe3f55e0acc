//! The Poker Hand History format: reads bytes as records, and writes plays as bytes that read as
//! their document, and so as the same hands.
#![tactic(auto)]

mod document;
mod laws;
mod members;
mod notes;
mod played;
mod setup;
mod spelled;

pub use document::write;
pub use laws::{law_of_reading_again, law_of_reading_back, law_of_sharpness};
pub use phh_reading::{PhhFault, read};
pub use spelled::spells;
