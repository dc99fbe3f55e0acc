//! Open Hand History, in both dialects: reads bytes as records, and writes plays as lines that read
//! back as the same hands.
#![tactic(auto)]

mod laws;

pub use laws::{law_of_reading_again, law_of_reading_back, law_of_sharpness};
pub use ohh_members::Dialect;
pub use ohh_reading::{OhhFault, read};
pub use ohh_writing::{push_line, spells, write};
