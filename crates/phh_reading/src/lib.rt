//! Bytes in the Poker Hand History format are read, one table at a time and field by field, as the
//! records that they say, or refused with their first fault.
#![tactic(auto)]

mod by_table;
pub mod date;
pub mod events;
pub mod fault;
pub mod field_fault;
mod file;
mod hand;
pub mod labels;
mod laws;
pub mod notes;
mod order;
mod parsing;
pub mod player_values;
mod reading;
pub mod rows;
pub mod seating;
mod sections;
pub mod setup;
pub mod sizes;
mod table;
pub mod texts;
pub mod values;

pub use fault::PhhFault;
pub use laws::{law_of_tables, law_of_worked_documents};
pub use parsing::document;
pub use reading::read;
pub use table::{LONGEST_TABLE, first_line, first_table};
