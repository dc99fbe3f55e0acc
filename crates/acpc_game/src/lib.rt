//! A game file is read as the one game that it says, or its first fault is named; a game is written
//! in one spelling. Logs share its lines, their parts, and faults with their line and byte.
#![tactic(auto)]

mod entry;
mod fault;
mod form;
mod found;
mod game;
mod key;
mod key_line;
mod laws;
mod letters;
mod lines;
mod parts;
mod player_amounts;
mod reading;
mod supported;
mod writing;

pub use fault::{AcpcFault, LineFault, LineFaultKind, to_file_fault};
pub use game::Game;
pub use laws::{law_of_reading_again, law_of_spellings};
pub use letters::{cut_digits, cut_first};
pub use parts::{count_parts, cut_at, has_prefix, next_line};
pub use reading::read_game;
pub use supported::{greatest, has_unplayable_stack};
pub use writing::write_game;
