//! Logs of the computer poker competition: reads bytes as records under a game, and writes plays as
//! lines that read back as their hands.
#![tactic(auto)]

mod amounts;
mod betting;
mod cards;
mod fits;
mod game_files;
mod laws;
mod line;
mod log;
mod names;
mod notes;
mod odd;
mod played;
mod puts;
mod spelled;
mod values;

pub use acpc_game::{AcpcFault, Game, read_game, write_game};
pub use acpc_reading::read;
pub use betting::push_betting;
pub use cards::{has_unknown, is_board_dealt, is_dealt, push_cards};
pub use fits::game_of;
pub use game_files::law_of_game_files;
pub use laws::{law_of_one_setup, law_of_reading_again, law_of_reading_back, law_of_sharpness};
pub use line::push_line;
pub use log::write;
pub use names::{can_write_hand_number, push_hand};
pub use puts::{add, posted_chips};
pub use spelled::spells;
