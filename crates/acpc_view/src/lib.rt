//! The MATCHSTATE lines that one seat of a match receives of a hand: before each move and after the
//! last.
#![tactic(auto)]

mod counting;
mod laws;
mod seeing;
mod viewing;

pub use counting::views_len;
pub use laws::{law_of_begun_boards, law_of_unknown_cards};
pub use viewing::views;
