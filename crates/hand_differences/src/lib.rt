//! Finds whether two plays are the same hand, or names their first difference: in what is set
//! before the first card, in moves, in cards, in who is shown, or in notes.
#![tactic(auto)]

mod comparing;
mod difference;
mod laws;
mod lists;
mod notes;
mod rows;
mod setups;
mod telling;

pub use comparing::first_difference;
pub use difference::Difference;
pub use laws::{
    law_of_beginnings, law_of_entries, law_of_first_numbers, law_of_same_hands, law_of_what_follows,
};
pub use telling::write_difference;
