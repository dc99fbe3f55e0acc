//! Laws of legal play: what is due, street by street; what a legal script keeps; and where a
//! contested hand ends.
#![tactic(auto)]

mod laws;
mod showdown_laws;
mod spellings;

pub use laws::{law_of_legal_pasts, law_of_legal_places, law_of_legal_scripts};
pub use showdown_laws::{law_of_cards_dealt_once, law_of_different_cards, law_of_whole_hands};
pub use spellings::{law_of_actors, law_of_equal_targets, law_of_full_spellings};
