//! The place of each dealt card of a hand, changed by deals, discards, shows, mucks and folds as
//! the rules say.
#![tactic(auto)]

mod card_state;
mod completing;
mod counting;
mod deal_table;
mod dealing;
mod dealt_card;
mod dealt_cards;
mod discarding;
mod draws;
mod finding;
mod folding;
mod misplacing;
mod names;
mod naming;
mod ordering;
mod owing;
mod planning;
mod search;
mod showing;
mod starting;
mod taken;
mod viewing;

pub use card_state::CardState;
pub use deal_table::DealTable;
pub use dealt_card::DealtCard;
pub use dealt_cards::{DealtCards, MOST_CARDS};
pub use draws::Draws;
pub use names::slots;
pub use owing::NextDeal;
pub use planning::street_due;
