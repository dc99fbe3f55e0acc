//! Deals, discards, shows and mucks the cards of a hand if and only if the rules of its game allow
//! it.
#![tactic(auto)]

mod cards;
mod laws;

pub use cards::Cards;
pub use laws::moves_leave_cards;
