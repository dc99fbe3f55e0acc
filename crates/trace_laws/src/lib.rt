//! The laws of whole traces: a past has at most one, its pots and returns are what was put in, and
//! only unbeaten shown hands win contested pots.
#![tactic(auto)]

mod conservation;
mod laws;

pub use conservation::{law_of_finishing_stacks, law_of_pots_and_returns, law_of_winners};
pub use laws::{law_of_canonical_hands, law_of_one_trace, law_of_places};
