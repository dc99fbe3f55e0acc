//! The running numbers of the betting, what the rules say by them, and whose up-cards open a street
//! before another's.
#![tactic(auto)]

mod betting_state;
mod caps;
mod comparing;
mod counting;
mod heights;
mod legal_moves;
mod looking;
mod moving;
mod opening;
mod raising;
mod starting;
mod targeting;
mod tracing;
mod turns;
mod up_opening;
mod viewing;

pub use betting_state::BettingState;
pub use comparing::{is_opener_before, opens_as_early};
pub use legal_moves::{LegalMove, Turn};
pub use starting::start;
pub use targeting::Targets;
pub use up_opening::ToAct;
