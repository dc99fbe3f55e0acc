//! The low orders: eight-or-better, razz, deuce-to-seven, and the low order of up-cards.
#![tactic(auto)]

mod deuce;
mod eight;
mod low;
mod orders;
mod razz;

pub use deuce::DeuceSeven;
pub use low::up_low;
pub use orders::{EightLow, RazzLow};
