//! Reads bytes in Open Hand History as records, or refuses them with their first fault.
#![tactic(auto)]

mod begins;
mod blocks;
pub mod fault;
mod file;
mod hand;
pub mod labels;
pub mod listed_pot;
pub mod listed_pots;
pub mod moment;
pub mod notes;
mod parts;
mod play;
pub mod pots;
mod reading;
mod record;
mod sizes;
pub mod stated;
pub mod texts;
pub mod won;

pub use begins::find_block_lines;
pub use fault::OhhFault;
pub use reading::read;
