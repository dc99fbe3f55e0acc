//! Makes hands from a number: the same hands from the same number, each of them legal.
#![tactic(auto)]

mod coming;
mod counting;
mod dealing;
mod draws;
mod hand;
mod hand_source;
mod laws;
mod loading;
mod making;
mod moving;
mod setups;
mod summary;

pub use laws::law_of_progress;
pub use loading::{load, write_summary};
pub use making::{GeneratedHand, make, make_play};
pub use summary::Summary;
