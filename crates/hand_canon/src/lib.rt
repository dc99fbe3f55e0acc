//! What a hand is after reading and replaying: its record with stated facts and notes, its trace,
//! the canonical script of a trace, and the first stated fact that differs from a trace.
#![tactic(auto)]

mod agreement;
mod calendar;
mod canonical;
mod fact_texts;
mod folds;
mod gathered;
mod moves;
mod notes;
mod numbered;
mod places;
mod record;
mod sizes;
mod sound_plays;
mod streets;
mod texts;
mod trace;
mod writing;

pub use agreement::{FactDiffers, Which, check_stated, pot_total};
pub use calendar::has_day;
pub use canonical::{canon, named_move};
pub use first_fault::{Quantity, Text};
pub use folds::folds_before;
pub use gathered::{board_with_street, held_by_seats};
pub use moves::Moves;
pub use notes::{
    CivilDate, Clock, Moment, NoteName, Notes, TextNotes, name_of, omit_default_seats,
};
pub use places::Places;
pub use record::{NetRow, Record, Records, Stated};
pub use sizes::Sizes;
pub use sound_plays::{SoundPlay, SoundPlays};
pub use texts::{keep_short, keep_text};
pub use trace::{Play, Trace};
pub use writing::{Keep, Unspelled, WriteRefusal};
