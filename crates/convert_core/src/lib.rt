//! Judges and converts hands: reads bytes of any notation as plays, or names the first refused hand
//! and the reason; and writes plays in any other notation, or names the first fact that it cannot
//! express.
#![tactic(auto)]

mod acpc;
mod convert_fault;
mod converting;
mod format;
mod format_fault;
mod judged_play;
mod judging;
mod laws;
mod lines;
mod notation;
mod ohh;
mod phh;
mod refusal;
mod retained_plays;
mod sound_records;
mod taking;
mod visitor;

pub use acpc::Acpc;
pub use convert_fault::ConvertFault;
pub use converting::{convert, plays, read_records};
pub use format::Format;
pub use format_fault::FormatFault;
pub use judged_play::{HandIndex, JudgedPlay};
pub use laws::{
    law_of_converting_again, law_of_converting_by_way, law_of_equal_outputs, law_of_kept_notes,
    law_of_legal_conversions, law_of_one_conversion, law_of_one_outcome, law_of_sharpness,
    law_of_verdicts,
};
pub use notation::Notation;
pub use ohh::Ohh;
pub use phh::Phh;
pub use refusal::{PlaysFault, Refusal};
pub use retained_plays::plays_of;
pub use sound_records::{SoundRecord, SoundRecords};
pub use taking::judge_all;
pub use visitor::VerdictVisitor;
