//! The text of hands: what each player finishes with, how each hand went, step by step, and a
//! report on all of them, by games and by names; and the columns of such texts.
#![tactic(auto)]

mod amounts;
mod check;
mod chips;
mod columns;
mod ending;
mod games;
mod index;
mod lines;
mod names;
mod report;
mod steps;
mod tally;

pub use check::{push_check_end, push_check_line};
pub use columns::{push_left, push_number, push_right, push_signed};
pub use index::NameIndex;
pub use report::{OpenReport, report_text};
pub use steps::{push_begun_lines, push_replay_lines, push_whole_lines};
