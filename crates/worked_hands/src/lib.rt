//! Hands that are written out, with what the definitions give for each: what is legal, its whole
//! trace, its canonical script, its notes and stated facts, and the first difference between two
//! plays.
#![tactic(auto)]

mod boards;
mod cards;
mod difference_texts;
mod draw_hands;
mod ends;
mod facts;
mod folds;
mod matches;
mod note_differences;
mod notes;
mod openers;
mod raises;
mod setup_differences;
mod setups;
mod sound;
mod trace_differences;
mod traced_events;
mod traces;

pub use boards::{holdem_hands, omaha_hands, stud_hands};
pub use cards::{deals, draws};
pub use difference_texts::printed_differences;
pub use draw_hands::{badugi_hands, draws_past_the_deck, folded_draws, single_draws};
pub use ends::{last_seats, showdowns, shows_before_the_end};
pub use facts::{agreeing_facts, differing_facts};
pub use folds::{deep_stacks_won_by_folds, hands_won_by_folds};
pub use matches::{capped_hands, reopened_hands, short_deck_hands};
pub use note_differences::{differing_notes, notes_that_are_no_other};
pub use notes::{dates, players, texts, times};
pub use openers::{bring_ins, later_streets};
pub use raises::{
    folds_and_calls, raises_in_fixed_limit, raises_in_no_limit, raises_in_pot_limit,
    reopened_betting,
};
pub use setup_differences::differing_setups;
pub use setups::{invalid_setups, valid_setups_in_fixed_limit, valid_setups_in_no_limit};
pub use sound::{sound_plays, unsound_plays};
pub use trace_differences::differing_traces;
pub use traced_events::{shown_and_mucked, traced_bets, traced_cards};
pub use traces::{
    traces_of_folds, traces_of_holdem, traces_of_omaha_and_stud, traces_of_showdowns,
    traces_of_single_draws, traces_of_triple_draws,
};
