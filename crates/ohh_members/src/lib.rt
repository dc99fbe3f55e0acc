//! The faults of a hand in Open Hand History, the forms of its members, and what comes before its
//! rounds.
#![tactic(auto)]

pub mod blinds;
pub mod dialect;
pub mod fault;
pub mod game;
pub mod header;
pub mod player;
pub mod player_ids;
pub mod players;
pub mod rows;
pub mod seated;
pub mod seating;
pub mod street;
pub mod values;
pub mod words;

pub use dialect::Dialect;
