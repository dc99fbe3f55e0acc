//! The eleven games as types: each has the table of its code, and one function that is generic over
//! `Variant` plays them all.
#![tactic(auto)]

mod by_code;
mod deck;
mod draw;
mod holdem;
mod omaha;
mod street;
mod stud;
mod table;
mod valid;
mod variant;

pub use draw::{F2L3D, FB, N2L1D};
pub use holdem::{FT, NS, NT};
pub use omaha::{FO8, PO};
pub use play_event::{Code, Limit, Opener, Size, Street};
pub use stud::{F7S, F7S8, FR};
pub use table::{GameTable, table_of};
pub use valid::is_valid;
pub use variant::Variant;
