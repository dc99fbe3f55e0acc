//! The rounds of a hand in Open Hand History are read in their order: the posts are checked and
//! give the antes and the blinds, and the events of the script are given; or the first fault is
//! named, with the path of its member.
#![tactic(auto)]

mod actions;
mod antes;
mod antes_and_blinds;
mod cards;
mod checking;
mod hand_context;
mod named_blinds;
mod play;
mod post;
mod posts_so_far;
mod rounds;
mod rounds_so_far;
mod seat_so_far;
mod step;
mod street;

pub use antes_and_blinds::AntesAndBlinds;
pub use checking::check_posts;
pub use hand_context::HandContext;
pub use named_blinds::NamedBlinds;
pub use play::{RoundsPlay, read_rounds};
pub use post::{ActionLocation, Post, PostFault, PostKind};
