//! An order of hands gives each hand a score, and a holding the highest score of the choices that
//! it allows.
#![tactic(auto)]

mod best;
mod high;
mod ladder;
mod levels;
mod lowest;
mod mask;
mod order;
mod pattern;
mod ranks;
mod row;
mod straights;

pub use best::{Scorer, best_choice, best_listed, best_of, better_score};
pub use card_set::Pick;
pub use high::{best_high, hand_points};
pub use ladder::FlushRank;
pub use lowest::lowest_ranks;
pub use mask::{clear, top};
pub use order::{HandOrder, Score};
pub use ranks::{Ace, all_heights, count_of_ranks, height_of, make_points, ranks_of, times_of};
pub use row::RankRow;
pub use straights::LowStraight;
