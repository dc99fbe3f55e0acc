//! The antes of all seats, from the first ante that each posts.
ghost use Rattle.std.specs.Prelude.{◌≡◌, List, min};
ghost use Rattle.ohh_rounds.specs.PostRules.{greatest_ante, has_all_antes};
ghost use Rattle.ohh_rounds.specs.Posts.{AreFirst, PlainPost, ante_of};
ghost use Rattle.ohh_rounds.specs.NamedBlinds.{plain_named_blinds};

use crate::named_blinds::NamedBlinds;
use crate::posts_so_far::PostsSoFar;
use chip_ledger::Seat;

/// Whether every seat posts an ante.
pub fn all_post(table: &NamedBlinds, firsts: &PostsSoFar) -> bool
    ensures { (posts : List PlainPost) → AreFirst posts firsts.now
        → result ≡ has_all_antes (plain_named_blinds table.now) posts }
{
    for index in 0..table.stacks.seats {
        if firsts.ante(Seat { number: index + 1 }).is_none() {
            return false;
        }
    }
    true
}

/// The greatest ante of a seat.
pub fn greatest(table: &NamedBlinds, firsts: &PostsSoFar) -> u64
    ensures { (posts : List PlainPost) → AreFirst posts firsts.now
        → result ≡ greatest_ante (plain_named_blinds table.now) posts }
{
    let mut greatest = 0;
    for index in 0..table.stacks.seats {
        let ante = ante_or_zero(firsts, Seat { number: index + 1 });
        if ante > greatest {
            greatest = ante;
        }
    }
    greatest
}

/// The first ante of a seat, or 0 if it has none.
pub fn ante_or_zero(firsts: &PostsSoFar, seat: Seat) -> u64
    ensures { (posts : List PlainPost) → AreFirst posts firsts.now
        → result ≡ ante_of posts seat.number }
{
    match firsts.ante(seat) {
        Some(ante) => ante.number,
        None => 0,
    }
}

/// The smaller of two numbers of chips.
pub fn lesser(first: u64, second: u64) -> u64
    ensures { result ≡ min first second }
{
    if first < second { first } else { second }
}
