//! Keeps the first ante and the first straddle of each seat, and whether the blinds are posted.
ghost use Rattle.std.specs.Prelude.{◌≡◌, Some, length};
ghost use Rattle.std.specs.Option.{option_or};

use crate::post::{Post, PostKind};
use chip_ledger::{Chips, Seat};

/// What was posted so far.
#[derive(Clone, Copy, Debug, PartialEq, Eq)]
pub struct PostsSoFar {
    /// The first ante of each seat, the first seat's at index 0.
    pub antes: [Option<Chips>; 10],
    /// The first straddle of each seat.
    pub straddles: [Option<Chips>; 10],
    /// Whether a small blind is posted.
    pub small_blind: bool,
    /// Whether a big blind is posted.
    pub big_blind: bool,
    pub ghost ten_antes: { length antes ≡ 10 },
    pub ghost ten_straddles: { length straddles ≡ 10 },
}

impl PostsSoFar {
    ghost use Rattle.std.specs.Prelude.{◌∷◌, ◌++◌, [], List, map, option_map};
    ghost use Rattle.ohh_rounds.specs.Posts.{AreFirst, PlainPost, first_ante, first_straddle, plain_post};

    /// The first ante of a seat, if it posted one.
    pub fn ante(&self, seat: Seat) -> Option<Chips>
        ensures { (posts : List PlainPost) → AreFirst posts self.now
            → option_map (λ chips. chips.number) result ≡ first_ante seat.number posts }
    {
        self.antes[seat.number as usize - 1]
    }

    /// The first straddle of a seat, if it posted one.
    pub fn straddle(&self, seat: Seat) -> Option<Chips>
        ensures { (posts : List PlainPost) → AreFirst posts self.now
            → option_map (λ chips. chips.number) result ≡ first_straddle seat.number posts }
    {
        self.straddles[seat.number as usize - 1]
    }

    /// The first posts of each seat in this list.
    pub fn of(posts: &[Post]) -> Self
        ensures { AreFirst (map plain_post posts.now) result }
    {
        let mut firsts = PostsSoFar::none();
        for post in posts {
            firsts.note(post);
        }
        firsts
    }

    /// Nothing is posted yet.
    pub fn none() -> Self
        ensures { AreFirst [] result }
    {
        PostsSoFar {
            antes: [None; 10],
            straddles: [None; 10],
            small_blind: false,
            big_blind: false,
        }
    }

    /// Takes one more post.
    pub fn note(&mut self, post: &Post)
        ensures { (posts : List PlainPost) → AreFirst posts self.old
            → AreFirst (posts ++ plain_post post.now ∷ []) self.new }
    {
        let index = post.seat.number as usize - 1;
        match post.kind {
            PostKind::Ante => self.antes[index] = first_of(self.antes[index], post.amount),
            PostKind::Straddle => {
                self.straddles[index] = first_of(self.straddles[index], post.amount);
            }
            PostKind::SmallBlind => self.small_blind = true,
            PostKind::BigBlind => self.big_blind = true,
        }
    }
}

// The chips of the first post; these chips, if there was none before.
fn first_of(first: Option<Chips>, chips: Chips) -> Option<Chips>
    ensures { result ≡ option_or first (Some chips) }
{
    match first {
        Some(first) => Some(first),
        None => Some(chips),
    }
}
