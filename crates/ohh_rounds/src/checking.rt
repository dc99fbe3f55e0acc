//! Checks the conditions of posts one after the other, each over all posts.
ghost use Rattle.std.specs.Prelude.{◌≡◌, List, map};
ghost use Rattle.ohh_rounds.specs.PostRules as conditions;
ghost use Rattle.ohh_rounds.specs.PostRules.{AreFacts, has_blinds, holds, left_of, posts_checked};
ghost use Rattle.ohh_rounds.specs.Posts.{AreFirst, PlainPost, ante_of, plain_post};
ghost use Rattle.ohh_rounds.specs.NamedBlinds.{plain_named_blinds};

use crate::antes::{all_post, ante_or_zero, greatest, lesser};
use crate::named_blinds::NamedBlinds;
use crate::post::{Post, PostFault, PostKind};
use crate::posts_so_far::PostsSoFar;
use chip_ledger::Seat;

/// A condition that each post of a hand meets.
#[derive(Clone, Copy, Debug, PartialEq, Eq)]
pub enum PostRule {
    /// It comes on the first street, before any move.
    Early,
    /// It is not a second small blind and not a second big blind.
    OneOfEachBlind,
    /// A blind is posted by the seat that it belongs to.
    BlindSeats,
    /// A blind has its named amount, or is all that the stack has left.
    BlindAmounts,
    /// A straddle is posted by a seat after the blinds, is of at least one chip and within the
    /// stack without the ante, and is the seat's first.
    Straddles,
    /// An ante is of at least one chip and within the stack, and is the seat's first.
    Antes,
    /// If every seat posts an ante, each is the greatest of them or the whole stack.
    EvenAntes,
}

/// What is known of all posts of a hand.
#[derive(Clone, Copy, Debug, PartialEq, Eq)]
pub struct PostFacts {
    pub table: NamedBlinds,
    pub firsts: PostsSoFar,
    /// Whether each seat posts an ante.
    pub all_post: bool,
    pub greatest_ante: u64,
}

impl PostFacts {
    // The stack of a seat without its ante.
    fn left(&self, seat: Seat) -> u64
        ensures { (posts : List PlainPost) → AreFacts posts self.now
            → result ≡ left_of (plain_named_blinds self.now.table) posts seat.number }
    {
        self.table.stack(seat).saturating_sub(self.ante(seat))
    }

    // The ante of a seat, or 0.
    fn ante(&self, seat: Seat) -> u64
        ensures { (posts : List PlainPost) → AreFacts posts self.now
            → result ≡ ante_of posts seat.number }
    {
        ante_or_zero(&self.firsts, seat)
    }
}

/// Checks the conditions of the posts of a hand, one after the other; for the first broken
/// condition it names the first post that breaks it.
#[tactic(auto, unfolding(crate::specs::PostRules::posts_checked))]
pub fn check_posts(table: &NamedBlinds, posts: &[Post]) -> Result<(), PostFault>
    ensures { result ≡ posts_checked (plain_named_blinds table.now) (map plain_post posts.now) }
{
    let facts = facts_of(table, posts);
    hold(PostRule::Early, &facts, posts)?;
    have_blinds(&facts.firsts)?;
    hold(PostRule::OneOfEachBlind, &facts, posts)?;
    hold(PostRule::BlindSeats, &facts, posts)?;
    hold(PostRule::BlindAmounts, &facts, posts)?;
    hold(PostRule::Straddles, &facts, posts)?;
    hold(PostRule::Antes, &facts, posts)?;
    hold(PostRule::EvenAntes, &facts, posts)
}

// What is known of all posts.
fn facts_of(table: &NamedBlinds, posts: &[Post]) -> PostFacts
    ensures facts { AreFacts (map plain_post posts.now) result }
    ensures table { result.table ≡ table.now }
{
    let firsts = PostsSoFar::of(posts);
    PostFacts {
        table: *table,
        firsts,
        all_post: all_post(table, &firsts),
        greatest_ante: greatest(table, &firsts),
    }
}

// Checks a condition for all posts, and names the first that breaks it.
fn hold(condition: PostRule, facts: &PostFacts, posts: &[Post]) -> Result<(), PostFault>
    requires { AreFacts (map plain_post posts.now) facts.now }
    ensures { result
        ≡ holds condition (plain_named_blinds facts.now.table) (map plain_post posts.now) }
{
    let mut before = PostsSoFar::none();
    for post in posts {
        if breaks_rule(condition, facts, &before, post) {
            return Err(PostFault::At(post.place));
        }
        before.note(post);
    }
    Ok(())
}

// Whether a post breaks a condition, after these posts.
#[tactic(auto, unfolding(crate::specs::PostRules::is_breaking))]
fn breaks_rule(condition: PostRule, facts: &PostFacts, before: &PostsSoFar, post: &Post) -> bool
    ensures { (posts earlier : List PlainPost) → AreFacts posts facts.now
        → AreFirst earlier before.now
        → result
        ≡ conditions.is_breaking condition (plain_named_blinds facts.now.table) posts earlier
        (plain_post post.now) }
{
    match condition {
        PostRule::Early => !post.early,
        PostRule::OneOfEachBlind => breaks_blind_count_rule(before, post),
        PostRule::BlindSeats => breaks_blind_seat_rule(&facts.table, post),
        PostRule::BlindAmounts => breaks_blind_amount_rule(facts, post),
        PostRule::Straddles => breaks_straddle_rule(facts, before, post),
        PostRule::Antes => breaks_ante_rule(&facts.table, before, post),
        PostRule::EvenAntes => breaks_even_ante_rule(facts, post),
    }
}

// Whether a post is a second small blind or a second big blind.
fn breaks_blind_count_rule(before: &PostsSoFar, post: &Post) -> bool
    ensures { (earlier : List PlainPost) → AreFirst earlier before.now
        → result ≡ conditions.is_second_blind earlier (plain_post post.now) }
{
    match post.kind {
        PostKind::SmallBlind => before.small_blind,
        PostKind::BigBlind => before.big_blind,
        PostKind::Ante | PostKind::Straddle => false,
    }
}

// Whether a post is a blind that belongs to another seat.
fn breaks_blind_seat_rule(table: &NamedBlinds, post: &Post) -> bool
    ensures { result
        ≡ conditions.is_misplaced_blind (plain_named_blinds table.now) (plain_post post.now) }
{
    match post.kind {
        PostKind::SmallBlind => post.seat.number != table.small_blind_seat(),
        PostKind::BigBlind => post.seat.number != table.big_blind_seat(),
        PostKind::Ante | PostKind::Straddle => false,
    }
}

// Whether a post is a blind that is not the smaller of its named amount and the stack without the
// ante.
fn breaks_blind_amount_rule(facts: &PostFacts, post: &Post) -> bool
    ensures { (posts : List PlainPost) → AreFacts posts facts.now
        → result ≡ conditions.is_wrong_blind (plain_named_blinds facts.now.table) posts
        (plain_post post.now) }
{
    let left = facts.left(post.seat);
    match post.kind {
        PostKind::SmallBlind => post.amount.number != lesser(facts.table.small_blind, left),
        PostKind::BigBlind => post.amount.number != lesser(facts.table.big_blind, left),
        PostKind::Ante | PostKind::Straddle => false,
    }
}

// Whether a post is a straddle of a seat in the blinds, of no chips, a second one of its seat, or
// more than the stack has left.
fn breaks_straddle_rule(facts: &PostFacts, before: &PostsSoFar, post: &Post) -> bool
    ensures { (posts earlier : List PlainPost) → AreFacts posts facts.now
        → AreFirst earlier before.now
        → result ≡ conditions.is_wrong_straddle (plain_named_blinds facts.now.table) posts earlier
        (plain_post post.now) }
{
    let left = facts.left(post.seat);
    let again = before.straddle(post.seat).is_some();
    match post.kind {
        PostKind::Straddle => {
            let amount = post.amount.number;
            post.seat.number <= 2 || amount == 0 || again || amount > left
        }
        PostKind::Ante | PostKind::SmallBlind | PostKind::BigBlind => false,
    }
}

// Whether a post is an ante above the stack, of no chips, or a second one of its seat.
fn breaks_ante_rule(table: &NamedBlinds, before: &PostsSoFar, post: &Post) -> bool
    ensures { (earlier : List PlainPost) → AreFirst earlier before.now
        → result
        ≡ conditions.is_wrong_ante (plain_named_blinds table.now) earlier (plain_post post.now) }
{
    let stack = table.stack(post.seat);
    let again = before.ante(post.seat).is_some();
    match post.kind {
        PostKind::Ante => {
            let amount = post.amount.number;
            amount > stack || amount == 0 || again
        }
        PostKind::Straddle | PostKind::SmallBlind | PostKind::BigBlind => false,
    }
}

// Whether every seat posts an ante, and this one is not the smaller of the greatest ante and the
// stack.
fn breaks_even_ante_rule(facts: &PostFacts, post: &Post) -> bool
    ensures { (posts : List PlainPost) → AreFacts posts facts.now
        → result ≡ conditions.is_uneven_ante (plain_named_blinds facts.now.table) posts
        (plain_post post.now) }
{
    let whole = lesser(facts.greatest_ante, facts.table.stack(post.seat));
    match post.kind {
        PostKind::Ante => facts.all_post && post.amount.number != whole,
        PostKind::Straddle | PostKind::SmallBlind | PostKind::BigBlind => false,
    }
}

// Both blinds are posted.
fn have_blinds(firsts: &PostsSoFar) -> Result<(), PostFault>
    ensures { (posts : List PlainPost) → AreFirst posts firsts.now → result ≡ has_blinds posts }
{
    if firsts.small_blind && firsts.big_blind {
        Ok(())
    } else {
        Err(PostFault::MissingBlind)
    }
}
