//! The antes and the blinds of a hand, from its posts.
ghost use Rattle.std.specs.Prelude.{◌≡◌, ◌≤◌, ◌&&◌, ℕ, List, map, not};
ghost use Rattle.chip_ledger.specs.declared.numbers.TheConstants.{MOST_CHIPS};
ghost use Rattle.chip_ledger.specs.SeatRow.{amount_of};
ghost use Rattle.ohh_rounds.specs.PostRules.{has_all_antes};
ghost use Rattle.ohh_rounds.specs.Posts.{AreFirst, PlainPost, plain_post};
ghost use Rattle.ohh_rounds.specs.AntesAndBlinds.{AreAntesAndBlindsFor, antes_and_blinds_said, has_amount, held_ante, named_blind, plain_antes_and_blinds};
ghost use Rattle.ohh_rounds.specs.NamedBlinds.{plain_named_blinds};

use crate::antes::{all_post, ante_or_zero, lesser};
use crate::named_blinds::NamedBlinds;
use crate::post::Post;
use crate::posts_so_far::PostsSoFar;
use chip_ledger::{Seat, SeatRow};

/// The antes and blinds of a hand, in chips.
#[derive(Clone, Copy, Debug, PartialEq, Eq)]
pub struct AntesAndBlinds {
    /// The antes, each no more than its stack.
    pub antes: SeatRow,
    /// Whether the antes are dead, that is, no part of any seat's bets: some seats post one, but
    /// not all.
    pub dead_antes: bool,
    /// The blinds and straddles as they are named, even if a stack is smaller.
    pub blinds: SeatRow,
}

impl AntesAndBlinds {
    /// The antes and blinds that posts give.
    #[tactic(auto, unfolding(crate::specs::AntesAndBlinds::antes_and_blinds_said))]
    pub fn of(table: &NamedBlinds, posts: &[Post]) -> Self
        ensures said { plain_antes_and_blinds result
            ≡ antes_and_blinds_said (plain_named_blinds table.now) (map plain_post posts.now) }
        ensures fit { AreAntesAndBlindsFor table.now.stacks result }
    {
        let firsts = PostsSoFar::of(posts);
        let antes = antes_of(table, &firsts);
        AntesAndBlinds {
            antes,
            dead_antes: has_dead_antes(table, &firsts, &antes),
            blinds: blinds_of(table, &firsts),
        }
    }
}

// The antes of all seats.
fn antes_of(table: &NamedBlinds, firsts: &PostsSoFar) -> SeatRow
    ensures seats { result.seats ≡ table.now.stacks.seats }
    ensures antes { (posts : List PlainPost) → AreFirst posts firsts.now → (seat : ℕ) → 1 ≤ seat
        → seat ≤ table.now.stacks.seats
        → amount_of result seat ≡ held_ante (plain_named_blinds table.now) posts seat }
    ensures most { (seat : ℕ) → amount_of result seat ≤ amount_of table.now.stacks seat }
{
    let mut row = SeatRow::new(table.stacks.seats);
    for index in 0..table.stacks.seats {
        let seat = Seat { number: index + 1 };
        row.set(seat, held(table, firsts, seat));
    }
    row
}

// The ante of a seat: the smaller of what it posts and its stack.
fn held(table: &NamedBlinds, firsts: &PostsSoFar, seat: Seat) -> u64
    ensures ante { (posts : List PlainPost) → AreFirst posts firsts.now
        → result ≡ held_ante (plain_named_blinds table.now) posts seat.number }
    ensures most { result ≤ amount_of table.now.stacks seat.number }
{
    lesser(ante_or_zero(firsts, seat), table.stack(seat))
}

// The blinds of all seats.
fn blinds_of(table: &NamedBlinds, firsts: &PostsSoFar) -> SeatRow
    ensures seats { result.seats ≡ table.now.stacks.seats }
    ensures blinds { (posts : List PlainPost) → AreFirst posts firsts.now → (seat : ℕ) → 1 ≤ seat
        → seat ≤ table.now.stacks.seats
        → amount_of result seat ≡ named_blind (plain_named_blinds table.now) posts seat }
    ensures most { (seat : ℕ) → amount_of result seat ≤ MOST_CHIPS }
{
    let mut row = SeatRow::new(table.stacks.seats);
    for index in 0..table.stacks.seats {
        let seat = Seat { number: index + 1 };
        row.set(seat, named(table, firsts, seat));
    }
    row
}

// The blind of a seat as it is named: one of the two blinds, or a straddle, or 0.
fn named(table: &NamedBlinds, firsts: &PostsSoFar, seat: Seat) -> u64
    ensures blind { (posts : List PlainPost) → AreFirst posts firsts.now
        → result ≡ named_blind (plain_named_blinds table.now) posts seat.number }
    ensures most { result ≤ MOST_CHIPS }
{
    if seat.number == table.small_blind_seat() {
        return table.small_blind;
    }
    if seat.number == table.big_blind_seat() {
        return table.big_blind;
    }
    match firsts.straddle(seat) {
        Some(straddle) => straddle.number,
        None => 0,
    }
}

// Whether some seats post an ante, but not all.
fn has_dead_antes(table: &NamedBlinds, firsts: &PostsSoFar, antes: &SeatRow) -> bool
    requires { antes.now.seats ≡ table.now.stacks.seats }
    ensures { (posts : List PlainPost) → AreFirst posts firsts.now
        → result
        ≡ (has_amount antes.now && not (has_all_antes (plain_named_blinds table.now) posts)) }
{
    has_some(antes) && !all_post(table, firsts)
}

// Whether some seat of a row has an amount above 0.
fn has_some(row: &SeatRow) -> bool
    ensures { result ≡ has_amount row.now }
{
    for index in 0..row.seats {
        if row.amounts[index as usize] > 0 {
            return true;
        }
    }
    false
}
