//! The betting before the first card: what is posted.
ghost use Rattle.std.specs.Prelude.{◌≡◌, ◌≤◌, ◌<◌, ◌+◌, ℕ, [], nat_le, if◌then◌else◌, cond};
ghost use Rattle.chip_ledger.specs.declared.seat_row.TheConstants.{MOST_AMOUNT};
ghost use Rattle.chip_ledger.specs.SeatRow.{amount_of};
ghost use Rattle.play_event.specs.declared.reason.Due.TheVariants as dues;
ghost use Rattle.play_event.specs.Streets.{unit};
ghost use Rattle.play_event.specs.ValidSetup.{IsValid};
ghost use Rattle.betting_numbers.specs.Posting.{HasPosted, IsPostable};
ghost use Rattle.betting_numbers.specs.Standing.{StandsFor};

use crate::betting_state::BettingState;
use crate::caps::caps_fit;
use crate::opening::first_opener;
use chip_ledger::{LiveRow, Seat, SeatRow};
use play_event::{Due, Rules, Setup};

/// What the seats so far post before the first card.
#[derive(Clone, Copy)]
pub struct Posted {
    /// The blinds as far as the stacks go.
    pub bets: SeatRow,
    /// The antes and those blinds together.
    pub puts: SeatRow,
    /// The seats so far.
    pub live: LiveRow,
    /// The chips of all seats so far.
    pub pot: u64,
    /// The greatest of the posted blinds.
    pub current_bet: u64,
    /// The number of seats with chips left.
    pub able_count: u8,
    /// The greatest blind of the setup.
    pub big_blind: u64,
    /// The number of the last seat with that blind, or 0.
    pub last_big: u8,
}

/// The numbers before the first card; `size` is the bet size of the first street.
pub fn start(setup: &Setup, rules: &Rules, size: u64) -> BettingState
    requires valid { IsValid setup.now }
    requires antes { setup.now.antes.seats ≡ setup.now.stacks.seats }
    requires blinds { setup.now.blinds.seats ≡ setup.now.stacks.seats }
    requires least { setup.now.min_bet ≤ MOST_AMOUNT }
    requires reach { (n : ℕ) → amount_of setup.now.antes n ≤ amount_of setup.now.stacks n }
    requires size { size ≡ unit setup.now 1 }
    ensures stands { StandsFor result [] }
    ensures setup { result.setup ≡ setup.now }
    ensures rules { result.rules ≡ rules.now }
    ensures street { result.street ≡ 1 }
    ensures due { result.due ≡ dues.Deal 1 }
{
    caps_fit(rules);
    let seats = setup.stacks.seats;
    let mut posted = Posted::nothing(setup);
    for index in 0..seats {
        posted.post(setup, index);
    }
    BettingState {
        setup: *setup,
        rules: *rules,
        blind_bet: posted.current_bet,
        first_opener: first_opener(setup, posted.last_big),
        street: 1,
        due: Due::Deal(1),
        puts: posted.puts,
        pot: posted.pot,
        bets: posted.bets,
        current_bet: posted.current_bet,
        live: posted.live,
        live_count: seats,
        able_count: posted.able_count,
        moved: LiveRow::new(seats),
        acted_since_raise: LiveRow::new(seats),
        last: None,
        next: None,
        raises: 0,
        full_raise: setup.min_bet,
        full_bet: full_bet(posted.current_bet, size),
        always_floor: 0,
        bet_or_bring_in_made: false,
    }
}

impl Posted {
    // No seat has posted.
    fn nothing(setup: &Setup) -> Self
        ensures { HasPosted setup.now 0 result }
    {
        Posted {
            bets: SeatRow::new(setup.stacks.seats),
            puts: SeatRow::new(setup.stacks.seats),
            live: LiveRow::new(setup.stacks.seats),
            pot: 0,
            current_bet: 0,
            able_count: 0,
            big_blind: 0,
            last_big: 0,
        }
    }

    // One more seat posts, after the first `index`.
    fn post(&mut self, setup: &Setup, index: u8)
        requires posts { IsPostable setup.now }
        requires less { index < setup.now.stacks.seats }
        requires posted { HasPosted setup.now index self.old }
        ensures { HasPosted setup.now (index + 1) self.new }
    {
        let seat = Seat { number: index + 1 };
        let stack = setup.stacks.get(seat);
        let ante = setup.antes.get(seat);
        let blind = setup.blinds.get(seat);
        let bet = blind.min(stack.saturating_sub(ante));
        let put = ante + bet;
        self.bets.set(seat, bet);
        self.puts.set(seat, put);
        self.live.set(seat, true);
        self.pot += put;
        self.current_bet = self.current_bet.max(bet);
        self.able_count = one_more(self.able_count, put < stack);
        self.big_blind = self.big_blind.max(blind);
        self.last_big = last_after(self.last_big, blind == self.big_blind, seat.number);
    }
}

// Increments the count if the seat counts.
fn one_more(count: u8, counts: bool) -> u8
    requires { count < 255 }
    ensures value { result ≡ count + cond counts 1 0 }
    ensures within { result ≤ count + 1 }
{
    if counts { count + 1 } else { count }
}

// The number of the last seat with the greatest blind, after one more seat.
fn last_after(last: u8, big: bool, number: u8) -> u8
    requires { last ≤ number }
    ensures value { result ≡ cond big number last }
    ensures within { result ≤ number }
{
    if big { number } else { last }
}

// The full bet at the start of the first street, given the current bet and the bet size.
fn full_bet(current_bet: u64, size: u64) -> u64
    ensures { result ≡ (if nat_le size current_bet then current_bet else 0) }
{
    if size <= current_bet { current_bet } else { 0 }
}
