//! The running numbers of the betting: what each seat has put, who is live, and what the moves of
//! the street have changed.
ghost use Rattle.std.specs.Prelude.{◌≡◌, ◌≤◌, ◌-◌, ◌*◌, ℕ, ◌&&◌, nat_lt, map, count_by, Some};
ghost use Rattle.chip_ledger.specs.declared.numbers.Seat.{Seat};
ghost use Rattle.betting_numbers.specs.Caps.{cap_at};
ghost use Rattle.chip_ledger.specs.declared.seat_row.TheConstants.{MOST_AMOUNT};
ghost use Rattle.chip_ledger.specs.Greatest.{greatest};
ghost use Rattle.chip_ledger.specs.LiveRow.{flag_of};
ghost use Rattle.chip_ledger.specs.Seat.{seats_of};
ghost use Rattle.chip_ledger.specs.SeatRow.{amount_of, total_of};
ghost use Rattle.play_event.specs.Openers.{blinds_opener};
ghost use Rattle.play_event.specs.CurrentBet.{starting_bet};

use chip_ledger::{LiveRow, Seat, SeatRow};
use play_event::{Due, Rules, Setup};

/// The betting at one moment: a few rows and numbers, which each move updates, in place of the
/// moves themselves. Numbers that would otherwise be recounted over all seats are kept: the pot,
/// the current bet, how many seats are live and can act, and the player to act. What a seat owes
/// and whether it can act are read from the rows.
///
/// The fields are public because the contracts of the machine name them. The facts below them keep
/// sums from overflowing and seats within the hand, and keep each number equal to what it counts,
/// whatever is done with them.
#[derive(Clone, Copy, Debug, PartialEq, Eq)]
pub struct BettingState {
    /// What was set before the first card.
    pub setup: Setup,
    pub rules: Rules,
    /// The current bet before the first move of the hand.
    pub blind_bet: u64,
    /// Who opens the first street in a game with blinds.
    pub first_opener: Seat,
    /// The street, from 1.
    pub street: u8,
    /// What has to come next.
    pub due: Due,
    /// The chips that each seat has put in this hand, antes included.
    pub puts: SeatRow,
    /// The chips that all seats together have put in this hand.
    pub pot: u64,
    /// The chips that each seat has put on this street, without its ante.
    pub bets: SeatRow,
    /// The current bet of the street: the greatest of those chips.
    pub current_bet: u64,
    /// Which seats have not folded.
    pub live: LiveRow,
    /// The number of live seats.
    pub live_count: u8,
    /// The number of seats that can act: live, with chips left.
    pub able_count: u8,
    /// Which seats have moved on this street.
    pub moved: LiveRow,
    /// Which seats have moved since the current bet last rose.
    pub acted_since_raise: LiveRow,
    /// The seat that moved last on this street.
    pub last: Option<Seat>,
    /// If a move is due: the player to act, the first with a move to make from the opener in a game
    /// with blinds, or after the seat that moved last. Before the first move of a stud street the
    /// up-cards say whose turn it is, and not this.
    pub next: Option<Seat>,
    /// The number of raises on this street, up to the greatest u32.
    pub raises: u32,
    /// How far a full raise has to go above the current bet.
    pub full_raise: u64,
    /// The last full bet in fixed limit.
    pub full_bet: u64,
    /// The greatest, over the raises of the street, of twice the target minus the current bet
    /// before it: the least raise if a raise always reopens the betting.
    pub always_floor: u64,
    /// Whether a bring-in or a raise opened the betting of this street.
    pub bet_or_bring_in_made: bool,
    pub ghost blind_bet_is: { blind_bet ≡ starting_bet setup 1 },
    pub ghost blind_bet_bounded: { blind_bet ≤ MOST_AMOUNT },
    pub ghost first_opener_is: { first_opener.number ≡ blinds_opener setup 1 },
    pub ghost first_opener_in: { first_opener.number ≤ setup.stacks.seats },
    pub ghost from_one: { 1 ≤ street },
    pub ghost ante_seats: { setup.antes.seats ≡ setup.stacks.seats },
    pub ghost blind_seats: { setup.blinds.seats ≡ setup.stacks.seats },
    pub ghost put_seats: { puts.seats ≡ setup.stacks.seats },
    pub ghost bet_seats: { bets.seats ≡ setup.stacks.seats },
    pub ghost live_seats: { live.seats ≡ setup.stacks.seats },
    pub ghost moved_seats: { moved.seats ≡ setup.stacks.seats },
    pub ghost since_seats: { acted_since_raise.seats ≡ setup.stacks.seats },
    pub ghost within: { (n : ℕ) → 1 ≤ n → amount_of puts n ≤ amount_of setup.stacks n },
    pub ghost inside: { (n : ℕ) → 1 ≤ n → amount_of bets n ≤ amount_of puts n },
    pub ghost pot_is: { pot ≡ total_of puts },
    pub ghost pot_bounded: { pot ≤ 10 * MOST_AMOUNT },
    pub ghost current_bet_is: { current_bet
        ≡ greatest (map (amount_of bets) (seats_of setup.stacks.seats)) },
    pub ghost current_bet_bounded: { current_bet ≤ MOST_AMOUNT },
    pub ghost live_is: { live_count ≡ count_by (flag_of live) (seats_of setup.stacks.seats) },
    pub ghost able_is: { able_count
        ≡ count_by
        (λ n. flag_of live n && nat_lt 0 (amount_of setup.stacks n - amount_of puts n))
        (seats_of setup.stacks.seats) },
    pub ghost least: { full_raise ≤ MOST_AMOUNT },
    pub ghost least_bet: { setup.min_bet ≤ MOST_AMOUNT },
    pub ghost caps_fit: { (k : ℕ) → cap_at rules.caps k ≤ 4294967295 },
    pub ghost last_in: { (seat : Seat) → last ≡ Some seat → seat.number ≤ setup.stacks.seats },
}
