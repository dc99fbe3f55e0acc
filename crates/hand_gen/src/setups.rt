//! The setup of a made hand.
ghost use Rattle.std.specs.Prelude.{◌≡◌, ◌≤◌, ◌+◌, ℕ, if◌then◌else◌};
ghost use Rattle.chip_ledger.specs.SeatRow.{amount_of};
ghost use Rattle.hand_gen.specs.Draws.{choice_among, number_after};
ghost use Rattle.hand_gen.specs.Setups as setups;
ghost use Rattle.hand_gen.specs.Setups.{IsMadeSetup};

use crate::draws;
use chip_ledger::{PlayerCount, RakeRow, Seat, SeatRow};
use play_event::{Code, Setup};

// The games, in the order in which they take turns.
const GAMES: [Code; 11] = [
    Code::FT,
    Code::NT,
    Code::NS,
    Code::PO,
    Code::FO8,
    Code::F7S,
    Code::F7S8,
    Code::FR,
    Code::N2L1D,
    Code::F2L3D,
    Code::FB,
];

/// The setup of the hand at a place, where the generator has come to this number.
pub fn setup_at(place: u32, number: u64) -> Setup
    ensures { IsMadeSetup place number result }
{
    let code = find_game(place);
    let stud = code.is_stud();
    let fixed = code.is_fixed();
    let first = draws::advance_number(number);
    let players = PlayerCount {
        number: 2 + draws::drawn(3, first) as u8,
    };
    Setup {
        code,
        stacks: stacks(first, players),
        antes: even_row(players, chips_where(stud, 1)),
        dead_antes: false,
        blinds: blinds(stud, players),
        bring_in: chips_where(stud, 1),
        small_bet: chips_where(fixed, 2),
        big_bet: chips_where(fixed, 4),
        min_bet: chips_where(!fixed, 2),
        rakes: RakeRow::none(),
    }
}

// The game of a hand, by its place.
fn find_game(place: u32) -> Code
    ensures { result ≡ setups.game_at place }
{
    GAMES[place as usize % GAMES.len()]
}

// The stacks, drawn after this number.
#[tactic(auto, using(crate::proofs::DrawLaws::one_draw_more))]
fn stacks(number: u64, players: PlayerCount) -> SeatRow
    ensures seats { result.seats ≡ players.number }
    ensures stacks { (seat : ℕ) → 1 ≤ seat → seat ≤ players.number
        → amount_of result seat ≡ 100 + choice_among 401 (number_after seat number) }
{
    let mut row = SeatRow::new(players.number);
    let mut number = number;
    for index in 0..players.number {
        number = draws::advance_number(number);
        row.set(Seat { number: index + 1 }, 100 + draws::drawn(401, number));
    }
    row
}

// A row with one amount for each seat.
fn even_row(players: PlayerCount, amount: u64) -> SeatRow
    requires few { amount ≤ 4 }
    ensures seats { result.seats ≡ players.number }
    ensures even { (seat : ℕ) → 1 ≤ seat → seat ≤ players.number → amount_of result seat ≡ amount }
{
    let mut row = SeatRow::new(players.number);
    for index in 0..players.number {
        row.set(Seat { number: index + 1 }, amount);
    }
    row
}

// Chips if they are used, and otherwise 0.
fn chips_where(used: bool, chips: u64) -> u64
    ensures { result ≡ (if used then chips else 0) }
{
    if used { chips } else { 0 }
}

// The blinds of all seats.
fn blinds(stud: bool, players: PlayerCount) -> SeatRow
    ensures seats { result.seats ≡ players.number }
    ensures blinds { (seat : ℕ) → 1 ≤ seat → seat ≤ players.number
        → amount_of result seat ≡ (if stud then 0 else setups.blind_of players.number seat) }
{
    let mut row = SeatRow::new(players.number);
    for index in 0..players.number {
        row.set(Seat { number: index + 1 }, blind(stud, players, index + 1));
    }
    row
}

// The blind of a seat.
fn blind(stud: bool, players: PlayerCount, seat: u8) -> u64
    ensures value { result ≡ (if stud then 0 else setups.blind_of players.number seat) }
    ensures few { result ≤ 2 }
{
    if stud {
        0
    } else if seat == 1 {
        if players.number == 2 { 2 } else { 1 }
    } else if seat == 2 {
        if players.number == 2 { 1 } else { 2 }
    } else {
        0
    }
}

/// The generator's number after the setup was drawn.
pub fn advance_past_setup(number: u64, setup: &Setup) -> u64
    ensures { result ≡ setups.number_behind_setup number setup.now }
{
    advance_by(number, 1 + setup.stacks.seats)
}

// The number after `count` draws.
#[tactic(auto, using(crate::proofs::DrawLaws::one_draw_more))]
fn advance_by(number: u64, count: u8) -> u64
    ensures { result ≡ number_after count number }
{
    let mut number = number;
    for _ in 0..count {
        number = draws::advance_number(number);
    }
    number
}
