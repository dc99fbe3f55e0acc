//! Compares the setup of a hand with a game, and makes a game that the hand fits.
ghost use Rattle.std.specs.Prelude.{◌≡◌, ◌&&◌, ◌==◌, Ok, Err, IfErr, IfOk};
ghost use Rattle.acpc_game.specs.GameView.{game_in};
ghost use Rattle.play_event.specs.ValidSetup.{IsValid};
ghost use Rattle.acpc_format.specs.GameOf.{MakesGame, game_with, no_limit_of};
ghost use Rattle.acpc_format.specs.GameOf as games;
ghost use Rattle.acpc_format.specs.SetupFacts.{has_sizes_of, is_code_of, setup_conditions};
ghost use Rattle.first_fault.specs.Conditions.{first_where};
ghost use Rattle.chip_ledger.specs.Greatest as amounts;
ghost use Rattle.chip_ledger.specs.SeatRow.{amounts_in};

use crate::amounts::{are_same, has_some};
use acpc_game::{Game, greatest, has_unplayable_stack};
use hand_canon::{Play, Unspelled};
use play_event::{Code, Setup};

/// The first fact of a setup that the logs of a game cannot write.
pub fn find_other_setup(game: &Game, setup: &Setup) -> Option<Unspelled>
    ensures { result ≡ first_where (setup_conditions game.now setup.now) }
{
    if !is_game_code(game.no_limit, setup.code) {
        return Some(Unspelled::Variant);
    }
    if setup.stacks.seats != game.stacks.seats {
        return Some(Unspelled::SeatCount);
    }
    if !are_same(setup.stacks.as_slice(), game.stacks.as_slice()) {
        return Some(Unspelled::Stacks);
    }
    if !has_game_sizes(game, setup) {
        return Some(Unspelled::BetSizes);
    }
    if has_some(setup.antes.as_slice()) {
        return Some(Unspelled::Antes);
    }
    if !are_same(setup.blinds.as_slice(), game.blinds.as_slice()) {
        return Some(Unspelled::Blinds);
    }
    if has_some(setup.rakes.rakes.as_slice()) {
        return Some(Unspelled::Rake);
    }
    None
}

// Whether the code is that of the limit or no-limit game.
fn is_game_code(no_limit: bool, code: Code) -> bool
    ensures { result ≡ is_code_of no_limit code }
{
    match code {
        Code::NT => no_limit,
        Code::FT => !no_limit,
        _ => false,
    }
}

// Whether the bet sizes are those of a game.
fn has_game_sizes(game: &Game, setup: &Setup) -> bool
    ensures { result ≡ has_sizes_of game.now setup.now }
{
    if game.no_limit {
        return setup.min_bet == greatest_blind(setup);
    }
    setup.small_bet == game.small_raise && setup.big_bet == game.big_raise
}

/// The game without caps that a hand fits.
///
/// # Errors
///
/// The first fact of the hand that no game has.
#[tactic(auto, unfolding(crate::specs::GameOf::game_for))]
pub fn game_of(play: &Play) -> Result<Game, Unspelled>
    requires { IsValid play.now.trace.setup }
    ensures game { IfOk result (λ game. games.game_for play.now.trace.setup ≡ Ok (game_in game)) }
    ensures refused { IfErr result (λ fact. games.game_for play.now.trace.setup ≡ Err fact) }
{
    let setup = &play.trace.setup;
    let Some(no_limit) = limit_of(setup.code) else {
        return Err(Unspelled::Variant);
    };
    if has_unplayable_stack(setup.stacks.as_slice(), setup.blinds.as_slice()) {
        return Err(Unspelled::Stacks);
    }
    if !fits_greatest_blind(no_limit, setup) {
        return Err(Unspelled::BetSizes);
    }
    if has_some(setup.antes.as_slice()) {
        return Err(Unspelled::Antes);
    }
    Ok(make_game(no_limit, setup))
}

// Whether the game is no-limit, if it is hold'em that logs can have.
fn limit_of(code: Code) -> Option<bool>
    ensures { result ≡ no_limit_of code }
{
    match code {
        Code::NT => Some(true),
        Code::FT => Some(false),
        _ => None,
    }
}

// Whether the bet sizes fit the greatest blind.
fn fits_greatest_blind(no_limit: bool, setup: &Setup) -> bool
    ensures { result ≡ games.is_sized_by_blind no_limit setup.now }
{
    let blind = greatest_blind(setup);
    if no_limit {
        return setup.min_bet == blind;
    }
    blind == 0 || setup.small_bet <= blind
}

// The greatest blind.
fn greatest_blind(setup: &Setup) -> u64
    ensures { result ≡ amounts.greatest (amounts_in setup.now.blinds) }
{
    greatest(setup.blinds.as_slice())
}

// The game with the stacks, blinds and bet sizes of a setup.
fn make_game(no_limit: bool, setup: &Setup) -> Game
    requires { MakesGame no_limit setup.now }
    ensures { game_in result ≡ game_with no_limit setup.now }
{
    Game {
        no_limit,
        stacks: setup.stacks,
        blinds: setup.blinds,
        small_raise: setup.small_bet,
        big_raise: setup.big_bet,
        caps: None,
    }
}
