//! The setup and the rules of a hand, taken from its game.
ghost use Rattle.std.specs.Prelude.{◌≡◌};
ghost use Rattle.acpc_reading.specs.RecordView.{IsSetupOf};
ghost use Rattle.acpc_reading.specs.RecordView as record_view;

use acpc_game::{Game, greatest};
use chip_ledger::{RakeRow, SeatRow};
use play_event::{Code, Reopen, Rules, Setup};

/// The setup of each hand of the game.
#[tactic(auto, using(chip_ledger::proofs::RowLists::no_rake))]
pub fn setup_of(game: &Game) -> Setup
    ensures { IsSetupOf game.now result }
{
    Setup {
        code: find_code(game),
        stacks: game.stacks,
        antes: SeatRow::new(game.stacks.seats),
        dead_antes: false,
        blinds: game.blinds,
        bring_in: 0,
        small_bet: game.small_raise,
        big_bet: game.big_raise,
        min_bet: find_least_bet(game),
        rakes: RakeRow::none(),
    }
}

// The variant code of the game.
fn find_code(game: &Game) -> Code
    ensures { result ≡ record_view.code_of game.now.no_limit }
{
    if game.no_limit { Code::NT } else { Code::FT }
}

// The least bet of the game, in chips.
fn find_least_bet(game: &Game) -> u64
    ensures { result ≡ record_view.least_bet game.now }
{
    if game.no_limit {
        greatest(&game.blinds.amounts[..game.blinds.seats as usize])
    } else {
        0
    }
}

/// The rules of each hand of the game.
pub fn make_rules(game: &Game) -> Rules
    ensures { result ≡ record_view.rules_of game.now }
{
    Rules {
        reopen: Reopen::Always,
        free_fold: false,
        caps: game.caps,
    }
}
