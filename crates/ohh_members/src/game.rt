//! Reads the game of a hand from its type and its limit.
ghost use Rattle.std.specs.Prelude.{◌≡◌, ◌&&◌, bytes_eq, IfOk, IfSome};
ghost use Rattle.serde_json.specs.View.{view};
ghost use Rattle.first_fault.specs.Reading.{Gives};
ghost use Rattle.ohh_members.specs.Game.{IsReadGame, game_said, limits_said, word_said};
ghost use Rattle.ohh_members.specs.Game as games;

use crate::fault::{MemberFault, MemberFaultKind, Path};
use crate::values::{fault_at, read_object, read_text, required};
use first_fault::ReadError;
use play_event::Code;
use serde_json::Value;

/// The game of a hand: hold'em in fixed limit or no limit, Omaha in pot limit, or Omaha
/// eight-or-better in fixed limit.
#[tactic(auto, unfolding(crate::specs::Game::game_said))]
pub fn read_game(ohh: &Value) -> Result<Code, ReadError<MemberFault>>
    ensures said { Gives (λ code. code) result (game_said (view ohh.now)) }
    ensures read { IfOk result IsReadGame }
{
    let game = read_word(ohh, Path::GameType)?;
    let limits = read_limits(ohh)?;
    let limit = read_word(limits, Path::BetType)?;
    match parse_game(game, limit) {
        Some(code) => Ok(code),
        None => Err(fault_at(MemberFaultKind::UnsupportedGame, Path::GameType)),
    }
}

// The object with the limit.
fn read_limits(ohh: &Value) -> Result<&Value, ReadError<MemberFault>>
    ensures { Gives (λ found. view found.now) result (limits_said (view ohh.now)) }
{
    read_object(required(ohh, Path::BetLimit)?, Path::BetLimit)
}

// The text of a required member.
fn read_word(value: &Value, path: Path) -> Result<&str, ReadError<MemberFault>>
    ensures { Gives (λ text. text.now) result (word_said path (view value.now)) }
{
    read_text(required(value, path)?, path)
}

// The game of a type and a limit.
fn parse_game(game: &str, limit: &str) -> Option<Code>
    ensures said { result ≡ games.game_named game.now limit.now }
    ensures read { IfSome result IsReadGame }
{
    if are_words(game, "Holdem", limit, "FL") {
        Some(Code::FT)
    } else if are_words(game, "Holdem", limit, "NL") {
        Some(Code::NT)
    } else if are_words(game, "Omaha", limit, "PL") {
        Some(Code::PO)
    } else if are_words(game, "OmahaHiLo", limit, "FL") {
        Some(Code::FO8)
    } else {
        None
    }
}

// Whether the game and the limit are written so.
fn are_words(game: &str, game_word: &str, limit: &str, limit_word: &str) -> bool
    ensures { result ≡ (bytes_eq game.now game_word.now && bytes_eq limit.now limit_word.now) }
{
    game == game_word && limit == limit_word
}
