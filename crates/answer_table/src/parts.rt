//! Reads hands in one named notation, and writes them in another.
ghost use Rattle.std.specs.Prelude.{◌≤◌, length, IfSome};
ghost use Rattle.std.specs.List.{AllByRecursion};
ghost use Rattle.first_fault.specs.declared.limits.TheConstants.{MOST_HANDS};
ghost use Rattle.hand_canon.specs.Sound.{IsSound};

use acpc_format::{Game, read_game};
use convert_core::{Format, Notation, plays};
use hand_canon::{Keep, Play, Records};
use ohh_members::Dialect;
use std::alloc::Global;

// Three seats with 100 chips each, blinds 1 and 2, no-limit.
const GAME: &[u8] =
    b"GAMEDEF\nnolimit\nnumPlayers = 3\nnumRounds = 4\nstack = 100 100 100\nblind = 1 2 0\n\
firstPlayer = 3 1 1 1\nnumSuits = 4\nnumRanks = 13\nnumHoleCards = 2\nnumBoardCards = 0 3 1 1\nEND GAMEDEF\n";

/// The records that the bytes say in the named notation, if they read as hands there.
pub fn read_hands(alloc: Global, from: &str, bytes: &[u8]) -> Option<Records> {
    named(alloc, from)?.read(alloc, bytes).ok()
}

/// The number of bytes of the hands in the second notation. They are read and replayed once, and
/// written `times` times.
pub fn write_hands(alloc: Global, from: &str, to: &str, times: u32, bytes: &[u8]) -> Option<usize> {
    let plays = play_hands(alloc, from, bytes)?;
    write_times(alloc, &named(alloc, to)?, times, &plays)
}

/// The plays of the bytes in the named notation, if they read as legal hands there.
pub fn play_hands(alloc: Global, from: &str, bytes: &[u8]) -> Option<Vec<Play>>
    ensures sound { IfSome result (λ plays. AllByRecursion IsSound plays.items) }
    ensures few { IfSome result (λ plays. length plays.items ≤ MOST_HANDS) }
{
    plays(alloc, &named(alloc, from)?, bytes).ok()
}

// The number of bytes of the plays in a notation. They are written `times` times.
fn write_times(alloc: Global, to: &Format, times: u32, plays: &[Play]) -> Option<usize>
    requires sound { AllByRecursion IsSound plays.now }
    requires few { length plays.now ≤ MOST_HANDS }
{
    let mut written = 0;
    for _ in 0..times {
        match to.write(alloc, plays, Keep::All) {
            Ok(output) => written = output.len(),
            Err(_) => return None,
        }
    }
    Some(written)
}

// The notation with this name. In Open Hand History a raise adds its amount, and logs are of the
// game.
fn named(alloc: Global, name: &str) -> Option<Format> {
    match name {
        "phh" => Some(Format::Phh),
        "ohh" => Some(Format::Ohh(Dialect::Added)),
        "acpc" => {
            let game: Option<Game> = read_game(alloc, GAME).ok();
            game.map(|game| Format::Acpc(game))
        }
        _ => None,
    }
}
