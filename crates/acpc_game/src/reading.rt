//! Reads a game file as the one game that it says, or names its first fault.
ghost use Rattle.std.specs.Prelude.{◌≡◌, if◌then◌else◌, true, nat_le, None, length, map, option_map, slice_index, IfOk, IfErr};
ghost use Rattle.std.specs.List.{list_all};
ghost use Rattle.first_fault.specs.Reading.{Gives, IsOutOfMemory};
ghost use Rattle.acpc_game.specs.Faults.{Answers};
ghost use Rattle.acpc_game.specs.declared.key.GameKey.TheVariants as keys;
ghost use Rattle.acpc_game.specs.Entries.{entry_said};
ghost use Rattle.acpc_game.specs.GameFile.{game_or_fault, game_of_entries, game_said, stacks_at};
ghost use Rattle.acpc_game.specs.GameEntries.{entry_under};
ghost use Rattle.acpc_game.specs.GameFile as game_file;
ghost use Rattle.acpc_game.specs.GameView.{game_in};
ghost use Rattle.acpc_game.specs.Games.{are_chips};
ghost use Rattle.chip_ledger.specs.SeatRow.{amounts_in};
ghost use Rattle.acpc_game.specs.Playable.{IsPlayable};

use crate::entry::Entry;
use crate::fault::{AcpcFault, LineFaultKind};
use crate::found::{find_entry, find_line, find_numbers, has_entry};
use crate::game::Game;
use crate::key::GameKey;
use crate::lines::{fault_at, read_entries};
use crate::player_amounts::PlayerAmounts;
use crate::supported::{
    find_end_line, find_first_unsupported, has_everything_needed, is_no_limit_game,
};
use card_set::{repeated_for, vec_from};
use chip_ledger::SeatRow;
use first_fault::ReadError;
use std::alloc::Global;

/// The stack of each player of a limit game whose file says none, in chips.
const DEFAULT_STACK: u64 = 2_147_483_647;

/// The game that a game file says. Faults of single lines are reported first, in the order of the
/// lines; then those of the whole file; and last that handref does not support the game. The byte
/// of a fault is always 1.
pub fn read_game(alloc: Global, bytes: &[u8]) -> Result<Game, AcpcFault>
    ensures { Answers game_in result (game_said bytes.now) }
{
    Ok(read(alloc, bytes)?)
}

// The game of a file.
#[tactic(auto, unfolding(crate::specs::GameFile::game_said))]
fn read(alloc: Global, bytes: &[u8]) -> Result<Game, ReadError<AcpcFault>>
    ensures { Gives game_in result (game_said bytes.now) }
{
    let (entries, count) = read_entries(alloc, bytes)?;
    game_by_end(alloc, entries.as_slice(), count)
}

// The game that the entries of a file of `count` lines make.
#[tactic(auto, unfolding(crate::specs::GameFile::game_or_fault))]
fn game_by_end(alloc: Global, entries: &[Entry], count: u64) -> Result<Game, ReadError<AcpcFault>>
    ensures { Gives game_in result (game_or_fault count (map entry_said entries.now)) }
{
    if !has_everything_needed(entries) {
        return Err(fault_at(LineFaultKind::GameShape, find_end_line(entries, count)));
    }
    let stacks = stacks_of(alloc, entries)?;
    match find_first_unsupported(entries, stacks.as_slice()) {
        Some(key) => Err(fault_at(LineFaultKind::UnsupportedGame, find_line(entries, key))),
        None => Ok(build(entries, stacks.as_slice())),
    }
}

// The stacks of the players.
#[tactic(auto, using(crate::proofs::Bounds::same_stacks))]
fn stacks_of(alloc: Global, entries: &[Entry]) -> Result<Vec<u64>, ReadError<AcpcFault>>
    ensures stacks { IfOk result (λ stacks. stacks.items ≡ stacks_at (map entry_said entries.now)) }
    ensures few { IfOk result (λ stacks. are_chips stacks.items ≡ true) }
    ensures memory { IfErr result IsOutOfMemory }
{
    if has_entry(entries, GameKey::Stack) {
        Ok(vec_from(alloc, find_numbers(entries, GameKey::Stack))?)
    } else {
        let blinds = find_numbers(entries, GameKey::Blind);
        Ok(repeated_for(alloc, DEFAULT_STACK, blinds)?)
    }
}

// The game of entries that are complete and that handref supports.
#[tactic(auto, using(crate::proofs::Built::counted, crate::proofs::Built::sizes_fit))]
fn build(entries: &[Entry], stacks: &[u64]) -> Game
    requires whole { game_file.is_complete (map entry_said entries.now) ≡ true }
    requires playable { IsPlayable (map entry_said entries.now) }
    requires stacks { stacks.now ≡ stacks_at (map entry_said entries.now) }
    requires few { are_chips stacks.now ≡ true }
    ensures { game_in result ≡ game_of_entries (map entry_said entries.now) }
{
    let blinds = find_numbers(entries, GameKey::Blind);
    let sizes = find_numbers(entries, GameKey::RaiseSize);
    let no_limit = is_no_limit_game(entries);
    let small_raise = find_raise_size(no_limit, sizes, 0);
    let big_raise = find_raise_size(no_limit, sizes, 2);
    let caps = caps_of(entries);
    Game {
        no_limit,
        stacks: row_of(&PlayerAmounts { amounts: stacks }),
        blinds: row_of(&PlayerAmounts { amounts: blinds }),
        small_raise,
        big_raise,
        caps,
    }
}

// The raise size at a place of the four (from 0) in a limit game; 0 in no-limit.
fn find_raise_size(no_limit: bool, sizes: &[u64], place: usize) -> u64
    ensures { result ≡ (if no_limit then 0 else slice_index sizes.now place) }
{
    if no_limit || place >= sizes.len() {
        0
    } else {
        sizes[place]
    }
}

// The most raises of each round, if they are capped.
#[tactic(auto, using(crate::proofs::Bounds::caps_small, crate::proofs::Bounds::caps_four))]
fn caps_of(entries: &[Entry]) -> Option<[u32; 4]>
    ensures { result
        ≡ option_map (λ entry. entry.numbers)
        (entry_under keys.MaxRaises (map entry_said entries.now)) }
{
    match find_entry(entries, GameKey::MaxRaises) {
        None => None,
        Some(entry) => Some(four_caps(entry.numbers.as_slice())),
    }
}

// Four caps.
fn four_caps(numbers: &[u64]) -> [u32; 4]
    requires four { length numbers.now ≡ 4 }
    requires small { list_all (λ number. nat_le number 4294967295) numbers.now ≡ true }
    ensures { result ≡ numbers.now }
{
    match numbers {
        [a, b, c, d] => [*a as u32, *b as u32, *c as u32, *d as u32],
        _ => [0; 4],
    }
}

// A row of these amounts.
fn row_of(players: &PlayerAmounts) -> SeatRow
    ensures amounts { amounts_in result ≡ players.now.amounts.now }
    ensures seats { result.seats ≡ length players.now.amounts.now }
{
    let numbers = players.amounts;
    let mut amounts = [0; 10];
    for (index, number) in numbers.iter().enumerate() {
        amounts[index] = *number;
    }
    SeatRow {
        seats: numbers.len() as u8,
        amounts,
    }
}
