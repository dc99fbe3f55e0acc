//! Checks a game file whose lines are right as a whole: what is missing, or why handref does not
//! support its game.
ghost use Rattle.std.specs.Prelude.{◌≡◌, ◌≤◌, ◌&&◌, nat_lt, length, map, slice_index};
ghost use Rattle.std.specs.List.{list_all};
ghost use Rattle.chip_ledger.specs.Greatest as amounts;
ghost use Rattle.acpc_game.specs.Entries.{entry_said};
ghost use Rattle.acpc_game.specs.GameFile.{required_keys, first_player, stacks_at};
ghost use Rattle.acpc_game.specs.GameEntries as game_entries;
ghost use Rattle.acpc_game.specs.GameFile as game_file;
ghost use Rattle.first_fault.specs.Conditions.{first_where};

use crate::entry::Entry;
use crate::found::{find_entry, find_number, find_numbers, has_entry, matches_player_count};
use crate::key::GameKey;

/// Whether nothing is missing.
#[tactic(auto, unfolding(crate::specs::GameFile::is_complete))]
pub fn has_everything_needed(entries: &[Entry]) -> bool
    ensures { result ≡ game_file.is_complete (map entry_said entries.now) }
{
    if !has_needed(entries) {
        return false;
    }
    let sizes = if is_no_limit_game(entries) {
        GameKey::Stack
    } else {
        GameKey::RaiseSize
    };
    if !has_entry(entries, sizes) {
        return false;
    }
    matches_player_count(entries, GameKey::Blind)
        && (!has_entry(entries, GameKey::Stack) || matches_player_count(entries, GameKey::Stack))
}

// Whether each key that every game file needs is there.
fn has_needed(entries: &[Entry]) -> bool
    ensures { result
        ≡ list_all (λ key. game_entries.has_key key (map entry_said entries.now)) required_keys }
{
    has_entry(entries, GameKey::Begin)
        && has_entry(entries, GameKey::Limit)
        && has_entry(entries, GameKey::NumPlayers)
        && has_entry(entries, GameKey::NumRounds)
        && has_entry(entries, GameKey::Blind)
        && has_entry(entries, GameKey::FirstPlayer)
        && has_entry(entries, GameKey::NumSuits)
        && has_entry(entries, GameKey::NumRanks)
        && has_entry(entries, GameKey::NumHoleCards)
        && has_entry(entries, GameKey::NumBoardCards)
        && has_entry(entries, GameKey::End)
}

/// The line that a fault of the whole file names.
pub fn find_end_line(entries: &[Entry], count: u64) -> u64
    ensures { result ≡ game_file.line_of_end count (map entry_said entries.now) }
{
    match find_entry(entries, GameKey::End) {
        Some(entry) => entry.line,
        None => count.max(1),
    }
}

/// The first key that shows that handref does not support the game, if any.
#[tactic(auto, unfolding(crate::specs::GameFile::first_unsupported))]
pub fn find_first_unsupported(entries: &[Entry], stacks: &[u64]) -> Option<GameKey>
    requires { stacks.now ≡ stacks_at (map entry_said entries.now) }
    ensures { result ≡ game_file.first_unsupported (map entry_said entries.now) }
{
    if let Some(key) = find_unsupported_count(entries) {
        return Some(key);
    }
    if has_unplayable_stack(stacks, find_numbers(entries, GameKey::Blind)) {
        return Some(if has_entry(entries, GameKey::Stack) {
            GameKey::Stack
        } else {
            GameKey::Blind
        });
    }
    find_unsupported_bet(entries)
}

// The first number of players, rounds or cards that handref does not support.
fn find_unsupported_count(entries: &[Entry]) -> Option<GameKey>
    ensures { result ≡ first_where (game_file.unsupported_counts (map entry_said entries.now)) }
{
    let players = find_number(entries, GameKey::NumPlayers);
    if !(2 <= players && players <= 10) {
        return Some(GameKey::NumPlayers);
    }
    if find_number(entries, GameKey::NumRounds) != 4 {
        return Some(GameKey::NumRounds);
    }
    if find_number(entries, GameKey::NumSuits) != 4 {
        return Some(GameKey::NumSuits);
    }
    if find_number(entries, GameKey::NumRanks) != 13 {
        return Some(GameKey::NumRanks);
    }
    if find_number(entries, GameKey::NumHoleCards) != 2 {
        return Some(GameKey::NumHoleCards);
    }
    if !equals_four(find_numbers(entries, GameKey::NumBoardCards), [0, 3, 1, 1]) {
        return Some(GameKey::NumBoardCards);
    }
    None
}

// The first blinds, first player or raise sizes that handref does not support.
fn find_unsupported_bet(entries: &[Entry]) -> Option<GameKey>
    ensures { result ≡ first_where (game_file.unsupported_bets (map entry_said entries.now)) }
{
    let blinds = find_numbers(entries, GameKey::Blind);
    let sizes = find_numbers(entries, GameKey::RaiseSize);
    let no_limit = is_no_limit_game(entries);
    let most = greatest(blinds);
    if has_smaller_first_blind(blinds) {
        return Some(GameKey::Blind);
    }
    if !equals_four(
        find_numbers(entries, GameKey::FirstPlayer),
        [opener_of(blinds), 1, 1, 1],
    ) {
        return Some(GameKey::FirstPlayer);
    }
    if no_limit && most == 0 {
        return Some(GameKey::Blind);
    }
    if !no_limit && !are_two_equal_pairs(sizes) {
        return Some(GameKey::RaiseSize);
    }
    if !no_limit && is_small_blind_of(most, sizes) {
        return Some(GameKey::RaiseSize);
    }
    None
}

/// Whether the game is no-limit.
pub fn is_no_limit_game(entries: &[Entry]) -> bool
    ensures { result ≡ game_entries.has_no_limit (map entry_said entries.now) }
{
    match find_entry(entries, GameKey::Limit) {
        Some(entry) => match entry.key {
            GameKey::NoLimit => true,
            _ => false,
        },
        None => false,
    }
}

/// Whether some stack is 0, or below its blind.
pub fn has_unplayable_stack(stacks: &[u64], blinds: &[u64]) -> bool
    ensures { result ≡ game_file.has_short_stack stacks.now blinds.now }
{
    match stacks {
        [] => false,
        [stack, stacks @ ..] => match blinds {
            [] => false,
            [blind, blinds @ ..] => {
                *stack == 0 || *stack < *blind || has_unplayable_stack(stacks, blinds)
            }
        },
    }
}

// Whether there are two players, and the second blind is greater than the first.
fn has_smaller_first_blind(blinds: &[u64]) -> bool
    ensures { result ≡ game_file.is_reversed blinds.now }
{
    match blinds {
        [first, second] => *first < *second,
        _ => false,
    }
}

// Whether the numbers are these four.
fn equals_four(numbers: &[u64], four: [u64; 4]) -> bool
    ensures { result
        ≡ game_file.are_four (slice_index four 0) (slice_index four 1) (slice_index four 2)
        (slice_index four 3) numbers.now }
{
    match numbers {
        [w, x, y, z] => *w == four[0] && *x == four[1] && (*y == four[2] && *z == four[3]),
        _ => false,
    }
}

/// The seat that acts first in the first round.
pub fn opener_of(blinds: &[u64]) -> u64
    ensures { result ≡ first_player blinds.now }
{
    if blinds.len() == 2 {
        return 2;
    }
    let place = find_last_seat(greatest(blinds), blinds);
    if place == blinds.len() {
        1
    } else {
        place as u64 + 1
    }
}

// The last place (from 1) of a number, or 0.
fn find_last_seat(number: u64, numbers: &[u64]) -> usize
    ensures place { result ≡ game_file.last_seat_with number numbers.now }
    ensures within { result ≤ length numbers.now }
{
    match numbers {
        [] => 0,
        [first, rest @ ..] => {
            let place = find_last_seat(number, rest);
            if place > 0 {
                place + 1
            } else if *first == number {
                1
            } else {
                0
            }
        }
    }
}

/// The greatest of some numbers.
pub fn greatest(numbers: &[u64]) -> u64
    ensures { result ≡ amounts.greatest numbers.now }
{
    match numbers {
        [] => 0,
        [number, rest @ ..] => {
            let most = greatest(rest);
            if *number < most { most } else { *number }
        }
    }
}

// Whether the raise sizes are two equal ones and two more equal ones, each at least 1.
fn are_two_equal_pairs(sizes: &[u64]) -> bool
    ensures { result ≡ game_file.are_sizes sizes.now }
{
    match sizes {
        [s, t, b, c] => *s >= 1 && *s == *t && (*b >= 1 && *b == *c),
        _ => false,
    }
}

// Whether the greatest blind is above 0 and below the first raise size.
fn is_small_blind_of(most: u64, sizes: &[u64]) -> bool
    ensures { result ≡ nat_lt 0 most && nat_lt most (slice_index sizes.now 0) }
{
    0 < most && !sizes.is_empty() && most < sizes[0]
}
