//! Looks up the numbers and the line of a key among the entries.
ghost use Rattle.std.specs.Prelude.{◌≡◌, true, map, option_map, IfSome};
ghost use Rattle.acpc_game.specs.Entries.{entry_said};
ghost use Rattle.acpc_game.specs.Games.{are_chips};
ghost use Rattle.acpc_game.specs.GameEntries.{entry_under, is_under_key};
ghost use Rattle.acpc_game.specs.GameEntries as game_entries;
ghost use Rattle.acpc_game.specs.GameFile as game_file;

use crate::entry::Entry;
use crate::key::GameKey;

/// Whether an entry has this key.
pub fn has_entry(entries: &[Entry], key: GameKey) -> bool
    ensures { result ≡ game_entries.has_key key (map entry_said entries.now) }
{
    match entries {
        [] => false,
        [entry, rest @ ..] => entry.key.place() == key.place() || has_entry(rest, key),
    }
}

/// The line of a key.
pub fn find_line(entries: &[Entry], key: GameKey) -> u64
    ensures { result ≡ game_entries.line_at key (map entry_said entries.now) }
{
    match find_entry(entries, key) {
        Some(entry) => entry.line,
        None => 0,
    }
}

/// Whether a key has one number for each player.
pub fn matches_player_count(entries: &[Entry], key: GameKey) -> bool
    ensures { result ≡ game_file.has_one_for_each_player key (map entry_said entries.now) }
{
    find_numbers(entries, key).len() as u64 == find_number(entries, GameKey::NumPlayers)
}

/// The one number of a key.
pub fn find_number(entries: &[Entry], key: GameKey) -> u64
    ensures { result ≡ game_entries.number_at key (map entry_said entries.now) }
{
    let numbers = find_numbers(entries, key);
    if numbers.is_empty() { 0 } else { numbers[0] }
}

/// The numbers of a key; none if there is no entry with this key.
#[tactic(auto, using(crate::proofs::Bounds::within_most))]
pub fn find_numbers(entries: &[Entry], key: GameKey) -> &[u64]
    ensures few { are_chips result.now ≡ true }
    ensures numbers { result.now ≡ game_entries.numbers_at key (map entry_said entries.now) }
{
    match find_entry(entries, key) {
        Some(entry) => entry.numbers.as_slice(),
        None => &[],
    }
}

/// The entry with this key, if there is one.
pub fn find_entry(entries: &[Entry], key: GameKey) -> Option<&Entry>
    ensures is { IfSome result (λ entry. is_under_key key (entry_said entry.now) ≡ true) }
    ensures entry { option_map (λ entry. entry_said entry.now) result
        ≡ entry_under key (map entry_said entries.now) }
{
    match entries {
        [] => None,
        [entry, rest @ ..] => {
            if entry.key.place() == key.place() {
                Some(entry)
            } else {
                find_entry(rest, key)
            }
        }
    }
}
