//! An entry of a game file: a key, its line, and its numbers, none of them too great for the key.
ghost use Rattle.std.specs.Prelude.{◌≡◌, true, nat_le, length};
ghost use Rattle.std.specs.List.{list_all};
ghost use Rattle.acpc_game.specs.Keys.{most_of, takes_count};

use crate::key::GameKey;

/// A line with a key.
#[derive(Debug, Drop)]
pub struct Entry {
    pub key: GameKey,
    pub line: u64,
    pub numbers: Vec<u64>,
    pub ghost bounded: { list_all (λ number. nat_le number (most_of key)) numbers.items ≡ true },
    pub ghost counted: { takes_count key (length numbers.items) ≡ true },
}
