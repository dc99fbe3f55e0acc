//! A line with a key and the number of words that the key takes, each of them digits.
ghost use Rattle.std.specs.Prelude.{◌≡◌, length, true};
ghost use Rattle.std.specs.List.{list_all};
ghost use Rattle.first_fault.specs.Words.{words_of};
ghost use Rattle.first_fault.specs.Digits.{are_digits};
ghost use Rattle.acpc_game.specs.Keys.{takes_count};

use crate::key::GameKey;

/// The key of a line, and the text of its numbers.
#[derive(Clone, Copy)]
pub struct KeyLine<'a> {
    pub key: GameKey,
    pub numbers: &'a [u8],
    pub ghost digits: { list_all are_digits (words_of numbers.now) ≡ true },
    pub ghost counted: { takes_count key (length (words_of numbers.now)) ≡ true },
}
