//! Parses a line of a game file: a key alone, or a key, `=`, and numbers separated by spaces.
ghost use Rattle.std.specs.Prelude.{◌≡◌, [], ◌∷◌, ◌-◌, length, slice_index, option_map, true, IfSome, if◌then◌else◌, Some, None};
ghost use Rattle.std.specs.List.{list_all};
ghost use Rattle.acpc_game.specs.Parts.{parts_of};
ghost use Rattle.first_fault.specs.Words.{is_space, words_of};
ghost use Rattle.first_fault.specs.Digits as digits;
ghost use Rattle.acpc_game.specs.Entries.{form_said};
ghost use Rattle.acpc_game.specs.Keys.{takes_count};
ghost use Rattle.acpc_game.specs.Forms.{form_of, key_and_numbers, numbers_behind};
ghost use Rattle.acpc_game.specs.Forms as forms;

use crate::key::{GameKey, equals_ignoring_case, parse_key};
use crate::key_line::KeyLine;
use crate::parts::cut_at;
use first_fault::{is_all_digits, next_word};

/// Whether a line of a game file is ignored: it is empty or begins with `#`.
pub fn is_ignored(line: &[u8]) -> bool
    ensures { result ≡ forms.is_passed_over line.now }
{
    line.is_empty() || line[0] == b'#'
}

/// The key of a line and the text of its numbers, if the line is well formed. Raise sizes of a
/// no-limit game are ignored, so their text is empty.
#[tactic(auto, unfolding(crate::specs::Forms::form_of))]
pub fn read_form(no_limit: bool, line: &[u8]) -> Option<KeyLine<'_>>
    ensures { option_map form_said result ≡ form_of no_limit line.now }
{
    if line == b"GAMEDEF".as_slice() {
        Some(alone(GameKey::Begin))
    } else if line == b"END GAMEDEF".as_slice() {
        Some(alone(GameKey::End))
    } else if equals_ignoring_case("limit", line) {
        Some(alone(GameKey::Limit))
    } else if equals_ignoring_case("nolimit", line) {
        Some(alone(GameKey::NoLimit))
    } else {
        read_numbered(no_limit, line)
    }
}

// A key that has no numbers.
fn alone<'a>(key: GameKey) -> KeyLine<'a>
    requires { takes_count key 0 ≡ true }
    ensures { form_said result ≡ (key, []) }
{
    KeyLine { key, numbers: &[] }
}

// A key, `=`, and numbers.
fn read_numbered(no_limit: bool, line: &[u8]) -> Option<KeyLine<'_>>
    ensures { option_map form_said result
        ≡ key_and_numbers no_limit (parts_of 61 line.now) }
{
    let (front, rest) = cut_at(line, b'=');
    match rest {
        Some(rest) => read_behind(no_limit, front, rest),
        None => None,
    }
}

// A key and the numbers after the `=`; a second `=` is refused.
#[tactic(auto, using(crate::proofs::Forms::no_third_part))]
fn read_behind<'a>(no_limit: bool, front: &[u8], rest: &'a [u8]) -> Option<KeyLine<'a>>
    ensures { option_map form_said result
        ≡ key_and_numbers no_limit (front.now ∷ parts_of 61 rest.now) }
{
    let (behind, more) = cut_at(rest, b'=');
    match more {
        Some(_) => None,
        None => {
            let key = parse_front(front)?;
            numbers_of(no_limit, key, behind)
        }
    }
}

// The key before the `=`.
#[tactic(auto, unfolding(crate::specs::Forms::key_before))]
fn parse_front(front: &[u8]) -> Option<GameKey>
    ensures { result ≡ forms.key_before front.now }
{
    if begins_with_space(front) {
        return None;
    }
    let (word, rest) = next_word(front)?;
    match next_word(rest) {
        None => parse_key(word),
        Some(_) => None,
    }
}

// Whether the text begins with a space.
fn begins_with_space(text: &[u8]) -> bool
    ensures { result ≡ is_space (slice_index text.now 0) }
{
    !text.is_empty() && text[0] == b' '
}

// The numbers after the `=`.
#[tactic(auto, unfolding(crate::specs::Forms::numbers_behind))]
fn numbers_of(no_limit: bool, key: GameKey, behind: &[u8]) -> Option<KeyLine<'_>>
    ensures { option_map form_said result
        ≡ numbers_behind no_limit key behind.now }
{
    if ends_with_space(behind) {
        return None;
    }
    let count = count_numbers(behind)?;
    make_key_line(no_limit, key, count, behind)
}

// A key with `count` numbers, if the key takes this number of them; raise sizes of a no-limit game
// are ignored.
#[tactic(auto, unfolding(crate::specs::Forms::form_with))]
fn make_key_line(no_limit: bool, key: GameKey, count: usize, behind: &[u8]) -> Option<KeyLine<'_>>
    requires digits { list_all digits.are_digits (words_of behind.now) ≡ true }
    requires count { count ≡ length (words_of behind.now) }
    ensures { option_map form_said result
        ≡ forms.form_with no_limit key (words_of behind.now) }
{
    if has_ignored_sizes(no_limit, key) {
        return if count > 0 {
            Some(alone(GameKey::UnusedSizes))
        } else {
            None
        };
    }
    if key.has_count(count) {
        Some(KeyLine {
            key,
            numbers: behind,
        })
    } else {
        None
    }
}

// Whether the key gives raise sizes in a no-limit game.
fn has_ignored_sizes(no_limit: bool, key: GameKey) -> bool
    ensures { result ≡ forms.is_unused no_limit key }
{
    match key {
        GameKey::RaiseSize => no_limit,
        _ => false,
    }
}

// Whether the text ends with a space.
fn ends_with_space(text: &[u8]) -> bool
    ensures { result ≡ is_space (slice_index text.now (length text.now - 1)) }
{
    !text.is_empty() && text[text.len() - 1] == b' '
}

// The number of words, if all of them are digits.
fn count_numbers(text: &[u8]) -> Option<usize>
    ensures digits { IfSome result
        (λ count. list_all digits.are_digits (words_of text.now) ≡ true) }
    ensures words { IfSome result (λ count. count ≡ length (words_of text.now)) }
    ensures count { result ≡ (if list_all digits.are_digits (words_of text.now)
        then Some (length (words_of text.now)) else None) }
{
    let mut count = 0;
    let mut rest = text;
    while let Some((word, behind)) = next_word(rest) {
        if !is_all_digits(word) {
            return None;
        }
        count += 1;
        rest = behind;
    }
    Some(count)
}
