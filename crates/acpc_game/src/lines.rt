//! Reads the lines of a game file as its entries, or names the first line that is wrong.
ghost use Rattle.std.specs.Prelude.{◌≡◌, ◌≤◌, [], true, nat_le, length, map, Ok, OnOk, IfOk, IfErr, IsTrue};
ghost use Rattle.std.specs.List.{list_all};
ghost use Rattle.first_fault.specs.Digits.{are_digits};
ghost use Rattle.first_fault.specs.Reading.{Gives, Fails};
ghost use Rattle.acpc_game.specs.Faults as faults;
ghost use Rattle.acpc_game.specs.Parts.{lines_of};
ghost use Rattle.first_fault.specs.Words.{words_of};
ghost use Rattle.acpc_game.specs.Entries.{entry_said};
ghost use Rattle.acpc_game.specs.GameEntries.{entries_after_line, entries_in, entries_said, number_said, numbers_after};
ghost use Rattle.acpc_game.specs.GameEntries as game_entries;
ghost use Rattle.acpc_game.specs.Keys.{most_of};

use crate::entry::Entry;
use crate::fault::{AcpcFault, LineFault, LineFaultKind, to_file_fault};
use crate::form::{is_ignored, read_form};
use crate::found::has_entry;
use crate::key::{GameKey, equals_ignoring_case};
use crate::parts::next_line;
use card_set::TryPush;
use first_fault::{ReadError, next_word, read_digits};
use std::alloc::Global;

/// The entries of a file, and its number of lines.
pub fn read_entries(alloc: Global, bytes: &[u8]) -> Result<(Vec<Entry>, u64), ReadError<AcpcFault>>
    ensures { Gives (λ found. (map entry_said found.0.items, found.1)) result
        (entries_said bytes.now) }
{
    read_lines(alloc, is_no_limit_file(bytes), bytes)
}

// The entries of the lines of a limit or no-limit game, and the number of lines.
fn read_lines(
    alloc: Global,
    no_limit: bool,
    bytes: &[u8],
) -> Result<(Vec<Entry>, u64), ReadError<AcpcFault>>
    ensures { Gives (λ found. (map entry_said found.0.items, found.1)) result
        (entries_in no_limit (lines_of bytes.now)) }
{
    let mut entries = Vec::new(alloc);
    let mut count = 0;
    let mut rest = bytes;
    while let Some((line, behind)) = next_line(rest) {
        count += 1;
        take_line(alloc, no_limit, &mut entries, count, line)?;
        rest = behind;
    }
    Ok((entries, count))
}

// Whether some line says that the game is no-limit.
fn is_no_limit_file(bytes: &[u8]) -> bool
    ensures { result ≡ game_entries.says_no_limit (lines_of bytes.now) }
{
    let mut rest = bytes;
    while let Some((line, behind)) = next_line(rest) {
        if equals_ignoring_case("nolimit", line) {
            return true;
        }
        rest = behind;
    }
    false
}

// One more line of a limit or no-limit game.
#[tactic(auto, unfolding(crate::specs::GameEntries::entries_after_line, crate::specs::GameEntries::entries_with))]
fn take_line(
    alloc: Global,
    no_limit: bool,
    entries: &mut Vec<Entry>,
    line: u64,
    text: &[u8],
) -> Result<(), ReadError<AcpcFault>>
    ensures ok { OnOk result
        (entries_after_line no_limit (map entry_said entries.old.items) line text.now
        ≡ Ok (map entry_said entries.new.items)) }
    ensures err { IfErr result (λ stop. Fails stop
        (entries_after_line no_limit (map entry_said entries.old.items) line text.now)) }
{
    if is_ignored(text) {
        return Ok(());
    }
    let Some(form) = read_form(no_limit, text) else {
        return Err(fault_at(LineFaultKind::GameShape, line));
    };
    if !is_allowed_next(entries.as_slice(), form.key) {
        return Err(fault_at(LineFaultKind::GameShape, line));
    }
    let numbers = read_numbers(alloc, line, form.key, form.numbers)?;
    entries.try_push(Entry {
        key: form.key,
        line,
        numbers,
    })?;
    Ok(())
}

// Whether a key is allowed after these entries.
fn is_allowed_next(entries: &[Entry], key: GameKey) -> bool
    ensures { result ≡ game_entries.may_come_next key (map entry_said entries.now) }
{
    match key {
        GameKey::Begin => entries.is_empty(),
        _ => !entries.is_empty() && !has_entry(entries, GameKey::End) && !has_entry(entries, key),
    }
}

// The numbers that the words of a text give to a key.
fn read_numbers(
    alloc: Global,
    line: u64,
    key: GameKey,
    text: &[u8],
) -> Result<Vec<u64>, ReadError<AcpcFault>>
    requires { list_all are_digits (words_of text.now) ≡ true }
    ensures said { Gives (λ numbers. numbers.items) result
        (numbers_after line (most_of key) [] (words_of text.now)) }
    ensures count { IfOk result (λ numbers. length numbers.items ≡ length (words_of text.now)) }
    ensures bounded { IfOk result
        (λ numbers. list_all (λ number. nat_le number (most_of key)) numbers.items ≡ true) }
{
    let mut numbers = Vec::new(alloc);
    let mut rest = text;
    while let Some((word, behind)) = next_word(rest) {
        let number = read_number(line, key, word)?;
        numbers.try_push(number)?;
        rest = behind;
    }
    Ok(numbers)
}

// The number that a word says, or a fault if it is too great for its key.
#[tactic(auto, unfolding(crate::specs::GameEntries::number_said))]
fn read_number(line: u64, key: GameKey, word: &[u8]) -> Result<u64, ReadError<AcpcFault>>
    requires { IsTrue (are_digits word.now) }
    ensures said { Gives (λ number. number) result (number_said line (most_of key) word.now) }
    ensures bounded { IfOk result (λ number. number ≤ most_of key) }
{
    match read_digits(word, key.most()) {
        Some(number) => Ok(number),
        None => Err(fault_at(LineFaultKind::AmountLimit, line)),
    }
}

/// A fault of this kind at a line.
pub fn fault_at(what: LineFaultKind, line: u64) -> ReadError<AcpcFault>
    ensures { result ≡ ReadError.Fault
        (faults.fault_in_line line (record { what = what; byte = 1 })) }
{
    ReadError::Fault(to_file_fault(line, LineFault { what, byte: 1 }))
}
