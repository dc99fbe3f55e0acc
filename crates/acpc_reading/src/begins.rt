//! The lines of a log on which its hands begin.
ghost use Rattle.std.specs.Prelude.{◌≡◌, ◌+◌, ◌∷◌, ◌++◌, List, ℕ, IfOk, OnOk};
ghost use Rattle.acpc_reading.specs.Begins.{hand_lines_from};
ghost use Rattle.acpc_reading.specs.Begins as begins;

use crate::log::is_ignored;
use acpc_game::next_line;
use card_set::{Memory, TryPush};
use std::alloc::Global;

/// The numbers of the lines of a log that are hands, counted from 1.
///
/// # Errors
///
/// Out of memory.
pub fn find_hand_lines(alloc: Global, bytes: &[u8]) -> Result<Vec<u64>, Memory>
    ensures { IfOk result (λ lines. lines.items ≡ begins.hand_lines bytes.now) }
{
    let mut lines = Vec::new(alloc);
    let mut count = 0;
    let mut rest = bytes;
    while let Some((line, behind)) = next_line(rest) {
        count += 1;
        take_line(&mut lines, count, line)?;
        rest = behind;
    }
    Ok(lines)
}

// Appends the number of a line if the line is a hand.
fn take_line(lines: &mut Vec<u64>, number: u64, line: &[u8]) -> Result<(), Memory>
    ensures { OnOk result ((others : List (List ℕ))
        → lines.new.items ++ hand_lines_from (number + 1) others
        ≡ lines.old.items ++ hand_lines_from number (line.now ∷ others)) }
{
    if is_ignored(line) {
        return Ok(());
    }
    lines.try_push(number)?;
    Ok(())
}
