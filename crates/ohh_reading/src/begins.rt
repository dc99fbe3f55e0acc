//! The lines of a text on which its blocks begin.
ghost use Rattle.std.specs.Prelude.{◌≡◌, ◌+◌, ◌∷◌, ◌++◌, List, ℕ, IfOk};
ghost use Rattle.ohh_reading.specs.Begins.{block_lines_from};
ghost use Rattle.ohh_reading.specs.Begins as begins;

use crate::blocks::{cut_line, separates_blocks};
use card_set::{Memory, TryPush};
use std::alloc::Global;

/// The numbers of the lines of a text that begin a block, counted from 1. Each block is a hand.
///
/// # Errors
///
/// Out of memory.
pub fn find_block_lines(alloc: Global, text: &[u8]) -> Result<Vec<u64>, Memory>
    ensures { IfOk result (λ lines. lines.items ≡ begins.block_lines text.now) }
{
    let mut lines = Vec::new(alloc);
    let mut inside = false;
    let mut count = 0;
    let mut rest = Some(text);
    while let Some(left) = rest {
        let (line, more) = cut_line(left);
        count += 1;
        inside = take_line(&mut lines, count, inside, line)?;
        rest = more;
    }
    Ok(lines)
}

// Appends the number of a line if the line begins a block; whether what comes next is inside one.
fn take_line(lines: &mut Vec<u64>, number: u64, inside: bool, line: &[u8]) -> Result<bool, Memory>
    ensures { IfOk result (λ now. (others : List (List ℕ))
        → lines.new.items ++ block_lines_from now (number + 1) others
        ≡ lines.old.items ++ block_lines_from inside number (line.now ∷ others)) }
{
    if separates_blocks(line) {
        return Ok(false);
    }
    if inside {
        return Ok(true);
    }
    lines.try_push(number)?;
    Ok(true)
}
