//! Cuts the input into blocks at lines with nothing but spaces, tabs and carriage returns.
ghost use Rattle.std.specs.Prelude.{◌≡◌, ◌+◌, ◌==◌, [], ◌∷◌, ◌++◌, List, ℕ, map, length, None, option_map, IfOk, OnOk};
ghost use Rattle.std.specs.List.{position_or_len};
ghost use Rattle.std.specs.Option.{option_map_or};
ghost use Rattle.ohh_reading.specs.Blocks.{blocks_from, blocks_of, lines_of};
ghost use Rattle.ohh_reading.specs.Blocks as blocks;

use card_set::{Memory, TryExtend, TryPush, vec_from};
use std::alloc::Global;

/// The blocks of a text, in order.
pub fn cut_blocks(alloc: Global, text: &[u8]) -> Result<Vec<Vec<u8>>, Memory>
    ensures { IfOk result (λ found. map (λ block. block.items) found.items
        ≡ blocks_of text.now) }
{
    let mut found = Vec::new(alloc);
    let mut begun = None;
    let mut rest = Some(text);
    while let Some(left) = rest {
        let (line, more) = cut_line(left);
        let (ended, next) = take_line(alloc, begun, line)?;
        push_block(&mut found, ended)?;
        begun = next;
        rest = more;
    }
    push_block(&mut found, begun)?;
    Ok(found)
}

/// The first line, and what comes after its end, if it has one.
pub fn cut_line(text: &[u8]) -> (&[u8], Option<&[u8]>)
    ensures lines { lines_of text.now ≡ result.0.now
        ∷ option_map_or (λ rest. lines_of rest.now) result.1 [] }
    ensures shorter { length text.now
        ≡ length result.0.now + option_map_or (λ rest. 1 + length rest.now) result.1 0 }
{
    let len = line_len(text);
    if len == text.len() {
        return (text, None);
    }
    let (line, rest) = text.split_at(len);
    let (_end, behind) = rest.split_at(1);
    (line, Some(behind))
}

// How many bytes come before the end of the first line.
fn line_len(text: &[u8]) -> usize
    ensures { result ≡ position_or_len (λ sign. sign == 10) text.now }
{
    for (index, sign) in text.iter().enumerate() {
        if *sign == b'\n' {
            return index;
        }
    }
    text.len()
}

// Adds a line to the current block, or ends the block if the line is blank.
fn take_line(
    alloc: Global,
    begun: Option<Vec<u8>>,
    line: &[u8],
) -> Result<(Option<Vec<u8>>, Option<Vec<u8>>), Memory>
    ensures { IfOk result (λ step. (lines : List (List ℕ)) →
        blocks_from (option_map (λ block. block.items) begun) (line.now ∷ lines)
        ≡ option_map_or (λ block. block.items ∷ []) step.0 []
        ++ blocks_from (option_map (λ block. block.items) step.1) lines) }
{
    if separates_blocks(line) {
        return Ok((begun, None));
    }
    match begun {
        None => {
            let block = vec_from(alloc, line)?;
            Ok((None, Some(block)))
        }
        Some(mut block) => {
            block.try_push(b'\n')?;
            block.try_extend_from_slice(line)?;
            Ok((None, Some(block)))
        }
    }
}

/// Whether the line separates blocks.
pub fn separates_blocks(line: &[u8]) -> bool
    ensures { result ≡ blocks.is_blank line.now }
{
    for sign in line {
        if *sign != b' ' && *sign != b'\t' && *sign != b'\r' {
            return false;
        }
    }
    true
}

// Appends the block, if there is one.
fn push_block(found: &mut Vec<Vec<u8>>, block: Option<Vec<u8>>) -> Result<(), Memory>
    ensures { OnOk result (map (λ block. block.items) found.new.items
        ≡ map (λ block. block.items) found.old.items
        ++ option_map_or (λ block. block.items ∷ []) block []) }
{
    match block {
        Some(block) => Ok(found.try_push(block)?),
        None => Ok(()),
    }
}
