//! The lowest ranks of a mask, with the ace as the lowest.
ghost use Rattle.std.specs.Prelude.{◌≡◌, ◌≤◌, ◌<◌, ◌+◌, ℕ, true, false, length};
ghost use Rattle.hand_order.specs.Heights.{heights_of};
ghost use Rattle.hand_order.specs.Lowest.{has_height, lowest};

use crate::row::RankRow;

/// The `need` lowest ranks of a mask, the highest of them first, among `heights` heights from
/// `from` on. A mask has the two as bit 0 and the ace as bit 12; the ace has height 1.
pub fn lowest_ranks(mask: u16, heights: u8, from: u8, need: u8) -> RankRow
    requires first { 1 ≤ from }
    requires last { from + heights ≤ 14 }
    requires few { need ≤ 5 }
    ensures list { heights_of result ≡ lowest (has_height mask) heights from need }
    ensures long { length (heights_of result) ≤ need }
{
    if heights == 0 || need == 0 {
        return RankRow::new();
    }
    let absent = absent_from(mask, from);
    if absent >= heights {
        return RankRow::new();
    }
    let height = from + absent;
    let mut row = lowest_ranks(mask, heights - absent - 1, height + 1, need - 1);
    row.push(height);
    row
}

// How many heights in a row, beginning with this one, are not in a mask.
fn absent_from(mask: u16, from: u8) -> u8
    requires first { 1 ≤ from }
    requires last { from ≤ 13 }
    ensures absent { (k : ℕ) → k < result → has_height mask (from + k) ≡ false }
    ensures next { from + result ≤ 13 → has_height mask (from + result) ≡ true }
{
    if has_rank(mask, from) {
        return 0;
    }
    if from == 1 {
        return 1 + mask.trailing_zeros() as u8;
    }
    (mask >> (from - 2)).trailing_zeros() as u8
}

// Whether a mask has the rank of a height, with the ace as the lowest.
fn has_rank(mask: u16, height: u8) -> bool
    requires first { 1 ≤ height }
    requires last { height ≤ 13 }
    ensures { result ≡ has_height mask height }
{
    let place = if height == 1 { 12 } else { height - 2 };
    mask >> place & 1 == 1
}
