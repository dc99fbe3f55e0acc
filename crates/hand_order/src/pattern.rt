//! The best pattern of ranks, without straights and flushes.
ghost use Rattle.std.specs.Prelude.{ℕ};
ghost use Rattle.hand_order.specs.Tops.{Shows};
ghost use Rattle.hand_order.specs.Patterns.{AreCounts, IsBestNumber};

use crate::mask::{clear, top, with_top_digits};

/// A class, and the number whose digits are the ranks that decide within it.
#[derive(Clone, Copy, Debug)]
pub struct RankPattern {
    pub class: u32,
    pub number: u32,
}

/// The best pattern, by the masks of the ranks that occur at least once, twice, three and four
/// times.
pub fn best_pattern(all: u16, two: u16, three: u16, four: u16) -> RankPattern
    ensures { (T : ℕ → ℕ) → AreCounts T
        → Shows all 1 T → Shows two 2 T → Shows three 3 T → Shows four 4 T
        → IsBestNumber T result.class result.number }
{
    if four != 0 {
        let first = top(four);
        let number = with_top_digits(first + 2, clear(all, first), 1);
        return RankPattern { class: 7, number };
    }
    if three != 0 {
        let first = top(three);
        let more = clear(two, first);
        if more != 0 {
            let number = (first + 2) * 16 + top(more) + 2;
            return RankPattern { class: 6, number };
        }
        let number = with_top_digits(first + 2, clear(all, first), 2);
        return RankPattern { class: 3, number };
    }
    if two != 0 {
        let first = top(two);
        let more = clear(two, first);
        if more != 0 {
            let second = top(more);
            let rest = clear(clear(all, first), second);
            let number = with_top_digits((first + 2) * 16 + second + 2, rest, 1);
            return RankPattern { class: 2, number };
        }
        let number = with_top_digits(first + 2, clear(all, first), 3);
        return RankPattern { class: 1, number };
    }
    let number = with_top_digits(0, all, 5);
    RankPattern { class: 0, number }
}
