//! How often ranks occur, from the masks of the four suits.
ghost use Rattle.std.specs.Prelude.{◌<◌, ◌^◌};
ghost use Rattle.hand_order.specs.Tops.{IsLevel};

/// The ranks that occur at least once, twice, three times and four times.
#[derive(Clone, Copy, Debug)]
pub struct Levels {
    pub all: u16,
    pub two: u16,
    pub three: u16,
    pub four: u16,
}

/// The levels of the masks of four suits.
pub fn levels_of(c: u16, d: u16, h: u16, s: u16) -> Levels
    ensures all { IsLevel result.all 1 c d h s }
    ensures two { IsLevel result.two 2 c d h s }
    ensures three { IsLevel result.three 3 c d h s }
    ensures four { IsLevel result.four 4 c d h s }
    ensures small { (result.all < 2 ^ 16) × (result.two < 2 ^ 16)
        × (result.three < 2 ^ 16) × (result.four < 2 ^ 16) }
{
    Levels {
        all: c | d | h | s,
        two: (c & d) | (h & s) | ((c | d) & (h | s)),
        three: (c & d & (h | s)) | (h & s & (c | d)),
        four: c & d & h & s,
    }
}
