//! Straights found in the mask of the ranks that occur: five bits in a row, or the straight that
//! the ace begins.
ghost use Rattle.std.specs.Prelude.{◌≡◌, ◌≤◌, ◌<◌, ◌==◌, ◌&&◌, ◌⊎◌, ◌↔◌, ◌+◌, ◌^◌, ℕ};
ghost use Rattle.std.specs.Int.{bit_at};
ghost use Rattle.hand_order.specs.StraightRanks.{HasLow, HasRun, HasStraight, IsRunFrom};
ghost use Rattle.hand_order.specs.StraightRanks as straight_ranks;
ghost use Rattle.hand_order.specs.Tops.{Shows};

use crate::mask::top;

/// Which straight the ace begins, besides the one that it ends.
#[derive(Clone, Copy, Debug, PartialEq, Eq)]
pub enum LowStraight {
    /// A2345, topped by the five.
    FiveHigh,
    /// A6789 of a deck without two to five, topped by the nine.
    NineHigh,
    /// No straight: the ace is always high.
    Nothing,
}

/// The top of the best straight among the ranks of a mask, or 0 if there is none.
pub fn top_straight(mask: u16, low: LowStraight) -> u8
    ensures most { (T : ℕ → ℕ) (top : ℕ) → Shows mask 1 T → HasStraight low T top → top ≤ result }
    ensures found { (T : ℕ → ℕ) → Shows mask 1 T → (result ≡ 0) ⊎ HasStraight low T result }
{
    top_run(mask).max(top_low(mask, low))
}

// The top of the highest five ranks in a row, or 0 if there are none.
fn top_run(mask: u16) -> u8
    ensures most { (T : ℕ → ℕ) (top : ℕ) → Shows mask 1 T → HasRun T top → top ≤ result }
    ensures found { (T : ℕ → ℕ) → Shows mask 1 T → (result ≡ 0) ⊎ HasRun T result }
{
    let runs = runs_of(mask);
    if runs == 0 {
        return 0;
    }
    top(runs) as u8 + 6
}

// The places from which five bits in a row are set: a mask that is shifted down by one has a bit
// where the next one was set.
fn runs_of(mask: u16) -> u16
    ensures bits { (k : ℕ) → (bit_at result k ≡ 1) ↔ IsRunFrom mask k }
    ensures within { result < 2 ^ 16 }
{
    mask & mask >> 1 & mask >> 2 & mask >> 3 & mask >> 4
}

// The top of the straight that the ace begins, or 0 if one of its ranks is missing.
fn top_low(mask: u16, low: LowStraight) -> u8
    ensures most { (T : ℕ → ℕ) (top : ℕ) → Shows mask 1 T → HasLow low T top → top ≤ result }
    ensures found { (T : ℕ → ℕ) → Shows mask 1 T → (result ≡ 0) ⊎ HasLow low T result }
{
    match low {
        LowStraight::FiveHigh => if has_low_straight(mask, 0) { 5 } else { 0 },
        LowStraight::NineHigh => if has_low_straight(mask, 4) { 9 } else { 0 },
        LowStraight::Nothing => 0,
    }
}

// Whether the ace is set, and four bits in a row from this one up.
fn has_low_straight(mask: u16, least: u32) -> bool
    requires { least ≤ 8 }
    ensures { result ≡ straight_ranks.has_ace_and_four mask least }
{
    has(mask, 12)
        && has(mask, least)
        && has(mask, least + 1)
        && has(mask, least + 2)
        && has(mask, least + 3)
}

// Whether a bit is set.
fn has(mask: u16, place: u32) -> bool
    requires { place < 16 }
    ensures { result ≡ (bit_at mask place == 1) }
{
    mask >> place & 1 == 1
}
