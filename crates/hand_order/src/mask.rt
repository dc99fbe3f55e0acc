//! The bits of a mask of ranks.
ghost use Rattle.std.specs.Prelude.{◌≡◌, ◌<◌, ◌≤◌, ℕ, ◌==◌, if◌then◌else◌, ◌+◌, ◌*◌, ◌-◌, ◌^◌, ◌%◌};
ghost use Rattle.std.specs.Int.{bit_at, bit_not, w16};
ghost use lib.Bits.{bit_and};
ghost use Rattle.hand_order.specs.Digits.{with_digits};
ghost use Rattle.hand_order.specs.Tops.{highest, tops};

/// The number with `need` of the highest ranks of a mask as further digits.
pub fn with_top_digits(number: u32, mask: u16, need: u8) -> u32
    requires { with_digits number (tops need mask) < 2 ^ 32 }
    ensures { result ≡ with_digits number (tops need mask) }
{
    if need == 0 || mask == 0 {
        return number;
    }
    let place = top(mask);
    with_top_digits(number * 16 + place + 2, clear(mask, place), need - 1)
}

/// The place of the highest bit.
pub fn top(mask: u16) -> u32
    requires { 0 < mask }
    ensures place { result ≡ highest mask }
    ensures set { bit_at mask result ≡ 1 }
    ensures highest { (k : ℕ) → bit_at mask k ≡ 1 → k ≤ result }
    ensures within { result < 16 }
{
    15 - mask.leading_zeros()
}

/// The mask without a bit.
pub fn clear(mask: u16, place: u32) -> u16
    requires { place < 16 }
    ensures number { result ≡ bit_and mask (bit_not w16 (1 * 2 ^ place % 2 ^ 16)) }
    ensures bits { (k : ℕ) → bit_at result k ≡ (if place == k then 0 else bit_at mask k) }
{
    mask & !(1 << place)
}
