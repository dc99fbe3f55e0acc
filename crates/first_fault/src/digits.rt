//! Reads a number from decimal digits; leading zeros are allowed.
ghost use Rattle.std.specs.Prelude.{◌≡◌, ◌≤◌, IsTrue};
ghost use Rattle.first_fault.specs.Digits.{number_of};
ghost use Rattle.first_fault.specs.Digits as decimal;

/// Whether the text is one or more decimal digits.
#[tactic(auto, unfolding(crate::specs::Digits::are_digits))]
pub fn is_all_digits(text: &[u8]) -> bool
    ensures { result ≡ decimal.are_digits text.now }
{
    if text.is_empty() {
        return false;
    }
    for sign in text {
        if !sign.is_ascii_digit() {
            return false;
        }
    }
    true
}

/// The number that the digits say, or `None` if it is above `most`. Check first that they are
/// digits.
#[tactic(auto, unfolding(crate::specs::Digits::number_of, crate::specs::Digits::are_digits))]
pub fn read_digits(digits: &[u8], most: u64) -> Option<u64>
    requires digits { IsTrue (decimal.are_digits digits.now) }
    requires small { most ≤ 1000000000000000000 }
    ensures { result ≡ number_of most digits.now }
{
    let mut number = 0;
    for digit in digits {
        number = 10 * number + u64::from(*digit - b'0');
        if number > most {
            return None;
        }
    }
    Some(number)
}
