//! Compares a number, and the number of values of a list, with a least and a greatest number.
ghost use Rattle.std.specs.Prelude.{◌≡◌, ◌≤◌, ◌&&◌, length, nat_le, IfOk};
ghost use Rattle.first_fault.specs.Forms.{within};
ghost use Rattle.first_fault.specs.Numbers.{saturated};
ghost use Rattle.first_fault.specs.Reading.{Gives};

use crate::stop::ReadError;

/// The number if it is from `least` to `most`, or else the fault.
pub fn in_range<F: Copy>(number: u64, least: u64, most: u64, fault: F) -> Result<u64, ReadError<F>>
    ensures within { IfOk result (λ number. (least ≤ number) × (number ≤ most)) }
    ensures said { Gives (λ number. number) result (within least most fault number) }
{
    if least <= number && number <= most {
        Ok(number)
    } else {
        Err(ReadError::Fault(fault))
    }
}

/// Whether there are from `least` to `most` values.
pub fn has_count<T>(values: &[T], least: usize, most: usize) -> bool
    ensures { result ≡ (nat_le least (length values.now) && nat_le (length values.now) most) }
{
    least <= values.len() && values.len() <= most
}

/// The number, or the greatest number of 32 bits if it is above that.
pub fn saturating_u32(number: u64) -> u32
    ensures { result ≡ saturated number }
{
    if number > 4_294_967_295 {
        4_294_967_295
    } else {
        number as u32
    }
}
