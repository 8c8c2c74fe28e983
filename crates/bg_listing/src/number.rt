//! Numbers.
ghost use Rattle.std.specs.Prelude.{◌≡◌, ◌<◌, ◌≤◌, IfSome, IsTrue, MatchOption};
ghost use Rattle.std.specs.List.{list_all};
ghost use Rattle.std.specs.Char.{is_ascii_digit, digit_value};
ghost use Rattle.std.specs.Str.Parse.{digits_value};
ghost use Rattle.bg_listing.specs.Limits.{greatest_number};
ghost use Rattle.bg_listing.specs.Answers.{Finds, GivesOrFails};
ghost use Rattle.bg_listing.specs.Reading as reading;

use crate::bytes::digits;
use crate::fault::NotThere;

/// The greatest number of a listing.
pub(crate) const GREATEST: u32 = 2_147_483_647;

/// The number that the whole run of digits in front spells, and the bytes behind it.
#[tactic(auto, unfolding(crate::specs::Reading::number_at))]
pub(crate) fn number_up_to(bytes: &[u8], most: u64) -> Option<(u64, &[u8])>
    requires { most ≤ 9223372036854775808 }
    ensures value { Finds (λ x. (x.0, x.1.now)) result (reading.number_at most bytes.now) }
    ensures small { IfSome result (λ x. x.0 ≤ most) }
{
    let (digits, rest) = digits(bytes);
    if !is_numeral(digits) {
        return None;
    }
    match value_of(digits, most) {
        Some(value) => Some((value, rest)),
        None => None,
    }
}

/// The number of a listing in front, and the bytes behind it.
pub(crate) fn number(bytes: &[u8]) -> Result<(u32, &[u8]), NotThere>
    ensures { GivesOrFails (λ x. (x.0, x.1.now)) result (reading.number_at greatest_number bytes.now) }
{
    match number_up_to(bytes, u64::from(GREATEST)) {
        Some((number, rest)) => Ok((number as u32, rest)),
        None => Err(NotThere),
    }
}

/// Whether there is a digit, and 0 stands in front only where it stands alone.
fn is_numeral(digits: &[u8]) -> bool
    ensures { result ≡ reading.is_numeral digits.now }
{
    !digits.is_empty() && (digits[0] != b'0' || digits.len() == 1)
}

/// A number above this one is above every bound, once a digit follows.
const LARGEST_BEFORE_A_DIGIT: u64 = 922_337_203_685_477_580;

/// The number that the digits spell, where it is at most `most`.
fn value_of(digits: &[u8], most: u64) -> Option<u64>
    requires all { IsTrue (list_all is_ascii_digit digits.now) }
    requires bound { most ≤ 9223372036854775808 }
    ensures { MatchOption result (most < digits_value 10 digits.now) (λ value. (value ≤ most) × (value ≡ digits_value 10 digits.now)) }
{
    let mut value = 0;
    for digit in digits {
        if value > LARGEST_BEFORE_A_DIGIT {
            return None;
        }
        value = value * 10 + u64::from(digit_of(*digit));
        if value > most {
            return None;
        }
    }
    Some(value)
}

/// The number that the digit stands for.
fn digit_of(byte: u8) -> u8
    requires { IsTrue (is_ascii_digit byte) }
    ensures value { result ≡ digit_value byte }
    ensures small { result < 10 }
{
    byte - b'0'
}
