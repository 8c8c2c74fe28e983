//! Numbers by their digits.
ghost use Rattle.std.specs.Prelude.{◌≡◌, ◌<◌, IsTrue};
ghost use Rattle.std.specs.List.{list_all};
ghost use Rattle.std.specs.Char.{is_ascii_digit, digit_value};
ghost use Rattle.bg_values.specs.Numbers as definition;

/// The number that the digits spell, where they are digits alone, at least one, and it is at most
/// 9,223,372,036,854,775,807.
pub(crate) fn number_in(digits: &[u8]) -> Option<i64>
    ensures { result ≡ definition.number_in digits.now }
{
    if digits.is_empty() {
        return None;
    }
    if are_digits(digits) {
        value_of(digits)
    } else {
        None
    }
}

fn are_digits(digits: &[u8]) -> bool
    ensures { result ≡ list_all is_ascii_digit digits.now }
{
    digits.iter().all(|digit| digit.is_ascii_digit())
}

/// A number above this one is above the greatest, once a digit follows.
const LARGEST_BEFORE_A_DIGIT: u64 = 922_337_203_685_477_580;

/// The greatest number.
const GREATEST: u64 = 9_223_372_036_854_775_807;

fn value_of(digits: &[u8]) -> Option<i64>
    requires { IsTrue (list_all is_ascii_digit digits.now) }
    ensures { result ≡ definition.small_value digits.now }
{
    let mut value = 0;
    for digit in digits {
        if value > LARGEST_BEFORE_A_DIGIT {
            return None;
        }
        value = value * 10 + u64::from(digit_of(*digit));
        if value > GREATEST {
            return None;
        }
    }
    Some(value as i64)
}

/// The number that the digit stands for.
fn digit_of(byte: u8) -> u8
    requires { IsTrue (is_ascii_digit byte) }
    ensures value { result ≡ digit_value byte }
    ensures small { result < 10 }
{
    byte - b'0'
}
