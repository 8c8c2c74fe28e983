//! Numbers.
ghost use Rattle.std.specs.Prelude.{◌≡◌, ◌<◌, ◌≤◌, ◌↔◌, IsTrue, length, slice_index, nat_le};
ghost use Rattle.std.specs.List.{list_all};
ghost use Rattle.std.specs.Char.{is_ascii_digit, digit_value};
ghost use Rattle.std.specs.Str.Parse.{digits_value};
ghost use Rattle.bg_text.specs.Pieces.{IsPiece};
ghost use Rattle.bg_text.specs.Tokens as definition;

use crate::fault::{DECIMAL_NUMBER, NUMBER_TOO_LARGE};
use crate::piece::Piece;
use crate::runs::digit_count;
use crate::spelling::number_kind;

/// The run of digits in front, the first of which stands there.
pub(crate) fn number(bytes: &[u8]) -> Piece
    requires { IsTrue (is_ascii_digit (slice_index bytes.now 0)) }
    ensures { IsPiece bytes.now result }
{
    let (digits, behind) = bytes.split_at(digit_count(bytes));
    if is_decimal(behind) {
        Piece::Bad(DECIMAL_NUMBER, 0)
    } else if is_small(digits) {
        Piece::Token(number_kind(digits), digits.len())
    } else {
        Piece::Bad(NUMBER_TOO_LARGE, 0)
    }
}

/// Whether a dot and a digit stand in front.
fn is_decimal(behind: &[u8]) -> bool
    ensures { result ≡ definition.is_decimal behind.now }
{
    match behind {
        [b'.', digit, ..] => digit.is_ascii_digit(),
        _ => false,
    }
}

/// A number above this one is above the greatest, once a digit follows.
const LARGEST_BEFORE_A_DIGIT: u64 = 922_337_203_685_477_580;

/// The greatest number.
const GREATEST: u64 = 9_223_372_036_854_775_807;

/// Whether the digits spell no number above the greatest.
fn is_small(digits: &[u8]) -> bool
    requires { IsTrue (list_all is_ascii_digit digits.now) }
    ensures { result ≡ nat_le (digits_value 10 digits.now) definition.greatest_int }
{
    let mut value = 0;
    for digit in digits {
        if value > LARGEST_BEFORE_A_DIGIT {
            return false;
        }
        value = value * 10 + u64::from(digit_of(*digit));
        if value > GREATEST {
            return false;
        }
    }
    true
}

/// The number that the digit stands for.
fn digit_of(byte: u8) -> u8
    requires { IsTrue (is_ascii_digit byte) }
    ensures value { result ≡ digit_value byte }
    ensures small { result < 10 }
{
    byte - b'0'
}
