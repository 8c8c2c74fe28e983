//! Arithmetic on whole numbers of 64 bits with sign.
ghost use Rattle.std.specs.Prelude.{◌≡◌};
ghost use Rattle.bg_values.specs.Arithmetic as definition;

use crate::formula::Operator;
use crate::refusal::{Cause, Refusal};

/// The result of the operator at that token.
pub(crate) fn apply(operator: Operator, at: u32, x: i64, y: i64) -> Result<i64, Refusal>
    ensures { result ≡ definition.applied operator at x y }
{
    match operator {
        Operator::Add => add(at, x, y),
        Operator::Subtract => subtract(at, x, y),
        Operator::Multiply => multiply(at, x, y),
        Operator::Divide => divide(at, x, y),
    }
}

/// The number with the other sign.
pub(crate) fn negate(at: u32, x: i64) -> Result<i64, Refusal>
    ensures { result ≡ definition.negated at x }
{
    range(at, -i128::from(x))
}

fn add(at: u32, x: i64, y: i64) -> Result<i64, Refusal>
    ensures { result ≡ definition.applied Operator.Add at x y }
{
    range(at, i128::from(x) + i128::from(y))
}

fn subtract(at: u32, x: i64, y: i64) -> Result<i64, Refusal>
    ensures { result ≡ definition.applied Operator.Subtract at x y }
{
    range(at, i128::from(x) - i128::from(y))
}

fn multiply(at: u32, x: i64, y: i64) -> Result<i64, Refusal>
    ensures { result ≡ definition.applied Operator.Multiply at x y }
{
    match x.checked_mul(y) {
        Some(value) => Ok(value),
        None => Err(Refusal::new(Cause::NumberOverflow, at)),
    }
}

/// The quotient, cut towards zero.
fn divide(at: u32, x: i64, y: i64) -> Result<i64, Refusal>
    ensures { result ≡ definition.applied Operator.Divide at x y }
{
    if y == 0 {
        return Err(Refusal::new(Cause::ZeroDivisor, at));
    }
    match x.checked_div(y) {
        Some(value) => Ok(value),
        None => Err(Refusal::new(Cause::NumberOverflow, at)),
    }
}

/// The number, where 64 bits with sign hold it.
fn range(at: u32, value: i128) -> Result<i64, Refusal>
    ensures { result ≡ definition.ranged at value }
{
    if value < i128::from(i64::MIN) || value > i128::from(i64::MAX) {
        Err(Refusal::new(Cause::NumberOverflow, at))
    } else {
        Ok(value as i64)
    }
}
