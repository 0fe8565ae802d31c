//! Whole numbers of 64 bits.

ghost use Rattle.std.specs.Prelude.{◌≡◌, ◌^◌, ◌<◌, pos, ◌*ℤ◌, ◌≤ℤ◌, ◌<ℤ◌, unsigned_abs};
ghost use Rattle.std.specs.Int.{int_pow};
ghost use Rattle.param_eval.specs.Wholes as wholes;

use sim_values::value_fault::ValueFault;

/// The sum.
pub(crate) fn sum(left: i64, right: i64) -> Result<i64, ValueFault>
    ensures { result ≡ wholes.sum left right }
{
    left.checked_add(right).ok_or(ValueFault::Overflow)
}

/// The difference.
pub(crate) fn difference(left: i64, right: i64) -> Result<i64, ValueFault>
    ensures { result ≡ wholes.difference left right }
{
    left.checked_sub(right).ok_or(ValueFault::Overflow)
}

/// The product.
pub(crate) fn product(left: i64, right: i64) -> Result<i64, ValueFault>
    ensures { result ≡ wholes.product left right }
{
    left.checked_mul(right).ok_or(ValueFault::Overflow)
}

/// The quotient, where it is a whole number.
pub(crate) fn quotient(left: i64, right: i64) -> Result<i64, ValueFault>
    ensures { result ≡ wholes.quotient left right }
{
    if right == 0 || left.wrapping_rem(right) != 0 {
        return Err(ValueFault::Inexact);
    }
    left.checked_div(right).ok_or(ValueFault::Overflow)
}

/// What division leaves, with the sign of the left side.
pub(crate) fn remainder(left: i64, right: i64) -> Result<i64, ValueFault>
    ensures { result ≡ wholes.remainder left right }
{
    if right == 0 {
        return Err(ValueFault::Inexact);
    }
    Ok(left.wrapping_rem(right))
}

/// A power whose exponent is above 63: of a number with two bits or more it is outside the bounds.
fn great_power(base: i64, exponent: u64) -> Result<i64, ValueFault>
    requires { 63 < exponent }
    ensures { result ≡ wholes.bounded (int_pow base exponent) }
{
    if base == 0 {
        return Ok(0);
    }
    if base == 1 {
        return Ok(1);
    }
    if base == -1 {
        return Ok(if exponent % 2 == 0 { 1 } else { -1 });
    }
    Err(ValueFault::Overflow)
}

/// The power, in at most as many steps as an exponent below 64 takes.
pub(crate) fn power(base: i64, exponent: i64) -> Result<i64, ValueFault>
    ensures { result ≡ wholes.power base exponent }
{
    if exponent < 0 {
        return Err(ValueFault::Inexact);
    }
    if exponent > 63 {
        return great_power(base, exponent as u64);
    }
    base.checked_pow(exponent as u32)
        .ok_or(ValueFault::Overflow)
}

/// The number times two to the power of 63.
fn shifted_all(number: i64) -> Result<i64, ValueFault>
    ensures { result ≡ wholes.bounded (number *ℤ pos (2 ^ 63)) }
{
    match number {
        0 => Ok(0),
        -1 => Ok(i64::MIN),
        _ => Err(ValueFault::Overflow),
    }
}

/// Two to a power that is a number of 64 bits.
fn two_to(exponent: i64) -> i64
    requires low { pos 0 ≤ℤ exponent }
    requires high { exponent <ℤ pos 63 }
    ensures { result ≡ pos (2 ^ unsigned_abs exponent) }
{
    2i64.pow(exponent as u32)
}

/// The number times a power of two.
pub(crate) fn shift_left(number: i64, by: i64) -> Result<i64, ValueFault>
    ensures { result ≡ wholes.shift_left number by }
{
    if by == 63 {
        return shifted_all(number);
    }
    if by < 0 || by > 63 {
        return Err(ValueFault::Overflow);
    }
    product(number, two_to(by))
}

/// The number over a power of two, rounded down.
pub(crate) fn shift_right(number: i64, by: i64) -> Result<i64, ValueFault>
    ensures { result ≡ wholes.shift_right number by }
{
    if by < 0 || by > 63 {
        return Err(ValueFault::Overflow);
    }
    Ok(number >> (by as u32))
}

/// The negation.
pub(crate) fn negation(number: i64) -> Result<i64, ValueFault>
    ensures { result ≡ wholes.negation number }
{
    number.checked_neg().ok_or(ValueFault::Overflow)
}

/// The number with each bit the other one.
pub(crate) fn complement(number: i64) -> i64
    ensures { result ≡ wholes.complement number }
{
    !number
}
