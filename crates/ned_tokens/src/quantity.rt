//! Quantities: digits, perhaps a point and digits, and a unit; several in a row are summed.

ghost use Rattle.std.specs.Prelude.{◌≡◌, ◌<◌, ◌≤◌, ◌^◌, ◌*◌};
ghost use Rattle.ned_tokens.specs.Quantities as quantities;

use crate::digits::{LIMIT, digit_of, value_of};
use crate::runs::{Class, begins, behind, split_run};
use crate::token::Token;
use crate::units::unit_of;
use sim_values::value::Dimension;

/// Whether a point and a digit come next.
fn begins_fraction(bytes: &[u8]) -> bool
    ensures { result ≡ quantities.begins_fraction bytes.now }
{
    match bytes {
        [b'.', rest @ ..] => begins(Class::Digit, rest),
        _ => false,
    }
}

/// Whether what is after the first digits makes a quantity of them.
pub(crate) fn begins_quantity(bytes: &[u8]) -> bool
    ensures { result ≡ quantities.begins_quantity bytes.now }
{
    begins(Class::Letter, bytes) || begins_fraction(bytes)
}

/// The digits after a point, and what is after them.
fn fraction(bytes: &[u8]) -> (&[u8], &[u8])
    ensures { (result.0.now, result.1.now) ≡ quantities.fraction_at bytes.now }
{
    match bytes {
        [b'.', rest @ ..] if begins(Class::Digit, rest) => split_run(Class::Digit, rest),
        _ => (&[], bytes),
    }
}

/// These digits after the point, of a unit of this many: how many that is, if it is a whole number.
fn part_of(factor: u64, digits: &[u8]) -> Option<u64>
    requires { factor ≤ 9 * 10 ^ 16 }
    ensures { result ≡ quantities.part_of factor digits.now }
{
    let mut part: u64 = 0;
    let mut index = digits.len();
    while index > 0 {
        index -= 1;
        let tenfold = part + digit_of(digits[index]) * factor;
        if tenfold % 10 != 0 {
            return None;
        }
        part = tenfold / 10;
    }
    Some(part)
}

/// The amount of a unit of this many, if it is a whole number below 2^63.
fn amount_of(factor: u64, whole: &[u8], fraction: &[u8]) -> Option<u64>
    requires some { 0 < factor }
    requires small { factor ≤ 9 * 10 ^ 16 }
    ensures { result ≡ quantities.amount_of factor whole.now fraction.now }
{
    let part = part_of(factor, fraction)?;
    let whole = value_of(Class::Digit, whole)?;
    let product = whole.checked_mul(factor)?;
    let amount = product.checked_add(part)?;
    if amount < LIMIT { Some(amount) } else { None }
}

/// A piece of a quantity, and what is after it; no amount where it has none.
fn piece(bytes: &[u8]) -> (Option<(Dimension, u64)>, &[u8])
    ensures { (result.0, result.1.now) ≡ quantities.piece_at bytes.now }
{
    let (whole, after) = split_run(Class::Digit, bytes);
    let (fraction, after) = fraction(after);
    let (unit, after) = split_run(Class::Letter, after);
    (measured(unit, whole, fraction), after)
}

fn measured(unit: &[u8], whole: &[u8], fraction: &[u8]) -> Option<(Dimension, u64)>
    ensures { result ≡ quantities.measured unit.now whole.now fraction.now }
{
    let (dimension, factor) = unit_of(unit)?;
    let amount = amount_of(factor, whole, fraction)?;
    Some((dimension, amount))
}

fn same_dimension(a: Dimension, b: Dimension) -> bool
    ensures { result ≡ quantities.same_dimension a b }
{
    a == b
}

/// The sum of amounts of one dimension, if it is below 2^63.
fn added(a: Option<(Dimension, u64)>, b: Option<(Dimension, u64)>) -> Option<(Dimension, u64)>
    ensures { result ≡ quantities.added a b }
{
    let (dimension, first) = a?;
    let (other, second) = b?;
    if !same_dimension(dimension, other) {
        return None;
    }
    let sum = first.checked_add(second)?;
    if sum < LIMIT {
        Some((dimension, sum))
    } else {
        None
    }
}

/// The quantities in a row with which the bytes begin, and what is after them.
#[tactic(auto, unfolding(crate::specs::Quantities::quantity_at))]
pub(crate) fn quantity(bytes: &[u8]) -> (Token, &[u8])
    ensures { (result.0, result.1.now) ≡ quantities.quantity_at bytes.now }
{
    let (mut sum, mut rest) = piece(bytes);
    'pieces: while begins(Class::Digit, behind(Class::Space, rest)) {
        let (next, after) = piece(behind(Class::Space, rest));
        sum = added(sum, next);
        rest = after;
    }
    match sum {
        Some((dimension, amount)) => (Token::Quantity(dimension, amount), rest),
        None => (Token::Stray(b'0'), rest),
    }
}
