//! The values of digits.

ghost use Rattle.std.specs.Prelude.{◌≡◌, ◌≤◌};
ghost use Rattle.ned_tokens.specs.Digits as values;

use crate::runs::Class;

/// Numbers and amounts are below this.
pub const LIMIT: u64 = 1 << 63;

fn base_of(class: Class) -> u64
    ensures { result ≡ values.base_of class }
{
    match class {
        Class::Hex => 16,
        _ => 10,
    }
}

/// What a digit stands for.
pub(crate) fn digit_of(b: u8) -> u64
    ensures value { result ≡ values.digit_of b }
    ensures small { result ≤ 168 }
{
    if b <= b'9' {
        b.saturating_sub(b'0') as u64
    } else if b <= b'F' {
        b.saturating_sub(55) as u64
    } else {
        b.saturating_sub(87) as u64
    }
}

/// The value of digits of this class, if it is below 2^63.
pub(crate) fn value_of(class: Class, digits: &[u8]) -> Option<u64>
    ensures { result ≡ values.below_limit (values.value_of class digits.now) }
{
    let base = base_of(class);
    let mut value: u64 = 0;
    let mut rest = digits;
    'digits: while let [digit, after @ ..] = rest {
        let Some(shifted) = value.checked_mul(base) else {
            return None;
        };
        let Some(next) = shifted.checked_add(digit_of(*digit)) else {
            return None;
        };
        if next >= LIMIT {
            return None;
        }
        value = next;
        rest = after;
    }
    Some(value)
}
