//! Numbers.

ghost use Rattle.std.specs.Prelude.{◌≡◌};
ghost use Rattle.ned_tokens.specs.Numbers as numbers;

use crate::digits::value_of;
use crate::quantity::{begins_quantity, quantity};
use crate::runs::{Class, split_run};
use crate::token::Token;

/// The number with these digits of this class; a stray byte where there are none, or it is too
/// large.
#[tactic(auto, unfolding(crate::specs::Numbers::number_of))]
fn number_of(class: Class, digits: &[u8]) -> Token
    ensures { result ≡ numbers.number_of class digits.now }
{
    if digits.is_empty() {
        return Token::Stray(b'0');
    }
    match value_of(class, digits) {
        Some(value) => Token::Number(value),
        None => Token::Stray(b'0'),
    }
}

/// The number or the quantities that begin with this digit, and what is after them.
#[tactic(auto, unfolding(crate::specs::Numbers::number_at))]
pub(crate) fn number_at(bytes: &[u8]) -> (Token, &[u8])
    ensures { (result.0, result.1.now) ≡ numbers.number_at bytes.now }
{
    if let [b'0', b'x', rest @ ..] = bytes {
        let (digits, after) = split_run(Class::Hex, rest);
        return (number_of(Class::Hex, digits), after);
    }
    let (digits, after) = split_run(Class::Digit, bytes);
    if begins_quantity(after) {
        quantity(bytes)
    } else {
        (number_of(Class::Digit, digits), after)
    }
}
