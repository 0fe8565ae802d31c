//! The operators and their levels.

ghost use Rattle.std.specs.Prelude.{◌≡◌, ◌<◌, nat_lt};
ghost use Rattle.ned_tokens.specs.Growth.{next};
ghost use Rattle.ned_expressions.specs.Grammar as grammar;

use ned_tokens::token::{Mark, Token};
use ned_trees::expressions::{Expression, Operator};

/// Where an expression stands.
#[derive(Clone, Copy, PartialEq, Eq)]
pub enum GrammarPlace {
    /// Where a comparison may stand.
    Anywhere,
    /// Between `<` and `>`, where a comparison stands in parentheses.
    Angles,
}

fn operator_of(token: &Token) -> Option<Operator>
    ensures { result ≡ grammar.operator_of token.now }
{
    match token {
        Token::Mark(Mark::Or) => Some(Operator::Or),
        Token::Mark(Mark::Xor) => Some(Operator::Xor),
        Token::Mark(Mark::And) => Some(Operator::And),
        Token::Mark(Mark::Equal) => Some(Operator::Equal),
        Token::Mark(Mark::NotEqual) => Some(Operator::NotEqual),
        Token::Mark(Mark::Less) => Some(Operator::Less),
        Token::Mark(Mark::AtMost) => Some(Operator::AtMost),
        Token::Mark(Mark::Greater) => Some(Operator::Greater),
        Token::Mark(Mark::AtLeast) => Some(Operator::AtLeast),
        Token::Mark(Mark::Bar) => Some(Operator::BitOr),
        Token::Mark(Mark::Hash) => Some(Operator::BitXor),
        Token::Mark(Mark::Ampersand) => Some(Operator::BitAnd),
        Token::Mark(Mark::ShiftLeft) => Some(Operator::ShiftLeft),
        Token::Mark(Mark::ShiftRight) => Some(Operator::ShiftRight),
        Token::Mark(Mark::Plus) => Some(Operator::Add),
        Token::Mark(Mark::Minus) => Some(Operator::Subtract),
        Token::Mark(Mark::Star) => Some(Operator::Multiply),
        Token::Mark(Mark::Slash) => Some(Operator::Divide),
        Token::Mark(Mark::Percent) => Some(Operator::Remainder),
        Token::Mark(Mark::Caret) => Some(Operator::Power),
        _ => None,
    }
}

/// The level of an operator, from 1, the loosest, to 11.
pub(crate) fn level_of(operator: Operator) -> u32
    ensures { result ≡ grammar.level_of operator }
{
    match operator {
        Operator::Or => 1,
        Operator::Xor => 2,
        Operator::And => 3,
        Operator::Equal
        | Operator::NotEqual
        | Operator::Less
        | Operator::AtMost
        | Operator::Greater
        | Operator::AtLeast => 4,
        Operator::BitOr => 5,
        Operator::BitXor => 6,
        Operator::BitAnd => 7,
        Operator::ShiftLeft | Operator::ShiftRight => 8,
        Operator::Add | Operator::Subtract => 9,
        Operator::Multiply | Operator::Divide | Operator::Remainder => 10,
        Operator::Power => 11,
    }
}

/// The least level of what stands on the left of an operator of this level.
pub(crate) fn left_level(level: u32) -> u32
    ensures { result ≡ grammar.left_level level }
{
    if level == 11 { 12 } else { level }
}

/// The least level of what stands on the right of an operator of this level.
pub(crate) fn right_level(level: u32) -> u32
    requires { level < 12 }
    ensures { result ≡ grammar.right_level level }
{
    if level == 11 { 11 } else { level + 1 }
}

fn stands(place: GrammarPlace, operator: Operator) -> bool
    ensures { result ≡ grammar.stands place operator }
{
    match place {
        GrammarPlace::Anywhere => true,
        GrammarPlace::Angles => level_of(operator) != 4,
    }
}

/// The operator that a token is at this place.
pub(crate) fn operator_in(place: GrammarPlace, token: &Token) -> Option<Operator>
    ensures { result ≡ grammar.operator_in place token.now }
{
    let operator = operator_of(token)?;
    if stands(place, operator) {
        Some(operator)
    } else {
        None
    }
}

/// The level of the operator that a token begins at this place.
fn rank(place: GrammarPlace, token: &Token) -> Option<u32>
    ensures { result ≡ grammar.rank place token.now }
{
    if let Token::Mark(Mark::Question) = token {
        return Some(0);
    }
    let operator = operator_in(place, token)?;
    Some(level_of(operator))
}

/// The level of an expression's outermost operator.
pub(crate) fn tightness(expression: &Expression) -> u32
    ensures { result ≡ grammar.tightness expression.now }
{
    match expression {
        Expression::Conditional(..) => 0,
        Expression::Binary(operator, ..) => level_of(*operator),
        _ => 12,
    }
}

/// Whether an expression is less deep than this.
fn is_shallower(expression: &Expression, limit: u32) -> bool
    ensures { result ≡ nat_lt (grammar.depth expression.now) limit }
{
    if limit == 0 {
        return false;
    }
    match expression {
        Expression::Literal(_)
        | Expression::Name(_)
        | Expression::Scoped(..)
        | Expression::Member(..)
        | Expression::Index => true,
        Expression::IndexCall
        | Expression::ParentIndex
        | Expression::Sizeof(_)
        | Expression::Exists(_) => limit > 1,
        Expression::Element(_, part, _) | Expression::Group(part) | Expression::Signed(_, part) => {
            is_shallower(part.get(), limit - 1)
        }
        Expression::ExistsAt(_, part) => limit > 1 && is_shallower(part.get(), limit - 2),
        Expression::Chosen(_, a, b) | Expression::Binary(_, a, b) => {
            is_shallower(a.get(), limit - 1) && is_shallower(b.get(), limit - 1)
        }
        Expression::Conditional(c, a, b) => {
            is_shallower(c.get(), limit - 1)
                && is_shallower(a.get(), limit - 1)
                && is_shallower(b.get(), limit - 1)
        }
    }
}

/// Whether an operator of this level may stand after an expression, where the whole is at most so
/// deep and has no looser operator than `least`.
fn may(deepest: u32, least: u32, left: &Expression, level: u32) -> bool
    ensures { result ≡ grammar.may deepest least left.now level }
{
    least <= level && left_level(level) <= tightness(left) && is_shallower(left, deepest)
}

/// The level of the operator that a token begins after an expression, if one may stand there.
fn follows(
    place: GrammarPlace,
    deepest: u32,
    least: u32,
    left: &Expression,
    token: &Token,
) -> Option<u32>
    ensures { result ≡ grammar.follows place deepest least left.now token.now }
{
    let level = rank(place, token)?;
    if may(deepest, least, left, level) {
        Some(level)
    } else {
        None
    }
}

/// The level of the operator that the first token begins after an expression, if one may stand
/// there.
pub(crate) fn next_level(
    place: GrammarPlace,
    deepest: u32,
    least: u32,
    left: &Expression,
    tokens: &[Token],
) -> Option<u32>
    ensures { result ≡ next (grammar.follows place deepest least) left.now tokens.now }
{
    match tokens {
        [] => None,
        [token, ..] => follows(place, deepest, least, left, token),
    }
}
