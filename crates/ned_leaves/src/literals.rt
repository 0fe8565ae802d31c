//! Literals.

ghost use Rattle.ned_tokens.specs.Rule.{Reads};
ghost use Rattle.ned_leaves.specs.Grammar as grammar;

use ned_tokens::LIMIT;
use ned_tokens::refusal::Refusal;
use ned_tokens::token::{Keyword, Token};
use sim_values::value::Value;
use std::alloc::Global;

/// A literal of one token.
/// `plain_literal = number | "true" | "false" | text | quantity`.
#[tactic(auto, unfolding(crate::specs::Grammar::plain_literal))]
pub fn plain_literal(alloc: Global, tokens: &[Token]) -> Result<(Value, &[Token]), Refusal>
    ensures { Reads grammar.plain_literal tokens.now result }
{
    match tokens {
        [Token::Number(number), rest @ ..] if *number < LIMIT => {
            Ok((Value::Whole(*number as i64), rest))
        }
        [Token::Word(Keyword::True), rest @ ..] => Ok((Value::Truth(true), rest)),
        [Token::Word(Keyword::False), rest @ ..] => Ok((Value::Truth(false), rest)),
        [Token::Literal(text), rest @ ..] => Ok((Value::Text(text.copy(alloc)?), rest)),
        [Token::Quantity(dimension, amount), rest @ ..] if *amount < LIMIT => {
            Ok((Value::Quantity(*dimension, *amount as i64), rest))
        }
        _ => Err(Refusal::At(tokens.len())),
    }
}
