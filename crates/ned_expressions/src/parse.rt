//! Reading a text that is an expression.

ghost use Rattle.std.specs.Prelude.{◌≡◌, ◌<◌, length, IfOk, IfErr, Err};
ghost use Rattle.sim_values.specs.Limits.{max_length};
ghost use Rattle.ned_leaves.specs.Answers.{Answers};
ghost use Rattle.ned_expressions.specs.ExpressionText.{IsExpressionText, ExplainsExpression};
ghost use Rattle.ned_expressions.specs.ExpressionText.{NamesFirstOfExpression};
ghost use Rattle.ned_trees.specs.declared.expressions.Expression.{Expression};

use crate::chains::whole_expression;
use ned_leaves::error::NedError;
use ned_tokens::lines::{blamed_line, tokenize};
use ned_tokens::refusal::Refusal;
use ned_trees::expressions::Expression;
use sim_values::text::MAX_LENGTH;
use std::alloc::Global;

/// The expression that a text is.
pub fn parse_expression(alloc: Global, bytes: &[u8]) -> Result<Expression, NedError>
    // What is read is what the text says.
    ensures accepted { IfOk result (λ expression. IsExpressionText bytes.now expression) }
    // What the text says is read, unless memory runs out.
    ensures complete { (expression : Expression) → IsExpressionText bytes.now expression
        → Answers expression result }
    // Each refusal has its reason.
    ensures explained { IfErr result (λ e. ExplainsExpression bytes.now e) }
    // A line that is named is that of the first token that can't go on.
    ensures first { IfErr result (λ e. NamesFirstOfExpression bytes.now e) }
    ensures large { max_length < length bytes.now → result ≡ Err NedError.TooLarge }
{
    if bytes.len() > MAX_LENGTH {
        return Err(NedError::TooLarge);
    }
    let list = tokenize(alloc, bytes)?;
    match whole_expression(alloc, list.tokens.as_slice()) {
        Ok(expression) => Ok(expression),
        Err(Refusal::Memory(error)) => Err(NedError::NoMemory(error)),
        Err(Refusal::At(left)) => Err(NedError::NedSyntax(blamed_line(
            bytes,
            list.lines.as_slice(),
            left,
        ))),
    }
}
