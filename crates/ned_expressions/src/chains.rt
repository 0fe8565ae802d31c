//! Operators between operands.

ghost use Rattle.std.specs.Prelude.{◌≡◌, ◌≤◌, ◌<◌, suc, IfOk};
ghost use Rattle.ned_tokens.specs.Rule.{Gives, Reads, all_read};
ghost use Rattle.ned_expressions.specs.Grammar as grammar;

use crate::atoms::atom;
use crate::levels::{GrammarPlace, level_of, next_level, operator_in, right_level};
use crate::operands::operand;
use ned_leaves::leaves::mark;
use ned_tokens::refusal::Refusal;
use ned_tokens::token::{Mark, Token};
use ned_trees::expressions::{Expression, Operator};
use sim_values::dropping::err_dropping;
use sqlite_items::Boxed;
use std::alloc::{AllocError, Global};

const MAX_DEPTH: u32 = 64;

/// What stands after an operand: an operator and its right operand, or `? a : b`.
#[derive(Drop)]
pub(crate) enum ChainStep {
    Binary(Operator, Boxed<Expression>),
    Conditional(Boxed<Expression>, Boxed<Expression>),
}

/// The expression that a step makes of what stands before it, in a box.
fn joined(left: Boxed<Expression>, step: ChainStep) -> Expression
    ensures { result ≡ grammar.put left step }
{
    match step {
        ChainStep::Binary(operator, right) => Expression::Binary(operator, left, right),
        ChainStep::Conditional(a, b) => Expression::Conditional(left, a, b),
    }
}

/// The expression that a step makes of what stands before it.
fn put(alloc: Global, left: Expression, step: ChainStep) -> Result<Expression, AllocError>
    ensures { IfOk result (λ e. e ≡ grammar.put left step) }
{
    let left = Boxed::new(alloc, left)?;
    Ok(joined(left, step))
}

/// The operator of this level that a token is at this place.
fn at_level(level: u32, place: GrammarPlace, token: &Token) -> Option<Operator>
    ensures { result ≡ grammar.at_level level (grammar.operator_in place token.now) }
{
    let operator = operator_in(place, token)?;
    if level_of(operator) == level {
        Some(operator)
    } else {
        None
    }
}

/// `operator`: one of this level that may stand at this place.
#[tactic(auto, unfolding(crate::specs::Grammar::operator))]
fn operator(
    place: GrammarPlace,
    level: u32,
    tokens: &[Token],
) -> Result<(Operator, &[Token]), Refusal>
    ensures { Reads (grammar.operator place level) tokens.now result }
{
    let [token, rest @ ..] = tokens else {
        return Err(Refusal::At(0));
    };
    let Some(operator) = at_level(level, place, token) else {
        return Err(Refusal::At(tokens.len()));
    };
    Ok((operator, rest))
}

/// `conditional_step = "?" expression ":" expression`.
#[tactic(auto, unfolding(crate::specs::Grammar::conditional_step))]
#[cycle(exprs)]
fn conditional_step(
    alloc: Global,
    depth: u32,
    place: GrammarPlace,
    tokens: &[Token],
) -> Result<(ChainStep, &[Token]), Refusal>
    requires { depth < 64 }
    ensures { Reads (grammar.conditional_step (grammar.expression_within depth) place)
        tokens.now result }
{
    let rest = read!(mark(Mark::Question, tokens));
    let (a, rest) = read!(boxed_within(alloc, depth, place, 0, rest));
    let rest = read_behind!(a, mark(Mark::Colon, rest));
    let (b, rest) = read_behind!(a, boxed_within(alloc, depth, place, 1, rest));
    Ok((ChainStep::Conditional(a, b), rest))
}

/// `binary_step = operator expression`.
#[tactic(auto, unfolding(crate::specs::Grammar::binary_step))]
#[cycle(exprs)]
fn binary_step(
    alloc: Global,
    depth: u32,
    place: GrammarPlace,
    level: u32,
    tokens: &[Token],
) -> Result<(ChainStep, &[Token]), Refusal>
    requires shallow { depth < 64 }
    requires known { level < 12 }
    ensures { Reads (grammar.binary_step (grammar.expression_within depth) place level)
        tokens.now result }
{
    let (operator, rest) = read!(operator(place, level, tokens));
    let (right, rest) = read!(boxed_within(alloc, depth, place, right_level(level), rest));
    Ok((ChainStep::Binary(operator, right), rest))
}

/// `step = conditional_step | binary_step`.
#[cycle(exprs)]
fn next_step(
    alloc: Global,
    depth: u32,
    place: GrammarPlace,
    level: u32,
    tokens: &[Token],
) -> Result<(ChainStep, &[Token]), Refusal>
    requires shallow { depth < 64 }
    requires known { level < 12 }
    ensures { Reads (grammar.step (grammar.expression_within depth) place level) tokens.now result }
{
    if level == 0 {
        conditional_step(alloc, depth, place, tokens)
    } else {
        binary_step(alloc, depth, place, level, tokens)
    }
}

/// An operand and what stands after it.
/// `chain = operand { step }`.
#[cycle(exprs)]
fn chain(
    alloc: Global,
    depth: u32,
    place: GrammarPlace,
    least: u32,
    tokens: &[Token],
) -> Result<(Expression, &[Token]), Refusal>
    requires { depth < 64 }
    ensures { Reads (grammar.expression_within (suc depth) place least) tokens.now result }
{
    let (mut left, mut rest) = read!(operand(alloc, depth, place, tokens));
    'steps: while let Some(level) = next_level(place, depth + 1, least, &left, rest) {
        let (next, after) = read_behind!(left, next_step(alloc, depth, place, level, rest));
        left = put(alloc, left, next)?;
        rest = after;
    }
    Ok((left, rest))
}

/// An expression at most so deep, that has no looser operator than `least` outside parentheses.
#[cycle(exprs)]
pub(crate) fn within(
    alloc: Global,
    depth: u32,
    place: GrammarPlace,
    least: u32,
    tokens: &[Token],
) -> Result<(Expression, &[Token]), Refusal>
    requires { depth ≤ 64 }
    ensures { Reads (grammar.expression_within depth place least) tokens.now result }
{
    if depth == 0 {
        return atom(alloc, tokens);
    }
    chain(alloc, depth - 1, place, least, tokens)
}

/// The same, in a box, so that no reader has a box to make beside what it holds.
#[cycle(exprs)]
pub(crate) fn boxed_within(
    alloc: Global,
    depth: u32,
    place: GrammarPlace,
    least: u32,
    tokens: &[Token],
) -> Result<(Boxed<Expression>, &[Token]), Refusal>
    requires { depth ≤ 64 }
    ensures { Reads (grammar.expression_within depth place least) tokens.now result }
{
    let (expression, rest) = read!(within(alloc, depth, place, least, tokens));
    Ok((Boxed::new(alloc, expression)?, rest))
}

/// An expression.
#[tactic(auto, unfolding(crate::specs::Grammar::expression))]
pub fn expression(alloc: Global, tokens: &[Token]) -> Result<(Expression, &[Token]), Refusal>
    ensures { Reads grammar.expression tokens.now result }
{
    within(alloc, MAX_DEPTH, GrammarPlace::Anywhere, 0, tokens)
}

/// An expression between `<` and `>`.
#[tactic(auto, unfolding(crate::specs::Grammar::angle_expression))]
pub fn angle_expression(alloc: Global, tokens: &[Token]) -> Result<(Expression, &[Token]), Refusal>
    ensures { Reads grammar.angle_expression tokens.now result }
{
    within(alloc, MAX_DEPTH, GrammarPlace::Angles, 0, tokens)
}

/// `angled = "<" angle_expression ">"`, where a comparison stands in parentheses.
#[tactic(auto, unfolding(crate::specs::Grammar::angled))]
pub fn angled(alloc: Global, tokens: &[Token]) -> Result<(Expression, &[Token]), Refusal>
    ensures { Reads grammar.angled tokens.now result }
{
    let rest = read!(mark(Mark::Less, tokens));
    let (expression, rest) = read!(angle_expression(alloc, rest));
    let rest = read_behind!(expression, mark(Mark::Greater, rest));
    Ok((expression, rest))
}

/// An expression and nothing else.
pub(crate) fn whole_expression(alloc: Global, tokens: &[Token]) -> Result<Expression, Refusal>
    ensures { Gives (λ x. x) result (all_read grammar.expression tokens.now) }
{
    let (expression, rest) = read!(expression(alloc, tokens));
    match rest {
        [] => Ok(expression),
        _ => Err(err_dropping(expression, Refusal::At(rest.len()))),
    }
}
