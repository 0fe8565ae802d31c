//! Operands: all that is no operator between operands.

ghost use Rattle.std.specs.Prelude.{◌≡◌, ◌<◌, IfOk};
ghost use Rattle.ned_tokens.specs.Rule.{Gives, Reads, begins, optional, token_read};
ghost use Rattle.ned_expressions.specs.Grammar as grammar;

use crate::atoms::{
    Kind, Tail, begins_member, choice_named, kind_of, literal, member, scoped, with_tail,
};
use crate::chains::boxed_within;
use crate::levels::GrammarPlace;
use ned_leaves::leaves::{begins_mark, mark, name, word};
use ned_tokens::refusal::Refusal;
use ned_tokens::token::{Keyword, Mark, Token};
use ned_trees::expressions::{Choice, Expression, Sign};
use sim_values::dropping::err_dropping;
use sim_values::text::Text;
use sqlite_items::Boxed;
use std::alloc::{AllocError, Global};

/// What stands after `min` or `max`.
#[derive(Drop)]
pub(crate) enum ChoiceTail {
    /// `(a, b)`.
    Pair(Boxed<Expression>, Boxed<Expression>),
    Plain(Tail),
}

// ---- names

/// `brackets = "[" expression "]"`.
#[tactic(auto, unfolding(crate::specs::Grammar::brackets))]
#[cycle(exprs)]
fn brackets(
    alloc: Global,
    depth: u32,
    place: GrammarPlace,
    tokens: &[Token],
) -> Result<(Boxed<Expression>, &[Token]), Refusal>
    requires { depth < 64 }
    ensures { Reads (grammar.brackets (grammar.expression_within depth place 0)) tokens.now result }
{
    let rest = read!(mark(Mark::LeftBracket, tokens));
    let (index, rest) = read!(boxed_within(alloc, depth, place, 0, rest));
    let rest = read_behind!(index, mark(Mark::RightBracket, rest));
    Ok((index, rest))
}

/// `element = brackets "." name`.
#[tactic(auto, unfolding(crate::specs::Grammar::element))]
#[cycle(exprs)]
fn element(
    alloc: Global,
    depth: u32,
    place: GrammarPlace,
    tokens: &[Token],
) -> Result<(Tail, &[Token]), Refusal>
    requires { depth < 64 }
    ensures { Reads (grammar.element (grammar.expression_within depth place 0)) tokens.now result }
{
    let (index, rest) = read!(brackets(alloc, depth, place, tokens));
    let rest = read_behind!(index, mark(Mark::Dot, rest));
    let (found, rest) = read_behind!(index, name(alloc, rest));
    Ok((Tail::Element(index, found), rest))
}

/// `tail = member | element`.
#[tactic(auto, unfolding(crate::specs::Grammar::tail))]
#[cycle(exprs)]
fn name_tail(
    alloc: Global,
    depth: u32,
    place: GrammarPlace,
    tokens: &[Token],
) -> Result<(Tail, &[Token]), Refusal>
    requires { depth < 64 }
    ensures { Reads (grammar.tail (grammar.expression_within depth place 0)) tokens.now result }
{
    if begins_member(tokens) {
        member(alloc, tokens)
    } else {
        element(alloc, depth, place, tokens)
    }
}

fn begins_tail(tokens: &[Token]) -> bool
    ensures { result ≡ begins grammar.begins_tail tokens.now }
{
    matches!(tokens, [Token::Mark(Mark::Dot | Mark::LeftBracket), ..])
}

/// `[ tail ]`.
#[tactic(auto, unfolding(crate::specs::Grammar::tail))]
#[cycle(exprs)]
fn optional_tail(
    alloc: Global,
    depth: u32,
    place: GrammarPlace,
    tokens: &[Token],
) -> Result<(Option<Tail>, &[Token]), Refusal>
    requires { depth < 64 }
    ensures { Reads (optional (grammar.tail (grammar.expression_within depth place 0)))
        tokens.now result }
{
    if !begins_tail(tokens) {
        return Ok((None, tokens));
    }
    let (found, rest) = read!(name_tail(alloc, depth, place, tokens));
    Ok((Some(found), rest))
}

fn plain_name(alloc: Global, tokens: &[Token]) -> Result<(Text, &[Token]), Refusal>
    ensures { Gives (λ x. (x.0, x.1.now)) result (token_read grammar.plain_name_of tokens.now) }
{
    match tokens {
        [Token::Name(text), rest @ ..] => match choice_named(text.as_bytes()) {
            None => Ok((text.copy(alloc)?, rest)),
            Some(_) => Err(Refusal::At(tokens.len())),
        },
        _ => Err(Refusal::At(tokens.len())),
    }
}

/// `named = name [ tail ]`, where the name is neither `min` nor `max`.
#[tactic(auto, unfolding(crate::specs::Grammar::named))]
#[cycle(exprs)]
fn named(
    alloc: Global,
    depth: u32,
    place: GrammarPlace,
    tokens: &[Token],
) -> Result<(Expression, &[Token]), Refusal>
    requires { depth < 64 }
    ensures { Reads (grammar.named (grammar.expression_within depth) place) tokens.now result }
{
    let (text, rest) = read!(plain_name(alloc, tokens));
    let (tail, rest) = read_behind!(text, optional_tail(alloc, depth, place, rest));
    Ok((with_tail(text, tail), rest))
}

// ---- `min` and `max`

/// `pair = "(" expression "," expression ")"`.
#[tactic(auto, unfolding(crate::specs::Grammar::pair))]
#[cycle(exprs)]
fn pair(alloc: Global, depth: u32, tokens: &[Token]) -> Result<(ChoiceTail, &[Token]), Refusal>
    requires { depth < 64 }
    ensures { Reads (grammar.pair (grammar.expression_within depth GrammarPlace.Anywhere 0))
        tokens.now result }
{
    let rest = read!(mark(Mark::LeftParen, tokens));
    let (a, rest) = read!(boxed_within(alloc, depth, GrammarPlace::Anywhere, 0, rest));
    let rest = read_behind!(a, mark(Mark::Comma, rest));
    let (b, rest) = read_behind!(
        a,
        boxed_within(alloc, depth, GrammarPlace::Anywhere, 0, rest)
    );
    let tail = ChoiceTail::Pair(a, b);
    let rest = read_behind!(tail, mark(Mark::RightParen, rest));
    Ok((tail, rest))
}

/// `choice_tail = pair | tail`.
#[tactic(auto, unfolding(crate::specs::Grammar::choice_tail, crate::specs::Grammar::pair, ned_leaves::specs::Grammar::mark))]
#[cycle(exprs)]
fn choice_tail(
    alloc: Global,
    depth: u32,
    place: GrammarPlace,
    tokens: &[Token],
) -> Result<(ChoiceTail, &[Token]), Refusal>
    requires { depth < 64 }
    ensures { Reads (grammar.choice_tail (grammar.expression_within depth) place)
        tokens.now result }
{
    if begins_mark(Mark::LeftParen, tokens) {
        return pair(alloc, depth, tokens);
    }
    let (found, rest) = read!(name_tail(alloc, depth, place, tokens));
    Ok((ChoiceTail::Plain(found), rest))
}

fn is_tail(tokens: &[Token]) -> bool
    ensures { result ≡ begins grammar.is_tail tokens.now }
{
    matches!(
        tokens,
        [
            Token::Mark(Mark::Dot | Mark::LeftBracket | Mark::LeftParen),
            ..
        ]
    )
}

/// `[ choice_tail ]`.
#[tactic(auto, unfolding(crate::specs::Grammar::choice_tail))]
#[cycle(exprs)]
fn optional_choice_tail(
    alloc: Global,
    depth: u32,
    place: GrammarPlace,
    tokens: &[Token],
) -> Result<(Option<ChoiceTail>, &[Token]), Refusal>
    requires { depth < 64 }
    ensures { Reads (optional (grammar.choice_tail (grammar.expression_within depth) place))
        tokens.now result }
{
    if !is_tail(tokens) {
        return Ok((None, tokens));
    }
    let (found, rest) = read!(choice_tail(alloc, depth, place, tokens));
    Ok((Some(found), rest))
}

fn choice_of(token: &Token) -> Option<Choice>
    ensures { result ≡ grammar.choice_of token.now }
{
    match token {
        Token::Name(text) => choice_named(text.as_bytes()),
        _ => None,
    }
}

fn choice_text(alloc: Global, choice: Choice) -> Result<Text, AllocError>
    ensures { IfOk result (λ text. text ≡ grammar.choice_text choice) }
{
    match choice {
        Choice::Min => Text::from_bytes(alloc, b"min".as_slice()),
        Choice::Max => Text::from_bytes(alloc, b"max".as_slice()),
    }
}

fn with_choice_tail(
    alloc: Global,
    choice: Choice,
    tail: Option<ChoiceTail>,
) -> Result<Expression, AllocError>
    ensures { IfOk result (λ e. e ≡ grammar.with_choice_tail choice tail) }
{
    match tail {
        None => Ok(Expression::Name(choice_text(alloc, choice)?)),
        Some(ChoiceTail::Plain(tail)) => Ok(with_tail(choice_text(alloc, choice)?, Some(tail))),
        Some(ChoiceTail::Pair(a, b)) => Ok(Expression::Chosen(choice, a, b)),
    }
}

/// `chosen = ("min" | "max") [ choice_tail ]`.
#[tactic(auto, unfolding(crate::specs::Grammar::chosen))]
#[cycle(exprs)]
fn chosen(
    alloc: Global,
    depth: u32,
    place: GrammarPlace,
    tokens: &[Token],
) -> Result<(Expression, &[Token]), Refusal>
    requires { depth < 64 }
    ensures { Reads (grammar.chosen (grammar.expression_within depth) place) tokens.now result }
{
    let [token, rest @ ..] = tokens else {
        return Err(Refusal::At(0));
    };
    let Some(choice) = choice_of(token) else {
        return Err(Refusal::At(tokens.len()));
    };
    let (tail, rest) = read!(optional_choice_tail(alloc, depth, place, rest));
    Ok((with_choice_tail(alloc, choice, tail)?, rest))
}

// ---- calls

/// `no_arguments = "(" ")"`.
#[tactic(auto, unfolding(crate::specs::Grammar::no_arguments))]
fn no_arguments(tokens: &[Token]) -> Result<&[Token], Refusal>
    ensures { Gives (λ rest. (tt, rest.now)) result (grammar.no_arguments.read tokens.now) }
{
    let rest = read!(mark(Mark::LeftParen, tokens));
    mark(Mark::RightParen, rest)
}

#[tactic(auto, unfolding(crate::specs::Grammar::no_arguments, ned_leaves::specs::Grammar::mark))]
fn begins_arguments(tokens: &[Token]) -> bool
    ensures { result ≡ begins grammar.no_arguments.starts tokens.now }
{
    begins_mark(Mark::LeftParen, tokens)
}

/// `index = "index" [ no_arguments ]`.
#[tactic(auto, unfolding(crate::specs::Grammar::index))]
fn index(tokens: &[Token]) -> Result<(Expression, &[Token]), Refusal>
    ensures { Reads grammar.index tokens.now result }
{
    let rest = read!(word(Keyword::Index, tokens));
    if !begins_arguments(rest) {
        return Ok((Expression::Index, rest));
    }
    let rest = read!(no_arguments(rest));
    Ok((Expression::IndexCall, rest))
}

/// `parent_index = "parentIndex" no_arguments`.
#[tactic(auto, unfolding(crate::specs::Grammar::parent_index))]
fn parent_index(tokens: &[Token]) -> Result<(Expression, &[Token]), Refusal>
    ensures { Reads grammar.parent_index tokens.now result }
{
    let rest = read!(word(Keyword::ParentIndex, tokens));
    let rest = read!(no_arguments(rest));
    Ok((Expression::ParentIndex, rest))
}

/// `size_of = "sizeof" "(" name ")"`.
#[tactic(auto, unfolding(crate::specs::Grammar::size_of))]
fn size_of(alloc: Global, tokens: &[Token]) -> Result<(Expression, &[Token]), Refusal>
    ensures { Reads grammar.size_of tokens.now result }
{
    let rest = read!(word(Keyword::Sizeof, tokens));
    let rest = read!(mark(Mark::LeftParen, rest));
    let (found, rest) = read!(name(alloc, rest));
    let rest = read_behind!(found, mark(Mark::RightParen, rest));
    Ok((Expression::Sizeof(found), rest))
}

/// `[ element_index ]`: `[e]` after the name in `exists`, nothing where the call may only be one
/// deep.
#[cycle(exprs)]
fn optional_index(
    alloc: Global,
    depth: u32,
    tokens: &[Token],
) -> Result<(Option<Boxed<Expression>>, &[Token]), Refusal>
    requires { depth < 64 }
    ensures { Reads (optional (grammar.element_index depth)) tokens.now result }
{
    if depth == 0 {
        return Ok((None, tokens));
    }
    any_index(alloc, depth - 1, tokens)
}

/// `[ brackets ]`.
#[tactic(auto, unfolding(crate::specs::Grammar::brackets, ned_leaves::specs::Grammar::mark))]
#[cycle(exprs)]
fn any_index(
    alloc: Global,
    depth: u32,
    tokens: &[Token],
) -> Result<(Option<Boxed<Expression>>, &[Token]), Refusal>
    requires { depth < 64 }
    ensures { Reads (optional (grammar.brackets
        (grammar.expression_within depth GrammarPlace.Anywhere 0))) tokens.now result }
{
    if !begins_mark(Mark::LeftBracket, tokens) {
        return Ok((None, tokens));
    }
    let (found, rest) = read!(brackets(alloc, depth, GrammarPlace::Anywhere, tokens));
    Ok((Some(found), rest))
}

fn exists_or_at(text: Text, index: Option<Boxed<Expression>>) -> Expression
    ensures { result ≡ grammar.exists_or_at text index }
{
    match index {
        None => Expression::Exists(text),
        Some(index) => Expression::ExistsAt(text, index),
    }
}

/// `exists_rule = "exists" "(" name [ element_index ] ")"`.
#[tactic(auto, unfolding(crate::specs::Grammar::exists_rule))]
#[cycle(exprs)]
fn exists(alloc: Global, depth: u32, tokens: &[Token]) -> Result<(Expression, &[Token]), Refusal>
    requires { depth < 64 }
    ensures { Reads (grammar.exists_rule (grammar.element_index depth)) tokens.now result }
{
    let rest = read!(word(Keyword::Exists, tokens));
    let rest = read!(mark(Mark::LeftParen, rest));
    let (found, rest) = read!(name(alloc, rest));
    let (index, rest) = read_behind!(found, optional_index(alloc, depth, rest));
    let made = exists_or_at(found, index);
    let rest = read_behind!(made, mark(Mark::RightParen, rest));
    Ok((made, rest))
}

// ---- operands

/// `group = "(" expression ")"`.
#[tactic(auto, unfolding(crate::specs::Grammar::group))]
#[cycle(exprs)]
fn group(alloc: Global, depth: u32, tokens: &[Token]) -> Result<(Expression, &[Token]), Refusal>
    requires { depth < 64 }
    ensures { Reads (grammar.group (grammar.expression_within depth)) tokens.now result }
{
    let rest = read!(mark(Mark::LeftParen, tokens));
    let (inner, rest) = read!(boxed_within(alloc, depth, GrammarPlace::Anywhere, 0, rest));
    let rest = read_behind!(inner, mark(Mark::RightParen, rest));
    Ok((Expression::Group(inner), rest))
}

fn sign_of(token: &Token) -> Option<Sign>
    ensures { result ≡ grammar.sign_of token.now }
{
    match token {
        Token::Mark(Mark::Minus) => Some(Sign::Minus),
        Token::Mark(Mark::Bang) => Some(Sign::Not),
        Token::Mark(Mark::Tilde) => Some(Sign::Complement),
        _ => None,
    }
}

/// `signed = ("-" | "!" | "~") operand`.
#[tactic(auto, unfolding(crate::specs::Grammar::signed))]
#[cycle(exprs)]
fn signed(
    alloc: Global,
    depth: u32,
    place: GrammarPlace,
    tokens: &[Token],
) -> Result<(Expression, &[Token]), Refusal>
    requires { depth < 64 }
    ensures { Reads (grammar.signed (grammar.expression_within depth) place) tokens.now result }
{
    let [token, rest @ ..] = tokens else {
        return Err(Refusal::At(0));
    };
    let Some(sign) = sign_of(token) else {
        return Err(Refusal::At(tokens.len()));
    };
    let (inner, rest) = read!(boxed_within(alloc, depth, place, 12, rest));
    Ok((Expression::Signed(sign, inner), rest))
}

/// All that is no operator between operands. `operand = group | signed | index | parent_index |
/// size_of | exists_rule | chosen | named | scoped | literal`.
#[tactic(auto, unfolding(crate::specs::Grammar::operand))]
#[cycle(exprs)]
pub(crate) fn operand(
    alloc: Global,
    depth: u32,
    place: GrammarPlace,
    tokens: &[Token],
) -> Result<(Expression, &[Token]), Refusal>
    requires { depth < 64 }
    ensures { Reads (grammar.operand (grammar.expression_within depth) (grammar.element_index depth)
        place) tokens.now result }
{
    let [token, ..] = tokens else {
        return literal(alloc, tokens);
    };
    match kind_of(token) {
        Kind::Group => group(alloc, depth, tokens),
        Kind::Signed => signed(alloc, depth, place, tokens),
        Kind::Index => index(tokens),
        Kind::ParentIndex => parent_index(tokens),
        Kind::Sizeof => size_of(alloc, tokens),
        Kind::Exists => exists(alloc, depth, tokens),
        Kind::Chosen => chosen(alloc, depth, place, tokens),
        Kind::Named => named(alloc, depth, place, tokens),
        Kind::Scoped => scoped(alloc, tokens),
        Kind::Other => literal(alloc, tokens),
    }
}
