//! Operands without depth: literals, names, `this.x` and `parent.x`, `sub.x`, `index`.

ghost use Rattle.std.specs.Prelude.{◌≡◌};
ghost use Rattle.ned_tokens.specs.Rule.{Reads, begins, optional};
ghost use Rattle.ned_expressions.specs.Grammar as grammar;

use ned_leaves::leaves::{begins_mark, mark, name, word};
use ned_leaves::literals::plain_literal;
use ned_tokens::refusal::Refusal;
use ned_tokens::token::{Keyword, Mark, Token};
use ned_trees::expressions::{Choice, Expression, Scope};
use sim_values::dropping::err_dropping;
use sim_values::text::{Text, spells};
use sqlite_items::Boxed;
use std::alloc::Global;

/// What an operand is, by its first token.
#[derive(Clone, Copy, PartialEq, Eq)]
pub(crate) enum Kind {
    /// Parentheses.
    Group,
    Signed,
    Index,
    ParentIndex,
    Sizeof,
    Exists,
    /// `min` or `max`.
    Chosen,
    /// Any other name.
    Named,
    /// `this.x` or `parent.x`.
    Scoped,
    /// A literal, or none at all.
    Other,
}

/// What stands after a name.
#[derive(Drop)]
pub(crate) enum Tail {
    /// `.x`.
    Member(Text),
    /// `[e].x`.
    Element(Boxed<Expression>, Text),
}

/// The function of that name.
pub(crate) fn choice_named(text: &[u8]) -> Option<Choice>
    ensures { result ≡ grammar.choice_named text.now }
{
    if spells(text, b"min") {
        Some(Choice::Min)
    } else if spells(text, b"max") {
        Some(Choice::Max)
    } else {
        None
    }
}

fn kind_of_name(choice: Option<Choice>) -> Kind
    ensures { result ≡ grammar.kind_of_name choice }
{
    match choice {
        None => Kind::Named,
        Some(_) => Kind::Chosen,
    }
}

/// What an operand with this first token is.
pub(crate) fn kind_of(token: &Token) -> Kind
    ensures { result ≡ grammar.kind_of token.now }
{
    match token {
        Token::Mark(Mark::LeftParen) => Kind::Group,
        Token::Mark(Mark::Minus | Mark::Bang | Mark::Tilde) => Kind::Signed,
        Token::Word(Keyword::Index) => Kind::Index,
        Token::Word(Keyword::ParentIndex) => Kind::ParentIndex,
        Token::Word(Keyword::Sizeof) => Kind::Sizeof,
        Token::Word(Keyword::Exists) => Kind::Exists,
        Token::Word(Keyword::This | Keyword::Parent) => Kind::Scoped,
        Token::Name(text) => kind_of_name(choice_named(text.as_bytes())),
        _ => Kind::Other,
    }
}

/// A literal: a number, a truth value, a text or quantities in a row.
/// `literal = plain_literal`.
#[tactic(auto, unfolding(crate::specs::Grammar::literal))]
pub(crate) fn literal(alloc: Global, tokens: &[Token]) -> Result<(Expression, &[Token]), Refusal>
    ensures { Reads grammar.literal tokens.now result }
{
    let (value, rest) = read!(plain_literal(alloc, tokens));
    Ok((Expression::Literal(value), rest))
}

fn scope_of(token: &Token) -> Option<Scope>
    ensures { result ≡ grammar.scope_of token.now }
{
    match token {
        Token::Word(Keyword::This) => Some(Scope::This),
        Token::Word(Keyword::Parent) => Some(Scope::Parent),
        _ => None,
    }
}

/// `scoped = ("this" | "parent") "." name`.
#[tactic(auto, unfolding(crate::specs::Grammar::scoped))]
pub(crate) fn scoped(alloc: Global, tokens: &[Token]) -> Result<(Expression, &[Token]), Refusal>
    ensures { Reads grammar.scoped tokens.now result }
{
    let [token, rest @ ..] = tokens else {
        return Err(Refusal::At(0));
    };
    let Some(scope) = scope_of(token) else {
        return Err(Refusal::At(tokens.len()));
    };
    let rest = read!(mark(Mark::Dot, rest));
    let (found, rest) = read!(name(alloc, rest));
    Ok((Expression::Scoped(scope, found), rest))
}

/// `member = "." name`.
#[tactic(auto, unfolding(crate::specs::Grammar::member))]
pub(crate) fn member(alloc: Global, tokens: &[Token]) -> Result<(Tail, &[Token]), Refusal>
    ensures { Reads grammar.member tokens.now result }
{
    let rest = read!(mark(Mark::Dot, tokens));
    let (found, rest) = read!(name(alloc, rest));
    Ok((Tail::Member(found), rest))
}

#[tactic(auto, unfolding(crate::specs::Grammar::member, ned_leaves::specs::Grammar::mark))]
pub(crate) fn begins_member(tokens: &[Token]) -> bool
    ensures { result ≡ begins grammar.member.starts tokens.now }
{
    begins_mark(Mark::Dot, tokens)
}

/// `[ member ]`.
fn optional_member(alloc: Global, tokens: &[Token]) -> Result<(Option<Tail>, &[Token]), Refusal>
    ensures { Reads (optional grammar.member) tokens.now result }
{
    if !begins_member(tokens) {
        return Ok((None, tokens));
    }
    let (tail, rest) = read!(member(alloc, tokens));
    Ok((Some(tail), rest))
}

/// A name and what stands after it.
pub(crate) fn with_tail(text: Text, tail: Option<Tail>) -> Expression
    ensures { result ≡ grammar.with_tail text tail }
{
    match tail {
        None => Expression::Name(text),
        Some(Tail::Member(found)) => Expression::Member(text, found),
        Some(Tail::Element(index, found)) => Expression::Element(text, index, found),
    }
}

/// `flat_named = name [ member ]`.
#[tactic(auto, unfolding(crate::specs::Grammar::flat_named))]
fn flat_named(alloc: Global, tokens: &[Token]) -> Result<(Expression, &[Token]), Refusal>
    ensures { Reads grammar.flat_named tokens.now result }
{
    let (text, rest) = read!(name(alloc, tokens));
    let (tail, rest) = read_behind!(text, optional_member(alloc, rest));
    Ok((with_tail(text, tail), rest))
}

/// `flat_index = "index"`.
#[tactic(auto, unfolding(crate::specs::Grammar::flat_index))]
fn flat_index(tokens: &[Token]) -> Result<(Expression, &[Token]), Refusal>
    ensures { Reads grammar.flat_index tokens.now result }
{
    let rest = read!(word(Keyword::Index, tokens));
    Ok((Expression::Index, rest))
}

/// An operand without depth.
/// `atom = flat_index | flat_named | scoped | literal`.
#[tactic(auto, unfolding(crate::specs::Grammar::atom))]
pub(crate) fn atom(alloc: Global, tokens: &[Token]) -> Result<(Expression, &[Token]), Refusal>
    ensures { Reads grammar.atom tokens.now result }
{
    let [token, ..] = tokens else {
        return literal(alloc, tokens);
    };
    match kind_of(token) {
        Kind::Index => flat_index(tokens),
        Kind::Chosen | Kind::Named => flat_named(alloc, tokens),
        Kind::Scoped => scoped(alloc, tokens),
        _ => literal(alloc, tokens),
    }
}
