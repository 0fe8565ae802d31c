//! Single tokens.

ghost use Rattle.std.specs.Prelude.{◌≡◌};
ghost use Rattle.ned_tokens.specs.Rule.{Gives, Reads, begins};
ghost use Rattle.ned_leaves.specs.Grammar as grammar;

use ned_tokens::refusal::Refusal;
use ned_tokens::token::{Keyword, Mark, Token};
use sim_values::text::Text;
use std::alloc::Global;

fn same_word(a: Keyword, b: Keyword) -> bool
    ensures { result ≡ grammar.same_word a b }
{
    a == b
}

fn same_mark(a: Mark, b: Mark) -> bool
    ensures { result ≡ grammar.same_mark a b }
{
    a == b
}

/// Reads a word of the language.
#[tactic(auto, unfolding(crate::specs::Grammar::word))]
pub fn word(wanted: Keyword, tokens: &[Token]) -> Result<&[Token], Refusal>
    ensures { Gives (λ rest. (tt, rest.now)) result ((grammar.word wanted).read tokens.now) }
{
    match tokens {
        [Token::Word(found), rest @ ..] if same_word(*found, wanted) => Ok(rest),
        _ => Err(Refusal::At(tokens.len())),
    }
}

/// Whether the word comes next.
#[tactic(auto, unfolding(crate::specs::Grammar::word))]
pub fn begins_word(wanted: Keyword, tokens: &[Token]) -> bool
    ensures { result ≡ begins (grammar.word wanted).starts tokens.now }
{
    match tokens {
        [Token::Word(found), ..] => same_word(*found, wanted),
        _ => false,
    }
}

/// Reads a mark.
#[tactic(auto, unfolding(crate::specs::Grammar::mark))]
pub fn mark(wanted: Mark, tokens: &[Token]) -> Result<&[Token], Refusal>
    ensures { Gives (λ rest. (tt, rest.now)) result ((grammar.mark wanted).read tokens.now) }
{
    match tokens {
        [Token::Mark(found), rest @ ..] if same_mark(*found, wanted) => Ok(rest),
        _ => Err(Refusal::At(tokens.len())),
    }
}

/// Whether the mark comes next.
#[tactic(auto, unfolding(crate::specs::Grammar::mark))]
pub fn begins_mark(wanted: Mark, tokens: &[Token]) -> bool
    ensures { result ≡ begins (grammar.mark wanted).starts tokens.now }
{
    match tokens {
        [Token::Mark(found), ..] => same_mark(*found, wanted),
        _ => false,
    }
}

/// Reads a name.
#[tactic(auto, unfolding(crate::specs::Grammar::name))]
pub fn name(alloc: Global, tokens: &[Token]) -> Result<(Text, &[Token]), Refusal>
    ensures { Reads grammar.name tokens.now result }
{
    match tokens {
        [Token::Name(found), rest @ ..] => Ok((found.copy(alloc)?, rest)),
        _ => Err(Refusal::At(tokens.len())),
    }
}

/// Whether a name comes next.
#[tactic(auto, unfolding(crate::specs::Grammar::name))]
pub fn begins_name(tokens: &[Token]) -> bool
    ensures { result ≡ begins grammar.name.starts tokens.now }
{
    matches!(tokens, [Token::Name(_), ..])
}
