//! Cuts a line into tokens.

ghost use Rattle.std.specs.Prelude.{◌≡◌, ◌++◌, ◌∷◌, [], IfOk, OnOk, Some, false, option_map};
ghost use Rattle.ned_tokens.specs.Lexing as lex;
ghost use Rattle.ned_tokens.specs.Lexing.{numbered_by, ends_open};
ghost use Rattle.ned_tokens.specs.Literals.{literal_from};
ghost use Rattle.std.specs.Str.{is_utf8};

use crate::literal::literal;
use crate::marks::mark_at;
use crate::numbers::number_at;
use crate::runs::{Class, behind, is_digit, is_letter, split_run};
use crate::token::Token;
use crate::words::keyword_of;
use sim_values::text::Text;
use std::alloc::{AllocError, Global};

/// The word or name with which these bytes begin, and what is after it.
#[tactic(auto, unfolding(crate::specs::Lexing::word_at))]
fn word_at(alloc: Global, bytes: &[u8]) -> Result<(Token, &[u8]), AllocError>
    ensures { IfOk result (λ x. lex.word_at bytes.now ≡ (x.0, x.1.now)) }
{
    let (word, after) = split_run(Class::Name, bytes);
    let token = match keyword_of(word) {
        Some(keyword) => Token::Word(keyword),
        None => Token::Name(Text::from_bytes(alloc, word)?),
    };
    Ok((token, after))
}

/// The token that begins with the first byte, and what is after it.
#[tactic(auto, unfolding(crate::specs::Lexing::token_at))]
fn token_at<'a>(
    alloc: Global,
    first: u8,
    rest: &'a [u8],
    all: &'a [u8],
) -> Result<(Token, &'a [u8]), AllocError>
    requires { all.now ≡ first ∷ rest.now }
    ensures { IfOk result (λ x. lex.token_at first rest.now ≡ (x.0, x.1.now)) }
{
    if is_letter(first) || first == b'_' {
        word_at(alloc, all)
    } else if is_digit(first) {
        Ok(number_at(all))
    } else if first == b'"' {
        literal(alloc, rest)
    } else {
        Ok(mark_at(first, rest))
    }
}

fn is_slash_next(bytes: &[u8]) -> bool
    ensures { result ≡ lex.is_slash_next bytes.now }
{
    matches!(bytes, [b'/', ..])
}

/// The token with which the bytes begin, and what is after it; none at the end or a comment.
#[tactic(auto, unfolding(crate::specs::Lexing::token_of))]
fn token_of(alloc: Global, bytes: &[u8]) -> Result<Option<(Token, &[u8])>, AllocError>
    ensures { IfOk result
        (λ found. lex.token_of bytes.now ≡ option_map (λ x. (x.0, x.1.now)) found) }
{
    match bytes {
        [] => Ok(None),
        [first, rest @ ..] => {
            if *first == b'/' && is_slash_next(rest) {
                return Ok(None);
            }
            Ok(Some(token_at(alloc, *first, rest, bytes)?))
        }
    }
}

fn is_open(token: &Token) -> bool
    ensures { result ≡ lex.is_open token.now }
{
    matches!(token, Token::OpenLiteral)
}

/// Adds a token of the line of that number, and says whether the token goes on after the line.
fn add(
    token: Token,
    number: usize,
    tokens: &mut Vec<Token>,
    lines: &mut Vec<usize>,
) -> Result<bool, AllocError>
    ensures tokens { OnOk result (tokens.new.items ≡ tokens.old.items ++ token ∷ []) }
    ensures lines { OnOk result (lines.new.items ≡ lines.old.items ++ number ∷ []) }
    ensures carried { IfOk result (λ carried. carried ≡ lex.is_open token) }
{
    let carried = is_open(&token);
    tokens.push(token)?;
    lines.push(number)?;
    Ok(carried)
}

/// Adds the tokens of the rest of a line, and says whether the last of all goes on after the line.
fn scan(
    alloc: Global,
    bytes: &[u8],
    was_open: bool,
    number: usize,
    tokens: &mut Vec<Token>,
    lines: &mut Vec<usize>,
) -> Result<bool, AllocError>
    ensures tokens { OnOk result (tokens.new.items ≡ tokens.old.items ++ lex.scanned bytes.now) }
    ensures lines { OnOk result (lines.new.items
        ≡ lines.old.items ++ numbered_by number (lex.scanned bytes.now)) }
    ensures carried { IfOk result
        (λ carried. carried ≡ ends_open was_open (lex.scanned bytes.now)) }
{
    let mut rest = bytes;
    let mut carried = was_open;
    'tokens: while let Some((token, after)) = token_of(alloc, behind(Class::Blank, rest))? {
        carried = add(token, number, tokens, lines)?;
        rest = after;
    }
    Ok(carried)
}

fn is_text(line: &[u8]) -> bool
    ensures { result ≡ is_utf8 line.now }
{
    match std::str::from_utf8(line) {
        Ok(_) => true,
        Err(_) => false,
    }
}

/// Adds the tokens of a line that begins in a text in quotes, and says whether the next does.
fn add_from_inside(
    alloc: Global,
    line: &[u8],
    number: usize,
    tokens: &mut Vec<Token>,
    lines: &mut Vec<usize>,
) -> Result<bool, AllocError>
    ensures tokens { OnOk result (tokens.new.items
        ≡ tokens.old.items ++ lex.behind_literal (literal_from false (Some []) line.now)) }
    ensures lines { OnOk result (lines.new.items ≡ lines.old.items
        ++ numbered_by number (lex.behind_literal (literal_from false (Some []) line.now))) }
    ensures carried { IfOk result (λ carried. carried
        ≡ ends_open false (lex.behind_literal (literal_from false (Some []) line.now))) }
{
    let (token, after) = literal(alloc, line)?;
    let carried = add(token, number, tokens, lines)?;
    scan(alloc, after, carried, number, tokens, lines)
}

/// Adds the tokens of a line that begins in a text in quotes, or outside one, and says whether the
/// next does.
#[tactic(auto, unfolding(crate::specs::Lexing::line_tokens))]
pub(crate) fn line_tokens(
    alloc: Global,
    inside: bool,
    line: &[u8],
    number: usize,
    tokens: &mut Vec<Token>,
    lines: &mut Vec<usize>,
) -> Result<bool, AllocError>
    ensures tokens { OnOk result (tokens.new.items
        ≡ tokens.old.items ++ lex.line_tokens inside line.now) }
    ensures lines { OnOk result (lines.new.items
        ≡ lines.old.items ++ numbered_by number (lex.line_tokens inside line.now)) }
    ensures carried { IfOk result
        (λ carried. carried ≡ ends_open false (lex.line_tokens inside line.now)) }
{
    if !is_text(line) {
        return add(Token::Broken, number, tokens, lines);
    }
    if inside {
        add_from_inside(alloc, line, number, tokens, lines)
    } else {
        scan(alloc, line, false, number, tokens, lines)
    }
}
