//! Texts in quotes.

ghost use Rattle.std.specs.Prelude.{◌≡◌, IfOk, OnOk, false, Some, [], if◌then◌else◌};
ghost use Rattle.ned_tokens.specs.Literals as literals;

use crate::token::Token;
use sim_values::text::Text;
use std::alloc::{AllocError, Global};

/// What an escape stands for.
fn escaped(b: u8) -> Option<u8>
    ensures { result ≡ literals.escaped b }
{
    match b {
        b'"' => Some(b'"'),
        b'\\' => Some(b'\\'),
        b'n' => Some(b'\n'),
        b't' => Some(b'\t'),
        _ => None,
    }
}

fn literal_token(found: Vec<u8>, proper: bool) -> Token
    ensures { result ≡ literals.literal_token (literals.held proper found.items) }
{
    if proper {
        Token::Literal(Text::from_vec(found))
    } else {
        Token::OddLiteral
    }
}

/// Adds what a byte stands for to a text, or notes that it stands for nothing.
fn put(found: &mut Vec<u8>, proper: &mut bool, byte: Option<u8>) -> Result<(), AllocError>
    ensures { OnOk result (literals.held proper.new found.new.items
        ≡ literals.with_byte (literals.held proper.old found.old.items) byte) }
{
    match byte {
        Some(b) => found.push(b)?,
        None => *proper = false,
    }
    Ok(())
}

/// The text in quotes after its first quote, and what is after it.
pub(crate) fn literal(alloc: Global, bytes: &[u8]) -> Result<(Token, &[u8]), AllocError>
    ensures { IfOk result (λ x. literals.literal_from false (Some []) bytes.now ≡ (x.0, x.1.now)) }
{
    let mut found = Vec::new(alloc);
    let mut proper = true;
    let mut escapes = false;
    let mut rest = bytes;
    'bytes: while let Some((b, after)) = rest.split_first() {
        if escapes {
            put(&mut found, &mut proper, escaped(*b))?;
            escapes = false;
        } else if *b == b'"' {
            return Ok((literal_token(found, proper), after));
        } else if *b == b'\\' {
            escapes = true;
        } else {
            put(&mut found, &mut proper, Some(*b))?;
        }
        rest = after;
    }
    let token = if escapes {
        Token::OpenLiteral
    } else {
        Token::Broken
    };
    Ok((token, rest))
}
