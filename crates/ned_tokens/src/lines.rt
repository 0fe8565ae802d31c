//! The lines of a text, its tokens, and the line that it is refused at.

ghost use Rattle.std.specs.Prelude.{◌≡◌, ◌<◌, ◌≤◌, ◌∷◌, [], length, IfOk, MatchOption};
ghost use Rattle.ned_tokens.specs.Lines as spec;

use crate::lexing::line_tokens;
use crate::token::Token;
use sqlite_items::Items;
use std::alloc::{AllocError, Global};

/// The tokens of a text, and the number of each one's line.
#[derive(Drop)]
pub struct TokenList {
    pub tokens: Items<Token>,
    pub lines: Items<usize>,
}

/// The first line without its end, and what is after its end.
fn first_line(bytes: &[u8]) -> (&[u8], &[u8])
    requires { 0 < length bytes.now }
    ensures lines { spec.lines_of bytes.now ≡ result.0.now ∷ spec.lines_of result.1.now }
    ensures shorter { length result.1.now < length bytes.now }
{
    let mut end = 0;
    'bytes: while end < bytes.len() {
        if bytes[end] == b'\n' {
            let (line, _) = bytes.split_at(end);
            let (_, rest) = bytes.split_at(end + 1);
            return (line, rest);
        }
        end += 1;
    }
    (bytes, &[])
}

/// The tokens of a text. Each stands in one line, as none goes on after a line's end.
pub fn tokenize(alloc: Global, bytes: &[u8]) -> Result<TokenList, AllocError>
    ensures tokens { IfOk result (λ list. list.tokens ≡ spec.tokens_of bytes.now) }
    ensures lines { IfOk result (λ list. list.lines ≡ spec.line_numbers bytes.now) }
{
    let mut tokens = Vec::new(alloc);
    let mut lines = Vec::new(alloc);
    let mut rest = bytes;
    let mut number = 0;
    let mut inside = false;
    'lines: while !rest.is_empty() {
        let (line, after) = first_line(rest);
        number += 1;
        inside = line_tokens(alloc, inside, line, number, &mut tokens, &mut lines)?;
        rest = after;
    }
    Ok(TokenList {
        tokens: Items::from_vec(tokens),
        lines: Items::from_vec(lines),
    })
}

/// The line of the last byte, 1 in an empty text.
#[tactic(auto, unfolding(crate::specs::Lines::last_line))]
fn last_line(bytes: &[u8]) -> usize
    ensures { result ≡ spec.last_line bytes.now }
{
    let mut line = 1;
    let mut rest = bytes;
    'bytes: while let Some((b, after)) = rest.split_first() {
        if after.is_empty() {
            return line;
        }
        if *b == b'\n' {
            line += 1;
        }
        rest = after;
    }
    line
}

/// The line of the token at which this many are left; with none left that of the last byte.
#[tactic(auto, unfolding(crate::specs::Lines::blamed_line))]
pub fn blamed_line(bytes: &[u8], lines: &[usize], left: usize) -> usize
    requires numbers { lines.now ≡ spec.line_numbers bytes.now }
    requires within { left ≤ length lines.now }
    ensures { result ≡ spec.blamed_line bytes.now left }
{
    if left == 0 {
        return last_line(bytes);
    }
    lines[lines.len() - left]
}
