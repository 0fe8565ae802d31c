//! The lines where a text declares its types, and says something of a name.

use crate::names::last_part;
use ned_tokens::lines::tokenize;
use ned_tokens::token::{Keyword, Mark, Token};
use sim_values::NoMemory;
use std::alloc::Global;

/// What stands at a place.
#[derive(Clone, Copy)]
pub enum Sign {
    /// The word that begins the type.
    Type,
    /// `NAME :` or `NAME [..] :`, a submodule of the type itself, after `submodules:`, another
    /// submodule or a body.
    Submodule,
    /// `connections`, of the type itself.
    Connections,
    /// `-->`, `<--` or `<-->`, after `connections` of the type itself.
    Arrow,
    /// `int NAME`, or another word of a parameter.
    Parameter,
    /// `input NAME`, or another word of a gate.
    Gate,
    /// `extends NAME`, or a dotted name with that last part.
    Base,
    /// `NAME` or `int NAME`, a line of a parameter.
    Name,
    /// `NAME`, the last part of a name in the list after `extends` or `like`.
    Head,
}

/// A place in the text of a type.
#[derive(Clone, Copy)]
pub struct Spot<'a> {
    /// In the body of the submodule of that name.
    pub body: Option<&'a [u8]>,
    pub sign: Sign,
    /// The name of which the sign speaks.
    pub name: &'a [u8],
    /// After so many such places.
    pub behind: usize,
}

impl<'a> Spot<'a> {
    /// Where the type begins.
    pub fn of_type() -> Spot<'a> {
        Spot::first(Sign::Type, b"".as_slice())
    }

    /// The first place of the type where the sign says that of a name.
    pub fn first(sign: Sign, name: &'a [u8]) -> Spot<'a> {
        Spot {
            body: None,
            sign,
            name,
            behind: 0,
        }
    }
}

/// Whether it is that mark.
fn is_mark(token: Option<&Token>, mark: Mark) -> bool {
    match token {
        Some(Token::Mark(found)) => *found == mark,
        _ => false,
    }
}

/// Whether it is an arrow.
fn is_arrow(token: Option<&Token>) -> bool {
    matches!(
        token,
        Some(Token::Mark(Mark::ArrowRight | Mark::ArrowLeft | Mark::ArrowBoth))
    )
}

/// Whether it is that word.
fn is_word(token: Option<&Token>, word: Keyword) -> bool {
    match token {
        Some(Token::Word(found)) => *found == word,
        _ => false,
    }
}

/// Whether it is that name.
fn is_name(token: Option<&Token>, name: &[u8]) -> bool {
    match token {
        Some(Token::Name(found)) => found.is(name),
        _ => false,
    }
}

/// Whether it is a word that declares a parameter.
fn is_parameter_word(token: Option<&Token>) -> bool {
    matches!(
        token,
        Some(Token::Word(Keyword::Bool | Keyword::Int | Keyword::Text | Keyword::Double))
    )
}

/// Whether it is a word that declares a gate.
fn is_gate_word(token: Option<&Token>) -> bool {
    matches!(
        token,
        Some(Token::Word(Keyword::Input | Keyword::Output | Keyword::Inout))
    )
}

/// The token so many before that place.
fn token_before(tokens: &[Token], at: usize, by: usize) -> Option<&Token> {
    tokens.get(at.checked_sub(by)?)
}

/// The token after that place.
fn token_behind(tokens: &[Token], at: usize) -> Option<&Token> {
    tokens.get(at.saturating_add(1))
}

/// Whether the place is the first of the section that the word begins.
fn begins_section(tokens: &[Token], at: usize, word: Keyword) -> bool {
    is_mark(token_before(tokens, at, 1), Mark::Colon) && is_word(token_before(tokens, at, 2), word)
}

/// Whether a name at that place is that of a line, and not one in an expression.
fn begins_line(tokens: &[Token], at: usize) -> bool {
    let before = token_before(tokens, at, 1);
    is_mark(before, Mark::Semi)
        || is_mark(before, Mark::Open)
        || is_parameter_word(before)
        || begins_section(tokens, at, Keyword::Parameters)
}

/// Whether a name at that place may be that of a submodule, and not one in an expression with a
/// condition.
fn begins_submodule(tokens: &[Token], at: usize) -> bool {
    let before = token_before(tokens, at, 1);
    is_mark(before, Mark::Semi)
        || is_mark(before, Mark::Close)
        || begins_section(tokens, at, Keyword::Submodules)
}

/// Whether what stands after a name is `:`, or an index and then `:`.
fn is_before_colon(behind: &[Token]) -> bool {
    let mut depth = 0u64;
    for token in behind {
        match token {
            Token::Mark(Mark::LeftBracket) => depth = depth.saturating_add(1),
            Token::Mark(Mark::RightBracket) if depth > 0 => depth = depth.saturating_sub(1),
            _ if depth == 0 => return is_mark(Some(token), Mark::Colon),
            _ => {}
        }
    }
    false
}

/// Whether a name at that place is one of a head, after `extends`, `like`, a comma or a dot.
fn stands_in_head(tokens: &[Token], at: usize) -> bool {
    matches!(
        token_before(tokens, at, 1),
        Some(Token::Word(Keyword::Extends | Keyword::Like) | Token::Mark(Mark::Comma | Mark::Dot))
    )
}

/// Whether the dotted name with which tokens begin has the last part of that name.
fn is_last_part(tokens: &[Token], name: &[u8]) -> bool {
    let mut is_last = false;
    for token in tokens {
        match token {
            Token::Name(part) => is_last = part.is(name),
            Token::Mark(Mark::Dot) => is_last = false,
            _ => break,
        }
    }
    is_last
}

/// Whether the sign says that of a name at that place.
fn says(tokens: &[Token], at: usize, sign: Sign, name: &[u8]) -> bool {
    let (token, behind) = (tokens.get(at), token_behind(tokens, at));
    match sign {
        Sign::Type => true,
        Sign::Submodule => {
            let rest = tokens.get(at.saturating_add(1)..).unwrap_or(&[]);
            is_name(token, name) && is_before_colon(rest) && begins_submodule(tokens, at)
        }
        Sign::Connections => is_word(token, Keyword::Connections),
        Sign::Arrow => is_arrow(token),
        Sign::Parameter => is_parameter_word(token) && is_name(behind, name),
        Sign::Gate => is_gate_word(token) && is_name(behind, name),
        Sign::Base => {
            let rest = tokens.get(at.saturating_add(1)..).unwrap_or(&[]);
            is_word(token, Keyword::Extends) && is_last_part(rest, last_part(name))
        }
        Sign::Name => is_name(token, name) && begins_line(tokens, at),
        Sign::Head => is_name(token, last_part(name)) && stands_in_head(tokens, at),
    }
}

/// Whether what the sign speaks of stands directly within the type, and not in a type or a body
/// within it.
fn is_direct(sign: Sign) -> bool {
    matches!(sign, Sign::Submodule | Sign::Connections)
}

/// How many braces are open after a token.
fn braces_behind(open: u64, token: Option<&Token>) -> u64 {
    if is_mark(token, Mark::Open) {
        return open.saturating_add(1);
    }
    if is_mark(token, Mark::Close) {
        return open.saturating_sub(1);
    }
    open
}

/// The first token, from that one on, where the sign says that of a name, after so many such
/// places. For what stands directly within a type it is the token that begins the type.
fn place_of(
    tokens: &[Token],
    from: usize,
    sign: Sign,
    name: &[u8],
    behind: usize,
) -> Option<usize> {
    let mut left = behind;
    let mut open = 0u64;
    for at in from..tokens.len() {
        open = braces_behind(open, tokens.get(at));
        if (open == 1 || !is_direct(sign)) && says(tokens, at, sign, name) {
            if left == 0 {
                return Some(at);
            }
            left -= 1;
        }
    }
    None
}

/// The token within which a spot is looked for, of the type that begins at that token: the section
/// of connections, a submodule, or none.
fn scope_of(tokens: &[Token], head: usize, spot: Spot<'_>) -> Option<usize> {
    if matches!(spot.sign, Sign::Arrow) {
        return place_of(tokens, head, Sign::Connections, b"".as_slice(), 0);
    }
    match spot.body {
        Some(submodule) => place_of(tokens, head, Sign::Submodule, submodule, 0),
        None => None,
    }
}

/// The token at a spot in the type that begins at that token; that, the submodule's or
/// `connections` where there is none.
fn token_at(tokens: &[Token], head: usize, spot: Spot<'_>) -> usize {
    let (start, from) = match scope_of(tokens, head, spot) {
        Some(at) => (at, at.saturating_add(1)),
        None => (head, head),
    };
    place_of(tokens, from, spot.sign, spot.name, spot.behind).unwrap_or(start)
}

/// Where a token stands.
#[derive(Clone, Copy)]
struct TokenPlace {
    /// How many parentheses are open.
    parens: u64,
    /// In an import, after its word.
    import: bool,
    /// Directly after a `@`.
    property: bool,
}

impl TokenPlace {
    /// Whether a word that begins a type, a package or an import can be such a word there, and none
    /// of an import or a property.
    fn is_outside(self) -> bool {
        self.parens == 0 && !self.import && !self.property
    }

    /// The place after a mark, outside of imports.
    fn behind_mark(self, mark: Mark) -> TokenPlace {
        let mut next = self;
        if mark == Mark::LeftParen {
            next.parens = self.parens.saturating_add(1);
        } else if mark == Mark::RightParen {
            next.parens = self.parens.saturating_sub(1);
        }
        next.property = mark == Mark::At;
        next
    }

    /// The place after a token.
    fn behind(self, token: &Token) -> TokenPlace {
        let mut next = self;
        match token {
            Token::Mark(mark) if self.import => next.import = *mark != Mark::Semi,
            Token::Mark(mark) => return self.behind_mark(*mark),
            Token::Word(Keyword::Import) if self.is_outside() => next.import = true,
            _ => next.property = false,
        }
        next
    }
}

/// Whether a token is a word that begins a type.
fn is_head(token: &Token) -> bool {
    matches!(
        token,
        Token::Word(
            Keyword::Simple
                | Keyword::Module
                | Keyword::Network
                | Keyword::Channel
                | Keyword::ModuleInterface
                | Keyword::ChannelInterface
        )
    )
}

/// The token that begins the type of that number, counted from 0, or else how many types there are.
fn head_of(tokens: &[Token], number: usize) -> Result<usize, usize> {
    let mut count = 0usize;
    let mut place = TokenPlace {
        parens: 0,
        import: false,
        property: false,
    };
    for (at, token) in tokens.iter().enumerate() {
        if place.is_outside() && is_head(token) {
            if count == number {
                return Ok(at);
            }
            count = count.saturating_add(1);
        }
        place = place.behind(token);
    }
    Err(count)
}

/// The line of a spot in the type of that number of a text, counted from 0, or else how many types
/// the text has.
pub fn line_in(
    alloc: Global,
    text: &[u8],
    number: usize,
    spot: Spot<'_>,
) -> Result<Result<usize, usize>, NoMemory> {
    let list = tokenize(alloc, text)?;
    let tokens = list.tokens.as_slice();
    Ok(match head_of(tokens, number) {
        Ok(head) => match list.lines.get(token_at(tokens, head, spot)) {
            Some(line) => Ok(*line),
            None => Ok(1),
        },
        Err(count) => Err(count),
    })
}
