//! What of a line of NED is OMNeT++'s own, by the token at which the text can't go on.

use explain_types::explanation::Explanation;
use explain_types::foreign::{
    tell_braces, tell_double, tell_filter, tell_foreign, tell_kind, tell_mode, tell_pattern,
};
use explain_types::names::is_near;
use explain_types::tokens::written_as;
use ned_tokens::token::{Mark, Token};
use sim_values::NoMemory;
use std::alloc::Global;

/// What of OMNeT++'s may stand at a token at which a text can't go on.
#[derive(Drop)]
pub enum Own {
    Nothing,
    /// A number, or a function.
    Value,
    /// A value in braces or brackets.
    Braces,
    /// A recording mode.
    Mode(String),
    /// A kind of parameters.
    Kind(String),
    /// A filter, or an expression in `source`.
    Filter,
    /// A value for a pattern.
    Pattern,
    /// A value for a path.
    Path,
    /// A `double` without a unit.
    Double,
    /// A line that is not UTF-8.
    Bytes,
    /// The heading of a section, which is near to that one.
    Heading(&'static str),
    /// A comparison in the type of a submodule.
    Comparison,
    /// The name of a channel.
    ChannelName(String),
    /// The word `default` alone.
    Default,
}

/// The headings of sections.
const HEADINGS: &str = "parameters gates types submodules connections";

/// Whether a word is near to a heading, or is one without its last letter.
fn is_near_heading(word: &[u8], heading: &str) -> bool {
    is_near(word, heading.as_bytes())
        || heading.as_bytes().strip_suffix(b"s".as_slice()) == Some(word)
}

/// The heading that is meant by a word.
fn heading_meant(word: &[u8]) -> Option<&'static str> {
    for heading in HEADINGS.split(' ') {
        if is_near_heading(word, heading) {
            return Some(heading);
        }
    }
    None
}

/// Whether a token is an arrow.
fn is_arrow(alloc: Global, token: &Token) -> Result<bool, NoMemory> {
    Ok(matches!(written_as(alloc, token)?, "-->" | "<--" | "<-->"))
}

/// What a colon is after a name: that of a channel after an arrow, or the heading of a section.
fn own_colon(alloc: Global, before: &[Token]) -> Result<Own, NoMemory> {
    let [front @ .., Token::Name(name)] = before else {
        return Ok(Own::Nothing);
    };
    if let Some(last) = front.last() {
        if is_arrow(alloc, last)? {
            return Ok(Own::ChannelName(copied(alloc, name.as_bytes())?));
        }
    }
    match heading_meant(name.as_bytes()) {
        Some(heading) => Ok(Own::Heading(heading)),
        None => Ok(Own::Nothing),
    }
}

/// Whether the tokens end with the word `default`.
fn ends_with_default(alloc: Global, before: &[Token]) -> Result<bool, NoMemory> {
    match before.last() {
        Some(last) => Ok(written_as(alloc, last)? == "default"),
        None => Ok(false),
    }
}

/// Whether these bytes stand somewhere in a line.
fn has_part(line: &[u8], part: &[u8]) -> bool {
    for at in 0..line.len() {
        if line[at..].starts_with(part) {
            return true;
        }
    }
    false
}

/// Whether a line is of a statistic.
fn is_of_statistic(line: &[u8]) -> bool {
    has_part(line, b"@statistic".as_slice())
        || has_part(line, b"source=".as_slice())
        || has_part(line, b"record=".as_slice())
}

/// Whether a line declares a `double`.
fn is_of_double(line: &[u8]) -> bool {
    has_part(line, b"double".as_slice())
}

/// A copy of a name.
fn copied(alloc: Global, name: &[u8]) -> Result<String, NoMemory> {
    Ok(String::from_str(alloc, explain_types::names::shown(name))?)
}

/// What a name may be at which a text can't go on: after another name, which declares a parameter;
/// or a recording mode.
fn own_name(alloc: Global, before: Option<&Token>, name: &[u8]) -> Result<Own, NoMemory> {
    match before {
        Some(Token::Name(kind)) => Ok(Own::Kind(copied(alloc, kind.as_bytes())?)),
        _ => Ok(Own::Mode(copied(alloc, name)?)),
    }
}

/// What a word or mark may be at which a text can't go on, in a line of a statistic or another one.
fn own_mark(
    alloc: Global,
    before: Option<&Token>,
    blamed: &Token,
    line: &[u8],
) -> Result<Own, NoMemory> {
    let is_behind_name = matches!(before, Some(Token::Name(_)));
    let own = match written_as(alloc, blamed)? {
        "(" | "+" | "-" | "*" | "/" if is_of_statistic(line) => Own::Filter,
        "(" | "int" | "double" | "bool" | "string" => Own::Value,
        "{" | "[" => Own::Braces,
        "*" => Own::Pattern,
        "." if is_behind_name => Own::Path,
        ";" if is_of_double(line) => Own::Double,
        _ => Own::Nothing,
    };
    Ok(own)
}

/// What of OMNeT++'s may stand where the text can't go on, which has so many tokens left there.
pub fn own_of(alloc: Global, tokens: &[Token], left: usize, line: &[u8]) -> Result<Own, NoMemory> {
    let place = tokens.len().saturating_sub(left);
    let before = match place {
        0 => None,
        _ => tokens.get(place.saturating_sub(1)),
    };
    let front = match tokens.get(..place) {
        Some(front) => front,
        None => &[],
    };
    match tokens.get(place) {
        Some(Token::Mark(Mark::Colon)) => own_colon(alloc, front),
        Some(Token::Mark(Mark::Semi)) if ends_with_default(alloc, front)? => Ok(Own::Default),
        Some(
            Token::Mark(Mark::Less | Mark::Equal | Mark::NotEqual | Mark::AtMost | Mark::AtLeast),
        ) => Ok(Own::Comparison),
        Some(Token::Name(name)) => own_name(alloc, before, name.as_bytes()),
        Some(Token::Stray(b'0')) => Ok(Own::Value),
        Some(Token::Literal(_)) if is_of_statistic(line) => Ok(Own::Filter),
        Some(Token::Broken | Token::OpenLiteral | Token::Stray(_)) => Ok(Own::Bytes),
        Some(blamed) => own_mark(alloc, before, blamed, line),
        None => Ok(Own::Nothing),
    }
}

/// Says what is OMNeT++'s own in a line at which a text can't go on, where that is. Answers whether
/// it is.
pub fn tell_own(told: &mut Explanation, own: Result<Own, NoMemory>, line: &[u8]) -> bool {
    match own {
        Ok(Own::Nothing) => return false,
        Ok(Own::Value) => return tell_foreign(told, line),
        Ok(Own::Braces) => return tell_braces(told, b"{".as_slice()),
        Ok(Own::Mode(mode)) => return tell_mode(told, mode.as_bytes()),
        Ok(Own::Kind(kind)) => tell_kind(told, kind.as_bytes()),
        Ok(Own::Filter) => tell_filter(told),
        Ok(Own::Pattern | Own::Path) => tell_pattern(told),
        Ok(Own::Double) => tell_double(told),
        Ok(Own::Bytes) => tell_bytes(told, line),
        Ok(Own::Heading(heading)) => {
            told.say("; did you mean '");
            told.say(heading);
            told.say(":'?");
        }
        Ok(Own::Comparison) => told.say("; between '<' and '>' a comparison stands in parentheses"),
        Ok(Own::ChannelName(name)) => tell_channel_name(told, name.as_bytes()),
        Ok(Own::Default) => tell_default(told),
        Err(error) => told.refuse(error),
    }
    true
}

/// Says that the name of a channel is OMNeT++'s own.
fn tell_channel_name(told: &mut Explanation, name: &[u8]) {
    told.say("; names of channels are OMNeT++'s own, and not of this profile: leave '");
    told.say_front(name);
    told.say(":' out, a channel is called 'channel' wherever it is");
}

/// Says that the word `default` alone is OMNeT++'s own as a value.
fn tell_default(told: &mut Explanation) {
    told.say(
        "; '= default' alone is OMNeT++'s own, and not of this profile: leave it out, or write default(VALUE)",
    );
}

/// Says that a line is not UTF-8, where it is not.
fn tell_bytes(told: &mut Explanation, line: &[u8]) {
    if std::str::from_utf8(line).is_err() {
        told.say("; a byte of this line is not UTF-8: save the file as UTF-8");
    }
}
