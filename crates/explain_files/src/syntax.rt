//! Why a text is no NED.

use crate::foreign::{Own, own_of, tell_own};
use crate::ini_lines::line_at;
use explain_types::explanation::Explanation;
use explain_types::foreign::{has_mark, tell_mark};
use explain_types::tokens::{tell_token, token_of};
use ned_syntax::parse::tokens_left;
use ned_tokens::lines::tokenize;
use ned_tokens::token::{Keyword, Mark, Token};
use sim_values::NoMemory;
use sqlite_items::Items;
use std::alloc::Global;

/// What a text can go on with, as it is written: words and marks, `1` for an expression, `+` for an
/// operator and `x` for a name.
const GOES_ON: &str =
    "; } { = ( ) [ ] : , parameters gates types submodules connections allowunconnected simple module network channel moduleinterface channelinterface package import extends like if for input output inout bool int string double volatile default @ . .. < > --> <-- <--> ++ $i $o 1 + x";

/// The recording modes, one of which is wanted after `record=`.
const MODES: &str = "count sum min max last vector";

/// How many tokens are left at the first with which no file goes on, where this stands after the
/// tokens; none where they are a file with it.
fn left_behind(
    alloc: Global,
    tokens: &mut Items<Token>,
    written: &str,
) -> Result<Option<usize>, NoMemory> {
    tokens.push(token_of(alloc, written)?)?;
    let left = tokens_left(alloc, tokens.as_slice());
    let _added = tokens.pop();
    Ok(left?)
}

/// What ends a text that goes on with anything: an import ends with `;`, a property's body with
/// `)`.
fn end_of_any(alloc: Global, tokens: &mut Items<Token>) -> Result<&'static str, NoMemory> {
    match left_behind(alloc, tokens, ";")? {
        None => Ok(";"),
        Some(_) => Ok(")"),
    }
}

/// With which of these words the tokens can go on.
fn found_behind(
    alloc: Global,
    tokens: &mut Items<Token>,
    words: &'static str,
) -> Result<Vec<&'static str>, NoMemory> {
    let mut found = Vec::new(alloc);
    for written in words.split(' ') {
        if left_behind(alloc, tokens, written)?.unwrap_or(0) == 0 {
            found.push(written)?;
        }
    }
    Ok(found)
}

/// Whether an expression can begin so, and other things too.
fn is_front(written: &str) -> bool {
    written == "(" || written == "x"
}

/// Whether one of these is an expression.
fn wants_expression(found: &[&str]) -> bool {
    for it in found {
        if *it == "1" {
            return true;
        }
    }
    false
}

/// Whether it is a comparison where an operator can stand.
fn is_angle(written: &str) -> bool {
    written == "<" || written == ">"
}

/// How many of these are comparisons: one alone begins or ends the type of a submodule.
fn count_angles(found: &[&str]) -> usize {
    let mut count = 0usize;
    for it in found {
        if is_angle(*it) {
            count = count.saturating_add(1);
        }
    }
    count
}

/// What is wanted after the tokens: what they can go on with, but where an expression is wanted not
/// what it begins with, where an operator is wanted no comparison, where anything may stand only
/// what ends that, and where nothing of all that may stand a recording mode.
fn wanted(alloc: Global, tokens: &mut Items<Token>) -> Result<Vec<&'static str>, NoMemory> {
    let mut found = found_behind(alloc, tokens, GOES_ON)?;
    if found.is_empty() {
        return found_behind(alloc, tokens, MODES);
    }
    if found.len() == GOES_ON.split(' ').count() {
        found.clear();
        found.push(end_of_any(alloc, tokens)?)?;
    }
    if wants_expression(found.as_slice()) {
        found.retain(|it| !is_front(*it));
    }
    if count_angles(found.as_slice()) > 1 {
        found.retain(|it| !is_angle(*it));
    }
    Ok(found)
}

/// Says a word or mark in quotes, or how else it is called.
fn tell_one(told: &mut Explanation, written: &str) {
    match written {
        "1" => told.say("an expression"),
        "+" => told.say("an operator"),
        "x" => told.say("a name"),
        _ => told.say_name(written.as_bytes()),
    }
}

/// Says what is expected: one thing, or one of several, where it is known.
fn tell_wanted(told: &mut Explanation, wanted: &[&str]) {
    if wanted.is_empty() {
        return;
    }
    told.say(match wanted {
        [_] => ", expected",
        _ => ", expected one of",
    });
    let mut part = " ";
    for it in wanted {
        told.say(part);
        tell_one(told, *it);
        part = ", ";
    }
}

/// Says that a text can't go on at a token, or after its last.
fn tell_blamed(told: &mut Explanation, blamed: Option<&Token>) {
    let Some(token) = blamed else {
        return told.say("unexpected end of the text");
    };
    told.say("unexpected ");
    tell_token(told, token);
}

/// Takes tokens away, until so many are left.
fn cut(tokens: &mut Items<Token>, left: usize) {
    for _token in left..tokens.len() {
        let _taken = tokens.pop();
    }
}

/// Says what is wrong with tokens that are no NED, of which so many are left at the first that
/// can't go on.
fn tell_tokens(told: &mut Explanation, tokens: &mut Items<Token>, left: usize) {
    let before = tokens.len().saturating_sub(left);
    tell_blamed(told, tokens.get(before));
    cut(tokens, before);
    match wanted(told.alloc(), tokens) {
        Ok(wanted) => tell_wanted(told, wanted.as_slice()),
        Err(error) => told.refuse(error),
    }
}

/// Whether the tokens can go on with that.
fn wants(told: &mut Explanation, tokens: &mut Items<Token>, written: &'static str) -> bool {
    match found_behind(told.alloc(), tokens, written) {
        Ok(found) => !found.is_empty(),
        Err(error) => {
            told.refuse(error);
            false
        }
    }
}

/// Whether something of OMNeT++'s own is in place: a unit or a pattern where the tokens can go on
/// with a property, a value in braces where they can with a value, and one for a path where they
/// can with that of a parameter.
fn wants_own(
    told: &mut Explanation,
    tokens: &mut Items<Token>,
    own: &Result<Own, NoMemory>,
) -> bool {
    match own {
        Ok(Own::Double | Own::Pattern) => wants(told, tokens, "@"),
        Ok(Own::Path) => wants(told, tokens, "="),
        Ok(Own::Braces) => wants(told, tokens, "1"),
        Ok(Own::Comparison) => wants(told, tokens, ">"),
        Ok(Own::Default) => wants(told, tokens, "("),
        _ => true,
    }
}

/// Whether a token is an operator, or begins a part of an expression.
fn is_of_expression(token: &Token) -> bool {
    matches!(
        token,
        Token::Mark(
            Mark::LeftParen
                | Mark::LeftBracket
                | Mark::Less
                | Mark::Greater
                | Mark::Dot
                | Mark::Plus
                | Mark::Minus
                | Mark::Star
                | Mark::Slash
                | Mark::Percent
                | Mark::Caret
                | Mark::Bang
                | Mark::Tilde
                | Mark::Question
                | Mark::Bar
                | Mark::Ampersand
                | Mark::Hash
                | Mark::Equal
                | Mark::NotEqual
                | Mark::AtMost
                | Mark::AtLeast
                | Mark::ShiftLeft
                | Mark::ShiftRight
                | Mark::And
                | Mark::Or
                | Mark::Xor
        )
    )
}

/// Whether an expression that begins before a token ends before it.
fn ends_expression(token: &Token) -> bool {
    matches!(
        token,
        Token::Mark(Mark::Open | Mark::Close | Mark::Semi | Mark::Equals)
    )
}

/// How many operators and parentheses stand in the expression with which the tokens end.
fn parts_at_end(tokens: &[Token]) -> usize {
    let mut count = 0usize;
    for token in tokens.iter().rev() {
        if ends_expression(token) {
            break;
        }
        if is_of_expression(token) {
            count = count.saturating_add(1);
        }
    }
    count
}

/// How deep an expression is nested at most.
const MOST_DEEP: usize = 64;

/// Whether it may be that tokens can't go on, of which so many are left, as an expression would be
/// nested too deep: an operator or a parenthesis stands there, after as many others.
fn may_be_deep(tokens: &[Token], left: usize) -> bool {
    let place = tokens.len().saturating_sub(left);
    let (Some(before), Some(blamed)) = (tokens.get(..place), tokens.get(place)) else {
        return false;
    };
    is_of_expression(blamed) && parts_at_end(before).saturating_add(1) >= MOST_DEEP
}

/// Says how deep an expression is nested at most.
fn tell_deep(told: &mut Explanation) {
    told.say("; an expression is nested at most ");
    told.say_number(MOST_DEEP);
    told.say(" deep: give a part of it to a parameter of its own, or write its value");
}

/// Says what of a line is OMNeT++'s own, where it is in place after the tokens; or else that an
/// expression is nested too deep, where that may be.
fn tell_why(
    told: &mut Explanation,
    tokens: &mut Items<Token>,
    own: Result<Own, NoMemory>,
    line: &[u8],
    is_deep: bool,
) {
    let is_told = wants_own(told, tokens, &own) && tell_own(told, own, line);
    if !is_told && is_deep {
        tell_deep(told);
    }
}

/// Says what is wrong with tokens that are no NED, of which so many are left at the first that
/// can't go on, and what of the line on which they stop is OMNeT++'s own.
fn tell_stopped(told: &mut Explanation, tokens: &mut Items<Token>, left: usize, line: &[u8]) {
    let own = own_of(told.alloc(), tokens.as_slice(), left, line);
    let is_deep = may_be_deep(tokens.as_slice(), left);
    tell_tokens(told, tokens, left);
    tell_why(told, tokens, own, line, is_deep);
}

/// Says what is wrong with tokens that are no NED, and what of the line on which they stop is
/// OMNeT++'s own.
fn tell_list(told: &mut Explanation, tokens: &mut Items<Token>, line: &[u8]) {
    match tokens_left(told.alloc(), tokens.as_slice()) {
        Ok(left) => tell_stopped(told, tokens, left.unwrap_or(0), line),
        Err(error) => told.refuse(NoMemory::from(error)),
    }
}

/// What stands before a value in a file.
const BEFORE_VALUE: &[u8] = b"simple A { int a = ";

/// The tokens of a file that ends after a text.
fn tokens_behind(alloc: Global, before: &[u8], text: &[u8]) -> Result<Items<Token>, NoMemory> {
    let mut bytes = Vec::from_slice(alloc, before)?;
    bytes.extend_from_slice(text)?;
    let list = tokenize(alloc, bytes.as_slice())?;
    Ok(list.tokens)
}

/// Whether it may be that a value can't be read as it is nested too deep.
fn is_deep_value(alloc: Global, value: &[u8]) -> Result<bool, NoMemory> {
    let tokens = tokens_behind(alloc, BEFORE_VALUE, value)?;
    let left = tokens_left(alloc, tokens.as_slice())?;
    Ok(may_be_deep(tokens.as_slice(), left.unwrap_or(0)))
}

/// Says how deep an expression is nested at most, where a value can't be read that may be deeper.
pub fn tell_depth_of_value(told: &mut Explanation, value: &[u8]) {
    match is_deep_value(told.alloc(), value) {
        Ok(true) => tell_deep(told),
        Ok(false) => {}
        Err(error) => told.refuse(error),
    }
}

/// The line of the first import that goes on over the beginning of a block, as no `;` ends it
/// before.
fn unended_import(tokens: &[Token], lines: &[usize]) -> Option<usize> {
    let mut import = None;
    for (token, line) in tokens.iter().zip(lines.iter()) {
        match token {
            Token::Word(Keyword::Import) if import.is_none() => import = Some(*line),
            Token::Mark(Mark::Semi) => import = None,
            Token::Mark(Mark::Open) if import.is_some() => return import,
            _ => {}
        }
    }
    None
}

/// Says in which line an import stands that has no end of its own.
fn tell_import(told: &mut Explanation, import: Option<usize>) {
    if let Some(line) = import {
        told.say("; the import in line ");
        told.say_number(line);
        told.say(" goes on to the next ';', as it has none of its own");
    }
}

/// Says what is wrong with a text that is no NED, and what could stand there. It can't go on at the
/// line of that number.
pub fn tell_syntax(told: &mut Explanation, text: &[u8], number: usize) {
    if has_mark(text) {
        return tell_mark(told);
    }
    match tokenize(told.alloc(), text) {
        Ok(list) => {
            let mut list = list;
            let import = unended_import(list.tokens.as_slice(), list.lines.as_slice());
            tell_list(told, &mut list.tokens, line_at(text, number));
            tell_import(told, import);
        }
        Err(error) => told.refuse(NoMemory::from(error)),
    }
}

/// What stands before a connection in a file.
const BEFORE: &[u8] = b"module M { connections: ";

/// How often a byte is in a text.
fn count_of(text: &[u8], wanted: u8) -> usize {
    let mut count = 0usize;
    for byte in text {
        if *byte == wanted {
            count = count.saturating_add(1);
        }
    }
    count
}

/// What is wanted after the tokens of a connection, which the brace that ends the connections of
/// its module is not.
fn wanted_of_connection(
    alloc: Global,
    tokens: &mut Items<Token>,
    open: usize,
) -> Result<Vec<&'static str>, NoMemory> {
    let mut found = wanted(alloc, tokens)?;
    if open == 0 {
        found.retain(|it| *it != "}");
    }
    Ok(found)
}

/// Says what is wrong with the text of a connection, of these tokens, and what of it is OMNeT++'s
/// own.
fn tell_tokens_of_connection(
    told: &mut Explanation,
    text: &[u8],
    tokens: &mut Items<Token>,
) -> Result<(), NoMemory> {
    let alloc = told.alloc();
    let left = tokens_left(alloc, tokens.as_slice())?.unwrap_or(0);
    let own = own_of(alloc, tokens.as_slice(), left, text);
    let is_deep = may_be_deep(tokens.as_slice(), left);
    let before = tokens.len().saturating_sub(left);
    tell_blamed(told, tokens.get(before));
    cut(tokens, before);
    let open = count_of(text, b'{').saturating_sub(count_of(text, b'}'));
    let wanted = wanted_of_connection(alloc, tokens, open)?;
    tell_wanted(told, wanted.as_slice());
    tell_why(told, tokens, own, text, is_deep);
    Ok(())
}

/// Says what is wrong with a text that is neither a connection nor a group of connections, and what
/// could stand there.
pub fn tell_connection(told: &mut Explanation, text: &[u8]) {
    if count_of(text, b'}') > count_of(text, b'{') {
        return told.say("a '}' closes nothing");
    }
    match tokens_behind(told.alloc(), BEFORE, text) {
        Ok(tokens) => {
            let mut tokens = tokens;
            if let Err(error) = tell_tokens_of_connection(told, text, &mut tokens) {
                told.refuse(error);
            }
        }
        Err(error) => told.refuse(error),
    }
}
