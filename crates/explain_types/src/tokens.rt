//! Tokens as they are written.

use crate::explanation::Explanation;
use ned_tokens::lines::tokenize;
use ned_tokens::token::Token;
use sim_values::NoMemory;
use std::alloc::Global;

/// The words and marks of the language.
const WRITTEN: &str =
    "package import simple module network channel moduleinterface channelinterface extends like parameters volatile bool int string double default gates input output inout types submodules if connections allowunconnected for true false this parent index parentIndex sizeof exists { } ( ) [ ] < > , ; : . = @ + - * / % ^ ! ~ ? | & # .. == != <= >= << >> && || ## ++ --> <-- <--> $i $o";

/// The token that a word or mark is.
pub fn token_of(alloc: Global, written: &str) -> Result<Token, NoMemory> {
    let mut list = tokenize(alloc, written.as_bytes())?;
    match list.tokens.pop() {
        Some(token) => Ok(token),
        None => Ok(Token::Broken),
    }
}

/// Whether both are the same word, or the same mark.
fn is_same(one: &Token, other: &Token) -> bool {
    match (one, other) {
        (Token::Word(a), Token::Word(b)) => a == b,
        (Token::Mark(a), Token::Mark(b)) => a == b,
        _ => false,
    }
}

/// Whether one of the tokens is the same word or mark.
fn has_same(tokens: &[Token], token: &Token) -> bool {
    for it in tokens {
        if is_same(it, token) {
            return true;
        }
    }
    false
}

/// Whether the token is written so.
fn is_written(alloc: Global, token: &Token, written: &str) -> Result<bool, NoMemory> {
    let list = tokenize(alloc, written.as_bytes())?;
    Ok(has_same(list.tokens.as_slice(), token))
}

/// How a word or a mark is written.
pub fn written_as(alloc: Global, token: &Token) -> Result<&'static str, NoMemory> {
    for written in WRITTEN.split(' ') {
        if is_written(alloc, token, written)? {
            return Ok(written);
        }
    }
    Ok("this")
}

/// Says a word or a mark, in quotes.
fn tell_word(told: &mut Explanation, token: &Token) {
    match written_as(told.alloc(), token) {
        Ok(written) => told.say_name(written.as_bytes()),
        Err(error) => told.refuse(error),
    }
}

/// Says a byte that begins no token.
fn tell_stray(told: &mut Explanation, byte: u8) {
    if byte == b'0' {
        // (a digit begins a token, so that this one stands for a number that is none)
        told.say("number");
    } else if byte.is_ascii_graphic() {
        told.say("character ");
        told.say_name(&[byte]);
    } else {
        told.say("byte ");
        told.say_number(usize::from(byte));
    }
}

/// Says a token as it is shown.
pub fn tell_token(told: &mut Explanation, token: &Token) {
    match token {
        Token::Word(_) | Token::Mark(_) => tell_word(told, token),
        Token::Name(name) => told.say_name(name.as_bytes()),
        Token::Number(number) => {
            told.say("'");
            told.say_number(*number as usize);
            told.say("'");
        }
        Token::Quantity(_, _) => told.say("quantity"),
        Token::Literal(text) => {
            told.say("\"");
            told.say_front(text.as_bytes());
            told.say("\"");
        }
        Token::OddLiteral => told.say(
            "text in quotes with an escape other than \\\", \\\\, \\n, \\t",
        ),
        Token::OpenLiteral | Token::Broken => told.say(
            "text in quotes without its end on this line, or a line that is not UTF-8",
        ),
        Token::Stray(byte) => tell_stray(told, *byte),
    }
}
