//! Why a line of an ini text means nothing: words for each reason.

use crate::options::instead_of_option;
use crate::syntax::tell_depth_of_value;
use explain_types::explanation::Explanation;
use explain_types::foreign::{has_mark, tell_braces, tell_foreign, tell_mark, tell_mode};
use explain_types::names::shown;
use ini_config::parse::key_and_value;
use ini_entries::reason::Reason;

/// The line of that number, counted from 1, without its end.
pub fn line_at(bytes: &[u8], number: usize) -> &[u8] {
    let mut at = 1usize;
    for line in bytes.split(|b| *b == b'\n') {
        if at == number {
            return match line {
                [front @ .., b'\r'] => front,
                _ => line,
            };
        }
        at = at.saturating_add(1);
    }
    b"".as_slice()
}

/// How many bytes at the end are digits.
fn digits_at_end(bytes: &[u8]) -> usize {
    let mut count = 0usize;
    for byte in bytes.iter().rev() {
        if !byte.is_ascii_digit() {
            break;
        }
        count = count.saturating_add(1);
    }
    count
}

/// The number that digits make, where it is one of a bound.
fn bound_of(digits: &[u8]) -> Option<u64> {
    match shown(digits).parse::<u64>() {
        Ok(number) => Some(number),
        Err(_) => None,
    }
}

/// The bounds of the range that ends these bytes before its `..` and goes on after it, where it is
/// reversed.
fn reversed_at(before: &[u8], after: &[u8]) -> Option<(u64, u64)> {
    let low = bound_of(last_bytes(before, digits_at_end(before)))?;
    let high = bound_of(first_bytes(after, digits_at_front(after)))?;
    if low > high {
        return Some((low, high));
    }
    None
}

/// How many bytes at the front are digits.
fn digits_at_front(bytes: &[u8]) -> usize {
    let mut count = 0usize;
    for byte in bytes {
        if !byte.is_ascii_digit() {
            break;
        }
        count = count.saturating_add(1);
    }
    count
}

/// So many bytes at the front.
fn first_bytes(bytes: &[u8], count: usize) -> &[u8] {
    match bytes.split_at_checked(count) {
        Some((first, _)) => first,
        None => bytes,
    }
}

/// So many bytes at the end.
fn last_bytes(bytes: &[u8], count: usize) -> &[u8] {
    match bytes.split_at_checked(bytes.len().saturating_sub(count)) {
        Some((_, last)) => last,
        None => bytes,
    }
}

/// The bounds of the first range of numbers in a key that is reversed.
fn reversed_range(key: &[u8]) -> Option<(u64, u64)> {
    for at in 0..key.len() {
        let (before, rest) = key.split_at(at);
        if let Some(after) = rest.strip_prefix(b"..".as_slice()) {
            if let Some(found) = reversed_at(before, after) {
                return Some(found);
            }
        }
    }
    None
}

/// Says why a key is no pattern.
fn tell_pattern_of(told: &mut Explanation, key: &[u8]) {
    match reversed_range(key) {
        Some((low, high)) => {
            told.say("the range ");
            told.say_number(low as usize);
            told.say("..");
            told.say_number(high as usize);
            told.say(" is reversed: write the smaller bound first");
        }
        None => told.say("a '{' or '[' is not closed, or nothing stands in it"),
    }
}

/// Says that the key of a line is no pattern.
fn tell_key(told: &mut Explanation, line: &[u8]) {
    told.say("the key ");
    let Ok((key, _)) = key_and_value(line) else {
        return told.say("is no pattern");
    };
    told.say_name(key);
    told.say(" is no pattern: ");
    tell_pattern_of(told, key);
}

/// Says which word was meant, where a value is written like one of a truth value, or that a second
/// `=` stands before it. Answers whether it is so.
fn tell_meant(told: &mut Explanation, value: &[u8]) -> bool {
    if value.starts_with(b"=") {
        told.say("; a second '=' stands before it");
        return true;
    }
    for word in ["true", "false"] {
        if value.eq_ignore_ascii_case(word.as_bytes()) {
            told.say("; did you mean ");
            told.say_name(word.as_bytes());
            told.say("?");
            return true;
        }
    }
    false
}

/// Says what of the value of a line can't be read, and why: that it is written like another, what
/// is OMNeT++'s own, a number, or that it is nested too deep.
fn tell_unread(told: &mut Explanation, value: &[u8]) {
    if !tell_meant(told, value) && !tell_braces(told, value) && !tell_foreign(told, value) {
        tell_depth_of_value(told, value);
    }
}

/// Says that the value of a line is none that a parameter can have.
fn tell_value(told: &mut Explanation, line: &[u8]) {
    told.say("the value ");
    if let Ok((_, value)) = key_and_value(line) {
        told.say_name(value);
    }
    told.say(
        " is neither the word default nor an expression of literals (a whole number, a quantity as 5s, true, false, a text in quotes), operators, min and max; names, other functions and random numbers are not supported",
    );
    if let Ok((_, value)) = key_and_value(line) {
        tell_unread(told, value);
    }
}

/// Whether all bytes are digits.
fn is_bare(value: &[u8]) -> bool {
    for byte in value {
        if !byte.is_ascii_digit() {
            return false;
        }
    }
    true
}

/// Says that the value of a line is no time, and why.
fn tell_no_time(told: &mut Explanation, line: &[u8]) {
    let Ok((_, value)) = key_and_value(line) else {
        return told.say(TIME);
    };
    told.say_name(value);
    told.say(" is no time: ");
    told.say(TIME);
    if is_bare(value) {
        told.say("; write it with a unit, as ");
        told.say_front(value);
        return told.say("s");
    }
    tell_unread(told, value);
}

/// Says that a line is no entry, of which the first may begin with a byte order mark.
fn tell_no_entry(told: &mut Explanation, line: &[u8]) {
    if has_mark(line) {
        return tell_mark(told);
    }
    told.say("this is no entry: it is written KEY = VALUE, a comment begins with #");
}

/// Says that the value of a line is no list of recording modes, and which of them is OMNeT++'s own.
fn tell_modes(told: &mut Explanation, line: &[u8]) {
    told.say(MODES);
    let Ok((_, value)) = key_and_value(line) else {
        return;
    };
    for mode in value.split(|byte| *byte == b',' || *byte == b'+' || *byte == b'-') {
        if tell_mode(told, mode.trim_ascii()) {
            return;
        }
    }
}

/// Says that an option is not supported, and what serves instead.
fn tell_unsupported(told: &mut Explanation, line: &[u8]) {
    let Ok((key, _)) = key_and_value(line) else {
        return told.say("this option is not supported");
    };
    told.say("the option ");
    told.say_name(key);
    told.say(" is not supported");
    if let Some(instead) = instead_of_option(shown(key)) {
        told.say(": it is OMNeT++'s own, and not of this profile; ");
        told.say(instead);
    }
}

/// What a time is.
const TIME: &str =
    "a time is a number that isn't negative with a unit of time, as 100s or 5ms, and no expression";

/// How a section is written.
const SECTION: &str =
    "a section is written [General], [Config NAME] or [NAME], alone on its line, without blanks around it";

/// What a list of recording modes is.
const MODES: &str =
    "the value is a list, separated by commas, of default, all, or one of count, sum, min, max, last, vector, with + or - before it or not";

/// Says why a line of an ini text means nothing, by the reason for which it was refused.
pub fn tell_ini_line(told: &mut Explanation, line: &[u8], reason: Reason) {
    let words = match reason {
        Reason::BadPattern => return tell_key(told, line),
        Reason::BadExpression => return tell_value(told, line),
        Reason::NotAnEntry => return tell_no_entry(told, line),
        Reason::BadModes => return tell_modes(told, line),
        Reason::NotATime => return tell_no_time(told, line),
        Reason::Unsupported => return tell_unsupported(told, line),
        Reason::NotASection => SECTION,
        Reason::Indented =>
            "an entry can't begin with a blank: continuation lines are not supported",
        Reason::Include => "include is not supported: put the lines of that file here",
        Reason::NoKey => "there is no key before '='",
        Reason::BadKey => "a key is of ASCII characters, without blanks",
        Reason::NoValue => "there is no value after '='",
        Reason::BadValue => "the value is not UTF-8: save the file as UTF-8",
        Reason::Continued =>
            "continuation lines are not supported: write the whole entry on one line",
        Reason::Study => "parameter studies (${..}) are not supported: write one value",
        Reason::BeforeSection =>
            "no section stands before this entry: write [General] on a line above it",
        Reason::GeneralExtends => "[General] can't extend another configuration",
        Reason::LineEnd => "a line end stands within the line",
        Reason::NotANetwork => "the value is the name of a network, as in 'network = N'",
        Reason::NotConfigurations =>
            "the value is the name of a configuration, as in 'extends = Base'",
        Reason::Repeated => "only 'repeat = 1' is supported",
        Reason::Resolution => "only 'simtime-resolution = ps' is supported",
        Reason::NotATruth => "the value is true or false",
    };
    told.say(words);
}
