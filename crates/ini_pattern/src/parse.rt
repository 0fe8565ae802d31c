//! Texts as patterns.

ghost use Rattle.std.specs.Prelude.{◌≡◌, ◌++◌, ℕ, List, Option, Some, None, MatchResult};
ghost use Rattle.std.specs.Prelude.{option_and_then};
ghost use Rattle.std.specs.Option.{option_map};
ghost use Rattle.std.specs.Str.{chars};
ghost use Rattle.ini_pattern.specs.Fault.{OnBadPattern};
ghost use Rattle.ini_pattern.specs.PatternOf.{set_char, range_from, ranges_of, set_and_rest};
ghost use Rattle.ini_pattern.specs.PatternOf.{set_in, bounds_in, number_between, number_and_rest};
ghost use Rattle.ini_pattern.specs.PatternOf.{braced, bracketed, piece_in, pattern_of};
ghost use Rattle.ini_pattern.specs.Reading.{IsReadingOf};
ghost use Rattle.ini_pattern.specs.declared.piece.Piece.{Piece};

use crate::pattern::PatternFault;
use crate::piece::{CharRange, Piece};
use crate::reading::{Digits, after_char, digit_run, first_char};
use sqlite_items::Items;
use std::alloc::Global;

/// One character of a set, and the rest.
fn set_char(text: &str) -> Option<(char, &str)>
    ensures { option_map (λ found. (found.0, chars found.1.now)) result
        ≡ set_char (chars text.now) }
{
    let (first, rest) = first_char(text)?;
    if first == '\\' {
        first_char(rest)
    } else {
        Some((first, rest))
    }
}

/// One range of a set, and the rest.
fn range_item(text: &str) -> Option<(CharRange, &str)>
    ensures { option_map (λ found. (found.0, chars found.1.now)) result
        ≡ option_and_then range_from (set_char (chars text.now)) }
{
    let (first, rest) = set_char(text)?;
    let Some(behind) = after_char(rest, '-') else {
        return Some((CharRange { first, last: first }, rest));
    };
    if after_char(behind, '}').is_some() {
        return Some((CharRange { first, last: first }, rest));
    }
    let (last, rest) = set_char(behind)?;
    if first <= last {
        Some((CharRange { first, last }, rest))
    } else {
        None
    }
}

/// The ranges of a set up to its closing brace, and the rest.
fn ranges_of(alloc: Global, text: &str) -> Result<(Items<CharRange>, &str), PatternFault>
    ensures { MatchResult result
        (λ found. ranges_of (chars text.now) ≡ Some (found.0, chars found.1.now))
        (OnBadPattern (ranges_of (chars text.now) ≡ None)) }
{
    let mut ranges = Items::new(alloc);
    let mut rest = text;
    loop {
        if let Some(behind) = after_char(rest, '}') {
            return Ok((ranges, behind));
        }
        let Some((range, after)) = range_item(rest) else {
            return Err(PatternFault::BadPattern);
        };
        ranges.push(range)?;
        rest = after;
    }
}

/// A set of the ranges up to the closing brace, and the rest.
fn set_from(alloc: Global, negated: bool, text: &str) -> Result<(Piece, &str), PatternFault>
    ensures { MatchResult result
        (λ found. option_and_then (set_and_rest negated) (ranges_of (chars text.now))
        ≡ Some (found.0, chars found.1.now))
        (OnBadPattern
        (option_and_then (set_and_rest negated) (ranges_of (chars text.now)) ≡ None)) }
{
    let (ranges, rest) = ranges_of(alloc, text)?;
    if ranges.is_empty() {
        return Err(PatternFault::BadPattern);
    }
    Ok((Piece::Set { negated, ranges }, rest))
}

/// A set, where the text goes on after its opening brace, and the rest.
fn set_in(alloc: Global, text: &str) -> Result<(Piece, &str), PatternFault>
    ensures { MatchResult result
        (λ found. set_in (chars text.now) ≡ Some (found.0, chars found.1.now))
        (OnBadPattern (set_in (chars text.now) ≡ None)) }
{
    match after_char(text, '^') {
        Some(behind) => set_from(alloc, true, behind),
        None => set_from(alloc, false, text),
    }
}

/// A number between bounds, if they are fit for that.
fn number_between(low: Digits, high: Digits) -> Option<Piece>
    ensures { (lows highs : List ℕ) → IsReadingOf lows low → IsReadingOf highs high
        → result ≡ number_between lows highs }
{
    if low.count > 18 || high.count > 18 {
        return None;
    }
    if high.count == 0 {
        return Some(Piece::Number {
            low: low.value,
            high: None,
        });
    }
    if low.value > high.value {
        return None;
    }
    Some(Piece::Number {
        low: low.value,
        high: Some(high.value),
    })
}

/// A number between bounds, where the text goes on with bounds and this character, and the rest.
fn number_in(text: &str, close: char) -> Option<(Option<Piece>, &str)>
    ensures { option_map {U = Option Piece × List ℕ} (λ found. (found.0, chars found.1.now)) result
        ≡ option_map number_and_rest (bounds_in close (chars text.now)) }
{
    let (low, rest) = digit_run(text);
    let rest = after_char(rest, '.')?;
    let rest = after_char(rest, '.')?;
    let (high, rest) = digit_run(rest);
    let rest = after_char(rest, close)?;
    Some((number_between(low, high), rest))
}

/// Appends what stands after an opening brace, and answers the rest.
fn push_braced<'a>(
    pieces: &mut Items<Piece>,
    alloc: Global,
    text: &'a str,
) -> Result<&'a str, PatternFault>
    ensures { MatchResult result
        (λ rest. (more : List Piece) × (pieces.new ≡ pieces.old ++ more)
        × (braced (chars text.now) (bounds_in 125 (chars text.now)) ≡ Some (more, chars rest.now)))
        (OnBadPattern (braced (chars text.now) (bounds_in 125 (chars text.now)) ≡ None)) }
{
    let Some((number, rest)) = number_in(text, '}') else {
        let (set, rest) = set_in(alloc, text)?;
        pieces.push(set)?;
        return Ok(rest);
    };
    let Some(number) = number else {
        return Err(PatternFault::BadPattern);
    };
    pieces.push(number)?;
    Ok(rest)
}

/// Appends what stands at an opening bracket, and answers what is left after it.
fn push_bracketed<'a>(pieces: &mut Items<Piece>, text: &'a str) -> Result<&'a str, PatternFault>
    ensures { MatchResult result
        (λ rest. (more : List Piece) × (pieces.new ≡ pieces.old ++ more)
        × (bracketed (chars text.now) (bounds_in 93 (chars text.now))
        ≡ Some (more, chars rest.now)))
        (OnBadPattern (bracketed (chars text.now) (bounds_in 93 (chars text.now)) ≡ None)) }
{
    pieces.push(Piece::Char('['))?;
    let Some((number, rest)) = number_in(text, ']') else {
        return Ok(text);
    };
    let Some(number) = number else {
        return Err(PatternFault::BadPattern);
    };
    pieces.push(number)?;
    pieces.push(Piece::Char(']'))?;
    Ok(rest)
}

/// Appends what a text begins with, by its first character, and answers the rest.
fn push_piece<'a>(
    pieces: &mut Items<Piece>,
    alloc: Global,
    first: char,
    text: &'a str,
) -> Result<&'a str, PatternFault>
    ensures { MatchResult result
        (λ rest. (more : List Piece) × (pieces.new ≡ pieces.old ++ more)
        × (piece_in first (chars text.now) ≡ Some (more, chars rest.now)))
        (OnBadPattern (piece_in first (chars text.now) ≡ None)) }
{
    let (piece, rest) = match first {
        '{' => return push_braced(pieces, alloc, text),
        '[' => return push_bracketed(pieces, text),
        '*' => match after_char(text, '*') {
            Some(rest) => (Piece::AnyPath, rest),
            None => (Piece::AnyName, text),
        },
        '?' => (Piece::AnyChar, text),
        '\\' => match first_char(text) {
            Some((escaped, rest)) => (Piece::Char(escaped), rest),
            None => return Err(PatternFault::BadPattern),
        },
        other => (Piece::Char(other), text),
    };
    pieces.push(piece)?;
    Ok(rest)
}

/// The pieces of the pattern that a text is.
pub(crate) fn parse_pieces(alloc: Global, text: &str) -> Result<Items<Piece>, PatternFault>
    ensures { MatchResult result (λ pieces. pattern_of (chars text.now) ≡ Some pieces)
        (OnBadPattern (pattern_of (chars text.now) ≡ None)) }
{
    let mut pieces = Items::new(alloc);
    let mut rest = text;
    while let Some((first, behind)) = first_char(rest) {
        rest = push_piece(&mut pieces, alloc, first, behind)?;
    }
    Ok(pieces)
}
