//! Names against the pieces of a pattern; nothing is allocated.

ghost use Rattle.std.specs.Prelude.{◌≡◌, ◌↔◌, [], ◌∷◌, ◌++◌, IsTrue, MatchOption, position, true};
ghost use Rattle.std.specs.Prelude.{Some, None, option_and_then, IfSome};
ghost use Rattle.std.specs.List.{list_all};
ghost use Rattle.std.specs.Option.{option_map};
ghost use Rattle.std.specs.Str.{chars};
ghost use Rattle.ini_pattern.specs.Matches.{has_no_dot, in_ranges, Covers, Matches};
ghost use Rattle.ini_pattern.specs.Places.{is_no_path};
ghost use Rattle.ini_pattern.specs.Reading.{is_number_in, is_any_path, is_any_name, is_fixed};
ghost use Rattle.ini_pattern.specs.Reading.{left_by, left_by_all, IsLongestRest, HasNoRest};
ghost use Rattle.ini_pattern.specs.Reading.{IsLongestAnywhere, HasNoRestAnywhere, MatchesEnd};
ghost use Rattle.ini_pattern.specs.Reading.{IsEnd, is_no_name, is_steady, Slides, CannotSlide};
ghost use Rattle.ini_pattern.specs.Reading.{IsPastDot};

use crate::piece::{CharRange, Piece};
use crate::places::{placed_anywhere, placed_start};
use crate::reading::{after_char, before_char, digit_run, first_char, is_long_run};

/// Whether a character is in one of the ranges.
fn in_ranges(ranges: &[CharRange], c: char) -> bool
    ensures { result ≡ in_ranges ranges.now c }
{
    ranges
        .iter()
        .any(|range| range.first <= c && c <= range.last)
}

/// What is left of a name that begins with a number between bounds.
fn left_by_number(name: &str, low: u64, high: Option<u64>) -> Option<&str>
    ensures { option_map (λ rest. chars rest.now) result
        ≡ left_by (Piece.Number low high) (chars name.now) }
{
    if is_long_run(name) {
        return None;
    }
    let (digits, rest) = digit_run(name);
    if digits.count == 0 || digits.value < low {
        return None;
    }
    match high {
        Some(most) if digits.value > most => None,
        _ => Some(rest),
    }
}

/// What a piece that is no star leaves of a name.
fn left_by<'a>(piece: &Piece, name: &'a str) -> Option<&'a str>
    ensures { option_map (λ rest. chars rest.now) result ≡ left_by piece.now (chars name.now) }
{
    match piece {
        Piece::AnyPath | Piece::AnyName => None,
        Piece::AnyChar => {
            let (c, rest) = first_char(name)?;
            if c != '.' { Some(rest) } else { None }
        }
        Piece::Char(wanted) => after_char(name, *wanted),
        Piece::Set { negated, ranges } => {
            let (c, rest) = first_char(name)?;
            if in_ranges(ranges.as_slice(), c) != *negated {
                Some(rest)
            } else {
                None
            }
        }
        Piece::Number { low, high } => left_by_number(name, *low, *high),
    }
}

/// What pieces that are no stars leave of a name.
fn left_by_all<'a>(pieces: &[Piece], name: &'a str) -> Option<&'a str>
    ensures { option_map (λ rest. chars rest.now) result ≡ left_by_all pieces.now (chars name.now) }
{
    let mut rest = name;
    for piece in pieces {
        let Some(left) = left_by(piece, rest) else {
            return None;
        };
        rest = left;
    }
    Some(rest)
}

/// Whether a piece is `**`.
fn is_any_path(piece: &Piece) -> bool
    ensures { result ≡ is_any_path piece.now }
{
    matches!(piece, Piece::AnyPath)
}

/// Whether a piece is `*`.
pub(crate) fn is_any_name(piece: &Piece) -> bool
    ensures { result ≡ is_any_name piece.now }
{
    matches!(piece, Piece::AnyName)
}

/// Whether this rest may be left, where it has to be nothing if the pieces have to go to the end.
fn may_stop(rest: &str, to_end: bool) -> bool
    ensures { IsTrue result ↔ IsEnd to_end (chars rest.now) }
{
    !to_end || first_char(rest).is_none()
}

/// Whether a piece is no `**`, and takes as many dots of any name.
fn is_steady(piece: &Piece) -> bool
    ensures { result ≡ is_steady piece.now }
{
    match piece {
        Piece::AnyPath => false,
        Piece::Set { negated, ranges } => in_ranges(ranges.as_slice(), '.') == *negated,
        _ => true,
    }
}

/// Whether all pieces are so.
fn are_steady(pieces: &[Piece]) -> bool
    ensures { result ≡ list_all is_steady pieces.now }
{
    pieces.iter().all(is_steady)
}

/// The place of the first `*`.
fn any_name_at(pieces: &[Piece]) -> Option<usize>
    ensures { result ≡ position is_any_name pieces.now }
{
    pieces.iter().position(is_any_name)
}

/// The pieces before the first `*`, and those after it.
fn around_name(pieces: &[Piece]) -> Option<(&[Piece], &[Piece])>
    ensures { MatchOption result (IsTrue (list_all is_no_name pieces.now))
        (λ parts. IsTrue (list_all is_no_name parts.0.now)
        × (pieces.now ≡ parts.0.now ++ (Piece.AnyName ∷ parts.1.now))) }
{
    let Some(at) = any_name_at(pieces) else {
        return None;
    };
    Some((&pieces[..at], &pieces[at + 1..]))
}

/// What pieces that are no stars leave of a name, where that may be left.
pub(crate) fn fixed_rest<'a>(pieces: &[Piece], name: &'a str, to_end: bool) -> Option<&'a str>
    requires { IsTrue (list_all is_fixed pieces.now) }
    ensures { MatchOption result (HasNoRest pieces.now to_end (chars name.now))
        (λ rest. Covers pieces.now (chars name.now) (chars rest.now)
        × IsEnd to_end (chars rest.now)) }
{
    let Some(rest) = left_by_all(pieces, name) else {
        return None;
    };
    if may_stop(rest, to_end) {
        Some(rest)
    } else {
        None
    }
}

/// What pieces that are no stars leave at the first place after a `*`, where that may be left.
fn slide<'a>(pieces: &[Piece], name: &'a str, to_end: bool) -> Option<&'a str>
    requires { IsTrue (list_all is_fixed pieces.now) }
    ensures { MatchOption result (CannotSlide pieces.now to_end (chars name.now))
        (λ rest. Slides pieces.now to_end (chars name.now) (chars rest.now)) }
{
    let mut here = name;
    loop {
        if let Some(rest) = fixed_rest(pieces, here, to_end) {
            return Some(rest);
        }
        match first_char(here) {
            None => return None,
            Some((c, behind)) => {
                if c == '.' {
                    return None;
                }
                here = behind;
            }
        }
    }
}

/// The longest rest that a `*` and steady pieces after it can leave of a name. Only the last `*` is
/// tried again: the pieces before it took as few characters as they can, and as many dots as ever.
fn star_rest<'a>(pieces: &[Piece], name: &'a str, to_end: bool) -> Option<&'a str>
    requires { IsTrue (list_all is_steady pieces.now) }
    ensures { MatchOption result (HasNoRest (Piece.AnyName ∷ pieces.now) to_end (chars name.now))
        (λ rest. IsLongestRest (Piece.AnyName ∷ pieces.now) to_end (chars name.now)
        (chars rest.now)) }
{
    let mut left = pieces;
    let mut here = name;
    while let Some((front, back)) = around_name(left) {
        let Some(rest) = slide(front, here, false) else {
            return None;
        };
        here = rest;
        left = back;
    }
    slide(left, here, to_end)
}

/// The longest rest that steady pieces can leave of a name.
fn steady_rest<'a>(pieces: &[Piece], name: &'a str, to_end: bool) -> Option<&'a str>
    requires { IsTrue (list_all is_steady pieces.now) }
    ensures { MatchOption result (HasNoRest pieces.now to_end (chars name.now))
        (λ rest. IsLongestRest pieces.now to_end (chars name.now) (chars rest.now)) }
{
    let Some((first, behind)) = around_name(pieces) else {
        return fixed_rest(pieces, name, to_end);
    };
    let Some(begin) = fixed_rest(first, name, false) else {
        return None;
    };
    star_rest(behind, begin, to_end)
}

/// Whether pieces match a name, where the characters that they end with tell it.
fn matched_by_end(pieces: &[Piece], name: &str) -> Option<bool>
    ensures { IfSome result (λ matched. IsTrue matched ↔ Matches pieces.now (chars name.now)) }
{
    let mut left = pieces;
    let mut rest = name;
    while let Some((Piece::Char(wanted), before)) = left.split_last() {
        let Some(front) = before_char(rest, *wanted) else {
            return Some(false);
        };
        left = before;
        rest = front;
    }
    match left {
        [] => Some(may_stop(rest, true)),
        [Piece::AnyPath] => Some(true),
        _ => None,
    }
}

/// The longest rest that pieces can leave of a name, where the rest has to be nothing if they have
/// to go to the end.
fn longest_rest<'a>(pieces: &[Piece], name: &'a str, to_end: bool) -> Option<&'a str>
    requires { IsTrue (list_all is_no_path pieces.now) }
    ensures { MatchOption result (HasNoRest pieces.now to_end (chars name.now))
        (λ rest. IsLongestRest pieces.now to_end (chars name.now) (chars rest.now)) }
{
    if are_steady(pieces) {
        steady_rest(pieces, name, to_end)
    } else {
        placed_start(pieces, name, to_end)
    }
}

/// What follows the first dot of a name.
fn past_dot(name: &str) -> Option<&str>
    ensures { MatchOption result (IsTrue (has_no_dot (chars name.now)))
        (λ rest. IsPastDot (chars name.now) (chars rest.now)) }
{
    let mut here = name;
    while let Some((c, behind)) = first_char(here) {
        if c == '.' {
            return Some(behind);
        }
        here = behind;
    }
    None
}

/// The longest rest that steady pieces can leave of any end of a name. Where they leave none from
/// a place on, they leave none from any place before the next dot: the dots that each piece takes
/// are the same ones from there.
fn steady_anywhere<'a>(pieces: &[Piece], name: &'a str, to_end: bool) -> Option<&'a str>
    requires { IsTrue (list_all is_steady pieces.now) }
    ensures { MatchOption result (HasNoRestAnywhere pieces.now to_end (chars name.now))
        (λ rest. IsLongestAnywhere pieces.now to_end (chars name.now) (chars rest.now)) }
{
    let mut from = name;
    loop {
        if let Some(rest) = star_rest(pieces, from, to_end) {
            return Some(rest);
        }
        match past_dot(from) {
            None => return None,
            Some(behind) => from = behind,
        }
    }
}

/// The longest rest that pieces can leave of any end of a name, as above.
fn longest_anywhere<'a>(pieces: &[Piece], name: &'a str, to_end: bool) -> Option<&'a str>
    requires { IsTrue (list_all is_no_path pieces.now) }
    ensures { MatchOption result (HasNoRestAnywhere pieces.now to_end (chars name.now))
        (λ rest. IsLongestAnywhere pieces.now to_end (chars name.now) (chars rest.now)) }
{
    if are_steady(pieces) {
        steady_anywhere(pieces, name, to_end)
    } else {
        placed_anywhere(pieces, name, to_end)
    }
}

/// The place of the first `**`.
fn any_path_at(pieces: &[Piece]) -> Option<usize>
    ensures { result ≡ position is_any_path pieces.now }
{
    pieces.iter().position(is_any_path)
}

/// The pieces before the first `**`, and those after it.
fn around_path(pieces: &[Piece]) -> Option<(&[Piece], &[Piece])>
    ensures { MatchOption result (IsTrue (list_all is_no_path pieces.now))
        (λ parts. IsTrue (list_all is_no_path parts.0.now)
        × (pieces.now ≡ parts.0.now ++ (Piece.AnyPath ∷ parts.1.now))) }
{
    let Some(at) = any_path_at(pieces) else {
        return None;
    };
    Some((&pieces[..at], &pieces[at + 1..]))
}

/// Whether pieces match an end of a name.
fn matches_end(pieces: &[Piece], name: &str) -> bool
    ensures { IsTrue result ↔ MatchesEnd pieces.now (chars name.now) }
{
    let mut left = pieces;
    let mut rest = name;
    while let Some((front, back)) = around_path(left) {
        let Some(behind) = longest_anywhere(front, rest, false) else {
            return false;
        };
        rest = behind;
        left = back;
    }
    longest_anywhere(left, rest, true).is_some()
}

/// Whether pieces match a name, tried from its start. Only the last `**` is tried again: the pieces
/// before it need not be, since they left the longest rest that they can.
fn matches_from_start(pieces: &[Piece], name: &str) -> bool
    ensures { IsTrue result ↔ Matches pieces.now (chars name.now) }
{
    let Some((front, back)) = around_path(pieces) else {
        return longest_rest(pieces, name, true).is_some();
    };
    let Some(rest) = longest_rest(front, name, false) else {
        return false;
    };
    matches_end(back, rest)
}

/// Whether pieces match a name. Most patterns are `**` and a name, so that the characters at the
/// end tell it.
pub(crate) fn matches_pieces(pieces: &[Piece], name: &str) -> bool
    ensures { IsTrue result ↔ Matches pieces.now (chars name.now) }
{
    match matched_by_end(pieces, name) {
        Some(matched) => matched,
        None => matches_from_start(pieces, name),
    }
}
