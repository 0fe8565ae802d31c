//! The longest rest that pieces can leave of a name, by a place for each `*`.

ghost use Rattle.std.specs.Prelude.{◌≡◌, ◌<◌, ◌+◌, ◌++◌, ◌∷◌, IsTrue, MatchOption, nat_le};
ghost use Rattle.std.specs.List.{list_all};
ghost use Rattle.std.specs.Str.{chars};
ghost use Rattle.ini_pattern.specs.Places.{opening, is_no_path, stars, size, IsTried};
ghost use Rattle.ini_pattern.specs.Places.{IsLongestWithin, HasNoneWithin};
ghost use Rattle.ini_pattern.specs.Reading.{is_fixed, HasNoRest, IsLongestRest, HasNoRestAnywhere};
ghost use Rattle.ini_pattern.specs.Reading.{IsLongestAnywhere};

use crate::matching::{fixed_rest, is_any_name};
use crate::piece::Piece;
use crate::reading::first_char;

/// How many `*` the pieces have.
fn count_stars(pieces: &[Piece]) -> usize
    ensures { result ≡ stars pieces.now }
{
    let mut count: usize = 0;
    for piece in pieces {
        if is_any_name(piece) {
            count += 1;
        }
    }
    count
}

/// The pieces before the `*` of this number, and those after it.
fn around_star(pieces: &[Piece], number: usize) -> Option<(&[Piece], &[Piece])>
    requires { 0 < number }
    ensures { MatchOption result (stars pieces.now < number)
        (λ parts. (stars parts.0.now + 1 ≡ number)
        × (pieces.now ≡ parts.0.now ++ (Piece.AnyName ∷ parts.1.now))) }
{
    let mut count: usize = 0;
    for at in 0..pieces.len() {
        if is_any_name(&pieces[at]) {
            count += 1;
            if count == number {
                return Some((&pieces[..at], &pieces[at + 1..]));
            }
        }
    }
    None
}

/// Whether a rest is no longer than the floor.
fn is_within(rest: &str, floor: &str) -> bool
    ensures { result ≡ nat_le (size (chars rest.now)) (size (chars floor.now)) }
{
    rest.len() <= floor.len()
}

/// What pieces that are no stars leave of a name, where it may be left.
fn fixed_within<'a>(pieces: &[Piece], name: &'a str, floor: &str, to_end: bool) -> Option<&'a str>
    requires { IsTrue (list_all is_fixed pieces.now) }
    ensures { MatchOption result
        (HasNoneWithin pieces.now to_end (chars floor.now) (chars name.now))
        (λ rest. IsLongestWithin pieces.now to_end (chars floor.now) (chars name.now)
        (chars rest.now)) }
{
    let Some(rest) = fixed_rest(pieces, name, to_end) else {
        return None;
    };
    if is_within(rest, floor) {
        Some(rest)
    } else {
        None
    }
}

/// The longest rest that pieces can leave of a name, where it may be left.
#[cycle(places)]
fn block_rest<'a>(pieces: &[Piece], name: &'a str, floor: &str, to_end: bool) -> Option<&'a str>
    requires { IsTrue (list_all is_no_path pieces.now) }
    ensures { MatchOption result
        (HasNoneWithin pieces.now to_end (chars floor.now) (chars name.now))
        (λ rest. IsLongestWithin pieces.now to_end (chars floor.now) (chars name.now)
        (chars rest.now)) }
{
    if count_stars(pieces) == 0 {
        fixed_within(pieces, name, floor, to_end)
    } else {
        placed_rest(false, pieces, name, floor, to_end)
    }
}

/// What comes of pieces that are tried at a place.
enum Tried<'p, 'a> {
    /// They leave no rest from there.
    Stuck,
    /// They have fewer `*`, and leave this rest.
    Last(&'a str),
    /// Those before the `*` leave this rest, and these stand after that `*`.
    Next(&'a str, &'p [Piece]),
}

/// Tries the pieces before the `*` of this number at a place. What they leave is to be no longer
/// than the place of that `*`. Where they have fewer `*`, all are tried, and what they leave is to
/// be no longer than the floor.
#[cycle(places)]
fn try_block<'p, 'a>(
    left: &'p [Piece],
    number: usize,
    here: &'a str,
    next: &str,
    floor: &str,
    to_end: bool,
) -> Tried<'p, 'a>
    requires some { 0 < number }
    requires plain { IsTrue (list_all is_no_path left.now) }
    ensures { IsTried number left.now to_end (chars here.now) (chars next.now)
        (chars floor.now) result }
{
    let Some((front, back)) = around_star(left, number) else {
        return match block_rest(left, here, floor, to_end) {
            Some(rest) => Tried::Last(rest),
            None => Tried::Stuck,
        };
    };
    match block_rest(front, here, next, false) {
        Some(rest) => Tried::Next(rest, back),
        None => Tried::Stuck,
    }
}

/// The longest rest that pieces can leave of a name, or of any end of it, where it may be left.
///
/// The beginning and up to 63 of the `*`, evenly spread, have a place at which the pieces after it
/// are tried. No place ever moves back: where those pieces fit nowhere before the next dot, the `*`
/// before has to be placed so that its pieces end after that dot.
#[cycle(places)]
fn placed_rest<'a>(
    anywhere: bool,
    pieces: &[Piece],
    name: &'a str,
    floor: &str,
    to_end: bool,
) -> Option<&'a str>
    requires { IsTrue (list_all is_no_path pieces.now) }
    ensures { MatchOption result
        (HasNoneWithin (opening anywhere ++ pieces.now) to_end (chars floor.now) (chars name.now))
        (λ rest. IsLongestWithin (opening anywhere ++ pieces.now) to_end (chars floor.now)
        (chars name.now) (chars rest.now)) }
{
    let number = count_stars(pieces) / 64 + 1;
    let mut lefts = [pieces; 65];
    let mut heres = [name; 65];
    let mut at = 0;
    loop {
        let here = heres[at];
        match try_block(lefts[at], number, here, heres[at + 1], floor, to_end) {
            Tried::Last(rest) => return Some(rest),
            Tried::Next(rest, back) => {
                at += 1;
                heres[at] = rest;
                lefts[at] = back;
            }
            Tried::Stuck => {
                if at == 0 && !anywhere {
                    return None;
                }
                let Some((c, behind)) = first_char(here) else {
                    return None;
                };
                heres[at] = behind;
                if c == '.' && at > 0 {
                    at -= 1;
                }
            }
        }
    }
}

/// The longest rest that pieces can leave of a name.
pub(crate) fn placed_start<'a>(pieces: &[Piece], name: &'a str, to_end: bool) -> Option<&'a str>
    requires { IsTrue (list_all is_no_path pieces.now) }
    ensures { MatchOption result (HasNoRest pieces.now to_end (chars name.now))
        (λ rest. IsLongestRest pieces.now to_end (chars name.now) (chars rest.now)) }
{
    block_rest(pieces, name, name, to_end)
}

/// The longest rest that pieces can leave of any end of a name.
pub(crate) fn placed_anywhere<'a>(pieces: &[Piece], name: &'a str, to_end: bool) -> Option<&'a str>
    requires { IsTrue (list_all is_no_path pieces.now) }
    ensures { MatchOption result (HasNoRestAnywhere pieces.now to_end (chars name.now))
        (λ rest. IsLongestAnywhere pieces.now to_end (chars name.now) (chars rest.now)) }
{
    placed_rest(true, pieces, name, name, to_end)
}
