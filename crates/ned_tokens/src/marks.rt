//! Marks: the longest that the bytes begin with.

ghost use Rattle.std.specs.Prelude.{◌≡◌, drop, slice_index};
ghost use Rattle.ned_tokens.specs.Marks as marks;

use crate::token::{Mark, Token};

/// An arrow, and how many bytes of it are after the first.
#[tactic(auto, unfolding(crate::specs::Marks::arrow_of))]
fn arrow_of(first: u8, second: u8, third: u8, fourth: u8) -> Option<(Mark, usize)>
    ensures { result ≡ marks.arrow_of first second third fourth }
{
    if first == b'<' && second == b'-' && third == b'-' {
        if fourth == b'>' {
            Some((Mark::ArrowBoth, 3))
        } else {
            Some((Mark::ArrowLeft, 2))
        }
    } else if first == b'-' && second == b'-' && third == b'>' {
        Some((Mark::ArrowRight, 2))
    } else {
        None
    }
}

/// A mark of two bytes.
#[tactic(auto, unfolding(crate::specs::Marks::pair_of))]
fn pair_of(first: u8, second: u8) -> Option<Mark>
    ensures { result ≡ marks.pair_of first second }
{
    if first == b'.' && second == b'.' {
        Some(Mark::DotDot)
    } else if first == b'=' && second == b'=' {
        Some(Mark::Equal)
    } else if first == b'!' && second == b'=' {
        Some(Mark::NotEqual)
    } else if first == b'<' && second == b'=' {
        Some(Mark::AtMost)
    } else if first == b'>' && second == b'=' {
        Some(Mark::AtLeast)
    } else if first == b'<' && second == b'<' {
        Some(Mark::ShiftLeft)
    } else if first == b'>' && second == b'>' {
        Some(Mark::ShiftRight)
    } else if first == b'&' && second == b'&' {
        Some(Mark::And)
    } else if first == b'|' && second == b'|' {
        Some(Mark::Or)
    } else if first == b'#' && second == b'#' {
        Some(Mark::Xor)
    } else if first == b'+' && second == b'+' {
        Some(Mark::PlusPlus)
    } else if first == b'$' && second == b'i' {
        Some(Mark::InHalf)
    } else if first == b'$' && second == b'o' {
        Some(Mark::OutHalf)
    } else {
        None
    }
}

/// A bracket, or a mark between parts.
#[tactic(auto, unfolding(crate::specs::Marks::bracket_of))]
fn bracket_of(first: u8) -> Option<Mark>
    ensures { result ≡ marks.bracket_of first }
{
    match first {
        b'{' => Some(Mark::Open),
        b'}' => Some(Mark::Close),
        b'(' => Some(Mark::LeftParen),
        b')' => Some(Mark::RightParen),
        b'[' => Some(Mark::LeftBracket),
        b']' => Some(Mark::RightBracket),
        b',' => Some(Mark::Comma),
        b';' => Some(Mark::Semi),
        b':' => Some(Mark::Colon),
        b'.' => Some(Mark::Dot),
        b'=' => Some(Mark::Equals),
        b'@' => Some(Mark::At),
        _ => None,
    }
}

/// An operator of one byte.
#[tactic(auto, unfolding(crate::specs::Marks::operator_of))]
fn operator_of(first: u8) -> Option<Mark>
    ensures { result ≡ marks.operator_of first }
{
    match first {
        b'<' => Some(Mark::Less),
        b'>' => Some(Mark::Greater),
        b'+' => Some(Mark::Plus),
        b'-' => Some(Mark::Minus),
        b'*' => Some(Mark::Star),
        b'/' => Some(Mark::Slash),
        b'%' => Some(Mark::Percent),
        b'^' => Some(Mark::Caret),
        b'!' => Some(Mark::Bang),
        b'~' => Some(Mark::Tilde),
        b'?' => Some(Mark::Question),
        b'|' => Some(Mark::Bar),
        b'&' => Some(Mark::Ampersand),
        b'#' => Some(Mark::Hash),
        _ => None,
    }
}

fn byte_at(bytes: &[u8], at: usize) -> u8
    ensures { result ≡ slice_index bytes.now at }
{
    if at < bytes.len() { bytes[at] } else { 0 }
}

/// The mark that begins with this byte, and how many of its bytes are after it.
#[tactic(auto, unfolding(crate::specs::Marks::mark_of))]
fn mark_of(first: u8, rest: &[u8]) -> Option<(Mark, usize)>
    ensures { result ≡ marks.mark_of first rest.now }
{
    if let Some(found) = arrow_of(first, byte_at(rest, 0), byte_at(rest, 1), byte_at(rest, 2)) {
        return Some(found);
    }
    if let Some(found) = pair_of(first, byte_at(rest, 0)) {
        return Some((found, 1));
    }
    if let Some(found) = bracket_of(first) {
        return Some((found, 0));
    }
    match operator_of(first) {
        Some(found) => Some((found, 0)),
        None => None,
    }
}

fn after(count: usize, bytes: &[u8]) -> &[u8]
    ensures { result.now ≡ drop count bytes.now }
{
    if count > bytes.len() {
        return &[];
    }
    let (_, rest) = bytes.split_at(count);
    rest
}

/// The mark or the stray byte that begins with this byte, and what is after it.
#[tactic(auto, unfolding(crate::specs::Marks::mark_at))]
pub(crate) fn mark_at(first: u8, rest: &[u8]) -> (Token, &[u8])
    ensures { (result.0, result.1.now) ≡ marks.mark_at first rest.now }
{
    match mark_of(first, rest) {
        Some((mark, more)) => (Token::Mark(mark), after(more, rest)),
        None => (Token::Stray(first), rest),
    }
}
