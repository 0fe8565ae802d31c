//! Words of command lines: each is separated from the next by one space.

ghost use Rattle.std.specs.Prelude.{◌≡◌, ◌<◌, [], ◌∷◌, length, position, IfSome, MatchOption};
ghost use Rattle.std.specs.Prelude.{option_map};
ghost use Rattle.std.specs.List.{list_any};
ghost use Rattle.std.specs.Str.{is_utf8};
ghost use Rattle.std.specs.Option.{option_copied};
ghost use Rattle.desk_commands.specs.Words.{behind, is_space, is_word, named, numbered, parted};
ghost use Rattle.desk_commands.specs.Words.{short_numbered, word_of, words_of};

use crate::numbers::{number_of, short_of};
use std::str::from_utf8;

/// What stands after these bytes, where the line begins with them.
pub(crate) fn behind<'a>(first: &[u8], line: &'a [u8]) -> Option<&'a [u8]>
    ensures { option_copied result ≡ behind first.now line.now }
{
    if !line.starts_with(first) {
        return None;
    }
    Some(&line[first.len()..])
}

/// The place of the first space.
fn first_space(bytes: &[u8]) -> Option<usize>
    ensures value { result ≡ position is_space bytes.now }
    ensures within { IfSome result (λ at. at < length bytes.now) }
{
    bytes.iter().position(|b| *b == b' ')
}

/// The first word, with all that stands after the space that ends it.
#[tactic(auto, using(crate::proofs::Parting::one_word, crate::proofs::Parting::more_words))]
pub(crate) fn parted(bytes: &[u8]) -> Option<(&[u8], &[u8])>
    ensures value { option_map (λ p. (p.0.now, p.1.now)) result ≡ parted bytes.now }
    ensures words { MatchOption result (words_of bytes.now ≡ bytes.now ∷ [])
        (λ p. words_of bytes.now ≡ p.0.now ∷ words_of p.1.now) }
{
    let at = first_space(bytes)?;
    Some((&bytes[..at], &bytes[at + 1..]))
}

/// The number of the first word, with all that stands after the space that ends it.
pub(crate) fn numbered(bytes: &[u8]) -> Option<(u64, &[u8])>
    ensures { option_map (λ p. (p.0, p.1.now)) result ≡ numbered bytes.now }
{
    let (word, rest) = parted(bytes)?;
    Some((number_of(word)?, rest))
}

/// The number of 32 bits of the first word, with all that stands after the space that ends it.
pub(crate) fn short_numbered(bytes: &[u8]) -> Option<(u64, &[u8])>
    ensures { option_map (λ p. (p.0, p.1.now)) result ≡ short_numbered bytes.now }
{
    let (word, rest) = parted(bytes)?;
    Some((short_of(word)?, rest))
}

/// Whether the bytes are UTF-8.
pub(crate) fn is_text(bytes: &[u8]) -> bool
    ensures { result ≡ is_utf8 bytes.now }
{
    from_utf8(bytes).is_ok()
}

/// Whether a space is among the bytes.
fn has_space(bytes: &[u8]) -> bool
    ensures { result ≡ list_any is_space bytes.now }
{
    bytes.contains(&b' ')
}

/// Whether it is one word, which is UTF-8.
fn is_word(bytes: &[u8]) -> bool
    ensures { result ≡ is_word bytes.now }
{
    is_text(bytes) && !has_space(bytes)
}

/// The word that the bytes are.
pub(crate) fn word_of(bytes: &[u8]) -> Option<&[u8]>
    ensures { option_copied result ≡ word_of bytes.now }
{
    if is_word(bytes) { Some(bytes) } else { None }
}

/// The first word, where it is UTF-8, and all that stands after the space that ends it.
pub(crate) fn named(bytes: &[u8]) -> Option<(&[u8], &[u8])>
    ensures { option_map (λ p. (p.0.now, p.1.now)) result ≡ named bytes.now }
{
    let (word, rest) = parted(bytes)?;
    Some((word_of(word)?, rest))
}
