//! The key by which an entry is found.

ghost use Rattle.std.specs.Prelude.{◌≡◌, IfOk, IsTrue};
ghost use Rattle.std.specs.List.{list_all};
ghost use Rattle.std.specs.String.{string_bytes};
ghost use Rattle.ini_index.specs.Keys.{behind_last, is_dot, is_literal, key_in, key_of, pieces_of};
ghost use Rattle.ini_index.specs.Keys.{text_of};

use ini_pattern::piece::Piece;
use ini_trees::entry::EntryMeaning;
use sim_values::NoMemory;
use std::alloc::Global;

/// Whether a piece is an ASCII character that stands for itself.
fn is_literal(piece: &Piece) -> bool
    ensures { result ≡ is_literal piece.now }
{
    match piece {
        Piece::Char(c) => c.is_ascii(),
        _ => false,
    }
}

/// Whether all pieces are so.
fn are_literal(pieces: &[Piece]) -> bool
    ensures { result ≡ list_all is_literal pieces.now }
{
    pieces.iter().all(is_literal)
}

/// Whether a piece is a dot.
fn is_dot(piece: &Piece) -> bool
    ensures { result ≡ is_dot piece.now }
{
    match piece {
        Piece::Char(c) => *c == '.',
        _ => false,
    }
}

/// The pieces after the last dot, or all of them.
fn behind_last_dot(pieces: &[Piece]) -> &[Piece]
    ensures { result.now ≡ behind_last is_dot pieces.now }
{
    let mut start = pieces.len();
    while start > 0 && !is_dot(&pieces[start - 1]) {
        start -= 1;
    }
    &pieces[start..]
}

/// The characters that pieces are.
fn text_of(alloc: Global, pieces: &[Piece]) -> Result<String, NoMemory>
    ensures { IfOk result (λ text. string_bytes text ≡ text_of pieces.now) }
{
    let mut text = String::new(alloc);
    for piece in pieces {
        if let Piece::Char(c) = piece {
            text.push(*c)?;
        }
    }
    Ok(text)
}

/// The text of a pattern without wildcards, or else the name that a pattern ends with after its
/// last dot, or else nothing.
fn key_in(alloc: Global, pieces: &[Piece]) -> Result<String, NoMemory>
    ensures { IfOk result (λ key. string_bytes key ≡ key_in pieces.now) }
{
    if are_literal(pieces) {
        return text_of(alloc, pieces);
    }
    let name = behind_last_dot(pieces);
    if are_literal(name) {
        text_of(alloc, name)
    } else {
        Ok(String::new(alloc))
    }
}

/// The pieces of the pattern of an entry, where it has one.
fn pieces_of(meaning: &EntryMeaning) -> &[Piece]
    ensures { result.now ≡ pieces_of meaning.now }
{
    match meaning {
        EntryMeaning::Parameter(entry) | EntryMeaning::Type(entry) => entry.pattern.pieces(),
        EntryMeaning::Object(entry) => entry.pattern.pieces(),
        _ => &[],
    }
}

/// The key by which an entry is found that says this.
pub fn key_of(alloc: Global, meaning: &EntryMeaning) -> Result<String, NoMemory>
    ensures { IfOk result (λ key. string_bytes key ≡ key_of meaning.now) }
{
    key_in(alloc, pieces_of(meaning))
}
