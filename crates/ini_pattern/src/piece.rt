//! The pieces of a pattern.

ghost use Rattle.std.specs.Prelude.{◌≡◌, IfOk};

use sqlite_items::Items;
use std::alloc::{AllocError, Global};

/// The characters from the first to the last.
#[derive(Clone, Copy, PartialEq, Eq)]
pub struct CharRange {
    pub first: char,
    pub last: char,
}

/// A piece of a pattern: what stands for characters of a name.
///
/// OMNeT++ Simulation Manual, "Using Wildcard Patterns".
#[derive(Drop)]
pub enum Piece {
    /// `**`: any characters, or none.
    AnyPath,
    /// `*`: characters other than the dot, or none.
    AnyName,
    /// `?`: one character other than the dot.
    AnyChar,
    /// This character.
    Char(char),
    /// `{abc}`, `{a-z}`, `{^a-z}`: one character in one of the ranges, or in none of them.
    Set {
        negated: bool,
        ranges: Items<CharRange>,
    },
    /// `{low..high}`: a number from `low` to `high`, or with no end, in up to 18 digits that no
    /// digit follows.
    Number {
        low: u64,
        high: Option<u64>,
    },
}

/// Equal ranges.
fn copy_ranges(alloc: Global, ranges: &[CharRange]) -> Result<Items<CharRange>, AllocError>
    ensures { IfOk result (λ copy. copy ≡ ranges.now) }
{
    Items::from_slice(alloc, ranges)
}

/// An equal piece.
fn copy_piece(alloc: Global, piece: &Piece) -> Result<Piece, AllocError>
    ensures { IfOk result (λ copy. copy ≡ piece.now) }
{
    match piece {
        Piece::AnyPath => Ok(Piece::AnyPath),
        Piece::AnyName => Ok(Piece::AnyName),
        Piece::AnyChar => Ok(Piece::AnyChar),
        Piece::Char(c) => Ok(Piece::Char(*c)),
        Piece::Set { negated, ranges } => Ok(Piece::Set {
            negated: *negated,
            ranges: copy_ranges(alloc, ranges.as_slice())?,
        }),
        Piece::Number { low, high } => Ok(Piece::Number {
            low: *low,
            high: *high,
        }),
    }
}

/// Equal pieces.
pub(crate) fn copy_pieces(alloc: Global, pieces: &[Piece]) -> Result<Items<Piece>, AllocError>
    ensures { IfOk result (λ copy. copy ≡ pieces.now) }
{
    let mut copy = Items::new(alloc);
    for piece in pieces {
        copy.push(copy_piece(alloc, piece)?)?;
    }
    Ok(copy)
}
