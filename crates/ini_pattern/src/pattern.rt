//! Patterns.

ghost use Rattle.std.specs.Prelude.{◌≡◌, ◌↔◌, IsTrue, MatchResult, IfOk, Some, None};
ghost use Rattle.std.specs.Str.{chars};
ghost use Rattle.ini_pattern.specs.Matched.{is_matched};
ghost use Rattle.ini_pattern.specs.Matches.{Matches};
ghost use Rattle.ini_pattern.specs.PatternOf.{pattern_of};

use crate::matching::matches_pieces;
use crate::parse::parse_pieces;
use crate::piece::{Piece, copy_pieces};
use sim_values::NoMemory;
use sqlite_items::Items;
use std::alloc::{AllocError, AllocFailed, Global};
use std::marker::Model;
use thiserror::Error;

/// Why a text is no pattern here.
#[derive(Clone, Copy, Debug, PartialEq, Eq, Error)]
pub enum PatternFault {
    /// An unclosed or empty set, a reversed range, a bound of more than 18 digits, or a backslash
    /// at the end.
    #[error("not a pattern")]
    BadPattern,
    /// Memory ran out.
    #[error("out of memory")]
    NoMemory(NoMemory),
}

impl From<AllocError> for PatternFault {
    ghost use Rattle.std.specs.Prelude.{◌≡◌};
    ghost use Rattle.sim_values.specs.Memory.{no_memory};
    ghost use Rattle.ini_pattern.specs.declared.pattern.PatternFault.TheVariants.{NoMemory};

    ghost from_gives = { λ _ e. e ≡ NoMemory no_memory };

    fn from(error: AllocError) -> PatternFault {
        PatternFault::NoMemory(error.into())
    }
}

/// A wildcard pattern. Contracts see it as the list of its pieces.
#[derive(Drop)]
pub struct Pattern {
    pieces: Items<Piece>,
}

impl Model for Pattern {
    ghost use Rattle.std.specs.Prelude.{List};
    ghost use Rattle.ini_pattern.specs.declared.piece.Piece.{Piece};

    ghost Value = { List Piece };

    ghost view = { λ p. p.pieces };
}

impl Pattern {
    ghost use Rattle.ini_pattern.specs.Fault.{OnBadPattern};

    /// The pattern that a text is. [`PatternFault::BadPattern`] where it is none, and
    /// [`PatternFault::NoMemory`] where memory ran out.
    pub fn parse(alloc: Global, text: &str) -> Result<Pattern, PatternFault>
        ensures { MatchResult result (λ pattern. pattern_of (chars text.now) ≡ Some pattern)
            (OnBadPattern (pattern_of (chars text.now) ≡ None)) }
    {
        Ok(Pattern {
            pieces: parse_pieces(alloc, text)?,
        })
    }

    /// An equal pattern.
    pub fn copy(&self, alloc: Global) -> Result<Pattern, AllocError>
        ensures { IfOk result (λ copy. copy ≡ self.now) }
    {
        Ok(Pattern {
            pieces: copy_pieces(alloc, self.pieces.as_slice())?,
        })
    }

    /// Its pieces, the first one first.
    pub fn pieces(&self) -> &[Piece]
        ensures { result.now ≡ self.now }
    {
        self.pieces.as_slice()
    }

    /// Whether the pattern matches a name. It allocates nothing.
    pub fn matches(&self, name: &str) -> bool
        ensures relation { IsTrue result ↔ Matches self.now (chars name.now) }
        ensures test { result ≡ is_matched self.now (chars name.now) }
    {
        matches_pieces(self.pieces.as_slice(), name)
    }
}
