//! Why a text is refused.

ghost use Rattle.std.specs.Prelude.{◌≡◌};
ghost use Rattle.sim_values.specs.Memory.{no_memory};
ghost use Rattle.ned_leaves.specs.declared.error.NedError.TheVariants as errors;

use sim_values::NoMemory;
use std::alloc::AllocError;
use thiserror::Error;

/// Why a text is refused.
#[derive(Clone, Copy, Debug, PartialEq, Eq, Error)]
pub enum NedError {
    /// The line of the first byte that can't go on; at the text's end that of its last byte, 1 in
    /// an empty text.
    #[error("line {0} is no NED")]
    NedSyntax(usize),
    /// The text is longer than 1 MiB.
    #[error("a NED text is longer than 1 MiB")]
    TooLarge,
    /// Memory ran out.
    #[error("out of memory")]
    NoMemory(NoMemory),
}

impl From<AllocError> for NedError {
    ghost from_gives = { λ _ e. e ≡ errors.NoMemory no_memory };

    fn from(error: AllocError) -> NedError {
        NedError::NoMemory(error.into())
    }
}
