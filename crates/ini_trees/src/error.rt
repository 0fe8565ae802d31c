//! Why a configuration has no chain.

ghost use Rattle.std.specs.Prelude.{◌≡◌};
ghost use Rattle.sim_values.specs.Memory.{no_memory};
ghost use Rattle.ini_trees.specs.declared.error.ChainError.TheVariants as faults;

use sim_values::NoMemory;
use std::alloc::AllocError;
use thiserror::Error;

/// Why a configuration has no chain. Of several reasons the first in this order is told, and lack
/// of memory in any place.
#[derive(Clone, Copy, Debug, PartialEq, Eq, Error)]
pub enum ChainError {
    /// There is no section of that name.
    #[error("there is no such configuration")]
    NoSuchConfig,
    /// It extends, itself or by others, a configuration that is not there, several that can't be
    /// put in order, or, in the end, itself.
    #[error("a configuration extends what it can't")]
    ChainFault,
    /// Memory ran out.
    #[error("out of memory")]
    NoMemory(NoMemory),
}

impl From<AllocError> for ChainError {
    ghost from_gives = { λ _ e. e ≡ faults.NoMemory no_memory };

    fn from(error: AllocError) -> ChainError {
        ChainError::NoMemory(error.into())
    }
}
