//! Why nothing was read.

ghost use Rattle.std.specs.Prelude.{◌≡◌};
ghost use Rattle.sim_values.specs.Memory.{no_memory};
ghost use Rattle.ned_tokens.specs.declared.refusal.Refusal.TheVariants.{Memory};

use sim_values::NoMemory;
use std::alloc::{AllocError, AllocFailed};

/// Why nothing was read.
#[derive(Drop)]
pub enum Refusal {
    /// Memory ran out.
    Memory(NoMemory),
    /// This many tokens are left at the first that can't go on.
    At(usize),
}

impl From<AllocError> for Refusal {
    ghost from_gives = { λ _ e. e ≡ Memory no_memory };

    fn from(error: AllocError) -> Refusal {
        Refusal::Memory(error.into())
    }
}

impl<T: Drop> From<AllocFailed<T>> for Refusal {
    ghost from_gives = { λ _ e. e ≡ Memory no_memory };

    fn from(error: AllocFailed<T>) -> Refusal {
        Refusal::Memory(error.into())
    }
}
