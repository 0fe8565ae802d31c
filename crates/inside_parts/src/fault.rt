//! Why there is no value and no inside.

use sim_values::NoMemory;
use sim_values::model_fault::ModelFault;
use std::alloc::{AllocError, AllocFailed};

/// Why building stopped: a fault of the model, or lack of memory, which says nothing of the model.
#[derive(Clone, Copy)]
pub enum InsideError {
    Fault(ModelFault),
    Memory(NoMemory),
}

impl From<NoMemory> for InsideError {
    ghost use Rattle.std.specs.Prelude.{◌≡◌};
    ghost use Rattle.inside_parts.specs.Faults.{IsOfMemory};

    ghost from_gives = { λ _ e. IsOfMemory e };

    fn from(e: NoMemory) -> InsideError {
        InsideError::Memory(e)
    }
}

impl From<AllocError> for InsideError {
    ghost use Rattle.inside_parts.specs.Faults.{IsOfMemory};

    ghost from_gives = { λ _ e. IsOfMemory e };

    fn from(e: AllocError) -> InsideError {
        InsideError::Memory(e.into())
    }
}

impl<T: Drop> From<AllocFailed<T>> for InsideError {
    ghost use Rattle.inside_parts.specs.Faults.{IsOfMemory};

    ghost from_gives = { λ _ e. IsOfMemory e };

    fn from(e: AllocFailed<T>) -> InsideError {
        InsideError::Memory(e.into())
    }
}
