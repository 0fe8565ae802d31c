//! The small values that every layer shares: texts, values of parameters, units of time, faults of
//! values and of models, and lack of memory.
#![tactic(auto)]

pub mod dropping;
pub mod model_fault;
pub mod text;
pub mod units;
pub mod value;
pub mod value_fault;

ghost use Rattle.std.specs.Prelude.{◌≡◌};

use std::alloc::{AllocError, AllocFailed};
use thiserror::Error;

/// A growth was refused: memory ran out. Its field is private, so that outside this crate it is
/// made from an error of the allocator alone: who answers it has met one.
#[derive(Clone, Copy, Debug, PartialEq, Eq, Error)]
#[error("out of memory")]
pub struct NoMemory {
    seal: (),
}

impl NoMemory {
    /// The allocator's error, where a caller passes that on.
    pub fn error(self) -> AllocError {
        AllocError
    }

    /// The value that had no room, and that memory ran out.
    pub fn with_value<T>(failed: AllocFailed<T>) -> (T, NoMemory)
        ensures { result.0 ≡ failed.value }
    {
        let AllocFailed { value } = failed;
        (value, NoMemory { seal: () })
    }
}

impl From<AllocError> for NoMemory {
    fn from(_e: AllocError) -> NoMemory {
        NoMemory { seal: () }
    }
}

impl<T: Drop> From<AllocFailed<T>> for NoMemory {
    fn from(_e: AllocFailed<T>) -> NoMemory {
        NoMemory { seal: () }
    }
}
