//! Why an ini text is refused.

ghost use Rattle.std.specs.Prelude.{◌≡◌};
ghost use Rattle.sim_values.specs.Memory.{no_memory};
ghost use Rattle.ini_config.specs.declared.error.IniError.TheVariants as errors;

use ini_entries::reason::Reason;
use sim_values::NoMemory;
use std::alloc::AllocError;
use thiserror::Error;

/// Why an ini text is refused.
#[derive(Clone, Copy, Debug, PartialEq, Eq, Error)]
pub enum IniError {
    /// The number, from 1, of the first line that means nothing, or may not stand where it does,
    /// and why.
    #[error("line {0} is no line of an ini text")]
    IniSyntax(usize, Reason),
    /// The text is longer than 1 MiB.
    #[error("an ini text is longer than 1 MiB")]
    TooLarge,
    /// Memory ran out.
    #[error("out of memory")]
    NoMemory(NoMemory),
}

impl From<AllocError> for IniError {
    ghost from_gives = { λ _ e. e ≡ errors.NoMemory no_memory };

    fn from(error: AllocError) -> IniError {
        IniError::NoMemory(error.into())
    }
}

/// Why an edit of an ini text is refused. Of several reasons the first in this order is told, and
/// lack of memory in any place.
#[derive(Clone, Copy, Debug, PartialEq, Eq, Error)]
pub enum EditError {
    /// The changed text, which is its lines, each followed by LF, is longer than 1 MiB.
    #[error("the changed ini text is longer than 1 MiB")]
    TooLarge,
    /// There is no line of that number.
    #[error("there is no such line")]
    NoSuchLine,
    /// The number, from 1, of the first line of the changed text that means nothing, or may not
    /// stand where it does, and why.
    #[error("line {0} of the changed text is no line of an ini text")]
    IniSyntax(usize, Reason),
    /// Memory ran out.
    #[error("out of memory")]
    NoMemory(NoMemory),
}

impl From<AllocError> for EditError {
    ghost use Rattle.ini_config.specs.declared.error.EditError.TheVariants as refusals;

    ghost from_gives = { λ _ e. e ≡ refusals.NoMemory no_memory };

    fn from(error: AllocError) -> EditError {
        EditError::NoMemory(error.into())
    }
}
