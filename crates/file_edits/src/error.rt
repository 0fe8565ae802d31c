//! Why files are not changed.

ghost use Rattle.std.specs.Prelude.{◌≡◌};
ghost use Rattle.sim_values.specs.Memory.{no_memory};
ghost use Rattle.file_edits.specs.declared.error.FileError.TheVariants as errors;

use ned_inheritance::table::TypeFault;
use sim_values::NoMemory;
use std::alloc::AllocError;

/// Why files are not changed. Of several reasons the first in this order is told, and lack of
/// memory in any place.
#[derive(Clone, Copy)]
pub enum FileError {
    /// The text is longer than 1 MiB.
    TooLarge,
    /// There is no file of that number.
    NoSuchFile,
    /// There is no module or network of that name, or it stands within another type.
    NoSuchType,
    /// It has no connection at that place, or no such place for one more.
    NoSuchConnection,
    /// The line of the text's first byte that can't go on; at its end that of its last byte, 1 in
    /// an empty text.
    NedSyntax(usize),
    /// The types of the changed files make no model.
    Types(TypeFault),
    /// Memory ran out.
    NoMemory(NoMemory),
}

impl From<AllocError> for FileError {
    ghost from_gives = { λ _ e. e ≡ errors.NoMemory no_memory };

    fn from(error: AllocError) -> FileError {
        FileError::NoMemory(error.into())
    }
}
