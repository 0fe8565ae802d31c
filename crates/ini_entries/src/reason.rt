//! Why a line of an ini text means nothing.

ghost use Rattle.std.specs.Prelude.{◌≡◌};
ghost use Rattle.sim_values.specs.Memory.{no_memory};
ghost use Rattle.ini_entries.specs.declared.reason.Unread.TheVariants as unread;

use sim_values::NoMemory;
use std::alloc::AllocError;

/// Why a line of an ini text means nothing, or may not stand where it does.
#[derive(Clone, Copy, Debug, PartialEq, Eq)]
pub enum Reason {
    /// It begins with `[`, and is neither a section nor an entry.
    NotASection,
    /// It begins with a blank, and is more than blanks and a comment.
    Indented,
    /// It has no `=`.
    NotAnEntry,
    /// It asks for another file.
    Include,
    /// Nothing stands before its `=`.
    NoKey,
    /// Its key has a blank, or a byte that is not ASCII.
    BadKey,
    /// Nothing stands after its `=`.
    NoValue,
    /// Its value is not UTF-8.
    BadValue,
    /// It ends with `\`.
    Continued,
    /// Its value holds `${`.
    Study,
    /// It is an entry, and no section stands before it.
    BeforeSection,
    /// It says that General extends another configuration.
    GeneralExtends,
    /// It was given as one line, and holds a line end.
    LineEnd,
    /// Its key is no pattern.
    BadPattern,
    /// Its value is neither `default` nor a constant expression.
    BadExpression,
    /// Its value is not the name of a network.
    NotANetwork,
    /// Its value is not a list of names of configurations.
    NotConfigurations,
    /// Its value is no time.
    NotATime,
    /// It is an option that is not supported.
    Unsupported,
    /// It asks for more than one run.
    Repeated,
    /// It asks for another resolution of times than picoseconds.
    Resolution,
    /// Its value is not a list of recording modes.
    BadModes,
    /// Its value is neither `true` nor `false`.
    NotATruth,
}

/// Why nothing is read of a line.
#[derive(Clone, Copy)]
pub enum Unread {
    /// It means nothing.
    MeansNothing(Reason),
    /// Memory ran out.
    NoMemory(NoMemory),
}

impl From<AllocError> for Unread {
    ghost from_gives = { λ _ e. e ≡ unread.NoMemory no_memory };

    fn from(error: AllocError) -> Unread {
        Unread::NoMemory(error.into())
    }
}
