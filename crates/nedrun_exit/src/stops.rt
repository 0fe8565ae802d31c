//! Why the program ends early.

ghost use Rattle.std.specs.Prelude.{◌≡◌};
ghost use Rattle.clap.specs.Values.{kind_of};
ghost use Rattle.sim_values.specs.Memory.{no_memory};
ghost use Rattle.nedrun_exit.specs.Stops.{IsFailed, status_of, words_status};
ghost use Rattle.nedrun_exit.specs.declared.stops.ExitReason.TheVariants as stops;

use clap::error::ErrorKind;
use sim_values::NoMemory;
use sim_values::text::Text;
use std::alloc::{AllocError, AllocFailed, Global};
use std::io;

/// Why the program ends early.
#[derive(Drop)]
pub enum ExitReason {
    /// The words aren't as they should be, or ask for help.
    Words(clap::Error),
    /// The texts make no model: the text of the refusal, and the diagnostic.
    Refused(Text, Text),
    /// A file, a folder or a stream failed: which, and what failed.
    Failed(String, io::Error),
    /// As many command lines were read as are read at most.
    Spent,
    /// The last run ended in a fault, and the words want that told by the status.
    Fault,
    /// Memory ran out.
    NoMemory(NoMemory),
}

impl ExitReason {
    /// What ends the program where a file, a folder or a stream failed.
    pub fn failed(alloc: Global, what: &str, name: &str, error: io::Error) -> ExitReason
        ensures { IsFailed what.now name.now error result }
    {
        match format!(in alloc; "{name}: {what}") {
            Ok(line) => ExitReason::Failed(line, error),
            Err(error) => error.into(),
        }
    }

    /// The status of a program that ends for it.
    pub fn status(&self) -> u8
        ensures { result ≡ status_of self.now }
    {
        match self {
            ExitReason::Words(error) => words_status(error),
            ExitReason::Refused(_, _) => 2,
            ExitReason::Fault => 3,
            ExitReason::Failed(_, _) | ExitReason::Spent | ExitReason::NoMemory(_) => 1,
        }
    }
}

/// The status after words that aren't as they should be.
fn words_status(error: &clap::Error) -> u8
    ensures { result ≡ words_status (kind_of error.now) }
{
    match error.kind() {
        ErrorKind::OutOfMemory => 1,
        ErrorKind::DisplayHelp | ErrorKind::DisplayVersion => 0,
        _ => 2,
    }
}

impl From<clap::Error> for ExitReason {
    ghost from_gives = { λ error stop. stop ≡ stops.Words error };

    fn from(error: clap::Error) -> ExitReason {
        ExitReason::Words(error)
    }
}

impl From<NoMemory> for ExitReason {
    ghost from_gives = { λ error stop. stop ≡ stops.NoMemory error };

    fn from(error: NoMemory) -> ExitReason {
        ExitReason::NoMemory(error)
    }
}

impl From<AllocError> for ExitReason {
    ghost from_gives = { λ error stop. stop ≡ stops.NoMemory no_memory };

    fn from(error: AllocError) -> ExitReason {
        ExitReason::NoMemory(error.into())
    }
}

impl<T: Drop> From<AllocFailed<T>> for ExitReason {
    ghost from_gives = { λ _ stop. stop ≡ stops.NoMemory no_memory };

    fn from(failed: AllocFailed<T>) -> ExitReason {
        ExitReason::NoMemory(failed.into())
    }
}
