//! What an answer tells.

use model_edits::edit::Refusal;
use run_semantics::outcome::Outcome;

/// What an answer tells, besides its text.
#[derive(Drop)]
pub enum AnswerContent {
    /// A run is done, and ended so.
    Done(Outcome),
    /// An edit is made. The message that it put in has this number, where it put one in.
    Edited(Option<u64>),
    /// An edit is refused.
    Refused(Refusal),
    /// The line is no command.
    NoCommand,
    /// The line is longer than a command may be.
    TooLarge,
    /// No run is done whose files could be written.
    NotDone,
    /// The files of a run are written.
    Written,
    /// After which events a position is stored.
    Positions,
    /// How many boxes there are.
    Held,
}
