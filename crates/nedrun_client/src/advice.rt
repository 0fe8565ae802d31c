//! What the program says of its own: what has no effect, what is said after a refusal or a fault,
//! and that a text is saved.

ghost use Rattle.std.specs.Prelude.{IfErr};
ghost use Rattle.nedrun_files.specs.Stops.{IsUnadvised};
ghost use Rattle.nedrun_client.specs.Stops.{IsUntold};

use desk_client::told::AnswerContent;
use explain_files::warnings::warning_lines;
use explain_types::names::{front_shown, shown};
use explain_types::sources::Sources;
use nedrun_exit::stops::ExitReason;
use nedrun_files::output::{advise, say};
use nedrun_options::words::Options;
use run_semantics::outcome::Outcome;
use session_texts::notes::Notes;
use std::rt::Files;
use std::{fs, io};

/// The classes that the program has modules of.
const CLASSES: [&[u8]; 14] = [
    b"Tick",
    b"Source",
    b"Queue",
    b"Sink",
    b"Router",
    b"Spawner",
    b"Generator",
    b"Meter",
    b"L2Queue",
    b"Switch",
    b"Dropper",
    b"TokenStation",
    b"Sender",
    b"Receiver",
];

/// Warns of lines of the ini text that have no effect.
pub fn warn<R: Eprint + AllocGlobal>(rt: &R, sources: &Sources<'_>) -> Result<(), ExitReason>
    ensures { IfErr result IsUnadvised }
{
    let lines = warning_lines(rt.alloc(), sources)?;
    advise(rt, shown(lines.as_bytes()))
}

/// Says more after an answer that says this, a refusal or a fault, where there is more to say.
pub fn explain<R: Eprint + AllocGlobal>(
    rt: &R,
    sources: &Sources<'_>,
    notes: &mut Notes,
    told: Option<&AnswerContent>,
) -> Result<(), ExitReason>
    ensures { IfErr result IsUnadvised }
{
    let line = notes.hears(rt.alloc(), sources, told, CLASSES.as_slice())?;
    advise(rt, shown(line.as_bytes()))
}

/// Whether it is told that a limit of events ended a run.
fn is_event_limit(told: Option<&AnswerContent>) -> bool {
    matches!(told, Some(AnswerContent::Done(Outcome::EventLimit)))
}

/// Says that the limit ended the run of the words, where they name none and the answer tells so.
pub fn tell_limit<R: Eprint + AllocGlobal>(
    rt: &R,
    words: &Options,
    told: Option<&AnswerContent>,
) -> Result<(), ExitReason>
    ensures { IfErr result IsUnadvised }
{
    if words.names_limit || !is_event_limit(told) {
        return Ok(());
    }
    let limit = words.limit;
    let line = format!(in rt.alloc();
        "the limit of {limit} events ended the run, which is the one if none is given: -l LIMIT gives another"
    )?;
    advise(rt, line.as_str())
}

/// Asks for a command at a terminal. That this can't be shown is no matter.
pub fn prompt<R: Eprint>(rt: &R) {
    let _shown = eprint!(rt; "> ");
}

/// Answers that a file can't be saved, and says why, of a long path with the front.
fn unsaved<R: Print + Eprint + AllocGlobal>(
    rt: &R,
    path: &str,
    error: io::Error,
) -> Result<(), ExitReason>
    ensures { IfErr result IsUntold }
{
    say(rt, b"refused NotSaved".as_slice())?;
    let front = shown(front_shown(path.as_bytes()));
    let line = format!(in rt.alloc(); "{front}: this file can't be written: {error}")?;
    advise(rt, line.as_str())?;
    Ok(())
}

/// Writes a text to the file of that path, and answers that it did, or why not.
pub fn save<R: Files + Print + Eprint + AllocGlobal>(
    rt: &R,
    path: &str,
    text: &[u8],
) -> Result<(), ExitReason>
    ensures { IfErr result IsUntold }
{
    match fs::write(rt, path, text) {
        Ok(()) => {
            say(rt, b"saved".as_slice())?;
            Ok(())
        }
        Err(error) => unsaved(rt, path, error),
    }
}
