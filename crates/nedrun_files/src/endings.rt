//! The status of the program, and how it says why it ends early.

ghost use Rattle.std.specs.Process.{exit_status};
ghost use Rattle.nedrun_files.specs.Stops.{IsStatus};

use explain_types::names::shown;
use input_lines::line::MOST_LINES;
use nedrun_exit::stops::ExitReason;
use sim_values::text::Text;
use std::io;
use std::process::ExitCode;

/// The status of the program, which says why it ends early where it does: 0 at the end of standard
/// input; 1 where a file or a stream fails, where memory runs out for what the program says or
/// reads, or where as many lines were read as are; 2 where the words or the texts are refused; 3
/// where the last run ended in a fault, and the words want that told.
pub fn status<R: Print + Eprint>(rt: &R, ended: Result<(), ExitReason>) -> ExitCode
    ensures { IsStatus ended (exit_status result) }
{
    match ended {
        Ok(()) => ExitCode::SUCCESS,
        Err(stop) => match tell(rt, &stop) {
            Ok(()) => ExitCode::from(stop.status()),
            Err(_) => ExitCode::FAILURE,
        },
    }
}

/// Says why the program ends early, on standard error but for help. The first line has the name of
/// a refusal, the second is for a person.
fn tell<R: Print + Eprint>(rt: &R, stop: &ExitReason) -> io::Result<()> {
    match stop {
        ExitReason::Words(error) => error.print(rt),
        ExitReason::Refused(text, line) => say_refused(rt, text, line),
        ExitReason::Failed(line, error) => eprintln!(rt; "nedrun: {error}\n{line}"),
        ExitReason::Spent => eprintln!(rt;
            "nedrun: the limit of {MOST_LINES} command lines is reached: start the program again"
        ),
        ExitReason::Fault => eprintln!(rt; "nedrun: the last run ended in a fault"),
        ExitReason::NoMemory(_) => eprintln!(rt; "nedrun: NoMemory"),
    }
}

/// Says a refusal on standard error, and after it the diagnostic.
fn say_refused<R: Eprint>(rt: &R, text: &Text, line: &Text) -> io::Result<()> {
    let line = shown(line.as_bytes());
    eprintln!(rt; "nedrun: {}\n{line}", shown(text.as_bytes()))
}
