//! Why the texts are refused, as the program ends with it.

ghost use Rattle.nedrun.specs.Stops.{IsNamed, IsStopOf};

use desk_answers::answers::refusal_text;
use explain_files::refusals::refusal_line;
use explain_types::sources::Sources;
use model_reading::begin::BeginFault;
use nedrun_exit::stops::ExitReason;
use sim_values::text::Text;
use std::alloc::Global;

/// What ends the program where texts make no model.
pub fn refused(alloc: Global, fault: BeginFault, sources: &Sources<'_>) -> ExitReason
    ensures { IsStopOf fault result }
{
    match fault {
        BeginFault::NoMemory(error) => ExitReason::NoMemory(error),
        _ => named(alloc, fault, line_for(alloc, fault, sources)),
    }
}

/// What ends the program at a refusal that has this diagnostic.
fn named(alloc: Global, fault: BeginFault, line: Text) -> ExitReason
    ensures { IsNamed fault result }
{
    match refusal_text(alloc, fault) {
        Ok(text) => ExitReason::Refused(text, line),
        Err(error) => error.into(),
    }
}

/// The diagnostic of a refusal; an empty one where memory runs out.
fn line_for(alloc: Global, fault: BeginFault, sources: &Sources<'_>) -> Text {
    match refusal_line(alloc, fault, sources) {
        Ok(line) => line,
        Err(_) => Text::empty(alloc),
    }
}
