//! What a session answers, made of what its parts say.

ghost use Rattle.std.specs.Prelude.{◌≡◌, IfOk};
ghost use Rattle.sim_values.specs.Memory.{no_memory};
ghost use Rattle.checkpoint_runs.specs.Positions.{events_behind, starts_within};
ghost use Rattle.edit_session.specs.Files.{written_as};

use crate::session::{FileFault, Report, SupplyFault, SupplyReason};
use module_api::simple_module::SimpleModule;
use result_lines::writer::Device;
use run_semantics::outcome::Outcome;
use sim_values::NoMemory;
use std::alloc::{AllocFailed, Global};

/// A box that had no room is handed back.
pub(crate) fn no_room_for(failed: AllocFailed<Box<dyn SimpleModule>>) -> SupplyFault
    ensures held { result.held ≡ failed.value }
    ensures reason { result.reason ≡ SupplyReason.NoMemory no_memory }
{
    let (held, error) = NoMemory::with_value(failed);
    SupplyFault {
        held,
        reason: SupplyReason::NoMemory(error),
    }
}

/// What came of writing a file.
pub(crate) fn written(answer: Result<(), Device>) -> Result<(), FileFault>
    ensures { result ≡ written_as answer }
{
    match answer {
        Ok(()) => Ok(()),
        Err(device) => Err(FileFault::Device(device.written)),
    }
}

/// What a run that is done tells, which began there and has so many events in all.
pub(crate) fn report_of(
    alloc: Global,
    outcome: &Outcome,
    start: Option<u64>,
    count: u64,
) -> Result<Report, NoMemory>
    requires { starts_within start count }
    ensures { IfOk result (λ report. report
        ≡ record {
          outcome = outcome.now;
          started_from = start;
          executed = events_behind start count;
        }) }
{
    let executed = match start {
        Some(event) => count - event,
        None => count,
    };
    Ok(Report {
        outcome: outcome.copy(alloc)?,
        started_from: start,
        executed,
    })
}
