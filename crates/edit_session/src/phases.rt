//! Where a run of a session stands once a box was supplied or declined.

ghost use Rattle.std.specs.Prelude.{◌≡◌};
ghost use Rattle.checkpoint_runs.specs.Running.{is_back};
ghost use Rattle.edit_session.specs.Editing.{asked_at_start, declined_at, supplied_phase};

use checkpoint_runs::phases::{Phase, Point};

/// Where a run stands once the box that it waits for was declined.
pub(crate) fn declined_at(phase: Phase) -> Phase
    ensures { result ≡ declined_at phase }
{
    match phase {
        Phase::Waiting(from, at) => Phase::Declined(from, at),
        Phase::Idle => Phase::Idle,
        Phase::Declined(from, at) => Phase::Declined(from, at),
    }
}

/// Where a run stands once a box was supplied for a start: before a start event no other is asked
/// for until the run goes on.
pub(crate) fn supplied_phase(phase: Phase) -> Phase
    ensures { result ≡ supplied_phase phase }
{
    match phase {
        Phase::Waiting(from, Point::Start(count, _id)) => {
            Phase::Waiting(from, Point::Start(count, None))
        }
        Phase::Waiting(from, Point::Setup) => Phase::Waiting(from, Point::Setup),
        Phase::Waiting(from, Point::Position) => Phase::Waiting(from, Point::Position),
        Phase::Idle => Phase::Idle,
        Phase::Declined(from, at) => Phase::Declined(from, at),
    }
}

/// The id of the module whose box a run asks for that waits before a start event.
pub(crate) fn asked_at_start(phase: Phase) -> Option<u32>
    ensures { result ≡ asked_at_start phase }
{
    match phase {
        Phase::Waiting(_from, Point::Start(_count, id)) => id,
        Phase::Waiting(_from, Point::Setup) => None,
        Phase::Waiting(_from, Point::Position) => None,
        Phase::Idle => None,
        Phase::Declined(_from, _at) => None,
    }
}

/// Whether a run waits that goes back to a position.
pub(crate) fn is_back(phase: Phase) -> bool
    ensures { result ≡ is_back phase }
{
    match phase {
        Phase::Waiting(_from, Point::Position) => true,
        Phase::Waiting(_from, Point::Setup) => false,
        Phase::Waiting(_from, Point::Start(_count, _id)) => false,
        Phase::Idle => false,
        Phase::Declined(_from, _at) => false,
    }
}
