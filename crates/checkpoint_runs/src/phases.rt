//! Where a run stands between two calls, how far it is, and where it goes on.

ghost use Rattle.std.specs.Prelude.{◌≡◌, nat_le};
ghost use Rattle.checkpoint_runs.specs.Running.{at_setup, progress_of, resumed, resumed_if};

use kernel::request::Request;
use run_semantics::outcome::Outcome;

/// At which point of a run boxes are wanted.
#[derive(Clone, Copy, PartialEq, Eq)]
pub enum Point {
    /// Its network is set up, and is to be started.
    Setup,
    /// It goes back to a position, for one of whose modules there is no box: that one was deleted
    /// since.
    Position,
    /// After so many events: the next one starts modules that were created. It asks for the box of
    /// the module of that id; once that is supplied it asks for none until it goes on.
    Start(u64, Option<u32>),
}

/// Where a run stands between two calls.
#[derive(Clone, Copy, PartialEq, Eq)]
pub enum Phase {
    /// No run waits.
    Idle,
    /// A run waits for the box of a module, at that point. It began at a position of so many
    /// events, or with setup.
    Waiting(Option<u64>, Point),
    /// There is no box for the module that the run waited for there.
    Declined(Option<u64>, Point),
}

/// How a run begins that is set up.
#[derive(Clone, Copy, PartialEq, Eq)]
pub enum AtSetup {
    /// Its network is to be set up anew.
    Anew,
    /// Its network is set up, and it gets its boxes.
    Filling,
    /// The same, and the next box was declined.
    Refused,
}

/// Where a run goes on that waited before a start event.
#[derive(Clone, Copy, PartialEq, Eq)]
pub struct Resumed {
    /// It began at a position of so many events, or with setup.
    pub from: Option<u64>,
    /// So many events are executed.
    pub count: u64,
    /// There is no box for the module that it waited for.
    pub declined: bool,
}

/// Where a run stands, or stood when memory ran out.
#[derive(Clone, Copy, PartialEq, Eq)]
pub enum Stood {
    /// Event zero is not done.
    Before,
    /// After so many events, with the positions that were due by then.
    After(u64),
    /// After so many events, of which the last one's position is not taken.
    Untaken(u64),
    /// All its events are executed, and its positions are stored.
    Ending,
}

/// How far a run is: it waits for the box of a module, or it is done with what was asked for, and
/// this came of it.
#[derive(Drop)]
pub enum RunStatus<D> {
    /// It waits for the box of a module.
    Waits(Request),
    Done(D),
}

/// A run that waits.
#[derive(Drop)]
pub struct Wait {
    /// It began at a position of so many events, or with setup.
    pub from: Option<u64>,
    /// Where it waits.
    pub at: Point,
    /// What it waits for.
    pub request: Request,
}

/// How a run began and ended.
#[derive(Drop)]
pub struct Ended {
    /// It began at a position of so many events, or with setup.
    pub start: Option<u64>,
    pub outcome: Outcome,
}

/// How far a run is.
#[derive(Drop)]
pub enum Progress {
    /// It waits for the box of a module.
    Waits(Wait),
    /// It is done.
    Done(Ended),
}

/// How a run begins that is set up, by where one stands.
pub fn at_setup(phase: Phase) -> AtSetup
    ensures { result ≡ at_setup phase }
{
    match phase {
        Phase::Waiting(_from, Point::Setup) => AtSetup::Filling,
        Phase::Declined(_from, Point::Setup) => AtSetup::Refused,
        Phase::Waiting(_from, Point::Position) => AtSetup::Anew,
        Phase::Waiting(_from, Point::Start(_count, _id)) => AtSetup::Anew,
        Phase::Declined(_from, Point::Position) => AtSetup::Anew,
        Phase::Declined(_from, Point::Start(_count, _id)) => AtSetup::Anew,
        Phase::Idle => AtSetup::Anew,
    }
}

/// A run goes on that waited after so many events, unless that is above the limit.
pub fn resumed_if(at: Resumed, limit: u64) -> Option<Resumed>
    ensures { result ≡ resumed_if (nat_le at.count limit) at }
{
    if at.count <= limit { Some(at) } else { None }
}

/// Where a run to that limit goes on, where one waited before a start event.
pub fn goes_on_at(limit: u64, phase: Phase) -> Option<Resumed>
    ensures { result ≡ resumed limit phase }
{
    match phase {
        Phase::Waiting(from, Point::Start(count, _id)) => {
            let declined = false;
            resumed_if(
                Resumed {
                    from,
                    count,
                    declined,
                },
                limit,
            )
        }
        Phase::Declined(from, Point::Start(count, _id)) => {
            let declined = true;
            resumed_if(
                Resumed {
                    from,
                    count,
                    declined,
                },
                limit,
            )
        }
        Phase::Waiting(_from, Point::Setup) => None,
        Phase::Waiting(_from, Point::Position) => None,
        Phase::Declined(_from, Point::Setup) => None,
        Phase::Declined(_from, Point::Position) => None,
        Phase::Idle => None,
    }
}

/// How far a run is that began there, and has executed so many events.
pub fn progress_of(from: Option<u64>, count: u64, status: RunStatus<Outcome>) -> Progress
    ensures { result ≡ progress_of from count status }
{
    match status {
        RunStatus::Waits(request) => Progress::Waits(Wait {
            from,
            at: Point::Start(count, Some(request.id)),
            request,
        }),
        RunStatus::Done(outcome) => Progress::Done(Ended {
            start: from,
            outcome,
        }),
    }
}
