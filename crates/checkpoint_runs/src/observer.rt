//! Who is told of a run while it goes on.

ghost use Rattle.checkpoint_runs.specs.Telling.{Told, Began, Executed};

use sim_time::SimTime;

/// Is told of the events of a run while it goes on. It says itself what that means, and nothing of
/// the run rests on it: that does the same whoever observes it.
pub trait Observer {
    /// What it means that it was told one thing more, by what it was before and is then. One that
    /// says nothing of it may be told anything.
    ghost told: { Self → Told → Self → Type 0 } = { λ _ _ _. Unit {0} };

    /// A run goes on after so many events, up to its limit.
    fn begin(&mut self, count: u64, limit: u64)
        ensures { told self.old (Began count limit) self.new };

    /// So many events are executed, the last one at that time.
    fn event(&mut self, count: u64, time: SimTime)
        ensures { told self.old (Executed count time) self.new };
}

/// Nobody who is told.
#[derive(Clone, Copy)]
pub struct Unobserved;

impl Observer for Unobserved {
    fn begin(&mut self, _count: u64, _limit: u64) {}

    fn event(&mut self, _count: u64, _time: SimTime) {}
}
