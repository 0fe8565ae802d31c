//! The progress of runs, as who is told of them while they go on.

use checkpoint_runs::observer::Observer;
use nedrun_files::progress::Progress;
use sim_time::SimTime;
use std::rt::Clock;

/// Reports how far a run is.
#[derive(Drop)]
pub struct Reporter<'a, R> {
    pub progress: Progress<'a, R>,
}

impl<R: Eprint + Clock> Observer for Reporter<'_, R> {
    fn begin(&mut self, count: u64, limit: u64) {
        self.progress.begin(count, limit);
    }

    fn event(&mut self, count: u64, time: SimTime) {
        self.progress.event(count, time);
    }
}
