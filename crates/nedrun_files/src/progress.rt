//! How far a run is, reported on standard error while it goes on.

ghost use Rattle.std.specs.Prelude.{◌≡◌, ◌<◌, ◌≤◌, ◌*◌, ◌/◌, None, false};

use sim_time::SimTime;
use sim_time::text::TimeText;
use std::rt::Clock;
use std::time::Instant;

/// The clock is looked at after each so many events.
const EVENTS: u64 = 1024;

/// How many milliseconds pass from one line to the next, at least.
const PAUSE: u128 = 2000;

/// Reports how far a run is: every two seconds while it goes on, a line on standard error with the
/// number of events that are executed, the time of the last one, how many there were a second since
/// the last line, and how much of the run's limit that is. That a line can't be printed, or the
/// clock can't be read, is no matter.
#[derive(Drop)]
pub struct Progress<'a, R> {
    rt: &'a R,
    is_shown: bool,
    limit: u64,
    /// After so many events the clock is looked at next.
    next: u64,
    /// How many events were executed at the last line, or where the run began.
    reported: u64,
    /// When that was. None where nothing is reported.
    since: Option<Instant>,
}

impl<'a, R: Eprint + Clock> Progress<'a, R> {
    /// Of no run yet. Lines are shown or not.
    pub fn new(rt: &'a R, is_shown: bool) -> Progress<'a, R>
        ensures shown { result.is_shown ≡ is_shown }
        ensures silent { result.since ≡ None }
    {
        Progress {
            rt,
            is_shown,
            limit: 0,
            next: 0,
            reported: 0,
            since: None,
        }
    }

    /// What the clock says, where lines are shown and it says something.
    fn shown_time(&self) -> Option<Instant>
        ensures { self.now.is_shown ≡ false → result ≡ None }
    {
        if self.is_shown {
            Instant::now(self.rt).ok()
        } else {
            None
        }
    }

    /// A run goes on after so many events, up to its limit.
    pub fn begin(&mut self, count: u64, limit: u64)
        ensures limit { self.new.limit ≡ limit }
        ensures reported { self.new.reported ≡ count }
        ensures shown { self.new.is_shown ≡ self.old.is_shown }
        // Where no lines are shown there is no time to count from, and no event at which the clock
        // is looked at.
        ensures silent { self.old.is_shown ≡ false → self.new.since ≡ None }
        ensures unlooked { self.old.is_shown ≡ false → self.new.next ≡ 18446744073709551615 }
    {
        self.since = self.shown_time();
        self.limit = limit;
        self.reported = count;
        self.next = match self.since {
            Some(_) => count.saturating_add(EVENTS),
            None => u64::MAX,
        };
    }

    /// So many events are executed, the last one at that time. Most of the time this is all: the
    /// clock is not looked at.
    pub fn event(&mut self, count: u64, time: SimTime)
        ensures limit { self.new.limit ≡ self.old.limit }
        ensures shown { self.new.is_shown ≡ self.old.is_shown }
        ensures unlooked { count < self.old.next → self.new ≡ self.old }
    {
        if count >= self.next {
            self.look(count, time);
        }
    }

    /// Looks at the clock, and reports where the run is if it is time to.
    fn look(&mut self, count: u64, time: SimTime)
        ensures limit { self.new.limit ≡ self.old.limit }
        ensures shown { self.new.is_shown ≡ self.old.is_shown }
    {
        self.next = count.saturating_add(EVENTS);
        let Some(since) = self.since else {
            return;
        };
        let Ok(moment) = Instant::now(self.rt) else {
            return;
        };
        let passed = moment.duration_since(since).as_millis();
        if passed >= PAUSE {
            self.report(count, time, passed);
            self.reported = count;
            self.since = Some(moment);
        }
    }

    /// Reports where the run is, so many milliseconds after the last line.
    fn report(&self, count: u64, time: SimTime, passed: u128)
        requires { 1 ≤ passed }
    {
        let mut seconds = TimeText::new();
        time.write_text(&mut seconds);
        let seconds = seconds.as_str();
        let rate = rate(count.saturating_sub(self.reported), passed);
        let percent = percent(count, self.limit);
        let _printed = eprintln!(self.rt;
            "** Event #{count}   t={seconds}s   {rate} ev/sec   {percent}% of the limit"
        );
    }
}

/// How many events a second there were, of so many in so many milliseconds, in whole numbers.
fn rate(events: u64, passed: u128) -> u128
    requires { 1 ≤ passed }
    ensures { result ≡ events * 1000 / passed }
{
    events as u128 * 1000 / passed
}

/// How many hundredths of the limit so many events are, in whole numbers; all of them where the
/// limit is 0.
fn percent(count: u64, limit: u64) -> u128
    ensures { 1 ≤ limit → result ≡ count * 100 / limit }
{
    if limit == 0 {
        return 100;
    }
    count as u128 * 100 / limit as u128
}
