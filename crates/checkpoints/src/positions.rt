//! The positions of a run, by rising counts of events, and how far apart they are taken.

ghost use Rattle.std.specs.Prelude.{◌≡◌, ◌≤◌, [], ◌∷◌, ◌++◌, OnOk, OnErr};
ghost use Rattle.std.specs.List.{filter};
ghost use Rattle.std.specs.Option.{option_copied};
ghost use Rattle.kernel_actions.specs.declared.position.Position.{Position};
ghost use Rattle.checkpoints.specs.Stored.{begun, counts_of, cut_after, doubled, ends_at, last_of};
ghost use Rattle.checkpoints.specs.Stored.{number_up_to, stays, thinned, up_to, with_position};
ghost use Rattle.checkpoints.specs.Stored.{AreBelow, AreRising};

use kernel_actions::position::Position;
use sim_values::NoMemory;
use sqlite_items::at;
use std::alloc::Global;
use std::marker::Model;

/// At most so many positions are stored.
pub const MOST_STORED: usize = 64;

/// The greatest interval to which one is doubled.
const GREATEST: u64 = 1 << 62;

/// Stored positions, by rising counts of events, and after each multiple of how many events one is
/// due. Contracts see their list and the interval.
pub struct Positions {
    /// The interval where none is stored.
    first: u64,
    /// The interval as it is now.
    interval: u64,
    held: Vec<Position>,
    /// How many events were executed in each.
    counts: Vec<u64>,
}

// Written out, so that a crate which drops one need not prove what that does.
impl Drop for Positions {
    fn drop(self) {
        let Positions {
            first: _,
            interval: _,
            held: _,
            counts: _,
        } = self;
    }
}

impl Model for Positions {
    ghost use Rattle.kernel_actions.specs.declared.position.Position.{Position};
    ghost use Rattle.checkpoints.specs.Stored.{AreStored, Timeline};

    ghost Value = { Timeline Position };

    ghost view = { λ p. record { first = p.first; interval = p.interval; stored = p.held.items } };

    ghost invariant = { λ p. AreStored p.held.items p.counts.items p.first p.interval };
}

impl Positions {
    /// None is stored. One is due after each multiple of so many events. It takes no memory.
    pub fn new(alloc: Global, interval: u64) -> Positions
        requires { 1 ≤ interval }
        ensures { result ≡ begun interval }
    {
        Positions {
            first: interval,
            interval,
            held: Vec::new(alloc),
            counts: Vec::new(alloc),
        }
    }

    /// Stores a position after the others, which are of smaller counts. Where it is one too many,
    /// the interval is doubled, up to 2^62, and of all positions those stay that are at its
    /// multiples, and this one. After NoMemory it is dropped, and nothing has changed.
    pub fn take(&mut self, position: Position) -> Result<(), NoMemory>
        requires { AreBelow position.count self.old.stored }
        ensures ok { OnOk result (self.new ≡ with_position position self.old) }
        ensures err { OnErr result (self.new ≡ self.old) }
    {
        let newest = position.count();
        self.push(position)?;
        self.thin(newest);
        Ok(())
    }

    /// Stores a position after the others. After NoMemory it is dropped, and the others stay.
    fn push(&mut self, position: Position) -> Result<(), NoMemory>
        requires { AreBelow position.count self.old.stored }
        ensures ok { OnOk result (self.new
            ≡ record self.old { stored = self.old.stored ++ position ∷ [] }) }
        ensures err { OnErr result (self.new ≡ self.old) }
    {
        self.counts.push(position.count())?;
        match self.held.push(position) {
            Ok(()) => Ok(()),
            Err(failed) => {
                self.counts.pop();
                Err(failed.into())
            }
        }
    }

    /// Where there is one too many, doubles the interval and drops those that are at no multiple of
    /// it, but for the newest. It takes no memory.
    fn thin(&mut self, newest: u64)
        ensures { self.new ≡ thinned (λ (p : Position). p.count) newest self.old }
    {
        if self.counts.len() <= MOST_STORED {
            return;
        }
        let interval = doubled(self.interval);
        self.interval = interval;
        keep_positions(&mut self.held, interval, newest);
        keep_counts(&mut self.counts, interval, newest);
    }

    /// Drops those after an event. Where none is left the interval is again the first. It takes no
    /// memory.
    pub fn cut_after(&mut self, event: u64)
        ensures { self.new ≡ cut_after event self.old }
    {
        let kept = count_up_to(self.counts.as_slice(), event);
        self.held.truncate(kept);
        self.counts.truncate(kept);
        if kept == 0 {
            self.interval = self.first;
        }
    }

    /// Drops all. The interval is again the first. It takes no memory.
    pub fn clear(&mut self)
        ensures { self.new ≡ begun self.old.first }
    {
        self.held.clear();
        self.counts.clear();
        self.interval = self.first;
    }

    /// After each multiple of how many events a position is due.
    pub fn interval(&self) -> u64
        ensures is { result ≡ self.now.interval }
        ensures some { 1 ≤ result }
    {
        self.interval
    }

    /// The last one up to an event, where there is one.
    pub fn at_most(&self, event: u64) -> Option<&Position>
        ensures { option_copied result ≡ last_of (up_to event self.now.stored) }
    {
        let first = count_up_to(self.counts.as_slice(), event);
        if first == 0 {
            return None;
        }
        at(self.held.as_slice(), first - 1)
    }

    /// The last one, where there is one. Their counts rise.
    pub fn last(&self) -> Option<&Position>
        ensures last { option_copied result ≡ last_of self.now.stored }
        ensures rising { AreRising self.now.stored }
    {
        let number = self.held.len();
        if number == 0 {
            return None;
        }
        at(self.held.as_slice(), number - 1)
    }

    /// Whether the last one is of so many events. Their counts rise.
    pub fn ends_at(&self, event: u64) -> bool
        ensures ends { result ≡ ends_at event (counts_of self.now.stored) }
        ensures rising { AreRising self.now.stored }
    {
        match self.counts.last() {
            Some(last) => *last == event,
            None => false,
        }
    }

    /// How many events were executed in each, in order. They rise.
    pub fn counts(&self) -> &[u64]
        ensures { result.now ≡ counts_of self.now.stored }
    {
        self.counts.as_slice()
    }
}

/// Twice an interval, but at most 2^62.
fn doubled(interval: u64) -> u64
    ensures { result ≡ doubled interval }
{
    if interval < GREATEST / 2 {
        2 * interval
    } else {
        GREATEST
    }
}

/// Whether a position of so many events stays: at a multiple of the interval, and the newest.
fn stays(interval: u64, newest: u64, count: u64) -> bool
    requires { 1 ≤ interval }
    ensures { result ≡ stays interval newest count }
{
    count % interval == 0 || count == newest
}

/// Drops the positions that don't stay.
fn keep_positions(held: &mut Vec<Position>, interval: u64, newest: u64)
    requires { 1 ≤ interval }
    ensures { held.new.items
        ≡ filter (λ (p : Position). stays interval newest p.count) held.old.items }
{
    held.retain(|position| stays(interval, newest, position.count()));
}

/// Drops the counts that don't stay.
fn keep_counts(counts: &mut Vec<u64>, interval: u64, newest: u64)
    requires { 1 ≤ interval }
    ensures { counts.new.items ≡ filter (stays interval newest) counts.old.items }
{
    counts.retain(|count| stays(interval, newest, *count));
}

/// How many of these counts there are before the first that is after an event.
fn count_up_to(counts: &[u64], event: u64) -> usize
    ensures { result ≡ number_up_to event counts.now }
{
    for (index, count) in counts.iter().enumerate() {
        if *count > event {
            return index;
        }
    }
    counts.len()
}
