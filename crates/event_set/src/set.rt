//! The events to come, in a tree by their order.

ghost use Rattle.std.specs.Prelude.{◌≡◌, ◌+◌, ◌^◌, ◌<◌, [], ◌∷◌, false, cond, OnOk, OnErr, IfOk, IsTrue};
ghost use Rattle.std.specs.Prelude.{MatchOption, Some, slice_get, length};
ghost use Rattle.std.specs.Option.{option_map};
ghost use Rattle.event_set.specs.Order.{Each, AreInOrder};
ghost use Rattle.event_set.specs.Timers.{has_timer, is_pending};
ghost use Rattle.event_set.specs.Keys.{key_order, mark_in, at_key, pending_of};
ghost use Rattle.event_set.specs.declared.places.Key.{Key};
ghost use Rattle.std.specs.BTreeMap.{is_at, insert_entry};
ghost use Rattle.std.specs.List.Sorted.{IsStrictlySortedBy};
ghost use Rattle.std.specs.Map.{keys_of};
ghost use Rattle.event_set.specs.Events.{coming_of};

use crate::entry::EventEntry;
use crate::module_index::ModuleIndex;
use crate::pending::{Happening, Pending};
use crate::places::{Key, Mark, MessageKey, TimerKey};
use sim_time::SimTime;
use sim_values::NoMemory;
use std::alloc::{AllocError, Global};
use std::collections::BTreeMap;
use std::marker::Model;

/// When an event comes, its priority, its module, and which it starts, told before it is taken out.
#[derive(Clone, Copy, Drop)]
pub struct Coming {
    pub time: SimTime,
    pub priority: i16,
    pub id: u32,
    /// Of a start the last id of the modules that are started.
    pub last_started: Option<u32>,
}

/// The events to come, ordered by time, priority and number of insertion, which contracts see as
/// their list and the number of the next one.
pub struct EventSet {
    events: BTreeMap<Key, EventEntry>,
    /// Where each event stands, by its module.
    index: ModuleIndex,
    /// The number of the next insertion.
    next: u128,
    alloc: Global,
}

// Written out, so that a crate which drops one need not prove what that does.
impl Drop for EventSet {
    fn drop(self) {
        let EventSet {
            events: _,
            index: _,
            next: _,
            alloc: _,
        } = self;
    }
}

impl Model for EventSet {
    ghost use Rattle.event_set.specs.Events.{Events};
    ghost use Rattle.event_set.specs.Keys.{list_of, stands_at, AreSound};

    ghost Value = { Events };

    ghost view = { λ s. record { list = list_of s.events.entries; next = s.next } };

    ghost invariant = { λ s. AreSound s.events.entries (stands_at s.index) s.next };
}

impl EventSet {
    ghost use Rattle.event_set.specs.Events.{none, scheduled, cancelled, with_list, without_modules};

    /// No events.
    pub fn new(alloc: Global) -> Self
        ensures { result ≡ none }
    {
        EventSet {
            events: BTreeMap::new(alloc),
            index: ModuleIndex::new(alloc),
            next: 0,
            alloc,
        }
    }

    /// The events of each set are in order, and the next number is above theirs: it is new.
    pub fn is_in_order(&self)
        ensures order { AreInOrder self.now.list }
        ensures below { Each (λ e. e.number < self.now.next) self.now.list }
    {
        let _next = self.next;
    }

    /// Whether that timer of that module is pending.
    pub fn has_timer(&self, id: u32, timer: u32) -> bool
        ensures { result ≡ has_timer id timer self.now.list }
    {
        self.index.timer(TimerKey { id, timer }).is_some()
    }

    /// Puts an event in its place, with the next number, or changes nothing where memory runs out.
    /// No timer of a module is pending twice.
    pub fn insert(
        &mut self,
        time: SimTime,
        priority: i16,
        id: u32,
        what: Happening,
    ) -> Result<(), NoMemory>
        requires room { self.old.next + 1 < 2 ^ 128 }
        requires once { is_pending id what self.old.list ≡ false }
        ensures ok { OnOk result (self.new ≡ scheduled time priority id what self.old) }
        ensures err { OnErr result (self.new ≡ self.old) }
    {
        let key = key_of(time, priority, self.next);
        let mark = mark_in(id, self.next, &what);
        let entry = EventEntry::new(self.alloc, id, what)?;
        self.index.note(&mark, &key)?;
        if let Err(refused) = put_entry(&mut self.events, key, entry) {
            self.index.forget(&mark);
            return Err(NoMemory::from(refused));
        }
        self.next += 1;
        Ok(())
    }

    /// Takes that timer of that module out, and says whether it was pending.
    pub fn cancel(&mut self, id: u32, timer: u32) -> bool
        ensures found { result ≡ has_timer id timer self.old.list }
        ensures rest { self.new ≡ cancelled id timer self.old }
    {
        let Some(key) = self.index.forget(&Mark::Timer(TimerKey { id, timer })) else {
            return false;
        };
        self.events.remove(&key);
        true
    }

    /// When the first event comes, its priority and its module.
    pub fn first(&self) -> Option<Coming>
        ensures { result ≡ option_map coming_of (slice_get self.now.list 0) }
    {
        match self.events.first_key_value() {
            Some((key, entry)) => Some(coming_at(key, entry)),
            None => None,
        }
    }

    /// Takes the first event out.
    pub fn take_first(&mut self) -> Option<Pending>
        ensures first { MatchOption result ((self.old.list ≡ [])
            × (self.new ≡ self.old)) (λ p. self.old ≡ with_list (p ∷ self.new.list) self.new) }
    {
        let Some((key, entry)) = self.events.pop_first() else {
            return None;
        };
        let id = entry.id();
        let what = entry.into_what();
        self.index.forget(&mark_in(id, key.number, &what));
        Some(Pending {
            time: key.time,
            priority: key.priority,
            number: key.number,
            id,
            what,
        })
    }

    /// A set with the same events, and the same next number.
    pub fn copy(&self, alloc: Global) -> Result<EventSet, NoMemory>
        ensures { IfOk result (λ copy. copy ≡ self.now) }
    {
        let events = copy_events(&self.events)?;
        let index = self.index.copy(alloc)?;
        Ok(EventSet {
            events,
            index,
            next: self.next,
            alloc,
        })
    }

    /// Takes all events of these modules out. It takes no memory, and looks at no other events.
    pub fn drop_modules(&mut self, ids: &[u32])
        ensures { self.new ≡ without_modules ids.now self.old }
    {
        for id in ids {
            self.drop_module(*id);
        }
    }

    /// Takes all events of that module out.
    fn drop_module(&mut self, id: u32)
        ensures { self.new ≡ without_modules (id ∷ []) self.old }
    {
        while self.drop_one(id) {}
    }

    /// Takes one event of that module out, and says whether there was one.
    fn drop_one(&mut self, id: u32) -> bool
        ensures one { IsTrue result → (length self.new.list < length self.old.list)
            × (without_modules (id ∷ []) self.new ≡ without_modules (id ∷ []) self.old) }
        ensures none { result ≡ false → self.new ≡ without_modules (id ∷ []) self.old }
    {
        let Some((found, place)) = self.index.any_of(id) else {
            return false;
        };
        self.index.forget(&found);
        self.events.remove(&place);
        true
    }
}

/// The place of an event.
fn key_of(time: SimTime, priority: i16, number: u128) -> Key
    ensures { result ≡ record { time = time; priority = priority; number = number } }
{
    Key {
        time,
        priority,
        number,
    }
}

/// What is told of an entry and its place.
fn coming_at(key: &Key, entry: &EventEntry) -> Coming
    ensures { result ≡ coming_of (pending_of (key.now, entry.now)) }
{
    Coming {
        time: key.time,
        priority: key.priority,
        id: entry.id(),
        last_started: entry.last_started(),
    }
}

/// Equal entries at equal places.
fn copy_events(events: &BTreeMap<Key, EventEntry>) -> Result<BTreeMap<Key, EventEntry>, AllocError>
    ensures { IfOk result (λ copy. copy.entries ≡ events.now.entries) }
{
    events.clone()
}

/// Puts an entry in its place, or changes nothing.
fn put_entry(
    events: &mut BTreeMap<Key, EventEntry>,
    key: Key,
    entry: EventEntry,
) -> Result<(), AllocError>
    ensures ordered { IsStrictlySortedBy key_order (keys_of events.new.entries) }
    ensures entries { OnOk result (events.new.entries
        ≡ insert_entry key_order events.old.entries key entry) }
    ensures places { OnOk result ((q : Key) → at_key events.new.entries q
        ≡ cond (is_at (key_order key) q) (Some entry) (at_key events.old.entries q)) }
    ensures err { OnErr result (events.new.entries ≡ events.old.entries) }
{
    events.insert(key, entry)?;
    Ok(())
}

/// The mark of an event.
fn mark_in(id: u32, number: u128, what: &Happening) -> Mark
    ensures { result ≡ mark_in id number what.now }
{
    match what {
        Happening::Timer(timer, _) => Mark::Timer(TimerKey { id, timer: *timer }),
        Happening::Arrival(_, _, _) | Happening::Delivery(_) | Happening::Start(_) => Mark::Message(
            MessageKey { id, number },
        ),
    }
}
