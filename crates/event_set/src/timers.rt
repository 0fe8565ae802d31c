//! Where the timers stand that are pending.

ghost use Rattle.std.specs.Prelude.{◌≡◌, ◌<◌, None, Some, OnOk, OnErr, IfOk, MatchOption};
ghost use Rattle.std.specs.Prelude.{if◌then◌else◌};
ghost use Rattle.std.specs.Vec.{vec_len};
ghost use Rattle.event_set.specs.Keys.{first_at, other_at, place_at, noted, forgotten};
ghost use Rattle.event_set.specs.declared.places.TimerKey.{TimerKey};
ghost use Rattle.event_set.specs.declared.timers.First.TheVariants.{Held};

use crate::places::{Key, TimerKey};
use sim_time::SimTime;
use std::alloc::{AllocError, Global};
use std::collections::BTreeMap;
use std::marker::Model;

/// So many modules have a slot of their own for a timer. A timer of a module with a greater id
/// stands in the tree, whoever calls with that id: the slots never take more memory than so many
/// do.
const SLOTS: u32 = 1 << 20;

/// A module's slot for a timer: none is in it, or this one, which stands at that place. The
/// priority and the timer's number lie in one word with the tag.
#[derive(Clone, Copy, Drop)]
pub(crate) enum First {
    Free,
    Held {
        priority: i16,
        timer: u32,
        time: SimTime,
        number: u128,
    },
}

// A slot has four words.
const _: () = prove!(size_of::<First>() == 32);

/// Where the timers stand that are pending: one of each module in the module's slot, found by its
/// id at once, and all others in a tree. Contracts see the slots, and what the tree has.
pub(crate) struct Timers {
    firsts: Vec<First>,
    others: BTreeMap<TimerKey, Key>,
}

impl Drop for Timers {
    fn drop(self) {
        let Timers {
            firsts: _,
            others: _,
        } = self;
    }
}

impl Model for Timers {
    ghost use Rattle.event_set.specs.Keys.{Slots, first_at, other_at, AreApart};

    ghost Value = { Slots };

    ghost view = { λ s. record { firsts = s.firsts.items; others = s.others.entries } };

    ghost invariant = { λ s. AreApart (first_at s.firsts.items) (other_at s.others.entries) };
}

impl Timers {
    ghost use Rattle.std.specs.Prelude.{[]};

    /// No timers.
    pub(crate) fn new(alloc: Global) -> Self
        ensures { result ≡ record { firsts = []; others = [] } }
    {
        Timers {
            firsts: Vec::new(alloc),
            others: BTreeMap::new(alloc),
        }
    }

    /// Where that timer stands, if it is pending.
    pub(crate) fn find(&self, timer: TimerKey) -> Option<Key>
        ensures { result ≡ place_at self.now timer }
    {
        match found_in(self.firsts.as_slice(), timer) {
            Some(key) => Some(key),
            None => self.others.get(&timer).copied(),
        }
    }

    /// Notes where a timer stands that isn't pending yet.
    pub(crate) fn put(&mut self, timer: TimerKey, key: &Key) -> Result<(), AllocError>
        requires { place_at self.old timer ≡ None }
        ensures ok { OnOk result ((t : TimerKey)
            → place_at self.new t ≡ noted timer key.now (place_at self.old) t) }
        ensures err { OnErr result ((t : TimerKey) → place_at self.new t ≡ place_at self.old t) }
    {
        if put_in_slot(&mut self.firsts, timer, key)? {
            return Ok(());
        }
        self.others.insert(timer, *key)?;
        Ok(())
    }

    /// Forgets where that timer stands, and says where it stood if it was pending.
    pub(crate) fn remove(&mut self, timer: TimerKey) -> Option<Key>
        ensures found { result ≡ place_at self.old timer }
        ensures rest { (t : TimerKey)
            → place_at self.new t ≡ forgotten timer (place_at self.old) t }
    {
        match take_from_slot(&mut self.firsts, timer) {
            Some(key) => Some(key),
            None => self.others.remove(&timer),
        }
    }

    /// One of the timers of that module, and where it stands, if one is pending.
    pub(crate) fn any_of(&self, id: u32) -> Option<(TimerKey, Key)>
        ensures { MatchOption result ((t : TimerKey) → t.id ≡ id → place_at self.now t ≡ None)
            (λ p. (p.0.id ≡ id) × (place_at self.now p.0 ≡ Some p.1)) }
    {
        match first_of(self.firsts.as_slice(), id) {
            Some(first) => Some(first),
            None => any_other(&self.others, id),
        }
    }

    /// The same timers at the same places.
    pub(crate) fn copy(&self, alloc: Global) -> Result<Timers, AllocError>
        ensures { IfOk result (λ copy. copy ≡ self.now) }
    {
        let firsts = Vec::from_slice(alloc, self.firsts.as_slice())?;
        let others = self.others.clone()?;
        Ok(Timers { firsts, others })
    }
}

/// Where that timer stands, if it is in its module's slot.
fn found_in(firsts: &[First], timer: TimerKey) -> Option<Key>
    ensures { result ≡ first_at firsts.now timer }
{
    let Some(
        First::Held {
            priority,
            timer: held,
            time,
            number,
        },
    ) = firsts.get(timer.id as usize)
    else {
        return None;
    };
    if *held != timer.timer {
        return None;
    }
    Some(Key {
        time: *time,
        priority: *priority,
        number: *number,
    })
}

/// Makes the slots of all modules up to that one, where it may have one.
fn reach(firsts: &mut Vec<First>, id: u32) -> Result<(), AllocError>
    ensures same { (t : TimerKey) → first_at firsts.new.items t ≡ first_at firsts.old.items t }
    ensures long { OnOk result (id < vec_len firsts.new) }
{
    while firsts.len() <= id as usize {
        firsts.push(First::Free)?;
    }
    Ok(())
}

/// A slot with that timer, which stands there.
fn held(timer: u32, key: Key) -> First
    ensures { result ≡ Held key.priority timer key.time key.number }
{
    First::Held {
        priority: key.priority,
        timer,
        time: key.time,
        number: key.number,
    }
}

/// Puts a timer in its module's slot, and says whether that was free.
fn put_in_slot(firsts: &mut Vec<First>, timer: TimerKey, key: &Key) -> Result<bool, AllocError>
    ensures ok { IfOk result (λ put. (t : TimerKey) → first_at firsts.new.items t
        ≡ (if put then noted timer key.now (first_at firsts.old.items) t
        else first_at firsts.old.items t)) }
    ensures err { OnErr result ((t : TimerKey)
        → first_at firsts.new.items t ≡ first_at firsts.old.items t) }
{
    if timer.id >= SLOTS {
        return Ok(false);
    }
    reach(firsts, timer.id)?;
    let place = timer.id as usize;
    let First::Free = firsts.as_slice()[place] else {
        return Ok(false);
    };
    firsts[place] = held(timer.timer, *key);
    Ok(true)
}

/// Takes a timer out of its module's slot, and says where it stood if it was there.
fn take_from_slot(firsts: &mut Vec<First>, timer: TimerKey) -> Option<Key>
    ensures found { result ≡ first_at firsts.old.items timer }
    ensures rest { (t : TimerKey)
        → first_at firsts.new.items t ≡ forgotten timer (first_at firsts.old.items) t }
{
    let key = found_in(firsts.as_slice(), timer)?;
    firsts[timer.id as usize] = First::Free;
    Some(key)
}

/// The timer in that module's slot, and where it stands.
fn first_of(firsts: &[First], id: u32) -> Option<(TimerKey, Key)>
    ensures { MatchOption result ((t : TimerKey) → t.id ≡ id → first_at firsts.now t ≡ None)
        (λ p. (p.0.id ≡ id) × (first_at firsts.now p.0 ≡ Some p.1)) }
{
    let Some(
        First::Held {
            priority,
            timer: held,
            time,
            number,
        },
    ) = firsts.get(id as usize)
    else {
        return None;
    };
    let key = Key {
        time: *time,
        priority: *priority,
        number: *number,
    };
    Some((TimerKey { id, timer: *held }, key))
}

/// One of that module's timers in the tree, and where it stands.
fn any_other(others: &BTreeMap<TimerKey, Key>, id: u32) -> Option<(TimerKey, Key)>
    ensures { MatchOption result ((t : TimerKey) → t.id ≡ id → other_at others.now.entries t ≡ None)
        (λ p. (p.0.id ≡ id) × (other_at others.now.entries p.0 ≡ Some p.1)) }
{
    let Some((timer, key)) = others.range(TimerKey { id, timer: 0 }..).next() else {
        return None;
    };
    if timer.id != id {
        return None;
    }
    Some((*timer, *key))
}
