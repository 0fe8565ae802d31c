//! Where the events stand, by their modules.

ghost use Rattle.std.specs.Prelude.{◌≡◌, None, Some, cond, OnOk, OnErr, IfOk, MatchOption};
ghost use Rattle.event_set.specs.Keys.{stands_at, with_mark, without_mark, module_of, message_at};
ghost use Rattle.event_set.specs.Keys.{message_order};
ghost use Rattle.event_set.specs.declared.places.Mark.{Mark};
ghost use Rattle.event_set.specs.declared.places.MessageKey.{MessageKey};
ghost use Rattle.std.specs.BTreeMap.{is_at};

use crate::places::{Key, Mark, MessageKey, TimerKey};
use crate::timers::Timers;
use std::alloc::{AllocError, Global};
use std::collections::BTreeMap;
use std::marker::Model;

/// Where the events stand that are to come: timers in an index of their own, and all others in a
/// tree by their modules. So all events of a module are found with no look at those of others.
pub(crate) struct ModuleIndex {
    timers: Timers,
    messages: BTreeMap<MessageKey, Key>,
}

impl Drop for ModuleIndex {
    fn drop(self) {
        let ModuleIndex {
            timers: _,
            messages: _,
        } = self;
    }
}

impl Model for ModuleIndex {
    ghost use Rattle.event_set.specs.Keys.{Standing};

    ghost Value = { Standing };

    ghost view = { λ s. record { timers = s.timers; messages = s.messages.entries } };
}

impl ModuleIndex {
    ghost use Rattle.std.specs.Prelude.{[]};
    ghost use Rattle.event_set.specs.declared.places.Mark.TheVariants as mark;

    /// No events.
    pub(crate) fn new(alloc: Global) -> Self
        ensures { result ≡ record { timers = record { firsts = []; others = [] }; messages = [] } }
    {
        ModuleIndex {
            timers: Timers::new(alloc),
            messages: BTreeMap::new(alloc),
        }
    }

    /// Where that timer stands, if it is pending.
    pub(crate) fn timer(&self, timer: TimerKey) -> Option<Key>
        ensures { result ≡ stands_at self.now (mark.Timer timer) }
    {
        self.timers.find(timer)
    }

    /// Notes where the event of a new mark stands.
    pub(crate) fn note(&mut self, mark: &Mark, key: &Key) -> Result<(), AllocError>
        requires { stands_at self.old mark.now ≡ None }
        ensures ok { OnOk result ((m : Mark)
            → stands_at self.new m ≡ with_mark mark.now key.now (stands_at self.old) m) }
        ensures err { OnErr result ((m : Mark) → stands_at self.new m ≡ stands_at self.old m) }
    {
        match mark {
            Mark::Timer(timer) => self.timers.put(*timer, key),
            Mark::Message(message) => put_message(&mut self.messages, *message, key),
        }
    }

    /// Forgets where the event of that mark stands, and says where it stood if it was to come.
    pub(crate) fn forget(&mut self, mark: &Mark) -> Option<Key>
        ensures found { result ≡ stands_at self.old mark.now }
        ensures rest { (m : Mark) → stands_at self.new m ≡ without_mark mark.now (stands_at self.old) m }
    {
        match mark {
            Mark::Timer(timer) => self.timers.remove(*timer),
            Mark::Message(message) => remove_message(&mut self.messages, *message),
        }
    }

    /// One of the events of that module, and where it stands, if one is to come.
    pub(crate) fn any_of(&self, id: u32) -> Option<(Mark, Key)>
        ensures { MatchOption result ((m : Mark) → module_of m ≡ id → stands_at self.now m ≡ None)
            (λ p. (module_of p.0 ≡ id) × (stands_at self.now p.0 ≡ Some p.1)) }
    {
        if let Some((timer, key)) = self.timers.any_of(id) {
            return Some((Mark::Timer(timer), key));
        }
        match any_message(&self.messages, id) {
            Some((message, key)) => Some((Mark::Message(message), key)),
            None => None,
        }
    }

    /// The same events at the same places.
    pub(crate) fn copy(&self, alloc: Global) -> Result<ModuleIndex, AllocError>
        ensures { IfOk result (λ copy. copy ≡ self.now) }
    {
        let timers = self.timers.copy(alloc)?;
        let messages = self.messages.clone()?;
        Ok(ModuleIndex { timers, messages })
    }
}

/// Notes where a message stands, or changes nothing.
fn put_message(
    messages: &mut BTreeMap<MessageKey, Key>,
    message: MessageKey,
    key: &Key,
) -> Result<(), AllocError>
    ensures ok { OnOk result ((m : MessageKey) → message_at messages.new.entries m
        ≡ cond (is_at (message_order message) m) (Some key.now) (message_at messages.old.entries m)) }
    ensures err { OnErr result (messages.new.entries ≡ messages.old.entries) }
{
    messages.insert(message, *key)?;
    Ok(())
}

/// Forgets where a message stands, and says where it stood.
fn remove_message(messages: &mut BTreeMap<MessageKey, Key>, message: MessageKey) -> Option<Key>
    ensures found { result ≡ message_at messages.old.entries message }
    ensures rest { (m : MessageKey) → message_at messages.new.entries m
        ≡ cond (is_at (message_order message) m) None (message_at messages.old.entries m) }
{
    messages.remove(&message)
}

/// One of the messages to that module, and where it stands.
fn any_message(messages: &BTreeMap<MessageKey, Key>, id: u32) -> Option<(MessageKey, Key)>
    ensures { MatchOption result
        ((m : MessageKey) → m.id ≡ id → message_at messages.now.entries m ≡ None)
        (λ p. (p.0.id ≡ id) × (message_at messages.now.entries p.0 ≡ Some p.1)) }
{
    let Some((message, key)) = messages.range(MessageKey { id, number: 0 }..).next() else {
        return None;
    };
    if message.id != id {
        return None;
    }
    Some((*message, *key))
}
