//! Events as the tree has them: all but their place.

ghost use Rattle.std.specs.Prelude.{◌≡◌, IfOk};
ghost use Rattle.event_set.specs.Events.{last_started};
ghost use Rattle.event_set.specs.Keys.{id_of, what_of};

use crate::pending::{Delivery, Happening};
use sim_values::text::Text;
use sqlite_items::Boxed;
use std::alloc::{AllocError, Global};

/// The module of an event, and what is to happen. A payload and a message are boxed, and the fields
/// stand in an order in which they leave no room between them: so a node of the tree, with fifteen
/// entries and their places, is a block that is small.
#[derive(Drop)]
pub(crate) enum EventEntry {
    /// A self-message.
    Timer {
        kind: i16,
        id: u32,
        timer: u32,
    },
    /// A message from outside.
    Arrival {
        kind: i16,
        id: u32,
        bits: u64,
        payload: Boxed<Text>,
        alloc: Global,
    },
    /// A message of a module.
    Delivery {
        id: u32,
        delivery: Boxed<Delivery>,
        alloc: Global,
    },
    /// The start of the modules with these ids, and all between.
    Start {
        id: u32,
        last: u32,
    },
}

// An entry has three words.
const _: () = prove!(size_of::<EventEntry>() == 24);

// An equal one, so that a whole tree is copied node by node, with no search.
impl Clone for EventEntry {
    ghost is_clone = { λ entry copy. copy ≡ entry };

    fn clone(&self) -> Result<EventEntry, AllocError> {
        Ok(match self {
            EventEntry::Timer { kind, id, timer } => EventEntry::Timer {
                kind: *kind,
                id: *id,
                timer: *timer,
            },
            EventEntry::Arrival {
                kind,
                id,
                bits,
                payload,
                alloc,
            } => EventEntry::Arrival {
                kind: *kind,
                id: *id,
                bits: *bits,
                payload: Boxed::new(*alloc, payload.get().copy(*alloc)?)?,
                alloc: *alloc,
            },
            EventEntry::Delivery {
                id,
                delivery,
                alloc,
            } => EventEntry::Delivery {
                id: *id,
                delivery: Boxed::new(*alloc, delivery.get().copy(*alloc)?)?,
                alloc: *alloc,
            },
            EventEntry::Start { id, last } => EventEntry::Start {
                id: *id,
                last: *last,
            },
        })
    }
}

impl EventEntry {
    /// What is to happen to the module of that id.
    pub(crate) fn new(alloc: Global, id: u32, what: Happening) -> Result<EventEntry, AllocError>
        ensures id { IfOk result (λ entry. id_of entry ≡ id) }
        ensures what { IfOk result (λ entry. what_of entry ≡ what) }
    {
        Ok(match what {
            Happening::Timer(timer, kind) => EventEntry::Timer { kind, id, timer },
            Happening::Arrival(kind, bits, payload) => EventEntry::Arrival {
                kind,
                id,
                bits,
                payload: Boxed::new(alloc, payload)?,
                alloc,
            },
            Happening::Delivery(delivery) => EventEntry::Delivery {
                id,
                delivery: Boxed::new(alloc, delivery)?,
                alloc,
            },
            Happening::Start(last) => EventEntry::Start { id, last },
        })
    }

    /// The id of the module.
    pub(crate) fn id(&self) -> u32
        ensures { result ≡ id_of self.now }
    {
        match self {
            EventEntry::Timer { id, .. }
            | EventEntry::Arrival { id, .. }
            | EventEntry::Delivery { id, .. }
            | EventEntry::Start { id, .. } => *id,
        }
    }

    /// The last id of the modules that it starts, if it is a start.
    pub(crate) fn last_started(&self) -> Option<u32>
        ensures { result ≡ last_started (what_of self.now) }
    {
        match self {
            EventEntry::Start { last, .. } => Some(*last),
            EventEntry::Timer { .. } | EventEntry::Arrival { .. } | EventEntry::Delivery { .. } =>
                None,
        }
    }

    /// What is to happen.
    pub(crate) fn into_what(self) -> Happening
        ensures { result ≡ what_of self }
    {
        match self {
            EventEntry::Timer { kind, timer, .. } => Happening::Timer(timer, kind),
            EventEntry::Arrival {
                kind,
                bits,
                payload,
                ..
            } => Happening::Arrival(kind, bits, payload.into_inner()),
            EventEntry::Delivery { delivery, .. } => Happening::Delivery(delivery.into_inner()),
            EventEntry::Start { last, .. } => Happening::Start(last),
        }
    }
}
