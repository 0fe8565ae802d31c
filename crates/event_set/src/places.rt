//! Where events stand, and what they are found by.

use sim_time::SimTime;

/// The place of an event in the order (OMNeT++ Simulation Manual, "Message Scheduling and
/// Priority").
#[derive(Clone, Copy, PartialEq, Eq, PartialOrd, Ord, Drop)]
pub(crate) struct Key {
    pub(crate) time: SimTime,
    pub(crate) priority: i16,
    pub(crate) number: u128,
}

/// A timer of a module.
#[derive(Clone, Copy, PartialEq, Eq, PartialOrd, Ord, Drop)]
pub(crate) struct TimerKey {
    pub(crate) id: u32,
    pub(crate) timer: u32,
}

/// An event of a module that is no timer, by the number of its insertion.
#[derive(Clone, Copy, PartialEq, Eq, PartialOrd, Ord, Drop)]
pub(crate) struct MessageKey {
    pub(crate) id: u32,
    pub(crate) number: u128,
}

/// What an event to come is found by: its module, and which of the module's it is.
#[derive(Clone, Copy, Drop)]
pub(crate) enum Mark {
    Timer(TimerKey),
    Message(MessageKey),
}
