//! What a run leaves after.

use crate::signals::SignalName;
use sim_time::SimTime;
use sim_values::text::Text;

/// A value that a module emitted.
#[derive(Drop)]
pub struct Emission {
    /// The module that emitted it.
    pub id: u32,
    pub signal: SignalName,
    /// The number of the event.
    pub event: u64,
    pub time: SimTime,
    pub value: i64,
}

/// A scalar that a module recorded.
#[derive(Drop)]
pub struct Scalar {
    /// The module that recorded it.
    pub id: u32,
    pub name: Text,
    pub value: i64,
}

/// A simple module that was started: its kind, and its state as bytes.
#[derive(Drop)]
pub struct Instance {
    pub id: u32,
    pub kind: Text,
    pub state: Text,
}
