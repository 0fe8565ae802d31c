//! Events to come.

ghost use Rattle.std.specs.Prelude.{◌≡◌, IfOk};

use sim_time::SimTime;
use sim_values::text::Text;
use std::alloc::{AllocError, Global};

/// A message that arrives at a gate of the module that it is for.
#[derive(Drop)]
pub struct Delivery {
    pub kind: i16,
    /// Its length in bits.
    pub bits: u64,
    pub payload: Text,
    /// The gate's name; that of a half has its mark, as `port$i`.
    pub gate: Text,
    /// Its place in its vector, 0 of a scalar gate.
    pub index: u32,
}

/// What is to happen.
#[derive(Drop)]
pub enum Happening {
    /// A self-message: the module's number of the timer, and the message's kind.
    Timer(u32, i16),
    /// A message from outside: its kind, its length in bits, and its payload.
    Arrival(i16, u64, Text),
    /// A message of a module.
    Delivery(Delivery),
    /// The start of a module that was created, and of those that were created with it: their ids
    /// are those from its own to this one.
    Start(u32),
}

impl Delivery {
    /// An equal one.
    pub fn copy(&self, alloc: Global) -> Result<Delivery, AllocError>
        ensures { IfOk result (λ copy. copy ≡ self.now) }
    {
        Ok(Delivery {
            kind: self.kind,
            bits: self.bits,
            payload: self.payload.copy(alloc)?,
            gate: self.gate.copy(alloc)?,
            index: self.index,
        })
    }
}

/// An event to come.
#[derive(Drop)]
pub struct Pending {
    pub time: SimTime,
    pub priority: i16,
    /// The number of its insertion: of events of one time and priority the first inserted comes
    /// first.
    pub number: u128,
    /// The id of the module that it is for.
    pub id: u32,
    pub what: Happening,
}
