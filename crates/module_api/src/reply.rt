//! What a module answers to a call.

ghost use Rattle.std.specs.Prelude.{◌≡◌, IfOk};
ghost use Rattle.module_api.specs.Actions.{has_large_payload};

use crate::message::{MAX_PAYLOAD, Outgoing};
use crate::name::Name;
use sim_time::SimTime;
use sim_values::text::Text;
use sim_values::value::Value;
use sqlite_items::Items;
use std::alloc::{AllocError, Global};

/// A value of the call that a reply, or the state after it, rests on.
#[derive(Drop)]
pub enum Read {
    /// The parameter of that name, or that there is none.
    Parameter(Name),
    /// The direction and size of the gate of that name, or that there is none.
    Gate(Name),
}

/// A gate of the module that acts. An inout gate has the halves `NAME$i` and `NAME$o`.
#[derive(Drop)]
pub struct OwnGate {
    pub name: Name,
    /// Its place in its vector, 0 for a scalar gate.
    pub index: u32,
}

/// A gate of a module, which is named by its full path.
#[derive(Drop)]
pub struct GatePlace {
    pub path: Text,
    pub name: Name,
    /// Its place in its vector, 0 for a scalar gate.
    pub index: u32,
}

/// How long a message that goes directly to a gate is under way.
#[derive(Clone, Copy, Drop)]
pub struct Flight {
    /// From now to its start there, in picoseconds.
    pub delay: SimTime,
    /// From its start to its end, in picoseconds. It arrives at its end.
    pub duration: SimTime,
}

/// A timer to set, from now on.
#[derive(Drop)]
pub struct Schedule {
    /// The module's own number of the timer, of which one may be pending at a time.
    pub timer: u32,
    /// From now, in picoseconds.
    pub delay: SimTime,
    pub priority: i16,
    pub kind: i16,
}

/// A timer to set, at a time of the run.
#[derive(Drop)]
pub struct Appointment {
    /// The module's own number of the timer, of which one may be pending at a time.
    pub timer: u32,
    /// The time of the run, in picoseconds.
    pub at: SimTime,
    pub priority: i16,
    pub kind: i16,
}

/// A fixed value of a parameter of a module that is created.
#[derive(Drop)]
pub struct FixedValue {
    pub name: Text,
    pub value: Value,
}

/// The size of a gate vector of a module that is created.
#[derive(Drop)]
pub struct FixedSize {
    pub name: Text,
    pub size: i64,
}

/// What a module is created as, while a run goes on. Records of modules hold it, so that it has texts
/// of its own, and no words of the program's.
#[derive(Drop)]
pub struct Plan {
    /// The name of its type, which is looked up from the type of the module around it.
    pub type_name: Text,
    pub parameters: Items<FixedValue>,
    pub sizes: Items<FixedSize>,
}

/// A module to create.
#[derive(Drop)]
pub struct Creation {
    /// The full path of the compound module in which it is created.
    pub parent: Text,
    pub name: Name,
    /// Its place in its vector, none where it is no vector's element.
    pub index: Option<u32>,
    pub plan: Plan,
}

/// The channel of a connection that is made while a run goes on.
#[derive(Clone, Copy, Drop)]
pub struct Link {
    /// In picoseconds.
    pub delay: SimTime,
    /// In bits per second; 0: a transmission takes no time.
    pub datarate: u64,
}

/// What a module does.
#[derive(Drop)]
pub enum Action {
    /// Emits a value of the signal of that name.
    Emit(Name, i64),
    /// Records a scalar of that name, which has to be one (`names::is_scalar_name`).
    RecordScalar(Name, i64),
    /// Sends a message through an output gate of its own.
    Send(OwnGate, Outgoing),
    /// The same, where it departs so much later than now, in picoseconds.
    SendDelayed(OwnGate, Outgoing, SimTime),
    /// Sends a message to an input gate of a module that nothing is connected to from outside.
    SendDirect(GatePlace, Outgoing, Flight),
    /// Sets a timer at a time of the run, which is not before now.
    ScheduleAt(Appointment),
    /// Sets a timer from now on.
    ScheduleAfter(Schedule),
    /// Takes back the timer of that number, if it is pending.
    Cancel(u32),
    /// Creates a module in a compound one that lives, and builds it. It is started by an event of
    /// its own, at this time.
    Create(Creation),
    /// Deletes the module of that path with all that is inside of it. If that is wanted, those of
    /// its modules that were started are finished first.
    Delete(Text, bool),
    /// Joins an output gate to an input gate, both of which are free, over a channel or none.
    Connect(GatePlace, GatePlace, Option<Link>),
    /// Frees an output gate.
    Disconnect(GatePlace),
    /// Ends the run after this event, the rest of which is discarded.
    End,
    /// Ends the run with the fault ModuleFailed and this text.
    Fail(Text),
}

impl Action {
    /// Whether it sends a message with a payload of more than 4,096 bytes.
    pub fn has_large_payload(&self) -> bool
        ensures { result ≡ has_large_payload self.now }
    {
        match self {
            Action::Send(_, message)
            | Action::SendDelayed(_, message, _)
            | Action::SendDirect(_, message, _) => message.payload.as_bytes().len() > MAX_PAYLOAD,
            _ => false,
        }
    }
}

/// What a module answers: what it read, and what is to be done, in order.
#[derive(Drop)]
pub struct Reply {
    pub reads: Items<Read>,
    pub actions: Items<Action>,
}
