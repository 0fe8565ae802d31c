//! How a run ends.

ghost use Rattle.std.specs.Prelude.{◌≡◌, IfOk};
ghost use Rattle.run_semantics.specs.Faults.{fault_name};
ghost use Rattle.run_semantics.specs.Perform.{channel_fault};
ghost use Rattle.run_semantics.specs.Run.{is_fault};

use channels::travels::ChannelFault;
use sim_values::model_fault::ModelFault;
use sim_values::text::Text;
use std::alloc::{AllocError, Global};

/// Why a run can't go on.
#[derive(Drop)]
pub enum RunFault {
    /// The model can't answer: a parameter has no value, or the inside of a compound module can't
    /// be built.
    Model(ModelFault),
    /// No box is there for a module's class.
    UnknownClass,
    /// A reply read a parameter that the module doesn't have.
    NoParameter,
    /// A reply read a gate that the module doesn't have, or sends a message through one that isn't
    /// there or has another direction.
    NoGate,
    /// A gate that something is connected to is joined, or a message is sent to it directly.
    AlreadyConnected,
    /// A reply has more than 1,000 actions.
    TooManyActions,
    /// A reply to the end of the run has an action that is not for it.
    NotInFinish,
    /// The name of a scalar is none (`module_api::names::is_scalar_name`).
    BadName,
    /// A time is above the greatest time.
    TimeOverflow,
    /// A message's gate leads to no module that could receive it.
    NotConnected,
    /// A message would take more than 1,000 hops.
    TooManyHops,
    /// More than one channel of a message's way models how long a transmission takes.
    TwoTransmissionChannels,
    /// An earlier transmission goes on as a message reaches the channel.
    Busy,
    /// A module is created with the name and index of a sibling.
    DuplicateName,
    /// No module that lives has that path, or none that can be meant.
    NoModule,
    /// A payload has more than 4,096 bytes.
    PayloadTooLarge,
    /// A timer is to be set at a time before now.
    Past,
    /// The timer is pending already.
    AlreadyScheduled,
    /// The module said so.
    ModuleFailed(Text),
}

/// How a run ends.
#[derive(Drop)]
pub enum Outcome {
    /// A module ended it.
    Ended,
    /// The caller's limit of events was reached.
    EventLimit,
    /// No event is left.
    NoMoreEvents,
    /// The next event is later than the option sim-time-limit allows.
    TimeLimit,
    /// The event of that number had a fault, told with a module's path.
    Fault(u64, Text, RunFault),
}

/// Whether an event goes on.
#[derive(Drop)]
pub enum EventFlow {
    GoOn,
    /// The rest of the event is discarded.
    Stop,
    /// The run is over, with a fault told with that path.
    Break(Text, RunFault),
}

/// The fault of a message on its channels.
pub fn fault_on_way(fault: ChannelFault) -> RunFault
    ensures { result ≡ channel_fault fault }
{
    match fault {
        ChannelFault::Busy => RunFault::Busy,
        ChannelFault::TwoTransmissionChannels => RunFault::TwoTransmissionChannels,
        ChannelFault::TimeOverflow => RunFault::TimeOverflow,
    }
}

impl RunFault {
    /// Its name, as answers have it.
    pub fn name(&self) -> &'static [u8]
        ensures { result.now ≡ fault_name self.now }
    {
        match self {
            RunFault::Model(fault) => fault.name(),
            RunFault::UnknownClass => b"UnknownClass",
            RunFault::NoParameter => b"NoParameter",
            RunFault::NoGate => b"NoGate",
            RunFault::AlreadyConnected => b"AlreadyConnected",
            RunFault::TooManyActions => b"TooManyActions",
            RunFault::NotInFinish => b"NotInFinish",
            RunFault::BadName => b"BadName",
            RunFault::TimeOverflow => b"TimeOverflow",
            RunFault::NotConnected => b"NotConnected",
            RunFault::TooManyHops => b"TooManyHops",
            RunFault::TwoTransmissionChannels => b"TwoTransmissionChannels",
            RunFault::Busy => b"Busy",
            RunFault::DuplicateName => b"DuplicateName",
            RunFault::NoModule => b"NoModule",
            RunFault::PayloadTooLarge => b"PayloadTooLarge",
            RunFault::Past => b"Past",
            RunFault::AlreadyScheduled => b"AlreadyScheduled",
            RunFault::ModuleFailed(_) => b"ModuleFailed",
        }
    }

    /// An equal fault.
    pub fn copy(&self, alloc: Global) -> Result<RunFault, AllocError>
        ensures { IfOk result (λ fault. fault ≡ self.now) }
    {
        Ok(match self {
            RunFault::Model(fault) => RunFault::Model(*fault),
            RunFault::AlreadyConnected => RunFault::AlreadyConnected,
            RunFault::UnknownClass => RunFault::UnknownClass,
            RunFault::NoParameter => RunFault::NoParameter,
            RunFault::NoGate => RunFault::NoGate,
            RunFault::TooManyActions => RunFault::TooManyActions,
            RunFault::NotInFinish => RunFault::NotInFinish,
            RunFault::BadName => RunFault::BadName,
            RunFault::TimeOverflow => RunFault::TimeOverflow,
            RunFault::NotConnected => RunFault::NotConnected,
            RunFault::TooManyHops => RunFault::TooManyHops,
            RunFault::TwoTransmissionChannels => RunFault::TwoTransmissionChannels,
            RunFault::Busy => RunFault::Busy,
            RunFault::DuplicateName => RunFault::DuplicateName,
            RunFault::NoModule => RunFault::NoModule,
            RunFault::PayloadTooLarge => RunFault::PayloadTooLarge,
            RunFault::Past => RunFault::Past,
            RunFault::AlreadyScheduled => RunFault::AlreadyScheduled,
            RunFault::ModuleFailed(text) => RunFault::ModuleFailed(text.copy(alloc)?),
        })
    }
}

impl Outcome {
    /// An equal outcome.
    pub fn copy(&self, alloc: Global) -> Result<Outcome, AllocError>
        ensures { IfOk result (λ outcome. outcome ≡ self.now) }
    {
        match self {
            Outcome::Ended => Ok(Outcome::Ended),
            Outcome::EventLimit => Ok(Outcome::EventLimit),
            Outcome::NoMoreEvents => Ok(Outcome::NoMoreEvents),
            Outcome::TimeLimit => Ok(Outcome::TimeLimit),
            Outcome::Fault(event, path, fault) => Ok(Outcome::Fault(
                *event,
                path.copy(alloc)?,
                fault.copy(alloc)?,
            )),
        }
    }

    /// Whether it is a fault.
    pub fn is_fault(&self) -> bool
        ensures { result ≡ is_fault self.now }
    {
        matches!(self, Outcome::Fault(_, _, _))
    }
}
