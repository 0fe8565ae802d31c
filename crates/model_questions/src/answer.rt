//! Questions to a model, and their answers.

ghost use Rattle.std.specs.Prelude.{◌≡◌, IfOk};
ghost use Rattle.model_questions.specs.Answers.{is_beyond};

use model_injections::injection::{Due, Injection, InjectionTurn};
use module_api::call::Gate;
use sim_time::SimTime;
use sim_values::model_fault::ModelFault;
use sim_values::text::Text;
use sim_values::value::Value;
use sqlite_items::Items;
use std::alloc::{AllocError, Global};

/// What a run asks of its model. All that it takes from the model is an answer to one of these.
#[derive(PartialEq, Eq, Hash, Drop)]
pub enum Question {
    /// Which network is run.
    Root,
    /// The class of the module of that id, which was created while a run went on.
    TypeOf(u32),
    /// What is inside of the compound module of that id.
    Build(u32),
    /// The value of a parameter of the module of that id.
    Param(u32, Text),
    /// The direction and size of a gate of the module of that id.
    GateSize(u32, Text),
    /// The next gate after a gate of the module of that id, by its name and index, and the channel
    /// on the way.
    Hop(u32, Text, u32),
    /// The gate from which a message comes from outside to a gate of the module of that id, by its
    /// name and index.
    HopBack(u32, Text, u32),
    /// Whether an event at that time, in picoseconds, is later than the option sim-time-limit
    /// allows.
    BeyondLimit(u64),
    /// The injection that goes before an event that is due then, or that goes where no event is
    /// left; of those after this one, which was delivered last.
    InjectionBefore(Option<Due>, Option<InjectionTurn>),
}

impl Question {
    /// An equal question.
    pub fn copy(&self, alloc: Global) -> Result<Question, AllocError>
        ensures { IfOk result (λ copy. copy ≡ self.now) }
    {
        match self {
            Question::Root => Ok(Question::Root),
            Question::TypeOf(id) => Ok(Question::TypeOf(*id)),
            Question::Build(id) => Ok(Question::Build(*id)),
            Question::Param(id, name) => Ok(Question::Param(*id, name.copy(alloc)?)),
            Question::GateSize(id, name) => Ok(Question::GateSize(*id, name.copy(alloc)?)),
            Question::Hop(id, name, index) => Ok(Question::Hop(*id, name.copy(alloc)?, *index)),
            Question::HopBack(id, name, index) => {
                Ok(Question::HopBack(*id, name.copy(alloc)?, *index))
            }
            Question::BeyondLimit(time) => Ok(Question::BeyondLimit(*time)),
            Question::InjectionBefore(due, last) => Ok(Question::InjectionBefore(*due, *last)),
        }
    }
}

/// A question, with the number of the event in which it was asked.
#[derive(Drop)]
pub struct AskedQuestion {
    pub event: u64,
    pub question: Question,
}

/// A submodule that a compound module is built with.
#[derive(Drop)]
pub struct Built {
    pub name: Text,
    /// Its place in its vector, none where it is no vector's element.
    pub index: Option<u32>,
    /// The class of a simple module, none for a compound module.
    pub class: Option<Text>,
}

/// Which module a hop leads to, seen from the one whose gate was asked about.
#[derive(Drop)]
pub enum Neighbour {
    /// The module itself.
    Itself,
    /// The module around it.
    Around,
    /// A submodule of the module around it, by its name and index.
    Beside(Text, Option<u32>),
    /// A submodule of its own, by its name and index.
    Inside(Text, Option<u32>),
}

/// The three kinds of channels (OMNeT++ Simulation Manual, "Channels").
#[derive(Clone, Copy, PartialEq, Eq)]
pub enum ChannelKind {
    /// No delay.
    Ideal,
    /// A delay.
    Delay,
    /// A delay, and a rate at which bits are transmitted.
    Datarate,
}

/// The channel of a connection.
#[derive(Clone, Copy, Drop)]
pub struct Channel {
    pub kind: ChannelKind,
    /// How long a message is on the way, zero at an ideal channel.
    pub delay: SimTime,
    /// In bits per second; 0: a transmission takes no time.
    pub datarate: u64,
    /// Whether it loses each message.
    pub disabled: bool,
}

/// A gate that a hop leads to, and the channel on the way.
#[derive(Drop)]
pub struct NextGate {
    pub neighbour: Neighbour,
    /// The gate's name; that of a half has its mark, as `port$i`.
    pub gate: Text,
    /// Its place in its vector, 0 of a scalar gate.
    pub index: u32,
    pub channel: Channel,
}

/// What a model answers.
#[derive(Drop)]
pub enum Answer {
    /// The name of the network.
    Root(Text),
    /// The class of a simple module, none for a compound one.
    Class(Option<Text>),
    /// The submodules, in the order in which they are created.
    Inside(Items<Built>),
    Value(Value),
    /// A gate, or a half of one: its own name, its direction and its size.
    Gate(Gate),
    /// The gate at the other end of a hop, none where the gate is not connected.
    Next(Option<NextGate>),
    /// The fault, with the path that it is told with.
    Fault(Text, ModelFault),
    /// Whether the time is later than the limit.
    Beyond(bool),
    /// The injection that goes next, or that the next event goes first.
    Injection(Option<Injection>),
    /// There is no such thing.
    Absent,
}

/// Whether a time is later than this limit, where there is one, both in picoseconds. A time equal
/// to the limit is not.
pub fn is_beyond(limit: Option<u64>, time: u64) -> bool
    ensures { result ≡ is_beyond limit time }
{
    match limit {
        Some(limit) => limit < time,
        None => false,
    }
}
