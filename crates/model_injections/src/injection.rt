//! Messages from outside.

ghost use Rattle.std.specs.Prelude.{◌≡◌, IfOk};
ghost use Rattle.model_injections.specs.Injections.{due_before, goes_before, turn_of};
ghost use Rattle.model_injections.specs.Injections.{is_undelivered, first_undelivered, sooner};
ghost use Rattle.model_injections.specs.Injections.{sooner_undelivered, injection_before};
ghost use Rattle.std.specs.Option.{option_copied};

use sim_time::SimTime;
use sim_values::NoMemory;
use sim_values::text::Text;
use std::alloc::Global;

/// When an event or an injection is due: of two the one with the smaller time comes first, and of
/// those of one time the one with the smaller priority.
#[derive(Clone, Copy, PartialEq, Eq, Hash)]
pub struct Due {
    pub time: SimTime,
    pub priority: i16,
}

/// Where an injection stands in the order in which injections go: by when they are due, then by
/// number.
#[derive(Clone, Copy, PartialEq, Eq, Hash)]
pub struct InjectionTurn {
    pub due: Due,
    pub number: u32,
}

/// A message that no module sends, which arrives at a module when it is due.
#[derive(Drop)]
pub struct Injection {
    /// Its number, from 1. No other injection of the session has it, nor had one that was
    /// withdrawn.
    pub number: u32,
    /// The path of the simple module that it is for.
    pub path: Text,
    pub due: Due,
    /// The message's kind.
    pub kind: i16,
    /// The message's length on a channel, in bits.
    pub bits: u64,
    /// At most 4,096 bytes.
    pub payload: Text,
}

/// Whether one is due before the other: by time, then priority.
fn due_before(one: Due, other: Due) -> bool
    ensures { result ≡ due_before one other }
{
    if one.time == other.time {
        one.priority < other.priority
    } else {
        one.time < other.time
    }
}

/// Whether one injection goes before the other: by when they are due, then by number.
fn goes_before(one: InjectionTurn, other: InjectionTurn) -> bool
    ensures { result ≡ goes_before one other }
{
    due_before(one.due, other.due) || !due_before(other.due, one.due) && one.number < other.number
}

impl Injection {
    /// Where it stands in the order in which injections go.
    pub fn turn(&self) -> InjectionTurn
        ensures { result ≡ turn_of self.now }
    {
        InjectionTurn {
            due: self.due,
            number: self.number,
        }
    }

    /// An equal injection.
    pub fn copy(&self, alloc: Global) -> Result<Injection, NoMemory>
        ensures { IfOk result (λ copy. copy ≡ self.now) }
    {
        Ok(Injection {
            number: self.number,
            path: self.path.copy(alloc)?,
            due: self.due,
            kind: self.kind,
            bits: self.bits,
            payload: self.payload.copy(alloc)?,
        })
    }
}

/// Whether an injection is not delivered, where this one was delivered last.
fn is_undelivered(last: Option<&InjectionTurn>, injection: &Injection) -> bool
    ensures { result ≡ is_undelivered (option_copied last.entry) injection.now }
{
    match last {
        None => true,
        Some(last) => goes_before(*last, injection.turn()),
    }
}

/// The one that goes first of two.
fn sooner<'a>(injection: &'a Injection, other: Option<&'a Injection>) -> Option<&'a Injection>
    ensures { option_copied result ≡ sooner injection.now (option_copied other.entry) }
{
    match other {
        Some(found) if goes_before(found.turn(), injection.turn()) => other,
        _ => Some(injection),
    }
}

/// The one that goes first of two, where it is not delivered.
fn sooner_undelivered<'a>(
    injection: &'a Injection,
    last: Option<&InjectionTurn>,
    other: Option<&'a Injection>,
) -> Option<&'a Injection>
    ensures { option_copied result
        ≡ sooner_undelivered (option_copied last.entry) injection.now (option_copied other.entry) }
{
    if is_undelivered(last, injection) {
        sooner(injection, other)
    } else {
        other
    }
}

/// The first of these injections that is not delivered, where this one was delivered last.
fn first_undelivered<'a>(
    injections: &'a [Injection],
    last: Option<&InjectionTurn>,
) -> Option<&'a Injection>
    ensures { option_copied result ≡ first_undelivered (option_copied last.entry) injections.now }
{
    let mut first = None;
    for place in (0..injections.len()).rev() {
        first = sooner_undelivered(&injections[place], last, first);
    }
    first
}

/// The injection that goes before an event that is due then, or where no event is left; of those
/// after this one, which was delivered last.
pub fn injection_before(
    injections: &[Injection],
    due: Option<Due>,
    last: Option<InjectionTurn>,
) -> Option<&Injection>
    ensures { option_copied result ≡ injection_before due last injections.now }
{
    let first = first_undelivered(injections, last.as_ref())?;
    match due {
        Some(due) if !due_before(first.due, due) => None,
        _ => Some(first),
    }
}
