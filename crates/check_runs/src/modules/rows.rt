//! Calls from tables, and replies as texts.

use module_api::call::{Call, CallReason, Parameter};
use module_api::message::{Message, Origin};
use module_api::name::Name;
use module_api::reply::{Action, GatePlace, Read, Reply};
use sim_time::SimTime;
use sim_values::text::Text;
use sim_values::value::{Dimension, Value};
use sqlite_items::Items;
use std::alloc::{AllocError, Global};
use std::fmt::Write;

/// A parameter's name, and its value: a whole number, or an amount of a dimension.
#[derive(Clone, Copy)]
pub struct Row(pub &'static str, pub Option<Dimension>, pub i64);

/// The parameter of a row.
fn parameter(alloc: Global, row: &Row) -> Result<Parameter, AllocError> {
    let name = Text::from_str(alloc, row.0)?;
    let value = match row.1 {
        None => Value::Whole(row.2),
        Some(dimension) => Value::Quantity(dimension, row.2),
    };
    Ok(Parameter { name, value })
}

/// The parameters of rows.
fn parameters_of(alloc: Global, rows: &[Row]) -> Result<Items<Parameter>, AllocError> {
    let mut parameters = Items::new(alloc);
    for row in rows {
        parameters.push(parameter(alloc, row)?)?;
    }
    Ok(parameters)
}

/// A call with these parameters and no gates.
pub fn call_of(alloc: Global, rows: &[Row], prompt: CallReason) -> Result<Call, AllocError> {
    let parameters = parameters_of(alloc, rows)?;
    let path = Text::from_str(alloc, "net.tick")?;
    Ok(Call {
        time: SimTime::zero(),
        event: 1,
        id: 7,
        path,
        index: None,
        parameters,
        gates: Items::new(alloc),
        prompt,
    })
}

/// A message from there.
pub fn message_from(alloc: Global, origin: Origin) -> CallReason {
    CallReason::Message(Message {
        kind: 0,
        priority: 0,
        bits: 0,
        payload: Text::empty(alloc),
        origin,
    })
}

/// The characters of a text.
fn written(text: &Text) -> &str {
    characters(text.as_bytes())
}

/// The characters of a name.
fn spelled(name: &Name) -> &str {
    characters(name.as_bytes())
}

/// The characters that these bytes are.
fn characters(bytes: &[u8]) -> &str {
    match std::str::from_utf8(bytes) {
        Ok(text) => text,
        Err(_) => "no UTF-8",
    }
}

/// The reads and actions of a reply, each after a space, with a colon between.
pub fn text_of(alloc: Global, reply: &Reply) -> Result<String, AllocError> {
    let mut text = String::new(alloc);
    for read in reply.reads.as_slice() {
        let (Read::Parameter(name) | Read::Gate(name)) = read;
        write!(text, " {}", spelled(name))?;
    }
    text.push_str(":")?;
    for action in reply.actions.as_slice() {
        add_action(&mut text, action)?;
    }
    Ok(text)
}

/// Adds a gate of a module, after a space.
fn add_place(text: &mut String, place: &GatePlace) -> Result<(), AllocError> {
    let (path, name) = (written(&place.path), spelled(&place.name));
    write!(text, " {path}.{name}[{}]", place.index)
}

/// Adds an action, after a space.
fn add_action(text: &mut String, action: &Action) -> Result<(), AllocError> {
    match action {
        Action::Emit(signal, value) => write!(text, " {}={value}", spelled(signal)),
        Action::RecordScalar(name, value) => write!(text, " {}:={value}", spelled(name)),
        Action::Send(gate, message) => {
            let (name, index, bits) = (spelled(&gate.name), gate.index, message.bits);
            write!(text, " send {name}[{index}] {bits}")
        }
        Action::SendDelayed(gate, message, delay) => {
            let (name, index, bits) = (spelled(&gate.name), gate.index, message.bits);
            write!(text, " send {name}[{index}] {bits}+{}", delay.ps())
        }
        Action::SendDirect(place, message, flight) => {
            write!(text, " send")?;
            add_place(text, place)?;
            write!(text, " {}+{}", message.bits, flight.delay.ps())
        }
        Action::ScheduleAfter(set) => {
            let (timer, delay, priority) = (set.timer, set.delay.ps(), set.priority);
            write!(text, " timer{timer}+{delay}/{priority}")
        }
        Action::ScheduleAt(set) => {
            let (timer, at, priority) = (set.timer, set.at.ps(), set.priority);
            write!(text, " timer{timer}@{at}/{priority}")
        }
        Action::Cancel(timer) => write!(text, " cancel{timer}"),
        Action::Connect(from, to, _) => {
            write!(text, " connect")?;
            add_place(text, from)?;
            add_place(text, to)
        }
        Action::Disconnect(place) => {
            write!(text, " disconnect")?;
            add_place(text, place)
        }
        Action::Create(creation) => {
            let (parent, name) = (written(&creation.parent), spelled(&creation.name));
            write!(
                text,
                " create {parent}.{name}: {}",
                written(&creation.plan.type_name)
            )
        }
        Action::Delete(path, finish) => write!(text, " delete {} {finish}", written(path)),
        Action::End => write!(text, " end"),
        Action::Fail(reason) => write!(text, " fail={}", written(reason)),
    }
}
