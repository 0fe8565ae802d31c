//! Events as what they bring to modules.

ghost use Rattle.std.specs.Prelude.{◌≡◌, IfOk};
ghost use Rattle.event_set.specs.declared.pending.Happening.TheVariants as arrives;
ghost use Rattle.run_semantics.specs.Routes.{delivery_at};
ghost use Rattle.run_semantics.specs.Event.{message_by, message_of};
ghost use Rattle.run_semantics.specs.Upcoming.{arrival};

use event_set::pending::{Delivery, Happening, Pending};
use model_injections::injection::Injection;
use module_api::message::{Message, Origin, Outgoing};
use run_semantics::routes::PlacedGate;
use sim_values::text::Text;
use std::alloc::{AllocError, Global};

/// The event that an injection becomes, of the module of that id.
pub fn arrival(injection: Injection, id: u32) -> Pending
    ensures { result ≡ arrival injection id }
{
    let Injection {
        number: _,
        path: _,
        due,
        kind,
        bits,
        payload,
    } = injection;
    Pending {
        time: due.time,
        priority: due.priority,
        number: 0,
        id,
        what: Happening::Arrival(kind, bits, payload),
    }
}

/// A message as it is known at the gate at which it arrives.
pub fn delivery_at(
    alloc: Global,
    gate: &PlacedGate,
    message: &Outgoing,
) -> Result<Delivery, AllocError>
    ensures { IfOk result
        (λ delivery. arrives.Delivery delivery ≡ delivery_at gate.now message.now) }
{
    let payload = message.payload.copy(alloc)?;
    let name = gate.name.copy(alloc)?;
    Ok(Delivery {
        kind: message.kind,
        bits: message.bits,
        payload,
        gate: name,
        index: gate.index,
    })
}

/// The message that arrives.
pub fn message_of(alloc: Global, event: Pending) -> Message
    ensures { result ≡ message_of event }
{
    let Pending {
        time: _,
        priority,
        number: _,
        id: _,
        what,
    } = event;
    match what {
        Happening::Timer(timer, kind) => Message {
            kind,
            priority,
            bits: 0,
            payload: Text::empty(alloc),
            origin: Origin::Timer(timer),
        },
        Happening::Arrival(kind, bits, payload) => Message {
            kind,
            priority,
            bits,
            payload,
            origin: Origin::Outside,
        },
        Happening::Delivery(delivery) => delivered(delivery, priority),
        // A start has no message.
        Happening::Start(_) => Message {
            kind: 0,
            priority,
            bits: 0,
            payload: Text::empty(alloc),
            origin: Origin::Outside,
        },
    }
}

/// The message of a module that arrives at a gate.
fn delivered(delivery: Delivery, priority: i16) -> Message
    ensures { result ≡ message_by priority (arrives.Delivery delivery) }
{
    let Delivery {
        kind,
        bits,
        payload,
        gate,
        index,
    } = delivery;
    Message {
        kind,
        priority,
        bits,
        payload,
        origin: Origin::Gate(gate, index),
    }
}
