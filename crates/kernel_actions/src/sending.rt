//! Messages that are sent over hops which are known.

ghost use Rattle.std.specs.Prelude.{◌≡◌, ◌+◌, ◌^◌, ◌<◌, nat_lt, if◌then◌else◌, IfOk, OnOk};
ghost use Rattle.channels.specs.Travel.{transmissions};
ghost use Rattle.run_semantics.specs.declared.outcome.RunFault.TheVariants as faults;
ghost use Rattle.run_semantics.specs.Perform.{broken, flow_of, completed, flight_end, sent_over};
ghost use Rattle.kernel_actions.specs.Positions.{IsGrownFrom};

use crate::core_part::Core;
use channels::travels::Travel;
use channels::{transmissions, travel};
use model_questions::answer::Channel;
use module_api::message::Outgoing;
use module_api::reply::Flight;
use run_semantics::outcome::{EventFlow, RunFault, fault_on_way};
use run_semantics::routes::{PassedHop, PlacedGate, busy_of, channels_of, transmission_gate};
use sim_time::SimTime;
use sim_values::NoMemory;
use std::alloc::Global;

/// When a message that goes directly to a gate is there.
pub fn flight_end(now: SimTime, flight: &Flight) -> Option<SimTime>
    ensures { result ≡ flight_end now flight.now }
{
    let start = now.checked_add(flight.delay).ok()?;
    start.checked_add(flight.duration).ok()
}

/// Does what becomes of a message on its way, where its transmission began at that gate.
fn complete(
    core: &mut Core,
    alloc: Global,
    message: &Outgoing,
    from: &Option<PlacedGate>,
    end: &PlacedGate,
    found: &Travel,
) -> Result<(), NoMemory>
    requires { core.old.next + 1 < 2 ^ 128 }
    ensures done { OnOk result (core.new
        ≡ completed message.now from.now end.now core.old found.now) }
    ensures grown { IsGrownFrom core.old core.new }
{
    match found {
        Travel::Arrival(time, until) => {
            core.transmit(alloc, from, until)?;
            core.arrive(alloc, end, message, *time)
        }
        Travel::Lost(until) => core.transmit(alloc, from, until),
    }
}

/// The fault of a message whose departure is no time.
fn depart_late(
    core: &Core,
    alloc: Global,
    id: u32,
    channels: &[Channel],
) -> Result<EventFlow, NoMemory>
    ensures { IfOk result (λ turn. flow_of turn core.now
        ≡ broken id (if nat_lt 1 (transmissions channels.now) then faults.TwoTransmissionChannels
        else faults.TimeOverflow) core.now) }
{
    if transmissions(channels) > 1 {
        return core.broken(alloc, id, RunFault::TwoTransmissionChannels);
    }
    core.broken(alloc, id, RunFault::TimeOverflow)
}

/// Sends a message of the module of that id over these hops, to the gate at their end.
pub fn send_over(
    core: &mut Core,
    alloc: Global,
    id: u32,
    message: &Outgoing,
    departure: &Option<SimTime>,
    hops: &[PassedHop],
    end: &PlacedGate,
) -> Result<EventFlow, NoMemory>
    requires { core.old.next + 1 < 2 ^ 128 }
    ensures flow { IfOk result (λ turn. flow_of turn core.new
        ≡ sent_over id message.now departure.now hops.now end.now core.old) }
    ensures grown { IsGrownFrom core.old core.new }
{
    let channels = channels_of(alloc, hops)?;
    let Some(departure) = departure else {
        return depart_late(core, alloc, id, channels.as_slice());
    };
    let from = transmission_gate(alloc, hops)?;
    let busy = busy_of(&from, core.transmissions());
    match travel(channels.as_slice(), *departure, message.bits, busy) {
        Ok(found) => {
            complete(core, alloc, message, &from, end, &found)?;
            Ok(EventFlow::GoOn)
        }
        Err(fault) => core.broken(alloc, id, fault_on_way(fault)),
    }
}
