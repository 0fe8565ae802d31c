//! Gates that modules join and free: what is connected to them by the model is asked of it.

ghost use Rattle.std.specs.Prelude.{◌≡◌, IfOk};
ghost use Rattle.model_questions.specs.declared.answer.Question.TheVariants.{GateSize, HopBack};
ghost use Rattle.run_semantics.specs.Joining.{channel_by, connected, disconnected, freed};
ghost use Rattle.run_semantics.specs.Joining.{freed_from, gate_at, joined, joined_free, joined_from};
ghost use Rattle.run_semantics.specs.Perform.{asking, flow_of, next_hop};
ghost use Rattle.kernel_actions.specs.Positions.{IsGrownFrom};

use crate::sending::{can_enter, can_leave, is_taken, next_hop};
use kernel_actions::core_part::Core;
use model_questions::answer::{Channel, ChannelKind};
use module_api::reply::{GatePlace, Link};
use run_answers::Answers;
use run_semantics::outcome::{EventFlow, RunFault};
use run_semantics::routes::{NextHop, PlacedGate};
use sim_time::SimTime;
use sim_values::NoMemory;
use std::alloc::{AllocError, Global};

/// The channel of a connection: none is an ideal one.
fn channel_by(link: &Option<Link>) -> Channel
    ensures { result ≡ channel_by link.now }
{
    match link {
        Some(link) => Channel {
            kind: ChannelKind::Datarate,
            delay: link.delay,
            datarate: link.datarate,
            disabled: false,
        },
        None => Channel {
            kind: ChannelKind::Ideal,
            delay: SimTime::zero(),
            datarate: 0,
            disabled: false,
        },
    }
}

/// That gate of the module of that id.
fn gate_at(alloc: Global, id: u32, place: &GatePlace) -> Result<PlacedGate, AllocError>
    ensures { IfOk result (λ gate. gate ≡ gate_at id place.now) }
{
    Ok(PlacedGate {
        id,
        name: place.name.text(alloc)?,
        index: place.index,
    })
}

/// Joins an output gate that leads nowhere to an input gate, if nothing is connected to that from
/// outside. The module of that id does it.
fn join_free<A: Answers>(
    core: &mut Core,
    alloc: Global,
    model: &mut A,
    id: u32,
    from: PlacedGate,
    to: PlacedGate,
    link: &Option<Link>,
) -> Result<EventFlow, NoMemory>
    ensures flow { IfOk result (λ turn. flow_of turn core.new
        ≡ asking A.answers (HopBack to.id to.name to.index) (joined id from to link.now) core.old) }
    ensures grown { IsGrownFrom core.old core.new }
{
    let taken = is_taken(core, alloc, model, &to)?;
    if taken {
        return core.broken(alloc, id, RunFault::AlreadyConnected);
    }
    let channel = channel_by(link);
    core.change_gate(alloc, from, Some(NextHop { to, channel }))?;
    Ok(EventFlow::GoOn)
}

/// Joins an output gate to an input gate, where both are free.
fn join_gates<A: Answers>(
    core: &mut Core,
    alloc: Global,
    model: &mut A,
    id: u32,
    from: PlacedGate,
    to: PlacedGate,
    link: &Option<Link>,
) -> Result<EventFlow, NoMemory>
    ensures flow { IfOk result (λ turn. flow_of turn core.new
        ≡ next_hop A.answers from (joined_free A.answers id from to link.now) core.old) }
    ensures grown { IsGrownFrom core.old core.new }
{
    match next_hop(core, alloc, model, &from)? {
        Some(_) => core.broken(alloc, id, RunFault::AlreadyConnected),
        None => join_free(core, alloc, model, id, from, to, link),
    }
}

/// Joins a gate of the module `source` to one of the module `target`.
fn join_at<A: Answers>(
    core: &mut Core,
    alloc: Global,
    model: &mut A,
    id: u32,
    source: u32,
    from: &GatePlace,
    target: u32,
    to: &GatePlace,
    link: &Option<Link>,
) -> Result<EventFlow, NoMemory>
    ensures flow { IfOk result (λ turn. flow_of turn core.new
        ≡ asking A.answers (GateSize source from.now.name)
        (joined_from A.answers id (gate_at source from.now) (gate_at target to.now) link.now)
        core.old) }
    ensures grown { IsGrownFrom core.old core.new }
{
    let leaves = can_leave(core, alloc, model, source, &from.name, from.index)?;
    if !leaves {
        return core.broken(alloc, id, RunFault::NoGate);
    }
    let enters = can_enter(core, alloc, model, target, &to.name, to.index)?;
    if !enters {
        return core.broken(alloc, id, RunFault::NoGate);
    }
    let from = gate_at(alloc, source, from)?;
    let to = gate_at(alloc, target, to)?;
    join_gates(core, alloc, model, id, from, to, link)
}

/// Joins an output gate to an input gate, over a channel or none. The module of that id does it.
pub fn connect<A: Answers>(
    core: &mut Core,
    alloc: Global,
    model: &mut A,
    id: u32,
    from: &GatePlace,
    to: &GatePlace,
    link: &Option<Link>,
) -> Result<EventFlow, NoMemory>
    ensures flow { IfOk result (λ turn. flow_of turn core.new
        ≡ connected A.answers id from.now to.now link.now core.old) }
    ensures grown { IsGrownFrom core.old core.new }
{
    let Some(source) = core.module_at(&from.path) else {
        return core.broken(alloc, id, RunFault::NoModule);
    };
    let Some(target) = core.module_at(&to.path) else {
        return core.broken(alloc, id, RunFault::NoModule);
    };
    join_at(core, alloc, model, id, source, from, target, to, link)
}

/// Frees an output gate, where it leads anywhere.
fn free_gate<A: Answers>(
    core: &mut Core,
    alloc: Global,
    model: &mut A,
    id: u32,
    gate: PlacedGate,
) -> Result<EventFlow, NoMemory>
    ensures flow { IfOk result (λ turn. flow_of turn core.new
        ≡ next_hop A.answers gate (freed id gate) core.old) }
    ensures grown { IsGrownFrom core.old core.new }
{
    match next_hop(core, alloc, model, &gate)? {
        Some(_) => {
            core.change_gate(alloc, gate, None)?;
            Ok(EventFlow::GoOn)
        }
        None => core.broken(alloc, id, RunFault::NotConnected),
    }
}

/// Frees an output gate of the module `source`.
fn free_at<A: Answers>(
    core: &mut Core,
    alloc: Global,
    model: &mut A,
    id: u32,
    source: u32,
    place: &GatePlace,
) -> Result<EventFlow, NoMemory>
    ensures flow { IfOk result (λ turn. flow_of turn core.new
        ≡ asking A.answers (GateSize source place.now.name)
        (freed_from A.answers id (gate_at source place.now)) core.old) }
    ensures grown { IsGrownFrom core.old core.new }
{
    let leaves = can_leave(core, alloc, model, source, &place.name, place.index)?;
    if !leaves {
        return core.broken(alloc, id, RunFault::NoGate);
    }
    let gate = gate_at(alloc, source, place)?;
    free_gate(core, alloc, model, id, gate)
}

/// Frees an output gate, and forgets its channel. The module of that id does it.
pub fn disconnect<A: Answers>(
    core: &mut Core,
    alloc: Global,
    model: &mut A,
    id: u32,
    place: &GatePlace,
) -> Result<EventFlow, NoMemory>
    ensures flow { IfOk result (λ turn. flow_of turn core.new
        ≡ disconnected A.answers id place.now core.old) }
    ensures grown { IsGrownFrom core.old core.new }
{
    let Some(source) = core.module_at(&place.path) else {
        return core.broken(alloc, id, RunFault::NoModule);
    };
    free_at(core, alloc, model, id, source, place)
}
