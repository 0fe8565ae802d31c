//! Gates that modules joined and freed: where they lead now.

ghost use Rattle.std.specs.Prelude.{◌≡◌, ◌&&◌, IfOk};
ghost use Rattle.std.specs.Option.{option_map};
ghost use Rattle.run_semantics.specs.Routes.{change_of, if_live, is_joined, is_taken, joins};
ghost use Rattle.run_semantics.specs.Routes.{leads_to, still_leads};
ghost use Rattle.run_semantics.specs.World.{is_live};

use crate::core_part::Core;
use model_questions::answer::Answer;
use run_semantics::routes::{GateChange, NextHop, PlacedGate, change_of, joins, leads_to};
use sim_values::NoMemory;
use std::alloc::Global;

/// A hop, where it leads to a module that lives.
pub fn if_live(core: &Core, hop: Option<NextHop>) -> Option<NextHop>
    ensures { result ≡ if_live core.now hop }
{
    match hop {
        Some(hop) if core.is_live(hop.to.id) => Some(hop),
        _ => None,
    }
}

/// Where a gate leads by its last change, where it was changed.
pub fn changed_hop(
    core: &Core,
    alloc: Global,
    gate: &PlacedGate,
) -> Result<Option<Option<NextHop>>, NoMemory>
    ensures { IfOk result (λ found. found
        ≡ option_map (λ c. if_live core.now c.to) (change_of gate.now core.now.changes)) }
{
    match change_of(gate, core.changes()) {
        Some(change) => match &change.to {
            Some(hop) => Ok(Some(if_live(core, Some(hop.copy(alloc)?)))),
            None => Ok(Some(None)),
        },
        None => Ok(None),
    }
}

/// Whether that change joined a gate of a module that lives to that one, which leads there still.
fn is_joined_by(core: &Core, gate: &PlacedGate, change: &GateChange) -> bool
    ensures { result ≡ (leads_to gate.now change.now.to && (is_live core.now change.now.gate.id
        && joins gate.now (change_of change.now.gate core.now.changes))) }
{
    leads_to(gate, &change.to)
        && (core.is_live(change.gate.id) && joins(gate, &change.gate, core.changes()))
}

/// Whether a gate of a module that lives was joined to that one, and leads there still.
fn is_joined(core: &Core, gate: &PlacedGate) -> bool
    ensures { result ≡ is_joined gate.now core.now }
{
    let changes = core.changes();
    for change in changes {
        if is_joined_by(core, gate, change) {
            return true;
        }
    }
    false
}

/// Whether the connection that leads to a gate by the model counts still, where there is one.
fn still_leads(core: &Core, hop: &Option<NextHop>) -> bool
    ensures { result ≡ still_leads core.now hop.now }
{
    match hop {
        Some(hop) => core.is_live(hop.to.id) && change_of(&hop.to, core.changes()).is_none(),
        None => false,
    }
}

/// Whether something is connected to an input gate from outside, by what was answered of it.
pub fn is_taken(core: &Core, gate: &PlacedGate, answer: Answer) -> bool
    ensures { result ≡ is_taken gate.now answer core.now }
{
    is_joined(core, gate) || still_leads(core, &core.hop_by(gate.id, answer))
}
