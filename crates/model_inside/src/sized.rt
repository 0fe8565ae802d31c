//! A module among the parts of an inside, and the sizes of its gates there.

ghost use Rattle.std.specs.Prelude.{◌≡◌, ◌<◌, IfOk, IfSome, length};
ghost use Rattle.model_inside.specs.Sized.{direction_of, finished_size, vector_of};

use inside_parts::fault::InsideError;
use inside_parts::gates::TypeGates;
use inside_parts::parts::{NamedGate, Parts};
use inside_wiring::ends::gate_named;
use inside_wiring::wiring::Wiring;
use module_api::call::Direction;
use ned_trees::declarations::GateDirection;
use sim_values::NoMemory;
use sim_values::text::Text;

/// The gate vector of that name of a part, where the types have these gates.
pub fn vector_of(
    gates: &[TypeGates],
    parts: &Parts,
    wiring: &Wiring,
    part: usize,
    name: &Text,
) -> Result<Option<NamedGate>, NoMemory>
    ensures value { IfOk result
        (λ found. found ≡ vector_of gates.now parts.now wiring.now part name.now) }
    ensures within { IfOk result (λ found. IfSome found (λ v. v.vector < length wiring.now.sizes)) }
{
    let count = wiring.count();
    match gate_named(gates, parts, count, part, name) {
        Ok(found) => Ok(Some(found)),
        Err(InsideError::Fault(_)) => Ok(None),
        Err(InsideError::Memory(error)) => Err(error),
    }
}

/// The finished size of a gate vector of a part.
pub fn finished_size(
    gates: &[TypeGates],
    parts: &Parts,
    wiring: &Wiring,
    part: usize,
    name: &Text,
) -> Result<Option<u32>, NoMemory>
    ensures { IfOk result
        (λ size. size ≡ finished_size gates.now parts.now wiring.now part name.now) }
{
    match vector_of(gates, parts, wiring, part, name)? {
        Some(found) => Ok(Some(wiring.size(found.vector))),
        None => Ok(None),
    }
}

/// The direction of a gate, as a call shows it.
pub fn direction_of(direction: GateDirection) -> Direction
    ensures { result ≡ direction_of direction }
{
    match direction {
        GateDirection::Input => Direction::Input,
        GateDirection::Output => Direction::Output,
        GateDirection::Inout => Direction::Inout,
    }
}
