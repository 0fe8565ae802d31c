//! Gates that have to be connected.
//! See OMNeT++ Simulation Manual, "Connections".

ghost use Rattle.std.specs.Prelude.{◌≡◌, ◌<◌, IfOk, length, slice_get};
ghost use Rattle.std.specs.Option.{option_copied};
ghost use Rattle.inside_keys.specs.Inside.{gates_in};
ghost use Rattle.inside_keys.specs.Unconnected as unconnected;

use crate::found::Inside;
use inside_parts::gates::{TypeGate, TypeGates, loosened};
use inside_parts::names::Names;
use inside_parts::parts::Part;
use inside_wiring::wiring::{Role, Wiring};
use ned_trees::declarations::{GateDirection, Submodule, TypeDeclaration};
use sim_values::NoMemory;
use std::alloc::Global;

/// Whether a gate lacks what a role needs.
fn is_lacking(wiring: &Wiring, role: Role, vector: usize, index: u32) -> bool
    ensures { result ≡ unconnected.is_lacking wiring.now.links role (vector, index) }
{
    match role {
        Role::Source => wiring.link_from(vector, index).is_none(),
        Role::Target => wiring.link_to(vector, index).is_none(),
        Role::Both => {
            wiring.link_from(vector, index).is_none() || wiring.link_to(vector, index).is_none()
        }
    }
}

/// The first index of a gate vector that isn't connected, else its size.
fn first_lacking(wiring: &Wiring, role: Role, vector: usize) -> u32
    requires { vector < length wiring.now.sizes }
    ensures { result ≡ unconnected.first_lacking wiring.now role vector }
{
    let size = wiring.size(vector);
    for index in 0..size {
        if is_lacking(wiring, role, vector, index) {
            return index;
        }
    }
    size
}

/// Whether a gate of a vector isn't connected. A vector that isn't there has none.
fn lacks_one(wiring: &Wiring, role: Role, vector: usize) -> bool
    ensures { result ≡ unconnected.lacks_one wiring.now role vector }
{
    if vector < wiring.count() {
        first_lacking(wiring, role, vector) < wiring.size(vector)
    } else {
        false
    }
}

/// What has to be connected of a gate.
fn needed(is_own: bool, direction: GateDirection) -> Role
    ensures { result ≡ unconnected.needed is_own direction }
{
    match (is_own, direction) {
        (false, GateDirection::Input) | (true, GateDirection::Output) => Role::Target,
        (false, GateDirection::Output) | (true, GateDirection::Input) => Role::Source,
        (_, GateDirection::Inout) => Role::Both,
    }
}

fn may_stay_free(loose: &Names, gate: &TypeGate) -> bool
    ensures { result ≡ unconnected.may_stay_free loose.now gate.now }
{
    gate.kind.is_loose || loose.position(&gate.name).is_some()
}

/// Whether a gate lacks a connection, which has that vector.
fn gate_lacks(wiring: &Wiring, is_own: bool, loose: &Names, vector: usize, gate: &TypeGate) -> bool
    ensures { result ≡ unconnected.gate_lacks wiring.now is_own loose.now vector gate.now }
{
    if may_stay_free(loose, gate) {
        return false;
    }
    lacks_one(wiring, needed(is_own, gate.kind.direction), vector)
}

/// Whether one of these gates does, whose vectors follow one another from that one on.
fn one_lacks(wiring: &Wiring, is_own: bool, loose: &Names, first: usize, gates: &[TypeGate]) -> bool
    ensures { result ≡ unconnected.one_lacks wiring.now is_own loose.now first gates.now }
{
    let mut vector = first;
    for gate in gates {
        if vector >= wiring.count() {
            return false;
        }
        if gate_lacks(wiring, is_own, loose, vector, gate) {
            return true;
        }
        vector += 1;
    }
    false
}

/// The declaration of that number.
fn line_at(submodules: &[Submodule], line: usize) -> Option<&Submodule>
    ensures { option_copied result ≡ slice_get submodules.now line }
{
    submodules.get(line)
}

/// The gates that the body of a submodule lets stay free.
fn loosened_in(alloc: Global, submodule: Option<&Submodule>) -> Result<Names, NoMemory>
    ensures { IfOk result
        (λ names. names ≡ unconnected.loosened_in (option_copied submodule.entry)) }
{
    match submodule {
        Some(submodule) => loosened(alloc, submodule.body.gates.as_slice()),
        None => Ok(Names::new(alloc)),
    }
}

/// The same of a part; the module itself has no body here.
fn loosened_of(alloc: Global, submodules: &[Submodule], part: Part) -> Result<Names, NoMemory>
    ensures { IfOk result (λ names. names ≡ unconnected.loosened_of submodules.now part) }
{
    if part.is_own {
        return Ok(Names::new(alloc));
    }
    loosened_in(alloc, line_at(submodules, part.line))
}

/// Whether a gate of a part lacks a connection.
fn part_lacks(
    alloc: Global,
    declared: &TypeDeclaration,
    gates: &[TypeGates],
    wiring: &Wiring,
    part: Part,
) -> Result<bool, NoMemory>
    ensures { IfOk result
        (λ lacks. lacks ≡ unconnected.part_lacks declared.now gates.now wiring.now part) }
{
    let loose = loosened_of(alloc, declared.submodules.as_slice(), part)?;
    let gates = gates_of(gates, part.of_type);
    Ok(one_lacks(wiring, part.is_own, &loose, part.first, gates))
}

/// The gates of the type of that number, if there is one.
fn gates_at(gates: &[TypeGates], number: usize) -> Option<&TypeGates>
    ensures { option_copied result ≡ slice_get gates.now number }
{
    gates.get(number)
}

/// The gates of the type of that number.
fn gates_of(gates: &[TypeGates], number: usize) -> &[TypeGate]
    ensures { result.now ≡ gates_in (slice_get gates.now number) }
{
    match gates_at(gates, number) {
        Some(found) => found.gates.as_slice(),
        None => &[],
    }
}

/// The number of the first of these parts of which a gate lacks a connection; the first of them has
/// the number 1.
fn lacking_from(
    alloc: Global,
    declared: &TypeDeclaration,
    gates: &[TypeGates],
    wiring: &Wiring,
    parts: &[Part],
) -> Result<Option<usize>, NoMemory>
    ensures { IfOk result
        (λ found. found ≡ unconnected.lacking_from declared.now gates.now wiring.now 1 parts.now) }
{
    for (place, part) in parts.iter().enumerate() {
        if part_lacks(alloc, declared, gates, wiring, *part)? {
            return Ok(Some(place + 1));
        }
    }
    Ok(None)
}

/// The same of the module itself, and before it of its submodules.
fn lacking_in(
    alloc: Global,
    declared: &TypeDeclaration,
    gates: &[TypeGates],
    wiring: &Wiring,
    parts: &[Part],
) -> Result<Option<usize>, NoMemory>
    ensures { IfOk result
        (λ found. found ≡ unconnected.lacking_in declared.now gates.now wiring.now parts.now) }
{
    let Some((own, rest)) = parts.split_first() else {
        return Ok(None);
    };
    if let Some(number) = lacking_from(alloc, declared, gates, wiring, rest)? {
        return Ok(Some(number));
    }
    if part_lacks(alloc, declared, gates, wiring, *own)? {
        return Ok(Some(0));
    }
    Ok(None)
}

/// The number of the first part with a gate that has to be connected and isn't, in the inside of a
/// module of that type, where the types have these gates.
pub fn unconnected(
    alloc: Global,
    declared: &TypeDeclaration,
    gates: &[TypeGates],
    inside: &Inside,
) -> Result<Option<usize>, NoMemory>
    ensures { IfOk result
        (λ found. found ≡ unconnected.unconnected declared.now gates.now inside.now) }
{
    if declared.connections.allow_unconnected {
        return Ok(None);
    }
    lacking_in(
        alloc,
        declared,
        gates,
        inside.wiring.get(),
        inside.parts.parts.as_slice(),
    )
}
