//! The gates of a flat type.

ghost use Rattle.std.specs.Prelude.{◌≡◌, IfOk, OnOk};
ghost use Rattle.inside_parts.specs.Gates.{gate_by, gates_from, gates_of, loosened, loosened_by};
ghost use Rattle.inside_parts.specs.Gates.{loosened_from, no_gates, with_gate, with_line};
ghost use Rattle.ned_types.specs.Types.{is_vector};

use crate::names::Names;
use ned_trees::declarations::{GateDeclaration, GateDirection, GateLine, GateSize};
use sim_values::NoMemory;
use sim_values::text::Text;
use sqlite_items::Items;
use std::alloc::Global;

/// What a flat type says of a gate beside its name.
#[derive(Clone, Copy)]
pub struct GateKind {
    pub direction: GateDirection,
    /// It is a vector of gates, whatever its size; or else a single one.
    pub is_vector: bool,
    /// It may stay unconnected: one of the lines about it says `@loose` or `@directIn`.
    pub is_loose: bool,
}

/// A gate of a flat type: a single one, or a vector.
#[derive(Drop)]
pub struct TypeGate {
    pub name: Text,
    pub kind: GateKind,
}

/// The gates of a flat type, in the order of their declaration, each found by its name at once.
#[derive(Drop)]
pub struct TypeGates {
    pub names: Names,
    pub gates: Items<TypeGate>,
}

/// Whether it is a vector, whatever its size.
fn is_vector(size: &GateSize) -> bool
    ensures { result ≡ is_vector size.now }
{
    match size {
        GateSize::Single => false,
        GateSize::Open | GateSize::Sized(_) => true,
    }
}

/// Adds the name of a line that says that its gate may stay unconnected.
fn add_loosened(alloc: Global, names: &mut Names, line: &GateLine) -> Result<(), NoMemory>
    ensures { OnOk result (names.new ≡ loosened_by line.now names.old) }
{
    let (name, loose) = match line {
        GateLine::Declaration(gate) => (&gate.name, gate.loose),
        GateLine::Refinement(gate) => (&gate.name, gate.loose),
    };
    if loose {
        names.push(name.copy(alloc)?)?;
    }
    Ok(())
}

/// Adds the names of the gates of which some line says that they may stay unconnected.
fn add_all_loosened(alloc: Global, names: &mut Names, lines: &[GateLine]) -> Result<(), NoMemory>
    ensures { OnOk result (names.new ≡ loosened_from lines.now names.old) }
{
    for line in lines {
        add_loosened(alloc, names, line)?;
    }
    Ok(())
}

/// The names of the gates of which some line says that they may stay unconnected.
pub fn loosened(alloc: Global, lines: &[GateLine]) -> Result<Names, NoMemory>
    ensures { IfOk result (λ names. names ≡ loosened lines.now) }
{
    let mut names = Names::new(alloc);
    add_all_loosened(alloc, &mut names, lines)?;
    Ok(names)
}

/// The gate that is declared so, where those of these names may stay unconnected.
fn gate_by(alloc: Global, loose: &Names, gate: &GateDeclaration) -> Result<TypeGate, NoMemory>
    ensures { IfOk result (λ found. found ≡ gate_by loose.now gate.now) }
{
    let kind = GateKind {
        direction: gate.direction,
        is_vector: is_vector(&gate.size),
        is_loose: loose.position(&gate.name).is_some(),
    };
    Ok(TypeGate {
        name: gate.name.copy(alloc)?,
        kind,
    })
}

/// One gate more, unless there is one of its name.
fn with_gate(
    alloc: Global,
    loose: &Names,
    gate: &GateDeclaration,
    gates: TypeGates,
) -> Result<TypeGates, NoMemory>
    ensures { IfOk result (λ found. found ≡ with_gate loose.now gate.now gates) }
{
    let TypeGates {
        mut names,
        mut gates,
    } = gates;
    if names.push(gate.name.copy(alloc)?)? {
        gates.push(gate_by(alloc, loose, gate)?)?;
    }
    Ok(TypeGates { names, gates })
}

/// The gate of a line that declares one, after the others.
fn with_line(
    alloc: Global,
    loose: &Names,
    line: &GateLine,
    gates: TypeGates,
) -> Result<TypeGates, NoMemory>
    ensures { IfOk result (λ found. found ≡ with_line loose.now line.now gates) }
{
    match line {
        GateLine::Declaration(gate) => with_gate(alloc, loose, gate, gates),
        GateLine::Refinement(_) => Ok(gates),
    }
}

/// No gates.
fn no_gates(alloc: Global) -> TypeGates
    ensures { result ≡ no_gates }
{
    TypeGates {
        names: Names::new(alloc),
        gates: Items::new(alloc),
    }
}

/// The gates that these lines declare, where those of these names may stay unconnected.
fn gates_by(alloc: Global, loose: &Names, lines: &[GateLine]) -> Result<TypeGates, NoMemory>
    ensures { IfOk result (λ found. found ≡ gates_from loose.now lines.now no_gates) }
{
    let mut gates = no_gates(alloc);
    for line in lines {
        gates = with_line(alloc, loose, line, gates)?;
    }
    Ok(gates)
}

/// The gates of a flat type with these lines.
pub fn gates_of(alloc: Global, lines: &[GateLine]) -> Result<TypeGates, NoMemory>
    ensures { IfOk result (λ found. found ≡ gates_of lines.now) }
{
    let loose = loosened(alloc, lines)?;
    gates_by(alloc, &loose, lines)
}
