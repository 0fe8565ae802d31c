//! The gates of modules, and where these lead.

ghost use Rattle.std.specs.Prelude.{◌≡◌, ◌++◌, IfOk, OnOk, Some, slice_get};
ghost use Rattle.std.specs.Option.{option_copied};
ghost use Rattle.std.specs.Result.{result_ok};
ghost use Rattle.param_engine.specs.Tables.{IsKept};
ghost use Rattle.inside_keys.specs.Asked.{sized_by};
ghost use Rattle.inside_keys.specs.Settings.{declarer};
ghost use Rattle.inside_parts.specs.Gates as own_gates;
ghost use Rattle.inside_keys.specs.Values.{rules_of};
ghost use Rattle.model_answers.specs.Insides as insides;
ghost use Rattle.model_answers.specs.Keyed as keyed;
ghost use Rattle.model_answers.specs.Reading.{maybe_copied, maybe_seat, settings_of, IsRight};

use crate::keyed::{Typed, type_of};
use crate::reading::{Sources, own_table, said, value_of};
use crate::seats::{PartAt, declarer_of, inside_in, seat_of, seek};
use inside_keys::found::{Found, Inside};
use inside_keys::key::{Key, Module, What};
use inside_parts::fault::InsideError;
use inside_parts::gates::{TypeGate, TypeGates};
use inside_run::scene::ModuleSource;
use inside_walk::submodules::size;
use model_inside::hops::{Seen, Way, half_named, is_outwards, next_in};
use model_inside::sized::{direction_of, finished_size};
use model_questions::answer::{Answer, NextGate};
use module_api::call::Gate;
use ned_trees::connections::Half;
use ned_trees::declarations::TypeDeclaration;
use param_engine::table::Table;
use sim_values::NoMemory;
use sim_values::model_fault::ModelFault;
use sim_values::text::Text;
use sim_values::value::Value;
use sqlite_items::Items;
use std::alloc::Global;

// ---- sizes

/// The size that a value is, where it is one.
fn told_size(value: &Value) -> Result<Option<u32>, NoMemory>
    ensures { IfOk result (λ found. found ≡ result_ok (sized_by value.now)) }
{
    match size(value) {
        Ok(size) => Ok(Some(size)),
        Err(InsideError::Fault(_)) => Ok(None),
        Err(InsideError::Memory(error)) => Err(error),
    }
}

/// The size that was found, if one was.
fn size_in(found: Option<Result<&Found, ModelFault>>) -> Result<Option<u32>, NoMemory>
    ensures { IfOk result (λ size. size ≡ insides.maybe_size (maybe_copied found.entry)) }
{
    match found {
        Some(Ok(Found::Value(value))) => told_size(value),
        Some(Ok(Found::Carrier(_))) | Some(Ok(Found::Inside(_))) => Ok(None),
        Some(Err(_)) | None => Ok(None),
    }
}

/// The declared size of a gate vector of a module.
fn declared_size(
    alloc: Global,
    from: Sources<'_>,
    own: &mut Table<Key, Found>,
    site: &Module,
    name: &Text,
) -> Result<Option<u32>, NoMemory>
    requires right { IsRight from }
    requires own { IsKept (rules_of (settings_of from)) own.old.entries }
    ensures size { IfOk result
        (λ size. size ≡ insides.declared_size (settings_of from.entry) site.now name.now) }
    ensures kept { IsKept (rules_of (settings_of from.entry)) own.new.entries }
{
    let what = What::Declared(name.copy(alloc)?);
    let found = value_of(alloc, from, own, site, what)?;
    size_in(said(from, own, found))
}

/// The finished size of a gate vector of a module that stands there.
fn seated_size(
    from: Sources<'_>,
    seat: Option<PartAt<'_>>,
    name: &Text,
) -> Result<Option<u32>, NoMemory>
    ensures { IfOk result (λ size. size
        ≡ insides.seated_size (settings_of from.entry) (maybe_seat seat.entry) name.now) }
{
    match seat {
        Some(seat) => finished_size(
            from.setting.gates(),
            &seat.inside.parts,
            seat.inside.wiring.get(),
            seat.part,
            name,
        ),
        None => Ok(None),
    }
}

// ---- gates

/// Adds a gate, where it has a size.
fn push_gate(
    gates: &mut Items<Gate>,
    alloc: Global,
    gate: &TypeGate,
    size: Option<u32>,
) -> Result<(), NoMemory>
    ensures { OnOk result (gates.new ≡ gates.old ++ insides.with_size gate.now size) }
{
    let Some(size) = size else {
        return Ok(());
    };
    gates.push(Gate {
        name: gate.name.copy(alloc)?,
        direction: direction_of(gate.kind.direction),
        size,
    })?;
    Ok(())
}

/// Adds a gate of a module that stands there.
fn push_seated(
    gates: &mut Items<Gate>,
    alloc: Global,
    from: Sources<'_>,
    seat: Option<PartAt<'_>>,
    gate: &TypeGate,
) -> Result<(), NoMemory>
    ensures { OnOk result (gates.new ≡ gates.old ++ insides.with_size gate.now
        (insides.size_of (insides.seated_size (settings_of from.entry) (maybe_seat seat.entry))
        gate.now)) }
{
    if !gate.kind.is_vector {
        return push_gate(gates, alloc, gate, Some(1));
    }
    let size = seated_size(from, seat, &gate.name)?;
    push_gate(gates, alloc, gate, size)
}

/// Adds these gates of a module that stands there.
fn push_all_seated(
    gates: &mut Items<Gate>,
    alloc: Global,
    from: Sources<'_>,
    seat: Option<PartAt<'_>>,
    of_type: &[TypeGate],
) -> Result<(), NoMemory>
    ensures { OnOk result (gates.new ≡ gates.old ++ insides.sized_gates
        (insides.seated_size (settings_of from.entry) (maybe_seat seat.entry)) of_type.now) }
{
    for gate in of_type {
        push_seated(gates, alloc, from, seat, gate)?;
    }
    Ok(())
}

/// Adds a gate of a module around which the model connects nothing.
fn push_declared(
    gates: &mut Items<Gate>,
    alloc: Global,
    from: Sources<'_>,
    own: &mut Table<Key, Found>,
    site: &Module,
    gate: &TypeGate,
) -> Result<(), NoMemory>
    requires right { IsRight from }
    requires own { IsKept (rules_of (settings_of from)) own.old.entries }
    ensures pushed { OnOk result (gates.new ≡ gates.old ++ insides.with_size gate.now
        (insides.size_of (insides.declared_size (settings_of from.entry) site.now) gate.now)) }
    ensures kept { IsKept (rules_of (settings_of from.entry)) own.new.entries }
{
    if !gate.kind.is_vector {
        return push_gate(gates, alloc, gate, Some(1));
    }
    let size = declared_size(alloc, from, own, site, &gate.name)?;
    push_gate(gates, alloc, gate, size)
}

/// Adds these gates of a module around which the model connects nothing.
fn push_all_declared(
    gates: &mut Items<Gate>,
    alloc: Global,
    from: Sources<'_>,
    own: &mut Table<Key, Found>,
    site: &Module,
    of_type: &[TypeGate],
) -> Result<(), NoMemory>
    requires right { IsRight from }
    requires own { IsKept (rules_of (settings_of from)) own.old.entries }
    ensures { OnOk result (gates.new ≡ gates.old ++ insides.sized_gates
        (insides.declared_size (settings_of from.entry) site.now) of_type.now) }
{
    for gate in of_type {
        push_declared(gates, alloc, from, own, site, gate)?;
    }
    Ok(())
}

/// The gates of a type, of all types' gates.
fn gates_at<'a>(gates: &'a [TypeGates], of_type: Typed<'a>) -> &'a [TypeGate]
    requires { slice_get gates.now of_type.number
        ≡ Some (own_gates.gates_of of_type.declared.now.gates) }
    ensures { result.now ≡ insides.gates_of_type of_type.entry.declared.now }
{
    match gates.get(of_type.number) {
        Some(found) => found.gates.as_slice(),
        None => &[],
    }
}

/// These gates with the sizes that the connections leave them with, of the part where a module has its
/// seat.
fn all_seated(
    alloc: Global,
    from: Sources<'_>,
    seat: Option<PartAt<'_>>,
    of_type: &[TypeGate],
) -> Result<Items<Gate>, NoMemory>
    ensures { IfOk result (λ gates. gates ≡ insides.sized_gates
        (insides.seated_size (settings_of from.entry) (maybe_seat seat.entry)) of_type.now) }
{
    let mut gates = Items::new(alloc);
    push_all_seated(&mut gates, alloc, from, seat, of_type)?;
    Ok(gates)
}

/// The gates of a module with the sizes that the connections around it leave them with.
fn gates_seated(
    alloc: Global,
    from: Sources<'_>,
    own: &mut Table<Key, Found>,
    site: &Module,
    of_type: &[TypeGate],
) -> Result<Items<Gate>, NoMemory>
    requires right { IsRight from }
    requires own { IsKept (rules_of (settings_of from)) own.old.entries }
    ensures { IfOk result (λ gates. gates ≡ insides.sized_gates
        (insides.seated_size (settings_of from.entry)
        (insides.seat_of (settings_of from.entry) site.now)) of_type.now) }
{
    match seek(alloc, from, own, site)? {
        Some(sought) => {
            let seat = seat_of(from, own, &sought)?;
            let gates = all_seated(alloc, from, seat, of_type)?;
            Ok(gates)
        }
        None => {
            let gates = all_seated(alloc, from, None, of_type)?;
            Ok(gates)
        }
    }
}

/// All gates of a module that has these of its type.
#[tactic(auto, using(crate::proofs::NoGates::no_gates_in))]
fn gates_in(
    alloc: Global,
    from: Sources<'_>,
    own: &mut Table<Key, Found>,
    site: &Module,
    of_type: &[TypeGate],
) -> Result<Items<Gate>, NoMemory>
    requires right { IsRight from }
    requires own { IsKept (rules_of (settings_of from)) own.old.entries }
    ensures { IfOk result (λ gates. gates ≡ insides.gates_in (settings_of from.entry) site.now
        (declarer (settings_of from.entry) site.now) of_type.now) }
{
    if of_type.is_empty() {
        return Ok(Items::new(alloc));
    }
    let stands = from.setting.standing(alloc, site)?;
    if declarer_of(&stands).is_some() {
        return gates_seated(alloc, from, own, site, of_type);
    }
    let mut gates = Items::new(alloc);
    push_all_declared(&mut gates, alloc, from, own, site, of_type)?;
    Ok(gates)
}

/// All gates of a module, in the order of their declaration.
pub fn gates_answer(
    alloc: Global,
    from: Sources<'_>,
    site: &Module,
) -> Result<Items<Gate>, NoMemory>
    requires { IsRight from }
    ensures { IfOk result (λ gates. gates ≡ insides.gates_answer (settings_of from.entry) site.now
        (keyed.type_of (settings_of from.entry) site.now)) }
{
    let mut own = own_table(alloc, from);
    match type_of(alloc, from, &mut own, site)? {
        Some(of_type) => {
            let of_type = gates_at(from.setting.gates(), of_type);
            gates_in(alloc, from, &mut own, site, of_type)
        }
        None => Ok(Items::new(alloc)),
    }
}

// ---- hops

/// The next gate outwards, by the links of the module around.
fn next_outwards(
    alloc: Global,
    from: Sources<'_>,
    seat: Option<PartAt<'_>>,
    way: Way,
    gate: &Text,
    index: u32,
) -> Result<Option<NextGate>, NoMemory>
    ensures { IfOk result (λ next. next ≡ insides.next_outwards (settings_of from.entry) way
        gate.now index (maybe_seat seat.entry)) }
{
    let Some(seat) = seat else {
        return Ok(None);
    };
    next_in(
        alloc,
        from.setting.gates(),
        seat.of_type.submodules.as_slice(),
        &seat.inside.parts,
        seat.inside.wiring.get(),
        Seen::FromOutside(seat.part),
        way,
        gate,
        index,
    )
}

/// The next gate inwards, by the links of its own inside.
fn next_inwards(
    alloc: Global,
    from: Sources<'_>,
    declared: &TypeDeclaration,
    inside: Option<&Inside>,
    way: Way,
    gate: &Text,
    index: u32,
) -> Result<Option<NextGate>, NoMemory>
    ensures { IfOk result (λ next. next ≡ insides.next_inwards (settings_of from.entry) declared.now
        way gate.now index (option_copied inside.entry)) }
{
    let Some(inside) = inside else {
        return Ok(None);
    };
    next_in(
        alloc,
        from.setting.gates(),
        declared.submodules.as_slice(),
        &inside.parts,
        inside.wiring.get(),
        Seen::FromInside,
        way,
        gate,
        index,
    )
}

/// The next gate outwards of a module.
fn outwards(
    alloc: Global,
    from: Sources<'_>,
    own: &mut Table<Key, Found>,
    site: &Module,
    way: Way,
    gate: &Text,
    index: u32,
) -> Result<Option<NextGate>, NoMemory>
    requires right { IsRight from }
    requires own { IsKept (rules_of (settings_of from)) own.old.entries }
    ensures { IfOk result (λ next. next ≡ insides.next_outwards (settings_of from.entry) way
        gate.now index (insides.seat_of (settings_of from.entry) site.now)) }
{
    match seek(alloc, from, own, site)? {
        Some(sought) => {
            let seat = seat_of(from, own, &sought)?;
            next_outwards(alloc, from, seat, way, gate, index)
        }
        None => Ok(None),
    }
}

/// The next gate inwards of a module of that type.
fn inwards(
    alloc: Global,
    from: Sources<'_>,
    own: &mut Table<Key, Found>,
    site: &Module,
    declared: &TypeDeclaration,
    way: Way,
    gate: &Text,
    index: u32,
) -> Result<Option<NextGate>, NoMemory>
    requires right { IsRight from }
    requires own { IsKept (rules_of (settings_of from)) own.old.entries }
    ensures { IfOk result (λ next. next ≡ insides.next_inwards (settings_of from.entry) declared.now
        way gate.now index (insides.inside_of (settings_of from.entry) site.now)) }
{
    let found = value_of(alloc, from, own, site, What::Inside)?;
    let inside = inside_in(said(from, own, found));
    next_inwards(alloc, from, declared, inside, way, gate, index)
}

/// The next gate after a half of a gate of a module of that type, or the one from which
/// messages come to it.
fn next_by(
    alloc: Global,
    from: Sources<'_>,
    own: &mut Table<Key, Found>,
    site: &Module,
    declared: &TypeDeclaration,
    way: Way,
    half: Half,
    gate: &Text,
    index: u32,
) -> Result<Option<NextGate>, NoMemory>
    requires right { IsRight from }
    requires own { IsKept (rules_of (settings_of from)) own.old.entries }
    ensures { IfOk result (λ next. next ≡ insides.next_by (settings_of from.entry) site.now
        declared.now way half gate.now index) }
{
    if is_outwards(way, half) {
        outwards(alloc, from, own, site, way, gate, index)
    } else {
        inwards(alloc, from, own, site, declared, way, gate, index)
    }
}

/// The next gate after a gate of a module, or the one from which messages come to
/// it.
pub fn hop_answer(
    alloc: Global,
    from: Sources<'_>,
    site: &Module,
    way: Way,
    name: &[u8],
    index: u32,
) -> Result<Answer, NoMemory>
    requires { IsRight from }
    ensures { IfOk result (λ found. found ≡ insides.hop_answer (settings_of from.entry) way site.now
        (keyed.type_of (settings_of from.entry) site.now) name.now index) }
{
    let mut own = own_table(alloc, from);
    let Some(of_type) = type_of(alloc, from, &mut own, site)? else {
        return Ok(Answer::Absent);
    };
    let gates = gates_at(from.setting.gates(), of_type);
    match half_named(name, gates) {
        Some((gate, half)) => {
            let declared = of_type.declared;
            let next = next_by(
                alloc, from, &mut own, site, declared, way, half, gate, index,
            )?;
            Ok(Answer::Next(next))
        }
        None => Ok(Answer::Absent),
    }
}
