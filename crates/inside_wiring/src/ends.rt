//! What the ends of a connection name, and the connection between them.

ghost use Rattle.std.specs.Prelude.{◌≡◌, ◌<◌, length, ◌∷◌, ℕ, slice_get, IfOk, IfSome};
ghost use Rattle.std.specs.Option.{option_copied};
ghost use Rattle.inside_parts.specs.Faults.{Tells};
ghost use Rattle.inside_parts.specs.Names.{position_of};
ghost use Rattle.inside_wiring.specs.Ends as ends;
ghost use Rattle.inside_wiring.specs.Wired.{next_index};

use crate::wiring::{Carrier, GateId, Link, Role, Wiring};
use inside_parts::fault::InsideError;
use inside_parts::gates::{TypeGate, TypeGates};
use inside_parts::names::Names;
use inside_parts::parts::{Made, NamedGate, Part, Parts};
use ned_trees::connections::{Arrow, Half};
use ned_trees::declarations::GateDirection;
use sim_values::NoMemory;
use sim_values::model_fault::ModelFault;
use sim_values::text::Text;

/// A gate that an end of a connection takes, and the connections so far with the vector extended
/// where it had to be.
#[derive(Drop)]
pub struct Taken {
    pub wiring: Wiring,
    pub id: GateId,
}

/// A number that isn't negative.
pub fn natural(number: i64) -> Option<u64>
    ensures { result ≡ ends.natural number }
{
    if number < 0 {
        None
    } else {
        Some(number as u64)
    }
}

/// The part of a vector at an index, of so many parts.
fn part_within(all: usize, first: usize, count: u32, index: Option<u64>) -> Option<usize>
    ensures { result ≡ ends.within all first count index }
{
    match index {
        Some(index) if index < count as u64 && index < all.saturating_sub(first) as u64 => {
            Some(first + index as usize)
        }
        _ => None,
    }
}

/// The number of the part that an index means, by what was made of the declaration; there are so
/// many parts.
fn made_part(all: usize, made: Option<Made>, index: Option<i64>) -> Option<usize>
    ensures { result ≡ ends.part_of all made index }
{
    match made {
        Some(Made::Single(part)) => match index {
            None => Some(part),
            Some(_) => None,
        },
        Some(Made::Vector(first, count)) => match index {
            None => None,
            Some(index) => part_within(all, first, count, natural(index)),
        },
        Some(Made::Absent) | None => None,
    }
}

/// The number of the part of that name and index, where the submodules that are declared have these
/// names.
pub fn part_named(
    submodules: &Names,
    parts: &Parts,
    name: &Text,
    index: Option<i64>,
) -> Result<usize, InsideError>
    ensures { Tells result (ends.part_named submodules.now parts.now name.now index) }
{
    let part = match submodules.position(name) {
        Some(line) => made_part(parts.parts.len(), parts.made.get(line).copied(), index),
        None => None,
    };
    match part {
        Some(part) => Ok(part),
        None => Err(InsideError::Fault(ModelFault::NoGate)),
    }
}

/// The gate vector of a gate of a part, which has that number, among `count` vectors.
fn kind_found(
    count: usize,
    number: usize,
    part: Part,
    place: usize,
    gate: Option<&TypeGate>,
) -> Option<NamedGate>
    ensures value { result ≡ ends.gate_of_kind count number part place (option_copied gate.entry) }
    ensures within { IfSome result (λ f. f.vector < count) }
{
    let gate = gate?;
    if place < count.saturating_sub(part.first) {
        Some(NamedGate {
            part: number,
            vector: part.first + place,
            kind: gate.kind,
            is_own: part.is_own,
        })
    } else {
        None
    }
}

/// The gate vector of that name in a part, among `count` vectors, where the types have these gates.
pub fn gate_named(
    types: &[TypeGates],
    parts: &Parts,
    count: usize,
    part: usize,
    name: &Text,
) -> Result<NamedGate, InsideError>
    ensures value { Tells result (ends.gate_named types.now parts.now count part name.now) }
    ensures within { IfOk result (λ f. f.vector < count) }
{
    let found = match parts.parts.get(part) {
        Some(found) => gate_of_part(types, count, part, *found, name),
        None => None,
    };
    match found {
        Some(found) => Ok(found),
        None => Err(InsideError::Fault(ModelFault::NoGate)),
    }
}

/// The gate vector of that name in that part, which has that number.
fn gate_of_part(
    types: &[TypeGates],
    count: usize,
    number: usize,
    part: Part,
    name: &Text,
) -> Option<NamedGate>
    ensures value { result
        ≡ ends.gate_of_part count number name.now part (slice_get types.now part.of_type) }
    ensures within { IfSome result (λ f. f.vector < count) }
{
    let found = types.get(part.of_type)?;
    let place = found.names.position(name)?;
    kind_found(count, number, part, place, found.gates.get(place))
}

/// Whether a half of a gate gives what a role needs.
fn half_has_role(is_own: bool, half: Half, role: Role) -> bool
    ensures { result ≡ ends.through is_own half role }
{
    match (half, role) {
        (Half::Input, Role::Source) | (Half::Output, Role::Target) => is_own,
        (Half::Input, Role::Target) | (Half::Output, Role::Source) => !is_own,
        (_, Role::Both) => false,
    }
}

/// Whether a gate of that direction, with the half that the end names, has the role.
pub fn has_role(is_own: bool, direction: GateDirection, half: Option<Half>, role: Role) -> bool
    ensures { result ≡ ends.fits is_own direction half role }
{
    match direction {
        GateDirection::Input => match half {
            None => half_has_role(is_own, Half::Input, role),
            Some(_) => false,
        },
        GateDirection::Output => match half {
            None => half_has_role(is_own, Half::Output, role),
            Some(_) => false,
        },
        GateDirection::Inout => match half {
            None => match role {
                Role::Source | Role::Target => false,
                Role::Both => true,
            },
            Some(half) => half_has_role(is_own, half, role),
        },
    }
}

/// Takes a gate, unless it is connected.
fn unless_taken(
    wiring: Wiring,
    other: Option<GateId>,
    role: Role,
    id: GateId,
) -> Result<Taken, InsideError>
    ensures { Tells result (ends.unless_taken wiring other role id) }
{
    if wiring.is_open(other, role, id.vector, id.index) {
        Ok(Taken { wiring, id })
    } else {
        Err(InsideError::Fault(ModelFault::AlreadyConnected))
    }
}

/// A single gate.
pub fn at_single(
    wiring: Wiring,
    other: Option<GateId>,
    role: Role,
    found: NamedGate,
) -> Result<Taken, InsideError>
    ensures { Tells result (ends.at_single wiring other role found) }
{
    let id = GateId {
        part: found.part,
        vector: found.vector,
        index: 0,
    };
    unless_taken(wiring, other, role, id)
}

/// Takes the gate at an index, none being a negative one.
fn at_natural(
    wiring: Wiring,
    other: Option<GateId>,
    role: Role,
    found: NamedGate,
    index: Option<u64>,
) -> Result<Taken, InsideError>
    requires { found.vector < length wiring.sizes }
    ensures { Tells result (ends.at_natural wiring other role found index) }
{
    match index {
        Some(index) => {
            if index < wiring.size(found.vector) as u64 {
                let id = GateId {
                    part: found.part,
                    vector: found.vector,
                    index: index as u32,
                };
                unless_taken(wiring, other, role, id)
            } else {
                Err(InsideError::Fault(ModelFault::GateSize))
            }
        }
        None => Err(InsideError::Fault(ModelFault::GateSize)),
    }
}

/// Takes the gate at an index.
pub fn at_index(
    wiring: Wiring,
    other: Option<GateId>,
    role: Role,
    found: NamedGate,
    index: i64,
) -> Result<Taken, InsideError>
    ensures { Tells result (ends.at_index wiring other role found index) }
{
    if found.vector >= wiring.count() {
        return Err(InsideError::Fault(ModelFault::GateSize));
    }
    at_natural(wiring, other, role, found, natural(index))
}

/// `++`: takes the first free gate, or one more of a submodule's vector.
pub fn at_next(
    wiring: Wiring,
    other: Option<GateId>,
    role: Role,
    found: NamedGate,
) -> Result<Taken, InsideError>
    requires { found.vector < length wiring.sizes }
    ensures { Tells result (ends.at_next wiring other role found) }
{
    let vector = found.vector;
    let index = wiring.next_index(other, role, vector);
    let id = GateId {
        part: found.part,
        vector,
        index,
    };
    if index < wiring.size(vector) {
        let wiring = wiring.note_next(other, role, id)?;
        return Ok(Taken { wiring, id });
    }
    if found.is_own || index >= 65536 {
        return Err(InsideError::Fault(ModelFault::GateSize));
    }
    let mut wiring = wiring.note_next(other, role, id)?;
    wiring.extend(vector);
    Ok(Taken { wiring, id })
}

/// What the left end takes of a gate.
pub fn left_role(arrow: Arrow) -> Role
    ensures { result ≡ ends.left_role arrow }
{
    match arrow {
        Arrow::Right => Role::Source,
        Arrow::Left => Role::Target,
        Arrow::Both => Role::Both,
    }
}

/// What the right end takes of a gate.
pub fn right_role(arrow: Arrow) -> Role
    ensures { result ≡ ends.right_role arrow }
{
    match arrow {
        Arrow::Right => Role::Target,
        Arrow::Left => Role::Source,
        Arrow::Both => Role::Both,
    }
}

/// The gate that the other end of the same connection has taken, where both ends take the same
/// halves.
pub fn beside(arrow: Arrow, taken: GateId) -> Option<GateId>
    ensures { result ≡ ends.beside arrow taken }
{
    match arrow {
        Arrow::Right | Arrow::Left => None,
        Arrow::Both => Some(taken),
    }
}

/// The link from one gate to another.
fn link(from: GateId, to: GateId, carrier: Carrier) -> Link
    ensures { result ≡ ends.link from to carrier }
{
    Link { from, to, carrier }
}

/// Connects two gates that were taken. Of `<-->` the one carries from the left end, the other back.
pub fn linked(
    wiring: Wiring,
    arrow: Arrow,
    left: GateId,
    right: GateId,
    onwards: Carrier,
    back: Carrier,
) -> Result<Wiring, NoMemory>
    ensures { IfOk result (λ w. w ≡ ends.linked arrow left right onwards back wiring) }
{
    match arrow {
        Arrow::Right => wiring.connect(link(left, right, onwards)),
        Arrow::Left => wiring.connect(link(right, left, onwards)),
        Arrow::Both => {
            let wiring = wiring.connect(link(left, right, onwards))?;
            wiring.connect(link(right, left, back))
        }
    }
}
