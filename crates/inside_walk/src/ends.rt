//! Ends of connections.

ghost use Rattle.std.specs.Prelude.{◌≡◌, ◌+◌, ◌<◌, length, Some};
ghost use Rattle.inside_keys.specs.Asked.{result_then};
ghost use Rattle.inside_keys.specs.Inside as inside;
ghost use Rattle.inside_wiring.specs.Ends as named;
ghost use Rattle.inside_walk.specs.Tasks.{Leads, continued, end_at, role_at, other_at, end_begun};
ghost use Rattle.inside_walk.specs.Tasks.{part_begun, name_begun, gate_begun, place_begun, taken};
ghost use Rattle.inside_walk.specs.Tasks.{scope_of};
ghost use Rattle.inside_walk.specs.Weights.{Spends, of_end, of_maybe, of_position, of_rest};

use crate::joins::joined;
use crate::loops::evaluate;
use crate::task::{Ground, Next, Side, Task, Want};
use inside_keys::found::State;
use inside_keys::key::WrittenAt;
use inside_parts::fault::InsideError;
use inside_parts::parts::{NamedGate, Parts};
use inside_parts::stack::Stack;
use inside_wiring::ends::{
    Taken, at_index, at_next, at_single, beside, gate_named, has_role, left_role, part_named,
    right_role,
};
use inside_wiring::wiring::{GateId, Role};
use ned_trees::connections::{Connection, End, GateIndex, Owner};
use sim_values::model_fault::ModelFault;
use sqlite_items::Boxed;
use std::alloc::Global;

/// The end of that side.
fn end_at<'m>(side: Side, connection: &'m Connection) -> &'m End
    ensures { result.now ≡ end_at side connection.now }
{
    match side {
        Side::Left => &connection.left,
        Side::Right(_) => &connection.right,
    }
}

/// What that end takes of a gate.
fn role_at(side: Side, connection: &Connection) -> Role
    ensures { result ≡ role_at side connection.now }
{
    match side {
        Side::Left => left_role(connection.arrow),
        Side::Right(_) => right_role(connection.arrow),
    }
}

/// The gate that it may not take, since the other end has it.
fn other_at(side: Side, connection: &Connection) -> Option<GateId>
    ensures { result ≡ other_at side connection.now }
{
    match side {
        Side::Left => None,
        Side::Right(left) => beside(connection.arrow, left),
    }
}

/// An end has taken a gate: the right end comes next, or the two gates are joined.
fn took<'m>(
    alloc: Global,
    ground: &Ground<'m>,
    tasks: &mut Stack<Task<'m>>,
    connection: &'m Connection,
    side: Side,
    parts: Parts,
    turns: u32,
    written: WrittenAt,
    found: Taken,
) -> Result<Next<'m>, InsideError>
    ensures leads { Leads ground.now result tasks.new
        (taken ground.now connection.now side (scope_of tasks.old)
        (record { parts = parts; wiring = found.wiring; turns = turns; written = written })
        (continued ground.now tasks.old) found) }
    ensures spends { Spends ground.now (of_rest connection.now side) 0 tasks.old turns
        result tasks.new }
{
    let Taken { wiring, id } = found;
    let wiring = Boxed::new(alloc, wiring)?;
    let state = State {
        parts,
        wiring,
        turns,
        written,
    };
    match side {
        Side::Left => {
            tasks.push(Task::End(connection, Side::Right(id)))?;
            Ok(Next::Go(state))
        }
        Side::Right(left) => joined(alloc, ground, tasks, connection, left, id, state),
    }
}

/// Takes the single gate.
fn single<'m>(
    alloc: Global,
    ground: &Ground<'m>,
    tasks: &mut Stack<Task<'m>>,
    connection: &'m Connection,
    side: Side,
    gate: NamedGate,
    state: State,
) -> Result<Next<'m>, InsideError>
    ensures leads { Leads ground.now result tasks.new (result_then (named.at_single state.wiring
        (other_at side connection.now) (role_at side connection.now) gate)
        (taken ground.now connection.now side (scope_of tasks.old) state
        (continued ground.now tasks.old))) }
    ensures spends { Spends ground.now (of_rest connection.now side) 0 tasks.old state.turns
        result tasks.new }
{
    let role = role_at(side, connection);
    let other = other_at(side, connection);
    let State {
        parts,
        wiring,
        turns,
        written,
    } = state;
    let taken = at_single(wiring.into_inner(), other, role, gate)?;
    took(
        alloc, ground, tasks, connection, side, parts, turns, written, taken,
    )
}

/// Takes the first free gate, or one more.
fn free<'m>(
    alloc: Global,
    ground: &Ground<'m>,
    tasks: &mut Stack<Task<'m>>,
    connection: &'m Connection,
    side: Side,
    gate: NamedGate,
    state: State,
) -> Result<Next<'m>, InsideError>
    requires { gate.vector < length state.wiring.sizes }
    ensures leads { Leads ground.now result tasks.new (result_then (named.at_next state.wiring
        (other_at side connection.now) (role_at side connection.now) gate)
        (taken ground.now connection.now side (scope_of tasks.old) state
        (continued ground.now tasks.old))) }
    ensures spends { Spends ground.now (of_rest connection.now side) 0 tasks.old state.turns
        result tasks.new }
{
    let role = role_at(side, connection);
    let other = other_at(side, connection);
    let State {
        parts,
        wiring,
        turns,
        written,
    } = state;
    let taken = at_next(wiring.into_inner(), other, role, gate)?;
    took(
        alloc, ground, tasks, connection, side, parts, turns, written, taken,
    )
}

/// Takes the gate of a vector that an end names by its place.
fn placed<'m>(
    alloc: Global,
    ground: &Ground<'m>,
    tasks: &mut Stack<Task<'m>>,
    connection: &'m Connection,
    side: Side,
    place: &'m GateIndex,
    gate: NamedGate,
    state: State,
) -> Result<Next<'m>, InsideError>
    requires { gate.vector < length state.wiring.sizes }
    ensures leads { Leads ground.now result tasks.new (place_begun ground.now connection.now side
        (Some place.now) (scope_of tasks.old) state (continued ground.now tasks.old) gate) }
    ensures spends { Spends ground.now (of_position (Some place.now) + of_rest connection.now side
        + 2) 0 tasks.old state.turns result tasks.new }
{
    if !gate.kind.is_vector {
        return Err(InsideError::Fault(ModelFault::NoGate));
    }
    match place {
        GateIndex::At(index) => {
            Ok(evaluate(alloc, index, Want::Index(connection, side, gate), state)?)
        }
        GateIndex::Next => free(alloc, ground, tasks, connection, side, gate, state),
    }
}

/// Takes the gate of a part at the place that an end names.
fn position<'m>(
    alloc: Global,
    ground: &Ground<'m>,
    tasks: &mut Stack<Task<'m>>,
    connection: &'m Connection,
    side: Side,
    gate: NamedGate,
    state: State,
) -> Result<Next<'m>, InsideError>
    requires { gate.vector < length state.wiring.sizes }
    ensures leads { Leads ground.now result tasks.new (gate_begun ground.now connection.now side
        (scope_of tasks.old) state (continued ground.now tasks.old) gate) }
    ensures spends { Spends ground.now (of_position (end_at side connection.now).gate.index
        + of_rest connection.now side + 2) 0 tasks.old state.turns result tasks.new }
{
    let end = end_at(side, connection);
    match &end.gate.index {
        Some(place) => placed(alloc, ground, tasks, connection, side, place, gate, state),
        None => {
            if gate.kind.is_vector {
                return Err(InsideError::Fault(ModelFault::NoGate));
            }
            single(alloc, ground, tasks, connection, side, gate, state)
        }
    }
}

/// Takes the gate of that part that an end names.
pub fn part<'m>(
    alloc: Global,
    ground: &Ground<'m>,
    tasks: &mut Stack<Task<'m>>,
    connection: &'m Connection,
    side: Side,
    part: usize,
    state: State,
) -> Result<Next<'m>, InsideError>
    ensures leads { Leads ground.now result tasks.new (part_begun ground.now connection.now side
        (scope_of tasks.old) state (continued ground.now tasks.old) part) }
    ensures spends { Spends ground.now (of_position (end_at side connection.now).gate.index
        + of_rest connection.now side + 2) 0 tasks.old state.turns result tasks.new }
{
    let end = end_at(side, connection);
    let gate = gate_named(
        ground.gates,
        &state.parts,
        state.wiring.get().count(),
        part,
        &end.gate.name,
    )?;
    let role = role_at(side, connection);
    if !has_role(gate.is_own, gate.kind.direction, end.gate.half, role) {
        return Err(InsideError::Fault(ModelFault::NoGate));
    }
    position(alloc, ground, tasks, connection, side, gate, state)
}

/// Begins with an end of a connection that names a submodule.
fn named<'m>(
    alloc: Global,
    ground: &Ground<'m>,
    tasks: &mut Stack<Task<'m>>,
    connection: &'m Connection,
    side: Side,
    name: &'m Owner,
    state: State,
) -> Result<Next<'m>, InsideError>
    ensures leads { Leads ground.now result tasks.new (name_begun ground.now connection.now side
        (scope_of tasks.old) state (continued ground.now tasks.old) name.now) }
    ensures spends { Spends ground.now
        (of_maybe name.now.index + of_position (end_at side connection.now).gate.index
        + of_rest connection.now side + 4)
        0 tasks.old state.turns result tasks.new }
{
    match &name.index {
        Some(index) => {
            let want = Want::Part(connection, side, &name.name);
            Ok(evaluate(alloc, index, want, state)?)
        }
        None => {
            let number = part_named(ground.submodules, &state.parts, &name.name, None)?;
            part(alloc, ground, tasks, connection, side, number, state)
        }
    }
}

/// Begins with an end of a connection.
pub fn end<'m>(
    alloc: Global,
    ground: &Ground<'m>,
    tasks: &mut Stack<Task<'m>>,
    connection: &'m Connection,
    side: Side,
    state: State,
) -> Result<Next<'m>, InsideError>
    ensures leads { Leads ground.now result tasks.new (end_begun ground.now connection.now side
        (scope_of tasks.old) state (continued ground.now tasks.old)) }
    ensures spends { Spends ground.now (of_end (end_at side connection.now)
        + of_rest connection.now side) 0 tasks.old state.turns result tasks.new }
{
    let end = end_at(side, connection);
    match &end.owner {
        Some(name) => named(alloc, ground, tasks, connection, side, name, state),
        None => part(alloc, ground, tasks, connection, side, 0, state),
    }
}

/// Takes the gate at an index.
pub fn at<'m>(
    alloc: Global,
    ground: &Ground<'m>,
    tasks: &mut Stack<Task<'m>>,
    connection: &'m Connection,
    side: Side,
    gate: NamedGate,
    index: i64,
    state: State,
) -> Result<Next<'m>, InsideError>
    ensures leads { Leads ground.now result tasks.new (result_then (named.at_index state.wiring
        (other_at side connection.now) (role_at side connection.now) gate index)
        (taken ground.now connection.now side (scope_of tasks.old) state
        (continued ground.now tasks.old))) }
    ensures spends { Spends ground.now (of_rest connection.now side) 0 tasks.old state.turns
        result tasks.new }
{
    let role = role_at(side, connection);
    let other = other_at(side, connection);
    let State {
        parts,
        wiring,
        turns,
        written,
    } = state;
    let taken = at_index(wiring.into_inner(), other, role, gate, index)?;
    took(
        alloc, ground, tasks, connection, side, parts, turns, written, taken,
    )
}
