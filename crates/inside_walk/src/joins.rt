//! What joins two gates that the ends of a connection have taken.

ghost use Rattle.std.specs.Prelude.{◌≡◌, ◌+◌, ◌++◌, IfOk, OnOk};
ghost use Rattle.std.specs.Option.{option_copied};
ghost use Rattle.inside_keys.specs.Inside as inside;
ghost use Rattle.inside_walk.specs.Tasks.{Leads, carried, continued, joined, numbers_of, scope_of};
ghost use Rattle.inside_walk.specs.Weights.{Spends, of_carry};

use crate::task::{Carry, Ground, Next, Task};
use inside_keys::channel::{channel_path, ideal};
use inside_keys::found::State;
use inside_keys::key::{ChannelAt, Key, What};
use inside_keys::turn::LoopTurn;
use inside_parts::fault::InsideError;
use inside_parts::stack::Stack;
use inside_wiring::ends::linked;
use inside_wiring::wiring::{Carrier, GateId};
use ned_trees::connections::{Arrow, Channel, Connection};
use sim_values::NoMemory;
use sqlite_items::Boxed;
use std::alloc::{AllocError, Global};

/// Adds the number that a loop gives its variable now.
fn push_number(turn: &mut LoopTurn, task: &Task<'_>) -> Result<(), AllocError>
    ensures { OnOk result (turn.new ≡ turn.old ++ numbers_of task.now) }
{
    match task {
        Task::Turns(_, number, _, _, _) => turn.push(*number),
        _ => Ok(()),
    }
}

/// The values of the loop variables in scope, the innermost first.
fn turn_of(alloc: Global, tasks: &Stack<Task<'_>>) -> Result<LoopTurn, NoMemory>
    ensures { IfOk result (λ turn. turn ≡ inside.values_in (scope_of tasks.now)) }
{
    let mut turn = LoopTurn::new(alloc);
    let _count = tasks.len();
    let mut depth = 0;
    'tasks: while let Some(task) = tasks.at(depth) {
        push_number(&mut turn, task)?;
        depth += 1;
    }
    Ok(turn)
}

/// The channel of a connection from that gate.
fn channel_from(
    alloc: Global,
    ground: &Ground<'_>,
    tasks: &Stack<Task<'_>>,
    id: GateId,
    state: &State,
) -> Result<ChannelAt, NoMemory>
    ensures { IfOk result (λ c. c ≡ inside.channel_from ground.now.site ground.now.submodules.now
        ground.now.gates.now ground.now.is_whole id (scope_of tasks.now) state.now) }
{
    let path = channel_path(
        alloc,
        &ground.site,
        ground.submodules,
        ground.gates,
        &state.parts,
        id,
    )?;
    Ok(ChannelAt {
        path,
        written: state.written,
        turn: turn_of(alloc, tasks)?,
    })
}

/// The key of what carries messages from that gate.
fn carrier_from(
    alloc: Global,
    ground: &Ground<'_>,
    tasks: &Stack<Task<'_>>,
    id: GateId,
    state: &State,
) -> Result<Key, NoMemory>
    ensures { IfOk result (λ k. k ≡ inside.carrier_from ground.now.site ground.now.submodules.now
        ground.now.gates.now ground.now.is_whole id (scope_of tasks.now) state.now) }
{
    let channel = channel_from(alloc, ground, tasks, id, state)?;
    ground.site.key(alloc, What::Carrier(channel))
}

/// The connection is made.
fn link<'m>(
    alloc: Global,
    _ground: &Ground<'m>,
    _tasks: &mut Stack<Task<'m>>,
    arrow: Arrow,
    left: GateId,
    right: GateId,
    onwards: Carrier,
    back: Carrier,
    state: State,
) -> Result<Next<'m>, InsideError>
    ensures leads { Leads _ground.now result _tasks.new (inside.linked_then _ground.now.site
        _ground.now.submodules.now _ground.now.gates.now _ground.now.is_whole
        arrow left right state (continued _ground.now _tasks.old) onwards back) }
    ensures spends { Spends _ground.now 1 0 _tasks.old state.turns result _tasks.new }
{
    let State {
        parts,
        wiring,
        turns,
        written,
    } = state;
    let wiring = linked(wiring.into_inner(), arrow, left, right, onwards, back)?;
    let wiring = Boxed::new(alloc, wiring)?;
    Ok(Next::Go(State {
        parts,
        wiring,
        turns,
        written,
    }))
}

/// What a channel does is asked for.
fn ask<'m>(
    alloc: Global,
    ground: &Ground<'m>,
    tasks: &mut Stack<Task<'m>>,
    id: GateId,
    carry: Carry,
    state: State,
) -> Result<Next<'m>, InsideError>
    ensures leads { Leads ground.now result tasks.new (inside.carried_from ground.now.site
        ground.now.submodules.now ground.now.gates.now ground.now.is_whole
        id (scope_of tasks.old) state (λ c. carried ground.now carry c (scope_of tasks.old) state
        (continued ground.now tasks.old))) }
    ensures spends { Spends ground.now (of_carry carry + 2) 0 tasks.old state.turns
        result tasks.new }
{
    let key = carrier_from(alloc, ground, tasks, id, &state)?;
    Ok(Next::Carry(key, carry, state))
}

/// What carries messages back, where the connection leads both ways.
fn back<'m>(
    alloc: Global,
    ground: &Ground<'m>,
    tasks: &mut Stack<Task<'m>>,
    arrow: Arrow,
    left: GateId,
    right: GateId,
    onwards: Carrier,
    state: State,
) -> Result<Next<'m>, InsideError>
    ensures leads { Leads ground.now result tasks.new (inside.back_then ground.now.site
        ground.now.submodules.now ground.now.gates.now ground.now.is_whole
        arrow left right (scope_of tasks.old) state (continued ground.now tasks.old) onwards) }
    ensures spends { Spends ground.now 4 0 tasks.old state.turns result tasks.new }
{
    match arrow {
        Arrow::Right => link(
            alloc,
            ground,
            tasks,
            Arrow::Right,
            left,
            right,
            onwards,
            onwards,
            state,
        ),
        Arrow::Left => link(
            alloc,
            ground,
            tasks,
            Arrow::Left,
            left,
            right,
            onwards,
            onwards,
            state,
        ),
        Arrow::Both => {
            let carry = Carry::Back(Arrow::Both, left, right, onwards);
            ask(alloc, ground, tasks, right, carry, state)
        }
    }
}

/// The gate that messages leave by first.
fn source_of(arrow: Arrow, left: GateId, right: GateId) -> GateId
    ensures { result ≡ inside.source_of arrow left right }
{
    match arrow {
        Arrow::Right | Arrow::Both => left,
        Arrow::Left => right,
    }
}

/// The channel of a connection, where what it does is asked for.
fn channel_of<'m>(is_whole: bool, connection: &'m Connection) -> Option<&'m Channel>
    ensures { option_copied result ≡ inside.channel_of is_whole connection.now }
{
    if is_whole {
        connection.channel.as_ref()
    } else {
        None
    }
}

/// Two gates are joined: what the channel does in the one direction and in the other, and then the
/// connection.
pub fn joined<'m>(
    alloc: Global,
    ground: &Ground<'m>,
    tasks: &mut Stack<Task<'m>>,
    connection: &'m Connection,
    left: GateId,
    right: GateId,
    state: State,
) -> Result<Next<'m>, InsideError>
    ensures leads { Leads ground.now result tasks.new (joined ground.now connection.now left right
        (scope_of tasks.old) state (continued ground.now tasks.old)) }
    ensures spends { Spends ground.now 7 0 tasks.old state.turns result tasks.new }
{
    match channel_of(ground.is_whole, connection) {
        None => link(
            alloc,
            ground,
            tasks,
            connection.arrow,
            left,
            right,
            ideal(),
            ideal(),
            state,
        ),
        Some(_) => {
            let source = source_of(connection.arrow, left, right);
            let carry = Carry::Onwards(connection.arrow, left, right);
            ask(alloc, ground, tasks, source, carry, state)
        }
    }
}

/// Goes on with what a channel does.
pub fn carried<'m>(
    alloc: Global,
    ground: &Ground<'m>,
    tasks: &mut Stack<Task<'m>>,
    carry: Carry,
    carrier: Carrier,
    state: State,
) -> Result<Next<'m>, InsideError>
    ensures leads { Leads ground.now result tasks.new (carried ground.now carry carrier
        (scope_of tasks.old) state (continued ground.now tasks.old)) }
    ensures spends { Spends ground.now (of_carry carry) 0 tasks.old state.turns result tasks.new }
{
    match carry {
        Carry::Onwards(arrow, left, right) => {
            back(alloc, ground, tasks, arrow, left, right, carrier, state)
        }
        Carry::Back(arrow, left, right, onwards) => {
            link(
                alloc, ground, tasks, arrow, left, right, onwards, carrier, state,
            )
        }
    }
}
