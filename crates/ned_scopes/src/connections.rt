//! Copies of sections of connections, and those in which the types of channels are the ones that
//! are meant.

ghost use Rattle.std.specs.Prelude.{◌≡◌, ◌++◌, map, option_map, IfOk, OnOk};
ghost use Rattle.ned_scopes.specs.Scopes.{meant, resolved_channel, resolved_connection};
ghost use Rattle.ned_scopes.specs.Scopes.{resolved_connections, resolved_item, resolved_line};

use crate::copies::{copy_base, copy_expression, copy_lines};
use crate::known::TypesByName;
use crate::names::meant_base;
use ned_trees::connections::{
    Channel, Clause, Connection, ConnectionGroup, ConnectionItem, ConnectionLine,
    ConnectionSection, End, Gate, GateIndex, Loop, Owner,
};
use sim_values::text::Text;
use sqlite_items::Items;
use std::alloc::{AllocError, Global};

/// An equal index, where there is one.
fn copy_index(alloc: Global, index: &Option<GateIndex>) -> Result<Option<GateIndex>, AllocError>
    ensures { IfOk result (λ copy. copy ≡ index.now) }
{
    match index {
        Some(GateIndex::At(e)) => Ok(Some(GateIndex::At(e.copy(alloc)?))),
        Some(GateIndex::Next) => Ok(Some(GateIndex::Next)),
        None => Ok(None),
    }
}

/// An equal gate at an end.
fn copy_end_gate(alloc: Global, gate: &Gate) -> Result<Gate, AllocError>
    ensures { IfOk result (λ copy. copy ≡ gate.now) }
{
    Ok(Gate {
        name: gate.name.copy(alloc)?,
        half: gate.half,
        index: copy_index(alloc, &gate.index)?,
    })
}

/// An equal owner of a gate, where there is one.
fn copy_owner(alloc: Global, owner: &Option<Owner>) -> Result<Option<Owner>, AllocError>
    ensures { IfOk result (λ copy. copy ≡ owner.now) }
{
    match owner {
        Some(owner) => Ok(Some(Owner {
            name: owner.name.copy(alloc)?,
            index: copy_expression(alloc, &owner.index)?,
        })),
        None => Ok(None),
    }
}

/// An equal end.
fn copy_end(alloc: Global, end: &End) -> Result<End, AllocError>
    ensures { IfOk result (λ copy. copy ≡ end.now) }
{
    Ok(End {
        owner: copy_owner(alloc, &end.owner)?,
        gate: copy_end_gate(alloc, &end.gate)?,
    })
}

/// An equal loop.
fn copy_loop(alloc: Global, it: &Loop) -> Result<Loop, AllocError>
    ensures { IfOk result (λ copy. copy ≡ it.now) }
{
    Ok(Loop {
        variable: it.variable.copy(alloc)?,
        first: it.first.copy(alloc)?,
        last: it.last.copy(alloc)?,
    })
}

/// An equal loop or condition.
fn copy_clause(alloc: Global, clause: &Clause) -> Result<Clause, AllocError>
    ensures { IfOk result (λ copy. copy ≡ clause.now) }
{
    match clause {
        Clause::For(it) => Ok(Clause::For(copy_loop(alloc, it)?)),
        Clause::If(e) => Ok(Clause::If(e.copy(alloc)?)),
    }
}

/// Equal loops and conditions.
fn copy_clauses(alloc: Global, clauses: &[Clause]) -> Result<Items<Clause>, AllocError>
    ensures { IfOk result (λ copy. copy ≡ clauses.now) }
{
    let mut copy = Items::new(alloc);
    for clause in clauses {
        copy.push(copy_clause(alloc, clause)?)?;
    }
    Ok(copy)
}

// ---- copies

/// An equal channel, where there is one.
fn copy_channel(alloc: Global, channel: &Option<Channel>) -> Result<Option<Channel>, AllocError>
    ensures { IfOk result (λ copy. copy ≡ channel.now) }
{
    match channel {
        Some(channel) => Ok(Some(Channel {
            type_name: copy_base(alloc, &channel.type_name)?,
            lines: copy_lines(alloc, channel.lines.as_slice())?,
        })),
        None => Ok(None),
    }
}

/// An equal connection.
fn copy_connection(alloc: Global, connection: &Connection) -> Result<Connection, AllocError>
    ensures { IfOk result (λ copy. copy ≡ connection.now) }
{
    Ok(Connection {
        left: copy_end(alloc, &connection.left)?,
        arrow: connection.arrow,
        channel: copy_channel(alloc, &connection.channel)?,
        right: copy_end(alloc, &connection.right)?,
    })
}

/// An equal connection, with its loops and conditions.
fn copy_line(alloc: Global, line: &ConnectionLine) -> Result<ConnectionLine, AllocError>
    ensures { IfOk result (λ copy. copy ≡ line.now) }
{
    Ok(ConnectionLine {
        connection: copy_connection(alloc, &line.connection)?,
        clauses: copy_clauses(alloc, line.clauses.as_slice())?,
    })
}

/// Equal connections, with their loops and conditions.
fn copy_connection_lines(
    alloc: Global,
    lines: &[ConnectionLine],
) -> Result<Items<ConnectionLine>, AllocError>
    ensures { IfOk result (λ copy. copy ≡ lines.now) }
{
    let mut copy = Items::new(alloc);
    for line in lines {
        copy.push(copy_line(alloc, line)?)?;
    }
    Ok(copy)
}

/// An equal item.
fn copy_item(alloc: Global, item: &ConnectionItem) -> Result<ConnectionItem, AllocError>
    ensures { IfOk result (λ copy. copy ≡ item.now) }
{
    match item {
        ConnectionItem::Line(line) => Ok(ConnectionItem::Line(copy_line(alloc, line)?)),
        ConnectionItem::Group(group) => Ok(ConnectionItem::Group(ConnectionGroup {
            clauses: copy_clauses(alloc, group.clauses.as_slice())?,
            lines: copy_connection_lines(alloc, group.lines.as_slice())?,
        })),
    }
}

/// Adds copies of these items at the end.
pub fn add_items(
    alloc: Global,
    items: &mut Items<ConnectionItem>,
    more: &[ConnectionItem],
) -> Result<(), AllocError>
    ensures { OnOk result (items.new ≡ items.old ++ more.now) }
{
    for item in more {
        items.push(copy_item(alloc, item)?)?;
    }
    Ok(())
}

/// Equal items.
fn copy_items(alloc: Global, items: &[ConnectionItem]) -> Result<Items<ConnectionItem>, AllocError>
    ensures { IfOk result (λ copy. copy ≡ items.now) }
{
    let mut copy = Items::new(alloc);
    add_items(alloc, &mut copy, items)?;
    Ok(copy)
}

/// An equal section.
pub(crate) fn copy_connections(
    alloc: Global,
    section: &ConnectionSection,
) -> Result<ConnectionSection, AllocError>
    ensures { IfOk result (λ copy. copy ≡ section.now) }
{
    Ok(ConnectionSection {
        allow_unconnected: section.allow_unconnected,
        items: copy_items(alloc, section.items.as_slice())?,
    })
}

// ---- the types of channels

/// A channel, whose type is looked up in these scopes.
fn resolved_channel(
    alloc: Global,
    types: &TypesByName,
    scopes: &[Text],
    channel: &Option<Channel>,
) -> Result<Option<Channel>, AllocError>
    ensures { IfOk result
        (λ c. c ≡ option_map (resolved_channel types.now scopes.now) channel.now) }
{
    match channel {
        Some(channel) => Ok(Some(Channel {
            type_name: meant_base(alloc, types, scopes, &channel.type_name)?,
            lines: copy_lines(alloc, channel.lines.as_slice())?,
        })),
        None => Ok(None),
    }
}

/// A connection, whose channel's type is looked up in these scopes.
fn resolved_connection(
    alloc: Global,
    types: &TypesByName,
    scopes: &[Text],
    connection: &Connection,
) -> Result<Connection, AllocError>
    ensures { IfOk result (λ c. c ≡ resolved_connection types.now scopes.now connection.now) }
{
    Ok(Connection {
        left: copy_end(alloc, &connection.left)?,
        arrow: connection.arrow,
        channel: resolved_channel(alloc, types, scopes, &connection.channel)?,
        right: copy_end(alloc, &connection.right)?,
    })
}

/// The same with its loops and conditions.
fn resolved_line(
    alloc: Global,
    types: &TypesByName,
    scopes: &[Text],
    line: &ConnectionLine,
) -> Result<ConnectionLine, AllocError>
    ensures { IfOk result (λ l. l ≡ resolved_line types.now scopes.now line.now) }
{
    Ok(ConnectionLine {
        connection: resolved_connection(alloc, types, scopes, &line.connection)?,
        clauses: copy_clauses(alloc, line.clauses.as_slice())?,
    })
}

/// The same of several.
fn resolved_lines(
    alloc: Global,
    types: &TypesByName,
    scopes: &[Text],
    lines: &[ConnectionLine],
) -> Result<Items<ConnectionLine>, AllocError>
    ensures { IfOk result (λ all. all ≡ map (resolved_line types.now scopes.now) lines.now) }
{
    let mut all = Items::new(alloc);
    for line in lines {
        all.push(resolved_line(alloc, types, scopes, line)?)?;
    }
    Ok(all)
}

/// An item, whose channels' types are looked up in these scopes.
fn resolved_item(
    alloc: Global,
    types: &TypesByName,
    scopes: &[Text],
    item: &ConnectionItem,
) -> Result<ConnectionItem, AllocError>
    ensures { IfOk result (λ i. i ≡ resolved_item types.now scopes.now item.now) }
{
    match item {
        ConnectionItem::Line(line) => {
            let line = resolved_line(alloc, types, scopes, line)?;
            Ok(ConnectionItem::Line(line))
        }
        ConnectionItem::Group(group) => Ok(ConnectionItem::Group(ConnectionGroup {
            clauses: copy_clauses(alloc, group.clauses.as_slice())?,
            lines: resolved_lines(alloc, types, scopes, group.lines.as_slice())?,
        })),
    }
}

/// The same of several.
fn resolved_items(
    alloc: Global,
    types: &TypesByName,
    scopes: &[Text],
    items: &[ConnectionItem],
) -> Result<Items<ConnectionItem>, AllocError>
    ensures { IfOk result (λ all. all ≡ map (resolved_item types.now scopes.now) items.now) }
{
    let mut all = Items::new(alloc);
    for item in items {
        all.push(resolved_item(alloc, types, scopes, item)?)?;
    }
    Ok(all)
}

/// A section of connections, whose channels' types are looked up in these scopes.
pub(crate) fn resolved_connections(
    alloc: Global,
    types: &TypesByName,
    scopes: &[Text],
    section: &ConnectionSection,
) -> Result<ConnectionSection, AllocError>
    ensures { IfOk result (λ all. all ≡ resolved_connections types.now scopes.now section.now) }
{
    Ok(ConnectionSection {
        allow_unconnected: section.allow_unconnected,
        items: resolved_items(alloc, types, scopes, section.items.as_slice())?,
    })
}
