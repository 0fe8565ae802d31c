//! What becomes of connections.

use crate::escapes::unescaped;
use crate::ned_rows::{tell_brackets, tell_lines};
use crate::telling::Telling;
use crate::tree_rows::tell_tree;
use crate::words::written;
use ned_connections::parse::parse_connection;
use ned_trees::connections::{
    Arrow, Channel, Clause, Connection, ConnectionItem, ConnectionLine, ConnectionSection, End,
    GateIndex, Half, Owner,
};
use std::alloc::Global;

fn half_mark(half: Option<Half>) -> &'static str {
    match half {
        None => "",
        Some(Half::Input) => "$i",
        Some(Half::Output) => "$o",
    }
}

fn arrow_mark(arrow: Arrow) -> &'static str {
    match arrow {
        Arrow::Right => " --> ",
        Arrow::Left => " <-- ",
        Arrow::Both => " <--> ",
    }
}

/// Tells the submodule of an end.
fn tell_owner(told: &mut Telling, owner: &Option<Owner>) {
    if let Some(owner) = owner {
        told.text(written(&owner.name));
        if let Some(index) = &owner.index {
            tell_brackets(told, index);
        }
        told.text(".");
    }
}

/// Tells which gate of a vector it is.
fn tell_index(told: &mut Telling, index: &Option<GateIndex>) {
    match index {
        None => {}
        Some(GateIndex::At(index)) => tell_brackets(told, index),
        Some(GateIndex::Next) => told.text("++"),
    }
}

/// Tells an end.
fn tell_end(told: &mut Telling, it: &End) {
    tell_owner(told, &it.owner);
    told.text(written(&it.gate.name));
    told.text(half_mark(it.gate.half));
    tell_index(told, &it.gate.index)
}

/// Tells a channel in parentheses.
fn tell_channel(told: &mut Telling, channel: &Option<Channel>) {
    if let Some(channel) = channel {
        told.text("(");
        if let Some(name) = &channel.type_name {
            told.text(written(name));
        }
        told.text(" { ");
        tell_lines(told, channel.lines.as_slice());
        told.text("}) ");
    }
}

/// Tells a connection.
fn tell_connection(told: &mut Telling, it: &Connection) {
    tell_end(told, &it.left);
    told.text(arrow_mark(it.arrow));
    tell_channel(told, &it.channel);
    tell_end(told, &it.right)
}

/// Tells a loop or a condition.
fn tell_clause(told: &mut Telling, it: &Clause) {
    match it {
        Clause::For(it) => {
            told.text(" for ");
            told.text(written(&it.variable));
            told.text(" = ");
            tell_tree(told, &it.first);
            told.text("..");
            tell_tree(told, &it.last)
        }
        Clause::If(condition) => {
            told.text(" if ");
            tell_tree(told, condition)
        }
    }
}

/// Tells loops and conditions.
fn tell_clauses(told: &mut Telling, clauses: &[Clause]) {
    for it in clauses {
        tell_clause(told, it);
    }
}

/// Tells a connection with its loops and conditions.
fn tell_line(told: &mut Telling, it: &ConnectionLine) {
    tell_connection(told, &it.connection);
    tell_clauses(told, it.clauses.as_slice());
    told.text("; ")
}

/// Tells connections with their loops and conditions.
fn tell_connection_lines(told: &mut Telling, lines: &[ConnectionLine]) {
    for it in lines {
        tell_line(told, it);
    }
}

/// Tells an item of a section of connections.
fn tell_item(told: &mut Telling, it: &ConnectionItem) {
    match it {
        ConnectionItem::Line(it) => tell_line(told, it),
        ConnectionItem::Group(it) => {
            tell_clauses(told, it.clauses.as_slice());
            told.text(" { ");
            tell_connection_lines(told, it.lines.as_slice());
            told.text("} ")
        }
    }
}

/// Tells the items of a section of connections.
fn tell_items(told: &mut Telling, items: &[ConnectionItem]) {
    for it in items {
        tell_item(told, it);
    }
}

/// Tells a section of connections, where it says something.
pub fn tell_section(told: &mut Telling, it: &ConnectionSection) {
    if it.allow_unconnected {
        told.text("allowunconnected; ");
    }
    tell_items(told, it.items.as_slice())
}

/// Tells what an item of connections is, or why it is refused.
pub fn tell_text(alloc: Global, told: &mut Telling, row: &str) {
    let text = unescaped(alloc, told, row);
    match parse_connection(alloc, text.as_slice()) {
        Ok(item) => tell_item(told, &item),
        Err(refusal) => told.raw(&refusal),
    }
}
