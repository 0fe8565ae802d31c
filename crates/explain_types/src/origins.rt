//! Where a flat type has its members from: from itself, or from one of the types that it extends.

use ned_trees::declarations::{TypeDeclaration, TypeKind};
use sim_values::text::{Text, spells};

/// A kind of member.
#[derive(Clone, Copy)]
pub enum Kind {
    Line,
    Gate,
    Submodule,
    Interface,
    /// An item of connections.
    Item,
}

/// Where a member of a flat type is declared.
#[derive(Clone, Copy)]
pub struct Origin<'o, 'a> {
    /// The type that declares it.
    pub it: &'a TypeDeclaration,
    /// Its number among those of its kind there.
    pub at: usize,
    /// The types whose members stand before, the nearest one last.
    pub before: &'o [&'a TypeDeclaration],
}

/// Whether a built-in channel has that name.
pub fn is_built_in(name: &[u8]) -> bool {
    spells(name, b"IdealChannel")
        || spells(name, b"DelayChannel")
        || spells(name, b"DatarateChannel")
}

/// How many parameters the built-in channel has that a type extends, where it extends one.
fn built_in_lines(base: &Option<Text>) -> usize {
    match base {
        Some(name) if spells(name.as_bytes(), b"DelayChannel") => 2,
        Some(name) if spells(name.as_bytes(), b"DatarateChannel") => 5,
        _ => 0,
    }
}

/// How many members of that kind a type declares, and how many a built-in channel has before them.
fn counts(it: &TypeDeclaration, kind: Kind) -> (usize, usize) {
    match kind {
        Kind::Line => (it.lines.len(), built_in_lines(&it.base)),
        Kind::Gate => (it.gates.len(), 0),
        Kind::Submodule => (it.submodules.len(), 0),
        Kind::Interface => (it.interfaces.len(), 0),
        Kind::Item => (it.connections.items.len(), 0),
    }
}

/// How many lines a flat type has before those of its bases: a simple type that extends another has
/// one for its class.
fn class_lines(order: &[&TypeDeclaration], kind: Kind) -> usize {
    match (kind, order.last()) {
        (Kind::Line, Some(it)) if it.kind == TypeKind::Simple && it.base.is_some() => 1,
        _ => 0,
    }
}

/// Where the member of that number is declared, of the flat type of the last of these, which are
/// all that it extends, the root first.
pub fn origin_of<'o, 'a>(
    order: &'o [&'a TypeDeclaration],
    kind: Kind,
    number: usize,
) -> Option<Origin<'o, 'a>> {
    let mut at = number.checked_sub(class_lines(order, kind))?;
    for (rank, it) in order.iter().enumerate() {
        let (count, built_in) = counts(*it, kind);
        at = at.checked_sub(built_in)?;
        if at < count {
            let before = &order[..rank];
            return Some(Origin {
                it: *it,
                at,
                before,
            });
        }
        at = at.checked_sub(count)?;
    }
    None
}

/// Whether a DelayChannel has the parameter.
fn is_of_delay(name: &[u8]) -> bool {
    spells(name, b"delay") || spells(name, b"disabled")
}

/// Whether the built-in channel of that name has the parameter.
pub fn has_parameter(channel: &[u8], name: &[u8]) -> bool {
    if spells(channel, b"DatarateChannel") {
        return is_of_delay(name)
            || spells(name, b"datarate")
            || spells(name, b"ber")
            || spells(name, b"per");
    }
    spells(channel, b"DelayChannel") && is_of_delay(name)
}

/// The built-in channel that declares the parameter for types that extend the first of these, where
/// there is one.
pub fn declaring_channel<'a>(order: &[&'a TypeDeclaration], name: &[u8]) -> Option<&'a [u8]> {
    let channel = order.first()?.base.as_ref()?.as_bytes();
    if has_parameter(channel, name) {
        Some(channel)
    } else {
        None
    }
}
