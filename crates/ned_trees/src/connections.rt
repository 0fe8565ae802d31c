//! Connections between gates, as written (OMNeT++ Simulation Manual, "Connections").

use crate::declarations::SectionLine;
use crate::expressions::Expression;
use sim_values::text::Text;
use sqlite_items::Items;

/// Which way a connection leads.
#[derive(Clone, Copy, PartialEq, Eq)]
pub enum Arrow {
    /// `-->`: from the left end to the right one.
    Right,
    /// `<--`: from the right end to the left one.
    Left,
    /// `<-->`: both ways, between inout gates.
    Both,
}

/// A half of an inout gate.
#[derive(Clone, Copy, PartialEq, Eq)]
pub enum Half {
    /// `$i`.
    Input,
    /// `$o`.
    Output,
}

/// Which gate of a vector.
#[derive(Drop)]
pub enum GateIndex {
    /// `[e]`.
    At(Expression),
    /// `++`: the first that is free.
    Next,
}

/// A gate at an end of a connection.
#[derive(Drop)]
pub struct Gate {
    pub name: Text,
    pub half: Option<Half>,
    /// None for a gate that is no vector.
    pub index: Option<GateIndex>,
}

/// The submodule whose gate an end is.
#[derive(Drop)]
pub struct Owner {
    pub name: Text,
    /// Which submodule of a vector; none for one that is no vector.
    pub index: Option<Expression>,
}

/// An end of a connection.
pub struct End {
    /// None where the gate is the module's own.
    pub owner: Option<Owner>,
    pub gate: Gate,
}

// Written out, so that a crate which drops one need not prove what that does.
impl Drop for End {
    fn drop(self) {
        let End { owner: _, gate: _ } = self;
    }
}

/// The channel of a connection.
pub struct Channel {
    /// Its type; none for a block alone, whose lines tell which built-in channel it is.
    pub type_name: Option<Text>,
    /// The lines of its block: declarations, assignments and ignored properties; none where it has
    /// no block.
    pub lines: Items<SectionLine>,
}

// Written out, so that a crate which drops one need not prove what that does.
impl Drop for Channel {
    fn drop(self) {
        let Channel {
            type_name: _,
            lines: _,
        } = self;
    }
}

/// A connection, without its loops and conditions.
pub struct Connection {
    pub left: End,
    pub arrow: Arrow,
    /// None for a connection without a channel.
    pub channel: Option<Channel>,
    pub right: End,
}

// Written out, so that a crate which drops one need not prove what that does.
impl Drop for Connection {
    fn drop(self) {
        let Connection {
            left: _,
            arrow: _,
            channel: _,
            right: _,
        } = self;
    }
}

/// `for NAME = FIRST .. LAST`.
#[derive(Drop)]
pub struct Loop {
    pub variable: Text,
    pub first: Expression,
    /// It is gone through too.
    pub last: Expression,
}

/// A loop or a condition.
#[derive(Drop)]
pub enum Clause {
    For(Loop),
    /// `if e`.
    If(Expression),
}

/// A connection, with its loops and conditions.
pub struct ConnectionLine {
    pub connection: Connection,
    /// In the order of the text, the outermost first.
    pub clauses: Items<Clause>,
}

// Written out, so that a crate which drops one need not prove what that does.
impl Drop for ConnectionLine {
    fn drop(self) {
        let ConnectionLine {
            connection: _,
            clauses: _,
        } = self;
    }
}

/// Connections that have loops and conditions in common: `for .., if .. { .. }`.
pub struct ConnectionGroup {
    /// At least one, the outermost first.
    pub clauses: Items<Clause>,
    pub lines: Items<ConnectionLine>,
}

// Written out, so that a crate which drops one need not prove what that does.
impl Drop for ConnectionGroup {
    fn drop(self) {
        let ConnectionGroup {
            clauses: _,
            lines: _,
        } = self;
    }
}

/// An item of a section of connections: what an edit puts in or takes out at a place.
pub enum ConnectionItem {
    Line(ConnectionLine),
    Group(ConnectionGroup),
}

// Written out, so that a crate which drops one need not prove what that does.
impl Drop for ConnectionItem {
    fn drop(self) {
        match self {
            ConnectionItem::Line(_) => {}
            ConnectionItem::Group(_) => {}
        }
    }
}

/// A section of connections. Without items and without the word it says the same as none.
pub struct ConnectionSection {
    /// It has the word `allowunconnected`: gates may stay unconnected.
    pub allow_unconnected: bool,
    /// In the order of the text: the first has the place 0.
    pub items: Items<ConnectionItem>,
}

// Written out, so that a crate which drops one need not prove what that does.
impl Drop for ConnectionSection {
    fn drop(self) {
        let ConnectionSection {
            allow_unconnected: _,
            items: _,
        } = self;
    }
}
