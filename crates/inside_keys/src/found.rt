//! Values.

use crate::key::WrittenAt;
use inside_parts::parts::Parts;
use inside_wiring::wiring::{Carrier, Wiring};
use sim_values::value::Value;
use sqlite_items::Boxed;

/// The inside of a compound module: its submodules, the sizes of their gate vectors and of its own,
/// and the connections.
#[derive(Drop)]
pub struct Inside {
    pub parts: Parts,
    /// Large beside all else that a key has as its value, so it stands in a box.
    pub wiring: Boxed<Wiring>,
}

/// What a key has as its value.
#[derive(Drop)]
pub enum Found {
    /// Of a parameter, a condition or a size; of a type its number.
    Value(Value),
    /// Of a channel, what it does to messages.
    Carrier(Carrier),
    /// Of a module's inside. It stands once, in the table of values, and is read where it stands.
    Inside(Inside),
}

/// The inside of a compound module while it is built. It goes from step to step, so its large part
/// stands in a box.
#[derive(Drop)]
pub struct State {
    pub parts: Parts,
    pub wiring: Boxed<Wiring>,
    /// How many turns of loops may still be made.
    pub turns: u32,
    /// Where the connection is written that is made.
    pub written: WrittenAt,
}
