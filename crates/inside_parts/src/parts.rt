//! The submodules that are made, and the gates that can be named of them.

use crate::gates::GateKind;
use sqlite_items::Items;

/// What was made of a submodule's declaration: nothing, one part, or a vector of so many parts from
/// a number on.
#[derive(Clone, Copy)]
pub enum Made {
    Absent,
    Single(usize),
    Vector(usize, u32),
}

/// The compound module itself or a submodule: the number of its first gate vector among those of
/// the whole inside, and the number of its type among all types.
#[derive(Clone, Copy)]
pub struct Part {
    pub first: usize,
    pub of_type: usize,
    pub is_own: bool,
    /// Of a submodule, the number of its declaration among those of the compound module's type.
    pub line: usize,
    /// Its index, where it is an element of a vector.
    pub index: Option<u32>,
}

/// What the ends of connections can name: what was made of each declaration, in their order, and
/// the parts. Part 0 is the compound module itself.
#[derive(Drop)]
pub struct Parts {
    pub made: Items<Made>,
    pub parts: Items<Part>,
}

/// A gate that an end names: the number of its part, the number of its vector among those of the
/// whole inside, what its type says of it, and whether it is the compound module's own. A single
/// gate counts as a vector of one.
#[derive(Clone, Copy)]
pub struct NamedGate {
    pub part: usize,
    pub vector: usize,
    pub kind: GateKind,
    pub is_own: bool,
}
