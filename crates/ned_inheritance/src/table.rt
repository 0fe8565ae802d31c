//! The table of the types that files declare, or why they make none.

ghost use Rattle.std.specs.Prelude.{◌≡◌, IfOk};
ghost use Rattle.ned_scopes.specs.Scopes.{types_of};
ghost use Rattle.ned_types.specs.WellFormed.{IsWellFormed};
ghost use Rattle.ned_inheritance.specs.Inheritance.{flat_types};
ghost use Rattle.ned_inheritance.specs.Faults.{type_fault_name};
ghost use Rattle.ned_inheritance.specs.Building.{AnswersTable, Builds, KeepRules};

use crate::faults;
use crate::places::FaultPlace;
use ned_scopes::scopes::types_of;
use ned_trees::declarations::{NedFile, TypeDeclaration};
use ned_types::table::TypeTable;
use sim_values::NoMemory;
use sqlite_items::Items;
use std::alloc::{AllocError, Global};

/// Why declared types make no model. Of several reasons the first in this order is told.
#[derive(Clone, Copy, Debug, PartialEq, Eq)]
pub enum TypeFault {
    /// Two types have one name, or one has that of a built-in channel.
    DuplicateType,
    /// A submodule's type or interface, the channel of a connection, what a type extends, or one of
    /// its interfaces isn't declared.
    UnknownType,
    /// A type extends itself, perhaps by way of others.
    InheritanceCircle,
    /// What a type extends or one of its interfaces is of another kind, a parameter, a gate or a
    /// submodule is declared twice, a value is given to an undeclared parameter or after a fixed
    /// one, by a section, by the body of a submodule or by the block of a channel, a body declares
    /// a parameter or a gate, a submodule's type is none of modules, what stands after `like` is no
    /// interface of modules, what a connection names as its channel is no channel, or a network is
    /// declared within another.
    KindClash,
    /// A type lacks a parameter or a gate of one of its interfaces.
    Interface,
}

impl TypeFault {
    /// Its name, as answers have it.
    pub fn name(self) -> &'static [u8]
        ensures { result.now ≡ type_fault_name self }
    {
        match self {
            TypeFault::DuplicateType => b"DuplicateType",
            TypeFault::UnknownType => b"UnknownType",
            TypeFault::InheritanceCircle => b"InheritanceCircle",
            TypeFault::KindClash => b"KindClash",
            TypeFault::Interface => b"Interface",
        }
    }
}

/// Why there is no table.
#[derive(Clone, Copy)]
pub enum BuildError {
    /// The types make no model, and here is the first place that shows it.
    Fault(TypeFault, FaultPlace),
    /// Memory ran out.
    NoMemory(NoMemory),
}

impl From<AllocError> for BuildError {
    ghost use Rattle.std.specs.Prelude.{◌≡◌};
    ghost use Rattle.sim_values.specs.Memory.{no_memory};
    ghost use Rattle.ned_inheritance.specs.declared.table.BuildError.TheVariants.{NoMemory};

    ghost from_gives = { λ _ e. e ≡ NoMemory no_memory };

    fn from(error: AllocError) -> BuildError {
        BuildError::NoMemory(error.into())
    }
}

/// The flat type of each of these types, whose names are full ones, or the first reason why they
/// make no model. A type that extends nothing and is no interface is moved.
pub fn flat_types(
    alloc: Global,
    types: Items<TypeDeclaration>,
) -> Result<Items<TypeDeclaration>, BuildError>
    // Each flat type, or the first fault with its place.
    ensures built { Builds types result }
    // What is built keeps the rules of types.
    ensures rules { IfOk result IsWellFormed }
    // Types that keep the rules have no fault.
    ensures complete { KeepRules types → AnswersTable (flat_types types) result }
{
    faults::flattened(alloc, types)
}

/// The table of the files' types, or the first reason why they make none.
pub fn build(alloc: Global, files: Vec<NedFile>) -> Result<TypeTable, BuildError>
    // The table has the flat types of all files, or the first fault is told with its place.
    ensures built { Builds (types_of files.items) result }
    // What is built keeps the rules of types.
    ensures rules { IfOk result IsWellFormed }
    // Types that keep the rules make a table, unless memory runs out.
    ensures complete { KeepRules (types_of files.items)
        → AnswersTable (flat_types (types_of files.items)) result }
{
    let declared = types_of(alloc, files)?;
    let types = flat_types(alloc, declared)?;
    let table = TypeTable::of(alloc, types)?;
    Ok(table)
}
