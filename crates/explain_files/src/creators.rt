//! Whether modules may be created in a network while it runs.

use crate::configurations::is_among;
use indexmap::IndexSet;
use model_data::model::Model;
use ned_trees::declarations::{Submodule, SubmoduleType, TypeDeclaration, TypeKind};
use ned_types::flat::class_of;
use sim_values::NoMemory;
use std::alloc::Global;

/// Of the classes that the program has modules of, those whose modules create others.
const CREATORS: [&[u8]; 1] = [b"Spawner"];

/// The names of types that modules of a network may have.
type Reached<'a> = IndexSet<&'a [u8]>;

/// Whether modules of that type create others.
fn creates(of: &TypeDeclaration) -> bool {
    of.kind == TypeKind::Simple && is_among(class_of(of), CREATORS.as_slice())
}

/// Whether a type keeps the interface of that name.
fn keeps(of: &TypeDeclaration, interface: &[u8]) -> bool {
    for name in of.interfaces.as_slice() {
        if name.is(interface) {
            return true;
        }
    }
    false
}

/// Adds the types that keep the interface of that name.
fn push_keeping<'a>(
    reached: &mut Reached<'a>,
    types: &'a [TypeDeclaration],
    interface: &[u8],
) -> Result<(), NoMemory> {
    for of in types {
        if keeps(of, interface) {
            reached.insert(of.name.as_bytes())?;
        }
    }
    Ok(())
}

/// Adds the types that a submodule may have.
fn push_types_of<'a>(
    reached: &mut Reached<'a>,
    types: &'a [TypeDeclaration],
    submodule: &'a Submodule,
) -> Result<(), NoMemory> {
    match &submodule.submodule_type {
        SubmoduleType::Named(name) => {
            reached.insert(name.as_bytes())?;
            Ok(())
        }
        SubmoduleType::Like(it) => push_keeping(reached, types, it.interface.as_bytes()),
    }
}

/// Adds the types that the submodules of a type may have.
fn push_types_within<'a>(
    reached: &mut Reached<'a>,
    types: &'a [TypeDeclaration],
    around: &'a TypeDeclaration,
) -> Result<(), NoMemory> {
    for submodule in around.submodules.as_slice() {
        push_types_of(reached, types, submodule)?;
    }
    Ok(())
}

/// Whether a module that may stand in the network of a model creates others: by the types that the
/// submodules of the network may have, those of these, and so on, whatever conditions and sizes
/// come to. So it may be that none does where this is so.
pub fn may_create(alloc: Global, model: &Model) -> Result<bool, NoMemory> {
    let Some(network) = model.network() else {
        return Ok(false);
    };
    let types = model.types.types();
    let mut reached = IndexSet::new(alloc);
    reached.insert(network.name.as_bytes())?;
    for at in 0..types.len() {
        let Some(name) = reached.get_index(at).copied() else {
            return Ok(false);
        };
        if let Some(of) = model.types.find(name) {
            if creates(of) {
                return Ok(true);
            }
            push_types_within(&mut reached, types, of)?;
        }
    }
    Ok(false)
}
