//! Copies of what files declare.

ghost use Rattle.std.specs.Prelude.{◌≡◌, ◌++◌, ◌∷◌, [], IfOk, OnOk};

use ned_files::shared::SharedFile;
use ned_scopes::copies::copy_type;
use ned_trees::declarations::{NedFile, NestedType};
use sim_values::dropping::pair_after;
use sqlite_items::Items;
use std::alloc::{AllocError, Global};

/// An equal type, with those within it.
#[cycle(copying)]
pub(crate) fn copy_nested(alloc: Global, nested: &NestedType) -> Result<NestedType, AllocError>
    ensures { IfOk result (λ copy. copy ≡ nested.now) }
{
    let declared = copy_type(alloc, &nested.declared)?;
    let types = copy_types(alloc, nested.types.as_slice());
    let (declared, types) = pair_after(declared, types)?;
    Ok(NestedType { declared, types })
}

/// Equal types, each with those within it.
#[cycle(copying)]
pub(crate) fn copy_types(
    alloc: Global,
    types: &[NestedType],
) -> Result<Items<NestedType>, AllocError>
    ensures { IfOk result (λ copy. copy ≡ types.now) }
{
    let mut copy = Items::new(alloc);
    for nested in types {
        copy.push(copy_nested(alloc, nested)?)?;
    }
    Ok(copy)
}

/// An equal file.
fn copy_file(alloc: Global, file: &NedFile) -> Result<NedFile, AllocError>
    ensures { IfOk result (λ copy. copy ≡ file.now) }
{
    Ok(NedFile {
        types: copy_types(alloc, file.types.as_slice())?,
    })
}

/// Adds a copy of a shared file at the end.
fn push_copy(alloc: Global, files: &mut Vec<NedFile>, file: &SharedFile) -> Result<(), AllocError>
    ensures { OnOk result (files.new.items ≡ files.old.items ++ file.now ∷ []) }
{
    let copy = copy_file(alloc, file.file())?;
    match files.push(copy) {
        Ok(()) => Ok(()),
        Err(failed) => Err(failed.into()),
    }
}

/// Equal files that are not shared.
pub(crate) fn unshared(alloc: Global, files: &[SharedFile]) -> Result<Vec<NedFile>, AllocError>
    ensures { IfOk result (λ copy. copy.items ≡ files.now) }
{
    let mut copy = Vec::new(alloc);
    for file in files {
        push_copy(alloc, &mut copy, file)?;
    }
    Ok(copy)
}
