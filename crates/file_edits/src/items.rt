//! Files in which the connections of a type are others.

ghost use Rattle.std.specs.Prelude.{◌≡◌, ◌++◌, IfOk, OnOk, option_map};
ghost use Rattle.std.specs.List.{list_any};
ghost use Rattle.std.specs.Option.{option_copied};
ghost use Rattle.file_edits.specs.Items.{change_first, declared_with, declares, file_with};
ghost use Rattle.file_edits.specs.Items.{files_with, first_of, is_compound, is_module_named};
ghost use Rattle.file_edits.specs.Items.{items_in_file, items_of, type_with};

use crate::copies::copy_nested;
use ned_files::shared::SharedFile;
use ned_trees::connections::ConnectionItem;
use ned_trees::declarations::{NedFile, NestedType, TypeDeclaration, TypeKind};
use sqlite_items::Items;
use std::alloc::{AllocError, Global};

/// Whether types of that kind have connections.
fn is_compound(kind: TypeKind) -> bool
    ensures { result ≡ is_compound kind }
{
    match kind {
        TypeKind::Module | TypeKind::Network => true,
        _ => false,
    }
}

/// Whether it is a module or a network of that name.
fn is_module_named(nested: &NestedType, name: &[u8]) -> bool
    ensures { result ≡ is_module_named name.now nested.now }
{
    nested.declared.name.is(name) && is_compound(nested.declared.kind)
}

/// The first module or network of that name.
fn first_type<'a>(types: &'a [NestedType], name: &[u8]) -> Option<&'a NestedType>
    ensures { option_copied result ≡ first_of (is_module_named name.now) types.now }
{
    for nested in types {
        if is_module_named(nested, name) {
            return Some(nested);
        }
    }
    None
}

/// Whether the file declares a module or a network of that name, and not within another type.
fn declares(file: &NedFile, name: &[u8]) -> bool
    ensures { result ≡ declares name.now file.now }
{
    file.types
        .as_slice()
        .iter()
        .any(|nested| is_module_named(nested, name))
}

/// The first file that declares one.
fn first_file<'a>(files: &'a [SharedFile], name: &[u8]) -> Option<&'a NedFile>
    ensures { option_copied result ≡ first_of (declares name.now) files.now }
{
    for shared in files {
        if declares(shared.file(), name) {
            return Some(shared.file());
        }
    }
    None
}

/// The items of the connections of the file's first module or network of that name.
fn items_in_file<'a>(file: &'a NedFile, name: &[u8]) -> Option<&'a [ConnectionItem]>
    ensures { option_copied result ≡ items_in_file name.now file.now }
{
    let nested = first_type(file.types.as_slice(), name)?;
    Some(nested.declared.connections.items.as_slice())
}

/// The items of the connections of the first module or network of that name that the files declare,
/// not within another type.
pub(crate) fn items_of<'a>(files: &'a [SharedFile], name: &[u8]) -> Option<&'a [ConnectionItem]>
    ensures { option_copied result ≡ items_of name.now files.now }
{
    let file = first_file(files, name)?;
    items_in_file(file, name)
}

/// The type with these items.
fn declared_with(declared: TypeDeclaration, items: Items<ConnectionItem>) -> TypeDeclaration
    ensures { result ≡ declared_with items declared }
{
    let mut changed = declared;
    changed.connections.items = items;
    changed
}

/// A copy of the type with these items.
fn type_with(
    alloc: Global,
    nested: &NestedType,
    items: Items<ConnectionItem>,
) -> Result<NestedType, AllocError>
    ensures { IfOk result (λ copy. copy ≡ type_with items nested.now) }
{
    let NestedType { declared, types } = copy_nested(alloc, nested)?;
    Ok(NestedType {
        declared: declared_with(declared, items),
        types,
    })
}

/// Adds copies of these types at the end.
fn add_types(
    alloc: Global,
    types: &mut Items<NestedType>,
    more: &[NestedType],
) -> Result<(), AllocError>
    ensures { OnOk result (types.new ≡ types.old ++ more.now) }
{
    for nested in more {
        types.push(copy_nested(alloc, nested)?)?;
    }
    Ok(())
}

/// Copies of the types, in which the first module or network of that name has these items.
fn changed_types(
    alloc: Global,
    types: &[NestedType],
    name: &[u8],
    items: Items<ConnectionItem>,
) -> Result<Items<NestedType>, AllocError>
    ensures { IfOk result (λ changed. changed
        ≡ change_first (is_module_named name.now) (type_with items) types.now) }
{
    let mut changed = Items::new(alloc);
    let mut left = types;
    'types: while let [nested, rest @ ..] = left {
        if is_module_named(nested, name) {
            changed.push(type_with(alloc, nested, items)?)?;
            add_types(alloc, &mut changed, rest)?;
            return Ok(changed);
        }
        changed.push(copy_nested(alloc, nested)?)?;
        left = rest;
    }
    Ok(changed)
}

/// A copy of the file, in which the first module or network of that name has these items.
fn file_with(
    alloc: Global,
    file: &NedFile,
    name: &[u8],
    items: Items<ConnectionItem>,
) -> Result<SharedFile, AllocError>
    ensures { IfOk result (λ changed. changed ≡ file_with name.now items file.now) }
{
    let types = changed_types(alloc, file.types.as_slice(), name, items)?;
    SharedFile::new(alloc, NedFile { types })
}

/// Adds these files at the end, shared.
fn add_files(files: &mut Items<SharedFile>, more: &[SharedFile]) -> Result<(), AllocError>
    ensures { OnOk result (files.new ≡ files.old ++ more.now) }
{
    for shared in more {
        files.push(shared.share()?)?;
    }
    Ok(())
}

/// The files, in which the first module or network of that name has these items. All but its file
/// are shared.
pub(crate) fn files_with(
    alloc: Global,
    files: &[SharedFile],
    name: &[u8],
    items: Items<ConnectionItem>,
) -> Result<Items<SharedFile>, AllocError>
    ensures { IfOk result (λ changed. changed ≡ files_with name.now items files.now) }
{
    let mut changed = Items::new(alloc);
    let mut left = files;
    'files: while let [shared, rest @ ..] = left {
        if declares(shared.file(), name) {
            changed.push(file_with(alloc, shared.file(), name, items)?)?;
            add_files(&mut changed, rest)?;
            return Ok(changed);
        }
        changed.push(shared.share()?)?;
        left = rest;
    }
    Ok(changed)
}
