//! All types of files by their full names.

ghost use Rattle.std.specs.Prelude.{◌≡◌, [], ◌++◌, IfOk, OnOk};
ghost use Rattle.ned_scopes.specs.Known.{all_behind};
ghost use Rattle.ned_scopes.specs.Scopes.{all_types, inner_types, known_as, known_from};
ghost use Rattle.ned_scopes.specs.Scopes.{known_within, nested_of, resolved_from, resolved_within};
ghost use Rattle.ned_scopes.specs.Scopes.{types_by_name, types_of};

use crate::copies::copy_base;
use crate::known::{Known, KnownTypes, TypesByName};
use crate::names::{inner_name, resolved, scopes_of};
use crate::plain::plain_types;
use ned_trees::declarations::{NedFile, NestedType, TypeDeclaration};
use sim_values::dropping::{after, pair_after};
use sim_values::text::Text;
use sqlite_items::Items;
use std::alloc::{AllocError, Global};

/// A type of that full name, and what it extends.
fn known_as(alloc: Global, name: &Text, declared: &TypeDeclaration) -> Result<Known, AllocError>
    ensures { IfOk result (λ known. known ≡ known_as name.now declared.now) }
{
    Ok(Known {
        name: name.copy(alloc)?,
        base: copy_base(alloc, &declared.base)?,
    })
}

/// Adds a type within the one of that full name, and all types within it.
#[cycle(known)]
fn add_from(
    alloc: Global,
    known: &mut KnownTypes,
    outer: &Text,
    nested: &NestedType,
) -> Result<(), AllocError>
    ensures { OnOk result (known.new ≡ all_behind known.old (known_from nested.now outer.now)) }
{
    let name = inner_name(alloc, outer, &nested.declared.name)?;
    known.add(known_as(alloc, &name, &nested.declared)?)?;
    add_within(alloc, known, &name, nested.types.as_slice())
}

#[tactic(auto, using(crate::proofs::KnownLaws::behind_both))]
/// Adds these types within the one of that full name, and all types within them.
#[cycle(known)]
fn add_within(
    alloc: Global,
    known: &mut KnownTypes,
    outer: &Text,
    types: &[NestedType],
) -> Result<(), AllocError>
    ensures { OnOk result (known.new ≡ all_behind known.old (known_within outer.now types.now)) }
{
    for nested in types {
        add_from(alloc, known, outer, nested)?;
    }
    Ok(())
}

#[tactic(auto, using(crate::proofs::KnownLaws::behind_both))]
/// Adds all types within these types of files.
fn add_inner(alloc: Global, known: &mut KnownTypes, types: &[NestedType]) -> Result<(), AllocError>
    ensures { OnOk result (known.new ≡ all_behind known.old (inner_types types.now)) }
{
    for nested in types {
        add_within(alloc, known, &nested.declared.name, nested.types.as_slice())?;
    }
    Ok(())
}

/// All types within these types of files.
fn inner_types(alloc: Global, types: &[NestedType]) -> Result<KnownTypes, AllocError>
    ensures { IfOk result (λ known. known ≡ all_behind [] (inner_types types.now)) }
{
    let mut known = KnownTypes::new(alloc);
    let done = add_inner(alloc, &mut known, types);
    after(known, done)
}

#[tactic(auto, using(crate::proofs::KnownLaws::behind_both))]
/// Adds these types of files, each with all within it.
fn add_types(alloc: Global, known: &mut KnownTypes, types: &[NestedType]) -> Result<(), AllocError>
    ensures { OnOk result (known.new ≡ all_behind known.old (all_types types.now)) }
{
    for nested in types {
        known.add(known_as(alloc, &nested.declared.name, &nested.declared)?)?;
        add_within(alloc, known, &nested.declared.name, nested.types.as_slice())?;
    }
    Ok(())
}

/// These types of files, each with all within it.
fn all_types(alloc: Global, types: &[NestedType]) -> Result<KnownTypes, AllocError>
    ensures { IfOk result (λ known. known ≡ all_behind [] (all_types types.now)) }
{
    let mut known = KnownTypes::new(alloc);
    let done = add_types(alloc, &mut known, types);
    after(known, done)
}

/// Adds a type and all types within it, where these are the scopes of its head.
#[cycle(resolving)]
fn add_resolved(
    alloc: Global,
    list: &mut Items<TypeDeclaration>,
    types: &TypesByName,
    scopes: &[Text],
    nested: &NestedType,
) -> Result<(), AllocError>
    ensures { OnOk result (list.new ≡ list.old ++ resolved_from types.now nested.now scopes.now) }
{
    let own = scopes_of(alloc, types, scopes, &nested.declared)?;
    list.push(resolved(alloc, types, scopes, own.as_slice(), &nested.declared)?)?;
    add_all_resolved(alloc, list, types, own.as_slice(), nested.types.as_slice())
}

/// Adds these types and all types within them.
#[cycle(resolving)]
fn add_all_resolved(
    alloc: Global,
    list: &mut Items<TypeDeclaration>,
    types: &TypesByName,
    scopes: &[Text],
    nested: &[NestedType],
) -> Result<(), AllocError>
    ensures { OnOk result (list.new ≡ list.old ++ resolved_within types.now scopes.now nested.now) }
{
    for one in nested {
        add_resolved(alloc, list, types, scopes, one)?;
    }
    Ok(())
}

/// The types of all files, one file after the other.
fn nested_of(alloc: Global, files: Vec<NedFile>) -> Result<Items<NestedType>, AllocError>
    ensures { IfOk result (λ types. types ≡ nested_of files.items) }
{
    let mut types = Items::new(alloc);
    for file in files {
        types.append(file.types)?;
    }
    Ok(types)
}

/// These types of files and all types within them, where there are some.
fn resolved_types(
    alloc: Global,
    nested: &[NestedType],
    inner: KnownTypes,
) -> Result<Items<TypeDeclaration>, AllocError>
    requires { inner ≡ all_behind [] (inner_types nested.now) }
    ensures { IfOk result
        (λ list. list ≡ resolved_within (types_by_name nested.now) [] nested.now) }
{
    let (inner, all) = pair_after(inner, all_types(alloc, nested))?;
    let types = TypesByName { all, inner };
    let mut list = Items::new(alloc);
    let done = add_all_resolved(alloc, &mut list, &types, &[], nested);
    after(list, done)
}

#[tactic(auto, using(crate::proofs::PlainLaws::plain), unfolding(crate::specs::Scopes::types_of))]
/// All types of all files, each directly before those within it, by their full names: each name in
/// them is that of the type that it means where it stands.
pub fn types_of(alloc: Global, files: Vec<NedFile>) -> Result<Items<TypeDeclaration>, AllocError>
    ensures { IfOk result (λ types. types ≡ types_of files.items) }
{
    let nested = nested_of(alloc, files)?;
    let inner = inner_types(alloc, nested.as_slice());
    let (nested, inner) = pair_after(nested, inner)?;
    if inner.is_empty() {
        return plain_types(alloc, nested);
    }
    resolved_types(alloc, nested.as_slice(), inner)
}
