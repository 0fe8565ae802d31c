//! Types of files within which there are no others: no name in them means anything but itself, so
//! they stay as they are.

ghost use Rattle.std.specs.Prelude.{◌≡◌, map, reverse, IfOk};
ghost use Rattle.ned_scopes.specs.Scopes.{declared_of};

use ned_trees::declarations::{NestedType, TypeDeclaration};
use sqlite_items::Items;
use std::alloc::{AllocError, Global};

/// The types in the reverse order, without those within them.
fn turned(alloc: Global, nested: Items<NestedType>) -> Result<Items<TypeDeclaration>, AllocError>
    ensures { IfOk result (λ types. reverse types ≡ map declared_of nested) }
{
    let mut types = Items::new(alloc);
    let mut rest = nested;
    while let Some(one) = rest.pop() {
        let NestedType { declared, types: _ } = one;
        types.push(declared)?;
    }
    Ok(types)
}

/// The types in the reverse order.
fn turned_again(
    alloc: Global,
    types: Items<TypeDeclaration>,
) -> Result<Items<TypeDeclaration>, AllocError>
    ensures { IfOk result (λ turned. turned ≡ reverse types) }
{
    let mut turned = Items::new(alloc);
    let mut rest = types;
    while let Some(one) = rest.pop() {
        turned.push(one)?;
    }
    Ok(turned)
}

/// The types, without those within them.
pub(crate) fn plain_types(
    alloc: Global,
    nested: Items<NestedType>,
) -> Result<Items<TypeDeclaration>, AllocError>
    ensures { IfOk result (λ types. types ≡ map declared_of nested) }
{
    let types = turned(alloc, nested)?;
    turned_again(alloc, types)
}
