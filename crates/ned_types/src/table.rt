//! The table of types.

ghost use Rattle.std.specs.Prelude.{◌≡◌, IfOk, slice_get};
ghost use Rattle.std.specs.Option.{option_copied};
ghost use Rattle.ned_types.specs.Types.{type_named};
ghost use Rattle.ned_types.specs.WellFormed.{IsWellFormed};

use ned_trees::declarations::TypeDeclaration;
use sim_values::dropping::{after, pair_after};
use sqlite_items::Items;
use std::alloc::{AllocError, Global};
use std::collections::BTreeMap;
use std::marker::Model;
use std::rc::Rc;

/// The flat types of all that are declared, in the order of the files and within them, which
/// contracts see as their list. They keep the rules of types. A flat type has what its bases have,
/// and extends nothing. A copy shares them.
pub struct TypeTable {
    types: Rc<Items<TypeDeclaration>>,
    /// The place of each name: where a type is looked for first.
    places: Rc<BTreeMap<Vec<u8>, usize>>,
}

// Written out, so that a crate which drops one need not prove what that does.
impl Drop for TypeTable {
    fn drop(self) {
        let TypeTable {
            types: _,
            places: _,
        } = self;
    }
}

impl Model for TypeTable {
    ghost use Rattle.std.specs.Prelude.{List};
    ghost use Rattle.std.specs.Coded.{coded_list};
    ghost use Rattle.ned_trees.specs.contracts.declarations.TypeDeclaration.{the_row};
    ghost use Rattle.ned_types.specs.WellFormed.{IsWellFormed};
    ghost use Rattle.ned_trees.specs.declared.declarations.TypeDeclaration.{TypeDeclaration};

    ghost Value = { List TypeDeclaration };

    ghost coded = { coded_list the_row.coded };

    ghost view = { λ t. t.types.value };

    ghost invariant = { λ t. IsWellFormed t.types.value };
}

impl TypeTable {
    /// The table of these types, which keep the rules.
    pub fn of(alloc: Global, types: Items<TypeDeclaration>) -> Result<TypeTable, AllocError>
        requires { IsWellFormed types }
        ensures { IfOk result (λ table. table ≡ types) }
    {
        let places = shared_places(alloc, types.as_slice());
        let (types, places) = pair_after(types, places)?;
        let types = shared(alloc, types);
        let (places, types) = pair_after(places, types)?;
        Ok(TypeTable { types, places })
    }

    /// An equal table, which shares the types. It takes no memory, and fails only where there are
    /// too many copies to be counted.
    pub fn copy(&self) -> Result<TypeTable, AllocError>
        ensures { IfOk result (λ copy. copy ≡ self.now) }
    {
        Ok(TypeTable {
            types: self.types.clone()?,
            places: self.places.clone()?,
        })
    }

    /// The types, in order, which keep the rules of types.
    pub fn types(&self) -> &[TypeDeclaration]
        ensures types { result.now ≡ self.now }
        ensures rules { IsWellFormed self.now }
    {
        self.types.as_slice()
    }

    /// The type of that name.
    pub fn find(&self, name: &[u8]) -> Option<&TypeDeclaration>
        ensures { option_copied result ≡ type_named name.now self.now }
    {
        let types = self.types();
        type_near(types, self.place_of(name), name)
    }

    /// Where a type of that name is looked for first.
    fn place_of(&self, name: &[u8]) -> usize {
        match self.places.get(name) {
            Some(place) => *place,
            None => 0,
        }
    }
}

/// A value that can be shared.
fn shared<T: Drop>(alloc: Global, value: T) -> Result<Rc<T>, AllocError>
    ensures { IfOk result (λ shared. shared.value ≡ value) }
{
    match Rc::new(alloc, value) {
        Ok(shared) => Ok(shared),
        Err(failed) => Err(failed.into()),
    }
}

/// Adds the place of each name.
fn add_places(
    alloc: Global,
    places: &mut BTreeMap<Vec<u8>, usize>,
    types: &[TypeDeclaration],
) -> Result<(), AllocError> {
    for (place, declared) in types.iter().enumerate() {
        let name = Vec::from_slice(alloc, declared.name.as_bytes())?;
        places.insert(name, place)?;
    }
    Ok(())
}

/// The place of each name, which copies of a table share.
fn shared_places(
    alloc: Global,
    types: &[TypeDeclaration],
) -> Result<Rc<BTreeMap<Vec<u8>, usize>>, AllocError> {
    let mut places = BTreeMap::new(alloc);
    let done = add_places(alloc, &mut places, types);
    let places = after(places, done)?;
    shared(alloc, places)
}

/// The type of that name, looked for at that place first.
fn type_near<'a>(
    types: &'a [TypeDeclaration],
    place: usize,
    name: &[u8],
) -> Option<&'a TypeDeclaration>
    requires { IsWellFormed types.now }
    ensures { option_copied result ≡ type_named name.now types.now }
{
    match type_at(types, place) {
        Some(declared) if declared.name.is(name) => Some(declared),
        _ => find_type(types, name),
    }
}

/// The first type of that name.
pub fn find_type<'a>(types: &'a [TypeDeclaration], name: &[u8]) -> Option<&'a TypeDeclaration>
    ensures { option_copied result ≡ type_named name.now types.now }
{
    for declared in types {
        if declared.name.is(name) {
            return Some(declared);
        }
    }
    None
}

/// The type at that place.
fn type_at(types: &[TypeDeclaration], place: usize) -> Option<&TypeDeclaration>
    ensures { option_copied result ≡ slice_get types.now place }
{
    types.get(place)
}
