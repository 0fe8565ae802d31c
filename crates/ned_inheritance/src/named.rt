//! Types by their names.

ghost use Rattle.std.specs.Prelude.{◌≡◌, ◌++◌, ◌∷◌, [], false, not, length, IfOk, OnOk};
ghost use Rattle.std.specs.Option.{option_copied};
ghost use Rattle.ned_types.specs.Types.{type_named, is_type_named};
ghost use Rattle.ned_inheritance.specs.Named.{AddsName, AreNamed};
ghost use Rattle.ned_inheritance.specs.Inheritance.{types_in};
ghost use Rattle.ned_inheritance.specs.Order.{number_named};

use crate::faults::is_built_in;
use indexmap::IndexMap;
use ned_trees::declarations::TypeDeclaration;
use std::alloc::{AllocError, Global};
use std::marker::Model;

/// Types, which contracts see as their list. Each is found by its name at once, however many there
/// are.
pub(crate) struct NamedTypes<'a> {
    types: IndexMap<&'a [u8], &'a TypeDeclaration>,
}

// Written out, so that what drops some need not open what that does.
impl<'a> Drop for NamedTypes<'a> {
    fn drop(self) {
        let NamedTypes { types: _ } = self;
    }
}

impl<'a> Model for NamedTypes<'a> {
    ghost use Rattle.std.specs.Prelude.{List};
    ghost use Rattle.std.specs.Coded.{coded_list};
    ghost use Rattle.ned_trees.specs.contracts.declarations.TypeDeclaration.{the_row};
    ghost use Rattle.ned_trees.specs.declared.declarations.TypeDeclaration.{TypeDeclaration};
    ghost use Rattle.ned_inheritance.specs.Named.{types_at, HaveNames};

    ghost Value = { List TypeDeclaration };

    ghost coded = { coded_list the_row.coded };

    ghost view = { λ n. types_at n.types.entries };

    ghost invariant = { λ n. HaveNames n.types.entries };
}

impl<'a> NamedTypes<'a> {
    /// No types.
    pub(crate) fn new(alloc: Global) -> NamedTypes<'a>
        ensures { result ≡ [] }
    {
        NamedTypes {
            types: IndexMap::new(alloc),
        }
    }

    /// How many there are.
    pub(crate) fn len(&self) -> usize
        ensures { result ≡ length self.now }
    {
        self.types.len()
    }

    #[tactic(auto, using(crate::proofs::NamedLaws::types_of_values))]
    /// References to them, in order.
    pub(crate) fn references(&self, alloc: Global) -> Result<Vec<&'a TypeDeclaration>, AllocError>
        ensures { IfOk result (λ refs. types_in refs.items ≡ self.now) }
    {
        let mut refs = Vec::new(alloc);
        for declared in self.types.values() {
            refs.push(*declared)?;
        }
        Ok(refs)
    }

    /// The type of that name.
    pub(crate) fn find(&self, name: &[u8]) -> Option<&'a TypeDeclaration>
        ensures { option_copied result ≡ type_named name.now self.now }
    {
        self.types.get(name).copied()
    }

    /// The number of the type of that name.
    pub(crate) fn number_of(&self, name: &[u8]) -> Option<usize>
        ensures { result ≡ number_named self.now name.now }
    {
        self.types.get_index_of(name)
    }

    /// Whether there is one of that name.
    pub(crate) fn has(&self, name: &[u8]) -> bool
        ensures { result ≡ is_type_named name.now self.now }
    {
        self.find(name).is_some()
    }

    /// Adds a type after the others, unless there is one of its name: then it stands in that one's
    /// place.
    pub(crate) fn add(&mut self, declared: &'a TypeDeclaration) -> Result<bool, AllocError>
        ensures added { IfOk result
            (λ added. added ≡ not (is_type_named declared.now.name self.old)) }
        ensures names { OnOk result (AddsName self.old self.new declared.now) }
        ensures types { OnOk result (is_type_named declared.now.name self.old ≡ false
            → self.new ≡ self.old ++ declared.now ∷ []) }
    {
        let before = self.types.insert(declared.name.as_bytes(), declared)?;
        Ok(before.is_none())
    }
}

/// The types by their names; or the number of the first that has the name of one before it, or that
/// of a built-in channel.
pub(crate) fn by_name<'a>(
    alloc: Global,
    types: &'a [TypeDeclaration],
) -> Result<Result<NamedTypes<'a>, usize>, AllocError>
    ensures { IfOk result (AreNamed types.now) }
{
    let mut named = NamedTypes::new(alloc);
    let mut rest = types;
    'types: while let Some((declared, after)) = rest.split_first() {
        let number = named.len();
        if is_built_in(declared.name.as_bytes()) {
            return Ok(Err(number));
        }
        if !named.add(declared)? {
            return Ok(Err(number));
        }
        rest = after;
    }
    Ok(Ok(named))
}
