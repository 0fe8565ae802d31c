//! Types by their full names.

ghost use Rattle.std.specs.Prelude.{◌≡◌, [], length, ◌↔◌, IsTrue, IfOk, OnOk};
ghost use Rattle.std.specs.Option.{option_copied};
ghost use Rattle.ned_scopes.specs.Known.{base_named, is_known, once_behind};

use indexmap::IndexMap;
use sim_values::text::Text;
use std::alloc::{AllocError, Global};
use std::marker::Model;

/// A type by its full name, and what it extends, as that is written.
#[derive(Drop)]
pub struct Known {
    pub name: Text,
    pub base: Option<Text>,
}

/// Types, which contracts see as their list, each name once.
pub struct KnownTypes {
    bases: IndexMap<Text, Option<Text>>,
}

// Written out, so that what drops some need not open what that does.
impl Drop for KnownTypes {
    fn drop(self) {
        let KnownTypes { bases: _ } = self;
    }
}

impl Model for KnownTypes {
    ghost use Rattle.std.specs.Prelude.{List};
    ghost use Rattle.std.specs.Coded.{coded_list};
    ghost use Rattle.ned_scopes.specs.contracts.known.Known.{the_row};
    ghost use Rattle.ned_scopes.specs.declared.known.Known.{Known};
    ghost use Rattle.ned_scopes.specs.Known.{known_at};

    ghost Value = { List Known };

    ghost coded = { coded_list the_row.coded };

    ghost view = { λ k. known_at k.bases.entries };
}

impl KnownTypes {
    /// No types.
    pub(crate) fn new(alloc: Global) -> KnownTypes
        ensures { result ≡ [] }
    {
        KnownTypes {
            bases: IndexMap::new(alloc),
        }
    }

    /// Whether there are none.
    pub(crate) fn is_empty(&self) -> bool
        ensures { IsTrue result ↔ (self.now ≡ []) }
    {
        self.bases.len() == 0
    }

    /// How many there are.
    pub(crate) fn len(&self) -> usize
        ensures { result ≡ length self.now }
    {
        self.bases.len()
    }

    /// Whether one has that full name.
    pub(crate) fn has(&self, name: &Text) -> bool
        ensures { result ≡ is_known self.now name.now }
    {
        self.bases.get(name).is_some()
    }

    /// What the one of that full name extends, as it is written.
    pub(crate) fn base_named(&self, name: &Text) -> Option<&Text>
        ensures { option_copied result ≡ base_named self.now name.now }
    {
        match self.bases.get(name) {
            Some(base) => base.as_ref(),
            None => None,
        }
    }

    /// Adds a type after the others, unless its name is known.
    pub(crate) fn add(&mut self, known: Known) -> Result<(), AllocError>
        ensures { OnOk result (self.new ≡ once_behind self.old known) }
    {
        if self.has(&known.name) {
            return Ok(());
        }
        self.bases.insert(known.name, known.base)?;
        Ok(())
    }
}

/// The types of files by their full names: all, and those within others.
pub struct TypesByName {
    pub all: KnownTypes,
    pub inner: KnownTypes,
}

// Written out, so that what drops them need not open what that does.
impl Drop for TypesByName {
    fn drop(self) {
        let TypesByName { all: _, inner: _ } = self;
    }
}
