//! What is looked up of a model, made once for all who ask: of its types, and of its ini text.

ghost use Rattle.std.specs.Prelude.{◌≡◌, IfOk, OnOk, map, slice_get};
ghost use Rattle.std.specs.Option.{option_copied};
ghost use Rattle.inside_keys.specs.Inside.{submodule_names};
ghost use Rattle.ini_index.specs.IndexOf.{IsIndexOf};
ghost use Rattle.model_settings.specs.Standings.{gates_of_types, names_behind, names_of_types};
ghost use Rattle.model_settings.specs.Standings.{submodules_of_types};
ghost use Rattle.model_settings.specs.Tables.{AreOfTypes, AreTablesOf};
ghost use Rattle.ned_types.specs.WellFormed.{HaveOwnNames, IsWellFormed};

use ini_index::index::EntryIndex;
use inside_parts::gates::{TypeGates, gates_of};
use inside_parts::names::Names;
use model_data::model::Model;
use ned_channels::built_in::BuiltInChannels;
use ned_trees::declarations::{Submodule, TypeDeclaration};
use sim_values::NoMemory;
use sim_values::text::Text;
use sqlite_items::Items;
use std::alloc::Global;
use std::rc::Rc;

/// The names of these types, each once.
fn add_types(alloc: Global, names: &mut Names, types: &[TypeDeclaration]) -> Result<(), NoMemory>
    ensures { OnOk result (names.new ≡ names_behind names.old (names_of_types types.now)) }
{
    for declared in types {
        names.push(declared.name.copy(alloc)?)?;
    }
    Ok(())
}

/// The names of these types, of which no two are the same.
#[tactic(auto, using(crate::proofs::Once::types_added))]
fn names_of_types(alloc: Global, types: &[TypeDeclaration]) -> Result<Names, NoMemory>
    requires { IsWellFormed types.now }
    ensures { IfOk result (λ names. names ≡ names_of_types types.now) }
{
    let mut names = Names::new(alloc);
    add_types(alloc, &mut names, types)?;
    Ok(names)
}

/// The names of these submodules, each once.
fn add_submodules(
    alloc: Global,
    names: &mut Names,
    submodules: &[Submodule],
) -> Result<(), NoMemory>
    ensures { OnOk result (names.new
        ≡ names_behind names.old (map (λ (l : Submodule). l.name) submodules.now)) }
{
    for submodule in submodules {
        names.push(submodule.name.copy(alloc)?)?;
    }
    Ok(())
}

/// The names of the submodules that a type declares, of which no two are the same.
#[tactic(auto, using(crate::proofs::Once::submodules_added))]
fn submodule_names(alloc: Global, declared: &TypeDeclaration) -> Result<Names, NoMemory>
    requires { HaveOwnNames declared.now.submodules }
    ensures { IfOk result (λ names. names ≡ submodule_names declared.now) }
{
    let mut names = Names::new(alloc);
    add_submodules(alloc, &mut names, declared.submodules.as_slice())?;
    Ok(names)
}

/// For each type the names of its submodules.
fn submodules_of_types(alloc: Global, types: &[TypeDeclaration]) -> Result<Items<Names>, NoMemory>
    requires { IsWellFormed types.now }
    ensures { IfOk result (λ names. names ≡ submodules_of_types types.now) }
{
    let mut names = Items::new(alloc);
    for declared in types {
        names.push(submodule_names(alloc, declared)?)?;
    }
    Ok(names)
}

/// For each type its gates.
fn gates_of_types(alloc: Global, types: &[TypeDeclaration]) -> Result<Items<TypeGates>, NoMemory>
    ensures { IfOk result (λ gates. gates ≡ gates_of_types types.now) }
{
    let mut gates = Items::new(alloc);
    for declared in types {
        gates.push(gates_of(alloc, declared.gates.as_slice())?)?;
    }
    Ok(gates)
}

/// What is looked up of the types of a model.
#[derive(Drop)]
pub struct TypeTables {
    /// The names of all types.
    names: Names,
    /// For each the names of its submodules.
    submodules: Items<Names>,
    /// For each its gates.
    gates: Items<TypeGates>,
    /// The lines of the built-in channels.
    built_in: BuiltInChannels,
}

impl TypeTables {
    /// All that is looked up of these types.
    fn new(alloc: Global, types: &[TypeDeclaration]) -> Result<TypeTables, NoMemory>
        requires { IsWellFormed types.now }
        ensures { IfOk result (λ tables. AreOfTypes types.now tables) }
    {
        Ok(TypeTables {
            names: names_of_types(alloc, types)?,
            submodules: submodules_of_types(alloc, types)?,
            gates: gates_of_types(alloc, types)?,
            built_in: BuiltInChannels::new(alloc)?,
        })
    }

    /// The names of all types.
    pub(crate) fn names(&self) -> &Names
        ensures { result.now ≡ self.now.names }
    {
        &self.names
    }

    /// For each type its gates.
    pub(crate) fn gates(&self) -> &[TypeGates]
        ensures { result.now ≡ self.now.gates }
    {
        self.gates.as_slice()
    }

    /// The names of the submodules of the type of that number.
    pub(crate) fn submodules(&self, number: usize) -> Option<&Names>
        ensures { option_copied result ≡ slice_get self.now.submodules number }
    {
        self.submodules.get(number)
    }

    /// The lines of the built-in channels.
    pub(crate) fn built_in(&self) -> &BuiltInChannels {
        &self.built_in
    }
}

/// In a place that models can share.
fn shared<T: Drop>(alloc: Global, value: T) -> Result<Rc<T>, NoMemory>
    ensures { IfOk result (λ place. place.value ≡ value) }
{
    match Rc::new(alloc, value) {
        Ok(place) => Ok(place),
        Err(failed) => Err(failed.into()),
    }
}

/// What is looked up of a model: of its types, and of its ini text. Models that have them in common
/// share them.
pub struct ModelTables {
    types: Rc<TypeTables>,
    /// The entries along the model's chain, by their keys.
    entries: Rc<EntryIndex>,
}

// Written out, so that a crate which drops one need not prove what that does.
impl Drop for ModelTables {
    fn drop(self) {
        let ModelTables {
            types: _,
            entries: _,
        } = self;
    }
}

/// The entries along a model's chain, by their keys.
fn entries_of(alloc: Global, model: &Model) -> Result<Rc<EntryIndex>, NoMemory>
    ensures { IfOk result (λ place. IsIndexOf model.now.ini model.now.chain place.value) }
{
    let entries = EntryIndex::new(alloc, model.ini.lines(), model.chain.as_slice())?;
    shared(alloc, entries)
}

impl ModelTables {
    /// All that is looked up of a model.
    pub fn new(alloc: Global, model: &Model) -> Result<ModelTables, NoMemory>
        ensures { IfOk result (λ tables. AreTablesOf model.now tables) }
    {
        let types = TypeTables::new(alloc, model.types.types())?;
        Ok(ModelTables {
            types: shared(alloc, types)?,
            entries: entries_of(alloc, model)?,
        })
    }

    /// All that is looked up of a model of the same types, of which nothing is looked up anew.
    pub fn with_entries_of(&self, alloc: Global, model: &Model) -> Result<ModelTables, NoMemory>
        requires { AreOfTypes model.now.types self.now.types.value }
        ensures { IfOk result (λ tables. AreTablesOf model.now tables) }
    {
        Ok(ModelTables {
            types: self.types.clone()?,
            entries: entries_of(alloc, model)?,
        })
    }

    /// The same, for another model. It takes no memory, and fails only where too many models share
    /// them.
    pub fn share(&self) -> Result<ModelTables, NoMemory>
        ensures types { IfOk result (λ tables. tables.types.value ≡ self.now.types.value) }
        ensures entries { IfOk result (λ tables. tables.entries.value ≡ self.now.entries.value) }
    {
        Ok(ModelTables {
            types: self.types.clone()?,
            entries: self.entries.clone()?,
        })
    }

    /// What is looked up of the types.
    pub(crate) fn types(&self) -> &TypeTables
        ensures { result.now ≡ self.now.types.value }
    {
        &self.types
    }

    /// The entries along the model's chain, by their keys.
    pub(crate) fn entries(&self) -> &EntryIndex
        ensures { result.now ≡ self.now.entries.value }
    {
        &self.entries
    }
}
