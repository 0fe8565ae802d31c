//! What the values of a model rest on, with what is looked up of it.

ghost use Rattle.std.specs.Prelude.{◌≡◌, ◌<◌, ◌^◌, IfSome, option_map, pos};
ghost use Rattle.inside_parts.specs.Names.{position_of};
ghost use Rattle.model_data.specs.Models.{entries_in};
ghost use Rattle.model_settings.specs.Standings.{names_of_types};
ghost use Rattle.model_settings.specs.Tables.{AreTablesOf};

use crate::standings::{around_of, index_in, is_too_deep, name_in};
use crate::tables::ModelTables;
use ini_index::list::EntryList;
use ini_trees::entry::EntryValue;
use ini_trees::speaks::last_name;
use inside_keys::key::Module;
use inside_keys::planned::Planned;
use inside_parts::gates::TypeGates;
use inside_parts::names::Names;
use inside_run::scene::{ModuleSource, Stands};
use model_data::model::Model;
use ned_channels::built_in::BuiltInChannels;
use ned_trees::declarations::TypeDeclaration;
use sim_values::NoMemory;
use sim_values::text::Text;
use std::alloc::Global;
use std::marker;

/// The place of a name among the names of these types.
#[tactic(auto, using(crate::proofs::Once::placed_within))]
fn number_among(names: &Names, types: &[TypeDeclaration], name: &Text) -> Option<usize>
    requires { names.now ≡ names_of_types types.now }
    ensures same { result ≡ position_of name.now names.now }
    ensures small { IfSome result (λ number. number < 2 ^ 63) }
{
    let _count = types.len();
    names.position(name)
}

/// A model, with what is looked up of it.
#[derive(Drop)]
pub struct ModelSetting<'m> {
    model: &'m Model,
    tables: &'m ModelTables,
}

// Contracts see the model.
impl<'m> marker::Model for ModelSetting<'m> {
    ghost use Rattle.model_data.specs.declared.model.Model.{Model};
    ghost use Rattle.model_data.specs.contracts.model.Model.{the_row};
    ghost use Rattle.model_settings.specs.Tables.{AreTablesOf};

    ghost Value = { Model };

    ghost coded = { the_row.coded };

    ghost view = { λ a. a.model.now };

    ghost invariant = { λ a. AreTablesOf a.model.now a.tables.now };
}

impl<'m> ModelSetting<'m> {
    /// A model, with what is looked up of it.
    pub fn new(model: &'m Model, tables: &'m ModelTables) -> ModelSetting<'m>
        requires { AreTablesOf model.now tables.now }
        ensures { result ≡ model.now }
    {
        ModelSetting { model, tables }
    }

    /// The model.
    pub fn model(&self) -> &'m Model
        ensures { result.now ≡ self.now }
    {
        self.model
    }

    /// The entries along its chain.
    pub fn entries(&self) -> EntryList<'m>
        ensures { result ≡ entries_in self.now }
    {
        let index = self.tables.entries();
        index.entries(self.model.ini.lines(), self.model.chain.as_slice())
    }
}

impl<'m> ModuleSource for ModelSetting<'m> {
    ghost use Rattle.model_settings.specs.Standings.{setting_of};

    ghost setting = { setting_of };

    #[tactic(auto, unfolding(crate::specs::Standings::setting_of))]
    fn types(&self) -> &[TypeDeclaration] {
        self.model.types.types()
    }

    #[tactic(auto, unfolding(crate::specs::Standings::setting_of))]
    fn gates(&self) -> &[TypeGates] {
        self.tables.types().gates()
    }

    #[tactic(auto, unfolding(crate::specs::Standings::setting_of))]
    fn type_names(&self) -> &Names {
        self.tables.types().names()
    }

    #[tactic(auto, unfolding(crate::specs::Standings::setting_of))]
    fn type_number(&self, name: &Text) -> Option<usize> {
        number_among(self.tables.types().names(), self.model.types.types(), name)
    }

    #[tactic(auto, unfolding(crate::specs::Standings::setting_of))]
    fn submodules(&self, number: usize) -> Option<&Names> {
        self.tables.types().submodules(number)
    }

    fn built_in(&self) -> &BuiltInChannels {
        self.tables.types().built_in()
    }

    #[tactic(auto, unfolding(crate::specs::Standings::setting_of))]
    fn standing(&self, alloc: Global, site: &Module) -> Result<Stands, NoMemory> {
        let _model = self.model;
        let own = last_name(site.path.as_bytes());
        Ok(Stands {
            around: around_of(alloc, site)?,
            name: Text::from_bytes(alloc, name_in(own))?,
            index: wide(index_in(own)),
            is_declared: true,
        })
    }

    #[tactic(auto, unfolding(crate::specs::Standings::setting_of))]
    fn planned(&self, site: &Module) -> Option<&Planned> {
        let (_model, _site) = (self.model, site);
        None
    }

    #[tactic(auto, unfolding(crate::specs::Standings::setting_of))]
    fn root(&self, site: &Module) -> Option<usize> {
        let _site = site;
        let network = self.model.network()?;
        number_among(
            self.tables.types().names(),
            self.model.types.types(),
            &network.name,
        )
    }

    #[tactic(auto, unfolding(crate::specs::Standings::setting_of))]
    fn is_too_deep(&self, site: &Module) -> bool {
        let _model = self.model;
        is_too_deep(site.path.as_bytes())
    }

    #[tactic(auto, unfolding(crate::specs::Standings::setting_of))]
    fn entry(&self, alloc: Global, path: &[u8]) -> Result<Option<&EntryValue>, NoMemory> {
        let _alloc = alloc;
        let model = self.model;
        let chain = model.chain.as_slice();
        Ok(
            self.tables
                .entries()
                .value_for(model.ini.lines(), chain, path),
        )
    }
}

/// An index, as a whole number.
pub fn wide(index: Option<u32>) -> Option<i64>
    ensures { result ≡ option_map pos index }
{
    match index {
        Some(index) => Some(i64::from(index)),
        None => None,
    }
}
