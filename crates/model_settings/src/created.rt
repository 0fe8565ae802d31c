//! Modules that were created while a model ran.

ghost use Rattle.std.specs.Prelude.{◌≡◌, IfOk, [], true};
ghost use Rattle.std.specs.Option.{option_copied};
ghost use Rattle.inside_keys.specs.Keys.{same_module};
ghost use Rattle.inside_run.specs.Scenes.{standing_by};
ghost use Rattle.model_settings.specs.Created.{creation_at, planned_by, rules_by};

use crate::setting::ModelSetting;
use ini_trees::entry::EntryValue;
use inside_keys::key::Module;
use inside_keys::planned::Planned;
use inside_parts::gates::TypeGates;
use inside_parts::names::Names;
use inside_run::scene::{ModuleSource, Stands};
use ned_channels::built_in::BuiltInChannels;
use ned_trees::declarations::TypeDeclaration;
use sim_values::NoMemory;
use sim_values::text::Text;
use sqlite_items::Items;
use std::alloc::Global;

/// A module that was created while the model ran.
#[derive(Drop)]
pub struct Creation {
    /// Which it is.
    pub site: Module,
    /// Where it stands.
    pub stands: Stands,
    /// What it was created as.
    pub planned: Planned,
}

/// Whether they are one module.
fn is_same(site: &Module, other: &Module) -> bool
    ensures { result ≡ same_module site.now other.now }
{
    site.created == other.created && site.path.is(other.path.as_bytes())
}

/// Which of these creations made a module, if one did.
fn creation_at<'a>(created: &'a [Creation], site: &Module) -> Option<&'a Creation>
    ensures { option_copied result ≡ creation_at created.now site.now }
{
    for creation in created {
        if is_same(&creation.site, site) {
            return Some(creation);
        }
    }
    None
}

/// What a model says of its modules, where some were created while it ran.
#[derive(Drop)]
pub struct RunSetting<'m> {
    pub model: &'m ModelSetting<'m>,
    /// Those that were created.
    pub created: Items<Creation>,
}

impl<'m> ModuleSource for RunSetting<'m> {
    ghost use Rattle.model_settings.specs.Created.{rules_by};

    ghost setting = { rules_by };

    fn types(&self) -> &[TypeDeclaration] {
        self.model.types()
    }

    fn gates(&self) -> &[TypeGates] {
        self.model.gates()
    }

    fn type_names(&self) -> &Names {
        self.model.type_names()
    }

    fn type_number(&self, name: &Text) -> Option<usize> {
        self.model.type_number(name)
    }

    fn submodules(&self, number: usize) -> Option<&Names> {
        self.model.submodules(number)
    }

    fn built_in(&self) -> &BuiltInChannels {
        self.model.built_in()
    }

    fn standing(&self, alloc: Global, site: &Module) -> Result<Stands, NoMemory> {
        match creation_at(self.created.as_slice(), site) {
            Some(creation) => creation.stands.copy(alloc),
            None => self.model.standing(alloc, site),
        }
    }

    fn planned(&self, site: &Module) -> Option<&Planned> {
        match creation_at(self.created.as_slice(), site) {
            Some(creation) => Some(&creation.planned),
            None => None,
        }
    }

    fn root(&self, site: &Module) -> Option<usize> {
        self.model.root(site)
    }

    fn is_too_deep(&self, site: &Module) -> bool {
        self.model.is_too_deep(site)
    }

    fn entry(&self, alloc: Global, path: &[u8]) -> Result<Option<&EntryValue>, NoMemory> {
        self.model.entry(alloc, path)
    }
}
