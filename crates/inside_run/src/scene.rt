//! What a model tells of its modules.

ghost use Rattle.std.specs.Prelude.{◌≡◌, ◌<◌, ◌^◌, IfOk, IfSome, Some, slice_get};
ghost use Rattle.std.specs.Option.{option_copied};
ghost use Rattle.inside_parts.specs.Names.{position_of};
ghost use Rattle.inside_keys.specs.Settings.{ModuleRules, type_gates, type_names};
ghost use Rattle.inside_run.specs.Scenes.{names_in, standing_by};
ghost use Rattle.ned_types.specs.Flat.{submodule_named};

use ini_trees::entry::EntryValue;
use inside_keys::key::Module;
use inside_keys::planned::Planned;
use inside_parts::gates::TypeGates;
use inside_parts::names::Names;
use ned_channels::built_in::BuiltInChannels;
use ned_trees::declarations::{Submodule, TypeDeclaration};
use ned_types::flat::submodule_named;
use sim_values::NoMemory;
use sim_values::text::Text;
use std::alloc::Global;

/// Where a module stands.
#[derive(Drop)]
pub struct Stands {
    /// The module around it; there is none around the network.
    pub around: Option<Module>,
    pub name: Text,
    /// Its index, where it is an element of a vector.
    pub index: Option<i64>,
    /// It is what the type of the module around declares under that name; or else it was created
    /// while the model ran.
    pub is_declared: bool,
}

impl Stands {
    /// The same.
    pub fn copy(&self, alloc: Global) -> Result<Stands, NoMemory>
        ensures { IfOk result (λ copy. copy ≡ self.now) }
    {
        let around = match &self.around {
            Some(around) => Some(around.copy(alloc)?),
            None => None,
        };
        Ok(Stands {
            around,
            name: self.name.copy(alloc)?,
            index: self.index,
            is_declared: self.is_declared,
        })
    }
}

/// What a model tells of its modules.
pub trait ModuleSource {
    /// All that values rest on.
    ghost setting: { Self → ModuleRules };

    /// All flat types.
    fn types(&self) -> &[TypeDeclaration]
        ensures { result.now ≡ (setting self.now).types };

    /// The gates of each.
    fn gates(&self) -> &[TypeGates]
        ensures { result.now ≡ type_gates (setting self.now) };

    /// The names of the types, in their order.
    fn type_names(&self) -> &Names
        ensures { result.now ≡ type_names (setting self.now) };

    /// The number of the type of that name.
    fn type_number(&self, name: &Text) -> Option<usize>
        ensures same { result ≡ position_of name.now (type_names (setting self.now)) }
        ensures small { IfSome result (λ number. number < 2 ^ 63) };

    /// The names of the submodules that the type of that number declares, in their order.
    fn submodules(&self, number: usize) -> Option<&Names>
        ensures { option_copied result ≡ names_in (slice_get (setting self.now).types number) };

    /// The lines of the built-in channels.
    fn built_in(&self) -> &BuiltInChannels;

    /// Where a module stands.
    fn standing(&self, alloc: Global, site: &Module) -> Result<Stands, NoMemory>
        ensures { IfOk result (λ found. standing_by found ≡ (setting self.now).stands site.now) };

    /// What a module was created as, where it was created while the model ran.
    fn planned(&self, site: &Module) -> Option<&Planned>
        ensures { option_copied result ≡ (setting self.now).planned site.now };

    /// The number of the type of the network.
    fn root(&self, site: &Module) -> Option<usize>
        ensures same { result ≡ (setting self.now).root site.now }
        ensures small { IfSome result (λ number. number < 2 ^ 63) };

    /// Whether a module is nested too deep.
    fn is_too_deep(&self, site: &Module) -> bool
        ensures { result ≡ (setting self.now).is_too_deep site.now };

    /// What the first entry of the ini text says that matches the full path of a parameter.
    fn entry(&self, alloc: Global, path: &[u8]) -> Result<Option<&EntryValue>, NoMemory>
        ensures { IfOk result (λ found. option_copied found ≡ (setting self.now).entry path.now) };
}

/// The submodule of that name that the type of that number declares, found by hashing. Only a name
/// that isn't there is looked for by going through all.
pub fn submodule_in<'m, S: ModuleSource>(
    scene: &S,
    number: usize,
    declared: &'m TypeDeclaration,
    name: &Text,
) -> Option<&'m Submodule>
    requires { slice_get (S.setting scene.now).types number ≡ Some declared.now }
    ensures { option_copied result ≡ submodule_named name.now declared.now.submodules }
{
    if let Some(names) = scene.submodules(number) {
        if let Some(place) = names.position(name) {
            return declared.submodules.get(place);
        }
    }
    submodule_named(name.as_bytes(), declared.submodules.as_slice())
}
