//! The model of a run.

ghost use Rattle.std.specs.Prelude.{◌≡◌, IfOk};
ghost use Rattle.std.specs.Option.{option_copied};
ghost use Rattle.model_data.specs.Models.{as_network, network_of, time_limit_of};

use ini_trees::copies::copy_names;
use ini_trees::entries::{network_entry, time_limit_entry};
use ini_trees::lines::IniText;
use ini_trees::speaks::last_name;
use model_injections::injection::Injection;
use ned_files::shared::{SharedFile, copy_files};
use ned_trees::declarations::{TypeDeclaration, TypeKind};
use ned_types::table::TypeTable;
use sim_values::NoMemory;
use sim_values::text::Text;
use sqlite_items::Items;
use std::alloc::Global;

/// What a run is made of: the NED files and the types that they declare, the ini text, the selected
/// configuration, and the injections.
pub struct Model {
    /// What each NED file declares, in order.
    pub files: Items<SharedFile>,
    pub types: TypeTable,
    pub ini: IniText,
    pub config: Text,
    /// The names of the sections that make the configuration, in the order in which their entries
    /// count.
    pub chain: Items<Text>,
    /// The injections, by rising number.
    pub injections: Items<Injection>,
    /// The number of the last injection that was made, 0 where none was. Numbers are not used
    /// again.
    pub last_injection: u32,
}

// Written out, so that a crate which drops one need not prove what that does.
impl Drop for Model {
    fn drop(self) {
        let Model {
            files: _,
            types: _,
            ini: _,
            config: _,
            chain: _,
            injections: _,
            last_injection: _,
        } = self;
    }
}

impl Model {
    /// An equal model, which shares the files and the types.
    pub fn copy(&self, alloc: Global) -> Result<Model, NoMemory>
        ensures { IfOk result (λ copy. copy ≡ self.now) }
    {
        Ok(Model {
            files: copy_files(alloc, self.files.as_slice())?,
            types: self.types.copy()?,
            ini: self.ini.copy(alloc)?,
            config: self.config.copy(alloc)?,
            chain: copy_names(alloc, self.chain.as_slice())?,
            injections: copy_injections(alloc, self.injections.as_slice())?,
            last_injection: self.last_injection,
        })
    }

    /// The network that is to be run, where the option `network` names one.
    pub fn network(&self) -> Option<&TypeDeclaration>
        ensures { option_copied result ≡ network_of self.now }
    {
        let name = network_entry(self.ini.lines(), self.chain.as_slice())?;
        let declared = self.types.find(last_name(name))?;
        as_network(declared)
    }

    /// The time after which no event is executed, in picoseconds: the option sim-time-limit.
    #[tactic(auto, unfolding(crate::specs::Models::time_limit_of))]
    pub fn time_limit(&self) -> Option<u64>
        ensures { result ≡ time_limit_of self.now }
    {
        time_limit_entry(self.ini.lines(), self.chain.as_slice())
    }
}

/// The type, where it is a network.
fn as_network(declared: &TypeDeclaration) -> Option<&TypeDeclaration>
    ensures { option_copied result ≡ as_network declared.now }
{
    match declared.kind {
        TypeKind::Network => Some(declared),
        _ => None,
    }
}

/// Equal injections.
fn copy_injections(alloc: Global, injections: &[Injection]) -> Result<Items<Injection>, NoMemory>
    ensures { IfOk result (λ copy. copy ≡ injections.now) }
{
    let mut copy = Items::new(alloc);
    for injection in injections {
        copy.push(injection.copy(alloc)?)?;
    }
    Ok(copy)
}
