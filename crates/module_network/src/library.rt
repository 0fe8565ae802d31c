//! The catalogue of all modules that come with the program: the stock modules, and those that
//! networks are built of.

ghost use Rattle.std.specs.Prelude.{◌↔◌, ◌⊎◌, ℕ, List, IsTrue, IsSome, IfSome};
ghost use Rattle.module_api.specs.Laws.{law_of_reads, KeepsStates};
ghost use Rattle.module_api.specs.Meaning.{IsFresh};
ghost use Rattle.module_stock.specs.Stock.{stock};
ghost use Rattle.module_network.specs.Network.{network};
ghost use Rattle.module_network.specs.Library.{library, box_of};

use crate::modules::NetworkModule;
use module_api::call::Call;
use module_api::catalogue::Catalogue;
use module_api::law::{reads_decide, states_are_kept};
use module_api::reply::Reply;
use module_api::simple_module::SimpleModule;
use module_stock::modules::StockModule;
use sim_values::NoMemory;
use sim_values::text::Text;
use std::alloc::Global;

/// The kinds that come with the program. It has no code: a type parameter stands for it.
pub struct Library;

impl Catalogue for Library {
    ghost use Rattle.module_network.specs.LibraryLaws.{library_lawful};

    ghost behaviour = { library };

    ghost lawful = { library_lawful };
}

/// A module that comes with the program.
#[derive(Drop)]
pub enum LibraryModule {
    Stock(StockModule),
    Network(NetworkModule),
}

impl LibraryModule {
    /// A fresh module of that kind, or none where the catalogue does not know it. The allocator is
    /// for what holds a collection.
    #[tactic(auto, unfolding(crate::specs::Library::library), using(crate::specs::LibraryLaws::stock_is_fresh, crate::specs::LibraryLaws::network_is_fresh))]
    pub fn of_kind(alloc: Global, kind: &[u8]) -> Option<LibraryModule>
        ensures known { IsSome result ↔ IsTrue (library.known kind.now) }
        ensures fresh { IfSome result (λ m. IsFresh library kind.now (box_of m)) }
    {
        match StockModule::of_kind(alloc, kind) {
            Some(m) => Some(LibraryModule::Stock(m)),
            None => match NetworkModule::of_kind(alloc, kind) {
                Some(m) => Some(LibraryModule::Network(m)),
                None => None,
            },
        }
    }
}

impl SimpleModule for LibraryModule {
    ghost meaning = { box_of };

    fn kind(&self) -> &str {
        match self {
            LibraryModule::Stock(m) => m.kind(),
            LibraryModule::Network(m) => m.kind(),
        }
    }

    fn stages(&self) -> u8 {
        match self {
            LibraryModule::Stock(m) => m.stages(),
            LibraryModule::Network(m) => m.stages(),
        }
    }

    fn initialize(&mut self, alloc: Global, call: &Call) -> Result<Reply, NoMemory> {
        match self {
            LibraryModule::Stock(m) => m.initialize(alloc, call),
            LibraryModule::Network(m) => m.initialize(alloc, call),
        }
    }

    fn handle_message(&mut self, alloc: Global, call: &Call) -> Result<Reply, NoMemory> {
        match self {
            LibraryModule::Stock(m) => m.handle_message(alloc, call),
            LibraryModule::Network(m) => m.handle_message(alloc, call),
        }
    }

    fn finish(&mut self, alloc: Global, call: &Call) -> Result<Reply, NoMemory> {
        match self {
            LibraryModule::Stock(m) => m.finish(alloc, call),
            LibraryModule::Network(m) => m.finish(alloc, call),
        }
    }

    fn save(&self, alloc: Global) -> Result<Text, NoMemory> {
        match self {
            LibraryModule::Stock(m) => m.save(alloc),
            LibraryModule::Network(m) => m.save(alloc),
        }
    }

    fn load(&mut self, alloc: Global, state: &[u8]) -> Result<(), NoMemory> {
        match self {
            LibraryModule::Stock(m) => m.load(alloc, state),
            LibraryModule::Network(m) => m.load(alloc, state),
        }
    }
}

/// Exactly the stock kinds and those that networks are built of are known. It does nothing: its
/// contract is the law.
pub fn library_kinds_are_known()
    ensures { (kind : List ℕ) → IsTrue (library.known kind)
        ↔ (IsTrue (stock.known kind) ⊎ IsTrue (network.known kind)) }
{}

/// What a reply lists as read decides the reply and the state after it. It does nothing: its
/// contract is the law.
pub fn library_reads_decide()
    ensures { (kind : List ℕ) → law_of_reads (library.naming kind) }
{
    reads_decide::<Library>()
}

/// A module starts in a state of its own, and a call in a state leaves one. It does nothing: its
/// contract is the law.
pub fn library_states_are_kept()
    ensures { (kind : List ℕ) → IsTrue (library.known kind) → KeepsStates (library.naming kind) }
{
    states_are_kept::<Library>()
}
