//! The stock modules as one type, so that a box of any of them is made in one place.

ghost use Rattle.std.specs.Prelude.{◌↔◌, IsTrue, IsSome, IfSome};
ghost use Rattle.module_api.specs.Meaning.{IsFresh};
ghost use Rattle.module_stock.specs.Stock.{stock};
ghost use Rattle.module_stock.specs.Modules.{module_of};

use crate::queue::Queue;
use crate::router::Router;
use crate::sink::Sink;
use crate::source::Source;
use crate::spawner::Spawner;
use crate::tick::Tick;
use module_api::call::Call;
use module_api::reply::Reply;
use module_api::simple_module::SimpleModule;
use module_parts::player::Player;
use sim_values::NoMemory;
use sim_values::text::Text;
use std::alloc::Global;

/// A module that comes with the program.
#[derive(Drop)]
pub enum StockModule {
    Tick(Player<Tick>),
    Source(Player<Source>),
    Queue(Player<Queue>),
    Sink(Player<Sink>),
    Router(Player<Router>),
    Spawner(Player<Spawner>),
}

impl StockModule {
    /// A fresh module of that kind, or none where the stock catalogue does not know it. The
    /// allocator is for what holds a collection.
    #[tactic(auto, unfolding(crate::specs::Stock::stock))]
    pub fn of_kind(alloc: Global, kind: &[u8]) -> Option<StockModule>
        ensures known { IsSome result ↔ IsTrue (stock.known kind.now) }
        ensures fresh { IfSome result (λ m. IsFresh stock kind.now (module_of m)) }
    {
        if kind == "Tick".as_bytes() {
            Some(StockModule::Tick(Player(Tick::new())))
        } else if kind == "Source".as_bytes() {
            Some(StockModule::Source(Player(Source::new())))
        } else if kind == "Queue".as_bytes() {
            Some(StockModule::Queue(Player(Queue::new(alloc))))
        } else if kind == "Sink".as_bytes() {
            Some(StockModule::Sink(Player(Sink {})))
        } else if kind == "Router".as_bytes() {
            Some(StockModule::Router(Player(Router {})))
        } else if kind == "Spawner".as_bytes() {
            Some(StockModule::Spawner(Player(Spawner::new())))
        } else {
            None
        }
    }
}

impl SimpleModule for StockModule {
    ghost meaning = { module_of };

    fn kind(&self) -> &str {
        match self {
            StockModule::Tick(m) => m.kind(),
            StockModule::Source(m) => m.kind(),
            StockModule::Queue(m) => m.kind(),
            StockModule::Sink(m) => m.kind(),
            StockModule::Router(m) => m.kind(),
            StockModule::Spawner(m) => m.kind(),
        }
    }

    fn stages(&self) -> u8 {
        match self {
            StockModule::Tick(m) => m.stages(),
            StockModule::Source(m) => m.stages(),
            StockModule::Queue(m) => m.stages(),
            StockModule::Sink(m) => m.stages(),
            StockModule::Router(m) => m.stages(),
            StockModule::Spawner(m) => m.stages(),
        }
    }

    fn initialize(&mut self, alloc: Global, call: &Call) -> Result<Reply, NoMemory> {
        match self {
            StockModule::Tick(m) => m.initialize(alloc, call),
            StockModule::Source(m) => m.initialize(alloc, call),
            StockModule::Queue(m) => m.initialize(alloc, call),
            StockModule::Sink(m) => m.initialize(alloc, call),
            StockModule::Router(m) => m.initialize(alloc, call),
            StockModule::Spawner(m) => m.initialize(alloc, call),
        }
    }

    fn handle_message(&mut self, alloc: Global, call: &Call) -> Result<Reply, NoMemory> {
        match self {
            StockModule::Tick(m) => m.handle_message(alloc, call),
            StockModule::Source(m) => m.handle_message(alloc, call),
            StockModule::Queue(m) => m.handle_message(alloc, call),
            StockModule::Sink(m) => m.handle_message(alloc, call),
            StockModule::Router(m) => m.handle_message(alloc, call),
            StockModule::Spawner(m) => m.handle_message(alloc, call),
        }
    }

    fn finish(&mut self, alloc: Global, call: &Call) -> Result<Reply, NoMemory> {
        match self {
            StockModule::Tick(m) => m.finish(alloc, call),
            StockModule::Source(m) => m.finish(alloc, call),
            StockModule::Queue(m) => m.finish(alloc, call),
            StockModule::Sink(m) => m.finish(alloc, call),
            StockModule::Router(m) => m.finish(alloc, call),
            StockModule::Spawner(m) => m.finish(alloc, call),
        }
    }

    fn save(&self, alloc: Global) -> Result<Text, NoMemory> {
        match self {
            StockModule::Tick(m) => m.save(alloc),
            StockModule::Source(m) => m.save(alloc),
            StockModule::Queue(m) => m.save(alloc),
            StockModule::Sink(m) => m.save(alloc),
            StockModule::Router(m) => m.save(alloc),
            StockModule::Spawner(m) => m.save(alloc),
        }
    }

    fn load(&mut self, alloc: Global, state: &[u8]) -> Result<(), NoMemory> {
        match self {
            StockModule::Tick(m) => m.load(alloc, state),
            StockModule::Source(m) => m.load(alloc, state),
            StockModule::Queue(m) => m.load(alloc, state),
            StockModule::Sink(m) => m.load(alloc, state),
            StockModule::Router(m) => m.load(alloc, state),
            StockModule::Spawner(m) => m.load(alloc, state),
        }
    }
}
