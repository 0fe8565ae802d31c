//! A module that counts how often it is called.

ghost use Rattle.std.specs.Prelude.{IfSome};
ghost use Rattle.module_api.specs.Meaning.{IsFresh};
ghost use Rattle.module_stock.specs.Modules.{module_of};
ghost use Rattle.module_stock.specs.Stock.{stock};

use module_api::call::Call;
use module_api::reply::Reply;
use module_api::simple_module::SimpleModule;
use module_stock::modules::StockModule;
use sim_values::NoMemory;
use sim_values::text::Text;
use std::alloc::Global;
use std::cell::Cell;
use std::rc::Rc;

/// A stock module. It counts its calls but those of `finish`, in a counter that it shares with a
/// test.
#[derive(Drop)]
pub struct Counted {
    held: StockModule,
    calls: Rc<Cell<u64>>,
}

impl Counted {
    /// A fresh module of that kind, or none where the stock catalogue does not know it.
    pub fn of_kind(alloc: Global, kind: &[u8], calls: Rc<Cell<u64>>) -> Option<Counted>
        ensures { IfSome result (λ made. IsFresh stock kind.now (module_of made.held)) }
    {
        match StockModule::of_kind(alloc, kind) {
            Some(held) => Some(Counted { held, calls }),
            None => None,
        }
    }

    fn count(&self) {
        self.calls.set(self.calls.get().wrapping_add(1));
    }
}

impl SimpleModule for Counted {
    ghost meaning = { λ c. module_of c.held };

    fn kind(&self) -> &str {
        self.held.kind()
    }

    fn stages(&self) -> u8 {
        self.held.stages()
    }

    fn initialize(&mut self, alloc: Global, call: &Call) -> Result<Reply, NoMemory> {
        self.count();
        self.held.initialize(alloc, call)
    }

    fn handle_message(&mut self, alloc: Global, call: &Call) -> Result<Reply, NoMemory> {
        self.count();
        self.held.handle_message(alloc, call)
    }

    fn finish(&mut self, alloc: Global, call: &Call) -> Result<Reply, NoMemory> {
        self.held.finish(alloc, call)
    }

    fn save(&self, alloc: Global) -> Result<Text, NoMemory> {
        self.held.save(alloc)
    }

    fn load(&mut self, alloc: Global, state: &[u8]) -> Result<(), NoMemory> {
        self.held.load(alloc, state)
    }
}
