//! A module for which memory runs out.

ghost use Rattle.std.specs.Prelude.{IfSome};
ghost use Rattle.module_api.specs.Meaning.{IsFresh};
ghost use Rattle.module_stock.specs.Modules.{module_of};
ghost use Rattle.module_stock.specs.Stock.{stock};

use module_api::call::Call;
use module_api::reply::Reply;
use module_api::simple_module::SimpleModule;
use module_stock::modules::StockModule;
use sim_values::NoMemory;
use sim_values::text::Text;
use std::alloc::Global;
use std::cell::Cell;
use std::rc::Rc;

/// More bytes than there are.
const TOO_MANY: usize = 1 << 62;

/// A stock module. The last of so many steps, in a counter that it shares with a test, meets lack
/// of memory: a step is a call, or to save the state. Where none is left no step does.
#[derive(Drop)]
pub struct Refusing {
    held: StockModule,
    left: Rc<Cell<u64>>,
}

impl Refusing {
    /// A fresh module of that kind, or none where the stock catalogue does not know it.
    pub fn of_kind(alloc: Global, kind: &[u8], left: Rc<Cell<u64>>) -> Option<Refusing>
        ensures { IfSome result (λ made. IsFresh stock kind.now (module_of made.held)) }
    {
        match StockModule::of_kind(alloc, kind) {
            Some(held) => Some(Refusing { held, left }),
            None => None,
        }
    }

    /// One step more.
    fn step(&self, alloc: Global) -> Result<(), NoMemory> {
        let left = self.left.get();
        if left > 0 {
            self.left.set(left - 1);
        }
        if left == 1 {
            let _room = Vec::<u8>::with_capacity(alloc, TOO_MANY)?;
        }
        Ok(())
    }
}

impl SimpleModule for Refusing {
    ghost meaning = { λ c. module_of c.held };

    fn kind(&self) -> &str {
        self.held.kind()
    }

    fn stages(&self) -> u8 {
        self.held.stages()
    }

    fn initialize(&mut self, alloc: Global, call: &Call) -> Result<Reply, NoMemory> {
        self.step(alloc)?;
        self.held.initialize(alloc, call)
    }

    fn handle_message(&mut self, alloc: Global, call: &Call) -> Result<Reply, NoMemory> {
        self.step(alloc)?;
        self.held.handle_message(alloc, call)
    }

    fn finish(&mut self, alloc: Global, call: &Call) -> Result<Reply, NoMemory> {
        self.step(alloc)?;
        self.held.finish(alloc, call)
    }

    fn save(&self, alloc: Global) -> Result<Text, NoMemory> {
        self.step(alloc)?;
        self.held.save(alloc)
    }

    fn load(&mut self, alloc: Global, state: &[u8]) -> Result<(), NoMemory> {
        self.held.load(alloc, state)
    }
}
