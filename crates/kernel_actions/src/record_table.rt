//! The modules that were created, found by where they stand.

ghost use Rattle.std.specs.Prelude.{◌≡◌, ◌+◌, ◌^◌, ◌<◌, ◌∷◌, ◌++◌, [], IfOk, OnOk, OnErr, length};
ghost use Rattle.std.specs.Prelude.{take, true, Some};
ghost use Rattle.std.specs.Bool.{Decides};
ghost use Rattle.std.specs.HashMap.{get};
ghost use Rattle.model_questions.specs.Hops.{neighbour_id};
ghost use Rattle.model_questions.specs.Records.{is_built};
ghost use Rattle.model_questions.specs.declared.record.Record.{Record as record_type};
ghost use Rattle.run_semantics.specs.Routes.{hop_by, next_by};
ghost use Rattle.kernel_actions.specs.Places.{equal, id_at, place_of};

use model_questions::answer::{Answer, Neighbour, NextGate};
use model_questions::record::{Origin, Record, record_at};
use run_semantics::routes::{NextHop, PlacedGate};
use sim_values::NoMemory;
use sim_values::text::Text;
use sqlite_items::Items;
use std::alloc::{AllocError, Global};
use std::collections::HashMap;
use std::marker::Model;

/// Where a module stands: within which one, under which name, and at which index of a vector.
#[derive(PartialEq, Eq, Hash, Drop)]
pub struct ModulePlace {
    /// The id of the enclosing module, 0 for the network.
    pub parent: u32,
    pub name: Text,
    pub index: Option<u32>,
}

/// The place of the module of a record.
fn place_of(alloc: Global, created: &Record) -> Result<ModulePlace, AllocError>
    ensures { IfOk result (λ place. place ≡ place_of created.now) }
{
    Ok(ModulePlace {
        parent: created.parent,
        name: created.name.copy(alloc)?,
        index: created.index,
    })
}

/// Whether a place has that id.
fn has(ids: &HashMap<ModulePlace, u32>, place: &ModulePlace, id: usize) -> bool
    ensures { Decides result (get equal ids.now place.now ≡ Some id) }
{
    match ids.get(place) {
        Some(found) => *found as usize == id,
        None => false,
    }
}

/// The modules that were created, with the first one that was built at each place, which is found
/// in time that doesn't grow with their number. Contracts see the list of their records.
pub struct RecordTable {
    records: Items<Record>,
    /// The id of the first module that was built at a place.
    ids: HashMap<ModulePlace, u32>,
}

// Written out, so that a crate which drops one need not prove what that does.
impl Drop for RecordTable {
    fn drop(self) {
        let RecordTable { records: _, ids: _ } = self;
    }
}

impl Model for RecordTable {
    ghost use Rattle.std.specs.Prelude.{List};
    ghost use Rattle.model_questions.specs.declared.record.Record.{Record};
    ghost use Rattle.run_semantics.specs.Routes.{hop_by, next_by};
    ghost use Rattle.kernel_actions.specs.Places.{AreIdsOf};

    ghost Value = { List Record };

    ghost view = { λ t. t.records };

    ghost invariant = { λ t. AreIdsOf t.records t.ids };
}

impl RecordTable {
    /// No module was created.
    pub fn new(alloc: Global) -> RecordTable
        ensures { result ≡ [] }
    {
        RecordTable {
            records: Items::new(alloc),
            ids: HashMap::new(alloc),
        }
    }

    /// How many were created.
    pub fn len(&self) -> usize
        ensures { result ≡ length self.now }
    {
        self.records.len()
    }

    /// Their records, by rising ids.
    pub fn as_slice(&self) -> &[Record]
        ensures { result.now ≡ self.now }
    {
        self.records.as_slice()
    }

    /// One more was created.
    pub fn push(&mut self, alloc: Global, created: Record) -> Result<(), NoMemory>
        requires { length self.old + 1 < 2 ^ 32 }
        ensures ok { OnOk result (self.new ≡ self.old ++ created ∷ []) }
        ensures err { OnErr result (self.new ≡ self.old) }
    {
        match created.origin {
            Origin::Built => self.push_built(alloc, created),
            // No hop leads to it by its name.
            Origin::Created(_) => {
                self.records.push(created)?;
                Ok(())
            }
        }
    }

    /// One more was built: it is found at its place, unless another one was built there before.
    fn push_built(&mut self, alloc: Global, created: Record) -> Result<(), NoMemory>
        requires room { length self.old + 1 < 2 ^ 32 }
        requires built { is_built created.origin ≡ true }
        ensures ok { OnOk result (self.new ≡ self.old ++ created ∷ []) }
        ensures err { OnErr result (self.new ≡ self.old) }
    {
        let place = place_of(alloc, &created)?;
        if self.ids.contains_key(&place) {
            self.records.push(created)?;
            return Ok(());
        }
        let id = self.records.len() as u32 + 1;
        self.records.push(created)?;
        match self.ids.insert(place, id) {
            Ok(_) => Ok(()),
            Err(failed) => {
                self.records.pop();
                Err(failed.into())
            }
        }
    }

    /// Forgets the last one.
    fn pop(&mut self)
        requires { 0 < length self.old }
        ensures { (last : record_type) × (self.old ≡ self.new ++ last ∷ []) }
    {
        let id = self.records.len();
        let Record {
            parent,
            name,
            index,
            class: _,
            origin: _,
        } = self.records.pop().unwrap();
        let place = ModulePlace {
            parent,
            name,
            index,
        };
        if has(&self.ids, &place, id) {
            self.ids.remove(&place);
        }
    }

    /// Forgets the last ones, so that as many are left, the first ones. Where there are no more,
    /// all stay.
    pub fn cut(&mut self, left: usize)
        ensures { self.new ≡ take left self.old }
    {
        while self.len() > left {
            self.pop();
        }
    }

    /// The first module that was built at that place.
    fn built_id(&self, place: &ModulePlace) -> Option<u32>
        ensures { result ≡ id_at self.now place.now }
    {
        self.ids.get(place).copied()
    }

    /// The module that a hop leads to, seen from the one of that id.
    fn neighbour_id(&self, id: u32, neighbour: Neighbour) -> Option<u32>
        ensures { result ≡ neighbour_id self.now id neighbour }
    {
        match neighbour {
            Neighbour::Itself => Some(id),
            Neighbour::Around => match record_at(self.as_slice(), id) {
                Some(record) if record.parent != 0 => Some(record.parent),
                _ => None,
            },
            Neighbour::Beside(name, index) => {
                let parent = record_at(self.as_slice(), id)?.parent;
                self.built_id(&ModulePlace {
                    parent,
                    name,
                    index,
                })
            }
            Neighbour::Inside(name, index) => self.built_id(&ModulePlace {
                parent: id,
                name,
                index,
            }),
        }
    }

    /// Where a hop from a gate of the module of that id leads, as was answered.
    pub fn hop_by(&self, id: u32, answer: Answer) -> Option<NextHop>
        ensures { result ≡ hop_by self.now id answer }
    {
        match answer {
            Answer::Next(Some(next)) => self.leading_to(id, next),
            _ => None,
        }
    }

    /// The gate of that module that is named, where the module is there.
    fn leading_to(&self, id: u32, next: NextGate) -> Option<NextHop>
        ensures { result ≡ next_by next (neighbour_id self.now id next.neighbour) }
    {
        let NextGate {
            neighbour,
            gate,
            index,
            channel,
        } = next;
        let to = PlacedGate {
            id: self.neighbour_id(id, neighbour)?,
            name: gate,
            index,
        };
        Some(NextHop { to, channel })
    }
}
