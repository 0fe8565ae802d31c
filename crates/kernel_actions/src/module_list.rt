//! The modules of a run, with what is found of them at once: by a path, and inside of one.

ghost use Rattle.std.specs.Prelude.{◌≡◌, ◌≤◌, ◌<◌, ◌+◌, ◌^◌, ◌&&◌, ◌∷◌, ◌++◌, ℕ, [], IfOk, OnErr, OnOk};
ghost use Rattle.std.specs.Prelude.{length, not, take};
ghost use Rattle.std.specs.List.{filter};
ghost use Rattle.kernel_actions.specs.Modules.{living, lives_at, module_as};
ghost use Rattle.run_semantics.specs.Routes.{first_from, hop_by};
ghost use Rattle.run_semantics.specs.Subtree.{among, inner_first, stands_in};

use crate::record_table::RecordTable;
use crate::walks::{last_in, push_inner_first};
use child_table::ChildTable;
use id_lists::IdList;
use model_questions::answer::Answer;
use model_questions::record::{Record, path_of};
use path_table::PathTable;
use run_semantics::routes::NextHop;
use sim_values::NoMemory;
use sim_values::text::Text;
use sqlite_items::Items;
use std::alloc::Global;
use std::marker::Model;
use subtrees::stands_in;

/// How many levels of modules there are at most: the 32 that are set up, and what is inside of the
/// last.
const MAX_LEVELS: u32 = 33;

/// The modules that were created, and which of them are dead. Contracts see their records and the
/// ids of the dead.
pub struct ModuleList {
    records: RecordTable,
    /// The ids of those that are dead, in the order in which they died.
    dead: IdList,
    /// Their paths, by which one is found that lives.
    paths: PathTable,
    /// For each its submodules.
    children: ChildTable,
}

// Written out, so that a crate which drops one need not prove what that does.
impl Drop for ModuleList {
    fn drop(self) {
        let ModuleList {
            records: _,
            dead: _,
            paths: _,
            children: _,
        } = self;
    }
}

impl Model for ModuleList {
    ghost use Rattle.kernel_actions.specs.Modules.{Modules, AreLookedUp};

    ghost Value = { Modules };

    ghost view = { λ m. record { records = m.records; dead = m.dead } };

    ghost invariant = { λ m. AreLookedUp m.records m.dead m.paths m.children };
}

/// Adds the path of the last module.
fn push_path(
    alloc: Global,
    records: &[Record],
    dead: &IdList,
    paths: &mut PathTable,
) -> Result<(), NoMemory>
    requires few { length records.now < 2 ^ 32 }
    requires last { length paths.old + 1 ≡ length records.now }
    ensures ok { OnOk result (paths.new
        ≡ paths.old ++ module_as records.now dead.now (length records.now) ∷ []) }
    ensures err { OnErr result (paths.new ≡ paths.old) }
{
    let id = records.len() as u32;
    let path = path_of(alloc, records, id)?;
    paths.push(alloc, path)?;
    if dead.has(id) {
        paths.bury(id as usize - 1);
    }
    Ok(())
}

/// Looks up the last module, which stands in that one.
fn look_up_last(
    alloc: Global,
    records: &[Record],
    dead: &IdList,
    paths: &mut PathTable,
    children: &mut ChildTable,
    parent: u32,
) -> Result<(), NoMemory>
    requires few { length records.now < 2 ^ 32 }
    requires last { length paths.old + 1 ≡ length records.now }
    requires child { length children.old + 1 ≡ length records.now }
    requires there { parent ≤ length children.old }
    ensures paths { OnOk result (paths.new
        ≡ paths.old ++ module_as records.now dead.now (length records.now) ∷ []) }
    ensures children { OnOk result (children.new ≡ children.old ++ parent ∷ []) }
    ensures no_paths { OnErr result (paths.new ≡ paths.old) }
    ensures no_children { OnErr result (children.new ≡ children.old) }
{
    let count = children.len();
    children.push(alloc, parent)?;
    match push_path(alloc, records, dead, paths) {
        Ok(()) => Ok(()),
        Err(failed) => {
            children.cut(count);
            Err(failed)
        }
    }
}

impl ModuleList {
    /// No module was created.
    pub fn new(alloc: Global) -> ModuleList
        ensures { result ≡ record { records = []; dead = [] } }
    {
        ModuleList {
            records: RecordTable::new(alloc),
            dead: IdList::new(alloc),
            paths: PathTable::new(alloc),
            children: ChildTable::new(alloc),
        }
    }

    // ---- what is there

    /// Their records, by rising ids.
    pub fn records(&self) -> &[Record]
        ensures records { result.now ≡ self.now.records }
        ensures few { length result.now < 2 ^ 32 }
    {
        self.records.as_slice()
    }

    /// How many were created.
    pub fn len(&self) -> usize
        ensures { result ≡ length self.now.records }
    {
        self.records.len()
    }

    /// The ids of those that are dead, in the order in which they died.
    pub fn dead(&self) -> &[u32]
        ensures { result.now ≡ self.now.dead }
    {
        self.dead.as_slice()
    }

    /// Whether the module of that id is dead.
    pub fn is_dead(&self, id: u32) -> bool
        ensures { result ≡ among id self.now.dead }
    {
        self.dead.has(id)
    }

    /// Where a hop from a gate of the module of that id leads, as was answered.
    pub fn hop_by(&self, id: u32, answer: Answer) -> Option<NextHop>
        ensures { result ≡ hop_by self.now.records id answer }
    {
        self.records.hop_by(id, answer)
    }

    /// The first module of that path that is not dead, where there is one.
    pub fn first_at(&self, path: &Text) -> Option<u32>
        ensures { result ≡ first_from (lives_at path.now self.now) 1 self.now.records }
    {
        match self.paths.first(path) {
            Some(number) => Some(number as u32 + 1),
            None => None,
        }
    }

    // ---- modules come and go

    /// One more was created, in one that was created before. Where memory runs out all is as it
    /// was.
    pub fn push(&mut self, alloc: Global, created: Record) -> Result<(), NoMemory>
        requires few { length self.old.records + 1 < 2 ^ 32 }
        requires there { created.parent ≤ length self.old.records }
        ensures ok { OnOk result (self.new
            ≡ record self.old { records = self.old.records ++ created ∷ [] }) }
        ensures err { OnErr result (self.new ≡ self.old) }
    {
        let count = self.records.len();
        let parent = created.parent;
        self.records.push(alloc, created)?;
        let looked_up = look_up_last(
            alloc,
            self.records.as_slice(),
            &self.dead,
            &mut self.paths,
            &mut self.children,
            parent,
        );
        match looked_up {
            Ok(()) => Ok(()),
            Err(failed) => {
                self.records.cut(count);
                Err(failed)
            }
        }
    }

    /// As many are left, those that were created first.
    pub fn cut(&mut self, left: usize)
        ensures { self.new ≡ record self.old { records = take left self.old.records } }
    {
        self.records.cut(left);
        self.paths.cut(left);
        self.children.cut(left);
    }

    /// The module of that id is dead.
    pub fn bury(&mut self, id: u32) -> Result<(), NoMemory>
        ensures ok { OnOk result (self.new ≡ record self.old { dead = self.old.dead ++ id ∷ [] }) }
        ensures err { OnErr result (self.new ≡ self.old) }
    {
        self.dead.push(id)?;
        if 0 < id && id as usize <= self.records.len() {
            self.paths.bury(id as usize - 1);
        }
        Ok(())
    }

    /// The module that died last lives again.
    fn revive(&mut self)
        requires { 0 < length self.old.dead }
        ensures { (id : ℕ) × (self.old ≡ record self.new { dead = self.new.dead ++ id ∷ [] }) }
    {
        let id = self.dead.pop().unwrap();
        if self.dead.has(id) {
            return;
        }
        if 0 < id && id as usize <= self.records.len() {
            self.paths.revive(id as usize - 1);
        }
    }

    /// As many are dead, those that died first.
    pub fn cut_dead(&mut self, left: usize)
        ensures { self.new ≡ record self.old { dead = take left self.old.dead } }
    {
        while self.dead.len() > left {
            self.revive();
        }
    }

    // ---- what is inside of one

    /// The module of that id and all that stand inside of it, of those that live, by their ids.
    pub fn subtree_of(&self, alloc: Global, id: u32) -> Result<Items<u32>, NoMemory>
        ensures { IfOk result (λ ids. ids
            ≡ filter (λ n. stands_in self.now.records id n) (living self.now)) }
    {
        let mut found = Items::new(alloc);
        let last = last_in(&self.children, MAX_LEVELS, id);
        let end = self.records.len().min(last as usize);
        for index in id.saturating_sub(1) as usize..end {
            let inner = index as u32 + 1;
            if self.lives_in(id, inner) {
                found.push(inner)?;
            }
        }
        Ok(found)
    }

    /// Whether the second module is not dead, and is the first one or stands inside of it.
    fn lives_in(&self, id: u32, inner: u32) -> bool
        ensures { result
            ≡ (not (among inner self.now.dead) && stands_in self.now.records id inner) }
    {
        !self.dead.has(inner) && stands_in(self.records.as_slice(), id, inner)
    }

    /// The same in the order of the end: each after its submodules.
    pub fn inner_first(&self, alloc: Global, id: u32) -> Result<Items<u32>, NoMemory>
        ensures { IfOk result
            (λ ids. ids ≡ inner_first self.now.records (living self.now) id) }
    {
        let mut found = Items::new(alloc);
        push_inner_first(&self.children, &self.dead, MAX_LEVELS, id, &mut found)?;
        Ok(found)
    }
}
