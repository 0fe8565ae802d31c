//! Modules in the order in which they were created, found by the one around them.
#![tactic(auto)]

ghost use Rattle.std.specs.Prelude.{◌≡◌, ◌≤◌, ◌<◌, ◌+◌, ◌^◌, ◌∷◌, ◌++◌, ℕ, [], OnOk, OnErr, length};
ghost use Rattle.std.specs.Prelude.{take};
ghost use Rattle.child_table.specs.Children.{HasOneLess, HasOneMore, children_of, list_at};

use sim_values::NoMemory;
use sqlite_items::Items;
use std::alloc::{AllocError, Global};
use std::marker::Model;

/// Modules in the order in which they were created, each by the id of the one around it: ids count
/// from 1. The submodules of a module are found without looking at others. Contracts see the list
/// of the ids of those around.
pub struct ChildTable {
    parents: Vec<u32>,
    /// For each id the ids of the submodules, which rise.
    lists: Vec<Items<u32>>,
}

// Written out, so that a crate which drops one need not prove what that does.
impl Drop for ChildTable {
    fn drop(self) {
        let ChildTable {
            parents: _,
            lists: _,
        } = self;
    }
}

impl Model for ChildTable {
    ghost use Rattle.std.specs.Prelude.{List, ℕ};
    ghost use Rattle.child_table.specs.Children.{AreChildren};

    ghost Value = { List ℕ };

    ghost view = { λ t. t.parents.items };

    ghost invariant = { λ t. AreChildren t.parents.items t.lists.items };
}

impl ChildTable {
    /// No module was created.
    pub fn new(alloc: Global) -> ChildTable
        ensures { result ≡ [] }
    {
        ChildTable {
            parents: Vec::new(alloc),
            lists: Vec::new(alloc),
        }
    }

    /// How many were created.
    pub fn len(&self) -> usize
        ensures { result ≡ length self.now }
    {
        self.parents.len()
    }

    /// The submodules of the module of that id, by their ids.
    pub fn of(&self, parent: u32) -> &[u32]
        ensures { result.now ≡ children_of parent self.now }
    {
        list_in(self.lists.as_slice(), parent)
    }

    /// One more was created, in the module of that id. Answers `NoMemory` if memory runs out: all
    /// is as it was then.
    pub fn push(&mut self, alloc: Global, parent: u32) -> Result<(), NoMemory>
        requires there { parent ≤ length self.old }
        requires few { length self.old + 1 < 2 ^ 32 }
        ensures ok { OnOk result (self.new ≡ self.old ++ parent ∷ []) }
        ensures err { OnErr result (self.new ≡ self.old) }
    {
        let id = self.len() as u32 + 1;
        reach(alloc, &mut self.lists, parent)?;
        add_child(&mut self.lists, parent, id)?;
        match self.parents.push(parent) {
            Ok(_) => Ok(()),
            Err(failed) => {
                drop_child(&mut self.lists, parent);
                Err(failed.into())
            }
        }
    }

    /// Forgets the last one.
    fn pop(&mut self)
        requires { 0 < length self.old }
        ensures { (last : ℕ) × (self.old ≡ self.new ++ last ∷ []) }
    {
        let parent = self.parents.pop().unwrap();
        drop_child(&mut self.lists, parent);
    }

    /// Forgets the last ones, so that as many are left, the first ones. Where there are no more,
    /// all stay. It takes no memory.
    pub fn cut(&mut self, left: usize)
        ensures { self.new ≡ take left self.old }
    {
        while self.len() > left {
            self.pop();
        }
    }
}

/// The list at a place; one that is not there is empty.
fn list_in(lists: &[Items<u32>], place: u32) -> &[u32]
    ensures { result.now ≡ list_at lists.now place }
{
    match lists.get(place as usize) {
        Some(list) => list.as_slice(),
        None => &[],
    }
}

/// Makes the lists of all ids up to that one.
fn reach(alloc: Global, lists: &mut Vec<Items<u32>>, place: u32) -> Result<(), AllocError>
    ensures same { (p : ℕ) → list_at lists.new.items p ≡ list_at lists.old.items p }
    ensures long { OnOk result (place < length lists.new.items) }
{
    while lists.len() <= place as usize {
        lists.push(Items::new(alloc))?;
    }
    Ok(())
}

/// One more stands in the list at that place.
fn add_child(lists: &mut Vec<Items<u32>>, place: u32, id: u32) -> Result<(), NoMemory>
    requires { place < length lists.old.items }
    ensures ok { OnOk result (HasOneMore place id lists.old.items lists.new.items) }
    ensures err { OnErr result ((p : ℕ) → list_at lists.new.items p ≡ list_at lists.old.items p) }
{
    lists[place as usize].push(id)?;
    Ok(())
}

/// The last one of the list at that place is gone.
fn drop_child(lists: &mut Vec<Items<u32>>, place: u32)
    ensures { HasOneLess place lists.old.items lists.new.items }
{
    if let Some(list) = lists.get_mut(place as usize) {
        list.pop();
    }
}
