//! Lists of ids in which an id is found at once.
#![tactic(auto)]

ghost use Rattle.std.specs.Prelude.{◌≡◌, ◌==◌, ◌<◌, ◌+◌, ◌-◌, ◌^◌, ◌∷◌, ◌++◌, ℕ, [], cond, get_or};
ghost use Rattle.std.specs.Prelude.{length, take, MatchOption, OnOk, OnErr};
ghost use Rattle.std.specs.List.{list_any};
ghost use Rattle.id_lists.specs.Counts.{has_slot};

use sim_values::NoMemory;
use sqlite_items::Items;
use std::alloc::{AllocError, Global};
use std::marker::Model;

/// So many ids have a slot for how often they stand in a list. One that is greater is looked for
/// in the list itself, whoever calls with that id: the slots never take more memory than so many
/// do.
const SLOTS: u32 = 1 << 20;

/// Ids in their order, with how often each of them stands there, by the id. Contracts see the list
/// of the ids.
pub struct IdList {
    ids: Items<u32>,
    counts: Vec<usize>,
}

// Written out, so that a crate which drops one need not prove what that does.
impl Drop for IdList {
    fn drop(self) {
        let IdList { ids: _, counts: _ } = self;
    }
}

impl Model for IdList {
    ghost use Rattle.std.specs.Prelude.{List, ℕ};
    ghost use Rattle.id_lists.specs.Counts.{AreCounted};

    ghost Value = { List ℕ };

    ghost view = { λ l. l.ids };

    ghost invariant = { λ l. AreCounted l.ids l.counts.items };
}

impl IdList {
    /// No ids.
    pub fn new(alloc: Global) -> IdList
        ensures { result ≡ [] }
    {
        IdList {
            ids: Items::new(alloc),
            counts: Vec::new(alloc),
        }
    }

    /// How many there are, those that stand twice counted twice.
    pub fn len(&self) -> usize
        ensures { result ≡ length self.now }
    {
        self.ids.len()
    }

    /// The ids in their order.
    pub fn as_slice(&self) -> &[u32]
        ensures { result.now ≡ self.now }
    {
        self.ids.as_slice()
    }

    /// Whether an id stands in the list.
    pub fn has(&self, id: u32) -> bool
        ensures { result ≡ list_any (λ n. n == id) self.now }
    {
        if id < SLOTS {
            return count_at(self.counts.as_slice(), id) > 0;
        }
        self.ids.as_slice().iter().any(|other| *other == id)
    }

    /// One more, behind the others.
    pub fn push(&mut self, id: u32) -> Result<(), NoMemory>
        ensures ok { OnOk result (self.new ≡ self.old ++ id ∷ []) }
        ensures err { OnErr result (self.new ≡ self.old) }
    {
        reach(&mut self.counts, id)?;
        self.ids.push(id)?;
        // No id stands there more often than the list is long.
        let _most = self.ids.len();
        if id < SLOTS {
            count_one_more(&mut self.counts, id);
        }
        Ok(())
    }

    /// Takes the last one out, where there is one.
    pub fn pop(&mut self) -> Option<u32>
        ensures { MatchOption result ((self.old ≡ []) × (self.new ≡ []))
            (λ last. self.old ≡ self.new ++ last ∷ []) }
    {
        let last = self.ids.pop()?;
        if last < SLOTS {
            count_one_less(&mut self.counts, last);
        }
        Some(last)
    }

    /// Drops the last ones, so that as many are left, the first ones. Where there are no more, all
    /// stay.
    pub fn cut(&mut self, left: usize)
        ensures { self.new ≡ take left self.old }
    {
        while self.len() > left {
            self.pop();
        }
    }
}

/// What the slot of an id says, none where there is no slot.
fn count_at(counts: &[usize], id: u32) -> usize
    ensures { result ≡ get_or counts.now id 0 }
{
    match counts.get(id as usize) {
        Some(count) => *count,
        None => 0,
    }
}

/// Makes the slots of all ids up to that one, where it may have one.
fn reach(counts: &mut Vec<usize>, id: u32) -> Result<(), AllocError>
    ensures same { (n : ℕ) → get_or counts.new.items n 0 ≡ get_or counts.old.items n 0 }
    ensures long { OnOk result (has_slot id counts.new.items) }
{
    if id < SLOTS {
        while counts.len() <= id as usize {
            counts.push(0)?;
        }
    }
    Ok(())
}

/// That id stands once more in a list.
fn count_one_more(counts: &mut Vec<usize>, id: u32)
    requires there { id < length counts.old.items }
    requires room { get_or counts.old.items id 0 + 1 < 2 ^ 64 }
    ensures { (n : ℕ) → get_or counts.new.items n 0
        ≡ cond (id == n) (get_or counts.old.items n 0 + 1) (get_or counts.old.items n 0) }
{
    let place = id as usize;
    let count = counts[place];
    counts[place] = count + 1;
}

/// That id stands once less in a list.
fn count_one_less(counts: &mut Vec<usize>, id: u32)
    requires { 0 < get_or counts.old.items id 0 }
    ensures { (n : ℕ) → get_or counts.new.items n 0
        ≡ cond (id == n) (get_or counts.old.items n 0 - 1) (get_or counts.old.items n 0) }
{
    let place = id as usize;
    let count = counts[place];
    counts[place] = count - 1;
}
