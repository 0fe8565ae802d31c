//! What holds the boxes of simple modules, each found by the id of its module at once.
#![tactic(auto)]

ghost use Rattle.std.specs.Prelude.{◌≡◌, [], ◌<◌, ◌≤◌, ◌^◌, length, slice_get, None, OnOk, OnErr};
ghost use Rattle.std.specs.Prelude.{IfErr, IfSome};
ghost use Rattle.std.specs.Option.{option_copied};
ghost use Rattle.module_tree.specs.Boxes.{box_of, last_id, with_box, without_box, without_boxes};
ghost use Rattle.module_tree.specs.Boxes.{nothing, with_boxes, with_seats, seats_from};
ghost use Rattle.module_tree.specs.Boxes.{AreFree, AreRising};

use std::alloc::{AllocError, AllocFailed, Global};
use std::marker::Model;

/// Boxes by the ids of their modules, which contracts see as a list by rising ids. Each box stands
/// at the number of its id, so none is searched for.
#[derive(Drop)]
pub struct Tree<T> {
    slots: Vec<Option<T>>,
    count: usize,
}

impl<T> Model for Tree<T> {
    ghost use Rattle.std.specs.Prelude.{length};
    ghost use Rattle.module_tree.specs.Boxes.{Held, IsCounted, seats_from};

    ghost Value = { Held T };

    ghost view = { λ t. record {
      seats = seats_from 0 t.slots.items;
      room = length t.slots.items;
    } };

    ghost invariant = { λ t. IsCounted t.count t.slots.items };
}

impl<T> Tree<T> {
    /// A tree without boxes, which takes no memory.
    pub fn new(alloc: Global) -> Tree<T>
        ensures { result ≡ nothing }
    {
        Tree {
            slots: Vec::new(alloc),
            count: 0,
        }
    }

    /// How many boxes there are.
    pub fn len(&self) -> usize
        ensures { result ≡ length self.now.seats }
    {
        self.count
    }

    /// Up to which id there is room. All ids are below it.
    pub fn room(&self) -> usize
        ensures room { result ≡ self.now.room }
        ensures few { result ≤ 2 ^ 32 }
        ensures rising { AreRising 0 self.now.room self.now.seats }
    {
        self.slots.len()
    }

    /// The box of the module of that id.
    pub fn get(&self, id: u32) -> Option<&T>
        ensures { option_copied result ≡ box_of id self.now.seats }
    {
        match slot_at(self.slots.as_slice(), id as usize) {
            Some(slot) => slot.as_ref(),
            None => None,
        }
    }

    /// The greatest id that has a box.
    pub fn last(&self) -> Option<u32>
        ensures last { result ≡ last_id self.now.seats }
        ensures rising { AreRising 0 self.now.room self.now.seats }
    {
        last_at(self.slots.as_slice())
    }

    /// Takes the box of the module of that id out. Its place stays.
    pub fn take(&mut self, id: u32) -> Option<T>
        ensures value { result ≡ box_of id self.old.seats }
        ensures rest { self.new ≡ with_seats (without_box id self.old.seats) self.old }
        ensures there { IfSome result (λ value. id < self.old.room) }
        ensures rising { AreRising 0 self.old.room self.old.seats }
    {
        let taken = take_at(&mut self.slots, id as usize);
        if taken.is_some() {
            self.count -= 1;
        }
        taken
    }
}

impl<T: Drop> Tree<T> {
    /// Gives the module of that id its box, or hands the box back where memory runs out. That
    /// module has none yet.
    pub fn place(&mut self, id: u32, value: T) -> Result<(), AllocFailed<T>>
        requires { box_of id self.old.seats ≡ None }
        ensures ok { OnOk result (self.new.seats ≡ with_box id value self.old.seats) }
        ensures err { OnErr result (self.new.seats ≡ self.old.seats) }
        ensures returned { IfErr result (λ failed. failed.value ≡ value) }
    {
        let index = id as usize;
        if widen(&mut self.slots, index).is_err() {
            return Err(AllocFailed { value });
        }
        self.slots[index] = Some(value);
        self.count += 1;
        Ok(())
    }

    /// Puts the box of the module of that id back, where its place is, as after `take`.
    pub fn put_back(&mut self, id: u32, value: T)
        requires there { id < self.old.room }
        requires free { box_of id self.old.seats ≡ None }
        ensures { self.new ≡ with_seats (with_box id value self.old.seats) self.old }
    {
        self.slots[id as usize] = Some(value);
        self.count += 1;
    }

    /// Makes room up to that id.
    fn reserve(&mut self, id: u32) -> Result<(), AllocError>
        ensures same { self.new.seats ≡ self.old.seats }
        ensures room { OnOk result (id < self.new.room) }
    {
        widen(&mut self.slots, id as usize)
    }

    /// Takes in the boxes of another one, whose ids are below that number. Up to there is room.
    fn take_below(&mut self, others: &mut Tree<T>, below: usize)
        requires few { below ≤ 2 ^ 32 }
        requires room { below ≤ self.old.room }
        requires rising { AreRising 0 below others.old.seats }
        requires free { AreFree others.old.seats self.old.seats }
        ensures all { self.new.seats ≡ with_boxes others.old.seats self.old.seats }
        ensures none { others.new.seats ≡ [] }
    {
        let mut left = below;
        while others.len() > 0 {
            left -= 1;
            if let Some(value) = others.take(left as u32) {
                self.put_back(left as u32, value);
            }
        }
    }

    /// Takes all boxes of another one in, whose modules have none yet. Where memory runs out both
    /// stay as they were.
    pub fn take_in(&mut self, others: &mut Tree<T>) -> Result<(), AllocError>
        requires { AreFree others.old.seats self.old.seats }
        ensures all { OnOk result (self.new.seats ≡ with_boxes others.old.seats self.old.seats) }
        ensures none { OnOk result (others.new.seats ≡ []) }
        ensures same { OnErr result (self.new.seats ≡ self.old.seats) }
        ensures left { OnErr result (others.new.seats ≡ others.old.seats) }
    {
        let Some(last) = others.last() else {
            return Ok(());
        };
        self.reserve(last)?;
        self.take_below(others, last as usize + 1);
        Ok(())
    }

    /// Drops the boxes of the modules of these ids.
    pub fn remove(&mut self, ids: &[u32])
        ensures { self.new ≡ with_seats (without_boxes ids.now self.old.seats) self.old }
    {
        for id in ids {
            self.take(*id);
        }
    }

    /// Drops all boxes.
    pub fn clear(&mut self)
        ensures { self.new ≡ nothing }
    {
        self.slots.clear();
        self.count = 0;
    }
}

/// The slot of that number.
fn slot_at<T>(slots: &[Option<T>], index: usize) -> Option<&Option<T>>
    ensures { option_copied result ≡ slice_get slots.now index }
{
    slots.get(index)
}

/// The number of the last slot that holds something.
fn last_at<T>(slots: &[Option<T>]) -> Option<u32>
    requires { length slots.now ≤ 2 ^ 32 }
    ensures { result ≡ last_id (seats_from 0 slots.now) }
{
    let mut rest = slots;
    while let [before @ .., slot] = rest {
        if slot.is_some() {
            return Some(before.len() as u32);
        }
        rest = before;
    }
    None
}

/// Makes room up to that slot.
#[tactic(auto, using(crate::proofs::Seats::wider))]
fn widen<T: Drop>(slots: &mut Vec<Option<T>>, index: usize) -> Result<(), AllocError>
    requires index { index < 2 ^ 32 }
    requires few { length slots.old.items ≤ 2 ^ 32 }
    ensures few { length slots.new.items ≤ 2 ^ 32 }
    ensures same { seats_from 0 slots.new.items ≡ seats_from 0 slots.old.items }
    ensures room { OnOk result (index < length slots.new.items) }
    ensures longer { length slots.old.items ≤ length slots.new.items }
{
    for more in slots.len()..index + 1 {
        slots.push(None)?;
    }
    Ok(())
}

/// Takes out what that slot holds.
#[tactic(auto, using(crate::proofs::Seats::taken, crate::proofs::Seats::none_taken, crate::proofs::Seats::none_out, crate::proofs::Seats::emptied))]
fn take_at<T>(slots: &mut Vec<Option<T>>, index: usize) -> Option<T>
    ensures value { result ≡ box_of index (seats_from 0 slots.old.items) }
    ensures rest { seats_from 0 slots.new.items ≡ without_box index (seats_from 0 slots.old.items) }
    ensures room { length slots.new.items ≡ length slots.old.items }
    ensures there { IfSome result (λ value. index < length slots.new.items) }
{
    if index >= slots.len() {
        return None;
    }
    slots[index].take()
}
