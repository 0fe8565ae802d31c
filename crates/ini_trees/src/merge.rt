//! The merge of lists of numbers: again and again the first head of a list that stands in no tail
//! of a list.
//!
//! How often each number stands in the tails is counted once, and then kept up to date. So a merge
//! takes a step for each number of each list, and for each number of the merge one for each list.

ghost use Rattle.std.specs.Prelude.{◌≡◌, ◌↔◌, ℕ, ◌+◌, ◌<◌, ◌≤◌, ◌^◌, [], IsTrue, length, slice_get};
ghost use Rattle.std.specs.Prelude.{slice_index, IfOk};
ghost use Rattle.std.specs.List.{All};
ghost use Rattle.ini_trees.specs.Counts.{same_number, held, behind, AreBelow, AreAllBelow, Counts};
ghost use Rattle.ini_trees.specs.Counts.{HoldsZeros, ZerosBehind, SettlesMerge};
ghost use Rattle.ini_trees.specs.Merge.{tail, first_free, without_head, without};

use sqlite_items::Items;
use std::alloc::{AllocError, Global};
use std::marker::Model;

/// What is left of a list, which contracts see as the list of it.
pub struct Rest {
    numbers: Items<usize>,
    /// How many were taken from its front.
    taken: usize,
}

impl Drop for Rest {
    fn drop(self) {
        let Rest {
            numbers: _,
            taken: _,
        } = self;
    }
}

impl Model for Rest {
    ghost use Rattle.std.specs.Prelude.{List, ℕ, ◌≤◌, drop, length};

    ghost Value = { List ℕ };

    ghost view = { λ r. drop r.taken r.numbers };

    ghost invariant = { λ r. r.taken ≤ length r.numbers };
}

impl Rest {
    /// The whole list.
    pub fn of(alloc: Global, numbers: &[usize]) -> Result<Rest, AllocError>
        ensures { IfOk result (λ rest. rest ≡ numbers.now) }
    {
        Ok(Rest {
            numbers: Items::from_slice(alloc, numbers)?,
            taken: 0,
        })
    }

    /// What is left.
    fn left(&self) -> &[usize]
        ensures { result.now ≡ self.now }
    {
        &self.numbers.as_slice()[self.taken..]
    }

    /// The first number that is left.
    fn head(&self) -> Option<usize>
        ensures { result ≡ slice_get self.now 0 }
    {
        match self.numbers.get(self.taken) {
            Some(number) => Some(*number),
            None => None,
        }
    }

    /// Takes the first number.
    fn advance(&mut self)
        ensures { self.new ≡ tail self.old }
    {
        if self.taken < self.numbers.len() {
            self.taken += 1;
        }
    }
}

/// Counts the numbers of a list once more.
fn count(waiting: &mut [u128], numbers: &[usize])
    requires below { AreBelow (length waiting.old) numbers.now }
    requires room { (k : ℕ) → k < length waiting.old
        → slice_index waiting.old k + length numbers.now < 2 ^ 128 }
    ensures { (k : ℕ) → k < length waiting.old
        → slice_index waiting.new k ≡ slice_index waiting.old k + held k numbers.now }
{
    for number in numbers {
        waiting[*number] += 1;
    }
}

/// Counts the numbers after the head of a list once more.
fn count_tail(waiting: &mut [u128], numbers: &[usize])
    requires below { AreBelow (length waiting.old) numbers.now }
    requires room { (k : ℕ) → k < length waiting.old
        → slice_index waiting.old k + 2 ^ 64 ≤ 2 ^ 128 }
    ensures counts { (k : ℕ) → k < length waiting.old
        → slice_index waiting.new k ≡ slice_index waiting.old k + held k (tail numbers.now) }
    ensures few { (k : ℕ) → k < length waiting.old
        → slice_index waiting.new k < slice_index waiting.old k + 2 ^ 64 }
{
    if let [_, behind @ ..] = numbers {
        count(waiting, behind);
    }
}

/// Counts what stands in the tails of the lists, where nothing is counted so far.
fn count_tails(waiting: &mut [u128], rests: &[Rest])
    requires below { AreAllBelow (length waiting.old) rests.now }
    requires none { HoldsZeros waiting.old }
    ensures { Counts waiting.new rests.now }
{
    for rest in rests {
        count_tail(waiting, rest.left());
    }
}

/// The first head that stands in no tail.
fn first_free(rests: &[Rest], waiting: &[u128]) -> Option<usize>
    requires below { AreAllBelow (length waiting.now) rests.now }
    requires counted { Counts waiting.now rests.now }
    ensures { result ≡ first_free same_number rests.now rests.now }
{
    for rest in rests {
        if let Some(head) = rest.head() {
            if waiting[head] == 0 {
                return Some(head);
            }
        }
    }
    None
}

/// Takes a number from a list where it is the head. The new head stands in the list's tail no more.
fn take_head(rest: &mut Rest, waiting: &mut [u128], number: usize)
    requires below { AreBelow (length waiting.old) rest.old }
    requires counted { (k : ℕ) → k < length waiting.old
        → held k (tail rest.old) ≤ slice_index waiting.old k }
    ensures rest { rest.new ≡ without_head same_number number rest.old }
    ensures counts { (k : ℕ) → k < length waiting.old → slice_index waiting.new k
        + held k (tail rest.old) ≡ slice_index waiting.old k + held k (tail rest.new) }
{
    if rest.head() == Some(number) {
        rest.advance();
        if let Some(next) = rest.head() {
            waiting[next] -= 1;
        }
    }
}

/// Takes a number from each list whose head it is.
fn take(rests: &mut [Rest], waiting: &mut [u128], number: usize)
    requires below { AreAllBelow (length waiting.old) rests.old }
    requires counted { Counts waiting.old rests.old }
    ensures rests { rests.new ≡ without same_number number rests.old }
    ensures counted { Counts waiting.new rests.new }
{
    for rest in rests.iter_mut() {
        take_head(rest, waiting, number);
    }
}

/// Whether nothing is left of the lists.
fn are_empty(rests: &[Rest]) -> bool
    ensures { IsTrue result ↔ All (λ l. l ≡ []) rests.now }
{
    rests.iter().all(|rest| rest.left().is_empty())
}

/// The merge of the lists of which this is left, where there is one.
fn merged(
    alloc: Global,
    rests: &mut [Rest],
    waiting: &mut [u128],
) -> Result<Option<Items<usize>>, AllocError>
    requires below { AreAllBelow (length waiting.old) rests.old }
    requires counted { Counts waiting.old rests.old }
    ensures line { SettlesMerge rests.old result }
    ensures zeros { ZerosBehind waiting.new result }
{
    let mut line = Items::new(alloc);
    while let Some(number) = first_free(rests, waiting) {
        take(rests, waiting, number);
        line.push(number)?;
    }
    if are_empty(rests) {
        Ok(Some(line))
    } else {
        Ok(None)
    }
}

/// The merge of the lists of which this is left, where they have one. Nothing is counted so far,
/// and after a merge again.
pub fn merge(
    alloc: Global,
    rests: &mut [Rest],
    waiting: &mut [u128],
) -> Result<Option<Items<usize>>, AllocError>
    requires below { AreAllBelow (length waiting.old) rests.old }
    requires zeros { HoldsZeros waiting.old }
    ensures line { SettlesMerge rests.old result }
    ensures zeros { ZerosBehind waiting.new result }
{
    count_tails(waiting, rests);
    merged(alloc, rests, waiting)
}
