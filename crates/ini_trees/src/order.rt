//! An order in which each section stands after those that it extends.

ghost use Rattle.std.specs.Prelude.{◌≡◌, ◌<◌, ◌∷◌, ◌++◌, [], ℕ, List, None, true, false, replicate};
ghost use Rattle.std.specs.Prelude.{IfOk, MatchOption, OnOk, length, slice_index_or, slice_set};
ghost use Rattle.std.specs.List.{Contains};
ghost use Rattle.std.specs.Option.{option_copied};
ghost use Rattle.ini_trees.specs.Numbers.{bases_at, passed_at, is_done_at, AreRows, IsWalk};
ghost use Rattle.ini_trees.specs.Numbers.{IsWaiting, IsAtBase, IsBehindBases, IsNext, SettlesStep};
ghost use Rattle.ini_trees.specs.Numbers.{SettlesOrder};

use sqlite_items::Items;
use std::alloc::{AllocError, Global};

/// A walk over the sections that one extends, those that these extend, and so on.
#[derive(Drop)]
struct Walk {
    /// The sections from the first one to that where the walk is. Each extends the next.
    path: Items<usize>,
    /// For each section 0 where it was not begun, and else the place of the base that is looked at
    /// next, beginning with the second. The first is found when all are looked through once more,
    /// before the section is done.
    passed: Items<usize>,
    /// For each section whether it is in the order.
    done: Items<bool>,
    /// Those that are done: each after what it extends.
    order: Items<usize>,
}

/// What a walk does next.
enum Next {
    /// It goes to this one, which was not begun.
    Begin(usize),
    /// It passes a base that was begun, and looks at the one in this place next.
    Pass(usize),
    /// All bases are done, and so is the section.
    Finish,
    /// The section extends one that is not there, or one that extends it.
    Fault,
}

/// The numbers of those that a section extends, if they are all there.
pub fn bases_at(rows: &[Option<Items<usize>>], number: usize) -> Option<&[usize]>
    ensures { option_copied result ≡ slice_index_or rows.now number None }
{
    match rows.get(number) {
        Some(Some(row)) => Some(row.as_slice()),
        _ => None,
    }
}

/// The place of the base of a section that is looked at next; 0 where it was not begun.
fn passed_at(passed: &[usize], number: usize) -> usize
    ensures { result ≡ passed_at passed.now number }
{
    match passed.get(number) {
        Some(passed) => *passed,
        None => 0,
    }
}

/// Whether a section is done.
fn is_done(done: &[bool], number: usize) -> bool
    ensures { result ≡ is_done_at done.now number }
{
    match done.get(number) {
        Some(done) => *done,
        None => false,
    }
}

/// The first of these that is not done.
fn first_waiting(row: &[usize], done: &[bool]) -> Option<usize>
    ensures { IsWaiting row.now done.now result }
{
    for base in row {
        if !is_done(done, *base) {
            return Some(*base);
        }
    }
    None
}

/// What a walk does where this is the base that it looks at, and that the next place.
fn at_base(passed: &[usize], base: usize, next: usize) -> Next
    ensures { IsAtBase passed.now base next result }
{
    if passed_at(passed, base) == 0 {
        Next::Begin(base)
    } else {
        Next::Pass(next)
    }
}

/// What a walk does where it has passed all bases of a section.
fn behind_bases(row: &[usize], passed: &[usize], done: &[bool]) -> Next
    ensures { IsBehindBases row.now passed.now done.now result }
{
    match first_waiting(row, done) {
        None => Next::Finish,
        Some(base) if passed_at(passed, base) == 0 => Next::Begin(base),
        Some(_) => Next::Fault,
    }
}

/// What a walk does next at a section.
fn next_at(rows: &[Option<Items<usize>>], passed: &[usize], done: &[bool], top: usize) -> Next
    ensures { IsNext rows.now passed.now done.now top result }
{
    let Some(row) = bases_at(rows, top) else {
        return Next::Fault;
    };
    let place = passed_at(passed, top);
    match row.get(place) {
        Some(base) => at_base(passed, *base, place + 1),
        None => behind_bases(row, passed, done),
    }
}

/// The last of these.
fn last_of(path: &[usize]) -> Option<usize>
    ensures { MatchOption result (path.now ≡ [])
        (λ last. (front : List ℕ) × (path.now ≡ front ++ last ∷ [])) }
{
    match path {
        [.., last] => Some(*last),
        [] => None,
    }
}

/// So many zeros.
fn zeros(alloc: Global, count: usize) -> Result<Items<usize>, AllocError>
    ensures { IfOk result (λ zeros. zeros ≡ replicate count 0) }
{
    Ok(Items::from_vec(vec![in alloc; 0; count]?))
}

/// So many times that nothing is done.
fn nothing_done(alloc: Global, count: usize) -> Result<Items<bool>, AllocError>
    ensures { IfOk result (λ done. done ≡ replicate count false) }
{
    Ok(Items::from_vec(vec![in alloc; false; count]?))
}

impl Walk {
    /// A walk that begins at the root.
    fn at_root(alloc: Global, count: usize, root: usize) -> Result<Walk, AllocError>
        requires { root < count }
        ensures { IfOk result (λ walk. walk ≡ record {
          path = root ∷ [];
          passed =
              slice_set (replicate count 0) root 1;
          done = replicate count false;
          order = [];
        }) }
    {
        let mut path = Items::new(alloc);
        path.push(root)?;
        let mut passed = zeros(alloc, count)?;
        passed.set(root, 1);
        Ok(Walk {
            path,
            passed,
            done: nothing_done(alloc, count)?,
            order: Items::new(alloc),
        })
    }

    /// Goes to a section that was not begun.
    fn begin(&mut self, number: usize) -> Result<(), AllocError>
        requires { number < length self.old.passed }
        ensures { OnOk result (self.new ≡ record self.old {
          path = self.old.path ++ number ∷ [];
          passed = slice_set self.old.passed number 1;
        }) }
    {
        self.path.push(number)?;
        self.passed.set(number, 1);
        Ok(())
    }

    /// Looks at the base in that place of a section next.
    fn pass(&mut self, number: usize, next: usize)
        requires { number < length self.old.passed }
        ensures { self.new ≡ record self.old { passed = slice_set self.old.passed number next } }
    {
        self.passed.set(number, next);
    }

    /// Goes back from a section that is done.
    fn finish(&mut self, number: usize) -> Result<(), AllocError>
        requires within { number < length self.old.done }
        ensures path { OnOk result ((front : List ℕ) (top : ℕ) → self.old.path ≡ front ++ top ∷ []
            → self.new.path ≡ front) }
        ensures rest { OnOk result ((self.new.passed ≡ self.old.passed) × (self.new.done ≡ slice_set
            self.old.done number true) × (self.new.order ≡ self.old.order ++ number ∷ [])) }
    {
        self.order.push(number)?;
        self.done.set(number, true);
        self.path.pop();
        Ok(())
    }

    /// Goes on from a section. Says no where that, or what it extends, goes round in a circle or is
    /// not there.
    fn step(&mut self, rows: &[Option<Items<usize>>], top: usize) -> Result<bool, AllocError>
        requires rows { AreRows rows.now }
        requires within { top < length rows.now }
        requires passed { length self.old.passed ≡ length rows.now }
        requires done { length self.old.done ≡ length rows.now }
        ensures { (root : ℕ) (front : List ℕ)
            → IsWalk rows.now root self.old.path self.old.passed self.old.done self.old.order
            → self.old.path ≡ front ++ top ∷ []
            → SettlesStep rows.now root self.old self.new result }
    {
        match next_at(rows, self.passed.as_slice(), self.done.as_slice(), top) {
            Next::Begin(base) => {
                self.begin(base)?;
                Ok(true)
            }
            Next::Pass(next) => {
                self.pass(top, next);
                Ok(true)
            }
            Next::Finish => {
                self.finish(top)?;
                Ok(true)
            }
            Next::Fault => Ok(false),
        }
    }
}

/// All that the root extends, that these extend, and so on, and at last the root: each section
/// after those that it extends. None where one of them is not there, or they go round in a circle.
pub fn order_behind(
    alloc: Global,
    rows: &[Option<Items<usize>>],
    root: usize,
) -> Result<Option<Items<usize>>, AllocError>
    requires rows { AreRows rows.now }
    requires within { root < length rows.now }
    ensures { SettlesOrder rows.now root result }
{
    let mut walk = Walk::at_root(alloc, rows.len(), root)?;
    while let Some(top) = last_of(walk.path.as_slice()) {
        if !walk.step(rows, top)? {
            return Ok(None);
        }
    }
    Ok(Some(walk.order))
}
