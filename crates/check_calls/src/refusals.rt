//! Runs for which memory runs out, at each step of their modules in turn: the positions that they
//! leave, and the runs after them.

ghost use Rattle.std.specs.Prelude.{IfOk, codes};
ghost use Rattle.desk_answers.specs.Turns.{IsSettled};
ghost use Rattle.module_api.specs.Meaning.{IsFresh};
ghost use Rattle.module_stock.specs.Stock.{stock};

use crate::calls::{desk_of, supply};
use crate::refusing::Refusing;
use checkpoint_runs::observer::Unobserved;
use desk_answers::desk::{Desk, DeskTurn};
use module_api::name::Name;
use module_api::simple_module::SimpleModule;
use module_stock::stock::Stock;
use std::alloc::Global;
use std::cell::Cell;
use std::process::Abort;
use std::rc::Rc;
use std::test::Fail;

/// From which step to which: the positions after a run of twenty events, a position after each
/// third, for which memory runs out at that step, and what the same run is answered then. Step 1
/// initializes, step 2 saves the state for the position of event zero; each three events come with
/// the position after them; steps 27 and 28 are the last two events, 29 saves the state for the
/// last position, and 30 finishes.
const RULE: &[(u64, u64, &str, &str)] = &[
    (1, 2, "positions none", "a box is wanted"),
    (3, 6, "positions 0", "done event-limit from 0 executed 20"),
    (
        7,
        10,
        "positions 0 3",
        "done event-limit from 3 executed 17",
    ),
    (
        11,
        14,
        "positions 0 3 6",
        "done event-limit from 6 executed 14",
    ),
    (
        15,
        18,
        "positions 0 3 6 9",
        "done event-limit from 9 executed 11",
    ),
    (
        19,
        22,
        "positions 0 3 6 9 12",
        "done event-limit from 12 executed 8",
    ),
    (
        23,
        26,
        "positions 0 3 6 9 12 15",
        "done event-limit from 15 executed 5",
    ),
    (
        27,
        29,
        "positions 0 3 6 9 12 15 18",
        "done event-limit from 18 executed 2",
    ),
    (
        30,
        30,
        "positions 0 3 6 9 12 15 18 20",
        "done event-limit from 20 executed 0",
    ),
];

/// What is told after a run for which memory ran out.
#[derive(Drop)]
struct Left {
    positions: Name,
    again: Name,
}

/// A box of a fresh Tick that meets lack of memory there.
fn boxed(alloc: Global, left: &Rc<Cell<u64>>) -> Result<Box<dyn SimpleModule>, Fail>
    ensures { IfOk result (λ held. IsFresh stock (codes "Tick") (meaning held)) }
{
    let made = Refusing::of_kind(alloc, b"Tick".as_slice(), Rc::clone(left)?).ok_or("unknown")?;
    Ok(Box::new(alloc, made)?)
}

/// Answers a line. A run that begins with setup wants its box again.
fn tell(desk: &mut Desk<Stock>, line: &str) -> Result<Name, Fail>
    requires { IsSettled stock (λ b. ⟦<dyn SimpleModule as SimpleModule>⟧ b.vtable) desk.old }
    ensures { IsSettled stock (λ b. ⟦<dyn SimpleModule as SimpleModule>⟧ b.vtable) desk.new }
{
    match desk.line(line.as_bytes(), &mut Unobserved)? {
        DeskTurn::Text(answer) => Ok(answer.into_text()),
        DeskTurn::Want(_) => Ok(Name::word("a box is wanted")),
    }
}

/// A run of twenty events, for which memory has to run out.
fn starve(desk: &mut Desk<Stock>) -> Result<(), Fail>
    requires { IsSettled stock (λ b. ⟦<dyn SimpleModule as SimpleModule>⟧ b.vtable) desk.old }
    ensures { IsSettled stock (λ b. ⟦<dyn SimpleModule as SimpleModule>⟧ b.vtable) desk.new }
{
    match desk.line(b"run 20".as_slice(), &mut Unobserved) {
        Ok(_) => Err(Fail::from("the run is done")),
        Err(_) => Ok(()),
    }
}

/// A run of twenty events, for which memory has to run out at that step, and what two further lines
/// are answered.
fn refuse(
    desk: &mut Desk<Stock>,
    left: &Cell<u64>,
    held: Box<dyn SimpleModule>,
    step: u64,
) -> Result<Left, Fail>
    requires made { IsFresh stock (codes "Tick") (meaning held) }
    requires sound { IsSettled stock (λ b. ⟦<dyn SimpleModule as SimpleModule>⟧ b.vtable) desk.old }
    ensures { IsSettled stock (λ b. ⟦<dyn SimpleModule as SimpleModule>⟧ b.vtable) desk.new }
{
    supply(desk, held)?;
    left.set(step);
    starve(desk)?;
    let positions = tell(desk, "positions")?;
    let again = tell(desk, "run 20")?;
    Ok(Left { positions, again })
}

/// The same, at a desk of its own.
fn refused_at(alloc: Global, step: u64) -> Result<Left, Fail> {
    let left = Rc::new(alloc, Cell::new(0))?;
    let held = boxed(alloc, &left)?;
    let mut desk = desk_of(alloc, 3)?;
    let told = refuse(&mut desk, &left, held, step);
    // The process ends with the test, and to drop a desk would be the dearest part of the proof.
    std::mem::forget(desk);
    told
}

#[test]
fn positions_stand_up_to_where_memory_ran_out(rt: HostRuntime) -> Result<(), Fail> {
    for (first, last, positions, again) in RULE {
        for step in *first..*last + 1 {
            let left = refused_at(rt.alloc(), step)?;
            assert_eq!(rt; left.positions.as_bytes(), positions.as_bytes());
            assert_eq!(rt; left.again.as_bytes(), again.as_bytes());
        }
    }
    Ok(())
}
