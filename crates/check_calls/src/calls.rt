//! Runs after edits, with the calls that they take: a desk at a Tick that counts, and lines as a
//! user writes them.

ghost use Rattle.std.specs.Prelude.{◌≤◌, IfOk, codes};
ghost use Rattle.desk_answers.specs.Turns.{editing_at, IsSettled};
ghost use Rattle.module_api.specs.Meaning.{IsFresh};
ghost use Rattle.edit_session.specs.Editing.{wanted_of, IsFor};
ghost use Rattle.module_stock.specs.Stock.{stock};

use crate::counted::Counted;
use checkpoint_runs::observer::Unobserved;
use desk_answers::desk::{Desk, DeskTurn};
use edit_session::session::Session;
use module_api::name::Name;
use module_api::simple_module::SimpleModule;
use module_stock::stock::Stock;
use ned_trees::texts::NedTexts;
use std::alloc::Global;
use std::cell::Cell;
use std::process::Abort;
use std::rc::Rc;
use std::test::Fail;

/// A network with one Tick.
const NED: &str =
    "simple Tick\n{\n    parameters:\n        int count;\n        double gap @unit(s) = default(1s);\n        int priority = default(0);\n        int late = default(0);\n        int extra = default(0);\n        @statistic[fired](record=count,max,vector);\n        @statistic[extra](record=last);\n}\n\nnetwork N\n{\n    submodules:\n        t: Tick;\n}\n";

/// It fires a hundred times, and reads one parameter more at the 60th.
const INI: &str = "[General]\nnetwork = N\n**.count = 100\n**.late = 60\n";

/// What a line is answered, and how many calls it took.
#[derive(Drop)]
struct Told {
    answer: Name,
    calls: u64,
}

/// A desk at that network, with a position after each multiple of so many events.
pub fn desk_of(alloc: Global, interval: u64) -> Result<Desk<Stock>, Fail>
    requires { 1 ≤ interval }
    ensures { IfOk result
        (λ desk. IsSettled stock (λ b. ⟦<dyn SimpleModule as SimpleModule>⟧ b.vtable) desk) }
{
    let mut texts = NedTexts::new(alloc);
    texts.push(NED.as_bytes())?;
    let session = Session::<Stock>::begin(
        alloc,
        &texts,
        INI.as_bytes(),
        b"General".as_slice(),
        interval,
    )?;
    Ok(Desk::of_session(alloc, session))
}

/// A box of a fresh Tick that counts its calls there.
fn boxed(alloc: Global, calls: &Rc<Cell<u64>>) -> Result<Box<dyn SimpleModule>, Fail>
    ensures { IfOk result (λ held. IsFresh stock (codes "Tick") (meaning held)) }
{
    let made = Counted::of_kind(alloc, b"Tick".as_slice(), Rc::clone(calls)?).ok_or("unknown")?;
    Ok(Box::new(alloc, made)?)
}

/// Begins a run, which has to want the box.
pub fn supply(desk: &mut Desk<Stock>, held: Box<dyn SimpleModule>) -> Result<(), Fail>
    requires made { IsFresh stock (codes "Tick") (meaning held) }
    requires sound { IsSettled stock (λ b. ⟦<dyn SimpleModule as SimpleModule>⟧ b.vtable) desk.old }
    ensures { IsSettled stock (λ b. ⟦<dyn SimpleModule as SimpleModule>⟧ b.vtable) desk.new }
{
    match desk.run(100, &mut Unobserved)? {
        DeskTurn::Text(_) => Err(Fail::from("the run needs no box")),
        DeskTurn::Want(request) => {
            if !request.kind.is(b"Tick".as_slice()) {
                return Err(Fail::from("the run needs another box"));
            }
            give(desk, held)
        }
    }
}

/// Gives the run that waits its box.
fn give(desk: &mut Desk<Stock>, held: Box<dyn SimpleModule>) -> Result<(), Fail>
    requires wanted { let editing =
        editing_at (λ b. ⟦<dyn SimpleModule as SimpleModule>⟧ b.vtable) desk.old in
        IsFor stock (wanted_of stock editing) (meaning held) }
    requires sound { IsSettled stock (λ b. ⟦<dyn SimpleModule as SimpleModule>⟧ b.vtable) desk.old }
    ensures { IsSettled stock (λ b. ⟦<dyn SimpleModule as SimpleModule>⟧ b.vtable) desk.new }
{
    match desk.supply(held) {
        Ok(()) => Ok(()),
        Err(_) => Err(Fail::from("the box is handed back")),
    }
}

/// Answers a line, and counts the calls.
fn tell(desk: &mut Desk<Stock>, calls: &Cell<u64>, line: &str) -> Result<Told, Fail>
    requires { IsSettled stock (λ b. ⟦<dyn SimpleModule as SimpleModule>⟧ b.vtable) desk.old }
    ensures { IsSettled stock (λ b. ⟦<dyn SimpleModule as SimpleModule>⟧ b.vtable) desk.new }
{
    calls.set(0);
    match desk.line(line.as_bytes(), &mut Unobserved)? {
        DeskTurn::Text(answer) => Ok(Told {
            answer: answer.into_text(),
            calls: calls.get(),
        }),
        DeskTurn::Want(_) => Err(Fail::from("the run needs another box")),
    }
}

/// A run of a hundred events, which makes the one call of setup and one for each event, and what
/// two further lines are answered.
fn tell_both(
    desk: &mut Desk<Stock>,
    calls: &Cell<u64>,
    held: Box<dyn SimpleModule>,
    lines: (&str, &str),
) -> Result<(Told, Told, Told), Fail>
    requires made { IsFresh stock (codes "Tick") (meaning held) }
    requires sound { IsSettled stock (λ b. ⟦<dyn SimpleModule as SimpleModule>⟧ b.vtable) desk.old }
    ensures { IsSettled stock (λ b. ⟦<dyn SimpleModule as SimpleModule>⟧ b.vtable) desk.new }
{
    supply(desk, held)?;
    let first = tell(desk, calls, "run 100")?;
    let second = tell(desk, calls, lines.0)?;
    let third = tell(desk, calls, lines.1)?;
    Ok((first, second, third))
}

/// What a run of a hundred events and two further lines are answered, at a desk of their own.
fn told_of(alloc: Global, lines: (&str, &str)) -> Result<(Told, Told, Told), Fail> {
    let calls = Rc::new(alloc, Cell::new(0))?;
    let held = boxed(alloc, &calls)?;
    let mut desk = desk_of(alloc, 10)?;
    let told = tell_both(&mut desk, &calls, held, lines);
    // The process ends with the test, and to drop a desk would be the dearest part of the proof.
    std::mem::forget(desk);
    told
}

/// Compares what a line was answered.
fn expect<R: Abort>(rt: &R, told: &Told, answer: &str, calls: u64) -> Result<(), Fail> {
    assert_eq!(rt; told.answer.as_bytes(), answer.as_bytes());
    assert_eq!(rt; told.calls, calls);
    Ok(())
}

#[test]
fn events_behind_the_position_are_called_again(rt: HostRuntime) -> Result<(), Fail> {
    let told = told_of(rt.alloc(), ("ini insert 3 N.t.extra = 7", "run 100"))?;
    expect(
        &rt,
        &told.0,
        "done event-limit from start executed 100",
        101,
    )?;
    expect(&rt, &told.1, "edited valid 59", 0)?;
    expect(&rt, &told.2, "done event-limit from 50 executed 50", 50)
}

#[test]
fn a_recording_line_calls_nothing(rt: HostRuntime) -> Result<(), Fail> {
    let told = told_of(
        rt.alloc(),
        ("ini insert 5 **.vector-recording = false", "run 100"),
    )?;
    expect(
        &rt,
        &told.0,
        "done event-limit from start executed 100",
        101,
    )?;
    expect(&rt, &told.1, "edited valid 100", 0)?;
    expect(&rt, &told.2, "done event-limit from 100 executed 0", 0)
}

#[test]
fn a_shorter_run_goes_back_and_a_longer_one_goes_on(rt: HostRuntime) -> Result<(), Fail> {
    let told = told_of(rt.alloc(), ("run 35", "run 100"))?;
    expect(
        &rt,
        &told.0,
        "done event-limit from start executed 100",
        101,
    )?;
    expect(&rt, &told.1, "done event-limit from 30 executed 5", 5)?;
    expect(&rt, &told.2, "done event-limit from 35 executed 65", 65)
}
