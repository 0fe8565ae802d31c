//! Modules that are created while a run goes on, at a desk: when their boxes are wanted, when they
//! are dropped, runs that go back to before they were created, and what may not be created.

ghost use Rattle.std.specs.Prelude.{IfOk, codes};
ghost use Rattle.desk_answers.specs.Turns.{editing_at, IsSettled};
ghost use Rattle.module_api.specs.Meaning.{IsFresh};
ghost use Rattle.edit_session.specs.Editing.{wanted_of, IsFor};
ghost use Rattle.check_runs.specs.Maker.{made, maker_script};
ghost use Rattle.module_parts.specs.Scripts.{module_by};
ghost use Rattle.module_stock.specs.Sink.{sink_script};
ghost use Rattle.module_stock.specs.Spawner.{spawner_script};

use crate::maker::{DEEPEST, Maker, Making};
use crate::reaping::Mourned;
use checkpoint_runs::observer::Unobserved;
use desk_answers::desk::{Desk, DeskTurn};
use edit_session::session::Session;
use module_api::name::Name;
use module_api::simple_module::SimpleModule;
use module_parts::player::Player;
use module_stock::sink::Sink;
use module_stock::spawner::Spawner;
use ned_trees::texts::NedTexts;
use result_lines::buffer::Buffer;
use std::alloc::Global;
use std::cell::Cell;
use std::process::Abort;
use std::rc::Rc;
use std::test::Fail;

/// What all networks declare.
const TYPES: &str =
    "simple Spawner { parameters: double delay @unit(s) = default(5s); bool polite = default(false); }\nsimple Sink { parameters: @statistic[rx](record=count,vector); gates: input in; }\nsimple Maker { parameters: int task = default(0); }\nmodule House { parameters: @statistic[rx](record=count); gates: input in; submodules: k: Sink; connections: in --> k.in; }\n";

/// A network with a Spawner.
const SPAWNS: &str = "network N { submodules: s: Spawner; }\n";

/// A network with a Maker.
const MAKES: &str = "network N { submodules: m: Maker; }\n";

/// A network with a Maker, and a Sink inside of `h`.
const HOUSES: &str =
    "network N { submodules: h: House; m: Maker; connections allowunconnected: }\n";

/// A network with a Maker, and modules in one another, of which the deepest one is the 32nd with
/// the network.
const NESTED: &str =
    "module A2 { submodules: a: A3; } module A3 { submodules: a: A4; } module A4 { submodules: a: A5; } module A5 { submodules: a: A6; } module A6 { submodules: a: A7; } module A7 { submodules: a: A8; } module A8 { submodules: a: A9; } module A9 { submodules: a: A10; } module A10 { submodules: a: A11; } module A11 { submodules: a: A12; } module A12 { submodules: a: A13; } module A13 { submodules: a: A14; } module A14 { submodules: a: A15; } module A15 { submodules: a: A16; } module A16 { submodules: a: A17; } module A17 { submodules: a: A18; } module A18 { submodules: a: A19; } module A19 { submodules: a: A20; } module A20 { submodules: a: A21; } module A21 { submodules: a: A22; } module A22 { submodules: a: A23; } module A23 { submodules: a: A24; } module A24 { submodules: a: A25; } module A25 { submodules: a: A26; } module A26 { submodules: a: A27; } module A27 { submodules: a: A28; } module A28 { submodules: a: A29; } module A29 { submodules: a: A30; } module A30 { submodules: a: A31; } module A31 { submodules: a: A32; } module A32 {}\nnetwork N { submodules: m: Maker; a: A2; }\n";

/// A desk at a network, with a position after each multiple of ten events.
fn desk_of(alloc: Global, network: &str, task: u32) -> Result<Desk<Making>, Fail>
    ensures { IfOk result
        (λ desk. IsSettled made (λ b. ⟦<dyn SimpleModule as SimpleModule>⟧ b.vtable) desk) }
{
    let ned = format!(in alloc; "{TYPES}{network}")?;
    let ini = format!(in alloc; "[General]\nnetwork = N\n**.task = {task}\n")?;
    let mut texts = NedTexts::new(alloc);
    texts.push(ned.as_bytes())?;
    let session = Session::<Making>::begin(
        alloc,
        &texts,
        ini.as_bytes(),
        b"General".as_slice(),
        10,
    )?;
    Ok(Desk::of_session(alloc, session))
}

/// A fresh Spawner.
#[tactic(auto, using(crate::specs::Maker::spawner_is_fresh))]
fn spawner() -> Player<Spawner>
    ensures { IsFresh made (codes "Spawner")
        (module_by (codes "Spawner") spawner_script result.0) }
{
    Player(Spawner::new())
}

/// A fresh Sink that counts there how many are dropped.
#[tactic(auto, using(crate::specs::Maker::sink_is_fresh))]
fn sink(drops: Rc<Cell<u64>>) -> Mourned
    ensures { IsFresh made (codes "Sink")
        (module_by (codes "Sink") sink_script result.held.0) }
{
    Mourned {
        held: Player(Sink {}),
        drops,
    }
}

/// A fresh Maker.
#[tactic(auto, using(crate::specs::Maker::maker_is_fresh))]
fn maker() -> Player<Maker>
    ensures { IsFresh made (codes "Maker") (module_by (codes "Maker") maker_script result.0) }
{
    Player(Maker::new())
}

/// A box of a fresh Spawner.
fn spawner_box(alloc: Global) -> Result<Box<dyn SimpleModule>, Fail>
    ensures { IfOk result (λ held. IsFresh made (codes "Spawner") (meaning held)) }
{
    let fresh = spawner();
    Ok(Box::new(alloc, fresh)?)
}

/// A box of a fresh Sink that counts there how many are dropped.
fn sink_box(alloc: Global, drops: &Rc<Cell<u64>>) -> Result<Box<dyn SimpleModule>, Fail>
    ensures { IfOk result (λ held. IsFresh made (codes "Sink") (meaning held)) }
{
    let fresh = sink(Rc::clone(drops)?);
    Ok(Box::new(alloc, fresh)?)
}

/// A box of a fresh Maker.
fn maker_box(alloc: Global) -> Result<Box<dyn SimpleModule>, Fail>
    ensures { IfOk result (λ held. IsFresh made (codes "Maker") (meaning held)) }
{
    let fresh = maker();
    Ok(Box::new(alloc, fresh)?)
}

/// Runs up to that event, or goes on with the run that waits, and gives it the box that it waits
/// for, which has to be of that kind. Returns for which id that is, and how many Sinks were dropped
/// by then.
fn supply(
    desk: &mut Desk<Making>,
    drops: &Cell<u64>,
    limit: u64,
    kind: &[u8],
    held: Box<dyn SimpleModule>,
) -> Result<(u32, u64), Fail>
    requires fresh { IsFresh made kind.now (meaning held) }
    requires sound { IsSettled made (λ b. ⟦<dyn SimpleModule as SimpleModule>⟧ b.vtable) desk.old }
    ensures { IsSettled made (λ b. ⟦<dyn SimpleModule as SimpleModule>⟧ b.vtable) desk.new }
{
    match desk.run(limit, &mut Unobserved)? {
        DeskTurn::Text(_) => Err(Fail::from("the run needs no box")),
        DeskTurn::Want(request) => {
            if !request.kind.is(kind) {
                return Err(Fail::from("the run needs another box"));
            }
            let wanted = (request.id, drops.get());
            give(desk, held)?;
            Ok(wanted)
        }
    }
}

/// Gives the run that waits its box.
fn give(desk: &mut Desk<Making>, held: Box<dyn SimpleModule>) -> Result<(), Fail>
    requires wanted { let editing =
        editing_at (λ b. ⟦<dyn SimpleModule as SimpleModule>⟧ b.vtable) desk.old in
        IsFor made (wanted_of made editing) (meaning held) }
    requires sound { IsSettled made (λ b. ⟦<dyn SimpleModule as SimpleModule>⟧ b.vtable) desk.old }
    ensures { IsSettled made (λ b. ⟦<dyn SimpleModule as SimpleModule>⟧ b.vtable) desk.new }
{
    match desk.supply(held) {
        Ok(()) => Ok(()),
        Err(_) => Err(Fail::from("the box is handed back")),
    }
}

/// For which id the run waits for a box.
fn waits_for(desk: &mut Desk<Making>, limit: u64) -> Result<u32, Fail>
    requires { IsSettled made (λ b. ⟦<dyn SimpleModule as SimpleModule>⟧ b.vtable) desk.old }
    ensures { IsSettled made (λ b. ⟦<dyn SimpleModule as SimpleModule>⟧ b.vtable) desk.new }
{
    match desk.run(limit, &mut Unobserved)? {
        DeskTurn::Text(_) => Err(Fail::from("the run needs no box")),
        DeskTurn::Want(request) => Ok(request.id),
    }
}

/// The answer to a line, and how many Sinks were dropped by then.
fn answer(desk: &mut Desk<Making>, drops: &Cell<u64>, line: &[u8]) -> Result<(Name, u64), Fail>
    requires { IsSettled made (λ b. ⟦<dyn SimpleModule as SimpleModule>⟧ b.vtable) desk.old }
    ensures { IsSettled made (λ b. ⟦<dyn SimpleModule as SimpleModule>⟧ b.vtable) desk.new }
{
    match desk.line(line, &mut Unobserved)? {
        DeskTurn::Text(answer) => Ok((answer.into_text(), drops.get())),
        DeskTurn::Want(_) => Err(Fail::from("the run needs another box")),
    }
}

/// The boxes of a Spawner and of both modules that it creates.
#[derive(Drop)]
struct Boxes {
    spawner: Box<dyn SimpleModule>,
    first: Box<dyn SimpleModule>,
    second: Box<dyn SimpleModule>,
}

/// Makes them.
fn boxes_of(alloc: Global, drops: &Rc<Cell<u64>>) -> Result<Boxes, Fail>
    ensures spawner { IfOk result
        (λ boxes. IsFresh made (codes "Spawner") (meaning boxes.spawner)) }
    ensures first { IfOk result (λ boxes. IsFresh made (codes "Sink") (meaning boxes.first)) }
    ensures second { IfOk result (λ boxes. IsFresh made (codes "Sink") (meaning boxes.second)) }
{
    Ok(Boxes {
        spawner: spawner_box(alloc)?,
        first: sink_box(alloc, drops)?,
        second: sink_box(alloc, drops)?,
    })
}

/// What a run waits for, and what is answered then.
#[derive(Drop)]
struct Told {
    wanted: [(u32, u64); 3],
    answers: [(Name, u64); 2],
}

/// A run to its end, which waits for one box after another.
fn play(desk: &mut Desk<Making>, drops: &Cell<u64>, boxes: Boxes) -> Result<Told, Fail>
    requires spawner { IsFresh made (codes "Spawner") (meaning boxes.spawner) }
    requires first { IsFresh made (codes "Sink") (meaning boxes.first) }
    requires second { IsFresh made (codes "Sink") (meaning boxes.second) }
    requires sound { IsSettled made (λ b. ⟦<dyn SimpleModule as SimpleModule>⟧ b.vtable) desk.old }
    ensures { IsSettled made (λ b. ⟦<dyn SimpleModule as SimpleModule>⟧ b.vtable) desk.new }
{
    let Boxes {
        spawner,
        first,
        second,
    } = boxes;
    let begins = supply(desk, drops, 100, b"Spawner".as_slice(), spawner)?;
    let comes = supply(desk, drops, 100, b"Sink".as_slice(), first)?;
    let goes = supply(desk, drops, 100, b"Sink".as_slice(), second)?;
    let ends = answer(desk, drops, b"run 100".as_slice())?;
    let held = answer(desk, drops, b"held".as_slice())?;
    Ok(Told {
        wanted: [begins, comes, goes],
        answers: [ends, held],
    })
}

/// The header of the scalar file, up to the lines of the ini text.
const HEADER: &str =
    "version 3\nrun General-0\nattr configname General\nattr network N\nattr runnumber 0\nconfig network N\n";

#[test]
fn spawned_and_deleted(rt: HostRuntime) -> Result<(), Fail> {
    let alloc = rt.alloc();
    let drops = Rc::new(alloc, Cell::new(0))?;
    let boxes = boxes_of(alloc, &drops)?;
    let mut desk = desk_of(alloc, SPAWNS, 0)?;
    let told = play(&mut desk, &drops, boxes);
    let mut scalars = Buffer::new(alloc);
    let written = desk.scalars(&mut scalars);
    // The process ends with the test, and to drop a desk would be the dearest part of the proof.
    std::mem::forget(desk);
    let Told { wanted, answers } = told?;
    assert!(rt; written.is_ok());
    // Event 1 creates a Sink, which is started in event 2; event 3 deletes it and creates another
    // one, which is started in event 4. The box of the first one is dropped in event 3, before the
    // second one's is wanted.
    assert_eq!(rt; wanted[0], (2, 0));
    assert_eq!(rt; wanted[1], (3, 0));
    assert_eq!(rt; wanted[2], (4, 1));
    assert_eq!(rt;
        answers[0].0.as_bytes(),
        b"done no-more-events from start executed 4".as_slice()
    );
    assert_eq!(rt; answers[0].1, 1);
    assert_eq!(rt; answers[1].0.as_bytes(), b"held 2".as_slice());
    let wanted = format!(in alloc; "{HEADER}config **.task 0\n\nscalar N.w rx:count 0\n")?;
    assert_eq!(rt; scalars.as_bytes(), wanted.as_bytes());
    Ok(())
}

/// What is answered around an edit, as a run waits for the box of what was created.
#[derive(Drop)]
struct Edited {
    waited: u32,
    edited: (Name, u64),
    positions: (Name, u64),
    wanted: [(u32, u64); 2],
    again: (Name, u64),
}

/// An edit as the first box of what was created is wanted, and the run that goes back.
fn play_edit(desk: &mut Desk<Making>, drops: &Cell<u64>, boxes: Boxes) -> Result<Edited, Fail>
    requires spawner { IsFresh made (codes "Spawner") (meaning boxes.spawner) }
    requires first { IsFresh made (codes "Sink") (meaning boxes.first) }
    requires second { IsFresh made (codes "Sink") (meaning boxes.second) }
    requires sound { IsSettled made (λ b. ⟦<dyn SimpleModule as SimpleModule>⟧ b.vtable) desk.old }
    ensures { IsSettled made (λ b. ⟦<dyn SimpleModule as SimpleModule>⟧ b.vtable) desk.new }
{
    let Boxes {
        spawner,
        first,
        second,
    } = boxes;
    let _begins = supply(desk, drops, 100, b"Spawner".as_slice(), spawner)?;
    let waited = waits_for(desk, 100)?;
    let edited = answer(desk, drops, b"ini insert 3 **.polite = true".as_slice())?;
    let positions = answer(desk, drops, b"positions".as_slice())?;
    let comes = supply(desk, drops, 100, b"Sink".as_slice(), first)?;
    let goes = supply(desk, drops, 100, b"Sink".as_slice(), second)?;
    let again = answer(desk, drops, b"run 100".as_slice())?;
    Ok(Edited {
        waited,
        edited,
        positions,
        wanted: [comes, goes],
        again,
    })
}

#[test]
fn edited_as_it_waits(rt: HostRuntime) -> Result<(), Fail> {
    let alloc = rt.alloc();
    let drops = Rc::new(alloc, Cell::new(0))?;
    let boxes = boxes_of(alloc, &drops)?;
    let mut desk = desk_of(alloc, SPAWNS, 0)?;
    let told = play_edit(&mut desk, &drops, boxes);
    let mut scalars = Buffer::new(alloc);
    let written = desk.scalars(&mut scalars);
    // The process ends with the test, and to drop a desk would be the dearest part of the proof.
    std::mem::forget(desk);
    let Edited {
        waited,
        edited,
        positions,
        wanted,
        again,
    } = told?;
    assert!(rt; written.is_ok());
    // Event 1 was executed, and the box of what it created is wanted. The line is first asked for
    // in event 3; the run goes back to event zero, where the Spawner stands: its box stays.
    assert_eq!(rt; waited, 3);
    assert_eq!(rt; edited.0.as_bytes(), b"edited valid 1".as_slice());
    assert_eq!(rt; positions.0.as_bytes(), b"positions 0".as_slice());
    assert_eq!(rt; wanted[0], (3, 0));
    assert_eq!(rt; wanted[1], (4, 1));
    assert_eq!(rt;
        again.0.as_bytes(),
        b"done no-more-events from 0 executed 4".as_slice()
    );
    let wanted = format!(in alloc;
        "{HEADER}config **.polite true\nconfig **.task 0\n\nscalar N.w rx:count 0\nscalar N.w rx:count 0\n"
    )?;
    assert_eq!(rt; scalars.as_bytes(), wanted.as_bytes());
    Ok(())
}

/// Runs up to event 1 as the box of what that created is wanted, and on from there.
fn play_limit(
    desk: &mut Desk<Making>,
    drops: &Cell<u64>,
    boxes: Boxes,
) -> Result<(u32, [(Name, u64); 2], Told), Fail>
    requires spawner { IsFresh made (codes "Spawner") (meaning boxes.spawner) }
    requires first { IsFresh made (codes "Sink") (meaning boxes.first) }
    requires second { IsFresh made (codes "Sink") (meaning boxes.second) }
    requires sound { IsSettled made (λ b. ⟦<dyn SimpleModule as SimpleModule>⟧ b.vtable) desk.old }
    ensures { IsSettled made (λ b. ⟦<dyn SimpleModule as SimpleModule>⟧ b.vtable) desk.new }
{
    let Boxes {
        spawner,
        first,
        second,
    } = boxes;
    let begins = supply(desk, drops, 100, b"Spawner".as_slice(), spawner)?;
    let waited = waits_for(desk, 100)?;
    let limited = answer(desk, drops, b"run 1".as_slice())?;
    let alone = answer(desk, drops, b"held".as_slice())?;
    let comes = supply(desk, drops, 100, b"Sink".as_slice(), first)?;
    let goes = supply(desk, drops, 100, b"Sink".as_slice(), second)?;
    let ends = answer(desk, drops, b"run 100".as_slice())?;
    let held = answer(desk, drops, b"held".as_slice())?;
    let told = Told {
        wanted: [begins, comes, goes],
        answers: [ends, held],
    };
    Ok((waited, [limited, alone], told))
}

#[test]
fn start_above_the_limit(rt: HostRuntime) -> Result<(), Fail> {
    let alloc = rt.alloc();
    let drops = Rc::new(alloc, Cell::new(0))?;
    let boxes = boxes_of(alloc, &drops)?;
    let mut desk = desk_of(alloc, SPAWNS, 0)?;
    let played = play_limit(&mut desk, &drops, boxes);
    std::mem::forget(desk);
    let (waited, limited, told) = played?;
    let Told { wanted, answers } = told;
    // The start of what event 1 created is event 2, which is above the limit 1: no box is wanted.
    assert_eq!(rt; waited, 3);
    assert_eq!(rt;
        limited[0].0.as_bytes(),
        b"done event-limit from start executed 1".as_slice()
    );
    assert_eq!(rt; limited[1].0.as_bytes(), b"held 1".as_slice());
    // The next run goes on from there, and wants it.
    assert_eq!(rt; wanted[1], (3, 0));
    assert_eq!(rt; wanted[2], (4, 1));
    assert_eq!(rt;
        answers[0].0.as_bytes(),
        b"done no-more-events from 1 executed 3".as_slice()
    );
    assert_eq!(rt; answers[1].0.as_bytes(), b"held 2".as_slice());
    Ok(())
}

/// The answers to a run of a Maker alone, and to `held`.
fn play_task(
    desk: &mut Desk<Making>,
    drops: &Cell<u64>,
    held: Box<dyn SimpleModule>,
) -> Result<[(Name, u64); 2], Fail>
    requires fresh { IsFresh made (codes "Maker") (meaning held) }
    requires sound { IsSettled made (λ b. ⟦<dyn SimpleModule as SimpleModule>⟧ b.vtable) desk.old }
    ensures { IsSettled made (λ b. ⟦<dyn SimpleModule as SimpleModule>⟧ b.vtable) desk.new }
{
    let _begins = supply(desk, drops, 100, b"Maker".as_slice(), held)?;
    let ends = answer(desk, drops, b"run 100".as_slice())?;
    let held = answer(desk, drops, b"held".as_slice())?;
    Ok([ends, held])
}

/// The answer to a run of a Maker with that task in a network, and how many boxes are held then.
fn told_of(alloc: Global, network: &str, task: u32) -> Result<[(Name, u64); 2], Fail> {
    let drops = Rc::new(alloc, Cell::new(0))?;
    let held = maker_box(alloc)?;
    let mut desk = desk_of(alloc, network, task)?;
    let told = play_task(&mut desk, &drops, held);
    std::mem::forget(desk);
    told
}

/// Compares the answer of a run of a Maker with that task.
fn ends_so<R: Abort>(
    rt: &R,
    alloc: Global,
    network: &str,
    task: u32,
    wanted: &[u8],
) -> Result<(), Fail> {
    let told = told_of(alloc, network, task)?;
    assert_eq!(rt; told[0].0.as_bytes(), wanted, "task {task}");
    assert_eq!(rt; told[1].0.as_bytes(), b"held 1".as_slice(), "task {task}");
    Ok(())
}

#[test]
fn may_not_be_created(rt: HostRuntime) -> Result<(), Fail> {
    let alloc = rt.alloc();
    let named = b"done fault 0 N.m BadName from start executed 0".as_slice();
    ends_so(&rt, alloc, MAKES, 0, named)?;
    let twice = b"done fault 1 N.m DuplicateName from start executed 1".as_slice();
    ends_so(&rt, alloc, MAKES, 1, twice)?;
    let unknown = b"done fault 1 N.w UnknownType from start executed 1".as_slice();
    ends_so(&rt, alloc, MAKES, 2, unknown)?;
    let deep = format!(in alloc; "done fault 1 {DEEPEST}.w TooDeep from start executed 1")?;
    ends_so(&rt, alloc, NESTED, 3, deep.as_bytes())
}

#[test]
fn deleted_before_its_start(rt: HostRuntime) -> Result<(), Fail> {
    let alloc = rt.alloc();
    // Its start falls with it, so there is no event 2, and no box of it is wanted.
    let ended = b"done no-more-events from start executed 1".as_slice();
    ends_so(&rt, alloc, MAKES, 4, ended)
}

/// The boxes of a Maker, of what is built in a house, and of what is created there.
#[derive(Drop)]
struct Household {
    maker: Box<dyn SimpleModule>,
    built: Box<dyn SimpleModule>,
    created: Box<dyn SimpleModule>,
}

/// A house in which a module is created, and that is deleted with it.
fn play_house(
    desk: &mut Desk<Making>,
    drops: &Cell<u64>,
    boxes: Household,
) -> Result<([(u32, u64); 3], [(Name, u64); 3]), Fail>
    requires maker { IsFresh made (codes "Maker") (meaning boxes.maker) }
    requires built { IsFresh made (codes "Sink") (meaning boxes.built) }
    requires created { IsFresh made (codes "Sink") (meaning boxes.created) }
    requires sound { IsSettled made (λ b. ⟦<dyn SimpleModule as SimpleModule>⟧ b.vtable) desk.old }
    ensures { IsSettled made (λ b. ⟦<dyn SimpleModule as SimpleModule>⟧ b.vtable) desk.new }
{
    let Household {
        maker,
        built,
        created,
    } = boxes;
    let begins = supply(desk, drops, 2, b"Maker".as_slice(), maker)?;
    let stands = supply(desk, drops, 2, b"Sink".as_slice(), built)?;
    let comes = supply(desk, drops, 2, b"Sink".as_slice(), created)?;
    let started = answer(desk, drops, b"run 2".as_slice())?;
    let gone = answer(desk, drops, b"run 100".as_slice())?;
    let held = answer(desk, drops, b"held".as_slice())?;
    Ok(([begins, stands, comes], [started, gone, held]))
}

#[test]
fn deleted_with_what_was_created_in_it(rt: HostRuntime) -> Result<(), Fail> {
    let alloc = rt.alloc();
    let drops = Rc::new(alloc, Cell::new(0))?;
    let boxes = Household {
        maker: maker_box(alloc)?,
        built: sink_box(alloc, &drops)?,
        created: sink_box(alloc, &drops)?,
    };
    let mut desk = desk_of(alloc, HOUSES, 5)?;
    let played = play_house(&mut desk, &drops, boxes);
    let mut scalars = Buffer::new(alloc);
    let written = desk.scalars(&mut scalars);
    // The process ends with the test, and to drop a desk would be the dearest part of the proof.
    std::mem::forget(desk);
    let (wanted, told) = played?;
    assert!(rt; written.is_ok());
    // Boxes are wanted by rising ids: h is 2, m 3, k in h 4, and what is created there in event 1
    // is 5. It is started in event 2; event 3 deletes the house, with both Sinks.
    assert_eq!(rt; wanted[0], (3, 0));
    assert_eq!(rt; wanted[1], (4, 0));
    assert_eq!(rt; wanted[2], (5, 0));
    assert_eq!(rt;
        told[0].0.as_bytes(),
        b"done event-limit from start executed 2".as_slice()
    );
    assert_eq!(rt; told[0].1, 0);
    assert_eq!(rt;
        told[1].0.as_bytes(),
        b"done no-more-events from 2 executed 1".as_slice()
    );
    assert_eq!(rt; told[1].1, 2);
    assert_eq!(rt; told[2].0.as_bytes(), b"held 1".as_slice());
    // All of them were finished as they went.
    let lines = format!(in alloc;
        "{HEADER}config **.task 5\n\nscalar N.h rx:count 0\nscalar N.h.k rx:count 0\nscalar N.h.w rx:count 0\n"
    )?;
    assert_eq!(rt; scalars.as_bytes(), lines.as_bytes());
    Ok(())
}
