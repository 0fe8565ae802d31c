//! Scalars that modules record: what a desk writes of them.

ghost use Rattle.std.specs.Prelude.{IfOk};
ghost use Rattle.desk_answers.specs.Turns.{editing_at, IsSettled};
ghost use Rattle.module_api.specs.Meaning.{IsFresh};
ghost use Rattle.edit_session.specs.Editing.{wanted_of, IsFor};
ghost use Rattle.check_runs.specs.Clerk.{office};

mod clerk;

use checkpoint_runs::observer::Unobserved;
use clerk::{Clerk, Office};
use desk_answers::desk::{Desk, DeskTurn};
use edit_session::session::Session;
use module_api::name::Name;
use module_api::simple_module::SimpleModule;
use ned_trees::texts::NedTexts;
use result_lines::buffer::Buffer;
use std::alloc::{AllocError, Global};
use std::test::Fail;

/// A desk at the network of this text.
fn desk_of(alloc: Global, ned: &str) -> Result<Desk<Office>, Fail>
    ensures { IfOk result
        (λ desk. IsSettled office (λ b. ⟦<dyn SimpleModule as SimpleModule>⟧ b.vtable) desk) }
{
    let mut texts = NedTexts::new(alloc);
    texts.push(ned.as_bytes())?;
    let ini = b"[General]\nnetwork = N\n".as_slice();
    let session = Session::<Office>::begin(alloc, &texts, ini, b"General".as_slice(), 1000)?;
    Ok(Desk::of_session(alloc, session))
}

/// Runs, or goes on with the run that waits, and gives it the box that it waits for, which has to
/// be of that kind.
fn supply(desk: &mut Desk<Office>, kind: &[u8], held: Box<dyn SimpleModule>) -> Result<(), Fail>
    requires made { IsFresh office kind.now (meaning held) }
    requires sound { IsSettled office
        (λ b. ⟦<dyn SimpleModule as SimpleModule>⟧ b.vtable) desk.old }
    ensures { IsSettled office (λ b. ⟦<dyn SimpleModule as SimpleModule>⟧ b.vtable) desk.new }
{
    match desk.run(100, &mut Unobserved)? {
        DeskTurn::Text(_) => Err(Fail::from("the run needs no box")),
        DeskTurn::Want(request) => {
            if !request.kind.is(kind) {
                return Err(Fail::from("the run needs another box"));
            }
            give(desk, held)
        }
    }
}

/// Gives the run that waits its box.
fn give(desk: &mut Desk<Office>, held: Box<dyn SimpleModule>) -> Result<(), Fail>
    requires wanted { let editing =
        editing_at (λ b. ⟦<dyn SimpleModule as SimpleModule>⟧ b.vtable) desk.old in
        IsFor office (wanted_of office editing) (meaning held) }
    requires sound { IsSettled office
        (λ b. ⟦<dyn SimpleModule as SimpleModule>⟧ b.vtable) desk.old }
    ensures { IsSettled office (λ b. ⟦<dyn SimpleModule as SimpleModule>⟧ b.vtable) desk.new }
{
    match desk.supply(held) {
        Ok(()) => Ok(()),
        Err(_) => Err(Fail::from("the box is handed back")),
    }
}

/// The answer of the run that has its boxes.
fn answer(desk: &mut Desk<Office>) -> Result<Name, Fail>
    requires { IsSettled office (λ b. ⟦<dyn SimpleModule as SimpleModule>⟧ b.vtable) desk.old }
    ensures { IsSettled office (λ b. ⟦<dyn SimpleModule as SimpleModule>⟧ b.vtable) desk.new }
{
    match desk.run(100, &mut Unobserved)? {
        DeskTurn::Text(answer) => Ok(answer.into_text()),
        DeskTurn::Want(_) => Err(Fail::from("the run needs another box")),
    }
}

/// What the runs of a desk lead to: its answer, and the scalar file.
#[derive(Drop)]
struct Told {
    answer: Name,
    scalars: Buffer,
}

/// Runs the network of a desk, which has a module of each of these kinds, with these boxes.
fn run_both(
    desk: &mut Desk<Office>,
    kinds: (&[u8], &[u8]),
    first: Box<dyn SimpleModule>,
    second: Box<dyn SimpleModule>,
) -> Result<Name, Fail>
    requires first { IsFresh office kinds.0.now (meaning first) }
    requires second { IsFresh office kinds.1.now (meaning second) }
    requires sound { IsSettled office
        (λ b. ⟦<dyn SimpleModule as SimpleModule>⟧ b.vtable) desk.old }
    ensures { IsSettled office (λ b. ⟦<dyn SimpleModule as SimpleModule>⟧ b.vtable) desk.new }
{
    supply(desk, kinds.0, first)?;
    supply(desk, kinds.1, second)?;
    answer(desk)
}

/// A box of a fresh module of that kind.
fn boxed(alloc: Global, kind: &[u8]) -> Result<Box<dyn SimpleModule>, Fail>
    ensures { IfOk result (λ held. IsFresh office kind.now (meaning held)) }
{
    let made = Clerk::of_kind(kind).ok_or("unknown")?;
    Ok(Box::new(alloc, made)?)
}

/// Runs the network with a module of each of these kinds.
fn outcome_of(alloc: Global, first: &str, second: &str) -> Result<Told, Fail> {
    let kinds = (first.as_bytes(), second.as_bytes());
    let boxes = (boxed(alloc, kinds.0)?, boxed(alloc, kinds.1)?);
    let mut desk = desk_of(alloc, network(alloc, first, second)?.as_str())?;
    let answer = run_both(&mut desk, kinds, boxes.0, boxes.1);
    let mut scalars = Buffer::new(alloc);
    let written = desk.scalars(&mut scalars);
    // The process ends with the test, and to drop a desk would be the dearest part of the proof.
    std::mem::forget(desk);
    let answer = answer?;
    match written {
        Ok(()) => Ok(Told { answer, scalars }),
        Err(_) => Err(Fail::from("the file is not written")),
    }
}

/// The text of the two types, before that of the network.
const TYPES: &str =
    "simple Clerk { parameters: @statistic[noted](record=count,sum,vector); }\nsimple Scribe {}\n";

/// The text of a network with two modules of these types.
fn network(alloc: Global, first: &str, second: &str) -> Result<String, AllocError> {
    format!(in alloc; "{TYPES}network N {{ submodules: a: {first}; b: {second}; }}\n")
}

/// The header of the file.
const HEADER: &str =
    "version 3\nrun General-0\nattr configname General\nattr network N\nattr runnumber 0\nconfig network N\n\n";

#[test]
fn scalars_by_module(rt: HostRuntime) -> Result<(), Fail> {
    let alloc = rt.alloc();
    let told = outcome_of(alloc, "Clerk", "Clerk")?;
    let a =
        "scalar N.a opened -3\nscalar N.a heard 1\nscalar N.a x 7\nscalar N.a noted:count 2\nscalar N.a noted:sum 18446744073709551614\n";
    let b =
        "scalar N.b opened -3\nscalar N.b heard 1\nscalar N.b x 7\nscalar N.b noted:count 2\nscalar N.b noted:sum 18446744073709551614\n";
    let wanted = format!(in alloc; "{HEADER}{a}{b}")?;
    assert_eq!(rt;
        told.answer.as_bytes(),
        b"done no-more-events from start executed 2".as_slice()
    );
    assert_eq!(rt; told.scalars.as_bytes(), wanted.as_bytes());
    Ok(())
}

#[test]
fn bad_names(rt: HostRuntime) -> Result<(), Fail> {
    let alloc = rt.alloc();
    let told = outcome_of(alloc, "Clerk", "Scribe")?;
    let wanted = format!(in alloc; "{HEADER}scalar N.a opened -3\n")?;
    assert_eq!(rt;
        told.answer.as_bytes(),
        b"done fault 0 N.b BadName from start executed 0".as_slice()
    );
    assert_eq!(rt; told.scalars.as_bytes(), wanted.as_bytes());
    Ok(())
}
