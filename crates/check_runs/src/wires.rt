//! Gates that modules join and free while a run goes on, at a desk: the vector file, edits, and
//! runs that go back to where a gate was still joined, or not yet.

ghost use Rattle.std.specs.Prelude.{◌≤◌, IfOk, codes};
ghost use Rattle.desk_answers.specs.Turns.{editing_at, IsSettled};
ghost use Rattle.module_api.specs.Meaning.{IsFresh};
ghost use Rattle.edit_session.specs.Editing.{wanted_of, IsFor};
ghost use Rattle.check_runs.specs.Wire.{wire_script, wired};
ghost use Rattle.module_parts.specs.Scripts.{module_by};
ghost use Rattle.module_stock.specs.Sink.{sink_script};
ghost use Rattle.module_stock.specs.Source.{source_script};

use crate::wire::{Wire, Wiring};
use checkpoint_runs::observer::Unobserved;
use desk_answers::desk::{Desk, DeskTurn};
use edit_session::session::Session;
use module_api::name::Name;
use module_api::simple_module::SimpleModule;
use module_parts::player::Player;
use module_stock::sink::Sink;
use module_stock::source::Source;
use ned_trees::texts::NedTexts;
use result_lines::buffer::Buffer;
use std::alloc::Global;
use std::test::Fail;

/// A network with no connection: a Source, a Sink, and a Wire that joins them and frees them again;
/// and a second Sink.
const NED: &str =
    "simple Source { parameters: int count; int bits; double start @unit(s) = default(0s); double gap @unit(s) = default(1s); gates: output out; }\nsimple Sink { parameters: @statistic[rx](record=count,vector); gates: input in; }\nsimple Wire {}\nnetwork N { submodules: s: Source; k: Sink; c: Wire; j: Sink; connections allowunconnected: }\n";

/// A desk at the network, where the Source sends so many messages, from 2 s on.
fn desk_of(alloc: Global, count: u32, interval: u64) -> Result<Desk<Wiring>, Fail>
    requires one { 1 ≤ interval }
    ensures { IfOk result
        (λ desk. IsSettled wired (λ b. ⟦<dyn SimpleModule as SimpleModule>⟧ b.vtable) desk) }
{
    let mut texts = NedTexts::new(alloc);
    texts.push(NED.as_bytes())?;
    let ini = format!(in alloc;
        "[General]\nnetwork = N\n**.start = 2s\n**.count = {count}\n**.bits = 8\n"
    )?;
    let session = Session::<Wiring>::begin(
        alloc,
        &texts,
        ini.as_bytes(),
        b"General".as_slice(),
        interval,
    )?;
    Ok(Desk::of_session(alloc, session))
}

/// A fresh Source.
#[tactic(auto, using(crate::specs::Wire::source_is_fresh))]
fn source() -> Player<Source>
    ensures { IsFresh wired (codes "Source")
        (module_by (codes "Source") source_script result.0) }
{
    Player(Source::new())
}

/// A fresh Sink.
#[tactic(auto, using(crate::specs::Wire::sink_is_fresh))]
fn sink() -> Player<Sink>
    ensures { IsFresh wired (codes "Sink") (module_by (codes "Sink") sink_script result.0) }
{
    Player(Sink {})
}

/// A Wire that has done nothing.
#[tactic(auto, using(crate::specs::Wire::wire_is_fresh))]
fn unplayed() -> Player<Wire>
    ensures { IsFresh wired (codes "Wire") (module_by (codes "Wire") wire_script result.0) }
{
    Player(Wire { step: 0 })
}

/// A box of a fresh Source.
fn source_box(alloc: Global) -> Result<Box<dyn SimpleModule>, Fail>
    ensures { IfOk result (λ held. IsFresh wired (codes "Source") (meaning held)) }
{
    let made = source();
    Ok(Box::new(alloc, made)?)
}

/// A box of a fresh Sink.
fn sink_box(alloc: Global) -> Result<Box<dyn SimpleModule>, Fail>
    ensures { IfOk result (λ held. IsFresh wired (codes "Sink") (meaning held)) }
{
    let made = sink();
    Ok(Box::new(alloc, made)?)
}

/// A box of a Wire that has done nothing.
fn wire_box(alloc: Global) -> Result<Box<dyn SimpleModule>, Fail>
    ensures { IfOk result (λ held. IsFresh wired (codes "Wire") (meaning held)) }
{
    let made = unplayed();
    Ok(Box::new(alloc, made)?)
}

/// Runs, or goes on with the run that waits, and gives it the box that it waits for, which has to
/// be of that kind.
fn supply(desk: &mut Desk<Wiring>, kind: &[u8], held: Box<dyn SimpleModule>) -> Result<(), Fail>
    requires made { IsFresh wired kind.now (meaning held) }
    requires sound { IsSettled wired
        (λ b. ⟦<dyn SimpleModule as SimpleModule>⟧ b.vtable) desk.old }
    ensures { IsSettled wired (λ b. ⟦<dyn SimpleModule as SimpleModule>⟧ b.vtable) desk.new }
{
    match desk.run(100, &mut Unobserved)? {
        DeskTurn::Text(_) => Err(Fail::from("the run needs no box")),
        DeskTurn::Want(request) => {
            if !request.kind.is(kind) {
                return Err(Fail::from("the run needs another box"));
            }
            give(desk, held)
        }
    }
}

/// Gives the run that waits its box.
fn give(desk: &mut Desk<Wiring>, held: Box<dyn SimpleModule>) -> Result<(), Fail>
    requires wanted { let editing =
        editing_at (λ b. ⟦<dyn SimpleModule as SimpleModule>⟧ b.vtable) desk.old in
        IsFor wired (wanted_of wired editing) (meaning held) }
    requires sound { IsSettled wired
        (λ b. ⟦<dyn SimpleModule as SimpleModule>⟧ b.vtable) desk.old }
    ensures { IsSettled wired (λ b. ⟦<dyn SimpleModule as SimpleModule>⟧ b.vtable) desk.new }
{
    match desk.supply(held) {
        Ok(()) => Ok(()),
        Err(_) => Err(Fail::from("the box is handed back")),
    }
}

/// The answer to a line. Its run has all its boxes.
fn answer(desk: &mut Desk<Wiring>, line: &[u8]) -> Result<Name, Fail>
    requires { IsSettled wired (λ b. ⟦<dyn SimpleModule as SimpleModule>⟧ b.vtable) desk.old }
    ensures { IsSettled wired (λ b. ⟦<dyn SimpleModule as SimpleModule>⟧ b.vtable) desk.new }
{
    match desk.line(line, &mut Unobserved)? {
        DeskTurn::Text(answer) => Ok(answer.into_text()),
        DeskTurn::Want(_) => Err(Fail::from("the run needs another box")),
    }
}

/// What a desk answers to three lines, and the vector file after the last of them.
#[derive(Drop)]
struct Told {
    answers: [Name; 3],
    vectors: Buffer,
}

/// The answers to these lines.
fn answers(desk: &mut Desk<Wiring>, lines: [&[u8]; 3]) -> Result<[Name; 3], Fail>
    requires { IsSettled wired (λ b. ⟦<dyn SimpleModule as SimpleModule>⟧ b.vtable) desk.old }
    ensures { IsSettled wired (λ b. ⟦<dyn SimpleModule as SimpleModule>⟧ b.vtable) desk.new }
{
    let first = answer(desk, lines[0])?;
    let second = answer(desk, lines[1])?;
    let third = answer(desk, lines[2])?;
    Ok([first, second, third])
}

/// Gives a desk its boxes, and asks these lines.
fn play(
    desk: &mut Desk<Wiring>,
    source: Box<dyn SimpleModule>,
    sinks: (Box<dyn SimpleModule>, Box<dyn SimpleModule>),
    wire: Box<dyn SimpleModule>,
    lines: [&[u8]; 3],
) -> Result<[Name; 3], Fail>
    requires source { IsFresh wired (codes "Source") (meaning source) }
    requires first { IsFresh wired (codes "Sink") (meaning sinks.0) }
    requires second { IsFresh wired (codes "Sink") (meaning sinks.1) }
    requires wire { IsFresh wired (codes "Wire") (meaning wire) }
    requires sound { IsSettled wired
        (λ b. ⟦<dyn SimpleModule as SimpleModule>⟧ b.vtable) desk.old }
    ensures { IsSettled wired (λ b. ⟦<dyn SimpleModule as SimpleModule>⟧ b.vtable) desk.new }
{
    supply(desk, b"Source".as_slice(), source)?;
    supply(desk, b"Sink".as_slice(), sinks.0)?;
    supply(desk, b"Wire".as_slice(), wire)?;
    supply(desk, b"Sink".as_slice(), sinks.1)?;
    answers(desk, lines)
}

/// Plays these lines at a desk of the network.
fn told_of(alloc: Global, count: u32, interval: u64, lines: [&[u8]; 3]) -> Result<Told, Fail>
    requires one { 1 ≤ interval }
{
    let source = source_box(alloc)?;
    let sinks = (sink_box(alloc)?, sink_box(alloc)?);
    let wire = wire_box(alloc)?;
    let mut desk = desk_of(alloc, count, interval)?;
    let answers = play(&mut desk, source, sinks, wire, lines);
    let mut vectors = Buffer::new(alloc);
    let written = desk.vectors(&mut vectors);
    // The process ends with the test, and to drop a desk would be the dearest part of the proof.
    std::mem::forget(desk);
    let answers = answers?;
    match written {
        Ok(()) => Ok(Told { answers, vectors }),
        Err(_) => Err(Fail::from("the file is not written")),
    }
}

/// The header of the vector file where the Source sends two messages.
const HEADER: &str =
    "version 3\nrun General-0\nattr configname General\nattr network N\nattr runnumber 0\nconfig network N\nconfig **.start 2s\nconfig **.count 2\nconfig **.bits 8\n\n";

#[test]
fn joined_and_freed(rt: HostRuntime) -> Result<(), Fail> {
    let alloc = rt.alloc();
    let lines = [
        b"run 100".as_slice(),
        b"run 100".as_slice(),
        b"positions".as_slice(),
    ];
    let told = told_of(alloc, 2, 10, lines)?;
    // Joined at 1 s with a delay of 1 ms, so what is sent at 2 s arrives in event 3 at 2.001 s; freed
    // at 2.5 s, so what is sent at 3 s leads nowhere.
    assert_eq!(rt;
        told.answers[0].as_bytes(),
        b"done fault 5 N.s NotConnected from start executed 5".as_slice()
    );
    assert_eq!(rt;
        told.answers[1].as_bytes(),
        b"done fault 5 N.s NotConnected from 0 executed 5".as_slice()
    );
    assert_eq!(rt; told.answers[2].as_bytes(), b"positions 0".as_slice());
    let wanted = format!(in alloc; "{HEADER}vector 0 N.k rx:vector ETV\n0\t3\t2.001\t8\n")?;
    assert_eq!(rt; told.vectors.as_bytes(), wanted.as_bytes());
    Ok(())
}

#[test]
fn already_connected(rt: HostRuntime) -> Result<(), Fail> {
    let alloc = rt.alloc();
    let lines = [
        b"run 100".as_slice(),
        b"connect N 0 s.out --> j.in;".as_slice(),
        b"run 100".as_slice(),
    ];
    let told = told_of(alloc, 2, 10, lines)?;
    // The first question whose answer differs is asked in event 1: where the gate leads.
    assert_eq!(rt; told.answers[1].as_bytes(), b"edited valid 0".as_slice());
    assert_eq!(rt;
        told.answers[2].as_bytes(),
        b"done fault 1 N.c AlreadyConnected from 0 executed 1".as_slice()
    );
    Ok(())
}

#[test]
fn gone_back_to_where_it_was_joined(rt: HostRuntime) -> Result<(), Fail> {
    let alloc = rt.alloc();
    let lines = [
        b"run 100".as_slice(),
        b"inject N.k 2200ms 0 0 8 -".as_slice(),
        b"run 100".as_slice(),
    ];
    let told = told_of(alloc, 2, 1, lines)?;
    // The first run stood where the gate was freed again; event 3 is before that, so the gate is
    // still joined there, and is freed anew.
    assert_eq!(rt;
        told.answers[1].as_bytes(),
        b"edited valid 3 injection 1".as_slice()
    );
    assert_eq!(rt;
        told.answers[2].as_bytes(),
        b"done fault 6 N.s NotConnected from 3 executed 3".as_slice()
    );
    let wanted = format!(in alloc;
        "{HEADER}vector 0 N.k rx:vector ETV\n0\t3\t2.001\t8\n0\t4\t2.2\t8\n"
    )?;
    assert_eq!(rt; told.vectors.as_bytes(), wanted.as_bytes());
    Ok(())
}

#[test]
fn ended_by_a_module(rt: HostRuntime) -> Result<(), Fail> {
    let alloc = rt.alloc();
    let lines = [
        b"run 4".as_slice(),
        b"run 100".as_slice(),
        b"run 5".as_slice(),
    ];
    let told = told_of(alloc, 1, 10, lines)?;
    // The Wire ends the run with its third timer, at 3 s; that is event 5.
    assert_eq!(rt;
        told.answers[0].as_bytes(),
        b"done event-limit from start executed 4".as_slice()
    );
    assert_eq!(rt;
        told.answers[1].as_bytes(),
        b"done ended from 4 executed 1".as_slice()
    );
    assert_eq!(rt;
        told.answers[2].as_bytes(),
        b"done ended from 5 executed 0".as_slice()
    );
    Ok(())
}
