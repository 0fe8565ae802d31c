//! Modules that are deleted while a run goes on, at a desk: what was to come for them, when their
//! boxes are dropped, and a run that goes back to where one still stood.

ghost use Rattle.std.specs.Prelude.{IfOk, codes};
ghost use Rattle.desk_answers.specs.Turns.{editing_at, IsSettled};
ghost use Rattle.module_api.specs.Meaning.{IsFresh};
ghost use Rattle.edit_session.specs.Editing.{wanted_of, IsFor};
ghost use Rattle.check_runs.specs.Reaper.{reaped, reaper_script};
ghost use Rattle.module_parts.specs.Scripts.{module_by};
ghost use Rattle.module_stock.specs.Sink.{sink_script};
ghost use Rattle.module_stock.specs.Source.{source_script};

use crate::reaper::{Reaper, Reaping};
use checkpoint_runs::observer::Unobserved;
use desk_answers::desk::{Desk, DeskTurn};
use edit_session::session::Session;
use module_api::call::Call;
use module_api::name::Name;
use module_api::reply::Reply;
use module_api::simple_module::SimpleModule;
use module_parts::player::Player;
use module_stock::sink::Sink;
use module_stock::source::Source;
use ned_trees::texts::NedTexts;
use result_lines::buffer::Buffer;
use sim_values::NoMemory;
use sim_values::text::Text;
use std::alloc::Global;
use std::cell::Cell;
use std::rc::Rc;
use std::test::Fail;

/// A network with a Source, a Sink inside of `h`, to which a message takes 1 s, and a Reaper.
const NED: &str =
    "simple Source { parameters: int count; int bits; double start @unit(s) = default(0s); double gap @unit(s) = default(1s); gates: output out; }\nsimple Sink { parameters: @statistic[rx](record=count,vector); gates: input in; }\nsimple Reaper {}\nmodule House { gates: input in; submodules: k: Sink; connections: in --> k.in; }\nnetwork N { submodules: s: Source; h: House; r: Reaper; connections: s.out --> { delay = 1s; } --> h.in; }\n";

/// The Source sends one message, at 2 s.
const INI: &str = "[General]\nnetwork = N\n**.start = 2s\n**.count = 1\n**.bits = 8\n";

/// A Sink that counts, in a counter that it shares with a test, how many of it are dropped.
pub struct Mourned {
    pub held: Player<Sink>,
    pub drops: Rc<Cell<u64>>,
}

impl Drop for Mourned {
    fn drop(self) {
        self.drops.set(self.drops.get().wrapping_add(1));
        let Mourned { held: _, drops: _ } = self;
    }
}

impl SimpleModule for Mourned {
    ghost meaning = { λ m. module_by (codes "Sink") sink_script m.held.0 };

    fn kind(&self) -> &str {
        self.held.kind()
    }

    fn stages(&self) -> u8 {
        self.held.stages()
    }

    fn initialize(&mut self, alloc: Global, call: &Call) -> Result<Reply, NoMemory> {
        self.held.initialize(alloc, call)
    }

    fn handle_message(&mut self, alloc: Global, call: &Call) -> Result<Reply, NoMemory> {
        self.held.handle_message(alloc, call)
    }

    fn finish(&mut self, alloc: Global, call: &Call) -> Result<Reply, NoMemory> {
        self.held.finish(alloc, call)
    }

    fn save(&self, alloc: Global) -> Result<Text, NoMemory> {
        self.held.save(alloc)
    }

    fn load(&mut self, alloc: Global, state: &[u8]) -> Result<(), NoMemory> {
        self.held.load(alloc, state)
    }
}

/// A desk at the network, with a position after each event.
fn desk_of(alloc: Global) -> Result<Desk<Reaping>, Fail>
    ensures { IfOk result
        (λ desk. IsSettled reaped (λ b. ⟦<dyn SimpleModule as SimpleModule>⟧ b.vtable) desk) }
{
    let mut texts = NedTexts::new(alloc);
    texts.push(NED.as_bytes())?;
    let session = Session::<Reaping>::begin(
        alloc,
        &texts,
        INI.as_bytes(),
        b"General".as_slice(),
        1,
    )?;
    Ok(Desk::of_session(alloc, session))
}

/// A fresh Source.
#[tactic(auto, using(crate::specs::Reaper::source_is_fresh))]
fn source() -> Player<Source>
    ensures { IsFresh reaped (codes "Source")
        (module_by (codes "Source") source_script result.0) }
{
    Player(Source::new())
}

/// A fresh Sink that counts there how many are dropped.
#[tactic(auto, using(crate::specs::Reaper::sink_is_fresh))]
fn sink(drops: Rc<Cell<u64>>) -> Mourned
    ensures { IsFresh reaped (codes "Sink")
        (module_by (codes "Sink") sink_script result.held.0) }
{
    Mourned {
        held: Player(Sink {}),
        drops,
    }
}

/// A Reaper.
#[tactic(auto, using(crate::specs::Reaper::reaper_is_fresh))]
fn reaper() -> Player<Reaper>
    ensures { IsFresh reaped (codes "Reaper")
        (module_by (codes "Reaper") reaper_script result.0) }
{
    Player(Reaper {})
}

/// A box of a fresh Source.
fn source_box(alloc: Global) -> Result<Box<dyn SimpleModule>, Fail>
    ensures { IfOk result (λ held. IsFresh reaped (codes "Source") (meaning held)) }
{
    let made = source();
    Ok(Box::new(alloc, made)?)
}

/// A box of a fresh Sink that counts there how many are dropped.
fn sink_box(alloc: Global, drops: &Rc<Cell<u64>>) -> Result<Box<dyn SimpleModule>, Fail>
    ensures { IfOk result (λ held. IsFresh reaped (codes "Sink") (meaning held)) }
{
    let made = sink(Rc::clone(drops)?);
    Ok(Box::new(alloc, made)?)
}

/// A box of a Reaper.
fn reaper_box(alloc: Global) -> Result<Box<dyn SimpleModule>, Fail>
    ensures { IfOk result (λ held. IsFresh reaped (codes "Reaper") (meaning held)) }
{
    let made = reaper();
    Ok(Box::new(alloc, made)?)
}

/// Runs up to that event, or goes on with the run that waits, and gives it the box that it waits
/// for, which has to be of that kind.
fn supply(
    desk: &mut Desk<Reaping>,
    limit: u64,
    kind: &[u8],
    held: Box<dyn SimpleModule>,
) -> Result<(), Fail>
    requires made { IsFresh reaped kind.now (meaning held) }
    requires sound { IsSettled reaped
        (λ b. ⟦<dyn SimpleModule as SimpleModule>⟧ b.vtable) desk.old }
    ensures { IsSettled reaped (λ b. ⟦<dyn SimpleModule as SimpleModule>⟧ b.vtable) desk.new }
{
    match desk.run(limit, &mut Unobserved)? {
        DeskTurn::Text(_) => Err(Fail::from("the run needs no box")),
        DeskTurn::Want(request) => {
            if !request.kind.is(kind) {
                return Err(Fail::from("the run needs another box"));
            }
            give(desk, held)
        }
    }
}

/// Gives the run that waits its box.
fn give(desk: &mut Desk<Reaping>, held: Box<dyn SimpleModule>) -> Result<(), Fail>
    requires wanted { let editing =
        editing_at (λ b. ⟦<dyn SimpleModule as SimpleModule>⟧ b.vtable) desk.old in
        IsFor reaped (wanted_of reaped editing) (meaning held) }
    requires sound { IsSettled reaped
        (λ b. ⟦<dyn SimpleModule as SimpleModule>⟧ b.vtable) desk.old }
    ensures { IsSettled reaped (λ b. ⟦<dyn SimpleModule as SimpleModule>⟧ b.vtable) desk.new }
{
    match desk.supply(held) {
        Ok(()) => Ok(()),
        Err(_) => Err(Fail::from("the box is handed back")),
    }
}

/// The answer to a line, and how many Sinks were dropped by then.
fn answer(desk: &mut Desk<Reaping>, drops: &Cell<u64>, line: &[u8]) -> Result<(Name, u64), Fail>
    requires { IsSettled reaped (λ b. ⟦<dyn SimpleModule as SimpleModule>⟧ b.vtable) desk.old }
    ensures { IsSettled reaped (λ b. ⟦<dyn SimpleModule as SimpleModule>⟧ b.vtable) desk.new }
{
    match desk.line(line, &mut Unobserved)? {
        DeskTurn::Text(answer) => Ok((answer.into_text(), drops.get())),
        DeskTurn::Want(_) => Err(Fail::from("the run needs another box")),
    }
}

/// The boxes of the network.
#[derive(Drop)]
struct Boxes {
    source: Box<dyn SimpleModule>,
    reaper: Box<dyn SimpleModule>,
    sink: Box<dyn SimpleModule>,
}

/// Gives the first run its boxes, which wants them by rising ids: what is inside of `h` was created
/// last.
fn begin(desk: &mut Desk<Reaping>, boxes: Boxes) -> Result<(), Fail>
    requires source { IsFresh reaped (codes "Source") (meaning boxes.source) }
    requires reaper { IsFresh reaped (codes "Reaper") (meaning boxes.reaper) }
    requires sink { IsFresh reaped (codes "Sink") (meaning boxes.sink) }
    requires sound { IsSettled reaped
        (λ b. ⟦<dyn SimpleModule as SimpleModule>⟧ b.vtable) desk.old }
    ensures { IsSettled reaped (λ b. ⟦<dyn SimpleModule as SimpleModule>⟧ b.vtable) desk.new }
{
    let Boxes {
        source,
        reaper,
        sink,
    } = boxes;
    supply(desk, 1, b"Source".as_slice(), source)?;
    supply(desk, 1, b"Reaper".as_slice(), reaper)?;
    supply(desk, 1, b"Sink".as_slice(), sink)
}

/// The answers to these lines, with how many Sinks were dropped by then.
fn answers(
    desk: &mut Desk<Reaping>,
    drops: &Cell<u64>,
    lines: [&[u8]; 4],
) -> Result<[(Name, u64); 4], Fail>
    requires { IsSettled reaped (λ b. ⟦<dyn SimpleModule as SimpleModule>⟧ b.vtable) desk.old }
    ensures { IsSettled reaped (λ b. ⟦<dyn SimpleModule as SimpleModule>⟧ b.vtable) desk.new }
{
    let first = answer(desk, drops, lines[0])?;
    let second = answer(desk, drops, lines[1])?;
    let third = answer(desk, drops, lines[2])?;
    let fourth = answer(desk, drops, lines[3])?;
    Ok([first, second, third, fourth])
}

/// What a desk answers, and the vector file after it.
#[derive(Drop)]
struct Told {
    first: [(Name, u64); 4],
    edited: (Name, u64),
    again: (Name, u64),
    vectors: Buffer,
}

/// A run in which the Sink is deleted, an edit that is valid up to before that, and the run that
/// goes back there, which wants a box of the Sink again.
fn play(
    desk: &mut Desk<Reaping>,
    drops: &Cell<u64>,
    boxes: Boxes,
    other: Box<dyn SimpleModule>,
) -> Result<([(Name, u64); 4], (Name, u64), (Name, u64)), Fail>
    requires source { IsFresh reaped (codes "Source") (meaning boxes.source) }
    requires reaper { IsFresh reaped (codes "Reaper") (meaning boxes.reaper) }
    requires sink { IsFresh reaped (codes "Sink") (meaning boxes.sink) }
    requires other { IsFresh reaped (codes "Sink") (meaning other) }
    requires sound { IsSettled reaped
        (λ b. ⟦<dyn SimpleModule as SimpleModule>⟧ b.vtable) desk.old }
    ensures { IsSettled reaped (λ b. ⟦<dyn SimpleModule as SimpleModule>⟧ b.vtable) desk.new }
{
    begin(desk, boxes)?;
    let lines = [
        b"run 1".as_slice(),
        b"run 2".as_slice(),
        b"run 100".as_slice(),
        b"held".as_slice(),
    ];
    let first = answers(desk, drops, lines)?;
    let edited = answer(desk, drops, b"inject N.h.k 2200ms 0 0 8 -".as_slice())?;
    supply(desk, 100, b"Sink".as_slice(), other)?;
    let again = answer(desk, drops, b"run 100".as_slice())?;
    Ok((first, edited, again))
}

/// Plays that at a desk of the network.
fn played(alloc: Global) -> Result<Told, Fail> {
    let drops = Rc::new(alloc, Cell::new(0))?;
    let boxes = Boxes {
        source: source_box(alloc)?,
        reaper: reaper_box(alloc)?,
        sink: sink_box(alloc, &drops)?,
    };
    let other = sink_box(alloc, &drops)?;
    let mut desk = desk_of(alloc)?;
    let answers = play(&mut desk, &drops, boxes, other);
    let mut vectors = Buffer::new(alloc);
    let written = desk.vectors(&mut vectors);
    // The process ends with the test, and to drop a desk would be the dearest part of the proof.
    std::mem::forget(desk);
    let (first, edited, again) = answers?;
    match written {
        Ok(()) => Ok(Told {
            first,
            edited,
            again,
            vectors,
        }),
        Err(_) => Err(Fail::from("the file is not written")),
    }
}

/// The header of the vector file.
const HEADER: &str =
    "version 3\nrun General-0\nattr configname General\nattr network N\nattr runnumber 0\nconfig network N\nconfig **.start 2s\nconfig **.count 1\nconfig **.bits 8\n\n";

#[test]
fn deleted_and_gone_back(rt: HostRuntime) -> Result<(), Fail> {
    let alloc = rt.alloc();
    let told = played(alloc)?;
    // Event 1 is the Source's: what it sends at 2 s would be at the Sink at 3 s. Event 2 deletes
    // that at 2.5 s, with what was to come for it: so there is no event 3.
    assert_eq!(rt;
        told.first[0].0.as_bytes(),
        b"done event-limit from start executed 1".as_slice()
    );
    assert_eq!(rt;
        told.first[1].0.as_bytes(),
        b"done event-limit from 1 executed 1".as_slice()
    );
    assert_eq!(rt;
        told.first[2].0.as_bytes(),
        b"done no-more-events from 2 executed 0".as_slice()
    );
    assert_eq!(rt; told.first[3].0.as_bytes(), b"held 2".as_slice());
    // Its box is dropped in event 2.
    assert_eq!(rt; told.first[0].1, 0);
    assert_eq!(rt; told.first[1].1, 1);
    // Event 2 is then the message from outside, and what was asked for it has another answer. The
    // run goes back to event 1, where the Sink stood, wants a box of it, and deletes it anew.
    assert_eq!(rt;
        told.edited.0.as_bytes(),
        b"edited valid 1 injection 1".as_slice()
    );
    assert_eq!(rt;
        told.again.0.as_bytes(),
        b"done no-more-events from 1 executed 2".as_slice()
    );
    assert_eq!(rt; told.again.1, 2);
    let wanted = format!(in alloc; "{HEADER}vector 0 N.h.k rx:vector ETV\n0\t2\t2.2\t8\n")?;
    assert_eq!(rt; told.vectors.as_bytes(), wanted.as_bytes());
    Ok(())
}
