//! A session in a program of its own: a network of two modules is run, edited twice, and run again
//! after each edit.
#![tactic(auto)]

ghost use Rattle.std.specs.Prelude.{codes};
ghost use Rattle.edit_session.specs.Editing.{wanted_of, IsFor};
ghost use Rattle.edit_session.specs.Sessions.{editing_of, IsSound};
ghost use Rattle.module_api.specs.Meaning.{IsFresh};
ghost use Rattle.module_examples.specs.Pulse.{pulse_script};
ghost use Rattle.module_examples.specs.PulseLaws.{pulses};
ghost use Rattle.module_parts.specs.Scripts.{module_by};

use anyhow::{anyhow, bail};
use checkpoint_runs::observer::Unobserved;
use checkpoint_runs::phases::RunStatus;
use desk_answers::answers::{done_text, edit_refusal_text, edited_text, refusal_text};
use edit_session::session::Session;
use model_edits::edit::Edit;
use model_injections::injection::Due;
use module_api::name::Name;
use module_api::simple_module::SimpleModule;
use module_examples::pulse::{Pulse, Pulses};
use module_parts::player::Player;
use ned_trees::texts::NedTexts;
use result_lines::buffer::Buffer;
use sim_time::SimTime;
use sim_values::text::Text;
use std::alloc::Global;
use std::io;
use std::io::Write;

const NED: &str =
    "simple Pulse\n{\n    parameters:\n        double wait @unit(s);\n        @statistic[pulse](record=count,vector);\n}\n\nnetwork Two\n{\n    submodules:\n        a: Pulse;\n        b: Pulse;\n}\n";

const INI: &str = "[General]\nnetwork = Two\nTwo.a.wait = 1s\nTwo.b.wait = 2s\n";

/// A text as the reason why the program ends.
fn reason(text: &Text) -> anyhow::Error {
    match std::str::from_utf8(text.as_bytes()) {
        Ok(words) => anyhow!("{words}"),
        Err(_) => anyhow!("refused"),
    }
}

/// The texts of the network's types.
fn texts(alloc: Global) -> anyhow::Result<NedTexts> {
    let mut neds = NedTexts::new(alloc);
    neds.push(NED.as_bytes())?;
    Ok(neds)
}

/// A module that has not been called.
#[tactic(auto, using(module_examples::specs::PulseLaws::pulse_is_fresh))]
fn fresh() -> Player<Pulse>
    ensures { IsFresh pulses (codes "Pulse") (module_by (codes "Pulse") pulse_script result.0) }
{
    Player(Pulse { has_pulsed: false })
}

/// Gives the module that a run waits for this box.
fn give(session: &mut Session<Pulses>, held: Box<dyn SimpleModule>) -> anyhow::Result<()>
    requires wanted { let editing =
        editing_of (λ b. ⟦<dyn SimpleModule as SimpleModule>⟧ b.vtable) session.old in
        IsFor pulses (wanted_of pulses editing) (meaning held) }
    requires sound { IsSound pulses
        (λ b. ⟦<dyn SimpleModule as SimpleModule>⟧ b.vtable) session.old }
    ensures { IsSound pulses (λ b. ⟦<dyn SimpleModule as SimpleModule>⟧ b.vtable) session.new }
{
    match session.supply(held) {
        Ok(()) => Ok(()),
        Err(_) => Err(anyhow!("the box is handed back")),
    }
}

/// Begins a run, or goes on with it, and gives the module that it waits for this box.
fn supply(session: &mut Session<Pulses>, held: Box<dyn SimpleModule>) -> anyhow::Result<()>
    requires made { IsFresh pulses (codes "Pulse") (meaning held) }
    requires sound { IsSound pulses
        (λ b. ⟦<dyn SimpleModule as SimpleModule>⟧ b.vtable) session.old }
    ensures { IsSound pulses (λ b. ⟦<dyn SimpleModule as SimpleModule>⟧ b.vtable) session.new }
{
    match session.run(1000, &mut Unobserved)? {
        RunStatus::Done(_) => Err(anyhow!("the run needs no box")),
        RunStatus::Waits(wanted) => {
            if !wanted.kind.is(b"Pulse".as_slice()) {
                bail!("the network has a module of another class");
            }
            give(session, held)
        }
    }
}

/// Runs the model to its end, and says what came of it. It has all its boxes.
fn run(alloc: Global, session: &mut Session<Pulses>) -> anyhow::Result<Text>
    requires { IsSound pulses (λ b. ⟦<dyn SimpleModule as SimpleModule>⟧ b.vtable) session.old }
    ensures { IsSound pulses (λ b. ⟦<dyn SimpleModule as SimpleModule>⟧ b.vtable) session.new }
{
    match session.run(1000, &mut Unobserved)? {
        RunStatus::Done(report) => Ok(done_text(alloc, &report)?),
        RunStatus::Waits(_) => Err(anyhow!("the run needs a box")),
    }
}

/// Edits the model, and says up to which event the last run stays valid.
fn edit(alloc: Global, session: &mut Session<Pulses>, edit: Edit) -> anyhow::Result<Name>
    requires { IsSound pulses (λ b. ⟦<dyn SimpleModule as SimpleModule>⟧ b.vtable) session.old }
    ensures { IsSound pulses (λ b. ⟦<dyn SimpleModule as SimpleModule>⟧ b.vtable) session.new }
{
    match session.edit(edit) {
        Ok(edited) => Ok(edited_text(alloc, edited.valid_to, None)?),
        Err(refusal) => Err(reason(&edit_refusal_text(alloc, refusal)?)),
    }
}

/// A line of the ini text that turns the recording of vectors off.
fn unrecorded(alloc: Global) -> anyhow::Result<Edit> {
    let line = Text::from_str(alloc, "**.vector-recording = false")?;
    Ok(Edit::InsertIni(5, line))
}

/// A message from outside that reaches a module at 5 s.
fn message(alloc: Global) -> anyhow::Result<Edit> {
    let Some(time) = SimTime::from_ps(5_000_000_000_000) else {
        bail!("no time of a run is as late");
    };
    let path = Text::from_str(alloc, "Two.a")?;
    let due = Due { time, priority: 0 };
    Ok(Edit::Inject(path, due, 0, 8, Text::empty(alloc)))
}

/// The scalar file of the last run.
fn scalars(alloc: Global, session: &Session<Pulses>) -> anyhow::Result<Buffer>
    requires { IsSound pulses (λ b. ⟦<dyn SimpleModule as SimpleModule>⟧ b.vtable) session.now }
{
    let mut file = Buffer::new(alloc);
    match session.scalars(&mut file) {
        Ok(()) => Ok(file),
        Err(_) => Err(anyhow!("the file has no room")),
    }
}

/// Writes a line to standard output.
fn say<R: Print + AllocGlobal>(rt: &R, line: &[u8]) -> anyhow::Result<()> {
    let mut out = io::writer(rt);
    out.write_all(line)?;
    out.write_all(b"\n".as_slice())?;
    Ok(())
}

/// An edit, and a run after it.
fn play<R: Print + AllocGlobal>(
    rt: &R,
    session: &mut Session<Pulses>,
    change: Edit,
) -> anyhow::Result<()>
    requires { IsSound pulses (λ b. ⟦<dyn SimpleModule as SimpleModule>⟧ b.vtable) session.old }
    ensures { IsSound pulses (λ b. ⟦<dyn SimpleModule as SimpleModule>⟧ b.vtable) session.new }
{
    let edited = edit(rt.alloc(), session, change)?;
    say(rt, edited.as_bytes())?;
    let done = run(rt.alloc(), session)?;
    say(rt, done.as_bytes())
}

/// A run, with these boxes; two edits, with a run after each; and the scalar file.
fn play_all<R: Print + AllocGlobal>(
    rt: &R,
    session: &mut Session<Pulses>,
    first: Box<dyn SimpleModule>,
    second: Box<dyn SimpleModule>,
) -> anyhow::Result<()>
    requires first { IsFresh pulses (codes "Pulse") (meaning first) }
    requires second { IsFresh pulses (codes "Pulse") (meaning second) }
    requires sound { IsSound pulses
        (λ b. ⟦<dyn SimpleModule as SimpleModule>⟧ b.vtable) session.old }
    ensures { IsSound pulses (λ b. ⟦<dyn SimpleModule as SimpleModule>⟧ b.vtable) session.new }
{
    supply(session, first)?;
    supply(session, second)?;
    let done = run(rt.alloc(), session)?;
    say(rt, done.as_bytes())?;
    play(rt, session, unrecorded(rt.alloc())?)?;
    play(rt, session, message(rt.alloc())?)?;
    let file = scalars(rt.alloc(), session)?;
    io::writer(rt).write_all(file.as_bytes())?;
    Ok(())
}

/// Makes both boxes, and begins a session of the network, which is played. Its runs leave a position
/// after each event.
fn main(rt: HostRuntime) -> anyhow::Result<()> {
    let alloc = rt.alloc();
    let (one, other) = (fresh(), fresh());
    let first: Box<dyn SimpleModule> = Box::new(alloc, one)?;
    let second: Box<dyn SimpleModule> = Box::new(alloc, other)?;
    let neds = texts(alloc)?;
    match Session::<Pulses>::begin(alloc, &neds, INI.as_bytes(), b"General".as_slice(), 1) {
        Ok(session) => {
            let mut session = session;
            play_all(&rt, &mut session, first, second)
        }
        Err(fault) => Err(reason(&refusal_text(alloc, fault)?)),
    }
}
