//! Calls of boxed modules, with their replies as texts.

ghost use Rattle.std.specs.Prelude.{◌≡◌, IsTrue, IfOk};
ghost use Rattle.std.specs.Option.{is_some};
ghost use Rattle.module_api.specs.Meaning.{IsFresh};
ghost use Rattle.module_examples.specs.Pulse.{read_byte};
ghost use Rattle.module_parts.specs.Numbers.{read_number, state_of};

mod rows;

use module_api::call::CallReason;
use module_api::catalogue::Catalogue;
use module_api::message::Origin;
use module_api::reply::Reply;
use module_api::simple_module::SimpleModule;
use module_examples::pulse::{Pulse, Pulses};
use module_parts::laws::{lawful_kinds_make_a_catalogue, scripts_read_by_listing};
use module_parts::player::{Player, Scripted};
use module_stock::modules::StockModule;
use module_stock::stock::{
    Stock, stock_kinds_are_known, stock_reads_decide, stock_states_are_kept,
};
use module_stock::tick::Tick;
use rows::{Row, call_of, message_from, text_of};
use sim_values::NoMemory;
use sim_values::text::Text;
use sim_values::value::Dimension;
use std::alloc::Global;
use std::process::Abort;
use std::test::Fail;

/// A box of a fresh module of that kind, as a program makes one.
fn boxed(alloc: Global, kind: &[u8]) -> Result<Box<dyn SimpleModule>, Fail> {
    let made = StockModule::of_kind(alloc, kind).ok_or("unknown")?;
    Ok(Box::new(alloc, made)?)
}

/// A box of a fresh Tick.
fn boxed_tick(alloc: Global) -> Result<Box<dyn SimpleModule>, Fail> {
    boxed(alloc, b"Tick".as_slice())
}

/// Takes a box that is fresh in a catalogue.
fn take_fresh<C: Catalogue>(_held: Box<dyn SimpleModule>, kind: &[u8])
    requires { IsFresh C.behaviour kind.now (meaning _held) }
{
    let _kind = kind;
}

/// Makes a box of that kind and hands it on, as a program does. What it answers is whether the kind
/// is known.
fn hand_over(alloc: Global, kind: &[u8]) -> Result<bool, NoMemory> {
    match StockModule::of_kind(alloc, kind) {
        None => Ok(false),
        Some(made) => {
            let held: Box<dyn SimpleModule> = Box::new(alloc, made)?;
            take_fresh::<Stock>(held, kind);
            Ok(true)
        }
    }
}

/// The reply to a call with these parameters and that prompt.
fn reply_to(
    alloc: Global,
    held: &mut Box<dyn SimpleModule>,
    rows: &[Row],
    prompt: CallReason,
) -> Result<Reply, NoMemory> {
    let call = call_of(alloc, rows, prompt)?;
    match call.prompt {
        CallReason::Initialize(_) => held.initialize(alloc, &call),
        CallReason::Message(_) => held.handle_message(alloc, &call),
        CallReason::Finish => held.finish(alloc, &call),
    }
}

/// The text of the reply to a call.
fn told(
    alloc: Global,
    held: &mut Box<dyn SimpleModule>,
    rows: &[Row],
    prompt: CallReason,
) -> Result<String, NoMemory> {
    let reply = reply_to(alloc, held, rows, prompt)?;
    Ok(text_of(alloc, &reply)?)
}

/// What calls a box at a place in a list of calls: the first one initializes it, the others are
/// timers.
fn prompt_at(alloc: Global, at: usize) -> CallReason {
    if at == 0 {
        CallReason::Initialize(0)
    } else {
        message_from(alloc, Origin::Timer(0))
    }
}

/// Initializes the box, then hands it a timer again and again, and compares each reply.
fn replies<R: Abort>(
    rt: &R,
    alloc: Global,
    held: &mut Box<dyn SimpleModule>,
    rows: &[Row],
    wanted: &[&str],
) -> Result<(), Fail> {
    for (at, want) in wanted.iter().enumerate() {
        let text = told(alloc, held, rows, prompt_at(alloc, at))?;
        assert_eq!(rt; text.as_str(), *want, "call {at}");
    }
    Ok(())
}

/// Makes a box of a Tick, and compares its replies to calls with these parameters.
fn replies_of_tick<R: Abort>(
    rt: &R,
    alloc: Global,
    rows: &[Row],
    wanted: &[&str],
) -> Result<(), Fail> {
    let mut held = boxed_tick(alloc)?;
    replies(rt, alloc, &mut held, rows, wanted)
}

/// Whether a fresh box says that it is a Tick, of one stage.
fn is_tick_of_one_stage(alloc: Global) -> Result<bool, Fail> {
    let held = boxed_tick(alloc)?;
    Ok(held.kind() == "Tick" && held.stages() == 1)
}

#[test]
fn tick_is_of_its_kind(rt: HostRuntime) -> Result<(), Fail> {
    assert!(rt; is_tick_of_one_stage(rt.alloc())?);
    Ok(())
}

/// The parameters of a Tick that fires three times.
const COUNTING: [Row; 5] = [
    Row("count", None, 3),
    Row("gap", Some(Dimension::Time), 1_000_000_000_000),
    Row("priority", None, 0),
    Row("late", None, 2),
    Row("extra", None, 9),
];

/// What it replies to its calls.
const COUNTED: [&str; 4] = [
    " count gap priority: timer0+1000000000000/0",
    " count gap priority late: fired=1 timer0+1000000000000/0",
    " count gap priority late extra: fired=2 extra=9 timer0+1000000000000/0",
    " count gap priority late: fired=3",
];

#[test]
fn tick_counts(rt: HostRuntime) -> Result<(), Fail> {
    let alloc = rt.alloc();
    let mut held = boxed_tick(alloc)?;
    let rows = COUNTING.as_slice();
    replies(&rt, alloc, &mut held, rows, COUNTED.as_slice())?;
    let last = told(alloc, &mut held, rows, CallReason::Finish)?;
    assert_eq!(rt; last.as_str(), ":");
    Ok(())
}

/// Parameters of a Tick, of which the priority is out of range.
const WRONG: [Row; 5] = [
    Row("count", None, 3),
    Row("gap", Some(Dimension::Time), 5),
    Row("priority", None, 40000),
    Row("late", None, 1),
    Row("extra", None, 9),
];

/// How it refuses its calls.
const REFUSED: [&str; 3] = [
    " count gap priority: fail=priority",
    " count gap priority late extra: fail=priority",
    " count gap priority late extra: fail=priority",
];

/// Parameters of a Tick, of which the count is missing.
const MISSING: [Row; 2] = [Row("gap", None, 5), Row("priority", None, 0)];

/// What it reads in vain.
const IN_VAIN: [&str; 2] = [" count gap priority:", " count gap priority late:"];

#[test]
fn tick_refuses(rt: HostRuntime) -> Result<(), Fail> {
    let alloc = rt.alloc();
    replies_of_tick(&rt, alloc, WRONG.as_slice(), REFUSED.as_slice())?;
    replies_of_tick(&rt, alloc, MISSING.as_slice(), IN_VAIN.as_slice())
}

/// A Tick with these bytes as its state.
#[tactic(auto, unfolding(module_stock::specs::Tick::tick_script))]
fn tick_in(alloc: Global, state: &[u8]) -> Result<Tick, NoMemory>
    requires { IsTrue (is_some (read_number state.now)) }
    ensures { IfOk result (λ tick. state_of tick.n ≡ state.now) }
{
    let mut tick = Tick::new();
    tick.load(alloc, state)?;
    Ok(tick)
}

#[test]
#[tactic(auto, unfolding(module_parts::specs::Numbers::number_of, module_parts::specs::Numbers::read_number))]
fn tick_goes_on_from_a_state(rt: HostRuntime) -> Result<(), Fail> {
    let alloc = rt.alloc();
    let made = tick_in(alloc, [0, 0, 0, 0, 0, 0, 0, 2].as_slice())?;
    let mut held: Box<dyn SimpleModule> = Box::new(alloc, Player(made))?;
    let timer = message_from(alloc, Origin::Timer(0));
    let last = told(alloc, &mut held, COUNTING.as_slice(), timer)?;
    assert_eq!(rt; last.as_str(), COUNTED[3]);
    let state = held.save(alloc)?;
    assert_eq!(rt; state.as_bytes(), [0, 0, 0, 0, 0, 0, 0, 3].as_slice());
    Ok(())
}

/// What a Sink replies to a message from there.
fn told_by_sink(alloc: Global, origin: Origin) -> Result<String, Fail> {
    let mut held = boxed(alloc, b"Sink".as_slice())?;
    let prompt = message_from(alloc, origin);
    Ok(told(alloc, &mut held, [].as_slice(), prompt)?)
}

#[test]
fn sink_hears_its_gate_and_the_outside(rt: HostRuntime) -> Result<(), Fail> {
    let alloc = rt.alloc();
    let outside = told_by_sink(alloc, Origin::Outside)?;
    assert_eq!(rt; outside.as_str(), ": rx=0");
    let gate = told_by_sink(alloc, Origin::Gate(Text::from_str(alloc, "in")?, 0))?;
    assert_eq!(rt; gate.as_str(), ": rx=0");
    let other = told_by_sink(alloc, Origin::Gate(Text::from_str(alloc, "out")?, 0))?;
    assert_eq!(rt; other.as_str(), ":");
    let timer = told_by_sink(alloc, Origin::Timer(0))?;
    assert_eq!(rt; timer.as_str(), ":");
    Ok(())
}

/// The delay of a Spawner's message, and a number in the place of `polite`.
const SPAWNING: [Row; 2] = [
    Row("delay", Some(Dimension::Time), 5),
    Row("polite", None, 1),
];

/// What it replies to its calls: it can't do its second step, and stays before it.
const SPAWNED: [&str; 4] = [
    ": timer0+1000000000000/0",
    " delay: create net.w: Sink send net.w.in[0] 8+5 timer0+1000000000000/0",
    " polite: fail=polite",
    " polite: fail=polite",
];

#[test]
fn spawner_spawns(rt: HostRuntime) -> Result<(), Fail> {
    let alloc = rt.alloc();
    let mut held = boxed(alloc, b"Spawner".as_slice())?;
    let rows = SPAWNING.as_slice();
    replies(&rt, alloc, &mut held, rows, SPAWNED.as_slice())
}

#[test]
fn pulse_keeps_its_state(rt: HostRuntime) -> Result<(), Fail> {
    let alloc = rt.alloc();
    let mut pulse = Pulse { has_pulsed: true };
    assert_eq!(rt; pulse.save(alloc)?.as_bytes(), [1].as_slice());
    load_pulse(&mut pulse, alloc, [0].as_slice())?;
    assert_eq!(rt; pulse.save(alloc)?.as_bytes(), [0].as_slice());
    Ok(())
}

/// Loads a state into a Pulse.
#[tactic(auto, unfolding(module_examples::specs::Pulse::pulse_script))]
fn load_pulse(pulse: &mut Pulse, alloc: Global, state: &[u8]) -> Result<(), NoMemory>
    requires { IsTrue (is_some (read_byte state.now)) }
{
    pulse.load(alloc, state)
}

/// How long a Pulse waits: 5 ps.
const WAITING: [Row; 1] = [Row("wait", Some(Dimension::Time), 5)];

#[test]
fn pulse_pulses_once(rt: HostRuntime) -> Result<(), Fail> {
    let alloc = rt.alloc();
    let fresh = Player(Pulse { has_pulsed: false });
    let mut held: Box<dyn SimpleModule> = Box::new(alloc, fresh)?;
    let wanted = [" wait: timer0+5/0", ": pulse=1", ":"];
    replies(&rt, alloc, &mut held, WAITING.as_slice(), wanted.as_slice())
}

#[test]
fn kinds(rt: HostRuntime) -> Result<(), Fail> {
    assert!(rt; hand_over(rt.alloc(), b"Tick".as_slice())?);
    assert!(rt; hand_over(rt.alloc(), b"Sink".as_slice())?);
    assert!(rt; !hand_over(rt.alloc(), b"Tock".as_slice())?);
    stock_kinds_are_known();
    stock_reads_decide();
    stock_states_are_kept();
    scripts_read_by_listing::<Pulse>();
    lawful_kinds_make_a_catalogue();
    module_api::law::reads_decide::<Pulses>();
    module_api::law::states_are_kept::<Pulses>();
    Ok(())
}
