//! Modules that are built: at setup, and inside of those that are created while a run goes on.

ghost use Rattle.std.specs.Prelude.{◌≡◌, ◌+◌, ◌^◌, ◌<◌, ◌≤◌, suc, IfOk, length};
ghost use Rattle.run_semantics.specs.World.{empty};
ghost use Rattle.run_semantics.specs.Perform.{flow_of};
ghost use Rattle.run_semantics.specs.Run.{root_asked, compounds_from, inside_of, set_up, prepared};
ghost use Rattle.kernel_actions.specs.Created.{AreWithin, HasNetwork};
ghost use Rattle.kernel_actions.specs.Positions.{IsGrownFrom};
ghost use Rattle.kernel_sending.specs.Setups.{HasBuilt};

use kernel_actions::core_part::Core;
use model_questions::answer::{Answer, Built, Question};
use model_questions::record::MAX_NESTING;
use run_answers::Answers;
use run_semantics::outcome::EventFlow;
use sim_values::NoMemory;
use sqlite_items::Items;
use std::alloc::Global;

/// Asks which network is run, and creates it.
fn ask_root<A: Answers>(
    core: &mut Core,
    alloc: Global,
    model: &mut A,
) -> Result<EventFlow, NoMemory>
    requires { core.old ≡ empty }
    ensures flow { IfOk result (λ turn. flow_of turn core.new ≡ root_asked A.answers) }
    ensures network { IfOk result (λ turn. HasNetwork turn core.new) }
{
    core.ask(alloc, Question::Root)?;
    let found = model.answer(alloc, &[], &Question::Root)?;
    core.root(alloc, found)
}

/// What a model answered to be inside of a module.
fn inside_of(found: &Answer) -> &[Built]
    ensures { result.now ≡ inside_of found.now }
{
    match found {
        Answer::Inside(inside) => inside.as_slice(),
        _ => &[],
    }
}

/// The ids of the compound modules among these, which have the ids after that one.
fn compounds_behind(alloc: Global, last: usize, inside: &[Built]) -> Result<Items<u32>, NoMemory>
    requires { last + length inside.now < 2 ^ 32 }
    ensures { IfOk result (λ ids. ids ≡ compounds_from (suc last) inside.now) }
{
    let mut ids = Items::new(alloc);
    for (index, built) in inside.iter().enumerate() {
        if built.class.is_none() {
            ids.push((last + index) as u32 + 1)?;
        }
    }
    Ok(ids)
}

/// Asks what is inside of a module, and creates its submodules. The compound ones of them are still
/// to be set up.
fn build<A: Answers>(
    core: &mut Core,
    alloc: Global,
    model: &mut A,
    id: u32,
) -> Result<(EventFlow, Items<u32>), NoMemory>
    requires { id ≤ length core.old.records }
    ensures there { IfOk result (λ left. AreWithin left.1 core.new) }
    ensures built { IfOk result (λ left.
        HasBuilt A.answers id core.old left.0 left.1 core.new) }
    ensures grown { IsGrownFrom core.old core.new }
{
    let found = model.answer(alloc, core.records(), &Question::Build(id))?;
    core.ask(alloc, Question::Build(id))?;
    let last = core.records().len();
    match core.build(alloc, id, &found)? {
        EventFlow::GoOn => {
            let _records = core.records();
            let inner = compounds_behind(alloc, last, inside_of(&found))?;
            Ok((EventFlow::GoOn, inner))
        }
        turn => Ok((turn, Items::new(alloc))),
    }
}

/// Sets a compound module up, with so many levels from its own on. Modules are nested at most 32
/// deep, so a call nests no deeper.
#[tactic(auto, using(kernel_actions::proofs::Lasting::growth_same))]
pub fn set_up<A: Answers>(
    core: &mut Core,
    alloc: Global,
    model: &mut A,
    depth: u32,
    id: u32,
) -> Result<EventFlow, NoMemory>
    requires { id ≤ length core.old.records }
    ensures flow { IfOk result (λ turn. flow_of turn core.new
        ≡ set_up depth A.answers id core.old) }
    ensures grown { IsGrownFrom core.old core.new }
{
    if depth == 0 {
        return Ok(EventFlow::GoOn);
    }
    let (turn, inner) = build(core, alloc, model, id)?;
    match turn {
        EventFlow::GoOn => {}
        turn => return Ok(turn),
    }
    for inner_id in inner.as_slice() {
        match set_up(core, alloc, model, depth - 1, *inner_id)? {
            EventFlow::GoOn => {}
            turn => return Ok(turn),
        }
    }
    Ok(EventFlow::GoOn)
}

/// Creates the network and all that is inside of it, as the model answers.
#[tactic(auto, unfolding(run_semantics::specs::Run::most_nested))]
pub fn prepare<A: Answers>(
    core: &mut Core,
    alloc: Global,
    model: &mut A,
) -> Result<EventFlow, NoMemory>
    requires { core.old ≡ empty }
    ensures { IfOk result (λ turn. flow_of turn core.new ≡ prepared A.answers) }
{
    match ask_root(core, alloc, model)? {
        EventFlow::GoOn => set_up(core, alloc, model, MAX_NESTING, 1),
        turn => Ok(turn),
    }
}
