//! Modules that are created while a run goes on: the model is asked for their class, and for what
//! is inside of them.

ghost use Rattle.std.specs.Prelude.{◌≡◌, ◌+◌, ◌^◌, ◌<◌, ◌≤◌, suc, false, IfOk, OnOk, None};
ghost use Rattle.std.specs.Prelude.{length};
ghost use Rattle.model_questions.specs.declared.answer.Question.TheVariants.{TypeOf};
ghost use Rattle.run_semantics.specs.Creating.{awaiting, built_as, built_by, class_answer};
ghost use Rattle.run_semantics.specs.Creating.{created_as, created_by, created_new, creating};
ghost use Rattle.run_semantics.specs.Creating.{class_in, is_full, with_created};
ghost use Rattle.run_semantics.specs.Perform.{flow_of};
ghost use Rattle.run_semantics.specs.Run.{room_in};
ghost use Rattle.run_semantics.specs.World.{asked};
ghost use Rattle.kernel_actions.specs.Created.{IsCreated};
ghost use Rattle.kernel_actions.specs.Positions.{IsGrownFrom};

use crate::building::set_up;
use kernel_actions::classes::copy_class;
use kernel_actions::core_part::Core;
use model_questions::answer::{Answer, Question};
use module_api::names::is_module_name;
use module_api::reply::Creation;
use run_answers::Answers;
use run_semantics::outcome::{EventFlow, RunFault};
use run_semantics::routes::is_simple;
use sim_values::NoMemory;
use sim_values::model_fault::ModelFault;
use sim_values::text::Text;
use sim_values::value_fault::ValueFault;
use std::alloc::{AllocError, Global};

/// The class that is answered, where one is.
fn class_in(alloc: Global, answer: &Answer) -> Result<Option<Text>, AllocError>
    ensures { IfOk result (λ class. class ≡ class_in answer.now) }
{
    match answer {
        Answer::Class(class) => copy_class(alloc, class),
        _ => Ok(None),
    }
}

/// Asks for the class of a module, where it stands without one. It is as it was after it.
fn ask_class<A: Answers>(
    core: &mut Core,
    alloc: Global,
    model: &mut A,
    parent: u32,
    creation: &Creation,
) -> Result<Answer, NoMemory>
    requires room { length core.old.records + 1 < 2 ^ 32 }
    requires there { parent ≤ length core.old.records }
    ensures answer { IfOk result
        (λ answer. answer ≡ class_answer A.answers parent creation.now core.old) }
    ensures same { OnOk result (core.new ≡ core.old) }
    ensures grown { IsGrownFrom core.old core.new }
{
    let last = core.records().len();
    core.add_created(alloc, parent, creation, None)?;
    let question = Question::TypeOf(last as u32 + 1);
    let answer = model.answer(alloc, core.records(), &question)?;
    core.cut_records(last);
    Ok(answer)
}

/// Creates a module as its model answers: it is there with its class, or with none where that is a
/// fault.
fn create_as_answered<A: Answers>(
    core: &mut Core,
    alloc: Global,
    model: &mut A,
    parent: u32,
    creation: &Creation,
) -> Result<Answer, NoMemory>
    requires room { length core.old.records + 1 < 2 ^ 32 }
    requires there { parent ≤ length core.old.records }
    ensures answer { IfOk result
        (λ answer. answer ≡ class_answer A.answers parent creation.now core.old) }
    ensures world { IfOk result
        (λ answer. core.new ≡ asked (TypeOf (suc (length core.old.records)))
        (with_created parent creation.now (class_in answer) core.old)) }
    ensures grown { IsGrownFrom core.old core.new }
{
    let first = core.records().len() as u32 + 1;
    let answer = ask_class(core, alloc, model, parent, creation)?;
    let class = class_in(alloc, &answer)?;
    core.add_created(alloc, parent, creation, class)?;
    core.ask(alloc, Question::TypeOf(first))?;
    Ok(answer)
}

/// A module waits for its start.
#[tactic(auto, using(kernel_actions::proofs::Lasting::growth_same))]
fn await_start(core: &mut Core, first: u32) -> Result<EventFlow, NoMemory>
    requires { core.old.next + 1 < 2 ^ 128 }
    ensures flow { IfOk result (λ turn. flow_of turn core.new ≡ awaiting first core.old) }
    ensures grown { IsGrownFrom core.old core.new }
{
    core.insert_start(first)?;
    Ok(EventFlow::GoOn)
}

/// Sets a compound module up, with as many levels as are left for it; then it waits for its start.
fn build_inside<A: Answers>(
    core: &mut Core,
    alloc: Global,
    model: &mut A,
    levels: u32,
    first: u32,
) -> Result<EventFlow, NoMemory>
    requires room { core.old.next + 1 < 2 ^ 128 }
    requires there { first ≤ length core.old.records }
    ensures flow { IfOk result (λ turn. flow_of turn core.new
        ≡ built_by A.answers levels first None core.old) }
    ensures grown { IsGrownFrom core.old core.new }
{
    match set_up(core, alloc, model, levels, first)? {
        EventFlow::GoOn => {
            let waits = await_start(core, first)?;
            Ok(waits)
        }
        turn => Ok(turn),
    }
}

/// What is done with the class that was answered for the module of that id.
#[tactic(auto, using(kernel_actions::proofs::Lasting::growth_same))]
fn build_as<A: Answers>(
    core: &mut Core,
    alloc: Global,
    model: &mut A,
    levels: u32,
    first: u32,
    answer: &Answer,
) -> Result<EventFlow, NoMemory>
    requires room { core.old.next + 1 < 2 ^ 128 }
    requires there { first ≤ length core.old.records }
    ensures flow { IfOk result (λ turn. flow_of turn core.new
        ≡ built_as A.answers levels first answer.now core.old) }
    ensures grown { IsGrownFrom core.old core.new }
{
    match answer {
        Answer::Class(Some(_)) => await_start(core, first),
        Answer::Class(None) => build_inside(core, alloc, model, levels, first),
        Answer::Fault(path, fault) => Ok(EventFlow::Break(
            path.copy(alloc)?,
            RunFault::Model(*fault),
        )),
        _ => core.broken(alloc, first, RunFault::Model(ModelFault::UnknownType)),
    }
}

/// Creates a module, for which there are so many levels, and builds it.
fn create_at<A: Answers>(
    core: &mut Core,
    alloc: Global,
    model: &mut A,
    levels: u32,
    parent: u32,
    creation: &Creation,
) -> Result<EventFlow, NoMemory>
    requires room { core.old.next + 1 < 2 ^ 128 }
    requires few { is_full (room_in core.old) ≡ false }
    requires there { parent ≤ length core.old.records }
    ensures flow { let first = suc (length core.old.records) in
        IfOk result (λ turn. flow_of turn core.new
        ≡ creating A.answers parent creation.now (built_as A.answers levels first) core.old) }
    ensures grown { IsGrownFrom core.old core.new }
{
    let first = core.records().len() as u32 + 1;
    let answer = create_as_answered(core, alloc, model, parent, creation)?;
    let turn = build_as(core, alloc, model, levels, first, &answer)?;
    Ok(turn)
}

/// Creates a module, where there is room for it.
#[tactic(auto, using(kernel_actions::proofs::Lasting::growth_same))]
fn create_few<A: Answers>(
    core: &mut Core,
    alloc: Global,
    model: &mut A,
    parent: u32,
    creation: &Creation,
) -> Result<EventFlow, NoMemory>
    requires room { core.old.next + 1 < 2 ^ 128 }
    requires there { parent ≤ length core.old.records }
    ensures flow { IfOk result (λ turn. flow_of turn core.new
        ≡ created_as A.answers parent creation.now core.old) }
    ensures grown { IsGrownFrom core.old core.new }
{
    if core.is_full() {
        return core.refuse(alloc, parent, creation, ModelFault::TooManyModules);
    }
    let levels = core.levels_in(parent);
    if levels == 0 {
        let fault = ModelFault::Value(ValueFault::TooDeep);
        return core.refuse(alloc, parent, creation, fault);
    }
    create_at(core, alloc, model, levels, parent, creation)
}

/// Creates a module in the one of that id, which lives, where it may have its name.
#[tactic(auto, using(kernel_actions::proofs::Lasting::growth_same))]
fn create_in<A: Answers>(
    core: &mut Core,
    alloc: Global,
    model: &mut A,
    id: u32,
    parent: u32,
    creation: &Creation,
) -> Result<EventFlow, NoMemory>
    requires room { core.old.next + 1 < 2 ^ 128 }
    requires there { IsCreated parent core.old }
    ensures flow { IfOk result (λ turn. flow_of turn core.new
        ≡ created_by A.answers id creation.now core.old parent) }
    ensures grown { IsGrownFrom core.old core.new }
{
    if is_simple(core.records(), parent) {
        return core.broken(alloc, id, RunFault::NoModule);
    }
    if !is_module_name(creation.name.as_bytes()) {
        return core.broken(alloc, id, RunFault::BadName);
    }
    if core.has_namesake(alloc, parent, creation)? {
        return core.broken(alloc, id, RunFault::DuplicateName);
    }
    create_few(core, alloc, model, parent, creation)
}

/// Creates a module in a compound one that lives, and builds it. The module of that id does it.
#[tactic(auto, using(kernel_actions::proofs::Lasting::growth_same))]
pub fn create<A: Answers>(
    core: &mut Core,
    alloc: Global,
    model: &mut A,
    id: u32,
    creation: &Creation,
) -> Result<EventFlow, NoMemory>
    requires { core.old.next + 1 < 2 ^ 128 }
    ensures flow { IfOk result (λ turn. flow_of turn core.new
        ≡ created_new A.answers id creation.now core.old) }
    ensures grown { IsGrownFrom core.old core.new }
{
    match core.module_at(&creation.parent) {
        Some(parent) => create_in(core, alloc, model, id, parent, creation),
        None => core.broken(alloc, id, RunFault::NoModule),
    }
}
