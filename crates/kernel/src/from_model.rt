//! What calls ask of the model, and what is done with the answers.

ghost use Rattle.std.specs.Prelude.{◌≡◌, ◌+◌, ◌^◌, ◌<◌, OnOk, IfOk};
ghost use Rattle.model_questions.specs.Answers.{answer_of, parameters_of};
ghost use Rattle.model_questions.specs.declared.answer.Answer.TheVariants as answers;
ghost use Rattle.run_semantics.specs.Perform.{question_of, fault_of_read, read_fault};
ghost use Rattle.kernel_actions.specs.Upcoming.{looked, with_injection_asked};
ghost use Rattle.kernel.specs.Calls.{call_with};
ghost use Rattle.kernel.specs.Looks.{injection_asked};

use kernel_actions::core_part::Core;
use kernel_actions::looks::Look;
use kernel_actions::reads::{fault_of_read, was_told};
use kernel_call_views::CallView;
use model_injections::injection::Injection;
use model_questions::record::index_of;
use module_api::call::{Call, CallReason};
use module_api::reply::Read;
use run_answers::Answers;
use run_question_log::reads::question_of;
use run_semantics::outcome::RunFault;
use sim_values::NoMemory;
use std::alloc::Global;

// ---- calls

/// What a module is told, where this is what calls show of it.
pub fn call_shown(core: &Core, id: u32, prompt: CallReason, shown: CallView) -> Call
    ensures { result ≡ call_with id prompt shown core.now }
{
    Call {
        time: core.clock(),
        event: core.count(),
        id,
        path: shown.path,
        index: index_of(core.records(), id),
        parameters: shown.parameters,
        gates: shown.gates,
        prompt,
    }
}

// ---- replies

/// The fault of the read at that place of a reply, if it has one. A parameter that the call had has
/// none, and is not looked up again.
fn fault_at<A: Answers>(
    core: &Core,
    alloc: Global,
    model: &mut A,
    call: &Call,
    place: usize,
    read: &Read,
) -> Result<Option<RunFault>, NoMemory>
    requires { call.now.parameters ≡ parameters_of A.answers core.now.records call.now.id }
    ensures { let asks = question_of call.now.id read.now in
        IfOk result (λ found.
        found ≡ fault_of_read read.now (answer_of A.answers core.now.records asks)) }
{
    if was_told(call.parameters.as_slice(), place, read) {
        return Ok(None);
    }
    let question = question_of(alloc, call.id, read)?;
    let answer = model.answer(alloc, core.records(), &question)?;
    Ok(fault_of_read(read, &answer))
}

/// The fault of the first read that has one.
pub fn read_fault<A: Answers>(
    core: &Core,
    alloc: Global,
    model: &mut A,
    call: &Call,
    reads: &[Read],
) -> Result<Option<RunFault>, NoMemory>
    requires { call.now.parameters ≡ parameters_of A.answers core.now.records call.now.id }
    ensures { IfOk result (λ found.
        found ≡ read_fault A.answers core.now.records call.now.id reads.now) }
{
    for (place, read) in reads.iter().enumerate() {
        if let Some(fault) = fault_at(core, alloc, model, call, place, read)? {
            return Ok(Some(fault));
        }
    }
    Ok(None)
}

// ---- what comes next

/// Asks for the injection that goes before the first event to come. The question is of the event
/// after.
pub fn ask_injection<A: Answers>(
    core: &Core,
    alloc: Global,
    model: &A,
    look: &mut Look,
) -> Result<Option<Injection>, NoMemory>
    requires { core.now.count + 1 < 2 ^ 64 }
    ensures found { let before = looked core.now look.old in
        IfOk result (λ found. injection_asked A.answers before ≡ answers.Injection found) }
    ensures noted { let before = looked core.now look.old in
        OnOk result (looked core.now look.new ≡ with_injection_asked before) }
{
    core.ask_injection(alloc, model.injections(), look)
}
