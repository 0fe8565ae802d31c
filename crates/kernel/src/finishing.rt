//! What a module does as it is finished: nothing but deeds, which change no module.

ghost use Rattle.std.specs.Prelude.{◌≡◌, ◌+◌, ◌^◌, ◌<◌, IfOk, length};
ghost use Rattle.model_questions.specs.Answers.{parameters_of};
ghost use Rattle.run_semantics.specs.Perform.{act, act_all, acted, deed, flow_of};
ghost use Rattle.kernel.specs.Calls.{answered_last};
ghost use Rattle.kernel_actions.specs.Positions.{IsGrownFrom};

use crate::from_model::read_fault;
use kernel_actions::core_part::Core;
use module_api::call::Call;
use module_api::reply::{Action, Reply};
use run_answers::Answers;
use run_semantics::occasions::{Occasion, is_allowed};
use run_semantics::outcome::{EventFlow, RunFault};
use sim_values::NoMemory;
use std::alloc::Global;

/// How many actions a reply has at most.
pub const MAX_ACTIONS: usize = 1000;

/// An action of a reply, where it may have that.
#[tactic(auto, using(kernel_actions::proofs::Lasting::growth_same))]
fn act(
    core: &mut Core,
    alloc: Global,
    occasion: Occasion,
    id: u32,
    action: &Action,
) -> Result<EventFlow, NoMemory>
    requires { core.old.next + 1 < 2 ^ 128 }
    ensures step { IfOk result (λ turn. flow_of turn core.new
        ≡ act (deed id) occasion id action.now core.old) }
    ensures grown { IsGrownFrom core.old core.new }
{
    if action.has_large_payload() {
        return core.broken(alloc, id, RunFault::PayloadTooLarge);
    }
    if !is_allowed(occasion, action) {
        return core.broken(alloc, id, RunFault::NotInFinish);
    }
    core.deed(alloc, id, action)
}

/// The actions of a reply, in order.
fn act_all(
    core: &mut Core,
    alloc: Global,
    occasion: Occasion,
    id: u32,
    actions: &[Action],
) -> Result<EventFlow, NoMemory>
    requires { core.old.next + length actions.now < 2 ^ 128 }
    ensures step { IfOk result (λ turn. flow_of turn core.new
        ≡ act_all (deed id) occasion id actions.now core.old) }
    ensures grown { IsGrownFrom core.old core.new }
{
    for action in actions {
        match act(core, alloc, occasion, id, action)? {
            EventFlow::GoOn => {}
            turn => return Ok(turn),
        }
    }
    Ok(EventFlow::GoOn)
}

/// The actions of a reply, where there are at most 1,000.
#[tactic(auto, using(kernel_actions::proofs::Lasting::growth_same))]
fn act_few(
    core: &mut Core,
    alloc: Global,
    occasion: Occasion,
    id: u32,
    actions: &[Action],
) -> Result<EventFlow, NoMemory>
    requires { core.old.next + 1000 < 2 ^ 128 }
    ensures step { IfOk result (λ turn. flow_of turn core.new
        ≡ acted (deed id) occasion id actions.now core.old) }
    ensures grown { IsGrownFrom core.old core.new }
{
    if actions.len() > MAX_ACTIONS {
        return core.broken(alloc, id, RunFault::TooManyActions);
    }
    act_all(core, alloc, occasion, id, actions)
}

/// Carries out the reply of a module that is finished: its reads are asked, and then its actions are
/// performed, unless a read has a fault.
#[tactic(auto, using(kernel_actions::proofs::Lasting::growth_same))]
pub fn follow_last<A: Answers>(
    core: &mut Core,
    alloc: Global,
    model: &mut A,
    occasion: Occasion,
    call: &Call,
    reply: &Reply,
) -> Result<EventFlow, NoMemory>
    requires next { core.old.next + 1000 < 2 ^ 128 }
    requires told { call.now.parameters
        ≡ parameters_of A.answers core.old.records call.now.id }
    ensures step { IfOk result (λ turn. flow_of turn core.new
        ≡ answered_last A.answers occasion call.now.id reply.now core.old) }
    ensures grown { IsGrownFrom core.old core.new }
{
    let reads = reply.reads.as_slice();
    let fault = read_fault(core, alloc, model, call, reads)?;
    core.ask_noted(alloc, occasion, call.id, reads)?;
    match fault {
        Some(fault) => core.broken(alloc, call.id, fault),
        None => act_few(core, alloc, occasion, call.id, reply.actions.as_slice()),
    }
}
