//! Messages that are sent: their hops are asked of the model.

ghost use Rattle.std.specs.Prelude.{◌≡◌, ◌+◌, ◌^◌, ◌<◌, ◌≤◌, [], Bool, true, Option, List, IfOk};
ghost use Rattle.std.specs.Prelude.{OnOk};
ghost use Rattle.model_questions.specs.declared.answer.Answer.{Answer};
ghost use Rattle.model_questions.specs.declared.answer.Question.TheVariants.{GateSize, HopBack};
ghost use Rattle.model_questions.specs.Questions.{is_of_modules};
ghost use Rattle.model_questions.specs.Answers.{answer_of};
ghost use Rattle.run_semantics.specs.declared.routes.NextHop.{NextHop};
ghost use Rattle.run_semantics.specs.declared.routes.PassedHop.{PassedHop};
ghost use Rattle.run_semantics.specs.declared.routes.PlacedGate.{PlacedGate};
ghost use Rattle.run_semantics.specs.World.{World, asked};
ghost use Rattle.run_semantics.specs.Routes.{hop_by, is_in_gate, is_out_gate, is_simple, is_taken};
ghost use Rattle.run_semantics.specs.Perform.{Flow, asking, flow_of, next_hop, chain, most_hops};
ghost use Rattle.run_semantics.specs.Perform.{sent_over, sent, entering, entered, sent_direct};
ghost use Rattle.kernel_sending.specs.Ways.{after_chain};
ghost use Rattle.kernel_actions.specs.Positions.{IsGrownFrom};

use kernel_actions::core_part::Core;
use kernel_actions::gates;
use kernel_actions::sending::{flight_end, send_over};
use model_questions::answer::{Answer, Question};
use module_api::message::Outgoing;
use module_api::name::Name;
use module_api::reply::{Flight, GatePlace, OwnGate};
use run_answers::Answers;
use run_semantics::outcome::{EventFlow, RunFault};
use run_semantics::routes::{NextHop, PassedHop, PlacedGate, is_in_gate, is_out_gate, is_simple};
use sim_time::SimTime;
use sim_values::NoMemory;
use sqlite_items::Items;
use std::alloc::Global;

/// Where a chain of hops leads.
#[derive(Drop)]
pub enum Way {
    /// To a gate of a simple module, over these hops.
    Reached(Items<PassedHop>, PlacedGate),
    /// Nowhere.
    Ended(EventFlow),
}

/// Asks a question about modules, and notes it. Whatever goes on, goes on with this answer.
fn ask<A: Answers>(
    core: &mut Core,
    alloc: Global,
    model: &mut A,
    question: Question,
) -> Result<Answer, NoMemory>
    requires { is_of_modules question ≡ true }
    ensures asked { IfOk result (λ found. (next : Answer → World → Flow)
        → asking A.answers question next core.old ≡ next found core.new) }
    ensures records { core.new.records ≡ core.old.records }
    ensures next { core.new.next ≡ core.old.next }
    ensures grown { IsGrownFrom core.old core.new }
{
    let found = model.answer(alloc, core.records(), &question)?;
    core.ask(alloc, question)?;
    Ok(found)
}

/// Finds the next hop from a gate: it is asked for, unless the gate was joined or freed. Whatever
/// goes on, goes on with this hop.
pub(crate) fn next_hop<A: Answers>(
    core: &mut Core,
    alloc: Global,
    model: &mut A,
    gate: &PlacedGate,
) -> Result<Option<NextHop>, NoMemory>
    ensures hop { IfOk result (λ hop. (next : Option NextHop → World → Flow)
        → next_hop A.answers gate.now next core.old ≡ next hop core.new) }
    ensures next { core.new.next ≡ core.old.next }
    ensures grown { IsGrownFrom core.old core.new }
{
    if let Some(hop) = gates::changed_hop(core, alloc, gate)? {
        return Ok(hop);
    }
    let question = Question::Hop(gate.id, gate.name.copy(alloc)?, gate.index);
    let found = ask(core, alloc, model, question)?;
    let hop = core.hop_by(gate.id, found);
    Ok(gates::if_live(core, hop))
}

/// How many hops a chain has at most.
#[tactic(auto, unfolding(run_semantics::specs::Perform::most_hops))]
fn most_hops() -> usize
    ensures value { result ≡ most_hops }
    ensures few { result ≤ 1000 }
{
    1000
}

/// Follows the hops from a gate; the module of that id sends.
fn follow<A: Answers>(
    core: &mut Core,
    alloc: Global,
    model: &mut A,
    id: u32,
    gate: PlacedGate,
) -> Result<Way, NoMemory>
    ensures chain { IfOk result (λ way. (reached : List PassedHop → PlacedGate → World → Flow)
        → chain A.answers id reached most_hops gate [] core.old
        ≡ after_chain reached way core.new) }
    ensures next { core.new.next ≡ core.old.next }
    ensures grown { IsGrownFrom core.old core.new }
{
    let mut passed = Items::new(alloc);
    let mut place = gate;
    let limit = most_hops();
    for _done in 0..limit {
        let Some(hop) = next_hop(core, alloc, model, &place)? else {
            let turn = core.broken(alloc, id, RunFault::NotConnected)?;
            return Ok(Way::Ended(turn));
        };
        let NextHop { to, channel } = hop;
        let simple = is_simple(core.records(), to.id);
        let from = place;
        passed.push(PassedHop { from, channel })?;
        if simple {
            return Ok(Way::Reached(passed, to));
        }
        place = to;
    }
    match next_hop(core, alloc, model, &place)? {
        Some(_) => Ok(Way::Ended(core.broken(alloc, id, RunFault::TooManyHops)?)),
        None => Ok(Way::Ended(core.broken(alloc, id, RunFault::NotConnected)?)),
    }
}

/// Sends a message of the module of that id over the hops from a gate.
fn send_on<A: Answers>(
    core: &mut Core,
    alloc: Global,
    model: &mut A,
    id: u32,
    gate: PlacedGate,
    message: &Outgoing,
    departure: &Option<SimTime>,
) -> Result<EventFlow, NoMemory>
    requires { core.old.next + 1 < 2 ^ 128 }
    ensures flow { IfOk result (λ turn. flow_of turn core.new
        ≡ chain A.answers id (sent_over id message.now departure.now) most_hops gate [] core.old) }
    ensures grown { IsGrownFrom core.old core.new }
{
    match follow(core, alloc, model, id, gate)? {
        Way::Reached(hops, end) => {
            send_over(core, alloc, id, message, departure, hops.as_slice(), &end)
        }
        Way::Ended(turn) => Ok(turn),
    }
}

/// Asks whether messages go out through a gate of the module of that id. Whatever goes on, goes on
/// with this.
pub(crate) fn can_leave<A: Answers>(
    core: &mut Core,
    alloc: Global,
    model: &mut A,
    id: u32,
    gate: &Name,
    index: u32,
) -> Result<bool, NoMemory>
    ensures asked { IfOk result
        (λ can. (next : Bool → World → Flow)
        → asking A.answers (GateSize id gate.now) (λ a v. next (is_out_gate a index) v) core.old
        ≡ next can core.new) }
    ensures next { core.new.next ≡ core.old.next }
    ensures grown { IsGrownFrom core.old core.new }
{
    let question = Question::GateSize(id, gate.text(alloc)?);
    let found = ask(core, alloc, model, question)?;
    Ok(is_out_gate(&found, index))
}

/// Sends a message of the module of that id through a gate of its own, which departs then.
pub fn send<A: Answers>(
    core: &mut Core,
    alloc: Global,
    model: &mut A,
    id: u32,
    gate: &OwnGate,
    message: &Outgoing,
    departure: &Option<SimTime>,
) -> Result<EventFlow, NoMemory>
    requires { core.old.next + 1 < 2 ^ 128 }
    ensures flow { IfOk result (λ turn. flow_of turn core.new
        ≡ sent A.answers id gate.now message.now departure.now core.old) }
    ensures grown { IsGrownFrom core.old core.new }
{
    let can = can_leave(core, alloc, model, id, &gate.name, gate.index)?;
    if can {
        let name = gate.name.text(alloc)?;
        let index = gate.index;
        let from = PlacedGate { id, name, index };
        send_on(core, alloc, model, id, from, message, departure)
    } else {
        core.broken(alloc, id, RunFault::NoGate)
    }
}

/// A message is at a gate then: it arrives, or goes on inside of a compound module.
fn enter<A: Answers>(
    core: &mut Core,
    alloc: Global,
    model: &mut A,
    id: u32,
    gate: PlacedGate,
    message: &Outgoing,
    arrival: &Option<SimTime>,
) -> Result<EventFlow, NoMemory>
    requires { core.old.next + 1 < 2 ^ 128 }
    ensures flow { IfOk result (λ turn. flow_of turn core.new
        ≡ entering A.answers id message.now gate arrival.now core.old) }
    ensures grown { IsGrownFrom core.old core.new }
{
    let Some(time) = arrival else {
        return core.broken(alloc, id, RunFault::TimeOverflow);
    };
    if !is_simple(core.records(), gate.id) {
        return send_on(core, alloc, model, id, gate, message, arrival);
    }
    core.arrive(alloc, &gate, message, *time)?;
    Ok(EventFlow::GoOn)
}

/// Asks whether something is connected to a gate from outside. Whatever goes on, goes on with this.
pub(crate) fn is_taken<A: Answers>(
    core: &mut Core,
    alloc: Global,
    model: &mut A,
    gate: &PlacedGate,
) -> Result<bool, NoMemory>
    ensures asked { IfOk result
        (λ taken. (next : Bool → World → Flow)
        → asking A.answers (HopBack gate.now.id gate.now.name gate.now.index)
        (λ a v. next (is_taken gate.now a v) v) core.old
        ≡ next taken core.new) }
    ensures next { core.new.next ≡ core.old.next }
    ensures grown { IsGrownFrom core.old core.new }
{
    let question = Question::HopBack(gate.id, gate.name.copy(alloc)?, gate.index);
    let found = ask(core, alloc, model, question)?;
    Ok(gates::is_taken(core, gate, found))
}

/// Sends a message to a gate, if nothing is connected to it from outside.
fn send_free<A: Answers>(
    core: &mut Core,
    alloc: Global,
    model: &mut A,
    id: u32,
    gate: PlacedGate,
    message: &Outgoing,
    flight: &Flight,
) -> Result<EventFlow, NoMemory>
    requires { core.old.next + 1 < 2 ^ 128 }
    ensures flow { IfOk result (λ turn. flow_of turn core.new
        ≡ asking A.answers (HopBack gate.id gate.name gate.index)
        (entered A.answers id gate message.now flight.now) core.old) }
    ensures grown { IsGrownFrom core.old core.new }
{
    let taken = is_taken(core, alloc, model, &gate)?;
    if taken {
        return core.broken(alloc, id, RunFault::AlreadyConnected);
    }
    let arrival = flight_end(core.clock(), flight);
    enter(core, alloc, model, id, gate, message, &arrival)
}

/// Asks whether messages come in through a gate of the module of that id. Whatever goes on, goes on
/// with this.
pub(crate) fn can_enter<A: Answers>(
    core: &mut Core,
    alloc: Global,
    model: &mut A,
    id: u32,
    gate: &Name,
    index: u32,
) -> Result<bool, NoMemory>
    ensures asked { IfOk result
        (λ can. (next : Bool → World → Flow)
        → asking A.answers (GateSize id gate.now) (λ a v. next (is_in_gate a index) v) core.old
        ≡ next can core.new) }
    ensures next { core.new.next ≡ core.old.next }
    ensures grown { IsGrownFrom core.old core.new }
{
    let question = Question::GateSize(id, gate.text(alloc)?);
    let found = ask(core, alloc, model, question)?;
    Ok(is_in_gate(&found, index))
}

/// Sends a message of the module of that id directly to a gate.
pub fn send_direct<A: Answers>(
    core: &mut Core,
    alloc: Global,
    model: &mut A,
    id: u32,
    place: &GatePlace,
    message: &Outgoing,
    flight: &Flight,
) -> Result<EventFlow, NoMemory>
    requires { core.old.next + 1 < 2 ^ 128 }
    ensures flow { IfOk result (λ turn. flow_of turn core.new
        ≡ sent_direct A.answers id place.now message.now flight.now core.old) }
    ensures grown { IsGrownFrom core.old core.new }
{
    let Some(target) = core.module_at(&place.path) else {
        return core.broken(alloc, id, RunFault::NoModule);
    };
    let can = can_enter(core, alloc, model, target, &place.name, place.index)?;
    if can {
        let name = place.name.text(alloc)?;
        let index = place.index;
        let gate = PlacedGate {
            id: target,
            name,
            index,
        };
        send_free(core, alloc, model, id, gate, message, flight)
    } else {
        core.broken(alloc, id, RunFault::NoGate)
    }
}
