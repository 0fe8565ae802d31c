//! An inside is built until a value is needed, or until it is there.

ghost use Rattle.std.specs.Prelude.{◌≡◌, ◌<◌, ◌≤◌, ℕ, List, [], IfOk, Ok};
ghost use Rattle.param_following.specs.Asking.{Done};
ghost use Rattle.inside_keys.specs.Asked.{KeyAsking as asked_type};
ghost use Rattle.inside_keys.specs.Inside as inside;
ghost use Rattle.inside_run.specs.Runs.{AsksWithin, Comes, IsWithin, begun_load, load, load_of};
ghost use Rattle.inside_walk.specs.Tasks.{Halts, Leads, after, continued, done_with, halted};
ghost use Rattle.inside_walk.specs.Tasks.{next_of, scope_of, wanted};
ghost use Rattle.inside_walk.specs.declared.task.Ground.{Ground as ground_type};
ghost use Rattle.inside_walk.specs.declared.task.Task.{Task as task_type};
ghost use Rattle.inside_keys.specs.declared.found.Found.TheVariants as As;
ghost use Rattle.inside_walk.specs.declared.task.Doing.TheVariants as For;
ghost use Rattle.inside_walk.specs.declared.task.Next.TheVariants as Steps;
ghost use Rattle.inside_walk.specs.declared.task.Want.TheVariants as On;
ghost use Rattle.inside_walk.specs.Weights.{Spends, of_task, of_want, cost_of_task, cost_of_want};

use crate::reach::{Reached, reach};
use inside_keys::found::{Found, Inside, State};
use inside_keys::key::WrittenAt;
use inside_parts::fault::InsideError;
use inside_parts::parts::{Part, Parts};
use inside_parts::stack::Stack;
use inside_walk::ends::{at, end, part};
use inside_walk::joins::carried;
use inside_walk::loops::{clauses, connection_lines, evaluate, items, next_turn, turns_from};
use inside_walk::submodules::{
    elements, gates, gates_of, misplaced, parameters, submodules, waited,
};
use inside_walk::task::{Body, Doing, Ground, Halt, Next, Sort, Task, Want};
use inside_wiring::ends::part_named;
use inside_wiring::wiring::{Carrier, Wiring};
use ned_trees::connections::Clause;
use ned_trees::declarations::TypeDeclaration;
use param_eval::evaluation::{Evaluation, EvaluationStep};
use sim_values::NoMemory;
use sim_values::model_fault::ModelFault;
use sim_values::value::Value;
use sim_values::value_fault::ValueFault;
use sqlite_items::{Boxed, Items};
use std::alloc::Global;

/// Does the task that was on top.
fn step<'m>(
    alloc: Global,
    ground: &Ground<'m>,
    tasks: &mut Stack<Task<'m>>,
    task: Task<'m>,
    state: State,
) -> Result<Next<'m>, InsideError>
    ensures leads { Leads ground.now result tasks.new
        (after ground.now task.entry (scope_of tasks.old) state (continued ground.now tasks.old)) }
    ensures spends { Spends ground.now (of_task ground.now task.entry) (cost_of_task task.entry)
        tasks.old state.turns result tasks.new }
{
    match task {
        Task::Parameters(holder, names) => parameters(alloc, ground, tasks, holder, names, state),
        Task::Gates(holder, sort, list) => gates(alloc, ground, tasks, holder, sort, list, state),
        Task::Misplaced(holder, name) => misplaced(alloc, ground, tasks, holder, name, state),
        Task::Elements(line, left, all) => elements(alloc, ground, tasks, line, left, all, state),
        Task::Submodules(list) => submodules(alloc, ground, tasks, list, state),
        Task::Items(list) => items(alloc, ground, tasks, list, state),
        Task::Connections(list) => connection_lines(alloc, ground, tasks, list, state),
        Task::Clauses(list, body) => clauses(alloc, ground, tasks, list, body, state),
        Task::Turns(variable, number, last, list, body) => {
            next_turn(ground, tasks, variable, number, last, list, body, state)
        }
        Task::End(connection, side) => end(alloc, ground, tasks, connection, side, state),
    }
}

/// Does what the value of an expression is for, where that is a whole number.
fn wanted_number<'m>(
    alloc: Global,
    ground: &Ground<'m>,
    tasks: &mut Stack<Task<'m>>,
    want: Want<'m>,
    number: i64,
    state: State,
) -> Result<Next<'m>, InsideError>
    ensures leads { Leads ground.now result tasks.new (wanted ground.now want.entry
        (Value.Whole number) (scope_of tasks.old) state (continued ground.now tasks.old)) }
    ensures spends { Spends ground.now (of_want ground.now want.entry) (cost_of_want want.entry)
        tasks.old state.turns result tasks.new }
{
    match want {
        Want::If(_, _) => Err(InsideError::Fault(ModelFault::Value(ValueFault::Mismatch))),
        Want::First(variable, last, list, body) => {
            let want = Want::Last(variable, number, list, body);
            Ok(evaluate(alloc, last, want, state)?)
        }
        Want::Last(variable, first, list, body) => {
            turns_from(ground, tasks, variable, first, number, list, body, state)
        }
        Want::Part(connection, side, name) => {
            let named = part_named(ground.submodules, &state.parts, name, Some(number))?;
            part(alloc, ground, tasks, connection, side, named, state)
        }
        Want::Index(connection, side, gate) => {
            at(alloc, ground, tasks, connection, side, gate, number, state)
        }
    }
}

/// Does the rest of a condition, or not.
fn decided<'m>(
    alloc: Global,
    ground: &Ground<'m>,
    tasks: &mut Stack<Task<'m>>,
    list: &'m [Clause],
    body: Body<'m>,
    holds: bool,
    state: State,
) -> Result<Next<'m>, InsideError>
    ensures leads { Leads ground.now result tasks.new
        (wanted ground.now (On.If list.entry body.entry) (Value.Truth holds) (scope_of tasks.old)
        state (continued ground.now tasks.old)) }
    ensures spends { Spends ground.now (of_want ground.now (On.If list.entry body.entry))
        (cost_of_want (On.If list.entry body.entry)) tasks.old state.turns result tasks.new }
{
    if holds {
        clauses(alloc, ground, tasks, list, body, state)
    } else {
        Ok(Next::Go(state))
    }
}

/// Does what the value of an expression is for, where that is a truth value.
fn wanted_truth<'m>(
    alloc: Global,
    ground: &Ground<'m>,
    tasks: &mut Stack<Task<'m>>,
    want: Want<'m>,
    holds: bool,
    state: State,
) -> Result<Next<'m>, InsideError>
    ensures leads { Leads ground.now result tasks.new (wanted ground.now want.entry
        (Value.Truth holds) (scope_of tasks.old) state (continued ground.now tasks.old)) }
    ensures spends { Spends ground.now (of_want ground.now want.entry) (cost_of_want want.entry)
        tasks.old state.turns result tasks.new }
{
    match want {
        Want::If(list, body) => decided(alloc, ground, tasks, list, body, holds, state),
        _ => Err(InsideError::Fault(ModelFault::Value(ValueFault::Mismatch))),
    }
}

/// Does what the value of an expression is for.
fn wanted<'m>(
    alloc: Global,
    ground: &Ground<'m>,
    tasks: &mut Stack<Task<'m>>,
    want: Want<'m>,
    value: Value,
    state: State,
) -> Result<Next<'m>, InsideError>
    ensures leads { Leads ground.now result tasks.new (wanted ground.now want.entry value
        (scope_of tasks.old) state (continued ground.now tasks.old)) }
    ensures spends { Spends ground.now (of_want ground.now want.entry) (cost_of_want want.entry)
        tasks.old state.turns result tasks.new }
{
    match value {
        Value::Whole(number) => wanted_number(alloc, ground, tasks, want, number, state),
        Value::Truth(holds) => wanted_truth(alloc, ground, tasks, want, holds, state),
        _ => Err(InsideError::Fault(ModelFault::Value(ValueFault::Mismatch))),
    }
}

/// The inside, once nothing is left to be done.
fn made(state: State) -> Found
    ensures { Done (Ok result) ≡ inside.made_of state }
{
    let State {
        parts,
        wiring,
        turns: _,
        written: _,
    } = state;
    Found::Inside(Inside { parts, wiring })
}

/// Where one step has come to.
#[derive(Drop)]
pub enum Came<'m> {
    /// More is to be done.
    Next(Next<'m>),
    /// A value is needed, or the inside is there.
    Halt(Boxed<Halt<'m>>),
}

/// It stops there.
fn stopped<'m>(alloc: Global, halt: Halt<'m>) -> Result<Came<'m>, InsideError>
    ensures comes { (g : ground_type) (ts : List task_type) (t : asked_type)
        → halted g ts halt.entry ≡ t → Comes g result ts t }
    ensures within { (g : ground_type) (ts : List task_type) (n : ℕ) → AsksWithin g n ts halt.entry
        → IfOk result (λ c. IsWithin g n ts c) }
{
    Ok(Came::Halt(Boxed::new(alloc, halt)?))
}

/// More is to be done.
fn led<'m>(next: Result<Next<'m>, InsideError>) -> Result<Came<'m>, InsideError>
    ensures comes { (g : ground_type) (ts : List task_type) (t : asked_type)
        → Leads g next.entry ts t → Comes g result ts t }
    ensures within { (g : ground_type) (ts : List task_type) (n : ℕ)
        → IfOk next.entry (λ m. load g m ts < n) → IfOk result (λ c. IsWithin g n ts c) }
{
    match next {
        Ok(next) => Ok(Came::Next(next)),
        Err(stop) => Err(stop),
    }
}

/// Goes on with an expression, and does what its value is for.
fn expressed<'m>(
    alloc: Global,
    ground: &Ground<'m>,
    tasks: &mut Stack<Task<'m>>,
    evaluation: Evaluation<'m>,
    turn: EvaluationStep<'m>,
    want: Want<'m>,
    state: State,
) -> Result<Came<'m>, InsideError>
    ensures comes { Comes ground.now result tasks.new
        (next_of ground.now tasks.old (Steps.At evaluation.entry turn.entry want.entry state)) }
    ensures within { IfOk result (λ c. IsWithin ground.now (load ground.now
        (Steps.At evaluation.entry turn.entry want.entry state) tasks.old) tasks.new c) }
{
    let mut evaluation = evaluation;
    match reach(alloc, &ground.place, tasks, &mut evaluation, turn) {
        Ok(Reached::Value(value)) => led(wanted(alloc, ground, tasks, want, value, state)),
        Ok(Reached::Key(key)) => {
            let doing = Doing::Expression(evaluation, want);
            stopped(alloc, Halt::Asks(key, doing, state))
        }
        Err(stop) => Err(stop),
    }
}

/// Does the next task, if there is one.
fn worked<'m>(
    alloc: Global,
    ground: &Ground<'m>,
    tasks: &mut Stack<Task<'m>>,
    state: State,
) -> Result<Came<'m>, InsideError>
    ensures comes { Comes ground.now result tasks.new
        (next_of ground.now tasks.old (Steps.Go state)) }
    ensures within { IfOk result
        (λ c. IsWithin ground.now (load ground.now (Steps.Go state) tasks.old) tasks.new c) }
{
    match tasks.pop() {
        Some(task) => led(step(alloc, ground, tasks, task, state)),
        None => stopped(alloc, Halt::Done(made(state))),
    }
}

/// Does one step.
fn moved<'m>(
    alloc: Global,
    ground: &Ground<'m>,
    tasks: &mut Stack<Task<'m>>,
    next: Next<'m>,
) -> Result<Came<'m>, InsideError>
    ensures comes { Comes ground.now result tasks.new (next_of ground.now tasks.old next.entry) }
    ensures within { IfOk result
        (λ c. IsWithin ground.now (load ground.now next.entry tasks.old) tasks.new c) }
{
    match next {
        Next::Ask(key, wait, state) => stopped(alloc, Halt::Asks(key, Doing::Key(wait), state)),
        Next::Carry(key, carry, state) => {
            stopped(alloc, Halt::Asks(key, Doing::Carrier(carry), state))
        }
        Next::At(evaluation, turn, want, state) => {
            expressed(alloc, ground, tasks, evaluation, turn, want, state)
        }
        Next::Go(state) => worked(alloc, ground, tasks, state),
    }
}

/// Goes on until a value is needed, or the inside is there.
pub fn run<'m>(
    alloc: Global,
    ground: &Ground<'m>,
    tasks: &mut Stack<Task<'m>>,
    next: Next<'m>,
) -> Result<Halt<'m>, InsideError>
    ensures halts { Halts ground.now result tasks.new (next_of ground.now tasks.old next.entry) }
    ensures within { IfOk result
        (λ h. AsksWithin ground.now (load ground.now next.entry tasks.old) tasks.new h) }
{
    let mut next = next;
    loop {
        match moved(alloc, ground, tasks, next)? {
            Came::Next(found) => next = found,
            Came::Halt(halt) => return Ok(halt.into_inner()),
        }
    }
}

/// The inside before anything is made, of a module of the type of that number.
fn begun(alloc: Global, number: usize) -> Result<State, NoMemory>
    ensures { IfOk result (λ s. s ≡ inside.own_part number) }
{
    let mut parts = Items::new(alloc);
    parts.push(Part {
        first: 0,
        of_type: number,
        is_own: true,
        line: 0,
        index: None,
    })?;
    Ok(State {
        parts: Parts {
            made: Items::new(alloc),
            parts,
        },
        wiring: Boxed::new(alloc, Wiring::new(alloc, Vec::new(alloc)))?,
        turns: 1_000_000,
        written: WrittenAt { items: 0, lines: 0 },
    })
}

/// Begins with the inside of a compound module of a type, which has that number, on an empty stack.
pub fn start<'m>(
    alloc: Global,
    ground: &Ground<'m>,
    tasks: &mut Stack<Task<'m>>,
    number: usize,
    declared: &'m TypeDeclaration,
) -> Result<Halt<'m>, InsideError>
    requires none { tasks.old ≡ [] }
    requires names { ground.now.submodules.now ≡ inside.submodule_names declared.now }
    ensures halts { Halts ground.now result tasks.new
        (inside.inside ground.now.site ground.now.types.now ground.now.gates.now ground.now.is_whole
        ground.now.place number declared.now) }
    ensures within { IfOk result
        (λ h. AsksWithin ground.now (begun_load ground.now declared.now) tasks.new h) }
{
    let site = ground.site.copy(alloc)?;
    let gates = gates_of(ground.gates, number);
    tasks.push(Task::Items(declared.connections.items.as_slice()))?;
    tasks.push(Task::Submodules(declared.submodules.as_slice()))?;
    tasks.push(Task::Gates(site, Sort::Own, gates))?;
    let state = begun(alloc, number)?;
    run(alloc, ground, tasks, Next::Go(state))
}

/// Goes on with an expression.
fn resume_expression<'m>(
    alloc: Global,
    _ground: &Ground<'m>,
    _tasks: &mut Stack<Task<'m>>,
    evaluation: Evaluation<'m>,
    want: Want<'m>,
    state: State,
    value: &Value,
) -> Result<Next<'m>, InsideError>
    ensures leads { Leads _ground.now result _tasks.new (done_with _ground.now
        (For.Expression evaluation.entry want.entry) _tasks.old state (As.Value value.now)) }
    ensures within { IfOk result (λ n. load _ground.now n _tasks.new
        ≤ load_of _ground.now (For.Expression evaluation.entry want.entry) _tasks.old state) }
{
    let mut evaluation = evaluation;
    let turn = evaluation.go_on(alloc, value.copy(alloc)?)?;
    Ok(Next::At(evaluation, turn, want, state))
}

/// Does what the value is for that was asked for.
fn resume<'m>(
    alloc: Global,
    ground: &Ground<'m>,
    tasks: &mut Stack<Task<'m>>,
    doing: Doing<'m>,
    state: State,
    value: &Value,
) -> Result<Next<'m>, InsideError>
    ensures leads { Leads ground.now result tasks.new
        (done_with ground.now doing.entry tasks.old state (As.Value value.now)) }
    ensures within { IfOk result
        (λ n. load ground.now n tasks.new ≤ load_of ground.now doing.entry tasks.old state) }
{
    match doing {
        Doing::Key(wait) => waited(alloc, ground, tasks, wait, value, state),
        Doing::Expression(evaluation, want) => {
            resume_expression(alloc, ground, tasks, evaluation, want, state, value)
        }
        Doing::Carrier(_) => Err(InsideError::Fault(ModelFault::Value(ValueFault::Mismatch))),
    }
}

/// Goes on with the value that was asked for.
pub fn go_on<'m>(
    alloc: Global,
    ground: &Ground<'m>,
    tasks: &mut Stack<Task<'m>>,
    doing: Doing<'m>,
    state: State,
    value: &Value,
) -> Result<Halt<'m>, InsideError>
    ensures halts { Halts ground.now result tasks.new
        (done_with ground.now doing.entry tasks.old state (As.Value value.now)) }
    // It doesn't ask without end.
    ensures less { IfOk result
        (λ h. AsksWithin ground.now (load_of ground.now doing.entry tasks.old state) tasks.new h) }
{
    let next = resume(alloc, ground, tasks, doing, state, value)?;
    run(alloc, ground, tasks, next)
}

/// Does what it is for what a channel does.
fn resume_carrier<'m>(
    alloc: Global,
    ground: &Ground<'m>,
    tasks: &mut Stack<Task<'m>>,
    doing: Doing<'m>,
    state: State,
    carrier: Carrier,
) -> Result<Next<'m>, InsideError>
    ensures leads { Leads ground.now result tasks.new
        (done_with ground.now doing.entry tasks.old state (As.Carrier carrier)) }
    ensures within { IfOk result
        (λ n. load ground.now n tasks.new ≤ load_of ground.now doing.entry tasks.old state) }
{
    match doing {
        Doing::Carrier(carry) => carried(alloc, ground, tasks, carry, carrier, state),
        Doing::Key(_) => Err(InsideError::Fault(ModelFault::Value(ValueFault::Mismatch))),
        Doing::Expression(_, _) => Err(InsideError::Fault(ModelFault::Value(ValueFault::Mismatch))),
    }
}

/// Goes on with what a channel does, where that was asked for.
pub fn go_on_carrier<'m>(
    alloc: Global,
    ground: &Ground<'m>,
    tasks: &mut Stack<Task<'m>>,
    doing: Doing<'m>,
    state: State,
    carrier: Carrier,
) -> Result<Halt<'m>, InsideError>
    ensures halts { Halts ground.now result tasks.new
        (done_with ground.now doing.entry tasks.old state (As.Carrier carrier)) }
    ensures less { IfOk result
        (λ h. AsksWithin ground.now (load_of ground.now doing.entry tasks.old state) tasks.new h) }
{
    let next = resume_carrier(alloc, ground, tasks, doing, state, carrier)?;
    run(alloc, ground, tasks, next)
}
