//! Loops and conditions.

ghost use Rattle.std.specs.Prelude.{◌≡◌, ◌+◌, ◌<◌, ◌≤◌, IfOk, List, pos, ◌+ℤ◌, ◌∷◌, ◌≤ℤ◌, ◌<ℤ◌};
ghost use Rattle.std.specs.Prelude.{MatchOption};
ghost use Rattle.std.specs.Bool.{MatchBool};
ghost use Rattle.inside_keys.specs.Inside as inside;
ghost use Rattle.inside_keys.specs.Places as places;
ghost use Rattle.inside_keys.specs.States as states;
ghost use Rattle.param_eval.specs.Evaluating.{weight_of};
ghost use Rattle.inside_walk.specs.Tasks.{Leads, body_of, continued, joined, next_of, scope_of};
ghost use Rattle.inside_walk.specs.Tasks.{wanted};
ghost use Rattle.inside_walk.specs.Weights.{Spends, of_next, of_clauses, of_connection, of_body};
ghost use Rattle.inside_walk.specs.Weights.{of_item, of_items, of_connection_lines, of_want};
ghost use Rattle.inside_walk.specs.Weights.{cost_of_next, cost_of_want, turns_of};
ghost use Rattle.inside_walk.specs.declared.task.Ground.{Ground as ground_type};
ghost use Rattle.inside_walk.specs.declared.task.Task.{Task as task_type};

use crate::task::{Body, Ground, Next, Side, Task, Want};
use inside_keys::found::State;
use inside_keys::key::WrittenAt;
use inside_parts::fault::InsideError;
use inside_parts::stack::Stack;
use ned_trees::connections::{Clause, ConnectionGroup, ConnectionItem, ConnectionLine};
use ned_trees::expressions::Expression;
use param_eval::evaluation::Evaluation;
use sim_values::NoMemory;
use sim_values::model_fault::ModelFault;
use sim_values::text::Text;
use std::alloc::Global;

/// Begins with an expression.
pub fn evaluate<'m>(
    alloc: Global,
    expression: &'m Expression,
    want: Want<'m>,
    state: State,
) -> Result<Next<'m>, NoMemory>
    ensures leads { IfOk result (λ next. (g : ground_type) (ts : List task_type) → next_of g ts next
        ≡ inside.evaluated g.place expression.now (scope_of ts)
        (λ v. wanted g want.entry v (scope_of ts) state (continued g ts))) }
    ensures weight { IfOk result (λ next. (g : ground_type)
        → of_next g next ≤ weight_of expression.now + of_want g want.entry) }
    ensures cost { IfOk result (λ next. cost_of_next next ≡ cost_of_want want.entry) }
    ensures turns { IfOk result (λ next. turns_of next ≡ state.turns) }
{
    let (evaluation, turn) = Evaluation::start(alloc, expression)?;
    Ok(Next::At(evaluation, turn, want, state))
}

/// Does the body, which all clauses let be done.
fn do_body<'m>(
    _ground: &Ground<'m>,
    tasks: &mut Stack<Task<'m>>,
    body: Body<'m>,
    state: State,
) -> Result<Next<'m>, InsideError>
    ensures leads { Leads _ground.now result tasks.new (body_of _ground.now body.entry
        (scope_of tasks.old) state (continued _ground.now tasks.old)) }
    ensures spends { Spends _ground.now (of_body body.entry + 1) (of_body body.entry) tasks.old
        state.turns result tasks.new }
{
    let task = match body {
        Body::Connections(connection_lines) => Task::Connections(connection_lines),
        Body::Connection(connection) => Task::End(connection, Side::Left),
    };
    tasks.push(task)?;
    Ok(Next::Go(state))
}

/// Begins with a clause, of which the body and these clauses are left.
fn clause<'m>(
    alloc: Global,
    clause: &'m Clause,
    rest: &'m [Clause],
    body: Body<'m>,
    state: State,
) -> Result<Next<'m>, NoMemory>
    ensures leads { IfOk result (λ next. (g : ground_type) (ts : List task_type) → next_of g ts next
        ≡ inside.looped g.place (clause.now ∷ rest.now) (body_of g body.entry) (scope_of ts) state
        (continued g ts)) }
    ensures weight { IfOk result (λ next. (g : ground_type)
        → of_next g next < of_clauses (clause.now ∷ rest.now) (of_body body.entry)) }
    ensures cost { IfOk result
        (λ next. cost_of_next next < of_clauses (clause.now ∷ rest.now) (of_body body.entry)) }
    ensures turns { IfOk result (λ next. turns_of next ≡ state.turns) }
{
    match clause {
        Clause::If(condition) => {
            let next = evaluate(alloc, condition, Want::If(rest, body), state)?;
            Ok(next)
        }
        Clause::For(repeat) => {
            let want = Want::First(&repeat.variable, &repeat.last, rest, body);
            let next = evaluate(alloc, &repeat.first, want, state)?;
            Ok(next)
        }
    }
}

/// Goes through the clauses around a body.
pub fn clauses<'m>(
    alloc: Global,
    ground: &Ground<'m>,
    tasks: &mut Stack<Task<'m>>,
    clauses: &'m [Clause],
    body: Body<'m>,
    state: State,
) -> Result<Next<'m>, InsideError>
    ensures leads { Leads ground.now
        result tasks.new (inside.looped ground.now.place clauses.now (body_of ground.now body.entry)
        (scope_of tasks.old) state (continued ground.now tasks.old)) }
    ensures spends { Spends ground.now (of_clauses clauses.now (of_body body.entry))
        (of_clauses clauses.now (of_body body.entry)) tasks.old state.turns result tasks.new }
{
    let Some((first, rest)) = clauses.split_first() else {
        return do_body(ground, tasks, body, state);
    };
    let next = clause(alloc, first, rest, body, state)?;
    Ok(next)
}

/// Whether a loop between these numbers has a turn.
fn has_turn(first: i64, last: i64) -> bool
    ensures { MatchBool result (first ≤ℤ last) (last <ℤ first) }
{
    first <= last
}

/// The number after this one, up to the last.
fn next_number(number: i64, last: i64) -> Option<i64>
    ensures { MatchOption result (last ≤ℤ number) (λ z. (number <ℤ last) × (z ≡ number +ℤ pos 1)) }
{
    if number < last {
        Some(number + 1)
    } else {
        None
    }
}

/// Makes the turns of a loop from a number to the last.
pub fn turns_from<'m>(
    _ground: &Ground<'m>,
    tasks: &mut Stack<Task<'m>>,
    variable: &'m Text,
    number: i64,
    last: i64,
    clauses: &'m [Clause],
    body: Body<'m>,
    state: State,
) -> Result<Next<'m>, InsideError>
    ensures leads { Leads _ground.now result tasks.new
        (inside.turns (inside.count number last) number
        (λ y t next. inside.looped _ground.now.place clauses.now (body_of _ground.now body.entry)
        (places.bind variable.now y (scope_of tasks.old)) t next)
        state (continued _ground.now tasks.old)) }
    ensures spends { Spends _ground.now 1 (of_clauses clauses.now (of_body body.entry) + 1)
        tasks.old state.turns result tasks.new }
{
    if !has_turn(number, last) {
        return Ok(Next::Go(state));
    }
    let State {
        parts,
        wiring,
        turns,
        written,
    } = state;
    if turns == 0 {
        return Err(InsideError::Fault(ModelFault::TooManyTurns));
    }
    tasks.push(Task::Turns(variable, number, last, clauses, body))?;
    tasks.push(Task::Clauses(clauses, body))?;
    Ok(Next::Go(State {
        parts,
        wiring,
        turns: turns - 1,
        written,
    }))
}

/// Goes on with a loop after a turn.
pub fn next_turn<'m>(
    ground: &Ground<'m>,
    tasks: &mut Stack<Task<'m>>,
    variable: &'m Text,
    number: i64,
    last: i64,
    clauses: &'m [Clause],
    body: Body<'m>,
    state: State,
) -> Result<Next<'m>, InsideError>
    ensures leads { Leads ground.now result tasks.new
        (inside.turns (inside.count (number +ℤ pos 1) last) (number +ℤ pos 1)
        (λ y t next. inside.looped ground.now.place clauses.now (body_of ground.now body.entry)
        (places.bind variable.now y (scope_of tasks.old)) t next)
        state (continued ground.now tasks.old)) }
    ensures spends { Spends ground.now 1 (of_clauses clauses.now (of_body body.entry) + 1) tasks.old
        state.turns result tasks.new }
{
    match next_number(number, last) {
        Some(number) => turns_from(ground, tasks, variable, number, last, clauses, body, state),
        None => Ok(Next::Go(state)),
    }
}

/// The connection of the item after which so many stand comes next.
fn at_line(state: State, behind: usize) -> State
    ensures { result ≡ states.at_line state behind }
{
    let State {
        parts,
        wiring,
        turns,
        written,
    } = state;
    let WrittenAt { items, lines: _ } = written;
    State {
        parts,
        wiring,
        turns,
        written: WrittenAt {
            items,
            lines: behind,
        },
    }
}

/// The item after which so many stand comes next.
fn at_item(state: State, behind: usize) -> State
    ensures { result ≡ states.at_item state behind }
{
    let State {
        parts,
        wiring,
        turns,
        written: _,
    } = state;
    State {
        parts,
        wiring,
        turns,
        written: WrittenAt {
            items: behind,
            lines: 0,
        },
    }
}

/// A connection, as what clauses stand around.
fn body_of_line<'m>(line: &'m ConnectionLine) -> Body<'m>
    ensures same { (g : ground_type) → body_of g result
        ≡ inside.connected g.place g.submodules.now g.gates.now (joined g) line.now.connection }
    ensures weight { of_body result ≡ of_connection line.now.connection }
{
    Body::Connection(&line.connection)
}

/// A connection with its clauses.
fn connection_line<'m>(
    alloc: Global,
    ground: &Ground<'m>,
    tasks: &mut Stack<Task<'m>>,
    line: &'m ConnectionLine,
    state: State,
) -> Result<Next<'m>, InsideError>
    ensures leads { Leads ground.now result tasks.new
        (inside.looped ground.now.place line.now.clauses (inside.connected ground.now.place
        ground.now.submodules.now ground.now.gates.now (joined ground.now) line.now.connection)
        (scope_of tasks.old) state (continued ground.now tasks.old)) }
    ensures spends { Spends ground.now
        (of_clauses line.now.clauses (of_connection line.now.connection))
        (of_clauses line.now.clauses (of_connection line.now.connection)) tasks.old state.turns
        result tasks.new }
{
    let body = body_of_line(line);
    clauses(alloc, ground, tasks, line.clauses.as_slice(), body, state)
}

/// Connections, each with its clauses.
pub fn connection_lines<'m>(
    alloc: Global,
    ground: &Ground<'m>,
    tasks: &mut Stack<Task<'m>>,
    lines: &'m [ConnectionLine],
    state: State,
) -> Result<Next<'m>, InsideError>
    ensures leads { Leads ground.now result tasks.new (inside.connection_lines ground.now.place
        ground.now.submodules.now ground.now.gates.now (joined ground.now) lines.now
        (scope_of tasks.old) state (continued ground.now tasks.old)) }
    ensures spends { Spends ground.now (of_connection_lines lines.now)
        (of_connection_lines lines.now) tasks.old state.turns result tasks.new }
{
    let Some((first, rest)) = lines.split_first() else {
        return Ok(Next::Go(state));
    };
    tasks.push(Task::Connections(rest))?;
    let behind = rest.len();
    let state = at_line(state, behind);
    connection_line(alloc, ground, tasks, first, state)
}

/// Connections that have clauses in common.
fn group<'m>(
    alloc: Global,
    ground: &Ground<'m>,
    tasks: &mut Stack<Task<'m>>,
    group: &'m ConnectionGroup,
    state: State,
) -> Result<Next<'m>, InsideError>
    ensures leads { Leads ground.now result tasks.new
        (inside.looped ground.now.place group.now.clauses (inside.connection_lines ground.now.place
        ground.now.submodules.now ground.now.gates.now (joined ground.now) group.now.lines)
        (scope_of tasks.old) state (continued ground.now tasks.old)) }
    ensures spends { Spends ground.now
        (of_clauses group.now.clauses (of_connection_lines group.now.lines))
        (of_clauses group.now.clauses (of_connection_lines group.now.lines)) tasks.old state.turns
        result tasks.new }
{
    let body = Body::Connections(group.lines.as_slice());
    clauses(alloc, ground, tasks, group.clauses.as_slice(), body, state)
}

/// An item of a connections section.
fn item<'m>(
    alloc: Global,
    ground: &Ground<'m>,
    tasks: &mut Stack<Task<'m>>,
    item: &'m ConnectionItem,
    state: State,
) -> Result<Next<'m>, InsideError>
    ensures leads { Leads ground.now result tasks.new (inside.item ground.now.place
        ground.now.submodules.now ground.now.gates.now (joined ground.now) item.now
        (scope_of tasks.old) state (continued ground.now tasks.old)) }
    ensures spends { Spends ground.now (of_item item.now) (of_item item.now) tasks.old state.turns
        result tasks.new }
{
    match item {
        ConnectionItem::Line(line) => connection_line(alloc, ground, tasks, line, state),
        ConnectionItem::Group(lines) => group(alloc, ground, tasks, lines, state),
    }
}

/// The items of a connections section.
pub fn items<'m>(
    alloc: Global,
    ground: &Ground<'m>,
    tasks: &mut Stack<Task<'m>>,
    items: &'m [ConnectionItem],
    state: State,
) -> Result<Next<'m>, InsideError>
    ensures leads { Leads ground.now result tasks.new (inside.items ground.now.place
        ground.now.submodules.now ground.now.gates.now (joined ground.now) items.now
        (scope_of tasks.old) state (continued ground.now tasks.old)) }
    ensures spends { Spends ground.now (of_items items.now) (of_items items.now) tasks.old
        state.turns result tasks.new }
{
    let Some((first, rest)) = items.split_first() else {
        return Ok(Next::Go(state));
    };
    tasks.push(Task::Items(rest))?;
    let behind = rest.len();
    let state = at_item(state, behind);
    item(alloc, ground, tasks, first, state)
}
