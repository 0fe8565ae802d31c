//! An expression that is being evaluated. It stops where it needs the value of a reference, and
//! goes on when it is given that value. What is still to be done lies on a list in memory, so no
//! native recursion goes as deep as an expression.

ghost use Rattle.std.specs.Prelude.{◌≡◌, ℕ, ◌+◌, ◌<◌, ◌≤◌, IfOk};
ghost use Rattle.param_eval.specs.Evaluating.{step_of, step_weight, valued_then, valued_with};
ghost use Rattle.param_eval.specs.Evaluating.{done_after, task_weight, weight, weight_of, kept};
ghost use Rattle.param_eval.specs.Evaluating.{ended, resumed, came_to, asks, left};
ghost use Rattle.param_eval.specs.Values.{valued, value_in};

use crate::names::{Name, Names};
use crate::operators::{Combination, combined, settled, signed};
use ned_trees::expressions::{Expression, Sign};
use sim_values::NoMemory;
use sim_values::text::Text;
use sim_values::value::Value;
use sim_values::value_fault::ValueFault;
use std::alloc::Global;

/// What is done with a value once it is there.
#[derive(Drop)]
pub enum Task<'m> {
    /// It is the left side: the right side comes next, where it is wanted.
    Right(Combination, &'m Expression),
    /// It is the right side, with this left side.
    Combine(Combination, Value),
    /// A sign stands before it.
    Sign(Sign),
    /// It decides which of the two is evaluated.
    Branch(&'m Expression, &'m Expression),
    /// It is the index of `sub[e].x`.
    Element(&'m Text, &'m Text),
    /// It is the index of `exists(sub[e])`.
    ExistsAt(&'m Text),
}

/// Where an evaluation has come to.
#[derive(Drop)]
pub enum EvaluationStep<'m> {
    /// It needs the value of a reference.
    Ask(Name<'m>),
    Done(Value),
    Fault(ValueFault),
}

/// What is done next.
#[derive(Drop)]
enum TaskStep<'m> {
    Evaluate(&'m Expression),
    Keep(Value),
    Ask(Name<'m>),
    Fault(ValueFault),
}

/// The value, or its fault.
fn kept<'m>(found: Result<Value, ValueFault>) -> TaskStep<'m>
    ensures { result ≡ kept found }
{
    match found {
        Ok(value) => TaskStep::Keep(value),
        Err(fault) => TaskStep::Fault(fault),
    }
}

/// The part that is evaluated first, with a task for the others.
fn enter_first<'m>(
    tasks: &mut Vec<Task<'m>>,
    first: &'m Expression,
    task: Task<'m>,
) -> Result<TaskStep<'m>, NoMemory>
    ensures step { IfOk result
        (λ step. step_of tasks.new.items step ≡ valued_with tasks.old.items task.entry first.now) }
    ensures weight { IfOk result (λ step. step_weight step + weight tasks.new.items
        ≡ weight_of first.now + task_weight task.entry + weight tasks.old.items) }
{
    tasks.push(task)?;
    Ok(TaskStep::Evaluate(first))
}

/// Goes into an expression.
fn enter<'m>(
    alloc: Global,
    tasks: &mut Vec<Task<'m>>,
    expression: &'m Expression,
) -> Result<TaskStep<'m>, NoMemory>
    ensures step { IfOk result
        (λ step. step_of tasks.new.items step ≡ valued_then tasks.old.items expression.now) }
    ensures weight { IfOk result (λ step. step_weight step + weight tasks.new.items
        < weight_of expression.now + weight tasks.old.items) }
{
    match expression {
        Expression::Literal(value) => Ok(TaskStep::Keep(value.copy(alloc)?)),
        Expression::Name(x) => Ok(TaskStep::Ask(Name::Own(x))),
        Expression::Scoped(scope, x) => Ok(TaskStep::Ask(Name::Scoped(*scope, x))),
        Expression::Member(sub, x) => Ok(TaskStep::Ask(Name::Member(sub, x))),
        Expression::Index | Expression::IndexCall => Ok(TaskStep::Ask(Name::Index)),
        Expression::ParentIndex => Ok(TaskStep::Ask(Name::ParentIndex)),
        Expression::Sizeof(x) => Ok(TaskStep::Ask(Name::Sizeof(x))),
        Expression::Exists(sub) => Ok(TaskStep::Ask(Name::Exists(sub))),
        Expression::Group(part) => Ok(TaskStep::Evaluate(part.get())),
        Expression::Element(sub, index, x) => {
            enter_first(tasks, index.get(), Task::Element(sub, x))
        }
        Expression::ExistsAt(sub, index) => enter_first(tasks, index.get(), Task::ExistsAt(sub)),
        Expression::Signed(sign, part) => enter_first(tasks, part.get(), Task::Sign(*sign)),
        Expression::Chosen(choice, left, right) => {
            let task = Task::Right(Combination::Choice(*choice), right.get());
            enter_first(tasks, left.get(), task)
        }
        Expression::Binary(operator, left, right) => {
            let task = Task::Right(Combination::Operator(*operator), right.get());
            enter_first(tasks, left.get(), task)
        }
        Expression::Conditional(condition, yes, no) => {
            enter_first(tasks, condition.get(), Task::Branch(yes.get(), no.get()))
        }
    }
}

/// What the left side comes to: it decides, or the right side comes next.
fn go_right<'m>(
    tasks: &mut Vec<Task<'m>>,
    combination: Combination,
    left: Value,
    right: &'m Expression,
) -> Result<TaskStep<'m>, NoMemory>
    ensures step { IfOk result (λ step. step_of tasks.new.items step
        ≡ done_after (Task.Right combination right.entry) left tasks.old.items) }
    ensures weight { IfOk result (λ step. step_weight step + weight tasks.new.items
        < weight_of right.now + 2 + weight tasks.old.items) }
{
    if let Some(found) = settled(combination, &left) {
        return Ok(kept(found));
    }
    enter_first(tasks, right, Task::Combine(combination, left))
}

/// Does a task with the value that it waits for.
fn apply<'m>(
    alloc: Global,
    tasks: &mut Vec<Task<'m>>,
    task: Task<'m>,
    value: Value,
) -> Result<TaskStep<'m>, NoMemory>
    ensures step { IfOk result
        (λ step. step_of tasks.new.items step ≡ done_after task.entry value tasks.old.items) }
    ensures weight { IfOk result (λ step. step_weight step + weight tasks.new.items
        < task_weight task.entry + weight tasks.old.items) }
{
    match task {
        Task::Right(combination, right) => go_right(tasks, combination, value, right),
        Task::Combine(combination, left) => {
            Ok(kept(combined(alloc, combination, &left, &value)?))
        }
        Task::Sign(sign) => Ok(kept(signed(sign, &value))),
        Task::Branch(yes, no) => Ok(match value {
            Value::Truth(true) => TaskStep::Evaluate(yes),
            Value::Truth(false) => TaskStep::Evaluate(no),
            _ => TaskStep::Fault(ValueFault::Mismatch),
        }),
        Task::Element(sub, x) => Ok(match value {
            Value::Whole(index) => TaskStep::Ask(Name::Element(sub, index, x)),
            _ => TaskStep::Fault(ValueFault::Mismatch),
        }),
        Task::ExistsAt(sub) => Ok(match value {
            Value::Whole(index) => TaskStep::Ask(Name::ExistsAt(sub, index)),
            _ => TaskStep::Fault(ValueFault::Mismatch),
        }),
    }
}

/// Goes on until the value of a reference is needed, or all is done.
fn run<'m>(
    alloc: Global,
    tasks: &mut Vec<Task<'m>>,
    step: TaskStep<'m>,
) -> Result<EvaluationStep<'m>, NoMemory>
    ensures end { IfOk result
        (λ end. ended tasks.new.items end ≡ step_of tasks.old.items step.entry) }
    ensures weight { IfOk result (λ end. asks end + weight tasks.new.items
        ≤ step_weight step.entry + weight tasks.old.items) }
{
    let mut step = step;
    loop {
        step = match step {
            TaskStep::Evaluate(expression) => enter(alloc, tasks, expression)?,
            TaskStep::Keep(value) => match tasks.pop() {
                Some(task) => apply(alloc, tasks, task, value)?,
                None => return Ok(EvaluationStep::Done(value)),
            },
            TaskStep::Ask(name) => return Ok(EvaluationStep::Ask(name)),
            TaskStep::Fault(fault) => return Ok(EvaluationStep::Fault(fault)),
        };
    }
}

/// An expression whose value is being found.
#[derive(Drop)]
pub struct Evaluation<'m> {
    tasks: Vec<Task<'m>>,
}

impl<'m> Evaluation<'m> {
    /// Begins with an expression.
    pub fn start(
        alloc: Global,
        expression: &'m Expression,
    ) -> Result<(Evaluation<'m>, EvaluationStep<'m>), NoMemory>
        ensures turn { IfOk result (λ begun. came_to begun.0 begun.1 ≡ valued expression.now) }
        ensures few { IfOk result
            (λ begun. asks begun.1 + left begun.0 ≤ weight_of expression.now) }
    {
        let mut tasks = Vec::new(alloc);
        let turn = run(alloc, &mut tasks, TaskStep::Evaluate(expression))?;
        Ok((Evaluation { tasks }, turn))
    }

    /// Goes on with the value of the reference that it asked for.
    pub fn go_on(&mut self, alloc: Global, value: Value) -> Result<EvaluationStep<'m>, NoMemory>
        ensures turn { IfOk result (λ turn. came_to self.new turn ≡ resumed self.old value) }
        // It doesn't ask without end.
        ensures less { IfOk result (λ turn. asks turn + left self.new ≤ left self.old) }
    {
        run(alloc, &mut self.tasks, TaskStep::Keep(value))
    }
}

/// The value of an expression where these know its references, or the first fault.
pub fn evaluate<N: Names>(
    alloc: Global,
    expression: &Expression,
    names: &N,
) -> Result<Result<Value, ValueFault>, NoMemory>
    ensures { IfOk result (λ found. found ≡ value_in (N.meaning names.now) expression.now) }
{
    let (mut evaluation, mut turn) = Evaluation::start(alloc, expression)?;
    loop {
        turn = match turn {
            EvaluationStep::Done(value) => return Ok(Ok(value)),
            EvaluationStep::Fault(fault) => return Ok(Err(fault)),
            EvaluationStep::Ask(name) => match names.value_of(alloc, name)? {
                Ok(value) => evaluation.go_on(alloc, value)?,
                Err(fault) => return Ok(Err(fault)),
            },
        };
    }
}
