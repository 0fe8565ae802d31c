//! An expression is evaluated until a value is needed, or until it has its own.

ghost use Rattle.std.specs.Prelude.{◌≡◌, ◌+◌, ◌≤◌, IfOk};
ghost use Rattle.param_eval.specs.Evaluating as evaluating;
ghost use Rattle.param_eval.specs.References.{reference_of};
ghost use Rattle.inside_keys.specs.Places.{meant_under};
ghost use Rattle.inside_run.specs.Runs.{Reaches, needs};

use crate::variables::Variables;
use inside_keys::key::Key;
use inside_keys::place::{ExpressionPlace, Meaning};
use inside_parts::fault::InsideError;
use param_eval::evaluation::{Evaluation, EvaluationStep};
use param_eval::names::Name;
use sim_values::NoMemory;
use sim_values::model_fault::ModelFault;
use sim_values::value::Value;
use sim_values::value_fault::ValueFault;
use std::alloc::Global;

/// What an expression has come to.
#[derive(Drop)]
pub enum Reached {
    Value(Value),
    /// It needs the value of this key.
    Key(Key),
}

/// What a reference means where an expression stands, under the loop variables in scope.
fn meaning<V: Variables>(
    alloc: Global,
    place: &ExpressionPlace,
    variables: &V,
    name: Name<'_>,
) -> Result<Meaning, NoMemory>
    ensures { IfOk result
        (λ m. m ≡ meant_under (V.scope variables.now) place.now (reference_of name.entry)) }
{
    if let Name::Own(x) = name {
        if let Some(number) = variables.value_of(x) {
            return Ok(Meaning::Is(Value::Whole(number)));
        }
    }
    place.meant(alloc, name)
}

/// Goes on with an expression until it has its value, or needs one.
pub fn reach<'m, V: Variables>(
    alloc: Global,
    place: &ExpressionPlace,
    variables: &V,
    evaluation: &mut Evaluation<'m>,
    turn: EvaluationStep<'m>,
) -> Result<Reached, InsideError>
    ensures reaches { Reaches (meant_under (V.scope variables.now) place.now) result evaluation.new
        (evaluating.came_to evaluation.old turn.entry) }
    ensures less { IfOk result (λ r. needs r + evaluating.left evaluation.new
        ≤ evaluating.asks turn.entry + evaluating.left evaluation.old) }
{
    let mut turn = turn;
    loop {
        turn = match turn {
            EvaluationStep::Done(value) => return Ok(Reached::Value(value)),
            EvaluationStep::Fault(fault) => return Err(InsideError::Fault(ModelFault::Value(
                fault,
            ))),
            EvaluationStep::Ask(name) => match meaning(alloc, place, variables, name)? {
                Meaning::Is(value) => evaluation.go_on(alloc, value)?,
                Meaning::Of(key) => return Ok(Reached::Key(key)),
                Meaning::Nothing => return Err(InsideError::Fault(ModelFault::Value(
                    ValueFault::Unassigned,
                ))),
            },
        };
    }
}
