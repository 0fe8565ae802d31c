//! All keys of a model, as an asker.

ghost use Rattle.std.specs.Prelude.{◌≡◌, ◌+◌, ◌≤◌, ℕ, IfOk};
ghost use Rattle.std.specs.Option.{option_copied};
ghost use Rattle.param_engine.specs.Turns.{came_to, asks};
ghost use Rattle.sim_values.specs.declared.model_fault.ModelFault.TheVariants as fault;
ghost use Rattle.sim_values.specs.declared.value_fault.ValueFault.TheVariants.{Circle};
ghost use Rattle.inside_keys.specs.Asked.{KeyAsking as asked_type};
ghost use Rattle.inside_keys.specs.Settings.{ModuleRules};
ghost use Rattle.inside_keys.specs.Values.{asking_of, body_by, body_or_none};
ghost use Rattle.inside_keys.specs.declared.found.Found.TheVariants as found_as;
ghost use Rattle.inside_run.specs.Going as going;
ghost use Rattle.inside_run.specs.Going.{Finds, Moves, goes_on};
ghost use Rattle.inside_run.specs.declared.progress.KeyProgress.TheVariants as waits;
ghost use Rattle.inside_run.specs.Same.{same_is};
ghost use Rattle.inside_run.specs.Weights.{Costs, around_weight, type_weight, weight};

use crate::channels::go_on_carrier;
use crate::inside::{carried_inside, go_on_inside, size_from};
use crate::keys::{asked_in, begin_type, with_body};
use crate::posed::go_on_posed;
use crate::progress::{KeyProgress, Moved};
use crate::reading::{held, sized};
use crate::scene::{ModuleSource, Stands, submodule_in};
use crate::types::{created_type, go_on_chosen, type_counted, type_held, type_in};
use inside_keys::found::{Found, Inside};
use inside_keys::key::{Key, Module, What};
use inside_parts::fault::InsideError;
use inside_walk::submodules::number;
use inside_wiring::wiring::Carrier;
use ned_trees::declarations::{Submodule, SubmoduleBody, TypeDeclaration};
use param_engine::asker::Asker;
use param_engine::turn::EngineStep;
use sim_values::NoMemory;
use sim_values::model_fault::ModelFault;
use sim_values::text::Text;
use sim_values::value::Value;
use sim_values::value_fault::ValueFault;
use std::alloc::Global;
use std::mem::replace;

/// All that has a value in a model.
#[derive(Clone, Copy)]
pub struct Keys<'m, S> {
    pub scene: &'m S,
}

/// A key that is being evaluated in a model.
#[derive(Drop)]
pub struct Going<'m, S> {
    pub scene: &'m S,
    pub progress: KeyProgress<'m>,
}

/// The same.
fn copied(alloc: Global, what: &What) -> Result<What, NoMemory>
    ensures { IfOk result (λ copy. copy ≡ what.now) }
{
    Ok(match what {
        What::Type => What::Type,
        What::Param(x) => What::Param(x.copy(alloc)?),
        What::Condition(sub) => What::Condition(sub.copy(alloc)?),
        What::VectorSize(sub) => What::VectorSize(sub.copy(alloc)?),
        What::Declared(g) => What::Declared(g.copy(alloc)?),
        What::GateSize(g) => What::GateSize(g.copy(alloc)?),
        What::Sizeof(g) => What::Sizeof(g.copy(alloc)?),
        What::Exists(sub) => What::Exists(sub.copy(alloc)?),
        What::ExistsAt(sub, index) => What::ExistsAt(sub.copy(alloc)?, *index),
        What::Member(sub, x) => What::Member(sub.copy(alloc)?, x.copy(alloc)?),
        What::Element(sub, index, x) => { What::Element(sub.copy(alloc)?, *index, x.copy(alloc)?) }
        What::Channel(channel, x) => What::Channel(channel.copy(alloc)?, x.copy(alloc)?),
        What::Carrier(channel) => What::Carrier(channel.copy(alloc)?),
        What::Joined => What::Joined,
        What::Inside => What::Inside,
    })
}

/// The type of that number.
fn type_found<'m, S: ModuleSource>(
    scene: &'m S,
    value: &Value,
) -> Result<(usize, &'m TypeDeclaration), InsideError>
    ensures { Finds (S.setting scene.now) result value.now }
{
    let number = number(value)?;
    match scene.types().get(number) {
        Some(declared) => Ok((number, declared)),
        None => Err(InsideError::Fault(ModelFault::UnknownType)),
    }
}

/// Goes on with the type of its module.
fn own_type<'m, S: ModuleSource>(
    alloc: Global,
    scene: &'m S,
    site: Module,
    what: What,
    value: &Value,
) -> Result<Moved<'m>, InsideError>
    ensures moves { Moves (S.setting scene.now) result
        (goes_on (S.setting scene.now) (waits.OwnType site what) (found_as.Value value.now)) }
    ensures costs { Costs (S.setting scene.now)
        (weight (S.setting scene.now) (waits.OwnType site what)) result }
{
    let (number, declared) = type_found(scene, value)?;
    asked_in(alloc, scene, site, what, number, declared, value)
}

/// Goes on with the type of the module around: the module's type is read off it.
fn type_around<'m, S: ModuleSource>(
    alloc: Global,
    scene: &'m S,
    site: &Module,
    around: &Module,
    name: &Text,
    value: &Value,
) -> Result<Moved<'m>, InsideError>
    ensures moves { Moves (S.setting scene.now) result (goes_on (S.setting scene.now)
        (waits.TypeAround site.now around.now name.now) (found_as.Value value.now)) }
    ensures costs { Costs (S.setting scene.now)
        (type_weight (S.setting scene.now) site.now name.now) result }
{
    let (number, declared) = type_found(scene, value)?;
    let submodule = submodule_in(scene, number, declared, name);
    type_in(alloc, scene, site, around, declared, submodule)
}

/// Goes on with the type of the module around: the type of a module that was created in it is
/// looked up there.
fn planned_around<'m, S: ModuleSource>(
    alloc: Global,
    scene: &'m S,
    name: &Text,
    value: &Value,
) -> Result<Moved<'m>, InsideError>
    ensures moves { Moves (S.setting scene.now) result
        (goes_on (S.setting scene.now) (waits.TypePlanned name.now) (found_as.Value value.now)) }
    ensures costs { Costs (S.setting scene.now) 0 result }
{
    let (_, around) = type_found(scene, value)?;
    created_type(alloc, scene, around, name)
}

/// What a submodule is given, if there is one.
fn body_in(submodule: Option<&Submodule>) -> Option<&SubmoduleBody>
    ensures { body_or_none (option_copied result) ≡ body_by (option_copied submodule.entry) }
{
    match submodule {
        Some(submodule) => Some(&submodule.body),
        None => None,
    }
}

/// Goes on with the type of the module around: what it says in the module's body counts.
fn body_around<'m, S: ModuleSource>(
    alloc: Global,
    scene: &'m S,
    site: &Module,
    what: &What,
    declared: &'m TypeDeclaration,
    name: &Text,
    value: &Value,
) -> Result<Moved<'m>, InsideError>
    ensures moves { Moves (S.setting scene.now) result (going.typed (S.setting scene.now)
        (going.body_in (S.setting scene.now) site.now what.now declared.now name.now)
        (found_as.Value value.now)) }
    ensures costs { Costs (S.setting scene.now)
        (around_weight (S.setting scene.now) site.now what.now declared.now name.now) result }
{
    let (number, around) = type_found(scene, value)?;
    let submodule = submodule_in(scene, number, around, name);
    with_body(alloc, scene, site, what, declared, body_in(submodule))
}

/// Goes on with the type of the module around: its inside is asked for.
fn inside_around<'m, S: ModuleSource>(
    alloc: Global,
    scene: &'m S,
    site: &Module,
    stands: Stands,
    gate: Text,
    value: &Value,
) -> Result<Moved<'m>, InsideError>
    ensures moves { Moves (S.setting scene.now) result (goes_on (S.setting scene.now)
        (waits.InsideAround site.now stands gate) (found_as.Value value.now)) }
    ensures costs { Costs (S.setting scene.now) 1 result }
{
    let (number, _) = type_found(scene, value)?;
    let Some(names) = scene.submodules(number) else {
        return Err(InsideError::Fault(ModelFault::UnknownType));
    };
    let key = site.key(alloc, What::Joined)?;
    Ok(Moved::Asks(key, KeyProgress::Joined(names, stands, gate)))
}

/// Goes on with a value.
fn on_value<'m, S: ModuleSource>(
    alloc: Global,
    scene: &'m S,
    progress: KeyProgress<'m>,
    value: &Value,
) -> Result<Moved<'m>, InsideError>
    ensures moves { Moves (S.setting scene.now) result
        (goes_on (S.setting scene.now) progress.entry (found_as.Value value.now)) }
    ensures costs { Costs (S.setting scene.now)
        (weight (S.setting scene.now) progress.entry) result }
{
    match progress {
        KeyProgress::OwnType(site, what) => own_type(alloc, scene, site, what, value),
        KeyProgress::TypeAround(site, around, name) => {
            type_around(alloc, scene, &site, &around, &name, value)
        }
        KeyProgress::TypeCondition(site, around, declared, submodule) => {
            type_held(alloc, scene, &site, &around, declared, submodule, value)
        }
        KeyProgress::TypeSize(site, around, declared, submodule) => {
            type_counted(alloc, scene, &site, &around, declared, submodule, value)
        }
        KeyProgress::TypePlanned(name) => planned_around(alloc, scene, &name, value),
        KeyProgress::BodyAround(site, what, declared, name) => {
            body_around(alloc, scene, &site, &what, declared, &name, value)
        }
        KeyProgress::InsideAround(site, stands, gate) => {
            inside_around(alloc, scene, &site, stands, gate, value)
        }
        KeyProgress::Joined(_, _, _) => Err(InsideError::Fault(ModelFault::NoGate)),
        KeyProgress::Condition(site, name, reading) => held(alloc, site, name, reading, value),
        KeyProgress::VectorSize(site, name, reading) => sized(alloc, site, name, reading, value),
        KeyProgress::Posed(posing) => go_on_posed(alloc, posing.into_inner(), value),
        KeyProgress::Chosen(choosing) => go_on_chosen(alloc, scene, choosing.into_inner(), value),
        KeyProgress::Carried(carrying) => go_on_carrier(alloc, carrying.into_inner(), value),
        KeyProgress::Inside(walking) => go_on_inside(alloc, walking.into_inner(), value),
        KeyProgress::Same | KeyProgress::Over => Ok(Moved::Done(Found::Value(value.copy(alloc)?))),
    }
}

/// Goes on with an inside.
fn on_inside<'m, S: ModuleSource>(
    scene: &'m S,
    progress: KeyProgress<'m>,
    inside: &Inside,
) -> Result<Moved<'m>, InsideError>
    ensures moves { Moves (S.setting scene.now) result
        (goes_on (S.setting scene.now) progress.entry (found_as.Inside inside.now)) }
    ensures costs { Costs (S.setting scene.now)
        (weight (S.setting scene.now) progress.entry) result }
{
    match progress {
        KeyProgress::Joined(names, stands, gate) => size_from(scene, names, &stands, &gate, inside),
        _ => Err(InsideError::Fault(ModelFault::Value(ValueFault::Mismatch))),
    }
}

/// Goes on with what a channel does.
fn on_carrier<'m, S: ModuleSource>(
    alloc: Global,
    _scene: &'m S,
    progress: KeyProgress<'m>,
    carrier: Carrier,
) -> Result<Moved<'m>, InsideError>
    ensures moves { Moves (S.setting _scene.now) result
        (goes_on (S.setting _scene.now) progress.entry (found_as.Carrier carrier)) }
    ensures costs { Costs (S.setting _scene.now)
        (weight (S.setting _scene.now) progress.entry) result }
{
    match progress {
        KeyProgress::Inside(walking) => carried_inside(alloc, walking.into_inner(), carrier),
        KeyProgress::Joined(_, _, _) => Err(InsideError::Fault(ModelFault::NoGate)),
        _ => Err(InsideError::Fault(ModelFault::Value(ValueFault::Mismatch))),
    }
}

/// Goes on with what it waits for.
fn proceed<'m, S: ModuleSource>(
    alloc: Global,
    scene: &'m S,
    progress: KeyProgress<'m>,
    found: &Found,
) -> Result<Moved<'m>, InsideError>
    ensures moves { Moves (S.setting scene.now) result
        (goes_on (S.setting scene.now) progress.entry found.now) }
    ensures costs { Costs (S.setting scene.now)
        (weight (S.setting scene.now) progress.entry) result }
{
    match found {
        Found::Value(value) => on_value(alloc, scene, progress, value),
        Found::Carrier(carrier) => on_carrier(alloc, scene, progress, *carrier),
        Found::Inside(inside) => on_inside(scene, progress, inside),
    }
}

/// Begins with a key.
fn begin<'m, S: ModuleSource>(
    alloc: Global,
    scene: &'m S,
    key: &Key,
) -> Result<Moved<'m>, InsideError>
    ensures { Moves (S.setting scene.now) result (asking_of (S.setting scene.now) key.now) }
{
    if let What::Type = key.what {
        return begin_type(alloc, scene, &key.site);
    }
    let what = copied(alloc, &key.what)?;
    let of_type = key.site.key(alloc, What::Type)?;
    Ok(Moved::Asks(of_type, KeyProgress::OwnType(key.site.copy(alloc)?, what)))
}

/// Where a key has come to, with how it goes on.
fn turned<'m>(
    moved: Result<Moved<'m>, InsideError>,
) -> Result<(KeyProgress<'m>, EngineStep<Key, Found, ModelFault>), NoMemory>
    ensures moves { (s : ModuleRules) (t : asked_type) → Moves s moved.entry t
        → IfOk result (λ turned. came_to (goes_on s turned.0) turned.1 ≡ t) }
    ensures costs { (s : ModuleRules) (n : ℕ) → Costs s n moved.entry
        → IfOk result (λ turned. asks turned.1 + weight s turned.0 ≤ n) }
{
    match moved {
        Ok(Moved::Asks(key, progress)) => Ok((progress, EngineStep::Ask(key))),
        Ok(Moved::Done(found)) => Ok((KeyProgress::Over, EngineStep::Done(found))),
        Err(InsideError::Fault(fault)) => Ok((KeyProgress::Over, EngineStep::Fault(fault))),
        Err(InsideError::Memory(e)) => Err(e),
    }
}

impl<'m, S: ModuleSource> Asker for Keys<'m, S> {
    type Key = Key;

    type Value = Found;

    type Fault = ModelFault;

    type Evaluation = Going<'m, S>;

    ghost asking = { λ keys. asking_of (S.setting keys.scene.now) };

    ghost circle = { λ keys. fault.Value Circle };

    ghost resumed = { λ keys evaluation.
        goes_on (S.setting evaluation.scene.now) evaluation.progress };

    ghost left = { λ evaluation. weight (S.setting evaluation.scene.now) evaluation.progress };

    fn circle(&self) -> ModelFault {
        ModelFault::Value(ValueFault::Circle)
    }

    fn start(
        &self,
        alloc: Global,
        key: &Key,
    ) -> Result<(Going<'m, S>, EngineStep<Key, Found, ModelFault>), NoMemory> {
        let scene = self.scene;
        let (progress, turn) = turned(begin(alloc, scene, key))?;
        Ok((Going { scene, progress }, turn))
    }

    fn go_on(
        &self,
        alloc: Global,
        evaluation: &mut Going<'m, S>,
        value: &Found,
    ) -> Result<EngineStep<Key, Found, ModelFault>, NoMemory> {
        let progress = replace(&mut evaluation.progress, KeyProgress::Over);
        let (progress, turn) = turned(proceed(alloc, evaluation.scene, progress, value))?;
        evaluation.progress = progress;
        Ok(turn)
    }

    ghost exact = { same_is };
}
