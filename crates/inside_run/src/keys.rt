//! What each key asks of a module whose type is known.

ghost use Rattle.std.specs.Prelude.{◌≡◌, ◌+◌, ◌<◌, ◌^◌, pos, IfOk, IfSome, Some, slice_get};
ghost use Rattle.std.specs.Option.{option_copied};
ghost use Rattle.inside_parts.specs.Gates as type_gates;
ghost use Rattle.ned_types.specs.Flat.{submodule_named};
ghost use Rattle.sim_values.specs.declared.value.Value.TheVariants as value_as;
ghost use Rattle.inside_keys.specs.Given.{condition_posed, gate_size_posed, has_vector};
ghost use Rattle.inside_keys.specs.Given.{parameter_posed, vector_size_posed};
ghost use Rattle.inside_keys.specs.Settings.{ModuleRules, declarer, declarer_of};
ghost use Rattle.inside_keys.specs.Values as values;
ghost use Rattle.inside_run.specs.Going as going;
ghost use Rattle.inside_run.specs.Going.{Moves, bodied};
ghost use Rattle.inside_run.specs.Scenes.{standing_by};
ghost use Rattle.inside_run.specs.Weights.{Costs, around_weight, body_weight, posed_weight};
ghost use Rattle.inside_run.specs.Weights.{typed_weight};

use crate::channels::{begin_carrier, begin_channel};
use crate::inside::begin_inside;
use crate::posed::{begin_posed, condition, gate_size, parameter, vector_size};
use crate::progress::{KeyProgress, Moved, Reading};
use crate::reading::read;
use crate::scene::{ModuleSource, Stands, submodule_in};
use inside_keys::found::Found;
use inside_keys::key::{Module, What};
use inside_keys::planned::Planned;
use inside_keys::sizes::has_vector;
use inside_parts::fault::InsideError;
use inside_parts::gates::gates_of;
use ned_trees::declarations::{SubmoduleBody, TypeDeclaration};
use sim_values::NoMemory;
use sim_values::model_fault::ModelFault;
use sim_values::text::Text;
use sim_values::value::Value;
use sim_values::value_fault::ValueFault;
use std::alloc::Global;

/// Whether a type has a gate vector of that name.
fn is_gate_vector(alloc: Global, declared: &TypeDeclaration, name: &Text) -> Result<bool, NoMemory>
    ensures { IfOk result
        (λ found. found ≡ has_vector (type_gates.gates_of declared.now.gates) name.now) }
{
    let gates = gates_of(alloc, declared.gates.as_slice())?;
    Ok(has_vector(&gates, name))
}

/// The module whose type declares what stands there.
fn declarer_of(stands: &Stands) -> Option<&Module>
    ensures { option_copied result ≡ declarer_of (standing_by stands.now) }
{
    if stands.is_declared {
        stands.around.as_ref()
    } else {
        None
    }
}

/// A declared size: a vector whose size is given nowhere has none.
fn declared_size<'m, S: ModuleSource>(
    alloc: Global,
    scene: &'m S,
    site: &Module,
    name: &Text,
    declared: &'m TypeDeclaration,
    body: Option<&'m SubmoduleBody>,
) -> Result<Moved<'m>, InsideError>
    ensures moves { Moves (S.setting scene.now) result
        (values.sized_or_open (S.setting scene.now) (gate_size_posed (S.setting scene.now) site.now
        declared.now (values.body_or_none (option_copied body.entry)) name.now)) }
    ensures costs { Costs (S.setting scene.now)
        (posed_weight (gate_size_posed (S.setting scene.now) site.now declared.now
        (values.body_or_none (option_copied body.entry)) name.now)) result }
{
    match gate_size(alloc, scene, site, name, declared, body)? {
        Some(posed) => begin_posed(alloc, Some(posed)),
        None => Ok(Moved::Done(Found::Value(Value::Whole(0)))),
    }
}

/// The declared size of a gate of a module of that type, which is given that body.
fn declared_gate<'m, S: ModuleSource>(
    alloc: Global,
    scene: &'m S,
    site: &Module,
    name: &Text,
    declared: &'m TypeDeclaration,
    body: Option<&'m SubmoduleBody>,
) -> Result<Moved<'m>, InsideError>
    ensures moves { Moves (S.setting scene.now) result (values.declared_asking (S.setting scene.now)
        site.now declared.now name.now (values.body_or_none (option_copied body.entry))) }
    ensures costs { Costs (S.setting scene.now)
        (posed_weight (gate_size_posed (S.setting scene.now) site.now declared.now
        (values.body_or_none (option_copied body.entry)) name.now)) result }
{
    if !is_gate_vector(alloc, declared, name)? {
        return Err(InsideError::Fault(ModelFault::NoGate));
    }
    declared_size(alloc, scene, site, name, declared, body)
}

/// A parameter of a module of that type, which is given that body.
fn parameter_of<'m, S: ModuleSource>(
    alloc: Global,
    scene: &'m S,
    site: &Module,
    name: &Text,
    declared: &'m TypeDeclaration,
    body: Option<&'m SubmoduleBody>,
) -> Result<Moved<'m>, InsideError>
    ensures moves { Moves (S.setting scene.now)
        result (values.posed_asking (parameter_posed (S.setting scene.now) site.now declared.now
        (values.body_or_none (option_copied body.entry)) name.now)) }
    ensures costs { Costs (S.setting scene.now)
        (posed_weight (parameter_posed (S.setting scene.now) site.now declared.now
        (values.body_or_none (option_copied body.entry)) name.now)) result }
{
    let posed = parameter(alloc, scene, site, name, declared, body)?;
    begin_posed(alloc, posed)
}

/// A parameter or a declared size of a module of that type, which is given that body.
pub fn with_body<'m, S: ModuleSource>(
    alloc: Global,
    scene: &'m S,
    site: &Module,
    what: &What,
    declared: &'m TypeDeclaration,
    body: Option<&'m SubmoduleBody>,
) -> Result<Moved<'m>, InsideError>
    ensures moves { Moves (S.setting scene.now) result (bodied (S.setting scene.now) site.now
        what.now declared.now (values.body_or_none (option_copied body.entry))) }
    ensures costs { Costs (S.setting scene.now) (body_weight (S.setting scene.now) site.now what.now
        declared.now (values.body_or_none (option_copied body.entry))) result }
{
    match what {
        What::Param(name) => parameter_of(alloc, scene, site, name, declared, body),
        What::Declared(name) => declared_gate(alloc, scene, site, name, declared, body),
        _ => Err(InsideError::Fault(ModelFault::Value(ValueFault::Unassigned))),
    }
}

/// What a module that no type declares is given: one that was created what its plan says.
fn planned_body(planned: Option<&Planned>) -> Option<&SubmoduleBody>
    ensures { values.body_or_none (option_copied result)
        ≡ values.planned_body (option_copied planned.entry) }
{
    match planned {
        Some(planned) => Some(&planned.body),
        None => None,
    }
}

/// A parameter or a declared size of a module of that type: what its body says is found first.
fn begin_with_body<'m, S: ModuleSource>(
    alloc: Global,
    scene: &'m S,
    site: Module,
    what: What,
    declared: &'m TypeDeclaration,
) -> Result<Moved<'m>, InsideError>
    ensures moves { Moves (S.setting scene.now) result (values.body_then (S.setting scene.now) site
        (bodied (S.setting scene.now) site what declared.now)) }
    ensures costs { Costs (S.setting scene.now)
        (1 + body_weight (S.setting scene.now) site what declared.now
        (values.planned_body ((S.setting scene.now).planned site))
        + around_weight (S.setting scene.now) site what declared.now
        ((S.setting scene.now).stands site).name) result }
{
    let stands = scene.standing(alloc, &site)?;
    match declarer_of(&stands) {
        Some(around) => {
            let key = around.key(alloc, What::Type)?;
            let name = stands.name.copy(alloc)?;
            Ok(Moved::Asks(key, KeyProgress::BodyAround(site, what, declared, name)))
        }
        None => {
            let body = planned_body(scene.planned(&site));
            with_body(alloc, scene, &site, &what, declared, body)
        }
    }
}

/// The finished size of a gate: it is read off the inside of the module around, where there is one.
fn finished_size<'m, S: ModuleSource>(
    alloc: Global,
    scene: &'m S,
    site: &Module,
    gate: Text,
) -> Result<Moved<'m>, InsideError>
    ensures moves { Moves (S.setting scene.now) result (values.gate_size (S.setting scene.now)
        site.now gate (declarer (S.setting scene.now) site.now)) }
    ensures costs { Costs (S.setting scene.now) 2 result }
{
    let stands = scene.standing(alloc, site)?;
    match declarer_of(&stands) {
        Some(around) => {
            let key = around.key(alloc, What::Type)?;
            let around = around.copy(alloc)?;
            Ok(Moved::Asks(key, KeyProgress::InsideAround(around, stands, gate)))
        }
        None => {
            let key = site.key(alloc, What::Declared(gate))?;
            Ok(Moved::Asks(key, KeyProgress::Same))
        }
    }
}

/// `sizeof`: a gate vector of the module goes before a submodule vector.
fn size_of<'m, S: ModuleSource>(
    alloc: Global,
    scene: &S,
    site: Module,
    name: Text,
    number: usize,
    declared: &TypeDeclaration,
) -> Result<Moved<'m>, InsideError>
    requires { slice_get (S.setting scene.now).types number ≡ Some declared.now }
    ensures moves { (s : ModuleRules) → Moves s result (values.size_of s site name declared.now) }
    ensures costs { (s : ModuleRules) → Costs s 3 result }
{
    if is_gate_vector(alloc, declared, &name)? {
        let key = site.key(alloc, What::GateSize(name))?;
        return Ok(Moved::Asks(key, KeyProgress::Same));
    }
    let submodule = submodule_in(scene, number, declared, &name);
    read(alloc, site, Reading::Size, submodule)
}

/// The number of a type, if there is one.
pub fn numbered<'m>(number: Option<usize>) -> Result<Moved<'m>, InsideError>
    requires { IfSome number (λ n. n < 2 ^ 63) }
    ensures moves { (s : ModuleRules) → Moves s result (values.numbered s number) }
    ensures costs { (s : ModuleRules) → Costs s 0 result }
{
    match number {
        Some(number) => Ok(Moved::Done(Found::Value(Value::Whole(number as i64)))),
        None => Err(InsideError::Fault(ModelFault::UnknownType)),
    }
}

/// The type of a module that was created in that one, as planned.
fn begin_planned<'m>(
    alloc: Global,
    planned: &Planned,
    around: Option<&Module>,
) -> Result<Moved<'m>, InsideError>
    ensures { (s : ModuleRules)
        → Moves s result (values.type_planned s planned.now (option_copied around.entry)) }
{
    let Some(around) = around else {
        return Err(InsideError::Fault(ModelFault::UnknownType));
    };
    let key = around.key(alloc, What::Type)?;
    let name = planned.type_name.copy(alloc)?;
    Ok(Moved::Asks(key, KeyProgress::TypePlanned(name)))
}

/// The type of a module that no type declares: of the network, or of one that was created in that
/// one.
fn begin_undeclared<'m, S: ModuleSource>(
    alloc: Global,
    scene: &'m S,
    site: &Module,
    around: Option<&Module>,
) -> Result<Moved<'m>, InsideError>
    ensures { Moves (S.setting scene.now)
        result (values.type_undeclared (S.setting scene.now) site.now (option_copied around.entry)
        ((S.setting scene.now).planned site.now)) }
{
    match scene.planned(site) {
        Some(planned) => begin_planned(alloc, planned, around),
        None => numbered(scene.root(site)),
    }
}

/// The type of a module: the nesting of one that a type declares comes first.
pub fn begin_type<'m, S: ModuleSource>(
    alloc: Global,
    scene: &'m S,
    site: &Module,
) -> Result<Moved<'m>, InsideError>
    ensures { Moves (S.setting scene.now) result
        (values.type_asking (S.setting scene.now) site.now) }
{
    let stands = scene.standing(alloc, site)?;
    match declarer_of(&stands) {
        Some(around) => {
            if scene.is_too_deep(site) {
                return Err(InsideError::Fault(ModelFault::Value(ValueFault::TooDeep)));
            }
            let key = around.key(alloc, What::Type)?;
            let name = stands.name.copy(alloc)?;
            let (site, around) = (site.copy(alloc)?, around.copy(alloc)?);
            Ok(Moved::Asks(key, KeyProgress::TypeAround(site, around, name)))
        }
        None => begin_undeclared(alloc, scene, site, stands.around.as_ref()),
    }
}

/// The condition of a submodule that the type declares.
fn begin_condition<'m, S: ModuleSource>(
    alloc: Global,
    scene: &S,
    site: &Module,
    name: &Text,
    number: usize,
    declared: &'m TypeDeclaration,
) -> Result<Moved<'m>, InsideError>
    requires { slice_get (S.setting scene.now).types number ≡ Some declared.now }
    ensures moves { Moves (S.setting scene.now) result (values.posed_asking
        (condition_posed (S.setting scene.now) site.now declared.now name.now)) }
    ensures costs { Costs (S.setting scene.now) (posed_weight
        (condition_posed (S.setting scene.now) site.now declared.now name.now)) result }
{
    let submodule = submodule_in(scene, number, declared, name);
    let posed = condition(alloc, scene, site, submodule)?;
    begin_posed(alloc, posed)
}

/// The number of elements of a vector of submodules that the type declares.
fn begin_vector_size<'m, S: ModuleSource>(
    alloc: Global,
    scene: &S,
    site: &Module,
    name: &Text,
    number: usize,
    declared: &'m TypeDeclaration,
) -> Result<Moved<'m>, InsideError>
    requires { slice_get (S.setting scene.now).types number ≡ Some declared.now }
    ensures moves { Moves (S.setting scene.now) result (values.posed_asking
        (vector_size_posed (S.setting scene.now) site.now declared.now name.now)) }
    ensures costs { Costs (S.setting scene.now) (posed_weight
        (vector_size_posed (S.setting scene.now) site.now declared.now name.now)) result }
{
    let submodule = submodule_in(scene, number, declared, name);
    let posed = vector_size(alloc, scene, site, submodule)?;
    begin_posed(alloc, posed)
}

/// Begins to read of a submodule, where the type declares it.
fn begin_reading<'m, S: ModuleSource>(
    alloc: Global,
    scene: &S,
    site: Module,
    reading: Reading,
    name: &Text,
    number: usize,
    declared: &TypeDeclaration,
) -> Result<Moved<'m>, InsideError>
    requires { slice_get (S.setting scene.now).types number ≡ Some declared.now }
    ensures moves { (s : ModuleRules) → Moves s result
        (going.read site reading (submodule_named name.now declared.now.submodules)) }
    ensures costs { (s : ModuleRules) → Costs s 3 result }
{
    let submodule = submodule_in(scene, number, declared, name);
    read(alloc, site, reading, submodule)
}

/// Begins with something of a module of that type, which has that number; this is the number as a
/// value.
pub fn asked_in<'m, S: ModuleSource>(
    alloc: Global,
    scene: &'m S,
    site: Module,
    what: What,
    number: usize,
    declared: &'m TypeDeclaration,
    value: &Value,
) -> Result<Moved<'m>, InsideError>
    requires there { slice_get (S.setting scene.now).types number ≡ Some declared.now }
    requires same { value.now ≡ value_as.Whole (pos number) }
    ensures moves { Moves (S.setting scene.now) result
        (values.asking_in (S.setting scene.now) site what number declared.now) }
    ensures costs { Costs (S.setting scene.now)
        (typed_weight (S.setting scene.now) site what declared.now) result }
{
    match what {
        What::Param(x) => begin_with_body(alloc, scene, site, What::Param(x), declared),
        What::Condition(sub) => begin_condition(alloc, scene, &site, &sub, number, declared),
        What::VectorSize(sub) => begin_vector_size(alloc, scene, &site, &sub, number, declared),
        What::Declared(g) => begin_with_body(alloc, scene, site, What::Declared(g), declared),
        What::GateSize(g) => finished_size(alloc, scene, &site, g),
        What::Sizeof(g) => size_of(alloc, scene, site, g, number, declared),
        What::Exists(sub) => begin_reading(
            alloc,
            scene,
            site,
            Reading::Exists,
            &sub,
            number,
            declared,
        ),
        What::ExistsAt(sub, index) => {
            begin_reading(
                alloc,
                scene,
                site,
                Reading::ExistsAt(index),
                &sub,
                number,
                declared,
            )
        }
        What::Member(sub, x) => begin_reading(
            alloc,
            scene,
            site,
            Reading::Member(x),
            &sub,
            number,
            declared,
        ),
        What::Element(sub, index, x) => {
            begin_reading(
                alloc,
                scene,
                site,
                Reading::Element(index, x),
                &sub,
                number,
                declared,
            )
        }
        What::Channel(channel, x) => begin_channel(alloc, scene, &site, &channel, &x, declared),
        What::Carrier(channel) => begin_carrier(alloc, scene, site, channel, declared),
        What::Joined => begin_inside(alloc, scene, site, false, number, declared),
        What::Inside => begin_inside(alloc, scene, site, true, number, declared),
        What::Type => Ok(Moved::Done(Found::Value(value.copy(alloc)?))),
    }
}
