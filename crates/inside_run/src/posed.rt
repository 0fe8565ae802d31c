//! Expressions that give keys their values.

ghost use Rattle.std.specs.Prelude.{◌≡◌, ◌+◌, IfOk, Some};
ghost use Rattle.std.specs.Option.{option_copied};
ghost use Rattle.param_eval.specs.Evaluating as evaluating;
ghost use Rattle.param_values.specs.Scenes.{given_by, maybe_written};
ghost use Rattle.param_values.specs.Values.{first_given};
ghost use Rattle.inside_keys.specs.Asked.{valued_then};
ghost use Rattle.inside_keys.specs.Checks.{checked};
ghost use Rattle.inside_keys.specs.Given as given;
ghost use Rattle.inside_keys.specs.Places.{meant_under};
ghost use Rattle.inside_keys.specs.Settings.{ModuleRules, index_at, place_in};
ghost use Rattle.inside_keys.specs.Values.{body_or_none, kept, posed_asking};
ghost use Rattle.inside_keys.specs.declared.found.Found.TheVariants as found_as;
ghost use Rattle.inside_run.specs.Going.{Moves, goes_on};
ghost use Rattle.inside_run.specs.Posing.{maybe_posed};
ghost use Rattle.inside_run.specs.Weights.{Costs, posed_weight};
ghost use Rattle.inside_run.specs.declared.progress.KeyProgress.TheVariants as waits;

use crate::progress::{KeyProgress, Moved, Posing};
use crate::reach::{Reached, reach};
use crate::scene::{ModuleSource, Stands};
use ini_trees::entry::EntryValue;
use inside_keys::channel::kind_of;
use inside_keys::check::{Check, checked};
use inside_keys::found::Found;
use inside_keys::key::Module;
use inside_keys::place::{Binding, ExpressionPlace, Section};
use inside_parts::fault::InsideError;
use inside_parts::stack::Stack;
use ned_trees::declarations::{
    Declaration, GateLine, GateSize, ParameterValue, SectionLine, Submodule, SubmoduleBody,
    TypeDeclaration,
};
use ned_trees::expressions::Expression;
use ned_types::flat::{declaration_named, last_value};
use param_eval::evaluation::{Evaluation, EvaluationStep};
use param_values::scene::{Given, Section as WrittenSection, Written};
use sim_values::NoMemory;
use sim_values::model_fault::ModelFault;
use sim_values::text::Text;
use sim_values::value::Value;
use sim_values::value_fault::ValueFault;
use sqlite_items::Boxed;
use std::alloc::Global;

/// An expression that gives a value: where it stands, under which loop variables, and what its
/// value has to be.
#[derive(Drop)]
pub struct Posable<'m> {
    pub expression: &'m Expression,
    pub place: ExpressionPlace,
    /// The innermost first.
    pub variables: Stack<Binding>,
    pub check: Check,
}

/// The value, where it is what it has to be.
fn kept<'m>(check: Check, value: Value) -> Result<Moved<'m>, InsideError>
    ensures moves { (s : ModuleRules) → Moves s result (kept (checked check value)) }
    ensures costs { (s : ModuleRules) → Costs s 0 result }
{
    match checked(check, value) {
        Ok(value) => Ok(Moved::Done(Found::Value(value))),
        Err(fault) => Err(InsideError::Fault(fault)),
    }
}

/// Goes on with an expression until it needs a value, or has its own.
fn pose<'m>(
    alloc: Global,
    place: ExpressionPlace,
    variables: Stack<Binding>,
    check: Check,
    evaluation: Evaluation<'m>,
    turn: EvaluationStep<'m>,
) -> Result<Moved<'m>, InsideError>
    ensures moves { (s : ModuleRules) → Moves s result (valued_then (meant_under variables place)
        (evaluating.came_to evaluation.entry turn.entry) (λ u. kept (checked check u))) }
    ensures costs { (s : ModuleRules)
        → Costs s (evaluating.asks turn.entry + evaluating.left evaluation.entry) result }
{
    let mut evaluation = evaluation;
    match reach(alloc, &place, &variables, &mut evaluation, turn)? {
        Reached::Value(value) => kept(check, value),
        Reached::Key(key) => {
            let posing = Posing {
                evaluation,
                place,
                variables,
                check,
            };
            Ok(Moved::Asks(key, KeyProgress::Posed(Boxed::new(alloc, posing)?)))
        }
    }
}

/// Begins with an expression that gives a value, if there is one.
pub fn begin_posed<'m>(alloc: Global, posed: Option<Posable<'m>>) -> Result<Moved<'m>, InsideError>
    ensures moves { (s : ModuleRules) → Moves s result (posed_asking (maybe_posed posed.entry)) }
    ensures costs { (s : ModuleRules) → Costs s (posed_weight (maybe_posed posed.entry)) result }
{
    let Some(posed) = posed else {
        return Err(InsideError::Fault(ModelFault::Value(ValueFault::Unassigned)));
    };
    let Posable {
        expression,
        place,
        variables,
        check,
    } = posed;
    let (evaluation, turn) = Evaluation::start(alloc, expression)?;
    pose(alloc, place, variables, check, evaluation, turn)
}

/// Goes on with the value of what it names.
pub fn go_on_posed<'m>(
    alloc: Global,
    posing: Posing<'m>,
    value: &Value,
) -> Result<Moved<'m>, InsideError>
    ensures moves { (s : ModuleRules)
        → Moves s result (goes_on s (waits.Posed posing.entry) (found_as.Value value.now)) }
    ensures costs { (s : ModuleRules) → Costs s (evaluating.left posing.entry.evaluation) result }
{
    let Posing {
        mut evaluation,
        place,
        variables,
        check,
    } = posing;
    let turn = evaluation.go_on(alloc, value.copy(alloc)?)?;
    pose(alloc, place, variables, check, evaluation, turn)
}

/// The index of the module around, where that has one.
fn index_at<S: ModuleSource>(
    alloc: Global,
    scene: &S,
    around: Option<&Module>,
) -> Result<Option<i64>, NoMemory>
    ensures { IfOk result
        (λ index. index ≡ index_at (S.setting scene.now) (option_copied around.entry)) }
{
    match around {
        Some(around) => {
            let stands = scene.standing(alloc, around)?;
            Ok(stands.index)
        }
        None => Ok(None),
    }
}

/// Where an expression stands that says something of a module in that section.
pub fn place_in<S: ModuleSource>(
    alloc: Global,
    scene: &S,
    site: &Module,
    section: Section,
) -> Result<ExpressionPlace, NoMemory>
    ensures { IfOk result (λ place. place ≡ place_in (S.setting scene.now) site.now section) }
{
    let stands = scene.standing(alloc, site)?;
    let around_index = index_at(alloc, scene, stands.around.as_ref())?;
    let own = site.copy(alloc)?;
    let Stands { around, index, .. } = stands;
    Ok(ExpressionPlace {
        own,
        around,
        section,
        index,
        around_index,
        channel: None,
    })
}

/// An expression that stands there, if there is one.
fn maybe<'m, S: ModuleSource>(
    alloc: Global,
    scene: &S,
    site: &Module,
    section: Section,
    check: Check,
    expression: Option<&'m Expression>,
) -> Result<Option<Posable<'m>>, NoMemory>
    ensures { IfOk result (λ posed. maybe_posed posed ≡ given.maybe_posed (S.setting scene.now)
        site.now section check (option_copied expression.entry)) }
{
    let Some(expression) = expression else {
        return Ok(None);
    };
    let place = place_in(alloc, scene, site, section)?;
    Ok(Some(Posable {
        expression,
        place,
        variables: Stack::new(alloc),
        check,
    }))
}

/// The condition of a submodule.
pub fn condition<'m, S: ModuleSource>(
    alloc: Global,
    scene: &S,
    site: &Module,
    submodule: Option<&'m Submodule>,
) -> Result<Option<Posable<'m>>, NoMemory>
    ensures { IfOk result (λ posed. maybe_posed posed
        ≡ given.condition_in (S.setting scene.now) site.now (option_copied submodule.entry)) }
{
    let Some(submodule) = submodule else {
        return Ok(None);
    };
    let expression = submodule.condition.as_ref();
    maybe(
        alloc,
        scene,
        site,
        Section::OfInside,
        Check::Condition,
        expression,
    )
}

/// The size of a vector of submodules.
pub fn vector_size<'m, S: ModuleSource>(
    alloc: Global,
    scene: &S,
    site: &Module,
    submodule: Option<&'m Submodule>,
) -> Result<Option<Posable<'m>>, NoMemory>
    ensures { IfOk result (λ posed. maybe_posed posed
        ≡ given.vector_size_in (S.setting scene.now) site.now (option_copied submodule.entry)) }
{
    let Some(submodule) = submodule else {
        return Ok(None);
    };
    let expression = submodule.size.as_ref();
    maybe(
        alloc,
        scene,
        site,
        Section::OfInside,
        Check::VectorSize,
        expression,
    )
}

/// What a value that stands in such a section gives a parameter.
pub fn given_in(section: WrittenSection, value: Option<&ParameterValue>) -> Option<Given<'_>>
    ensures { given_by result ≡ given.given_in section (option_copied value.entry) }
{
    match value {
        Some(ParameterValue::Fixed(expression)) => Some(Given::Fixed(Written {
            section,
            expression,
        })),
        Some(ParameterValue::Default(expression)) => Some(Given::Default(Written {
            section,
            expression,
        })),
        None => None,
    }
}

/// What gives a parameter its value, of what the NED text gives it and what the ini text says for
/// it.
pub fn chosen<'m>(given: Option<Given<'m>>, entry: Option<&'m EntryValue>) -> Option<Written<'m>>
    ensures { maybe_written result
        ≡ first_given (given_by given.entry) (option_copied entry.entry) }
{
    match (given, entry) {
        (Some(Given::Fixed(written)), _) => Some(written),
        (_, Some(EntryValue::Given(expression))) => Some(Written {
            section: WrittenSection::OfType,
            expression,
        }),
        (Some(Given::Default(written)), _) => Some(written),
        (None, _) => None,
    }
}

/// The lines of a body; none where there is none.
fn body_lines(body: Option<&SubmoduleBody>) -> &[SectionLine]
    ensures { result.now ≡ (body_or_none (option_copied body.entry)).lines }
{
    match body {
        Some(body) => body.lines.as_slice(),
        None => &[],
    }
}

/// The gates in a body; none where there is none.
fn body_gates(body: Option<&SubmoduleBody>) -> &[GateLine]
    ensures { result.now ≡ (body_or_none (option_copied body.entry)).gates }
{
    match body {
        Some(body) => body.gates.as_slice(),
        None => &[],
    }
}

/// What the NED text gives a parameter: the body goes before the lines of the type.
fn given_to<'m>(
    declared: &'m TypeDeclaration,
    body: Option<&'m SubmoduleBody>,
    name: &[u8],
) -> Option<Given<'m>>
    ensures { given_by result
        ≡ given.given_to declared.now (body_or_none (option_copied body.entry)) name.now }
{
    match given_in(WrittenSection::OfBody, last_value(name, body_lines(body))) {
        Some(given) => Some(given),
        None => given_in(
            WrittenSection::OfType,
            last_value(name, declared.lines.as_slice()),
        ),
    }
}

/// Where an expression stands that gives a parameter its value.
fn section_of(section: WrittenSection) -> Section
    ensures { result ≡ given.section_of section }
{
    match section {
        WrittenSection::OfType => Section::OfParameters,
        WrittenSection::OfBody => Section::OfBody,
    }
}

/// The full path of a parameter.
fn parameter_path(alloc: Global, site: &Module, name: &Text) -> Result<Text, NoMemory>
    ensures { IfOk result (λ path. path ≡ given.parameter_path site.now name.now) }
{
    let mut path = Vec::from_slice(alloc, site.path.as_bytes())?;
    path.push(b'.')?;
    path.extend_from_slice(name.as_bytes())?;
    Ok(Text::from_vec(path))
}

/// What gives a parameter its value, of what the NED text and the ini text say.
fn written<'m, S: ModuleSource>(
    alloc: Global,
    scene: &'m S,
    site: &Module,
    name: &Text,
    declared: &'m TypeDeclaration,
    body: Option<&'m SubmoduleBody>,
) -> Result<Option<Written<'m>>, NoMemory>
    ensures { IfOk result (λ found. maybe_written found ≡ first_given
        (given.given_to declared.now (body_or_none (option_copied body.entry)) name.now)
        ((S.setting scene.now).entry (given.parameter_path site.now name.now))) }
{
    let path = parameter_path(alloc, site, name)?;
    let entry = scene.entry(alloc, path.as_bytes())?;
    Ok(chosen(given_to(declared, body, name.as_bytes()), entry))
}

/// What gives a parameter its value that is declared so.
fn parameter_declared<'m, S: ModuleSource>(
    alloc: Global,
    scene: &'m S,
    site: &Module,
    name: &Text,
    declared: &'m TypeDeclaration,
    body: Option<&'m SubmoduleBody>,
    declaration: &Declaration,
) -> Result<Option<Posable<'m>>, NoMemory>
    ensures { IfOk result
        (λ posed. maybe_posed posed ≡ given.parameter_by (S.setting scene.now) site.now declared.now
        (body_or_none (option_copied body.entry)) name.now (Some declaration.now)) }
{
    let Some(written) = written(alloc, scene, site, name, declared, body)? else {
        return Ok(None);
    };
    let place = place_in(alloc, scene, site, section_of(written.section))?;
    Ok(Some(Posable {
        expression: written.expression,
        place,
        variables: Stack::new(alloc),
        check: Check::Parameter(kind_of(declaration)),
    }))
}

/// What gives a parameter of a module its value, which is of that type, and is given that body.
pub fn parameter<'m, S: ModuleSource>(
    alloc: Global,
    scene: &'m S,
    site: &Module,
    name: &Text,
    declared: &'m TypeDeclaration,
    body: Option<&'m SubmoduleBody>,
) -> Result<Option<Posable<'m>>, NoMemory>
    ensures { IfOk result (λ posed. maybe_posed posed ≡ given.parameter_posed (S.setting scene.now)
        site.now declared.now (body_or_none (option_copied body.entry)) name.now) }
{
    let Some(declaration) = declaration_named(name.as_bytes(), declared.lines.as_slice()) else {
        return Ok(None);
    };
    parameter_declared(alloc, scene, site, name, declared, body, declaration)
}

/// The size that a line gives a gate.
fn size_given<'m>(name: &[u8], line: &'m GateLine) -> Option<&'m Expression>
    ensures { option_copied result ≡ given.size_given name.now line.now }
{
    match line {
        GateLine::Declaration(gate) => match &gate.size {
            GateSize::Sized(size) if gate.name.is(name) => Some(size),
            _ => None,
        },
        GateLine::Refinement(gate) => {
            if gate.name.is(name) {
                gate.size.as_ref()
            } else {
                None
            }
        }
    }
}

/// The size that the lines give a gate: a later one stands in the place of an earlier one.
fn last_size<'m>(name: &[u8], lines: &'m [GateLine]) -> Option<&'m Expression>
    ensures { option_copied result ≡ given.last_size name.now lines.now }
{
    let mut found = None;
    for line in lines {
        if let Some(size) = size_given(name, line) {
            found = Some(size);
        }
    }
    found
}

/// What gives a gate vector its size: the body goes before the lines of the type.
pub fn gate_size<'m, S: ModuleSource>(
    alloc: Global,
    scene: &S,
    site: &Module,
    name: &Text,
    declared: &'m TypeDeclaration,
    body: Option<&'m SubmoduleBody>,
) -> Result<Option<Posable<'m>>, NoMemory>
    ensures { IfOk result (λ posed. maybe_posed posed ≡ given.gate_size_posed (S.setting scene.now)
        site.now declared.now (body_or_none (option_copied body.entry)) name.now) }
{
    match last_size(name.as_bytes(), body_gates(body)) {
        Some(size) => maybe(
            alloc,
            scene,
            site,
            Section::OfBody,
            Check::GateSize,
            Some(size),
        ),
        None => {
            let size = last_size(name.as_bytes(), declared.gates.as_slice());
            maybe(alloc, scene, site, Section::OfInside, Check::GateSize, size)
        }
    }
}
