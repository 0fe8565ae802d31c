//! Types that values choose.

ghost use Rattle.std.specs.Prelude.{◌≡◌, ◌+◌, ◌<◌, ◌^◌, ◌++◌, ◌∷◌, ◌&&◌, [], IfOk, IfSome, Some};
ghost use Rattle.std.specs.Prelude.{Err, codes, if◌then◌else◌, is_none, is_some, length, not, slice_get};
ghost use Rattle.sim_values.specs.declared.model_fault.ModelFault.TheVariants.{UnknownType};
ghost use Rattle.std.specs.List.{list_any};
ghost use Rattle.inside_parts.specs.Names.{is_one};
ghost use Rattle.ned_types.specs.Flat.{submodule_named};
ghost use Rattle.ned_types.specs.Types.{gives_fixed, is_fixed_in, is_kind_of_modules, is_refixed};
ghost use Rattle.std.specs.Option.{option_and_then, option_copied};
ghost use Rattle.param_values.specs.Scenes.{maybe_written};
ghost use Rattle.param_eval.specs.Evaluating as evaluating;
ghost use Rattle.param_following.specs.Asking.{Done};
ghost use Rattle.inside_keys.specs.Asked.{ask_then, truth_then, valued_then};
ghost use Rattle.inside_keys.specs.Keys.{key};
ghost use Rattle.inside_keys.specs.declared.key.What.TheVariants as what_as;
ghost use Rattle.inside_keys.specs.Places.{meant_under};
ghost use Rattle.inside_keys.specs.Settings as settings;
ghost use Rattle.inside_keys.specs.Settings.{ModuleRules};
ghost use Rattle.inside_keys.specs.Values as values;
ghost use Rattle.inside_keys.specs.declared.found.Found.TheVariants as found_as;
ghost use Rattle.inside_run.specs.Going.{Moves, goes_on};
ghost use Rattle.inside_run.specs.Scenes.{standing_by};
ghost use Rattle.inside_run.specs.Weights.{Costs, choice_weight, chosen_weight, written_weight};
ghost use Rattle.inside_run.specs.declared.progress.KeyProgress.TheVariants as waits;

use crate::keys::numbered;
use crate::posed::{chosen, given_in, place_in};
use crate::progress::{Choosing, KeyProgress, Moved};
use crate::reach::{Reached, reach};
use crate::scene::{ModuleSource, Stands};
use crate::variables::NoVariables;
use ini_entries::names::is_dotted_name;
use ini_trees::speaks::last_name;
use inside_keys::channel::is_built_in;
use inside_keys::key::{Module, What};
use inside_keys::place::{ExpressionPlace, Section};
use inside_parts::fault::InsideError;
use inside_walk::submodules::size;
use ned_trees::declarations::{
    ParametricType, SectionLine, Submodule, SubmoduleBody, SubmoduleType, TypeDeclaration, TypeKind,
};
use ned_types::flat::submodule_named;
use ned_types::given::{fixes, name_in, value_in};
use param_eval::evaluation::{Evaluation, EvaluationStep};
use param_values::scene::{Section as WrittenSection, Written};
use sim_values::NoMemory;
use sim_values::model_fault::ModelFault;
use sim_values::text::Text;
use sim_values::value::Value;
use sim_values::value_fault::ValueFault;
use sqlite_items::Boxed;
use std::alloc::Global;

/// Whether it is a kind of types of modules.
fn is_of_modules(kind: TypeKind) -> bool
    ensures { result ≡ is_kind_of_modules kind }
{
    matches!(
        kind,
        TypeKind::Simple | TypeKind::Module | TypeKind::Network
    )
}

// ---- what a value names

/// The full name of a type within another.
fn inner_name(alloc: Global, declared: &TypeDeclaration, name: &[u8]) -> Result<Text, NoMemory>
    ensures { IfOk result (λ full. full ≡ declared.now.name ++ 46 ∷ name.now) }
{
    let mut full = Vec::from_slice(alloc, declared.name.as_bytes())?;
    full.push(b'.')?;
    full.extend_from_slice(name)?;
    Ok(Text::from_vec(full))
}

/// What a type extends.
fn base_of<'m, S: ModuleSource>(
    scene: &'m S,
    declared: &TypeDeclaration,
) -> Option<&'m TypeDeclaration>
    ensures { option_copied result
        ≡ option_and_then (values.type_named (S.setting scene.now)) declared.now.base }
{
    let name = declared.base.as_ref()?;
    type_at(scene, scene.type_number(name)?)
}

/// The type of that name that stands within a type, or else within what that extends, and so on.
fn inner_along<'m, S: ModuleSource>(
    alloc: Global,
    scene: &'m S,
    declared: &'m TypeDeclaration,
    name: &[u8],
) -> Result<Option<usize>, NoMemory>
    ensures same { IfOk result (λ number. number ≡ values.inner_along (S.setting scene.now)
        (length (S.setting scene.now).types) (Some declared.now) name.now) }
    ensures small { IfOk result (λ number. IfSome number (λ n. n < 2 ^ 63)) }
{
    let mut next = Some(declared);
    let mut left = scene.types().len();
    while let Some(found) = next {
        if left == 0 {
            break;
        }
        let full = inner_name(alloc, found, name)?;
        if let Some(number) = scene.type_number(&full) {
            return Ok(Some(number));
        }
        next = base_of(scene, found);
        left -= 1;
    }
    Ok(None)
}

/// Which type a name means in the text of a type.
fn type_meant<S: ModuleSource>(
    alloc: Global,
    scene: &S,
    declared: &TypeDeclaration,
    name: &Text,
) -> Result<Option<usize>, NoMemory>
    ensures same { IfOk result
        (λ number. number ≡ values.type_meant (S.setting scene.now) declared.now name.now) }
    ensures small { IfOk result (λ number. IfSome number (λ n. n < 2 ^ 63)) }
{
    let last = last_name(name.as_bytes());
    if let Some(number) = inner_along(alloc, scene, declared, last)? {
        return Ok(Some(number));
    }
    let last = Text::from_bytes(alloc, last)?;
    Ok(scene.type_number(&last))
}

/// Whether a line gives a value to a parameter that has a fixed one in these lines.
fn is_refixed(lines: &[SectionLine], line: &SectionLine) -> bool
    ensures { result ≡ is_refixed lines.now line.now }
{
    value_in(line).is_some() && is_fixed_in(name_in(line), lines)
}

/// Whether these lines give the parameter of that name a fixed value.
fn is_fixed_in(name: &[u8], lines: &[SectionLine]) -> bool
    ensures { result ≡ is_fixed_in name.now lines.now }
{
    lines.iter().any(|line| gives_fixed(name, line))
}

/// Whether the line gives the parameter of that name a fixed value.
fn gives_fixed(name: &[u8], line: &SectionLine) -> bool
    ensures { result ≡ gives_fixed name.now line.now }
{
    fixes(line) && name_in(line) == name
}

/// Whether the body of a submodule gives a value to a parameter that has a fixed one in these
/// lines.
fn sets_fixed(lines: &[SectionLine], body: &SubmoduleBody) -> bool
    ensures { result ≡ list_any (λ l. is_refixed lines.now l) body.now.lines }
{
    body.lines
        .as_slice()
        .iter()
        .any(|line| is_refixed(lines, line))
}

/// Whether one of these names is that one.
fn is_one(name: &Text, names: &[Text]) -> bool
    ensures { result ≡ is_one name.now names.now }
{
    names.iter().any(|other| other.is(name.as_bytes()))
}

/// Whether a type may stand after `like`.
fn keeps(parametric: &ParametricType, body: &SubmoduleBody, declared: &TypeDeclaration) -> bool
    ensures { result ≡ (is_kind_of_modules declared.now.kind
        && (is_one parametric.now.interface declared.now.interfaces
        && not (list_any (λ l. is_refixed declared.now.lines l) body.now.lines))) }
{
    is_of_modules(declared.kind)
        && (is_one(&parametric.interface, declared.interfaces.as_slice())
            && !sets_fixed(declared.lines.as_slice(), body))
}

/// The type of that number, where it may stand there.
fn kept_type<'m>(
    parametric: &ParametricType,
    body: &SubmoduleBody,
    number: usize,
    declared: Option<&TypeDeclaration>,
) -> Result<Moved<'m>, InsideError>
    requires { number < 2 ^ 63 }
    ensures moves { (s : ModuleRules) → Moves s result
        (values.kept_type s parametric.now body.now number (option_copied declared.entry)) }
    ensures costs { (s : ModuleRules) → Costs s 0 result }
{
    match declared {
        Some(declared) => {
            if keeps(parametric, body, declared) {
                numbered(Some(number))
            } else {
                Err(InsideError::Fault(ModelFault::Interface))
            }
        }
        None => Err(InsideError::Fault(ModelFault::UnknownType)),
    }
}

/// The type of that number, if there is one.
fn type_at<S: ModuleSource>(scene: &S, number: usize) -> Option<&TypeDeclaration>
    ensures { option_copied result ≡ slice_get (S.setting scene.now).types number }
{
    scene.types().get(number)
}

/// What is wrong with a name that no type has: a built-in channel is no type of modules.
fn no_type(name: &Text) -> ModelFault
    ensures { (s : ModuleRules) → result ≡ values.no_type s name.now }
{
    if is_built_in(last_name(name.as_bytes())) {
        ModelFault::Interface
    } else {
        ModelFault::UnknownType
    }
}

/// The type that a name means, where it may stand there.
fn named_type<'m, S: ModuleSource>(
    alloc: Global,
    scene: &S,
    declared: &TypeDeclaration,
    parametric: &ParametricType,
    body: &SubmoduleBody,
    name: &Text,
) -> Result<Moved<'m>, InsideError>
    ensures moves { Moves (S.setting scene.now)
        result (values.type_found (S.setting scene.now) parametric.now body.now name.now
        (values.type_meant (S.setting scene.now) declared.now name.now)) }
    ensures costs { Costs (S.setting scene.now) 0 result }
{
    match type_meant(alloc, scene, declared, name)? {
        Some(number) => kept_type(parametric, body, number, type_at(scene, number)),
        None => Err(InsideError::Fault(no_type(name))),
    }
}

/// The type that a value names.
fn told<'m, S: ModuleSource>(
    alloc: Global,
    scene: &S,
    declared: &TypeDeclaration,
    parametric: &ParametricType,
    body: &SubmoduleBody,
    value: Value,
) -> Result<Moved<'m>, InsideError>
    ensures moves { Moves (S.setting scene.now) result
        (values.type_told (S.setting scene.now) declared.now parametric.now body.now value) }
    ensures costs { Costs (S.setting scene.now) 0 result }
{
    match value {
        Value::Text(name) => {
            if is_dotted_name(name.as_bytes()) {
                named_type(alloc, scene, declared, parametric, body, &name)
            } else {
                Err(InsideError::Fault(ModelFault::UnknownType))
            }
        }
        _ => Err(InsideError::Fault(ModelFault::Value(ValueFault::Mismatch))),
    }
}

// ---- modules that were created

/// The type of that number, where it is one of modules.
fn type_of_modules<'m>(
    number: usize,
    declared: Option<&TypeDeclaration>,
) -> Result<Moved<'m>, InsideError>
    requires { number < 2 ^ 63 }
    ensures moves { (s : ModuleRules)
        → Moves s result (values.type_of_modules s number (option_copied declared.entry)) }
    ensures costs { (s : ModuleRules) → Costs s 0 result }
{
    match declared {
        Some(declared) => {
            if is_of_modules(declared.kind) {
                numbered(Some(number))
            } else {
                Err(InsideError::Fault(ModelFault::UnknownType))
            }
        }
        None => Err(InsideError::Fault(ModelFault::UnknownType)),
    }
}

/// The type that a name means in the text of a type, where it is one of modules.
fn created_found<'m, S: ModuleSource>(
    alloc: Global,
    scene: &S,
    around: &TypeDeclaration,
    name: &Text,
) -> Result<Moved<'m>, InsideError>
    ensures moves { Moves (S.setting scene.now) result (values.created_found (S.setting scene.now)
        (values.type_meant (S.setting scene.now) around.now name.now)) }
    ensures costs { Costs (S.setting scene.now) 0 result }
{
    match type_meant(alloc, scene, around, name)? {
        Some(number) => type_of_modules(number, type_at(scene, number)),
        None => Err(InsideError::Fault(ModelFault::UnknownType)),
    }
}

/// The type of a module that was created in one of that type, by the name that its plan has.
pub fn created_type<'m, S: ModuleSource>(
    alloc: Global,
    scene: &S,
    around: &TypeDeclaration,
    name: &Text,
) -> Result<Moved<'m>, InsideError>
    ensures moves { Moves (S.setting scene.now) result
        (values.created_type (S.setting scene.now) around.now name.now) }
    ensures costs { Costs (S.setting scene.now) 0 result }
{
    if is_dotted_name(name.as_bytes()) {
        created_found(alloc, scene, around, name)
    } else {
        Err(InsideError::Fault(ModelFault::UnknownType))
    }
}

// ---- the expression

/// Goes on with an expression that names a type until it needs a value, or has its own.
fn choose<'m, S: ModuleSource>(
    alloc: Global,
    scene: &'m S,
    place: ExpressionPlace,
    declared: &'m TypeDeclaration,
    parametric: &'m ParametricType,
    body: &'m SubmoduleBody,
    evaluation: Evaluation<'m>,
    turn: EvaluationStep<'m>,
) -> Result<Moved<'m>, InsideError>
    ensures moves { Moves (S.setting scene.now)
        result (valued_then (meant_under [] place) (evaluating.came_to evaluation.entry turn.entry)
        (values.type_told (S.setting scene.now) declared.now parametric.now body.now)) }
    ensures costs { Costs (S.setting scene.now)
        (evaluating.asks turn.entry + evaluating.left evaluation.entry) result }
{
    let mut evaluation = evaluation;
    match reach(alloc, &place, &NoVariables, &mut evaluation, turn) {
        Ok(Reached::Value(value)) => told(alloc, scene, declared, parametric, body, value),
        Ok(Reached::Key(key)) => {
            let choosing = Choosing {
                evaluation,
                place,
                declared,
                parametric,
                body,
            };
            Ok(Moved::Asks(key, KeyProgress::Chosen(Boxed::new(alloc, choosing)?)))
        }
        Err(stop) => Err(stop),
    }
}

/// Goes on with the value of what the expression names.
pub fn go_on_chosen<'m, S: ModuleSource>(
    alloc: Global,
    scene: &'m S,
    choosing: Choosing<'m>,
    value: &Value,
) -> Result<Moved<'m>, InsideError>
    ensures moves { Moves (S.setting scene.now) result
        (goes_on (S.setting scene.now) (waits.Chosen choosing.entry) (found_as.Value value.now)) }
    ensures costs { Costs (S.setting scene.now) (evaluating.left choosing.entry.evaluation) result }
{
    let Choosing {
        mut evaluation,
        place,
        declared,
        parametric,
        body,
    } = choosing;
    let turn = evaluation.go_on(alloc, value.copy(alloc)?)?;
    choose(
        alloc, scene, place, declared, parametric, body, evaluation, turn,
    )
}

/// The full path of an entry that names a submodule's type.
fn type_path(alloc: Global, site: &Module) -> Result<Text, NoMemory>
    ensures { IfOk result (λ path. path ≡ site.now.path ++ codes ".typename") }
{
    let mut path = Vec::from_slice(alloc, site.path.as_bytes())?;
    path.extend_from_slice(b".typename")?;
    Ok(Text::from_vec(path))
}

/// What names the type of a submodule.
fn written<'m, S: ModuleSource>(
    alloc: Global,
    scene: &'m S,
    site: &Module,
    parametric: &'m ParametricType,
) -> Result<Option<Written<'m>>, NoMemory>
    ensures { IfOk result (λ found. maybe_written found
        ≡ values.type_written (S.setting scene.now) site.now parametric.now) }
{
    let path = type_path(alloc, site)?;
    let entry = scene.entry(alloc, path.as_bytes())?;
    Ok(chosen(
        given_in(WrittenSection::OfType, parametric.given.as_ref()),
        entry,
    ))
}

/// The same place, where `index` is that.
fn with_index(place: ExpressionPlace, index: Option<i64>) -> ExpressionPlace
    ensures { result ≡ settings.with_index place index }
{
    let ExpressionPlace {
        own,
        around,
        section,
        around_index,
        channel,
        ..
    } = place;
    ExpressionPlace {
        own,
        around,
        section,
        index,
        around_index,
        channel,
    }
}

/// Where an expression stands that names the type of a submodule of the module around.
fn choice_place<S: ModuleSource>(
    alloc: Global,
    scene: &S,
    site: &Module,
    around: &Module,
) -> Result<ExpressionPlace, NoMemory>
    ensures { IfOk result
        (λ place. place ≡ settings.choice_place (S.setting scene.now) site.now around.now) }
{
    let stands = scene.standing(alloc, site)?;
    let place = place_in(alloc, scene, around, Section::OfInside)?;
    Ok(with_index(place, stands.index))
}

/// Begins with what names the type of a submodule of the module around.
fn begin_chosen<'m, S: ModuleSource>(
    alloc: Global,
    scene: &'m S,
    site: &Module,
    around: &Module,
    declared: &'m TypeDeclaration,
    parametric: &'m ParametricType,
    body: &'m SubmoduleBody,
) -> Result<Moved<'m>, InsideError>
    ensures moves { Moves (S.setting scene.now) result (values.type_chosen (S.setting scene.now)
        site.now around.now declared.now parametric.now body.now) }
    ensures costs { Costs (S.setting scene.now) (written_weight
        (values.type_written (S.setting scene.now) site.now parametric.now)) result }
{
    let Some(written) = written(alloc, scene, site, parametric)? else {
        return Err(InsideError::Fault(ModelFault::Value(ValueFault::Unassigned)));
    };
    let place = choice_place(alloc, scene, site, around)?;
    let (evaluation, turn) = Evaluation::start(alloc, written.expression)?;
    choose(
        alloc, scene, place, declared, parametric, body, evaluation, turn,
    )
}

/// Whether a type declares a submodule of that name.
fn has_submodule(declared: &TypeDeclaration, name: &Text) -> bool
    ensures { result ≡ is_some (submodule_named name.now declared.now.submodules) }
{
    submodule_named(name.as_bytes(), declared.submodules.as_slice()).is_some()
}

/// The type in whose text a submodule stands, of a type that has it.
fn text_with<'m, S: ModuleSource>(
    scene: &'m S,
    declared: &'m TypeDeclaration,
    name: &Text,
) -> &'m TypeDeclaration
    ensures { result.now ≡ values.text_with (S.setting scene.now) declared.now name.now }
{
    let mut found = declared;
    let mut next = base_of(scene, declared);
    let mut left = scene.types().len();
    while let Some(base) = next {
        if left == 0 {
            break;
        }
        if !has_submodule(base, name) {
            break;
        }
        found = base;
        next = base_of(scene, base);
        left -= 1;
    }
    found
}

/// The type of a submodule that is there, of the module around, which is of that type.
fn type_by<'m, S: ModuleSource>(
    alloc: Global,
    scene: &'m S,
    site: &Module,
    around: &Module,
    declared: &'m TypeDeclaration,
    submodule: &'m Submodule,
) -> Result<Moved<'m>, InsideError>
    ensures moves { Moves (S.setting scene.now) result
        (values.type_of_submodule (S.setting scene.now) site.now around.now declared.now
        submodule.now) }
    ensures costs { Costs (S.setting scene.now)
        (choice_weight (S.setting scene.now) site.now submodule.now.submodule_type) result }
{
    match &submodule.submodule_type {
        SubmoduleType::Named(name) => numbered(scene.type_number(name)),
        SubmoduleType::Like(parametric) => {
            let text = text_with(scene, declared, &submodule.name);
            begin_chosen(
                alloc,
                scene,
                site,
                around,
                text,
                parametric,
                &submodule.body,
            )
        }
    }
}

// ---- whether it is there

/// Whether what stands there is one of so many elements.
fn is_among(count: u32, stands: &Stands) -> bool
    ensures { (s : ModuleRules)
        → result ≡ values.is_among s count (standing_by stands.now).index }
{
    let Some(index) = stands.index else {
        return false;
    };
    if index < 0 {
        return false;
    }
    (index as u64) < u64::from(count)
}

/// The type of a submodule, where it is there.
fn there_type<'m, S: ModuleSource>(
    alloc: Global,
    scene: &'m S,
    site: &Module,
    around: &Module,
    declared: &'m TypeDeclaration,
    submodule: &'m Submodule,
    is_there: bool,
) -> Result<Moved<'m>, InsideError>
    ensures moves { Moves (S.setting scene.now) result
        (if is_there then values.type_of_submodule (S.setting scene.now) site.now around.now
        declared.now submodule.now else Done (Err UnknownType)) }
    ensures costs { Costs (S.setting scene.now)
        (choice_weight (S.setting scene.now) site.now submodule.now.submodule_type) result }
{
    if is_there {
        type_by(alloc, scene, site, around, declared, submodule)
    } else {
        Err(InsideError::Fault(ModelFault::UnknownType))
    }
}

/// Whether a module is one of so many elements.
fn is_element<S: ModuleSource>(
    alloc: Global,
    scene: &S,
    site: &Module,
    count: u32,
) -> Result<bool, NoMemory>
    ensures { IfOk result (λ is_there. is_there ≡ values.is_among (S.setting scene.now) count
        ((S.setting scene.now).stands site.now).index) }
{
    let stands = scene.standing(alloc, site)?;
    Ok(is_among(count, &stands))
}

/// Whether a module is no element of a vector.
fn is_alone<S: ModuleSource>(alloc: Global, scene: &S, site: &Module) -> Result<bool, NoMemory>
    ensures { IfOk result
        (λ is_there. is_there ≡ is_none ((S.setting scene.now).stands site.now).index) }
{
    let stands = scene.standing(alloc, site)?;
    Ok(stands.index.is_none())
}

/// The type of an element of a vector of so many.
fn element_type<'m, S: ModuleSource>(
    alloc: Global,
    scene: &'m S,
    site: &Module,
    around: &Module,
    declared: &'m TypeDeclaration,
    submodule: &'m Submodule,
    count: u32,
) -> Result<Moved<'m>, InsideError>
    ensures moves { Moves (S.setting scene.now) result (values.element_type (S.setting scene.now)
        site.now around.now declared.now submodule.now count) }
    ensures costs { Costs (S.setting scene.now)
        (choice_weight (S.setting scene.now) site.now submodule.now.submodule_type) result }
{
    let is_there = is_element(alloc, scene, site, count)?;
    there_type(alloc, scene, site, around, declared, submodule, is_there)
}

/// The type of a submodule that is no vector.
fn single_type<'m, S: ModuleSource>(
    alloc: Global,
    scene: &'m S,
    site: &Module,
    around: &Module,
    declared: &'m TypeDeclaration,
    submodule: &'m Submodule,
) -> Result<Moved<'m>, InsideError>
    ensures moves { Moves (S.setting scene.now) result
        (if is_none ((S.setting scene.now).stands site.now).index
        then values.type_of_submodule (S.setting scene.now) site.now around.now declared.now
        submodule.now else Done (Err UnknownType)) }
    ensures costs { Costs (S.setting scene.now)
        (choice_weight (S.setting scene.now) site.now submodule.now.submodule_type) result }
{
    let is_there = is_alone(alloc, scene, site)?;
    there_type(alloc, scene, site, around, declared, submodule, is_there)
}

/// The type of an element, where it is one of a vector, or of a submodule that is none.
fn indexed_type<'m, S: ModuleSource>(
    alloc: Global,
    scene: &'m S,
    site: &Module,
    around: &Module,
    declared: &'m TypeDeclaration,
    submodule: &'m Submodule,
) -> Result<Moved<'m>, InsideError>
    ensures moves { Moves (S.setting scene.now) result (values.indexed_type (S.setting scene.now)
        site.now around.now declared.now submodule.now) }
    ensures costs { Costs (S.setting scene.now)
        (1 + choice_weight (S.setting scene.now) site.now submodule.now.submodule_type) result }
{
    if submodule.size.is_some() {
        let key = around.key(alloc, What::VectorSize(submodule.name.copy(alloc)?))?;
        let (site, around) = (site.copy(alloc)?, around.copy(alloc)?);
        return Ok(Moved::Asks(
            key,
            KeyProgress::TypeSize(site, around, declared, submodule),
        ));
    }
    single_type(alloc, scene, site, around, declared, submodule)
}

/// Goes on with the value of the condition.
pub fn type_held<'m, S: ModuleSource>(
    alloc: Global,
    scene: &'m S,
    site: &Module,
    around: &Module,
    declared: &'m TypeDeclaration,
    submodule: &'m Submodule,
    value: &Value,
) -> Result<Moved<'m>, InsideError>
    ensures moves { Moves (S.setting scene.now) result (goes_on (S.setting scene.now)
        (waits.TypeCondition site.now around.now declared.entry submodule.entry)
        (found_as.Value value.now)) }
    ensures costs { Costs (S.setting scene.now)
        (1 + choice_weight (S.setting scene.now) site.now submodule.now.submodule_type) result }
{
    match value {
        Value::Truth(true) => indexed_type(alloc, scene, site, around, declared, submodule),
        Value::Truth(false) => Err(InsideError::Fault(ModelFault::UnknownType)),
        _ => Err(InsideError::Fault(ModelFault::Value(ValueFault::Mismatch))),
    }
}

/// Goes on with the number of elements.
pub fn type_counted<'m, S: ModuleSource>(
    alloc: Global,
    scene: &'m S,
    site: &Module,
    around: &Module,
    declared: &'m TypeDeclaration,
    submodule: &'m Submodule,
    value: &Value,
) -> Result<Moved<'m>, InsideError>
    ensures moves { Moves (S.setting scene.now) result (goes_on (S.setting scene.now)
        (waits.TypeSize site.now around.now declared.entry submodule.entry)
        (found_as.Value value.now)) }
    ensures costs { Costs (S.setting scene.now)
        (choice_weight (S.setting scene.now) site.now submodule.now.submodule_type) result }
{
    let count = size(value)?;
    element_type(alloc, scene, site, around, declared, submodule, count)
}

/// Asks whether the condition of a submodule holds.
fn ask_condition<'m, S: ModuleSource>(
    alloc: Global,
    _scene: &'m S,
    site: &Module,
    around: &Module,
    declared: &'m TypeDeclaration,
    submodule: &'m Submodule,
) -> Result<Moved<'m>, InsideError>
    ensures moves { Moves (S.setting _scene.now)
        result (ask_then (key around.now (what_as.Condition submodule.now.name)) (λ v. truth_then v
        (values.indexed_type (S.setting _scene.now) site.now around.now declared.now submodule.now)
        (Done (Err UnknownType)))) }
    ensures costs { Costs (S.setting _scene.now)
        (2 + choice_weight (S.setting _scene.now) site.now submodule.now.submodule_type) result }
{
    let name = submodule.name.copy(alloc)?;
    let asked = around.key(alloc, What::Condition(name))?;
    let child = site.copy(alloc)?;
    let parent = around.copy(alloc)?;
    Ok(Moved::Asks(
        asked,
        KeyProgress::TypeCondition(child, parent, declared, submodule),
    ))
}

/// The type of a submodule that is declared so: its condition comes first.
fn conditioned_type<'m, S: ModuleSource>(
    alloc: Global,
    scene: &'m S,
    site: &Module,
    around: &Module,
    declared: &'m TypeDeclaration,
    submodule: &'m Submodule,
) -> Result<Moved<'m>, InsideError>
    ensures moves { Moves (S.setting scene.now) result (values.type_in (S.setting scene.now)
        site.now around.now declared.now (Some submodule.now)) }
    ensures costs { Costs (S.setting scene.now)
        (2 + choice_weight (S.setting scene.now) site.now submodule.now.submodule_type) result }
{
    if submodule.condition.is_some() {
        ask_condition(alloc, scene, site, around, declared, submodule)
    } else {
        indexed_type(alloc, scene, site, around, declared, submodule)
    }
}

/// The type of a submodule of the module around, if it is declared and there.
pub fn type_in<'m, S: ModuleSource>(
    alloc: Global,
    scene: &'m S,
    site: &Module,
    around: &Module,
    declared: &'m TypeDeclaration,
    submodule: Option<&'m Submodule>,
) -> Result<Moved<'m>, InsideError>
    ensures moves { Moves (S.setting scene.now) result (values.type_in (S.setting scene.now)
        site.now around.now declared.now (option_copied submodule.entry)) }
    ensures costs { Costs (S.setting scene.now)
        (chosen_weight (S.setting scene.now) site.now (option_copied submodule.entry)) result }
{
    match submodule {
        Some(submodule) => conditioned_type(alloc, scene, site, around, declared, submodule),
        None => Err(InsideError::Fault(ModelFault::UnknownType)),
    }
}
