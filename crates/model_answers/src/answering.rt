//! The answer to each question.

ghost use Rattle.std.specs.Prelude.{◌≡◌, [], IfOk};
ghost use Rattle.std.specs.Option.{option_copied};
ghost use Rattle.model_answers.specs.Answering.{answers_of, class_there, declared_there};
ghost use Rattle.model_answers.specs.Answering.{gates_there, hop_there, inside_there, type_at};
ghost use Rattle.model_answers.specs.Keyed as keyed;
ghost use Rattle.model_answers.specs.Reading.{settings_of, AreOfModel, IsRight};
ghost use Rattle.model_data.specs.Models.{network_of};
ghost use Rattle.model_injections.specs.Injections.{injection_before};
ghost use Rattle.model_questions.specs.Answers.{answer_of, gates_of, parameters_of};
ghost use Rattle.model_questions.specs.Gates.{gate_named};
ghost use Rattle.model_questions.specs.Records.{place_of, untyped};
ghost use Rattle.model_questions.specs.declared.answer.Answer.TheVariants as answer;
ghost use Rattle.model_settings.specs.Standings.{setting_of};

use crate::gates::{gates_answer, hop_answer};
use crate::insides::inside_answer;
use crate::keyed::{
    class_answer, param_answer, parameters_by, root_answer, type_number, value_answer,
};
use crate::named::gate_named;
use crate::placed::{ModelValues, placed_at};
use crate::reading::{Sources, module_of, own_table};
use inside_keys::key::Module;
use inside_run::scene::ModuleSource;
use model_data::model::Model;
use model_injections::injection::{Due, InjectionTurn, injection_before};
use model_inside::hops::Way;
use model_questions::answer::{Answer, Question, is_beyond};
use model_questions::record::Record;
use model_settings::created::RunSetting;
use module_api::call::{Gate, Parameter};
use ned_trees::declarations::TypeDeclaration;
use sim_values::NoMemory;
use sqlite_items::Items;
use std::alloc::Global;

/// The model's answer to a question, with the modules of these records.
#[tactic(auto, unfolding(crate::specs::Answering::answers_of))]
pub fn answer(
    alloc: Global,
    values: ModelValues<'_>,
    records: &[Record],
    question: &Question,
) -> Result<Answer, NoMemory>
    requires { AreOfModel values }
    ensures { IfOk result (λ found. found
        ≡ answer_of (answers_of values.entry.setting.now) records.now question.now) }
{
    match question {
        Question::Root => root_at(alloc, values),
        Question::TypeOf(id) => class_at(alloc, values, records, *id),
        Question::Build(id) => inside_at(alloc, values, records, *id),
        Question::Param(id, name) => value_at(alloc, values, records, *id, name.as_bytes()),
        Question::GateSize(id, name) => size_at(alloc, values, records, *id, name.as_bytes()),
        Question::Hop(id, name, index) => {
            hop_at(
                alloc,
                values,
                records,
                *id,
                Way::Onwards,
                name.as_bytes(),
                *index,
            )
        }
        Question::HopBack(id, name, index) => {
            hop_at(
                alloc,
                values,
                records,
                *id,
                Way::Back,
                name.as_bytes(),
                *index,
            )
        }
        Question::BeyondLimit(time) => {
            let limit = values.setting.model().time_limit();
            Ok(Answer::Beyond(is_beyond(limit, *time)))
        }
        Question::InjectionBefore(due, last) => {
            injection_answer(alloc, values.setting.model(), *due, *last)
        }
    }
}

/// The injection that goes before an event that is due then, after the one that was delivered last.
fn injection_answer(
    alloc: Global,
    model: &Model,
    due: Option<Due>,
    last: Option<InjectionTurn>,
) -> Result<Answer, NoMemory>
    ensures { IfOk result (λ found. found
        ≡ answer.Injection (injection_before due last model.now.injections)) }
{
    match injection_before(model.injections.as_slice(), due, last) {
        Some(injection) => Ok(Answer::Injection(Some(injection.copy(alloc)?))),
        None => Ok(Answer::Injection(None)),
    }
}

/// What a model says of its modules, where none was created while it ran.
fn plain_setting<'a>(alloc: Global, values: ModelValues<'a>) -> RunSetting<'a>
    ensures model { result.model.now ≡ values.entry.setting.now }
    ensures created { result.created ≡ [] }
{
    RunSetting {
        model: values.setting,
        created: Items::new(alloc),
    }
}

/// The same, with what is kept of it.
#[tactic(auto, using(model_settings::proofs::Before::none_created))]
fn plain_sources<'a>(setting: &'a RunSetting<'a>, values: ModelValues<'a>) -> Sources<'a>
    requires right { AreOfModel values }
    requires model { setting.now.model.now ≡ values.setting.now }
    requires created { setting.now.created ≡ [] }
    ensures setting { settings_of result ≡ setting_of values.entry.setting.now }
    ensures right { IsRight result }
{
    Sources {
        setting,
        kept: values.kept,
    }
}

/// Which network is run, or its first fault.
fn root_at(alloc: Global, values: ModelValues<'_>) -> Result<Answer, NoMemory>
    requires { AreOfModel values }
    ensures { IfOk result (λ found. found ≡ keyed.root_answer
        (setting_of values.entry.setting.now) (network_of values.entry.setting.now)) }
{
    let setting = plain_setting(alloc, values);
    let from = plain_sources(&setting, values);
    root_answer(alloc, from, values.setting.model().network())
}

/// The class of the module of that id, where it was created while the run went on.
#[tactic(auto, using(crate::proofs::Lines::class_told, crate::proofs::Lines::no_class))]
fn class_at(
    alloc: Global,
    values: ModelValues<'_>,
    records: &[Record],
    id: u32,
) -> Result<Answer, NoMemory>
    requires { AreOfModel values }
    ensures { IfOk result (λ found. found
        ≡ class_there values.entry.setting.now (untyped (place_of records.now id))) }
{
    match placed_at(alloc, values, records, id)? {
        Some(placed) => class_answer(alloc, placed.sources(), &placed.site),
        None => Ok(Answer::Absent),
    }
}

/// What is inside of the compound module of that id.
#[tactic(auto, using(crate::proofs::Lines::inside_told, crate::proofs::Lines::no_inside))]
fn inside_at(
    alloc: Global,
    values: ModelValues<'_>,
    records: &[Record],
    id: u32,
) -> Result<Answer, NoMemory>
    requires { AreOfModel values }
    ensures { IfOk result
        (λ found. found ≡ inside_there values.entry.setting.now (place_of records.now id)) }
{
    match placed_at(alloc, values, records, id)? {
        Some(placed) => inside_answer(alloc, placed.sources(), &placed.site),
        None => Ok(Answer::Absent),
    }
}

/// The value of a parameter of the module of that id.
#[tactic(auto, using(crate::proofs::Lines::declared_told, crate::proofs::Lines::none_declared))]
fn value_at(
    alloc: Global,
    values: ModelValues<'_>,
    records: &[Record],
    id: u32,
    name: &[u8],
) -> Result<Answer, NoMemory>
    requires { AreOfModel values }
    ensures { IfOk result (λ found. found
        ≡ declared_there values.entry.setting.now (place_of records.now id) name.now) }
{
    match placed_at(alloc, values, records, id)? {
        Some(placed) => param_answer(alloc, placed.sources(), &placed.site, name),
        None => Ok(Answer::Absent),
    }
}

/// The gate of that name of the module of that id, with its size.
fn size_at(
    alloc: Global,
    values: ModelValues<'_>,
    records: &[Record],
    id: u32,
    name: &[u8],
) -> Result<Answer, NoMemory>
    requires { AreOfModel values }
    ensures { IfOk result (λ found. found
        ≡ gate_named name.now (gates_there values.entry.setting.now (place_of records.now id))) }
{
    let gates = gates_at(alloc, values, records, id)?;
    gate_named(alloc, name, gates.as_slice())
}

/// The next gate after a gate of the module of that id, or the one from which messages come to it.
#[tactic(auto, using(crate::proofs::Lines::hop_told, crate::proofs::Lines::no_hop))]
fn hop_at(
    alloc: Global,
    values: ModelValues<'_>,
    records: &[Record],
    id: u32,
    way: Way,
    name: &[u8],
    index: u32,
) -> Result<Answer, NoMemory>
    requires { AreOfModel values }
    ensures { IfOk result (λ found. found
        ≡ hop_there values.entry.setting.now way (place_of records.now id) name.now index) }
{
    match placed_at(alloc, values, records, id)? {
        Some(placed) => hop_answer(alloc, placed.sources(), &placed.site, way, name, index),
        None => Ok(Answer::Absent),
    }
}

/// The gates of the module of that id, in the order of their declaration.
#[tactic(auto, using(crate::proofs::Lines::gates_told, crate::proofs::Lines::no_gates))]
fn gates_at(
    alloc: Global,
    values: ModelValues<'_>,
    records: &[Record],
    id: u32,
) -> Result<Items<Gate>, NoMemory>
    requires { AreOfModel values }
    ensures { IfOk result
        (λ gates. gates ≡ gates_there values.entry.setting.now (place_of records.now id)) }
{
    match placed_at(alloc, values, records, id)? {
        Some(placed) => gates_answer(alloc, placed.sources(), &placed.site),
        None => Ok(Items::new(alloc)),
    }
}

/// All parameters of the module of that id that have values, in the order of their declaration.
#[tactic(auto, using(crate::proofs::Lines::parameters_told, crate::proofs::Lines::no_parameters), unfolding(crate::specs::Answering::answers_of))]
pub fn parameters_of(
    alloc: Global,
    values: ModelValues<'_>,
    records: &[Record],
    id: u32,
) -> Result<Items<Parameter>, NoMemory>
    requires { AreOfModel values }
    ensures { IfOk result (λ parameters. parameters
        ≡ parameters_of (answers_of values.entry.setting.now) records.now id) }
{
    match placed_at(alloc, values, records, id)? {
        Some(placed) => parameters_by(alloc, placed.sources(), &placed.site),
        None => Ok(Items::new(alloc)),
    }
}

/// All gates of the module of that id, in the order of their declaration.
#[tactic(auto, unfolding(crate::specs::Answering::answers_of))]
pub fn gates_of(
    alloc: Global,
    values: ModelValues<'_>,
    records: &[Record],
    id: u32,
) -> Result<Items<Gate>, NoMemory>
    requires { AreOfModel values }
    ensures { IfOk result
        (λ gates. gates ≡ gates_of (answers_of values.entry.setting.now) records.now id) }
{
    gates_at(alloc, values, records, id)
}

/// The value of a parameter of the module of that path, or its fault, where none was created while
/// the model ran.
pub fn value_of_path(
    alloc: Global,
    values: ModelValues<'_>,
    path: &[u8],
    name: &[u8],
) -> Result<Answer, NoMemory>
    requires { AreOfModel values }
    ensures { IfOk result (λ found. found ≡ keyed.value_in
        (setting_of values.entry.setting.now) (keyed.module_at path.now) name.now) }
{
    let setting = plain_setting(alloc, values);
    let from = plain_sources(&setting, values);
    let mut own = own_table(alloc, from);
    let site = module_of(alloc, path)?;
    value_answer(alloc, from, &mut own, &site, name)
}

/// The number of the type of a module, where it has one.
fn number_of(alloc: Global, from: Sources<'_>, site: &Module) -> Result<Option<usize>, NoMemory>
    requires { IsRight from }
    ensures { IfOk result (λ number. keyed.type_at_number (settings_of from.entry).types number
        ≡ keyed.type_of (settings_of from.entry) site.now) }
{
    let mut own = own_table(alloc, from);
    type_number(alloc, from, &mut own, site)
}

/// The type of that number.
fn type_by(values: ModelValues<'_>, number: Option<usize>) -> Option<&TypeDeclaration>
    ensures { option_copied result
        ≡ keyed.type_at_number (setting_of values.entry.setting.now).types number }
{
    let number = number?;
    values.setting.types().get(number)
}

/// The type of the module of that path, where none was created while the model ran.
pub fn type_of_path<'a>(
    alloc: Global,
    values: ModelValues<'a>,
    path: &[u8],
) -> Result<Option<&'a TypeDeclaration>, NoMemory>
    requires { AreOfModel values }
    ensures { IfOk result (λ found. option_copied found
        ≡ keyed.type_of (setting_of values.entry.setting.now) (keyed.module_at path.now)) }
{
    let setting = plain_setting(alloc, values);
    let site = module_of(alloc, path)?;
    let number = number_of(alloc, plain_sources(&setting, values), &site)?;
    Ok(type_by(values, number))
}

/// The type of the module of that id.
#[tactic(auto, using(crate::proofs::Lines::type_told, crate::proofs::Lines::no_type))]
pub fn type_at<'a>(
    alloc: Global,
    values: ModelValues<'a>,
    records: &[Record],
    id: u32,
) -> Result<Option<&'a TypeDeclaration>, NoMemory>
    requires { AreOfModel values }
    ensures { IfOk result
        (λ found. option_copied found ≡ type_at values.entry.setting.now records.now id) }
{
    match placed_at(alloc, values, records, id)? {
        Some(placed) => {
            let number = number_of(alloc, placed.sources(), &placed.site)?;
            Ok(type_by(values, number))
        }
        None => Ok(None),
    }
}
