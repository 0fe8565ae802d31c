//! Types of modules, values of parameters, and what is wrong with the network.

ghost use Rattle.std.specs.Prelude.{◌≡◌, ◌++◌, ◌∷◌, [], IfOk, IfSome, OnOk, Some};
ghost use Rattle.std.specs.List.{list_any};
ghost use Rattle.std.specs.Option.{option_copied};
ghost use Rattle.std.specs.Result.{result_ok};
ghost use Rattle.ned_types.specs.Flat.{or_else};
ghost use Rattle.param_engine.specs.Tables.{IsKept};
ghost use Rattle.inside_keys.specs.Asked.{numbered_by};
ghost use Rattle.inside_keys.specs.Values.{rules_of};
ghost use Rattle.inside_parts.specs.Gates as type_gates;
ghost use Rattle.inside_keys.specs.declared.key.What.TheVariants as of;
ghost use Rattle.model_answers.specs.Keyed as keyed;
ghost use Rattle.model_answers.specs.Reading.{maybe_copied, result_copied, settings_of, type_by};
ghost use Rattle.model_answers.specs.Reading.{IsNumbered, IsRight};
ghost use Rattle.model_questions.specs.Answers.{is_declared, with_value, with_values};

use crate::reading::{Sources, module_of, own_table, said, value_of};
use inside_keys::found::Found;
use inside_keys::key::{Key, Module, What};
use inside_keys::planned::Planned;
use inside_keys::sizes::misplaced;
use inside_parts::fault::InsideError;
use inside_parts::gates::{TypeGate, TypeGates, gates_of};
use inside_run::scene::ModuleSource;
use inside_walk::submodules::number;
use model_inside::built::class_to_build;
use model_questions::answer::Answer;
use module_api::call::Parameter;
use ned_trees::declarations::{SectionLine, TypeDeclaration};
use ned_types::flat::declaration_named;
use ned_types::given::name_in;
use param_engine::table::Table;
use sim_values::NoMemory;
use sim_values::model_fault::ModelFault;
use sim_values::text::Text;
use sim_values::value::Value;
use sim_values::value_fault::ValueFault;
use sqlite_items::Items;
use std::alloc::Global;

// ---- types

/// The number that a value is, where it is one of a type.
fn told_number(value: &Value) -> Result<Option<usize>, NoMemory>
    ensures { IfOk result (λ found. found ≡ result_ok (numbered_by value.now)) }
{
    match number(value) {
        Ok(number) => Ok(Some(number)),
        Err(InsideError::Fault(_)) => Ok(None),
        Err(InsideError::Memory(error)) => Err(error),
    }
}

/// The number that was found, if one was.
fn number_in(found: Option<Result<&Found, ModelFault>>) -> Result<Option<usize>, NoMemory>
    ensures { IfOk result (λ number. number ≡ keyed.maybe_number (maybe_copied found.entry)) }
{
    match found {
        Some(Ok(Found::Value(value))) => told_number(value),
        Some(Ok(Found::Carrier(_))) | Some(Ok(Found::Inside(_))) => Ok(None),
        Some(Err(_)) | None => Ok(None),
    }
}

/// A type, with its number among all types.
#[derive(Clone, Copy)]
pub struct Typed<'a> {
    pub number: usize,
    pub declared: &'a TypeDeclaration,
}

/// The type of that number.
fn typed_at(types: &[TypeDeclaration], number: Option<usize>) -> Option<Typed<'_>>
    ensures value { type_by result ≡ keyed.type_at_number types.now number }
    ensures there { IfSome result
        (λ t. keyed.type_at_number types.now (Some t.number) ≡ Some t.declared.now) }
{
    let number = number?;
    match types.get(number) {
        Some(declared) => Some(Typed { number, declared }),
        None => None,
    }
}

/// The number of the type of a module.
pub fn type_number(
    alloc: Global,
    from: Sources<'_>,
    own: &mut Table<Key, Found>,
    site: &Module,
) -> Result<Option<usize>, NoMemory>
    requires right { IsRight from }
    requires own { IsKept (rules_of (settings_of from)) own.old.entries }
    ensures value { IfOk result (λ number. number
        ≡ keyed.number_in (keyed.value_of (settings_of from.entry) site.now of.Type)) }
    ensures kept { IsKept (rules_of (settings_of from.entry)) own.new.entries }
{
    let found = value_of(alloc, from, own, site, What::Type)?;
    number_in(said(from, own, found))
}

/// The type of a module.
pub fn type_of<'a>(
    alloc: Global,
    from: Sources<'a>,
    own: &mut Table<Key, Found>,
    site: &Module,
) -> Result<Option<Typed<'a>>, NoMemory>
    requires right { IsRight from }
    requires own { IsKept (rules_of (settings_of from)) own.old.entries }
    ensures value { IfOk result
        (λ found. type_by found ≡ keyed.type_of (settings_of from.entry) site.now) }
    ensures there { IfOk result
        (λ found. IfSome found (λ t. IsNumbered (settings_of from.entry) t)) }
    ensures kept { IsKept (rules_of (settings_of from.entry)) own.new.entries }
{
    let number = type_number(alloc, from, own, site)?;
    Ok(typed_at(from.setting.types(), number))
}

// ---- parameters

/// What a value answers, of the module of that path.
fn answer_by(
    alloc: Global,
    path: &[u8],
    found: Result<&Found, ModelFault>,
) -> Result<Answer, NoMemory>
    ensures { IfOk result
        (λ answer. answer ≡ keyed.value_answer path.now (result_copied found.entry)) }
{
    match found {
        Ok(Found::Value(value)) => Ok(Answer::Value(value.copy(alloc)?)),
        Ok(Found::Carrier(_)) | Ok(Found::Inside(_)) => Ok(Answer::Absent),
        Err(fault) => Ok(Answer::Fault(Text::from_bytes(alloc, path)?, fault)),
    }
}

/// The value of a parameter of a module.
pub fn value_answer(
    alloc: Global,
    from: Sources<'_>,
    own: &mut Table<Key, Found>,
    site: &Module,
    name: &[u8],
) -> Result<Answer, NoMemory>
    requires right { IsRight from }
    requires own { IsKept (rules_of (settings_of from)) own.old.entries }
    ensures value { IfOk result (λ found. found ≡ keyed.value_answer site.now.path
        (keyed.value_of (settings_of from.entry) site.now (of.Param name.now))) }
    ensures kept { IsKept (rules_of (settings_of from.entry)) own.new.entries }
{
    let what = What::Param(Text::from_bytes(alloc, name)?);
    let found = value_of(alloc, from, own, site, what)?;
    match said(from, own, found) {
        Some(found) => answer_by(alloc, site.path.as_bytes(), found),
        None => Ok(Answer::Absent),
    }
}

/// Whether these lines declare a parameter of that name.
fn is_declared(name: &[u8], lines: &[SectionLine]) -> bool
    ensures { result ≡ is_declared name.now (keyed.names_in lines.now) }
{
    match declaration_named(name, lines) {
        Some(_) => true,
        None => false,
    }
}

/// The value of a parameter of a module, where its type declares one of that name.
pub fn param_answer(
    alloc: Global,
    from: Sources<'_>,
    site: &Module,
    name: &[u8],
) -> Result<Answer, NoMemory>
    requires { IsRight from }
    ensures { IfOk result (λ found. found ≡ keyed.declared_answer (settings_of from.entry) site.now
        (keyed.type_of (settings_of from.entry) site.now) name.now) }
{
    let mut own = own_table(alloc, from);
    let Some(of_type) = type_of(alloc, from, &mut own, site)? else {
        return Ok(Answer::Absent);
    };
    if !is_declared(name, of_type.declared.lines.as_slice()) {
        return Ok(Answer::Absent);
    }
    value_answer(alloc, from, &mut own, site, name)
}

/// Adds a parameter of a module, where it has a value.
fn push_parameter(
    parameters: &mut Items<Parameter>,
    alloc: Global,
    from: Sources<'_>,
    own: &mut Table<Key, Found>,
    site: &Module,
    name: &[u8],
) -> Result<(), NoMemory>
    requires right { IsRight from }
    requires own { IsKept (rules_of (settings_of from)) own.old.entries }
    ensures pushed { OnOk result (parameters.new ≡ parameters.old
        ++ with_value name.now (keyed.value_in (settings_of from.entry) site.now name.now) []) }
    ensures kept { IsKept (rules_of (settings_of from.entry)) own.new.entries }
{
    match value_answer(alloc, from, own, site, name)? {
        Answer::Value(value) => parameters.push(Parameter {
            name: Text::from_bytes(alloc, name)?,
            value,
        })?,
        Answer::Root(_)
        | Answer::Class(_)
        | Answer::Inside(_)
        | Answer::Gate(_)
        | Answer::Next(_)
        | Answer::Fault(_, _)
        | Answer::Beyond(_)
        | Answer::Injection(_)
        | Answer::Absent => {}
    }
    Ok(())
}

/// Adds the parameter that a line declares.
fn push_line(
    parameters: &mut Items<Parameter>,
    alloc: Global,
    from: Sources<'_>,
    own: &mut Table<Key, Found>,
    site: &Module,
    line: &SectionLine,
) -> Result<(), NoMemory>
    requires right { IsRight from }
    requires own { IsKept (rules_of (settings_of from)) own.old.entries }
    ensures pushed { OnOk result (parameters.new ≡ parameters.old ++ with_values
        (keyed.value_in (settings_of from.entry) site.now) (keyed.names_in (line.now ∷ []))) }
    ensures kept { IsKept (rules_of (settings_of from.entry)) own.new.entries }
{
    let SectionLine::Declaration(declaration) = line else {
        return Ok(());
    };
    push_parameter(
        parameters,
        alloc,
        from,
        own,
        site,
        declaration.name.as_bytes(),
    )
}

/// Adds the parameters that these lines declare.
fn push_lines(
    parameters: &mut Items<Parameter>,
    alloc: Global,
    from: Sources<'_>,
    own: &mut Table<Key, Found>,
    site: &Module,
    lines: &[SectionLine],
) -> Result<(), NoMemory>
    requires right { IsRight from }
    requires own { IsKept (rules_of (settings_of from)) own.old.entries }
    ensures { OnOk result (parameters.new ≡ parameters.old ++ with_values
        (keyed.value_in (settings_of from.entry) site.now) (keyed.names_in lines.now)) }
{
    for line in lines {
        push_line(parameters, alloc, from, own, site, line)?;
    }
    Ok(())
}

/// All parameters of a module that have values, in the order of their declaration.
pub fn parameters_by(
    alloc: Global,
    from: Sources<'_>,
    site: &Module,
) -> Result<Items<Parameter>, NoMemory>
    requires { IsRight from }
    ensures { IfOk result (λ parameters. parameters ≡ keyed.parameters_by (settings_of from.entry)
        site.now (keyed.type_of (settings_of from.entry) site.now)) }
{
    let mut parameters = Items::new(alloc);
    let mut own = own_table(alloc, from);
    let Some(of_type) = type_of(alloc, from, &mut own, site)? else {
        return Ok(parameters);
    };
    let lines = of_type.declared.lines.as_slice();
    push_lines(&mut parameters, alloc, from, &mut own, site, lines)?;
    Ok(parameters)
}

// ---- the network

/// The fault that was found.
fn fault_in(found: Option<Result<&Found, ModelFault>>) -> Option<ModelFault>
    ensures { result ≡ keyed.maybe_fault (maybe_copied found.entry) }
{
    match found {
        Some(Err(fault)) => Some(fault),
        Some(Ok(_)) | None => None,
    }
}

/// The fault of something of a module, if it has one.
fn fault_of(
    alloc: Global,
    from: Sources<'_>,
    own: &mut Table<Key, Found>,
    site: &Module,
    what: What,
) -> Result<Option<ModelFault>, NoMemory>
    requires right { IsRight from }
    requires own { IsKept (rules_of (settings_of from)) own.old.entries }
    ensures value { IfOk result
        (λ fault. fault ≡ keyed.fault_in (keyed.value_of (settings_of from.entry) site.now what)) }
    ensures kept { IsKept (rules_of (settings_of from.entry)) own.new.entries }
{
    let found = value_of(alloc, from, own, site, what)?;
    Ok(fault_in(said(from, own, found)))
}

/// The fault of the parameter that a line declares.
fn fault_of_line(
    alloc: Global,
    from: Sources<'_>,
    own: &mut Table<Key, Found>,
    site: &Module,
    line: &SectionLine,
) -> Result<Option<ModelFault>, NoMemory>
    requires right { IsRight from }
    requires own { IsKept (rules_of (settings_of from)) own.old.entries }
    ensures value { IfOk result
        (λ fault. fault ≡ keyed.fault_of_line (settings_of from.entry) site.now line.now) }
    ensures kept { IsKept (rules_of (settings_of from.entry)) own.new.entries }
{
    match line {
        SectionLine::Declaration(declaration) => {
            let what = What::Param(declaration.name.copy(alloc)?);
            fault_of(alloc, from, own, site, what)
        }
        _ => Ok(None),
    }
}

/// The first fault of the parameters of a module that these lines declare.
fn fault_of_lines(
    alloc: Global,
    from: Sources<'_>,
    own: &mut Table<Key, Found>,
    site: &Module,
    lines: &[SectionLine],
) -> Result<Option<ModelFault>, NoMemory>
    requires right { IsRight from }
    requires own { IsKept (rules_of (settings_of from)) own.old.entries }
    ensures value { IfOk result
        (λ fault. fault ≡ keyed.fault_of_lines (settings_of from.entry) site.now lines.now) }
    ensures kept { OnOk result (IsKept (rules_of (settings_of from.entry)) own.new.entries) }
{
    for line in lines {
        if let Some(fault) = fault_of_line(alloc, from, own, site, line)? {
            return Ok(Some(fault));
        }
    }
    Ok(None)
}

/// The fault of the declared size of a gate.
fn fault_of_size(
    alloc: Global,
    from: Sources<'_>,
    own: &mut Table<Key, Found>,
    site: &Module,
    gate: &TypeGate,
) -> Result<Option<ModelFault>, NoMemory>
    requires right { IsRight from }
    requires own { IsKept (rules_of (settings_of from)) own.old.entries }
    ensures value { IfOk result
        (λ fault. fault ≡ keyed.fault_of_size (settings_of from.entry) site.now gate.now) }
    ensures kept { IsKept (rules_of (settings_of from.entry)) own.new.entries }
{
    if !gate.kind.is_vector {
        return Ok(None);
    }
    let what = What::Declared(gate.name.copy(alloc)?);
    fault_of(alloc, from, own, site, what)
}

/// The first fault of the declared sizes of these gates.
fn fault_of_sizes(
    alloc: Global,
    from: Sources<'_>,
    own: &mut Table<Key, Found>,
    site: &Module,
    gates: &[TypeGate],
) -> Result<Option<ModelFault>, NoMemory>
    requires right { IsRight from }
    requires own { IsKept (rules_of (settings_of from)) own.old.entries }
    ensures { IfOk result
        (λ fault. fault ≡ keyed.fault_of_sizes (settings_of from.entry) site.now gates.now) }
{
    for gate in gates {
        if let Some(fault) = fault_of_size(alloc, from, own, site, gate)? {
            return Ok(Some(fault));
        }
    }
    Ok(None)
}

/// The fault of a line for what is no gate, or of a size for what is no gate vector.
fn fault_of_misplaced(
    alloc: Global,
    from: Sources<'_>,
    own: &mut Table<Key, Found>,
    site: &Module,
    name: Option<&Text>,
) -> Result<Option<ModelFault>, NoMemory>
    requires right { IsRight from }
    requires own { IsKept (rules_of (settings_of from)) own.old.entries }
    ensures value { IfOk result (λ fault. fault ≡ keyed.fault_of_misplaced (settings_of from.entry)
        site.now (option_copied name.entry)) }
    ensures kept { OnOk result (IsKept (rules_of (settings_of from.entry)) own.new.entries) }
{
    match name {
        Some(name) => fault_of(alloc, from, own, site, What::Declared(name.copy(alloc)?)),
        None => Ok(None),
    }
}

/// The first fault of the sizes that a type gives its gates.
fn fault_of_gates(
    alloc: Global,
    from: Sources<'_>,
    own: &mut Table<Key, Found>,
    site: &Module,
    declared: &TypeDeclaration,
    gates: &TypeGates,
) -> Result<Option<ModelFault>, NoMemory>
    requires right { IsRight from }
    requires own { IsKept (rules_of (settings_of from)) own.old.entries }
    ensures { IfOk result (λ fault. fault
        ≡ keyed.fault_of_gates (settings_of from.entry) site.now declared.now gates.now) }
{
    let misplaced = misplaced(gates, declared.gates.as_slice());
    if let Some(fault) = fault_of_misplaced(alloc, from, own, site, misplaced)? {
        return Ok(Some(fault));
    }
    fault_of_sizes(alloc, from, own, site, gates.gates.as_slice())
}

/// The first fault of the network of that type: of its parameters, and then of the sizes of its
/// gates.
fn fault_of_network(
    alloc: Global,
    from: Sources<'_>,
    network: &TypeDeclaration,
) -> Result<Option<ModelFault>, NoMemory>
    requires { IsRight from }
    ensures { IfOk result
        (λ fault. fault ≡ keyed.fault_of_network (settings_of from.entry) network.now) }
{
    let mut own = own_table(alloc, from);
    let site = module_of(alloc, network.name.as_bytes())?;
    if let Some(fault) = fault_of_lines(alloc, from, &mut own, &site, network.lines.as_slice())? {
        return Ok(Some(fault));
    }
    let gates = gates_of(alloc, network.gates.as_slice())?;
    fault_of_gates(alloc, from, &mut own, &site, network, &gates)
}

/// Which network is run, or its first fault.
pub fn root_answer(
    alloc: Global,
    from: Sources<'_>,
    network: Option<&TypeDeclaration>,
) -> Result<Answer, NoMemory>
    requires { IsRight from }
    ensures { IfOk result (λ found. found
        ≡ keyed.root_answer (settings_of from.entry) (option_copied network.entry)) }
{
    let Some(network) = network else {
        return Ok(Answer::Absent);
    };
    let fault = fault_of_network(alloc, from, network)?;
    let name = network.name.copy(alloc)?;
    match fault {
        Some(fault) => Ok(Answer::Fault(name, fault)),
        None => Ok(Answer::Root(name)),
    }
}

// ---- modules that were created

/// Whether a line names what is no parameter that these lines declare.
fn is_undeclared(lines: &[SectionLine], line: &SectionLine) -> bool
    ensures { result ≡ keyed.is_undeclared lines.now line.now }
{
    !is_declared(name_in(line), lines)
}

/// Whether one of these lines does.
fn has_undeclared(lines: &[SectionLine], given: &[SectionLine]) -> bool
    ensures { result ≡ list_any (λ l. keyed.is_undeclared lines.now l) given.now }
{
    given.iter().any(|line| is_undeclared(lines, line))
}

/// What is wrong with a plan, whatever its values are.
fn fault_of_plan(
    declared: &TypeDeclaration,
    gates: &TypeGates,
    planned: &Planned,
) -> Option<ModelFault>
    ensures { result ≡ keyed.fault_of_plan declared.now gates.now planned.now }
{
    if has_undeclared(declared.lines.as_slice(), planned.body.lines.as_slice()) {
        return Some(ModelFault::Value(ValueFault::Mismatch));
    }
    match misplaced(gates, planned.body.gates.as_slice()) {
        Some(_) => Some(ModelFault::NoGate),
        None => None,
    }
}

/// The first fault of the parameters of a module of that type, and then of the sizes of its gates.
fn fault_of_values(
    alloc: Global,
    from: Sources<'_>,
    own: &mut Table<Key, Found>,
    site: &Module,
    declared: &TypeDeclaration,
    gates: &TypeGates,
) -> Result<Option<ModelFault>, NoMemory>
    requires right { IsRight from }
    requires own { IsKept (rules_of (settings_of from)) own.old.entries }
    ensures { IfOk result (λ fault. fault ≡ or_else
        (keyed.fault_of_lines (settings_of from.entry) site.now declared.now.lines)
        (keyed.fault_of_gates (settings_of from.entry) site.now declared.now gates.now)) }
{
    if let Some(fault) = fault_of_lines(alloc, from, own, site, declared.lines.as_slice())? {
        return Ok(Some(fault));
    }
    fault_of_gates(alloc, from, own, site, declared, gates)
}

/// The first fault of a module of that type that was created so.
fn fault_of_created(
    alloc: Global,
    from: Sources<'_>,
    own: &mut Table<Key, Found>,
    site: &Module,
    declared: &TypeDeclaration,
    planned: &Planned,
) -> Result<Option<ModelFault>, NoMemory>
    requires right { IsRight from }
    requires own { IsKept (rules_of (settings_of from)) own.old.entries }
    ensures { IfOk result (λ fault. fault
        ≡ keyed.fault_of_created (settings_of from.entry) site.now declared.now
        (type_gates.gates_of declared.now.gates) planned.now) }
{
    let gates = gates_of(alloc, declared.gates.as_slice())?;
    if let Some(fault) = fault_of_plan(declared, &gates, planned) {
        return Ok(Some(fault));
    }
    fault_of_values(alloc, from, own, site, declared, &gates)
}

/// The class of a module of that type, or that fault.
fn class_without(
    alloc: Global,
    site: &Module,
    declared: &TypeDeclaration,
    fault: Option<ModelFault>,
) -> Result<Answer, NoMemory>
    ensures { IfOk result
        (λ answer. answer ≡ keyed.class_without site.now declared.now fault) }
{
    match fault {
        Some(fault) => Ok(Answer::Fault(site.path.copy(alloc)?, fault)),
        None => Ok(Answer::Class(class_to_build(alloc, declared)?)),
    }
}

/// The class of a module that was created so, or its first fault.
fn class_of(
    alloc: Global,
    from: Sources<'_>,
    site: &Module,
    planned: &Planned,
) -> Result<Answer, NoMemory>
    requires { IsRight from }
    ensures { IfOk result (λ answer. answer ≡ keyed.class_by (settings_of from.entry) site.now
        planned.now (keyed.fault_in (keyed.value_of (settings_of from.entry) site.now of.Type))
        (keyed.type_of (settings_of from.entry) site.now)) }
{
    let mut own = own_table(alloc, from);
    if let Some(fault) = fault_of(alloc, from, &mut own, site, What::Type)? {
        return Ok(Answer::Fault(site.path.copy(alloc)?, fault));
    }
    let Some(of_type) = type_of(alloc, from, &mut own, site)? else {
        return Ok(Answer::Absent);
    };
    let declared = of_type.declared;
    let fault = fault_of_created(alloc, from, &mut own, site, declared, planned)?;
    class_without(alloc, site, declared, fault)
}

/// The class of a module, where it was created while the run went on.
pub fn class_answer(alloc: Global, from: Sources<'_>, site: &Module) -> Result<Answer, NoMemory>
    requires { IsRight from }
    ensures { IfOk result (λ answer. answer ≡ keyed.class_answer (settings_of from.entry) site.now
        ((settings_of from.entry).planned site.now)) }
{
    match from.setting.planned(site) {
        Some(planned) => class_of(alloc, from, site, planned),
        None => Ok(Answer::Absent),
    }
}
