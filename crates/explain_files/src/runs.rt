//! Why a run ended with a fault.

use crate::created::{is_created, tell_created};
use crate::given::entry_giving;
use crate::insides::{fault_of, tell_inside};
use crate::kinds::{kind_of, kind_of_value, literal_in, say_unit};
use crate::modules::{Declared, ToldFault, declared_at};
use crate::reading::read_types;
use crate::sites::{tell_fault_inside, tell_misplaced};
use explain_types::explanation::Explanation;
use explain_types::names::shown;
use explain_types::ned_files::Files;
use explain_types::sources::Sources;
use explain_types::values::{GivenParameter, tell_place_of_value};
use ini_entries::constants::is_constant;
use ini_trees::entries::value_for;
use ini_trees::entry::{EntryMeaning, EntryValue};
use ini_trees::lines::IniEntry;
use model_answers::evaluated::EvaluatedModel;
use model_answers::plain::PlainAnswers;
use model_data::model::Model;
use model_questions::answer::Answer;
use model_questions::record::path_under;
use model_reading::begin::model_of;
use ned_trees::declarations::{
    Declaration, ParameterValue, SectionLine, TypeDeclaration, TypeKind,
};
use ned_trees::expressions::Expression;
use ned_types::flat::{class_of, last_value};
use run_semantics::outcome::RunFault;
use sim_values::NoMemory;
use sim_values::model_fault::ModelFault;
use sim_values::text::Text;
use sim_values::value_fault::ValueFault;
use std::alloc::Global;

/// A module of a model that answers: its path, its type, and its declaration, which the network has
/// none of.
#[derive(Clone, Copy)]
struct Found<'a> {
    answers: &'a PlainAnswers<'a>,
    path: &'a [u8],
    of: &'a TypeDeclaration,
    declared: Option<Declared<'a>>,
}

/// The module of that path.
fn found_at<'a>(
    alloc: Global,
    answers: &'a PlainAnswers<'a>,
    path: &'a [u8],
) -> Result<Option<Found<'a>>, NoMemory> {
    let Some(of) = answers.type_at_path(alloc, path)? else {
        return Ok(None);
    };
    let declared = declared_at(alloc, answers, path)?;
    Ok(Some(Found {
        answers,
        path,
        of,
        declared,
    }))
}

/// What the body of a module says.
fn body_of<'a>(it: &Found<'a>) -> &'a [SectionLine] {
    match it.declared {
        Some(declared) => declared.submodule.body.lines.as_slice(),
        None => &[],
    }
}

/// What the NED files give a parameter of that name of a module: its body goes before its type.
fn given<'a>(it: &Found<'a>, name: &[u8]) -> Option<&'a ParameterValue> {
    match last_value(name, body_of(it)) {
        Some(value) => Some(value),
        None => last_value(name, it.of.lines.as_slice()),
    }
}

/// Whether the value of the parameter of that name has that fault.
fn has_fault(
    alloc: Global,
    it: &Found<'_>,
    name: &[u8],
    fault: ValueFault,
) -> Result<bool, NoMemory> {
    match it.answers.value_at_path(alloc, it.path, name)? {
        Answer::Fault(_, found) => Ok(found == ModelFault::Value(fault)),
        _ => Ok(false),
    }
}

/// The first parameter of a module whose value has that fault. One to which no NED text gives a
/// value goes before those that may refer to it.
fn blamed<'a>(
    alloc: Global,
    it: &Found<'a>,
    fault: ValueFault,
) -> Result<Option<&'a Declaration>, NoMemory> {
    let mut first = None;
    for line in it.of.lines.as_slice() {
        if let SectionLine::Declaration(declaration) = line {
            let name = declaration.name.as_bytes();
            if has_fault(alloc, it, name, fault)? {
                if given(it, name).is_none() {
                    return Ok(Some(declaration));
                }
                first = first.or(Some(declaration));
            }
        }
    }
    Ok(first)
}

/// The fault of a parameter that ended a run, where it is one that a parameter can have.
fn parameter_fault(fault: &RunFault) -> Option<ValueFault> {
    match fault {
        RunFault::Model(ModelFault::Value(ValueFault::TooDeep)) => None,
        RunFault::Model(ModelFault::Value(fault)) => Some(*fault),
        _ => None,
    }
}

/// Whether an entry of the ini text gives a value to the parameter of that name of a module.
fn is_given_in_ini(alloc: Global, it: &Found<'_>, name: &[u8]) -> Result<bool, NoMemory> {
    let full = path_under(alloc, it.path, name)?;
    let model = it.answers.model();
    let entry = value_for(model.ini.lines(), model.chain.as_slice(), full.as_bytes());
    Ok(matches!(entry, Some(EntryValue::Given(_))))
}

/// The value that a NED file gives a parameter of that name of a module, where no entry of the ini
/// text goes before it.
fn given_in_ned<'a>(
    alloc: Global,
    it: &Found<'a>,
    name: &[u8],
) -> Result<Option<&'a Expression>, NoMemory> {
    match given(it, name) {
        Some(ParameterValue::Fixed(expression)) => Ok(Some(expression)),
        Some(ParameterValue::Default(expression)) => {
            if is_given_in_ini(alloc, it, name)? {
                return Ok(None);
            }
            Ok(Some(expression))
        }
        None => Ok(None),
    }
}

/// A parameter of a module that has a fault.
#[derive(Clone, Copy)]
struct Faulty<'a> {
    /// The path of the module.
    path: &'a str,
    declaration: &'a Declaration,
    fault: ValueFault,
}

/// Says the path of a parameter.
fn say_path(told: &mut Explanation, it: Faulty<'_>) {
    told.say_front(it.path.as_bytes());
    told.say(".");
    told.say_front(it.declaration.name.as_bytes());
}

/// Says that something is so of the value of a parameter, which an entry of the ini text gives
/// where there is one.
fn say_of_value(
    told: &mut Explanation,
    before: &str,
    it: Faulty<'_>,
    entry: Option<&IniEntry>,
    what: &str,
) {
    told.say(before);
    told.say("the value ");
    if let Some(entry) = entry {
        told.say_name(entry.value.as_bytes());
        told.say(" ");
    }
    told.say("of '");
    say_path(told, it);
    told.say("' ");
    told.say(what);
}

/// Says what a value is that is no literal.
const OTHER_KIND: &str = " of another kind, or an operator in it has operands of a wrong kind";

/// Says that a parameter takes other values than the one that it has.
fn say_mismatch(
    told: &mut Explanation,
    it: Faulty<'_>,
    entry: Option<&IniEntry>,
    value: Option<&Expression>,
) {
    told.say("'");
    say_path(told, it);
    told.say("' takes ");
    told.say(kind_of(it.declaration));
    told.say("; ");
    match entry {
        Some(entry) => told.say_name(entry.value.as_bytes()),
        None => told.say("its value"),
    }
    told.say(" is ");
    match value.and_then(literal_in) {
        Some((is_negative, value)) => {
            told.say(kind_of_value(value));
            say_unit(told, it.declaration, is_negative, value);
        }
        None => {
            told.say("an expression");
            told.say(OTHER_KIND);
        }
    }
}

/// Says that a parameter has no value, though an entry of the ini text stands for the one in the
/// NED file, or none does.
fn say_unassigned(told: &mut Explanation, it: Faulty<'_>, entry: Option<&IniEntry>) {
    told.say("'");
    say_path(told, it);
    told.say("' has no value");
    if entry.is_some() {
        told.say(", as 'default' is the one in the NED file, and there is none");
    }
    told.say(": write '");
    say_path(told, it);
    told.say(" = VALUE' with ");
    told.say(kind_of(it.declaration));
    told.say(", or a default in the NED file");
}

/// Says what is wrong with the value of a parameter, which an entry of the ini text or that
/// expression gives.
fn tell_wrong(
    told: &mut Explanation,
    it: Faulty<'_>,
    entry: Option<&IniEntry>,
    value: Option<&Expression>,
) {
    match it.fault {
        ValueFault::Overflow => say_of_value(
            told,
            "a number in ",
            it,
            entry,
            "is outside -9223372036854775808 to 9223372036854775807, or something is shifted by less than 0 or more than 63",
        ),
        ValueFault::Inexact => say_of_value(
            told,
            "in ",
            it,
            entry,
            "a division leaves a remainder or is by zero, or an exponent is negative",
        ),
        ValueFault::Mismatch => say_mismatch(told, it, entry, value),
        _ => say_unassigned(told, it, entry),
    }
}

/// Says what is wrong with the value of a parameter that a NED file gives by that expression.
fn tell_wrong_in_ned(told: &mut Explanation, it: Faulty<'_>, expression: &Expression) {
    match it.fault {
        ValueFault::Unassigned => say_of_value(
            told,
            "",
            it,
            None,
            "refers to something that has no value: in a type 'x' and 'this.x' are its own parameter x, in a body 'x' is one of the module around it, and 'parent.x' is so in both; 'sub.x' is one of a submodule that is there",
        ),
        ValueFault::Circle => say_of_value(
            told,
            "",
            it,
            None,
            "rests on itself, by the parameters that it refers to: give one of them a value that refers to none of the others",
        ),
        _ => {
            tell_wrong(told, it, None, Some(expression));
            if !is_constant(expression) {
                told.say("; or this is so of a parameter that it refers to");
            }
        }
    }
}

/// The expression that an entry gives as a value.
fn expression_in(entry: &IniEntry) -> Option<&Expression> {
    match &entry.meaning {
        EntryMeaning::Parameter(it) => match &it.value {
            EntryValue::Given(expression) => Some(expression),
            EntryValue::Default => None,
        },
        _ => None,
    }
}

/// Says what is wrong with the value of a parameter that no NED file gives: with that of an entry
/// of the ini text, where there is one, and its line.
fn tell_wrong_in_ini(
    told: &mut Explanation,
    sources: &Sources<'_>,
    it: &Found<'_>,
    faulty: Faulty<'_>,
) -> Result<(), NoMemory> {
    let alloc = told.alloc();
    let path = path_under(alloc, it.path, faulty.declaration.name.as_bytes())?;
    let model = it.answers.model();
    let lines = model.ini.lines();
    let found = entry_giving(alloc, lines, model.chain.as_slice(), shown(path.as_bytes()))?;
    let Some(found) = found else {
        told.say(sources.ini_path);
        told.say(": ");
        tell_wrong(told, faulty, None, None);
        return Ok(());
    };
    told.say_place(sources.ini_path, found.line);
    told.say(": ");
    tell_wrong(told, faulty, Some(found.entry), expression_in(found.entry));
    Ok(())
}

/// Says where the type of that name, or what it extends, gives a parameter its value: `path:line:
/// `.
fn tell_given(told: &mut Explanation, sources: &Sources<'_>, name: &[u8], of: GivenParameter<'_>) {
    match read_types(told.alloc(), sources) {
        Ok(types) => {
            let files = Files {
                sources,
                types: types.as_slice(),
            };
            tell_place_of_value(told, &files, name, of);
        }
        Err(error) => told.refuse(error),
    }
}

/// Says where the NED files give a parameter of that name its value: `path:line: `.
fn tell_place(told: &mut Explanation, sources: &Sources<'_>, it: &Found<'_>, name: &[u8]) {
    if last_value(name, body_of(it)).is_none() {
        let of = GivenParameter {
            submodule: None,
            name,
        };
        tell_given(told, sources, it.of.name.as_bytes(), of);
    } else if let Some(declared) = it.declared {
        let of = GivenParameter {
            submodule: Some(declared.submodule.name.as_bytes()),
            name,
        };
        tell_given(told, sources, declared.around.name.as_bytes(), of);
    }
}

/// Says what is wrong with a parameter, which a NED file gives its value by that expression where
/// there is one.
fn tell_faulty(
    told: &mut Explanation,
    sources: &Sources<'_>,
    it: &Found<'_>,
    faulty: Faulty<'_>,
    given: Option<&Expression>,
) -> Result<(), NoMemory> {
    match given {
        Some(expression) => {
            tell_place(told, sources, it, faulty.declaration.name.as_bytes());
            tell_wrong_in_ned(told, faulty, expression);
            Ok(())
        }
        None => tell_wrong_in_ini(told, sources, it, faulty),
    }
}

/// Says which parameter has that fault, and what is wrong with it. Answers whether one has.
fn tell_parameter(
    told: &mut Explanation,
    sources: &Sources<'_>,
    path: &str,
    it: &Found<'_>,
    fault: ValueFault,
) -> Result<bool, NoMemory> {
    let alloc = told.alloc();
    let Some(declaration) = blamed(alloc, it, fault)? else {
        return Ok(false);
    };
    let given = given_in_ned(alloc, it, declaration.name.as_bytes())?;
    let faulty = Faulty {
        path,
        declaration,
        fault,
    };
    tell_faulty(told, sources, it, faulty, given)?;
    Ok(true)
}

/// The parameter of that name that a type declares.
fn parameter_named<'a>(of: &'a TypeDeclaration, name: &[u8]) -> Option<&'a Declaration> {
    for line in of.lines.as_slice() {
        if let SectionLine::Declaration(declaration) = line {
            if declaration.name.is(name) {
                return Some(declaration);
            }
        }
    }
    None
}

/// Says that a module can't take the value of its parameter of that name, which was written so,
/// where that is known.
fn say_not_taken(told: &mut Explanation, path: &str, name: &[u8], written: Option<&[u8]>) {
    told.say_front(path.as_bytes());
    told.say(": the module can't take the value ");
    if let Some(value) = written {
        told.say_name(value);
        told.say(" ");
    }
    told.say("of its parameter ");
    told.say_name(name);
}

/// Says that a module can't take the value of its parameter of that name, which an entry of the ini
/// text gives, with its line.
fn tell_not_taken_in_ini(
    told: &mut Explanation,
    sources: &Sources<'_>,
    it: &Found<'_>,
    path: &str,
    name: &[u8],
) -> Result<(), NoMemory> {
    let alloc = told.alloc();
    let whole = path_under(alloc, it.path, name)?;
    let model = it.answers.model();
    let (lines, chain) = (model.ini.lines(), model.chain.as_slice());
    match entry_giving(alloc, lines, chain, shown(whole.as_bytes()))? {
        Some(found) => {
            told.say_place(sources.ini_path, found.line);
            told.say(": ");
            say_not_taken(told, path, name, Some(found.entry.value.as_bytes()));
        }
        None => say_not_taken(told, path, name, None),
    }
    Ok(())
}

/// Says that a module can't take the value of the parameter that its message names, and where that
/// is given. Answers whether the message names one.
fn tell_not_taken(
    told: &mut Explanation,
    sources: &Sources<'_>,
    it: &Found<'_>,
    fault: ToldFault<'_>,
) -> Result<bool, NoMemory> {
    let RunFault::ModuleFailed(text) = fault.fault else {
        return Ok(false);
    };
    let name = text.as_bytes();
    if parameter_named(it.of, name).is_none() {
        return Ok(false);
    }
    match given_in_ned(told.alloc(), it, name)? {
        Some(_) => {
            tell_place(told, sources, it, name);
            say_not_taken(told, fault.path, name, None);
        }
        None => tell_not_taken_in_ini(told, sources, it, fault.path, name)?,
    }
    Ok(true)
}

/// Says which parameters a type declares.
fn tell_parameters(told: &mut Explanation, of: &TypeDeclaration) {
    let mut before = "";
    for line in of.lines.as_slice() {
        if let SectionLine::Declaration(declaration) = line {
            told.say(before);
            told.say_front(declaration.name.as_bytes());
            before = ", ";
        }
    }
    if before.is_empty() {
        told.say("none");
    }
}

/// Says which parameters a type declares, of which the module reads another.
fn tell_declared(told: &mut Explanation, of: &TypeDeclaration) {
    told.say("the class ");
    told.say_name(class_of(of));
    told.say(" reads a parameter that the type ");
    told.say_name(of.name.as_bytes());
    told.say(" doesn't declare; declared are: ");
    tell_parameters(told, of);
}

/// Says that a simple module reads a gate that its type doesn't declare, or sends through one by
/// which nothing leaves.
fn tell_gates(told: &mut Explanation, of: &TypeDeclaration) {
    told.say("the class ");
    told.say_name(class_of(of));
    told.say(" reads a gate that the type ");
    told.say_name(of.name.as_bytes());
    told.say(" doesn't declare, or sends a message through one that isn't there or only receives");
}

/// Whether a fault is one of a module of that type when it is called, and not of its inside.
fn is_of_call(fault: &RunFault, of: &TypeDeclaration) -> bool {
    match fault {
        RunFault::NoParameter
        | RunFault::UnknownClass
        | RunFault::TimeOverflow
        | RunFault::ModuleFailed(_) => { true }
        RunFault::NoGate => of.kind == TypeKind::Simple,
        _ => false,
    }
}

/// Says which classes there are, of which none has the name of a module's.
fn tell_classes(told: &mut Explanation, of: &TypeDeclaration, classes: &[&[u8]]) {
    told.say("this program has no module of the class ");
    told.say_name(class_of(of));
    told.say("; it has: ");
    told.say_list(classes);
}

/// What led to a fault, where it is one of what a simple module does.
fn why_not_done(fault: &RunFault) -> Option<&'static str> {
    Some(match fault {
        RunFault::NotConnected =>
            "the connections of the gate through which it sends lead to no simple module",
        RunFault::TooManyHops =>
            "a message would pass more than 1,000 connections: they lead round in a circle",
        RunFault::TwoTransmissionChannels =>
            "more than one channel on the way of its message has a datarate",
        RunFault::Busy =>
            "its message reaches a channel before the transmission of an earlier one has ended: a higher datarate, shorter messages or longer gaps",
        RunFault::AlreadyConnected =>
            "it sends directly to a gate to which something is connected, or joins one that is connected already",
        RunFault::NoModule =>
            "no module that it could mean stands at a path that it names: one to send to, to join or to free a gate of, or to delete, or a compound one to create another in",
        RunFault::DuplicateName =>
            "a module that it creates has the name, and the index if it has one, of a module beside it",
        RunFault::BadName =>
            "the name of a module that it creates is no name of NED; or that of a scalar that it records is empty, longer than 255 bytes, or has a byte that is no visible ASCII character, or a quote or backslash",
        RunFault::PayloadTooLarge => "a message that it sends has more than 4,096 bytes",
        _ => return None,
    })
}

/// Says what led to a fault of a simple module's call, which is none of a parameter.
fn tell_call(
    told: &mut Explanation,
    fault: ToldFault<'_>,
    of: &TypeDeclaration,
    classes: &[&[u8]],
) {
    told.say_front(fault.path.as_bytes());
    told.say(": ");
    match fault.fault {
        RunFault::NoParameter => tell_declared(told, of),
        RunFault::NoGate => tell_gates(told, of),
        RunFault::UnknownClass => tell_classes(told, of, classes),
        RunFault::TimeOverflow => told.say(
            "a time is above 9223372.036854775807s: a shorter delay, or a sim-time-limit, ends the run before",
        ),
        _ => told.say("the module can't take the value of the parameter that its message names"),
    }
}

/// Says what led to a fault of a simple module, where it is one of its calls. Answers whether it
/// is.
fn tell_of_call(
    told: &mut Explanation,
    fault: ToldFault<'_>,
    of: &TypeDeclaration,
    classes: &[&[u8]],
) -> bool {
    if let (TypeKind::Simple, Some(why)) = (of.kind, why_not_done(fault.fault)) {
        told.say_front(fault.path.as_bytes());
        told.say(": ");
        told.say(why);
        return true;
    }
    if is_of_call(fault.fault, of) {
        tell_call(told, fault, of, classes);
        return true;
    }
    false
}

/// Says what led to a fault of a module's parameter or of its call. Answers whether it is one.
fn tell_own(
    told: &mut Explanation,
    sources: &Sources<'_>,
    it: &Found<'_>,
    fault: ToldFault<'_>,
    classes: &[&[u8]],
) -> Result<bool, NoMemory> {
    if tell_not_taken(told, sources, it, fault)? {
        return Ok(true);
    }
    match parameter_fault(fault.fault) {
        None => Ok(tell_of_call(told, fault, it.of, classes)),
        Some(found) => tell_parameter(told, sources, fault.path, it, found),
    }
}

/// Whether a fault is that a gate isn't there.
fn is_no_gate(fault: &RunFault) -> bool {
    matches!(
        fault,
        RunFault::NoGate | RunFault::Model(ModelFault::NoGate)
    )
}

/// Says what is wrong with the inside of the module at the path of a fault, of that type if it has
/// one, or with the module itself among others.
fn tell_of_inside(
    told: &mut Explanation,
    sources: &Sources<'_>,
    answers: &PlainAnswers<'_>,
    fault: ToldFault<'_>,
    of: Option<&TypeDeclaration>,
) -> Result<(), NoMemory> {
    match fault_of(fault.fault) {
        Some(kind) if sources.has_other_connections => {
            tell_inside(told, fault.path, kind);
            Ok(())
        }
        Some(kind) => tell_fault_inside(told, sources, answers, fault, kind, of),
        None => Ok(()),
    }
}

/// Says what led to a fault of the module that was found at its path.
fn tell_built(
    told: &mut Explanation,
    sources: &Sources<'_>,
    it: &Found<'_>,
    fault: ToldFault<'_>,
    classes: &[&[u8]],
) -> Result<(), NoMemory> {
    if is_no_gate(fault.fault) && tell_misplaced(told, sources, it.answers, fault, it.of)? {
        return Ok(());
    }
    if tell_own(told, sources, it, fault, classes)? {
        return Ok(());
    }
    tell_of_inside(told, sources, it.answers, fault, Some(it.of))
}

/// Says what led to a fault of a path at which the model has no module.
fn tell_unbuilt(
    told: &mut Explanation,
    sources: &Sources<'_>,
    answers: &PlainAnswers<'_>,
    fault: ToldFault<'_>,
    classes: &[&[u8]],
) -> Result<(), NoMemory> {
    if is_created(told.alloc(), answers, fault.path.as_bytes())? {
        tell_created(told, fault, classes);
        return Ok(());
    }
    tell_of_inside(told, sources, answers, fault, None)
}

/// Says what led to a fault of the module that was found at its path, if one was.
fn tell_found(
    told: &mut Explanation,
    sources: &Sources<'_>,
    answers: &PlainAnswers<'_>,
    found: Option<Found<'_>>,
    fault: ToldFault<'_>,
    classes: &[&[u8]],
) -> Result<(), NoMemory> {
    match found {
        Some(it) => tell_built(told, sources, &it, fault, classes),
        None => tell_unbuilt(told, sources, answers, fault, classes),
    }
}

/// Says what led to a fault in a run of that model.
fn tell_fault(
    told: &mut Explanation,
    sources: &Sources<'_>,
    model: Model,
    fault: ToldFault<'_>,
    classes: &[&[u8]],
) -> Result<(), NoMemory> {
    let model = EvaluatedModel::new(told.alloc(), model)?;
    let answers = PlainAnswers::new(&model);
    let found = found_at(told.alloc(), &answers, fault.path.as_bytes())?;
    tell_found(told, sources, &answers, found, fault, classes)
}

/// Says what led to a fault in a run of the model that the files make, where they make one.
fn tell_run(
    told: &mut Explanation,
    sources: &Sources<'_>,
    fault: ToldFault<'_>,
    classes: &[&[u8]],
) {
    let config = sources.config.as_bytes();
    match model_of(told.alloc(), sources.texts, sources.ini, config) {
        Ok(model) => {
            if let Err(error) = tell_fault(told, sources, model, fault, classes) {
                told.refuse(error);
            }
        }
        Err(_) => {}
    }
}

/// What led to the fault that ended a run, which is reported with that path, and what to change: a
/// diagnostic. Empty where there is no more to say. `classes` are those that the program has
/// modules of.
pub fn fault_line(
    alloc: Global,
    path: &[u8],
    fault: &RunFault,
    sources: &Sources<'_>,
    classes: &[&[u8]],
) -> Result<Text, NoMemory> {
    let mut told = Explanation::new(alloc);
    let path = shown(path);
    tell_run(&mut told, sources, ToldFault { path, fault }, classes);
    told.said()
}
