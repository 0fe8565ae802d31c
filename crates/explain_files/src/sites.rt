//! Where the NED files say what is wrong with the inside of a compound module.

use crate::ends::{
    Around, Mistake, Written, mistake_in, taken_twice, tell_outside_of_vector, tell_taken,
};
use crate::given::entry_giving;
use crate::insides::tell_inside;
use crate::items::{Faulted, item_at_fault};
use crate::lacking::{Lacking, lacking_gate};
use crate::modules::{Declared, ToldFault, declared_at};
use crate::reading::read_types;
use crate::unassigned::{first_of_item, first_of_submodule, tell_valueless};
use explain_types::bases::root_first;
use explain_types::connections::{
    say_place_of_connection, tell_place_of_gate, tell_place_of_item, tell_place_of_submodule,
};
use explain_types::explanation::Explanation;
use explain_types::names::shown;
use explain_types::ned_files::{Files, type_named};
use explain_types::sources::Sources;
use inside_keys::sizes::misplaced;
use inside_parts::gates::gates_of;
use model_answers::plain::PlainAnswers;
use model_questions::record::path_under;
use model_settings::standings::before_last;
use ned_trees::declarations::{
    GateDeclaration, GateLine, GateSize, ParameterValue, SubmoduleType, TypeDeclaration, TypeKind,
};
use sim_values::NoMemory;
use sim_values::model_fault::ModelFault;
use sim_values::text::Text;
use sim_values::value_fault::ValueFault;
use std::alloc::Global;

/// A type as the files declare it and all that it extends, the root first.
fn order_of<'a>(
    alloc: Global,
    types: &'a [TypeDeclaration],
    of: &TypeDeclaration,
) -> Result<Vec<&'a TypeDeclaration>, NoMemory> {
    match type_named(types, of.name.as_bytes()) {
        Some(it) => root_first(alloc, types, it),
        None => Ok(Vec::new(alloc)),
    }
}

/// Whether a type has connections.
fn is_compound(of: &TypeDeclaration) -> bool {
    matches!(of.kind, TypeKind::Module | TypeKind::Network)
}

/// What is looked at: a model that answers, and the fault of one of its modules.
#[derive(Clone, Copy)]
struct Case<'a> {
    answers: &'a PlainAnswers<'a>,
    files: &'a Files<'a>,
    told: ToldFault<'a>,
    fault: ModelFault,
}

/// A connection with which the fault of a compound module comes.
#[derive(Drop)]
struct FaultyItem<'a> {
    /// The module's type as the files declare it and all that it extends, the root first.
    order: Vec<&'a TypeDeclaration>,
    /// The number of the item, counted from 0 in the flat type.
    number: usize,
}

/// The item of connections with which the fault comes, of the module of that type.
fn faulty_item<'a>(
    alloc: Global,
    it: Case<'a>,
    of: &TypeDeclaration,
) -> Result<Option<FaultyItem<'a>>, NoMemory> {
    let order = order_of(alloc, it.files.types, of)?;
    let all = Faulted {
        model: it.answers.model(),
        types: it.files.types,
        order: order.as_slice(),
        path: it.told.path.as_bytes(),
        fault: it.fault,
    };
    match item_at_fault(alloc, all)? {
        Some(number) => Ok(Some(FaultyItem { order, number })),
        None => Ok(None),
    }
}

/// The same, where the fault is one of a compound module.
fn faulty_item_of<'a>(
    alloc: Global,
    it: Case<'a>,
    of: Option<&TypeDeclaration>,
) -> Result<Option<FaultyItem<'a>>, NoMemory> {
    match of {
        Some(of) if is_compound(of) => faulty_item(alloc, it, of),
        _ => Ok(None),
    }
}

/// Says where a connection of an item stands, and whose it is: `path:line: `, and the module.
fn begin_connection(told: &mut Explanation, it: Case<'_>, faulty: &FaultyItem<'_>, line: usize) {
    say_place_of_connection(told, it.files, faulty.order.as_slice(), faulty.number, line);
    told.say(": ");
    told.say_front(it.told.path.as_bytes());
    told.say(": ");
}

/// Says what is wrong with a connection of an item that names a submodule or a gate which isn't
/// there, and whether that is seen.
fn tell_mistake(
    told: &mut Explanation,
    it: Case<'_>,
    of: &TypeDeclaration,
    faulty: &FaultyItem<'_>,
) -> Result<bool, NoMemory> {
    let Some(item) = of.connections.items.as_slice().get(faulty.number) else {
        return Ok(false);
    };
    let around = Around {
        answers: it.answers,
        path: it.told.path.as_bytes(),
        of,
    };
    let Some(mistake) = mistake_in(told.alloc(), around, item)? else {
        return Ok(false);
    };
    let Mistake { line, words } = mistake;
    begin_connection(told, it, faulty, line);
    told.say(shown(words.as_bytes()));
    Ok(true)
}

/// Says which gate a connection of an item takes that another one has already, and whether that is
/// seen.
fn tell_twice(
    told: &mut Explanation,
    it: Case<'_>,
    of: &TypeDeclaration,
    faulty: &FaultyItem<'_>,
) -> bool {
    let Some(taken) = taken_twice(of.connections.items.as_slice(), faulty.number) else {
        return false;
    };
    begin_connection(told, it, faulty, taken.line);
    tell_taken(told, taken.end);
    told.say(", at ");
    let Written { item, line } = taken.first;
    say_place_of_connection(told, it.files, faulty.order.as_slice(), item, line);
    told.say(": leave one of the two connections out, or let it take another gate");
    true
}

/// Says where the submodule is declared.
fn tell_submodule(
    told: &mut Explanation,
    it: Case<'_>,
    declared: Option<Declared<'_>>,
) -> Result<(), NoMemory> {
    if let Some(declared) = declared {
        let order = order_of(told.alloc(), it.files.types, declared.around)?;
        let name = declared.submodule.name.as_bytes();
        tell_place_of_submodule(told, it.files, order.as_slice(), name);
    }
    Ok(())
}

/// Says where the connection or the submodule stands that has the fault.
fn tell_place(
    told: &mut Explanation,
    it: Case<'_>,
    faulty: &Option<FaultyItem<'_>>,
    declared: Option<Declared<'_>>,
) -> Result<(), NoMemory> {
    match faulty {
        Some(faulty) => {
            tell_place_of_item(told, it.files, faulty.order.as_slice(), faulty.number);
            Ok(())
        }
        None => tell_submodule(told, it, declared),
    }
}

/// Says which gate of an item's connection is outside of its vector, and whether that is seen.
fn tell_outside(
    told: &mut Explanation,
    it: Case<'_>,
    of: &TypeDeclaration,
    faulty: &FaultyItem<'_>,
) -> Result<bool, NoMemory> {
    let Some(item) = of.connections.items.as_slice().get(faulty.number) else {
        return Ok(false);
    };
    let mut words = Explanation::new(told.alloc());
    if !tell_outside_of_vector(&mut words, item) {
        return Ok(false);
    }
    let words = words.said()?;
    begin_connection(told, it, faulty, 0);
    told.say(shown(words.as_bytes()));
    Ok(true)
}

/// Says which name has no value that an item refers to, and whether that is seen.
fn tell_valueless_in(
    told: &mut Explanation,
    it: Case<'_>,
    of: &TypeDeclaration,
    faulty: &FaultyItem<'_>,
) -> Result<bool, NoMemory> {
    let Some(item) = of.connections.items.as_slice().get(faulty.number) else {
        return Ok(false);
    };
    let around = Around {
        answers: it.answers,
        path: it.told.path.as_bytes(),
        of,
    };
    let Some(found) = first_of_item(told.alloc(), around, item)? else {
        return Ok(false);
    };
    begin_connection(told, it, faulty, 0);
    tell_valueless(told, around, found);
    Ok(true)
}

/// Says which name has no value that the condition or the size of the fault's submodule refers to,
/// and whether that is seen.
fn tell_valueless_of(
    told: &mut Explanation,
    it: Case<'_>,
    declared: Option<Declared<'_>>,
) -> Result<bool, NoMemory> {
    let (Some(declared), Some(above)) = (declared, before_last(it.told.path.as_bytes())) else {
        return Ok(false);
    };
    let around = Around {
        answers: it.answers,
        path: above,
        of: declared.around,
    };
    let Some(found) = first_of_submodule(told.alloc(), around, declared.submodule)? else {
        return Ok(false);
    };
    tell_submodule(told, it, Some(declared))?;
    told.say_front(it.told.path.as_bytes());
    told.say(": ");
    tell_valueless(told, around, found);
    Ok(true)
}

/// Says which name has no value, where that is the fault, and whether it is seen.
fn tell_name(
    told: &mut Explanation,
    it: Case<'_>,
    of: Option<&TypeDeclaration>,
    faulty: &Option<FaultyItem<'_>>,
    declared: Option<Declared<'_>>,
) -> Result<bool, NoMemory> {
    match (it.fault, of, faulty) {
        (ModelFault::Value(ValueFault::Unassigned), Some(of), Some(faulty)) => {
            tell_valueless_in(told, it, of, faulty)
        }
        (ModelFault::Value(ValueFault::Unassigned), _, None) => {
            tell_valueless_of(told, it, declared)
        }
        _ => Ok(false),
    }
}

/// Says what is wrong with a connection, where a submodule or a gate isn't there, or a gate is
/// taken or outside of its vector, and whether that is seen.
fn tell_connection(
    told: &mut Explanation,
    it: Case<'_>,
    of: Option<&TypeDeclaration>,
    faulty: &Option<FaultyItem<'_>>,
) -> Result<bool, NoMemory> {
    match (it.fault, of, faulty) {
        (ModelFault::NoGate, Some(of), Some(faulty)) => tell_mistake(told, it, of, faulty),
        (ModelFault::AlreadyConnected, Some(of), Some(faulty)) => {
            Ok(tell_twice(told, it, of, faulty))
        }
        (ModelFault::GateSize, Some(of), Some(faulty)) => tell_outside(told, it, of, faulty),
        _ => Ok(false),
    }
}

/// Whether the line declares a vector of that name.
fn is_vector(line: &GateLine, name: &[u8]) -> bool {
    match line {
        GateLine::Declaration(
            GateDeclaration {
                name: own,
                size,
                ..
            },
        ) => { own.is(name) && !matches!(size, GateSize::Single) }
        GateLine::Refinement(_) => false,
    }
}

/// Says the name of a gate, with its index where it is one of a vector.
fn say_gate(told: &mut Explanation, of: &TypeDeclaration, gate: &Lacking) {
    let name = gate.name.as_bytes();
    told.say("'");
    told.say_front(name);
    for line in of.gates.as_slice() {
        if is_vector(line, name) {
            told.say("[");
            told.say_number(gate.index as usize);
            told.say("]");
        }
    }
    told.say("'");
}

/// Says where a gate of the module itself is declared, of that type, or the submodule whose gate it
/// is.
fn tell_gate_place(
    told: &mut Explanation,
    it: Case<'_>,
    of: &TypeDeclaration,
    gate: &Lacking,
) -> Result<(), NoMemory> {
    if gate.own {
        let order = order_of(told.alloc(), it.files.types, of)?;
        tell_place_of_gate(told, it.files, order.as_slice(), gate.name.as_bytes());
        return Ok(());
    }
    let declared = declared_at(told.alloc(), it.answers, gate.path.as_bytes())?;
    tell_submodule(told, it, declared)
}

/// Says whose gate isn't connected.
fn say_whose(told: &mut Explanation, gate: &Lacking) {
    if gate.own {
        told.say(" stands in no connection within the module");
    } else {
        told.say(" of ");
        told.say_name(gate.path.as_bytes());
        told.say(" stands in no connection");
    }
}

/// Says which gate in the inside of the module of that type isn't connected, and whether there is
/// one.
fn tell_unconnected(
    told: &mut Explanation,
    it: Case<'_>,
    of: &TypeDeclaration,
) -> Result<bool, NoMemory> {
    let alloc = told.alloc();
    let Some(gate) = lacking_gate(alloc, it.answers, it.told.path.as_bytes(), of)? else {
        return Ok(false);
    };
    tell_gate_place(told, it, of, &gate)?;
    told.say_front(it.told.path.as_bytes());
    told.say(": the gate ");
    let its = it.answers.type_at_path(alloc, gate.path.as_bytes())?;
    say_gate(told, its.unwrap_or(of), &gate);
    say_whose(told, &gate);
    told.say(": connect it, or write 'connections allowunconnected:', or '@loose' after the gate");
    Ok(true)
}

/// The name in the first of these lines that speaks of no gate of the type, or gives a size to what
/// is no gate vector of it.
fn misplaced_in<'a>(
    alloc: Global,
    of: &TypeDeclaration,
    lines: &'a [GateLine],
) -> Result<Option<&'a Text>, NoMemory> {
    let gates = gates_of(alloc, of.gates.as_slice())?;
    Ok(misplaced(&gates, lines))
}

/// Whether a type declares a gate of that name.
fn declares_gate(of: &TypeDeclaration, name: &[u8]) -> bool {
    for line in of.gates.as_slice() {
        if let GateLine::Declaration(declared) = line {
            if declared.name.is(name) {
                return true;
            }
        }
    }
    false
}

/// Says that a line speaks of no gate of a type, or gives a size to what is no gate vector of it.
fn say_misplaced(told: &mut Explanation, path: &str, of: &TypeDeclaration, name: &[u8]) {
    told.say_front(path.as_bytes());
    if !declares_gate(of, name) {
        told.say(": the type ");
        told.say_name(of.name.as_bytes());
        told.say(" declares no gate ");
        told.say_name(name);
        told.say(": declare it, with 'input', 'output' or 'inout' before its name");
        return;
    }
    told.say(": a size is given to ");
    told.say_name(name);
    told.say(", which is no gate vector of the type ");
    told.say_name(of.name.as_bytes());
    told.say(": leave the size out, or declare the gate with '[]'");
}

/// Says where the body of a submodule of that type speaks of no gate of it, or gives a size to what
/// is no gate vector, and whether it does.
fn tell_misplaced_in_body(
    told: &mut Explanation,
    it: Case<'_>,
    of: &TypeDeclaration,
) -> Result<bool, NoMemory> {
    let alloc = told.alloc();
    let Some(declared) = declared_at(alloc, it.answers, it.told.path.as_bytes())? else {
        return Ok(false);
    };
    let lines = declared.submodule.body.gates.as_slice();
    let Some(name) = misplaced_in(alloc, of, lines)? else {
        return Ok(false);
    };
    tell_submodule(told, it, Some(declared))?;
    say_misplaced(told, it.told.path, of, name.as_bytes());
    Ok(true)
}

/// Says where a line speaks of no gate of the module of that type, or a size is given to what is no
/// gate vector, and whether that is so.
fn tell_misplaced_of(
    told: &mut Explanation,
    it: Case<'_>,
    of: &TypeDeclaration,
) -> Result<bool, NoMemory> {
    if tell_misplaced_in_body(told, it, of)? {
        return Ok(true);
    }
    let alloc = told.alloc();
    let Some(name) = misplaced_in(alloc, of, of.gates.as_slice())? else {
        return Ok(false);
    };
    let order = order_of(alloc, it.files.types, of)?;
    tell_place_of_gate(told, it.files, order.as_slice(), name.as_bytes());
    say_misplaced(told, it.told.path, of, name.as_bytes());
    Ok(true)
}

/// Whether a fault is one of the type that is chosen for a submodule.
fn is_of_choice(fault: ModelFault) -> bool {
    matches!(fault, ModelFault::UnknownType | ModelFault::Interface)
}

/// Whether an entry of the ini text may choose the type of a submodule.
fn is_open(declared: Declared<'_>) -> bool {
    match &declared.submodule.submodule_type {
        SubmoduleType::Like(it) => !matches!(it.given, Some(ParameterValue::Fixed(_))),
        SubmoduleType::Named(_) => false,
    }
}

/// Says which entry of the ini text chooses the type of the submodule of the fault's path, where
/// one does.
fn tell_choice(told: &mut Explanation, it: Case<'_>) -> Result<(), NoMemory> {
    let alloc = told.alloc();
    let path = path_under(alloc, it.told.path.as_bytes(), b"typename")?;
    let model = it.answers.model();
    let lines = model.ini.lines();
    let found = entry_giving(alloc, lines, model.chain.as_slice(), shown(path.as_bytes()))?;
    if let Some(found) = found {
        told.say("; ");
        told.say_place(it.files.sources.ini_path, found.line);
        told.say(" chooses ");
        told.say_name(found.entry.value.as_bytes());
    }
    Ok(())
}

/// Says what is wrong with the inside of a compound module, or with a submodule of one: `path:line:
/// `, the module, and what would be right.
fn tell_case(
    told: &mut Explanation,
    it: Case<'_>,
    of: Option<&TypeDeclaration>,
) -> Result<(), NoMemory> {
    let declared = declared_at(told.alloc(), it.answers, it.told.path.as_bytes())?;
    if let (ModelFault::Unconnected, Some(of)) = (it.fault, of) {
        if tell_unconnected(told, it, of)? {
            return Ok(());
        }
    }
    let faulty = faulty_item_of(told.alloc(), it, of)?;
    if tell_connection(told, it, of, &faulty)? || tell_name(told, it, of, &faulty, declared)? {
        return Ok(());
    }
    tell_place(told, it, &faulty, declared)?;
    tell_inside(told, it.told.path, it.fault);
    match declared {
        Some(declared) if is_of_choice(it.fault) && is_open(declared) => tell_choice(told, it),
        _ => Ok(()),
    }
}

/// Says where a line speaks of no gate of the module of a fault's path, which has that type, or a
/// size is given to what is no gate vector, and whether that is so.
pub fn tell_misplaced(
    told: &mut Explanation,
    sources: &Sources<'_>,
    answers: &PlainAnswers<'_>,
    fault: ToldFault<'_>,
    of: &TypeDeclaration,
) -> Result<bool, NoMemory> {
    let types = read_types(told.alloc(), sources)?;
    let files = Files {
        sources,
        types: types.as_slice(),
    };
    let it = Case {
        answers,
        files: &files,
        told: fault,
        fault: ModelFault::NoGate,
    };
    tell_misplaced_of(told, it, of)
}

/// Says what is wrong with the inside of the compound module of that type, or with the submodule of
/// a fault's path. The type is none where the submodule has none.
pub fn tell_fault_inside(
    told: &mut Explanation,
    sources: &Sources<'_>,
    answers: &PlainAnswers<'_>,
    fault: ToldFault<'_>,
    kind: ModelFault,
    of: Option<&TypeDeclaration>,
) -> Result<(), NoMemory> {
    let types = read_types(told.alloc(), sources)?;
    let files = Files {
        sources,
        types: types.as_slice(),
    };
    let it = Case {
        answers,
        files: &files,
        told: fault,
        fault: kind,
    };
    tell_case(told, it, of)
}
