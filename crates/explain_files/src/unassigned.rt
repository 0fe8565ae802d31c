//! Which name has no value that an inside refers to: in a condition, a size, an index or a loop.

use crate::ends::Around;
use explain_types::explanation::Explanation;
use model_questions::answer::Answer;
use ned_trees::connections::{Clause, Connection, ConnectionItem, ConnectionLine, End, GateIndex};
use ned_trees::declarations::{SectionLine, Submodule};
use ned_trees::expressions::{Expression, Operator};
use ned_types::flat::declaration_named;
use sim_values::NoMemory;
use sim_values::text::Text;
use std::alloc::Global;

/// Adds the names of parameters and loop variables that an expression always asks for; what stands
/// behind `&&`, `||` and `?` may not be asked for.
fn push_names<'a>(names: &mut Vec<&'a Text>, expression: &'a Expression) -> Result<(), NoMemory> {
    match expression {
        Expression::Name(name) => {
            names.push(name)?;
            Ok(())
        }
        Expression::Group(part)
        | Expression::Signed(_, part)
        | Expression::Element(_, part, _)
        | Expression::ExistsAt(_, part)
        | Expression::Conditional(part, _, _)
        | Expression::Binary(Operator::And | Operator::Or, part, _) => {
            push_names(names, part.get())
        }
        Expression::Chosen(_, a, b) | Expression::Binary(_, a, b) => {
            push_names(names, a.get())?;
            push_names(names, b.get())
        }
        _ => Ok(()),
    }
}

/// Whether a name is one of these.
fn is_bound(bound: &[&Text], name: &Text) -> bool {
    for it in bound {
        if it.is(name.as_bytes()) {
            return true;
        }
    }
    false
}

/// A name that has no value.
#[derive(Clone, Copy)]
pub struct Valueless<'a> {
    pub name: &'a Text,
    /// The module declares a parameter of that name.
    pub is_declared: bool,
}

/// Whether a name is no parameter of the module, or one without a value.
fn without_value<'a>(
    alloc: Global,
    it: Around<'_>,
    name: &'a Text,
) -> Result<Option<Valueless<'a>>, NoMemory> {
    let is_declared = declaration_named(name.as_bytes(), it.of.lines.as_slice()).is_some();
    if is_declared {
        let answer = it.answers.value_at_path(alloc, it.path, name.as_bytes())?;
        if !matches!(answer, Answer::Fault(..)) {
            return Ok(None);
        }
    }
    Ok(Some(Valueless { name, is_declared }))
}

/// The first name without a value that an expression asks for, where these are loop variables.
fn first_in<'a>(
    alloc: Global,
    it: Around<'_>,
    bound: &[&Text],
    expression: &'a Expression,
) -> Result<Option<Valueless<'a>>, NoMemory> {
    let mut names = Vec::new(alloc);
    push_names(&mut names, expression)?;
    for name in names.as_slice() {
        if !is_bound(bound, name) {
            let found = without_value(alloc, it, name)?;
            if found.is_some() {
                return Ok(found);
            }
        }
    }
    Ok(None)
}

/// The same of an expression that may not be there.
fn first_of<'a>(
    alloc: Global,
    it: Around<'_>,
    bound: &[&Text],
    expression: &'a Option<Expression>,
) -> Result<Option<Valueless<'a>>, NoMemory> {
    match expression {
        Some(expression) => first_in(alloc, it, bound, expression),
        None => Ok(None),
    }
}

/// The first one in the declaration of a submodule: in its condition, or in its size.
pub fn first_of_submodule<'a>(
    alloc: Global,
    it: Around<'_>,
    submodule: &'a Submodule,
) -> Result<Option<Valueless<'a>>, NoMemory> {
    let found = first_of(alloc, it, &[], &submodule.condition)?;
    if found.is_some() {
        return Ok(found);
    }
    first_of(alloc, it, &[], &submodule.size)
}

/// The first one in a loop or a condition.
fn first_of_clause<'a>(
    alloc: Global,
    it: Around<'_>,
    bound: &[&Text],
    clause: &'a Clause,
) -> Result<Option<Valueless<'a>>, NoMemory> {
    match clause {
        Clause::If(condition) => first_in(alloc, it, bound, condition),
        Clause::For(turns) => {
            let found = first_in(alloc, it, bound, &turns.first)?;
            if found.is_some() {
                return Ok(found);
            }
            first_in(alloc, it, bound, &turns.last)
        }
    }
}

/// The first one in loops and conditions, whose variables are bound from there on.
fn first_of_clauses<'a>(
    alloc: Global,
    it: Around<'_>,
    bound: &mut Vec<&'a Text>,
    clauses: &'a [Clause],
) -> Result<Option<Valueless<'a>>, NoMemory> {
    for clause in clauses {
        let found = first_of_clause(alloc, it, bound.as_slice(), clause)?;
        if found.is_some() {
            return Ok(found);
        }
        if let Clause::For(turns) = clause {
            bound.push(&turns.variable)?;
        }
    }
    Ok(None)
}

/// The first one in an end of a connection: in the index of the submodule, or in that of the gate.
fn first_of_end<'a>(
    alloc: Global,
    it: Around<'_>,
    bound: &[&Text],
    end: &'a End,
) -> Result<Option<Valueless<'a>>, NoMemory> {
    if let Some(owner) = &end.owner {
        let found = first_of(alloc, it, bound, &owner.index)?;
        if found.is_some() {
            return Ok(found);
        }
    }
    match &end.gate.index {
        Some(GateIndex::At(index)) => first_in(alloc, it, bound, index),
        _ => Ok(None),
    }
}

/// The first one in the ends of a connection.
fn first_of_ends<'a>(
    alloc: Global,
    it: Around<'_>,
    bound: &[&Text],
    connection: &'a Connection,
) -> Result<Option<Valueless<'a>>, NoMemory> {
    let found = first_of_end(alloc, it, bound, &connection.left)?;
    if found.is_some() {
        return Ok(found);
    }
    first_of_end(alloc, it, bound, &connection.right)
}

/// The first one in a connection by itself.
fn first_of_line<'a>(
    alloc: Global,
    it: Around<'_>,
    line: &'a ConnectionLine,
) -> Result<Option<Valueless<'a>>, NoMemory> {
    let mut bound = Vec::new(alloc);
    let found = first_of_clauses(alloc, it, &mut bound, line.clauses.as_slice())?;
    if found.is_some() {
        return Ok(found);
    }
    first_of_ends(alloc, it, bound.as_slice(), &line.connection)
}

/// The first one in an item of connections: of a group with several, in its own loops and conditions
/// alone.
pub fn first_of_item<'a>(
    alloc: Global,
    it: Around<'_>,
    item: &'a ConnectionItem,
) -> Result<Option<Valueless<'a>>, NoMemory> {
    let group = match item {
        ConnectionItem::Line(line) => return first_of_line(alloc, it, line),
        ConnectionItem::Group(group) => group,
    };
    let mut bound = Vec::new(alloc);
    let found = first_of_clauses(alloc, it, &mut bound, group.clauses.as_slice())?;
    if found.is_some() {
        return Ok(found);
    }
    match group.lines.as_slice() {
        [one] if one.clauses.is_empty() => {
            first_of_ends(alloc, it, bound.as_slice(), &one.connection)
        }
        _ => Ok(None),
    }
}

/// Says the first parameter of the module whose name is near, as a question.
fn say_near_parameter(told: &mut Explanation, it: Around<'_>, name: &[u8]) {
    for line in it.of.lines.as_slice() {
        if let SectionLine::Declaration(declared) = line {
            if told.say_if_near(name, declared.name.as_bytes()) {
                return;
            }
        }
    }
}

/// Says that a name has no value, in the text of that module.
pub fn tell_valueless(told: &mut Explanation, it: Around<'_>, found: Valueless<'_>) {
    let name = found.name.as_bytes();
    if found.is_declared {
        told.say("the parameter ");
        told.say_name(name);
        told.say(" has no value: write '");
        told.say_front(it.path);
        told.say(".");
        told.say_front(name);
        told.say(" = VALUE' in the ini text, or a default in the NED file");
        return;
    }
    told.say_name(name);
    told.say(" has no value: it is no parameter of ");
    told.say_name(it.path);
    told.say(", and no loop variable there");
    say_near_parameter(told, it, name);
}
