//! What becomes of NED texts.

use crate::connection_rows::tell_section;
use crate::escapes::unescaped;
use crate::telling::Telling;
use crate::tree_rows::tell_tree;
use crate::words::{tell_names, written};
use ned_syntax::parse::parse_ned;
use ned_trees::declarations::{
    Declaration, GateLine, GateSize, NedFile, NestedType, ParameterValue, SectionLine, Statistic,
    Submodule, SubmoduleBody, SubmoduleType, TypeDeclaration,
};
use ned_trees::expressions::Expression;
use ned_trees::texts::NedTexts;
use sim_values::text::Text;
use std::alloc::Global;

/// Tells whether a NED text is read, or why it is not.
pub fn tell_text(alloc: Global, told: &mut Telling, row: &str) {
    let text = unescaped(alloc, told, row);
    match parse_ned(alloc, text.as_slice()) {
        Ok(_) => told.text("read"),
        Err(refusal) => told.raw(&refusal),
    }
}

/// Tells what a parameter is given.
fn tell_given(told: &mut Telling, value: &ParameterValue) {
    match value {
        ParameterValue::Fixed(expression) => {
            told.text(" = ");
            tell_tree(told, expression)
        }
        ParameterValue::Default(expression) => {
            told.text(" = default(");
            tell_tree(told, expression);
            told.text(")")
        }
    }
}

/// Tells the name of a parameter, and its value.
fn tell_value(told: &mut Telling, name: &Text, value: &Option<ParameterValue>) {
    told.text(written(name));
    if let Some(value) = value {
        tell_given(told, value);
    }
    told.text("; ")
}

/// Tells what a line declares that declares a parameter.
fn tell_declaration(told: &mut Telling, it: &Declaration) {
    told.raw(&it.word);
    told.text(" ");
    told.raw(&it.unit);
    told.text(" ");
    tell_value(told, &it.name, &it.value)
}

/// Tells what a line declares that declares a statistic.
fn tell_statistic(told: &mut Telling, it: &Statistic) {
    told.text(written(&it.name));
    told.text(" of ");
    told.text(written(&it.source));
    told.text(" ");
    told.raw(&it.modes.as_slice());
    told.text("; ");
}

/// Tells what a line of a parameter section declares.
fn tell_line(told: &mut Telling, line: &SectionLine) {
    match line {
        SectionLine::Declaration(it) => tell_declaration(told, it),
        SectionLine::Assignment(it) => tell_value(told, &it.name, &it.value),
        SectionLine::Statistic(it) => tell_statistic(told, it),
        SectionLine::Class(name) => {
            told.text("class ");
            told.text(written(name));
            told.text("; ");
        }
        SectionLine::Ignored => told.text("ignored; "),
    }
}

/// Tells the lines of a parameter section, or of a submodule's body.
pub fn tell_lines(told: &mut Telling, lines: &[SectionLine]) {
    for line in lines {
        tell_line(told, line);
    }
}

/// Tells a size in brackets.
pub fn tell_brackets(told: &mut Telling, size: &Expression) {
    told.text("[");
    tell_tree(told, size);
    told.text("]")
}

/// Tells the size of a gate.
fn tell_size(told: &mut Telling, size: &GateSize) {
    match size {
        GateSize::Single => {}
        GateSize::Open => told.text("[]"),
        GateSize::Sized(size) => tell_brackets(told, size),
    }
}

/// Tells the size of a vector, where there is one.
fn tell_size_there(told: &mut Telling, size: &Option<Expression>) {
    if let Some(size) = size {
        tell_brackets(told, size);
    }
}

/// Tells whether a gate may stay unconnected.
fn tell_loose(told: &mut Telling, loose: bool) {
    told.text(if loose { " loose; " } else { "; " })
}

/// Tells what a line of a gate section declares.
fn tell_gate(told: &mut Telling, line: &GateLine) {
    match line {
        GateLine::Declaration(it) => {
            told.raw(&it.direction);
            told.text(" ");
            told.text(written(&it.name));
            tell_size(told, &it.size);
            tell_loose(told, it.loose)
        }
        GateLine::Refinement(it) => {
            told.text(written(&it.name));
            tell_size_there(told, &it.size);
            tell_loose(told, it.loose)
        }
    }
}

/// Tells the gates of a type.
fn tell_gates(told: &mut Telling, lines: &[GateLine]) {
    for line in lines {
        tell_gate(told, line);
    }
}

/// Tells the body of a submodule, where it says something.
fn tell_body(told: &mut Telling, body: &SubmoduleBody) {
    if body.lines.is_empty() && body.gates.is_empty() {
        told.text("; ");
    } else {
        told.text(" { ");
        tell_lines(told, body.lines.as_slice());
        tell_gates(told, body.gates.as_slice());
        told.text("} ");
    }
}

/// Tells the value between the angles of a type.
fn tell_angles(told: &mut Telling, value: &Option<ParameterValue>) {
    told.text("<");
    if let Some(value) = value {
        tell_given(told, value);
    }
    told.text(" > like ")
}

/// Tells the type of a submodule.
fn tell_submodule_type(told: &mut Telling, it: &SubmoduleType) {
    match it {
        SubmoduleType::Named(name) => told.text(written(name)),
        SubmoduleType::Like(it) => {
            tell_angles(told, &it.given);
            told.text(written(&it.interface))
        }
    }
}

/// Tells the condition of a submodule.
fn tell_condition(told: &mut Telling, condition: &Option<Expression>) {
    if let Some(condition) = condition {
        told.text(" if ");
        tell_tree(told, condition);
    }
}

/// Tells a submodule.
fn tell_submodule(told: &mut Telling, it: &Submodule) {
    told.text(written(&it.name));
    tell_size_there(told, &it.size);
    told.text(": ");
    tell_submodule_type(told, &it.submodule_type);
    tell_condition(told, &it.condition);
    tell_body(told, &it.body)
}

/// Tells the submodules of a type.
fn tell_submodules(told: &mut Telling, submodules: &[Submodule]) {
    for it in submodules {
        tell_submodule(told, it);
    }
}

/// Tells what a type extends.
fn tell_base(told: &mut Telling, base: &Option<Text>) {
    if let Some(base) = base {
        told.text("extends ");
        told.text(written(base));
        told.text(" ");
    }
}

/// Tells which interfaces a type keeps.
fn tell_interfaces(told: &mut Telling, names: &[Text]) {
    if !names.is_empty() {
        told.text("keeps ");
        tell_names(told, names);
    }
}

/// Tells the word, the name and what else stands before a type's braces.
fn tell_head(told: &mut Telling, it: &TypeDeclaration) {
    told.raw(&it.kind);
    told.text(" ");
    told.text(written(&it.name));
    told.text(" ");
    tell_base(told, &it.base);
    tell_interfaces(told, it.interfaces.as_slice())
}

/// Tells what a type declares, with the types within it after its gates.
#[cycle(types)]
fn tell_type(told: &mut Telling, it: &NestedType) {
    tell_head(told, &it.declared);
    told.text("{ ");
    tell_lines(told, it.declared.lines.as_slice());
    tell_gates(told, it.declared.gates.as_slice());
    tell_types(told, it.types.as_slice());
    tell_submodules(told, it.declared.submodules.as_slice());
    tell_section(told, &it.declared.connections);
    told.text("} ")
}

/// Tells what types declare.
#[cycle(types)]
fn tell_types(told: &mut Telling, types: &[NestedType]) {
    for it in types {
        tell_type(told, it);
    }
}

/// Tells what a text declares.
fn tell_file(told: &mut Telling, file: &NedFile) {
    tell_types(told, file.types.as_slice())
}

/// Tells what a text declares, or why it is refused.
fn tell_parsed(alloc: Global, told: &mut Telling, text: &[u8]) {
    match parse_ned(alloc, text) {
        Ok(file) => tell_file(told, &file),
        Err(refusal) => told.raw(&refusal),
    }
}

/// Tells what a text of a model declares, or that there is none of that number.
fn tell_declared(alloc: Global, told: &mut Telling, text: Option<&[u8]>) {
    told.text(", ");
    match text {
        Some(text) => tell_parsed(alloc, told, text),
        None => told.text("none"),
    }
}

/// The texts of a model, each before a `|`.
fn model(alloc: Global, told: &mut Telling, row: &str) -> NedTexts {
    let mut texts = NedTexts::new(alloc);
    for text in row.split('|') {
        let text = unescaped(alloc, told, text);
        if let Err(error) = texts.push(text.as_slice()) {
            told.fail(error.error());
        }
    }
    texts
}

/// Tells how many texts a model has, and what the first three declare.
pub fn tell_model(alloc: Global, told: &mut Telling, row: &str) {
    let texts = model(alloc, told, row);
    told.shown(&texts.len());
    tell_declared(alloc, told, texts.get(0));
    tell_declared(alloc, told, texts.get(1));
    tell_declared(alloc, told, texts.get(2));
}
