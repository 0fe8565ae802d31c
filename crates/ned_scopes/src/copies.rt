//! Copies of what types declare.

ghost use Rattle.std.specs.Prelude.{◌≡◌, ◌++◌, IfOk, OnOk};

use crate::connections::copy_connections;
use ned_trees::declarations::{
    Assignment, Declaration, GateDeclaration, GateLine, GateRefinement, GateSize, ParameterValue,
    ParametricType, SectionLine, Submodule, SubmoduleBody, SubmoduleType, TypeDeclaration,
};
use ned_trees::expressions::Expression;
use ned_types::flat::copy_statistic;
use sim_values::text::Text;
use sqlite_items::Items;
use std::alloc::{AllocError, Global};

/// An equal value.
fn copy_value(alloc: Global, value: &ParameterValue) -> Result<ParameterValue, AllocError>
    ensures { IfOk result (λ copy. copy ≡ value.now) }
{
    match value {
        ParameterValue::Fixed(e) => Ok(ParameterValue::Fixed(e.copy(alloc)?)),
        ParameterValue::Default(e) => Ok(ParameterValue::Default(e.copy(alloc)?)),
    }
}

/// An equal value, where there is one.
pub(crate) fn copy_optional(
    alloc: Global,
    value: &Option<ParameterValue>,
) -> Result<Option<ParameterValue>, AllocError>
    ensures { IfOk result (λ copy. copy ≡ value.now) }
{
    match value {
        Some(value) => Ok(Some(copy_value(alloc, value)?)),
        None => Ok(None),
    }
}

/// An equal declaration.
fn copy_declaration(alloc: Global, declaration: &Declaration) -> Result<Declaration, AllocError>
    ensures { IfOk result (λ copy. copy ≡ declaration.now) }
{
    Ok(Declaration {
        name: declaration.name.copy(alloc)?,
        word: declaration.word,
        unit: declaration.unit,
        value: copy_optional(alloc, &declaration.value)?,
    })
}

/// An equal assignment.
fn copy_assignment(alloc: Global, assignment: &Assignment) -> Result<Assignment, AllocError>
    ensures { IfOk result (λ copy. copy ≡ assignment.now) }
{
    Ok(Assignment {
        name: assignment.name.copy(alloc)?,
        value: copy_optional(alloc, &assignment.value)?,
    })
}

/// An equal line.
fn copy_line(alloc: Global, line: &SectionLine) -> Result<SectionLine, AllocError>
    ensures { IfOk result (λ copy. copy ≡ line.now) }
{
    match line {
        SectionLine::Declaration(d) => Ok(SectionLine::Declaration(copy_declaration(alloc, d)?)),
        SectionLine::Assignment(a) => Ok(SectionLine::Assignment(copy_assignment(alloc, a)?)),
        SectionLine::Statistic(s) => Ok(SectionLine::Statistic(copy_statistic(alloc, s)?)),
        SectionLine::Class(name) => Ok(SectionLine::Class(name.copy(alloc)?)),
        SectionLine::Ignored => Ok(SectionLine::Ignored),
    }
}

/// Adds copies of these lines at the end.
pub fn add_lines(
    alloc: Global,
    lines: &mut Items<SectionLine>,
    more: &[SectionLine],
) -> Result<(), AllocError>
    ensures { OnOk result (lines.new ≡ lines.old ++ more.now) }
{
    for line in more {
        lines.push(copy_line(alloc, line)?)?;
    }
    Ok(())
}

/// Equal lines.
pub fn copy_lines(alloc: Global, lines: &[SectionLine]) -> Result<Items<SectionLine>, AllocError>
    ensures { IfOk result (λ copy. copy ≡ lines.now) }
{
    let mut copy = Items::new(alloc);
    add_lines(alloc, &mut copy, lines)?;
    Ok(copy)
}

/// An equal body of a submodule.
pub(crate) fn copy_body(alloc: Global, body: &SubmoduleBody) -> Result<SubmoduleBody, AllocError>
    ensures { IfOk result (λ copy. copy ≡ body.now) }
{
    Ok(SubmoduleBody {
        lines: copy_lines(alloc, body.lines.as_slice())?,
        gates: copy_gates(alloc, body.gates.as_slice())?,
    })
}

/// An equal type of a submodule.
fn copy_submodule_type(alloc: Global, of: &SubmoduleType) -> Result<SubmoduleType, AllocError>
    ensures { IfOk result (λ copy. copy ≡ of.now) }
{
    match of {
        SubmoduleType::Named(name) => Ok(SubmoduleType::Named(name.copy(alloc)?)),
        SubmoduleType::Like(parametric) => Ok(SubmoduleType::Like(ParametricType {
            given: copy_optional(alloc, &parametric.given)?,
            interface: parametric.interface.copy(alloc)?,
        })),
    }
}

/// An equal submodule.
fn copy_submodule(alloc: Global, submodule: &Submodule) -> Result<Submodule, AllocError>
    ensures { IfOk result (λ copy. copy ≡ submodule.now) }
{
    Ok(Submodule {
        name: submodule.name.copy(alloc)?,
        size: copy_expression(alloc, &submodule.size)?,
        submodule_type: copy_submodule_type(alloc, &submodule.submodule_type)?,
        condition: copy_expression(alloc, &submodule.condition)?,
        body: copy_body(alloc, &submodule.body)?,
    })
}

/// Adds copies of these submodules at the end.
pub fn add_submodules(
    alloc: Global,
    submodules: &mut Items<Submodule>,
    more: &[Submodule],
) -> Result<(), AllocError>
    ensures { OnOk result (submodules.new ≡ submodules.old ++ more.now) }
{
    for submodule in more {
        submodules.push(copy_submodule(alloc, submodule)?)?;
    }
    Ok(())
}

/// Equal submodules.
fn copy_submodules(alloc: Global, submodules: &[Submodule]) -> Result<Items<Submodule>, AllocError>
    ensures { IfOk result (λ copy. copy ≡ submodules.now) }
{
    let mut copy = Items::new(alloc);
    add_submodules(alloc, &mut copy, submodules)?;
    Ok(copy)
}

/// An equal size.
fn copy_size(alloc: Global, size: &GateSize) -> Result<GateSize, AllocError>
    ensures { IfOk result (λ copy. copy ≡ size.now) }
{
    match size {
        GateSize::Single => Ok(GateSize::Single),
        GateSize::Open => Ok(GateSize::Open),
        GateSize::Sized(e) => Ok(GateSize::Sized(e.copy(alloc)?)),
    }
}

/// An equal gate.
fn copy_gate(alloc: Global, gate: &GateDeclaration) -> Result<GateDeclaration, AllocError>
    ensures { IfOk result (λ copy. copy ≡ gate.now) }
{
    Ok(GateDeclaration {
        name: gate.name.copy(alloc)?,
        direction: gate.direction,
        size: copy_size(alloc, &gate.size)?,
        loose: gate.loose,
    })
}

/// An equal expression, where there is one.
pub(crate) fn copy_expression(
    alloc: Global,
    expression: &Option<Expression>,
) -> Result<Option<Expression>, AllocError>
    ensures { IfOk result (λ copy. copy ≡ expression.now) }
{
    match expression {
        Some(expression) => Ok(Some(expression.copy(alloc)?)),
        None => Ok(None),
    }
}

/// An equal line without a direction.
fn copy_refinement(alloc: Global, refinement: &GateRefinement) -> Result<GateRefinement, AllocError>
    ensures { IfOk result (λ copy. copy ≡ refinement.now) }
{
    Ok(GateRefinement {
        name: refinement.name.copy(alloc)?,
        size: copy_expression(alloc, &refinement.size)?,
        loose: refinement.loose,
    })
}

/// An equal line of a gate section.
fn copy_gate_line(alloc: Global, line: &GateLine) -> Result<GateLine, AllocError>
    ensures { IfOk result (λ copy. copy ≡ line.now) }
{
    match line {
        GateLine::Declaration(gate) => Ok(GateLine::Declaration(copy_gate(alloc, gate)?)),
        GateLine::Refinement(refinement) => {
            Ok(GateLine::Refinement(copy_refinement(alloc, refinement)?))
        }
    }
}

/// Adds copies of these lines of gate sections at the end.
pub fn add_gates(
    alloc: Global,
    gates: &mut Items<GateLine>,
    more: &[GateLine],
) -> Result<(), AllocError>
    ensures { OnOk result (gates.new ≡ gates.old ++ more.now) }
{
    for line in more {
        gates.push(copy_gate_line(alloc, line)?)?;
    }
    Ok(())
}

/// Equal lines of gate sections.
pub fn copy_gates(alloc: Global, gates: &[GateLine]) -> Result<Items<GateLine>, AllocError>
    ensures { IfOk result (λ copy. copy ≡ gates.now) }
{
    let mut copy = Items::new(alloc);
    add_gates(alloc, &mut copy, gates)?;
    Ok(copy)
}

/// Adds copies of these names at the end.
pub fn add_names(alloc: Global, names: &mut Items<Text>, more: &[Text]) -> Result<(), AllocError>
    ensures { OnOk result (names.new ≡ names.old ++ more.now) }
{
    for name in more {
        names.push(name.copy(alloc)?)?;
    }
    Ok(())
}

/// Equal names.
fn copy_names(alloc: Global, names: &[Text]) -> Result<Items<Text>, AllocError>
    ensures { IfOk result (λ copy. copy ≡ names.now) }
{
    let mut copy = Items::new(alloc);
    add_names(alloc, &mut copy, names)?;
    Ok(copy)
}

/// An equal name, where there is one.
pub fn copy_base(alloc: Global, base: &Option<Text>) -> Result<Option<Text>, AllocError>
    ensures { IfOk result (λ copy. copy ≡ base.now) }
{
    match base {
        Some(name) => Ok(Some(name.copy(alloc)?)),
        None => Ok(None),
    }
}

/// An equal type.
pub fn copy_type(alloc: Global, declared: &TypeDeclaration) -> Result<TypeDeclaration, AllocError>
    ensures { IfOk result (λ copy. copy ≡ declared.now) }
{
    Ok(TypeDeclaration {
        kind: declared.kind,
        name: declared.name.copy(alloc)?,
        base: copy_base(alloc, &declared.base)?,
        interfaces: copy_names(alloc, declared.interfaces.as_slice())?,
        lines: copy_lines(alloc, declared.lines.as_slice())?,
        gates: copy_gates(alloc, declared.gates.as_slice())?,
        submodules: copy_submodules(alloc, declared.submodules.as_slice())?,
        connections: copy_connections(alloc, &declared.connections)?,
    })
}
