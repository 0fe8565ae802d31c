//! Which types the names in a type mean.

ghost use Rattle.std.specs.Prelude.{◌≡◌, ◌++◌, option_map, map, IfOk, OnOk};
ghost use Rattle.ned_scopes.specs.Known.{is_known};
ghost use Rattle.ned_scopes.specs.Scopes.{declaring, full_name, inner_name, meant, meant_type};
ghost use Rattle.ned_scopes.specs.Scopes.{own_class, class_line, resolved, resolved_submodule};
ghost use Rattle.ned_scopes.specs.Scopes.{scopes_of};

use crate::connections::resolved_connections;
use crate::copies::{add_lines, copy_body, copy_expression, copy_gates, copy_lines, copy_optional};
use crate::known::TypesByName;
use ned_trees::declarations::{
    ParametricType, SectionLine, Submodule, SubmoduleType, TypeDeclaration, TypeKind,
};
use sim_values::text::Text;
use sqlite_items::Items;
use std::alloc::{AllocError, Global};

/// The full name of a type within another.
pub(crate) fn inner_name(alloc: Global, outer: &Text, name: &Text) -> Result<Text, AllocError>
    ensures { IfOk result (λ full. full ≡ inner_name outer.now name.now) }
{
    let mut bytes = Vec::from_slice(alloc, outer.as_bytes())?;
    bytes.extend_from_slice(b".".as_slice())?;
    bytes.extend_from_slice(name.as_bytes())?;
    Ok(Text::from_vec(bytes))
}

/// The full name of a type, where these are the scopes of the type around it.
fn full_name(alloc: Global, scopes: &[Text], name: &Text) -> Result<Text, AllocError>
    ensures { IfOk result (λ full. full ≡ full_name scopes.now name.now) }
{
    match scopes {
        [scope, ..] => inner_name(alloc, scope, name),
        [] => name.copy(alloc),
    }
}

/// Whether the scope declares the name.
fn declares(
    alloc: Global,
    types: &TypesByName,
    scope: &Text,
    name: &Text,
) -> Result<bool, AllocError>
    ensures { IfOk result
        (λ known. known ≡ is_known types.now.inner (inner_name scope.now name.now)) }
{
    let full = inner_name(alloc, scope, name)?;
    Ok(types.inner.has(&full))
}

/// The scopes from the first one on that declares the name.
fn declaring<'a>(
    alloc: Global,
    types: &TypesByName,
    scopes: &'a [Text],
    name: &Text,
) -> Result<&'a [Text], AllocError>
    ensures { IfOk result (λ rest. rest.now ≡ declaring types.now scopes.now name.now) }
{
    let mut rest = scopes;
    while let [scope, after @ ..] = rest {
        if declares(alloc, types, scope, name)? {
            return Ok(rest);
        }
        rest = after;
    }
    Ok(rest)
}

/// The full name of the type that the name means in these scopes.
fn meant(
    alloc: Global,
    types: &TypesByName,
    scopes: &[Text],
    name: &Text,
) -> Result<Text, AllocError>
    ensures { IfOk result (λ full. full ≡ meant types.now scopes.now name.now) }
{
    let scopes = declaring(alloc, types, scopes, name)?;
    full_name(alloc, scopes, name)
}

/// The scopes of what stands within a type, whose head is looked up in these.
pub(crate) fn scopes_of(
    alloc: Global,
    types: &TypesByName,
    scopes: &[Text],
    declared: &TypeDeclaration,
) -> Result<Vec<Text>, AllocError>
    ensures { IfOk result (λ own. own.items ≡ scopes_of types.now scopes.now declared.now) }
{
    let mut own = Vec::new(alloc);
    own.push(full_name(alloc, scopes, &declared.name)?)?;
    let mut rest = scopes;
    let mut next = declared.base.as_ref();
    let mut left = types.all.len();
    while let Some(base) = next {
        if left == 0 {
            break;
        }
        rest = declaring(alloc, types, rest, base)?;
        let full = full_name(alloc, rest, base)?;
        next = types.all.base_named(&full);
        own.push(full)?;
        left -= 1;
    }
    Ok(own)
}

/// The full names of what is extended.
pub(crate) fn meant_base(
    alloc: Global,
    types: &TypesByName,
    scopes: &[Text],
    base: &Option<Text>,
) -> Result<Option<Text>, AllocError>
    ensures { IfOk result (λ full. full ≡ option_map (meant types.now scopes.now) base.now) }
{
    match base {
        Some(name) => Ok(Some(meant(alloc, types, scopes, name)?)),
        None => Ok(None),
    }
}

/// The full names of interfaces.
fn meant_names(
    alloc: Global,
    types: &TypesByName,
    scopes: &[Text],
    names: &[Text],
) -> Result<Items<Text>, AllocError>
    ensures { IfOk result (λ full. full ≡ map (meant types.now scopes.now) names.now) }
{
    let mut full = Items::new(alloc);
    for name in names {
        full.push(meant(alloc, types, scopes, name)?)?;
    }
    Ok(full)
}

/// The type of a submodule, or the interface after `like`, looked up in these scopes.
fn meant_type(
    alloc: Global,
    types: &TypesByName,
    scopes: &[Text],
    of: &SubmoduleType,
) -> Result<SubmoduleType, AllocError>
    ensures { IfOk result (λ t. t ≡ meant_type types.now scopes.now of.now) }
{
    match of {
        SubmoduleType::Named(name) => {
            Ok(SubmoduleType::Named(meant(alloc, types, scopes, name)?))
        }
        SubmoduleType::Like(parametric) => Ok(SubmoduleType::Like(ParametricType {
            given: copy_optional(alloc, &parametric.given)?,
            interface: meant(alloc, types, scopes, &parametric.interface)?,
        })),
    }
}

/// A submodule, whose type is looked up in these scopes.
fn resolved_submodule(
    alloc: Global,
    types: &TypesByName,
    scopes: &[Text],
    submodule: &Submodule,
) -> Result<Submodule, AllocError>
    ensures { IfOk result (λ s. s ≡ resolved_submodule types.now scopes.now submodule.now) }
{
    Ok(Submodule {
        name: submodule.name.copy(alloc)?,
        size: copy_expression(alloc, &submodule.size)?,
        submodule_type: meant_type(alloc, types, scopes, &submodule.submodule_type)?,
        condition: copy_expression(alloc, &submodule.condition)?,
        body: copy_body(alloc, &submodule.body)?,
    })
}

/// The same of several.
fn resolved_submodules(
    alloc: Global,
    types: &TypesByName,
    scopes: &[Text],
    submodules: &[Submodule],
) -> Result<Items<Submodule>, AllocError>
    ensures { IfOk result
        (λ all. all ≡ map (resolved_submodule types.now scopes.now) submodules.now) }
{
    let mut all = Items::new(alloc);
    for submodule in submodules {
        all.push(resolved_submodule(alloc, types, scopes, submodule)?)?;
    }
    Ok(all)
}

/// Adds the line that names the class of a simple type that extends none.
fn add_class_line(
    alloc: Global,
    lines: &mut Items<SectionLine>,
    declared: &TypeDeclaration,
) -> Result<(), AllocError>
    ensures { OnOk result (lines.new
        ≡ lines.old ++ class_line declared.now.kind declared.now.base declared.now.name) }
{
    match (declared.kind, &declared.base) {
        (TypeKind::Simple, None) => {
            lines.push(SectionLine::Class(declared.name.copy(alloc)?))?;
            Ok(())
        }
        _ => Ok(()),
    }
}

/// The lines of a type, and after them the class of a simple type within another.
fn resolved_lines(
    alloc: Global,
    scopes: &[Text],
    declared: &TypeDeclaration,
) -> Result<Items<SectionLine>, AllocError>
    ensures { IfOk result
        (λ lines. lines ≡ declared.now.lines ++ own_class scopes.now declared.now) }
{
    let mut lines = copy_lines(alloc, declared.lines.as_slice())?;
    if !scopes.is_empty() {
        add_class_line(alloc, &mut lines, declared)?;
    }
    Ok(lines)
}

/// A type with full names: its head is looked up in the first scopes, and what stands within it in
/// the others.
pub(crate) fn resolved(
    alloc: Global,
    types: &TypesByName,
    scopes: &[Text],
    own: &[Text],
    declared: &TypeDeclaration,
) -> Result<TypeDeclaration, AllocError>
    ensures { IfOk result (λ t. t ≡ resolved types.now scopes.now own.now declared.now) }
{
    Ok(TypeDeclaration {
        kind: declared.kind,
        name: full_name(alloc, scopes, &declared.name)?,
        base: meant_base(alloc, types, scopes, &declared.base)?,
        interfaces: meant_names(alloc, types, scopes, declared.interfaces.as_slice())?,
        lines: resolved_lines(alloc, scopes, declared)?,
        gates: copy_gates(alloc, declared.gates.as_slice())?,
        submodules: resolved_submodules(alloc, types, own, declared.submodules.as_slice())?,
        connections: resolved_connections(alloc, types, own, &declared.connections)?,
    })
}
