//! Interfaces with all that they extend.

ghost use Rattle.std.specs.Prelude.{◌≡◌, [], map, IfOk, OnOk};
ghost use Rattle.std.specs.Option.{option_copied};
ghost use Rattle.ned_inheritance.specs.Inheritance.{all_behind, joined_behind, once_behind};
ghost use Rattle.ned_inheritance.specs.Inheritance.{types_in};
ghost use Rattle.ned_inheritance.specs.Named.{AddsLine, LinesAlong, is_bare, kept_behind, line_at};

use crate::named::NamedTypes;
use crate::order::is_interface_kind;
use indexmap::IndexMap;
use ned_trees::declarations::TypeDeclaration;
use sim_values::dropping::after;
use sim_values::text::Text;
use std::alloc::{AllocError, Global};

/// At the name of each interface those that it extends, and itself after them: those of them that
/// have members.
pub(crate) type Lines<'a> = IndexMap<&'a [u8], NamedTypes<'a>>;

/// Adds a type after the others, unless one of them has its name.
fn add_once<'a>(line: &mut NamedTypes<'a>, declared: &'a TypeDeclaration) -> Result<(), AllocError>
    ensures { OnOk result (line.new ≡ once_behind line.old declared.now) }
{
    if !line.has(declared.name.as_bytes()) {
        let _new = line.add(declared)?;
    }
    Ok(())
}

/// Whether a type has no members of its own, and extends no type.
fn is_bare(declared: &TypeDeclaration) -> bool
    ensures { result ≡ is_bare declared.now }
{
    declared.base.is_none()
        && (declared.lines.as_slice().len() == 0
            && (declared.gates.as_slice().len() == 0
                && (declared.submodules.as_slice().len() == 0
                    && (declared.connections.items.as_slice().len() == 0
                        && !declared.connections.allow_unconnected))))
}

/// Adds a type after the others, unless it has no members or one of them has its name.
fn add_kept<'a>(line: &mut NamedTypes<'a>, declared: &'a TypeDeclaration) -> Result<(), AllocError>
    ensures { OnOk result (line.new ≡ kept_behind line.old declared.now) }
{
    if is_bare(declared) {
        return Ok(());
    }
    add_once(line, declared)
}

/// Adds types after others, those whose names aren't there.
fn add_behind<'a>(line: &mut NamedTypes<'a>, more: &[&'a TypeDeclaration]) -> Result<(), AllocError>
    ensures { OnOk result (line.new ≡ all_behind line.old (types_in more.now)) }
{
    let mut rest = more;
    while let [declared, after @ ..] = rest {
        add_once(line, declared)?;
        rest = after;
    }
    Ok(())
}

/// Adds the line of the interface of that name, where there is one.
fn add_line<'a>(
    alloc: Global,
    lines: &Lines<'a>,
    line: &mut NamedTypes<'a>,
    name: &[u8],
) -> Result<(), AllocError>
    ensures { OnOk result (line.new ≡ all_behind line.old (line_at lines.now.entries name.now)) }
{
    match lines.get(name) {
        Some(more) => {
            let refs = more.references(alloc)?;
            add_behind(line, &refs)
        }
        None => Ok(()),
    }
}

/// Adds the lines of the interfaces of these names.
pub(crate) fn add_lines_of<'a>(
    alloc: Global,
    lines: &Lines<'a>,
    line: &mut NamedTypes<'a>,
    names: &[Text],
) -> Result<(), AllocError>
    ensures { OnOk result (line.new
        ≡ joined_behind line.old (map (line_at lines.now.entries) names.now)) }
{
    let mut rest = names;
    'names: while let Some((name, after)) = rest.split_first() {
        add_line(alloc, lines, line, name.as_bytes())?;
        rest = after;
    }
    Ok(())
}

/// Adds the line of an interface: those of what it extends, and itself, where it has members.
fn add_interface<'a>(
    alloc: Global,
    lines: &mut Lines<'a>,
    declared: &'a TypeDeclaration,
) -> Result<(), AllocError>
    ensures { OnOk result (AddsLine lines.old.entries lines.new.entries declared.now) }
{
    let mut line = NamedTypes::new(alloc);
    add_lines_of(alloc, lines, &mut line, declared.interfaces.as_slice())?;
    add_kept(&mut line, declared)?;
    lines.insert(declared.name.as_bytes(), line)?;
    Ok(())
}

/// Adds the lines of the interfaces among these types to none.
fn add_interfaces<'a>(
    alloc: Global,
    lines: &mut Lines<'a>,
    order: &[&'a TypeDeclaration],
) -> Result<(), AllocError>
    requires { lines.old.entries ≡ [] }
    ensures { OnOk result (LinesAlong lines.new.entries (types_in order.now)) }
{
    let mut rest = order;
    while let [declared, after @ ..] = rest {
        if is_interface_kind(declared.kind) {
            add_interface(alloc, lines, declared)?;
        }
        rest = after;
    }
    Ok(())
}

/// The lines of the interfaces among these types, each of which stands after all that it extends.
pub(crate) fn lines_of<'a>(
    alloc: Global,
    order: &[&'a TypeDeclaration],
) -> Result<Lines<'a>, AllocError>
    ensures { IfOk result (λ lines. LinesAlong lines.entries (types_in order.now)) }
{
    let mut lines = IndexMap::new(alloc);
    let done = add_interfaces(alloc, &mut lines, order);
    after(lines, done)
}
