//! Types that extend others.

ghost use Rattle.std.specs.Prelude.{◌≡◌, [], map, IfOk, OnOk};
ghost use Rattle.std.specs.Option.{option_copied};
ghost use Rattle.ned_inheritance.specs.Inheritance.{extends_unknown, extends_other, can_extend};
ghost use Rattle.ned_inheritance.specs.Inheritance.{is_base, is_channel_of, with_members, bare};
ghost use Rattle.ned_inheritance.specs.Inheritance.{gathered, is_compound_kind, joined_behind};
ghost use Rattle.ned_inheritance.specs.Inheritance.{joined_connections, no_connections, types_in};
ghost use Rattle.ned_inheritance.specs.Named.{flat_by_lines, line_at};

use crate::faults::{is_built_in, is_taken};
use crate::lines::{Lines, add_lines_of};
use crate::named::NamedTypes;
use ned_channels::built_in::add_root;
use ned_scopes::connections::add_items;
use ned_scopes::copies::{add_gates, add_lines, add_names, add_submodules};
use ned_trees::connections::ConnectionSection;
use ned_trees::declarations::{TypeDeclaration, TypeKind};
use sim_values::dropping::after;
use sim_values::text::Text;
use sqlite_items::Items;
use std::alloc::{AllocError, Global};

/// Whether what is extended isn't there.
pub(crate) fn extends_unknown(named: &NamedTypes<'_>, base: &Option<Text>) -> bool
    ensures { result ≡ extends_unknown named.now base.now }
{
    match base {
        Some(name) => !is_taken(name.as_bytes(), named),
        None => false,
    }
}

/// Whether what is extended isn't of that kind.
pub(crate) fn extends_other(named: &NamedTypes<'_>, kind: TypeKind, base: &Option<Text>) -> bool
    ensures { result ≡ extends_other named.now kind base.now }
{
    match base {
        Some(name) => {
            !(is_channel_of(kind, name.as_bytes()) || is_base(kind, named.find(name.as_bytes())))
        }
        None => false,
    }
}

/// Whether it is a channel that extends a built-in one.
fn is_channel_of(kind: TypeKind, name: &[u8]) -> bool
    ensures { result ≡ is_channel_of kind name.now }
{
    matches!(kind, TypeKind::Channel) && is_built_in(name)
}

/// Whether it is a kind of compound modules.
fn is_compound_kind(kind: TypeKind) -> bool
    ensures { result ≡ is_compound_kind kind }
{
    matches!(kind, TypeKind::Module | TypeKind::Network)
}

/// Whether a type of the first kind may extend one of the second.
fn can_extend(kind: TypeKind, of: TypeKind) -> bool
    ensures { result ≡ can_extend kind of }
{
    match kind {
        TypeKind::Simple => matches!(of, TypeKind::Simple),
        TypeKind::Module | TypeKind::Network => is_compound_kind(of),
        TypeKind::Channel => matches!(of, TypeKind::Channel),
        TypeKind::ModuleInterface | TypeKind::ChannelInterface => false,
    }
}

/// Whether a type of that kind may extend this one.
fn is_base(kind: TypeKind, declared: Option<&TypeDeclaration>) -> bool
    ensures { result ≡ is_base kind (option_copied declared.entry) }
{
    match declared {
        Some(declared) => can_extend(kind, declared.kind),
        None => false,
    }
}

/// A section of connections without items.
pub(crate) fn no_connections(alloc: Global) -> ConnectionSection
    ensures { result ≡ no_connections }
{
    ConnectionSection {
        allow_unconnected: false,
        items: Items::new(alloc),
    }
}

/// Adds the connections of a section after those of the other.
pub(crate) fn add_connections(
    alloc: Global,
    section: &mut ConnectionSection,
    more: &ConnectionSection,
) -> Result<(), AllocError>
    ensures { OnOk result (section.new ≡ joined_connections section.old more.now) }
{
    add_items(alloc, &mut section.items, more.items.as_slice())?;
    section.allow_unconnected = section.allow_unconnected || more.allow_unconnected;
    Ok(())
}

/// Adds the members of a type after those of the other, and before them what the built-in channel
/// has that it extends.
fn add_members(
    alloc: Global,
    flat: &mut TypeDeclaration,
    declared: &TypeDeclaration,
) -> Result<(), AllocError>
    ensures { OnOk result (flat.new ≡ with_members flat.old declared.now) }
{
    add_names(alloc, &mut flat.interfaces, declared.interfaces.as_slice())?;
    add_root(alloc, &mut flat.lines, &declared.base)?;
    add_lines(alloc, &mut flat.lines, declared.lines.as_slice())?;
    add_gates(alloc, &mut flat.gates, declared.gates.as_slice())?;
    add_submodules(alloc, &mut flat.submodules, declared.submodules.as_slice())?;
    add_connections(alloc, &mut flat.connections, &declared.connections)
}

/// Adds the members of these types, those of the first one first.
fn add_gathered(
    alloc: Global,
    flat: &mut TypeDeclaration,
    line: &[&TypeDeclaration],
) -> Result<(), AllocError>
    ensures { OnOk result (flat.new ≡ gathered flat.old (types_in line.now)) }
{
    let mut rest = line;
    while let [declared, after @ ..] = rest {
        add_members(alloc, flat, declared)?;
        rest = after;
    }
    Ok(())
}

/// A type without members.
fn bare(alloc: Global, declared: &TypeDeclaration) -> Result<TypeDeclaration, AllocError>
    ensures { IfOk result (λ flat. flat ≡ bare declared.now) }
{
    Ok(TypeDeclaration {
        kind: declared.kind,
        name: declared.name.copy(alloc)?,
        base: None,
        interfaces: Items::new(alloc),
        lines: Items::new(alloc),
        gates: Items::new(alloc),
        submodules: Items::new(alloc),
        connections: no_connections(alloc),
    })
}

/// The types that the lines of these names have, one line after the other, each type once.
fn lines_behind<'a>(
    alloc: Global,
    lines: &Lines<'a>,
    names: &[Text],
) -> Result<Vec<&'a TypeDeclaration>, AllocError>
    ensures { IfOk result (λ line.
        types_in line.items ≡ joined_behind [] (map (line_at lines.now.entries) names.now)) }
{
    let mut line = NamedTypes::new(alloc);
    add_lines_of(alloc, lines, &mut line, names)?;
    line.references(alloc)
}

/// A type with the members of these, those of the first one first.
fn with_gathered(
    alloc: Global,
    flat: TypeDeclaration,
    line: &[&TypeDeclaration],
) -> Result<TypeDeclaration, AllocError>
    ensures { IfOk result (λ whole. whole ≡ gathered flat (types_in line.now)) }
{
    let mut flat = flat;
    let done = add_gathered(alloc, &mut flat, line);
    after(flat, done)
}

/// A type with the members of another after its own.
pub(crate) fn with_own(
    alloc: Global,
    flat: TypeDeclaration,
    declared: &TypeDeclaration,
) -> Result<TypeDeclaration, AllocError>
    ensures { IfOk result (λ whole. whole ≡ with_members flat declared.now) }
{
    let mut flat = flat;
    let done = add_members(alloc, &mut flat, declared);
    after(flat, done)
}

/// An interface with all that it extends.
pub(crate) fn flat_interface<'a>(
    alloc: Global,
    lines: &Lines<'a>,
    declared: &'a TypeDeclaration,
) -> Result<TypeDeclaration, AllocError>
    ensures { IfOk result (λ flat. flat ≡ flat_by_lines lines.now.entries declared.now) }
{
    let line = lines_behind(alloc, lines, declared.interfaces.as_slice())?;
    let flat = bare(alloc, declared)?;
    let flat = with_gathered(alloc, flat, &line)?;
    let mut flat = with_own(alloc, flat, declared)?;
    flat.interfaces = Items::new(alloc);
    Ok(flat)
}
