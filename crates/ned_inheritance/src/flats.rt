//! Flat types, made from those of their bases.

ghost use Rattle.std.specs.Prelude.{◌≡◌, ◌++◌, ◌≤◌, [], false, drop, length, IfOk, OnOk};
ghost use Rattle.std.specs.Option.{option_copied};
ghost use Rattle.ned_types.specs.Flat.{class_in, class_of, named_or};
ghost use Rattle.ned_types.specs.Types.{has_duplicate, is_simple_kind};
ghost use Rattle.ned_inheritance.specs.Flats.{bare_derived_with, base_at, changed_at};
ghost use Rattle.ned_inheritance.specs.Flats.{changed_behind, changed_by_base, derived_alone};
ghost use Rattle.ned_inheritance.specs.Flats.{derived_by, derived_over, flat_at, own_lines};
ghost use Rattle.ned_inheritance.specs.Flats.{with_changed, with_inherited, AddsChanged, AddsFlat};
ghost use Rattle.ned_inheritance.specs.Flats.{AreChanged, FlatsAlong, TakesFlat};
ghost use Rattle.ned_inheritance.specs.Inheritance.{class_lines, has_other_base, types_in};
ghost use Rattle.ned_inheritance.specs.Named.{HaveLines};
ghost use Rattle.ned_inheritance.specs.Order.{IsOrder};

use crate::inheritance::{add_connections, flat_interface, no_connections, with_own};
use crate::lines::Lines;
use crate::named::NamedTypes;
use crate::order::is_interface_kind;
use indexmap::IndexMap;
use ned_scopes::copies::{add_gates, add_lines, add_names, add_submodules, copy_base};
use ned_trees::declarations::{SectionLine, TypeDeclaration, TypeKind};
use ned_types::flat::{class_in, class_of};
use sim_values::dropping::{after, pair_after};
use sim_values::text::Text;
use sqlite_items::Items;
use std::alloc::{AllocError, Global};

/// At the name of each type that extends another, and of each interface, its flat type. All others
/// are flat as they are declared.
type Flats<'a> = IndexMap<&'a [u8], TypeDeclaration>;

fn is_simple_kind(kind: TypeKind) -> bool
    ensures { result ≡ is_simple_kind kind }
{
    matches!(kind, TypeKind::Simple)
}

/// Adds the line that names the class of a type that extends another, where it is a simple type.
fn add_class_line(
    alloc: Global,
    lines: &mut Items<SectionLine>,
    kind: TypeKind,
    class: &[u8],
) -> Result<(), AllocError>
    ensures { OnOk result (lines.new ≡ lines.old ++ class_lines (is_simple_kind kind) class.now) }
{
    if is_simple_kind(kind) {
        lines.push(SectionLine::Class(Text::from_bytes(alloc, class)?))?;
    }
    Ok(())
}

/// The line that names the class of a type that extends another, where it is a simple type.
fn class_lines(
    alloc: Global,
    kind: TypeKind,
    class: &[u8],
) -> Result<Items<SectionLine>, AllocError>
    ensures { IfOk result (λ lines. lines ≡ class_lines (is_simple_kind kind) class.now) }
{
    let mut lines = Items::new(alloc);
    let done = add_class_line(alloc, &mut lines, kind, class);
    after(lines, done)
}

/// A type of that class that extends another, before it has any member.
fn bare_derived(
    alloc: Global,
    declared: &TypeDeclaration,
    class: &[u8],
) -> Result<TypeDeclaration, AllocError>
    ensures { IfOk result (λ flat. flat ≡ bare_derived_with class.now declared.now) }
{
    let name = declared.name.copy(alloc)?;
    let (name, base) = pair_after(name, copy_base(alloc, &declared.base))?;
    let (name, lines) = pair_after(name, class_lines(alloc, declared.kind, class))?;
    Ok(TypeDeclaration {
        kind: declared.kind,
        name,
        base,
        interfaces: Items::new(alloc),
        lines,
        gates: Items::new(alloc),
        submodules: Items::new(alloc),
        connections: no_connections(alloc),
    })
}

/// The lines after the first one.
fn behind_first(lines: &[SectionLine]) -> &[SectionLine]
    ensures { result.now ≡ drop 1 lines.now }
{
    match lines.split_first() {
        Some((_, after)) => after,
        None => lines,
    }
}

/// The lines of a flat type, but for that of its class, which stands before the others where it is
/// a simple type that extends another.
fn own_lines(base: &TypeDeclaration) -> &[SectionLine]
    ensures { result.now ≡ own_lines base.now }
{
    if is_simple_kind(base.kind) && base.base.is_some() {
        behind_first(base.lines.as_slice())
    } else {
        base.lines.as_slice()
    }
}

/// Adds all that a flat type has to a type after its own.
fn add_inherited(
    alloc: Global,
    flat: &mut TypeDeclaration,
    base: &TypeDeclaration,
) -> Result<(), AllocError>
    ensures { OnOk result (flat.new ≡ with_inherited flat.old base.now) }
{
    add_names(alloc, &mut flat.interfaces, base.interfaces.as_slice())?;
    add_lines(alloc, &mut flat.lines, own_lines(base))?;
    add_gates(alloc, &mut flat.gates, base.gates.as_slice())?;
    add_submodules(alloc, &mut flat.submodules, base.submodules.as_slice())?;
    add_connections(alloc, &mut flat.connections, &base.connections)
}

/// A type with all that a flat type has after its own.
fn with_inherited(
    alloc: Global,
    flat: TypeDeclaration,
    base: &TypeDeclaration,
) -> Result<TypeDeclaration, AllocError>
    ensures { IfOk result (λ whole. whole ≡ with_inherited flat base.now) }
{
    let mut flat = flat;
    let done = add_inherited(alloc, &mut flat, base);
    after(flat, done)
}

/// The class of a type whose base has this flat type.
fn class_over<'a>(base: &'a TypeDeclaration, declared: &'a TypeDeclaration) -> &'a [u8]
    ensures { result.now ≡ named_or (class_in declared.now.lines) (class_of base.now) }
{
    match class_in(declared.lines.as_slice()) {
        Some(name) => name,
        None => class_of(base),
    }
}

/// The flat type of a type whose base has this flat type.
fn derived_over(
    alloc: Global,
    base: &TypeDeclaration,
    declared: &TypeDeclaration,
) -> Result<TypeDeclaration, AllocError>
    ensures { IfOk result (λ flat. flat ≡ derived_over base.now declared.now) }
{
    let flat = bare_derived(alloc, declared, class_over(base, declared))?;
    let flat = with_inherited(alloc, flat, base)?;
    with_own(alloc, flat, declared)
}

/// The flat type of a type whose base is none of the types.
fn derived_alone(alloc: Global, declared: &TypeDeclaration) -> Result<TypeDeclaration, AllocError>
    ensures { IfOk result (λ flat. flat ≡ derived_alone declared.now) }
{
    let flat = bare_derived(alloc, declared, class_of(declared))?;
    with_own(alloc, flat, declared)
}

/// The flat type of a type that extends another, whose flat type this is, where it is one of the
/// types.
fn derived_by(
    alloc: Global,
    base: Option<&TypeDeclaration>,
    declared: &TypeDeclaration,
) -> Result<TypeDeclaration, AllocError>
    ensures { IfOk result (λ flat. flat ≡ derived_by (option_copied base.entry) declared.now) }
{
    match base {
        Some(base) => derived_over(alloc, base, declared),
        None => derived_alone(alloc, declared),
    }
}

/// The flat type of the name that a type extends, where it is one of the types.
fn base_at<'f, 'a>(
    flats: &'f Flats<'a>,
    named: &NamedTypes<'a>,
    name: &[u8],
) -> Option<&'f TypeDeclaration>
    ensures { option_copied result ≡ base_at flats.now.entries named.now name.now }
{
    match flats.get(name) {
        Some(flat) => Some(flat),
        None => named.find(name),
    }
}

/// The flat type of a type that extends another, where these are those of all that it extends.
fn changed_by_base<'a>(
    alloc: Global,
    flats: &Flats<'a>,
    named: &NamedTypes<'a>,
    declared: &TypeDeclaration,
) -> Result<Option<TypeDeclaration>, AllocError>
    ensures { IfOk result (λ flat. flat
        ≡ changed_by_base flats.now.entries named.now declared.now declared.now.base) }
{
    match &declared.base {
        Some(name) => {
            let base = base_at(flats, named, name.as_bytes());
            Ok(Some(derived_by(alloc, base, declared)?))
        }
        None => Ok(None),
    }
}

/// The flat type of a type where it isn't the type as it is declared, when those of all that it
/// extends are there.
fn changed_behind<'a>(
    alloc: Global,
    lines: &Lines<'a>,
    flats: &Flats<'a>,
    named: &NamedTypes<'a>,
    declared: &'a TypeDeclaration,
) -> Result<Option<TypeDeclaration>, AllocError>
    ensures { IfOk result (λ flat. flat
        ≡ changed_behind lines.now.entries flats.now.entries named.now declared.now) }
{
    if is_interface_kind(declared.kind) {
        Ok(Some(flat_interface(alloc, lines, declared)?))
    } else {
        changed_by_base(alloc, flats, named, declared)
    }
}

/// Adds a flat type at the name of a type.
fn put<'a>(
    flats: &mut Flats<'a>,
    declared: &'a TypeDeclaration,
    flat: TypeDeclaration,
) -> Result<(), AllocError>
    ensures { OnOk result (AddsFlat flats.old.entries flats.new.entries declared.now flat) }
{
    flats.insert(declared.name.as_bytes(), flat)?;
    Ok(())
}

/// Adds the flat type of a type where it isn't the type as it is declared, when those of all that
/// it extends are there.
fn add_flat<'a>(
    alloc: Global,
    lines: &Lines<'a>,
    flats: &mut Flats<'a>,
    named: &NamedTypes<'a>,
    declared: &'a TypeDeclaration,
) -> Result<(), AllocError>
    ensures { OnOk result (AddsChanged flats.old.entries flats.new.entries declared.now
        (changed_behind lines.now.entries flats.old.entries named.now declared.now)) }
{
    match changed_behind(alloc, lines, flats, named, declared)? {
        Some(flat) => put(flats, declared, flat),
        None => Ok(()),
    }
}

/// Adds the flat types of these types to none.
fn add_flats<'a>(
    alloc: Global,
    lines: &Lines<'a>,
    flats: &mut Flats<'a>,
    named: &NamedTypes<'a>,
    order: &[&'a TypeDeclaration],
) -> Result<(), AllocError>
    requires { flats.old.entries ≡ [] }
    ensures { OnOk result
        (FlatsAlong lines.now.entries flats.new.entries named.now (types_in order.now)) }
{
    let mut rest = order;
    while let [declared, after @ ..] = rest {
        add_flat(alloc, lines, flats, named, declared)?;
        rest = after;
    }
    Ok(())
}

/// The flat types of these types, each of which stands after all that it extends.
fn flats_of<'a>(
    alloc: Global,
    lines: &Lines<'a>,
    named: &NamedTypes<'a>,
    order: &[&'a TypeDeclaration],
) -> Result<Flats<'a>, AllocError>
    ensures { IfOk result
        (λ flats. FlatsAlong lines.now.entries flats.entries named.now (types_in order.now)) }
{
    let mut flats = IndexMap::new(alloc);
    let done = add_flats(alloc, lines, &mut flats, named, order);
    after(flats, done)
}

/// Takes the flat type of a type out of the table, where it has one.
fn taken(flats: &mut Flats<'_>, declared: &TypeDeclaration) -> Option<TypeDeclaration>
    ensures flat { result ≡ flat_at flats.old.entries declared.now.name }
    ensures left { TakesFlat flats.old.entries flats.new.entries declared.now }
{
    flats.swap_remove(declared.name.as_bytes())
}

/// Adds the flat type of each, where the table has it, which loses it.
fn add_taken(
    changed: &mut Items<Option<TypeDeclaration>>,
    flats: &mut Flats<'_>,
    types: &[TypeDeclaration],
) -> Result<(), AllocError>
    requires { has_duplicate types.now ≡ false }
    ensures { OnOk result (changed.new ≡ changed.old ++ changed_at flats.old.entries types.now) }
{
    let mut rest = types;
    while let [declared, after @ ..] = rest {
        changed.push(taken(flats, declared))?;
        rest = after;
    }
    Ok(())
}

/// The flat type of each, where the table has it.
fn all_taken(
    alloc: Global,
    flats: Flats<'_>,
    types: &[TypeDeclaration],
) -> Result<Items<Option<TypeDeclaration>>, AllocError>
    requires { has_duplicate types.now ≡ false }
    ensures { IfOk result (λ changed. changed ≡ changed_at flats.entry.entries types.now) }
{
    let mut flats = flats;
    let mut changed = Items::new(alloc);
    let done = add_taken(&mut changed, &mut flats, types);
    after(changed, done)
}

/// The flat type of each where it isn't the type as it is declared, when these are the lines of the
/// interfaces among the types, the types by their names, and an order of them. Each is made from
/// that of its base, so the time is in proportion to what they have.
pub(crate) fn changed_types<'a>(
    alloc: Global,
    lines: &Lines<'a>,
    named: &NamedTypes<'a>,
    order: &[&'a TypeDeclaration],
    types: &[TypeDeclaration],
) -> Result<Items<Option<TypeDeclaration>>, AllocError>
    requires names { named.now ≡ types.now }
    requires lines { HaveLines lines.now.entries types.now }
    requires order { IsOrder types.now (types_in order.now) }
    requires apart { has_duplicate types.now ≡ false }
    requires fit { has_other_base types.now ≡ false }
    ensures { IfOk result (AreChanged types.now) }
{
    let flats = flats_of(alloc, lines, named, order)?;
    all_taken(alloc, flats, types)
}

/// The types, each with its flat type in its place where it isn't the type as it is declared.
pub(crate) fn with_changed(
    types: Items<TypeDeclaration>,
    changed: Items<Option<TypeDeclaration>>,
) -> Items<TypeDeclaration>
    requires { length changed ≤ length types }
    ensures { result ≡ with_changed types changed }
{
    let mut types = types;
    let mut changed = changed;
    while let Some(last) = changed.pop() {
        if let Some(flat) = last {
            types.set(changed.len(), flat);
        }
    }
    types
}
