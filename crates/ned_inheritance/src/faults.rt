//! Why declared types make no model.

ghost use Rattle.std.specs.Prelude.{◌≡◌, ◌||◌, [], false, not, None, IfOk};
ghost use Rattle.ned_types.specs.Clashes.{has_clash};
ghost use Rattle.ned_types.specs.Types.{has_duplicate, is_built_in, is_type_named, names_unknown};
ghost use Rattle.ned_types.specs.Types.{has_inner_network, is_inner_name, is_inner_network};
ghost use Rattle.ned_types.specs.Types.{is_submodule_known, is_submodule_suited, suits_kind};
ghost use Rattle.ned_inheritance.specs.Inheritance.{flat_types, types_in};
ghost use Rattle.ned_inheritance.specs.Flats.{AreChanged};
ghost use Rattle.ned_inheritance.specs.Order.{IsOrder};
ghost use Rattle.ned_inheritance.specs.Building.{Builds, BuildsChanged, AnswersTable};
ghost use Rattle.ned_inheritance.specs.Building.{AreFaultless, KeepRules, TellsFlat};
ghost use Rattle.ned_types.specs.WellFormed.{IsWellFormed};
ghost use Rattle.ned_inheritance.specs.Named.{is_other_named, is_unknown_named};
ghost use Rattle.ned_inheritance.specs.Places.{clash_in, first_again, first_from, is_name_before};
ghost use Rattle.ned_inheritance.specs.Places.{other_in, place_from, placed, submodule_clash_in};
ghost use Rattle.ned_inheritance.specs.Places.{unknown_in};

use crate::bodies::{body_clash, declared_in_body};
use crate::connections::{connection_clash, unknown_channel};
use crate::flats::{changed_types, with_changed};
use crate::gates::redeclared_gate;
use crate::inheritance::{extends_other, extends_unknown};
use crate::interfaces::{broken_place, first_other_interface, first_unknown_interface};
use crate::lines::lines_of;
use crate::named::{NamedTypes, by_name};
use crate::order::ordered;
use crate::places::{FaultPlace, Member, placed};
use crate::sections::{section_clash, see};
use crate::table::{BuildError, TypeFault};
use indexmap::IndexSet;
use ned_trees::declarations::{Submodule, SubmoduleType, TypeDeclaration, TypeKind};
use ned_types::flat::type_name;
use sim_values::dropping::err_dropping;
use sim_values::text::spells;
use sqlite_items::Items;
use std::alloc::{AllocError, Global};

/// The flat type of each of these types, or their first fault, in the order of TypeFault.
pub(crate) fn flattened(
    alloc: Global,
    types: Items<TypeDeclaration>,
) -> Result<Items<TypeDeclaration>, BuildError>
    ensures built { Builds types result }
    // What is built keeps the rules of types.
    ensures rules { IfOk result IsWellFormed }
    // Types that keep the rules have no fault.
    ensures complete { KeepRules types → AnswersTable (flat_types types) result }
{
    by_rules(alloc, types)
}

/// The flat type of each of these types, or their first fault.
fn by_rules(
    alloc: Global,
    types: Items<TypeDeclaration>,
) -> Result<Items<TypeDeclaration>, BuildError>
    ensures { Builds types result }
{
    match changed_by_rules(alloc, types.as_slice()) {
        Ok(changed) => faultless(alloc, with_changed(types, changed)),
        Err(error) => Err(err_dropping(types, error)),
    }
}

/// The flat type of each of these types where it isn't the type as it is declared, or the first
/// fault of their names and bases.
fn changed_by_rules(
    alloc: Global,
    types: &[TypeDeclaration],
) -> Result<Items<Option<TypeDeclaration>>, BuildError>
    ensures { BuildsChanged types.now result }
{
    match by_name(alloc, types)? {
        Ok(named) => changed_by(alloc, &named, types),
        Err(number) => {
            let member = Member::Whole;
            Err(BuildError::Fault(TypeFault::DuplicateType, FaultPlace { number, member }))
        }
    }
}

/// The same of types which have names of their own.
#[tactic(auto, using(crate::proofs::PlaceLaws::unknown_found, crate::proofs::PlaceLaws::circle_found, crate::proofs::PlaceLaws::other_found, crate::proofs::PlaceLaws::none_found))]
fn changed_by<'a>(
    alloc: Global,
    named: &NamedTypes<'a>,
    types: &'a [TypeDeclaration],
) -> Result<Items<Option<TypeDeclaration>>, BuildError>
    requires names { named.now ≡ types.now }
    requires apart { has_duplicate types.now ≡ false }
    ensures { BuildsChanged types.now result }
{
    if let Some(place) = unknown_place(named, types) {
        return Err(BuildError::Fault(TypeFault::UnknownType, place));
    }
    let order = match ordered(alloc, named, types)? {
        Ok(order) => order,
        Err(place) => return Err(BuildError::Fault(TypeFault::InheritanceCircle, place)),
    };
    if let Some(place) = other_place(named, types) {
        return Err(err_dropping(order, BuildError::Fault(TypeFault::KindClash, place)));
    }
    Ok(changed_over(alloc, named, order, types)?)
}

/// The flat type of each where it isn't the type as it is declared, when this is an order of the
/// types, which nothing needs after it.
fn changed_over<'a>(
    alloc: Global,
    named: &NamedTypes<'a>,
    order: Vec<&'a TypeDeclaration>,
    types: &'a [TypeDeclaration],
) -> Result<Items<Option<TypeDeclaration>>, AllocError>
    requires names { named.now ≡ types.now }
    requires apart { has_duplicate types.now ≡ false }
    requires order { IsOrder types.now (types_in order.items) }
    requires fit { place_from (other_in types.now) 0 types.now ≡ None }
    ensures { IfOk result (AreChanged types.now) }
{
    let lines = lines_of(alloc, &order)?;
    changed_types(alloc, &lines, named, &order, types)
}

/// Flat types, which have names of their own, where they have no fault.
fn faultless(
    alloc: Global,
    types: Items<TypeDeclaration>,
) -> Result<Items<TypeDeclaration>, BuildError>
    requires { has_duplicate types ≡ false }
    ensures { AreFaultless types result }
{
    match flat_fault(alloc, types.as_slice()) {
        Ok(None) => Ok(types),
        Ok(Some((fault, place))) => Err(err_dropping(types, BuildError::Fault(fault, place))),
        Err(error) => Err(err_dropping(types, error.into())),
    }
}

/// The first place where one of the types names what is neither a type nor a built-in channel.
fn unknown_place(named: &NamedTypes<'_>, types: &[TypeDeclaration]) -> Option<FaultPlace>
    ensures { result ≡ place_from (unknown_in named.now) 0 types.now }
{
    for (number, declared) in types.iter().enumerate() {
        let place = placed(number, unknown_in(named, declared));
        if place.is_some() {
            return place;
        }
    }
    None
}

/// What of a type names what is neither a type nor a built-in channel.
fn unknown_in(named: &NamedTypes<'_>, declared: &TypeDeclaration) -> Option<Member>
    ensures { result ≡ unknown_in named.now declared.now }
{
    if extends_unknown(named, &declared.base) {
        return Some(Member::Base);
    }
    if let Some(at) = first_unknown_interface(named, declared.interfaces.as_slice()) {
        return Some(Member::Interface(at));
    }
    if let Some(at) = first_unknown(named, declared.submodules.as_slice()) {
        return Some(Member::Submodule(at));
    }
    unknown_channel(named, declared.connections.items.as_slice())
}

/// The first place where one of the types is a network within another, or names what is of another
/// kind than it should be.
fn other_place(named: &NamedTypes<'_>, types: &[TypeDeclaration]) -> Option<FaultPlace>
    ensures { result ≡ place_from (other_in named.now) 0 types.now }
{
    for (number, declared) in types.iter().enumerate() {
        let place = placed(number, other_in(named, declared));
        if place.is_some() {
            return place;
        }
    }
    None
}

/// What of a type is of another kind than it should be.
fn other_in(named: &NamedTypes<'_>, declared: &TypeDeclaration) -> Option<Member>
    ensures { result ≡ other_in named.now declared.now }
{
    if is_inner_network(declared) {
        return Some(Member::Whole);
    }
    if extends_other(named, declared.kind, &declared.base) {
        return Some(Member::Base);
    }
    match first_other_interface(named, declared.kind, declared.interfaces.as_slice()) {
        Some(at) => Some(Member::Interface(at)),
        None => None,
    }
}

fn is_inner_network(declared: &TypeDeclaration) -> bool
    ensures { result ≡ is_inner_network declared.now }
{
    matches!(declared.kind, TypeKind::Network) && is_inner_name(declared.name.as_bytes())
}

/// Whether it is the full name of a type within another.
fn is_inner_name(name: &[u8]) -> bool
    ensures { result ≡ is_inner_name name.now }
{
    name.iter().any(|byte| *byte == b'.')
}

/// Whether a built-in channel or one of the types has that name.
pub(crate) fn is_taken(name: &[u8], named: &NamedTypes<'_>) -> bool
    ensures { result ≡ is_built_in name.now || is_type_named name.now named.now }
{
    is_built_in(name) || named.has(name)
}

/// Whether a built-in channel has that name.
pub(crate) fn is_built_in(name: &[u8]) -> bool
    ensures { result ≡ is_built_in name.now }
{
    spells(name, b"IdealChannel")
        || spells(name, b"DelayChannel")
        || spells(name, b"DatarateChannel")
}

/// The first of these submodules whose type isn't there.
fn first_unknown(named: &NamedTypes<'_>, submodules: &[Submodule]) -> Option<usize>
    ensures { result ≡ first_from (λ s. not (is_submodule_known named.now s)) 0 submodules.now }
{
    for (at, submodule) in submodules.iter().enumerate() {
        if !is_submodule_known(named, submodule) {
            return Some(at);
        }
    }
    None
}

/// Whether the submodule's type is there.
fn is_submodule_known(named: &NamedTypes<'_>, submodule: &Submodule) -> bool
    ensures { result ≡ is_submodule_known named.now submodule.now }
{
    is_taken(type_name(submodule), named)
}

/// The first fault of flat types, which have names of their own, and its place.
fn flat_fault(
    alloc: Global,
    types: &[TypeDeclaration],
) -> Result<Option<(TypeFault, FaultPlace)>, AllocError>
    requires { has_duplicate types.now ≡ false }
    ensures { IfOk result (TellsFlat types.now) }
{
    match by_name(alloc, types)? {
        Ok(named) => flat_fault_by(alloc, &named, types),
        Err(_) => unreachable!(),
    }
}

/// The first fault of flat types, which these are by their names, and its place.
fn flat_fault_by(
    alloc: Global,
    named: &NamedTypes<'_>,
    types: &[TypeDeclaration],
) -> Result<Option<(TypeFault, FaultPlace)>, AllocError>
    requires { named.now ≡ types.now }
    ensures { IfOk result (TellsFlat types.now) }
{
    match clash_place(alloc, named, types)? {
        Some(place) => Ok(Some((TypeFault::KindClash, place))),
        None => later_fault(alloc, named, types),
    }
}

/// The same of types without a clash.
#[tactic(auto, using(crate::proofs::PlaceLaws::lacked_tells, crate::proofs::PlaceLaws::none_tells))]
fn later_fault(
    alloc: Global,
    named: &NamedTypes<'_>,
    types: &[TypeDeclaration],
) -> Result<Option<(TypeFault, FaultPlace)>, AllocError>
    requires names { named.now ≡ types.now }
    requires fit { has_clash types.now ≡ false }
    ensures { IfOk result (TellsFlat types.now) }
{
    match broken_place(alloc, named, types)? {
        Some(place) => Ok(Some((TypeFault::Interface, place))),
        None => Ok(None),
    }
}

/// Where the first of these flat types that has a clash has its first one.
fn clash_place(
    alloc: Global,
    named: &NamedTypes<'_>,
    types: &[TypeDeclaration],
) -> Result<Option<FaultPlace>, AllocError>
    ensures { IfOk result (λ place. place ≡ place_from (clash_in named.now) 0 types.now) }
{
    for (number, declared) in types.iter().enumerate() {
        let place = placed(number, clash_in(alloc, named, declared)?);
        if place.is_some() {
            return Ok(place);
        }
    }
    Ok(None)
}

/// The first member of the type that clashes.
fn clash_in(
    alloc: Global,
    named: &NamedTypes<'_>,
    declared: &TypeDeclaration,
) -> Result<Option<Member>, AllocError>
    ensures { IfOk result (λ member. member ≡ clash_in named.now declared.now) }
{
    let member = section_clash(alloc, declared.lines.as_slice())?;
    if member.is_some() {
        return Ok(member);
    }
    if let Some(at) = redeclared_gate(alloc, declared.gates.as_slice())? {
        return Ok(Some(Member::GateAgain(at)));
    }
    let member = submodule_clash(alloc, named, declared.submodules.as_slice())?;
    if member.is_some() {
        return Ok(member);
    }
    connection_clash(alloc, named, declared.connections.items.as_slice())
}

fn submodule_clash(
    alloc: Global,
    named: &NamedTypes<'_>,
    submodules: &[Submodule],
) -> Result<Option<Member>, AllocError>
    ensures { IfOk result
        (λ member. member ≡ submodule_clash_in named.now submodules.now) }
{
    if let Some(at) = repeated_submodule(alloc, submodules)? {
        return Ok(Some(Member::SubmoduleAgain(at)));
    }
    if let Some(at) = first_of_other_kind(named, submodules) {
        return Ok(Some(Member::Submodule(at)));
    }
    let member = body_clash(alloc, named, submodules)?;
    if member.is_some() {
        return Ok(member);
    }
    Ok(declared_in_body(submodules))
}

/// The first submodule that has the name of one before it. The names that were seen stand in a set,
/// so each is compared with few.
fn repeated_submodule(alloc: Global, submodules: &[Submodule]) -> Result<Option<usize>, AllocError>
    ensures { IfOk result (λ at. at ≡ first_again is_name_before [] 0 submodules.now) }
{
    let mut seen = IndexSet::new(alloc);
    repeats_seen(&mut seen, submodules)
}

/// The same, where the names are added to an empty set.
fn repeats_seen<'a>(
    seen: &mut IndexSet<&'a [u8]>,
    submodules: &'a [Submodule],
) -> Result<Option<usize>, AllocError>
    requires { seen.old.keys ≡ [] }
    ensures { IfOk result (λ at. at ≡ first_again is_name_before [] 0 submodules.now) }
{
    for (at, submodule) in submodules.iter().enumerate() {
        if !see(seen, submodule.name.as_bytes())? {
            return Ok(Some(at));
        }
    }
    Ok(None)
}

/// The first submodule whose type isn't one of modules, or that after `like` isn't an interface of
/// modules.
fn first_of_other_kind(named: &NamedTypes<'_>, submodules: &[Submodule]) -> Option<usize>
    ensures { result ≡ first_from (λ s. not (is_submodule_suited named.now s)) 0 submodules.now }
{
    for (at, submodule) in submodules.iter().enumerate() {
        if !is_submodule_suited(named, submodule) {
            return Some(at);
        }
    }
    None
}

/// Whether a type of that kind may stand there: one of modules by its name, an interface of modules
/// after `like`.
fn suits_kind(of: &SubmoduleType, kind: TypeKind) -> bool
    ensures { result ≡ suits_kind of.now kind }
{
    match of {
        SubmoduleType::Named(_) => {
            matches!(
                kind,
                TypeKind::Simple | TypeKind::Module | TypeKind::Network
            )
        }
        SubmoduleType::Like(_) => matches!(kind, TypeKind::ModuleInterface),
    }
}

fn is_submodule_suited(named: &NamedTypes<'_>, submodule: &Submodule) -> bool
    ensures { result ≡ is_submodule_suited named.now submodule.now }
{
    match named.find(type_name(submodule)) {
        Some(declared) => suits_kind(&submodule.submodule_type, declared.kind),
        None => false,
    }
}
