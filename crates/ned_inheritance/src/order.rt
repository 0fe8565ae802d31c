//! The order in which types stand after all that they extend.

ghost use Rattle.std.specs.Prelude.{◌≡◌, ◌++◌, ◌<◌, [], true, false, is_err, length, IfErr, IfOk};
ghost use Rattle.std.specs.Prelude.{OnOk};
ghost use Rattle.ned_inheritance.specs.Circles.{IsCirclePlace};
ghost use Rattle.ned_inheritance.specs.Inheritance.{has_circle, types_in};
ghost use Rattle.ned_inheritance.specs.Order.{are_ready, is_base_ready, is_name_ready, is_ready};
ghost use Rattle.ned_inheritance.specs.Order.{AreAmong, AreLeft, AreStuck, IsOrder, IsUnderWay};
ghost use Rattle.ned_inheritance.specs.Order.{TakesOne};
ghost use Rattle.ned_types.specs.Types.{has_duplicate, is_interface_kind};

use crate::named::NamedTypes;
use crate::places::FaultPlace;
use crate::rounds::circle_place;
use crate::webs::roots_first;
use ned_trees::declarations::{TypeDeclaration, TypeKind};
use sim_values::text::Text;
use sqlite_items::at;
use std::alloc::{AllocError, Global};

/// Whether it is a kind of interfaces.
pub(crate) fn is_interface_kind(kind: TypeKind) -> bool
    ensures { result ≡ is_interface_kind kind }
{
    matches!(kind, TypeKind::ModuleInterface | TypeKind::ChannelInterface)
}

/// Whether the type of that name was seen, where there is one.
pub(crate) fn is_name_ready(named: &NamedTypes<'_>, seen: &NamedTypes<'_>, name: &[u8]) -> bool
    ensures { result ≡ is_name_ready named.now seen.now name.now }
{
    !named.has(name) || seen.has(name)
}

/// Whether a base was seen, where it is one of the types.
pub(crate) fn is_base_ready(
    named: &NamedTypes<'_>,
    seen: &NamedTypes<'_>,
    base: &Option<Text>,
) -> bool
    ensures { result ≡ is_base_ready named.now seen.now base.now }
{
    match base {
        Some(name) => is_name_ready(named, seen, name.as_bytes()),
        None => true,
    }
}

/// Whether all of these names that one of the types has were seen.
fn are_ready(named: &NamedTypes<'_>, seen: &NamedTypes<'_>, names: &[Text]) -> bool
    ensures { result ≡ are_ready named.now seen.now names.now }
{
    for name in names {
        if !is_name_ready(named, seen, name.as_bytes()) {
            return false;
        }
    }
    true
}

/// Whether all types that a type extends were seen.
fn is_ready(named: &NamedTypes<'_>, seen: &NamedTypes<'_>, declared: &TypeDeclaration) -> bool
    ensures { result ≡ is_ready named.now seen.now declared.now }
{
    is_base_ready(named, seen, &declared.base)
        && (!is_interface_kind(declared.kind)
            || are_ready(named, seen, declared.interfaces.as_slice()))
}

/// Adds references to these.
fn add_references<'a>(
    refs: &mut Vec<&'a TypeDeclaration>,
    types: &'a [TypeDeclaration],
) -> Result<(), AllocError>
    ensures { OnOk result (types_in refs.new.items ≡ types_in refs.old.items ++ types.now) }
{
    for declared in types {
        refs.push(declared)?;
    }
    Ok(())
}

/// Adds a reference to the type of that number.
fn add_at<'a>(
    refs: &mut Vec<&'a TypeDeclaration>,
    types: &'a [TypeDeclaration],
    number: usize,
) -> Result<(), AllocError>
    requires { AreAmong (types_in refs.old.items) types.now }
    ensures { OnOk result (AreAmong (types_in refs.new.items) types.now) }
{
    match at(types, number) {
        Some(declared) => {
            refs.push(declared)?;
            Ok(())
        }
        None => Ok(()),
    }
}

/// Adds references to those of the types that have these numbers.
fn add_numbered<'a>(
    refs: &mut Vec<&'a TypeDeclaration>,
    types: &'a [TypeDeclaration],
    numbers: &[usize],
) -> Result<(), AllocError>
    requires { AreAmong (types_in refs.old.items) types.now }
    ensures { OnOk result (AreAmong (types_in refs.new.items) types.now) }
{
    for number in numbers {
        add_at(refs, types, *number)?;
    }
    Ok(())
}

/// The types in an order that serves: those that extend no other, and others after what they
/// extend, and then all of them again.
fn candidates<'a>(
    alloc: Global,
    named: &NamedTypes<'a>,
    types: &'a [TypeDeclaration],
) -> Result<Vec<&'a TypeDeclaration>, AllocError>
    ensures { IfOk result (λ refs. IsUnderWay types.now [] (types_in refs.items)) }
{
    let numbers = roots_first(alloc, named, types)?;
    let mut refs = Vec::new(alloc);
    add_numbered(&mut refs, types, numbers.as_slice())?;
    add_references(&mut refs, types)?;
    Ok(refs)
}

/// Adds a type to the order, where it isn't there and extends only what is there, or else to those
/// that wait, where it isn't there. Answers whether it was added to the order.
fn take_one<'a>(
    named: &NamedTypes<'a>,
    order: &mut NamedTypes<'a>,
    waiting: &mut Vec<&'a TypeDeclaration>,
    declared: &'a TypeDeclaration,
) -> Result<bool, AllocError>
    ensures { IfOk result (TakesOne named.now order.old order.new (types_in waiting.old.items)
        (types_in waiting.new.items) declared.now) }
{
    if order.has(declared.name.as_bytes()) {
        return Ok(false);
    }
    if !is_ready(named, order, declared) {
        waiting.push(declared)?;
        return Ok(false);
    }
    let _new = order.add(declared)?;
    Ok(true)
}

/// Adds those of the types that extend only what is there to the order, one after the other, and
/// those that don't to none that wait. Answers whether it added one.
fn take_ready<'a>(
    named: &NamedTypes<'a>,
    order: &mut NamedTypes<'a>,
    waiting: &mut Vec<&'a TypeDeclaration>,
    types: &[&'a TypeDeclaration],
) -> Result<bool, AllocError>
    requires none { waiting.old.items ≡ [] }
    requires way { IsUnderWay named.now order.old (types_in types.now) }
    ensures way { OnOk result (IsUnderWay named.now order.new (types_in waiting.new.items)) }
    ensures stuck { IfOk result
        (λ taken. taken ≡ false → AreStuck named.now order.new (types_in waiting.new.items)) }
    ensures fewer { IfOk result
        (λ taken. taken ≡ true → length waiting.new.items < length types.now) }
{
    let mut taken = false;
    let mut rest = types;
    while let [declared, after @ ..] = rest {
        if take_one(named, order, waiting, declared)? {
            taken = true;
        }
        rest = after;
    }
    Ok(taken)
}

/// Adds the types to the order, each after all that it extends. Answers whether one extends itself,
/// perhaps by way of others: then it lacks some.
fn take_all<'a>(
    alloc: Global,
    named: &NamedTypes<'a>,
    order: &mut NamedTypes<'a>,
    types: &'a [TypeDeclaration],
) -> Result<bool, AllocError>
    requires none { order.old ≡ [] }
    requires names { named.now ≡ types.now }
    requires apart { has_duplicate types.now ≡ false }
    ensures circle { IfOk result (λ circle. circle ≡ has_circle types.now) }
    ensures order { IfOk result (λ circle. circle ≡ false → IsOrder types.now order.new) }
    ensures left { IfOk result (λ circle. circle ≡ true → AreLeft types.now order.new) }
{
    let mut rest = candidates(alloc, named, types)?;
    while !rest.is_empty() {
        let mut waiting = Vec::new(alloc);
        if !take_ready(named, order, &mut waiting, &rest)? {
            return Ok(!waiting.is_empty());
        }
        rest = waiting;
    }
    Ok(false)
}

/// The types, each after all that it extends; or where one extends itself, perhaps by way of
/// others, and by what it does.
pub(crate) fn ordered<'a>(
    alloc: Global,
    named: &NamedTypes<'a>,
    types: &'a [TypeDeclaration],
) -> Result<Result<Vec<&'a TypeDeclaration>, FaultPlace>, AllocError>
    requires names { named.now ≡ types.now }
    requires apart { has_duplicate types.now ≡ false }
    ensures circle { IfOk result (λ order. is_err order ≡ has_circle types.now) }
    ensures order { IfOk result
        (λ order. IfOk order (λ refs. IsOrder types.now (types_in refs.items))) }
    ensures place { IfOk result (λ order. IfErr order (IsCirclePlace types.now)) }
{
    let mut order = NamedTypes::new(alloc);
    if take_all(alloc, named, &mut order, types)? {
        return Ok(Err(circle_place(named, &order, types)));
    }
    let refs = order.references(alloc)?;
    Ok(Ok(refs))
}
