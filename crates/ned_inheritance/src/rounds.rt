//! Where a type extends itself, perhaps by way of others: from one of those that no order has, each
//! of which extends another of them, as many steps as there are types lead into a circle.

ghost use Rattle.std.specs.Prelude.{◌≡◌, not, length};
ghost use Rattle.std.specs.Option.{option_copied};
ghost use Rattle.ned_inheritance.specs.Circles.{extended_name, IsCirclePlace};
ghost use Rattle.ned_inheritance.specs.Order.{first_left, is_name_ready, left_in, member_left};
ghost use Rattle.ned_inheritance.specs.Order.{next_left, next_of, number_by, steps_left, AreLeft};
ghost use Rattle.ned_inheritance.specs.Places.{first_from};

use crate::named::NamedTypes;
use crate::order::{is_base_ready, is_interface_kind, is_name_ready};
use crate::places::{FaultPlace, Member};
use ned_trees::declarations::TypeDeclaration;
use sim_values::text::Text;

/// The number of the first of these names that one of the types has that the order lacks.
fn first_unready(named: &NamedTypes<'_>, order: &NamedTypes<'_>, names: &[Text]) -> Option<usize>
    ensures { result ≡ first_from (λ n. not (is_name_ready named.now order.now n)) 0 names.now }
{
    for (at, name) in names.iter().enumerate() {
        if !is_name_ready(named, order, name.as_bytes()) {
            return Some(at);
        }
    }
    None
}

/// What of a type names the first that it extends and that the order lacks.
fn left_in(
    named: &NamedTypes<'_>,
    order: &NamedTypes<'_>,
    declared: &TypeDeclaration,
) -> Option<Member>
    ensures { result ≡ left_in named.now order.now declared.now }
{
    if !is_base_ready(named, order, &declared.base) {
        return Some(Member::Base);
    }
    if !is_interface_kind(declared.kind) {
        return None;
    }
    match first_unready(named, order, declared.interfaces.as_slice()) {
        Some(at) => Some(Member::Interface(at)),
        None => None,
    }
}

/// The name of what a type extends by that member of it.
fn extended_name<'t>(declared: &'t TypeDeclaration, member: Member) -> Option<&'t Text>
    ensures { option_copied result ≡ extended_name declared.now member }
{
    match member {
        Member::Base => declared.base.as_ref(),
        Member::Interface(at) => {
            if is_interface_kind(declared.kind) {
                declared.interfaces.as_slice().get(at)
            } else {
                None
            }
        }
        _ => None,
    }
}

/// The number of the type that one extends by that member of it.
fn number_by(named: &NamedTypes<'_>, declared: &TypeDeclaration, member: Member) -> Option<usize>
    ensures { result ≡ number_by named.now declared.now member }
{
    match extended_name(declared, member) {
        Some(name) => named.number_of(name.as_bytes()),
        None => None,
    }
}

/// The number of the first type that one extends and that the order lacks.
fn next_of(
    named: &NamedTypes<'_>,
    order: &NamedTypes<'_>,
    declared: &TypeDeclaration,
) -> Option<usize>
    ensures { result ≡ next_of named.now order.now declared.now }
{
    match left_in(named, order, declared) {
        Some(member) => number_by(named, declared, member),
        None => None,
    }
}

/// The same of the type of that number; where there is none, that number.
fn next_left(
    named: &NamedTypes<'_>,
    order: &NamedTypes<'_>,
    types: &[TypeDeclaration],
    number: usize,
) -> usize
    ensures { result ≡ next_left named.now order.now types.now number }
{
    let next = match types.get(number) {
        Some(declared) => next_of(named, order, declared),
        None => None,
    };
    next.unwrap_or(number)
}

/// The number of the first type that the order lacks.
fn first_left(order: &NamedTypes<'_>, types: &[TypeDeclaration]) -> usize
    ensures { result ≡ first_left order.now types.now }
{
    for (number, declared) in types.iter().enumerate() {
        if !order.has(declared.name.as_bytes()) {
            return number;
        }
    }
    0
}

/// The number of the type that is reached from the first that the order lacks in as many steps as
/// there are types, each to one that a type extends.
fn last_left(named: &NamedTypes<'_>, order: &NamedTypes<'_>, types: &[TypeDeclaration]) -> usize
    ensures { result ≡ steps_left named.now order.now types.now (length types.now)
        (first_left order.now types.now) }
{
    let mut number = first_left(order, types);
    for step in 0..types.len() {
        number = next_left(named, order, types, number);
    }
    number
}

/// What of the type of that number names the first that it extends and that the order lacks.
fn member_left(
    named: &NamedTypes<'_>,
    order: &NamedTypes<'_>,
    types: &[TypeDeclaration],
    number: usize,
) -> Member
    ensures { result ≡ member_left named.now order.now types.now number }
{
    let member = match types.get(number) {
        Some(declared) => left_in(named, order, declared),
        None => None,
    };
    member.unwrap_or(Member::Whole)
}

/// Where one of the types extends itself, perhaps by way of others: a type in a circle, and by what
/// it goes round. Some of the types are left out of the order, each of which extends another.
pub(crate) fn circle_place(
    named: &NamedTypes<'_>,
    order: &NamedTypes<'_>,
    types: &[TypeDeclaration],
) -> FaultPlace
    requires names { named.now ≡ types.now }
    requires left { AreLeft types.now order.now }
    ensures { IsCirclePlace types.now result }
{
    let number = last_left(named, order, types);
    let member = member_left(named, order, types, number);
    FaultPlace { number, member }
}
