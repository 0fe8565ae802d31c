//! Why the types of the files don't go together.

use crate::bases::root_first;
use crate::connections::{tell_block, tell_other_channel, tell_unknown_channel};
use crate::explanation::Explanation;
use crate::heads::{
    base_of, interface_of, submodule_of, tell_circle, tell_inner_network, tell_other_kind,
    tell_taken, tell_unknown,
};
use crate::interfaces::tell_lacked;
use crate::members::{
    tell_body, tell_body_gate, tell_declared_again, tell_given_again, tell_undeclared,
};
use crate::ned_files::Files;
use crate::origins::{Kind, origin_of};
use crate::twice::tell_twice;
use ned_inheritance::places::{FaultPlace, Member};
use ned_inheritance::table::TypeFault;
use ned_trees::declarations::TypeDeclaration;

/// Says what is wrong with a name in the head of a type, or with the type of one of its submodules,
/// where they have a fault of names.
fn tell_name(
    told: &mut Explanation,
    files: &Files<'_>,
    fault: TypeFault,
    it: &TypeDeclaration,
    member: Member,
) {
    let named = match member {
        Member::Base => base_of(it),
        Member::Interface(at) => interface_of(it, at),
        Member::Submodule(at) => submodule_of(it, at),
        Member::Channel(item, line) => {
            return tell_unknown_channel(told, files, it, item, line);
        }
        _ => return tell_inner_network(told, files, it),
    };
    let Some(named) = named else {
        return;
    };
    match fault {
        TypeFault::UnknownType => tell_unknown(told, files, named),
        TypeFault::InheritanceCircle => tell_circle(told, files, named),
        _ => tell_other_kind(told, files, named),
    }
}

/// Says that a submodule of the flat type of the last of these types is of another kind.
fn tell_other_submodule(
    told: &mut Explanation,
    files: &Files<'_>,
    order: &[&TypeDeclaration],
    number: usize,
) {
    if let Some(origin) = origin_of(order, Kind::Submodule, number) {
        let member = Member::Submodule(origin.at);
        tell_name(told, files, TypeFault::KindClash, origin.it, member);
    }
}

/// Says what is wrong with a member of the flat type of the last of these types.
fn tell_member(
    told: &mut Explanation,
    files: &Files<'_>,
    order: &[&TypeDeclaration],
    member: Member,
) {
    match member {
        Member::DeclaredAgain(at) => tell_declared_again(told, files, order, at),
        Member::Undeclared(at) => tell_undeclared(told, files, order, at),
        Member::GivenAgain(at) => tell_given_again(told, files, order, at),
        Member::GateAgain(at) => tell_twice(told, files, order, Kind::Gate, at),
        Member::SubmoduleAgain(at) => tell_twice(told, files, order, Kind::Submodule, at),
        Member::Unfit(number, at) => tell_body(told, files, order, number, at, false),
        Member::UnfitAgain(number, at) => tell_body(told, files, order, number, at, true),
        Member::BodyGate(number, at) => tell_body_gate(told, files, order, number, at),
        Member::OtherChannel(item, line) => tell_other_channel(told, files, order, item, line),
        Member::UnfitBlock(item, line, at) => {
            tell_block(told, files, order, item, line, at, false)
        }
        Member::UnfitBlockAgain(item, line, at) => {
            tell_block(told, files, order, item, line, at, true)
        }
        Member::LacksParameter(number, at) => {
            tell_lacked(told, files, order, number, Kind::Line, at)
        }
        Member::LacksGate(number, at) => tell_lacked(told, files, order, number, Kind::Gate, at),
        Member::Submodule(at) => tell_other_submodule(told, files, order, at),
        Member::Whole | Member::Base | Member::Interface(_) | Member::Channel(_, _) => {}
    }
}

/// Says what is wrong with a member of the flat type of that one.
fn tell_flat(told: &mut Explanation, files: &Files<'_>, it: &TypeDeclaration, member: Member) {
    match root_first(told.alloc(), files.types, it) {
        Ok(order) => tell_member(told, files, order.as_slice(), member),
        Err(error) => told.refuse(error),
    }
}

/// Says why types don't go together, which have that fault at that place.
pub fn tell_types(told: &mut Explanation, files: &Files<'_>, fault: TypeFault, place: FaultPlace) {
    let Some(it) = files.types.get(place.number) else {
        return;
    };
    match (fault, place.member) {
        (TypeFault::DuplicateType, _) => {
            tell_taken(told, files, place.number, it.name.as_bytes())
        }
        (TypeFault::UnknownType | TypeFault::InheritanceCircle, member) => {
            tell_name(told, files, fault, it, member)
        }
        (_, Member::Whole | Member::Base | Member::Interface(_)) => {
            tell_name(told, files, fault, it, place.member)
        }
        (_, member) => tell_flat(told, files, it, member),
    }
}
