//! Gates, submodules and parameters that are declared twice, in a type and in those that it
//! extends.

use crate::bases::{has_named, root_first};
use crate::explanation::Explanation;
use crate::ned_files::Files;
use crate::origins::{Kind, Origin, origin_of};
use crate::places::{Sign, Spot};
use ned_trees::declarations::{GateLine, SectionLine, TypeDeclaration};

/// A member of a type: how it is called, and what its place shows.
#[derive(Clone, Copy)]
pub struct Member<'a> {
    what: &'static str,
    sign: Sign,
    name: &'a [u8],
}

/// The parameter of that name.
pub fn parameter(name: &[u8]) -> Member<'_> {
    Member {
        what: "parameter ",
        sign: Sign::Parameter,
        name,
    }
}

/// The gate that the line of that number declares, or the submodule of that number.
fn member_at(it: &TypeDeclaration, kind: Kind, at: usize) -> Option<Member<'_>> {
    if matches!(kind, Kind::Submodule) {
        let submodule = it.submodules.as_slice().get(at)?;
        return Some(Member {
            what: "submodule ",
            sign: Sign::Submodule,
            name: submodule.name.as_bytes(),
        });
    }
    match it.gates.as_slice().get(at)? {
        GateLine::Declaration(gate) => Some(Member {
            what: "gate ",
            sign: Sign::Gate,
            name: gate.name.as_bytes(),
        }),
        GateLine::Refinement(_) => None,
    }
}

/// How many of the first so many lines of gates declare the gate of that name.
fn gates_named(lines: &[GateLine], name: &[u8], first: usize) -> usize {
    let mut count = 0usize;
    for (at, line) in lines.iter().enumerate() {
        if let GateLine::Declaration(gate) = line {
            if at < first && gate.name.is(name) {
                count = count.saturating_add(1);
            }
        }
    }
    count
}

/// How many of the first so many members of that kind have that name.
fn count(it: &TypeDeclaration, member: Member<'_>, first: usize) -> usize {
    if matches!(member.sign, Sign::Gate) {
        return gates_named(it.gates.as_slice(), member.name, first);
    }
    let mut count = 0usize;
    for (at, submodule) in it.submodules.as_slice().iter().enumerate() {
        if at < first && submodule.name.is(member.name) {
            count = count.saturating_add(1);
        }
    }
    count
}

/// The last of the types that declares the gate or the submodule.
fn declaring<'a>(types: &[&'a TypeDeclaration], member: Member<'_>) -> Option<&'a TypeDeclaration> {
    for it in types.iter().rev() {
        if count(*it, member, usize::MAX) > 0 {
            return Some(*it);
        }
    }
    None
}

/// Says where a type has the member for the first time, or after so many others of its name, and
/// which member of which type that is.
fn begin(
    told: &mut Explanation,
    files: &Files<'_>,
    it: &TypeDeclaration,
    spot: Spot<'_>,
    member: Member<'_>,
) {
    files.tell_place(told, it, spot);
    told.say(": the ");
    told.say(member.what);
    told.say_name(member.name);
    told.say(" of ");
    told.say_name(it.name.as_bytes());
    told.say(" is declared ");
}

/// Says that a type declares the member, and where.
fn tell_declaring(
    told: &mut Explanation,
    files: &Files<'_>,
    it: &TypeDeclaration,
    member: Member<'_>,
) {
    told.say("in ");
    told.say_name(it.name.as_bytes());
    told.say(", at ");
    files.tell_place(told, it, Spot::first(member.sign, member.name));
}

/// Says that two of the types that the last of these extends declare the member.
pub fn tell_shared(
    told: &mut Explanation,
    files: &Files<'_>,
    order: &[&TypeDeclaration],
    first: &TypeDeclaration,
    other: &TypeDeclaration,
    member: Member<'_>,
) {
    let Some(it) = order.last() else {
        return;
    };
    let spot = Spot::first(Sign::Head, first.name.as_bytes());
    begin(told, files, *it, spot, member);
    tell_declaring(told, files, first, member);
    told.say(", and ");
    tell_declaring(told, files, other, member);
    told.say("; it can't extend both");
}

/// Says that a type declares the member a second time, after so many of its name, and that one the
/// first time.
fn tell_second(
    told: &mut Explanation,
    files: &Files<'_>,
    it: &TypeDeclaration,
    first: &TypeDeclaration,
    member: Member<'_>,
    behind: usize,
) {
    let spot = Spot::first(member.sign, member.name);
    begin(told, files, it, Spot { behind, ..spot }, member);
    told.say("already, at ");
    files.tell_place(told, first, spot);
    if !first.name.is(it.name.as_bytes()) {
        told.say(" in ");
        told.say_name(first.name.as_bytes());
        told.say(", which it extends");
    }
    told.say("; choose another name");
}

/// Says that a type has a second submodule of one name, after so many of it.
fn tell_second_submodule(
    told: &mut Explanation,
    files: &Files<'_>,
    it: &TypeDeclaration,
    name: &[u8],
    behind: usize,
) {
    let spot = Spot::first(Sign::Submodule, name);
    files.tell_place(told, it, Spot { behind, ..spot });
    told.say(": a second submodule ");
    told.say_name(name);
    told.say("; choose another name");
}

/// Says that a member is declared which a type before declares, that one extends or not.
fn tell_extended(
    told: &mut Explanation,
    files: &Files<'_>,
    order: &[&TypeDeclaration],
    origin: Origin<'_, '_>,
    member: Member<'_>,
) {
    let Some(first) = declaring(origin.before, member) else {
        return;
    };
    match root_first(told.alloc(), files.types, origin.it) {
        Ok(extended) if has_named(extended.as_slice(), first.name.as_bytes()) => {
            tell_second(told, files, origin.it, first, member, 0)
        }
        Ok(_) => tell_shared(told, files, order, first, origin.it, member),
        Err(error) => told.refuse(error),
    }
}

/// Says that the gate or the submodule of that number is declared a second time, of the flat type
/// of the last of these types.
pub fn tell_twice(
    told: &mut Explanation,
    files: &Files<'_>,
    order: &[&TypeDeclaration],
    kind: Kind,
    number: usize,
) {
    let Some(origin) = origin_of(order, kind, number) else {
        return;
    };
    let Some(member) = member_at(origin.it, kind, origin.at) else {
        return;
    };
    let behind = count(origin.it, member, origin.at);
    if behind == 0 {
        tell_extended(told, files, order, origin, member);
    } else if matches!(kind, Kind::Submodule) {
        tell_second_submodule(told, files, origin.it, member.name, behind);
    } else {
        tell_second(told, files, origin.it, origin.it, member, behind);
    }
}
