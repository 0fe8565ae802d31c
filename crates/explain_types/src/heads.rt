//! What is wrong with the names in the heads of types, and with the types of submodules.

use crate::bases::{interface_kind, is_interface, kind_name};
use crate::explanation::Explanation;
use crate::names::last_part;
use crate::ned_files::{Files, place_of};
use crate::origins::is_built_in;
use crate::places::{Sign, Spot};
use ned_trees::declarations::{Submodule, SubmoduleType, TypeDeclaration, TypeKind};
use ned_types::flat::type_name;

/// A name in the head of a type, or the type of a submodule.
#[derive(Clone, Copy)]
pub struct Named<'a> {
    it: &'a TypeDeclaration,
    submodule: Option<&'a Submodule>,
    /// How it stands there.
    sign: Sign,
    /// What the type does with it.
    does: &'static str,
    name: &'a [u8],
    /// The kind that it has to have.
    kind: TypeKind,
}

/// What a type extends.
pub fn base_of(it: &TypeDeclaration) -> Option<Named<'_>> {
    Some(Named {
        it,
        submodule: None,
        sign: Sign::Base,
        does: " extends ",
        name: it.base.as_ref()?.as_bytes(),
        kind: it.kind,
    })
}

/// The interface of that number of a type.
pub fn interface_of(it: &TypeDeclaration, number: usize) -> Option<Named<'_>> {
    Some(Named {
        it,
        submodule: None,
        sign: Sign::Head,
        does: if is_interface(it.kind) {
            " extends "
        } else {
            " is like "
        },
        name: it.interfaces.as_slice().get(number)?.as_bytes(),
        kind: interface_kind(it.kind),
    })
}

/// The type of the submodule of that number of a type.
pub fn submodule_of(it: &TypeDeclaration, number: usize) -> Option<Named<'_>> {
    let submodule = it.submodules.as_slice().get(number)?;
    Some(Named {
        it,
        submodule: Some(submodule),
        sign: Sign::Submodule,
        does: match submodule.submodule_type {
            SubmoduleType::Named(_) => " is of the type ",
            SubmoduleType::Like(_) => " is like ",
        },
        name: type_name(submodule),
        kind: match submodule.submodule_type {
            SubmoduleType::Named(_) => TypeKind::Simple,
            SubmoduleType::Like(_) => TypeKind::ModuleInterface,
        },
    })
}

/// Says what has that name.
fn tell_named(told: &mut Explanation, files: &Files<'_>, named: Named<'_>) {
    match named.submodule {
        Some(submodule) => {
            let name = submodule.name.as_bytes();
            files.begin(told, named.it, named.sign, name);
            told.say("the submodule ");
            told.say_name(name);
        }
        None => {
            files.begin(told, named.it, named.sign, named.name);
            told.say("the type ");
            told.say_name(named.it.name.as_bytes());
        }
    }
    told.say(named.does);
    told.say_name(named.name);
}

/// Says that no file declares the name.
pub fn tell_unknown(told: &mut Explanation, files: &Files<'_>, named: Named<'_>) {
    tell_named(told, files, named);
    told.say(", which no file declares");
    files.tell_near(told, named.name, named.kind);
}

/// What the name has to be.
fn wanted(named: Named<'_>) -> &'static str {
    match (named.submodule, named.kind) {
        (Some(_), TypeKind::Simple) => "simple module, a compound module or a network",
        (_, kind) => kind_name(kind),
    }
}

/// Says that the name is that of a type of another kind.
pub fn tell_other_kind(told: &mut Explanation, files: &Files<'_>, named: Named<'_>) {
    tell_named(told, files, named);
    told.say(", which is not a ");
    told.say(wanted(named));
}

/// Says that a type extends itself, perhaps by way of the one of that name.
pub fn tell_circle(told: &mut Explanation, files: &Files<'_>, named: Named<'_>) {
    let name = named.it.name.as_bytes();
    files.begin(told, named.it, Sign::Head, named.name);
    told.say("the type ");
    told.say_name(name);
    told.say(" extends ");
    if name == named.name {
        told.say("itself; it can extend another type, or none");
        return;
    }
    told.say_name(named.name);
    told.say(", and that in the end ");
    told.say_name(name);
    told.say(" again; let one of them extend another type, or none");
}

/// Says that the type of that number has the name of another before it, or of a built-in channel.
pub fn tell_taken(told: &mut Explanation, files: &Files<'_>, at: usize, name: &[u8]) {
    files.tell_place_at(told, at, Spot::of_type());
    told.say(": ");
    if is_built_in(name) {
        told.say_name(name);
        told.say(" is the name of a built-in channel; choose another");
        return;
    }
    told.say("the type ");
    told.say_name(name);
    told.say(" is declared a second time; it is declared at ");
    if let Some(first) = place_of(files.types, name) {
        files.tell_place_at(told, first, Spot::of_type());
    }
    told.say(" already: rename one, or leave one file out");
}

/// Says that a network is declared within a network.
pub fn tell_inner_network(told: &mut Explanation, files: &Files<'_>, it: &TypeDeclaration) {
    let name = it.name.as_bytes();
    files.begin(told, it, Sign::Type, name);
    told.say("the network ");
    told.say_name(last_part(name));
    told.say(" is declared within another: declare it in a file, outside of every type");
}
