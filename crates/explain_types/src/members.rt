//! What is wrong with a line of a parameter section, or of the body of a submodule.

use crate::bases::{has_named, root_first};
use crate::explanation::Explanation;
use crate::ned_files::{Files, type_named};
use crate::origins::{Kind, Origin, declaring_channel, origin_of};
use crate::places::{Sign, Spot};
use crate::twice::{parameter, tell_shared};
use ned_trees::declarations::{GateLine, SectionLine, Submodule, TypeDeclaration};
use ned_types::flat::{declaration_named, type_name};
use ned_types::given::{fixes, name_in};

/// What is wrong with a line.
#[derive(Clone, Copy)]
pub enum Clash<'a> {
    /// The parameter is declared a second time.
    Again,
    /// The type of that name, which is extended, declares it already.
    Declared(&'a [u8]),
    /// A built-in channel declares it.
    BuiltIn(&'a [u8]),
    /// It is declared nowhere.
    Undeclared,
    /// It has a fixed value already.
    Fixed,
    /// It has one in the type of that name.
    FixedIn(&'a [u8]),
}

pub fn is_declaration(line: &SectionLine) -> bool {
    matches!(line, SectionLine::Declaration(_))
}

/// How many of the lines speak of the parameter, or only how many declare it.
fn lines_of(lines: &[SectionLine], name: &[u8], declaring: bool) -> usize {
    let mut count = 0usize;
    for line in lines {
        if name_in(line) == name && (is_declaration(line) || !declaring) {
            count = count.saturating_add(1);
        }
    }
    count
}

/// Whether one of the lines gives the parameter a fixed value.
fn is_fixed(lines: &[SectionLine], name: &[u8]) -> bool {
    for line in lines {
        if name_in(line) == name && fixes(line) {
            return true;
        }
    }
    false
}

/// The last of the types that declares the parameter.
fn declared_in<'a>(types: &[&'a TypeDeclaration], name: &[u8]) -> Option<&'a TypeDeclaration> {
    for it in types.iter().rev() {
        if declaration_named(name, it.lines.as_slice()).is_some() {
            return Some(*it);
        }
    }
    None
}

/// That the parameter has a fixed value in the last of the types that gives it one, or else before
/// in the section itself.
pub fn fixed_in<'a>(types: &[&'a TypeDeclaration], name: &[u8]) -> Clash<'a> {
    for it in types.iter().rev() {
        if is_fixed(it.lines.as_slice(), name) {
            return Clash::FixedIn(it.name.as_bytes());
        }
    }
    Clash::Fixed
}

/// The place of the clash of a line after these.
fn spot_of<'a>(clash: Clash<'_>, before: &[SectionLine], name: &'a [u8]) -> Spot<'a> {
    let declaring = matches!(clash, Clash::Again | Clash::Declared(_) | Clash::BuiltIn(_));
    Spot {
        body: None,
        sign: if declaring {
            Sign::Parameter
        } else {
            Sign::Name
        },
        name,
        behind: lines_of(before, name, declaring),
    }
}

/// Says that the parameter has a fixed value, in the type of that name where one is named.
pub fn tell_fixed(told: &mut Explanation, of: Option<&[u8]>) {
    told.say("has a fixed value ");
    if let Some(name) = of {
        told.say("in ");
        told.say_name(name);
        told.say(" ");
    }
    told.say("already, and can't be given another");
    if of.is_some() {
        told.say("; with default(..) there it could");
    }
}

/// Says what is wrong with a parameter of that type.
fn tell_words(told: &mut Explanation, clash: Clash<'_>, it: &TypeDeclaration) {
    match clash {
        Clash::Again => told.say("is declared a second time"),
        Clash::Declared(base) => {
            told.say("is declared in ");
            told.say_name(base);
            told.say(" already, which ");
            told.say_name(it.name.as_bytes());
            told.say(" extends; leave out the word before it, or choose another name");
        }
        Clash::BuiltIn(channel) => {
            told.say("is declared by ");
            told.say_name(channel);
            told.say(" already; leave out the word before it, or choose another name");
        }
        Clash::Undeclared if it.base.is_some() => {
            told.say("is given a value, and neither the type nor what it extends declares it")
        }
        Clash::Undeclared => told.say("is given a value, and the type doesn't declare it"),
        Clash::Fixed => tell_fixed(told, None),
        Clash::FixedIn(base) => tell_fixed(told, Some(base)),
    }
}

/// The lines of a section before the one of that number, and that one.
pub fn parted(lines: &[SectionLine], at: usize) -> Option<(&[SectionLine], &SectionLine)> {
    Some((lines.get(..at)?, lines.get(at)?))
}

/// Says what is wrong with the line of that number of the type that declares it.
fn tell_line(told: &mut Explanation, files: &Files<'_>, origin: Origin<'_, '_>, clash: Clash<'_>) {
    let Some((before, line)) = parted(origin.it.lines.as_slice(), origin.at) else {
        return;
    };
    let name = name_in(line);
    files.tell_place(told, origin.it, spot_of(clash, before, name));
    told.say(": the parameter ");
    told.say_name(name);
    told.say(" of ");
    told.say_name(origin.it.name.as_bytes());
    told.say(" ");
    tell_words(told, clash, origin.it);
}

/// Says that a line declares a parameter which a type before declares, that one extends or not.
fn tell_declared(
    told: &mut Explanation,
    files: &Files<'_>,
    order: &[&TypeDeclaration],
    origin: Origin<'_, '_>,
    name: &[u8],
) {
    let Some(first) = declared_in(origin.before, name) else {
        return;
    };
    match root_first(told.alloc(), files.types, origin.it) {
        Ok(extended) if has_named(extended.as_slice(), first.name.as_bytes()) => {
            tell_line(told, files, origin, Clash::Declared(first.name.as_bytes()))
        }
        Ok(_) => tell_shared(told, files, order, first, origin.it, parameter(name)),
        Err(error) => told.refuse(error),
    }
}

/// Says that the line of that number declares a parameter a second time, of the flat type of the
/// last of these types.
pub fn tell_declared_again(
    told: &mut Explanation,
    files: &Files<'_>,
    order: &[&TypeDeclaration],
    number: usize,
) {
    let Some(origin) = origin_of(order, Kind::Line, number) else {
        return;
    };
    let Some((before, line)) = parted(origin.it.lines.as_slice(), origin.at) else {
        return;
    };
    let name = name_in(line);
    if let Some(channel) = declaring_channel(order, name) {
        tell_line(told, files, origin, Clash::BuiltIn(channel));
    } else if lines_of(before, name, true) > 0 {
        tell_line(told, files, origin, Clash::Again);
    } else {
        tell_declared(told, files, order, origin, name);
    }
}

/// Says that the line of that number gives a value to a parameter that isn't declared, of the flat
/// type of the last of these types.
pub fn tell_undeclared(
    told: &mut Explanation,
    files: &Files<'_>,
    order: &[&TypeDeclaration],
    number: usize,
) {
    if let Some(origin) = origin_of(order, Kind::Line, number) {
        tell_line(told, files, origin, Clash::Undeclared);
    }
}

/// Says that the line of that number gives a value to a parameter with a fixed one, of the flat
/// type of the last of these types.
pub fn tell_given_again(
    told: &mut Explanation,
    files: &Files<'_>,
    order: &[&TypeDeclaration],
    number: usize,
) {
    let Some(origin) = origin_of(order, Kind::Line, number) else {
        return;
    };
    let Some((before, line)) = parted(origin.it.lines.as_slice(), origin.at) else {
        return;
    };
    let name = name_in(line);
    let clash = if is_fixed(before, name) {
        Clash::Fixed
    } else {
        fixed_in(origin.before, name)
    };
    tell_line(told, files, origin, clash);
}

/// Says the first parameter of the types whose name is near, as a question.
pub fn tell_near(told: &mut Explanation, order: &[&TypeDeclaration], name: &[u8]) {
    for it in order.iter().rev() {
        for line in it.lines.as_slice() {
            if is_declaration(line) && told.say_if_near(name, name_in(line)) {
                return;
            }
        }
    }
}

/// Says what is wrong with a parameter in the body of a submodule, whose type is the last of these.
fn tell_body_words(
    told: &mut Explanation,
    clash: Clash<'_>,
    order: &[&TypeDeclaration],
    of: &[u8],
    name: &[u8],
) {
    match clash {
        Clash::Declared(base) | Clash::BuiltIn(base) => {
            told.say("can't be declared in its body, and ");
            told.say_name(base);
            told.say(" declares it: leave out the word before it");
        }
        Clash::Again => {
            told.say("can't be declared in its body: declare it in the type ");
            told.say_name(of);
        }
        Clash::Undeclared => {
            told.say("is given a value, and its type ");
            told.say_name(of);
            told.say(" doesn't declare it");
            tell_near(told, order, name);
        }
        Clash::Fixed => tell_fixed(told, None),
        Clash::FixedIn(base) => tell_fixed(told, Some(base)),
    }
}

/// What is wrong with a line of the body of a submodule, over the lines of its type, the last of
/// these.
pub fn clash_over<'a>(order: &[&'a TypeDeclaration], line: &SectionLine) -> Clash<'a> {
    let name = name_in(line);
    match declared_in(order, name) {
        Some(found) if is_declaration(line) => Clash::Declared(found.name.as_bytes()),
        None if is_declaration(line) => Clash::Again,
        None => Clash::Undeclared,
        Some(_) => fixed_in(order, name),
    }
}

/// Says what is wrong with the line of that number in the body of a submodule, whose type is the
/// last of these.
fn tell_body_line(
    told: &mut Explanation,
    files: &Files<'_>,
    order: &[&TypeDeclaration],
    it: &TypeDeclaration,
    submodule: &Submodule,
    at: usize,
    again: bool,
) {
    let Some((before, line)) = parted(submodule.body.lines.as_slice(), at) else {
        return;
    };
    let clash = if again {
        Clash::Fixed
    } else {
        clash_over(order, line)
    };
    let (name, own) = (name_in(line), submodule.name.as_bytes());
    let body = Some(own);
    let spot = spot_of(clash, before, name);
    files.tell_place(told, it, Spot { body, ..spot });
    told.say(": the parameter ");
    told.say_name(name);
    told.say(" of the submodule ");
    told.say_name(own);
    told.say(" ");
    tell_body_words(told, clash, order, type_name(submodule), name);
}

/// Says what is wrong with the line of the second number in the body of the submodule of the first,
/// of the flat type of the last of these types: that the body gives a parameter with a fixed value
/// another, or that it can't stand over the lines of the submodule's type.
pub fn tell_body(
    told: &mut Explanation,
    files: &Files<'_>,
    order: &[&TypeDeclaration],
    number: usize,
    at: usize,
    again: bool,
) {
    let Some(origin) = origin_of(order, Kind::Submodule, number) else {
        return;
    };
    let Some(submodule) = origin.it.submodules.as_slice().get(origin.at) else {
        return;
    };
    let Some(of) = type_named(files.types, type_name(submodule)) else {
        return;
    };
    match root_first(told.alloc(), files.types, of) {
        Ok(order) => tell_body_line(
            told,
            files,
            order.as_slice(),
            origin.it,
            submodule,
            at,
            again,
        ),
        Err(error) => told.refuse(error),
    }
}

/// Says that the line of the second number declares a gate in the body of the submodule of the
/// first, of the flat type of the last of these types.
pub fn tell_body_gate(
    told: &mut Explanation,
    files: &Files<'_>,
    order: &[&TypeDeclaration],
    number: usize,
    at: usize,
) {
    let Some(origin) = origin_of(order, Kind::Submodule, number) else {
        return;
    };
    let Some(submodule) = origin.it.submodules.as_slice().get(origin.at) else {
        return;
    };
    let Some(GateLine::Declaration(gate)) = submodule.body.gates.as_slice().get(at) else {
        return;
    };
    let (name, own) = (gate.name.as_bytes(), submodule.name.as_bytes());
    let spot = Spot::first(Sign::Gate, name);
    let body = Some(own);
    files.tell_place(told, origin.it, Spot { body, ..spot });
    told.say(": the gate ");
    told.say_name(name);
    told.say(" of the submodule ");
    told.say_name(own);
    told.say(
        " can't be declared in its body: its type declares gates, and the body gives sizes to vectors of them alone",
    );
}
