//! Where a parameter is given its value.

use crate::bases::with_bases;
use crate::explanation::Explanation;
use crate::ned_files::{Files, type_named};
use crate::places::{Sign, Spot};
use ned_trees::declarations::{SectionLine, TypeDeclaration};
use ned_types::flat::submodule_named;
use ned_types::given::{name_in, value_in};

/// After how many lines that speak of the parameter the last one stands that gives it a value,
/// where one does.
fn behind_value(lines: &[SectionLine], name: &[u8]) -> Option<usize> {
    let mut behind = 0usize;
    let mut found = None;
    for line in lines {
        if name_in(line) == name {
            if value_in(line).is_some() {
                found = Some(behind);
            }
            behind = behind.saturating_add(1);
        }
    }
    found
}

/// A parameter of a module.
#[derive(Clone, Copy)]
pub struct GivenParameter<'a> {
    /// The submodule in whose body it is given its value; none where its type gives it.
    pub submodule: Option<&'a [u8]>,
    pub name: &'a [u8],
}

/// The lines of a type, or of its submodule of that name.
fn lines_of<'a>(it: &'a TypeDeclaration, submodule: Option<&[u8]>) -> Option<&'a [SectionLine]> {
    let Some(name) = submodule else {
        return Some(it.lines.as_slice());
    };
    let found = submodule_named(name, it.submodules.as_slice())?;
    Some(found.body.lines.as_slice())
}

/// The place in a type where it gives the parameter its value.
fn spot_in<'a>(it: &TypeDeclaration, of: GivenParameter<'a>) -> Option<Spot<'a>> {
    let lines = lines_of(it, of.submodule)?;
    Some(Spot {
        body: of.submodule,
        sign: Sign::Name,
        name: of.name,
        behind: behind_value(lines, of.name)?,
    })
}

/// Says where the first of the types that gives the parameter a value does: `path:line`. Answers
/// whether one does.
fn tell_first(
    told: &mut Explanation,
    files: &Files<'_>,
    along: &[&TypeDeclaration],
    of: GivenParameter<'_>,
) -> bool {
    for it in along {
        if let Some(spot) = spot_in(*it, of) {
            files.tell_place(told, *it, spot);
            return true;
        }
    }
    false
}

/// Says where the type of that name, or what it extends, gives a parameter its value: `path:line`.
/// Answers whether one of them does.
pub fn tell_line_of_value(
    told: &mut Explanation,
    files: &Files<'_>,
    name: &[u8],
    of: GivenParameter<'_>,
) -> bool {
    let Some(it) = type_named(files.types, name) else {
        return false;
    };
    match with_bases(told.alloc(), files.types, it) {
        Ok(along) => tell_first(told, files, along.as_slice(), of),
        Err(error) => {
            told.refuse(error);
            false
        }
    }
}

/// Says where the type of that name, or what it extends, gives a parameter its value: `path:line:
/// `.
pub fn tell_place_of_value(
    told: &mut Explanation,
    files: &Files<'_>,
    name: &[u8],
    of: GivenParameter<'_>,
) {
    if tell_line_of_value(told, files, name, of) {
        told.say(": ");
    }
}
