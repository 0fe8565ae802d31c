//! The NED files of a run that were read before, and what they declare.

use crate::explanation::Explanation;
use crate::names::is_inner;
use crate::places::{Sign, Spot, line_in};
use crate::sources::Sources;
use ned_trees::declarations::{TypeDeclaration, TypeKind};

/// The files of a run, and what they declare.
#[derive(Clone, Copy)]
pub struct Files<'a> {
    pub sources: &'a Sources<'a>,
    /// The types of all files, in order, each before those within it, with names resolved.
    pub types: &'a [TypeDeclaration],
}

/// The type of that name.
pub fn type_named<'a>(types: &'a [TypeDeclaration], name: &[u8]) -> Option<&'a TypeDeclaration> {
    for it in types {
        if it.name.is(name) {
            return Some(it);
        }
    }
    None
}

/// The place of the type of that name.
pub fn place_of(types: &[TypeDeclaration], name: &[u8]) -> Option<usize> {
    for (at, it) in types.iter().enumerate() {
        if it.name.is(name) {
            return Some(at);
        }
    }
    None
}

/// Whether a text may write the name of that type anywhere: it is of that kind, and within no
/// other.
pub fn is_anywhere(it: &TypeDeclaration, kind: TypeKind) -> bool {
    it.kind == kind && !is_inner(it.name.as_bytes())
}

impl Files<'_> {
    /// Says the place of a spot in the text of the type of that number among all: `path:line`.
    pub fn tell_place_at(&self, told: &mut Explanation, number: usize, spot: Spot<'_>) {
        let mut left = number;
        for (file, text) in self.sources.texts.as_slice().iter().enumerate() {
            match line_in(told.alloc(), text.as_bytes(), left, spot) {
                Ok(Ok(line)) => {
                    told.say_place(self.sources.path(file), line);
                    return;
                }
                Ok(Err(count)) => left = left.saturating_sub(count),
                Err(error) => {
                    told.refuse(error);
                    return;
                }
            }
        }
    }

    /// Says the place of a spot in the text of a type: `path:line`.
    pub fn tell_place(&self, told: &mut Explanation, it: &TypeDeclaration, spot: Spot<'_>) {
        if let Some(number) = place_of(self.types, it.name.as_bytes()) {
            self.tell_place_at(told, number, spot);
        }
    }

    /// Says where a type first has a name, and begins what is wrong with it: `path:line: `.
    pub fn begin(&self, told: &mut Explanation, it: &TypeDeclaration, sign: Sign, name: &[u8]) {
        self.tell_place(told, it, Spot::first(sign, name));
        told.say(": ");
    }

    /// Says the first name of a type of that kind that is near, as a question.
    pub fn tell_near(&self, told: &mut Explanation, name: &[u8], kind: TypeKind) {
        for it in self.types {
            if is_anywhere(it, kind) && told.say_if_near(name, it.name.as_bytes()) {
                return;
            }
        }
    }
}
