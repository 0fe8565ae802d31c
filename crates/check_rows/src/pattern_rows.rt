//! Which names a pattern matches.

use crate::telling::Telling;
use ini_pattern::Pattern;
use std::alloc::Global;

/// What a pattern and its copy say of a name.
fn word(matches: bool, copy_matches: bool) -> &'static str {
    if matches != copy_matches {
        "the copy is another"
    } else if matches {
        "matches"
    } else {
        "differs"
    }
}

/// Tells whether a pattern matches a name, and its copy as well.
pub fn tell_matching(alloc: Global, told: &mut Telling, pattern: &Pattern, name: &str) {
    match pattern.copy(alloc) {
        Ok(copy) => told.text(word(pattern.matches(name), copy.matches(name))),
        Err(error) => told.fail(error),
    }
}

/// Tells whether a text is a pattern that matches a name.
pub fn tell_pattern(alloc: Global, told: &mut Telling, text: &str, name: &str) {
    match Pattern::parse(alloc, text) {
        Ok(pattern) => tell_matching(alloc, told, &pattern, name),
        Err(fault) => told.raw(&fault),
    }
}
