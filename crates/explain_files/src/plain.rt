//! Ini texts each of whose entries has an effect, as a few looks tell. Then no line is to be said,
//! and the paths of the network need not be found.

use crate::configurations::is_among;
use crate::sections::{Numbered, Sections, sections_of};
use crate::warnings::{OPTIONS, type_within};
use indexmap::IndexSet;
use ini_trees::entry::{EntryMeaning, ObjectEntry, ObjectOption};
use ini_trees::lines::{IniEntry, IniLine};
use ned_trees::declarations::{SectionLine, Submodule, TypeDeclaration};
use ned_trees::expressions::Expression;
use ned_types::given::{fixes, name_in};
use sim_values::NoMemory;
use sim_values::text::Text;
use sim_values::value::Value;
use std::alloc::Global;

/// How many entries are looked at, at most.
const MOST_ENTRIES: usize = 64;

/// How many submodules of a type are looked at, at most.
const MOST_WITHIN: usize = 8;

/// Within how many submodules is looked, at most.
const MOST_SUBMODULES: usize = 64;

/// A submodule that is there for certain, and its type.
#[derive(Clone, Copy)]
struct Certain<'a> {
    submodule: &'a Submodule,
    of: &'a TypeDeclaration,
}

/// Whether it is a name of letters, digits and underscores.
fn is_plain_name(name: &[u8]) -> bool {
    for byte in name {
        if !byte.is_ascii_alphanumeric() && *byte != b'_' {
            return false;
        }
    }
    !name.is_empty()
}

/// What stands after `**.` in a key.
fn after_anywhere(key: &[u8]) -> Option<&[u8]> {
    match key {
        [b'*', b'*', b'.', name @ ..] => Some(name),
        _ => None,
    }
}

/// Whether one of the lines gives the parameter of that name a fixed value.
fn fixes_named(lines: &[SectionLine], name: &[u8]) -> bool {
    for line in lines {
        if fixes(line) && name_in(line) == name {
            return true;
        }
    }
    false
}

/// Whether one of the lines declares a parameter of that name.
fn declares(lines: &[SectionLine], name: &[u8]) -> bool {
    for line in lines {
        if let SectionLine::Declaration(it) = line {
            if it.name.is(name) {
                return true;
            }
        }
    }
    false
}

/// Whether one of the lines declares a statistic.
fn has_statistic(lines: &[SectionLine]) -> bool {
    for line in lines {
        if matches!(line, SectionLine::Statistic(_)) {
            return true;
        }
    }
    false
}

/// Whether a submodule is no vector, or one of which the text says a size above 0.
fn has_some(submodule: &Submodule) -> bool {
    match &submodule.size {
        None => true,
        Some(Expression::Literal(Value::Whole(size))) => *size > 0,
        Some(_) => false,
    }
}

/// The type of a submodule of which there is one in each module around it, where the type extends
/// no other.
fn type_of_certain<'a>(
    types: &'a [TypeDeclaration],
    submodule: &Submodule,
) -> Option<&'a TypeDeclaration> {
    if submodule.condition.is_some() || !has_some(submodule) {
        return None;
    }
    let of = type_within(types, submodule)?;
    if of.base.is_some() {
        return None;
    }
    Some(of)
}

/// Adds the submodules that are there for certain in each module of a type.
fn push_certain<'a>(
    found: &mut Vec<Certain<'a>>,
    types: &'a [TypeDeclaration],
    around: &'a TypeDeclaration,
) -> Result<(), NoMemory> {
    for submodule in around.submodules.as_slice().iter().take(MOST_WITHIN) {
        if let Some(of) = type_of_certain(types, submodule) {
            found.push(Certain { submodule, of })?;
        }
    }
    Ok(())
}

/// The submodules that are there for certain in a network and in its modules, the outer ones first.
fn certain_in<'a>(
    alloc: Global,
    types: &'a [TypeDeclaration],
    network: &'a TypeDeclaration,
) -> Result<Vec<Certain<'a>>, NoMemory> {
    let mut found = Vec::new(alloc);
    push_certain(&mut found, types, network)?;
    for at in 0..MOST_SUBMODULES {
        let Some(next) = found.get(at) else {
            break;
        };
        let around = next.of;
        push_certain(&mut found, types, around)?;
    }
    Ok(found)
}

/// Whether a parameter of that name is given no fixed value.
fn is_open_in(it: Certain<'_>, name: &[u8]) -> bool {
    let lines = it.of.lines.as_slice();
    declares(lines, name)
        && !fixes_named(lines, name)
        && !fixes_named(it.submodule.body.lines.as_slice(), name)
}

/// Whether one of these submodules has a parameter of that name with no fixed value.
fn has_open(certain: &[Certain<'_>], name: &[u8]) -> bool {
    for it in certain {
        if is_open_in(*it, name) {
            return true;
        }
    }
    false
}

/// Whether one of these submodules has a statistic.
fn has_recorded(certain: &[Certain<'_>]) -> bool {
    for it in certain {
        if has_statistic(it.of.lines.as_slice()) {
            return true;
        }
    }
    false
}

/// Whether an entry is for all parameters of a name, of which there is one whose value it can give.
fn gives_anywhere(certain: &[Certain<'_>], key: &[u8]) -> bool {
    match after_anywhere(key) {
        Some(name) => is_plain_name(name) && has_open(certain, name),
        None => false,
    }
}

/// Whether an entry is an option for all statistics, of which there is one.
fn records_anywhere(certain: &[Certain<'_>], key: &[u8], object: &ObjectEntry) -> bool {
    if matches!(object.says, ObjectOption::Other) {
        return false;
    }
    after_anywhere(key) == Some(object.option.as_bytes()) && has_recorded(certain)
}

/// Whether a few looks tell that an entry has an effect, where no other of its section has its key.
fn is_plain(certain: &[Certain<'_>], entry: &IniEntry) -> bool {
    let key = entry.key.as_bytes();
    match &entry.meaning {
        EntryMeaning::Other => is_among(key, OPTIONS.as_slice()),
        EntryMeaning::Parameter(_) => gives_anywhere(certain, key),
        EntryMeaning::Object(object) => records_anywhere(certain, key, object),
        EntryMeaning::Type(_) => false,
        _ => true,
    }
}

/// Whether it is so of each entry of a section, and each has its own key.
fn are_plain(
    alloc: Global,
    certain: &[Certain<'_>],
    entries: &[Numbered<'_>],
) -> Result<bool, NoMemory> {
    if entries.len() > MOST_ENTRIES {
        return Ok(false);
    }
    let mut keys = IndexSet::new(alloc);
    for entry in entries {
        let is_new = keys.insert(entry.entry.key.as_bytes())?;
        if !is_new || !is_plain(certain, entry.entry) {
            return Ok(false);
        }
    }
    Ok(true)
}

/// Whether it is so of the entries of each section of a chain.
fn is_chain_plain(
    alloc: Global,
    certain: &[Certain<'_>],
    sections: &Sections<'_>,
    chain: &[Text],
) -> Result<bool, NoMemory> {
    if chain.len() > MOST_ENTRIES {
        return Ok(false);
    }
    for name in chain {
        if let Some(entries) = sections.entries_under(name.as_bytes()) {
            if !are_plain(alloc, certain, entries)? {
                return Ok(false);
            }
        }
    }
    Ok(true)
}

/// Whether a few looks tell that each entry of a chain of these lines, which selects that network,
/// has an effect: each is for all parameters of its name, or for all statistics, each has a key of
/// its own in its section, and one of the first modules, whatever they stand in, has such a
/// parameter, or a statistic.
pub fn all_have_effect(
    alloc: Global,
    lines: &[IniLine],
    chain: &[Text],
    types: &[TypeDeclaration],
    network: &TypeDeclaration,
) -> Result<bool, NoMemory> {
    let certain = certain_in(alloc, types, network)?;
    let sections = sections_of(alloc, lines)?;
    is_chain_plain(alloc, certain.as_slice(), &sections, chain)
}
