//! Which entry of an ini text gives a parameter its value, or a submodule its type.

use crate::sections::{Numbered, sections_of};
use ini_trees::entry::EntryMeaning;
use ini_trees::lines::{IniEntry, IniLine};
use ini_trees::speaks::last_name;
use sim_values::NoMemory;
use sim_values::text::{Text, spells};
use std::alloc::Global;

/// Whether an entry gives the parameter of that path a value, or the submodule its type whose path
/// stands before `typename`, where no entry before it does.
fn gives(entry: &IniEntry, path: &str) -> bool {
    let is_type = spells(last_name(path.as_bytes()), b"typename");
    match &entry.meaning {
        EntryMeaning::Parameter(it) => !is_type && it.pattern.matches(path),
        EntryMeaning::Type(it) => is_type && it.pattern.matches(path),
        _ => false,
    }
}

/// The first of the entries of a section that gives what has that path a value.
fn giving_in<'a>(entries: &[Numbered<'a>], path: &str) -> Option<Numbered<'a>> {
    for it in entries {
        if gives(it.entry, path) {
            return Some(*it);
        }
    }
    None
}

/// The entry of these lines that gives what has that path its value: the first along the chain that
/// matches.
pub fn entry_giving<'a>(
    alloc: Global,
    lines: &'a [IniLine],
    chain: &[Text],
    path: &str,
) -> Result<Option<Numbered<'a>>, NoMemory> {
    let sections = sections_of(alloc, lines)?;
    for name in chain {
        if let Some(entries) = sections.entries_under(name.as_bytes()) {
            if let Some(found) = giving_in(entries, path) {
                return Ok(Some(found));
            }
        }
    }
    Ok(None)
}
