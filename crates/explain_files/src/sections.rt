//! The entries of an ini text by the sections in which they stand.

use ini_trees::lines::{IniEntry, IniLine, LineMeaning};
use ini_trees::names::{SectionNames, section_names};
use ini_trees::scan::section_behind;
use sim_values::NoMemory;
use std::alloc::{AllocError, Global};

/// An entry, and the number of its line.
#[derive(Clone, Copy)]
pub struct Numbered<'a> {
    pub line: usize,
    pub entry: &'a IniEntry,
}

/// The sections of a text.
#[derive(Drop)]
pub struct Sections<'a> {
    /// Their names.
    pub names: SectionNames<'a>,
    /// The entries of each, in the order of the lines.
    entries: Vec<Vec<Numbered<'a>>>,
}

/// So many empty lists.
fn empty_lists<'a>(alloc: Global, count: usize) -> Result<Vec<Vec<Numbered<'a>>>, AllocError> {
    let mut lists = Vec::new(alloc);
    for _ in 0..count {
        lists.push(Vec::new(alloc))?;
    }
    Ok(lists)
}

/// Adds the entry of the line of that number, where it is one, to those of the section in which it
/// stands.
fn add_entry<'a>(
    sections: &mut Sections<'a>,
    section: Option<&[u8]>,
    number: usize,
    line: &'a IniLine,
) -> Result<(), AllocError> {
    let LineMeaning::Entry(entry) = &line.meaning else {
        return Ok(());
    };
    let Some(name) = section else {
        return Ok(());
    };
    let Some(at) = sections.names.number_of(name) else {
        return Ok(());
    };
    if let Some(list) = sections.entries.get_mut(at) {
        list.push(Numbered {
            line: number,
            entry,
        })?;
    }
    Ok(())
}

/// Adds the entries of the lines. One walk over the text finds those of all sections.
fn add_entries<'a>(sections: &mut Sections<'a>, lines: &'a [IniLine]) -> Result<(), AllocError> {
    let mut section = None;
    for (at, line) in lines.iter().enumerate() {
        add_entry(sections, section, at.saturating_add(1), line)?;
        section = section_behind(section, line);
    }
    Ok(())
}

/// The sections of these lines.
pub fn sections_of<'a>(alloc: Global, lines: &'a [IniLine]) -> Result<Sections<'a>, NoMemory> {
    let names = section_names(alloc, lines)?;
    let entries = empty_lists(alloc, names.len())?;
    let mut sections = Sections { names, entries };
    add_entries(&mut sections, lines)?;
    Ok(sections)
}

impl<'a> Sections<'a> {
    /// The entries of the section of that name, where there is one.
    pub fn entries_under(&self, name: &[u8]) -> Option<&[Numbered<'a>]> {
        let number = self.names.number_of(name)?;
        match self.entries.get(number) {
            Some(entries) => Some(entries.as_slice()),
            None => None,
        }
    }
}
