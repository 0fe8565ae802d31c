//! What each section of a text extends, by numbers. Two walks over the text find it for all
//! sections at once.

ghost use Rattle.std.specs.Prelude.{◌≡◌, [], length, IfOk};
ghost use Rattle.std.specs.Option.{option_copied};
ghost use Rattle.std.specs.Str.{bytes_eq};
ghost use Rattle.ini_trees.specs.Sections.{general, bases_said, or_bases};
ghost use Rattle.ini_trees.specs.Numbers.{name_at, others, AreApart, AreNumbers, FitRows};
ghost use Rattle.ini_trees.specs.Said.{bases_in, HaveSaid, Notes};

use crate::entry::EntryMeaning;
use crate::lines::{IniLine, LineMeaning};
use crate::names::SectionNames;
use crate::scan::section_behind;
use sim_values::text::{Text, spells};
use sqlite_items::Items;
use std::alloc::{AllocError, Global};

/// Whether a name is that of the section that ends each chain.
pub fn is_general(name: &[u8]) -> bool
    ensures { result ≡ bytes_eq name.now general }
{
    spells(name, b"General")
}

/// The names that an entry of the option `extends` has.
fn bases_said(meaning: &EntryMeaning) -> Option<&[Text]>
    ensures { option_copied result ≡ bases_said meaning.now }
{
    match meaning {
        EntryMeaning::Extends(names) => Some(names.as_slice()),
        _ => None,
    }
}

/// The numbers of these names without General, if they all have one.
fn numbers_of(
    alloc: Global,
    names: &SectionNames<'_>,
    bases: &[Text],
) -> Result<Option<Items<usize>>, AllocError>
    ensures { IfOk result (λ row. AreNumbers names.now (others bases.now) row) }
{
    let mut row = Items::new(alloc);
    for base in bases {
        if !is_general(base.as_bytes()) {
            match names.number_of(base.as_bytes()) {
                Some(number) => row.push(number)?,
                None => return Ok(None),
            }
        }
    }
    Ok(Some(row))
}

/// The names of the bases that a line has, where it is an entry of the option `extends`.
fn bases_in(line: &IniLine) -> Option<&[Text]>
    ensures { option_copied result ≡ bases_in line.now.meaning }
{
    match &line.meaning {
        LineMeaning::Entry(entry) => bases_said(&entry.meaning),
        _ => None,
    }
}

/// Notes what a line says that the section extends in which it stands, unless a line before has
/// said so.
fn note<'a>(
    said: &mut [Option<&'a [Text]>],
    names: &SectionNames<'_>,
    section: Option<&[u8]>,
    line: &'a IniLine,
)
    requires apart { AreApart (name_at names.now) (length names.now) }
    requires size { length said.old ≡ length names.now }
    ensures { Notes names.now (option_copied section.entry) line.now.meaning said.old said.new }
{
    let Some(bases) = bases_in(line) else {
        return;
    };
    let Some(name) = section else {
        return;
    };
    let Some(number) = names.number_of(name) else {
        return;
    };
    if said[number].is_none() {
        said[number] = Some(bases);
    }
}

/// For each section the names that the first entry of the option `extends` has there, if there is
/// one.
fn said_bases<'a>(
    alloc: Global,
    lines: &'a [IniLine],
    names: &SectionNames<'_>,
) -> Result<Vec<Option<&'a [Text]>>, AllocError>
    requires apart { AreApart (name_at names.now) (length names.now) }
    ensures { IfOk result (λ said. HaveSaid lines.now names.now said.items) }
{
    let mut said = vec![in alloc; None; names.len()]?;
    let mut section = None;
    for line in lines {
        note(said.as_mut_slice(), names, section, line);
        section = section_behind(section, line);
    }
    Ok(said)
}

/// The numbers of those that a section extends, if they are all there.
fn row_of(
    alloc: Global,
    names: &SectionNames<'_>,
    said: Option<&[Text]>,
) -> Result<Option<Items<usize>>, AllocError>
    ensures { IfOk result
        (λ row. AreNumbers names.now (others (or_bases (option_copied said.entry) [])) row) }
{
    match said {
        Some(bases) => numbers_of(alloc, names, bases),
        None => numbers_of(alloc, names, &[]),
    }
}

/// For each section the numbers of those that it extends, if they are all there.
pub fn base_rows(
    alloc: Global,
    lines: &[IniLine],
    names: &SectionNames<'_>,
) -> Result<Items<Option<Items<usize>>>, AllocError>
    requires apart { AreApart (name_at names.now) (length names.now) }
    ensures { IfOk result (λ rows. FitRows lines.now names.now rows) }
{
    let said = said_bases(alloc, lines, names)?;
    let mut rows = Items::new(alloc);
    for bases in said.as_slice() {
        rows.push(row_of(alloc, names, *bases)?)?;
    }
    Ok(rows)
}
