//! The entries of an ini text by the sections in which they stand.

ghost use Rattle.std.specs.Prelude.{◌≡◌, ◌++◌, ◌<◌, ℕ, [], length, IfOk, OnOk};
ghost use Rattle.std.specs.Option.{option_copied};
ghost use Rattle.ini_trees.specs.Numbers.{name_at, names_behind, AreApart};
ghost use Rattle.ini_trees.specs.Sections.{entry_here, entries_under, is_in};
ghost use Rattle.result_lines.specs.Sections.{entries_at, one_of, AddsTo, HaveEntries};

use ini_trees::lines::{IniEntry, IniLine, LineMeaning};
use ini_trees::names::SectionNames;
use ini_trees::scan::section_behind;
use std::alloc::{AllocError, Global};

/// So many empty lists.
fn empty_lists<'a>(alloc: Global, count: usize) -> Result<Vec<Vec<&'a IniEntry>>, AllocError>
    ensures { IfOk result
        (λ lists. (length lists.items ≡ count) × ((k : ℕ) → entries_at lists.items k ≡ [])) }
{
    let mut lists = Vec::new(alloc);
    for _ in 0..count {
        lists.push(Vec::new(alloc))?;
    }
    Ok(lists)
}

/// Adds an entry to the list of that number.
fn add_to<'a>(
    lists: &mut [Vec<&'a IniEntry>],
    number: usize,
    entry: &'a IniEntry,
) -> Result<(), AllocError>
    requires { number < length lists.old }
    ensures { OnOk result (AddsTo number entry.now lists.old lists.new) }
{
    lists[number].push(entry)?;
    Ok(())
}

/// Adds the entry of a line, where it is one, to the list of the section in which it stands.
fn add_entry<'a>(
    lists: &mut [Vec<&'a IniEntry>],
    names: &SectionNames<'_>,
    section: Option<&[u8]>,
    line: &'a IniLine,
) -> Result<(), AllocError>
    requires apart { AreApart (name_at names.now) (length names.now) }
    requires size { length lists.old ≡ length names.now }
    ensures { OnOk result ((k : ℕ) → k < length names.now → entries_at lists.new k
        ≡ entries_at lists.old k ++ one_of (entry_here
        (is_in (name_at names.now k) (option_copied section.entry)) line.now.meaning)) }
{
    let LineMeaning::Entry(entry) = &line.meaning else {
        return Ok(());
    };
    let Some(name) = section else {
        return Ok(());
    };
    match names.number_of(name) {
        Some(number) => add_to(lists, number, entry),
        None => Ok(()),
    }
}

/// Adds the entries of lines to empty lists, one for each section.
fn add_entries<'a>(
    lists: &mut [Vec<&'a IniEntry>],
    names: &SectionNames<'_>,
    lines: &'a [IniLine],
) -> Result<(), AllocError>
    requires apart { AreApart (name_at names.now) (length names.now) }
    requires size { length lists.old ≡ length names.now }
    requires empty { (k : ℕ) → entries_at lists.old k ≡ [] }
    ensures { OnOk result ((k : ℕ) → k < length names.now
        → entries_at lists.new k ≡ entries_under (name_at names.now k) lines.now) }
{
    let mut section = None;
    for line in lines {
        add_entry(lists, names, section, line)?;
        section = section_behind(section, line);
    }
    Ok(())
}

/// For each section the entries that stand in it, in the order of the lines. One walk over the text
/// finds them for all sections.
pub(crate) fn section_entries<'a>(
    alloc: Global,
    lines: &'a [IniLine],
    names: &SectionNames<'_>,
) -> Result<Vec<Vec<&'a IniEntry>>, AllocError>
    requires { names.now ≡ names_behind [] lines.now }
    ensures { IfOk result (λ lists. HaveEntries lines.now names.now lists.items) }
{
    let mut lists = empty_lists(alloc, names.len())?;
    add_entries(lists.as_mut_slice(), names, lines)?;
    Ok(lists)
}
