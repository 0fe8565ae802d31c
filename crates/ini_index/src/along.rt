//! The entries along a chain of sections, in time that grows with the text alone.

ghost use Rattle.std.specs.Prelude.{◌≡◌, ◌<◌, ◌++◌, ℕ, [], Some, length, map, IfOk, OnOk};
ghost use Rattle.std.specs.Option.{option_copied};
ghost use Rattle.ini_trees.specs.Numbers.{name_at, names_behind, AreApart};
ghost use Rattle.ini_trees.specs.Sections.{entry_here, entries_along, entries_under, is_in};
ghost use Rattle.ini_index.specs.Entries.{number_where, numbers_at, told, AddsTo, AreNumbersOf};

use ini_trees::lines::{IniLine, LineMeaning};
use ini_trees::names::{SectionNames, section_names};
use ini_trees::scan::section_behind;
use sim_values::NoMemory;
use sim_values::text::Text;
use sqlite_items::Items;
use std::alloc::Global;
use std::marker::Model;

// ---- for each section the lines of its entries

/// So many empty lists.
fn empty_lists(alloc: Global, count: usize) -> Result<Vec<Items<usize>>, NoMemory>
    ensures { IfOk result
        (λ lists. (length lists.items ≡ count) × ((k : ℕ) → numbers_at lists.items k ≡ [])) }
{
    let mut lists = Vec::new(alloc);
    for _ in 0..count {
        lists.push(Items::new(alloc))?;
    }
    Ok(lists)
}

/// Adds the number of a line to the list of that section.
fn add_to(lists: &mut [Items<usize>], section: usize, number: usize) -> Result<(), NoMemory>
    requires { section < length lists.old }
    ensures { OnOk result (AddsTo section number lists.old lists.new) }
{
    lists[section].push(number)?;
    Ok(())
}

/// Adds the number of a line, where it is an entry, to the list of the section in which it stands.
fn add_line(
    lists: &mut [Items<usize>],
    names: &SectionNames<'_>,
    section: Option<&[u8]>,
    line: &IniLine,
    number: usize,
) -> Result<(), NoMemory>
    requires apart { AreApart (name_at names.now) (length names.now) }
    requires size { length lists.old ≡ length names.now }
    ensures { OnOk result ((k : ℕ) → k < length names.now → numbers_at lists.new k
        ≡ numbers_at lists.old k ++ number_where number (entry_here
        (is_in (name_at names.now k) (option_copied section.entry)) line.now.meaning)) }
{
    let LineMeaning::Entry(_) = &line.meaning else {
        return Ok(());
    };
    let Some(name) = section else {
        return Ok(());
    };
    match names.number_of(name) {
        Some(section) => add_to(lists, section, number),
        None => Ok(()),
    }
}

/// Adds the numbers of the lines that are entries to empty lists, one for each section.
fn add_lines(
    lists: &mut [Items<usize>],
    names: &SectionNames<'_>,
    lines: &[IniLine],
) -> Result<(), NoMemory>
    requires apart { AreApart (name_at names.now) (length names.now) }
    requires size { length lists.old ≡ length names.now }
    requires empty { (k : ℕ) → numbers_at lists.old k ≡ [] }
    ensures { OnOk result ((k : ℕ) → k < length names.now → AreNumbersOf lines.now
        (entries_under (name_at names.now k) lines.now) (numbers_at lists.new k)) }
{
    let mut section = None;
    for number in 0..lines.len() {
        let line = &lines[number];
        add_line(lists, names, section, line, number)?;
        section = section_behind(section, line);
    }
    Ok(())
}

/// Adds other numbers after those of a list.
fn append(list: &mut Items<usize>, more: &[usize]) -> Result<(), NoMemory>
    ensures { OnOk result (list.new ≡ list.old ++ more.now) }
{
    for number in more {
        list.push(*number)?;
    }
    Ok(())
}

/// The sections of a text, each with its entries. Contracts see the text's lines.
#[derive(Drop)]
struct Sections<'m> {
    lines: &'m [IniLine],
    names: SectionNames<'m>,
    /// For each section the numbers of the lines of its entries.
    lists: Vec<Items<usize>>,
}

impl<'m> Model for Sections<'m> {
    ghost use Rattle.std.specs.Prelude.{List};
    ghost use Rattle.std.specs.Coded.{coded_list};
    ghost use Rattle.ini_trees.specs.contracts.lines.IniLine.{the_row};
    ghost use Rattle.ini_trees.specs.declared.lines.IniLine.{IniLine};
    ghost use Rattle.ini_index.specs.Entries.{HaveNumbers};

    ghost Value = { List IniLine };

    ghost coded = { coded_list the_row.coded };

    ghost view = { λ s. s.lines.now };

    ghost invariant = { λ s. HaveNumbers s.lines.now s.names s.lists.items };
}

impl<'m> Sections<'m> {
    /// The sections of these lines.
    fn new(alloc: Global, lines: &'m [IniLine]) -> Result<Sections<'m>, NoMemory>
        ensures { IfOk result (λ sections. sections ≡ lines.now) }
    {
        let names = section_names(alloc, lines)?;
        let mut lists = empty_lists(alloc, names.len())?;
        add_lines(lists.as_mut_slice(), &names, lines)?;
        Ok(Sections {
            lines,
            names,
            lists,
        })
    }

    /// Adds the entries of the section of that name to a list, by the numbers of their lines.
    fn add_under(&self, list: &mut Items<usize>, name: &[u8]) -> Result<(), NoMemory>
        ensures { OnOk result (told self.now list.new
            ≡ told self.now list.old ++ map Some (entries_under name.now self.now)) }
    {
        match self.names.number_of(name) {
            Some(section) => append(list, self.lists[section].as_slice()),
            None => Ok(()),
        }
    }
}

// ---- along a chain

/// The entries along a chain, by the numbers of their lines: section by section, each in the order
/// of the lines.
pub fn numbers_along(
    alloc: Global,
    lines: &[IniLine],
    chain: &[Text],
) -> Result<Items<usize>, NoMemory>
    ensures { IfOk result
        (λ numbers. AreNumbersOf lines.now (entries_along chain.now lines.now) numbers) }
{
    let sections = Sections::new(alloc, lines)?;
    let mut list = Items::new(alloc);
    for name in chain {
        sections.add_under(&mut list, name.as_bytes())?;
    }
    Ok(list)
}
