//! Entries in an order, by the numbers of their lines.

ghost use Rattle.std.specs.Prelude.{◌≡◌, ◌<◌, Some, length, slice_get};
ghost use Rattle.std.specs.Option.{option_copied};
ghost use Rattle.ini_index.specs.Entries.{AreNumbersOf, entries_on, entry_of, entry_on};

use ini_trees::lines::{IniEntry, IniLine, LineMeaning};
use std::marker::Model;

/// The entry that a line is, where it is one.
fn entry_of(line: &IniLine) -> Option<&IniEntry>
    ensures { option_copied result ≡ entry_of line.now }
{
    match &line.meaning {
        LineMeaning::Entry(entry) => Some(entry),
        _ => None,
    }
}

/// The entry that the line of that number is, where there is one.
fn entry_on(lines: &[IniLine], number: usize) -> Option<&IniEntry>
    ensures { option_copied result ≡ entry_on lines.now number }
{
    match lines.get(number) {
        Some(line) => entry_of(line),
        None => None,
    }
}

/// The number that stands at a place.
fn number_at(numbers: &[usize], place: usize) -> usize
    requires { place < length numbers.now }
    ensures { slice_get numbers.now place ≡ Some result }
{
    numbers[place]
}

/// Entries in an order, by the numbers of their lines. Contracts see the list of the entries.
#[derive(Drop)]
pub struct EntryList<'m> {
    lines: &'m [IniLine],
    numbers: &'m [usize],
}

impl<'m> Model for EntryList<'m> {
    ghost use Rattle.std.specs.Prelude.{List};
    ghost use Rattle.std.specs.Coded.{coded_list};
    ghost use Rattle.ini_trees.specs.contracts.lines.IniEntry.{the_row};
    ghost use Rattle.ini_trees.specs.declared.lines.IniEntry.{IniEntry};
    ghost use Rattle.ini_index.specs.Entries.{AreNumbersOf, entries_on};

    ghost Value = { List IniEntry };

    ghost coded = { coded_list the_row.coded };

    ghost view = { λ l. entries_on l.lines.now l.numbers.now };

    ghost invariant = { λ l.
        AreNumbersOf l.lines.now (entries_on l.lines.now l.numbers.now) l.numbers.now };
}

impl<'m> EntryList<'m> {
    /// The entries that the lines of these numbers are.
    pub fn new(lines: &'m [IniLine], numbers: &'m [usize]) -> EntryList<'m>
        requires { AreNumbersOf lines.now (entries_on lines.now numbers.now) numbers.now }
        ensures { result ≡ entries_on lines.now numbers.now }
    {
        EntryList { lines, numbers }
    }

    /// How many they are.
    pub fn len(&self) -> usize
        ensures { result ≡ length self.now }
    {
        self.numbers.len()
    }

    /// The entry of that number.
    pub fn at(&self, number: usize) -> &'m IniEntry
        requires { number < length self.now }
        ensures { slice_get self.now number ≡ Some result.now }
    {
        let line = number_at(self.numbers, number);
        match entry_on(self.lines, line) {
            Some(entry) => entry,
            None => unreachable!(),
        }
    }
}
