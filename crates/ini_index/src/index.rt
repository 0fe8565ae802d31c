//! The index, and what is looked up by it.

ghost use Rattle.std.specs.Prelude.{◌≡◌, ◌≤◌, ◌<◌, ◌+◌, IfOk, OnOk, Some, length, slice_get};
ghost use Rattle.std.specs.Option.{option_and_then, option_copied};
ghost use Rattle.std.specs.Str.{IsAscii};
ghost use Rattle.ini_trees.specs.declared.lines.IniEntry.{IniEntry as EntrySaid};
ghost use Rattle.ini_trees.specs.Entries.{first_match, speaks_of, value_for, value_said};
ghost use Rattle.ini_trees.specs.Sections.{entries_along};
ghost use Rattle.ini_index.specs.Indexed.{AreNotedFrom, first_from, is_found, is_past, sooner};

use crate::along::numbers_along;
use crate::key::key_of;
use crate::list::EntryList;
use crate::speaks::speaks;
use ini_names::laws::last_name_is_literal;
use ini_trees::entry::{EntryMeaning, EntryValue};
use ini_trees::lines::{IniEntry, IniLine};
use ini_trees::speaks::last_name;
use sim_values::NoMemory;
use sim_values::text::Text;
use sqlite_items::Items;
use std::alloc::Global;
use std::collections::HashMap;
use std::marker::Model;

// ---- making it

/// As many numbers that are not known yet.
fn no_nexts(alloc: Global, count: usize) -> Result<Items<Option<usize>>, NoMemory>
    ensures { IfOk result (λ nexts. length nexts ≡ count) }
{
    let mut nexts = Items::new(alloc);
    for _ in 0..count {
        nexts.push(None)?;
    }
    Ok(nexts)
}

/// Notes an entry before those that have greater numbers: it is the first one of its key, and the
/// one that was so far is the next one.
fn note(
    alloc: Global,
    entries: &EntryList<'_>,
    number: usize,
    heads: &mut HashMap<String, usize>,
    nexts: &mut Items<Option<usize>>,
) -> Result<(), NoMemory>
    requires within { number < length entries.now }
    requires noted { AreNotedFrom (number + 1) entries.now heads.old nexts.old }
    ensures { OnOk result (AreNotedFrom number entries.now heads.new nexts.new) }
{
    let key = key_of(alloc, &entries.at(number).meaning)?;
    let next = heads.insert(key, number)?;
    nexts.set(number, next);
    Ok(())
}

/// Notes all entries, the last one first.
fn note_all(
    alloc: Global,
    entries: &EntryList<'_>,
    heads: &mut HashMap<String, usize>,
    nexts: &mut Items<Option<usize>>,
) -> Result<(), NoMemory>
    requires { AreNotedFrom (length entries.now) entries.now heads.old nexts.old }
    ensures { OnOk result (AreNotedFrom 0 entries.now heads.new nexts.new) }
{
    let mut number = entries.len();
    while number > 0 {
        number -= 1;
        note(alloc, entries, number, heads, nexts)?;
    }
    Ok(())
}

// ---- asking it

/// Whether an entry of that number is no sooner than the one that was found.
fn is_past(best: Option<usize>, number: usize) -> bool
    ensures { result ≡ is_past best number }
{
    match best {
        Some(best) => best <= number,
        None => false,
    }
}

/// What is noted at a number.
fn next_of(nexts: &Items<Option<usize>>, number: usize) -> Option<usize>
    requires { number < length nexts.now }
    ensures { slice_get nexts.now number ≡ Some result }
{
    nexts.as_slice()[number]
}

/// The value that an entry of a parameter or a type gives.
fn value_said(meaning: &EntryMeaning) -> Option<&EntryValue>
    ensures { option_copied result ≡ value_said meaning.now }
{
    match meaning {
        EntryMeaning::Parameter(entry) | EntryMeaning::Type(entry) => Some(&entry.value),
        _ => None,
    }
}

/// The entries of a configuration, by their keys: which lines they are, and for each key where its
/// entries stand. It has numbers alone, so it outlives no text.
pub struct EntryIndex {
    /// The number of each entry's line.
    numbers: Items<usize>,
    /// For each key the number of the first entry that has it.
    heads: HashMap<String, usize>,
    /// For each entry the number of the next one that has the same key.
    nexts: Items<Option<usize>>,
}

// Written out, so that a crate which drops one need not prove what that does.
impl Drop for EntryIndex {
    fn drop(self) {
        let EntryIndex {
            numbers: _,
            heads: _,
            nexts: _,
        } = self;
    }
}

impl EntryIndex {
    ghost use Rattle.ini_index.specs.IndexOf.{IsIndexOf};

    /// The index of the entries along a chain.
    pub fn new(alloc: Global, lines: &[IniLine], chain: &[Text]) -> Result<EntryIndex, NoMemory>
        ensures { IfOk result (λ index. IsIndexOf lines.now chain.now index) }
    {
        let numbers = numbers_along(alloc, lines, chain)?;
        let entries = EntryList::new(lines, numbers.as_slice());
        let mut heads = HashMap::new(alloc);
        let mut nexts = no_nexts(alloc, entries.len())?;
        note_all(alloc, &entries, &mut heads, &mut nexts)?;
        Ok(EntryIndex {
            numbers,
            heads,
            nexts,
        })
    }

    /// The entries along the chain.
    pub fn entries<'a>(&'a self, lines: &'a [IniLine], chain: &[Text]) -> EntryList<'a>
        requires { IsIndexOf lines.now chain.now self.now }
        ensures { result ≡ entries_along chain.now lines.now }
    {
        let _chain = chain;
        EntryList::new(lines, self.numbers.as_slice())
    }

    /// The value of the first match for a path along the chain. A path that is no text has none.
    pub fn value_for<'a>(
        &'a self,
        lines: &'a [IniLine],
        chain: &[Text],
        path: &[u8],
    ) -> Option<&'a EntryValue>
        requires { IsIndexOf lines.now chain.now self.now }
        ensures { option_copied result ≡ value_for path.now (entries_along chain.now lines.now) }
    {
        let entries = self.entries(lines, chain);
        let indexed = IndexedEntries {
            entries,
            heads: &self.heads,
            nexts: &self.nexts,
        };
        indexed.value_for(path)
    }
}

/// The entries of a configuration with their index. Contracts see the list of the entries. By the
/// keys of their patterns the first match for a path is found without looking at all of them.
#[derive(Drop)]
struct IndexedEntries<'m> {
    entries: EntryList<'m>,
    heads: &'m HashMap<String, usize>,
    nexts: &'m Items<Option<usize>>,
}

impl<'m> Model for IndexedEntries<'m> {
    ghost use Rattle.std.specs.Prelude.{List};
    ghost use Rattle.std.specs.Coded.{coded_list};
    ghost use Rattle.ini_trees.specs.contracts.lines.IniEntry.{the_row};
    ghost use Rattle.ini_trees.specs.declared.lines.IniEntry.{IniEntry};
    ghost use Rattle.ini_index.specs.Indexed.{AreNotedFrom};

    ghost Value = { List IniEntry };

    ghost coded = { coded_list the_row.coded };

    ghost view = { λ x. x.entries };

    ghost invariant = { λ x. AreNotedFrom 0 x.entries x.heads.now x.nexts.now };
}

impl<'m> IndexedEntries<'m> {
    /// The number that is less: the one of the first entry of a key that speaks of a path, or the
    /// one that was found so far.
    fn sooner(&self, key: &str, path: &str, best: Option<usize>) -> Option<usize>
        ensures { result ≡ sooner best (first_from (is_found key.now path.now) 0 self.now) }
    {
        let mut at = self.heads.get(key).copied();
        while let Some(number) = at {
            if is_past(best, number) {
                return best;
            }
            if speaks(path, &self.entries.at(number).meaning) {
                return Some(number);
            }
            at = next_of(self.nexts, number);
        }
        best
    }

    /// The number of the first entry that speaks of a path, by all entries.
    fn by_scan(&self, path: &str) -> Option<usize>
        ensures { result ≡ first_from (speaks_of path.now) 0 self.now }
    {
        for number in 0..self.entries.len() {
            if speaks(path, &self.entries.at(number).meaning) {
                return Some(number);
            }
        }
        None
    }

    /// The same by keys: an entry that speaks of a path has the path as its key, or its last name,
    /// or none.
    fn by_keys(&self, path: &str) -> Option<usize>
        requires { IsAscii path.now }
        ensures { result ≡ first_from (speaks_of path.now) 0 self.now }
    {
        last_name_is_literal();
        let Ok(name) = std::str::from_utf8(last_name(path.as_bytes())) else {
            return self.by_scan(path);
        };
        let whole = self.sooner(path, path, None);
        let named = self.sooner(name, path, whole);
        self.sooner("", path, named)
    }

    /// The number of the first entry that speaks of a path. The law of last names holds for paths
    /// of ASCII characters.
    fn number_of(&self, path: &str) -> Option<usize>
        ensures { result ≡ first_from (speaks_of path.now) 0 self.now }
    {
        if path.is_ascii() {
            self.by_keys(path)
        } else {
            self.by_scan(path)
        }
    }

    /// The first match for a path.
    fn first_match(&self, path: &str) -> Option<&'m IniEntry>
        ensures { option_copied result ≡ first_match path.now self.now }
    {
        match self.number_of(path) {
            Some(number) => Some(self.entries.at(number)),
            None => None,
        }
    }

    /// The value of the first match for a path that is a text.
    fn matched_value(&self, path: &str) -> Option<&'m EntryValue>
        ensures { option_copied result ≡ option_and_then (λ (e : EntrySaid). value_said e.meaning)
            (first_match path.now self.now) }
    {
        match self.first_match(path) {
            Some(entry) => value_said(&entry.meaning),
            None => None,
        }
    }

    /// The value of the first match for a path. A path that is no text has none.
    fn value_for(&self, path: &[u8]) -> Option<&'m EntryValue>
        ensures { option_copied result ≡ value_for path.now self.now }
    {
        match std::str::from_utf8(path) {
            Ok(text) => self.matched_value(text),
            Err(_) => None,
        }
    }
}
