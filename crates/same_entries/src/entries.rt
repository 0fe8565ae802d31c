//! Entries on which values of modules may rest, and whether two ini texts have the same of them.

ghost use Rattle.std.specs.Prelude.{◌≡◌, ◌==◌, ◌<◌, List, true, None, length};
ghost use Rattle.std.specs.List.{cons_option, list_any};
ghost use Rattle.std.specs.Option.{option_copied};
ghost use Rattle.ini_trees.specs.declared.lines.IniEntry.{IniEntry as EntrySaid};
ghost use Rattle.ini_trees.specs.Sections.{entries_along, entries_under, entry_here, is_in};
ghost use Rattle.same_entries.specs.Counted.{counted, counts, AreSaid, IsNext};

use ini_trees::entry::EntryMeaning;
use ini_trees::lines::{IniEntry, IniLine};
use ini_trees::scan::{entry_in, section_behind};
use sim_values::text::Text;

/// Whether a name has a `-`.
fn is_hyphenated(name: &[u8]) -> bool
    ensures { result ≡ list_any (λ b. b == 45) name.now }
{
    name.iter().any(|byte| *byte == b'-')
}

/// Whether a value of a module may rest on an entry that says this.
fn counts(meaning: &EntryMeaning) -> bool
    ensures { result ≡ counts meaning.now }
{
    match meaning {
        EntryMeaning::Parameter(_) | EntryMeaning::Type(_) => true,
        EntryMeaning::Object(entry) => !is_hyphenated(entry.option.as_bytes()),
        _ => false,
    }
}

/// The entry of a line that counts, where the line stands in the section of that name.
fn counted_in<'a>(name: &[u8], section: Option<&'a [u8]>, line: &'a IniLine) -> Option<&'a IniEntry>
    ensures { (rest : List EntrySaid)
        → counted (cons_option (entry_here (is_in name.now (option_copied section.entry))
        line.now.meaning) rest) ≡ cons_option (option_copied result) (counted rest) }
{
    match entry_in(name, section, line) {
        Some(entry) if counts(&entry.meaning) => Some(entry),
        _ => None,
    }
}

/// An entry that counts, and what comes after it.
#[derive(Clone, Copy)]
pub(crate) struct Next<'a> {
    entry: &'a IniEntry,
    /// The section in which the lines after it begin.
    section: Option<&'a [u8]>,
    rest: &'a [IniLine],
}

/// The first entry of the section of that name that counts, among lines of which the first stands in
/// this section.
fn next_counted<'a>(
    name: &[u8],
    section: Option<&'a [u8]>,
    lines: &'a [IniLine],
) -> Option<Next<'a>>
    ensures { IsNext name.now (option_copied section.entry) lines.now result }
{
    let mut within = section;
    let mut left = lines;
    'lines: while let Some((line, rest)) = left.split_first() {
        let behind = section_behind(within, line);
        if let Some(entry) = counted_in(name, within, line) {
            return Some(Next {
                entry,
                section: behind,
                rest,
            });
        }
        within = behind;
        left = rest;
    }
    None
}

/// Whether two entries have the same key and the same value.
fn are_same(one: &IniEntry, other: &IniEntry) -> bool
    ensures key { result ≡ true → one.now.key ≡ other.now.key }
    ensures value { result ≡ true → one.now.value ≡ other.now.value }
{
    one.key.is(other.key.as_bytes()) && one.value.is(other.value.as_bytes())
}

/// Whether two texts have the same entries that count in the section of that name, in the same
/// order.
fn same_under(name: &[u8], one: &[IniLine], other: &[IniLine]) -> bool
    ensures { result ≡ true → AreSaid one.now → AreSaid other.now
        → counted (entries_under name.now one.now) ≡ counted (entries_under name.now other.now) }
{
    let (mut section, mut left) = (None, one);
    let (mut other_section, mut right) = (None, other);
    'entries: while let Some(first) = next_counted(name, section, left) {
        let Some(second) = next_counted(name, other_section, right) else {
            return false;
        };
        if !are_same(first.entry, second.entry) {
            return false;
        }
        section = first.section;
        left = first.rest;
        other_section = second.section;
        right = second.rest;
    }
    next_counted(name, other_section, right).is_none()
}

/// Whether two texts have the same entries that count in these sections, in the same order.
pub fn same_along(chain: &[Text], one: &[IniLine], other: &[IniLine]) -> bool
    ensures { result ≡ true → AreSaid one.now → AreSaid other.now
        → counted (entries_along chain.now one.now) ≡ counted (entries_along chain.now other.now) }
{
    for name in chain {
        if !same_under(name.as_bytes(), one, other) {
            return false;
        }
    }
    true
}
