//! Looking through the entries of a configuration, in their order.

ghost use Rattle.std.specs.Prelude.{◌≡◌};
ghost use Rattle.std.specs.Option.{option_and_then, option_copied};
ghost use Rattle.ini_trees.specs.Scans.{is_wanted, wanted_of, first_wanted, IsPlace, IsWantedAmong};
ghost use Rattle.ini_trees.specs.Sections.{is_in, entry_here, section_behind, entries_under};
ghost use Rattle.ini_trees.specs.Sections.{entries_along};

use crate::entry::EntryMeaning;
use crate::lines::{IniEntry, IniLine, LineMeaning};
use crate::speaks::speaks;
use sim_values::text::Text;

// ---- lines in their sections

/// The section that the lines after a line stand in, where this line stands in `section`.
pub fn section_behind<'a>(section: Option<&'a [u8]>, line: &'a IniLine) -> Option<&'a [u8]>
    ensures { option_copied result ≡ section_behind (option_copied section.entry) line.now.meaning }
{
    match &line.meaning {
        LineMeaning::Section(name) => Some(name.as_bytes()),
        _ => section,
    }
}

/// Whether it is the section of that name.
fn is_in(name: &[u8], section: Option<&[u8]>) -> bool
    ensures { result ≡ is_in name.now (option_copied section.entry) }
{
    match section {
        Some(section) => section == name,
        None => false,
    }
}

/// The entry of a line that stands in `section`, where this is the section of that name.
pub fn entry_in<'a>(name: &[u8], section: Option<&[u8]>, line: &'a IniLine) -> Option<&'a IniEntry>
    ensures { option_copied result
        ≡ entry_here (is_in name.now (option_copied section.entry)) line.now.meaning }
{
    if !is_in(name, section) {
        return None;
    }
    match &line.meaning {
        LineMeaning::Entry(entry) => Some(entry),
        _ => None,
    }
}

// ---- the first that is wanted

/// A chain of so many sections is short: to look through the text for each of them costs less than
/// to compare all its entries.
const FEW: usize = 16;

/// Which entries are looked for.
#[derive(Clone, Copy)]
pub(crate) enum Wanted<'a> {
    /// Those of the option `extends`.
    Bases,
    /// Those of the option `network`.
    Network,
    /// Those of the option `sim-time-limit`.
    TimeLimit,
    /// Those that count for the path and match it.
    Path(&'a str),
}

/// Whether an entry that says this is looked for.
fn is_wanted(wanted: Wanted<'_>, meaning: &EntryMeaning) -> bool
    ensures { result ≡ is_wanted wanted.entry meaning.now }
{
    match wanted {
        Wanted::Bases => matches!(meaning, EntryMeaning::Extends(_)),
        Wanted::Network => matches!(meaning, EntryMeaning::Network(_)),
        Wanted::TimeLimit => matches!(meaning, EntryMeaning::TimeLimit(_)),
        Wanted::Path(path) => speaks(path, meaning),
    }
}

/// The entry of a line, which stands in `section`, where this is the section of that name and the
/// entry is looked for.
fn wanted_in<'a>(
    name: &[u8],
    section: Option<&[u8]>,
    line: &'a IniLine,
    wanted: Wanted<'_>,
) -> Option<&'a IniEntry>
    ensures { option_copied result ≡ option_and_then (wanted_of wanted.entry)
        (entry_here (is_in name.now (option_copied section.entry)) line.now.meaning) }
{
    match entry_in(name, section, line) {
        Some(entry) if is_wanted(wanted, &entry.meaning) => Some(entry),
        _ => None,
    }
}

/// The first entry that is looked for in the section of that name.
pub(crate) fn first_under<'a>(
    lines: &'a [IniLine],
    name: &[u8],
    wanted: Wanted<'_>,
) -> Option<&'a IniEntry>
    ensures { option_copied result ≡ first_wanted wanted.entry (entries_under name.now lines.now) }
{
    let mut section = None;
    for line in lines {
        if let Some(entry) = wanted_in(name, section, line, wanted) {
            return Some(entry);
        }
        section = section_behind(section, line);
    }
    None
}

/// The first entry that is looked for along a chain of few sections. The text is looked through
/// once for each of them.
fn first_along_few<'a>(
    lines: &'a [IniLine],
    chain: &[Text],
    wanted: Wanted<'_>,
) -> Option<&'a IniEntry>
    ensures { option_copied result ≡ first_wanted wanted.entry (entries_along chain.now lines.now) }
{
    for name in chain {
        if let Some(entry) = first_under(lines, name.as_bytes(), wanted) {
            return Some(entry);
        }
    }
    None
}

// ---- along many sections

/// The place of the first of these names that is that one.
fn place_of(names: &[Text], name: &[u8]) -> Option<usize>
    ensures { IsPlace names.now name.now result }
{
    for (at, other) in names.iter().enumerate() {
        if other.is(name) {
            return Some(at);
        }
    }
    None
}

/// The entry of a line, which stands in `section`, where this is one of these sections and the
/// entry is looked for; and the place of the section.
fn wanted_among<'a>(
    names: &[Text],
    section: Option<&[u8]>,
    line: &'a IniLine,
    wanted: Wanted<'_>,
) -> Option<(usize, &'a IniEntry)>
    ensures { IsWantedAmong wanted.entry names.now (option_copied section.entry)
        line.now.meaning result }
{
    let LineMeaning::Entry(entry) = &line.meaning else {
        return None;
    };
    let Some(name) = section else {
        return None;
    };
    if !is_wanted(wanted, &entry.meaning) {
        return None;
    }
    match place_of(names, name) {
        Some(at) => Some((at, entry)),
        None => None,
    }
}

/// The first entry that is looked for along a chain of many sections. The text is looked through
/// once: after an entry that is found, only one of a section before that one's counts.
fn first_along_many<'a>(
    lines: &'a [IniLine],
    chain: &[Text],
    wanted: Wanted<'_>,
) -> Option<&'a IniEntry>
    ensures { option_copied result ≡ first_wanted wanted.entry (entries_along chain.now lines.now) }
{
    let mut found = None;
    let mut before = chain;
    let mut section = None;
    for line in lines {
        if let Some((at, entry)) = wanted_among(before, section, line, wanted) {
            found = Some(entry);
            before = &before[..at];
        }
        section = section_behind(section, line);
    }
    found
}

/// The first entry that is looked for along a chain.
pub(crate) fn first_along<'a>(
    lines: &'a [IniLine],
    chain: &[Text],
    wanted: Wanted<'_>,
) -> Option<&'a IniEntry>
    ensures { option_copied result ≡ first_wanted wanted.entry (entries_along chain.now lines.now) }
{
    if chain.len() <= FEW {
        first_along_few(lines, chain, wanted)
    } else {
        first_along_many(lines, chain, wanted)
    }
}
