//! What the entries of a configuration say.

ghost use Rattle.std.specs.Prelude.{◌≡◌};
ghost use Rattle.std.specs.Option.{option_copied, option_and_then};
ghost use Rattle.ini_trees.specs.declared.lines.IniEntry.{IniEntry as EntrySaid};
ghost use Rattle.ini_trees.specs.Entries.{network_entry, network_said, time_limit_entry};
ghost use Rattle.ini_trees.specs.Entries.{limit_said, first_match, value_said, value_for};
ghost use Rattle.ini_trees.specs.Entries.{object_said, object_for};
ghost use Rattle.ini_trees.specs.Sections.{entries_along};

use crate::entry::{EntryMeaning, EntryValue, ObjectOption};
use crate::lines::{IniEntry, IniLine};
use crate::scan::{Wanted, first_along};
use sim_values::text::Text;

// ---- options

/// The network that an entry names.
fn network_said(meaning: &EntryMeaning) -> Option<&[u8]>
    ensures { option_copied result ≡ network_said meaning.now }
{
    match meaning {
        EntryMeaning::Network(name) => Some(name.as_bytes()),
        _ => None,
    }
}

/// The network that the first entry of that option names along a chain.
pub fn network_entry<'a>(lines: &'a [IniLine], chain: &[Text]) -> Option<&'a [u8]>
    ensures { option_copied result ≡ network_entry (entries_along chain.now lines.now) }
{
    match first_along(lines, chain, Wanted::Network) {
        Some(entry) => network_said(&entry.meaning),
        None => None,
    }
}

/// The time that an entry limits a run to.
fn limit_said(meaning: &EntryMeaning) -> Option<u64>
    ensures { result ≡ limit_said meaning.now }
{
    match meaning {
        EntryMeaning::TimeLimit(time) => Some(*time),
        _ => None,
    }
}

/// The time of the first entry of the option `sim-time-limit` along a chain, in picoseconds.
pub fn time_limit_entry(lines: &[IniLine], chain: &[Text]) -> Option<u64>
    ensures { result ≡ time_limit_entry (entries_along chain.now lines.now) }
{
    match first_along(lines, chain, Wanted::TimeLimit) {
        Some(entry) => limit_said(&entry.meaning),
        None => None,
    }
}

// ---- the first match

/// The first match for a path along a chain: the first entry that counts for it and matches it.
pub fn first_match<'a>(lines: &'a [IniLine], chain: &[Text], path: &str) -> Option<&'a IniEntry>
    ensures { option_copied result ≡ first_match path.now (entries_along chain.now lines.now) }
{
    first_along(lines, chain, Wanted::Path(path))
}

/// The value that an entry of a parameter or a type gives.
fn value_said(meaning: &EntryMeaning) -> Option<&EntryValue>
    ensures { option_copied result ≡ value_said meaning.now }
{
    match meaning {
        EntryMeaning::Parameter(entry) | EntryMeaning::Type(entry) => Some(&entry.value),
        _ => None,
    }
}

/// The value of the first match for a path along a chain.
fn matched_value<'a>(lines: &'a [IniLine], chain: &[Text], path: &str) -> Option<&'a EntryValue>
    ensures { option_copied result ≡ option_and_then (λ (e : EntrySaid). value_said e.meaning)
        (first_match path.now (entries_along chain.now lines.now)) }
{
    match first_match(lines, chain, path) {
        Some(entry) => value_said(&entry.meaning),
        None => None,
    }
}

/// The value of the first match for a path along a chain. A path that is no text has none.
pub fn value_for<'a>(lines: &'a [IniLine], chain: &[Text], path: &[u8]) -> Option<&'a EntryValue>
    ensures { option_copied result ≡ value_for path.now (entries_along chain.now lines.now) }
{
    match std::str::from_utf8(path) {
        Ok(text) => matched_value(lines, chain, text),
        Err(_) => None,
    }
}

/// What an entry of a per-object option says.
fn object_said(meaning: &EntryMeaning) -> Option<&ObjectOption>
    ensures { option_copied result ≡ object_said meaning.now }
{
    match meaning {
        EntryMeaning::Object(entry) => Some(&entry.says),
        _ => None,
    }
}

/// What the first match for a path along a chain says of a per-object option.
fn matched_option<'a>(lines: &'a [IniLine], chain: &[Text], path: &str) -> Option<&'a ObjectOption>
    ensures { option_copied result ≡ option_and_then (λ (e : EntrySaid). object_said e.meaning)
        (first_match path.now (entries_along chain.now lines.now)) }
{
    match first_match(lines, chain, path) {
        Some(entry) => object_said(&entry.meaning),
        None => None,
    }
}

/// What the first match along a chain says of the per-object option whose name ends the path. A
/// path that is no text has none.
pub fn object_for<'a>(lines: &'a [IniLine], chain: &[Text], path: &[u8]) -> Option<&'a ObjectOption>
    ensures { option_copied result ≡ object_for path.now (entries_along chain.now lines.now) }
{
    match std::str::from_utf8(path) {
        Ok(text) => matched_option(lines, chain, text),
        Err(_) => None,
    }
}
