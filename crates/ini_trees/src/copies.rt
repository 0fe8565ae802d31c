//! Copies of ini texts, and of what their entries say.

ghost use Rattle.std.specs.Prelude.{◌≡◌, IfOk};

use crate::entry::{EntryMeaning, EntryValue, ModeItem, ObjectEntry, ObjectOption, ParameterEntry};
use crate::lines::{IniEntry, IniLine, IniText, LineMeaning};
use sim_values::text::Text;
use sqlite_items::Items;
use std::alloc::{AllocError, Global};

/// An equal value of an entry.
fn copy_value(alloc: Global, value: &EntryValue) -> Result<EntryValue, AllocError>
    ensures { IfOk result (λ copy. copy ≡ value.now) }
{
    match value {
        EntryValue::Default => Ok(EntryValue::Default),
        EntryValue::Given(expression) => Ok(EntryValue::Given(expression.copy(alloc)?)),
    }
}

/// An equal value of a pattern.
fn copy_parameter(alloc: Global, entry: &ParameterEntry) -> Result<ParameterEntry, AllocError>
    ensures { IfOk result (λ copy. copy ≡ entry.now) }
{
    Ok(ParameterEntry {
        pattern: entry.pattern.copy(alloc)?,
        value: copy_value(alloc, &entry.value)?,
    })
}

/// Equal recording modes.
fn copy_items(alloc: Global, items: &[ModeItem]) -> Result<Items<ModeItem>, AllocError>
    ensures { IfOk result (λ copy. copy ≡ items.now) }
{
    let mut copy = Items::new(alloc);
    for item in items {
        copy.push(*item)?;
    }
    Ok(copy)
}

/// An equal saying of an option.
fn copy_option(alloc: Global, option: &ObjectOption) -> Result<ObjectOption, AllocError>
    ensures { IfOk result (λ copy. copy ≡ option.now) }
{
    match option {
        ObjectOption::Modes(items) => Ok(ObjectOption::Modes(copy_items(alloc, items.as_slice())?)),
        ObjectOption::Recording(on) => Ok(ObjectOption::Recording(*on)),
        ObjectOption::Other => Ok(ObjectOption::Other),
    }
}

/// An equal per-object option.
fn copy_object(alloc: Global, entry: &ObjectEntry) -> Result<ObjectEntry, AllocError>
    ensures { IfOk result (λ copy. copy ≡ entry.now) }
{
    Ok(ObjectEntry {
        pattern: entry.pattern.copy(alloc)?,
        option: entry.option.copy(alloc)?,
        says: copy_option(alloc, &entry.says)?,
    })
}

/// Equal names.
pub fn copy_names(alloc: Global, names: &[Text]) -> Result<Items<Text>, AllocError>
    ensures { IfOk result (λ copy. copy ≡ names.now) }
{
    let mut copy = Items::new(alloc);
    for name in names {
        copy.push(name.copy(alloc)?)?;
    }
    Ok(copy)
}

impl EntryMeaning {
    /// An equal meaning.
    pub fn copy(&self, alloc: Global) -> Result<EntryMeaning, AllocError>
        ensures { IfOk result (λ copy. copy ≡ self.now) }
    {
        match self {
            EntryMeaning::Network(name) => Ok(EntryMeaning::Network(name.copy(alloc)?)),
            EntryMeaning::Extends(names) => {
                Ok(EntryMeaning::Extends(copy_names(alloc, names.as_slice())?))
            }
            EntryMeaning::TimeLimit(ps) => Ok(EntryMeaning::TimeLimit(*ps)),
            EntryMeaning::Other => Ok(EntryMeaning::Other),
            EntryMeaning::Object(entry) => Ok(EntryMeaning::Object(copy_object(alloc, entry)?)),
            EntryMeaning::Type(entry) => Ok(EntryMeaning::Type(copy_parameter(alloc, entry)?)),
            EntryMeaning::Parameter(entry) => {
                Ok(EntryMeaning::Parameter(copy_parameter(alloc, entry)?))
            }
        }
    }
}

/// An equal entry.
fn copy_entry(alloc: Global, entry: &IniEntry) -> Result<IniEntry, AllocError>
    ensures { IfOk result (λ copy. copy ≡ entry.now) }
{
    Ok(IniEntry {
        key: entry.key.copy(alloc)?,
        value: entry.value.copy(alloc)?,
        meaning: entry.meaning.copy(alloc)?,
    })
}

/// An equal meaning of a line.
fn copy_line_meaning(alloc: Global, meaning: &LineMeaning) -> Result<LineMeaning, AllocError>
    ensures { IfOk result (λ copy. copy ≡ meaning.now) }
{
    match meaning {
        LineMeaning::Blank => Ok(LineMeaning::Blank),
        LineMeaning::Comment => Ok(LineMeaning::Comment),
        LineMeaning::Section(name) => Ok(LineMeaning::Section(name.copy(alloc)?)),
        LineMeaning::Entry(entry) => Ok(LineMeaning::Entry(copy_entry(alloc, entry)?)),
    }
}

/// An equal line.
fn copy_line(alloc: Global, line: &IniLine) -> Result<IniLine, AllocError>
    ensures { IfOk result (λ copy. copy ≡ line.now) }
{
    Ok(IniLine {
        text: line.text.copy(alloc)?,
        meaning: copy_line_meaning(alloc, &line.meaning)?,
    })
}

impl IniText {
    /// An equal text.
    pub fn copy(&self, alloc: Global) -> Result<IniText, AllocError>
        ensures { IfOk result (λ copy. copy ≡ self.now) }
    {
        let mut lines = Items::new(alloc);
        for line in self.lines() {
            lines.push(copy_line(alloc, line)?)?;
        }
        Ok(IniText::of_lines(lines))
    }
}
