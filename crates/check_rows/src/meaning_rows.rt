//! What a line means after the line `[A]`.

use crate::ini_rows::ini_text;
use crate::pattern_rows::tell_matching;
use crate::telling::Telling;
use crate::tree_rows::tell_tree;
use crate::words::{tell_names, written};
use ini_pattern::Pattern;
use ini_trees::entry::{EntryMeaning, EntryValue};
use ini_trees::lines::{IniEntry, IniLine, LineMeaning};
use ned_trees::expressions::Expression;
use sim_values::text::Text;
use std::alloc::Global;

/// Tells the configurations that an entry extends.
fn tell_extends(told: &mut Telling, names: &[Text]) {
    told.text("extends ");
    tell_names(told, names)
}

/// Tells the value of an entry.
pub fn tell_given(told: &mut Telling, value: &EntryValue) {
    match value {
        EntryValue::Default => told.text("Default"),
        EntryValue::Given(Expression::Literal(value)) => {
            told.text("Given(Literal(");
            told.raw(value);
            told.text("))");
        }
        EntryValue::Given(expression) => tell_tree(told, expression),
    }
}

/// Tells the value of an entry, and what it is for.
fn tell_entry_value(told: &mut Telling, word: &str, value: &EntryValue) {
    told.text(word);
    told.text(" ");
    tell_given(told, value)
}

/// Tells a name, and what it names.
fn tell_named(told: &mut Telling, word: &str, name: &Text) {
    told.text(word);
    told.text(written(name));
}

/// Tells what an entry says.
fn tell_said(told: &mut Telling, meaning: &EntryMeaning) {
    match meaning {
        EntryMeaning::Network(name) => tell_named(told, "network ", name),
        EntryMeaning::Extends(names) => tell_extends(told, names.as_slice()),
        EntryMeaning::Object(it) => {
            told.text(written(&it.option));
            told.text(" ");
            told.raw(&it.says);
        }
        EntryMeaning::Type(it) => tell_entry_value(told, "type", &it.value),
        EntryMeaning::Parameter(it) => tell_entry_value(told, "parameter", &it.value),
        EntryMeaning::TimeLimit(ps) => {
            told.text("TimeLimit(");
            told.shown(ps);
            told.text(")");
        }
        EntryMeaning::Other => told.text("Other"),
    }
}

/// Tells the key and the value of an entry, and what it says.
fn tell_entry(told: &mut Telling, entry: &IniEntry) {
    told.text(written(&entry.key));
    told.text(" = ");
    told.text(written(&entry.value));
    told.text(": ");
    tell_said(told, &entry.meaning)
}

/// Tells what a line is.
fn tell_line(told: &mut Telling, line: &IniLine) {
    match &line.meaning {
        LineMeaning::Blank => told.text("blank"),
        LineMeaning::Comment => told.text("comment"),
        LineMeaning::Section(name) => tell_named(told, "section ", name),
        LineMeaning::Entry(entry) => tell_entry(told, entry),
    }
}

/// Tells what the second line is of a text of two.
fn tell_second(told: &mut Telling, lines: &[IniLine]) {
    match lines {
        [_, line] => tell_line(told, line),
        _ => told.text("not one line"),
    }
}

/// Tells what a line means.
pub fn tell_meaning(alloc: Global, told: &mut Telling, row: &str) {
    match ini_text(alloc, told, b"[A]\n", row) {
        Ok(text) => tell_second(told, text.lines()),
        Err(refusal) => told.raw(&refusal),
    }
}

/// The pattern of an entry that has one.
fn pattern_said(meaning: &EntryMeaning) -> Option<&Pattern> {
    match meaning {
        EntryMeaning::Object(it) => Some(&it.pattern),
        EntryMeaning::Type(it) | EntryMeaning::Parameter(it) => Some(&it.pattern),
        _ => None,
    }
}

/// The pattern of the second line of two, where that is an entry that has one.
fn second_pattern(lines: &[IniLine]) -> Option<&Pattern> {
    let [_, line] = lines else {
        return None;
    };
    match &line.meaning {
        LineMeaning::Entry(entry) => pattern_said(&entry.meaning),
        _ => None,
    }
}

/// Tells whether the pattern of the second line matches a path.
fn tell_second_pattern(alloc: Global, told: &mut Telling, lines: &[IniLine], path: &str) {
    match second_pattern(lines) {
        Some(pattern) => tell_matching(alloc, told, pattern, path),
        None => told.text("no pattern"),
    }
}

/// Tells whether the pattern of a line that is an entry matches a path.
pub fn tell_entry_pattern(alloc: Global, told: &mut Telling, path: &str, row: &str) {
    match ini_text(alloc, told, b"[A]\n", row) {
        Ok(text) => tell_second_pattern(alloc, told, text.lines(), path),
        Err(refusal) => told.raw(&refusal),
    }
}
