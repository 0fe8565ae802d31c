//! Which sections make a configuration, and which of their entries counts.

use crate::escapes::{parted, unescaped};
use crate::ini_rows::ini_text;
use crate::meaning_rows::tell_given;
use crate::telling::Telling;
use crate::words::{tell_names, text_of, written};
use ini_trees::entries::{first_match, network_entry, time_limit_entry, value_for};
use ini_trees::lines::{IniLine, IniText};
use sim_values::text::Text;
use std::alloc::Global;

/// Tells the network that a chain names, if it names one.
fn tell_network(told: &mut Telling, lines: &[IniLine], chain: &[Text]) {
    match network_entry(lines, chain) {
        Some(name) => told.text(text_of(name)),
        None => told.text("none"),
    }
}

/// Tells the time limit of a chain.
fn tell_limit(told: &mut Telling, lines: &[IniLine], chain: &[Text]) {
    let limit = time_limit_entry(lines, chain);
    told.raw(&limit);
}

/// Tells the value that a chain gives for a path.
fn tell_value(alloc: Global, told: &mut Telling, lines: &[IniLine], chain: &[Text], path: &str) {
    let path = unescaped(alloc, told, path);
    match value_for(lines, chain, path.as_slice()) {
        None => told.text("None"),
        Some(value) => {
            told.text("Some(");
            tell_given(told, value);
            told.text(")");
        }
    }
}

/// Tells the first match for a path along a chain, if there is one.
fn tell_match(told: &mut Telling, lines: &[IniLine], chain: &[Text], path: &str) {
    match first_match(lines, chain, path) {
        Some(entry) => {
            told.text(written(&entry.key));
            told.text(" = ");
            told.text(written(&entry.value));
        }
        None => told.text("none"),
    }
}

/// Tells what a chain says to a question.
fn tell_asked(alloc: Global, told: &mut Telling, lines: &[IniLine], chain: &[Text], asked: &str) {
    match parted(asked, ' ') {
        ("chain", _) => tell_names(told, chain),
        ("network", _) => tell_network(told, lines, chain),
        ("limit", _) => tell_limit(told, lines, chain),
        ("value", path) => tell_value(alloc, told, lines, chain, path),
        (_, path) => tell_match(told, lines, chain, path),
    }
}

/// Tells what a configuration of a text says to a question, or why it is none.
fn tell_of_text(alloc: Global, told: &mut Telling, text: &IniText, config: &str, asked: &str) {
    match text.chain(alloc, config.as_bytes()) {
        Ok(chain) => tell_asked(alloc, told, text.lines(), chain.as_slice(), asked),
        Err(refusal) => told.raw(&refusal),
    }
}

/// Tells what a configuration says to a question. After the question come the configuration's name
/// and the ini text.
pub fn tell_configuration(alloc: Global, told: &mut Telling, asked: &str, rest: &str) {
    let (config, text) = parted(rest, '|');
    match ini_text(alloc, told, b"", text) {
        Ok(text) => tell_of_text(alloc, told, &text, config, asked),
        Err(refusal) => told.raw(&refusal),
    }
}
