//! What becomes of ini texts, and what their lines are.

use crate::escapes::unescaped_behind;
use crate::telling::Telling;
use crate::words::text_of;
use ini_config::error::IniError;
use ini_config::parse::parse_ini;
use ini_trees::lines::IniText;
use std::alloc::Global;

/// The ini text that a row writes, after a head.
pub fn ini_text(
    alloc: Global,
    told: &mut Telling,
    head: &[u8],
    row: &str,
) -> Result<IniText, IniError> {
    let text = unescaped_behind(alloc, told, head, row);
    parse_ini(alloc, text.as_slice())
}

/// Tells whether a text is an ini text, or why it is none.
pub fn tell_text(alloc: Global, told: &mut Telling, row: &str) {
    match ini_text(alloc, told, b"", row) {
        Ok(_) => told.text("read"),
        Err(refusal) => told.raw(&refusal),
    }
}

/// Tells a line, or how long it is.
fn tell_line(told: &mut Telling, line: &[u8]) {
    if line.len() < 100 {
        told.raw(&text_of(line));
        told.text(" ");
    } else {
        told.shown(&line.len());
        told.text(" bytes ");
    }
}

/// Tells the lines of a text, each in quotes and with a blank after it.
pub fn tell_lines(told: &mut Telling, text: &IniText) {
    for line in text.lines() {
        tell_line(told, line.text.as_bytes());
    }
}

/// Tells the lines of a text's copy.
fn tell_copy(alloc: Global, told: &mut Telling, text: &IniText) {
    match text.copy(alloc) {
        Ok(copy) => tell_lines(told, &copy),
        Err(error) => told.fail(error),
    }
}

/// Tells the lines of a text, and those of its copy.
fn tell_both(alloc: Global, told: &mut Telling, text: &IniText) {
    tell_lines(told, text);
    told.text("and ");
    tell_copy(alloc, told, text)
}

/// Tells the lines of the text that a row writes, and those of its copy.
pub fn tell_copied(alloc: Global, told: &mut Telling, row: &str) {
    match ini_text(alloc, told, b"", row) {
        Ok(text) => tell_both(alloc, told, &text),
        Err(refusal) => told.raw(&refusal),
    }
}
