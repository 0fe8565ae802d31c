//! What becomes of edits of ini texts.

use crate::escapes::{number, parted, unescaped};
use crate::ini_rows::{ini_text, tell_lines};
use crate::telling::Telling;
use ini_config::edits::{with_inserted, with_removed, with_replaced};
use ini_config::error::EditError;
use ini_trees::lines::IniText;
use std::alloc::Global;

/// The text that an edit gives. The edit is a word and the number of a line.
fn edited(alloc: Global, text: &IniText, edit: &str, given: &[u8]) -> Result<IniText, EditError> {
    match parted(edit, ' ') {
        ("insert", line) => with_inserted(alloc, text, number(line), given),
        ("replace", line) => with_replaced(alloc, text, number(line), given),
        (_, line) => with_removed(alloc, text, number(line)),
    }
}

/// Tells the lines of the text that an edit gives, or why it gives none.
fn tell_edited(alloc: Global, told: &mut Telling, text: &IniText, edit: &str, given: &[u8]) {
    match edited(alloc, text, edit, given) {
        Ok(edited) => tell_lines(told, &edited),
        Err(refusal) => {
            told.raw(&refusal);
            told.text(" ");
        }
    }
}

/// Tells what an edit gives, and the lines that the old text has then.
fn tell_both(alloc: Global, told: &mut Telling, text: &IniText, edit: &str, given: &[u8]) {
    tell_edited(alloc, told, text, edit, given);
    told.text("of ");
    tell_lines(told, text)
}

/// Tells what becomes of an edit of the ini text that a row writes.
fn tell_of_text(alloc: Global, told: &mut Telling, edit: &str, given: &[u8], row: &str) {
    match ini_text(alloc, told, b"", row) {
        Ok(text) => tell_both(alloc, told, &text, edit, given),
        Err(refusal) => told.raw(&refusal),
    }
}

/// Tells what becomes of an edit. After the edit come the line that it gives and the ini text.
pub fn tell_edit(alloc: Global, told: &mut Telling, edit: &str, rest: &str) {
    let (given, text) = parted(rest, '|');
    let given = unescaped(alloc, told, given);
    tell_of_text(alloc, told, edit, given.as_slice(), text)
}
