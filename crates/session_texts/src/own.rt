//! The program's own commands: a session knows none of them, and they change nothing of it.

use desk_commands::numbers::number_of;
use explain_types::names::shown;
use sim_values::text::{Text, spells};
use std::alloc::{AllocError, Global};

/// A command of the program's own.
#[derive(Drop)]
pub enum Own {
    /// `help`: lists the commands.
    Help,
    /// `configs`: lists the sections of the ini text.
    Configs,
    /// `ini list [FROM [TO]]`: lists the lines of the ini text from one number to another.
    List(u64, u64),
    /// `undo`, where nothing takes the last edit back.
    Undo,
    /// `ini save PATH`: writes the ini text to the file of that path.
    Save(Text),
}

/// The numbers of the first and the last line that are listed, of what stands after `ini list`.
fn range_of(rest: &str) -> Option<(u64, u64)> {
    if rest.is_empty() {
        return Some((1, u64::MAX));
    }
    let words = rest.strip_prefix(" ")?;
    match words.split_once(' ') {
        Some((from, to)) => Some((number_of(from.as_bytes())?, number_of(to.as_bytes())?)),
        None => Some((number_of(words.as_bytes())?, u64::MAX)),
    }
}

/// The command of `list [FROM [TO]]` or `save PATH`, after `ini `.
fn own_of_ini(alloc: Global, rest: &str) -> Result<Option<Own>, AllocError> {
    if let Some(path) = rest.strip_prefix("save ") {
        if path.is_empty() {
            return Ok(None);
        }
        return Ok(Some(Own::Save(Text::from_str(alloc, path)?)));
    }
    match rest.strip_prefix("list") {
        Some(range) => match range_of(range) {
            Some((from, to)) => Ok(Some(Own::List(from, to))),
            None => Ok(None),
        },
        None => Ok(None),
    }
}

/// The program's own command that a line is.
pub fn own_of(alloc: Global, line: &[u8]) -> Result<Option<Own>, AllocError> {
    if spells(line, b"help") {
        return Ok(Some(Own::Help));
    }
    if spells(line, b"undo") {
        return Ok(Some(Own::Undo));
    }
    if spells(line, b"configs") {
        return Ok(Some(Own::Configs));
    }
    match shown(line).strip_prefix("ini ") {
        Some(rest) => own_of_ini(alloc, rest),
        None => Ok(None),
    }
}
