//! Whether a line is one of an ini text, after the line of a section.

ghost use Rattle.std.specs.Prelude.{◌≡◌, ◌++◌, true, false, codes, IfOk, List};
ghost use Rattle.ini_config.specs.Meaning.{IsIniText};
ghost use Rattle.ini_trees.specs.declared.lines.IniLine.{IniLine};

use crate::telling::Telling;
use ini_config::error::IniError;
use ini_config::parse::parse_ini;
use std::alloc::Global;

/// Whether a text is an ini text. An error where it is too long, or memory ran out.
fn is_read(alloc: Global, text: &[u8]) -> Result<bool, IniError>
    ensures read { IfOk result
        (λ is. is ≡ true → (lines : List IniLine) × IsIniText text.now lines) }
    ensures refused { IfOk result
        (λ is. is ≡ false → (lines : List IniLine) → IsIniText text.now lines → ⊥) }
{
    match parse_ini(alloc, text) {
        Ok(_) => Ok(true),
        Err(IniError::IniSyntax(_, _)) => Ok(false),
        Err(fault) => Err(fault),
    }
}

/// Tells whether a text is an ini text.
fn tell_whether(alloc: Global, told: &mut Telling, text: &[u8]) {
    match is_read(alloc, text) {
        Ok(true) => told.text("read"),
        Ok(false) => told.text("refused"),
        Err(fault) => told.raw(&fault),
    }
}

/// Tells whether a line means something that stands after the line `[General]`.
pub fn tell_line(alloc: Global, told: &mut Telling, line: &str) {
    match format!(in alloc; "[General]\n{line}") {
        Ok(text) => tell_whether(alloc, told, text.as_bytes()),
        Err(error) => told.fail(error),
    }
}
