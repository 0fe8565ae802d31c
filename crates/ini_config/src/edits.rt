//! Edits of an ini text. Each gives a new text, and leaves the old one as it was.

ghost use Rattle.std.specs.Prelude.{◌≡◌, ◌+◌, ◌<◌, ◌≤◌, ◌∷◌, ◌++◌, [], IfOk, IfErr, OnOk};
ghost use Rattle.std.specs.Prelude.{MatchOption, List, length, take, drop, nat_le};
ghost use Rattle.sim_values.specs.Limits.{max_length};
ghost use Rattle.ini_config.specs.Meaning.{IsIniText};
ghost use Rattle.ini_config.specs.Edits.{AnswersEdit, HasLines, IsEdited, Refused, RefusesBytes};
ghost use Rattle.ini_config.specs.Edits.{bytes_of, edit_with, edit_without, holds_feed, insertion};
ghost use Rattle.ini_config.specs.Edits.{is_line, is_place, removal, replacement, texts_of};
ghost use Rattle.ini_config.specs.Edits.{with_between};
ghost use Rattle.ini_trees.specs.declared.lines.IniLine.{IniLine};

use crate::error::{EditError, IniError};
use crate::parse::parse_ini;
use ini_entries::reason::Reason;
use ini_trees::lines::{IniLine, IniText};
use sim_values::text::MAX_LENGTH;
use std::alloc::{AllocError, Global};

/// The first lines, at most so many.
fn first_lines(lines: &[IniLine], count: usize) -> &[IniLine]
    ensures { result.now ≡ take count lines.now }
{
    if count < lines.len() {
        &lines[..count]
    } else {
        lines
    }
}

/// The lines after the first, of which there are at most so many.
fn lines_behind(lines: &[IniLine], count: usize) -> &[IniLine]
    ensures { result.now ≡ drop count lines.now }
{
    if count < lines.len() {
        &lines[count..]
    } else {
        &[]
    }
}

/// Whether there is a line of that number.
fn is_line(number: usize, lines: &[IniLine]) -> bool
    ensures { result ≡ is_line number lines.now }
{
    1 <= number && number <= lines.len()
}

/// Whether a line can be put before the line of that number.
fn is_place(number: usize, lines: &[IniLine]) -> bool
    ensures { result ≡ is_place number lines.now }
{
    1 <= number && number <= lines.len() + 1
}

/// Whether LF is in a text.
fn holds_feed(text: &[u8]) -> bool
    ensures { result ≡ holds_feed text.now }
{
    text.iter().any(|b| *b == b'\n')
}

/// The room that is left after a line and its LF, where they fit.
fn room_after(room: usize, line: &[u8]) -> Option<usize>
    ensures { MatchOption result (room < length line.now + 1)
        (λ left. left + (length line.now + 1) ≡ room) }
{
    if line.len() < room {
        Some(room - line.len() - 1)
    } else {
        None
    }
}

/// The room that is left after lines, each with its LF, where they fit.
fn room_behind(room: usize, lines: &[IniLine]) -> Option<usize>
    ensures { MatchOption result (room < length (bytes_of (texts_of lines.now)))
        (λ left. left + length (bytes_of (texts_of lines.now)) ≡ room) }
{
    let mut left = room;
    for line in lines {
        left = room_after(left, line.text.as_bytes())?;
    }
    Some(left)
}

/// Whether lines and more lines, each with its LF, fit into 1 MiB.
fn fit_without(before: &[IniLine], behind: &[IniLine]) -> bool
    ensures { result
        ≡ nat_le (length (bytes_of (texts_of before.now ++ texts_of behind.now))) max_length }
{
    let Some(room) = room_behind(MAX_LENGTH, before) else {
        return false;
    };
    room_behind(room, behind).is_some()
}

/// Whether lines with a text between them, each with its LF, fit into 1 MiB.
fn fit_with(before: &[IniLine], text: &[u8], behind: &[IniLine]) -> bool
    ensures { result
        ≡ nat_le (length (bytes_of (with_between before.now text.now behind.now))) max_length }
{
    let Some(room) = room_behind(MAX_LENGTH, before) else {
        return false;
    };
    let Some(room) = room_after(room, text) else {
        return false;
    };
    room_behind(room, behind).is_some()
}

/// Adds a line and its LF.
fn push_line(bytes: &mut Vec<u8>, line: &[u8]) -> Result<(), AllocError>
    ensures { OnOk result (bytes.new.items ≡ bytes.old.items ++ line.now ++ 10 ∷ []) }
{
    bytes.extend_from_slice(line)?;
    bytes.push(b'\n')?;
    Ok(())
}

/// Adds lines, each with its LF.
fn push_lines(bytes: &mut Vec<u8>, lines: &[IniLine]) -> Result<(), AllocError>
    ensures { OnOk result (bytes.new.items ≡ bytes.old.items ++ bytes_of (texts_of lines.now)) }
{
    for line in lines {
        push_line(bytes, line.text.as_bytes())?;
    }
    Ok(())
}

/// The bytes of lines with a text between them.
fn bytes_with(
    alloc: Global,
    before: &[IniLine],
    text: &[u8],
    behind: &[IniLine],
) -> Result<Vec<u8>, AllocError>
    ensures { IfOk result
        (λ bytes. bytes.items ≡ bytes_of (with_between before.now text.now behind.now)) }
{
    let mut bytes = Vec::new(alloc);
    push_lines(&mut bytes, before)?;
    push_line(&mut bytes, text)?;
    push_lines(&mut bytes, behind)?;
    Ok(bytes)
}

/// The bytes of lines and more lines.
fn bytes_without(
    alloc: Global,
    before: &[IniLine],
    behind: &[IniLine],
) -> Result<Vec<u8>, AllocError>
    ensures { IfOk result
        (λ bytes. bytes.items ≡ bytes_of (texts_of before.now ++ texts_of behind.now)) }
{
    let mut bytes = Vec::new(alloc);
    push_lines(&mut bytes, before)?;
    push_lines(&mut bytes, behind)?;
    Ok(bytes)
}

/// What changed bytes mean.
fn reread(alloc: Global, bytes: &[u8]) -> Result<IniText, EditError>
    requires { length bytes.now ≤ max_length }
    ensures accepted { IfOk result (λ text. IsIniText bytes.now text) }
    ensures complete { (lines : List IniLine)
        → IsIniText bytes.now lines
        → AnswersEdit lines result }
    ensures refused { IfErr result (λ e. RefusesBytes bytes.now e) }
{
    match parse_ini(alloc, bytes) {
        Ok(text) => Ok(text),
        Err(IniError::IniSyntax(line, why)) => Err(EditError::IniSyntax(line, why)),
        Err(IniError::TooLarge) => Err(EditError::TooLarge),
        Err(IniError::NoMemory(error)) => Err(EditError::NoMemory(error)),
    }
}

/// The text of lines with a text between them, as the line of that number, if there may be one.
fn edited_with(
    alloc: Global,
    before: &[IniLine],
    text: &[u8],
    behind: &[IniLine],
    number: usize,
    found: bool,
) -> Result<IniText, EditError>
    ensures accepted { IfOk result
        (λ edited. IsEdited (edit_with before.now text.now behind.now number found) edited) }
    ensures complete { (lines : List IniLine)
        → IsEdited (edit_with before.now text.now behind.now number found) lines
        → AnswersEdit lines result }
    ensures refused { Refused (edit_with before.now text.now behind.now number found) result }
{
    if !fit_with(before, text, behind) {
        return Err(EditError::TooLarge);
    }
    if !found {
        return Err(EditError::NoSuchLine);
    }
    if holds_feed(text) {
        return Err(EditError::IniSyntax(number, Reason::LineEnd));
    }
    let bytes = bytes_with(alloc, before, text, behind)?;
    reread(alloc, bytes.as_slice())
}

/// The text of lines and more lines, without the line of that number between them, if there is one.
fn edited_without(
    alloc: Global,
    before: &[IniLine],
    behind: &[IniLine],
    number: usize,
    found: bool,
) -> Result<IniText, EditError>
    ensures accepted { IfOk result
        (λ edited. IsEdited (edit_without before.now behind.now number found) edited) }
    ensures complete { (lines : List IniLine)
        → IsEdited (edit_without before.now behind.now number found) lines
        → AnswersEdit lines result }
    ensures refused { Refused (edit_without before.now behind.now number found) result }
{
    if !fit_without(before, behind) {
        return Err(EditError::TooLarge);
    }
    if !found {
        return Err(EditError::NoSuchLine);
    }
    let bytes = bytes_without(alloc, before, behind)?;
    reread(alloc, bytes.as_slice())
}

/// The text with a line put before the line of that number. The number after the last line adds one
/// at the end.
pub fn with_inserted(
    alloc: Global,
    ini: &IniText,
    line: usize,
    text: &[u8],
) -> Result<IniText, EditError>
    // What is made is the text with that line.
    ensures accepted { IfOk result (IsEdited (insertion line text.now ini.now)) }
    // Such a text is made, unless memory runs out.
    ensures complete { (lines : List IniLine)
        → IsEdited (insertion line text.now ini.now) lines
        → AnswersEdit lines result }
    // Its lines are those of the old text with the edit.
    ensures lines { IfOk result (HasLines ini.now (insertion line text.now ini.now)) }
    // Each refusal comes where it is due, in its order.
    ensures refused { Refused (insertion line text.now ini.now) result }
{
    let at = line.saturating_sub(1);
    let before = first_lines(ini.lines(), at);
    let behind = lines_behind(ini.lines(), at);
    let found = is_place(line, ini.lines());
    edited_with(alloc, before, text, behind, line, found)
}

/// The text with another line instead of the line of that number.
pub fn with_replaced(
    alloc: Global,
    ini: &IniText,
    line: usize,
    text: &[u8],
) -> Result<IniText, EditError>
    // What is made is the text with that line.
    ensures accepted { IfOk result (IsEdited (replacement line text.now ini.now)) }
    // Such a text is made, unless memory runs out.
    ensures complete { (lines : List IniLine)
        → IsEdited (replacement line text.now ini.now) lines
        → AnswersEdit lines result }
    // Its lines are those of the old text with the edit.
    ensures lines { IfOk result (HasLines ini.now (replacement line text.now ini.now)) }
    // Each refusal comes where it is due, in its order.
    ensures refused { Refused (replacement line text.now ini.now) result }
{
    let before = first_lines(ini.lines(), line.saturating_sub(1));
    let after = lines_behind(ini.lines(), line);
    let found = is_line(line, ini.lines());
    edited_with(alloc, before, text, after, line, found)
}

/// The text without the line of that number.
pub fn with_removed(alloc: Global, ini: &IniText, line: usize) -> Result<IniText, EditError>
    // What is made is the text without that line.
    ensures accepted { IfOk result (IsEdited (removal line ini.now)) }
    // Such a text is made, unless memory runs out.
    ensures complete { (lines : List IniLine)
        → IsEdited (removal line ini.now) lines
        → AnswersEdit lines result }
    // Its lines are those of the old text with the edit.
    ensures lines { IfOk result (HasLines ini.now (removal line ini.now)) }
    // Each refusal comes where it is due, in its order.
    ensures refused { Refused (removal line ini.now) result }
{
    let front = first_lines(ini.lines(), line.saturating_sub(1));
    let behind = lines_behind(ini.lines(), line);
    let found = is_line(line, ini.lines());
    edited_without(alloc, front, behind, line, found)
}
