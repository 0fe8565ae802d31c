//! Reading ini texts.

ghost use Rattle.std.specs.Prelude.{◌≡◌, ◌<◌, ◌||◌, ◌++◌, ◌==◌, ℕ, true, false, length, position};
ghost use Rattle.std.specs.Prelude.{if◌then◌else◌};
ghost use Rattle.std.specs.Prelude.{IfOk, IfErr, IfSome, MatchOption, MatchResult, Err, List};
ghost use Rattle.std.specs.Prelude.{is_ok};
ghost use Rattle.std.specs.List.{list_all};
ghost use Rattle.std.specs.Str.{is_utf8};
ghost use Rattle.ini_config.specs.Texts.{lines_of_ini};
ghost use Rattle.ini_entries.specs.Meaning.{Finds, is_key, is_key_byte};
ghost use Rattle.sim_values.specs.Limits.{max_length};
ghost use Rattle.ini_config.specs.Meaning.{IsIniText, IsIniLine, IsLine, IsEntry, IsNamed};
ghost use Rattle.ini_config.specs.Meaning.{IsParted, IsSection, Settles, Answers, Explains};
ghost use Rattle.ini_config.specs.Meaning.{begins_entry, ends_with, in_brackets, is_first_of_entry};
ghost use Rattle.ini_config.specs.Meaning.{is_value, may_stand, SettlesLine, IsRefused};
ghost use Rattle.ini_config.specs.Meaning.{asks_for_file, key_reason, value_reason, line_reason};
ghost use Rattle.ini_config.specs.Meaning.{place_reason, reason_no_entry};
ghost use Rattle.ini_config.specs.Texts.{begins_with};
ghost use Rattle.ini_trees.specs.Sections.{is_extends, section_behind};
ghost use Rattle.ini_trees.specs.declared.lines.IniLine.{IniLine};
ghost use Rattle.ini_trees.specs.declared.lines.LineMeaning.{LineMeaning};

use crate::error::IniError;
use crate::pieces::{first_ini_line, holds_variable, value_text};
use ini_entries::blanks::{after_blanks, before_blanks, is_blank};
use ini_entries::keys::is_key;
use ini_entries::meaning::entry_meaning;
use ini_entries::names::is_config_name;
use ini_entries::reason::{Reason, Unread};
use ini_trees::entry::EntryMeaning;
use ini_trees::lines::{IniEntry, IniLine, IniText, LineMeaning};
use sim_values::text::{MAX_LENGTH, Text};
use sqlite_items::Items;
use std::alloc::{AllocError, Global};
use std::str::from_utf8;

fn is_text(bytes: &[u8]) -> bool
    ensures { result ≡ is_utf8 bytes.now }
{
    from_utf8(bytes).is_ok()
}

#[tactic(auto, unfolding(crate::specs::Meaning::ends_with))]
fn ends_with_backslash(bytes: &[u8]) -> bool
    ensures { result ≡ ends_with 92 bytes.now }
{
    !bytes.is_empty() && bytes[bytes.len() - 1] == b'\\'
}

fn is_value(bytes: &[u8]) -> bool
    ensures { result ≡ is_value bytes.now }
{
    match bytes {
        [] => false,
        [_, ..] => is_text(bytes) && !ends_with_backslash(bytes) && !holds_variable(bytes),
    }
}

/// The place of the first `=`.
fn first_equals(line: &[u8]) -> Option<usize>
    ensures value { result ≡ position (λ b. b == 61) line.now }
    ensures within { IfSome result (λ at. at < length line.now) }
{
    line.iter().position(|b| *b == b'=')
}

/// Why a line without `=` is no entry.
fn no_entry(line: &[u8]) -> Reason
    ensures { result ≡ if asks_for_file line.now then Reason.Include else Reason.NotAnEntry }
{
    if line.starts_with(b"include ") {
        Reason::Include
    } else {
        Reason::NotAnEntry
    }
}

/// Why bytes are no key.
fn no_key(bytes: &[u8]) -> Reason
    ensures { result ≡ key_reason bytes.now }
{
    if bytes.is_empty() {
        Reason::NoKey
    } else {
        Reason::BadKey
    }
}

/// Why bytes are no value.
fn no_value(bytes: &[u8]) -> Reason
    ensures { result ≡ value_reason bytes.now }
{
    if bytes.is_empty() {
        Reason::NoValue
    } else if !is_text(bytes) {
        Reason::BadValue
    } else if ends_with_backslash(bytes) {
        Reason::Continued
    } else {
        Reason::Study
    }
}

/// The key and the value of an entry, or why a line has none.
pub fn key_and_value(line: &[u8]) -> Result<(&[u8], &[u8]), Reason>
    ensures { MatchResult result (λ parts. IsParted line.now parts.0.now parts.1.now)
        (λ why. ((key value : List ℕ) → IsParted line.now key value → ⊥)
        × (why ≡ reason_no_entry line.now)) }
{
    let Some(at) = first_equals(line) else {
        return Err(no_entry(line));
    };
    let key = before_blanks(&line[..at]);
    let value = value_text(&line[at + 1..]);
    if !is_key(key) {
        return Err(no_key(key));
    }
    if !is_value(value) {
        return Err(no_value(value));
    }
    Ok((key, value))
}

/// The entry that a line is.
fn entry(alloc: Global, line: &[u8]) -> Result<IniEntry, Unread>
    requires { begins_entry line.now ≡ true }
    ensures { Finds (IsEntry line.now) (λ why. why ≡ reason_no_entry line.now) result }
{
    let (key, value) = match key_and_value(line) {
        Ok(parts) => parts,
        Err(why) => return Err(Unread::MeansNothing(why)),
    };
    let key_text = Text::from_bytes(alloc, key)?;
    let value_text = Text::from_bytes(alloc, value)?;
    let meaning = entry_meaning(alloc, key, value)?;
    Ok(IniEntry {
        key: key_text,
        value: value_text,
        meaning,
    })
}

/// Whether a byte is no blank, and begins no comment.
fn is_first_of_entry(byte: u8) -> bool
    ensures { result ≡ is_first_of_entry byte }
{
    !is_blank(byte) && byte != b'#'
}

/// Whether the first byte is such a byte.
fn begins_entry(line: &[u8]) -> bool
    ensures { result ≡ begins_entry line.now }
{
    match line {
        [] => false,
        [first, ..] => is_first_of_entry(*first),
    }
}

/// What a line means that is blank, indented or a comment.
fn blank_or_comment(line: &[u8]) -> Result<LineMeaning, Unread>
    requires { begins_entry line.now ≡ false }
    ensures { Finds (IsLine line.now) (λ why. why ≡ line_reason line.now) result }
{
    match after_blanks(line) {
        [] => Ok(LineMeaning::Blank),
        [b'#', ..] => Ok(LineMeaning::Comment),
        _ => Err(Unread::MeansNothing(Reason::Indented)),
    }
}

/// What stands between the brackets that a line begins and ends with.
fn in_brackets(line: &[u8]) -> Option<&[u8]>
    ensures { MatchOption result ((inner : List ℕ) → line.now ≡ in_brackets inner
        → ⊥) (λ inner. line.now ≡ in_brackets inner.now) }
{
    match line.strip_prefix(b"[".as_slice()) {
        None => None,
        Some(rest) => rest.strip_suffix(b"]".as_slice()),
    }
}

/// The text without the word `Config` and a blank at its front.
fn without_config(inner: &[u8]) -> &[u8]
    ensures { IsNamed inner.now result.now }
{
    match inner.strip_prefix(b"Config ".as_slice()) {
        None => inner,
        Some(name) => name,
    }
}

/// The name of the section that a line is.
fn section_name(line: &[u8]) -> Option<&[u8]>
    ensures { MatchOption result ((name : List ℕ) → IsSection line.now name
        → ⊥) (λ name. IsSection line.now name.now) }
{
    let Some(inner) = in_brackets(line) else {
        return None;
    };
    let name = without_config(inner);
    if is_config_name(name) {
        Some(name)
    } else {
        None
    }
}

/// Why a line is neither a section nor an entry, where it is no entry for that reason.
fn neither(line: &[u8], why: Reason) -> Reason
    ensures { result ≡ if begins_with 91 line.now then Reason.NotASection else why }
{
    if line.starts_with(b"[") {
        Reason::NotASection
    } else {
        why
    }
}

/// What a line means that is a section or an entry.
fn section_or_entry(alloc: Global, line: &[u8]) -> Result<LineMeaning, Unread>
    requires { begins_entry line.now ≡ true }
    ensures { Finds (IsLine line.now) (λ why. why ≡ line_reason line.now) result }
{
    if let Some(name) = section_name(line) {
        return Ok(LineMeaning::Section(Text::from_bytes(alloc, name)?));
    }
    match entry(alloc, line) {
        Ok(entry) => Ok(LineMeaning::Entry(entry)),
        Err(Unread::MeansNothing(why)) => Err(Unread::MeansNothing(neither(line, why))),
        Err(Unread::NoMemory(error)) => Err(Unread::NoMemory(error)),
    }
}

/// What a line means.
fn line_meaning(alloc: Global, line: &[u8]) -> Result<LineMeaning, Unread>
    ensures { Finds (IsLine line.now) (λ why. why ≡ line_reason line.now) result }
{
    if begins_entry(line) {
        section_or_entry(alloc, line)
    } else {
        blank_or_comment(line)
    }
}

/// The section that the lines after a line stand in, where this line stands in `section` and means
/// something.
fn section_after(
    alloc: Global,
    section: Option<Text>,
    line: &[u8],
) -> Result<Option<Text>, AllocError>
    ensures { (meaning : LineMeaning) → IsLine line.now meaning
        → IfOk result (λ behind. behind ≡ section_behind section meaning) }
{
    match section_name(line) {
        Some(name) => Ok(Some(Text::from_bytes(alloc, name)?)),
        None => Ok(section),
    }
}

/// Whether an entry says what a configuration extends.
fn is_extends(meaning: &EntryMeaning) -> bool
    ensures { result ≡ is_extends meaning.now }
{
    matches!(meaning, EntryMeaning::Extends(_))
}

/// Whether a line of that meaning may stand here: an entry stands in a section, and General extends
/// nothing.
fn may_stand(section: &Option<Text>, line: &LineMeaning) -> Result<(), Reason>
    ensures allowed { is_ok result ≡ may_stand section.now line.now }
    ensures reason { IfErr result (λ why. why ≡ place_reason section.now) }
{
    match (section, line) {
        (None, LineMeaning::Entry(_)) => Err(Reason::BeforeSection),
        (Some(name), LineMeaning::Entry(entry)) => {
            if name.is(b"General") && is_extends(&entry.meaning) {
                Err(Reason::GeneralExtends)
            } else {
                Ok(())
            }
        }
        _ => Ok(()),
    }
}

/// A line.
fn ini_line(alloc: Global, section: &Option<Text>, line: &[u8]) -> Result<IniLine, Unread>
    ensures { Finds (IsIniLine section.now line.now) (IsRefused section.now line.now) result }
{
    let text = Text::from_bytes(alloc, line)?;
    let meaning = line_meaning(alloc, line)?;
    match may_stand(section, &meaning) {
        Ok(()) => Ok(IniLine { text, meaning }),
        Err(why) => Err(Unread::MeansNothing(why)),
    }
}

/// Reads the line of that number, which stands in this section, after those that were read.
fn push_ini_line(
    alloc: Global,
    lines: &mut Items<IniLine>,
    section: &Option<Text>,
    line: &[u8],
    number: usize,
) -> Result<(), IniError>
    ensures { SettlesLine section.now line.now number lines.old lines.new result }
{
    match ini_line(alloc, section, line) {
        Ok(read) => {
            lines.push(read)?;
            Ok(())
        }
        Err(Unread::MeansNothing(why)) => Err(IniError::IniSyntax(number, why)),
        Err(Unread::NoMemory(error)) => Err(IniError::NoMemory(error)),
    }
}

/// The lines of a text.
fn read(alloc: Global, bytes: &[u8]) -> Result<Items<IniLine>, IniError>
    ensures { Settles (lines_of_ini bytes.now) result }
{
    let mut lines = Items::new(alloc);
    let mut rest = bytes;
    let mut number: usize = 1;
    let mut section = None;
    'lines: while !rest.is_empty() {
        let (line, after) = first_ini_line(rest);
        push_ini_line(alloc, &mut lines, &section, line, number)?;
        section = section_after(alloc, section, line)?;
        rest = after;
        number += 1;
    }
    Ok(lines)
}

/// The lines of an ini text (OMNeT++ Simulation Manual, "Ini Files").
pub fn parse_ini(alloc: Global, bytes: &[u8]) -> Result<IniText, IniError>
    // What is read is what the text says.
    ensures accepted { IfOk result (λ text. IsIniText bytes.now text) }
    // What the text says is read, unless memory runs out.
    ensures complete { (lines : List IniLine) → IsIniText bytes.now lines → Answers lines result }
    // Each refusal has its reason, which is that of the line where it stands.
    ensures refused { IfErr result (λ e. Explains bytes.now e) }
    ensures large { max_length < length bytes.now → result ≡ Err IniError.TooLarge }
{
    if bytes.len() > MAX_LENGTH {
        return Err(IniError::TooLarge);
    }
    Ok(IniText::of_lines(read(alloc, bytes)?))
}
