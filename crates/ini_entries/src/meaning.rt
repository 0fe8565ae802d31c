//! What an entry says, by its key and its value.

ghost use Rattle.std.specs.Prelude.{◌≡◌, true, false, Some, is_some, IfOk};
ghost use Rattle.std.specs.Str.{chars};
ghost use Rattle.ini_pattern.specs.PatternOf.{pattern_of};
ghost use Rattle.ini_entries.specs.Keys.{ObjectKey, OptionKey, ParameterKey, TypeKey, kind_of};
ghost use Rattle.ini_entries.specs.Keys.{last_part};
ghost use Rattle.ini_entries.specs.Meaning.{Finds, FindsMeaning, IsEntryValue, IsPatternAndValue};
ghost use Rattle.ini_entries.specs.Meaning.{Tells, is_key};
ghost use Rattle.ini_entries.specs.Options as options;
ghost use Rattle.ini_entries.specs.Reasons.{pattern_reason};
ghost use Rattle.ini_entries.specs.Texts.{is_among};

use crate::constants::is_constant;
use crate::keys::{has_hyphen, last_part};
use crate::names::is_dotted_name;
use crate::options::{config_names, is_other_option, object_option, refused_option, time_limit};
use crate::reason::{Reason, Unread};
use ini_pattern::{Pattern, PatternFault};
use ini_trees::entry::{EntryMeaning, EntryValue, ObjectEntry, ParameterEntry};
use ned_expressions::parse::parse_expression;
use ned_leaves::error::NedError;
use sim_values::text::{Text, spells};
use std::alloc::{AllocError, Global};
use std::str::from_utf8;

/// The pattern that a key is.
fn key_pattern(alloc: Global, key: &[u8]) -> Result<Option<Pattern>, AllocError>
    requires { is_key key.now ≡ true }
    ensures { IfOk result (λ found. found ≡ pattern_of (chars key.now)) }
{
    let Ok(text) = from_utf8(key) else {
        return Ok(None);
    };
    match Pattern::parse(alloc, text) {
        Ok(pattern) => Ok(Some(pattern)),
        Err(PatternFault::BadPattern) => Ok(None),
        Err(PatternFault::NoMemory(error)) => Err(error.error()),
    }
}

/// Whether a key is a pattern.
fn is_pattern(alloc: Global, key: &[u8]) -> Result<bool, AllocError>
    requires { is_key key.now ≡ true }
    ensures { IfOk result (λ is. is ≡ is_some (pattern_of (chars key.now))) }
{
    Ok(key_pattern(alloc, key)?.is_some())
}

/// The value that an entry gives a parameter: `default`, or a constant expression.
fn entry_value(alloc: Global, bytes: &[u8]) -> Result<Option<EntryValue>, AllocError>
    ensures { IfOk result (λ found. Tells (IsEntryValue bytes.now) found) }
{
    if spells(bytes, b"default") {
        return Ok(Some(EntryValue::Default));
    }
    match parse_expression(alloc, bytes) {
        Ok(expression) if is_constant(&expression) => Ok(Some(EntryValue::Given(expression))),
        Ok(_) => Ok(None),
        Err(NedError::NoMemory(error)) => Err(error.error()),
        Err(_) => Ok(None),
    }
}

// ---- options

/// What the option `network` says.
fn network_meaning(alloc: Global, value: &[u8]) -> Result<EntryMeaning, Unread>
    ensures { FindsMeaning options.word_network value.now result }
{
    if is_dotted_name(value) {
        Ok(EntryMeaning::Network(Text::from_bytes(alloc, value)?))
    } else {
        Err(Unread::MeansNothing(Reason::NotANetwork))
    }
}

/// What the option `extends` says.
fn extends_meaning(alloc: Global, value: &[u8]) -> Result<EntryMeaning, Unread>
    ensures { FindsMeaning options.word_extends value.now result }
{
    match config_names(alloc, value)? {
        None => Err(Unread::MeansNothing(Reason::NotConfigurations)),
        Some(names) => Ok(EntryMeaning::Extends(names)),
    }
}

/// What the option `sim-time-limit` says.
fn limit_meaning(alloc: Global, value: &[u8]) -> Result<EntryMeaning, Unread>
    ensures { FindsMeaning options.word_time_limit value.now result }
{
    match time_limit(alloc, value)? {
        None => Err(Unread::MeansNothing(Reason::NotATime)),
        Some(ps) => Ok(EntryMeaning::TimeLimit(ps)),
    }
}

/// What an option without effect says.
fn other_meaning(alloc: Global, key: &[u8], value: &[u8]) -> Result<EntryMeaning, Unread>
    requires proper { is_key key.now ≡ true }
    requires kind { kind_of key.now ≡ OptionKey }
    requires other { is_among key.now options.words_with_effect ≡ false }
    ensures { FindsMeaning key.now value.now result }
{
    if !is_other_option(key, value) {
        return Err(Unread::MeansNothing(refused_option(key)));
    }
    if !is_pattern(alloc, key)? {
        return Err(Unread::MeansNothing(Reason::BadPattern));
    }
    Ok(EntryMeaning::Other)
}

// ---- entries of patterns

/// What a per-object option of that name says.
fn object_meaning(
    alloc: Global,
    key: &[u8],
    name: &[u8],
    value: &[u8],
) -> Result<EntryMeaning, Unread>
    requires proper { is_key key.now ≡ true }
    requires kind { kind_of key.now ≡ ObjectKey name.now }
    ensures { FindsMeaning key.now value.now result }
{
    let Some(pattern) = key_pattern(alloc, key)? else {
        return Err(Unread::MeansNothing(Reason::BadPattern));
    };
    let says = object_option(alloc, name, value)?;
    let option = Text::from_bytes(alloc, name)?;
    Ok(EntryMeaning::Object(ObjectEntry {
        pattern,
        option,
        says,
    }))
}

/// The pattern of a key, and a value.
fn pattern_and_value(alloc: Global, key: &[u8], value: &[u8]) -> Result<ParameterEntry, Unread>
    requires { is_key key.now ≡ true }
    ensures { Finds (IsPatternAndValue key.now value.now)
        (λ why. why ≡ pattern_reason key.now Reason.BadExpression) result }
{
    let Some(pattern) = key_pattern(alloc, key)? else {
        return Err(Unread::MeansNothing(Reason::BadPattern));
    };
    let Some(value) = entry_value(alloc, value)? else {
        return Err(Unread::MeansNothing(Reason::BadExpression));
    };
    Ok(ParameterEntry { pattern, value })
}

/// What an entry for the types of submodules says.
fn type_meaning(alloc: Global, key: &[u8], value: &[u8]) -> Result<EntryMeaning, Unread>
    requires proper { is_key key.now ≡ true }
    requires kind { kind_of key.now ≡ TypeKey }
    ensures { FindsMeaning key.now value.now result }
{
    Ok(EntryMeaning::Type(pattern_and_value(alloc, key, value)?))
}

/// What an entry for parameters says.
fn parameter_meaning(alloc: Global, key: &[u8], value: &[u8]) -> Result<EntryMeaning, Unread>
    requires proper { is_key key.now ≡ true }
    requires kind { kind_of key.now ≡ ParameterKey }
    ensures { FindsMeaning key.now value.now result }
{
    Ok(EntryMeaning::Parameter(pattern_and_value(alloc, key, value)?))
}

/// What an entry says whose key has this last part.
fn part_meaning(
    alloc: Global,
    key: &[u8],
    part: &[u8],
    value: &[u8],
) -> Result<EntryMeaning, Unread>
    requires proper { is_key key.now ≡ true }
    requires part { last_part key.now ≡ Some part.now }
    ensures { FindsMeaning key.now value.now result }
{
    if has_hyphen(part) {
        object_meaning(alloc, key, part, value)
    } else if spells(part, b"typename") {
        type_meaning(alloc, key, value)
    } else {
        parameter_meaning(alloc, key, value)
    }
}

/// What an entry says, other than one of an option with effect.
fn kind_meaning(alloc: Global, key: &[u8], value: &[u8]) -> Result<EntryMeaning, Unread>
    requires proper { is_key key.now ≡ true }
    requires other { is_among key.now options.words_with_effect ≡ false }
    ensures { FindsMeaning key.now value.now result }
{
    match last_part(key) {
        None => other_meaning(alloc, key, value),
        Some(part) => part_meaning(alloc, key, part, value),
    }
}

/// What an entry says.
#[tactic(auto, unfolding(crate::specs::Texts::is_among))]
pub fn entry_meaning(alloc: Global, key: &[u8], value: &[u8]) -> Result<EntryMeaning, Unread>
    requires { is_key key.now ≡ true }
    ensures { FindsMeaning key.now value.now result }
{
    if spells(key, b"network") {
        network_meaning(alloc, value)
    } else if spells(key, b"extends") {
        extends_meaning(alloc, value)
    } else if spells(key, b"sim-time-limit") {
        limit_meaning(alloc, value)
    } else {
        kind_meaning(alloc, key, value)
    }
}
