//! Values of options.

ghost use Rattle.std.specs.Prelude.{◌≡◌, ℕ, true, false, map, option_map, IfOk, MatchOption};
ghost use Rattle.std.specs.List.{list_all};
ghost use Rattle.ned_expressions.specs.ExpressionText.{IsExpressionText};
ghost use Rattle.ini_entries.specs.Meaning.{Finds, Tells};
ghost use Rattle.ini_entries.specs.Options as options;
ghost use Rattle.ini_entries.specs.Reasons as reasons;
ghost use Rattle.ini_entries.specs.Texts as texts;

use crate::blanks::{after_blanks, before_blanks};
use crate::names::is_config_name;
use crate::reason::{Reason, Unread};
use ini_trees::entry::{ModeItem, ObjectOption};
use ned_expressions::parse::parse_expression;
use ned_leaves::error::NedError;
use ned_leaves::modes::mode_named;
use ned_trees::expressions::Expression;
use sim_values::text::{Text, spells};
use sim_values::value::{Dimension, Value};
use sqlite_items::Items;
use std::alloc::{AllocError, Global};

// ---- lists

/// The text without the blanks at its front and its end.
fn trimmed(bytes: &[u8]) -> &[u8]
    ensures { result.now ≡ texts.trimmed bytes.now }
{
    before_blanks(after_blanks(bytes))
}

/// The items of a list, with the blanks around them.
fn list_parts(alloc: Global, bytes: &[u8]) -> Result<Vec<&[u8]>, AllocError>
    ensures { IfOk result (λ parts. map (λ p. p.now) parts.items ≡ texts.parts_at 44 bytes.now) }
{
    bytes.split(|b| *b == b',').collect(alloc)
}

// ---- options of the configuration

/// The names of a list, where each is one of a section.
pub(crate) fn config_names(alloc: Global, bytes: &[u8]) -> Result<Option<Items<Text>>, AllocError>
    ensures { IfOk result (λ found. found ≡ options.config_names (texts.items_of bytes.now)) }
{
    let parts = list_parts(alloc, bytes)?;
    let mut names = Items::new(alloc);
    for part in parts.as_slice() {
        let name = trimmed(part);
        if !is_config_name(name) {
            return Ok(None);
        }
        names.push(Text::from_bytes(alloc, name)?)?;
    }
    Ok(Some(names))
}

/// The picoseconds of an expression that is a time.
fn time_said(expression: &Expression) -> Option<u64>
    ensures { MatchOption result ((ps : ℕ) → expression.now ≡ options.time_literal ps
        → ⊥) (λ ps. expression.now ≡ options.time_literal ps) }
{
    match expression {
        Expression::Literal(Value::Quantity(Dimension::Time, amount)) if *amount >= 0 => {
            Some(*amount as u64)
        }
        _ => None,
    }
}

/// The picoseconds of a text that is a time.
pub(crate) fn time_limit(alloc: Global, bytes: &[u8]) -> Result<Option<u64>, AllocError>
    ensures { IfOk result
        (λ found. Tells (λ ps. IsExpressionText bytes.now (options.time_literal ps)) found) }
{
    match parse_expression(alloc, bytes) {
        Ok(expression) => Ok(time_said(&expression)),
        Err(NedError::NoMemory(error)) => Err(error.error()),
        Err(_) => Ok(None),
    }
}

/// Whether an option that is left out has that name.
#[tactic(auto, unfolding(crate::specs::Texts::is_among))]
fn is_left_out(key: &[u8]) -> bool
    ensures { result ≡ texts.is_among key.now options.words_left_out }
{
    spells(key, b"include") || spells(key, b"warmup-period")
}

/// Whether an option without effect may have a value.
fn is_only_value(key: &[u8], value: &[u8]) -> bool
    ensures { result ≡ options.is_only_value key.now value.now }
{
    if spells(key, b"repeat") {
        spells(value, b"1")
    } else if spells(key, b"simtime-resolution") {
        spells(value, b"ps")
    } else {
        true
    }
}

/// Whether an option, other than one with effect, may have a value.
#[tactic(auto, unfolding(crate::specs::Options::is_other_option))]
pub(crate) fn is_other_option(key: &[u8], value: &[u8]) -> bool
    requires { texts.is_among key.now options.words_with_effect ≡ false }
    ensures { result ≡ options.is_other_option key.now value.now }
{
    !is_left_out(key) && is_only_value(key, value)
}

/// Why an option, other than one with effect, may not have its value.
pub(crate) fn refused_option(key: &[u8]) -> Reason
    ensures { result ≡ reasons.option_reason key.now }
{
    if spells(key, b"include") {
        Reason::Include
    } else if spells(key, b"repeat") {
        Reason::Repeated
    } else if spells(key, b"simtime-resolution") {
        Reason::Resolution
    } else {
        Reason::Unsupported
    }
}

// ---- per-object options

fn plain_item(text: &[u8]) -> Option<ModeItem>
    ensures { result ≡ options.plain_item text.now }
{
    if spells(text, b"default") {
        Some(ModeItem::Default)
    } else if spells(text, b"all") {
        Some(ModeItem::All)
    } else {
        Some(ModeItem::Only(mode_named(text)?))
    }
}

/// An item of a list of recording modes.
#[tactic(auto, unfolding(crate::specs::Options::mode_item))]
fn mode_item(text: &[u8]) -> Option<ModeItem>
    ensures { result ≡ options.mode_item text.now }
{
    match text {
        [] => None,
        [b'+', mode @ ..] => Some(ModeItem::Plus(mode_named(mode)?)),
        [b'-', mode @ ..] => Some(ModeItem::Minus(mode_named(mode)?)),
        [_, ..] => plain_item(text),
    }
}

/// A list of recording modes.
fn mode_items(alloc: Global, bytes: &[u8]) -> Result<Option<Items<ModeItem>>, AllocError>
    ensures { IfOk result (λ found. found ≡ options.mode_items (texts.items_of bytes.now)) }
{
    let parts = list_parts(alloc, bytes)?;
    let mut items = Items::new(alloc);
    for part in parts.as_slice() {
        let Some(item) = mode_item(trimmed(part)) else {
            return Ok(None);
        };
        items.push(item)?;
    }
    Ok(Some(items))
}

/// Whether something is recorded.
fn truth_named(bytes: &[u8]) -> Option<bool>
    ensures { Tells (λ on. bytes.now ≡ options.truth_word on) result }
{
    if spells(bytes, b"true") {
        Some(true)
    } else if spells(bytes, b"false") {
        Some(false)
    } else {
        None
    }
}

#[tactic(auto, unfolding(crate::specs::Texts::is_among))]
fn is_recording_word(name: &[u8]) -> bool
    ensures { result ≡ texts.is_among name.now options.recording_words }
{
    spells(name, b"scalar-recording")
        || spells(name, b"vector-recording")
        || spells(name, b"statistic-recording")
}

/// What the option of recording modes says.
fn modes_option(alloc: Global, bytes: &[u8]) -> Result<ObjectOption, Unread>
    ensures { Finds (options.IsObjectOption options.word_modes bytes.now)
        (λ why. why ≡ Reason.BadModes) result }
{
    match mode_items(alloc, bytes)? {
        None => Err(Unread::MeansNothing(Reason::BadModes)),
        Some(items) => Ok(ObjectOption::Modes(items)),
    }
}

/// What an option says of whether something is recorded.
fn recording_option(name: &[u8], bytes: &[u8]) -> Result<ObjectOption, Unread>
    requires { texts.is_among name.now options.recording_words ≡ true }
    ensures { Finds (options.IsObjectOption name.now bytes.now)
        (λ why. why ≡ Reason.NotATruth) result }
{
    match truth_named(bytes) {
        None => Err(Unread::MeansNothing(Reason::NotATruth)),
        Some(on) => Ok(ObjectOption::Recording(on)),
    }
}

/// What a per-object option of that name says.
pub(crate) fn object_option(
    alloc: Global,
    name: &[u8],
    bytes: &[u8],
) -> Result<ObjectOption, Unread>
    ensures { Finds (options.IsObjectOption name.now bytes.now)
        (λ why. why ≡ reasons.object_reason name.now) result }
{
    if spells(name, b"result-recording-modes") {
        return modes_option(alloc, bytes);
    }
    if is_recording_word(name) {
        return recording_option(name, bytes);
    }
    Ok(ObjectOption::Other)
}
