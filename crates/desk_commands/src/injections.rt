//! Commands that inject a message, or take one back.

ghost use Rattle.std.specs.Prelude.{◌≡◌, ◌≤◌, ◌<◌, ◌↔◌, [], ◌∷◌, codes, length, position, IfOk};
ghost use Rattle.std.specs.Prelude.{IfSome, IsSome, OnErr, is_some, option_map};
ghost use Rattle.std.specs.List.{list_all};
ghost use Rattle.std.specs.Option.{option_and_then, option_copied};
ghost use Rattle.std.specs.Str.{bytes_eq};
ghost use Rattle.hex.specs.declared.error.FromHexError.TheVariants.{OutOfMemory};
ghost use Rattle.model_edits.specs.declared.edit.Edit.TheVariants as edits;
ghost use Rattle.desk_commands.specs.Injections.{asked_by, begins_unit, due_of, injection_of};
ghost use Rattle.desk_commands.specs.Injections.{is_lower_digit, is_lower_hex, number_length};
ghost use Rattle.desk_commands.specs.Injections.{path_of, payload_of, time_of, withdrawal_of};
ghost use Rattle.desk_commands.specs.Words.{words_of};

use crate::numbers::{number_of, short_of, signed_of};
use crate::words::{behind, is_text, parted};
use hex::FromHexError;
use model_edits::edit::Edit;
use model_injections::injection::Due;
use sim_time::SimTime;
use sim_values::text::{Text, spells};
use std::alloc::{AllocError, Global};

// ---- the words of an injection

/// The path that a word is.
fn path_of(word: &[u8]) -> Option<&[u8]>
    ensures { option_copied result ≡ path_of word.now }
{
    if is_text(word) && !word.is_empty() {
        Some(word)
    } else {
        None
    }
}

/// Whether a byte is neither a digit nor a point: the first one begins the unit of a time.
fn begins_unit(byte: u8) -> bool
    ensures { result ≡ begins_unit byte }
{
    !(byte.is_ascii_digit() || byte == b'.')
}

/// The place of the first byte that is neither a digit nor a point.
fn unit_place(word: &[u8]) -> Option<usize>
    ensures value { result ≡ position begins_unit word.now }
    ensures within { IfSome result (λ at. at < length word.now) }
{
    word.iter().position(|b| begins_unit(*b))
}

/// How many bytes of a time are its number.
fn number_length(word: &[u8]) -> usize
    ensures value { result ≡ number_length word.now }
    ensures within { result ≤ length word.now }
{
    unit_place(word).unwrap_or(word.len())
}

/// The time that a word says: a number, and the unit after it.
#[tactic(auto, unfolding(crate::specs::Injections::time_of))]
fn time_of(word: &[u8]) -> Option<SimTime>
    ensures { result ≡ time_of word.now }
{
    let (number, unit) = word.split_at(number_length(word));
    SimTime::from_decimal(number, unit).ok()
}

/// When an injection of that time and that priority is due.
#[tactic(auto, unfolding(crate::specs::Injections::due_of))]
fn due_of(time: &[u8], priority: &[u8]) -> Option<Due>
    ensures { result ≡ due_of time.now priority.now }
{
    Some(Due {
        time: time_of(time)?,
        priority: signed_of(priority)?,
    })
}

/// Whether a byte is a hex digit in lower case.
fn is_lower_digit(byte: u8) -> bool
    ensures { result ≡ is_lower_digit byte }
{
    byte.is_ascii_digit() || (b'a'..=b'f').contains(&byte)
}

/// Whether these are hex digits in lower case.
fn are_lower_digits(bytes: &[u8]) -> bool
    ensures { result ≡ list_all is_lower_digit bytes.now }
{
    bytes.iter().all(|b| is_lower_digit(*b))
}

/// Whether these are hex digits in lower case, one at least.
fn is_lower_hex(word: &[u8]) -> bool
    ensures { result ≡ is_lower_hex word.now }
{
    !word.is_empty() && are_lower_digits(word)
}

/// Whether a word is the `-` of a payload of no bytes.
fn is_dash(word: &[u8]) -> bool
    ensures { result ≡ bytes_eq word.now (codes "-") }
{
    spells(word, b"-")
}

/// Whether a word says the bytes of a payload.
#[tactic(auto, using(crate::proofs::Payloads::payload_said))]
fn is_payload(word: &[u8]) -> bool
    ensures { result ≡ is_some (payload_of word.now) }
{
    is_dash(word) || is_lower_hex(word) && word.len() % 2 == 0
}

/// The lack of memory that the decoder told.
fn want_of_memory(error: FromHexError) -> AllocError
    requires { error ≡ OutOfMemory }
{
    match error {
        FromHexError::OutOfMemory => AllocError,
        _ => unreachable!(),
    }
}

/// The payload that a word says.
fn payload_of(alloc: Global, word: &[u8]) -> Result<Text, AllocError>
    requires { IsSome (payload_of word.now) }
    ensures { IfOk result (λ payload. payload_of word.now ≡ Some payload) }
{
    if is_dash(word) {
        return Ok(Text::empty(alloc));
    }
    match hex::decode(alloc, word) {
        Ok(bytes) => Ok(Text::from_vec(bytes)),
        Err(error) => Err(want_of_memory(error)),
    }
}

// ---- edits

/// The words after `inject `.
#[derive(Clone, Copy)]
struct Words<'a> {
    path: &'a [u8],
    time: &'a [u8],
    priority: &'a [u8],
    kind: &'a [u8],
    bits: &'a [u8],
    hex: &'a [u8],
}

/// The words after `inject `, where they are six.
fn six_words(rest: &[u8]) -> Option<Words<'_>>
    ensures words { IfSome result (λ w. words_of rest.now
        ≡ w.path.now ∷ w.time.now ∷ w.priority.now ∷ w.kind.now ∷ w.bits.now ∷ w.hex.now ∷ []) }
    ensures six { IsSome result ↔ (length (words_of rest.now) ≡ 6) }
{
    let (path, rest) = parted(rest)?;
    let (time, rest) = parted(rest)?;
    let (priority, rest) = parted(rest)?;
    let (kind, rest) = parted(rest)?;
    let (bits, hex) = parted(rest)?;
    match parted(hex) {
        Some(_) => None,
        None => Some(Words {
            path,
            time,
            priority,
            kind,
            bits,
            hex,
        }),
    }
}

/// What the words of an injection say, with the payload still in hex.
#[derive(Clone, Copy)]
struct Said<'a> {
    path: &'a [u8],
    due: Due,
    kind: i16,
    bits: u64,
    hex: &'a [u8],
}

/// What these words say, where each says what it must.
#[tactic(auto, unfolding(crate::specs::Injections::asked_by))]
fn said_by(words: Words<'_>) -> Option<Said<'_>>
    ensures value { option_and_then (λ s. option_map
        (λ payload. edits.Inject s.path.now s.due s.kind s.bits payload) (payload_of s.hex.now))
        result
        ≡ asked_by (words.entry.path.now ∷ words.entry.time.now ∷ words.entry.priority.now
        ∷ words.entry.kind.now ∷ words.entry.bits.now ∷ words.entry.hex.now ∷ []) }
    ensures payload { IfSome result (λ s. IsSome (payload_of s.hex.now)) }
{
    let said = Said {
        path: path_of(words.path)?,
        due: due_of(words.time, words.priority)?,
        kind: signed_of(words.kind)?,
        bits: number_of(words.bits)?,
        hex: words.hex,
    };
    is_payload(said.hex).then_some(said)
}

/// The edit that these words ask for.
#[tactic(auto, using(crate::proofs::Parting::not_six))]
fn asked_by(alloc: Global, rest: &[u8]) -> Result<Option<Edit>, AllocError>
    ensures found { IfOk result (λ found. found ≡ asked_by (words_of rest.now)) }
    ensures memory { OnErr result (IsSome (asked_by (words_of rest.now))) }
{
    let Some(words) = six_words(rest) else {
        return Ok(None);
    };
    let Some(said) = said_by(words) else {
        return Ok(None);
    };
    let path = Text::from_bytes(alloc, said.path)?;
    let payload = payload_of(alloc, said.hex)?;
    Ok(Some(Edit::Inject(path, said.due, said.kind, said.bits, payload)))
}

/// The edit of `inject PATH TIME PRIORITY KIND BITS HEX`.
pub(crate) fn injection_of(alloc: Global, line: &[u8]) -> Result<Option<Edit>, AllocError>
    ensures found { IfOk result (λ found. found ≡ injection_of line.now) }
    ensures memory { OnErr result (IsSome (injection_of line.now)) }
{
    match behind(b"inject ", line) {
        Some(rest) => asked_by(alloc, rest),
        None => Ok(None),
    }
}

/// The edit of `withdraw K`, where K has 32 bits.
pub(crate) fn withdrawal_of(line: &[u8]) -> Option<Edit>
    ensures { result ≡ withdrawal_of line.now }
{
    let number = short_of(behind(b"withdraw ", line)?)?;
    Some(Edit::Withdraw(number))
}
