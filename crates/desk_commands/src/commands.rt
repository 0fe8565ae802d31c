//! What command lines ask for.

ghost use Rattle.std.specs.Prelude.{◌≡◌, IfOk, IsSome, OnErr, option_map};
ghost use Rattle.desk_commands.specs.Commands.{addition_of, command_of, connection_at};
ghost use Rattle.desk_commands.specs.Commands.{connection_edit_of, disconnection_of, edit_of};
ghost use Rattle.desk_commands.specs.Commands.{file_of, file_or_plain, ini_edit_of, insertion_of};
ghost use Rattle.desk_commands.specs.Commands.{place_at};
ghost use Rattle.desk_commands.specs.Commands.{limit_of, plain_command, removal_of, replacement_of};
ghost use Rattle.desk_commands.specs.Commands.{selection_of, IsEdit};

use crate::injections::{injection_of, withdrawal_of};
use crate::numbers::number_of;
use crate::words::{behind, named, numbered, short_numbered, word_of};
use model_edits::edit::Edit;
use sim_values::NoMemory;
use sim_values::text::{Text, spells};
use std::alloc::{AllocError, Global};

/// The longest command line, in bytes.
pub const MAX_LINE: usize = 65_536;

/// What a line asks for.
#[derive(Drop)]
pub enum Command {
    /// `run N`: run for at most N events.
    Run(u64),
    /// `ini insert L TEXT`, `ini replace L TEXT`, `ini remove L`, `config NAME`, `connect TYPE
    /// PLACE TEXT`, `disconnect TYPE PLACE`, `inject PATH TIME PRIORITY KIND BITS HEX`, `withdraw
    /// K`: an edit of the model.
    Edit(Edit),
    /// `ned FILE PATH`: an edit of the model, by which the NED file of number FILE, counted from 0,
    /// is what the file of that path holds.
    Ned(u64, Text),
    /// `positions`: say after which events positions are stored.
    Positions,
    /// `held`: say how many boxes there are.
    Held,
    /// `write`: write the files of the last run.
    Write,
    /// The line is no command.
    Unknown,
    /// The line is longer than 65,536 bytes.
    TooLarge,
}

// ---- edits

/// The edit of `insert L TEXT`, after `ini `.
fn insertion_of(alloc: Global, rest: &[u8]) -> Result<Option<Edit>, AllocError>
    ensures found { IfOk result (λ found. found ≡ insertion_of rest.now) }
    ensures memory { OnErr result (IsSome (insertion_of rest.now)) }
{
    let Some(words) = behind(b"insert ", rest) else {
        return Ok(None);
    };
    let Some((number, text)) = numbered(words) else {
        return Ok(None);
    };
    Ok(Some(Edit::InsertIni(number as usize, Text::from_bytes(alloc, text)?)))
}

/// The edit of `replace L TEXT`, after `ini `.
fn replacement_of(alloc: Global, rest: &[u8]) -> Result<Option<Edit>, AllocError>
    ensures found { IfOk result (λ found. found ≡ replacement_of rest.now) }
    ensures memory { OnErr result (IsSome (replacement_of rest.now)) }
{
    let Some(words) = behind(b"replace ", rest) else {
        return Ok(None);
    };
    let Some((number, text)) = numbered(words) else {
        return Ok(None);
    };
    Ok(Some(Edit::ReplaceIni(number as usize, Text::from_bytes(alloc, text)?)))
}

/// The edit of `remove L`, after `ini `.
fn removal_of(rest: &[u8]) -> Option<Edit>
    ensures { result ≡ removal_of rest.now }
{
    let word = behind(b"remove ", rest)?;
    let number = number_of(word)?;
    Some(Edit::RemoveIni(number as usize))
}

/// The edit of `ini ..`, by what stands after `ini `.
fn ini_edit_of(alloc: Global, rest: &[u8]) -> Result<Option<Edit>, AllocError>
    ensures found { IfOk result (λ found. found ≡ ini_edit_of rest.now) }
    ensures memory { OnErr result (IsSome (ini_edit_of rest.now)) }
{
    if let Some(insertion) = insertion_of(alloc, rest)? {
        return Ok(Some(insertion));
    }
    if let Some(replacement) = replacement_of(alloc, rest)? {
        return Ok(Some(replacement));
    }
    Ok(removal_of(rest))
}

/// The edit of `config NAME`.
fn selection_of(alloc: Global, line: &[u8]) -> Result<Option<Edit>, AllocError>
    ensures found { IfOk result (λ found. found ≡ selection_of line.now) }
    ensures memory { OnErr result (IsSome (selection_of line.now)) }
{
    let Some(rest) = behind(b"config ", line) else {
        return Ok(None);
    };
    let Some(name) = word_of(rest) else {
        return Ok(None);
    };
    Ok(Some(Edit::SelectConfig(Text::from_bytes(alloc, name)?)))
}

/// The connection of `PLACE TEXT`, after `connect TYPE `.
fn connection_at(alloc: Global, name: &[u8], rest: &[u8]) -> Result<Option<Edit>, AllocError>
    ensures found { IfOk result (λ found. found ≡ connection_at (name.now, rest.now)) }
    ensures memory { OnErr result (IsSome (connection_at (name.now, rest.now))) }
{
    let Some((place, text)) = numbered(rest) else {
        return Ok(None);
    };
    let name = Text::from_bytes(alloc, name)?;
    let text = Text::from_bytes(alloc, text)?;
    Ok(Some(Edit::AddConnection(name, place as usize, text)))
}

/// The edit of `connect TYPE PLACE TEXT`.
fn addition_of(alloc: Global, line: &[u8]) -> Result<Option<Edit>, AllocError>
    ensures found { IfOk result (λ found. found ≡ addition_of line.now) }
    ensures memory { OnErr result (IsSome (addition_of line.now)) }
{
    let Some(words) = behind(b"connect ", line) else {
        return Ok(None);
    };
    let Some((name, rest)) = named(words) else {
        return Ok(None);
    };
    connection_at(alloc, name, rest)
}

/// The place of `PLACE`, after `disconnect TYPE `.
fn place_at(alloc: Global, name: &[u8], rest: &[u8]) -> Result<Option<Edit>, AllocError>
    ensures found { IfOk result (λ found. found ≡ place_at (name.now, rest.now)) }
    ensures memory { OnErr result (IsSome (place_at (name.now, rest.now))) }
{
    let Some(place) = number_of(rest) else {
        return Ok(None);
    };
    Ok(Some(Edit::RemoveConnection(Text::from_bytes(alloc, name)?, place as usize)))
}

/// The edit of `disconnect TYPE PLACE`.
fn disconnection_of(alloc: Global, line: &[u8]) -> Result<Option<Edit>, AllocError>
    ensures found { IfOk result (λ found. found ≡ disconnection_of line.now) }
    ensures memory { OnErr result (IsSome (disconnection_of line.now)) }
{
    let Some(words) = behind(b"disconnect ", line) else {
        return Ok(None);
    };
    let Some((name, rest)) = named(words) else {
        return Ok(None);
    };
    place_at(alloc, name, rest)
}

/// The edit of connections that a line asks for.
fn connection_edit_of(alloc: Global, line: &[u8]) -> Result<Option<Edit>, AllocError>
    ensures found { IfOk result (λ found. found ≡ connection_edit_of line.now) }
    ensures memory { OnErr result (IsSome (connection_edit_of line.now)) }
{
    if let Some(addition) = addition_of(alloc, line)? {
        return Ok(Some(addition));
    }
    disconnection_of(alloc, line)
}

/// The edit that a line asks for.
#[tactic(auto, unfolding(crate::specs::Commands::edit_of))]
fn edit_of(alloc: Global, line: &[u8]) -> Result<Option<Edit>, AllocError>
    ensures found { IfOk result (λ found. found ≡ edit_of line.now) }
    ensures memory { OnErr result (IsSome (edit_of line.now)) }
{
    if let Some(rest) = behind(b"ini ", line) {
        if let Some(edit) = ini_edit_of(alloc, rest)? {
            return Ok(Some(edit));
        }
    }
    if let Some(selection) = selection_of(alloc, line)? {
        return Ok(Some(selection));
    }
    if let Some(injection) = injection_of(alloc, line)? {
        return Ok(Some(injection));
    }
    if let Some(connection) = connection_edit_of(alloc, line)? {
        return Ok(Some(connection));
    }
    Ok(withdrawal_of(line))
}

// ---- commands

/// The limit of events in `run N`.
fn limit_of(line: &[u8]) -> Option<u64>
    ensures { result ≡ limit_of line.now }
{
    number_of(behind(b"run ", line)?)
}

/// The file of `ned FILE PATH`: its number, and the path of the file that holds its text.
fn file_of(line: &[u8]) -> Option<(u64, &[u8])>
    ensures { option_map (λ p. (p.0, p.1.now)) result ≡ file_of line.now }
{
    let (number, rest) = short_numbered(behind(b"ned ", line)?)?;
    Some((number, word_of(rest)?))
}

/// The command of a line that asks for neither a run nor an edit.
fn plain_command(line: &[u8]) -> Command
    ensures { result ≡ plain_command line.now }
{
    if spells(line, b"write") {
        Command::Write
    } else if spells(line, b"held") {
        Command::Held
    } else if spells(line, b"positions") {
        Command::Positions
    } else {
        Command::Unknown
    }
}

/// The command of a line that asks for no run, and for no edit that is in it.
fn other_command(alloc: Global, line: &[u8]) -> Result<Command, AllocError>
    ensures found { IfOk result (λ command. command ≡ file_or_plain line.now (file_of line.now)) }
    ensures memory { OnErr result (IsSome (file_of line.now)) }
{
    match file_of(line) {
        Some((number, path)) => Ok(Command::Ned(number, Text::from_bytes(alloc, path)?)),
        None => Ok(plain_command(line)),
    }
}

/// The command that a line asks for. `NoMemory` comes of an edit alone, where memory ran out for
/// the copy of its TEXT, NAME or PATH, or for the bytes of its HEX.
pub fn command_of(alloc: Global, line: &[u8]) -> Result<Command, NoMemory>
    ensures command { IfOk result (λ command. command ≡ command_of line.now) }
    ensures memory { OnErr result (IsEdit (command_of line.now)) }
{
    if line.len() > MAX_LINE {
        return Ok(Command::TooLarge);
    }
    if let Some(limit) = limit_of(line) {
        return Ok(Command::Run(limit));
    }
    match edit_of(alloc, line)? {
        Some(edit) => Ok(Command::Edit(edit)),
        None => Ok(other_command(alloc, line)?),
    }
}
