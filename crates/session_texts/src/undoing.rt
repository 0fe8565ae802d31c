//! What takes the last edit back.

use crate::texts::SessionTexts;
use desk_commands::commands::MAX_LINE;
use explain_types::names::shown;
use model_edits::edit::Edit;
use sim_values::NoMemory;
use sim_values::text::Text;
use std::alloc::Global;

/// What takes back the last edit that was made.
#[derive(Drop)]
pub enum Undo {
    /// This command does.
    Command(Text),
    /// This command, which names a file, with what that file is to be.
    File(Text, Text),
    /// Nothing does, for that reason.
    Not(&'static str),
}

/// A message that was put in and not taken back: its number, and the command.
#[derive(Drop)]
struct Message {
    number: u64,
    command: Text,
}

/// The messages that were put in and not taken back.
#[derive(Drop)]
pub struct Messages {
    held: Vec<Message>,
}

/// A command of words and a text after them.
fn command(alloc: Global, words: &str, text: &[u8]) -> Result<Undo, NoMemory> {
    let mut line = Vec::from_slice(alloc, words.as_bytes())?;
    line.extend_from_slice(text)?;
    if line.len() > MAX_LINE {
        return Ok(Undo::Not("what stood there is too long for a command"));
    }
    Ok(Undo::Command(Text::from_vec(line)))
}

/// The line of that number of the ini text, counted from 1.
fn line_of(texts: &SessionTexts, number: usize) -> &[u8] {
    match texts.ini.lines().get(number.saturating_sub(1)) {
        Some(line) => line.text.as_bytes(),
        None => b"".as_slice(),
    }
}

/// What takes back a connection that is put in.
fn without_connection(alloc: Global, of: &[u8], place: usize) -> Result<Undo, NoMemory> {
    let words = format!(in alloc; "disconnect {} {place}", shown(of))?;
    command(alloc, words.as_str(), b"".as_slice())
}

/// What takes back an edit of texts, of which these are the ones before it.
pub fn undo_of(alloc: Global, before: &SessionTexts, edit: &Edit) -> Result<Undo, NoMemory> {
    match edit {
        Edit::InsertIni(line, _) => {
            let words = format!(in alloc; "ini remove {line}")?;
            command(alloc, words.as_str(), b"".as_slice())
        }
        Edit::ReplaceIni(line, _) => {
            let words = format!(in alloc; "ini replace {line} ")?;
            command(alloc, words.as_str(), line_of(before, *line))
        }
        Edit::RemoveIni(line) => {
            let words = format!(in alloc; "ini insert {line} ")?;
            command(alloc, words.as_str(), line_of(before, *line))
        }
        Edit::SelectConfig(_) => command(alloc, "config ", before.config().as_bytes()),
        Edit::AddConnection(of, place, _) => without_connection(alloc, of.as_bytes(), *place),
        Edit::RemoveConnection(_, _) => Ok(Undo::Not(
            "what 'disconnect' took out is not known: 'connect' puts a connection in",
        )),
        _ => Ok(Undo::Not("it is not known what was there before")),
    }
}

/// What takes back that the NED file of this number was replaced, of which these are the texts
/// before that.
pub fn undo_of_ned(alloc: Global, before: &SessionTexts, number: usize) -> Result<Undo, NoMemory> {
    let (Some(path), Some(text)) = (before.ned_path(number), before.ned_text(number)) else {
        return Ok(Undo::Not("it is not known what was there before"));
    };
    if before.has_other_connections() {
        return Ok(Undo::Not(
            "connections were put in or taken out, which are not in the file: 'ned' replaces it",
        ));
    }
    let words = format!(in alloc; "ned {number} {path}")?;
    Ok(Undo::File(
        Text::from_str(alloc, words.as_str())?,
        Text::from_bytes(alloc, text)?,
    ))
}

impl Messages {
    /// None.
    pub fn new(alloc: Global) -> Messages {
        Messages {
            held: Vec::new(alloc),
        }
    }

    /// The message of that number was put in by that command. Answers what takes it back.
    pub fn puts_in(&mut self, alloc: Global, line: &[u8], number: u64) -> Result<Undo, NoMemory> {
        self.held.push(Message {
            number,
            command: Text::from_bytes(alloc, line)?,
        })?;
        let words = format!(in alloc; "withdraw {number}")?;
        command(alloc, words.as_str(), b"".as_slice())
    }

    /// The message of that number was taken back. Answers what puts it in again.
    pub fn takes_back(&mut self, number: u64) -> Undo {
        match self.held.iter().position(|it| it.number == number) {
            Some(place) => Undo::Command(self.held.remove(place).command),
            None => Undo::Not("the message is not known"),
        }
    }
}
