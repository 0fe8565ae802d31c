//! What is noted of a session, besides its answers.

use crate::changes::bytes_of;
use crate::listings::{Listing, listing_of};
use crate::own::{Own, own_of};
use crate::refused::{why_refused_command, why_refused_edit};
use crate::texts::SessionTexts;
use crate::undoing::{Messages, Undo, undo_of, undo_of_ned};
use desk_client::told::AnswerContent;
use desk_commands::commands::{Command, command_of};
use explain_files::messages::MessageModel;
use explain_files::runs::fault_line;
use explain_types::explanation::Explanation;
use explain_types::sources::Sources;
use model_edits::edit::{Edit, Refusal};
use run_semantics::outcome::{Outcome, RunFault};
use sim_values::NoMemory;
use sim_values::text::Text;
use std::alloc::{AllocError, Global};

/// What is noted of a session: what was asked last, the file that was read for it, and the texts as
/// edits made them. It answers nothing that the session answers, and what it says makes
/// diagnostics.
#[derive(Drop)]
pub struct Notes {
    /// The line that was asked last. None where it was too long to be kept.
    asked: Option<Text>,
    /// The file that was read for it.
    read: Option<Text>,
    /// That memory ran out for one of both.
    short: Option<NoMemory>,
    /// The texts, where they were needed yet.
    texts: Option<SessionTexts>,
    /// How often something was asked.
    count: u64,
    /// What takes the last edit back.
    undo: Undo,
    /// What the file is to be that is named next, where an edit is taken back.
    given: Option<Text>,
    /// The messages that were put in.
    messages: Messages,
    /// The paths of messages that were looked at since the texts changed.
    looked_at: Vec<Text>,
    /// The model in which they were looked at.
    model: Option<MessageModel>,
}

/// Of how many paths of messages it is said that nobody stands there, between two changes of the
/// texts.
const MOST_PATHS: usize = 1000;

/// Whether a command changes or looks at texts.
fn is_of_texts(command: &Command) -> bool {
    matches!(command, Command::Edit(_) | Command::Ned(_, _))
}

/// Whether an edit changes no text.
fn is_of_messages(command: &Command) -> bool {
    matches!(
        command,
        Command::Edit(Edit::Inject(_, _, _, _, _)) | Command::Edit(Edit::Withdraw(_))
    )
}

/// The bytes of a text, where there is one.
fn bytes_in(text: &Option<Text>) -> Option<&[u8]> {
    match text {
        Some(text) => Some(text.as_bytes()),
        None => None,
    }
}

impl Notes {
    /// Nothing was asked yet.
    pub fn new(alloc: Global) -> Notes {
        Notes {
            asked: None,
            read: None,
            short: None,
            texts: None,
            count: 0,
            undo: Undo::Not("no edit was made yet"),
            given: None,
            messages: Messages::new(alloc),
            looked_at: Vec::new(alloc),
            model: None,
        }
    }

    /// Whether what is asked next is typed: the program itself asks for the first run, and to write
    /// its files.
    pub fn is_typed(&self) -> bool {
        self.count >= 2
    }

    /// Keeps a copy, or that memory ran out for it.
    fn kept(&mut self, alloc: Global, bytes: &[u8]) -> Option<Text> {
        match Text::from_bytes(alloc, bytes) {
            Ok(copy) => Some(copy),
            Err(error) => {
                self.short = Some(NoMemory::from(error));
                None
            }
        }
    }

    /// This line is asked, which takes the last edit back or not.
    pub fn asks(&mut self, alloc: Global, line: &[u8], undoes: bool) {
        self.count = self.count.saturating_add(1);
        self.read = None;
        self.short = None;
        self.given = None;
        self.asked = self.kept(alloc, line);
        if undoes {
            self.give_undone(alloc);
        }
    }

    /// The file that is named next is to be what it was before the last edit, where that replaced
    /// one.
    fn give_undone(&mut self, alloc: Global) {
        let copy = match &self.undo {
            Undo::File(_, text) => text.copy(alloc),
            _ => return,
        };
        match copy {
            Ok(text) => self.given = Some(text),
            Err(error) => self.short = Some(NoMemory::from(error)),
        }
    }

    /// The command that takes the last edit back.
    pub fn undo_line(&self) -> Option<&Text> {
        match &self.undo {
            Undo::Command(line) | Undo::File(line, _) => Some(line),
            Undo::Not(_) => None,
        }
    }

    /// What the file is to be that the line names which was asked last, where that takes an edit
    /// back.
    pub fn take_given(&mut self) -> Option<Text> {
        self.given.take()
    }

    /// A line is asked that is too long to be kept.
    pub fn asks_too_long(&mut self) {
        self.read = None;
        self.short = None;
        self.asked = None;
    }

    /// This is read of the file that the line names.
    pub fn reads(&mut self, alloc: Global, text: &[u8]) {
        self.read = self.kept(alloc, text);
    }

    /// What the line asks for that was asked last.
    fn command(&self, alloc: Global) -> Result<Command, NoMemory> {
        if let Some(error) = self.short {
            return Err(error);
        }
        match bytes_in(&self.asked) {
            Some(line) => command_of(alloc, line),
            None => Ok(Command::TooLarge),
        }
    }

    /// The texts as they are.
    fn texts(
        &mut self,
        alloc: Global,
        sources: &Sources<'_>,
    ) -> Result<&mut SessionTexts, NoMemory> {
        if self.texts.is_none() {
            self.texts = Some(SessionTexts::new(alloc, sources)?);
        }
        match &mut self.texts {
            Some(texts) => Ok(texts),
            None => unreachable!(),
        }
    }

    /// Follows the edit of messages that was asked last, which is made. A message that it put in
    /// has that number.
    fn follow_message(
        &mut self,
        alloc: Global,
        command: &Command,
        injection: Option<u64>,
    ) -> Result<(), NoMemory> {
        if let Command::Edit(Edit::Withdraw(number)) = command {
            self.undo = self.messages.takes_back(*number);
            return Ok(());
        }
        let undo = match (&self.asked, injection) {
            (Some(line), Some(number)) => self.messages.puts_in(alloc, line.as_bytes(), number)?,
            (None, _) => Undo::Not("the command is not known"),
            (_, None) => Undo::Not("the number of the message is not known"),
        };
        self.undo = undo;
        Ok(())
    }

    /// Follows the edit of texts that was asked last, which is made.
    fn follow_texts(
        &mut self,
        alloc: Global,
        sources: &Sources<'_>,
        command: Command,
    ) -> Result<(), NoMemory> {
        let read = self.read.take();
        self.looked_at.clear();
        self.model = None;
        let texts = self.texts(alloc, sources)?;
        let undo = match (command, read) {
            (Command::Edit(edit), _) => {
                let undo = undo_of(alloc, texts, &edit)?;
                texts.take(&edit)?;
                undo
            }
            (Command::Ned(number, path), Some(text)) => {
                let undo = undo_of_ned(alloc, texts, number as usize)?;
                texts.take_ned(number as usize, path.as_bytes(), text.as_bytes())?;
                undo
            }
            _ => return Ok(()),
        };
        self.undo = undo;
        Ok(())
    }

    /// Follows the edit that was asked last, which is made. A message that it put in has that
    /// number.
    fn follow(
        &mut self,
        alloc: Global,
        sources: &Sources<'_>,
        injection: Option<u64>,
    ) -> Result<(), NoMemory> {
        let command = self.command(alloc)?;
        if is_of_messages(&command) {
            return self.follow_message(alloc, &command, injection);
        }
        if is_of_texts(&command) {
            return self.follow_texts(alloc, sources, command);
        }
        Ok(())
    }

    /// Why the edit that was asked last is refused.
    fn why_no_edit(
        &mut self,
        alloc: Global,
        sources: &Sources<'_>,
        refusal: Refusal,
    ) -> Result<Text, NoMemory> {
        let command = self.command(alloc)?;
        let read = self.read.take();
        let texts = self.texts(alloc, sources)?;
        let read = bytes_in(&read).unwrap_or(b"".as_slice());
        why_refused_edit(alloc, texts, &command, read, refusal)
    }

    /// Why what was asked last is refused, which is no edit.
    fn why_no_command(&self, alloc: Global) -> Result<Text, NoMemory> {
        let command = self.command(alloc)?;
        let line = bytes_in(&self.asked).unwrap_or(b"".as_slice());
        why_refused_command(alloc, &command, line)
    }

    /// What led to the fault that ended a run, which is reported with that path.
    fn why_fault(
        &self,
        alloc: Global,
        sources: &Sources<'_>,
        path: &[u8],
        fault: &RunFault,
        classes: &[&[u8]],
    ) -> Result<Text, NoMemory> {
        match &self.texts {
            Some(texts) => {
                let ini = bytes_of(alloc, &texts.ini)?;
                let sources = texts.sources(ini.as_slice());
                fault_line(alloc, path, fault, &sources, classes)
            }
            None => fault_line(alloc, path, fault, sources, classes),
        }
    }

    /// Whether a path of a message is looked at no more: it was since the texts changed, or so many
    /// others were.
    fn is_looked_at(&self, path: &Text) -> bool {
        for it in self.looked_at.as_slice() {
            if it.is(path.as_bytes()) {
                return true;
            }
        }
        self.looked_at.len() >= MOST_PATHS
    }

    /// The model of the texts as they are.
    fn new_model(&self, alloc: Global, sources: &Sources<'_>) -> Result<MessageModel, NoMemory> {
        match &self.texts {
            Some(texts) => {
                let ini = bytes_of(alloc, &texts.ini)?;
                MessageModel::new(alloc, &texts.sources(ini.as_slice()))
            }
            None => MessageModel::new(alloc, sources),
        }
    }

    /// What is said of a message to that path, by the model that is kept, or else is made now.
    fn discarded_line(
        &mut self,
        alloc: Global,
        sources: &Sources<'_>,
        path: &[u8],
    ) -> Result<Text, NoMemory> {
        if let Some(model) = &self.model {
            return model.discarded_line(alloc, path);
        }
        let model = self.new_model(alloc, sources)?;
        let line = model.discarded_line(alloc, path);
        self.model = Some(model);
        line
    }

    /// That the message which was put in is discarded, where it is. It is said once for each path,
    /// until the texts change.
    fn why_discarded(&mut self, alloc: Global, sources: &Sources<'_>) -> Result<Text, NoMemory> {
        let Command::Edit(Edit::Inject(path, _, _, _, _)) = self.command(alloc)? else {
            return Ok(Text::empty(alloc));
        };
        if self.is_looked_at(&path) {
            return Ok(Text::empty(alloc));
        }
        let line = self.discarded_line(alloc, sources, path.as_bytes())?;
        self.looked_at.push(path)?;
        Ok(line)
    }

    /// The program's own command that was asked last, where it is one and the session told that it
    /// knows no such command.
    pub fn own(
        &self,
        alloc: Global,
        told: Option<&AnswerContent>,
    ) -> Result<Option<Own>, NoMemory> {
        if !is_no_command(told) {
            return Ok(None);
        }
        match bytes_in(&self.asked) {
            Some(line) => Ok(own_of(alloc, line)?),
            None => Ok(None),
        }
    }

    /// Whether a blank line was asked last, and the session told that it is no command.
    pub fn is_blank(&self, told: Option<&AnswerContent>) -> bool {
        match bytes_in(&self.asked) {
            Some(line) => is_no_command(told) && line.trim_ascii().is_empty(),
            None => false,
        }
    }

    /// What is listed where nothing takes the last edit back.
    fn no_undo(&self, alloc: Global) -> Result<Listing, NoMemory> {
        let why = match &self.undo {
            Undo::Not(why) => *why,
            Undo::Command(_) | Undo::File(_, _) => "memory ran out",
        };
        let mut told = Explanation::new(alloc);
        told.say("no edit is taken back: ");
        told.say(why);
        Ok(Listing {
            lines: told.said()?,
            answer: Text::from_str(alloc, "refused NoUndo")?,
        })
    }

    /// What a command of the program's own lists.
    pub fn listing(
        &mut self,
        alloc: Global,
        sources: &Sources<'_>,
        own: &Own,
    ) -> Result<Listing, NoMemory> {
        if let Own::Undo = own {
            return self.no_undo(alloc);
        }
        listing_of(alloc, self.texts(alloc, sources)?, own)
    }

    /// The bytes of the ini text as it is.
    pub fn ini_bytes(&self, alloc: Global, sources: &Sources<'_>) -> Result<Vec<u8>, AllocError> {
        match &self.texts {
            Some(texts) => bytes_of(alloc, &texts.ini),
            None => Vec::from_slice(alloc, sources.ini),
        }
    }

    /// What is said after an answer that says this, or that memory ran out where it says nothing,
    /// and what to change: a diagnostic. Empty where there is no more to say. `sources` are the
    /// files as they were read, and `classes` those that the program has modules of.
    pub fn hears(
        &mut self,
        alloc: Global,
        sources: &Sources<'_>,
        told: Option<&AnswerContent>,
        classes: &[&[u8]],
    ) -> Result<Text, NoMemory> {
        match told {
            Some(AnswerContent::Edited(injection)) => {
                self.follow(alloc, sources, *injection)?;
                self.why_discarded(alloc, sources)
            }
            Some(AnswerContent::Done(Outcome::Fault(_, path, fault))) => {
                self.why_fault(alloc, sources, path.as_bytes(), fault, classes)
            }
            Some(AnswerContent::Refused(refusal)) => self.why_no_edit(alloc, sources, *refusal),
            Some(AnswerContent::NoCommand)
            | Some(AnswerContent::TooLarge)
            | Some(AnswerContent::NotDone) => { self.why_no_command(alloc) }
            _ => Ok(Text::empty(alloc)),
        }
    }
}

/// Whether it is told that a line is no command.
fn is_no_command(told: Option<&AnswerContent>) -> bool {
    matches!(told, Some(AnswerContent::NoCommand))
}
