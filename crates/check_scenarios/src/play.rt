//! A scenario at a desk, with the modules that come with the program.

ghost use Rattle.std.specs.Prelude.{◌≡◌, ◌≤◌, ℕ, ◌++◌, ◌∷◌, [], Some, IfOk, IfSome, IsSome, OnOk};
ghost use Rattle.std.specs.Prelude.{OnErr, length};
ghost use Rattle.result_lines.specs.Taken.{untouched};
ghost use Rattle.desk_client.specs.Devices.{HasFailed};
ghost use Rattle.desk_client.specs.Stops.{at_stop};
ghost use Rattle.transcripts.specs.Heard as heards;

use crate::scenario::{Scenario, file_in};
use checkpoint_runs::observer::Unobserved;
use desk_answers::answers::refusal_text;
use desk_client::clients::{Client, Gone, Page, Pages, ServeEnd};
use desk_client::told::AnswerContent;
use desk_server::serving::serve;
use model_reading::begin::BeginFault;
use result_lines::buffer::Buffer;
use sim_values::NoMemory;
use sim_values::text::Text;
use std::alloc::Global;
use text_writer::noted::GhostBytes;
use transcripts::asked::AskedLine;
use transcripts::transcript::Transcript;

/// Writes a line, and its end.
fn say(told: &mut Vec<u8>, line: &[u8]) -> Result<(), NoMemory>
    ensures { OnOk result (told.new.items ≡ told.old.items ++ line.now ++ 10 ∷ []) }
{
    told.extend_from_slice(line)?;
    told.push(b'\n')?;
    Ok(())
}

/// The lines of a text.
fn lines_of(alloc: Global, asked: &str) -> Result<Vec<Text>, NoMemory> {
    let mut lines = Vec::new(alloc);
    for line in asked.lines() {
        lines.push(Text::from_str(alloc, line)?)?;
    }
    Ok(lines)
}

/// The file of the last run that a line asks for.
fn file_asked(line: &[u8]) -> Option<Page> {
    match line {
        b"scalars" => Some(Page::Scalars),
        b"vectors" => Some(Page::Vectors),
        _ => None,
    }
}

/// Whether an answer tells that files are written.
fn is_written(told: &AnswerContent) -> bool {
    matches!(told, AnswerContent::Written)
}

/// Asks the lines of a scenario, and writes down what comes of each.
#[derive(Drop)]
struct Player<'a> {
    alloc: Global,
    lines: &'a [Text],
    /// All that the scenario's file has.
    all: &'a str,
    /// The file that the line asked for that was asked last. Its bytes are told, in place of the
    /// answer.
    file: Option<Page>,
    told: Vec<u8>,
    transcript: Transcript,
    /// Why the player can't go on.
    error: Option<NoMemory>,
    /// The file that had no room, and how many of its bytes had.
    lost: Option<(Page, u128)>,
}

impl<'a> Player<'a> {
    /// Who has asked nothing yet.
    fn new(alloc: Global, lines: &'a [Text], all: &'a str) -> Player<'a>
        ensures unasked { result.transcript.asked ≡ [] }
        ensures unheard { result.transcript.heard ≡ [] }
    {
        Player {
            alloc,
            lines,
            all,
            file: None,
            told: Vec::new(alloc),
            transcript: Transcript::new(),
            error: None,
            lost: None,
        }
    }

    /// Memory ran out.
    fn gone(&mut self, error: NoMemory) -> Gone
        ensures lines { self.new.lines ≡ self.old.lines }
        ensures transcript { self.new.transcript ≡ self.old.transcript }
        ensures stuck { IsSome self.new.error }
    {
        self.error = Some(error);
        Gone
    }

    /// Asks that line.
    fn ask(&mut self, line: &[u8]) -> Result<Option<AskedLine>, Gone>
        ensures asked { IfOk result (λ next. IfSome next
            (λ a. self.new.transcript.asked ≡ self.old.transcript.asked ++ a ∷ [])) }
        ensures some { IfOk result (λ next. IsSome next) }
        ensures none { OnErr result (self.new.transcript.asked ≡ self.old.transcript.asked) }
        ensures heard { self.new.transcript.heard ≡ self.old.transcript.heard }
        ensures lines { self.new.lines ≡ self.old.lines }
        ensures stuck { OnErr result (IsSome self.new.error) }
    {
        match Text::from_bytes(self.alloc, line) {
            Ok(text) => {
                self.transcript.asks_line(text.as_bytes());
                Ok(Some(AskedLine::Line(text)))
            }
            Err(error) => Err(self.gone(error.into())),
        }
    }

    /// Writes down an answer, which may tell that files are written. Where a file was asked for, it
    /// is there in place of the answer, or there is none.
    fn tell(&mut self, answer: &[u8], is_written: bool) -> Result<(), NoMemory>
        ensures lines { self.new.lines ≡ self.old.lines }
        ensures transcript { self.new.transcript ≡ self.old.transcript }
    {
        match self.file {
            None => say(&mut self.told, answer),
            Some(_) if is_written => Ok(()),
            Some(_) => say(&mut self.told, b"no file".as_slice()),
        }
    }

    /// Writes down the file that was asked for.
    fn tell_file(&mut self, pages: &Pages<Buffer>) -> Result<(), NoMemory>
        ensures lines { self.new.lines ≡ self.old.lines }
        ensures transcript { self.new.transcript ≡ self.old.transcript }
    {
        match self.file {
            None => {}
            Some(Page::Scalars) => self.told.extend_from_slice(pages.scalars.as_bytes())?,
            Some(Page::Vectors) => self.told.extend_from_slice(pages.vectors.as_bytes())?,
        }
        Ok(())
    }

    /// What was written down, all of it.
    fn into_told(self) -> Result<Vec<u8>, NoMemory> {
        match self.error {
            None => Ok(self.told),
            Some(error) => Err(error),
        }
    }
}

impl Client<Buffer> for Player<'_> {
    ghost asked = { λ player. player.transcript.asked };

    ghost heard = { λ player. player.transcript.heard };

    ghost left = { λ player. length player.lines.now };

    ghost keeps = { λ _. Unit {0} };

    ghost label = { λ _. 0 };

    ghost stops = { λ player why. at_stop (player.lines.now ≡ []) (IsSome player.error)
        (λ page written. player.lost ≡ Some (page, written)) why };

    fn next(&mut self) -> Result<Option<AskedLine>, Gone> {
        match self.lines {
            [] => Ok(None),
            [line, rest @ ..] => {
                self.lines = rest;
                self.file = file_asked(line.as_bytes());
                if self.file.is_some() {
                    self.ask(b"write".as_slice())
                } else {
                    self.ask(line.as_bytes())
                }
            }
        }
    }

    fn hear(&mut self, answer: &[u8], told: &AnswerContent) -> Result<(), Gone> {
        match self.tell(answer, is_written(told)) {
            Ok(()) => {
                self.transcript.hears(answer);
                Ok(())
            }
            Err(error) => Err(self.gone(error)),
        }
    }

    fn hear_no_memory(&mut self, error: NoMemory) -> Result<(), Gone> {
        match self.tell(b"refused NoMemory".as_slice(), false) {
            Ok(()) => {
                self.transcript.hears_no_memory(&error);
                Ok(())
            }
            Err(failed) => Err(self.gone(failed)),
        }
    }

    fn read(&mut self, path: &[u8]) -> Result<Text, Gone> {
        match Text::from_str(self.alloc, file_in(self.all, path)) {
            Ok(text) => {
                self.transcript.hears_read(path, text.as_bytes());
                Ok(text)
            }
            Err(error) => Err(self.gone(error.into())),
        }
    }

    fn open(&mut self, config: &[u8]) -> Result<Pages<Buffer>, Gone>
        requires kept { Unit {0} }
        ensures kept { Unit {0} }
        ensures label { ◌≡◌ {A = ℕ} 0 0 }
        ensures stuck { OnErr result (IsSome self.new.error) }
        ensures config { IfOk result (λ pages. pages.config.bytes ≡ config.now) }
        ensures scalars { IfOk result (λ pages. pages.scalars ≡ untouched) }
        ensures vectors { IfOk result (λ pages. pages.vectors ≡ untouched) }
        ensures heard { self.new.transcript.heard ≡ self.old.transcript.heard }
        ensures asked { self.new.transcript.asked ≡ self.old.transcript.asked }
        ensures left { length self.new.lines.now ≡ length self.old.lines.now }
    {
        let mut name = GhostBytes::new();
        name.note(config);
        Ok(Pages {
            config: name,
            scalars: Buffer::new(self.alloc),
            vectors: Buffer::new(self.alloc),
        })
    }

    fn keep(&mut self, pages: Pages<Buffer>) -> Result<(), Gone>
        requires kept { Unit {0} }
        ensures kept { Unit {0} }
        ensures label { ◌≡◌ {A = ℕ} 0 0 }
        ensures stuck { OnErr result (IsSome self.new.error) }
        ensures heard { OnOk result (self.new.transcript.heard ≡ self.old.transcript.heard
            ++ heards.Files pages.config.bytes pages.scalars.bytes pages.vectors.bytes ∷ []) }
        ensures gone { OnErr result (self.new.transcript.heard ≡ self.old.transcript.heard) }
        ensures asked { self.new.transcript.asked ≡ self.old.transcript.asked }
        ensures left { length self.new.lines.now ≡ length self.old.lines.now }
    {
        match self.tell_file(&pages) {
            Ok(()) => {
                let mut scalars = GhostBytes::new();
                scalars.note(pages.scalars.as_bytes());
                let mut vectors = GhostBytes::new();
                vectors.note(pages.vectors.as_bytes());
                self.transcript
                    .hears_files(&pages.config, &scalars, &vectors);
                Ok(())
            }
            Err(error) => Err(self.gone(error)),
        }
    }

    fn lose(&mut self, pages: Pages<Buffer>, page: Page, written: u128)
        requires kept { Unit {0} }
        requires failed { HasFailed page written pages.scalars pages.vectors }
        ensures kept { Unit {0} }
        ensures stuck { self.new.lost ≡ Some (page, written) }
        ensures label { ◌≡◌ {A = ℕ} 0 0 }
        ensures heard { self.new.transcript.heard ≡ self.old.transcript.heard }
        ensures asked { self.new.transcript.asked ≡ self.old.transcript.asked }
        ensures left { length self.new.lines.now ≡ length self.old.lines.now }
    {
        drop(pages);
        self.lost = Some((page, written));
    }
}

/// Says why the texts make no model.
fn refused(alloc: Global, fault: BeginFault) -> Result<Vec<u8>, NoMemory> {
    let mut told = Vec::new(alloc);
    let text = refusal_text(alloc, fault)?;
    told.extend_from_slice(b"refused ")?;
    say(&mut told, text.as_bytes())?;
    Ok(told)
}

/// What a player wrote down who was served; where a file had no room, that is said at the end.
fn told_by(player: Player<'_>, stop: ServeEnd) -> Result<Vec<u8>, NoMemory> {
    let mut told = player.into_told()?;
    match stop {
        ServeEnd::End => {}
        ServeEnd::Gone | ServeEnd::Device(_, _) => say(&mut told, b"no room".as_slice())?,
    }
    Ok(told)
}

/// Plays a scenario. Answers what its lines lead to.
pub fn play(alloc: Global, scenario: &Scenario<'_>) -> Result<Vec<u8>, NoMemory>
    requires interval { 1 ≤ scenario.now.interval }
{
    let lines = lines_of(alloc, scenario.asked)?;
    let player = Player::new(alloc, lines.as_slice(), scenario.all);
    match serve(
        alloc,
        &scenario.texts,
        scenario.ini.as_bytes(),
        scenario.config.as_bytes(),
        scenario.interval,
        player,
        &mut Unobserved,
    ) {
        Ok((player, stop)) => told_by(player, stop),
        Err(fault) => refused(alloc, fault),
    }
}
