//! Who asks by lines of standard input, and hears by lines of standard output.

ghost use Rattle.std.specs.Prelude.{◌≡◌, ◌⊎◌, ◌<◌, [], ◌∷◌, ◌++◌, Some, None, IsSomeAnd, IfSome};
ghost use Rattle.std.specs.Prelude.{IfOk, IfErr, OnOk, OnErr, codes, string_bytes};
ghost use Rattle.nedrun_client.specs.Devices.{path_of};
ghost use Rattle.nedrun_client.specs.Stops.{IsAskless, IsLost, IsOneUnwritable, IsReason, IsUntold};
ghost use Rattle.explain_types.specs.Names.{shown};
ghost use Rattle.nedrun_script.specs.Asking.{left_in, HasAskedAll};
ghost use Rattle.nedrun_script.specs.Faults.{Keeps, KnowsFault};
ghost use Rattle.nedrun_script.specs.Typing.{AsksNext};
ghost use Rattle.nedrun_exit.specs.declared.stops.ExitReason.{ExitReason};
ghost use Rattle.nedrun_files.specs.Devices.{taken_by, unwritten};
ghost use Rattle.nedrun_files.specs.Paths.{file_path};
ghost use Rattle.nedrun_files.specs.Stops.{IsShortOf, IsShortOfRun, IsUnreadable, IsUnsaid};
ghost use Rattle.nedrun_files.specs.Stops.{IsUnwritable};
ghost use Rattle.result_lines.specs.Taken.{untouched};
ghost use Rattle.desk_client.specs.Answers.{IsTold};
ghost use Rattle.desk_client.specs.Devices.{HasFailed};
ghost use Rattle.desk_client.specs.Stops.{at_stop};
ghost use Rattle.transcripts.specs.Heard as heards;

use crate::advice;
use desk_client::clients::{Client, Gone, Page, Pages};
use desk_client::told::AnswerContent;
use explain_types::names::shown;
use explain_types::sources::Sources;
use nedrun_exit::stops::ExitReason;
use nedrun_files::devices::FileOut;
use nedrun_files::files::read_text;
use nedrun_files::output;
use nedrun_options::words::Options;
use nedrun_script::dialogue::Dialogue;
use session_texts::notes::Notes;
use session_texts::own::Own;
use sim_values::NoMemory;
use sim_values::text::Text;
use std::rt::Files;
use text_writer::noted::GhostBytes;
use transcripts::asked::AskedLine;

/// Asks for the run of the words, then to write its files, and then what the lines of standard
/// input ask for. Prints each answer on a line of standard output before the next line is read.
#[derive(Drop)]
pub struct User<'a, R: Files + Input> {
    rt: &'a R,
    words: &'a Options,
    sources: &'a Sources<'a>,
    pub dialogue: Dialogue<R::Reader>,
    /// Whether the folder of the result files is there.
    has_folder: bool,
    /// Whether an answer was heard.
    heard_any: bool,
    /// What was asked last, and the texts as edits made them.
    notes: Notes,
    /// Whether standard input is a terminal.
    at_terminal: bool,
    /// Why the user can't go on.
    pub stop: Option<ExitReason>,
}

impl<'a, R: Files + Input + Print + Eprint + AllocGlobal> User<'a, R> {
    /// Who has asked nothing yet, at a terminal or not.
    pub fn new(
        rt: &'a R,
        words: &'a Options,
        sources: &'a Sources<'a>,
        at_terminal: bool,
    ) -> User<'a, R>
        ensures unasked { result.dialogue.transcript.asked ≡ [] }
        ensures unheard { result.dialogue.transcript.heard ≡ [] }
        ensures words { result.words.now ≡ words.now }
        ensures limit { result.dialogue.limit ≡ words.now.limit }
        ensures kept { Keeps result.dialogue }
    {
        User {
            rt,
            words,
            sources,
            dialogue: Dialogue::new(rt.alloc(), words.limit, rt.reader(), at_terminal),
            has_folder: false,
            heard_any: false,
            notes: Notes::new(rt.alloc()),
            at_terminal,
            stop: None,
        }
    }

    /// Why the user couldn't go on.
    pub fn into_stop(self) -> ExitReason
        ensures known { (stop : ExitReason) → self.entry.stop ≡ Some stop → result ≡ stop }
        ensures unknown { self.entry.stop ≡ None → IsUnsaid result }
    {
        let User {
            rt,
            words: _,
            sources: _,
            dialogue: _,
            has_folder: _,
            heard_any: _,
            notes: _,
            at_terminal: _,
            stop,
        } = self;
        match stop {
            Some(stop) => stop,
            None => output::unprinted(rt),
        }
    }

    /// The user can't go on, for that reason.
    fn gone(&mut self, stop: ExitReason) -> Gone
        ensures words { self.new.words ≡ self.old.words }
        ensures dialogue { self.new.dialogue ≡ self.old.dialogue }
        ensures reason { self.new.stop ≡ Some stop }
    {
        self.stop = Some(stop);
        Gone
    }

    /// What is asked next. The folder of the result files is made before the first thing: only a
    /// user who is served asks, so where the texts are refused none is made.
    fn ask(&mut self) -> Result<Option<AskedLine>, ExitReason>
        requires kept { Keeps self.old.dialogue }
        ensures kept { Keeps self.new.dialogue }
        ensures limit { self.new.dialogue.limit ≡ self.old.dialogue.limit }
        ensures next { AsksNext self.old.dialogue.transcript.asked
            (left_in self.old.dialogue) result
            self.new.dialogue.transcript.asked (left_in self.new.dialogue) }
        ensures over { IfOk result (λ next. next ≡ None → HasAskedAll self.new.dialogue) }
        ensures reason { IfErr result
            (IsAskless (string_bytes self.old.words.now.directory) self.old.dialogue.ask
            self.old.dialogue.lines.source.failures self.new.dialogue.lines.source.failures
            self.new.dialogue.lines.buffer) }
        ensures heard { self.new.dialogue.transcript.heard ≡ self.old.dialogue.transcript.heard }
        ensures words { self.new.words ≡ self.old.words }
    {
        if !self.has_folder {
            output::make_folder(self.rt, self.words.directory.as_str())?;
            self.has_folder = true;
        }
        if self.at_terminal && self.notes.is_typed() {
            advice::prompt(self.rt);
        }
        let next = self.dialogue.next(self.rt.alloc(), self.notes.undo_line())?;
        self.note(&next);
        Ok(next)
    }

    /// Notes what is asked.
    fn note(&mut self, next: &Option<AskedLine>)
        ensures words { self.new.words ≡ self.old.words }
        ensures dialogue { self.new.dialogue ≡ self.old.dialogue }
    {
        match next {
            Some(AskedLine::Line(line)) => self
                .notes
                .asks(self.rt.alloc(), line.as_bytes(), self.dialogue.undoes),
            Some(AskedLine::TooLong) => self.notes.asks_too_long(),
            None => {}
        }
    }

    /// Notes that both files are kept, of which nothing is left to write.
    fn note_files(&mut self, pages: &Pages<FileOut<'a, R>>)
        requires known { KnowsFault self.old.dialogue }
        requires scalars { unwritten pages.now.scalars ≡ [] }
        requires vectors { unwritten pages.now.vectors ≡ [] }
        ensures known { KnowsFault self.new.dialogue }
        ensures heard { self.new.dialogue.transcript.heard
            ≡ self.old.dialogue.transcript.heard
            ++ heards.Files pages.now.config.bytes pages.now.scalars.content.bytes
            pages.now.vectors.content.bytes
            ∷ [] }
        ensures asked { self.new.dialogue.transcript.asked ≡ self.old.dialogue.transcript.asked }
        ensures words { self.new.words ≡ self.old.words }
        ensures at_terminal { self.new.dialogue.at_terminal ≡ self.old.dialogue.at_terminal }
        ensures limit { self.new.dialogue.limit ≡ self.old.dialogue.limit }
        ensures ask { self.new.dialogue.ask ≡ self.old.dialogue.ask }
        ensures lines { self.new.dialogue.lines ≡ self.old.dialogue.lines }
    {
        self.dialogue.hears_files(
            &pages.config,
            pages.scalars.content(),
            pages.vectors.content(),
        );
    }

    /// Prints an answer that tells this, or that memory ran out where it tells nothing. A command
    /// of the program's own, which the session doesn't know, is answered in place of that. At a
    /// terminal a blank line has no answer.
    fn tell(&mut self, answer: &[u8], told: Option<&AnswerContent>) -> Result<(), ExitReason>
        ensures failed { IfErr result IsUntold }
        ensures words { self.new.words ≡ self.old.words }
        ensures dialogue { self.new.dialogue ≡ self.old.dialogue }
    {
        if !self.heard_any {
            return self.tell_first(answer, told);
        }
        if self.at_terminal && self.notes.is_blank(told) {
            return Ok(());
        }
        match self.notes.own(self.rt.alloc(), told)? {
            Some(own) => self.tell_own(own),
            None => self.tell_answer(answer, told),
        }
    }

    /// Prints the first answer: warnings before it, and after it that the limit ended the run,
    /// where none was given.
    fn tell_first(&mut self, answer: &[u8], told: Option<&AnswerContent>) -> Result<(), ExitReason>
        ensures failed { IfErr result IsUntold }
        ensures words { self.new.words ≡ self.old.words }
        ensures dialogue { self.new.dialogue ≡ self.old.dialogue }
    {
        self.heard_any = true;
        advice::warn(self.rt, self.sources)?;
        self.tell_answer(answer, told)?;
        advice::tell_limit(self.rt, self.words, told)?;
        Ok(())
    }

    /// Prints an answer of the session, and an explanation after a refusal or a fault.
    fn tell_answer(&mut self, answer: &[u8], told: Option<&AnswerContent>) -> Result<(), ExitReason>
        ensures failed { IfErr result IsUntold }
        ensures words { self.new.words ≡ self.old.words }
        ensures dialogue { self.new.dialogue ≡ self.old.dialogue }
    {
        output::say(self.rt, answer)?;
        advice::explain(self.rt, self.sources, &mut self.notes, told)?;
        Ok(())
    }

    /// Answers a command of the program's own.
    fn tell_own(&mut self, own: Own) -> Result<(), ExitReason>
        ensures failed { IfErr result IsUntold }
        ensures words { self.new.words ≡ self.old.words }
        ensures dialogue { self.new.dialogue ≡ self.old.dialogue }
    {
        if let Own::Save(path) = &own {
            let bytes = self.notes.ini_bytes(self.rt.alloc(), self.sources)?;
            advice::save(self.rt, shown(path.as_bytes()), bytes.as_slice())?;
            return Ok(());
        }
        let listing = self.notes.listing(self.rt.alloc(), self.sources, &own)?;
        output::advise(self.rt, shown(listing.lines.as_bytes()))?;
        output::say(self.rt, listing.answer.as_bytes())?;
        Ok(())
    }

    /// What the file of that path holds.
    fn text_of(&self, path: &[u8]) -> Result<Text, ExitReason>
        ensures failed { IfErr result (IsUnreadable (shown path.now)) }
    {
        match read_text(self.rt, shown(path)) {
            Ok(bytes) => Ok(Text::from_vec(bytes)),
            Err(stop) => Err(stop),
        }
    }

    /// What the file of that path holds; or what it held, where an edit is taken back that replaced
    /// it.
    fn asked_text(&mut self, path: &[u8]) -> Result<Text, ExitReason>
        ensures failed { IfErr result (IsUnreadable (shown path.now)) }
        ensures words { self.new.words ≡ self.old.words }
        ensures dialogue { self.new.dialogue ≡ self.old.dialogue }
    {
        match self.notes.take_given() {
            Some(text) => Ok(text),
            None => self.text_of(path),
        }
    }

    /// The device of a file of a configuration's run, by the last part of its name.
    fn device(&self, config: &[u8], ending: &str) -> Result<FileOut<'a, R>, ExitReason>
        ensures taken { IfOk result (λ out. taken_by out ≡ untouched) }
        ensures path { IfOk result (λ out. string_bytes out.path
            ≡ file_path (string_bytes self.now.words.now.directory) config.now ending.now) }
        ensures failed { IfErr result (IsShortOf
            (file_path (string_bytes self.now.words.now.directory) config.now ending.now)) }
    {
        let directory = self.words.directory.as_str();
        let path = output::file_path(self.rt.alloc(), directory, config, ending)?;
        FileOut::new(self.rt, path)
    }

    /// The devices of the files of a configuration's run.
    fn pages(&self, config: &[u8]) -> Result<Pages<FileOut<'a, R>>, ExitReason>
        ensures config { IfOk result (λ pages. pages.config.bytes ≡ config.now) }
        ensures scalars { IfOk result (λ pages. taken_by pages.scalars ≡ untouched) }
        ensures vectors { IfOk result (λ pages. taken_by pages.vectors ≡ untouched) }
        ensures scalars_path { IfOk result (λ pages. string_bytes pages.scalars.path
            ≡ file_path (string_bytes self.now.words.now.directory) config.now (codes "sca")) }
        ensures vectors_path { IfOk result (λ pages. string_bytes pages.vectors.path
            ≡ file_path (string_bytes self.now.words.now.directory) config.now (codes "vec")) }
        ensures failed { IfErr result (IsShortOfRun
            (string_bytes self.now.words.now.directory) config.now) }
    {
        let mut name = GhostBytes::new();
        name.note(config);
        Ok(Pages {
            config: name,
            scalars: self.device(config, "sca")?,
            vectors: self.device(config, "vec")?,
        })
    }
}

/// Writes what is gathered still of both files, and puts them in the place of those that were
/// there: none of them before both are written whole.
fn finish<R: Files + AllocGlobal>(pages: &mut Pages<FileOut<'_, R>>) -> Result<(), ExitReason>
    ensures scalars { OnOk result (unwritten pages.new.scalars ≡ []) }
    ensures vectors { OnOk result (unwritten pages.new.vectors ≡ []) }
    ensures scalars_taken { pages.new.scalars.content.bytes ≡ pages.old.scalars.content.bytes }
    ensures vectors_taken { pages.new.vectors.content.bytes ≡ pages.old.vectors.content.bytes }
    ensures config { pages.new.config ≡ pages.old.config }
    // The scalar file comes first: where the other one can't be written, nothing is left of it to
    // write.
    ensures failed { IfErr result (λ stop. IsUnwritable (string_bytes pages.old.scalars.path) stop
        ⊎ ((unwritten pages.new.scalars ≡ [])
        × IsUnwritable (string_bytes pages.old.vectors.path) stop)) }
{
    pages.scalars.finish()?;
    pages.vectors.finish()?;
    pages.scalars.look()?;
    pages.vectors.look()?;
    pages.scalars.take_place()?;
    pages.vectors.take_place()
}

/// Removes what was written of both files and has not taken its place.
fn discard<R: Files + AllocGlobal>(pages: Pages<FileOut<'_, R>>) {
    let Pages {
        config: _,
        scalars,
        vectors,
    } = pages;
    scalars.discard();
    vectors.discard();
}

/// What ends the program where the device of this file failed.
fn lost<R: Files + AllocGlobal>(pages: &Pages<FileOut<'_, R>>, page: Page) -> ExitReason
    ensures { IsUnwritable (path_of page pages.now) result }
{
    match page {
        Page::Scalars => pages.scalars.stop(),
        Page::Vectors => pages.vectors.stop(),
    }
}

impl<'a, R: Files + Input + Print + Eprint + AllocGlobal> Client<FileOut<'a, R>> for User<'a, R> {
    ghost asked = { λ user. user.dialogue.transcript.asked };

    ghost heard = { λ user. user.dialogue.transcript.heard };

    ghost left = { λ user. left_in user.dialogue };

    ghost keeps = { λ user. Keeps user.dialogue };

    ghost label = { λ user. user.dialogue.limit };

    ghost stops = { λ user why. at_stop (HasAskedAll user.dialogue)
        (IsSomeAnd user.stop (IsReason user.dialogue.lines.buffer))
        (λ _ _. IsSomeAnd user.stop IsLost) why };

    #[tactic(auto, using(crate::proofs::Reasons::reason_askless))]
    fn next(&mut self) -> Result<Option<AskedLine>, Gone>
        requires kept { Keeps self.old.dialogue }
        ensures kept { Keeps self.new.dialogue }
        ensures label { self.new.dialogue.limit ≡ self.old.dialogue.limit }
        ensures asked { IfOk result (λ next. IfSome next (λ a. self.new.dialogue.transcript.asked
            ≡ self.old.dialogue.transcript.asked ++ a ∷ [])) }
        ensures less { IfOk result (λ next. IfSome next (λ _.
            left_in self.new.dialogue < left_in self.old.dialogue)) }
        ensures none { IfOk result (λ next. next ≡ None
            → self.new.dialogue.transcript.asked ≡ self.old.dialogue.transcript.asked) }
        ensures over { IfOk result (λ next. next ≡ None → HasAskedAll self.new.dialogue) }
        ensures stuck { OnErr result
            (IsSomeAnd self.new.stop (IsReason self.new.dialogue.lines.buffer)) }
        ensures reason { OnErr result (IsSomeAnd self.new.stop (IsAskless
            (string_bytes self.old.words.now.directory) self.old.dialogue.ask
            self.old.dialogue.lines.source.failures self.new.dialogue.lines.source.failures
            self.new.dialogue.lines.buffer)) }
        ensures gone { OnErr result (self.new.dialogue.transcript.asked
            ≡ self.old.dialogue.transcript.asked) }
        ensures heard { self.new.dialogue.transcript.heard ≡ self.old.dialogue.transcript.heard }
    {
        match self.ask() {
            Ok(next) => Ok(next),
            Err(stop) => Err(self.gone(stop)),
        }
    }

    #[tactic(auto, using(crate::proofs::Reasons::reason_untold))]
    fn hear(&mut self, answer: &[u8], told: &AnswerContent) -> Result<(), Gone>
        requires kept { Keeps self.old.dialogue }
        requires told { IsTold told.now answer.now }
        ensures kept { Keeps self.new.dialogue }
        ensures heard { OnOk result (self.new.dialogue.transcript.heard
            ≡ self.old.dialogue.transcript.heard
            ++ heards.Answer answer.now ∷ []) }
        ensures gone { OnErr result (self.new.dialogue.transcript.heard
            ≡ self.old.dialogue.transcript.heard) }
        ensures stuck { OnErr result
            (IsSomeAnd self.new.stop (IsReason self.new.dialogue.lines.buffer)) }
        ensures reason { OnErr result (IsSomeAnd self.new.stop IsUntold) }
        ensures label { self.new.dialogue.limit ≡ self.old.dialogue.limit }
        ensures asked { self.new.dialogue.transcript.asked ≡ self.old.dialogue.transcript.asked }
        ensures left { left_in self.new.dialogue ≡ left_in self.old.dialogue }
    {
        match self.tell(answer, Some(told)) {
            Ok(()) => {
                self.dialogue.hears(answer, told);
                Ok(())
            }
            Err(stop) => Err(self.gone(stop)),
        }
    }

    #[tactic(auto, using(crate::proofs::Reasons::reason_untold))]
    fn hear_no_memory(&mut self, error: NoMemory) -> Result<(), Gone>
        requires kept { Keeps self.old.dialogue }
        ensures kept { Keeps self.new.dialogue }
        ensures heard { OnOk result (self.new.dialogue.transcript.heard
            ≡ self.old.dialogue.transcript.heard
            ++ heards.OutOfMemory ∷ []) }
        ensures gone { OnErr result (self.new.dialogue.transcript.heard
            ≡ self.old.dialogue.transcript.heard) }
        ensures stuck { OnErr result
            (IsSomeAnd self.new.stop (IsReason self.new.dialogue.lines.buffer)) }
        ensures reason { OnErr result (IsSomeAnd self.new.stop IsUntold) }
        ensures label { self.new.dialogue.limit ≡ self.old.dialogue.limit }
        ensures asked { self.new.dialogue.transcript.asked ≡ self.old.dialogue.transcript.asked }
        ensures left { left_in self.new.dialogue ≡ left_in self.old.dialogue }
    {
        match self.tell(b"refused NoMemory".as_slice(), None) {
            Ok(()) => {
                self.dialogue.hears_no_memory(&error);
                Ok(())
            }
            Err(stop) => Err(self.gone(stop)),
        }
    }

    #[tactic(auto, using(crate::proofs::Reasons::reason_unreadable))]
    fn read(&mut self, path: &[u8]) -> Result<Text, Gone>
        requires kept { Keeps self.old.dialogue }
        ensures kept { Keeps self.new.dialogue }
        ensures heard { IfOk result
            (λ text. self.new.dialogue.transcript.heard ≡ self.old.dialogue.transcript.heard
            ++ heards.Read path.now text ∷ []) }
        ensures gone { OnErr result (self.new.dialogue.transcript.heard
            ≡ self.old.dialogue.transcript.heard) }
        ensures stuck { OnErr result
            (IsSomeAnd self.new.stop (IsReason self.new.dialogue.lines.buffer)) }
        ensures reason { OnErr result (IsSomeAnd self.new.stop (IsUnreadable (shown path.now))) }
        ensures label { self.new.dialogue.limit ≡ self.old.dialogue.limit }
        ensures asked { self.new.dialogue.transcript.asked ≡ self.old.dialogue.transcript.asked }
        ensures left { left_in self.new.dialogue ≡ left_in self.old.dialogue }
    {
        match self.asked_text(path) {
            Ok(text) => {
                self.notes.reads(self.rt.alloc(), text.as_bytes());
                self.dialogue.hears_read(path, text.as_bytes());
                Ok(text)
            }
            Err(stop) => Err(self.gone(stop)),
        }
    }

    #[tactic(auto, using(crate::proofs::Reasons::reason_short))]
    fn open(&mut self, config: &[u8]) -> Result<Pages<FileOut<'a, R>>, Gone>
        requires kept { Keeps self.old.dialogue }
        ensures kept { Keeps self.new.dialogue }
        ensures config { IfOk result (λ pages. pages.config.bytes ≡ config.now) }
        ensures scalars { IfOk result (λ pages. taken_by pages.scalars ≡ untouched) }
        ensures vectors { IfOk result (λ pages. taken_by pages.vectors ≡ untouched) }
        ensures scalars_path { IfOk result (λ pages. string_bytes pages.scalars.path
            ≡ file_path (string_bytes self.old.words.now.directory) config.now (codes "sca")) }
        ensures vectors_path { IfOk result (λ pages. string_bytes pages.vectors.path
            ≡ file_path (string_bytes self.old.words.now.directory) config.now (codes "vec")) }
        ensures heard { self.new.dialogue.transcript.heard ≡ self.old.dialogue.transcript.heard }
        ensures stuck { OnErr result
            (IsSomeAnd self.new.stop (IsReason self.new.dialogue.lines.buffer)) }
        ensures reason { OnErr result (IsSomeAnd self.new.stop
            (IsShortOfRun (string_bytes self.old.words.now.directory) config.now)) }
        ensures label { self.new.dialogue.limit ≡ self.old.dialogue.limit }
        ensures asked { self.new.dialogue.transcript.asked ≡ self.old.dialogue.transcript.asked }
        ensures left { left_in self.new.dialogue ≡ left_in self.old.dialogue }
    {
        match self.pages(config) {
            Ok(pages) => Ok(pages),
            Err(stop) => Err(self.gone(stop)),
        }
    }

    fn keep(&mut self, pages: Pages<FileOut<'a, R>>) -> Result<(), Gone>
        requires kept { Keeps self.old.dialogue }
        ensures kept { Keeps self.new.dialogue }
        ensures heard { OnOk result
            (self.new.dialogue.transcript.heard
            ≡ self.old.dialogue.transcript.heard
            ++ heards.Files pages.entry.config.bytes pages.entry.scalars.content.bytes
            pages.entry.vectors.content.bytes
            ∷ []) }
        ensures gone { OnErr result (self.new.dialogue.transcript.heard
            ≡ self.old.dialogue.transcript.heard) }
        ensures stuck { OnErr result
            (IsSomeAnd self.new.stop (IsReason self.new.dialogue.lines.buffer)) }
        ensures reason { OnErr result (IsSomeAnd self.new.stop (IsOneUnwritable
            (string_bytes pages.entry.scalars.path) (string_bytes pages.entry.vectors.path))) }
        ensures label { self.new.dialogue.limit ≡ self.old.dialogue.limit }
        ensures asked { self.new.dialogue.transcript.asked ≡ self.old.dialogue.transcript.asked }
        ensures left { left_in self.new.dialogue ≡ left_in self.old.dialogue }
    {
        let mut pages = pages;
        match finish(&mut pages) {
            Ok(()) => {
                self.note_files(&pages);
                Ok(())
            }
            Err(stop) => {
                discard(pages);
                Err(self.gone(stop))
            }
        }
    }

    fn lose(&mut self, pages: Pages<FileOut<'a, R>>, page: Page, _written: u128)
        requires kept { Keeps self.old.dialogue }
        requires failed { HasFailed page _written (taken_by pages.scalars)
            (taken_by pages.vectors) }
        // The reason names the file of the device that failed.
        ensures named { IsSomeAnd self.new.stop (IsUnwritable (path_of page pages.entry)) }
        ensures kept { Keeps self.new.dialogue }
        ensures stuck { IsSomeAnd self.new.stop IsLost }
        ensures heard { self.new.dialogue.transcript.heard ≡ self.old.dialogue.transcript.heard }
        ensures label { self.new.dialogue.limit ≡ self.old.dialogue.limit }
        ensures asked { self.new.dialogue.transcript.asked ≡ self.old.dialogue.transcript.asked }
        ensures left { left_in self.new.dialogue ≡ left_in self.old.dialogue }
    {
        self.stop = Some(lost(&pages, page));
        discard(pages);
    }
}
