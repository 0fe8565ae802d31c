//! What the program asks, one thing after the other, and what it hears.

ghost use Rattle.std.specs.Prelude.{◌≡◌, [], ◌∷◌, ◌++◌, IfOk, OnErr, IfErr, codes, true};
ghost use Rattle.std.specs.Fmt.{decimal};
ghost use Rattle.desk_client.specs.Answers.{IsTold};
ghost use Rattle.nedrun_exit.specs.Stops.{IsFailed, IsOutOfMemory};
ghost use Rattle.nedrun_script.specs.Asking.{Asks, IsInOrder, IsUnread};
ghost use Rattle.nedrun_script.specs.Faults.{fault_told, KnowsFault};
ghost use Rattle.nedrun_script.specs.Typing.{IsMeant, IsTyped};
ghost use Rattle.nedrun_script.specs.declared.dialogue.Ask.TheVariants as ask;
ghost use Rattle.transcripts.specs.Heard as heards;

use desk_client::told::AnswerContent;
use input_lines::line::NextLine;
use input_lines::reader::LineReader;
use input_texts::reader::NotedReader;
use input_texts::reading::ReadFault;
use itoa::Buffer as Digits;
use nedrun_exit::stops::ExitReason;
use run_semantics::outcome::Outcome;
use sim_values::NoMemory;
use sim_values::text::Text;
use std::alloc::Global;
use std::io;
use std::io::Read;
use text_writer::noted::GhostBytes;
use transcripts::asked::AskedLine;
use transcripts::transcript::Transcript;

/// What is asked next.
#[derive(Clone, Copy, Drop)]
enum Ask {
    /// The run of the words.
    Run,
    /// To write the files of that run.
    Write,
    /// A line of standard input.
    Line,
    /// Nothing more: the line `quit` was read.
    Nothing,
}

/// The line that asks for a run to that limit.
fn run_line(alloc: Global, limit: u64) -> Result<Text, NoMemory>
    ensures { IfOk result (λ line. line ≡ codes "run " ++ decimal limit) }
{
    let mut digits = Digits::new();
    let mut line = Vec::new(alloc);
    line.extend_from_slice(b"run ".as_slice())?;
    line.extend_from_slice(digits.format(limit).as_bytes())?;
    Ok(Text::from_vec(line))
}

/// What ends the program where a line of standard input can't be read.
fn unread_line(alloc: Global, error: io::Error) -> ExitReason
    ensures { IsFailed (codes "the next command can't be read") (codes "standard input")
        error result }
{
    ExitReason::failed(
        alloc,
        "the next command can't be read",
        "standard input",
        error,
    )
}

/// A line that was typed at a terminal, without the blanks at its end; as it is where memory runs
/// out.
fn without_blanks(alloc: Global, line: Text) -> Text
    ensures { IsTyped true result line }
{
    match Text::from_bytes(alloc, line.as_bytes().trim_ascii_end()) {
        Ok(trimmed) => trimmed,
        Err(_) => line,
    }
}

/// Whether the blanks at the end of a line are of the text that it gives, which may have no other
/// bytes.
fn has_own_blanks(line: &[u8]) -> bool {
    line.starts_with(b"ini insert ") || line.starts_with(b"ini replace ")
}

/// What is asked for a line, and whether that takes an edit back: the line itself, or in the place
/// of `undo` the command that does, where there is one.
fn meant(alloc: Global, said: Text, undo: Option<&Text>) -> (Text, bool)
    ensures { IsMeant result.0 said }
{
    if !said.is(b"undo") {
        return (said, false);
    }
    let Some(command) = undo else {
        return (said, false);
    };
    match command.copy(alloc) {
        Ok(copy) => (copy, true),
        Err(_) => (said, false),
    }
}

/// Whether the last run ended in a fault, behind an answer too that tells this.
fn has_fault_behind(has_fault: bool, told: &AnswerContent) -> bool
    ensures { result ≡ fault_told has_fault told.now }
{
    match told {
        AnswerContent::Done(Outcome::Fault(_, _, _)) => true,
        AnswerContent::Done(_) => false,
        _ => has_fault,
    }
}

/// What the program asks at its desk: the run to a limit, then to write its files, and then what
/// the lines of standard input ask for, up to the line `quit`; and what it hears of that.
#[derive(Drop)]
pub struct Dialogue<I> {
    /// The limit of the first run, in events.
    limit: u64,
    ask: Ask,
    lines: LineReader<NotedReader<I>>,
    /// Whether the lines are typed at a terminal, where blanks at the end of a line are no part of
    /// it.
    at_terminal: bool,
    /// Whether the line that was asked last takes an edit back: it stands in the place of the line
    /// `undo`.
    pub undoes: bool,
    /// Whether the last run that was heard of ended in a fault.
    pub has_fault: bool,
    transcript: Transcript,
}

impl<I: Read> Dialogue<I> {
    /// A dialogue in which nothing was asked yet: with that limit of its first run, in events, and
    /// lines of that input, which was not read yet, and is a terminal or not.
    pub fn new(alloc: Global, limit: u64, input: I, at_terminal: bool) -> Dialogue<I>
        ensures limit { result.limit ≡ limit }
        ensures at_terminal { result.at_terminal ≡ at_terminal }
        ensures unasked { result.transcript.asked ≡ [] }
        ensures unheard { result.transcript.heard ≡ [] }
        ensures kept { IsInOrder result }
        ensures known { KnowsFault result }
    {
        Dialogue {
            limit,
            ask: Ask::Run,
            lines: LineReader::new(alloc, NotedReader::new(input)),
            at_terminal,
            undoes: false,
            has_fault: false,
            transcript: Transcript::new(),
        }
    }

    /// Hears an answer, and what it tells.
    pub fn hears(&mut self, answer: &[u8], told: &AnswerContent)
        requires known { KnowsFault self.old }
        requires told { IsTold told.now answer.now }
        ensures known { KnowsFault self.new }
        ensures heard { self.new.transcript.heard ≡ self.old.transcript.heard
            ++ heards.Answer answer.now ∷ [] }
        ensures asked { self.new.transcript.asked ≡ self.old.transcript.asked }
        ensures limit { self.new.limit ≡ self.old.limit }
        ensures at_terminal { self.new.at_terminal ≡ self.old.at_terminal }
        ensures ask { self.new.ask ≡ self.old.ask }
        ensures lines { self.new.lines ≡ self.old.lines }
    {
        self.has_fault = has_fault_behind(self.has_fault, told);
        self.transcript.hears(answer);
    }

    /// Hears that both files of a run were kept, of these bytes, with the name of the configuration
    /// that they are of.
    #[tactic(auto, using(crate::proofs::Faults::fault_more))]
    pub fn hears_files(&mut self, config: &GhostBytes, scalars: &GhostBytes, vectors: &GhostBytes)
        requires known { KnowsFault self.old }
        ensures known { KnowsFault self.new }
        ensures heard { self.new.transcript.heard ≡ self.old.transcript.heard
            ++ heards.Files config.now.bytes scalars.now.bytes vectors.now.bytes ∷ [] }
        ensures asked { self.new.transcript.asked ≡ self.old.transcript.asked }
        ensures limit { self.new.limit ≡ self.old.limit }
        ensures at_terminal { self.new.at_terminal ≡ self.old.at_terminal }
        ensures ask { self.new.ask ≡ self.old.ask }
        ensures lines { self.new.lines ≡ self.old.lines }
    {
        self.transcript.hears_files(config, scalars, vectors);
    }

    /// Hears what the file of that path holds, which was read for a command.
    #[tactic(auto, using(crate::proofs::Faults::fault_more))]
    pub fn hears_read(&mut self, path: &[u8], text: &[u8])
        requires known { KnowsFault self.old }
        ensures known { KnowsFault self.new }
        ensures heard { self.new.transcript.heard ≡ self.old.transcript.heard
            ++ heards.Read path.now text.now ∷ [] }
        ensures asked { self.new.transcript.asked ≡ self.old.transcript.asked }
        ensures limit { self.new.limit ≡ self.old.limit }
        ensures at_terminal { self.new.at_terminal ≡ self.old.at_terminal }
        ensures ask { self.new.ask ≡ self.old.ask }
        ensures lines { self.new.lines ≡ self.old.lines }
    {
        self.transcript.hears_read(path, text);
    }

    /// Hears that memory ran out, with that error.
    #[tactic(auto, using(crate::proofs::Faults::fault_more))]
    pub fn hears_no_memory(&mut self, error: &NoMemory)
        requires known { KnowsFault self.old }
        ensures known { KnowsFault self.new }
        ensures heard { self.new.transcript.heard ≡ self.old.transcript.heard
            ++ heards.OutOfMemory ∷ [] }
        ensures asked { self.new.transcript.asked ≡ self.old.transcript.asked }
        ensures limit { self.new.limit ≡ self.old.limit }
        ensures at_terminal { self.new.at_terminal ≡ self.old.at_terminal }
        ensures ask { self.new.ask ≡ self.old.ask }
        ensures lines { self.new.lines ≡ self.old.lines }
    {
        self.transcript.hears_no_memory(error);
    }

    /// Asks for the run of the words.
    fn ask_run(&mut self, alloc: Global) -> Result<Option<AskedLine>, ExitReason>
        requires first { self.old.ask ≡ ask.Run }
        requires kept { IsInOrder self.old }
        ensures asks { Asks self.old result self.new }
        ensures reason { IfErr result IsOutOfMemory }
    {
        match run_line(alloc, self.limit) {
            Ok(line) => {
                self.ask = Ask::Write;
                self.transcript.asks_line(line.as_bytes());
                Ok(Some(AskedLine::Line(line)))
            }
            Err(error) => Err(error.into()),
        }
    }

    /// Asks to write the files of that run.
    fn ask_write(&mut self, alloc: Global) -> Result<Option<AskedLine>, ExitReason>
        requires first { self.old.ask ≡ ask.Write }
        requires kept { IsInOrder self.old }
        ensures asks { Asks self.old result self.new }
        ensures reason { IfErr result IsOutOfMemory }
    {
        match Text::from_bytes(alloc, b"write".as_slice()) {
            Ok(line) => {
                self.ask = Ask::Line;
                self.transcript.asks_line(line.as_bytes());
                Ok(Some(AskedLine::Line(line)))
            }
            Err(error) => Err(error.into()),
        }
    }

    /// What is asked for a line of standard input.
    fn typed(&self, alloc: Global, line: Text) -> Text
        ensures { IsTyped self.now.at_terminal result line }
    {
        if self.at_terminal && !has_own_blanks(line.as_bytes()) {
            return without_blanks(alloc, line);
        }
        line
    }

    /// Asks what the next line of standard input asks for, with the command that takes the last
    /// edit back. After the line `quit` nothing is asked.
    fn ask_line(
        &mut self,
        alloc: Global,
        undo: Option<&Text>,
    ) -> Result<Option<AskedLine>, ExitReason>
        requires typed { self.old.ask ≡ ask.Line }
        requires kept { IsInOrder self.old }
        ensures asks { Asks self.old result self.new }
        ensures reason { let before = self.old.lines.source.failures in
            let after = self.new.lines.source.failures in
            IfErr result (IsUnread before after self.new.lines.buffer) }
    {
        match self.lines.next() {
            Ok(NextLine::Line(line)) => {
                let said = self.typed(alloc, line);
                if said.is(b"quit") {
                    self.ask = Ask::Nothing;
                    return Ok(None);
                }
                let (line, undoes) = meant(alloc, said, undo);
                self.undoes = undoes;
                self.transcript.asks_line(line.as_bytes());
                Ok(Some(AskedLine::Line(line)))
            }
            Ok(NextLine::TooLong) => {
                self.transcript.asks_too_long();
                Ok(Some(AskedLine::TooLong))
            }
            Ok(NextLine::End) => Ok(None),
            Ok(NextLine::Spent) => Err(ExitReason::Spent),
            Err(ReadFault::Failed(error)) => Err(unread_line(alloc, error)),
            Err(ReadFault::NoMemory(error)) => Err(error.into()),
        }
    }

    /// Asks the next thing, where `undo` is the command that takes the last edit back; or nothing
    /// more: standard input is at its end then, and all that it gave was asked; or the line `quit`
    /// was read. Fails where memory runs out, where standard input failed, or where as many lines
    /// were read as are; then nothing is asked.
    pub fn next(
        &mut self,
        alloc: Global,
        undo: Option<&Text>,
    ) -> Result<Option<AskedLine>, ExitReason>
        requires kept { IsInOrder self.old }
        ensures { Asks self.old result self.new }
    {
        match self.ask {
            Ask::Run => self.ask_run(alloc),
            Ask::Write => self.ask_write(alloc),
            Ask::Line => self.ask_line(alloc, undo),
            Ask::Nothing => Ok(None),
        }
    }
}
