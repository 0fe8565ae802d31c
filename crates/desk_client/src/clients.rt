//! Who asks at a desk, and hears what comes of it.

ghost use Rattle.std.specs.Prelude.{◌≡◌, ◌<◌, ℕ, List, ◌∷◌, ◌++◌, [], None, OnOk, OnErr, IfOk};
ghost use Rattle.std.specs.Prelude.{IfSome};
ghost use Rattle.result_lines.specs.Taken.{untouched};
ghost use Rattle.desk_client.specs.Answers.{IsTold};
ghost use Rattle.desk_client.specs.Devices.{HasFailed};
ghost use Rattle.desk_client.specs.declared.clients.ServeEnd.{ServeEnd as EndValue};
ghost use Rattle.desk_client.specs.declared.clients.ServeEnd.TheVariants as why;
ghost use Rattle.transcripts.specs.declared.asked.AskedLine.{AskedLine as AskedValue};
ghost use Rattle.transcripts.specs.Heard.{Heard, Answer, Files, OutOfMemory, Read};

use crate::told::AnswerContent;
use result_lines::writer::Out;
use sim_values::NoMemory;
use sim_values::text::Text;
use text_writer::noted::GhostBytes;
use transcripts::asked::AskedLine;

/// A client can't ask or hear any more. It knows why.
#[derive(Clone, Copy, PartialEq, Eq)]
pub struct Gone;

/// The devices of the files of a run, with the name of the configuration that they were opened for.
#[derive(Drop)]
pub struct Pages<O> {
    pub config: GhostBytes,
    pub scalars: O,
    pub vectors: O,
}

/// A file of a run.
#[derive(Clone, Copy, PartialEq, Eq)]
pub enum Page {
    Scalars,
    Vectors,
}

/// Who asks, hears what comes of it, and keeps the files of runs.
pub trait Client<O: Out + Drop> {
    /// What it has asked.
    ghost asked: { Self → List AskedValue };

    /// What it has heard.
    ghost heard: { Self → List Heard };

    /// How often it may still ask, at most.
    ghost left: { Self → ℕ };

    /// What it keeps true of itself.
    ghost keeps: { Self → Type 0 };

    /// A number that it never changes, so that it is known again.
    ghost label: { Self → ℕ };

    /// What is true of it where it is served no more, for that reason.
    ghost stops: { Self → EndValue → Type 0 };

    /// What it asks next, or nothing more.
    fn next(&mut self) -> Result<Option<AskedLine>, Gone>
        requires kept { keeps self.old }
        ensures kept { keeps self.new }
        ensures label { label self.new ≡ label self.old }
        ensures asked { IfOk result (λ next.
            IfSome next (λ a. asked self.new ≡ asked self.old ++ a ∷ [])) }
        ensures less { IfOk result (λ next. IfSome next (λ _. left self.new < left self.old)) }
        ensures none { IfOk result (λ next. next ≡ None → asked self.new ≡ asked self.old) }
        ensures over { IfOk result (λ next. next ≡ None → stops self.new why.End) }
        ensures stuck { OnErr result (stops self.new why.Gone) }
        ensures gone { OnErr result (asked self.new ≡ asked self.old) }
        ensures heard { heard self.new ≡ heard self.old };

    /// Hears an answer, and what it tells.
    fn hear(&mut self, answer: &[u8], told: &AnswerContent) -> Result<(), Gone>
        requires kept { keeps self.old }
        requires told { IsTold told.now answer.now }
        ensures kept { keeps self.new }
        ensures label { label self.new ≡ label self.old }
        ensures stuck { OnErr result (stops self.new why.Gone) }
        ensures heard { OnOk result (heard self.new ≡ heard self.old ++ Answer answer.now ∷ []) }
        ensures gone { OnErr result (heard self.new ≡ heard self.old) }
        ensures asked { asked self.new ≡ asked self.old }
        ensures left { left self.new ≡ left self.old };

    /// Hears that memory ran out, in place of an answer. Who says so hands on the error that it
    /// met.
    fn hear_no_memory(&mut self, error: NoMemory) -> Result<(), Gone>
        requires kept { keeps self.old }
        ensures kept { keeps self.new }
        ensures label { label self.new ≡ label self.old }
        ensures stuck { OnErr result (stops self.new why.Gone) }
        ensures heard { OnOk result (heard self.new ≡ heard self.old ++ OutOfMemory ∷ []) }
        ensures gone { OnErr result (heard self.new ≡ heard self.old) }
        ensures asked { asked self.new ≡ asked self.old }
        ensures left { left self.new ≡ left self.old };

    /// What the file of that path holds, for a command that names it.
    fn read(&mut self, path: &[u8]) -> Result<Text, Gone>
        requires kept { keeps self.old }
        ensures kept { keeps self.new }
        ensures label { label self.new ≡ label self.old }
        ensures stuck { OnErr result (stops self.new why.Gone) }
        ensures heard { IfOk result
            (λ text. heard self.new ≡ heard self.old ++ Read path.now text ∷ []) }
        ensures gone { OnErr result (heard self.new ≡ heard self.old) }
        ensures asked { asked self.new ≡ asked self.old }
        ensures left { left self.new ≡ left self.old };

    /// Devices for the files of a run of the configuration of that name, which took nothing yet and
    /// never failed.
    fn open(&mut self, config: &[u8]) -> Result<Pages<O>, Gone>
        requires kept { keeps self.old }
        ensures kept { keeps self.new }
        ensures label { label self.new ≡ label self.old }
        ensures stuck { OnErr result (stops self.new why.Gone) }
        ensures config { IfOk result (λ pages. pages.config.bytes ≡ config.now) }
        ensures scalars { IfOk result (λ pages. O.taken pages.scalars ≡ untouched) }
        ensures vectors { IfOk result (λ pages. O.taken pages.vectors ≡ untouched) }
        ensures heard { heard self.new ≡ heard self.old }
        ensures asked { asked self.new ≡ asked self.old }
        ensures left { left self.new ≡ left self.old };

    /// Keeps the files, which are written whole.
    fn keep(&mut self, pages: Pages<O>) -> Result<(), Gone>
        requires kept { keeps self.old }
        ensures kept { keeps self.new }
        ensures label { label self.new ≡ label self.old }
        ensures stuck { OnErr result (stops self.new why.Gone) }
        ensures heard { OnOk result
            (heard self.new
            ≡ heard self.old
            ++ Files pages.config.bytes (O.taken pages.scalars).bytes
            (O.taken pages.vectors).bytes
            ∷ []) }
        ensures gone { OnErr result (heard self.new ≡ heard self.old) }
        ensures asked { asked self.new ≡ asked self.old }
        ensures left { left self.new ≡ left self.old };

    /// Hears that the device of this file failed, after so many bytes.
    fn lose(&mut self, pages: Pages<O>, page: Page, written: u128)
        requires kept { keeps self.old }
        requires failed { HasFailed page written (O.taken pages.scalars) (O.taken pages.vectors) }
        ensures kept { keeps self.new }
        ensures stuck { stops self.new (why.Device page written) }
        ensures label { label self.new ≡ label self.old }
        ensures heard { heard self.new ≡ heard self.old }
        ensures asked { asked self.new ≡ asked self.old }
        ensures left { left self.new ≡ left self.old };
}

/// Why a client is served no more.
#[derive(Clone, Copy, PartialEq, Eq)]
pub enum ServeEnd {
    /// It asks nothing more.
    End,
    /// It can't ask or hear, or keep files.
    Gone,
    /// The device of this file failed, after so many bytes of the file's text.
    Device(Page, u128),
}
