//! The desk.

ghost use Rattle.std.specs.Prelude.{◌≡◌, ◌↔◌, ◌+◌, None, IsSome, length, OnOk, OnErr, IfOk, IfErr};
ghost use Rattle.std.specs.Prelude.{codes, option_map, option_copied};
ghost use Rattle.edit_session.specs.Editing.{Completed, IsFor, IsUnknown, declined_at, given_up};
ghost use Rattle.edit_session.specs.Editing.{wanted_of, with_box};
ghost use Rattle.edit_session.specs.Files.{files_of_last, scalars_of_run, vectors_of_run};
ghost use Rattle.edit_session.specs.Files.{AreFilesOf, FileWritten, IsFileWritten};
ghost use Rattle.edit_session.specs.Sessions.{editing_of, IsSound};
ghost use Rattle.edit_session.specs.declared.session.SupplyReason.{SupplyReason};
ghost use Rattle.desk_commands.specs.Commands.{command_of};
ghost use Rattle.desk_client.specs.Answers.{held_text, positions_text, IsTold};
ghost use Rattle.model_edits.specs.declared.edit.Edit.TheVariants as edits;
ghost use Rattle.desk_answers.specs.Turns.{editing_at, AnswersCommand};
ghost use Rattle.desk_answers.specs.Turns.{AnswersEdit, AnswersLine, Forgoes, IsOfDesk, IsRunTurn};
ghost use Rattle.desk_answers.specs.Turns.{IsSettled, IsToldIn, MayBeDone, StaysSettled};

use crate::answers::{Answer, done, edited_text, held_text, positions_text, refused};
use checkpoint_runs::observer::Observer;
use checkpoint_runs::phases::RunStatus;
use desk_client::told::AnswerContent;
use desk_commands::commands::{Command, command_of};
use edit_session::session::{FileFault, NotWanted, Session, SupplyFault};
use kernel::request::Request;
use model_edits::edit::Edit;
use module_api::catalogue::Catalogue;
use module_api::name::Name;
use module_api::simple_module::SimpleModule;
use result_files::files::ResultFiles;
use result_lines::writer::{Device, Out};
use run_semantics::outcome::Outcome;
use sim_values::NoMemory;
use sim_values::text::Text;
use std::alloc::Global;
use std::marker::PhantomData;

/// What the desk answers.
#[derive(Drop)]
pub enum DeskTurn {
    Text(Answer),
    /// A run waits for a box. Supply it or decline it, and then go on.
    Want(Request),
}

/// A session that takes lines of text.
pub struct Desk<C: Catalogue> {
    alloc: Global,
    session: Session<C>,
    /// What the session holds, so that contracts can name what boxes say of themselves.
    holds: PhantomData<Box<dyn SimpleModule>>,
}

// Written out, so that a crate which drops one need not prove what that does.
impl<C: Catalogue> Drop for Desk<C> {
    fn drop(self) {
        let Desk {
            alloc: _,
            session: _,
            holds: _,
        } = self;
    }
}

/// What a line is answered that is no command.
fn no_command() -> Answer
    ensures text { result.text ≡ codes "refused Command" }
    ensures told { IsTold result.told result.text }
{
    Answer {
        text: Name::word("refused Command"),
        told: AnswerContent::NoCommand,
    }
}

impl<C: Catalogue> Desk<C> {
    /// The desk of a session.
    pub fn of_session(alloc: Global, session: Session<C>) -> Desk<C>
        requires sound { IsSound C.behaviour SimpleModule-box session }
        ensures sound { IsSettled C.behaviour SimpleModule-box result }
        ensures editing { editing_at SimpleModule-box result ≡ editing_of SimpleModule-box session }
    {
        Desk {
            alloc,
            session,
            holds: PhantomData,
        }
    }

    /// Answers a command line. One that asks to write files, or names a file that is to be read, is
    /// no command here: who asks does these. Where memory runs out the line has no answer: the
    /// model is what it was, and a line that asks for no run changed nothing; one that asks for a
    /// run left what that left.
    pub fn line<W: Observer>(&mut self, line: &[u8], observer: &mut W) -> Result<DeskTurn, NoMemory>
        requires sound { IsSettled C.behaviour SimpleModule-box self.old }
        ensures sound { IsSettled C.behaviour SimpleModule-box self.new }
        ensures answer { let before = editing_at SimpleModule-box self.old in
            let after = editing_at SimpleModule-box self.new in
            IfOk result (λ turn. AnswersLine C.behaviour before line.now turn after) }
        ensures told { IfOk result (λ turn. IsToldIn turn) }
        ensures memory { let before = editing_at SimpleModule-box self.old in
            let after = editing_at SimpleModule-box self.new in
            OnErr result (Forgoes C.behaviour (command_of line.now) before after) }
    {
        match command_of(self.alloc, line)? {
            Command::Run(limit) => self.run(limit, observer),
            Command::Write | Command::Ned(_, _) => Ok(DeskTurn::Text(no_command())),
            command => Ok(DeskTurn::Text(self.reply(command)?)),
        }
    }

    /// Answers a command that needs nothing but the desk: neither boxes nor files. Where memory runs
    /// out there is no answer, and nothing changed; it doesn't for a line that is too long or no
    /// command.
    pub fn reply(&mut self, command: Command) -> Result<Answer, NoMemory>
        requires sound { IsSettled C.behaviour SimpleModule-box self.old }
        requires plain { IsOfDesk command }
        ensures sound { IsSettled C.behaviour SimpleModule-box self.new }
        ensures answer { let before = editing_at SimpleModule-box self.old in
            let after = editing_at SimpleModule-box self.new in
            IfOk result
            (λ answer. AnswersCommand C.behaviour before command (DeskTurn.Text answer) after) }
        ensures told { IfOk result (λ answer. IsTold answer.told answer.text) }
        ensures memory { let before = editing_at SimpleModule-box self.old in
            let after = editing_at SimpleModule-box self.new in
            OnErr result (Forgoes C.behaviour command before after) }
    {
        match command {
            Command::Edit(edit) => self.edit(edit),
            Command::Positions => self.positions(),
            Command::Held => self.held(),
            Command::Unknown => Ok(no_command()),
            Command::TooLarge => Ok(Answer {
                text: Name::word("refused TooLarge"),
                told: AnswerContent::TooLarge,
            }),
            Command::Run(_) | Command::Write | Command::Ned(_, _) => unreachable!(),
        }
    }

    /// Changes the model as the edit says, or answers why not. Where memory runs out the edit isn't
    /// made.
    pub fn edit(&mut self, edit: Edit) -> Result<Answer, NoMemory>
        requires sound { IsSettled C.behaviour SimpleModule-box self.old }
        ensures sound { IsSettled C.behaviour SimpleModule-box self.new }
        ensures answer { let before = editing_at SimpleModule-box self.old in
            let after = editing_at SimpleModule-box self.new in
            IfOk result (λ answer. AnswersEdit C.behaviour before edit answer.text after) }
        ensures told { IfOk result (λ answer. IsTold answer.told answer.text) }
        ensures memory { OnErr result (self.new ≡ self.old) }
    {
        let number = self.session.number_given(&edit);
        match self.session.change(edit) {
            Ok(change) => {
                // The answer is made before the change: so where it has no room nothing is changed.
                let text = edited_text(self.alloc, change.edited.valid_to, number)?;
                self.session.accept(change);
                Ok(Answer {
                    text,
                    told: AnswerContent::Edited(number),
                })
            }
            Err(refusal) => refused(self.alloc, refusal),
        }
    }

    /// Changes the NED file of that number, counted from 0, to be this text, or answers why not.
    /// Where memory runs out the edit isn't made.
    pub fn ned(&mut self, file: u64, text: Text) -> Result<Answer, NoMemory>
        requires sound { IsSettled C.behaviour SimpleModule-box self.old }
        ensures sound { IsSettled C.behaviour SimpleModule-box self.new }
        ensures answer { let before = editing_at SimpleModule-box self.old in
            let after = editing_at SimpleModule-box self.new in
            IfOk result (λ answer. AnswersEdit C.behaviour before (edits.ReplaceNed file text)
            answer.text after) }
        ensures told { IfOk result (λ answer. IsTold answer.told answer.text) }
        ensures memory { OnErr result (self.new ≡ self.old) }
    {
        self.edit(Edit::ReplaceNed(file as usize, text))
    }

    /// Runs the model for at most so many events: goes on with the run that waits, unless it waits
    /// after more events, or begins at the greatest stored position up to there, or with setup. The
    /// observer is told of each event that is executed. Where memory runs out there is no answer: no
    /// run is done, or this one is.
    pub fn run<W: Observer>(&mut self, limit: u64, observer: &mut W) -> Result<DeskTurn, NoMemory>
        requires sound { IsSettled C.behaviour SimpleModule-box self.old }
        ensures kept { StaysSettled C.behaviour SimpleModule-box self.old self.new }
        ensures ran { let before = editing_at SimpleModule-box self.old in
            let after = editing_at SimpleModule-box self.new in
            IfOk result (λ turn. IsRunTurn C.behaviour before limit turn after) }
        ensures told { IfOk result (λ turn. IsToldIn turn) }
        ensures memory { let before = editing_at SimpleModule-box self.old in
            let after = editing_at SimpleModule-box self.new in
            OnErr result (MayBeDone C.behaviour before limit after) }
    {
        match self.session.run(limit, observer)? {
            RunStatus::Waits(request) => Ok(DeskTurn::Want(request)),
            RunStatus::Done(report) => Ok(DeskTurn::Text(done(self.alloc, report)?)),
        }
    }

    /// Gives the module that the run waits for its box, or hands the box back.
    pub fn supply(&mut self, held: Box<dyn SimpleModule>) -> Result<(), SupplyFault>
        requires wanted { let editing = editing_at SimpleModule-box self.old in
            IsFor C.behaviour (wanted_of C.behaviour editing) (meaning held) }
        requires sound { IsSettled C.behaviour SimpleModule-box self.old }
        ensures sound { IsSettled C.behaviour SimpleModule-box self.new }
        ensures ok { let editing = editing_at SimpleModule-box self.old in
            OnOk result (IsSome (wanted_of C.behaviour editing)
            × (editing_at SimpleModule-box self.new ≡ with_box C.behaviour editing)) }
        ensures err { let editing = editing_at SimpleModule-box self.old in
            IfErr result (λ fault. (fault.held ≡ held)
            × (editing_at SimpleModule-box self.new ≡ editing)
            × (fault.reason ≡ SupplyReason.NotWanted ↔ wanted_of C.behaviour editing ≡ None)) }
    {
        self.session.supply(held)
    }

    /// Says that there is no box for the module that the run waits for.
    pub fn decline(&mut self) -> Result<(), NotWanted>
        requires unknown { let editing = editing_at SimpleModule-box self.old in
            IsUnknown C.behaviour (wanted_of C.behaviour editing) }
        requires sound { IsSettled C.behaviour SimpleModule-box self.old }
        ensures sound { IsSettled C.behaviour SimpleModule-box self.new }
        ensures ok { let editing = editing_at SimpleModule-box self.old in
            OnOk result (IsSome (wanted_of C.behaviour editing)
            × (editing_at SimpleModule-box self.new
            ≡ record editing { phase = declined_at editing.phase })) }
        ensures err { let editing = editing_at SimpleModule-box self.old in
            OnErr result ((wanted_of C.behaviour editing ≡ None)
            × (editing_at SimpleModule-box self.new ≡ editing)) }
    {
        self.session.decline()
    }

    /// Gives up a run that waits, as one is given up for which memory runs out: no run is done, and
    /// the boxes are dropped that were supplied for a start.
    pub fn give_up_run(&mut self)
        requires sound { IsSettled C.behaviour SimpleModule-box self.old }
        ensures sound { IsSettled C.behaviour SimpleModule-box self.new }
        ensures left { editing_at SimpleModule-box self.new
            ≡ given_up (editing_at SimpleModule-box self.old) }
    {
        self.session.give_up_run();
    }

    /// Answers after which events a position is stored.
    pub fn positions(&self) -> Result<Answer, NoMemory>
        ensures text { let editing = editing_at SimpleModule-box self.now in
            IfOk result (λ answer. answer.text ≡ positions_text editing.positions.stored) }
        ensures told { IfOk result (λ answer. IsTold answer.told answer.text) }
    {
        Ok(Answer {
            text: positions_text(self.alloc, self.session.positions())?,
            told: AnswerContent::Positions,
        })
    }

    /// Answers how many boxes there are.
    pub fn held(&self) -> Result<Answer, NoMemory>
        ensures text { let editing = editing_at SimpleModule-box self.now in
            IfOk result (λ answer. answer.text
            ≡ held_text (length editing.boxes + length editing.supplied)) }
        ensures told { IfOk result (λ answer. IsTold answer.told answer.text) }
    {
        Ok(Answer {
            text: held_text(self.alloc, self.session.held())?,
            told: AnswerContent::Held,
        })
    }

    /// What the files of the last run need, so that `put_scalars` and `put_vectors` write them
    /// without memory. None: no run is done.
    pub fn files(&self) -> Result<Option<ResultFiles>, NoMemory>
        requires sound { IsSettled C.behaviour SimpleModule-box self.now }
        ensures files { let editing = editing_at SimpleModule-box self.now in
            IfOk result (λ files.
            files ≡ files_of_last C.behaviour editing.model editing.done) }
        ensures done { let editing = editing_at SimpleModule-box self.now in
            OnErr result (IsSome editing.done) }
    {
        self.session.files()
    }

    /// Writes the scalar file of the last run, by what `files` answered of it. It takes no memory.
    pub fn put_scalars<O: Out>(&self, files: &ResultFiles, out: &mut O) -> Result<(), Device>
        requires sound { IsSettled C.behaviour SimpleModule-box self.now }
        requires files { let editing = editing_at SimpleModule-box self.now in
            AreFilesOf C.behaviour editing.model editing.done files.now }
        ensures written { let editing = editing_at SimpleModule-box self.now in
            let text = scalars_of_run C.behaviour editing.model in
            IsFileWritten text editing.done (O.taken out.old) (O.taken out.new) result }
    {
        self.session.put_scalars(files, out)
    }

    /// Writes the vector file of the last run, by what `files` answered of it. It takes no memory.
    pub fn put_vectors<O: Out>(&self, files: &ResultFiles, out: &mut O) -> Result<(), Device>
        requires sound { IsSettled C.behaviour SimpleModule-box self.now }
        requires files { let editing = editing_at SimpleModule-box self.now in
            AreFilesOf C.behaviour editing.model editing.done files.now }
        ensures written { let editing = editing_at SimpleModule-box self.now in
            let text = vectors_of_run C.behaviour editing.model in
            IsFileWritten text editing.done (O.taken out.old) (O.taken out.new) result }
    {
        self.session.put_vectors(files, out)
    }

    /// Writes the scalar file of the last run.
    pub fn scalars<O: Out>(&self, out: &mut O) -> Result<(), FileFault>
        requires sound { IsSettled C.behaviour SimpleModule-box self.now }
        ensures written { let editing = editing_at SimpleModule-box self.now in
            let text = scalars_of_run C.behaviour editing.model in
            FileWritten text editing.done (O.taken out.old) (O.taken out.new) result }
    {
        self.session.scalars(out)
    }

    /// Writes the vector file of the last run.
    pub fn vectors<O: Out>(&self, out: &mut O) -> Result<(), FileFault>
        requires sound { IsSettled C.behaviour SimpleModule-box self.now }
        ensures written { let editing = editing_at SimpleModule-box self.now in
            let text = vectors_of_run C.behaviour editing.model in
            FileWritten text editing.done (O.taken out.old) (O.taken out.new) result }
    {
        self.session.vectors(out)
    }

    /// The name of the configuration that is selected.
    pub fn config(&self) -> &[u8]
        ensures { result.now ≡ (editing_at SimpleModule-box self.now).model.config }
    {
        self.session.config()
    }

    /// How the last run ended, where one is done.
    pub fn outcome(&self) -> Option<&Outcome>
        requires sound { IsSettled C.behaviour SimpleModule-box self.now }
        ensures { let editing = editing_at SimpleModule-box self.now in
            option_copied result ≡ option_map (λ (d : Completed). d.outcome) editing.done }
    {
        self.session.outcome()
    }
}
