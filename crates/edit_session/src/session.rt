//! A session.

ghost use Rattle.std.specs.Prelude.{◌≡◌, ◌↔◌, ◌≤◌, true, Some, None, IsSome, OnOk, OnErr, IfOk, ◌+◌};
ghost use Rattle.std.specs.Prelude.{IfErr, List, length, option_map, option_copied};
ghost use Rattle.model_data.specs.declared.model.Model.{Model};
ghost use Rattle.model_answers.specs.Answering.{answers_of};
ghost use Rattle.model_agreement.specs.Models.{RestOnSame};
ghost use Rattle.model_reading.specs.Models.{IsModelOf, IsRuledOut, Refuses};
ghost use Rattle.model_edits.specs.Edited.{number_given, IsRuledOut as IsEditRuledOut};
ghost use Rattle.model_edits.specs.Edited.{Refuses as RefusesEdit};
ghost use Rattle.edit_session.specs.Files.{files_in, files_of_last, scalars_of_run};
ghost use Rattle.edit_session.specs.Files.{vectors_of_run, AreFilesOf, FileWritten};
ghost use Rattle.edit_session.specs.Files.{IsFileWritten};
ghost use Rattle.edit_session.specs.Editing.{asked_at_start, declined_at, edited_by, fresh_editing};
ghost use Rattle.edit_session.specs.Editing.{given_up, last_used, supplied_phase, Completed};
ghost use Rattle.edit_session.specs.Editing.{wanted_of, with_box, IfDone, IfWaiting, IsAccepted};
ghost use Rattle.edit_session.specs.Editing.{IsFor, IsFreshRun, IsGivenUp, IsUnknown, WaitsFor};
ghost use Rattle.edit_session.specs.Editing.{observed_in, went_on_in};
ghost use Rattle.checkpoint_runs.specs.Kept.{kept_up_to, AreGood, HasGood};
ghost use Rattle.checkpoint_runs.specs.Positions.{CanBeStored};
ghost use Rattle.checkpoint_runs.specs.Positions.{HasStored};
ghost use Rattle.checkpoint_runs.specs.declared.phases.Stood.{Stood};
ghost use Rattle.checkpoint_runs.specs.Running.{is_back, resumed};
ghost use Rattle.checkpoint_runs.specs.Observing.{IsTold};
ghost use Rattle.checkpoint_runs.specs.Telling.{AreTold};
ghost use Rattle.kernel.specs.declared.request.Request.{Request};
ghost use Rattle.edit_session.specs.Lasting.{IsTouched};
ghost use Rattle.edit_session.specs.Reuse.{IsKnown, IsValidTo};
ghost use Rattle.edit_session.specs.Sessions.{editing_of, stood_in, IsChangeOf, IsSound};
ghost use Rattle.edit_session.specs.Sessions.{KeepsModel};
ghost use Rattle.kernel.specs.Kernels.{world_in, HasKinds};
ghost use Rattle.kernel_call_views.specs.Tables.{AreShown};
ghost use Rattle.model_questions.specs.declared.record.Record.{Record};
ghost use Rattle.checkpoints.specs.Stored.{counts_in, most_stored};
ghost use Rattle.model_edits.specs.declared.edit.Edit.{Edit};

use crate::phases::{asked_at_start, declined_at, is_back, supplied_phase};
use crate::replies::{no_room_for, report_of, written};
use crate::values::{Following, SessionModel, Touched, touched_by};
use checkpoint_runs::observer::Observer;
use checkpoint_runs::phases::{Ended, Phase, Point, Progress, RunStatus, Stood, Wait};
use checkpoint_runs::running::Runner;
use checkpoints::positions::Positions;
use kernel::kernel::Kernel;
use kernel::request::Request;
use kernel_call_views::CallViews;
use model_agreement::agreement::agreement;
use model_answers::evaluated::EvaluatedModel;
use model_data::model::Model;
use model_edits::edit::{Edit, Refusal, edited, number_given};
use model_reading::begin::{BeginFault, model_of};
use module_api::catalogue::Catalogue;
use module_api::simple_module::SimpleModule;
use module_tree::Tree;
use ned_trees::texts::NedTexts;
use result_files::files::{ResultFiles, prepare, write_scalars, write_vectors};
use result_lines::writer::{Device, Out};
use run_semantics::outcome::Outcome;
use sim_values::NoMemory;
use std::alloc::{AllocFailed, Global};
use std::marker::PhantomData;
use std::mem::replace;
use thiserror::Error;

/// A run that is done.
#[derive(Drop)]
pub struct Done {
    pub limit: u64,
    pub outcome: Outcome,
}

/// What a run that is done tells.
#[derive(Drop)]
pub struct Report {
    pub outcome: Outcome,
    /// The event after which it began, none where it began with setup.
    pub started_from: Option<u64>,
    /// How many events were executed after that.
    pub executed: u64,
}

/// What an accepted edit tells.
#[derive(Clone, Copy, PartialEq, Eq)]
pub struct Edited {
    /// The greatest event up to which the last run stays that of the model as edited. None: the
    /// next run begins with setup.
    pub valid_to: Option<u64>,
    /// The number of the injection that was added, where one was.
    pub injection: Option<u32>,
}

/// What an edit changes: the model, and what is told of it.
#[derive(Drop)]
pub struct Change {
    pub model: SessionModel,
    pub edited: Edited,
    /// Whether it is known that the values of the modules rest on what they rested on.
    pub same: bool,
}

/// No box is waited for.
#[derive(Clone, Copy, Debug, PartialEq, Eq, Error)]
#[error("NotWanted")]
pub struct NotWanted;

/// Why a box was handed back.
#[derive(Clone, Copy, Debug, PartialEq, Eq, Error)]
pub enum SupplyReason {
    /// No box is waited for.
    #[error("NotWanted")]
    NotWanted,
    /// Memory ran out; the run waits still.
    #[error("NoMemory")]
    NoMemory(NoMemory),
}

/// Why a result file isn't written.
#[derive(Clone, Copy, Debug, PartialEq, Eq, Error)]
pub enum FileFault {
    /// No run is done.
    #[error("NotDone")]
    NotDone,
    /// Memory ran out before anything was written.
    #[error("NoMemory")]
    NoMemory(NoMemory),
    /// The device failed or took nothing, after so many bytes of the text.
    #[error("Device({0})")]
    Device(u128),
}

/// A box that was handed back.
#[derive(Drop)]
pub struct SupplyFault {
    pub held: Box<dyn SimpleModule>,
    pub reason: SupplyReason,
}

/// One model, its edits and its runs.
pub struct Session<C: Catalogue> {
    alloc: Global,
    runner: Runner<C>,
    model: SessionModel,
    phase: Phase,
    done: Option<Done>,
    /// The last event of a run of the model whose questions the kernel has, where there is one.
    known: Option<u64>,
    /// What calls show of the modules of the last run, as far as it was found, for the next one.
    shown: CallViews,
    /// What the kernel holds, so that contracts can name what boxes say of themselves.
    holds: PhantomData<Box<dyn SimpleModule>>,
}

// Written out, so that a crate which drops one need not prove what that does.
impl<C: Catalogue> Drop for Session<C> {
    fn drop(self) {
        let Session {
            alloc: _,
            runner: _,
            model: _,
            phase: _,
            done: _,
            known: _,
            shown: _,
            holds: _,
        } = self;
    }
}

impl<C: Catalogue> Session<C> {
    /// A session of the model that these texts make, or why they make none. A run leaves a position
    /// after each multiple of `interval` events, to which a later one can go back. At most 64 are
    /// stored: where there would be one more, the interval is doubled, up to 2^62, and of all those
    /// stay that are at its multiples, and the newest. Where none is left it is again the first.
    pub fn begin(
        alloc: Global,
        texts: &NedTexts,
        ini: &[u8],
        config: &[u8],
        interval: u64,
    ) -> Result<Session<C>, BeginFault>
        requires interval { 1 ≤ interval }
        ensures sound { IfOk result (λ session. IsSound C.behaviour SimpleModule-box session) }
        ensures editing { IfOk result (λ session. (model : Model)
            × IsModelOf texts.now ini.now config.now model
            × (editing_of SimpleModule-box session ≡ fresh_editing model interval)) }
        ensures stood { IfOk result (λ session. stood_in session ≡ Stood.Before) }
        ensures refused { IfErr result (λ fault. Refuses texts.now ini.now config.now fault) }
        // Where the texts make a model, there is a session of it, unless memory runs out.
        ensures complete { IfErr result (λ fault. IsRuledOut texts.now ini.now config.now fault) }
    {
        let model = model_of(alloc, texts, ini, config)?;
        match EvaluatedModel::new(alloc, model) {
            Ok(model) => Ok(Session::begun(alloc, SessionModel::of_text(model), interval)),
            Err(error) => Err(BeginFault::NoMemory(error)),
        }
    }

    /// A session of this model, which no call but an accepted edit changes.
    pub fn of_model(alloc: Global, model: EvaluatedModel, interval: u64) -> Session<C>
        requires { 1 ≤ interval }
        ensures sound { IsSound C.behaviour SimpleModule-box result }
        ensures editing { editing_of SimpleModule-box result ≡ fresh_editing model interval }
        ensures stood { stood_in result ≡ Stood.Before }
    {
        Session::begun(alloc, SessionModel::of_lines(model), interval)
    }

    /// A session of this model.
    fn begun(alloc: Global, model: SessionModel, interval: u64) -> Session<C>
        requires { 1 ≤ interval }
        ensures sound { IsSound C.behaviour SimpleModule-box result }
        ensures editing { editing_of SimpleModule-box result ≡ fresh_editing model interval }
        ensures stood { stood_in result ≡ Stood.Before }
    {
        Session {
            alloc,
            // A runner's parts are put together here: a function of its crate that made one would
            // hand out boxes that it did not take.
            runner: Runner {
                kernel: Kernel::new(alloc, Tree::new(alloc)),
                waiting: Tree::new(alloc),
                positions: Positions::new(alloc, interval),
                stood: Stood::Before,
                holds: PhantomData,
            },
            model,
            phase: Phase::Idle,
            done: None,
            known: None,
            shown: CallViews::new(alloc),
            holds: PhantomData,
        }
    }

    /// Changes the model as the edit says, or tells why not. An accepted edit gives up a run that
    /// waits, and no run is done until the next one; the boxes stay until then.
    pub fn edit(&mut self, edit: Edit) -> Result<Edited, Refusal>
        requires sound { IsSound C.behaviour SimpleModule-box self.old }
        ensures sound { IsSound C.behaviour SimpleModule-box self.new }
        ensures stood { stood_in self.new ≡ stood_in self.old }

        // The session's model is then the one that the edit makes; it is told up to which event the
        // last run stays valid.
        ensures accepted { let before = editing_of SimpleModule-box self.old in
            let after = editing_of SimpleModule-box self.new in
            IfOk result (λ edited. IsAccepted C.behaviour before edit edited after) }

        // A refusal has its reason, in its order; none comes where the edit makes a model, unless
        // memory runs out.
        ensures refused { let before = editing_of SimpleModule-box self.old in
            IfErr result (λ r. RefusesEdit before.model edit r) }
        ensures complete { let before = editing_of SimpleModule-box self.old in
            IfErr result (λ r. IsEditRuledOut before.model edit r) }

        // A REFUSED EDIT CHANGES NOTHING.
        ensures unchanged { OnErr result (self.new ≡ self.old) }
    {
        let change = self.change(edit)?;
        Ok(self.accept(change))
    }

    /// What the edit changes, or why it is refused. Nothing is changed yet.
    pub fn change(&self, edit: Edit) -> Result<Change, Refusal>
        requires sound { IsSound C.behaviour SimpleModule-box self.now }

        // The model of the change is the one that the edit makes; it tells up to which event the
        // last run stays valid.
        ensures changed { IfOk result (λ change.
            IsChangeOf C.behaviour SimpleModule-box self.now edit change) }

        // A refusal has its reason, in its order; none comes where the edit makes a model, unless
        // memory runs out.
        ensures refused { let before = editing_of SimpleModule-box self.now in
            IfErr result (λ r. RefusesEdit before.model edit r) }
        ensures complete { let before = editing_of SimpleModule-box self.now in
            IfErr result (λ r. IsEditRuledOut before.model edit r) }
    {
        let given = self.number_given(&edit);
        let touched = touched_by(&edit);
        let model = edited(self.alloc, self.model.model(), edit)?;
        match self.change_to(model, touched, given) {
            Ok(change) => Ok(change),
            Err(error) => Err(Refusal::NoMemory(error)),
        }
    }

    /// The change to this model, of which the edit changed so much, and in which the injection of
    /// that number was added, if one was. Where the values of the session's model stay, none is found
    /// anew, and no answer that rests on them alone is compared.
    fn change_to(
        &self,
        model: Model,
        touched: Touched,
        given: Option<u64>,
    ) -> Result<Change, NoMemory>
        requires sound { IsSound C.behaviour SimpleModule-box self.now }
        requires touched { IsTouched touched self.now.model model }
        ensures model { IfOk result (λ change. change.model ≡ model) }
        ensures injection { IfOk result
            (λ change. change.edited.injection ≡ last_used model.last_injection given) }
        ensures valid { let before = editing_of SimpleModule-box self.now in
            IfOk result (λ change. IsValidTo C.behaviour (answers_of before.model)
            (answers_of change.model) before.known
            change.edited.valid_to) }
        ensures known { IfOk result (λ change.
            IsKnown C.behaviour (answers_of change.model)
            (world_in SimpleModule-box self.now.runner.kernel) change.edited.valid_to) }
        ensures good { let kernel = self.now.runner.kernel in
            IfOk result (λ change.
            AreGood C.behaviour (answers_of change.model) (world_in SimpleModule-box kernel)
            (kept_up_to change.edited.valid_to self.now.runner.positions).stored) }
        ensures same { IfOk result
            (λ change. change.same ≡ true → RestOnSame self.now.model model) }
    {
        let injection = last_used(model.last_injection, given);
        let Following { model, same } = self.model.followed_by(self.alloc, model, touched)?;
        let valid_to = self.valid_to(model.evaluated(), same)?;
        Ok(Change {
            model,
            edited: Edited {
                valid_to,
                injection,
            },
            same,
        })
    }

    /// Up to which event the last run is that of this model too. It may be known that the values of
    /// its modules rest on the same as those of the session's.
    fn valid_to(&self, model: &EvaluatedModel, same: bool) -> Result<Option<u64>, NoMemory>
        requires sound { IsSound C.behaviour SimpleModule-box self.now }
        requires same { same ≡ true → RestOnSame self.now.model model.now }
        ensures valid { let before = editing_of SimpleModule-box self.now in
            IfOk result (λ valid. IsValidTo C.behaviour (answers_of before.model)
            (answers_of model.now) before.known valid) }
        ensures known { IfOk result (λ valid.
            IsKnown C.behaviour (answers_of model.now)
            (world_in SimpleModule-box self.now.runner.kernel) valid) }
        ensures good { let kernel = self.now.runner.kernel in
            IfOk result (λ valid.
            AreGood C.behaviour (answers_of model.now) (world_in SimpleModule-box kernel)
            (kept_up_to valid self.now.runner.positions).stored) }
    {
        let Some(last) = self.known else {
            return Ok(None);
        };
        let kernel = &self.runner.kernel;
        agreement(
            self.alloc,
            self.model.evaluated(),
            model,
            same,
            kernel.records(),
            kernel.questions(),
            last,
        )
    }

    /// Makes a change, which takes no memory. A run that waits is given up, and no run is done until
    /// the next one; the boxes stay until then. Of the stored positions those stay up to which the
    /// last run stays valid, and what calls show of modules stays where their values rest on what
    /// they rested on.
    pub fn accept(&mut self, change: Change) -> Edited
        requires sound { IsSound C.behaviour SimpleModule-box self.old }
        requires changed { (edit : Edit)
            × IsChangeOf C.behaviour SimpleModule-box self.old edit change }
        ensures sound { IsSound C.behaviour SimpleModule-box self.new }
        ensures stood { stood_in self.new ≡ stood_in self.old }
        ensures told { result ≡ change.edited }
        ensures left { editing_of SimpleModule-box self.new
            ≡ edited_by (editing_of SimpleModule-box self.old) change }
    {
        let Change {
            model,
            edited,
            same,
        } = change;
        keep_shown(self.alloc, &mut self.shown, same);
        self.model = model;
        self.give_up();
        self.known = edited.valid_to;
        self.runner.keep_up_to(edited.valid_to);
        edited
    }

    /// The number that this edit would give to the injection that it adds, where it adds one. No
    /// number is given twice.
    pub fn number_given(&self, edit: &Edit) -> Option<u64>
        ensures { let editing = editing_of SimpleModule-box self.now in
            result ≡ number_given edit.now editing.model }
    {
        number_given(self.model.model(), edit)
    }

    /// Gives up a run that waits, and what is kept of the last one that is done.
    fn give_up(&mut self)
        ensures { self.new ≡ record self.old { phase = Phase.Idle; done = None; known = None } }
    {
        self.phase = Phase::Idle;
        self.done = None;
        self.known = None;
    }

    /// The name of the configuration that is selected.
    pub fn config(&self) -> &[u8]
        ensures { result.now ≡ (editing_of SimpleModule-box self.now).model.config }
    {
        self.model.model().config.as_bytes()
    }

    /// Runs the model for at most so many events: goes on with the run that waits, unless it waits
    /// after more events, or begins at the greatest stored position up to there, or with setup. Or
    /// answers which module needs a box first where the run begins or before its next event, of
    /// those without one the one of the least id. The observer is told of each event that is
    /// executed.
    pub fn run<W: Observer>(
        &mut self,
        limit: u64,
        observer: &mut W,
    ) -> Result<RunStatus<Report>, NoMemory>
        requires sound { IsSound C.behaviour SimpleModule-box self.old }
        ensures kept { KeepsModel C.behaviour SimpleModule-box self.old self.new }

        // THE HEADLINE: a run that is done is a fresh run of the session's model.
        ensures done { let before = editing_of SimpleModule-box self.old in
            let after = editing_of SimpleModule-box self.new in
            IfOk result (λ status. IfDone status (λ report.
            IsFreshRun C.behaviour before limit report after)) }

        // It waits exactly while a box is missing that isn't declined.
        ensures waits { let before = editing_of SimpleModule-box self.old in
            let after = editing_of SimpleModule-box self.new in
            IfOk result (λ status.
            IfWaiting status (λ request. WaitsFor C.behaviour before limit request after)) }

        // After lack of memory no run waits, and none is done; the positions that it stored stay,
        // up to where it stood.
        ensures memory { let before = editing_of SimpleModule-box self.old in
            OnErr result (IsGivenUp C.behaviour before limit
            (editing_of SimpleModule-box self.new)) }
        ensures stood { let before = editing_of SimpleModule-box self.old in
            let after = editing_of SimpleModule-box self.new in
            OnErr result (HasStored C.behaviour (answers_of before.model) limit
            (resumed limit before.phase) before.positions (stood_in self.new) after.positions) }

        // The observer is told where it goes on and each event, up to where it waits or ends; after
        // lack of memory up to where it stood.
        ensures observed { let before = editing_of SimpleModule-box self.old in
            OnOk result
            (AreTold W.told observer.old (observed_in C.behaviour before limit) observer.new) }
        ensures observed_until { let before = editing_of SimpleModule-box self.old in
            let on = went_on_in C.behaviour before limit in
            OnErr result (IsTold C.behaviour (answers_of before.model) limit on W.told observer.old
            (stood_in self.new) observer.new) }
    {
        match self.run_through(limit, observer) {
            Ok(progress) => Ok(progress),
            Err(error) => {
                self.drop_run();
                Err(error)
            }
        }
    }

    /// The same, but that after lack of memory nothing is said of what is known.
    fn run_through<W: Observer>(
        &mut self,
        limit: u64,
        observer: &mut W,
    ) -> Result<RunStatus<Report>, NoMemory>
        requires sound { IsSound C.behaviour SimpleModule-box self.old }
        ensures model { self.new.model ≡ self.old.model }
        ensures kinds { HasKinds C.behaviour SimpleModule-box self.new.runner.kernel }
        ensures good { HasGood C.behaviour (answers_of self.new.model) SimpleModule-box
            self.new.runner }
        ensures stored { HasStored C.behaviour (answers_of self.old.model) limit
            (resumed limit self.old.phase) (counts_in self.old.runner.positions)
            self.new.runner.stood (counts_in self.new.runner.positions) }
        ensures sound { OnOk result (IsSound C.behaviour SimpleModule-box self.new) }
        ensures done { let before = editing_of SimpleModule-box self.old in
            let after = editing_of SimpleModule-box self.new in
            IfOk result (λ status. IfDone status (λ report.
            IsFreshRun C.behaviour before limit report after)) }
        ensures waits { let before = editing_of SimpleModule-box self.old in
            let after = editing_of SimpleModule-box self.new in
            IfOk result (λ status.
            IfWaiting status (λ request. WaitsFor C.behaviour before limit request after)) }
        ensures observed { let before = editing_of SimpleModule-box self.old in
            OnOk result
            (AreTold W.told observer.old (observed_in C.behaviour before limit) observer.new) }
        ensures observed_until { let before = editing_of SimpleModule-box self.old in
            let on = went_on_in C.behaviour before limit in
            OnErr result (IsTold C.behaviour (answers_of before.model) limit on W.told observer.old
            (stood_in self.new) observer.new) }
    {
        let phase = self.phase;
        self.give_up();
        // What calls show is put back where the run is done: else there is nothing of it.
        let mut shown = replace(&mut self.shown, CallViews::new(self.alloc));
        match self.runner.advance(
            self.alloc,
            self.model.evaluated(),
            phase,
            limit,
            &mut shown,
            observer,
        )? {
            Progress::Waits(wait) => {
                let Wait { from, at, request } = wait;
                self.phase = Phase::Waiting(from, at);
                match at {
                    Point::Start(count, _id) => {
                        self.shown = shown;
                        self.known = Some(count);
                    }
                    // What was asked after the event where it begins is given up.
                    Point::Setup => self.known = self.runner.cut_back(),
                    Point::Position => self.known = self.runner.cut_back(),
                }
                Ok(RunStatus::Waits(request))
            }
            Progress::Done(ended) => {
                let Ended { start, outcome } = ended;
                let count = self.runner.kernel.count();
                let report = report_of(self.alloc, &outcome, start, count)?;
                self.shown = shown;
                self.known = Some(count);
                self.done = Some(Done { limit, outcome });
                Ok(RunStatus::Done(report))
            }
        }
    }

    /// Gives up a run that waits, as one is given up for which memory runs out: no run is done, and
    /// the boxes are dropped that were supplied for a start. The stored positions stay, and nothing
    /// is known but the events up to the last of them. It takes no memory.
    pub fn give_up_run(&mut self)
        requires sound { IsSound C.behaviour SimpleModule-box self.old }
        ensures sound { IsSound C.behaviour SimpleModule-box self.new }
        ensures stood { stood_in self.new ≡ stood_in self.old }
        ensures left { editing_of SimpleModule-box self.new
            ≡ given_up (editing_of SimpleModule-box self.old) }
    {
        self.drop_run();
    }

    /// The same, wherever the run stands.
    fn drop_run(&mut self)
        requires kinds { HasKinds C.behaviour SimpleModule-box self.old.runner.kernel }
        requires good { HasGood C.behaviour (answers_of self.old.model) SimpleModule-box
            self.old.runner }
        requires stored { CanBeStored (counts_in self.old.runner.positions) }
        ensures sound { IsSound C.behaviour SimpleModule-box self.new }
        ensures left { editing_of SimpleModule-box self.new
            ≡ given_up (editing_of SimpleModule-box self.old) }
        ensures stood { stood_in self.new ≡ stood_in self.old }
    {
        self.give_up();
        self.runner.drop_waiting();
        self.known = self.runner.cut_back();
        self.shown = CallViews::new(self.alloc);
    }

    /// Where the run stood that was asked for last, where memory ran out for it: up to there its
    /// positions are stored.
    pub fn stood(&self) -> Stood
        ensures { result ≡ stood_in self.now }
    {
        self.runner.stood
    }

    /// Gives the module that the run waits for its box, or hands the box back: where no run waits
    /// for one, or where memory runs out, and then the run waits still.
    pub fn supply(&mut self, held: Box<dyn SimpleModule>) -> Result<(), SupplyFault>
        requires wanted { let editing = editing_of SimpleModule-box self.old in
            IsFor C.behaviour (wanted_of C.behaviour editing) (meaning held) }
        requires sound { IsSound C.behaviour SimpleModule-box self.old }
        ensures sound { IsSound C.behaviour SimpleModule-box self.new }
        ensures stood { stood_in self.new ≡ stood_in self.old }
        ensures ok { let editing = editing_of SimpleModule-box self.old in
            OnOk result (IsSome (wanted_of C.behaviour editing)
            × (editing_of SimpleModule-box self.new ≡ with_box C.behaviour editing)) }
        ensures err { let editing = editing_of SimpleModule-box self.old in
            IfErr result (λ fault. (fault.held ≡ held)
            × (editing_of SimpleModule-box self.new ≡ editing)
            × (fault.reason ≡ SupplyReason.NotWanted ↔ wanted_of C.behaviour editing ≡ None)) }
    {
        match self.wanted_id() {
            None => Err(SupplyFault {
                held,
                reason: SupplyReason::NotWanted,
            }),
            Some(id) => match self.place(id, held) {
                Ok(()) => Ok(()),
                Err(failed) => Err(no_room_for(failed)),
            },
        }
    }

    /// Says that there is no box for the module that the run waits for: its start then has the
    /// fault UnknownClass, without a further question.
    pub fn decline(&mut self) -> Result<(), NotWanted>
        requires unknown { let editing = editing_of SimpleModule-box self.old in
            IsUnknown C.behaviour (wanted_of C.behaviour editing) }
        requires sound { IsSound C.behaviour SimpleModule-box self.old }
        ensures sound { IsSound C.behaviour SimpleModule-box self.new }
        ensures stood { stood_in self.new ≡ stood_in self.old }
        ensures ok { let editing = editing_of SimpleModule-box self.old in
            OnOk result (IsSome (wanted_of C.behaviour editing)
            × (editing_of SimpleModule-box self.new
            ≡ record editing { phase = declined_at editing.phase })) }
        ensures err { let editing = editing_of SimpleModule-box self.old in
            OnErr result ((wanted_of C.behaviour editing ≡ None)
            × (editing_of SimpleModule-box self.new ≡ editing)) }
    {
        match self.wanted_id() {
            None => Err(NotWanted),
            Some(_) => {
                self.phase = declined_at(self.phase);
                Ok(())
            }
        }
    }

    /// The id of the module whose box is waited for.
    fn wanted_id(&self) -> Option<u32>
        requires sound { IsSound C.behaviour SimpleModule-box self.now }
        ensures { let editing = editing_of SimpleModule-box self.now in
            result ≡ option_map (λ (r : Request). r.id) (wanted_of C.behaviour editing) }
    {
        match self.phase {
            Phase::Waiting(_from, Point::Setup) => {
                self.runner.kernel.missing_id(&self.runner.waiting)
            }
            Phase::Waiting(_from, Point::Position) => self.runner.lacking_id(),
            Phase::Waiting(_from, Point::Start(_count, _id)) => asked_at_start(self.phase),
            Phase::Idle => None,
            Phase::Declined(_from, _at) => None,
        }
    }

    /// Gives the module of that id, which is waited for, its box, or hands the box back where
    /// memory runs out.
    fn place(
        &mut self,
        id: u32,
        held: Box<dyn SimpleModule>,
    ) -> Result<(), AllocFailed<Box<dyn SimpleModule>>>
        requires id { let editing = editing_of SimpleModule-box self.old in
            option_map (λ (r : Request). r.id) (wanted_of C.behaviour editing) ≡ Some id }
        requires wanted { let editing = editing_of SimpleModule-box self.old in
            IsFor C.behaviour (wanted_of C.behaviour editing) (meaning held) }
        requires sound { IsSound C.behaviour SimpleModule-box self.old }
        ensures sound { IsSound C.behaviour SimpleModule-box self.new }
        ensures stood { stood_in self.new ≡ stood_in self.old }
        ensures ok { let editing = editing_of SimpleModule-box self.old in
            OnOk result (editing_of SimpleModule-box self.new ≡ with_box C.behaviour editing) }
        ensures err { OnErr result (editing_of SimpleModule-box self.new
            ≡ editing_of SimpleModule-box self.old) }
        ensures returned { IfErr result (λ failed. failed.value ≡ held) }
    {
        if is_back(self.phase) {
            self.runner.kernel.supply(id, held)
        } else {
            self.runner.supply(id, held)?;
            self.phase = supplied_phase(self.phase);
            Ok(())
        }
    }

    /// What the files of a run need that left the kernel's world.
    fn files_now(&self) -> Result<ResultFiles, NoMemory>
        ensures { let world = world_in SimpleModule-box self.now.runner.kernel in
            IfOk result (λ files. files ≡ files_in self.now.model world) }
    {
        let kernel = &self.runner.kernel;
        prepare(
            self.alloc,
            self.model.evaluated(),
            kernel.records(),
            kernel.finished(),
            kernel.scalars(),
            kernel.emissions(),
        )
    }

    /// What the files of the last run need, so that `put_scalars` and `put_vectors` write them
    /// without memory. None: no run is done.
    pub fn files(&self) -> Result<Option<ResultFiles>, NoMemory>
        requires sound { IsSound C.behaviour SimpleModule-box self.now }
        ensures files { let editing = editing_of SimpleModule-box self.now in
            IfOk result (λ files.
            files ≡ files_of_last C.behaviour editing.model editing.done) }
        ensures done { let editing = editing_of SimpleModule-box self.now in
            OnErr result (IsSome editing.done) }
    {
        match &self.done {
            None => Ok(None),
            Some(_done) => {
                let files = self.files_now()?;
                Ok(Some(files))
            }
        }
    }

    /// Writes the scalar file of the last run, by what `files` answered of it. It takes no memory.
    pub fn put_scalars<O: Out>(&self, files: &ResultFiles, out: &mut O) -> Result<(), Device>
        requires sound { IsSound C.behaviour SimpleModule-box self.now }
        requires files { let editing = editing_of SimpleModule-box self.now in
            AreFilesOf C.behaviour editing.model editing.done files.now }
        ensures written { let editing = editing_of SimpleModule-box self.now in
            let text = scalars_of_run C.behaviour editing.model in
            IsFileWritten text editing.done (O.taken out.old) (O.taken out.new) result }
    {
        write_scalars(out, files)
    }

    /// Writes the vector file of the last run, by what `files` answered of it. It takes no memory.
    pub fn put_vectors<O: Out>(&self, files: &ResultFiles, out: &mut O) -> Result<(), Device>
        requires sound { IsSound C.behaviour SimpleModule-box self.now }
        requires files { let editing = editing_of SimpleModule-box self.now in
            AreFilesOf C.behaviour editing.model editing.done files.now }
        ensures written { let editing = editing_of SimpleModule-box self.now in
            let text = vectors_of_run C.behaviour editing.model in
            IsFileWritten text editing.done (O.taken out.old) (O.taken out.new) result }
    {
        let kernel = &self.runner.kernel;
        write_vectors(out, files, kernel.records(), kernel.emissions())
    }

    /// Writes the scalar file of the last run.
    pub fn scalars<O: Out>(&self, out: &mut O) -> Result<(), FileFault>
        requires sound { IsSound C.behaviour SimpleModule-box self.now }
        ensures written { let editing = editing_of SimpleModule-box self.now in
            let text = scalars_of_run C.behaviour editing.model in
            FileWritten text editing.done (O.taken out.old) (O.taken out.new) result }
    {
        match self.files() {
            Ok(None) => Err(FileFault::NotDone),
            Ok(Some(files)) => written(self.put_scalars(&files, out)),
            Err(error) => Err(FileFault::NoMemory(error)),
        }
    }

    /// Writes the vector file of the last run.
    pub fn vectors<O: Out>(&self, out: &mut O) -> Result<(), FileFault>
        requires sound { IsSound C.behaviour SimpleModule-box self.now }
        ensures written { let editing = editing_of SimpleModule-box self.now in
            let text = vectors_of_run C.behaviour editing.model in
            FileWritten text editing.done (O.taken out.old) (O.taken out.new) result }
    {
        match self.files() {
            Ok(None) => Err(FileFault::NotDone),
            Ok(Some(files)) => written(self.put_vectors(&files, out)),
            Err(error) => Err(FileFault::NoMemory(error)),
        }
    }

    /// The positions that are stored, by their counts of events, which rise. Whatever edits and
    /// runs came before, there are at most 64.
    pub fn positions(&self) -> &[u64]
        ensures are { result.now ≡ (editing_of SimpleModule-box self.now).positions.stored }
        ensures few { IsSound C.behaviour SimpleModule-box self.now
            → length result.now ≤ most_stored }
    {
        self.runner.positions.counts()
    }

    /// The last event whose questions are known, where there is one: of a run that is done its last
    /// one, after an edit the one that it told, after lack of memory that of the last position.
    pub fn known_to(&self) -> Option<u64>
        ensures { result ≡ (editing_of SimpleModule-box self.now).known }
    {
        self.known
    }

    /// How many boxes the session holds: those of modules that were started, and those that were
    /// supplied for a start.
    pub fn held(&self) -> u128
        ensures { let editing = editing_of SimpleModule-box self.now in
            result ≡ length editing.boxes + length editing.supplied }
    {
        self.runner.held()
    }

    /// How the last run ended, where one is done.
    pub fn outcome(&self) -> Option<&Outcome>
        ensures { let editing = editing_of SimpleModule-box self.now in
            option_copied result ≡ option_map (λ (d : Completed). d.outcome) editing.done }
    {
        match &self.done {
            Some(done) => Some(&done.outcome),
            None => None,
        }
    }
}

/// The last number that was used, where one was given.
fn last_used(last: u32, given: Option<u64>) -> Option<u32>
    ensures { result ≡ last_used last given }
{
    match given {
        Some(_) => Some(last),
        None => None,
    }
}

/// What calls show of modules stays where it is known that their values rest on what they rested on;
/// else none of it.
fn keep_shown(alloc: Global, shown: &mut CallViews, same: bool)
    ensures { (m n : Model) (records : List Record) → (same ≡ true → RestOnSame m n)
        → AreShown (answers_of m) records shown.old → AreShown (answers_of n) records shown.new }
{
    if same {
        return;
    }
    *shown = CallViews::new(alloc);
}
