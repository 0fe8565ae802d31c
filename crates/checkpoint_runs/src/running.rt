//! A run, from setup or from a position, and the positions that it leaves.

ghost use Rattle.std.specs.Prelude.{◌≡◌, ◌≤◌, ◌<◌, ◌&&◌, ◌++◌, ◌∷◌, [], not, true, None, Some};
ghost use Rattle.checkpoint_runs.specs.declared.phases.AtSetup.{AtSetup};
ghost use Rattle.std.specs.Prelude.{ℕ, Option, OnOk, OnErr, IfOk, IfErr, List, length, ◌+◌};
ghost use Rattle.model_answers.specs.Answering.{answers_of};
ghost use Rattle.run_semantics.specs.Run.{prepared, run_to, settled, stage_of, standing, start};
ghost use Rattle.run_semantics.specs.Run.{wanted};
ghost use Rattle.kernel_actions.specs.Positions.{position_of};
ghost use Rattle.kernel_call_views.specs.Tables.{AreShown};
ghost use Rattle.model_questions.specs.Answers.{Answers as Answered};
ghost use Rattle.model_questions.specs.declared.record.Record.{Record};
ghost use Rattle.run_semantics.specs.Laws.{GoesOn};
ghost use Rattle.kernel.specs.Kernels.{boxes_in, world_in, ran_in, HasKinds};
ghost use Rattle.kernel.specs.Starts.{AreFirstOf};
ghost use Rattle.checkpoints.specs.Stored.{counts_in, counts_of, is_multiple, last_of, AreBelow};
ghost use Rattle.checkpoints.specs.Stored.{AreRising, IsBegun};
ghost use Rattle.checkpoint_runs.specs.Running.{at_setup, fresh_run, kept_at_setup, parts_in};
ghost use Rattle.checkpoint_runs.specs.Running.{progress_of, resumed, wanted_at_setup};
ghost use Rattle.checkpoint_runs.specs.Running.{wanted_by, Advances, CanStart, IsDeclined};
ghost use Rattle.checkpoint_runs.specs.Running.{IsFilled, IsLive, IsLiveAtSetup, IsRefused, Stands};
ghost use Rattle.checkpoint_runs.specs.Running.{Wants};
ghost use Rattle.checkpoint_runs.specs.Kept.{standing_in, cut_to_last, kept_up_to, lacking_at};
ghost use Rattle.checkpoint_runs.specs.Kept.{is_owed, taken_if};
ghost use Rattle.checkpoint_runs.specs.Kept.{supplied_in, waiting_in, CanGoOnWith, HasAllBelow};
ghost use Rattle.checkpoint_runs.specs.Kept.{HasGood, HasRun, HasRunOn, HasStarted, IsBack};
ghost use Rattle.checkpoint_runs.specs.Kept.{IsBesideKernel, IsGoing};
ghost use Rattle.checkpoint_runs.specs.Positions.{last_count, start_of, HasBegun, HasLeft, HasStored};
ghost use Rattle.checkpoint_runs.specs.Shown.{IsShownAfter};
ghost use Rattle.checkpoint_runs.specs.Telling.{Executed, AreTold};
ghost use Rattle.checkpoint_runs.specs.Observing.{behind_setup, begins_at, executed_after};
ghost use Rattle.checkpoint_runs.specs.Observing.{told_by, told_to, told_when, went_on};
ghost use Rattle.checkpoint_runs.specs.Observing.{AreExecuted, IsTold};
ghost use Rattle.kernel_boxes.specs.Seats.{BoxAt, AreBelow as AreOfSmallerIds};
ghost use Rattle.kernel_boxes.specs.Saved.{instances_held};
ghost use Rattle.checkpoint_runs.specs.declared.phases.Stood.{Stood};

use crate::observer::Observer;
use crate::phases::{
    AtSetup, Ended, Phase, Point, Progress, Resumed, RunStatus, Stood, Wait, at_setup, goes_on_at,
    progress_of,
};
use checkpoints::positions::Positions;
use kernel::kernel::Kernel;
use kernel_call_views::CallViews;
use model_answers::asked::AskedModel;
use model_answers::evaluated::EvaluatedModel;
use module_api::catalogue::Catalogue;
use module_api::simple_module::SimpleModule;
use module_tree::Tree;
use run_answers::{Answers, ModelMarker};
use run_semantics::outcome::{Outcome, RunFault};
use sim_values::NoMemory;
use std::alloc::{AllocFailed, Global};
use std::marker::{Brand, PhantomData};

/// The kernel of a session, and the positions to which it can go back.
pub struct Runner<C: Catalogue> {
    pub kernel: Kernel<C>,
    /// The boxes that wait for the start of their modules: no world knows of them.
    pub waiting: Tree<Box<dyn SimpleModule>>,
    /// With the interval: after each multiple of so many events a run leaves a position.
    pub positions: Positions,
    /// Where the run stands that was asked for last.
    pub stood: Stood,
    /// What the kernel holds, so that contracts can name what boxes say of themselves.
    pub holds: PhantomData<Box<dyn SimpleModule>>,
}

// Written out, so that a crate which drops one need not prove what that does.
impl<C: Catalogue> Drop for Runner<C> {
    fn drop(self) {
        let Runner {
            kernel: _,
            waiting: _,
            positions: _,
            stood: _,
            holds: _,
        } = self;
    }
}

impl<C: Catalogue> Runner<C> {
    // ---- from setup to the boxes

    /// The module that a run which is set up needs a box for, if there is one. No outcome: each
    /// module has its box.
    fn next_box<M: ModelMarker>(
        &self,
        alloc: Global,
    ) -> Result<RunStatus<Option<Outcome>>, NoMemory>
        requires filled { let waiting = waiting_in SimpleModule-box self.now in
            IsFilled C.behaviour M.answers (world_in SimpleModule-box self.now.kernel) waiting }
        ensures stands { let world = world_in SimpleModule-box self.now.kernel in
            let waiting = waiting_in SimpleModule-box self.now in
            IfOk result (λ standing.
            Stands C.behaviour M.answers (parts_in waiting) world waiting standing) }
        ensures wants { let supplied = supplied_in SimpleModule-box self.now in
            IfOk result (λ standing. Wants (wanted_by M.answers supplied) standing) }
    {
        match self.kernel.missing(alloc, &self.waiting)? {
            Some(request) => Ok(RunStatus::Waits(request)),
            None => Ok(RunStatus::Done(None)),
        }
    }

    /// Sets the network up anew, as the model answers. All boxes are dropped.
    fn set_network_up<M: ModelMarker>(
        &mut self,
        alloc: Global,
        model: &EvaluatedModel,
    ) -> Result<Option<Outcome>, NoMemory>
        requires asked { answers_of model.now ≡ M.answers }
        requires kinds { HasKinds C.behaviour SimpleModule-box self.old.kernel }
        ensures kinds { HasKinds C.behaviour SimpleModule-box self.new.kernel }
        ensures kept { IsBesideKernel self.old self.new }
        ensures empty { OnOk result (boxes_in SimpleModule-box self.new.kernel ≡ []) }
        ensures none { waiting_in SimpleModule-box self.new ≡ [] }
        ensures step { IfOk result (λ over.
            stage_of over (world_in SimpleModule-box self.new.kernel)
            ≡ settled (prepared M.answers)) }
    {
        self.waiting.clear();
        let mut answers = AskedModel::<M>::new(model);
        self.kernel.setup(alloc, &mut answers)
    }

    /// Sets a run up anew, up to its boxes. An outcome: it can't begin. None: each module has its
    /// box.
    fn set_up<M: ModelMarker>(
        &mut self,
        alloc: Global,
        model: &EvaluatedModel,
    ) -> Result<RunStatus<Option<Outcome>>, NoMemory>
        requires asked { answers_of model.now ≡ M.answers }
        requires kinds { HasKinds C.behaviour SimpleModule-box self.old.kernel }
        ensures kinds { HasKinds C.behaviour SimpleModule-box self.new.kernel }
        ensures kept { IsBesideKernel self.old self.new }
        ensures stands { let left = world_in SimpleModule-box self.new.kernel in
            let waiting = waiting_in SimpleModule-box self.new in
            IfOk result (λ standing.
            Stands C.behaviour M.answers [] left waiting standing) }
        ensures wants { IfOk result (λ standing. Wants (wanted_by M.answers []) standing) }
    {
        match self.set_network_up::<M>(alloc, model)? {
            Some(outcome) => Ok(RunStatus::Done(Some(outcome))),
            None => {
                let standing = self.next_box::<M>(alloc)?;
                Ok(standing)
            }
        }
    }

    /// The end of a run for one of whose modules there is no box.
    fn declined<M: ModelMarker>(
        &self,
        alloc: Global,
    ) -> Result<RunStatus<Option<Outcome>>, NoMemory>
        requires declined { let waiting = waiting_in SimpleModule-box self.now in
            IsDeclined C.behaviour M.answers (world_in SimpleModule-box self.now.kernel) waiting }
        ensures stands { let world = world_in SimpleModule-box self.now.kernel in
            let waiting = waiting_in SimpleModule-box self.now in
            let supplied = supplied_in SimpleModule-box self.now in
            IfOk result (λ standing.
            Stands C.behaviour M.answers supplied world waiting standing) }
        ensures over { IfOk result (λ standing. Wants None standing) }
    {
        let request = self.kernel.missing(alloc, &self.waiting)?.unwrap();
        Ok(RunStatus::Done(Some(Outcome::Fault(
            self.kernel.count(),
            request.path,
            RunFault::UnknownClass,
        ))))
    }

    /// Where a run stands that begins with setup: one that waits goes on, any other is set up. An
    /// outcome: it can't begin. None: each module has its box.
    fn stand<M: ModelMarker>(
        &mut self,
        alloc: Global,
        model: &EvaluatedModel,
        at: AtSetup,
    ) -> Result<RunStatus<Option<Outcome>>, NoMemory>
        requires asked { answers_of model.now ≡ M.answers }
        requires live { let world = world_in SimpleModule-box self.old.kernel in
            let waiting = waiting_in SimpleModule-box self.old in
            IsLiveAtSetup C.behaviour M.answers world waiting at }
        requires kinds { HasKinds C.behaviour SimpleModule-box self.old.kernel }
        ensures kinds { HasKinds C.behaviour SimpleModule-box self.new.kernel }
        ensures kept { IsBesideKernel self.old self.new }
        ensures stands { let kept = kept_at_setup at (supplied_in SimpleModule-box self.old) in
            let left = world_in SimpleModule-box self.new.kernel in
            let waiting = waiting_in SimpleModule-box self.new in
            IfOk result (λ standing. Stands C.behaviour M.answers kept left waiting standing) }
        ensures wants { let kept = kept_at_setup at (supplied_in SimpleModule-box self.old) in
            IfOk result (λ standing. Wants (wanted_at_setup at M.answers kept) standing) }
    {
        match at {
            AtSetup::Anew => {
                let standing = self.set_up::<M>(alloc, model)?;
                Ok(standing)
            }
            AtSetup::Filling => {
                let standing = self.next_box::<M>(alloc)?;
                Ok(standing)
            }
            AtSetup::Refused => {
                let standing = self.declined::<M>(alloc)?;
                Ok(standing)
            }
        }
    }

    /// Supplies the box of the module of that id, or hands it back where memory runs out. All that
    /// wait are of smaller ids.
    pub fn supply(
        &mut self,
        id: u32,
        held: Box<dyn SimpleModule>,
    ) -> Result<(), AllocFailed<Box<dyn SimpleModule>>>
        requires above { AreOfSmallerIds id (instances_held SimpleModule-box self.old.waiting) }
        ensures kernel { self.new.kernel ≡ self.old.kernel }
        ensures kept { IsBesideKernel self.old self.new }
        ensures ok { let supplied : BoxAt = record { id = id; box = meaning held } in
            OnOk result (waiting_in SimpleModule-box self.new
            ≡ waiting_in SimpleModule-box self.old ++ supplied ∷ []) }
        ensures err { OnErr result
            (waiting_in SimpleModule-box self.new ≡ waiting_in SimpleModule-box self.old) }
        ensures returned { IfErr result (λ failed. failed.value ≡ held) }
    {
        self.waiting.place(id, held)
    }

    /// Drops the boxes that wait for the start of their modules.
    pub fn drop_waiting(&mut self)
        ensures kernel { self.new.kernel ≡ self.old.kernel }
        ensures kept { IsBesideKernel self.old self.new }
        ensures none { waiting_in SimpleModule-box self.new ≡ [] }
    {
        self.waiting.clear();
    }

    /// How many boxes there are: those of the modules that were started, and those that wait.
    pub fn held(&self) -> u128
        ensures { let started = standing_in SimpleModule-box self.now in
            result ≡ length started + length (supplied_in SimpleModule-box self.now) }
    {
        self.kernel.held() as u128 + self.waiting.len() as u128
    }

    // ---- positions

    /// Stores the position where the run stands, if it is due, and notes where that is. Where
    /// memory runs out the stored ones stay.
    fn keep_if(&mut self, alloc: Global, due: bool) -> Result<(), NoMemory>
        requires below { due ≡ true
            → AreBelow (world_in SimpleModule-box self.old.kernel).count self.old.positions.stored }
        ensures kept { self.new.kernel ≡ self.old.kernel }
        ensures waiting { self.new.waiting ≡ self.old.waiting }
        ensures ok { let position = position_of (world_in SimpleModule-box self.old.kernel) in
            OnOk result (self.new.positions ≡ taken_if due position self.old.positions) }
        ensures stood { let count = (world_in SimpleModule-box self.old.kernel).count in
            OnOk result (self.new.stood ≡ Stood.After count) }
        ensures err { OnErr result (self.new.positions ≡ self.old.positions) }
        ensures untaken { let count = (world_in SimpleModule-box self.old.kernel).count in
            OnErr result (self.new.stood ≡ Stood.Untaken count) }
        ensures due { OnErr result (due ≡ true) }
    {
        let count = self.kernel.count();
        self.stood = Stood::After(count);
        if due {
            self.stood = Stood::Untaken(count);
            let position = self.kernel.position(alloc)?;
            self.positions.take(position)?;
            self.stood = Stood::After(count);
        }
        Ok(())
    }

    /// Goes back to the last position up to the limit, and gives up those after it: of its modules
    /// the boxes stay, and all others are dropped. Where one of its modules has none, the run waits
    /// there. Where there is no such position, nothing changes, and no event is answered.
    fn go_back<M: ModelMarker>(
        &mut self,
        alloc: Global,
        limit: u64,
    ) -> Result<RunStatus<Option<u64>>, NoMemory>
        requires kinds { HasKinds C.behaviour SimpleModule-box self.old.kernel }
        requires good { HasGood C.behaviour M.answers SimpleModule-box self.old }
        ensures kinds { HasKinds C.behaviour SimpleModule-box self.new.kernel }
        ensures good { HasGood C.behaviour M.answers SimpleModule-box self.new }
        ensures back { let start = start_of limit (counts_of self.old.positions.stored) in
            IfOk result (λ back. IsBack C.behaviour M.answers SimpleModule-box limit start self.old
            self.new back) }
        ensures err { OnErr result
            (HasStored C.behaviour M.answers limit None (counts_in self.old.positions)
            self.new.stood (counts_in self.new.positions)) }
        ensures stood { OnErr result ((event : ℕ)
            × (start_of limit (counts_of self.old.positions.stored) ≡ Some event)
            × (self.new.stood ≡ Stood.After event)) }
    {
        let Some(position) = self.positions.at_most(limit) else {
            return Ok(RunStatus::Done(None));
        };
        let start = position.count();
        self.waiting.clear();
        self.stood = Stood::After(start);
        let back = self.kernel.go_back(alloc, position);
        self.positions.cut_after(start);
        match back? {
            Some(request) => Ok(RunStatus::Waits(request)),
            None => Ok(RunStatus::Done(Some(start))),
        }
    }

    /// Of how many events the last position is.
    fn last_stored(&self) -> Option<u64>
        ensures { result ≡ last_count (counts_of self.now.positions.stored) }
    {
        match self.positions.last() {
            Some(position) => Some(position.count()),
            None => None,
        }
    }

    /// The id of the first module of the last position that has no box.
    pub fn lacking_id(&self) -> Option<u32>
        ensures { result ≡ lacking_at (last_of self.now.positions.stored)
            (standing (world_in SimpleModule-box self.now.kernel).modules) }
    {
        match self.positions.last() {
            Some(position) => self.kernel.lacking_id(position),
            None => None,
        }
    }

    /// Gives up the positions after an event, or all of them.
    pub fn keep_up_to(&mut self, event: Option<u64>)
        ensures kernel { self.new.kernel ≡ self.old.kernel }
        ensures waiting { self.new.waiting ≡ self.old.waiting }
        ensures stood { self.new.stood ≡ self.old.stood }
        ensures positions { self.new.positions ≡ kept_up_to event self.old.positions }
    {
        match event {
            Some(event) => self.positions.cut_after(event),
            None => self.positions.clear(),
        }
    }

    /// Cuts the lists that only grow to what the last position has of them, and answers its count
    /// of events. Where there is no position nothing changes.
    pub fn cut_back(&mut self) -> Option<u64>
        requires { HasKinds C.behaviour SimpleModule-box self.old.kernel }
        ensures seats { boxes_in SimpleModule-box self.new.kernel
            ≡ boxes_in SimpleModule-box self.old.kernel }
        ensures waiting { self.new.waiting ≡ self.old.waiting }
        ensures positions { self.new.positions ≡ self.old.positions }
        ensures stood { self.new.stood ≡ self.old.stood }
        ensures rising { AreRising self.old.positions.stored }
        ensures last { result ≡ last_count (counts_of self.old.positions.stored) }
        ensures world { world_in SimpleModule-box self.new.kernel
            ≡ cut_to_last (last_of self.old.positions.stored)
            (world_in SimpleModule-box self.old.kernel) }
    {
        let Some(position) = self.positions.last() else {
            return None;
        };
        self.kernel.cut_back(position);
        Some(position.count())
    }

    // ---- events

    /// Tells the observer how many events are executed, and when the last one was.
    fn tell<W: Observer>(&self, observer: &mut W)
        ensures { let world = world_in SimpleModule-box self.now.kernel in
            W.told observer.old (Executed world.count world.clock) observer.new }
    {
        observer.event(self.kernel.count(), self.kernel.clock());
    }

    /// Goes on to the limit, to an end, or until a box is wanted, and tells the observer of each
    /// event. After each one whose number is a multiple of the interval as it is then, a position is
    /// stored.
    fn run_events<A: Answers, W: Observer>(
        &mut self,
        alloc: Global,
        model: &mut A,
        shown: &mut CallViews,
        limit: u64,
        observer: &mut W,
    ) -> Result<RunStatus<Outcome>, NoMemory>
        requires going { IsGoing C.behaviour A.answers SimpleModule-box limit self.old }
        requires kinds { HasKinds C.behaviour SimpleModule-box self.old.kernel }
        requires first { let before = world_in SimpleModule-box self.old.kernel in
            let waiting = waiting_in SimpleModule-box self.old in
            AreFirstOf C.behaviour (wanted A.answers before) waiting }
        requires shown { let before = world_in SimpleModule-box self.old.kernel in
            AreShown A.answers before.records shown.old }
        ensures kinds { HasKinds C.behaviour SimpleModule-box self.new.kernel }
        ensures good { HasGood C.behaviour A.answers SimpleModule-box self.new }
        ensures begun { let from = (world_in SimpleModule-box self.old.kernel).count in
            OnErr result
            (HasBegun C.behaviour A.answers limit from (counts_in self.old.positions)
            self.new.stood (counts_in self.new.positions)) }
        ensures ran { IfOk result (λ status.
            HasRun C.behaviour A.answers SimpleModule-box limit self.old self.new status) }
        ensures told { let from = (world_in SimpleModule-box self.old.kernel).count in
            let count = (world_in SimpleModule-box self.new.kernel).count in
            IfOk result (λ status. AreTold W.told observer.old
            (executed_after C.behaviour A.answers from (told_to count status)) observer.new) }
        ensures until { let from = (world_in SimpleModule-box self.old.kernel).count in
            OnErr result (AreExecuted C.behaviour A.answers from W.told observer.old self.new.stood
            observer.new) }
        ensures shown { let left = world_in SimpleModule-box self.new.kernel in
            OnOk result (AreShown A.answers left.records shown.new) }
    {
        let last_time = model.time_limit();
        for _k in self.kernel.count()..limit {
            let missing = self
                .kernel
                .missing_next(alloc, model, last_time, &self.waiting)?;
            if let Some(request) = missing {
                return Ok(RunStatus::Waits(request));
            }
            let over = self
                .kernel
                .step(alloc, model, last_time, shown, &mut self.waiting)?;
            if let Some(outcome) = over {
                return Ok(RunStatus::Done(outcome));
            }
            self.tell(observer);
            let due = is_multiple(self.positions.interval(), self.kernel.count());
            self.keep_if(alloc, due)?;
        }
        let ended = self.kernel.outcome_of(None);
        Ok(RunStatus::Done(ended))
    }

    /// Goes on to the limit or to an end, and ends the run, or until a box is wanted. A position is
    /// stored after its last event too, unless that ended in a fault. The observer is told where it
    /// goes on, and of each event.
    fn run_on<A: Answers, W: Observer>(
        &mut self,
        alloc: Global,
        model: &mut A,
        shown: &mut CallViews,
        limit: u64,
        observer: &mut W,
    ) -> Result<RunStatus<Outcome>, NoMemory>
        requires going { IsGoing C.behaviour A.answers SimpleModule-box limit self.old }
        requires kinds { HasKinds C.behaviour SimpleModule-box self.old.kernel }
        requires first { let before = world_in SimpleModule-box self.old.kernel in
            let waiting = waiting_in SimpleModule-box self.old in
            AreFirstOf C.behaviour (wanted A.answers before) waiting }
        requires shown { let before = world_in SimpleModule-box self.old.kernel in
            AreShown A.answers before.records shown.old }
        ensures kinds { HasKinds C.behaviour SimpleModule-box self.new.kernel }
        ensures good { HasGood C.behaviour A.answers SimpleModule-box self.new }
        ensures ran { IfOk result (λ status.
            HasRunOn C.behaviour A.answers SimpleModule-box limit self.old self.new status) }
        ensures stopped { let from = (world_in SimpleModule-box self.old.kernel).count in
            HasBegun C.behaviour A.answers limit from (counts_in self.old.positions)
            self.new.stood (counts_in self.new.positions) }
        ensures told { let from = (world_in SimpleModule-box self.old.kernel).count in
            let count = (world_in SimpleModule-box self.new.kernel).count in
            IfOk result (λ status. AreTold W.told observer.old
            (told_when C.behaviour A.answers limit (Some from) count status) observer.new) }
        ensures until { let from = (world_in SimpleModule-box self.old.kernel).count in
            IsTold C.behaviour A.answers limit (Some from) W.told observer.old self.new.stood
            observer.new }
        ensures shown { let left = world_in SimpleModule-box self.new.kernel in
            OnOk result (AreShown A.answers left.records shown.new) }
    {
        observer.begin(self.kernel.count(), limit);
        match self.run_events(alloc, model, shown, limit, observer)? {
            RunStatus::Waits(request) => Ok(RunStatus::Waits(request)),
            RunStatus::Done(outcome) => {
                let last = self.kernel.count();
                let due = is_owed(outcome.is_fault(), self.positions.ends_at(last));
                self.keep_if(alloc, due)?;
                self.stood = Stood::Ending;
                self.drop_waiting();
                let ended = self.kernel.finish(alloc, model, shown, outcome)?;
                Ok(RunStatus::Done(ended))
            }
        }
    }

    /// The end of a run for the first of whose modules that the next event starts there is no box:
    /// that event begins, and has this fault. The boxes that were supplied for it wait still.
    fn run_refused<A: Answers>(
        &mut self,
        alloc: Global,
        model: &mut A,
        shown: &mut CallViews,
        limit: u64,
    ) -> Result<Outcome, NoMemory>
        requires going { IsGoing C.behaviour A.answers SimpleModule-box limit self.old }
        requires kinds { HasKinds C.behaviour SimpleModule-box self.old.kernel }
        requires within { (world_in SimpleModule-box self.old.kernel).count < limit }
        requires first { let before = world_in SimpleModule-box self.old.kernel in
            let waiting = waiting_in SimpleModule-box self.old in
            AreFirstOf C.behaviour (wanted A.answers before) waiting }
        requires refused { let before = world_in SimpleModule-box self.old.kernel in
            IsRefused C.behaviour A.answers before (waiting_in SimpleModule-box self.old) }
        ensures kinds { HasKinds C.behaviour SimpleModule-box self.new.kernel }
        ensures good { HasGood C.behaviour A.answers SimpleModule-box self.new }
        ensures waiting { self.new.waiting ≡ self.old.waiting }
        ensures ran { IfOk result (λ outcome. fresh_run C.behaviour A.answers limit
            ≡ ran_in SimpleModule-box outcome self.new.kernel) }
        ensures left { let from = (world_in SimpleModule-box self.old.kernel).count in
            let ran = run_to C.behaviour A.answers limit in
            OnOk result
            (HasLeft from (counts_in self.old.positions) (counts_in self.new.positions) ran) }
        ensures stopped { let from = (world_in SimpleModule-box self.old.kernel).count in
            HasBegun C.behaviour A.answers limit from (counts_in self.old.positions)
            self.new.stood (counts_in self.new.positions) }
        ensures stood { OnErr result (self.new.stood ≡ self.old.stood) }
        ensures ending { OnOk result (self.new.stood ≡ Stood.Ending) }
        ensures shown { let left = world_in SimpleModule-box self.new.kernel in
            OnOk result (AreShown A.answers left.records shown.new) }
    {
        let last_time = model.time_limit();
        let missing = self
            .kernel
            .missing_next(alloc, model, last_time, &self.waiting)?;
        let request = missing.unwrap();
        let over = self
            .kernel
            .step_declined(alloc, model, last_time, request.id)?;
        *shown = CallViews::new(alloc);
        self.stood = Stood::Ending;
        Ok(self.kernel.outcome_of(over))
    }

    /// A whole run from where each module has its box: its events, and its end, or until a box is
    /// wanted before one of them.
    fn run_to_end<A: Answers, W: Observer>(
        &mut self,
        alloc: Global,
        model: &mut A,
        shown: &mut CallViews,
        limit: u64,
        observer: &mut W,
    ) -> Result<RunStatus<Outcome>, NoMemory>
        requires ready { let waiting = waiting_in SimpleModule-box self.old in
            CanStart C.behaviour A.answers (world_in SimpleModule-box self.old.kernel) waiting }
        requires none { IsBegun self.old.positions }
        requires stood { self.old.stood ≡ Stood.Before }
        requires shown { let before = world_in SimpleModule-box self.old.kernel in
            AreShown A.answers before.records shown.old }
        ensures kinds { HasKinds C.behaviour SimpleModule-box self.new.kernel }
        ensures good { HasGood C.behaviour A.answers SimpleModule-box self.new }
        ensures ran { IfOk result (λ status. HasStarted C.behaviour A.answers SimpleModule-box
            limit (counts_in self.old.positions) self.new status) }
        ensures stopped { HasStored C.behaviour A.answers limit None (counts_in self.old.positions)
            self.new.stood (counts_in self.new.positions) }
        ensures told { let on = behind_setup (start C.behaviour A.answers) in
            let count = (world_in SimpleModule-box self.new.kernel).count in
            IfOk result (λ status. AreTold W.told observer.old
            (told_when C.behaviour A.answers limit on count status) observer.new) }
        ensures until { let on = behind_setup (start C.behaviour A.answers) in
            IsTold C.behaviour A.answers limit on W.told observer.old self.new.stood
            observer.new }
        ensures shown { let left = world_in SimpleModule-box self.new.kernel in
            OnOk result (AreShown A.answers left.records shown.new) }
    {
        match self.kernel.start(alloc, model, shown, &mut self.waiting)? {
            Some(outcome) => {
                let ended = self.kernel.finish(alloc, model, shown, outcome)?;
                Ok(RunStatus::Done(ended))
            }
            None => {
                self.keep_if(alloc, true)?;
                let status = self.run_on(alloc, model, shown, limit, observer)?;
                Ok(status)
            }
        }
    }

    /// Runs from setup, or finds the box that is needed first. There is no position after which it
    /// could begin. What calls show is found anew.
    fn run_from_setup<M: ModelMarker, W: Observer>(
        &mut self,
        alloc: Global,
        model: &EvaluatedModel,
        at: AtSetup,
        limit: u64,
        shown: &mut CallViews,
        observer: &mut W,
    ) -> Result<Progress, NoMemory>
        requires asked { answers_of model.now ≡ M.answers }
        requires live { let world = world_in SimpleModule-box self.old.kernel in
            let waiting = waiting_in SimpleModule-box self.old in
            IsLiveAtSetup C.behaviour M.answers world waiting at }
        requires kinds { HasKinds C.behaviour SimpleModule-box self.old.kernel }
        requires none { IsBegun self.old.positions }
        requires stood { self.old.stood ≡ Stood.Before }
        ensures kinds { HasKinds C.behaviour SimpleModule-box self.new.kernel }
        ensures good { HasGood C.behaviour M.answers SimpleModule-box self.new }
        ensures advances { let boxes = standing_in SimpleModule-box self.old in
            let supplied = supplied_in SimpleModule-box self.old in
            let left = world_in SimpleModule-box self.new.kernel in
            let waiting = waiting_in SimpleModule-box self.new in
            IfOk result (λ progress.
            Advances C.behaviour M.answers limit at None boxes supplied
            (counts_in self.old.positions) left waiting (counts_in self.new.positions) progress) }
        ensures stopped { HasStored C.behaviour M.answers limit None (counts_in self.old.positions)
            self.new.stood (counts_in self.new.positions) }
        ensures told { let on = behind_setup (start C.behaviour M.answers) in
            IfOk result (λ progress. AreTold W.told observer.old
            (told_by C.behaviour M.answers limit on progress) observer.new) }
        ensures until { let on = behind_setup (start C.behaviour M.answers) in
            IsTold C.behaviour M.answers limit on W.told observer.old self.new.stood
            observer.new }
        ensures shown { let left = world_in SimpleModule-box self.new.kernel in
            IfOk result (λ progress. IsShownAfter M.answers left.records shown.new progress) }
    {
        *shown = CallViews::new(alloc);
        match self.stand::<M>(alloc, model, at)? {
            RunStatus::Done(Some(outcome)) => Ok(Progress::Done(Ended {
                start: None,
                outcome,
            })),
            RunStatus::Waits(request) => Ok(Progress::Waits(Wait {
                from: None,
                at: Point::Setup,
                request,
            })),
            RunStatus::Done(None) => {
                let mut answers = AskedModel::<M>::new(model);
                let status = self.run_to_end(alloc, &mut answers, shown, limit, observer)?;
                Ok(progress_of(None, self.kernel.count(), status))
            }
        }
    }

    /// Begins a run of the model M for at most so many events, at the last position up to there or
    /// with setup, and runs it, or finds the box that is needed first. The observer is told of each
    /// event that is executed.
    fn begin<M: ModelMarker, W: Observer>(
        &mut self,
        alloc: Global,
        model: &EvaluatedModel,
        at: AtSetup,
        limit: u64,
        shown: &mut CallViews,
        observer: &mut W,
    ) -> Result<Progress, NoMemory>
        requires asked { answers_of model.now ≡ M.answers }
        requires live { let world = world_in SimpleModule-box self.old.kernel in
            let waiting = waiting_in SimpleModule-box self.old in
            IsLiveAtSetup C.behaviour M.answers world waiting at }
        requires kinds { HasKinds C.behaviour SimpleModule-box self.old.kernel }
        requires good { HasGood C.behaviour M.answers SimpleModule-box self.old }
        requires shown { let before = world_in SimpleModule-box self.old.kernel in
            AreShown M.answers before.records shown.old }
        ensures kinds { HasKinds C.behaviour SimpleModule-box self.new.kernel }
        ensures good { HasGood C.behaviour M.answers SimpleModule-box self.new }
        ensures advances { let boxes = standing_in SimpleModule-box self.old in
            let supplied = supplied_in SimpleModule-box self.old in
            let left = world_in SimpleModule-box self.new.kernel in
            let waiting = waiting_in SimpleModule-box self.new in
            IfOk result (λ progress.
            Advances C.behaviour M.answers limit at None boxes supplied
            (counts_in self.old.positions) left waiting (counts_in self.new.positions) progress) }
        ensures stopped { HasStored C.behaviour M.answers limit None (counts_in self.old.positions)
            self.new.stood (counts_in self.new.positions) }
        ensures told { let began = start_of limit (counts_of self.old.positions.stored) in
            let on = begins_at C.behaviour M.answers began in
            IfOk result (λ progress. AreTold W.told observer.old
            (told_by C.behaviour M.answers limit on progress) observer.new) }
        ensures until { let began = start_of limit (counts_of self.old.positions.stored) in
            let on = begins_at C.behaviour M.answers began in
            IsTold C.behaviour M.answers limit on W.told observer.old self.new.stood
            observer.new }
        ensures shown { let left = world_in SimpleModule-box self.new.kernel in
            IfOk result (λ progress. IsShownAfter M.answers left.records shown.new progress) }
    {
        let modules = self.kernel.records().len();
        match self.go_back::<M>(alloc, limit)? {
            RunStatus::Waits(request) => Ok(Progress::Waits(Wait {
                from: self.last_stored(),
                at: Point::Position,
                request,
            })),
            RunStatus::Done(Some(start)) => {
                let mut answers = AskedModel::<M>::new(model);
                keep_shown(alloc, shown, modules, self.kernel.records().len());
                let status = self.run_on(alloc, &mut answers, shown, limit, observer)?;
                Ok(progress_of(Some(start), self.kernel.count(), status))
            }
            RunStatus::Done(None) => {
                self.positions.clear();
                self.stood = Stood::Before;
                self.run_from_setup::<M, W>(alloc, model, at, limit, shown, observer)
            }
        }
    }

    /// Goes on with a run that waited before a start event.
    fn go_on<M: ModelMarker, W: Observer>(
        &mut self,
        alloc: Global,
        model: &EvaluatedModel,
        at: Resumed,
        limit: u64,
        shown: &mut CallViews,
        observer: &mut W,
    ) -> Result<Progress, NoMemory>
        requires asked { answers_of model.now ≡ M.answers }
        requires waited { CanGoOnWith C.behaviour M.answers SimpleModule-box limit at self.old }
        requires kinds { HasKinds C.behaviour SimpleModule-box self.old.kernel }
        requires good { HasGood C.behaviour M.answers SimpleModule-box self.old }
        requires shown { let before = world_in SimpleModule-box self.old.kernel in
            AreShown M.answers before.records shown.old }
        ensures kinds { HasKinds C.behaviour SimpleModule-box self.new.kernel }
        ensures good { HasGood C.behaviour M.answers SimpleModule-box self.new }
        ensures advances { let boxes = standing_in SimpleModule-box self.old in
            let supplied = supplied_in SimpleModule-box self.old in
            let left = world_in SimpleModule-box self.new.kernel in
            let waiting = waiting_in SimpleModule-box self.new in
            IfOk result (λ progress. (setup : AtSetup)
            → Advances C.behaviour M.answers limit setup (Some at) boxes supplied
            (counts_in self.old.positions) left waiting (counts_in self.new.positions) progress) }
        ensures stopped { HasStored C.behaviour M.answers limit (Some at)
            (counts_in self.old.positions) self.new.stood (counts_in self.new.positions) }
        ensures told { let stored = counts_of self.old.positions.stored in
            let on = went_on C.behaviour M.answers limit (Some at) stored in
            IfOk result (λ progress. AreTold W.told observer.old
            (told_by C.behaviour M.answers limit on progress) observer.new) }
        ensures until { let stored = counts_of self.old.positions.stored in
            let on = went_on C.behaviour M.answers limit (Some at) stored in
            IsTold C.behaviour M.answers limit on W.told observer.old self.new.stood
            observer.new }
        ensures shown { let left = world_in SimpleModule-box self.new.kernel in
            IfOk result (λ progress. IsShownAfter M.answers left.records shown.new progress) }
    {
        self.stood = Stood::After(at.count);
        let mut answers = AskedModel::<M>::new(model);
        if at.declined && at.count < limit {
            let outcome = self.run_refused(alloc, &mut answers, shown, limit)?;
            return Ok(Progress::Done(Ended {
                start: at.from,
                outcome,
            }));
        }
        let status = self.run_on(alloc, &mut answers, shown, limit, observer)?;
        Ok(progress_of(at.from, self.kernel.count(), status))
    }

    /// Runs the model for at most so many events: goes on with a run that waits, or begins at the
    /// last position up to there or with setup. Or finds the box that is needed first. The observer
    /// is told of each event that is executed. What calls show of modules is taken from the table,
    /// and what is not there is put there.
    pub fn advance<W: Observer>(
        &mut self,
        alloc: Global,
        model: &EvaluatedModel,
        phase: Phase,
        limit: u64,
        shown: &mut CallViews,
        observer: &mut W,
    ) -> Result<Progress, NoMemory>
        requires live { let world = world_in SimpleModule-box self.old.kernel in
            let waiting = waiting_in SimpleModule-box self.old in
            IsLive C.behaviour (answers_of model.now) world waiting phase }
        requires below { HasAllBelow phase self.old.positions.stored }
        requires kinds { HasKinds C.behaviour SimpleModule-box self.old.kernel }
        requires good { HasGood C.behaviour (answers_of model.now) SimpleModule-box self.old }
        requires shown { let before = world_in SimpleModule-box self.old.kernel in
            AreShown (answers_of model.now) before.records shown.old }
        ensures kinds { HasKinds C.behaviour SimpleModule-box self.new.kernel }
        ensures good { HasGood C.behaviour (answers_of model.now) SimpleModule-box self.new }
        ensures advances { let boxes = standing_in SimpleModule-box self.old in
            let supplied = supplied_in SimpleModule-box self.old in
            let left = world_in SimpleModule-box self.new.kernel in
            let waiting = waiting_in SimpleModule-box self.new in
            IfOk result (λ progress.
            Advances C.behaviour (answers_of model.now) limit (at_setup phase)
            (resumed limit phase) boxes supplied (counts_in self.old.positions) left waiting
            (counts_in self.new.positions) progress) }
        ensures stopped { HasStored C.behaviour (answers_of model.now) limit (resumed limit phase)
            (counts_in self.old.positions) self.new.stood (counts_in self.new.positions) }
        ensures told { let stored = counts_of self.old.positions.stored in
            let on = went_on C.behaviour (answers_of model.now) limit (resumed limit phase) stored in
            IfOk result (λ progress. AreTold W.told observer.old
            (told_by C.behaviour (answers_of model.now) limit on progress) observer.new) }
        ensures until { let stored = counts_of self.old.positions.stored in
            let on = went_on C.behaviour (answers_of model.now) limit (resumed limit phase) stored in
            IsTold C.behaviour (answers_of model.now) limit on W.told observer.old self.new.stood
            observer.new }
        ensures shown { let left = world_in SimpleModule-box self.new.kernel in
            IfOk result (λ progress.
            IsShownAfter (answers_of model.now) left.records shown.new progress) }
    {
        match goes_on_at(limit, phase) {
            Some(at) => {
                let onwards = self.go_on::<Brand, W>(alloc, model, at, limit, shown, observer)?;
                Ok(onwards)
            }
            None => {
                let at = at_setup(phase);
                let anew = self.begin::<Brand, W>(alloc, model, at, limit, shown, observer)?;
                Ok(anew)
            }
        }
    }
}

/// What calls show of so many modules stays where there are as many as before; else none of it.
#[tactic(auto, using(crate::proofs::Shown::as_many_shown))]
fn keep_shown(alloc: Global, shown: &mut CallViews, before: usize, now: usize)
    ensures { (m : Answered) (old new : List Record) → length old ≡ before → length new ≡ now
        → GoesOn new old → AreShown m old shown.old → AreShown m new shown.new }
{
    if before != now {
        *shown = CallViews::new(alloc);
    }
}

/// Whether so many events are a multiple of the interval.
fn is_multiple(interval: u64, count: u64) -> bool
    requires { 1 ≤ interval }
    ensures { result ≡ is_multiple interval count }
{
    count % interval == 0
}

/// Whether a run owes a position after its last event: where none is stored there.
fn is_owed(fault: bool, ends_there: bool) -> bool
    ensures { result ≡ not fault && not ends_there }
{
    !fault && !ends_there
}
