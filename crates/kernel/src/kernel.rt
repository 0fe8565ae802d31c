//! A world in code, one event at a time.

ghost use Rattle.std.specs.Prelude.{◌≡◌, ◌+◌, ◌^◌, ◌<◌, ◌≤◌, OnOk, OnErr, IfOk, IfSome, None, []};
ghost use Rattle.std.specs.Prelude.{length, max, slice_get, drop, option_map, IfErr, true};
ghost use Rattle.std.specs.Option.{option_copied};
ghost use Rattle.module_api.specs.Meaning.{Answered, IsSameModule};
ghost use Rattle.module_tree.specs.Boxes.{nothing};
ghost use Rattle.run_question_log.specs.Entries.{noted_in};
ghost use Rattle.run_semantics.specs.World.{empty, HasRoom};
ghost use Rattle.run_semantics.specs.Perform.{flow_of, On, perform, act, act_all, acted, answered};
ghost use Rattle.run_semantics.specs.Event.{call_module, call_of, instance_in, with_state};
ghost use Rattle.run_semantics.specs.declared.occasions.Occasion.TheVariants as occasions;
ghost use Rattle.model_questions.specs.Answers.{parameters_of};
ghost use Rattle.model_questions.specs.Records.{record_at};
ghost use Rattle.run_semantics.specs.Upcoming.{target_of, upcoming};
ghost use Rattle.kernel_call_views.specs.Tables.{AreShown};
ghost use Rattle.kernel_actions.specs.Upcoming.{looked, upcoming_of};
ghost use Rattle.kernel.specs.Looks.{LooksOn, StartsNone};
ghost use Rattle.kernel.specs.Starts.{AreFirstOf, HasFewCalls, HasItsModules, IsUnknownFirst, KeepsRoom};
ghost use Rattle.kernel.specs.Starts.{class_in, next_in, starts_next, wanted_of};
ghost use Rattle.run_semantics.specs.Event.{happens};
ghost use Rattle.run_semantics.specs.Run.{needs_of, start_modules, started, starting, wanted};
ghost use Rattle.run_semantics.specs.Run.{wanted_for};
ghost use Rattle.run_semantics.specs.Subtree.{outer_first};
ghost use Rattle.run_semantics.specs.Run.{Running, Part, stage_of, standing, settled};
ghost use Rattle.run_semantics.specs.Run.{prepared, parts_from, initialize, most_stages};
ghost use Rattle.run_semantics.specs.Run.{one_stage, stages_from, stages_in, start, next_stage};
ghost use Rattle.run_semantics.specs.Run.{stopped};
ghost use Rattle.run_semantics.specs.Ending.{call_last, finish, finish_all, ending};
ghost use Rattle.kernel.specs.Seats.{stages_of, stands_at, AreFirst, AreFresh, IsServed};
ghost use Rattle.kernel.specs.Seats.{IsUnstarted, lacking_of, missing_of, missing_part, needs};
ghost use Rattle.kernel.specs.Setups.{ready};
ghost use Rattle.kernel.specs.Calls.{called_last};
ghost use Rattle.run_semantics.specs.Deleting.{deleted, finished_first, subtree_dropped};
ghost use Rattle.kernel.specs.Seats.{request_for, with_seat};
ghost use Rattle.kernel_actions.specs.Positions.{position_of, cut_to, world_back, IsGrownFrom};
ghost use Rattle.kernel_actions.specs.Positions.{IsSameBesideModules};
ghost use Rattle.kernel_boxes.specs.Seats.{module_in, AreKept, BoxAt};
ghost use Rattle.kernel_boxes.specs.Staying.{first_without, staying, IdsRise};
ghost use Rattle.run_semantics.specs.Laws.{AreStates};
ghost use Rattle.kernel_boxes.specs.Saved.{CanTake, Takes, instances_held, seats_held};
ghost use Rattle.kernel.specs.Kernels.{boxes_in, world_in, ran_in, HasKinds, IsCallable};
ghost use Rattle.kernel.specs.Kernels.{KeepsBoxes};

use crate::finishing::{MAX_ACTIONS, follow_last};
use crate::from_model::{ask_injection, call_shown, read_fault};
use crate::request::Request;
use event_set::pending::{Happening, Pending};
use kernel_actions::classes::is_among;
use kernel_actions::core_part::Core;
use kernel_actions::events::{arrival, message_of};
use kernel_actions::looks::{Look, Next};
use kernel_actions::position::Position;
use kernel_boxes::boxes_saved::{load_one, save_all};
use kernel_boxes::dropping::drop_those;
use kernel_boxes::going_back::{drop_others, first_lacking};
use kernel_call_views::{CallView, CallViews};
use kernel_sending::building::prepare;
use kernel_sending::creating::create;
use kernel_sending::joining::{connect, disconnect};
use kernel_sending::sending::{send, send_direct};
use model_questions::record::{Record, path_of, record_at};
use module_api::call::{Call, CallReason};
use module_api::catalogue::Catalogue;
use module_api::reply::{Action, Reply};
use module_api::simple_module::SimpleModule;
use module_tree::Tree;
use run_answers::Answers;
use run_question_log::entry::LogEntry;
use run_semantics::occasions::{Occasion, is_noted};
use run_semantics::outcome::{EventFlow, Outcome, RunFault};
use run_semantics::routes::copy_transmissions;
use run_semantics::traces::{Emission, Instance, Scalar};
use sim_time::SimTime;
use sim_values::NoMemory;
use sim_values::text::Text;
use sqlite_items::Items;
use std::alloc::{AllocFailed, Global};
use std::marker::PhantomData;
use std::mem::swap;

/// A world in code.
pub struct Kernel<C: Catalogue> {
    core: Core,
    boxes: Tree<Box<dyn SimpleModule>>,
    of: PhantomData<C>,
}

// Written out, so that a crate which drops one need not prove what that does.
impl<C: Catalogue> Drop for Kernel<C> {
    fn drop(self) {
        let Kernel {
            core: _,
            boxes: _,
            of: _,
        } = self;
    }
}

impl<C: Catalogue> Kernel<C> {
    /// Nothing stands, and nothing happened. The empty tree is handed in.
    pub fn new(alloc: Global, boxes: Tree<Box<dyn SimpleModule>>) -> Kernel<C>
        requires { boxes ≡ nothing }
        ensures world { world_in SimpleModule-box result ≡ empty }
        ensures kinds { HasKinds C.behaviour SimpleModule-box result }
    {
        Kernel {
            core: Core::new(alloc),
            boxes,
            of: PhantomData,
        }
    }

    // ---- what callers read

    /// How many events were executed.
    pub fn count(&self) -> u64
        ensures { result ≡ (world_in SimpleModule-box self.now).count }
    {
        self.core.count()
    }

    /// The time of the last event; zero before the first one.
    pub fn clock(&self) -> SimTime
        ensures { result ≡ (world_in SimpleModule-box self.now).clock }
    {
        self.core.clock()
    }

    /// The modules that were created.
    pub fn records(&self) -> &[Record]
        ensures records { result.now ≡ (world_in SimpleModule-box self.now).records }
        ensures few { length result.now < 2 ^ 32 }
    {
        self.core.records()
    }

    /// What is noted of the questions that were asked of the model.
    pub fn questions(&self) -> &[LogEntry]
        ensures { noted_in result.now ≡ (world_in SimpleModule-box self.now).questions }
    {
        self.core.questions()
    }

    /// What was emitted.
    pub fn emissions(&self) -> &[Emission]
        ensures { result.now ≡ (world_in SimpleModule-box self.now).emissions }
    {
        self.core.emissions()
    }

    /// The scalars that modules recorded.
    pub fn scalars(&self) -> &[Scalar]
        ensures { result.now ≡ (world_in SimpleModule-box self.now).scalars }
    {
        self.core.scalars()
    }

    /// The ids of the modules that were finished.
    pub fn finished(&self) -> &[u32]
        ensures { result.now ≡ (world_in SimpleModule-box self.now).finished }
    {
        self.core.finished()
    }

    /// How many boxes it holds: the ids of their modules rise.
    pub fn held(&self) -> usize
        ensures count { result ≡ length (boxes_in SimpleModule-box self.now) }
        ensures rising { IdsRise 0 (world_in SimpleModule-box self.now).modules }
    {
        let _ids_rise = self.boxes.room();
        self.boxes.len()
    }

    // ---- setup, up to the boxes

    /// What the end of an event makes of the run.
    fn settle(&self, turn: EventFlow) -> Option<Outcome>
        ensures { let world = world_in SimpleModule-box self.now in
            stage_of result world ≡ settled (flow_of turn world) }
    {
        match turn {
            EventFlow::GoOn | EventFlow::Stop => None,
            EventFlow::Break(path, fault) => Some(Outcome::Fault(self.core.count(), path, fault)),
        }
    }

    /// Sets the network up anew, as the model answers. All boxes are dropped.
    pub fn setup<A: Answers>(
        &mut self,
        alloc: Global,
        model: &mut A,
    ) -> Result<Option<Outcome>, NoMemory>
        requires { HasKinds C.behaviour SimpleModule-box self.old }
        ensures empty { boxes_in SimpleModule-box self.new ≡ [] }
        ensures kinds { HasKinds C.behaviour SimpleModule-box self.new }
        ensures step { IfOk result (λ over.
            stage_of over (world_in SimpleModule-box self.new) ≡ settled (prepared A.answers)) }
    {
        self.boxes.clear();
        self.core.clear(alloc);
        let turn = prepare(&mut self.core, alloc, model)?;
        Ok(self.settle(turn))
    }

    /// What is asked for: a box of that kind for the module of that id.
    fn request(&self, alloc: Global, id: u32, kind: &[u8]) -> Result<Request, NoMemory>
        ensures { let world = world_in SimpleModule-box self.now in
            IfOk result (λ request.
            request ≡ request_for world (record { id = id; kind = kind.now })) }
    {
        Ok(Request {
            kind: Text::from_bytes(alloc, kind)?,
            path: path_of(alloc, self.core.records(), id)?,
            id,
        })
    }

    /// The first module that needs a box and has none yet, and its class.
    fn missing_part(&self, waiting: &Tree<Box<dyn SimpleModule>>) -> Option<(u32, &[u8])>
        requires unstarted { IsUnstarted (world_in SimpleModule-box self.now) }
        requires first { AreFirst C.behaviour (world_in SimpleModule-box self.now)
            (seats_held SimpleModule-box waiting.now) }
        ensures { let held = standing (instances_held SimpleModule-box waiting.now) in
            option_map (λ part. record { id = part.0; kind = part.1.now }) result
            ≡ missing_part (world_in SimpleModule-box self.now) held }
    {
        part_behind(self.core.records(), waiting.last().unwrap_or(0))
    }

    /// What the run asks for before the network is started: a box for the first module that needs
    /// one and has none of those that wait. They were supplied by rising ids.
    pub fn missing(
        &self,
        alloc: Global,
        waiting: &Tree<Box<dyn SimpleModule>>,
    ) -> Result<Option<Request>, NoMemory>
        requires unstarted { IsUnstarted (world_in SimpleModule-box self.now) }
        requires first { AreFirst C.behaviour (world_in SimpleModule-box self.now)
            (seats_held SimpleModule-box waiting.now) }
        ensures { let held = standing (instances_held SimpleModule-box waiting.now) in
            IfOk result (λ wanted. wanted ≡ missing_of (world_in SimpleModule-box self.now) held) }
    {
        let Some((id, kind)) = self.missing_part(waiting) else {
            return Ok(None);
        };
        let request = self.request(alloc, id, kind)?;
        Ok(Some(request))
    }

    /// The id of the first module that needs a box and has none of those that wait.
    pub fn missing_id(&self, waiting: &Tree<Box<dyn SimpleModule>>) -> Option<u32>
        requires unstarted { IsUnstarted (world_in SimpleModule-box self.now) }
        requires first { AreFirst C.behaviour (world_in SimpleModule-box self.now)
            (seats_held SimpleModule-box waiting.now) }
        ensures { let held = standing (instances_held SimpleModule-box waiting.now) in
            result ≡ option_map (λ (p : Part). p.id)
            (missing_part (world_in SimpleModule-box self.now) held) }
    {
        match self.missing_part(waiting) {
            Some((id, _)) => Some(id),
            None => None,
        }
    }

    // ---- replies

    /// One action of the module of that id.
    #[tactic(auto, using(kernel_actions::proofs::Lasting::growth_same))]
    fn perform<A: Answers>(
        &mut self,
        alloc: Global,
        model: &mut A,
        id: u32,
        action: &Action,
    ) -> Result<EventFlow, NoMemory>
        requires callable { IsCallable C.behaviour SimpleModule-box (2 ^ 75) self.old }
        ensures kinds { HasKinds C.behaviour SimpleModule-box self.new }
        ensures step { IfOk result (λ turn. flow_of turn (world_in SimpleModule-box self.new)
            ≡ perform C.behaviour A.answers id action.now (world_in SimpleModule-box self.old)) }
        ensures grown { IsGrownFrom self.old.core self.new.core }
    {
        let core = &mut self.core;
        match action {
            Action::Send(gate, message) => {
                let departure = Some(core.clock());
                send(core, alloc, model, id, gate, message, &departure)
            }
            Action::SendDelayed(gate, message, delay) => {
                let departure = core.clock().checked_add(*delay).ok();
                send(core, alloc, model, id, gate, message, &departure)
            }
            Action::SendDirect(place, message, flight) => {
                send_direct(core, alloc, model, id, place, message, flight)
            }
            Action::Connect(from, to, link) => connect(core, alloc, model, id, from, to, link),
            Action::Disconnect(place) => disconnect(core, alloc, model, id, place),
            Action::Create(creation) => create(core, alloc, model, id, creation),
            Action::Delete(path, finish) => { self.delete(alloc, model, id, path, *finish) }
            _ => core.deed(alloc, id, action),
        }
    }

    /// An action of a reply.
    #[tactic(auto, using(kernel_actions::proofs::Lasting::growth_same))]
    fn act<A: Answers>(
        &mut self,
        alloc: Global,
        model: &mut A,
        id: u32,
        action: &Action,
    ) -> Result<EventFlow, NoMemory>
        requires callable { IsCallable C.behaviour SimpleModule-box (2 ^ 75) self.old }
        ensures kinds { HasKinds C.behaviour SimpleModule-box self.new }
        ensures step { IfOk result (λ turn. flow_of turn (world_in SimpleModule-box self.new)
            ≡ act (perform C.behaviour A.answers id) occasions.Event id action.now
            (world_in SimpleModule-box self.old)) }
        ensures grown { IsGrownFrom self.old.core self.new.core }
    {
        if action.has_large_payload() {
            return self.core.broken(alloc, id, RunFault::PayloadTooLarge);
        }
        self.perform(alloc, model, id, action)
    }

    /// The actions of a reply, in order.
    fn act_all<A: Answers>(
        &mut self,
        alloc: Global,
        model: &mut A,
        id: u32,
        actions: &[Action],
    ) -> Result<EventFlow, NoMemory>
        requires callable { IsCallable C.behaviour SimpleModule-box
            (2 ^ 75 + length actions.now) self.old }
        ensures kinds { HasKinds C.behaviour SimpleModule-box self.new }
        ensures step { IfOk result (λ turn. flow_of turn (world_in SimpleModule-box self.new)
            ≡ act_all (perform C.behaviour A.answers id) occasions.Event id actions.now
            (world_in SimpleModule-box self.old)) }
        ensures grown { IsGrownFrom self.old.core self.new.core }
    {
        for action in actions {
            match self.act(alloc, model, id, action)? {
                EventFlow::GoOn => {}
                turn => return Ok(turn),
            }
        }
        Ok(EventFlow::GoOn)
    }

    /// The actions of a reply, where there are at most 1,000.
    #[tactic(auto, using(kernel_actions::proofs::Lasting::growth_same))]
    fn act_few<A: Answers>(
        &mut self,
        alloc: Global,
        model: &mut A,
        id: u32,
        actions: &[Action],
    ) -> Result<EventFlow, NoMemory>
        requires callable { IsCallable C.behaviour SimpleModule-box (2 ^ 76) self.old }
        ensures kinds { HasKinds C.behaviour SimpleModule-box self.new }
        ensures step { IfOk result (λ turn. flow_of turn (world_in SimpleModule-box self.new)
            ≡ acted (perform C.behaviour A.answers id) occasions.Event id actions.now
            (world_in SimpleModule-box self.old)) }
        ensures grown { IsGrownFrom self.old.core self.new.core }
    {
        if actions.len() > MAX_ACTIONS {
            return self.core.broken(alloc, id, RunFault::TooManyActions);
        }
        self.act_all(alloc, model, id, actions)
    }

    /// Carries out the reply to a call: its reads are asked, and then its actions are performed,
    /// unless a read has a fault.
    #[tactic(auto, using(kernel_actions::proofs::Lasting::growth_same))]
    fn follow<A: Answers>(
        &mut self,
        alloc: Global,
        model: &mut A,
        call: &Call,
        reply: &Reply,
    ) -> Result<EventFlow, NoMemory>
        requires callable { IsCallable C.behaviour SimpleModule-box (2 ^ 76) self.old }
        requires told { call.now.parameters
            ≡ parameters_of A.answers self.old.core.records call.now.id }
        ensures kinds { HasKinds C.behaviour SimpleModule-box self.new }
        ensures step { IfOk result (λ turn. flow_of turn (world_in SimpleModule-box self.new)
            ≡ answered C.behaviour A.answers call.now.id reply.now
            (world_in SimpleModule-box self.old)) }
        ensures grown { IsGrownFrom self.old.core self.new.core }
    {
        let reads = reply.reads.as_slice();
        let fault = read_fault(&self.core, alloc, model, call, reads)?;
        self.core.ask_noted(alloc, Occasion::Event, call.id, reads)?;
        match fault {
            Some(fault) => self.core.broken(alloc, call.id, fault),
            None => self.act_few(alloc, model, call.id, reply.actions.as_slice()),
        }
    }

    // ---- calls

    /// What the module that is called replies, where it has a box. The box is taken out for the
    /// call, and put back after it.
    fn reply_of(&mut self, alloc: Global, call: &Call) -> Option<Result<Reply, NoMemory>>
        ensures core { self.new.core ≡ self.old.core }
        ensures served { IsServed call.now.id (boxes_in SimpleModule-box self.old)
            (boxes_in SimpleModule-box self.new) call.now result }
    {
        let Some(mut held) = self.boxes.take(call.id) else {
            return None;
        };
        let reply = serve(&mut held, alloc, call);
        self.boxes.put_back(call.id, held);
        Some(reply)
    }

    /// Calls the module that the call names, and does what its reply says. A call of what isn't
    /// there is passed over.
    #[tactic(auto, using(kernel_actions::proofs::Lasting::growth_same))]
    fn carry_out<A: Answers>(
        &mut self,
        alloc: Global,
        model: &mut A,
        call: &Call,
    ) -> Result<EventFlow, NoMemory>
        requires callable { IsCallable C.behaviour SimpleModule-box (2 ^ 76) self.old }
        requires told { call.now
            ≡ call_of A.answers call.now.id call.now.prompt (world_in SimpleModule-box self.old) }
        ensures kinds { HasKinds C.behaviour SimpleModule-box self.new }
        ensures step { IfOk result (λ turn. flow_of turn (world_in SimpleModule-box self.new)
            ≡ call_module C.behaviour A.answers call.now.id call.now.prompt
            (world_in SimpleModule-box self.old)) }
        ensures grown { IsGrownFrom (world_in SimpleModule-box self.old)
            (world_in SimpleModule-box self.new) }
    {
        let Some(reply) = self.reply_of(alloc, call) else {
            return Ok(EventFlow::GoOn);
        };
        let reply = reply?;
        self.follow(alloc, model, call, &reply)
    }

    /// One call of the module of that id. What calls show of it is taken out of the table for the
    /// call, and put back after it.
    #[tactic(auto, using(kernel_actions::proofs::Lasting::growth_same))]
    fn call_module<A: Answers>(
        &mut self,
        alloc: Global,
        model: &mut A,
        shown: &mut CallViews,
        id: u32,
        prompt: CallReason,
    ) -> Result<EventFlow, NoMemory>
        requires callable { IsCallable C.behaviour SimpleModule-box (2 ^ 76) self.old }
        requires shown { AreShown A.answers (world_in SimpleModule-box self.old).records shown.old }
        ensures kinds { HasKinds C.behaviour SimpleModule-box self.new }
        ensures step { IfOk result (λ turn. flow_of turn (world_in SimpleModule-box self.new)
            ≡ call_module C.behaviour A.answers id prompt (world_in SimpleModule-box self.old)) }
        ensures grown { IsGrownFrom (world_in SimpleModule-box self.old)
            (world_in SimpleModule-box self.new) }
        ensures shown { AreShown A.answers (world_in SimpleModule-box self.new).records shown.new }
    {
        let lent = shown.take(alloc, model, self.core.records(), id)?;
        let lasts = lent.lasts;
        let call = call_shown(&self.core, id, prompt, lent.shown);
        let turn = self.carry_out(alloc, model, &call);
        shown.put_back(lasts, id, shown_in(call));
        turn
    }

    // ---- modules that are finished

    /// Tells the module that the call names that it is over, and does what its reply says. A call of
    /// what isn't there is passed over.
    #[tactic(auto, using(kernel_actions::proofs::Lasting::growth_same))]
    fn carry_out_last<A: Answers>(
        &mut self,
        alloc: Global,
        model: &mut A,
        occasion: Occasion,
        call: &Call,
    ) -> Result<EventFlow, NoMemory>
        requires callable { IsCallable C.behaviour SimpleModule-box 1000 self.old }
        requires told { call.now
            ≡ call_of A.answers call.now.id call.now.prompt (world_in SimpleModule-box self.old) }
        ensures kept { KeepsBoxes C.behaviour SimpleModule-box self.old self.new }
        ensures step { IfOk result (λ turn. flow_of turn (world_in SimpleModule-box self.new)
            ≡ called_last C.behaviour A.answers occasion call.now.id call.now.prompt
            (world_in SimpleModule-box self.old)) }
        ensures grown { IsGrownFrom (world_in SimpleModule-box self.old)
            (world_in SimpleModule-box self.new) }
    {
        let Some(reply) = self.reply_of(alloc, call) else {
            return Ok(EventFlow::GoOn);
        };
        let reply = reply?;
        follow_last(&mut self.core, alloc, model, occasion, call, &reply)
    }

    /// Tells the module of that id that it is over, where it has a box. What calls show of it is
    /// taken out of the table for the call, and put back after it.
    #[tactic(auto, using(kernel_actions::proofs::Lasting::growth_same))]
    fn call_last<A: Answers>(
        &mut self,
        alloc: Global,
        model: &mut A,
        shown: &mut CallViews,
        occasion: Occasion,
        id: u32,
    ) -> Result<EventFlow, NoMemory>
        requires callable { IsCallable C.behaviour SimpleModule-box 1000 self.old }
        requires shown { AreShown A.answers (world_in SimpleModule-box self.old).records shown.old }
        ensures kept { KeepsBoxes C.behaviour SimpleModule-box self.old self.new }
        ensures step { let before = world_in SimpleModule-box self.old in
            IfOk result (λ turn. flow_of turn (world_in SimpleModule-box self.new)
            ≡ call_last C.behaviour A.answers occasion id before) }
        ensures grown { IsGrownFrom (world_in SimpleModule-box self.old)
            (world_in SimpleModule-box self.new) }
        ensures shown { AreShown A.answers (world_in SimpleModule-box self.new).records shown.new }
    {
        if self.stages_at(id).is_none() {
            return Ok(EventFlow::GoOn);
        }
        let lent = shown.take(alloc, model, self.core.records(), id)?;
        let lasts = is_shown_again(lent.lasts, occasion);
        let call = call_shown(&self.core, id, CallReason::Finish, lent.shown);
        let turn = self.carry_out_last(alloc, model, occasion, &call);
        shown.put_back(lasts, id, shown_in(call));
        turn
    }

    /// Finishes the module of that id: a simple one is told first, a compound one just counts as
    /// finished.
    #[tactic(auto, using(kernel_actions::proofs::Lasting::growth_same))]
    fn finish_one<A: Answers>(
        &mut self,
        alloc: Global,
        model: &mut A,
        shown: &mut CallViews,
        occasion: Occasion,
        id: u32,
    ) -> Result<EventFlow, NoMemory>
        requires callable { IsCallable C.behaviour SimpleModule-box 1000 self.old }
        requires shown { AreShown A.answers (world_in SimpleModule-box self.old).records shown.old }
        ensures kept { KeepsBoxes C.behaviour SimpleModule-box self.old self.new }
        ensures next { let before = world_in SimpleModule-box self.old in
            OnOk result ((world_in SimpleModule-box self.new).next ≤ before.next + 1000) }
        ensures step { let before = world_in SimpleModule-box self.old in
            IfOk result (λ turn. flow_of turn (world_in SimpleModule-box self.new)
            ≡ finish C.behaviour A.answers occasion id before) }
        ensures grown { IsGrownFrom (world_in SimpleModule-box self.old)
            (world_in SimpleModule-box self.new) }
        ensures shown { AreShown A.answers (world_in SimpleModule-box self.new).records shown.new }
    {
        match self.call_last(alloc, model, shown, occasion, id)? {
            EventFlow::GoOn => {
                self.core.mark_finished(id)?;
                Ok(EventFlow::GoOn)
            }
            turn => Ok(turn),
        }
    }

    /// Finishes these modules, in this order.
    fn finish_all<A: Answers>(
        &mut self,
        alloc: Global,
        model: &mut A,
        shown: &mut CallViews,
        occasion: Occasion,
        ids: &[u32],
    ) -> Result<EventFlow, NoMemory>
        requires callable { IsCallable C.behaviour SimpleModule-box (2 ^ 75) self.old }
        requires shown { AreShown A.answers (world_in SimpleModule-box self.old).records shown.old }
        ensures kept { KeepsBoxes C.behaviour SimpleModule-box self.old self.new }
        ensures step { let before = world_in SimpleModule-box self.old in
            IfOk result (λ turn. flow_of turn (world_in SimpleModule-box self.new)
            ≡ finish_all C.behaviour A.answers occasion ids.now before) }
        ensures grown { IsGrownFrom (world_in SimpleModule-box self.old)
            (world_in SimpleModule-box self.new) }
        ensures shown { AreShown A.answers (world_in SimpleModule-box self.new).records shown.new }
    {
        for id in ids {
            match self.finish_one(alloc, model, shown, occasion, *id)? {
                EventFlow::GoOn => {}
                turn => return Ok(turn),
            }
        }
        Ok(EventFlow::GoOn)
    }

    // ---- modules that are deleted

    /// Finishes a module that is to be deleted, with all that is inside of it, if that is wanted.
    #[tactic(auto, using(kernel_actions::proofs::Lasting::growth_same))]
    fn finish_first<A: Answers>(
        &mut self,
        alloc: Global,
        model: &mut A,
        finish: bool,
        target: u32,
    ) -> Result<EventFlow, NoMemory>
        requires callable { IsCallable C.behaviour SimpleModule-box (2 ^ 75) self.old }
        ensures kept { KeepsBoxes C.behaviour SimpleModule-box self.old self.new }
        ensures step { let before = world_in SimpleModule-box self.old in
            IfOk result (λ turn. flow_of turn (world_in SimpleModule-box self.new)
            ≡ finished_first C.behaviour A.answers finish target before) }
        ensures grown { IsGrownFrom (world_in SimpleModule-box self.old)
            (world_in SimpleModule-box self.new) }
    {
        if !finish {
            return Ok(EventFlow::GoOn);
        }
        let ids = self.core.to_finish_in(alloc, target)?;
        // What calls show of these modules is needed once: they are gone after it.
        let mut shown = CallViews::new(alloc);
        self.finish_all(alloc, model, &mut shown, Occasion::Deletion, ids.as_slice())
    }

    /// A module is dead, with all that is inside of it: their boxes are dropped. Where the module of
    /// that id is one of them the rest of the event is discarded.
    fn drop_subtree(&mut self, alloc: Global, id: u32, target: u32) -> Result<EventFlow, NoMemory>
        requires kinds { HasKinds C.behaviour SimpleModule-box self.old }
        ensures kinds { HasKinds C.behaviour SimpleModule-box self.new }
        ensures step { let before = world_in SimpleModule-box self.old in
            IfOk result (λ turn. flow_of turn (world_in SimpleModule-box self.new)
            ≡ subtree_dropped id target before) }
        ensures grown { IsGrownFrom self.old.core self.new.core }
    {
        let ids = self.core.subtree_of(alloc, target)?;
        self.core.bury(ids.as_slice())?;
        drop_those(&mut self.boxes, ids.as_slice());
        if is_among(ids.as_slice(), id) {
            Ok(EventFlow::Stop)
        } else {
            Ok(EventFlow::GoOn)
        }
    }

    /// Deletes the module of that path, with all that is inside of it, as the module of that id
    /// wants it.
    fn delete<A: Answers>(
        &mut self,
        alloc: Global,
        model: &mut A,
        id: u32,
        path: &Text,
        finish: bool,
    ) -> Result<EventFlow, NoMemory>
        requires callable { IsCallable C.behaviour SimpleModule-box (2 ^ 75) self.old }
        ensures kinds { HasKinds C.behaviour SimpleModule-box self.new }
        ensures step { let before = world_in SimpleModule-box self.old in
            IfOk result (λ turn. flow_of turn (world_in SimpleModule-box self.new)
            ≡ deleted C.behaviour A.answers id path.now finish before) }
        ensures grown { IsGrownFrom self.old.core self.new.core }
    {
        let target = match self.core.module_at(path) {
            // The network can't be deleted.
            Some(target) if target != 1 => target,
            _ => return self.core.broken(alloc, id, RunFault::NoModule),
        };
        match self.finish_first(alloc, model, finish, target)? {
            EventFlow::GoOn => self.drop_subtree(alloc, id, target),
            turn => Ok(turn),
        }
    }

    // ---- event zero

    /// How many stages the module of that id has, where it has a box.
    fn stages_at(&self, id: u32) -> Option<u8>
        ensures { result ≡ stages_of (module_in id (boxes_in SimpleModule-box self.now)) }
    {
        match self.boxes.get(id) {
            Some(held) => Some(stages_of(held)),
            None => None,
        }
    }

    /// How many stages the module of that id has: none where it has no box.
    fn stages_in(&self, id: u32) -> u8
        requires { HasKinds C.behaviour SimpleModule-box self.now }
        ensures { let world = world_in SimpleModule-box self.now in
            result ≡ stages_in C.behaviour (instance_in id world.modules) }
    {
        self.stages_at(id).unwrap_or(0)
    }

    /// Initializes the module of that id, where it has that stage.
    #[tactic(auto, using(kernel_actions::proofs::Lasting::growth_same))]
    fn initialize<A: Answers>(
        &mut self,
        alloc: Global,
        model: &mut A,
        shown: &mut CallViews,
        stage: u8,
        id: u32,
    ) -> Result<EventFlow, NoMemory>
        requires callable { IsCallable C.behaviour SimpleModule-box (2 ^ 76) self.old }
        requires shown { AreShown A.answers (world_in SimpleModule-box self.old).records shown.old }
        ensures kinds { HasKinds C.behaviour SimpleModule-box self.new }
        ensures next { let before = world_in SimpleModule-box self.old in
            OnOk result ((world_in SimpleModule-box self.new).next ≤ before.next + 1000) }
        ensures step { let before = world_in SimpleModule-box self.old in
            IfOk result (λ turn. flow_of turn (world_in SimpleModule-box self.new)
            ≡ initialize C.behaviour A.answers stage id before) }
        ensures grown { IsGrownFrom (world_in SimpleModule-box self.old)
            (world_in SimpleModule-box self.new) }
        ensures shown { AreShown A.answers (world_in SimpleModule-box self.new).records shown.new }
    {
        if stage >= self.stages_in(id) {
            return Ok(EventFlow::GoOn);
        }
        let prompt = CallReason::Initialize(stage);
        let turn = self.call_module(alloc, model, shown, id, prompt)?;
        Ok(turn)
    }

    /// One stage of the initialization of these modules, in this order.
    fn one_stage<A: Answers>(
        &mut self,
        alloc: Global,
        model: &mut A,
        shown: &mut CallViews,
        stage: u8,
        ids: &[u32],
    ) -> Result<EventFlow, NoMemory>
        requires callable { IsCallable C.behaviour SimpleModule-box (2 ^ 77) self.old }
        requires shown { AreShown A.answers (world_in SimpleModule-box self.old).records shown.old }
        ensures kinds { HasKinds C.behaviour SimpleModule-box self.new }
        ensures next { let before = world_in SimpleModule-box self.old in
            OnOk result ((world_in SimpleModule-box self.new).next ≤ before.next + 2 ^ 74) }
        ensures step { let before = world_in SimpleModule-box self.old in
            IfOk result (λ turn. flow_of turn (world_in SimpleModule-box self.new)
            ≡ one_stage C.behaviour A.answers stage ids.now before) }
        ensures grown { IsGrownFrom (world_in SimpleModule-box self.old)
            (world_in SimpleModule-box self.new) }
        ensures shown { AreShown A.answers (world_in SimpleModule-box self.new).records shown.new }
    {
        for id in ids {
            match self.initialize(alloc, model, shown, stage, *id)? {
                EventFlow::GoOn => {}
                turn => return Ok(turn),
            }
        }
        Ok(EventFlow::GoOn)
    }

    /// The greatest number of stages of these modules.
    fn most_stages(&self, ids: &[u32]) -> u8
        requires { HasKinds C.behaviour SimpleModule-box self.now }
        ensures { let world = world_in SimpleModule-box self.now in
            result ≡ most_stages C.behaviour world.modules ids.now }
    {
        let mut most = 0;
        for id in ids {
            most = greater(most, self.stages_in(*id));
        }
        most
    }

    /// All stages below this number, of these modules.
    fn stages<A: Answers>(
        &mut self,
        alloc: Global,
        model: &mut A,
        shown: &mut CallViews,
        most: u8,
        ids: &[u32],
    ) -> Result<EventFlow, NoMemory>
        requires callable { IsCallable C.behaviour SimpleModule-box (2 ^ 83) self.old }
        requires shown { AreShown A.answers (world_in SimpleModule-box self.old).records shown.old }
        ensures kinds { HasKinds C.behaviour SimpleModule-box self.new }
        ensures next { let before = world_in SimpleModule-box self.old in
            OnOk result ((world_in SimpleModule-box self.new).next ≤ before.next + 2 ^ 82) }
        ensures step { let before = world_in SimpleModule-box self.old in
            IfOk result (λ turn. flow_of turn (world_in SimpleModule-box self.new)
            ≡ stages_from C.behaviour A.answers ids.now 0 most before) }
        ensures few { most ≤ 255 }
        ensures grown { IsGrownFrom (world_in SimpleModule-box self.old)
            (world_in SimpleModule-box self.new) }
        ensures shown { AreShown A.answers (world_in SimpleModule-box self.new).records shown.new }
    {
        for stage in 0..most {
            match self.one_stage(alloc, model, shown, stage, ids)? {
                EventFlow::GoOn => {}
                turn => return Ok(turn),
            }
        }
        Ok(EventFlow::GoOn)
    }

    /// A start of these modules, which have their boxes: they count as started, and are initialized,
    /// from the first of them inwards.
    #[tactic(auto, using(kernel_actions::proofs::Lasting::growth_same))]
    fn begin_modules<A: Answers>(
        &mut self,
        alloc: Global,
        model: &mut A,
        shown: &mut CallViews,
        ids: &[u32],
        first: u32,
    ) -> Result<EventFlow, NoMemory>
        requires callable { IsCallable C.behaviour SimpleModule-box (2 ^ 83) self.old }
        requires shown { AreShown A.answers (world_in SimpleModule-box self.old).records shown.old }
        ensures kinds { HasKinds C.behaviour SimpleModule-box self.new }
        ensures next { let before = world_in SimpleModule-box self.old in
            OnOk result ((world_in SimpleModule-box self.new).next ≤ before.next + 2 ^ 82) }
        ensures few { let before = world_in SimpleModule-box self.old in
            OnOk result (HasFewCalls before ids.now first
            → KeepsRoom before (world_in SimpleModule-box self.new)) }
        ensures step { let before = world_in SimpleModule-box self.old in
            IfOk result (λ turn. flow_of turn (world_in SimpleModule-box self.new)
            ≡ started C.behaviour A.answers ids.now (outer_first before.records ids.now first)
            before) }
        ensures grown { IsGrownFrom (world_in SimpleModule-box self.old)
            (world_in SimpleModule-box self.new) }
        ensures shown { AreShown A.answers (world_in SimpleModule-box self.new).records shown.new }
    {
        let calls = self.core.calls_from(alloc, ids, first)?;
        let most = self.most_stages(calls.as_slice());
        self.core.mark_started(ids)?;
        let turn = self.stages(alloc, model, shown, most, calls.as_slice())?;
        Ok(turn)
    }

    /// Initializes all modules, where each has its box.
    fn initialize_all<A: Answers>(
        &mut self,
        alloc: Global,
        model: &mut A,
        shown: &mut CallViews,
    ) -> Result<Option<Outcome>, NoMemory>
        requires ready { On (world_in SimpleModule-box self.old) ≡ ready C.behaviour A.answers }
        requires next { (world_in SimpleModule-box self.old).next ≡ 0 }
        requires kinds { HasKinds C.behaviour SimpleModule-box self.old }
        requires shown { AreShown A.answers (world_in SimpleModule-box self.old).records shown.old }
        ensures kinds { HasKinds C.behaviour SimpleModule-box self.new }
        ensures next { OnOk result ((world_in SimpleModule-box self.new).next ≤ 2 ^ 82) }
        ensures step { IfOk result (λ over.
            stage_of over (world_in SimpleModule-box self.new) ≡ start C.behaviour A.answers) }
        ensures shown { let left = world_in SimpleModule-box self.new in
            OnOk result (AreShown A.answers left.records shown.new) }
    {
        let ids = self.core.unstarted(alloc)?;
        let turn = self.begin_modules(alloc, model, shown, ids.as_slice(), 1)?;
        Ok(self.settle(turn))
    }

    /// Starts the network that was set up, the end of event zero: each simple module has its box,
    /// of those that waited, and all modules are initialized. None waits from then on. What calls
    /// show of modules is taken from the table, or found and put in there.
    pub fn start<A: Answers>(
        &mut self,
        alloc: Global,
        model: &mut A,
        shown: &mut CallViews,
        waiting: &mut Tree<Box<dyn SimpleModule>>,
    ) -> Result<Option<Outcome>, NoMemory>
        requires prepared { On (world_in SimpleModule-box self.old) ≡ prepared A.answers }
        requires next { (world_in SimpleModule-box self.old).next ≡ 0 }
        requires none { (world_in SimpleModule-box self.old).modules ≡ [] }
        requires fresh { AreFresh C.behaviour (needs (world_in SimpleModule-box self.old))
            (seats_held SimpleModule-box waiting.old) }
        requires shown { AreShown A.answers (world_in SimpleModule-box self.old).records shown.old }
        ensures kinds { HasKinds C.behaviour SimpleModule-box self.new }
        ensures none { seats_held SimpleModule-box waiting.new ≡ [] }
        ensures next { OnOk result ((world_in SimpleModule-box self.new).next ≤ 2 ^ 82) }
        ensures step { IfOk result (λ over.
            stage_of over (world_in SimpleModule-box self.new) ≡ start C.behaviour A.answers) }
        ensures shown { let left = world_in SimpleModule-box self.new in
            OnOk result (AreShown A.answers left.records shown.new) }
    {
        swap(&mut self.boxes, waiting);
        self.initialize_all(alloc, model, shown)
    }

    // ---- events

    /// Whether the module of that id has a box, and stands at a path.
    fn stands_at(&self, alloc: Global, id: u32, path: &[u8]) -> Result<bool, NoMemory>
        ensures { let records = (world_in SimpleModule-box self.now).records in
            IfOk result (λ stands. stands
            ≡ stands_at records path.now id (module_in id (boxes_in SimpleModule-box self.now))) }
    {
        if self.stages_at(id).is_none() {
            return Ok(false);
        }
        Ok(path_of(alloc, self.core.records(), id)?.is(path))
    }

    /// The simple module that stands at a path.
    fn target(&self, alloc: Global, path: &[u8]) -> Result<Option<u32>, NoMemory>
        ensures { IfOk result (λ id. id ≡ target_of path.now (world_in SimpleModule-box self.now)) }
    {
        for index in 0..self.boxes.room() {
            if self.stands_at(alloc, index as u32, path)? {
                return Ok(Some(index as u32));
            }
        }
        Ok(None)
    }

    /// Looks at one injection more: an event comes of it, or it is discarded, or none goes before
    /// the first event to come.
    fn look_on<A: Answers>(
        &self,
        alloc: Global,
        model: &A,
        look: &mut Look,
    ) -> Result<Option<Next>, NoMemory>
        requires count { (world_in SimpleModule-box self.now).count + 1 < 2 ^ 64 }
        ensures looks { let world = world_in SimpleModule-box self.now in
            IfOk result (λ next.
            LooksOn A.answers (looked world look.old) next (looked world look.new)) }
        ensures arrives { IfOk result (λ next. IfSome next StartsNone) }
    {
        let Some(injection) = ask_injection(&self.core, alloc, model, look)? else {
            return Ok(Some(Next::First));
        };
        look.deliver(&injection);
        match self.target(alloc, injection.path.as_bytes())? {
            Some(id) => Ok(Some(Next::Arrival(arrival(injection, id)))),
            None => Ok(None),
        }
    }

    /// What comes next, and what was asked to know it.
    fn upcoming<A: Answers>(&self, alloc: Global, model: &A) -> Result<(Look, Next), NoMemory>
        requires count { (world_in SimpleModule-box self.now).count + 1 < 2 ^ 64 }
        ensures comes { let world = world_in SimpleModule-box self.now in
            IfOk result (λ r. upcoming A.answers world ≡ upcoming_of r.1 (looked world r.0)) }
        ensures arrives { IfOk result (λ r. StartsNone r.1) }
    {
        let mut look = self.core.look(alloc);
        // Each look but the last delivers an injection.
        let looks = model.injections().len() + 1;
        for _ in 0..looks {
            if let Some(next) = self.look_on(alloc, model, &mut look)? {
                return Ok((look, next));
            }
        }
        Ok((look, Next::Nothing))
    }

    /// Starts modules that were created together, with ids from the first to the last: each simple
    /// one has its box, of those that waited. None waits from then on.
    #[tactic(auto, using(kernel_actions::proofs::Lasting::growth_same))]
    fn start_created<A: Answers>(
        &mut self,
        alloc: Global,
        model: &mut A,
        shown: &mut CallViews,
        waiting: &mut Tree<Box<dyn SimpleModule>>,
        first: u32,
        last: u32,
    ) -> Result<EventFlow, NoMemory>
        requires callable { IsCallable C.behaviour SimpleModule-box (2 ^ 83) self.old }
        requires modules { HasItsModules (world_in SimpleModule-box self.old) }
        requires fresh { let before = world_in SimpleModule-box self.old in
            AreFresh C.behaviour (needs_of (starting first last before) before)
            (seats_held SimpleModule-box waiting.old) }
        requires shown { AreShown A.answers (world_in SimpleModule-box self.old).records shown.old }
        ensures kinds { HasKinds C.behaviour SimpleModule-box self.new }
        ensures none { OnOk result (seats_held SimpleModule-box waiting.new ≡ []) }
        ensures room { OnOk result (KeepsRoom (world_in SimpleModule-box self.old)
            (world_in SimpleModule-box self.new)) }
        ensures step { let before = world_in SimpleModule-box self.old in
            IfOk result (λ turn. flow_of turn (world_in SimpleModule-box self.new)
            ≡ start_modules C.behaviour A.answers (starting first last before) first before) }
        ensures grown { IsGrownFrom (world_in SimpleModule-box self.old)
            (world_in SimpleModule-box self.new) }
        ensures shown { AreShown A.answers (world_in SimpleModule-box self.new).records shown.new }
    {
        let ids = self.core.starting(alloc, first, last)?;
        self.boxes.take_in(waiting)?;
        let turn = self.begin_modules(alloc, model, shown, ids.as_slice(), first)?;
        Ok(turn)
    }

    /// What happens in an event that has begun: modules that were created are started, with the
    /// boxes that waited, or a module is called.
    #[tactic(auto, using(kernel_actions::proofs::Lasting::growth_same))]
    fn happen<A: Answers>(
        &mut self,
        alloc: Global,
        model: &mut A,
        shown: &mut CallViews,
        waiting: &mut Tree<Box<dyn SimpleModule>>,
        event: Pending,
    ) -> Result<EventFlow, NoMemory>
        requires callable { IsCallable C.behaviour SimpleModule-box (2 ^ 83) self.old }
        requires modules { HasItsModules (world_in SimpleModule-box self.old) }
        requires fresh { let before = world_in SimpleModule-box self.old in
            AreFresh C.behaviour (wanted_for event event.what before)
            (seats_held SimpleModule-box waiting.old) }
        requires shown { AreShown A.answers (world_in SimpleModule-box self.old).records shown.old }
        ensures kinds { HasKinds C.behaviour SimpleModule-box self.new }
        ensures none { OnOk result (seats_held SimpleModule-box waiting.new ≡ []) }
        ensures room { OnOk result (KeepsRoom (world_in SimpleModule-box self.old)
            (world_in SimpleModule-box self.new)) }
        ensures step { let before = world_in SimpleModule-box self.old in
            IfOk result (λ turn. flow_of turn (world_in SimpleModule-box self.new)
            ≡ happens C.behaviour A.answers event event.what before) }
        ensures grown { IsGrownFrom (world_in SimpleModule-box self.old)
            (world_in SimpleModule-box self.new) }
        ensures shown { AreShown A.answers (world_in SimpleModule-box self.new).records shown.new }
    {
        let id = event.id;
        if let Happening::Start(last) = event.what {
            let turn = self.start_created(alloc, model, shown, waiting, id, last)?;
            return Ok(turn);
        }
        let prompt = CallReason::Message(message_of(alloc, event));
        let turn = self.call_module(alloc, model, shown, id, prompt)?;
        Ok(turn)
    }

    /// The next event, or how the run ends. The caller has looked up once what stays the same for
    /// all events: the model's time limit, in picoseconds, and what calls show of modules, which is
    /// taken from the table, or found and put in there. The boxes that wait are those of the modules
    /// that the event starts; none waits from then on.
    #[tactic(auto, using(kernel_actions::proofs::Lasting::growth_same))]
    pub fn step<A: Answers>(
        &mut self,
        alloc: Global,
        model: &mut A,
        limit: Option<u64>,
        shown: &mut CallViews,
        waiting: &mut Tree<Box<dyn SimpleModule>>,
    ) -> Result<Option<Outcome>, NoMemory>
        requires room { HasRoom (world_in SimpleModule-box self.old) }
        requires count { (world_in SimpleModule-box self.old).count + 1 < 2 ^ 64 }
        requires kinds { HasKinds C.behaviour SimpleModule-box self.old }
        requires limit { limit ≡ A.answers.time_limit }
        requires modules { HasItsModules (world_in SimpleModule-box self.old) }
        requires fresh { AreFresh C.behaviour
            (wanted A.answers (world_in SimpleModule-box self.old))
            (seats_held SimpleModule-box waiting.old) }
        requires shown { AreShown A.answers (world_in SimpleModule-box self.old).records shown.old }
        ensures kinds { HasKinds C.behaviour SimpleModule-box self.new }
        ensures none { OnOk result (seats_held SimpleModule-box waiting.new ≡ []) }
        ensures room { OnOk result (HasRoom (world_in SimpleModule-box self.new)) }
        ensures step { IfOk result (λ over. stage_of over (world_in SimpleModule-box self.new)
            ≡ next_stage C.behaviour A.answers (Running (world_in SimpleModule-box self.old))) }
        ensures grown { IsGrownFrom (world_in SimpleModule-box self.old)
            (world_in SimpleModule-box self.new) }
        ensures shown { AreShown A.answers (world_in SimpleModule-box self.new).records shown.new }
    {
        if self.core.is_ended() {
            return Ok(Some(Outcome::Ended));
        }
        let (look, next) = self.upcoming(alloc, model)?;
        match self.core.begin(alloc, limit, look, next)? {
            Ok(event) => {
                let turn = self.happen(alloc, model, shown, waiting, event)?;
                Ok(self.settle(turn))
            }
            Err(outcome) => Ok(Some(outcome)),
        }
    }

    // ---- boxes that are wanted between events

    /// The modules that the next event starts.
    fn coming<A: Answers>(
        &self,
        alloc: Global,
        model: &A,
        limit: Option<u64>,
    ) -> Result<Items<u32>, NoMemory>
        requires count { (world_in SimpleModule-box self.now).count + 1 < 2 ^ 64 }
        requires limit { limit ≡ A.answers.time_limit }
        ensures { IfOk result (λ ids.
            ids ≡ starts_next A.answers (world_in SimpleModule-box self.now)) }
    {
        if self.core.is_ended() {
            return Ok(Items::new(alloc));
        }
        let (_look, next) = self.upcoming(alloc, model)?;
        match next {
            Next::First => {
                let ids = self.core.first_starts(alloc, limit)?;
                Ok(ids)
            }
            _ => Ok(Items::new(alloc)),
        }
    }

    /// What is asked for where these modules are started, by rising ids: a box for the first simple
    /// one of a greater id.
    fn request_behind(
        &self,
        alloc: Global,
        ids: &[u32],
        last: u32,
    ) -> Result<Option<Request>, NoMemory>
        ensures { let world = world_in SimpleModule-box self.now in
            IfOk result (λ request.
            request ≡ option_map (request_for world) (next_in world.records last ids.now)) }
    {
        let Some((id, kind)) = part_among(self.core.records(), ids, last) else {
            return Ok(None);
        };
        let request = self.request(alloc, id, kind)?;
        Ok(Some(request))
    }

    /// What the run asks for before its next event: a box for the first of the modules that the
    /// event starts which has none of those that wait. They were supplied by rising ids.
    pub fn missing_next<A: Answers>(
        &self,
        alloc: Global,
        model: &A,
        limit: Option<u64>,
        waiting: &Tree<Box<dyn SimpleModule>>,
    ) -> Result<Option<Request>, NoMemory>
        requires count { (world_in SimpleModule-box self.now).count + 1 < 2 ^ 64 }
        requires limit { limit ≡ A.answers.time_limit }
        requires first { let needed = wanted A.answers (world_in SimpleModule-box self.now) in
            AreFirstOf C.behaviour needed (seats_held SimpleModule-box waiting.now) }
        ensures { let world = world_in SimpleModule-box self.now in
            let held = standing (instances_held SimpleModule-box waiting.now) in
            IfOk result (λ request. request ≡ wanted_of world (wanted A.answers world) held) }
    {
        // Mostly the next event starts none, and that is seen at once.
        if !self.core.is_start_first() {
            return Ok(None);
        }
        let ids = self.coming(alloc, model, limit)?;
        let last = waiting.last().unwrap_or(0);
        let request = self.request_behind(alloc, ids.as_slice(), last)?;
        Ok(request)
    }

    /// The next event, which starts modules, where there is no box for the module of that id: the
    /// first of them whose class the catalogue doesn't know. It has that fault, and nothing else
    /// is done in it.
    #[tactic(auto, using(kernel_actions::proofs::Lasting::growth_same))]
    pub fn step_declined<A: Answers>(
        &mut self,
        alloc: Global,
        model: &mut A,
        limit: Option<u64>,
        id: u32,
    ) -> Result<Option<Outcome>, NoMemory>
        requires count { (world_in SimpleModule-box self.old).count + 1 < 2 ^ 64 }
        requires limit { limit ≡ A.answers.time_limit }
        requires unknown { IsUnknownFirst C.behaviour
            (wanted A.answers (world_in SimpleModule-box self.old)) id }
        ensures boxes { boxes_in SimpleModule-box self.new ≡ boxes_in SimpleModule-box self.old }
        ensures step { IfOk result (λ over. stage_of over (world_in SimpleModule-box self.new)
            ≡ next_stage C.behaviour A.answers (Running (world_in SimpleModule-box self.old))) }
        ensures grown { IsGrownFrom (world_in SimpleModule-box self.old)
            (world_in SimpleModule-box self.new) }
    {
        let (look, next) = self.upcoming(alloc, model)?;
        let begun = self.core.begin(alloc, limit, look, next)?;
        match begun {
            Ok(_) => {
                let turn = self.core.broken(alloc, id, RunFault::UnknownClass)?;
                Ok(self.settle(turn))
            }
            Err(outcome) => Ok(Some(outcome)),
        }
    }

    /// How the run ends that is stopped here.
    pub fn outcome_of(&self, over: Option<Outcome>) -> Outcome
        ensures { ran_in SimpleModule-box result self.now
            ≡ stopped (stage_of over (world_in SimpleModule-box self.now)) }
    {
        match over {
            Some(outcome) => outcome,
            None if self.core.is_ended() => Outcome::Ended,
            None => Outcome::EventLimit,
        }
    }

    // ---- the end

    /// Finishes the modules of a run that ended so, and answers how it ends then. What calls show
    /// of modules is taken from the table, or found and put in there.
    #[tactic(auto, using(kernel_actions::proofs::Lasting::growth_same))]
    pub fn finish<A: Answers>(
        &mut self,
        alloc: Global,
        model: &mut A,
        shown: &mut CallViews,
        outcome: Outcome,
    ) -> Result<Outcome, NoMemory>
        requires room { HasRoom (world_in SimpleModule-box self.old) }
        requires count { (world_in SimpleModule-box self.old).count < 2 ^ 64 }
        requires kinds { HasKinds C.behaviour SimpleModule-box self.old }
        requires shown { AreShown A.answers (world_in SimpleModule-box self.old).records shown.old }
        ensures kinds { HasKinds C.behaviour SimpleModule-box self.new }
        ensures kept { KeepsBoxes C.behaviour SimpleModule-box self.old self.new }
        ensures step { IfOk result (λ last. ran_in SimpleModule-box last self.new
            ≡ ending C.behaviour A.answers (ran_in SimpleModule-box outcome self.old)) }
        ensures grown { IsGrownFrom (world_in SimpleModule-box self.old)
            (world_in SimpleModule-box self.new) }
        ensures shown { AreShown A.answers (world_in SimpleModule-box self.new).records shown.new }
    {
        if outcome.is_fault() {
            return Ok(outcome);
        }
        let ids = self.core.to_finish(alloc)?;
        match self.finish_all(alloc, model, shown, Occasion::End, ids.as_slice())? {
            EventFlow::GoOn | EventFlow::Stop => Ok(outcome),
            EventFlow::Break(path, fault) => Ok(Outcome::Fault(self.core.count(), path, fault)),
        }
    }

    // ---- positions

    /// The position of its world. The kernel stays as it is.
    pub fn position(&self, alloc: Global) -> Result<Position, NoMemory>
        ensures position { IfOk result (λ position.
            position ≡ position_of (world_in SimpleModule-box self.now)) }
        ensures back { let world = world_in SimpleModule-box self.now in
            IfOk result (λ position. world_back position world ≡ world) }
    {
        let modules = save_all(&self.boxes, alloc)?;
        self.core.position(alloc, modules)
    }

    /// Goes back to a position, or asks for the box that it needs first. The boxes of its modules,
    /// of the same ids and kinds, stay, and all others are dropped; where each of its modules has
    /// one then, each box takes its state. After NoMemory the states of the boxes are not known,
    /// and all else is as it was but for the boxes that were dropped: it can go back again, to this
    /// position or another one.
    pub fn go_back(
        &mut self,
        alloc: Global,
        position: &Position,
    ) -> Result<Option<Request>, NoMemory>
        requires kinds { HasKinds C.behaviour SimpleModule-box self.old }
        requires rising { IdsRise 0 position.now.modules }
        requires states { AreStates C.behaviour position.now.modules }
        ensures kept { let before = staying position.now.modules
            (boxes_in SimpleModule-box self.old) in
            AreKept C.behaviour before (boxes_in SimpleModule-box self.new) }
        ensures wanted { let before = boxes_in SimpleModule-box self.old in
            IfOk result (λ wanted.
            wanted ≡ lacking_of (world_in SimpleModule-box self.old) position.now.modules before) }
        ensures ok { IfOk result (λ wanted. wanted ≡ None → world_in SimpleModule-box self.new
            ≡ world_back position.now (world_in SimpleModule-box self.old)) }
        ensures waits { IfOk result (λ wanted. IfSome wanted (λ request.
            IsSameBesideModules (world_in SimpleModule-box self.new)
            (world_in SimpleModule-box self.old))) }
        ensures err { OnErr result (IsSameBesideModules (world_in SimpleModule-box self.new)
            (world_in SimpleModule-box self.old)) }
    {
        let _ids_rise = self.boxes.room();
        drop_others(&mut self.boxes, position.modules.as_slice());
        match self.lacking(alloc, position)? {
            Some(request) => Ok(Some(request)),
            None => {
                self.load_position(alloc, position)?;
                Ok(None)
            }
        }
    }

    /// What is asked for where a run goes back to a position: a box for the first of its modules
    /// that has none.
    fn lacking(&self, alloc: Global, position: &Position) -> Result<Option<Request>, NoMemory>
        ensures { let world = world_in SimpleModule-box self.now in
            IfOk result (λ wanted.
            wanted ≡ option_map (request_for world)
            (first_without (standing world.modules) (standing position.now.modules))) }
    {
        match first_lacking(&self.boxes, position.modules.as_slice()) {
            Some(instance) => Ok(Some(Request {
                kind: instance.kind.copy(alloc)?,
                path: path_of(alloc, self.core.records(), instance.id)?,
                id: instance.id,
            })),
            None => Ok(None),
        }
    }

    /// The id of the first module of a position that has no box.
    pub fn lacking_id(&self, position: &Position) -> Option<u32>
        ensures { let world = world_in SimpleModule-box self.now in
            result ≡ option_map (λ (p : Part). p.id)
            (first_without (standing world.modules) (standing position.now.modules)) }
    {
        match first_lacking(&self.boxes, position.modules.as_slice()) {
            Some(instance) => Some(instance.id),
            None => None,
        }
    }

    /// Gives the module of that id, which has none, its box, or hands the box back where memory
    /// runs out. Going back brings the box into the state of its module.
    pub fn supply(
        &mut self,
        id: u32,
        held: Box<dyn SimpleModule>,
    ) -> Result<(), AllocFailed<Box<dyn SimpleModule>>>
        requires free { module_in id (boxes_in SimpleModule-box self.old) ≡ None }
        ensures rest { IsSameBesideModules (world_in SimpleModule-box self.new)
            (world_in SimpleModule-box self.old) }
        ensures ok { let supplied : BoxAt = record { id = id; box = meaning held } in
            OnOk result (boxes_in SimpleModule-box self.new
            ≡ with_seat supplied (boxes_in SimpleModule-box self.old)) }
        ensures err { OnErr result
            (boxes_in SimpleModule-box self.new ≡ boxes_in SimpleModule-box self.old) }
        ensures returned { IfErr result (λ failed. failed.value ≡ held) }
    {
        self.boxes.place(id, held)
    }

    /// Goes back to a position whose modules are those that have boxes: each box takes its state.
    /// After NoMemory the states of the boxes are not known, and all else is as it was.
    fn load_position(&mut self, alloc: Global, position: &Position) -> Result<(), NoMemory>
        requires { CanTake C.behaviour position.now.modules (boxes_in SimpleModule-box self.old) }
        ensures kept { KeepsBoxes C.behaviour SimpleModule-box self.old self.new }
        ensures ok { OnOk result (world_in SimpleModule-box self.new
            ≡ world_back position.now (world_in SimpleModule-box self.old)) }
        ensures err { OnErr result (IsSameBesideModules (world_in SimpleModule-box self.new)
            (world_in SimpleModule-box self.old)) }
    {
        let coming = position.coming.copy(alloc)?;
        let transmissions = copy_transmissions(alloc, position.transmissions.as_slice())?;
        self.load_all(alloc, position.modules.as_slice())?;
        self.core.go_back(position, coming, transmissions);
        Ok(())
    }

    /// Cuts the lists that only grow while a run goes on to what they were at a position. The
    /// boxes, the events to come and all else stay, and it takes no memory: what was noted since
    /// the position is dropped, and the kernel can still go back to it.
    pub fn cut_back(&mut self, position: &Position)
        ensures world { world_in SimpleModule-box self.new
            ≡ cut_to position.now.lengths (world_in SimpleModule-box self.old) }
        ensures same { boxes_in SimpleModule-box self.new ≡ boxes_in SimpleModule-box self.old }
    {
        self.core.cut_to(position.lengths);
    }

    /// Each box takes its state.
    fn load_all(&mut self, alloc: Global, saved: &[Instance]) -> Result<(), NoMemory>
        requires { CanTake C.behaviour saved.now (boxes_in SimpleModule-box self.old) }
        ensures core { self.new.core ≡ self.old.core }
        ensures kept { KeepsBoxes C.behaviour SimpleModule-box self.old self.new }
        ensures ok { OnOk result ((world_in SimpleModule-box self.new).modules ≡ saved.now) }
    {
        let _ids_rise = self.boxes.room();
        for instance in saved {
            self.load(alloc, instance)?;
        }
        Ok(())
    }

    /// The box of that module takes its state.
    fn load(&mut self, alloc: Global, saved: &Instance) -> Result<(), NoMemory>
        requires kinds { HasKinds C.behaviour SimpleModule-box self.old }
        requires takes { Takes saved.now.state
            (module_in saved.now.id (boxes_in SimpleModule-box self.old)) }
        ensures core { self.new.core ≡ self.old.core }
        ensures kept { KeepsBoxes C.behaviour SimpleModule-box self.old self.new }
        ensures ok { OnOk result ((world_in SimpleModule-box self.new).modules
            ≡ with_state saved.now.id saved.now.state
            (world_in SimpleModule-box self.old).modules) }
    {
        load_one(&mut self.boxes, alloc, saved.id, saved.state.as_bytes())
    }
}

/// The first simple module of a greater id: its id and its class.
fn part_behind(records: &[Record], id: u32) -> Option<(u32, &[u8])>
    requires { length records.now < 2 ^ 32 }
    ensures { option_map (λ part. record { id = part.0; kind = part.1.now }) result
        ≡ slice_get (parts_from (id + 1) (drop id records.now)) 0 }
{
    let first = id as usize;
    if first >= records.len() {
        return None;
    }
    let (_, behind) = records.split_at(first);
    for (index, found) in behind.iter().enumerate() {
        if let Some(kind) = &found.class {
            return Some(((first + index) as u32 + 1, kind.as_bytes()));
        }
    }
    None
}

/// The first of these modules that is simple and has a greater id: its id and its class.
fn part_among<'a>(records: &'a [Record], ids: &[u32], last: u32) -> Option<(u32, &'a [u8])>
    ensures { option_map (λ part. record { id = part.0; kind = part.1.now }) result
        ≡ next_in records.now last ids.now }
{
    for id in ids {
        if *id > last {
            if let Some(kind) = class_of(records, *id) {
                return Some((*id, kind));
            }
        }
    }
    None
}

/// The class of the module of that id, where it is a simple one.
fn class_of(records: &[Record], id: u32) -> Option<&[u8]>
    ensures { option_copied result ≡ class_in (record_at records.now id) }
{
    match record_at(records, id) {
        Some(found) => match &found.class {
            Some(kind) => Some(kind.as_bytes()),
            None => None,
        },
        None => None,
    }
}

/// Calls a box for what the call names.
fn serve(held: &mut Box<dyn SimpleModule>, alloc: Global, call: &Call) -> Result<Reply, NoMemory>
    ensures answered { Answered (meaning held.old) call.now result (meaning held.new) }
    ensures same { IsSameModule (meaning held.old) (meaning held.new) }
{
    match &call.prompt {
        CallReason::Initialize(_) => held.initialize(alloc, call),
        CallReason::Message(_) => held.handle_message(alloc, call),
        CallReason::Finish => held.finish(alloc, call),
    }
}

/// Whether what a call for the last time showed is kept, where it lasts: a module that is deleted is
/// called no more.
fn is_shown_again(lasts: bool, occasion: Occasion) -> bool
    ensures { result ≡ true → lasts ≡ true }
{
    lasts && !is_noted(occasion)
}

/// What the call shows of its module that does not change from one call to the next.
fn shown_in(call: Call) -> CallView
    ensures { result ≡ record {
      path = call.path;
      parameters = call.parameters;
      gates = call.gates;
    } }
{
    let Call {
        time: _,
        event: _,
        id: _,
        path,
        index: _,
        parameters,
        gates,
        prompt: _,
    } = call;
    CallView {
        path,
        parameters,
        gates,
    }
}

/// How many stages a module has.
fn stages_of(held: &Box<dyn SimpleModule>) -> u8
    ensures { result ≡ (meaning held.now).naming.stages }
{
    held.stages()
}

/// The greater one of two numbers of stages.
fn greater(most: u8, stages: u8) -> u8
    ensures { result ≡ max most stages }
{
    if stages > most { stages } else { most }
}
