//! A world but for the modules and their states.

ghost use Rattle.std.specs.Prelude.{◌≡◌, ◌+◌, ◌^◌, ◌<◌, OnOk, OnErr, IfOk, Some, true, [], ◌∷◌};
ghost use Rattle.std.specs.Prelude.{◌++◌, ◌&&◌, false, length, not, slice_get, take, ◌≤◌, IfSome};
ghost use Rattle.std.specs.List.{filter};
ghost use Rattle.model_questions.specs.Questions.{is_of_modules};
ghost use Rattle.run_question_log.specs.Entries.{noted_in};
ghost use Rattle.run_semantics.specs.World.{empty, asked, is_live, live_of, timed};
ghost use Rattle.run_semantics.specs.Perform.{flow_of, deed, scheduled_at, ask_all, ask_noted};
ghost use Rattle.run_semantics.specs.Perform.{question_of, broken};
ghost use Rattle.run_semantics.specs.Routes.{arriving, hop_by, module_at, transmitting};
ghost use Rattle.run_semantics.specs.Deleting.{gone, subtree_of, to_finish_in};
ghost use Rattle.run_semantics.specs.Laws.{GoesOn};
ghost use Rattle.run_semantics.specs.Routes.{with_change};
ghost use Rattle.run_semantics.specs.Ending.{with_finished};
ghost use Rattle.kernel_actions.specs.Created.{HasNetwork, IsCreated};
ghost use Rattle.kernel_actions.specs.Upcoming.{asked_in, first_is_beyond, looked};
ghost use Rattle.kernel_actions.specs.Upcoming.{with_injection_asked, upcoming_of, Begins};
ghost use Rattle.kernel_actions.specs.Upcoming.{first_starts, is_start_first, starts_by};
ghost use Rattle.run_semantics.specs.Upcoming.{Comes, first_due, first_of};
ghost use Rattle.model_injections.specs.Injections.{injection_before};
ghost use Rattle.model_questions.specs.declared.answer.Question.TheVariants.{BeyondLimit};
ghost use Rattle.run_semantics.specs.Run.{rooted, created, room_in, unless_many, with_submodules};
ghost use Rattle.run_semantics.specs.Run.{starting, unstarted, with_started};
ghost use Rattle.run_semantics.specs.Creating.{has_namesake, is_called, is_full, levels_in};
ghost use Rattle.run_semantics.specs.Creating.{refused, with_created, with_start};
ghost use Rattle.model_questions.specs.Records.{same_index};
ghost use Rattle.run_semantics.specs.Ending.{to_finish};
ghost use Rattle.run_semantics.specs.Subtree.{among, ids_from, outer_first};
ghost use Rattle.kernel_actions.specs.Positions.{lengths_of, position_of, cut_to, core_back};
ghost use Rattle.kernel_actions.specs.Positions.{IsGrownFrom};

use crate::classes::copy_class;
use crate::events::delivery_at;
use crate::looks::{Look, LookList, LookedAt, Next};
use crate::module_list::ModuleList;
use crate::position::{Lengths, Position};
use event_set::pending::{Happening, Pending};
use event_set::set::EventSet;
use id_lists::IdList;
use model_injections::injection::{Due, Injection, InjectionTurn, injection_before};
use model_questions::answer::{Answer, Built, Question, is_beyond};
use model_questions::record::{MAX_NESTING, Origin, Record, levels_of, path_of, submodule_path};
use module_api::message::Outgoing;
use module_api::name::Name;
use module_api::names::is_scalar_name;
use module_api::reply::{Action, Appointment, Creation, Read, Schedule};
use run_question_log::cutting::cut_items;
use run_question_log::entry::LogEntry;
use run_question_log::noted_questions::NotedQuestions;
use run_semantics::occasions::{Occasion, is_noted};
use run_semantics::outcome::{EventFlow, Outcome, RunFault};
use run_semantics::routes::{
    GateChange, NextHop, PlacedGate, Transmission, copy_transmissions, forget_transmission,
    place_of,
};
use run_semantics::signals::SignalNames;
use run_semantics::traces::{Emission, Instance, Scalar};
use sim_time::SimTime;
use sim_values::NoMemory;
use sim_values::model_fault::ModelFault;
use sim_values::text::Text;
use sqlite_items::Items;
use std::alloc::Global;
use std::marker::Model;
use subtrees::{all_ids, common, inner_first, outer_first, without};

/// How many modules live at most.
const MAX_LIVE: usize = 65_536;

/// How many modules a run creates at most.
const MAX_RECORDS: usize = 1_000_000;

/// The least priority of an event.
const LEAST_PRIORITY: i16 = -32_768;

/// A world but for the modules, which contracts see as a world with none.
pub struct Core {
    clock: SimTime,
    count: u64,
    modules: ModuleList,
    started: IdList,
    finished: Items<u32>,
    pending: EventSet,
    ended: bool,
    delivered: Option<InjectionTurn>,
    transmissions: Items<Transmission>,
    /// How gates were joined and freed, in the order in which that was done.
    changes: Items<GateChange>,
    emissions: Items<Emission>,
    /// Names of signals that emissions share.
    names: SignalNames,
    scalars: Items<Scalar>,
    questions: NotedQuestions,
}

// Written out, so that a crate which drops one need not prove what that does.
impl Drop for Core {
    fn drop(self) {
        let Core {
            clock: _,
            count: _,
            modules: _,
            started: _,
            finished: _,
            pending: _,
            ended: _,
            delivered: _,
            transmissions: _,
            changes: _,
            emissions: _,
            names: _,
            scalars: _,
            questions: _,
        } = self;
    }
}

impl Model for Core {
    ghost use Rattle.std.specs.Prelude.{[], length, ◌<◌, ◌^◌};
    ghost use Rattle.run_semantics.specs.World.{World};

    ghost Value = { World };

    ghost view = { λ k. record {
      clock = k.clock;
      count = k.count;
      records = k.modules.records;
      dead = k.modules.dead;
      modules = [];
      started = k.started;
      finished = k.finished;
      pending = k.pending.list;
      next = k.pending.next;
      ended = k.ended;
      delivered = k.delivered;
      transmissions = k.transmissions;
      changes = k.changes;
      emissions = k.emissions;
      scalars = k.scalars;
      questions = k.questions;
    } };

    // ids are numbers of 32 bits
    ghost invariant = { λ k. length k.modules.records < 2 ^ 32 };
}

impl Core {
    /// Nothing stands, and nothing happened.
    pub fn new(alloc: Global) -> Self
        ensures { result ≡ empty }
    {
        Core {
            clock: SimTime::zero(),
            count: 0,
            modules: ModuleList::new(alloc),
            started: IdList::new(alloc),
            finished: Items::new(alloc),
            pending: EventSet::new(alloc),
            ended: false,
            delivered: None,
            transmissions: Items::new(alloc),
            changes: Items::new(alloc),
            emissions: Items::new(alloc),
            names: SignalNames::new(alloc),
            scalars: Items::new(alloc),
            questions: NotedQuestions::new(alloc),
        }
    }

    /// Nothing stands any more, and nothing happened.
    pub fn clear(&mut self, alloc: Global)
        ensures { self.new ≡ empty }
    {
        *self = Core::new(alloc);
    }

    // ---- what callers read

    pub fn clock(&self) -> SimTime
        ensures { result ≡ self.now.clock }
    {
        self.clock
    }

    pub fn count(&self) -> u64
        ensures { result ≡ self.now.count }
    {
        self.count
    }

    pub fn records(&self) -> &[Record]
        ensures records { result.now ≡ self.now.records }
        ensures few { length result.now < 2 ^ 32 }
    {
        self.modules.records()
    }

    /// Where a hop from a gate of the module of that id leads, as was answered.
    pub fn hop_by(&self, id: u32, answer: Answer) -> Option<NextHop>
        ensures { result ≡ hop_by self.now.records id answer }
    {
        self.modules.hop_by(id, answer)
    }

    /// What is noted of the questions.
    pub fn questions(&self) -> &[LogEntry]
        ensures { noted_in result.now ≡ self.now.questions }
    {
        self.questions.entries()
    }

    pub fn emissions(&self) -> &[Emission]
        ensures { result.now ≡ self.now.emissions }
    {
        self.emissions.as_slice()
    }

    pub fn scalars(&self) -> &[Scalar]
        ensures { result.now ≡ self.now.scalars }
    {
        self.scalars.as_slice()
    }

    pub fn finished(&self) -> &[u32]
        ensures { result.now ≡ self.now.finished }
    {
        self.finished.as_slice()
    }

    pub fn is_ended(&self) -> bool
        ensures { result ≡ self.now.ended }
    {
        self.ended
    }

    // ---- deeds: actions that ask nothing and call no module

    /// A fault of the module of that id.
    pub fn broken(&self, alloc: Global, id: u32, fault: RunFault) -> Result<EventFlow, NoMemory>
        ensures { IfOk result (λ turn. flow_of turn self.now ≡ broken id fault self.now) }
    {
        let path = path_of(alloc, self.modules.records(), id)?;
        Ok(EventFlow::Break(path, fault))
    }

    /// Puts a timer among the events to come.
    fn schedule_at(
        &mut self,
        alloc: Global,
        id: u32,
        timer: u32,
        priority: i16,
        kind: i16,
        time: SimTime,
    ) -> Result<EventFlow, NoMemory>
        requires { self.old.next + 1 < 2 ^ 128 }
        ensures flow { IfOk result (λ turn. flow_of turn self.new
            ≡ scheduled_at id timer priority kind self.old time) }
        ensures err { OnErr result (self.new ≡ self.old) }
    {
        if self.pending.has_timer(id, timer) {
            return self.broken(alloc, id, RunFault::AlreadyScheduled);
        }
        let what = Happening::Timer(timer, kind);
        self.pending.insert(time, priority, id, what)?;
        Ok(EventFlow::GoOn)
    }

    /// Sets a timer at a time of the run.
    fn appoint(&mut self, alloc: Global, id: u32, a: &Appointment) -> Result<EventFlow, NoMemory>
        requires { self.old.next + 1 < 2 ^ 128 }
        ensures flow { IfOk result (λ turn. flow_of turn self.new
            ≡ deed id (Action.ScheduleAt a.now) self.old) }
        ensures err { OnErr result (self.new ≡ self.old) }
    {
        if a.at < self.clock {
            return self.broken(alloc, id, RunFault::Past);
        }
        self.schedule_at(alloc, id, a.timer, a.priority, a.kind, a.at)
    }

    /// Takes a timer back, if it is pending.
    fn cancel(&mut self, id: u32, timer: u32) -> EventFlow
        ensures { flow_of result self.new ≡ deed id (Action.Cancel timer) self.old }
    {
        self.pending.cancel(id, timer);
        EventFlow::GoOn
    }

    /// Sets a timer from now on.
    fn schedule(
        &mut self,
        alloc: Global,
        id: u32,
        schedule: &Schedule,
    ) -> Result<EventFlow, NoMemory>
        requires { self.old.next + 1 < 2 ^ 128 }
        ensures flow { IfOk result (λ turn. flow_of turn self.new
            ≡ deed id (Action.ScheduleAfter schedule.now) self.old) }
        ensures err { OnErr result (self.new ≡ self.old) }
    {
        match self.clock.checked_add(schedule.delay) {
            Ok(time) => self.schedule_at(
                alloc,
                id,
                schedule.timer,
                schedule.priority,
                schedule.kind,
                time,
            ),
            Err(_) => self.broken(alloc, id, RunFault::TimeOverflow),
        }
    }

    /// Notes an emission.
    fn emit(
        &mut self,
        alloc: Global,
        id: u32,
        signal: &Name,
        value: i64,
    ) -> Result<EventFlow, NoMemory>
        ensures flow { IfOk result (λ turn. flow_of turn self.new
            ≡ deed id (Action.Emit signal.now value) self.old) }
        ensures err { OnErr result (self.new ≡ self.old) }
    {
        let signal = self.names.shared(alloc, signal)?;
        self.emissions.push(Emission {
            id,
            signal,
            event: self.count,
            time: self.clock,
            value,
        })?;
        Ok(EventFlow::GoOn)
    }

    /// Notes a scalar, where it has a name.
    fn record(
        &mut self,
        alloc: Global,
        id: u32,
        name: &Name,
        value: i64,
    ) -> Result<EventFlow, NoMemory>
        ensures flow { IfOk result (λ turn. flow_of turn self.new
            ≡ deed id (Action.RecordScalar name.now value) self.old) }
        ensures err { OnErr result (self.new ≡ self.old) }
    {
        if !is_scalar_name(name.as_bytes()) {
            return self.broken(alloc, id, RunFault::BadName);
        }
        let name = name.text(alloc)?;
        self.scalars.push(Scalar { id, name, value })?;
        Ok(EventFlow::GoOn)
    }

    /// One deed of the module of that id.
    pub fn deed(&mut self, alloc: Global, id: u32, action: &Action) -> Result<EventFlow, NoMemory>
        requires { self.old.next + 1 < 2 ^ 128 }
        ensures flow { IfOk result (λ turn. flow_of turn self.new ≡ deed id action.now self.old) }
        ensures err { OnErr result (self.new ≡ self.old) }
    {
        match action {
            Action::Emit(signal, value) => self.emit(alloc, id, signal, *value),
            Action::RecordScalar(name, value) => self.record(alloc, id, name, *value),
            Action::ScheduleAt(appointment) => self.appoint(alloc, id, appointment),
            Action::ScheduleAfter(schedule) => self.schedule(alloc, id, schedule),
            Action::Cancel(timer) => Ok(self.cancel(id, *timer)),
            Action::Fail(text) => {
                let text = text.copy(alloc)?;
                self.broken(alloc, id, RunFault::ModuleFailed(text))
            }
            Action::End => {
                self.ended = true;
                Ok(EventFlow::Stop)
            }
            // What is sent, created, deleted or joined asks of the model or calls modules: it is no
            // deed.
            Action::Send(_, _)
            | Action::SendDelayed(_, _, _)
            | Action::SendDirect(_, _, _)
            | Action::Create(_)
            | Action::Delete(_, _)
            | Action::Connect(_, _, _)
            | Action::Disconnect(_) => Ok(EventFlow::GoOn),
        }
    }

    // ---- messages under way

    /// The last transmission that began at each gate.
    pub fn transmissions(&self) -> &[Transmission]
        ensures { result.now ≡ self.now.transmissions }
    {
        self.transmissions.as_slice()
    }

    /// Notes when the transmission that began at a gate ends, where there is one.
    pub fn transmit(
        &mut self,
        alloc: Global,
        gate: &Option<PlacedGate>,
        until: &Option<SimTime>,
    ) -> Result<(), NoMemory>
        ensures done { OnOk result (self.new ≡ transmitting gate.now until.now self.old) }
        ensures err { OnErr result (self.new ≡ self.old) }
    {
        if let (Some(gate), Some(end)) = (gate, until) {
            let gate = gate.copy(alloc)?;
            let place = place_of(&gate, self.transmissions.as_slice());
            let transmission = Transmission { gate, end: *end };
            match place {
                Some(place) => self.transmissions.set(place, transmission),
                None => self.transmissions.push(transmission)?,
            }
        }
        Ok(())
    }

    /// A message is to arrive at a gate at that time.
    pub fn arrive(
        &mut self,
        alloc: Global,
        gate: &PlacedGate,
        message: &Outgoing,
        time: SimTime,
    ) -> Result<(), NoMemory>
        requires { self.old.next + 1 < 2 ^ 128 }
        ensures done { OnOk result (self.new ≡ arriving gate.now message.now time self.old) }
        ensures err { OnErr result (self.new ≡ self.old) }
    {
        let delivery = delivery_at(alloc, gate, message)?;
        self.pending.insert(
            time,
            message.priority,
            gate.id,
            Happening::Delivery(delivery),
        )
    }

    // ---- gates that are joined and freed

    /// How gates were joined and freed, in the order in which that was done.
    pub fn changes(&self) -> &[GateChange]
        ensures { result.now ≡ self.now.changes }
    {
        self.changes.as_slice()
    }

    /// An output gate leads there from now on, or nowhere; a transmission that began at it is over.
    #[tactic(auto, using(crate::proofs::Lasting::growth_is))]
    pub fn change_gate(
        &mut self,
        alloc: Global,
        gate: PlacedGate,
        to: Option<NextHop>,
    ) -> Result<(), NoMemory>
        ensures done { OnOk result (self.new ≡ with_change gate to self.old) }
        ensures err { OnErr result (self.new ≡ self.old) }
        ensures grown { IsGrownFrom self.old self.new }
    {
        let freed = gate.copy(alloc)?;
        self.changes.push(GateChange { gate, to })?;
        forget_transmission(&mut self.transmissions, &freed);
        Ok(())
    }

    // ---- modules that live

    /// Whether a module of that id was created.
    #[tactic(auto, using(crate::proofs::Living::is_created))]
    fn is_created(&self, id: u32) -> bool
        ensures { result ≡ among id (ids_from 1 self.now.records) }
    {
        0 < id && id as usize <= self.modules.len()
    }

    /// Whether the module of that id lives.
    #[tactic(auto, using(run_semantics::proofs::Alive::live_is))]
    pub fn is_live(&self, id: u32) -> bool
        ensures { result ≡ is_live self.now id }
    {
        self.is_created(id) && !self.modules.is_dead(id)
    }

    /// The module of that path that lives, where there is one.
    pub fn module_at(&self, path: &Text) -> Option<u32>
        ensures found { result ≡ module_at path.now self.now }
        ensures there { IfSome result (λ id. IsCreated id self.now) }
    {
        self.modules.first_at(path)
    }

    // ---- reads

    /// Notes a question about modules, unless it was asked before.
    pub fn ask(&mut self, alloc: Global, question: Question) -> Result<(), NoMemory>
        requires { is_of_modules question ≡ true }
        ensures noted { OnOk result (self.new ≡ asked question self.old) }
        ensures err { OnErr result (self.new ≡ self.old) }
    {
        self.questions.note(alloc, self.count, question)
    }

    /// Notes the question of what a module reads, at that place of what its reply reads, unless it
    /// was asked before.
    fn ask_read(
        &mut self,
        alloc: Global,
        id: u32,
        place: usize,
        read: &Read,
    ) -> Result<(), NoMemory>
        ensures noted { OnOk result (self.new ≡ asked (question_of id read.now) self.old) }
        ensures err { OnErr result (self.new ≡ self.old) }
    {
        self.questions.note_read(alloc, self.count, id, place, read)
    }

    /// Notes the questions of all values that a reply used.
    fn ask_all(&mut self, alloc: Global, id: u32, reads: &[Read]) -> Result<(), NoMemory>
        ensures noted { OnOk result (self.new ≡ ask_all id reads.now self.old) }
        ensures grown { IsGrownFrom self.old self.new }
    {
        for (place, read) in reads.iter().enumerate() {
            self.ask_read(alloc, id, place, read)?;
        }
        Ok(())
    }

    /// Notes the questions of all values that a reply used, where they are noted.
    #[tactic(auto, using(crate::proofs::Lasting::growth_same))]
    pub fn ask_noted(
        &mut self,
        alloc: Global,
        occasion: Occasion,
        id: u32,
        reads: &[Read],
    ) -> Result<(), NoMemory>
        ensures noted { OnOk result (self.new ≡ ask_noted occasion id reads.now self.old) }
        ensures grown { IsGrownFrom self.old self.new }
    {
        if is_noted(occasion) {
            return self.ask_all(alloc, id, reads);
        }
        Ok(())
    }

    // ---- the end

    /// Notes that a module is finished.
    pub fn mark_finished(&mut self, id: u32) -> Result<(), NoMemory>
        ensures marked { OnOk result (self.new ≡ with_finished id self.old) }
        ensures err { OnErr result (self.new ≡ self.old) }
    {
        self.finished.push(id)?;
        Ok(())
    }

    // ---- events

    /// When the first event to come is due.
    fn first_due(&self) -> Option<Due>
        ensures { result ≡ first_due self.now.pending }
    {
        match self.pending.first() {
            Some(coming) => Some(Due {
                time: coming.time,
                priority: coming.priority,
            }),
            None => None,
        }
    }

    /// Nothing was asked yet to know what comes next.
    pub fn look(&self, alloc: Global) -> Look
        ensures { result ≡ record { delivered = self.now.delivered; asked = [] } }
    {
        Look {
            delivered: self.delivered,
            asked: LookList::new(alloc),
        }
    }

    /// Asks for the injection, of these, that goes before the first event to come. The question is
    /// of the event after.
    pub fn ask_injection(
        &self,
        alloc: Global,
        injections: &[Injection],
        look: &mut Look,
    ) -> Result<Option<Injection>, NoMemory>
        requires { self.now.count + 1 < 2 ^ 64 }
        ensures found { let due = first_due self.now.pending in
            IfOk result (λ found. found
            ≡ injection_before due look.old.delivered injections.now) }
        ensures noted { let before = looked self.now look.old in
            OnOk result (looked self.now look.new ≡ with_injection_asked before) }
    {
        let due = self.first_due();
        let last = look.delivered;
        look.asked.push(alloc, LookedAt { due, last })?;
        match injection_before(injections, due, last) {
            Some(injection) => Ok(Some(injection.copy(alloc)?)),
            None => Ok(None),
        }
    }

    /// An event begins that is due then: it is counted, and what was asked before is noted, with
    /// the question whether the time limit allows it.
    fn begin_event(&mut self, alloc: Global, look: Look, time: SimTime) -> Result<(), NoMemory>
        requires { self.old.count + 1 < 2 ^ 64 }
        ensures begun { let world = looked self.old look in
            OnOk result (self.new ≡ timed (BeyondLimit time)
            (record world { clock = time; count = world.count + 1 })) }
        ensures err { OnErr result (self.new.count ≡ self.old.count) }
        ensures grown { IsGrownFrom self.old self.new }
    {
        let Look { delivered, asked } = look;
        self.note_all(alloc, &asked)?;
        let event = self.count + 1;
        self.questions
            .note_time(alloc, event, Question::BeyondLimit(time.ps()))?;
        self.delivered = delivered;
        self.clock = time;
        self.count = event;
        Ok(())
    }

    /// Notes the questions of all looks, which are of the event after.
    #[tactic(auto, using(crate::proofs::Lasting::growth_same))]
    fn note_all(&mut self, alloc: Global, looks: &LookList) -> Result<(), NoMemory>
        requires { self.old.count + 1 < 2 ^ 64 }
        ensures noted { OnOk result (self.new
            ≡ record self.old {
              questions = self.old.questions
                  ++ asked_in (self.old.count + 1) looks.now;
            }) }
        ensures count { self.new.count ≡ self.old.count }
        ensures grown { IsGrownFrom self.old self.new }
    {
        match looks.first() {
            Some(first) => {
                self.note_look(alloc, first)?;
                self.note_looks(alloc, looks.later())
            }
            None => Ok(()),
        }
    }

    /// Notes the questions of these looks, which are of the event after.
    fn note_looks(&mut self, alloc: Global, looks: &[LookedAt]) -> Result<(), NoMemory>
        requires { self.old.count + 1 < 2 ^ 64 }
        ensures noted { OnOk result (self.new
            ≡ record self.old {
              questions = self.old.questions
                  ++ asked_in (self.old.count + 1) looks.now;
            }) }
        ensures count { self.new.count ≡ self.old.count }
        ensures grown { IsGrownFrom self.old self.new }
    {
        for look in looks {
            self.note_look(alloc, look)?;
        }
        Ok(())
    }

    /// Notes the question of a look, which is of the event after.
    fn note_look(&mut self, alloc: Global, look: &LookedAt) -> Result<(), NoMemory>
        requires { self.old.count + 1 < 2 ^ 64 }
        ensures noted { OnOk result (self.new
            ≡ record self.old {
              questions = self.old.questions
                  ++ asked_in (self.old.count + 1) (look.now ∷ []);
            }) }
        ensures err { OnErr result (self.new ≡ self.old) }
    {
        let question = Question::InjectionBefore(look.due, look.last);
        self.questions.note_time(alloc, self.count + 1, question)
    }

    /// Begins an event that is none of those to come, or tells that it is later than the time
    /// limit.
    #[tactic(auto, using(crate::proofs::Lasting::growth_same))]
    fn begin_arrival(
        &mut self,
        alloc: Global,
        limit: Option<u64>,
        look: Look,
        event: Pending,
    ) -> Result<Result<Pending, Outcome>, NoMemory>
        requires { self.old.count + 1 < 2 ^ 64 }
        ensures begins { let world = looked self.old look in
            IfOk result (λ begins.
            Begins limit (Comes world event world.pending) self.old begins self.new) }
        ensures grown { IsGrownFrom self.old self.new }
    {
        if is_beyond(limit, event.time.ps()) {
            return Ok(Err(Outcome::TimeLimit));
        }
        self.begin_event(alloc, look, event.time)?;
        Ok(Ok(event))
    }

    /// Begins the first of the events to come, or tells that it is later than the time limit, or
    /// that there is none.
    #[tactic(auto, using(crate::proofs::Lasting::growth_same))]
    fn begin_first(
        &mut self,
        alloc: Global,
        limit: Option<u64>,
        look: Look,
    ) -> Result<Result<Pending, Outcome>, NoMemory>
        requires { self.old.count + 1 < 2 ^ 64 }
        ensures begins { let world = looked self.old look in
            IfOk result (λ begins.
            Begins limit (first_of world world.pending) self.old begins self.new) }
        ensures grown { IsGrownFrom self.old self.new }
    {
        if self.is_first_beyond(limit) {
            return Ok(Err(Outcome::TimeLimit));
        }
        let Some(event) = self.pending.take_first() else {
            return Ok(Err(Outcome::NoMoreEvents));
        };
        self.begin_event(alloc, look, event.time)?;
        Ok(Ok(event))
    }

    /// Whether the first event to come is later than the time limit.
    fn is_first_beyond(&self, limit: Option<u64>) -> bool
        ensures { result ≡ first_is_beyond limit self.now.pending }
    {
        match self.pending.first() {
            Some(coming) => is_beyond(limit, coming.time.ps()),
            None => false,
        }
    }

    /// Whether the first of the events to come starts modules.
    pub fn is_start_first(&self) -> bool
        ensures { result ≡ is_start_first self.now.pending }
    {
        match self.pending.first() {
            Some(coming) => coming.last_started.is_some(),
            None => false,
        }
    }

    /// The modules that an event starts, which is for the first of them.
    fn starts_by(
        &self,
        alloc: Global,
        first: u32,
        last: Option<u32>,
    ) -> Result<Items<u32>, NoMemory>
        ensures { IfOk result (λ ids. ids ≡ starts_by first last self.now) }
    {
        match last {
            Some(last) => self.starting(alloc, first, last),
            None => Ok(Items::new(alloc)),
        }
    }

    /// The modules that the first of the events to come starts, where it is not later than the time
    /// limit, which is in picoseconds.
    pub fn first_starts(&self, alloc: Global, limit: Option<u64>) -> Result<Items<u32>, NoMemory>
        ensures { IfOk result (λ ids. ids ≡ first_starts limit self.now self.now.pending) }
    {
        if self.is_first_beyond(limit) {
            return Ok(Items::new(alloc));
        }
        match self.pending.first() {
            Some(coming) => {
                let ids = self.starts_by(alloc, coming.id, coming.last_started)?;
                Ok(ids)
            }
            None => Ok(Items::new(alloc)),
        }
    }

    /// Begins what comes next, or tells how the run ends instead. The limit is that of times, in
    /// picoseconds.
    #[tactic(auto, using(crate::proofs::Lasting::growth_same))]
    pub fn begin(
        &mut self,
        alloc: Global,
        limit: Option<u64>,
        look: Look,
        next: Next,
    ) -> Result<Result<Pending, Outcome>, NoMemory>
        requires { self.old.count + 1 < 2 ^ 64 }
        ensures begins { let world = looked self.old look in
            IfOk result (λ begins. Begins limit (upcoming_of next world) self.old begins self.new) }
        ensures grown { IsGrownFrom self.old self.new }
    {
        match next {
            Next::First => self.begin_first(alloc, limit, look),
            Next::Arrival(event) => self.begin_arrival(alloc, limit, look, event),
            Next::Nothing => Ok(Err(Outcome::NoMoreEvents)),
        }
    }

    // ---- setup

    /// Creates the network, as the model answered.
    pub fn root(&mut self, alloc: Global, found: Answer) -> Result<EventFlow, NoMemory>
        requires no_records { self.old.records ≡ [] }
        ensures flow { IfOk result (λ turn. flow_of turn self.new ≡ rooted found self.old) }
        ensures few { length self.new.records ≤ 1 }
        ensures network { IfOk result (λ turn. HasNetwork turn self.new) }
    {
        match found {
            Answer::Root(name) => {
                let network = Record {
                    parent: 0,
                    name,
                    index: None,
                    class: None,
                    origin: Origin::Built,
                };
                self.modules.push(alloc, network)?;
                Ok(EventFlow::GoOn)
            }
            Answer::Fault(network, fault) => Ok(EventFlow::Break(network, RunFault::Model(fault))),
            _ => Ok(EventFlow::Break(Text::empty(alloc), RunFault::Model(ModelFault::UnknownType))),
        }
    }

    /// Creates one more module.
    fn create(&mut self, alloc: Global, parent: u32, built: &Built) -> Result<(), NoMemory>
        requires room { length self.old.records + 1 < 2 ^ 32 }
        requires there { parent ≤ length self.old.records }
        ensures ok { OnOk result (self.new ≡ with_submodules parent (built.now ∷ []) self.old) }
        ensures err { OnErr result (self.new ≡ self.old) }
    {
        let name = built.name.copy(alloc)?;
        let class = copy_class(alloc, &built.class)?;
        let created = Record {
            parent,
            name,
            index: built.index,
            class,
            origin: Origin::Built,
        };
        self.modules.push(alloc, created)?;
        Ok(())
    }

    /// Creates the submodules of a module, in order.
    fn create_all(&mut self, alloc: Global, parent: u32, inside: &[Built]) -> Result<(), NoMemory>
        requires room { length self.old.records + length inside.now < 2 ^ 32 }
        requires there { parent ≤ length self.old.records }
        ensures ok { OnOk result (self.new ≡ with_submodules parent inside.now self.old) }
        ensures grown { IsGrownFrom self.old self.new }
    {
        for built in inside {
            self.create(alloc, parent, built)?;
        }
        Ok(())
    }

    /// How many more modules can be created.
    fn room(&self) -> usize
        ensures { result ≡ room_in self.now }
    {
        let created = self.modules.len();
        let live = created.saturating_sub(self.modules.dead().len());
        let places = MAX_LIVE.saturating_sub(live);
        places.min(MAX_RECORDS.saturating_sub(created))
    }

    /// Creates the submodules of a module, where they are not too many.
    #[tactic(auto, using(crate::proofs::Lasting::growth_same))]
    fn create_few(
        &mut self,
        alloc: Global,
        parent: u32,
        inside: &[Built],
    ) -> Result<EventFlow, NoMemory>
        requires { parent ≤ length self.old.records }
        ensures flow { IfOk result (λ turn. flow_of turn self.new
            ≡ unless_many parent inside.now self.old (slice_get inside.now (room_in self.old))) }
        ensures grown { IsGrownFrom self.old self.new }
    {
        if let Some(built) = inside.get(self.room()) {
            let records = self.modules.records();
            let path = submodule_path(alloc, records, parent, built.name.as_bytes(), built.index)?;
            return Ok(EventFlow::Break(path, RunFault::Model(ModelFault::TooManyModules)));
        }
        self.create_all(alloc, parent, inside)?;
        Ok(EventFlow::GoOn)
    }

    /// Creates what the model answered to be inside of a module.
    #[tactic(auto, using(crate::proofs::Lasting::growth_same))]
    pub fn build(
        &mut self,
        alloc: Global,
        parent: u32,
        found: &Answer,
    ) -> Result<EventFlow, NoMemory>
        requires { parent ≤ length self.old.records }
        ensures flow { IfOk result (λ turn. flow_of turn self.new
            ≡ created parent found.now self.old) }
        ensures grown { IsGrownFrom self.old self.new }
    {
        match found {
            Answer::Inside(inside) => self.create_few(alloc, parent, inside.as_slice()),
            Answer::Fault(path, fault) => Ok(EventFlow::Break(
                path.copy(alloc)?,
                RunFault::Model(*fault),
            )),
            _ => self.broken(alloc, parent, RunFault::Model(ModelFault::UnknownType)),
        }
    }

    // ---- starts and ends

    /// The ids of all modules that live.
    fn live_ids(&self, alloc: Global) -> Result<Items<u32>, NoMemory>
        ensures { IfOk result (λ ids. ids ≡ live_of self.now) }
    {
        let created = all_ids(alloc, self.modules.records())?;
        without(alloc, created.as_slice(), self.modules.dead())
    }

    /// The ids of the modules that live and were not started.
    pub fn unstarted(&self, alloc: Global) -> Result<Items<u32>, NoMemory>
        ensures { IfOk result (λ ids. ids ≡ unstarted self.now) }
    {
        let live = self.live_ids(alloc)?;
        without(alloc, live.as_slice(), self.started.as_slice())
    }

    /// The ids of those of them that were created together, from the first to the last of these
    /// ids.
    pub fn starting(&self, alloc: Global, first: u32, last: u32) -> Result<Items<u32>, NoMemory>
        ensures { IfOk result (λ ids. ids ≡ starting first last self.now) }
    {
        let mut found = Items::new(alloc);
        let end = self.modules.len().min(last as usize);
        for index in first.saturating_sub(1) as usize..end {
            let id = index as u32 + 1;
            if self.is_unstarted(id) {
                found.push(id)?;
            }
        }
        Ok(found)
    }

    /// Whether the module of that id is not dead and was not started.
    fn is_unstarted(&self, id: u32) -> bool
        ensures { result ≡ (not (among id self.now.dead) && not (among id self.now.started)) }
    {
        !self.modules.is_dead(id) && !self.started.has(id)
    }

    /// A module with those of these modules that are inside of it, in the order of calls.
    pub fn calls_from(&self, alloc: Global, ids: &[u32], first: u32) -> Result<Items<u32>, NoMemory>
        ensures { IfOk result (λ calls. calls ≡ outer_first self.now.records ids.now first) }
    {
        outer_first(alloc, self.modules.records(), ids, first)
    }

    /// All modules that live and were started, in the order of the end.
    pub fn to_finish(&self, alloc: Global) -> Result<Items<u32>, NoMemory>
        ensures { IfOk result (λ ids. ids ≡ to_finish self.now) }
    {
        let live = self.live_ids(alloc)?;
        let going = common(alloc, live.as_slice(), self.started.as_slice())?;
        inner_first(alloc, self.modules.records(), going.as_slice(), 1)
    }

    /// Notes that these modules are started.
    pub fn mark_started(&mut self, ids: &[u32]) -> Result<(), NoMemory>
        ensures done { OnOk result (self.new ≡ with_started ids.now self.old) }
        ensures grown { IsGrownFrom self.old self.new }
    {
        note_ids(&mut self.started, ids)
    }

    // ---- modules that are created

    /// Whether a record, which is of the module of that id, is of a submodule of that one with that
    /// name and index, and the module is not dead.
    fn is_namesake(&self, parent: u32, creation: &Creation, created: &Record, id: u32) -> bool
        ensures { result
            ≡ (is_called parent creation.now (Some created.now) && not (among id self.now.dead)) }
    {
        is_called(parent, creation, created) && !self.modules.is_dead(id)
    }

    /// Whether a submodule of a module that lives has that name and index, by looking at all.
    fn finds_namesake(&self, parent: u32, creation: &Creation) -> bool
        ensures { result ≡ has_namesake parent creation.now self.now }
    {
        for (index, record) in self.modules.records().iter().enumerate() {
            let id = index as u32 + 1;
            if self.is_namesake(parent, creation, record, id) {
                return true;
            }
        }
        false
    }

    /// Whether a module that lives has the path that a submodule of that name and index would have,
    /// or there might be one whose path is not known, as it would stand too deep.
    fn may_have_namesake(
        &self,
        alloc: Global,
        parent: u32,
        creation: &Creation,
    ) -> Result<bool, NoMemory>
        requires { IsCreated parent self.now }
        ensures { IfOk result (λ may. may ≡ false → has_namesake parent creation.now self.now ≡ false) }
    {
        if self.levels_in(parent) == 0 {
            return Ok(true);
        }
        let name = creation.name.as_bytes();
        let path = submodule_path(alloc, self.modules.records(), parent, name, creation.index)?;
        Ok(self.modules.first_at(&path).is_some())
    }

    /// Whether a submodule of a module that lives has that name and index. Where none has the path
    /// that it would have, no other is looked at.
    pub fn has_namesake(
        &self,
        alloc: Global,
        parent: u32,
        creation: &Creation,
    ) -> Result<bool, NoMemory>
        requires { IsCreated parent self.now }
        ensures { IfOk result (λ found. found ≡ has_namesake parent creation.now self.now) }
    {
        if !self.may_have_namesake(alloc, parent, creation)? {
            return Ok(false);
        }
        Ok(self.finds_namesake(parent, creation))
    }

    /// Whether no more modules can be created.
    pub fn is_full(&self) -> bool
        ensures { result ≡ is_full (room_in self.now) }
    {
        self.room() == 0
    }

    /// How many levels there are for what stands in the module of that id.
    #[tactic(auto, unfolding(run_semantics::specs::Building::most_nested))]
    pub fn levels_in(&self, parent: u32) -> u32
        ensures { result ≡ levels_in parent self.now }
    {
        MAX_NESTING.saturating_sub(levels_of(self.modules.records(), parent))
    }

    /// Tells why a module can't be created, with the path that it would have.
    pub fn refuse(
        &self,
        alloc: Global,
        parent: u32,
        creation: &Creation,
        fault: ModelFault,
    ) -> Result<EventFlow, NoMemory>
        ensures { IfOk result (λ turn. flow_of turn self.now
            ≡ refused parent creation.now fault self.now) }
    {
        let name = creation.name.as_bytes();
        let path = submodule_path(alloc, self.modules.records(), parent, name, creation.index)?;
        Ok(EventFlow::Break(path, RunFault::Model(fault)))
    }

    /// A module is there that is created in that one, with that class.
    pub fn add_created(
        &mut self,
        alloc: Global,
        parent: u32,
        creation: &Creation,
        class: Option<Text>,
    ) -> Result<(), NoMemory>
        requires room { length self.old.records + 1 < 2 ^ 32 }
        requires there { parent ≤ length self.old.records }
        ensures ok { OnOk result (self.new ≡ with_created parent creation.now class self.old) }
        ensures err { OnErr result (self.new ≡ self.old) }
    {
        let created = Record {
            parent,
            name: creation.name.text(alloc)?,
            index: creation.index,
            class,
            origin: Origin::Created(creation.plan.copy(alloc)?),
        };
        self.modules.push(alloc, created)?;
        Ok(())
    }

    /// As many modules are left, those that were created first.
    pub fn cut_records(&mut self, left: usize)
        ensures { self.new ≡ record self.old { records = take left self.old.records } }
    {
        self.modules.cut(left);
    }

    /// The start of a module that was created is an event of this time, which comes before the
    /// others.
    pub fn insert_start(&mut self, first: u32) -> Result<(), NoMemory>
        requires { self.old.next + 1 < 2 ^ 128 }
        ensures done { OnOk result (self.new ≡ with_start first self.old) }
        ensures err { OnErr result (self.new ≡ self.old) }
    {
        let last = self.modules.len() as u32;
        self.pending
            .insert(self.clock, LEAST_PRIORITY, first, Happening::Start(last))
    }

    // ---- modules that are deleted

    /// The module of that id and all that stand inside of it, of those that live, by their ids.
    pub fn subtree_of(&self, alloc: Global, id: u32) -> Result<Items<u32>, NoMemory>
        ensures { IfOk result (λ ids. ids ≡ subtree_of id self.now) }
    {
        self.modules.subtree_of(alloc, id)
    }

    /// Those of them that were started, in the order in which they are finished.
    pub fn to_finish_in(&self, alloc: Global, id: u32) -> Result<Items<u32>, NoMemory>
        ensures { IfOk result (λ ids. ids ≡ to_finish_in id self.now) }
    {
        let all = self.modules.inner_first(alloc, id)?;
        those_in(alloc, all.as_slice(), &self.started)
    }

    /// These modules are dead from now on, and no event is to come for one of them.
    pub fn bury(&mut self, ids: &[u32]) -> Result<(), NoMemory>
        ensures done { OnOk result (self.new ≡ gone ids.now self.old) }
        ensures grown { IsGrownFrom self.old self.new }
    {
        note_dead(&mut self.modules, ids)?;
        self.pending.drop_modules(ids);
        Ok(())
    }

    // ---- positions

    /// How long the lists are that only grow while a run goes on.
    fn lengths(&self) -> Lengths
        ensures { result ≡ lengths_of self.now }
    {
        Lengths {
            records: self.modules.len(),
            dead: self.modules.dead().len(),
            started: self.started.len(),
            finished: self.finished.len(),
            changes: self.changes.len(),
            emissions: self.emissions.len(),
            scalars: self.scalars.len(),
            questions: self.questions.len(),
        }
    }

    /// The position of the world that it makes with these modules.
    pub fn position(&self, alloc: Global, modules: Items<Instance>) -> Result<Position, NoMemory>
        ensures { IfOk result (λ position.
            position ≡ position_of (record self.now { modules = modules })) }
    {
        let coming = self.pending.copy(alloc)?;
        Ok(Position {
            clock: self.clock,
            count: self.count,
            lengths: self.lengths(),
            coming,
            ended: self.ended,
            delivered: self.delivered,
            transmissions: copy_transmissions(alloc, self.transmissions.as_slice())?,
            modules,
        })
    }

    /// Cuts the lists that only grow while a run goes on.
    pub fn cut_to(&mut self, lengths: Lengths)
        ensures { self.new ≡ cut_to lengths self.old }
    {
        self.modules.cut(lengths.records);
        self.modules.cut_dead(lengths.dead);
        self.started.cut(lengths.started);
        cut_items(&mut self.finished, lengths.finished);
        cut_items(&mut self.changes, lengths.changes);
        cut_items(&mut self.emissions, lengths.emissions);
        cut_items(&mut self.scalars, lengths.scalars);
        self.questions.cut(lengths.questions);
    }

    /// Goes back to a position, which has these events to come and these transmissions.
    pub fn go_back(
        &mut self,
        position: &Position,
        coming: EventSet,
        transmissions: Items<Transmission>,
    )
        requires events { coming ≡ position.now.coming }
        requires transmissions { transmissions ≡ position.now.transmissions }
        ensures { self.new ≡ core_back position.now self.old }
    {
        self.cut_to(position.lengths);
        self.clock = position.clock;
        self.count = position.count;
        self.pending = coming;
        self.ended = position.ended;
        self.delivered = position.delivered;
        self.transmissions = transmissions;
    }
}

/// These modules are dead. Where memory runs out some of them are.
fn note_dead(modules: &mut ModuleList, ids: &[u32]) -> Result<(), NoMemory>
    ensures ok { OnOk result (modules.new
        ≡ record modules.old { dead = modules.old.dead ++ ids.now }) }
    ensures same { modules.new.records ≡ modules.old.records }
    ensures grown { GoesOn modules.old.dead modules.new.dead }
{
    for id in ids {
        modules.bury(*id)?;
    }
    Ok(())
}

/// Those of these ids that stand in a list, in their order.
fn those_in(alloc: Global, ids: &[u32], list: &IdList) -> Result<Items<u32>, NoMemory>
    ensures { IfOk result (λ found. found ≡ filter (λ n. among n list.now) ids.now) }
{
    let mut found = Items::new(alloc);
    for id in ids {
        if list.has(*id) {
            found.push(*id)?;
        }
    }
    Ok(found)
}

/// Notes these modules besides. Where memory runs out some of them are noted.
fn note_ids(noted: &mut IdList, ids: &[u32]) -> Result<(), NoMemory>
    ensures ok { OnOk result (noted.new ≡ noted.old ++ ids.now) }
    ensures grown { GoesOn noted.old noted.new }
{
    for id in ids {
        noted.push(*id)?;
    }
    Ok(())
}

/// Whether a module has no index, or that one, as another one has.
fn are_same(index: Option<u32>, other: Option<u32>) -> bool
    ensures { result ≡ same_index index other }
{
    match index {
        Some(index) => match other {
            Some(other) => index == other,
            None => false,
        },
        None => other.is_none(),
    }
}

/// Whether a record is of a submodule of that one with that name and index.
fn is_called(parent: u32, creation: &Creation, created: &Record) -> bool
    ensures { result ≡ is_called parent creation.now (Some created.now) }
{
    created.parent == parent
        && (created.name.is(creation.name.as_bytes()) && are_same(created.index, creation.index))
}
