//! A module that serves messages one after another.

ghost use Rattle.std.specs.Prelude.{◌≡◌, ◌<◌, [], ◌∷◌, ◌++◌, IsTrue, length, drop, pos, codes};
ghost use Rattle.std.specs.Prelude.{IfOk, OnOk};
ghost use Rattle.std.specs.Option.{is_some};
ghost use Rattle.module_api.specs.declared.message.Outgoing.{Outgoing};
ghost use Rattle.module_parts.specs.Asking.{told};
ghost use Rattle.module_stock.specs.Held.{Fits, kept, can_be_held, AllFit, bytes_of, read_held};
ghost use Rattle.module_parts.specs.Looking.{allowed, left};
ghost use Rattle.module_parts.specs.Replies.{timer_set};
ghost use Rattle.module_stock.specs.Queue.{length_emitted, joined, joined_if, front_sent, served};
ghost use Rattle.module_stock.specs.Queue.{queue_script};

use crate::held::{add_message, can_be_held, front_of, kept};
use module_api::call::{Call, CallReason};
use module_api::message::{Message, Outgoing};
use module_api::reply::{Action, Reply};
use module_parts::cues::{is_from, is_timer};
use module_parts::looks::Looks;
use module_parts::player::Scripted;
use module_parts::replies::{emit, nothing, send, set_timer, simply};
use sim_time::SimTime;
use sim_values::NoMemory;
use sim_values::text::Text;
use sqlite_items::Items;
use std::alloc::Global;
use std::collections::VecDeque;
use std::marker::Model;

/// A module that holds the messages that reach its gate `in`, or that come from outside, and sends
/// each on through its gate `out` after its service. Contracts see it as the messages that it
/// holds, from the front, the one that is served among them.
#[derive(Drop)]
pub struct Queue {
    held: VecDeque<Outgoing>,
}

impl Model for Queue {
    ghost use Rattle.std.specs.Prelude.{List};
    ghost use Rattle.module_api.specs.declared.message.Outgoing.{Outgoing};
    ghost use Rattle.module_stock.specs.Held.{AllFit};

    ghost Value = { List Outgoing };

    ghost view = { λ q. q.held.items };

    ghost invariant = { λ q. AllFit q.held.items };
}

impl Scripted for Queue {
    ghost kind = { codes "Queue" };

    ghost script = { queue_script };

    fn name(&self) -> &str {
        "Queue"
    }

    #[tactic(auto, unfolding(crate::specs::Queue::queue_script))]
    fn answer(&mut self, alloc: Global, call: &Call) -> Result<Reply, NoMemory> {
        if let CallReason::Message(message) = &call.prompt {
            if is_from("in", &message.origin) {
                return self.join(alloc, call, message);
            }
            if is_timer(&message.origin) {
                return self.serve(alloc, call);
            }
        }
        Ok(nothing(alloc))
    }

    #[tactic(auto, unfolding(crate::specs::Queue::queue_script), using(crate::specs::HeldLaws::held_reads_back))]
    fn reads_back(&self) {
        let _held = &self.held;
    }

    #[tactic(auto, unfolding(crate::specs::Queue::queue_script))]
    fn save(&self, alloc: Global) -> Result<Text, NoMemory> {
        Ok(Text::from_vec(bytes_of(alloc, &self.held)?))
    }

    #[tactic(auto, unfolding(crate::specs::Queue::queue_script))]
    fn load(&mut self, alloc: Global, state: &[u8]) -> Result<(), NoMemory> {
        self.held = held_in(alloc, state)?;
        Ok(())
    }
}

impl Queue {
    /// A Queue that holds nothing.
    pub fn new(alloc: Global) -> Queue
        ensures { result ≡ [] }
    {
        Queue {
            held: VecDeque::new(alloc),
        }
    }

    /// Answers a message that comes.
    fn join(&mut self, alloc: Global, call: &Call, message: &Message) -> Result<Reply, NoMemory>
        ensures { IfOk result (λ reply. told (joined_if (can_be_held message.now) self.old
            (kept message.now)) call.now ≡ record { reply = reply; state = self.new }) }
    {
        if !can_be_held(message) {
            return Ok(nothing(alloc));
        }
        let message = kept(alloc, message)?;
        if self.held.is_empty() {
            self.begin(alloc, call, message)
        } else {
            self.line_up(alloc, call, message)
        }
    }

    /// Holds the first message, and begins its service.
    fn begin(&mut self, alloc: Global, call: &Call, message: Outgoing) -> Result<Reply, NoMemory>
        requires empty { self.old ≡ [] }
        requires fits { Fits message }
        ensures { IfOk result (λ reply. told (joined [] message) call.now
            ≡ record { reply = reply; state = self.new }) }
    {
        let mut looks = Looks::new(alloc);
        let _capacity = looks.whole(alloc, call, "capacity")?;
        let service = looks.time(alloc, call, "service")?;
        let mut actions = Items::new(alloc);
        emit(&mut actions, "length", 1)?;
        set_timer(&mut actions, service, 0)?;
        if looks.is_good() {
            self.held.push_back(message)?;
        }
        looks.reply(alloc, actions)
    }

    /// Holds one more message, or drops it.
    #[tactic(auto, using(crate::specs::QueueLaws::joined_more))]
    fn line_up(&mut self, alloc: Global, call: &Call, message: Outgoing) -> Result<Reply, NoMemory>
        requires some { 0 < length self.old }
        requires fits { Fits message }
        ensures { IfOk result (λ reply. told (joined self.old message) call.now
            ≡ record { reply = reply; state = self.new }) }
    {
        let mut looks = Looks::new(alloc);
        let capacity = looks.whole(alloc, call, "capacity")?;
        if self.held.len() as i64 <= capacity {
            self.admit(alloc, looks, message)
        } else {
            let mut actions = Items::new(alloc);
            emit(&mut actions, "dropped", 1)?;
            looks.reply(alloc, actions)
        }
    }

    /// Holds one more message.
    #[tactic(auto, using(crate::specs::HeldLaws::all_fit_push))]
    fn admit(&mut self, alloc: Global, looks: Looks, message: Outgoing) -> Result<Reply, NoMemory>
        requires { Fits message }
        ensures reply { IfOk result (λ reply. reply ≡ record {
          reads = looks.reads;
          actions =
              allowed looks.verdict (length_emitted (self.old ++ message ∷ []) ∷ []);
        }) }
        ensures state { OnOk result (self.new
            ≡ left looks.verdict self.old (self.old ++ message ∷ [])) }
    {
        let mut actions = Items::new(alloc);
        emit(&mut actions, "length", self.held.len() as i64 + 1)?;
        if looks.is_good() {
            self.held.push_back(message)?;
        }
        looks.reply(alloc, actions)
    }

    /// Ends the service of the front.
    fn serve(&mut self, alloc: Global, call: &Call) -> Result<Reply, NoMemory>
        ensures { IfOk result (λ reply. told (served self.old) call.now
            ≡ record { reply = reply; state = self.new }) }
    {
        if self.held.len() > 1 {
            self.serve_next(alloc, call)
        } else {
            self.serve_last(alloc)
        }
    }

    /// Sends the front on, where no other is held, and does nothing where none is.
    fn serve_last(&mut self, alloc: Global) -> Result<Reply, NoMemory>
        requires { length self.old < 2 }
        ensures { IfOk result (λ reply. (call : Call)
            → told (served self.old) call ≡ record { reply = reply; state = self.new }) }
    {
        let mut actions = Items::new(alloc);
        if let Some(front) = self.held.pop_front() {
            send(&mut actions, "out", 0, front)?;
            emit(&mut actions, "length", 0)?;
        }
        Ok(simply(alloc, actions))
    }

    /// Sends the front on, and begins the service of the next.
    #[tactic(auto, using(crate::specs::QueueLaws::served_more))]
    fn serve_next(&mut self, alloc: Global, call: &Call) -> Result<Reply, NoMemory>
        requires { 1 < length self.old }
        ensures { IfOk result (λ reply. told (served self.old) call.now
            ≡ record { reply = reply; state = self.new }) }
    {
        let mut looks = Looks::new(alloc);
        let service = looks.time(alloc, call, "service")?;
        if looks.is_good() {
            self.pass(alloc, looks, service)
        } else {
            looks.reply(alloc, Items::new(alloc))
        }
    }

    /// Sends the front on, and begins the service of the next.
    fn pass(&mut self, alloc: Global, looks: Looks, service: SimTime) -> Result<Reply, NoMemory>
        requires { 1 < length self.old }
        ensures reply { IfOk result (λ reply. reply ≡ record {
          reads = looks.reads;
          actions =
              allowed looks.verdict (front_sent self.old ++ timer_set service (pos 0) ∷ []);
        }) }
        ensures state { OnOk result (self.new ≡ drop 1 self.old) }
    {
        let front = self.take_front();
        let mut actions = Items::new(alloc);
        send(&mut actions, "out", 0, front)?;
        emit(&mut actions, "length", self.held.len() as i64)?;
        set_timer(&mut actions, service, 0)?;
        looks.reply(alloc, actions)
    }

    /// Takes the front out.
    fn take_front(&mut self) -> Outgoing
        requires { 0 < length self.old }
        ensures { self.old ≡ result ∷ self.new }
    {
        self.held.pop_front().unwrap()
    }
}

/// The bytes of held messages.
fn bytes_of(alloc: Global, held: &VecDeque<Outgoing>) -> Result<Vec<u8>, NoMemory>
    requires { AllFit held.now.items }
    ensures { IfOk result (λ bytes. bytes.items ≡ bytes_of held.now.items) }
{
    let mut bytes = Vec::new(alloc);
    for i in 0..held.len() {
        add_message(&mut bytes, &held[i])?;
    }
    Ok(bytes)
}

/// The held messages of these bytes, which are some.
fn held_in(alloc: Global, state: &[u8]) -> Result<VecDeque<Outgoing>, NoMemory>
    requires { IsTrue (is_some (read_held state.now)) }
    ensures bytes { IfOk result (λ held. bytes_of held.items ≡ state.now) }
    ensures fit { IfOk result (λ held. AllFit held.items) }
{
    let mut held = VecDeque::new(alloc);
    let mut left = state;
    while let Some((message, rest)) = front_of(alloc, left)? {
        held.push_back(message)?;
        left = rest;
    }
    Ok(held)
}
