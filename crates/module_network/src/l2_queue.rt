//! A module that puts messages on a line one after another.

ghost use Rattle.std.specs.Prelude.{◌≡◌, ◌<◌, [], ◌∷◌, ◌++◌, length, drop, pos, codes, IfOk, OnOk};
ghost use Rattle.module_parts.specs.Asking.{told};
ghost use Rattle.module_stock.specs.Held.{Fits, kept, can_be_held};
ghost use Rattle.module_parts.specs.Looking.{allowed, left};
ghost use Rattle.module_network.specs.L2Queue.{line_time, departed, length_emitted, joined, joined_if};
ghost use Rattle.module_network.specs.L2Queue.{freed, second_sent, l2_queue_script};

use crate::waiting::{Waiting, same};
use module_api::call::{Call, CallReason};
use module_api::message::{Message, Outgoing};
use module_api::reply::{Action, Reply};
use module_parts::cues::{is_from, is_timer};
use module_parts::looks::Looks;
use module_parts::player::Scripted;
use module_parts::replies::{emit, nothing, send, set_timer, simply};
use module_stock::held::{can_be_held, kept};
use sim_time::SimTime;
use sim_values::NoMemory;
use sim_values::text::Text;
use sqlite_items::Items;
use std::alloc::Global;

/// A module that sends each message that reaches its gate `in`, or comes from outside, through its
/// gate `out` as soon as the last one is off the line.
#[derive(Drop)]
pub struct L2Queue {
    /// The message on the line, and then those that wait for it.
    pub held: Waiting,
}

impl Scripted for L2Queue {
    ghost kind = { codes "L2Queue" };

    ghost script = { l2_queue_script };

    fn name(&self) -> &str {
        "L2Queue"
    }

    #[tactic(auto, unfolding(crate::specs::L2Queue::l2_queue_script))]
    fn answer(&mut self, alloc: Global, call: &Call) -> Result<Reply, NoMemory> {
        if let CallReason::Message(message) = &call.prompt {
            if is_from("in", &message.origin) {
                return self.join(alloc, call, message);
            }
            if is_timer(&message.origin) {
                return self.free(alloc, call);
            }
        }
        Ok(nothing(alloc))
    }

    #[tactic(auto, unfolding(crate::specs::L2Queue::l2_queue_script), using(module_stock::specs::HeldLaws::held_reads_back))]
    fn reads_back(&self) {
        let _held = self.held.count();
    }

    #[tactic(auto, unfolding(crate::specs::L2Queue::l2_queue_script))]
    fn save(&self, alloc: Global) -> Result<Text, NoMemory> {
        self.held.bytes(alloc)
    }

    #[tactic(auto, unfolding(crate::specs::L2Queue::l2_queue_script))]
    fn load(&mut self, alloc: Global, state: &[u8]) -> Result<(), NoMemory> {
        self.held = Waiting::of_bytes(alloc, state)?;
        Ok(())
    }
}

impl L2Queue {
    /// An L2Queue whose line is free.
    pub fn new(alloc: Global) -> L2Queue
        ensures { result ≡ record { held = [] } }
    {
        L2Queue {
            held: Waiting::new(alloc),
        }
    }

    /// Answers a message that comes.
    fn join(&mut self, alloc: Global, call: &Call, message: &Message) -> Result<Reply, NoMemory>
        ensures { IfOk result (λ reply. told (joined_if (can_be_held message.now) self.old.held
            (kept message.now)) call.now ≡ record { reply = reply; state = self.new }) }
    {
        if !can_be_held(message) {
            return Ok(nothing(alloc));
        }
        let message = kept(alloc, message)?;
        if self.held.count() == 0 {
            self.begin(alloc, call, message)
        } else {
            self.line_up(alloc, call, message)
        }
    }

    /// Sends a message at once.
    fn begin(&mut self, alloc: Global, call: &Call, message: Outgoing) -> Result<Reply, NoMemory>
        requires empty { self.old.held ≡ [] }
        requires fits { Fits message }
        ensures { IfOk result (λ reply. told (joined [] message) call.now
            ≡ record { reply = reply; state = self.new }) }
    {
        let mut looks = Looks::new(alloc);
        let _capacity = looks.whole(alloc, call, "capacity")?;
        let rate = looks.rate(alloc, call, "datarate")?;
        let mut actions = Items::new(alloc);
        emit(&mut actions, "busy", 1)?;
        depart(&mut actions, rate, same(alloc, &message)?)?;
        if looks.is_good() {
            self.held.push(message)?;
        }
        looks.reply(alloc, actions)
    }

    /// Holds one more message, or drops it.
    #[tactic(auto, using(crate::specs::L2QueueLaws::joined_more))]
    fn line_up(&mut self, alloc: Global, call: &Call, message: Outgoing) -> Result<Reply, NoMemory>
        requires some { 0 < length self.old.held }
        requires fits { Fits message }
        ensures { IfOk result (λ reply. told (joined self.old.held message) call.now
            ≡ record { reply = reply; state = self.new }) }
    {
        let mut looks = Looks::new(alloc);
        let capacity = looks.whole(alloc, call, "capacity")?;
        if self.held.signed_count() <= capacity {
            self.admit(alloc, looks, message)
        } else {
            let mut actions = Items::new(alloc);
            emit(&mut actions, "dropped", 1)?;
            looks.reply(alloc, actions)
        }
    }

    /// Holds one more message.
    fn admit(&mut self, alloc: Global, looks: Looks, message: Outgoing) -> Result<Reply, NoMemory>
        requires { Fits message }
        ensures reply { IfOk result (λ reply. reply ≡ record {
          reads = looks.reads;
          actions = allowed looks.verdict (length_emitted (length self.old.held) ∷ []);
        }) }
        ensures state { OnOk result (self.new
            ≡ left looks.verdict self.old (record { held = self.old.held ++ message ∷ [] })) }
    {
        let mut actions = Items::new(alloc);
        emit(&mut actions, "length", self.held.signed_count())?;
        if looks.is_good() {
            self.held.push(message)?;
        }
        looks.reply(alloc, actions)
    }

    /// The line is free again.
    fn free(&mut self, alloc: Global, call: &Call) -> Result<Reply, NoMemory>
        ensures { IfOk result (λ reply. told (freed self.old.held) call.now
            ≡ record { reply = reply; state = self.new }) }
    {
        if self.held.count() > 1 {
            self.free_next(alloc, call)
        } else {
            self.free_last(alloc)
        }
    }

    /// No other waits for the line.
    fn free_last(&mut self, alloc: Global) -> Result<Reply, NoMemory>
        requires { length self.old.held < 2 }
        ensures { IfOk result (λ reply. (call : Call)
            → told (freed self.old.held) call ≡ record { reply = reply; state = self.new }) }
    {
        let mut actions = Items::new(alloc);
        if self.held.count() > 0 {
            let _sent = self.held.take_front();
            emit(&mut actions, "busy", 0)?;
        }
        Ok(simply(alloc, actions))
    }

    /// The next is sent.
    #[tactic(auto, using(crate::specs::L2QueueLaws::freed_more))]
    fn free_next(&mut self, alloc: Global, call: &Call) -> Result<Reply, NoMemory>
        requires { 1 < length self.old.held }
        ensures { IfOk result (λ reply. told (freed self.old.held) call.now
            ≡ record { reply = reply; state = self.new }) }
    {
        let mut looks = Looks::new(alloc);
        let rate = looks.rate(alloc, call, "datarate")?;
        if looks.is_good() {
            self.pass(alloc, looks, rate)
        } else {
            looks.reply(alloc, Items::new(alloc))
        }
    }

    /// The next is sent.
    fn pass(&mut self, alloc: Global, looks: Looks, rate: u64) -> Result<Reply, NoMemory>
        requires { 1 < length self.old.held }
        ensures reply { IfOk result (λ reply. reply ≡ record {
          reads = looks.reads;
          actions = allowed looks.verdict (second_sent rate self.old.held);
        }) }
        ensures state { OnOk result (self.new ≡ record { held = drop 1 self.old.held }) }
    {
        let _sent = self.held.take_front();
        let mut actions = Items::new(alloc);
        depart(&mut actions, rate, self.held.front(alloc)?)?;
        emit(&mut actions, "length", self.held.count_behind())?;
        looks.reply(alloc, actions)
    }
}

/// Sends a message, and sets the timer for when it is off the line.
fn depart(actions: &mut Items<Action>, rate: u64, message: Outgoing) -> Result<(), NoMemory>
    ensures { OnOk result (actions.new ≡ actions.old ++ departed rate message) }
{
    let time = line_time(message.bits, rate);
    send(actions, "out", 0, message)?;
    set_timer(actions, time, 0)?;
    Ok(())
}

/// How long so many bits are on a line of so many bits per second; no more than the greatest time.
fn line_time(bits: u64, rate: u64) -> SimTime
    ensures { result ≡ line_time bits rate }
{
    if rate == 0 {
        return SimTime::zero();
    }
    let ps = (bits as u128 * 1000000000000 + (rate - 1) as u128) / rate as u128;
    if ps <= SimTime::MAX_PS as u128 {
        SimTime::from_ps(ps as u64).unwrap_or(SimTime::zero())
    } else {
        SimTime::from_ps(SimTime::MAX_PS).unwrap_or(SimTime::zero())
    }
}
