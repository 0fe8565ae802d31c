//! A module that takes numbered frames in their order, and acknowledges them.

ghost use Rattle.std.specs.Prelude.{◌≡◌, [], ◌∷◌, ◌++◌, ◌&&◌, pos, codes, IfOk, OnOk};
ghost use Rattle.std.specs.Ordering.{int_eq};
ghost use Rattle.module_parts.specs.Cues.{is_from};
ghost use Rattle.module_parts.specs.Asking.{told};
ghost use Rattle.module_network.specs.Receiver.{sum_of, goodput, acknowledgement, next_of, noted};
ghost use Rattle.module_network.specs.Receiver.{taken, heard, finished, receiver_script};

use crate::frame::Frame;
use crate::meter::emit_delay;
use module_api::call::{Call, CallReason};
use module_api::message::{Message, Outgoing};
use module_api::reply::{Action, Reply};
use module_parts::cues::is_from;
use module_parts::looks::Looks;
use module_parts::numbers::Number;
use module_parts::pairs::Pair;
use module_parts::player::Scripted;
use module_parts::replies::{emit, nothing, record, send, simply};
use sim_time::SimTime;
use sim_values::NoMemory;
use sim_values::text::Text;
use sqlite_items::Items;
use std::alloc::Global;

/// A module that takes the frames of its gate `in`, or from outside, in the order of their numbers,
/// and answers each frame through its gate `out` with the number that it waits for.
#[derive(Drop)]
pub struct Receiver {
    /// The number that it waits for, and how many bits it has taken.
    pub taken: Pair,
}

impl Scripted for Receiver {
    ghost kind = { codes "Receiver" };

    ghost script = { receiver_script };

    fn name(&self) -> &str {
        "Receiver"
    }

    #[tactic(auto, unfolding(crate::specs::Receiver::receiver_script))]
    fn answer(&mut self, alloc: Global, call: &Call) -> Result<Reply, NoMemory> {
        match &call.prompt {
            CallReason::Initialize(_) => Ok(nothing(alloc)),
            CallReason::Message(message) => self.hear(alloc, call, message),
            CallReason::Finish => self.finish(alloc, call),
        }
    }

    #[tactic(auto, unfolding(crate::specs::Receiver::receiver_script), using(module_parts::specs::PairLaws::pair_reads_back))]
    fn reads_back(&self) {
        let _next = self.taken.first.signed();
        let _bits = self.taken.second.signed();
    }

    #[tactic(auto, unfolding(crate::specs::Receiver::receiver_script))]
    fn save(&self, alloc: Global) -> Result<Text, NoMemory> {
        self.taken.bytes(alloc)
    }

    #[tactic(auto, unfolding(crate::specs::Receiver::receiver_script))]
    fn load(&mut self, _alloc: Global, state: &[u8]) -> Result<(), NoMemory> {
        self.taken = Pair::of_bytes(state);
        Ok(())
    }
}

impl Receiver {
    /// A Receiver that has taken nothing.
    pub fn new() -> Receiver
        ensures { result ≡ record { taken = record { first = 0; second = 0 } } }
    {
        Receiver {
            taken: Pair {
                first: Number::zero(),
                second: Number::zero(),
            },
        }
    }

    /// Answers a message.
    fn hear(&mut self, alloc: Global, call: &Call, message: &Message) -> Result<Reply, NoMemory>
        ensures { IfOk result (λ reply. told (heard (is_from (codes "in") message.now.origin
            && int_eq message.now.kind (pos 0)) self.old call.now.time message.now) call.now
            ≡ record { reply = reply; state = self.new }) }
    {
        let hears = is_from("in", &message.origin) && message.kind == 0;
        if !hears {
            return Ok(nothing(alloc));
        }
        match Frame::read(message.payload.as_bytes()) {
            None => Ok(nothing(alloc)),
            Some(frame) => self.take(alloc, call, message, frame),
        }
    }

    /// Takes a frame, where it is the one that it waits for, and answers.
    fn take(
        &mut self,
        alloc: Global,
        call: &Call,
        message: &Message,
        frame: Frame,
    ) -> Result<Reply, NoMemory>
        ensures { IfOk result (λ reply. told (taken self.old.taken call.now.time message.now frame)
            call.now ≡ record { reply = reply; state = self.new }) }
    {
        let is_next = frame.number == self.taken.first.signed() as u64;
        let next = next_of(is_next, self.taken, message.bits);
        let mut looks = Looks::new(alloc);
        let bits = looks.bits(alloc, call, "ackBits")?;
        let mut actions = Items::new(alloc);
        let payload = message.payload.as_bytes();
        note(&mut actions, is_next, self.taken, frame, call.time, payload)?;
        send(
            &mut actions,
            "out",
            0,
            acknowledgement(alloc, bits, frame, next.first)?,
        )?;
        self.taken = looks.left(self.taken, next);
        looks.reply(alloc, actions)
    }

    /// Records how much it took.
    fn finish(&self, alloc: Global, call: &Call) -> Result<Reply, NoMemory>
        ensures { IfOk result (λ reply. told (finished self.now call.now.time) call.now
            ≡ record { reply = reply; state = self.now }) }
    {
        let mut actions = Items::new(alloc);
        record(&mut actions, "receivedBits", self.taken.second.signed())?;
        record(
            &mut actions,
            "goodput",
            goodput(self.taken.second, call.time),
        )?;
        Ok(simply(alloc, actions))
    }
}

/// What is taken, where the frame is the one that it waits for.
fn next_of(is_next: bool, pair: Pair, bits: u64) -> Pair
    ensures { result ≡ next_of is_next pair bits }
{
    if is_next {
        Pair {
            first: pair.first.next(),
            second: sum(pair.second, bits),
        }
    } else {
        pair
    }
}

/// Emits what becomes of a frame.
fn note(
    actions: &mut Items<Action>,
    is_next: bool,
    pair: Pair,
    frame: Frame,
    time: SimTime,
    payload: &[u8],
) -> Result<(), NoMemory>
    ensures { OnOk result
        (actions.new ≡ actions.old ++ noted is_next pair frame time payload.now) }
{
    if is_next {
        emit(actions, "received", pair.first.signed())?;
        emit_delay(actions, time, payload)
    } else {
        emit(
            actions,
            "discarded",
            frame.number.min(i64::MAX as u64) as i64,
        )
    }
}

/// So many bits more; no more than the greatest number.
fn sum(n: Number, bits: u64) -> Number
    ensures { result ≡ sum_of n bits }
{
    let n = n.signed() as u64;
    Number::of((n as u128 + bits as u128).min(i64::MAX as u128) as u64)
}

/// So many bits in that time, in whole bits per second; 0 at the time 0, and no more than the
/// greatest number.
fn goodput(bits: Number, time: SimTime) -> i64
    ensures { result ≡ pos (goodput bits time) }
{
    let ps = time.ps();
    if ps == 0 {
        return 0;
    }
    let rate = bits.signed() as u128 * 1000000000000 / ps as u128;
    rate.min(i64::MAX as u128) as i64
}

/// The answer to a frame: the number that is waited for, and the frame's stamp.
fn acknowledgement(
    alloc: Global,
    bits: u64,
    frame: Frame,
    next: Number,
) -> Result<Outgoing, NoMemory>
    ensures { IfOk result (λ m. m ≡ acknowledgement bits frame next) }
{
    let answer = Frame {
        destination: frame.source,
        source: frame.destination,
        stamp: frame.stamp,
        number: next.signed() as u64,
    };
    let mut bytes = Vec::new(alloc);
    answer.add_to(&mut bytes)?;
    Ok(Outgoing {
        kind: 1,
        priority: 0,
        bits,
        payload: Text::from_vec(bytes),
    })
}
