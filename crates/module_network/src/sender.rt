//! A module that sends numbered frames, and sends them again until they are acknowledged.

ghost use Rattle.std.specs.Prelude.{◌≡◌, ◌<◌, ◌-◌, ◌++◌, Some, codes, IfOk, OnOk, IfSome};
ghost use Rattle.module_parts.specs.Asking.{told};
ghost use Rattle.module_parts.specs.Cues.{is_timer};
ghost use Rattle.module_parts.specs.Numbers.{limit};
ghost use Rattle.module_parts.specs.Pairs.{paired};
ghost use Rattle.module_network.specs.Sender.{begun, frame, frames, end_of, timer_if, new_sent};
ghost use Rattle.module_network.specs.Sender.{rtt_emitted, done_first, base_of, turned};
ghost use Rattle.module_network.specs.Sender.{framed_heard, heard, sender_script};

use crate::frame::Frame;
use module_api::call::{Call, CallReason};
use module_api::message::{Message, Outgoing};
use module_api::reply::{Action, Reply};
use module_parts::cues::{is_from, is_timer};
use module_parts::looks::Looks;
use module_parts::numbers::Number;
use module_parts::pairs::Pair;
use module_parts::player::Scripted;
use module_parts::replies::{cancel_timer, emit, nothing, send, set_timer};
use sim_time::SimTime;
use sim_values::NoMemory;
use sim_values::text::Text;
use sqlite_items::Items;
use std::alloc::Global;

/// A module that sends `count` frames through its gate `out`, at most `window` of them not
/// acknowledged, and all of these again when its timeout is over (go back N; a window of 1 is stop
/// and wait).
#[derive(Drop)]
pub struct Sender {
    /// How many are acknowledged, and how many have been sent at least once.
    pub sent: Pair,
}

/// What its parameters say of frames.
#[derive(Clone, Copy)]
struct Terms {
    count: u64,
    bits: u64,
    window: u16,
    timeout: SimTime,
    source: u16,
    destination: u16,
}

impl Scripted for Sender {
    ghost kind = { codes "Sender" };

    ghost script = { sender_script };

    fn name(&self) -> &str {
        "Sender"
    }

    #[tactic(auto, unfolding(crate::specs::Sender::sender_script))]
    fn answer(&mut self, alloc: Global, call: &Call) -> Result<Reply, NoMemory> {
        match &call.prompt {
            CallReason::Initialize(_) => self.begin(alloc, call),
            CallReason::Message(message) => self.hear(alloc, call, message),
            CallReason::Finish => Ok(nothing(alloc)),
        }
    }

    #[tactic(auto, unfolding(crate::specs::Sender::sender_script), using(module_parts::specs::PairLaws::pair_reads_back))]
    fn reads_back(&self) {
        let _base = self.sent.first.signed();
        let _next = self.sent.second.signed();
    }

    #[tactic(auto, unfolding(crate::specs::Sender::sender_script))]
    fn save(&self, alloc: Global) -> Result<Text, NoMemory> {
        self.sent.bytes(alloc)
    }

    #[tactic(auto, unfolding(crate::specs::Sender::sender_script))]
    fn load(&mut self, _alloc: Global, state: &[u8]) -> Result<(), NoMemory> {
        self.sent = Pair::of_bytes(state);
        Ok(())
    }
}

impl Sender {
    /// A Sender that has sent nothing.
    pub fn new() -> Sender
        ensures { result ≡ record { sent = record { first = 0; second = 0 } } }
    {
        Sender {
            sent: Pair {
                first: Number::zero(),
                second: Number::zero(),
            },
        }
    }

    /// Sets the timer for the first frames.
    fn begin(&self, alloc: Global, call: &Call) -> Result<Reply, NoMemory>
        ensures { IfOk result
            (λ reply. told (begun self.now) call.now ≡ record { reply = reply; state = self.now }) }
    {
        let mut looks = Looks::new(alloc);
        let count = looks.bits(alloc, call, "count")?;
        let start = looks.time(alloc, call, "start")?;
        let mut actions = Items::new(alloc);
        timer_if(&mut actions, count > 0, start)?;
        looks.reply(alloc, actions)
    }

    /// Answers a message.
    fn hear(&mut self, alloc: Global, call: &Call, message: &Message) -> Result<Reply, NoMemory>
        ensures { IfOk result (λ reply. told (heard (is_timer message.now.origin) self.old
            call.now.time message.now) call.now ≡ record { reply = reply; state = self.new }) }
    {
        if is_timer(&message.origin) {
            return self.turn(alloc, call, None);
        }
        let hears = is_from("in", &message.origin) && message.kind == 1;
        if !hears {
            return Ok(nothing(alloc));
        }
        match Frame::read(message.payload.as_bytes()) {
            None => Ok(nothing(alloc)),
            Some(frame) => self.acknowledge(alloc, call, frame),
        }
    }

    /// All frames before a number have arrived.
    fn acknowledge(&mut self, alloc: Global, call: &Call, frame: Frame) -> Result<Reply, NoMemory>
        ensures { IfOk result (λ reply. told (framed_heard (Some frame) self.old call.now.time)
            call.now ≡ record { reply = reply; state = self.new }) }
    {
        let base = self.sent.first.signed() as u64;
        let next = self.sent.second.signed() as u64;
        let is_new = base < frame.number && frame.number <= next;
        if is_new {
            self.turn(alloc, call, Some(frame))
        } else {
            Ok(nothing(alloc))
        }
    }

    /// What is done at the timeout, and where frames are acknowledged.
    fn turn(&mut self, alloc: Global, call: &Call, heard: Option<Frame>) -> Result<Reply, NoMemory>
        requires { IfSome heard (λ f. (self.old.sent.first < f.number) × (f.number < limit)) }
        ensures { IfOk result (λ reply. told (turned heard self.old.sent call.now.time) call.now
            ≡ record { reply = reply; state = self.new }) }
    {
        let mut looks = Looks::new(alloc);
        let count = looks.bits(alloc, call, "count")?;
        let bits = looks.bits(alloc, call, "bits")?;
        let window = looks.short(alloc, call, "window")?;
        let timeout = looks.time(alloc, call, "timeout")?;
        let source = looks.short(alloc, call, "address")?;
        let destination = looks.short(alloc, call, "destAddress")?;
        let terms = Terms {
            count,
            bits,
            window,
            timeout,
            source,
            destination,
        };
        let mut actions = Items::new(alloc);
        do_first(&mut actions, alloc, heard, self.sent, &terms, call.time)?;
        let base = base_of(heard, self.sent);
        let then = send_new(
            &mut actions,
            alloc,
            &terms,
            call.time,
            base,
            self.sent.second,
        )?;
        self.sent = looks.left(self.sent, then);
        looks.reply(alloc, actions)
    }
}

/// How many are acknowledged then.
fn base_of(heard: Option<Frame>, sent: Pair) -> Number
    requires { IfSome heard (λ f. (sent.first < f.number) × (f.number < limit)) }
    ensures { result ≡ base_of heard sent }
{
    match heard {
        None => sent.first,
        Some(frame) => Number::of(frame.number),
    }
}

/// What is done first.
fn do_first(
    actions: &mut Items<Action>,
    alloc: Global,
    heard: Option<Frame>,
    sent: Pair,
    terms: &Terms,
    time: SimTime,
) -> Result<(), NoMemory>
    requires { IfSome heard (λ f. (sent.first < f.number) × (f.number < limit)) }
    ensures { OnOk result (actions.new ≡ actions.old ++ done_first heard sent terms.now time) }
{
    match heard {
        None => {
            let from = sent.first.signed() as u64;
            let to = sent.second.signed() as u64;
            send_all(actions, alloc, "resent", terms, time, from, to)
        }
        Some(frame) => {
            let base = sent.first.signed() as u64;
            emit(actions, "acked", (frame.number - base) as i64)?;
            emit_rtt(actions, frame.delay(time))?;
            cancel_timer(actions)
        }
    }
}

/// Emits a time from a frame to its acknowledgement, where there is one.
fn emit_rtt(actions: &mut Items<Action>, rtt: Option<u64>) -> Result<(), NoMemory>
    requires { IfSome rtt (λ n. n < limit) }
    ensures { OnOk result (actions.new ≡ actions.old ++ rtt_emitted rtt) }
{
    if let Some(rtt) = rtt {
        emit(actions, "rtt", rtt as i64)?;
    }
    Ok(())
}

/// Sets the timer.
fn timer_if(actions: &mut Items<Action>, is_set: bool, timeout: SimTime) -> Result<(), NoMemory>
    ensures { OnOk result (actions.new ≡ actions.old ++ timer_if is_set timeout) }
{
    if is_set {
        set_timer(actions, timeout, 0)?;
    }
    Ok(())
}

/// The number before which all frames are sent that may be.
fn end_of(terms: &Terms, base: Number, next: Number) -> Number
    ensures { result ≡ end_of terms.now base next }
{
    let base = base.signed() as u64;
    let next = next.signed() as u64;
    Number::of(
        (base + terms.window as u64)
            .min(terms.count)
            .min(i64::MAX as u64)
            .max(next),
    )
}

/// Sends what the window allows and was never sent, and sets the timer where some frame is not
/// acknowledged. Hands out the state after it.
fn send_new(
    actions: &mut Items<Action>,
    alloc: Global,
    terms: &Terms,
    time: SimTime,
    base: Number,
    next: Number,
) -> Result<Pair, NoMemory>
    ensures actions { OnOk result (actions.new ≡ actions.old ++ new_sent terms.now time base next) }
    ensures state { IfOk result (λ p. p ≡ paired base (end_of terms.now base next)) }
{
    let end = end_of(terms, base, next);
    let to = end.signed() as u64;
    send_all(
        actions,
        alloc,
        "sent",
        terms,
        time,
        next.signed() as u64,
        to,
    )?;
    timer_if(actions, (base.signed() as u64) < to, terms.timeout)?;
    Ok(Pair {
        first: base,
        second: end,
    })
}

/// Sends the frames of these numbers, and emits each number.
fn send_all(
    actions: &mut Items<Action>,
    alloc: Global,
    signal: &'static str,
    terms: &Terms,
    time: SimTime,
    from: u64,
    to: u64,
) -> Result<(), NoMemory>
    requires { to < limit }
    ensures { OnOk result
        (actions.new ≡ actions.old ++ frames signal.now terms.now time from (to - from)) }
{
    for i in from..to {
        send_one(actions, alloc, signal, terms, time, i)?;
    }
    Ok(())
}

/// Sends the frame of that number, and emits the number.
fn send_one(
    actions: &mut Items<Action>,
    alloc: Global,
    signal: &'static str,
    terms: &Terms,
    time: SimTime,
    i: u64,
) -> Result<(), NoMemory>
    requires { i < limit }
    ensures { OnOk result (actions.new ≡ actions.old ++ frames signal.now terms.now time i 1) }
{
    emit(actions, signal, i as i64)?;
    send(actions, "out", 0, frame(alloc, terms, time, i)?)?;
    Ok(())
}

/// The frame of that number.
fn frame(alloc: Global, terms: &Terms, time: SimTime, i: u64) -> Result<Outgoing, NoMemory>
    ensures { IfOk result (λ m. m ≡ frame terms.now time i) }
{
    let frame = Frame {
        destination: terms.destination,
        source: terms.source,
        stamp: time.ps(),
        number: i,
    };
    let mut bytes = Vec::new(alloc);
    frame.add_to(&mut bytes)?;
    Ok(Outgoing {
        kind: 0,
        priority: 0,
        bits: terms.bits,
        payload: Text::from_vec(bytes),
    })
}
