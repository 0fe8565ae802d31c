//! A module where frames end, which measures them.

ghost use Rattle.std.specs.Prelude.{◌≡◌, ◌++◌, pos, codes, IfOk, OnOk};
ghost use Rattle.module_parts.specs.Asking.{told};
ghost use Rattle.module_parts.specs.Numbers.{next_number};
ghost use Rattle.module_network.specs.Meter.{delayed, spaced, measured, heard, meter_script};

use crate::frame::Frame;
use module_api::call::{Call, CallReason};
use module_api::message::Message;
use module_api::reply::{Action, Reply};
use module_parts::cues::is_from;
use module_parts::numbers::Number;
use module_parts::player::Scripted;
use module_parts::replies::{emit, fail, nothing, simply};
use sim_time::SimTime;
use sim_values::NoMemory;
use sim_values::text::Text;
use sqlite_items::Items;
use std::alloc::Global;

/// A module that emits of each message that reaches its gate `in`, or comes from outside, how long
/// it is, how long it was under way, and how long after the last one it comes.
#[derive(Drop)]
pub struct Meter {
    /// One more than the time of the last message, 0 where there was none.
    pub last: Number,
}

impl Scripted for Meter {
    ghost kind = { codes "Meter" };

    ghost script = { meter_script };

    fn name(&self) -> &str {
        "Meter"
    }

    #[tactic(auto, unfolding(crate::specs::Meter::meter_script))]
    fn answer(&mut self, alloc: Global, call: &Call) -> Result<Reply, NoMemory> {
        if let CallReason::Message(message) = &call.prompt {
            if is_from("in", &message.origin) {
                return self.measure(alloc, call.time, message);
            }
        }
        Ok(nothing(alloc))
    }

    #[tactic(auto, unfolding(crate::specs::Meter::meter_script), using(module_parts::specs::NumberLaws::number_reads_back))]
    fn reads_back(&self) {
        let _last = self.last.signed();
    }

    #[tactic(auto, unfolding(crate::specs::Meter::meter_script))]
    fn save(&self, alloc: Global) -> Result<Text, NoMemory> {
        self.last.bytes(alloc)
    }

    #[tactic(auto, unfolding(crate::specs::Meter::meter_script))]
    fn load(&mut self, _alloc: Global, state: &[u8]) -> Result<(), NoMemory> {
        self.last = Number::of_bytes(state);
        Ok(())
    }
}

impl Meter {
    /// A Meter that no message has reached.
    pub fn new() -> Meter
        ensures { result ≡ record { last = 0 } }
    {
        Meter {
            last: Number::zero(),
        }
    }

    /// Measures a message.
    fn measure(
        &mut self,
        alloc: Global,
        time: SimTime,
        message: &Message,
    ) -> Result<Reply, NoMemory>
        ensures { IfOk result (λ reply. (call : Call) → told (measured self.old time message.now)
            call ≡ record { reply = reply; state = self.new }) }
    {
        let mut actions = Items::new(alloc);
        if message.bits > i64::MAX as u64 {
            fail(&mut actions, alloc, "bits")?;
            return Ok(simply(alloc, actions));
        }
        emit(&mut actions, "bits", message.bits as i64)?;
        emit_delay(&mut actions, time, message.payload.as_bytes())?;
        let next = after(time);
        emit_interval(&mut actions, self.last, next)?;
        self.last = next;
        Ok(simply(alloc, actions))
    }
}

/// Emits how long a frame was under way, where a payload has one that was sent by now.
pub fn emit_delay(
    actions: &mut Items<Action>,
    time: SimTime,
    payload: &[u8],
) -> Result<(), NoMemory>
    ensures { OnOk result (actions.new ≡ actions.old ++ delayed time payload.now) }
{
    if let Some(frame) = Frame::read(payload) {
        if let Some(delay) = frame.delay(time) {
            emit(actions, "delay", delay as i64)?;
        }
    }
    Ok(())
}

/// Emits how long after the last message this one comes.
fn emit_interval(actions: &mut Items<Action>, last: Number, next: Number) -> Result<(), NoMemory>
    ensures { OnOk result (actions.new ≡ actions.old ++ spaced last next) }
{
    let last = last.signed();
    let next = next.signed();
    if last > 0 && last <= next {
        emit(actions, "interval", next - last)?;
    }
    Ok(())
}

/// One more than a time.
fn after(time: SimTime) -> Number
    ensures { result ≡ next_number time }
{
    Number::of(time.ps()).next()
}
