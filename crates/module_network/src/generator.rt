//! A module that sends frames at equal gaps.

ghost use Rattle.std.specs.Prelude.{◌≡◌, ◌++◌, codes, IfOk, OnOk};
ghost use Rattle.module_parts.specs.Asking.{told};
ghost use Rattle.module_parts.specs.Numbers.{next_number};
ghost use Rattle.module_network.specs.Generator.{next_timer, begun, steps, frame_payload, frame_sent};
ghost use Rattle.module_network.specs.Generator.{emitted, generator_script};

use crate::frame::{Frame, port_of};
use module_api::call::Call;
use module_api::message::Outgoing;
use module_api::reply::{Action, Reply};
use module_parts::cues::Cue;
use module_parts::looks::Looks;
use module_parts::numbers::Number;
use module_parts::player::Scripted;
use module_parts::replies::{emit, nothing, send, set_timer};
use sim_time::SimTime;
use sim_values::NoMemory;
use sim_values::text::Text;
use sqlite_items::Items;
use std::alloc::Global;

/// A module that sends `count` frames through its gate `out`, `gap` apart.
#[derive(Drop)]
pub struct Generator {
    /// How many it has sent.
    pub n: Number,
}

impl Scripted for Generator {
    ghost kind = { codes "Generator" };

    ghost script = { generator_script };

    fn name(&self) -> &str {
        "Generator"
    }

    #[tactic(auto, unfolding(crate::specs::Generator::generator_script))]
    fn answer(&mut self, alloc: Global, call: &Call) -> Result<Reply, NoMemory> {
        match Cue::of(call) {
            Cue::Start => self.begin(alloc, call),
            Cue::Timer => self.emit(alloc, call),
            Cue::Other => Ok(nothing(alloc)),
        }
    }

    #[tactic(auto, unfolding(crate::specs::Generator::generator_script), using(module_parts::specs::NumberLaws::number_reads_back))]
    fn reads_back(&self) {
        let _n = self.n.signed();
    }

    #[tactic(auto, unfolding(crate::specs::Generator::generator_script))]
    fn save(&self, alloc: Global) -> Result<Text, NoMemory> {
        self.n.bytes(alloc)
    }

    #[tactic(auto, unfolding(crate::specs::Generator::generator_script))]
    fn load(&mut self, _alloc: Global, state: &[u8]) -> Result<(), NoMemory> {
        self.n = Number::of_bytes(state);
        Ok(())
    }
}

impl Generator {
    /// A Generator that has not sent anything yet.
    pub fn new() -> Generator
        ensures { result ≡ record { n = 0 } }
    {
        Generator { n: Number::zero() }
    }

    /// Sets the first timer.
    fn begin(&self, alloc: Global, call: &Call) -> Result<Reply, NoMemory>
        ensures { IfOk result
            (λ reply. told (begun self.now) call.now ≡ record { reply = reply; state = self.now }) }
    {
        let mut looks = Looks::new(alloc);
        let count = looks.whole(alloc, call, "count")?;
        let start = looks.time(alloc, call, "start")?;
        let mut actions = Items::new(alloc);
        schedule(&mut actions, Number::zero(), count, start)?;
        looks.reply(alloc, actions)
    }

    /// Sends one more frame, where the parameters allow it.
    fn emit(&mut self, alloc: Global, call: &Call) -> Result<Reply, NoMemory>
        ensures { IfOk result (λ reply. told (emitted self.old call.now.time) call.now
            ≡ record { reply = reply; state = self.new }) }
    {
        let n = self.n.next();
        let mut looks = Looks::new(alloc);
        let count = looks.whole(alloc, call, "count")?;
        let bits = looks.bits(alloc, call, "bits")?;
        let gap = looks.time(alloc, call, "gap")?;
        let source = looks.short(alloc, call, "address")?;
        let destination = looks.short(alloc, call, "destAddress")?;
        let route = looks.text(alloc, call, "route")?;
        let frame = Frame {
            destination,
            source,
            stamp: call.time.ps(),
            number: self.n.signed() as u64,
        };
        let mut actions = Items::new(alloc);
        send_frame(&mut actions, alloc, bits, route.as_bytes(), frame)?;
        schedule(&mut actions, n, count, gap)?;
        self.n = looks.left(self.n, n);
        looks.reply(alloc, actions)
    }
}

/// Sends a frame, and emits its length.
fn send_frame(
    actions: &mut Items<Action>,
    alloc: Global,
    bits: u64,
    route: &[u8],
    frame: Frame,
) -> Result<(), NoMemory>
    ensures { OnOk result (actions.new ≡ actions.old ++ frame_sent bits route.now frame) }
{
    let message = Outgoing {
        kind: 0,
        priority: 0,
        bits,
        payload: Text::from_vec(payload(alloc, route, frame)?),
    };
    emit(actions, "sent", (frame.number).min(i64::MAX as u64) as i64)?;
    send(actions, "out", 0, message)?;
    Ok(())
}

/// The ports of a route, and then a frame.
fn payload(alloc: Global, route: &[u8], frame: Frame) -> Result<Vec<u8>, NoMemory>
    ensures { IfOk result (λ bytes. bytes.items ≡ frame_payload route.now frame) }
{
    let mut bytes = steps(alloc, route)?;
    frame.add_to(&mut bytes)?;
    Ok(bytes)
}

/// The ports of a route.
fn steps(alloc: Global, route: &[u8]) -> Result<Vec<u8>, NoMemory>
    ensures { IfOk result (λ bytes. bytes.items ≡ steps route.now) }
{
    let mut bytes = Vec::new(alloc);
    for c in route {
        bytes.push(port_of(*c))?;
    }
    Ok(bytes)
}

/// Sets the next timer, while n is below the count.
fn schedule(
    actions: &mut Items<Action>,
    n: Number,
    count: i64,
    wait: SimTime,
) -> Result<(), NoMemory>
    ensures { OnOk result (actions.new ≡ actions.old ++ next_timer n count wait) }
{
    if n.signed() < count {
        set_timer(actions, wait, 0)?;
    }
    Ok(())
}
