//! A module that sends messages at equal gaps.

ghost use Rattle.std.specs.Prelude.{◌≡◌, ◌++◌, codes, IfOk, OnOk};
ghost use Rattle.module_parts.specs.Asking.{told};
ghost use Rattle.module_parts.specs.Numbers.{next_number};
ghost use Rattle.module_stock.specs.Source.{next_timer, begun, message, emitted, source_script};

use module_api::call::Call;
use module_api::message::Outgoing;
use module_api::reply::{Action, Reply};
use module_parts::cues::Cue;
use module_parts::looks::Looks;
use module_parts::numbers::Number;
use module_parts::player::Scripted;
use module_parts::replies::{nothing, send, set_timer};
use sim_time::SimTime;
use sim_values::NoMemory;
use sim_values::text::Text;
use sqlite_items::Items;
use std::alloc::Global;

/// A module that sends `count` messages through its gate `out`, `gap` apart.
#[derive(Drop)]
pub struct Source {
    /// How many it has sent.
    pub n: Number,
}

impl Scripted for Source {
    ghost kind = { codes "Source" };

    ghost script = { source_script };

    fn name(&self) -> &str {
        "Source"
    }

    #[tactic(auto, unfolding(crate::specs::Source::source_script))]
    fn answer(&mut self, alloc: Global, call: &Call) -> Result<Reply, NoMemory> {
        match Cue::of(call) {
            Cue::Start => self.begin(alloc, call),
            Cue::Timer => self.emit(alloc, call),
            Cue::Other => Ok(nothing(alloc)),
        }
    }

    #[tactic(auto, unfolding(crate::specs::Source::source_script), using(module_parts::specs::NumberLaws::number_reads_back))]
    fn reads_back(&self) {
        let _n = self.n.signed();
    }

    #[tactic(auto, unfolding(crate::specs::Source::source_script))]
    fn save(&self, alloc: Global) -> Result<Text, NoMemory> {
        self.n.bytes(alloc)
    }

    #[tactic(auto, unfolding(crate::specs::Source::source_script))]
    fn load(&mut self, _alloc: Global, state: &[u8]) -> Result<(), NoMemory> {
        self.n = Number::of_bytes(state);
        Ok(())
    }
}

impl Source {
    /// A Source that has not sent anything yet.
    pub fn new() -> Source
        ensures { result ≡ record { n = 0 } }
    {
        Source { n: Number::zero() }
    }

    /// Sets the first timer.
    fn begin(&self, alloc: Global, call: &Call) -> Result<Reply, NoMemory>
        ensures { IfOk result
            (λ reply. told (begun self.now) call.now ≡ record { reply = reply; state = self.now }) }
    {
        let mut looks = Looks::new(alloc);
        let count = looks.whole(alloc, call, "count")?;
        let start = looks.time(alloc, call, "start")?;
        let mut actions = Items::new(alloc);
        schedule(&mut actions, Number::zero(), count, start)?;
        looks.reply(alloc, actions)
    }

    /// Sends one more message, where the parameters allow it.
    fn emit(&mut self, alloc: Global, call: &Call) -> Result<Reply, NoMemory>
        ensures { IfOk result (λ reply. told (emitted self.old (next_number self.old.n)) call.now
            ≡ record { reply = reply; state = self.new }) }
    {
        let n = self.n.next();
        let mut looks = Looks::new(alloc);
        let count = looks.whole(alloc, call, "count")?;
        let bits = looks.bits(alloc, call, "bits")?;
        let gap = looks.time(alloc, call, "gap")?;
        let mut actions = Items::new(alloc);
        send(&mut actions, "out", 0, message(alloc, bits))?;
        schedule(&mut actions, n, count, gap)?;
        self.n = looks.left(self.n, n);
        looks.reply(alloc, actions)
    }
}

/// The message that is sent.
pub fn message(alloc: Global, bits: u64) -> Outgoing
    ensures { result ≡ message bits }
{
    Outgoing {
        kind: 0,
        priority: 0,
        bits,
        payload: Text::empty(alloc),
    }
}

/// Sets the next timer, while n is below the count.
fn schedule(
    actions: &mut Items<Action>,
    n: Number,
    count: i64,
    wait: SimTime,
) -> Result<(), NoMemory>
    ensures { OnOk result (actions.new ≡ actions.old ++ next_timer n count wait) }
{
    if n.signed() < count {
        set_timer(actions, wait, 0)?;
    }
    Ok(())
}
