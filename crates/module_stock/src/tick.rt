//! A module that fires at equal gaps.

ghost use Rattle.std.specs.Prelude.{◌≡◌, ◌++◌, ℤ, codes, IfOk, OnOk};
ghost use Rattle.module_parts.specs.Asking.{told, bare};
ghost use Rattle.module_parts.specs.Looking.{allowed, left};
ghost use Rattle.module_parts.specs.Numbers.{next_number};
ghost use Rattle.module_stock.specs.Tick.{scheduled, started, firing, fired, tick_script};

use module_api::call::Call;
use module_api::reply::{Action, Reply};
use module_parts::cues::Cue;
use module_parts::looks::Looks;
use module_parts::numbers::Number;
use module_parts::player::Scripted;
use module_parts::replies::{emit, nothing, set_timer};
use sim_time::SimTime;
use sim_values::NoMemory;
use sim_values::text::Text;
use sqlite_items::Items;
use std::alloc::Global;

/// How often a Tick fires, the time from one firing to the next, and the priority of its timer.
#[derive(Clone, Copy)]
struct Pace {
    count: i64,
    gap: SimTime,
    priority: i16,
}

/// A module that fires `count` times, `gap` apart, and emits at each firing how often it has fired.
#[derive(Drop)]
pub struct Tick {
    /// How often it has fired.
    pub n: Number,
}

impl Scripted for Tick {
    ghost kind = { codes "Tick" };

    ghost script = { tick_script };

    fn name(&self) -> &str {
        "Tick"
    }

    #[tactic(auto, unfolding(crate::specs::Tick::tick_script))]
    fn answer(&mut self, alloc: Global, call: &Call) -> Result<Reply, NoMemory> {
        match Cue::of(call) {
            Cue::Start => self.start(alloc, call),
            Cue::Timer => self.fire(alloc, call),
            Cue::Other => Ok(nothing(alloc)),
        }
    }

    #[tactic(auto, unfolding(crate::specs::Tick::tick_script), using(module_parts::specs::NumberLaws::number_reads_back))]
    fn reads_back(&self) {
        let _n = self.n.signed();
    }

    #[tactic(auto, unfolding(crate::specs::Tick::tick_script))]
    fn save(&self, alloc: Global) -> Result<Text, NoMemory> {
        self.n.bytes(alloc)
    }

    #[tactic(auto, unfolding(crate::specs::Tick::tick_script))]
    fn load(&mut self, _alloc: Global, state: &[u8]) -> Result<(), NoMemory> {
        self.n = Number::of_bytes(state);
        Ok(())
    }
}

impl Tick {
    /// A Tick that has not fired yet.
    pub fn new() -> Tick
        ensures { result ≡ record { n = 0 } }
    {
        Tick { n: Number::zero() }
    }

    /// Sets the first timer.
    fn start(&self, alloc: Global, call: &Call) -> Result<Reply, NoMemory>
        ensures { IfOk result (λ reply. told (started self.now) call.now
            ≡ record { reply = reply; state = self.now }) }
    {
        let mut looks = Looks::new(alloc);
        let count = looks.whole(alloc, call, "count")?;
        let gap = looks.time(alloc, call, "gap")?;
        let priority = looks.priority(alloc, call, "priority")?;
        let pace = Pace {
            count,
            gap,
            priority,
        };
        let mut actions = Items::new(alloc);
        schedule(&mut actions, Number::zero(), pace)?;
        looks.reply(alloc, actions)
    }

    /// Fires once more, where the parameters allow it.
    fn fire(&mut self, alloc: Global, call: &Call) -> Result<Reply, NoMemory>
        ensures { IfOk result (λ reply. told (fired self.old (next_number self.old.n)) call.now
            ≡ record { reply = reply; state = self.new }) }
    {
        let n = self.n.next();
        let mut looks = Looks::new(alloc);
        let count = looks.whole(alloc, call, "count")?;
        let gap = looks.time(alloc, call, "gap")?;
        let priority = looks.priority(alloc, call, "priority")?;
        let late = looks.whole(alloc, call, "late")?;
        let pace = Pace {
            count,
            gap,
            priority,
        };
        if late == n.signed() {
            let extra = looks.whole(alloc, call, "extra")?;
            self.fire_as(alloc, looks, n, Some(extra), pace)
        } else {
            self.fire_as(alloc, looks, n, None, pace)
        }
    }

    /// Fires with these values, where they are good.
    fn fire_as(
        &mut self,
        alloc: Global,
        looks: Looks,
        n: Number,
        extra: Option<i64>,
        pace: Pace,
    ) -> Result<Reply, NoMemory>
        ensures reply { IfOk result (λ reply. reply ≡ record {
          reads = looks.reads;
          actions =
              allowed looks.verdict (firing n extra pace.count pace.gap pace.priority);
        }) }
        ensures state { OnOk result (self.new ≡ left looks.verdict self.old (record { n = n })) }
    {
        let mut actions = Items::new(alloc);
        emit(&mut actions, "fired", n.signed())?;
        if let Some(extra) = extra {
            emit(&mut actions, "extra", extra)?;
        }
        schedule(&mut actions, n, pace)?;
        if looks.is_good() {
            self.n = n;
        }
        looks.reply(alloc, actions)
    }
}

/// Sets the next timer, while n is below the count.
fn schedule(actions: &mut Items<Action>, n: Number, pace: Pace) -> Result<(), NoMemory>
    ensures { OnOk result (actions.new
        ≡ actions.old ++ scheduled n pace.count pace.gap pace.priority) }
{
    if n.signed() < pace.count {
        set_timer(actions, pace.gap, pace.priority)?;
    }
    Ok(())
}
