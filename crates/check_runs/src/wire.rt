//! A module that joins and frees gates, as an example, and a catalogue that knows it.

ghost use Rattle.std.specs.Prelude.{◌≡◌, ◌*◌, codes, IfOk};
ghost use Rattle.module_parts.specs.Asking.{told};
ghost use Rattle.check_runs.specs.Wire.{from, link, stepped, to, wire_script};

use module_api::call::Call;
use module_api::catalogue::Catalogue;
use module_api::reply::{GatePlace, Link, Reply};
use module_parts::cues::Cue;
use module_parts::player::Scripted;
use module_parts::replies::{connect, disconnect, end_run, gate_at, nothing, set_timer, simply};
use sim_time::SimTime;
use sim_values::NoMemory;
use sim_values::text::Text;
use sqlite_items::Items;
use std::alloc::Global;

/// A Wire joins two gates after 1 s, frees the first 1.5 s later, and 0.5 s after that joins them
/// again and ends the run.
#[derive(Drop)]
pub struct Wire {
    /// How many of these it has done.
    pub step: u8,
}

/// The gate that it joins.
fn from(alloc: Global) -> Result<GatePlace, NoMemory>
    ensures { IfOk result (λ place. place ≡ from) }
{
    gate_at(alloc, "N.s".as_bytes(), "out", 0)
}

/// The gate to which it joins that.
fn to(alloc: Global) -> Result<GatePlace, NoMemory>
    ensures { IfOk result (λ place. place ≡ to) }
{
    gate_at(alloc, "N.k".as_bytes(), "in", 0)
}

/// So many milliseconds.
fn ms(number: u32) -> SimTime
    ensures { result ≡ number * 1000000000 }
{
    SimTime::from_ps(number as u64 * 1_000_000_000).unwrap()
}

/// The channel between them.
fn link() -> Option<Link>
    ensures { result ≡ link }
{
    Some(Link {
        delay: ms(1),
        datarate: 0,
    })
}

impl Wire {
    /// Does its next step.
    fn step_on(&mut self, alloc: Global, call: &Call) -> Result<Reply, NoMemory>
        ensures { IfOk result (λ reply. told (stepped self.old.step self.old) call.now
            ≡ record { reply = reply; state = self.new }) }
    {
        let _path = &call.path;
        let mut actions = Items::new(alloc);
        match self.step {
            0 => {
                connect(&mut actions, from(alloc)?, to(alloc)?, link())?;
                set_timer(&mut actions, ms(1500), 0)?;
                self.step = 1;
            }
            1 => {
                disconnect(&mut actions, from(alloc)?)?;
                set_timer(&mut actions, ms(500), 0)?;
                self.step = 2;
            }
            _ => {
                connect(&mut actions, from(alloc)?, to(alloc)?, link())?;
                end_run(&mut actions)?;
                self.step = 3;
            }
        }
        Ok(simply(alloc, actions))
    }
}

impl Scripted for Wire {
    ghost kind = { codes "Wire" };

    ghost script = { wire_script };

    fn name(&self) -> &str {
        "Wire"
    }

    #[tactic(auto, unfolding(crate::specs::Wire::wire_script))]
    fn answer(&mut self, alloc: Global, call: &Call) -> Result<Reply, NoMemory> {
        match Cue::of(call) {
            Cue::Start => {
                let mut actions = Items::new(alloc);
                set_timer(&mut actions, ms(1000), 0)?;
                Ok(simply(alloc, actions))
            }
            Cue::Timer => self.step_on(alloc, call),
            Cue::Other => Ok(nothing(alloc)),
        }
    }

    #[tactic(auto, unfolding(crate::specs::Wire::wire_script))]
    fn reads_back(&self) {}

    #[tactic(auto, unfolding(crate::specs::Wire::wire_script))]
    fn save(&self, alloc: Global) -> Result<Text, NoMemory> {
        Ok(Text::from_bytes(alloc, &[self.step])?)
    }

    #[tactic(auto, unfolding(crate::specs::Wire::wire_script))]
    fn load(&mut self, _alloc: Global, state: &[u8]) -> Result<(), NoMemory> {
        if let [step] = state {
            self.step = *step;
        }
        Ok(())
    }
}

/// The catalogue that knows it, and the stock modules Source and Sink.
pub struct Wiring;

impl Catalogue for Wiring {
    ghost use Rattle.check_runs.specs.Wire.{wired, wired_lawful};

    ghost behaviour = { wired };

    ghost lawful = { wired_lawful };
}
