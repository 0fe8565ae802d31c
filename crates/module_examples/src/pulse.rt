//! A module with a parameter, a timer and a state.

ghost use Rattle.std.specs.Prelude.{◌≡◌, codes, IfOk};
ghost use Rattle.module_parts.specs.Asking.{told};
ghost use Rattle.module_examples.specs.Pulse.{begun, pulsed, pulse_script};

use module_api::call::Call;
use module_api::catalogue::Catalogue;
use module_api::reply::Reply;
use module_parts::cues::Cue;
use module_parts::looks::Looks;
use module_parts::player::Scripted;
use module_parts::replies::{emit, nothing, set_timer, simply};
use sim_values::NoMemory;
use sim_values::text::Text;
use sqlite_items::Items;
use std::alloc::Global;

/// A module that emits `pulse` once, at the time `wait`.
#[derive(Drop)]
pub struct Pulse {
    /// Whether it has.
    pub has_pulsed: bool,
}

impl Pulse {
    /// Sets its timer.
    fn begin(&self, alloc: Global, call: &Call) -> Result<Reply, NoMemory>
        ensures { IfOk result
            (λ reply. told (begun self.now) call.now ≡ record { reply = reply; state = self.now }) }
    {
        let mut looks = Looks::new(alloc);
        let wait = looks.time(alloc, call, "wait")?;
        let mut actions = Items::new(alloc);
        set_timer(&mut actions, wait, 0)?;
        looks.reply(alloc, actions)
    }

    /// Emits at its first timer.
    fn pulse(&mut self, alloc: Global, call: &Call) -> Result<Reply, NoMemory>
        ensures { IfOk result (λ reply. told (pulsed self.old.has_pulsed self.old) call.now
            ≡ record { reply = reply; state = self.new }) }
    {
        if self.has_pulsed {
            return Ok(nothing(alloc));
        }
        let mut actions = Items::new(alloc);
        emit(&mut actions, "pulse", 1)?;
        self.has_pulsed = true;
        Ok(simply(alloc, actions))
    }
}

impl Scripted for Pulse {
    ghost kind = { codes "Pulse" };

    ghost script = { pulse_script };

    fn name(&self) -> &str {
        "Pulse"
    }

    #[tactic(auto, unfolding(crate::specs::Pulse::pulse_script))]
    fn answer(&mut self, alloc: Global, call: &Call) -> Result<Reply, NoMemory> {
        match Cue::of(call) {
            Cue::Start => self.begin(alloc, call),
            Cue::Timer => self.pulse(alloc, call),
            Cue::Other => Ok(nothing(alloc)),
        }
    }

    #[tactic(auto, unfolding(crate::specs::Pulse::pulse_script))]
    fn reads_back(&self) {
        if self.has_pulsed {}
    }

    #[tactic(auto, unfolding(crate::specs::Pulse::pulse_script))]
    fn save(&self, alloc: Global) -> Result<Text, NoMemory> {
        let state: &[u8] = if self.has_pulsed { &[1] } else { &[0] };
        Ok(Text::from_bytes(alloc, state)?)
    }

    #[tactic(auto, unfolding(crate::specs::Pulse::pulse_script))]
    fn load(&mut self, _alloc: Global, state: &[u8]) -> Result<(), NoMemory> {
        self.has_pulsed = state == [1].as_slice();
        Ok(())
    }
}

/// The catalogue that knows Pulse alone.
pub struct Pulses;

impl Catalogue for Pulses {
    ghost use Rattle.module_examples.specs.PulseLaws.{pulses, pulses_lawful};

    ghost behaviour = { pulses };

    ghost lawful = { pulses_lawful };
}
