//! A module that creates others while a run goes on.

ghost use Rattle.std.specs.Prelude.{◌≡◌, ◌∷◌, [], ◌++◌, codes, IfOk, OnOk};
ghost use Rattle.module_parts.specs.Asking.{told};
ghost use Rattle.module_parts.specs.Paths.{parent_path};
ghost use Rattle.module_stock.specs.Spawner.{removed, soon, spawned, stepped, thrown};
ghost use Rattle.module_stock.specs.Spawner.{spawner_script};

use crate::source::message;
use module_api::call::Call;
use module_api::reply::{Action, Flight, Reply};
use module_parts::cues::Cue;
use module_parts::looks::Looks;
use module_parts::paths::{parent_path, path_in};
use module_parts::player::Scripted;
use module_parts::replies::{
    create, delete, gate_at, nothing, plan_of, send_direct, set_timer, simply,
};
use sim_time::SimTime;
use sim_values::NoMemory;
use sim_values::text::Text;
use sqlite_items::Items;
use std::alloc::Global;

/// A module that creates a Sink beside itself after a second, and sends it a message; a second
/// later it deletes that, and creates another one.
#[derive(Drop)]
pub struct Spawner {
    /// How many of these two it has done.
    pub step: u8,
}

impl Scripted for Spawner {
    ghost kind = { codes "Spawner" };

    ghost script = { spawner_script };

    fn name(&self) -> &str {
        "Spawner"
    }

    #[tactic(auto, unfolding(crate::specs::Spawner::spawner_script))]
    fn answer(&mut self, alloc: Global, call: &Call) -> Result<Reply, NoMemory> {
        match Cue::of(call) {
            Cue::Start => self.begin(alloc),
            Cue::Timer => self.step_on(alloc, call),
            Cue::Other => Ok(nothing(alloc)),
        }
    }

    #[tactic(auto, unfolding(crate::specs::Spawner::spawner_script))]
    fn reads_back(&self) {}

    #[tactic(auto, unfolding(crate::specs::Spawner::spawner_script))]
    fn save(&self, alloc: Global) -> Result<Text, NoMemory> {
        Ok(Text::from_bytes(alloc, &[self.step])?)
    }

    #[tactic(auto, unfolding(crate::specs::Spawner::spawner_script))]
    fn load(&mut self, _alloc: Global, state: &[u8]) -> Result<(), NoMemory> {
        if let [step] = state {
            self.step = *step;
        }
        Ok(())
    }
}

impl Spawner {
    /// A Spawner that has not done anything yet.
    pub fn new() -> Spawner
        ensures { result ≡ record { step = 0 } }
    {
        Spawner { step: 0 }
    }

    /// Sets the first timer.
    fn begin(&self, alloc: Global) -> Result<Reply, NoMemory>
        ensures { IfOk result (λ reply. reply ≡ record { reads = []; actions = soon ∷ [] }) }
    {
        let mut actions = Items::new(alloc);
        set_soon(&mut actions)?;
        Ok(simply(alloc, actions))
    }

    /// Does the next step.
    fn step_on(&mut self, alloc: Global, call: &Call) -> Result<Reply, NoMemory>
        ensures { IfOk result
            (λ reply. told (stepped self.old.step (parent_path call.now.path) self.old) call.now
            ≡ record { reply = reply; state = self.new }) }
    {
        match self.step {
            0 => self.spawn(alloc, call),
            1 => self.spawn_again(alloc, call),
            _ => Ok(nothing(alloc)),
        }
    }

    /// Creates a Sink, and sends it a message.
    fn spawn(&mut self, alloc: Global, call: &Call) -> Result<Reply, NoMemory>
        ensures { IfOk result
            (λ reply. told (stepped 0 (parent_path call.now.path) self.old) call.now
            ≡ record { reply = reply; state = self.new }) }
    {
        let around = parent_path(call.path.as_bytes());
        let mut looks = Looks::new(alloc);
        let delay = looks.time(alloc, call, "delay")?;
        let mut actions = Items::new(alloc);
        spawn_in(&mut actions, alloc, around)?;
        throw(&mut actions, alloc, around, delay)?;
        set_soon(&mut actions)?;
        self.step = looks.left(self.step, 1);
        looks.reply(alloc, actions)
    }

    /// Deletes the Sink, and creates another one.
    fn spawn_again(&mut self, alloc: Global, call: &Call) -> Result<Reply, NoMemory>
        ensures { IfOk result
            (λ reply. told (stepped 1 (parent_path call.now.path) self.old) call.now
            ≡ record { reply = reply; state = self.new }) }
    {
        let around = parent_path(call.path.as_bytes());
        let mut looks = Looks::new(alloc);
        let polite = looks.truth(alloc, call, "polite")?;
        let mut actions = Items::new(alloc);
        remove(&mut actions, alloc, around, polite)?;
        spawn_in(&mut actions, alloc, around)?;
        self.step = looks.left(self.step, 2);
        looks.reply(alloc, actions)
    }
}

/// Sets timer 0 for a second later.
pub fn set_soon(actions: &mut Items<Action>) -> Result<(), NoMemory>
    ensures { OnOk result (actions.new ≡ actions.old ++ soon ∷ []) }
{
    set_timer(actions, SimTime::from_ps(1_000_000_000_000).unwrap(), 0)
}

/// Creates a Sink in the module of that path.
fn spawn_in(actions: &mut Items<Action>, alloc: Global, around: &[u8]) -> Result<(), NoMemory>
    ensures { OnOk result (actions.new ≡ actions.old ++ spawned around.now ∷ []) }
{
    create(actions, alloc, around, "w", None, plan_of(alloc, "Sink")?)
}

/// Sends a message to the Sink there.
fn throw(
    actions: &mut Items<Action>,
    alloc: Global,
    around: &[u8],
    delay: SimTime,
) -> Result<(), NoMemory>
    ensures { OnOk result (actions.new ≡ actions.old ++ thrown around.now delay ∷ []) }
{
    let path = path_in(alloc, around, "w")?;
    let place = gate_at(alloc, path.as_bytes(), "in", 0)?;
    let flight = Flight {
        delay,
        duration: SimTime::zero(),
    };
    send_direct(actions, place, message(alloc, 8), flight)
}

/// Deletes the Sink there.
fn remove(
    actions: &mut Items<Action>,
    alloc: Global,
    around: &[u8],
    polite: bool,
) -> Result<(), NoMemory>
    ensures { OnOk result (actions.new ≡ actions.old ++ removed around.now polite ∷ []) }
{
    let path = path_in(alloc, around, "w")?;
    delete(actions, alloc, path.as_bytes(), polite)
}
